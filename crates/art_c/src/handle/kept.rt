//! The map of a handle, which is its own, or frozen and shared.
ghost use Rattle.std.specs.Prelude.{◌≡◌};
ghost use Rattle.art_c.specs.Handles.{is_shut, state_pairs, state_of};

use crate::bytes::Bytes;
use art_map::TreeMap;
use std::sync::Arc;

/// A map for C.
pub(crate) type Map<V> = TreeMap<Bytes, V, 16>;

/// A map in a struct of its own: where it is dropped, its `PREFIX_LEN` is known, so its nodes are known to fit.
pub struct Owned<V: Drop> {
    pub(crate) map: Map<V>,
}

impl<V: Drop> Drop for Owned<V> {
    fn drop(self) {
        let Owned { map: _map } = self;
    }
}

/// The map of a handle.
#[derive(Drop)]
pub enum Kept<V: Drop> {
    /// It is the handle's own, and can be changed.
    Own(Owned<V>),
    /// It is frozen: other handles may have it, too, and nobody changes it.
    Frozen(Arc<Owned<V>>),
}

impl<V: Drop> Kept<V> {
    /// The map, to be read.
    pub(crate) fn map(&self) -> &Map<V>
        ensures { result.now.pairs ≡ state_pairs (state_of self.now) }
    {
        match self {
            Kept::Own(owned) => &owned.map,
            Kept::Frozen(shared) => &shared.map,
        }
    }

    /// Whether the map is frozen.
    pub(crate) fn is_frozen(&self) -> bool
        ensures { result ≡ is_shut (state_of self.now) }
    {
        match self {
            Kept::Own(_) => false,
            Kept::Frozen(_) => true,
        }
    }
}

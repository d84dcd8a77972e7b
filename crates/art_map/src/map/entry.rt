//! The entry of a key: its pair in the map, or the place where it would go.
ghost use Rattle.std.specs.Prelude.{◌≡◌};
ghost use Rattle.art_operations.specs.Pairs.{IsPlaceFor};
ghost use Rattle.art_map.specs.Found.{HasPairUnder};

mod methods;
mod occupied;
mod vacant;

use crate::map::TreeMap;
use art_arena::LeafPtr;
use art_bytes::AsBytes;
use art_operations::InsertPoint;
use std::marker::{Model, PhantomData};

/// The entry of a key.
///
/// ```
/// let mut map = TreeMap::new(rt.alloc());
/// map.insert(*b"ab", 1)?;
/// match map.entry(*b"ab") {
///     Entry::Occupied(entry) => assert_eq!(rt; *entry.get(), 1),
///     Entry::Vacant(entry) => assert_eq!(rt; entry.into_key(), *b"cd"),
/// }
/// ```
#[derive(Drop)]
pub enum Entry<'a, K: AsBytes, V, const PREFIX_LEN: usize, M: 'a = TreeMap<K, V, PREFIX_LEN>> {
    /// The key is stored.
    Occupied(OccupiedEntry<'a, K, V, PREFIX_LEN, M>),
    /// The key is not stored.
    Vacant(VacantEntry<'a, K, V, PREFIX_LEN, M>),
}

/// The entry of a key that is stored.
///
/// The last parameter is never written: it tells the borrow check that the map lives as long as it is lent.
#[derive(Drop)]
pub struct OccupiedEntry<
    'a,
    K: AsBytes,
    V,
    const PREFIX_LEN: usize,
    M: 'a = TreeMap<K, V, PREFIX_LEN>,
> {
    pub(super) map: &'a mut TreeMap<K, V, PREFIX_LEN>,
    pub(super) leaf: LeafPtr,
    pub(super) mark: PhantomData<M>,
    ghost held: { HasPairUnder map.now leaf },
}

// The place that was found for a key. It is a struct with a model of its own: so who moves an entry needs to know
// nothing of the kinds of nodes that the place names.
#[derive(Clone, Copy)]
pub(super) struct FoundPlace {
    place: Option<InsertPoint>,
}

impl Model for FoundPlace {
    ghost use Rattle.std.specs.Prelude.{Option};
    ghost use Rattle.art_operations.specs.declared.insert.point.InsertPoint.{InsertPoint};

    ghost Value = { Option InsertPoint };

    ghost view = { λ p. p.place };

    ghost inverse = { λ place. record { place = place } };
}

impl FoundPlace {
    pub(super) fn new(place: Option<InsertPoint>) -> Self
        ensures { result ≡ place }
    {
        FoundPlace { place }
    }

    pub(super) fn found(self) -> Option<InsertPoint>
        ensures { result ≡ self }
    {
        self.place
    }
}

/// The entry of a key that is not stored, and may be inserted.
///
/// The last parameter is never written: it tells the borrow check that the map lives as long as it is lent.
#[derive(Drop)]
pub struct VacantEntry<
    'a,
    K: AsBytes,
    V,
    const PREFIX_LEN: usize,
    M: 'a = TreeMap<K, V, PREFIX_LEN>,
> {
    pub(super) map: &'a mut TreeMap<K, V, PREFIX_LEN>,
    pub(super) place: FoundPlace,
    pub(super) key: K,
    pub(super) mark: PhantomData<M>,
    ghost placed: { ∥ IsPlaceFor K.bytes PREFIX_LEN map.now.nodes map.now.root (K.bytes key) place ∥₁ },
}

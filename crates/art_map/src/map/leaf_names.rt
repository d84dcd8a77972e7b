//! Which keys the names of a map's leaves stand for.

use crate::map::TreeMap;
use art_bytes::AsBytes;

impl<K: AsBytes, V, const PREFIX_LEN: usize> TreeMap<K, V, PREFIX_LEN> {
    ghost use Rattle.art_map.specs.LeafNames.{AreNamed};

    // Tells that each key stands in one leaf.
    #[inline(always)]
    pub(super) fn name_leaves(&self)
        ensures { AreNamed K.bytes self.now }
    {
        let _opened = &self.root;
    }
}

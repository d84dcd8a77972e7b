//! Keys that go into a map in the making, one after another.
ghost use Rattle.std.specs.Prelude.{◌≡◌, ◌<◌, ◌^◌, ℕ, List, IsTrue};
ghost use Rattle.std.specs.Iterator.{IsFinite};
ghost use Rattle.std.specs.Map.{keys_of};
ghost use Rattle.std.specs.Map.Iter.{deref};
ghost use Rattle.art_arena.specs.arena.Arena.{HasRoom};
ghost use Rattle.art_map.specs.Builders.{HasGathered, HasRoomLeft, nodes_of};
ghost use Rattle.art_operations.specs.LeafNames.{HasLeavesOf};
ghost use Rattle.art_set.specs.Bulk.{GathersKeysWith};

use crate::set::TreeSet;
use crate::set::refused::RefusedKey;
use art_bytes::{AsBytes, NoPrefixesBytes};
use art_map::{TreeMap, TreeMapBuilder};
use std::mem;

// Puts in the keys that an iterator gives, one after another, up to the first that is refused.
pub(super) fn put_all<
    K: NoPrefixesBytes + Drop,
    U: IntoIterator<Item = K>,
    const PREFIX_LEN: usize,
>(builder: &mut TreeMapBuilder<K, (), PREFIX_LEN>, iter: U) -> Result<(), RefusedKey<K>>
    requires fits_in_memory { PREFIX_LEN < 2 ^ 62 }
    requires taken { (pairs : List (K × Unit {0})) × HasGathered K.bytes K.is_key builder.old pairs }
    requires ends { (it : U.IntoIter) → U.into_iter_gives iter it
        → U.IntoIter.can_next it × IsFinite (U.IntoIter.remaining it) }
    ensures keys { GathersKeysWith K.bytes (λ key. key) U.into_iter_gives U.IntoIter.next_gives K.is_key iter
        builder.old result builder.new }
    ensures names { HasLeavesOf K.bytes (nodes_of builder.new) (nodes_of builder.old) }
{
    for key in iter {
        match builder.put(key, ()) {
            Ok(()) => {}
            Err(refused) => return Err(RefusedKey { key: refused.key }),
        }
    }
    Ok(())
}

// Puts in copies of the keys that an iterator lends, as `put_all` does.
pub(super) fn put_copies<
    'a,
    K: NoPrefixesBytes + Copy + Drop + 'a,
    U: IntoIterator<Item = &'a K>,
    const PREFIX_LEN: usize,
>(builder: &mut TreeMapBuilder<K, (), PREFIX_LEN>, iter: U) -> Result<(), RefusedKey<K>>
    requires fits_in_memory { PREFIX_LEN < 2 ^ 62 }
    requires taken { (pairs : List (K × Unit {0})) × HasGathered K.bytes K.is_key builder.old pairs }
    requires ends { (it : U.IntoIter) → U.into_iter_gives iter it
        → U.IntoIter.can_next it × IsFinite (U.IntoIter.remaining it) }
    ensures keys { GathersKeysWith K.bytes deref U.into_iter_gives U.IntoIter.next_gives K.is_key iter builder.old
        result builder.new }
    ensures names { HasLeavesOf K.bytes (nodes_of builder.new) (nodes_of builder.old) }
{
    for key in iter {
        match builder.put(*key, ()) {
            Ok(()) => {}
            Err(refused) => return Err(RefusedKey { key: refused.key }),
        }
    }
    Ok(())
}

impl<K: AsBytes, const PREFIX_LEN: usize> TreeSet<K, PREFIX_LEN> {
    // Whether an inner node fits in memory, as it does if there is room for one.
    pub(super) fn fits_in_memory(&self) -> bool
        ensures value { IsTrue result → PREFIX_LEN < 2 ^ 62 }
        ensures room { HasRoom self.now.nodes 1 → IsTrue result }
        ensures exact { PREFIX_LEN < 2 ^ 62 → IsTrue result }
    {
        let (arena, _root) = self.map.nodes();
        arena.fits_in_memory()
    }
}

impl<K: NoPrefixesBytes + Drop, const PREFIX_LEN: usize> TreeSet<K, PREFIX_LEN> {
    // Moves the keys into a map in the making, which goes on from them. The set is empty then.
    pub(super) fn take_into_builder(&mut self) -> TreeMapBuilder<K, (), PREFIX_LEN>
        requires fits_in_memory { PREFIX_LEN < 2 ^ 62 }
        ensures keys { (pairs : List (K × Unit {0})) × HasGathered K.bytes K.is_key result pairs
            × (keys_of pairs ≡ self.old.keys) }
        ensures names { HasLeavesOf K.bytes (nodes_of result) self.old.nodes }
        ensures room { (n : ℕ) → HasRoom self.old.nodes n → HasRoomLeft result n }
    {
        let empty = TreeMap::with_prefix_len(self.alloc);
        TreeMapBuilder::from_map(mem::replace(&mut self.map, empty))
    }

    // Takes the keys of a map in the making, in place of those that are there.
    pub(super) fn put_back(&mut self, builder: TreeMapBuilder<K, (), PREFIX_LEN>)
        requires fits_in_memory { PREFIX_LEN < 2 ^ 62 }
        requires taken { (pairs : List (K × Unit {0})) × HasGathered K.bytes K.is_key builder pairs }
        ensures keys { (pairs : List (K × Unit {0})) → HasGathered K.bytes K.is_key builder pairs
            → self.new.keys ≡ keys_of pairs }
        ensures names { HasLeavesOf K.bytes self.new.nodes (nodes_of builder) }
        ensures room { (n : ℕ) → HasRoomLeft builder n → HasRoom self.new.nodes n }
    {
        self.map = builder.finish();
    }
}

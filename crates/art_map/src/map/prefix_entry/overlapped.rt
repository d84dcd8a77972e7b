//! The leaves of the pairs whose keys overlap a key, and the pair that is inserted in their place.
ghost use Rattle.std.specs.Prelude.{◌≡◌, length, option_map, IfOk, IsOk, OnErr, OnOk};
ghost use Rattle.art_arena.specs.arena.Arena.{HasRoom, KeepsRoomOf, UsesRoom};
ghost use Rattle.art_arena.specs.arena.Shapes.{key_of};
ghost use Rattle.art_map.specs.Contents.{IsUntouched};
ghost use Rattle.art_map.specs.LeafNames.{KeepsLeaves};
ghost use Rattle.art_map.specs.Walked.{IsWalkOf};
ghost use Rattle.art_operations.specs.Frees.{SwapsLeaves};
ghost use Rattle.art_operations.specs.Insertions.{HandsPairBack};
ghost use Rattle.art_operations.specs.KeyedLists.{HasKey, overlapping};
ghost use Rattle.art_operations.specs.Overwrites.{removed_by};
ghost use Rattle.art_operations.specs.Pairs.{with_pair_over};

use crate::map::TreeMap;
use crate::map::ranges::walk_of;
use art_arena::LeafPtr;
use art_bytes::AsBytes;
use art_nodes::OpaqueNodePtr;
use art_operations::{
    InsertRefused, PrefixInsertResult, find_place_over, find_prefix_segment, insert_over,
    prefix_search_unchecked,
};
use art_walks::{RawIterator, SubtreeIter};

// What a prefix insertion leaves: the new root, the leaf of the new pair, and how many pairs are no more.
#[derive(Clone, Copy)]
pub(crate) struct Overwritten {
    root: OpaqueNodePtr,
    pub(crate) leaf: LeafPtr,
    pub(crate) count: usize,
}

// What a prefix insertion leaves, without the pair that it may hold.
fn left_by<K, V>(put: &PrefixInsertResult<K, V>) -> Overwritten
    ensures root { result.root ≡ put.now.insert_result.new_root }
    ensures leaf { result.leaf ≡ put.now.insert_result.leaf_node_ptr }
    ensures count { result.count ≡ removed_by put.now }
{
    Overwritten {
        root: put.insert_result.new_root,
        leaf: put.insert_result.leaf_node_ptr,
        count: put.pairs_removed(),
    }
}

// What a prefix insertion leaves, as `left_by` tells. The pair that it may hold is dropped.
fn overwritten_by<K: Drop, V: Drop>(put: PrefixInsertResult<K, V>) -> Overwritten
    ensures root { result.root ≡ put.insert_result.new_root }
    ensures leaf { result.leaf ≡ put.insert_result.leaf_node_ptr }
    ensures count { result.count ≡ removed_by put }
{
    left_by(&put)
}

impl<K: AsBytes, V, const PREFIX_LEN: usize> TreeMap<K, V, PREFIX_LEN> {
    ghost use Rattle.art_map.specs.Found.{HasPairAt, IsFound};
    ghost use Rattle.art_map.specs.Overlapped.{IsLoneAt, overlaps_query};

    // The first and the last leaf of the pairs whose keys overlap these bytes. A key that is a prefix of them does so
    // alone. If there is none, those do that begin with them.
    pub(crate) fn ends_over(&self, key: &[u8]) -> Option<(LeafPtr, LeafPtr)>
        ensures walk { IsWalkOf self.now.nodes result (overlapping (key_of K.bytes) key.now self.now.pairs) }
        ensures first { IsFound (overlaps_query K.bytes key.now) self.now (option_map (λ ends. ends.0) result) }
    {
        match self.root {
            Some(root) => match prefix_search_unchecked(&self.arena, root, key) {
                Some(leaf) => Some((leaf, leaf)),
                None => find_prefix_segment(&self.arena, root, key),
            },
            None => None,
        }
    }

    // The run of the leaves of the pairs whose keys overlap these bytes.
    pub(crate) fn walk_over(&self, key: &[u8]) -> RawIterator
        ensures { IsWalkOf self.now.nodes result (overlapping (key_of K.bytes) key.now self.now.pairs) }
    {
        walk_of(self.ends_over(key))
    }

    // The pairs whose keys overlap these bytes.
    pub(crate) fn pairs_over(&self, key: &[u8]) -> SubtreeIter<'_, K, V, PREFIX_LEN>
        ensures { result ≡ overlapping (key_of K.bytes) key.now self.now.pairs }
    {
        let walk = walk_of(self.ends_over(key));
        SubtreeIter::new(&self.arena, walk, self.root)
    }

    // The leaf of the one pair whose key overlaps these bytes, where it is one alone.
    pub(crate) fn lone_over(&self, key: &[u8]) -> Option<LeafPtr>
        ensures { IsLoneAt (overlaps_query K.bytes key.now) self.now result }
    {
        let (first, last) = self.ends_over(key)?;
        if first == last {
            return Some(first);
        }
        None
    }

    // Inserts a pair in place of all whose keys overlap its key, and returns its leaf and how many they were. It fails
    // as `prefix_insert` does.
    pub(crate) fn prefix_put(
        &mut self,
        key: K,
        value: V,
    ) -> Result<Overwritten, InsertRefused<K, V>>
    where
        K: Drop,
        V: Drop,
        ensures count { IfOk result (λ put.
            put.count ≡ length (overlapping (key_of K.bytes) (K.bytes key) self.old.pairs)) }
        ensures leaf { IfOk result (λ put. HasPairAt self.new put.leaf (key, value)) }
        ensures pairs { OnOk result (self.new.pairs ≡ with_pair_over K.bytes key value self.old.pairs) }
        ensures stored { HasKey (key_of K.bytes) (K.bytes key) self.old.pairs → IsOk result }
        ensures names { OnOk result (KeepsLeaves K.bytes self.old self.new) }
        ensures err { OnErr result (self.new.pairs ≡ self.old.pairs) }
        ensures kept { OnErr result (IsUntouched self.old self.new) }
        ensures handed_back { HandsPairBack key value result }
        ensures succeeds { HasRoom self.old.nodes 2 → IsOk result }
        ensures room { UsesRoom 2 self.old.nodes self.new.nodes }
        ensures stored_room { HasKey (key_of K.bytes) (K.bytes key) self.old.pairs
            → KeepsRoomOf self.old.nodes self.new.nodes }
        ensures leaf_room { IfOk result (λ put. SwapsLeaves 1 put.count self.old.nodes self.new.nodes) }
    {
        // By value an option of a name counts as moved, so a copy goes in.
        let root = self.root;
        let place = find_place_over(&self.arena, root, key.as_bytes());
        match insert_over(&mut self.arena, place, key, value) {
            Ok(put) => {
                let left = overwritten_by(put);
                self.root = Some(left.root);
                Ok(left)
            }
            Err(refused) => Err(refused),
        }
    }
}

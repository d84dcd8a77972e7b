//! `split_off`: the pairs of a map from a key on move into a map of their own. Where few move, they move one by one.
//! Where many do, the inner nodes are dropped, the leaves move along their list, and the inner nodes are made anew.
ghost use Rattle.std.specs.Prelude.{◌≡◌, ◌≢◌, ◌⊎◌, ◌+◌, ◌-◌, ◌*◌, ◌<◌, ◌≤◌, ◌++◌, ◌^◌, List, [], length, None};
ghost use Rattle.std.specs.Prelude.{IfOk, IsOk, OnErr, OnOk};
ghost use Rattle.std.specs.declared.ops.Bound.TheVariants.{Included, Excluded, Unbounded};
ghost use Rattle.art_nodes.specs.Name.{Name};
ghost use Rattle.art_nodes.specs.declared.kind.NodeType.TheVariants.{Leaf};
ghost use Rattle.art_arena.specs.arena.Arena.{held_at, HasNoRoom, HasRoom, HasRoomOf, UsesRoom};
ghost use Rattle.art_arena.specs.arena.Rooms.{FreesRoomOf};
ghost use Rattle.art_arena.specs.arena.Shapes.{key_of};
ghost use Rattle.art_arena.specs.tree.Order.{AscendsByKey};
ghost use Rattle.art_operations.specs.Frees.{FreesLeaves};
ghost use Rattle.art_operations.specs.LeafNames.{HasLeavesOf};
ghost use Rattle.art_operations.specs.Pairs.{HasPairs};
ghost use Rattle.art_operations.specs.Rebuilds.{HasInnerRoom};
ghost use Rattle.art_map.specs.Contents.{IsUntouched};
ghost use Rattle.art_map.specs.LeafNames.{AddsNoLeaf, KeepsLeaves};
ghost use Rattle.art_map.specs.Ranges.{pairs_between};
ghost use Rattle.art_map.specs.inner.Joins.{IsCutLast};

use crate::map::TreeMap;
use crate::map::joins::reserve_leaves;
use crate::map::room::nodes_fit;
use art_arena::{End, NodeArena};
use art_bytes::AsBytes;
use art_nodes::OpaqueNodePtr;
use art_operations::{LeafCursor, SpineRoom, move_leaves, rebuild};
use std::alloc::AllocError;
use std::mem;
use std::ops::Bound;

// Where at least one pair leaves for so many that stay, the leaves move along their list: a removal and an insertion
// cost some eight times that.
const STAYING_FOR_EACH: usize = 4;

impl<K: AsBytes, V, const PREFIX_LEN: usize> TreeMap<K, V, PREFIX_LEN> {
    /// Moves the pairs whose keys' bytes are not less than the query's into a map of their own, and returns that map.
    ///
    /// If few leave, they move one by one. If many do, all leaves that go are moved along their list, and the inner
    /// nodes of both maps are made anew. So the cost never goes by more than the pairs of the map. The others keep
    /// their leaves. If all leave, the nodes go with them, and all room. If none do, all room stays, in an empty map
    /// too.
    ///
    /// A pair that leaves gives room for a leaf back. Of each other kind it uses room for four nodes at most.
    ///
    /// Fails if there is no memory for the nodes that the moves need, those of the new map among them. All of it is
    /// allocated first, and the map is unchanged then. If none leave, or all, it allocates nothing, and can't fail
    /// where nodes fit in memory (`nodes_fit`).
    ///
    /// ```
    /// let mut map = TreeMap::new(rt.alloc());
    /// map.extend([(*b"ab", 1), (*b"cd", 2), (*b"ef", 3)])?;
    /// let off = map.split_off(b"cd")?;
    /// assert!(rt; map.keys().eq([b"ab"]));
    /// assert!(rt; off.keys().eq([b"cd", b"ef"]));
    /// ```
    pub fn split_off<Q: AsBytes>(&mut self, key: &Q) -> Result<Self, AllocError>
    where
        K: Drop,
        V: Drop,
        ensures off { IfOk result (λ off. off.pairs
            ≡ pairs_between K.bytes (Included (Q.bytes key.now)) Unbounded self.old.pairs) }
        ensures pairs { OnOk result (self.new.pairs
            ≡ pairs_between K.bytes Unbounded (Excluded (Q.bytes key.now)) self.old.pairs) }
        ensures names { OnOk result (KeepsLeaves K.bytes self.old self.new) }
        ensures err { OnErr result (self.new.pairs ≡ self.old.pairs) }
        ensures kept { OnErr result (IsUntouched self.old self.new) }
        ensures free { PREFIX_LEN < 2 ^ 62
            → (pairs_between K.bytes (Included (Q.bytes key.now)) Unbounded self.old.pairs ≡ [])
            ⊎ (pairs_between K.bytes Unbounded (Excluded (Q.bytes key.now)) self.old.pairs ≡ []) → IsOk result }
        ensures leaf_room { IfOk result (λ off. self.new.pairs ≢ []
            → FreesLeaves (length off.pairs) self.old.nodes self.new.nodes) }
        ensures room { IfOk result (λ off. self.new.pairs ≢ []
            → UsesRoom (4 * length off.pairs) self.old.nodes self.new.nodes) }
        ensures nothing { IfOk result (λ off. off.pairs ≡ [] → (self.new ≡ self.old) × HasNoRoom off.nodes) }
        ensures swapped { IfOk result (λ off. self.new.pairs ≡ [] → off.pairs ≢ []
            → (off ≡ self.old) × HasNoRoom self.new.nodes) }
    {
        if !nodes_fit::<PREFIX_LEN>() {
            return Err(AllocError);
        }
        let count = self.count_from(key.as_bytes());
        if count == 0 {
            return Ok(TreeMap::with_prefix_len(self.alloc));
        }
        if count == self.len() {
            let mut off = TreeMap::with_prefix_len(self.alloc);
            mem::swap(self, &mut off);
            return Ok(off);
        }
        self.name_leaves();
        let off = self.split_last(count)?;
        self.name_leaves();
        Ok(off)
    }

    // Moves so many last pairs, but not all, into a map of their own, one by one or all at once.
    fn split_last(&mut self, count: usize) -> Result<Self, AllocError>
    where
        K: Drop,
        V: Drop,
        requires fits { PREFIX_LEN < 2 ^ 62 }
        requires many { count < length self.old.pairs }
        ensures joined { IfOk result (λ off. self.new.pairs ++ off.pairs ≡ self.old.pairs) }
        ensures moved { OnOk result (length self.new.pairs + count ≡ length self.old.pairs) }
        ensures none_new { OnOk result (AddsNoLeaf K.bytes self.old self.new) }
        ensures leaf_room { OnOk result (FreesLeaves count self.old.nodes self.new.nodes) }
        ensures room { OnOk result (UsesRoom (4 * count) self.old.nodes self.new.nodes) }
        ensures err { OnErr result (self.new.pairs ≡ self.old.pairs) }
        ensures kept { OnErr result (IsUntouched self.old self.new) }
    {
        let stay = self.len() - count;
        if count <= (stay - 1) / STAYING_FOR_EACH {
            return self.split_by_ends(count);
        }
        self.split_at_once(count)
    }

    // Moves so many last pairs into a map of their own, one by one.
    fn split_by_ends(&mut self, count: usize) -> Result<Self, AllocError>
    where
        K: Drop,
        V: Drop,
        requires fits { PREFIX_LEN < 2 ^ 62 }
        requires many { count < length self.old.pairs }
        ensures joined { IfOk result (λ off. self.new.pairs ++ off.pairs ≡ self.old.pairs) }
        ensures moved { OnOk result (length self.new.pairs + count ≡ length self.old.pairs) }
        ensures none_new { OnOk result (AddsNoLeaf K.bytes self.old self.new) }
        ensures leaf_room { OnOk result (FreesLeaves count self.old.nodes self.new.nodes) }
        ensures room { OnOk result (UsesRoom count self.old.nodes self.new.nodes) }
        ensures err { OnErr result (self.new.pairs ≡ self.old.pairs) }
        ensures kept { OnErr result (IsUntouched self.old self.new) }
    {
        // Tells that the pairs ascend.
        let (_nodes, _root) = self.nodes();
        let mut off = TreeMap::with_prefix_len(self.alloc);
        off.reserve_insertions(count)?;
        self.reserve_removals(count)?;
        self.move_last(count, &mut off);
        Ok(off)
    }

    // Moves so many last pairs into a map of their own: their leaves move along the list, and the inner nodes of both
    // maps are made anew.
    fn split_at_once(&mut self, count: usize) -> Result<Self, AllocError>
    where
        K: Drop,
        V: Drop,
        requires fits { PREFIX_LEN < 2 ^ 62 }
        requires many { count < length self.old.pairs }
        ensures joined { IfOk result (λ off. self.new.pairs ++ off.pairs ≡ self.old.pairs) }
        ensures moved { OnOk result (length self.new.pairs + count ≡ length self.old.pairs) }
        ensures none_new { OnOk result (AddsNoLeaf K.bytes self.old self.new) }
        ensures leaf_room { OnOk result (FreesLeaves count self.old.nodes self.new.nodes) }
        ensures room { OnOk result (UsesRoom (length self.old.pairs - count - 1) self.old.nodes self.new.nodes) }
        ensures err { OnErr result (self.new.pairs ≡ self.old.pairs) }
        ensures kept { OnErr result (IsUntouched self.old self.new) }
    {
        let stay = self.len() - count;
        let mut arena = NodeArena::new(self.alloc);
        let off_room = reserve_leaves(self.alloc, &mut arena, count, count)?;
        let room = self.reserve_anew(0, stay)?;
        Ok(self.split_into(arena, count, room, off_room))
    }

    // Moves so many last pairs into an empty arena, and makes a map of it. All memory was allocated.
    fn split_into(
        &mut self,
        arena: NodeArena<K, V, PREFIX_LEN>,
        count: usize,
        room: SpineRoom,
        off_room: SpineRoom,
    ) -> Self
    where
        K: Drop,
        V: Drop,
        requires fits { PREFIX_LEN < 2 ^ 62 }
        requires none { (n : Name) → held_at arena n ≡ None }
        requires long { room + count ≡ length self.old.pairs }
        requires off_long { off_room ≡ count }
        requires leaves { HasRoomOf arena Leaf count }
        requires off_inner { HasInnerRoom arena count }
        requires inner { HasInnerRoom self.old.nodes room }
        ensures joined { self.new.pairs ++ result.pairs ≡ self.old.pairs }
        ensures moved { length self.new.pairs + count ≡ length self.old.pairs }
        ensures none_new { AddsNoLeaf K.bytes self.old self.new }
        ensures leaf_room { FreesLeaves count self.old.nodes self.new.nodes }
        ensures room { UsesRoom (room - 1) self.old.nodes self.new.nodes }
    {
        let mut arena = arena;
        let old = self.root;
        let roots = cut_last(&mut self.arena, old, &mut arena, count, room, off_room);
        self.root = roots.0;
        TreeMap {
            alloc: self.alloc,
            arena,
            root: roots.1,
        }
    }

    // How many pairs have keys whose bytes are not less than these.
    fn count_from(&self, bytes: &[u8]) -> usize
        ensures count { result ≡ length (pairs_between K.bytes (Included bytes.now) Unbounded self.now.pairs) }
        ensures ordered { AscendsByKey (key_of K.bytes) self.now.pairs }
    {
        // So many pairs can be counted.
        let _most = self.len();
        let mut from = self.pairs_within(Bound::Included(bytes), Bound::Unbounded);
        let mut count = 0;
        while from.next().is_some() {
            count += 1;
        }
        count
    }

    // Moves so many last pairs of this map to the front of another, for which memory was allocated.
    fn move_last(&mut self, count: usize, to: &mut Self)
    where
        K: Drop,
        V: Drop,
        requires many { count ≤ length self.old.pairs }
        requires ordered { AscendsByKey (key_of K.bytes) (self.old.pairs ++ to.old.pairs) }
        requires from_room { HasRoom self.old.nodes count }
        requires to_room { HasRoom to.old.nodes (2 * count) }
        ensures joined { self.new.pairs ++ to.new.pairs ≡ self.old.pairs ++ to.old.pairs }
        ensures moved { length self.new.pairs + count ≡ length self.old.pairs }
        ensures none_new { AddsNoLeaf K.bytes self.old self.new }
        ensures leaf_room { FreesLeaves count self.old.nodes self.new.nodes }
        ensures from_room { UsesRoom count self.old.nodes self.new.nodes }
    {
        for _ in 0..count {
            self.move_pair(to);
        }
    }

    // Moves the last pair of this map to the front of another, for which memory was allocated.
    fn move_pair(&mut self, to: &mut Self)
    where
        K: Drop,
        V: Drop,
        requires many { 0 < length self.old.pairs }
        requires ordered { AscendsByKey (key_of K.bytes) (self.old.pairs ++ to.old.pairs) }
        requires from_room { HasRoom self.old.nodes 1 }
        requires to_room { HasRoom to.old.nodes 2 }
        ensures joined { self.new.pairs ++ to.new.pairs ≡ self.old.pairs ++ to.old.pairs }
        ensures moved { length self.new.pairs + 1 ≡ length self.old.pairs }
        ensures none_new { AddsNoLeaf K.bytes self.old self.new }
        ensures leaf_room { FreesRoomOf Leaf self.old.nodes self.new.nodes }
        ensures from_room { UsesRoom 1 self.old.nodes self.new.nodes }
        ensures to_room { UsesRoom 2 to.old.nodes to.new.nodes }
    {
        match self.pop(End::Last) {
            Ok(Some((key, value))) => match to.put(key, value) {
                Ok(_none) => {}
                Err(_) => unreachable!(),
            },
            _ => unreachable!(),
        }
    }
}

// Moves so many last leaves of a tree into an empty arena, and makes the inner nodes of both anew. Returns both roots.
// All memory was allocated.
fn cut_last<K: AsBytes + Drop, V: Drop, const PREFIX_LEN: usize>(
    arena: &mut NodeArena<K, V, PREFIX_LEN>,
    root: Option<OpaqueNodePtr>,
    to: &mut NodeArena<K, V, PREFIX_LEN>,
    count: usize,
    room: SpineRoom,
    to_room: SpineRoom,
) -> (Option<OpaqueNodePtr>, Option<OpaqueNodePtr>)
    requires tree { (had : List (K × V)) × HasPairs K.bytes PREFIX_LEN arena.old root had
        × (room + count ≡ length had) }
    requires to_long { to_room ≡ count }
    requires none { (n : Name) → held_at to.old n ≡ None }
    requires leaves { HasRoomOf to.old Leaf count }
    requires inner { HasInnerRoom arena.old room }
    requires to_inner { HasInnerRoom to.old count }
    ensures cut { (had : List (K × V)) → HasPairs K.bytes PREFIX_LEN arena.old root had
        → IsCutLast K.bytes PREFIX_LEN arena.new result.0 to.new result.1 count had }
    ensures names { HasLeavesOf K.bytes arena.old arena.new }
    ensures leaf_room { FreesLeaves count arena.old arena.new }
    ensures room { UsesRoom (room - 1) arena.old arena.new }
{
    let mut cursor = LeafCursor::after_leaves(arena, root);
    let first = move_leaves(arena, &mut cursor, to, count);
    let left = rebuild(arena, room, cursor.first());
    let moved = rebuild(to, to_room, first);
    (left, moved)
}

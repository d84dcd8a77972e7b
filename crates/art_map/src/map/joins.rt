//! `append`: all pairs of a map move into another. Where few move, each is looked for from the root. Where many do, the
//! inner nodes are dropped, the pairs move along the list of leaves, and the inner nodes are made anew.
ghost use Rattle.std.specs.Prelude.{◌≡◌, ◌≢◌, ◌⊎◌, ◌+◌, ◌-◌, ◌*◌, ◌<◌, ◌≤◌, ◌^◌, List, [], length};
ghost use Rattle.std.specs.Prelude.{IfOk, IsOk, OnErr, OnOk};
ghost use Rattle.std.specs.List.{AllByRecursion};
ghost use Rattle.art_nodes.specs.declared.kind.NodeType.TheVariants.{Leaf};
ghost use Rattle.art_arena.specs.arena.Arena.{HasNoRoom, HasRoom, HasRoomOf, KeepsRoomOf, SameNodes, UsesRoom};
ghost use Rattle.art_arena.specs.arena.Shapes.{key_of};
ghost use Rattle.art_arena.specs.tree.Order.{AscendsByKey};
ghost use Rattle.art_operations.specs.LeafCursors.{KeepsInnerRoom, StandsAhead, StandsInList};
ghost use Rattle.art_operations.specs.LeafNames.{HasLeavesOf};
ghost use Rattle.art_operations.specs.Pairs.{HasPairs};
ghost use Rattle.art_operations.specs.Rebuilds.{HasInnerRoom};
ghost use Rattle.art_map.specs.Asked.{with_pairs_put};
ghost use Rattle.art_map.specs.Contents.{IsUntouched};
ghost use Rattle.art_map.specs.LeafNames.{KeepsAllLeaves};
ghost use Rattle.art_map.specs.Room.{UsesLeafRoom};

use crate::map::TreeMap;
use art_arena::NodeArena;
use art_bytes::{AsBytes, NoPrefixesBytes};
use art_nodes::{NodeType, OpaqueNodePtr};
use art_operations::{LeafCursor, SpineRoom, keep_leaves, rebuild};
use art_walks::IntoIter;
use std::alloc::{AllocError, Global};
use std::mem;

// Where another map has at least one pair for so many that are there, all leaves are merged: a search costs some three
// times what it costs to make the inner nodes anew over one leaf.
const THERE_FOR_EACH: usize = 2;

impl<K: AsBytes, V, const PREFIX_LEN: usize> TreeMap<K, V, PREFIX_LEN> {
    // Allocates so many more leaves, and what it takes to make the inner nodes anew over so many in all.
    pub(super) fn reserve_anew(
        &mut self,
        more: usize,
        leaves: usize,
    ) -> Result<SpineRoom, AllocError>
        ensures leaves { OnOk result (HasRoomOf self.new.nodes Leaf more) }
        ensures over { IfOk result (λ room. room ≡ leaves) }
        ensures inner { OnOk result (HasInnerRoom self.new.nodes leaves) }
        ensures pairs { self.new.pairs ≡ self.old.pairs }
        ensures kept { IsUntouched self.old self.new }
    {
        reserve_leaves(self.alloc, &mut self.arena, more, leaves)
    }
}

impl<K: NoPrefixesBytes + Drop, V: Drop, const PREFIX_LEN: usize> TreeMap<K, V, PREFIX_LEN> {
    /// Moves all pairs of another map into this one. Each replaces a pair whose key has the same bytes. The other map
    /// is empty then.
    ///
    /// If the other has few pairs, each is inserted by a search. If it has many, they are put into the list of leaves
    /// in one walk, and the inner nodes are made anew. So the cost never goes by more than the pairs of both. Where
    /// there is no memory for that, many are inserted by searches too.
    ///
    /// Fails if there is no memory for the nodes that the moves need. All of it is allocated first, and both maps are
    /// unchanged then. With room for two nodes a pair of the other, as `reserve` makes it, it never fails. If one of
    /// them is empty, it allocates nothing and can't fail.
    ///
    /// Of the room for leaves, only the pairs that come anew use some. Of each other kind, a pair of the other uses
    /// room for four nodes at most. The other map has no room left, since all its memory is freed. If this map is
    /// empty, the two change places, and so does their room.
    ///
    /// ```
    /// let mut map = TreeMap::new(rt.alloc());
    /// map.extend([(*b"ab", 1), (*b"cd", 2)])?;
    /// let mut other = TreeMap::new(rt.alloc());
    /// other.extend([(*b"cd", 7), (*b"ef", 8)])?;
    /// map.append(&mut other)?;
    /// assert!(rt; map.values().eq([&1, &7, &8]));
    /// assert!(rt; other.is_empty());
    /// ```
    pub fn append(&mut self, other: &mut Self) -> Result<(), AllocError>
        ensures pairs { OnOk result (self.new.pairs ≡ with_pairs_put K.bytes other.old.pairs self.old.pairs) }
        ensures emptied { OnOk result (other.new.pairs ≡ []) }
        ensures freed { OnOk result (self.old.pairs ≢ [] → other.old.pairs ≢ [] → HasNoRoom other.new.nodes) }
        ensures names { OnOk result (KeepsAllLeaves K.bytes self.old self.new) }
        ensures err { OnErr result ((self.new.pairs ≡ self.old.pairs) × (other.new.pairs ≡ other.old.pairs)) }
        ensures kept { OnErr result (IsUntouched self.old self.new × IsUntouched other.old other.new) }
        ensures free { (self.old.pairs ≡ []) ⊎ (other.old.pairs ≡ []) → IsOk result }
        ensures succeeds { HasRoom self.old.nodes (2 * length other.old.pairs) → IsOk result }
        ensures leaf_room { OnOk result (self.old.pairs ≢ []
            → UsesLeafRoom (length self.new.pairs - length self.old.pairs) self.old.nodes self.new.nodes) }
        ensures room { OnOk result (self.old.pairs ≢ []
            → UsesRoom (4 * length other.old.pairs) self.old.nodes self.new.nodes) }
        ensures nothing { other.old.pairs ≡ [] → (self.new ≡ self.old) × (other.new ≡ other.old) }
        ensures swapped { self.old.pairs ≡ [] → other.old.pairs ≢ []
            → (self.new ≡ other.old) × (other.new ≡ self.old) }
    {
        // Tells that they ascend.
        let (_nodes, _root) = other.nodes();
        if other.is_empty() {
            return Ok(());
        }
        if self.is_empty() {
            self.name_leaves();
            mem::swap(self, other);
            return Ok(());
        }
        if !self.fits_in_memory() {
            return Err(AllocError);
        }
        if other.len() < self.len() / THERE_FOR_EACH {
            return self.append_by_search(other);
        }
        self.append_many(other)
    }

    // Moves all pairs of another map into this one, at once, or each by a search where there is no memory for that.
    fn append_many(&mut self, other: &mut Self) -> Result<(), AllocError>
        requires fits { PREFIX_LEN < 2 ^ 62 }
        requires many { length self.old.pairs ≤ 2 * length other.old.pairs + 1 }
        ensures pairs { OnOk result (self.new.pairs ≡ with_pairs_put K.bytes other.old.pairs self.old.pairs) }
        ensures emptied { OnOk result (other.new.pairs ≡ []) }
        ensures freed { OnOk result (HasNoRoom other.new.nodes) }
        ensures names { OnOk result (KeepsAllLeaves K.bytes self.old self.new) }
        ensures err { OnErr result ((self.new.pairs ≡ self.old.pairs) × (other.new.pairs ≡ other.old.pairs)) }
        ensures kept { OnErr result (IsUntouched self.old self.new × IsUntouched other.old other.new) }
        ensures succeeds { HasRoom self.old.nodes (2 * length other.old.pairs) → IsOk result }
        ensures leaf_room { OnOk result
            (UsesLeafRoom (length self.new.pairs - length self.old.pairs) self.old.nodes self.new.nodes) }
        ensures room { OnOk result (UsesRoom (4 * length other.old.pairs) self.old.nodes self.new.nodes) }
    {
        match self.append_at_once(other) {
            Ok(()) => Ok(()),
            Err(_) => self.append_by_search(other),
        }
    }

    // Moves all pairs of another map into this one, each by a search.
    fn append_by_search(&mut self, other: &mut Self) -> Result<(), AllocError>
        requires fits { PREFIX_LEN < 2 ^ 62 }
        ensures pairs { OnOk result (self.new.pairs ≡ with_pairs_put K.bytes other.old.pairs self.old.pairs) }
        ensures emptied { OnOk result (other.new.pairs ≡ []) }
        ensures freed { OnOk result (HasNoRoom other.new.nodes) }
        ensures names { OnOk result (KeepsAllLeaves K.bytes self.old self.new) }
        ensures err { OnErr result ((self.new.pairs ≡ self.old.pairs) × (other.new.pairs ≡ other.old.pairs)) }
        ensures kept { OnErr result (IsUntouched self.old self.new × IsUntouched other.old other.new) }
        ensures succeeds { HasRoom self.old.nodes (2 * length other.old.pairs) → IsOk result }
        ensures leaf_room { OnOk result
            (UsesLeafRoom (length self.new.pairs - length self.old.pairs) self.old.nodes self.new.nodes) }
        ensures room { OnOk result (UsesRoom (2 * length other.old.pairs) self.old.nodes self.new.nodes) }
    {
        self.reserve_insertions(other.len())?;
        let none = TreeMap::with_prefix_len(other.alloc);
        self.put_pairs(mem::replace(other, none).into_iter());
        Ok(())
    }

    // Moves all pairs of another map into this one by a walk along its leaves, and makes the inner nodes anew.
    fn append_at_once(&mut self, other: &mut Self) -> Result<(), AllocError>
        requires fits { PREFIX_LEN < 2 ^ 62 }
        ensures pairs { OnOk result (self.new.pairs ≡ with_pairs_put K.bytes other.old.pairs self.old.pairs) }
        ensures emptied { OnOk result (other.new.pairs ≡ []) }
        ensures freed { OnOk result (HasNoRoom other.new.nodes) }
        ensures names { OnOk result (KeepsAllLeaves K.bytes self.old self.new) }
        ensures err { OnErr result ((self.new.pairs ≡ self.old.pairs) × (other.new.pairs ≡ other.old.pairs)) }
        ensures kept { OnErr result (IsUntouched self.old self.new × IsUntouched other.old other.new) }
        ensures leaf_room { OnOk result
            (UsesLeafRoom (length self.new.pairs - length self.old.pairs) self.old.nodes self.new.nodes) }
        ensures room { OnOk result (UsesRoom (length self.old.pairs - 1 + 2 * length other.old.pairs) self.old.nodes
            self.new.nodes) }
    {
        // Tells that they ascend.
        let (_nodes, _root) = other.nodes();
        let there = self.len();
        let more = other.len();
        let Some(leaves) = there.checked_add(more) else {
            return Err(AllocError);
        };
        let room = self.reserve_anew(more, leaves)?;
        let none = TreeMap::with_prefix_len(other.alloc);
        self.merge(mem::replace(other, none).into_iter(), room);
        Ok(())
    }

    // Puts ascending pairs into the list of leaves, and makes the inner nodes anew. All memory was allocated.
    fn merge(&mut self, pairs: IntoIter<K, V, PREFIX_LEN>, room: SpineRoom)
        requires ordered { AscendsByKey (key_of K.bytes) pairs }
        requires leaves { HasRoomOf self.old.nodes Leaf (length pairs) }
        requires over { length self.old.pairs + length pairs ≤ room }
        requires inner { HasInnerRoom self.old.nodes room }
        ensures pairs { self.new.pairs ≡ with_pairs_put K.bytes pairs self.old.pairs }
        ensures names { KeepsAllLeaves K.bytes self.old self.new }
        ensures leaf_room { UsesLeafRoom (length self.new.pairs - length self.old.pairs) self.old.nodes self.new.nodes }
        ensures room { UsesRoom (length self.old.pairs - 1 + 2 * length pairs) self.old.nodes self.new.nodes }
    {
        let old = self.root;
        let root = merge_leaves(&mut self.arena, old, pairs, room);
        self.root = root;
    }

    // Inserts all pairs that an iterator gives, for which memory was allocated.
    fn put_pairs(&mut self, mut pairs: IntoIter<K, V, PREFIX_LEN>)
        requires fits { PREFIX_LEN < 2 ^ 62 }
        requires room { HasRoom self.old.nodes (2 * length pairs) }
        ensures pairs { self.new.pairs ≡ with_pairs_put K.bytes pairs self.old.pairs }
        ensures names { KeepsAllLeaves K.bytes self.old self.new }
        ensures leaf_room { UsesLeafRoom (length self.new.pairs - length self.old.pairs) self.old.nodes self.new.nodes }
        ensures room { UsesRoom (2 * length pairs) self.old.nodes self.new.nodes }
    {
        while let Some((key, value)) = pairs.next() {
            // Tells that the pairs ascend.
            let (_nodes, _root) = self.nodes();
            match self.replace_entry(key, value) {
                Ok(_old) => {}
                Err(_) => unreachable!(),
            }
        }
    }
}

// Allocates so many more leaves, and what it takes to make the inner nodes anew over so many in all.
pub(super) fn reserve_leaves<K, V, const PREFIX_LEN: usize>(
    alloc: Global,
    arena: &mut NodeArena<K, V, PREFIX_LEN>,
    more: usize,
    leaves: usize,
) -> Result<SpineRoom, AllocError>
    ensures leaves { OnOk result (HasRoomOf arena.new Leaf more) }
    ensures over { IfOk result (λ room. room ≡ leaves) }
    ensures inner { OnOk result (HasInnerRoom arena.new leaves) }
    ensures kept { SameNodes arena.old arena.new }
    ensures room_of { KeepsRoomOf arena.old arena.new }
{
    let room = SpineRoom::new(alloc, arena, leaves)?;
    arena.reserve_kind(NodeType::Leaf, more)?;
    Ok(room)
}

// Puts ascending pairs into the leaves of a tree, and makes its inner nodes anew. Returns its root. All memory was
// allocated.
fn merge_leaves<K: NoPrefixesBytes + Drop, V: Drop, const PREFIX_LEN: usize>(
    arena: &mut NodeArena<K, V, PREFIX_LEN>,
    root: Option<OpaqueNodePtr>,
    pairs: IntoIter<K, V, PREFIX_LEN>,
    room: SpineRoom,
) -> Option<OpaqueNodePtr>
    requires tree { (had : List (K × V)) × HasPairs K.bytes PREFIX_LEN arena.old root had
        × AllByRecursion (λ p. K.is_key p.0) had × (length had + length pairs ≤ room) }
    requires ordered { AscendsByKey (key_of K.bytes) pairs }
    requires leaves { HasRoomOf arena.old Leaf (length pairs) }
    requires inner { HasInnerRoom arena.old room }
    ensures tree { (had : List (K × V)) → HasPairs K.bytes PREFIX_LEN arena.old root had
        → AllByRecursion (λ p. K.is_key p.0) had
        → HasPairs K.bytes PREFIX_LEN arena.new result (with_pairs_put K.bytes pairs had)
        × AllByRecursion (λ p. K.is_key p.0) (with_pairs_put K.bytes pairs had) }
    ensures names { HasLeavesOf K.bytes arena.new arena.old }
    ensures leaf_room { (had : List (K × V)) → HasPairs K.bytes PREFIX_LEN arena.old root had
        → AllByRecursion (λ p. K.is_key p.0) had
        → UsesLeafRoom (length (with_pairs_put K.bytes pairs had) - length had) arena.old arena.new }
    ensures room { (had : List (K × V)) → HasPairs K.bytes PREFIX_LEN arena.old root had
        → AllByRecursion (λ p. K.is_key p.0) had → length had + length pairs ≤ room
        → UsesRoom (length had - 1 + 2 * length pairs) arena.old arena.new }
{
    let first = keep_leaves(arena, root);
    let mut cursor = LeafCursor::at_start(first);
    put_along(arena, &mut cursor, pairs);
    rebuild(arena, room, cursor.first())
}

// Puts ascending pairs into a list of leaves, at a cursor on which all of them come ahead. Leaves were allocated.
fn put_along<K: NoPrefixesBytes + Drop, V: Drop, const PREFIX_LEN: usize>(
    arena: &mut NodeArena<K, V, PREFIX_LEN>,
    cursor: &mut LeafCursor,
    mut pairs: IntoIter<K, V, PREFIX_LEN>,
)
    requires list { (had : List (K × V)) × StandsAhead arena.old cursor.old K.bytes had pairs
        × AllByRecursion (λ p. K.is_key p.0) had }
    requires ordered { AscendsByKey (key_of K.bytes) pairs }
    requires room { HasRoomOf arena.old Leaf (length pairs) }
    ensures put { (had : List (K × V)) → StandsAhead arena.old cursor.old K.bytes had pairs
        → AllByRecursion (λ p. K.is_key p.0) had
        → StandsInList arena.new cursor.new K.bytes (with_pairs_put K.bytes pairs had)
        × AllByRecursion (λ p. K.is_key p.0) (with_pairs_put K.bytes pairs had) }
    ensures names { HasLeavesOf K.bytes arena.new arena.old }
    ensures kept_room { KeepsInnerRoom arena.old arena.new }
    ensures leaf_room { (had : List (K × V)) → StandsAhead arena.old cursor.old K.bytes had pairs
        → AllByRecursion (λ p. K.is_key p.0) had
        → UsesLeafRoom (length (with_pairs_put K.bytes pairs had) - length had) arena.old arena.new }
{
    while let Some((key, value)) = pairs.next() {
        // Its bytes tell that it is a key.
        let _key_bytes = key.as_bytes();
        match cursor.put(arena, key, value) {
            Ok(_old) => {}
            Err(_) => unreachable!(),
        }
    }
}

//! Edits of an arena that holds leaves alone, with no inner node over them: a cursor goes along their list, stores
//! leaves between two neighbours, gives a leaf another pair, and takes leaves out. `rebuild` then makes the inner
//! nodes.
ghost use Rattle.std.specs.Prelude.{◌≡◌, ◌≢◌, ◌<◌, ◌≤◌, ℕ, List, [], length, None, Some, Option, IsSome, IfOk, IsOk};
ghost use Rattle.std.specs.Prelude.{OnErr, OnOk, OnSome};
ghost use Rattle.art_nodes.specs.Name.{Name};
ghost use Rattle.art_nodes.specs.declared.kind.NodeType.TheVariants.{Leaf};
ghost use Rattle.art_arena.specs.arena.Arena.{leaf_held, held_at, links_at, node_at, Allocates, HasRoomOf, KeepsRoomOf};
ghost use Rattle.art_arena.specs.arena.Arena.{SameCells, SameNodes, WritesLinks};
ghost use Rattle.art_arena.specs.arena.Cells.{leaf_name, pair, UpdatesAt};
ghost use Rattle.art_arena.specs.arena.Rooms.{FreesRoomOf, SameLeaves, UsesRoomOf};
ghost use Rattle.art_arena.specs.arena.Shapes.{key_of, LeafAt};
ghost use Rattle.art_operations.specs.Frees.{FreesLeaves, SwapsLeaves};
ghost use Rattle.art_operations.specs.Insertions.{HandsPairBack};
ghost use Rattle.art_operations.specs.KeyedLists.{HasKey, IsBlocked};
ghost use Rattle.art_operations.specs.LeafCursors.{HasInserted, HasMoved, HasPutIn, HasRemoved, KeepsCells};
ghost use Rattle.art_operations.specs.LeafCursors.{KeepsInnerRoom, StandsAtPlace, StandsInList, StandsBelow};
ghost use Rattle.art_operations.specs.LeafCursors.{StandsBetween};
ghost use Rattle.art_operations.specs.LeafNames.{HasLeavesOf};
ghost use Rattle.art_operations.specs.Pairs.{HasPairs};
ghost use Rattle.art_operations.specs.Whichever.{HasSome, OfEach};
ghost use Rattle.art_operations.specs.inner.Cursors.{HasMovedOne, HasPassed, HasReplaced, HasStoredLast, HoldsFrom};
ghost use Rattle.art_operations.specs.inner.Cursors.{IsListTo, StandsParted};

use crate::insert::result::InsertRefused;
use crate::minmax::{maximum_unchecked, minimum_unchecked};
use art_arena::{LeafPtr, NodeArena};
use art_bytes::AsBytes;
use art_nodes::{LeafNode, OpaqueNodePtr};
use std::cmp::Ordering;
use std::mem;

// Sets the leaf that comes after a leaf.
fn set_next<K, V, const PREFIX_LEN: usize>(
    arena: &mut NodeArena<K, V, PREFIX_LEN>,
    leaf: LeafPtr,
    next: Option<LeafPtr>,
)
    requires { IsSome (links_at arena.old leaf) }
    ensures links { (was : _) → links_at arena.old leaf ≡ Some was
        → WritesLinks arena.old arena.new leaf (record was { next = next }) }
    ensures room_of { KeepsRoomOf arena.old arena.new }
{
    arena.as_mut::<LeafNode<K, V>>(leaf).set_next(next);
}

// Sets the leaf that comes before a leaf.
fn set_previous<K, V, const PREFIX_LEN: usize>(
    arena: &mut NodeArena<K, V, PREFIX_LEN>,
    leaf: LeafPtr,
    previous: Option<LeafPtr>,
)
    requires { IsSome (links_at arena.old leaf) }
    ensures links { (was : _) → links_at arena.old leaf ≡ Some was
        → WritesLinks arena.old arena.new leaf (record was { previous = previous }) }
    ensures room_of { KeepsRoomOf arena.old arena.new }
{
    arena.as_mut::<LeafNode<K, V>>(leaf).set_previous(previous);
}

/// Stores a leaf after the last one of a list, or the first of all. Inner nodes may stand over the list.
///
/// Fails if out of memory. The error returns the pair, and nothing changed.
pub(crate) fn store_last<K, V, const PREFIX_LEN: usize>(
    arena: &mut NodeArena<K, V, PREFIX_LEN>,
    last: Option<LeafPtr>,
    key: K,
    value: V,
) -> Result<LeafPtr, InsertRefused<K, V>>
    requires { (ls : List (LeafAt K V)) × IsListTo (links_at arena.old) last ls }
    ensures ok { IfOk result (λ leaf. (ls : List (LeafAt K V)) → IsListTo (links_at arena.old) last ls
        → HasStoredLast arena.old arena.new leaf key value ls) }
    ensures err { OnErr result (SameNodes arena.old arena.new) }
    ensures handed_back { HandsPairBack key value result }
    ensures succeeds { HasRoomOf arena.old Leaf 1 → IsOk result }
    ensures room_of { UsesRoomOf Leaf arena.old arena.new }
    ensures kept_room { OnErr result (KeepsRoomOf arena.old arena.new) }
{
    let before = last;
    let cursor = LeafCursor {
        first: None,
        before,
        after: None,
    };
    let leaf = cursor.store(arena, key, value)?;
    let Some(end) = last else {
        return Ok(leaf);
    };
    set_next(arena, end, Some(leaf));
    Ok(leaf)
}

/// A place in the list of an arena that holds leaves alone: between two that are linked, or at an end of the list. It
/// knows both, and the first leaf of the list.
#[derive(Clone, Copy)]
pub struct LeafCursor {
    first: Option<LeafPtr>,
    before: Option<LeafPtr>,
    after: Option<LeafPtr>,
}

impl LeafCursor {
    /// Makes a cursor before the first leaf of a list.
    pub fn at_start(first: Option<LeafPtr>) -> Self
        ensures { result ≡ record { first = first; before = None; after = first } }
    {
        let after = first;
        LeafCursor {
            first,
            before: None,
            after,
        }
    }

    /// Drops the inner nodes of the tree below a root, or of none, which an arena holds alone, and makes a cursor
    /// after its last leaf. The leaves stand as they stood, linked in key order. Room that was there stays.
    pub fn after_leaves<K: AsBytes + Drop, V: Drop, const PREFIX_LEN: usize>(
        arena: &mut NodeArena<K, V, PREFIX_LEN>,
        root: Option<OpaqueNodePtr>,
    ) -> Self
        requires { (pairs : List (K × V)) × HasPairs K.bytes PREFIX_LEN arena.old root pairs }
        ensures list { (pairs : List (K × V)) → HasPairs K.bytes PREFIX_LEN arena.old root pairs
            → (among : StandsInList arena.new result K.bytes pairs) × (among.back ≡ []) }
        ensures leaves { SameLeaves arena.old arena.new }
        ensures room_of { KeepsRoomOf arena.old arena.new }
    {
        let Some(top) = root else {
            arena.clear_inner();
            return LeafCursor {
                first: None,
                before: None,
                after: None,
            };
        };
        let first = minimum_unchecked(arena, top);
        let last = maximum_unchecked(arena, top);
        arena.clear_inner();
        LeafCursor {
            first: Some(first),
            before: Some(last),
            after: None,
        }
    }

    /// Returns the first leaf of the list.
    pub fn first(&self) -> Option<LeafPtr>
        ensures { result ≡ self.now.first }
    {
        self.first
    }

    // Links the leaf before the cursor to this one. If there is none before it, the list begins with this one.
    fn set_next_of_before<K, V, const PREFIX_LEN: usize>(
        &mut self,
        arena: &mut NodeArena<K, V, PREFIX_LEN>,
        leaf: Option<LeafPtr>,
    )
        requires { (front : List (LeafAt K V)) × (next : Option ℕ) × (previous : Option ℕ) × (back : List (LeafAt K V))
            × StandsParted arena.old self.old front next previous back }
        ensures parted { (front : List (LeafAt K V)) (next previous : Option ℕ) (back : List (LeafAt K V))
            → StandsParted arena.old self.old front next previous back
            → StandsParted arena.new self.new front leaf previous back }
        ensures cells { SameCells arena.old arena.new }
        ensures others { (n : ℕ) → self.old.before ≢ Some n → links_at arena.new n ≡ links_at arena.old n }
        ensures room_of { KeepsRoomOf arena.old arena.new }
    {
        match self.before {
            Some(before) => set_next(arena, before, leaf),
            None => self.first = leaf,
        }
    }

    // Links the leaf after the cursor back to this one.
    fn set_previous_of_after<K, V, const PREFIX_LEN: usize>(
        &self,
        arena: &mut NodeArena<K, V, PREFIX_LEN>,
        leaf: Option<LeafPtr>,
    )
        requires { (front : List (LeafAt K V)) × (next : Option ℕ) × (previous : Option ℕ) × (back : List (LeafAt K V))
            × StandsParted arena.old self.now front next previous back }
        ensures parted { (front : List (LeafAt K V)) (next previous : Option ℕ) (back : List (LeafAt K V))
            → StandsParted arena.old self.now front next previous back
            → StandsParted arena.new self.now front next leaf back }
        ensures cells { SameCells arena.old arena.new }
        ensures others { (n : ℕ) → self.now.after ≢ Some n → links_at arena.new n ≡ links_at arena.old n }
        ensures room_of { KeepsRoomOf arena.old arena.new }
    {
        if let Some(after) = self.after {
            set_previous(arena, after, leaf);
        }
    }

    // Stores a leaf that is linked to those beside the cursor. They don't lead to it yet.
    fn store<K, V, const PREFIX_LEN: usize>(
        &self,
        arena: &mut NodeArena<K, V, PREFIX_LEN>,
        key: K,
        value: V,
    ) -> Result<LeafPtr, InsertRefused<K, V>>
        ensures ok { IfOk result (λ leaf. Allocates arena.old arena.new (leaf_name leaf)
            (leaf_held (record { key = key; value = value; previous = self.now.before; next = self.now.after }))) }
        ensures err { OnErr result (SameNodes arena.old arena.new) }
        ensures handed_back { HandsPairBack key value result }
        ensures succeeds { HasRoomOf arena.old Leaf 1 → IsOk result }
        ensures room_of { UsesRoomOf Leaf arena.old arena.new }
        ensures kept_room { OnErr result (KeepsRoomOf arena.old arena.new) }
    {
        let mut node = LeafNode::with_no_siblings(key, value);
        node.set_previous(self.before);
        node.set_next(self.after);
        match arena.allocate_node_ptr(node) {
            Ok(leaf) => Ok(leaf),
            Err(refused) => {
                let (key, value) = refused.node.into_entry();
                Err(InsertRefused { key, value })
            }
        }
    }

    /// Stores a leaf at the cursor, which stands after it then. Every other leaf keeps its name and its pair.
    ///
    /// Fails if out of memory. The error returns the pair, and nothing changed.
    pub fn insert<K, V, const PREFIX_LEN: usize>(
        &mut self,
        arena: &mut NodeArena<K, V, PREFIX_LEN>,
        key: K,
        value: V,
    ) -> Result<(), InsertRefused<K, V>>
        requires { HasSome (StandsBetween arena.old self.old) }
        ensures ok { OnOk result (OfEach (StandsBetween arena.old self.old)
            (HasInserted arena.new self.new key value)) }
        ensures kept { KeepsCells arena.old arena.new }
        ensures err { OnErr result (SameNodes arena.old arena.new × (self.new ≡ self.old)) }
        ensures handed_back { HandsPairBack key value result }
        ensures succeeds { HasRoomOf arena.old Leaf 1 → IsOk result }
        ensures room_of { UsesRoomOf Leaf arena.old arena.new }
        ensures kept_room { OnErr result (KeepsRoomOf arena.old arena.new) }
    {
        let leaf = self.store(arena, key, value)?;
        self.set_next_of_before(arena, Some(leaf));
        self.set_previous_of_after(arena, Some(leaf));
        self.before = Some(leaf);
        Ok(())
    }

    /// Removes the leaf before the cursor, and returns its pair. Returns `None` if the cursor stands at the start.
    /// Every other leaf keeps its name and its pair.
    pub fn remove<K, V, const PREFIX_LEN: usize>(
        &mut self,
        arena: &mut NodeArena<K, V, PREFIX_LEN>,
    ) -> Option<(K, V)>
        requires { HasSome (StandsBetween arena.old self.old) }
        ensures value { OfEach (StandsBetween arena.old self.old) (HasRemoved arena.new self.new result) }
        ensures none_new { KeepsCells arena.new arena.old }
        ensures room_of { KeepsRoomOf arena.old arena.new }
        ensures leaf_room { OnSome result (FreesRoomOf Leaf arena.old arena.new) }
    {
        let leaf = self.before?;
        let node = arena.deallocate_node_ptr::<LeafNode<K, V>>(leaf);
        let previous = node.previous();
        let (before, after) = (previous, self.after);
        self.before = before;
        self.set_next_of_before(arena, after);
        self.set_previous_of_after(arena, previous);
        Some(node.into_entry())
    }

    // Gives the leaf after the cursor another pair, and steps over it. Returns the pair that it had.
    fn replace<K, V, const PREFIX_LEN: usize>(
        &mut self,
        arena: &mut NodeArena<K, V, PREFIX_LEN>,
        leaf: LeafPtr,
        key: K,
        value: V,
    ) -> (K, V)
        requires list { HasSome (StandsBetween arena.old self.old) }
        requires after { self.old.after ≡ Some leaf }
        ensures replaced { OfEach (StandsBetween arena.old self.old)
            (HasReplaced arena.new self.new leaf key value result) }
        ensures was { node_at arena.old (leaf_name leaf) ≡ Some (pair result.0 result.1) }
        ensures updates { UpdatesAt (node_at arena.old) (node_at arena.new) (leaf_name leaf) (Some (pair key value)) }
        ensures room_of { KeepsRoomOf arena.old arena.new }
    {
        let after = arena.as_ref::<LeafNode<K, V>>(leaf).next();
        let next = after;
        let mut node = LeafNode::with_no_siblings(key, value);
        node.set_previous(self.before);
        node.set_next(next);
        let old = mem::replace(arena.as_mut::<LeafNode<K, V>>(leaf), node);
        self.before = Some(leaf);
        self.after = after;
        old.into_entry()
    }

    // Steps over the leaves whose keys are less. Returns the leaf after them if its key has these bytes.
    fn pass<K: AsBytes, V, const PREFIX_LEN: usize>(
        &mut self,
        arena: &NodeArena<K, V, PREFIX_LEN>,
        bytes: &[u8],
    ) -> Option<LeafPtr>
        requires { HasSome (StandsBetween arena.now self.old) }
        ensures passed { OfEach (StandsBetween arena.now self.old)
            (HasPassed K.bytes bytes.now arena.now self.new result) }
    {
        'pass: loop {
            let leaf = self.after?;
            let node = arena.as_ref::<LeafNode<K, V>>(leaf);
            match node.key_ref().as_bytes().cmp(bytes) {
                Ordering::Less => {
                    self.before = Some(leaf);
                    self.after = node.next();
                }
                Ordering::Equal => return Some(leaf),
                Ordering::Greater => return None,
            }
        }
    }

    /// Puts a pair into the list at the place of its key, which is not before the cursor. A leaf whose key has the same
    /// bytes takes the pair and keeps its name, and its old pair is returned. Otherwise a leaf is stored. The cursor
    /// stands after it then. No other leaf changes its name or its pair.
    ///
    /// Pairs whose keys ascend are put in by one walk along the list.
    ///
    /// A stored key never fails, and takes no room. Another fails if out of memory for a leaf. The error returns the
    /// pair, and no node changed. The cursor stands at the place of the key then, among the same pairs: it has gone on
    /// over the leaves with lesser keys. So the same call may follow.
    pub fn put<K: AsBytes, V, const PREFIX_LEN: usize>(
        &mut self,
        arena: &mut NodeArena<K, V, PREFIX_LEN>,
        key: K,
        value: V,
    ) -> Result<Option<(K, V)>, InsertRefused<K, V>>
        requires { (pairs : List (K × V)) × StandsBelow arena.old self.old K.bytes pairs (K.bytes key)
            × (IsBlocked (key_of K.bytes) (K.bytes key) pairs → ⊥) }
        ensures ok { IfOk result (λ old. (pairs : List (K × V))
            → StandsBelow arena.old self.old K.bytes pairs (K.bytes key)
            → (IsBlocked (key_of K.bytes) (K.bytes key) pairs → ⊥)
            → HasPutIn arena.new self.new K.bytes key value old pairs) }
        ensures names { OnOk result (HasLeavesOf K.bytes arena.new arena.old) }
        ensures err { OnErr result (SameNodes arena.old arena.new) }
        ensures left { OnErr result ((pairs : List (K × V))
            → StandsBelow arena.old self.old K.bytes pairs (K.bytes key)
            → (IsBlocked (key_of K.bytes) (K.bytes key) pairs → ⊥)
            → StandsAtPlace arena.new self.new K.bytes pairs (K.bytes key)) }
        ensures handed_back { HandsPairBack key value result }
        ensures succeeds { HasRoomOf arena.old Leaf 1 → IsOk result }
        ensures stored { (pairs : List (K × V)) → StandsBelow arena.old self.old K.bytes pairs (K.bytes key)
            → HasKey (key_of K.bytes) (K.bytes key) pairs → IsOk result }
        ensures room_of { UsesRoomOf Leaf arena.old arena.new }
        ensures kept_room { OnErr result (KeepsRoomOf arena.old arena.new) }
        ensures stored_room { (pairs : List (K × V)) → StandsBelow arena.old self.old K.bytes pairs (K.bytes key)
            → HasKey (key_of K.bytes) (K.bytes key) pairs → KeepsRoomOf arena.old arena.new }
    {
        match self.pass(arena, key.as_bytes()) {
            Some(leaf) => Ok(Some(self.replace(arena, leaf, key, value))),
            None => match self.insert(arena, key, value) {
                Ok(()) => Ok(None),
                Err(refused) => Err(refused),
            },
        }
    }
}

// Moves the last leaf of a list, after which a cursor stands, to the front of another arena's list, which begins with
// this leaf. It returns the new first leaf.
fn move_leaf<K: Drop, V: Drop, const PREFIX_LEN: usize>(
    from: &mut NodeArena<K, V, PREFIX_LEN>,
    cursor: &mut LeafCursor,
    to: &mut NodeArena<K, V, PREFIX_LEN>,
    first: Option<LeafPtr>,
) -> Option<LeafPtr>
    requires list { (ls : List (LeafAt K V)) × StandsBetween from.old cursor.old ls [] × (0 < length ls) }
    requires other { (moved : List (LeafAt K V)) × HoldsFrom to.old first moved }
    requires room { HasRoomOf to.old Leaf 1 }
    ensures moved { (ls moved : List (LeafAt K V)) → StandsBetween from.old cursor.old ls []
        → HoldsFrom to.old first moved → HasMovedOne from.new cursor.new to.new result ls moved }
    ensures none_new { KeepsCells from.new from.old }
    ensures room_of { KeepsRoomOf from.old from.new }
    ensures leaf_room { FreesRoomOf Leaf from.old from.new }
    ensures used { UsesRoomOf Leaf to.old to.new }
{
    let Some((key, value)) = cursor.remove(from) else {
        unreachable!();
    };
    let mut start = LeafCursor::at_start(first);
    let Ok(()) = start.insert(to, key, value) else {
        unreachable!();
    };
    start.first()
}

/// Moves so many of the last leaves of a list, after which a cursor stands, into an arena that holds nothing. It
/// returns the first of them there. Those that stay keep their names and pairs, and the cursor stands after them.
///
/// The caller allocated room for as many leaves. So it never fails.
pub fn move_leaves<K: Drop, V: Drop, const PREFIX_LEN: usize>(
    from: &mut NodeArena<K, V, PREFIX_LEN>,
    cursor: &mut LeafCursor,
    to: &mut NodeArena<K, V, PREFIX_LEN>,
    count: usize,
) -> Option<LeafPtr>
    requires list { (ls : List (LeafAt K V)) × StandsBetween from.old cursor.old ls [] × (count ≤ length ls) }
    requires none { (n : Name) → held_at to.old n ≡ None }
    requires room { HasRoomOf to.old Leaf count }
    ensures moved { (ls : List (LeafAt K V)) → StandsBetween from.old cursor.old ls []
        → HasMoved from.new cursor.new to.new result count ls }
    ensures none_new { KeepsCells from.new from.old }
    ensures room_of { KeepsRoomOf from.old from.new }
    ensures leaf_room { FreesLeaves count from.old from.new }
    ensures kept_room { KeepsInnerRoom to.old to.new }
    ensures used { SwapsLeaves count 0 to.old to.new }
{
    let mut first = None;
    for _ in 0..count {
        first = move_leaf(from, cursor, to, first);
    }
    first
}

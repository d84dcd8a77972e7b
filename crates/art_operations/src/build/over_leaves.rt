//! The inner nodes of a tree that are made anew over its leaves, which stand linked in their arena. It is the walk of a
//! builder, but the leaves are there already.
//!
//! Leaves keep their names and their links. All room is allocated before, so `rebuild` can't fail.
ghost use Rattle.std.specs.Prelude.{◌≡◌, ◌+◌, ◌-◌, ◌^◌, ◌<◌, ◌≤◌, ℕ, suc, List, [], length, Some, OnOk, IfOk};
ghost use Rattle.art_bytes.specs.Keys.{IsBefore};
ghost use Rattle.art_arena.specs.arena.Arena.{KeepsRoomOf, SameNodes, UsesRoom};
ghost use Rattle.art_arena.specs.arena.Rooms.{SameLeaves};
ghost use Rattle.art_arena.specs.arena.Shapes.{LeafAt, pairs_of};
ghost use Rattle.art_operations.specs.Meetings.{PartAt};
ghost use Rattle.art_operations.specs.Pairs.{HasPairs};
ghost use Rattle.art_operations.specs.Rebuilds.{HasInnerRoom, HoldsInOrder, KeepsLeafRoom};
ghost use Rattle.art_operations.specs.inner.Rebuilding.{CanPass, HasNodeRoom, HasSpineRoom, IsFresh, RebuildsUpTo};
ghost use Rattle.art_operations.specs.inner.Spines.{IsEmptySpine};
ghost use Rattle.art_operations.specs.inner.Unmade.{HasRoomAround};
ghost use Rattle.art_operations.specs.Whichever.{HasSome, OfEach};

use crate::build::spine::{Spine, close, pass_at};
use crate::meeting::{Meeting, Parted, meet};
use crate::minmax::minimum_unchecked;
use art_arena::{LeafPtr, NodeArena};
use art_bytes::AsBytes;
use art_nodes::{LeafNode, OpaqueNodePtr};
use std::alloc::{AllocError, Global};
use std::marker::Model;

/// Room for what `rebuild` notes while it makes the inner nodes over so many leaves, or `TreeBuilder::reopen` while it
/// opens those of a tree of so many. `SpineRoom::new` allocates it, and the nodes in their arena.
#[derive(Drop)]
pub struct SpineRoom {
    spine: Spine,
    leaves: usize,
}

impl Model for SpineRoom {
    ghost use Rattle.std.specs.Prelude.{ℕ};
    ghost use Rattle.art_operations.specs.inner.Rebuilding.{IsFresh};

    ghost Value = { ℕ };

    ghost view = { λ room. room.leaves };

    ghost invariant = { λ room. IsFresh room.spine room.leaves };
}

impl SpineRoom {
    /// Room for no leaf. It allocates nothing: who goes on with it may be out of memory.
    pub fn empty(alloc: Global) -> SpineRoom
        ensures { result ≡ 0 }
    {
        SpineRoom {
            spine: Spine::new(alloc),
            leaves: 0,
        }
    }

    /// Allocates all that `rebuild` or `TreeBuilder::reopen` needs for so many leaves: nodes of each kind, and room for
    /// what is noted meanwhile.
    ///
    /// Fails only if out of memory. Either way, room that was there stays, and no name changes.
    pub fn new<K, V, const PREFIX_LEN: usize>(
        alloc: Global,
        arena: &mut NodeArena<K, V, PREFIX_LEN>,
        leaves: usize,
    ) -> Result<SpineRoom, AllocError>
        ensures leaves { IfOk result (λ room. room ≡ leaves) }
        ensures room { OnOk result (HasInnerRoom arena.new leaves) }
        ensures kept_room { KeepsRoomOf arena.old arena.new }
        ensures kept { SameNodes arena.old arena.new }
    {
        let mut spine = Spine::new(alloc);
        spine.reserve(arena, leaves)?;
        Ok(SpineRoom { spine, leaves })
    }

    /// The room, with no node open in it.
    pub(super) fn into_spine(self) -> Spine
        ensures { IsFresh result self }
    {
        self.spine
    }
}

/// Drops all inner nodes of a tree that an arena holds alone, and returns its first leaf. The leaves stand as they
/// stood, linked in key order: `rebuild` makes their tree again. Room that was there stays.
pub fn keep_leaves<K: AsBytes + Drop, V: Drop, const PREFIX_LEN: usize>(
    arena: &mut NodeArena<K, V, PREFIX_LEN>,
    root: Option<OpaqueNodePtr>,
) -> Option<LeafPtr>
    requires { (pairs : List (K × V)) × HasPairs K.bytes PREFIX_LEN arena.old root pairs }
    ensures order { (pairs : List (K × V)) → HasPairs K.bytes PREFIX_LEN arena.old root pairs
        → (ls : List (LeafAt K V)) × HoldsInOrder K.bytes arena.new result ls × (pairs_of ls ≡ pairs) }
    ensures leaves { SameLeaves arena.old arena.new }
    ensures room { KeepsRoomOf arena.old arena.new }
{
    let Some(top) = root else {
        arena.clear_inner();
        return None;
    };
    let first = minimum_unchecked(arena, top);
    arena.clear_inner();
    Some(first)
}

// Where two keys part, the first of which comes before the second.
fn parting(old: &[u8], new: &[u8]) -> Parted
    requires { IsBefore old.now new.now }
    ensures part { PartAt old.now new.now result }
    ensures rises { result.old_byte < result.new_byte }
    ensures counts { result.matched + 1 < 2 ^ 64 }
{
    let met = meet(old, new);
    let Meeting::Parts(parted) = met else {
        unreachable!();
    };
    parted
}

// Goes on from one leaf to the next one: makes what is whole before it, and hangs that below the node at which their
// keys part.
fn pass_to<K: AsBytes, V, const PREFIX_LEN: usize>(
    arena: &mut NodeArena<K, V, PREFIX_LEN>,
    spine: &mut Spine,
    last: LeafPtr,
    next: LeafPtr,
)
    requires stands { HasSome (CanPass K.bytes PREFIX_LEN arena.old spine.old last next) }
    requires room { (more : ℕ) × HasSpineRoom arena.old spine.old (suc more) }
    ensures passes { OfEach (CanPass K.bytes PREFIX_LEN arena.old spine.old last next)
        (RebuildsUpTo K.bytes PREFIX_LEN arena.new spine.new next) }
    ensures leaves { SameLeaves arena.old arena.new }
    ensures room { (more : ℕ) → HasSpineRoom arena.old spine.old (suc more) → HasSpineRoom arena.new spine.new more }
    ensures nodes { (more : ℕ) → HasNodeRoom arena.old spine.old (suc more) → HasNodeRoom arena.new spine.new more }
    ensures around { (n : ℕ) → HasRoomAround arena.old spine.old (suc n) → HasRoomAround arena.new spine.new n }
    ensures leaf_room { KeepsLeafRoom arena.old arena.new }
{
    let parted = parting(
        arena.as_key_ref(last).as_bytes(),
        arena.as_key_ref(next).as_bytes(),
    );
    pass_at(arena, spine, last, next, parted);
}

// Passes all leaves from the first one on, of which there are so many at most. It returns the last.
fn pass_all<K: AsBytes, V, const PREFIX_LEN: usize>(
    arena: &mut NodeArena<K, V, PREFIX_LEN>,
    spine: &mut Spine,
    first: LeafPtr,
    leaves: usize,
) -> LeafPtr
    requires order { (ls : List (LeafAt K V)) × HoldsInOrder K.bytes arena.old (Some first) ls × (length ls ≤ leaves) }
    requires empty { IsEmptySpine spine.old }
    requires room { HasSpineRoom arena.old spine.old leaves }
    ensures passed { (ls : List (LeafAt K V)) → HoldsInOrder K.bytes arena.old (Some first) ls
        → RebuildsUpTo K.bytes PREFIX_LEN arena.new spine.new result [] ls }
    ensures leaves { SameLeaves arena.old arena.new }
    ensures room { HasSpineRoom arena.new spine.new 1 }
    ensures nodes { (ls : List (LeafAt K V)) → HoldsInOrder K.bytes arena.old (Some first) ls → length ls ≤ leaves
        → (more : ℕ) → HasNodeRoom arena.old spine.old (length ls + more)
        → HasNodeRoom arena.new spine.new (suc more) }
    ensures around { (ls : List (LeafAt K V)) → HoldsInOrder K.bytes arena.old (Some first) ls → length ls ≤ leaves
        → (n : ℕ) → HasRoomAround arena.old spine.old (n + (length ls - 1)) → HasRoomAround arena.new spine.new n }
    ensures leaf_room { KeepsLeafRoom arena.old arena.new }
{
    let mut last = first;
    let mut left = leaves;
    'walk: loop {
        let Some(next) = arena.as_ref::<LeafNode<K, V>>(last).next() else {
            return last;
        };
        pass_to(arena, spine, last, next);
        last = next;
        left -= 1;
    }
}

/// Makes the inner nodes of the tree over leaves that stand linked, in key order, in an arena which holds nothing else.
/// It returns the name of the root, or `None` if there is no leaf. No leaf moves, and none is linked anew.
///
/// The caller allocated room for as many leaves or more, by `SpineRoom::new`. So it never fails, and allocates nothing.
/// Of the room for inner nodes it takes that of a tree of these leaves, so one less than they are of each kind at most.
/// Room for leaves stays.
pub fn rebuild<K: AsBytes, V, const PREFIX_LEN: usize>(
    arena: &mut NodeArena<K, V, PREFIX_LEN>,
    room: SpineRoom,
    first: Option<LeafPtr>,
) -> Option<OpaqueNodePtr>
    requires order { (ls : List (LeafAt K V)) × HoldsInOrder K.bytes arena.old first ls × (length ls ≤ room) }
    requires room { HasInnerRoom arena.old room }
    ensures tree { (ls : List (LeafAt K V)) → HoldsInOrder K.bytes arena.old first ls
        → HasPairs K.bytes PREFIX_LEN arena.new result (pairs_of ls) }
    ensures leaves { SameLeaves arena.old arena.new }
    ensures inner_room { (ls : List (LeafAt K V)) → HoldsInOrder K.bytes arena.old first ls → length ls ≤ room
        → (more : ℕ) → HasInnerRoom arena.old (length ls - 1 + more) → HasInnerRoom arena.new more }
    ensures room { (ls : List (LeafAt K V)) → HoldsInOrder K.bytes arena.old first ls → length ls ≤ room
        → UsesRoom (length ls - 1) arena.old arena.new }
    ensures leaf_room { KeepsLeafRoom arena.old arena.new }
{
    let Some(start) = first else {
        return None;
    };
    let leaves = room.leaves;
    let mut spine = room.spine;
    let last = pass_all(arena, &mut spine, start, leaves);
    let Ok(root) = close(arena, &mut spine, last, 0) else {
        unreachable!();
    };
    Some(root)
}

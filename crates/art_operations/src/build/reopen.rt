//! A builder that goes on from a tree: the inner nodes on the way to its last leaf are open again, from the root down.
ghost use Rattle.std.specs.Prelude.{◌≡◌, ◌≢◌, ◌+◌, ◌≤◌, ◌++◌, ℕ, List, Some, length, vec_capacity};
ghost use Rattle.std.specs.Prelude.{IfErr, IfOk, IsOk, MatchResult, OnErr, OnOk};
ghost use Rattle.art_arena.specs.arena.Arena.{HasRoom};
ghost use Rattle.art_arena.specs.arena.Rooms.{SameLeaves};
ghost use Rattle.art_arena.specs.arena.Shapes.{LeafAt};
ghost use Rattle.art_operations.specs.Builders.{Builds, HasRoomBeside};
ghost use Rattle.art_operations.specs.Pairs.{HasPairs};
ghost use Rattle.art_operations.specs.Rebuilds.{HasInnerRoom, KeepsLeafRoom};
ghost use Rattle.art_operations.specs.inner.Reopening.{HasOpened, IsUnopened, KeepsOpenRoom, OpensTo};

use crate::build::TreeBuilder;
use crate::build::over_leaves::SpineRoom;
use crate::build::spine::{Open, Spine, close_from};
use crate::minmax::maximum_unchecked;
use art_arena::{NodeArena, NodeEdit};
use art_bytes::AsBytes;
use art_nodes::{ChildIter, KindLeaf, NodeType, OpaqueNodePtr};
use std::alloc::AllocError;

// Notes children after those that are noted.
fn note_all(noted: &mut Vec<(u8, OpaqueNodePtr)>, children: ChildIter<'_>) -> Result<(), AllocError>
    ensures items { OnOk result (noted.new.items ≡ noted.old.items ++ children.entry) }
    ensures capacity { vec_capacity noted.old ≤ vec_capacity noted.new }
    ensures succeeds { length noted.old.items + length children.entry ≤ vec_capacity noted.old → IsOk result }
{
    let mut left = children;
    while let Some(child) = left.next() {
        match noted.push(child) {
            Ok(()) => {}
            Err(_) => return Err(AllocError),
        }
    }
    Ok(())
}

// Opens the inner node that the part is: frees it, and notes its children, all but the last. That is the part then. No
// byte that leads to a part stands after so many.
//
// Fails only if out of memory. Then room that was there stays, and nothing else changes.
fn open_top<K: AsBytes + Drop, V: Drop, const PREFIX_LEN: usize>(
    arena: &mut NodeArena<K, V, PREFIX_LEN>,
    spine: &mut Spine,
    part: OpaqueNodePtr,
    most: usize,
) -> Result<OpaqueNodePtr, AllocError>
    requires inner { part.kind ≢ NodeType.Leaf }
    requires stands { (leaf : LeafAt K V) × (ls : List (LeafAt K V))
        × OpensTo K.bytes PREFIX_LEN arena.old spine.old part leaf ls × (length (K.bytes leaf.key) ≤ most) }
    ensures ok { IfOk result (λ child.
        HasOpened K.bytes PREFIX_LEN arena.old spine.old part arena.new spine.new most child) }
    ensures err { OnErr result (IsUnopened K.bytes PREFIX_LEN arena.old spine.old part arena.new spine.new) }
    ensures kept { KeepsOpenRoom arena.old spine.old arena.new spine.new }
{
    let count = arena.inner(part).num_children();
    spine.reserve(arena, count)?;
    let inner = arena.inner(part);
    let child_depth = spine.begin(0) + inner.prefix_len() + 1;
    let first = spine.children.len();
    let Ok(()) = spine.stack.push(Open { child_depth, first }) else {
        unreachable!();
    };
    let Ok(()) = note_all(&mut spine.children, inner.children()) else {
        unreachable!();
    };
    let Some(child) = spine.children.pop() else {
        unreachable!();
    };
    arena.edit_inner(part, &NodeEdit::Free);
    Ok(child.1)
}

impl TreeBuilder {
    /// Goes on from a tree that an arena holds alone: the inner nodes on the way to its last leaf are open again. No
    /// leaf changes. It takes time in proportion to the children of those nodes.
    ///
    /// Fails only if out of memory, and never where there is room for as many leaves as the tree has: see
    /// `SpineRoom::new`. The error is the root of the tree, which has the pairs that it had.
    pub fn reopen<K: AsBytes + Drop, V: Drop, const PREFIX_LEN: usize>(
        room: SpineRoom,
        arena: &mut NodeArena<K, V, PREFIX_LEN>,
        root: OpaqueNodePtr,
    ) -> Result<TreeBuilder, OpaqueNodePtr>
        requires { (pairs : List (K × V)) × HasPairs K.bytes PREFIX_LEN arena.old (Some root) pairs }
        ensures ok { IfOk result (λ builder. (pairs : List (K × V))
            → HasPairs K.bytes PREFIX_LEN arena.old (Some root) pairs
            → Builds K.bytes PREFIX_LEN arena.new builder pairs) }
        ensures err { IfErr result (λ node. (pairs : List (K × V))
            → HasPairs K.bytes PREFIX_LEN arena.old (Some root) pairs
            → HasPairs K.bytes PREFIX_LEN arena.new (Some node) pairs) }
        ensures succeeds { (pairs : List (K × V)) → HasPairs K.bytes PREFIX_LEN arena.old (Some root) pairs
            → length pairs ≤ room → HasInnerRoom arena.old room → IsOk result }
        ensures leaf_alone { root.kind ≡ NodeType.Leaf → IsOk result }
        ensures room { (n : ℕ) → HasRoom arena.old n
            → MatchResult result (λ builder. HasRoomBeside arena.new builder n) (λ _. HasRoom arena.new n) }
        ensures leaf_room { KeepsLeafRoom arena.old arena.new }
        ensures leaves { SameLeaves arena.old arena.new }
    {
        let mut spine = room.into_spine();
        let last = maximum_unchecked(arena, root);
        let most = arena.as_key_ref(last).as_bytes().len();
        let mut part = root;
        let mut ready = 0;
        'open: loop {
            if part.is::<KindLeaf>() {
                return Ok(TreeBuilder {
                    spine,
                    last: Some(last),
                    room: ready,
                });
            }
            let Ok(child) = open_top(arena, &mut spine, part, most) else {
                // Where nothing is open, the part is the root.
                if ready == 0 {
                    return Err(part);
                }
                // There is room to make again what was opened.
                let Ok(node) = close_from(arena, &mut spine, last, 0, part) else {
                    unreachable!();
                };
                return Err(node);
            };
            part = child;
            ready = 1;
        }
    }
}

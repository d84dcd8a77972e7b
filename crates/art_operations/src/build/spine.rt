//! The inner nodes that are still open while a tree is built: those on the way to its last leaf.
ghost use Rattle.std.specs.Prelude.{◌≡◌, ◌≢◌, ◌<◌, ◌≤◌, ◌*◌, ◌-◌, ◌^◌, ◌∷◌, ◌++◌, ℕ, suc, List, length};
ghost use Rattle.std.specs.Prelude.{◌+◌, IsOk, IfOk, OnOk, OnErr, vec_capacity};
ghost use Rattle.art_nodes.specs.Kind.{row_of};
ghost use Rattle.art_nodes.specs.Name.{Name};
ghost use Rattle.art_arena.specs.arena.Arena.{HasRoomOf, KeepsRoomOf, SameNodes};
ghost use Rattle.art_arena.specs.arena.Rooms.{SameLeaves};
ghost use Rattle.art_arena.specs.arena.Shapes.{LeafAt};
ghost use Rattle.art_arena.specs.arena.Cells.{Cell, leaf_name};
ghost use Rattle.art_operations.specs.Rebuilds.{HasInnerRoom, KeepsLeafRoom};
ghost use Rattle.art_operations.specs.inner.Closing.{KeepsSpineRoom};
ghost use Rattle.art_operations.specs.inner.Rebuilding.{CanPassAt, HasNodeRoom, HasPlaces, HasSpineRoom, RebuildsUpTo};
ghost use Rattle.art_operations.specs.inner.Spines.{begin_of, AddsChild, OpensAt, IsEmptySpine, HasSpine};
ghost use Rattle.art_operations.specs.inner.Unmade.{HasRoomAround};
ghost use Rattle.art_operations.specs.Whichever.{HasSome, OfEach};

use crate::build::made::store_over;
use crate::meeting::Parted;
use art_arena::{LeafPtr, NodeArena};
use art_bytes::AsBytes;
use art_nodes::{NodeType, OpaqueNodePtr};
use std::alloc::{AllocError, Global};

/// An inner node that is not made yet.
#[derive(Clone, Copy)]
pub(super) struct Open {
    /// How many bytes of a key lead to its children: those before the byte by which it branches, and that byte.
    pub(super) child_depth: usize,
    /// How many children of other open nodes come before its own.
    pub(super) first: usize,
}

/// The open nodes, from the root down, and the children that they have so far, one node's after those of the node
/// above. What is still to come below the last child of each is not among them.
#[derive(Drop)]
pub(super) struct Spine {
    pub(super) stack: Vec<Open>,
    pub(super) children: Vec<(u8, OpaqueNodePtr)>,
}

// Allocates so many nodes of one kind as can stand over so many leaves.
fn reserve_over<K, V, const PREFIX_LEN: usize>(
    arena: &mut NodeArena<K, V, PREFIX_LEN>,
    kind: NodeType,
    leaves: usize,
) -> Result<(), AllocError>
    requires { kind ≢ NodeType.Leaf }
    ensures room { OnOk result ((n : ℕ) → n * ((row_of kind).fewest - 1) < leaves → HasRoomOf arena.new kind n) }
    ensures succeeds { 1 ≤ leaves → ((n : ℕ) → n * ((row_of kind).fewest - 1) < leaves → HasRoomOf arena.old kind n)
        → IsOk result }
    ensures kept_room { KeepsRoomOf arena.old arena.new }
    ensures kept { SameNodes arena.old arena.new }
{
    arena.reserve_kind(kind, leaves.saturating_sub(1) / (kind.row().fewest - 1))
}

// Allocates the inner nodes of any tree of so many leaves.
fn reserve_inner<K, V, const PREFIX_LEN: usize>(
    arena: &mut NodeArena<K, V, PREFIX_LEN>,
    leaves: usize,
) -> Result<(), AllocError>
    ensures room { OnOk result (HasInnerRoom arena.new leaves) }
    ensures succeeds { 1 ≤ leaves → HasInnerRoom arena.old leaves → IsOk result }
    ensures kept_room { KeepsRoomOf arena.old arena.new }
    ensures kept { SameNodes arena.old arena.new }
{
    reserve_over(arena, NodeType::Node4, leaves)?;
    reserve_over(arena, NodeType::Node16, leaves)?;
    reserve_over(arena, NodeType::Node32, leaves)?;
    reserve_over(arena, NodeType::Node48, leaves)?;
    reserve_over(arena, NodeType::Node256, leaves)?;
    Ok(())
}

impl Spine {
    /// No node is open.
    pub(super) fn new(alloc: Global) -> Self
        ensures { IsEmptySpine result }
    {
        Spine {
            stack: Vec::new(alloc),
            children: Vec::new(alloc),
        }
    }

    /// Allocates what it takes to pass so many leaves more: nodes of each kind, and places for what is noted meanwhile.
    ///
    /// Fails only if out of memory. Either way, room that was there stays, and nothing else changes.
    pub(super) fn reserve<K, V, const PREFIX_LEN: usize>(
        &mut self,
        arena: &mut NodeArena<K, V, PREFIX_LEN>,
        more: usize,
    ) -> Result<(), AllocError>
        ensures room { OnOk result (HasSpineRoom arena.new self.new more) }
        ensures succeeds { 1 ≤ more → HasSpineRoom arena.old self.old more → IsOk result }
        ensures kept_room { (n : ℕ) → HasSpineRoom arena.old self.old n → HasSpineRoom arena.new self.new n }
        ensures stack_places { vec_capacity self.old.stack ≤ vec_capacity self.new.stack }
        ensures children_places { vec_capacity self.old.children ≤ vec_capacity self.new.children }
        ensures room_of { KeepsRoomOf arena.old arena.new }
        ensures stack { self.new.stack.items ≡ self.old.stack.items }
        ensures children { self.new.children.items ≡ self.old.children.items }
        ensures kept { SameNodes arena.old arena.new }
    {
        self.stack.reserve(more)?;
        self.children.reserve(more)?;
        reserve_inner(arena, self.children.len() + more)?;
        Ok(())
    }

    /// How many bytes lead to what comes below the last open node: so many at least.
    #[inline(always)]
    pub(super) fn begin(&self, low: usize) -> usize
        ensures { result ≡ begin_of low self.now.stack.items }
    {
        match self.stack.last() {
            Some(top) => low.max(top.child_depth),
            None => low,
        }
    }

    // Opens the node that branches by the last of so many bytes, if it isn't open.
    #[inline(always)]
    fn open_at(&mut self, child_depth: usize) -> Result<(), AllocError>
        ensures ok { OnOk result (OpensAt child_depth self.old self.new) }
        ensures succeeds { (more : ℕ) → HasPlaces self.old (suc more) → IsOk result }
        ensures places { OnOk result ((more : ℕ) → HasPlaces self.old (suc more)
            → length self.new.stack.items + more ≤ vec_capacity self.new.stack) }
        ensures children { self.new.children ≡ self.old.children }
    {
        if child_depth <= self.begin(0) {
            return Ok(());
        }
        let first = self.children.len();
        match self.stack.push(Open { child_depth, first }) {
            Ok(()) => Ok(()),
            Err(_) => Err(AllocError),
        }
    }

    /// Gives the node that branches by the last of so many bytes another child, and opens it if it isn't open.
    #[inline(always)]
    pub(super) fn add_child(
        &mut self,
        child_depth: usize,
        byte: u8,
        child: OpaqueNodePtr,
    ) -> Result<(), AllocError>
        ensures ok { OnOk result (AddsChild child_depth (byte, child) self.old self.new) }
        ensures succeeds { (more : ℕ) → HasPlaces self.old (suc more) → IsOk result }
        ensures places { OnOk result ((more : ℕ) → HasPlaces self.old (suc more) → HasPlaces self.new more) }
    {
        self.open_at(child_depth)?;
        match self.children.push((byte, child)) {
            Ok(()) => Ok(()),
            Err(_) => Err(AllocError),
        }
    }
}

// Makes the last open node, whose last child is this part.
fn close_top<K: AsBytes, V, const PREFIX_LEN: usize>(
    arena: &mut NodeArena<K, V, PREFIX_LEN>,
    spine: &mut Spine,
    last: LeafPtr,
    low: usize,
    part: OpaqueNodePtr,
) -> Result<OpaqueNodePtr, AllocError>
    requires above { low < begin_of low spine.old.stack.items }
    requires stands { (rest : List (Name × Cell K V))
        × HasSome (HasSpine K.bytes PREFIX_LEN arena.old spine.old rest last low part) }
    ensures ok { IfOk result (λ node. (rest : List (Name × Cell K V))
        → OfEach (HasSpine K.bytes PREFIX_LEN arena.old spine.old rest last low part)
        (HasSpine K.bytes PREFIX_LEN arena.new spine.new rest last low node)) }
    ensures fewer { OnOk result (suc (length spine.new.stack.items) ≡ length spine.old.stack.items) }
    ensures leaves { SameLeaves arena.old arena.new }
    ensures succeeds { (more : ℕ) → HasSpineRoom arena.old spine.old (suc more) → IsOk result }
    ensures room { OnOk result (KeepsSpineRoom arena.old spine.old arena.new spine.new) }
{
    let Some(top) = spine.stack.pop() else {
        unreachable!();
    };
    let from = spine.begin(low);
    let depth = top.child_depth - 1;
    let byte = arena.as_key_ref(last).as_bytes()[depth];
    let Ok(()) = spine.children.push((byte, part)) else {
        return Err(AllocError);
    };
    let children = &spine.children.as_slice()[top.first..];
    let node = store_over(arena, last, from, depth, children)?;
    spine.children.truncate(top.first);
    Ok(node)
}

/// Makes the open nodes to which more bytes lead than these, from the last one up. This part stands below the last one.
/// It returns the root of the part that they and it are.
pub(super) fn close_from<K: AsBytes, V, const PREFIX_LEN: usize>(
    arena: &mut NodeArena<K, V, PREFIX_LEN>,
    spine: &mut Spine,
    last: LeafPtr,
    low: usize,
    start: OpaqueNodePtr,
) -> Result<OpaqueNodePtr, AllocError>
    requires { (rest : List (Name × Cell K V))
        × HasSome (HasSpine K.bytes PREFIX_LEN arena.old spine.old rest last low start) }
    ensures ok { IfOk result (λ root. (rest : List (Name × Cell K V))
        → OfEach (HasSpine K.bytes PREFIX_LEN arena.old spine.old rest last low start)
        (HasSpine K.bytes PREFIX_LEN arena.new spine.new rest last low root)) }
    ensures closed { OnOk result (begin_of low spine.new.stack.items ≡ low) }
    ensures leaves { SameLeaves arena.old arena.new }
    ensures succeeds { (more : ℕ) → HasSpineRoom arena.old spine.old (suc more) → IsOk result }
    ensures room { OnOk result (KeepsSpineRoom arena.old spine.old arena.new spine.new) }
{
    let mut part = start;
    'close: loop {
        if spine.begin(low) <= low {
            return Ok(part);
        }
        part = close_top(arena, spine, last, low, part)?;
    }
}

/// Makes the open nodes to which more bytes lead than these, from the last one up. It returns the root of the part that
/// they and the last leaf are.
pub(super) fn close<K: AsBytes, V, const PREFIX_LEN: usize>(
    arena: &mut NodeArena<K, V, PREFIX_LEN>,
    spine: &mut Spine,
    last: LeafPtr,
    low: usize,
) -> Result<OpaqueNodePtr, AllocError>
    requires { (rest : List (Name × Cell K V))
        × HasSome (HasSpine K.bytes PREFIX_LEN arena.old spine.old rest last low (leaf_name last)) }
    ensures ok { IfOk result (λ root. (rest : List (Name × Cell K V))
        → OfEach (HasSpine K.bytes PREFIX_LEN arena.old spine.old rest last low (leaf_name last))
        (HasSpine K.bytes PREFIX_LEN arena.new spine.new rest last low root)) }
    ensures closed { OnOk result (begin_of low spine.new.stack.items ≡ low) }
    ensures leaves { SameLeaves arena.old arena.new }
    ensures succeeds { (more : ℕ) → HasSpineRoom arena.old spine.old (suc more) → IsOk result }
    ensures room { OnOk result (KeepsSpineRoom arena.old spine.old arena.new spine.new) }
{
    close_from(arena, spine, last, low, last.to_opaque())
}

/// Goes on from the last leaf to the next one, from whose key the last one's parts so: makes what is whole before the
/// next, and hangs that below the node at which the keys part. With room for it this never fails.
pub(super) fn pass_at<K: AsBytes, V, const PREFIX_LEN: usize>(
    arena: &mut NodeArena<K, V, PREFIX_LEN>,
    spine: &mut Spine,
    last: LeafPtr,
    next: LeafPtr,
    parted: Parted,
)
    requires stands { HasSome (CanPassAt K.bytes PREFIX_LEN arena.old spine.old last next parted) }
    requires room { (more : ℕ) × HasSpineRoom arena.old spine.old (suc more) }
    requires counts { parted.matched + 1 < 2 ^ 64 }
    requires fits { parted.old_byte < 256 }
    ensures passes { OfEach (CanPassAt K.bytes PREFIX_LEN arena.old spine.old last next parted)
        (RebuildsUpTo K.bytes PREFIX_LEN arena.new spine.new next) }
    ensures leaves { SameLeaves arena.old arena.new }
    ensures room { (more : ℕ) → HasSpineRoom arena.old spine.old (suc more) → HasSpineRoom arena.new spine.new more }
    ensures around { (n : ℕ) → HasRoomAround arena.old spine.old (suc n) → HasRoomAround arena.new spine.new n }
    ensures nodes { (more : ℕ) → HasNodeRoom arena.old spine.old (suc more) → HasNodeRoom arena.new spine.new more }
    ensures leaf_room { KeepsLeafRoom arena.old arena.new }
{
    let child_depth = parted.matched + 1;
    let Ok(part) = close(arena, spine, last, child_depth) else {
        unreachable!();
    };
    let Ok(()) = spine.add_child(child_depth, parted.old_byte, part) else {
        unreachable!();
    };
}

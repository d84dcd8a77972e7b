//! A part of a tree is removed from the inner nodes above it.
ghost use Rattle.std.specs.Prelude.{◌≡◌, ◌≢◌, ◌<◌, ◌≤◌, ◌+◌, suc, List, Some, IsSome, IfOk, IsOk, OnErr, length};
ghost use Rattle.art_nodes.specs.Name.{Name};
ghost use Rattle.art_nodes.specs.InnerNode as node;
ghost use Rattle.art_nodes.specs.InnerNode.{child_at, with_child, without_child, with_children};
ghost use Rattle.art_nodes.specs.Kind.{row_of, shrunk_kind, CanShrink};
ghost use Rattle.art_arena.specs.arena.Arena.{inner_held, HasRoom, HasRoomOf, SameNodes, KeepsRoom, UsesRoom};
ghost use Rattle.art_arena.specs.arena.Arena.{KeepsRoomOf};
ghost use Rattle.art_arena.specs.arena.Cells.{Cell};
ghost use Rattle.art_arena.specs.tree.Kinds.{IsKindOf, ChangesKind};
ghost use Rattle.art_arena.specs.arena.Shapes.{Shape, width};
ghost use Rattle.art_arena.specs.arena.Steps.{steps_of};
ghost use Rattle.art_operations.specs.inner.Detached.{IsChildPart, IsDetached, StandsFor, StoresNodes};
ghost use Rattle.art_operations.specs.inner.Removals.{EditsNode, LosesKind, Moves, PutsBack};
ghost use Rattle.art_operations.specs.Held.{HasInner, SameLinks};
ghost use Rattle.art_operations.specs.Rebuilds.{KeepsLeafRoom};
ghost use Rattle.art_operations.specs.Subtrees.{CanLoseChild, HasRoomAbove, IsPartPlace};

use crate::delete::merge::merge;
use art_arena::{NodeArena, NodeEdit, TreePath};
use art_bytes::AsBytes;
use art_nodes::{NodeType, OpaqueNodePtr, assume_proved};
use std::alloc::AllocError;

// Takes the child under a byte out of a node of three or more, and answers what then stands for the node: one of the
// next smaller kind, where that has room for the rest. It is refused where there is no memory for that one; nothing
// changes then.
fn take_child<K, V, const PREFIX_LEN: usize>(
    arena: &mut NodeArena<K, V, PREFIX_LEN>,
    parent: OpaqueNodePtr,
    byte: u8,
    child: OpaqueNodePtr,
) -> Result<OpaqueNodePtr, AllocError>
    requires inner { parent.kind ≢ NodeType.Leaf }
    requires held { (n : node.InnerNode) × HasInner arena.old parent n × PutsBack n byte child
        × (length (without_child n.children byte) < (row_of parent.kind).most) }
    ensures ok { IfOk result (λ other. (n : node.InnerNode) → HasInner arena.old parent n
        → Moves arena.old arena.new parent other (inner_held (with_children n (without_child n.children byte)))) }
    ensures kind { IfOk result (λ other. (n : node.InnerNode) → HasInner arena.old parent n
        → IsKindOf parent.kind (suc (length (without_child n.children byte)))
        → 2 ≤ length (without_child n.children byte)
        → IsKindOf other.kind (length (without_child n.children byte))) }
    ensures err { OnErr result (SameNodes arena.old arena.new) }
    ensures shrinks { OnErr result ((n : node.InnerNode) → HasInner arena.old parent n
        → CanShrink parent.kind (length (without_child n.children byte))) }
    ensures succeeds { HasRoom arena.old 1 → IsOk result }
    ensures has_room { ((n : node.InnerNode) → HasInner arena.old parent n
        → CanShrink parent.kind (length (without_child n.children byte))
        → HasRoomOf arena.old (shrunk_kind parent.kind) 1) → IsOk result }
    ensures room { UsesRoom 1 arena.old arena.new }
    ensures leaf_room { KeepsLeafRoom arena.old arena.new }
    ensures kept_room { OnErr result (KeepsRoomOf arena.old arena.new) }
{
    arena.edit_inner(parent, &NodeEdit::Remove { byte });
    let left = arena.inner(parent).num_children();
    if !parent.node_type().should_shrink_inner_node(left) {
        return Ok(parent);
    }
    match arena.shrink(parent) {
        Ok(smaller) => {
            arena.edit_inner(parent, &NodeEdit::Free);
            Ok(smaller)
        }
        Err(refused) => {
            arena.edit_inner(parent, &NodeEdit::Write { byte, child });
            Err(refused)
        }
    }
}

// Takes a child out of the node above it, with all below it, and answers what then stands for that node: itself, one of
// the next smaller kind, or its only other child. It is refused where there is no memory for the smaller one; nothing
// changes then.
fn take_out<K: AsBytes, V, const PREFIX_LEN: usize>(
    arena: &mut NodeArena<K, V, PREFIX_LEN>,
    parent: OpaqueNodePtr,
    byte: u8,
    child: OpaqueNodePtr,
) -> Result<OpaqueNodePtr, AllocError>
    requires { (rest : List (Name × Cell K V)) × IsChildPart K.bytes PREFIX_LEN arena.old rest parent byte child }
    ensures ok { IfOk result (λ other. (rest : List (Name × Cell K V))
        (there : IsChildPart K.bytes PREFIX_LEN arena.old rest parent byte child)
        → StandsFor K.bytes PREFIX_LEN arena.new rest there.frame there.outer there.part other) }
    ensures links { SameLinks arena.old arena.new }
    ensures err { OnErr result (SameNodes arena.old arena.new) }
    ensures shrinks { OnErr result ((rest : List (Name × Cell K V))
        (there : IsChildPart K.bytes PREFIX_LEN arena.old rest parent byte child)
        → ChangesKind (suc (width there.frame.before + width there.frame.after))) }
    ensures succeeds { HasRoom arena.old 1 → IsOk result }
    ensures has_room { CanLoseChild arena.old parent → IsOk result }
    ensures room { UsesRoom 1 arena.old arena.new }
    ensures leaf_room { KeepsLeafRoom arena.old arena.new }
    ensures kept_room { OnErr result (KeepsRoomOf arena.old arena.new) }
{
    if arena.inner(parent).num_children() == 2 {
        return Ok(merge(arena, parent, byte));
    }
    take_child(arena, parent, byte, child)
}

// Lets another node stand under the byte of a node, if it is another.
fn point_at<K, V, const PREFIX_LEN: usize>(
    arena: &mut NodeArena<K, V, PREFIX_LEN>,
    above: OpaqueNodePtr,
    byte: u8,
    old: OpaqueNodePtr,
    new: OpaqueNodePtr,
)
    requires inner { above.kind ≢ NodeType.Leaf }
    requires there { (n : node.InnerNode) × HasInner arena.old above n × IsSome (child_at n.children byte) }
    ensures same { new ≡ old → SameNodes arena.old arena.new }
    ensures other { new ≢ old → EditsNode arena.old arena.new above
        (λ n. with_children n (with_child n.children byte new)) }
    ensures room { KeepsRoom arena.old arena.new }
    ensures room_of { KeepsRoomOf arena.old arena.new }
{
    if new == old {
        return;
    }
    arena.edit_inner(above, &NodeEdit::Write { byte, child: new });
}

/// Removes a part of a tree from the inner nodes above it. It returns the root of what is left, or `None` if the part
/// is the root itself. The nodes of the part stay in the arena, and its leaves in the list of leaves.
///
/// Fails if the node above it becomes one of the next smaller kind and there is no memory for that one. Nothing changes
/// then.
#[inline(always)]
pub(crate) fn detach<K: AsBytes, V, const PREFIX_LEN: usize>(
    arena: &mut NodeArena<K, V, PREFIX_LEN>,
    root: OpaqueNodePtr,
    path: TreePath,
    part: OpaqueNodePtr,
) -> Result<Option<OpaqueNodePtr>, AllocError>
    requires { (s : Shape K V) × (rest : List (Name × Cell K V))
        × StoresNodes K.bytes PREFIX_LEN arena.old rest root s × IsPartPlace K.bytes s part (steps_of path) }
    ensures ok { IfOk result (λ left. (s : Shape K V) (rest : List (Name × Cell K V))
        → StoresNodes K.bytes PREFIX_LEN arena.old rest root s
        → (place : IsPartPlace K.bytes s part (steps_of path))
        → IsDetached K.bytes PREFIX_LEN arena.new rest place.ctx place.part left) }
    ensures links { SameLinks arena.old arena.new }
    ensures err { OnErr result (SameNodes arena.old arena.new) }
    ensures shrinks { OnErr result ((s : Shape K V) (rest : List (Name × Cell K V))
        → StoresNodes K.bytes PREFIX_LEN arena.old rest root s
        → (place : IsPartPlace K.bytes s part (steps_of path)) → LosesKind place.ctx) }
    ensures succeeds { HasRoom arena.old 1 → IsOk result }
    ensures has_room { HasRoomAbove arena.old (steps_of path) → IsOk result }
    ensures room { UsesRoom 1 arena.old arena.new }
    ensures leaf_room { KeepsLeafRoom arena.old arena.new }
    ensures kept_room { OnErr result (KeepsRoomOf arena.old arena.new) }
{
    match path {
        TreePath::Root => Ok(None),
        TreePath::ChildOfRoot {
            parent,
            child_key_byte,
        } => {
            let left = take_out(arena, parent.to_opaque(), child_key_byte, part)?;
            Ok(Some(left))
        }
        TreePath::Normal {
            grandparent,
            parent_key_byte,
            parent,
            child_key_byte,
        } => {
            let parent = parent.to_opaque();
            let left = take_out(arena, parent, child_key_byte, part)?;
            point_at(
                arena,
                grandparent.to_opaque(),
                parent_key_byte,
                parent,
                left,
            );
            Ok(Some(root))
        }
    }
}

/// Removes a part of a tree as `detach` does, if what the node above the part becomes is allocated. It never fails.
pub(crate) fn detach_in_room<K: AsBytes, V, const PREFIX_LEN: usize>(
    arena: &mut NodeArena<K, V, PREFIX_LEN>,
    root: OpaqueNodePtr,
    path: TreePath,
    part: OpaqueNodePtr,
) -> Option<OpaqueNodePtr>
    requires place { (s : Shape K V) × (rest : List (Name × Cell K V))
        × StoresNodes K.bytes PREFIX_LEN arena.old rest root s × IsPartPlace K.bytes s part (steps_of path) }
    requires ready { HasRoomAbove arena.old (steps_of path) }
    ensures left { (s : Shape K V) (rest : List (Name × Cell K V))
        → StoresNodes K.bytes PREFIX_LEN arena.old rest root s → (place : IsPartPlace K.bytes s part (steps_of path))
        → IsDetached K.bytes PREFIX_LEN arena.new rest place.ctx place.part result }
    ensures links { SameLinks arena.old arena.new }
    ensures room { UsesRoom 1 arena.old arena.new }
    ensures leaf_room { KeepsLeafRoom arena.old arena.new }
{
    match detach(arena, root, path, part) {
        Ok(left) => left,
        Err(_) => {
            assume_proved(false);
            unreachable!()
        }
    }
}

//! The inner node above a place in a tree.
ghost use Rattle.std.specs.Prelude.{◌≡◌, ◌++◌, List};
ghost use Rattle.art_nodes.specs.Name.{Name};
ghost use Rattle.art_arena.specs.arena.Cells.{Cell, Holds};
ghost use Rattle.art_arena.specs.arena.Arena.{node_at, KeepsRoomOf};
ghost use Rattle.art_arena.specs.arena.Context.{Frame, root_of, cells_before};
ghost use Rattle.art_arena.specs.arena.Steps.{Step, steps_of};
ghost use Rattle.art_operations.specs.inner.Edits.{IsLastOf, StandsAround};
ghost use Rattle.art_operations.specs.Held.{SameLinks};

use art_arena::{NodeArena, NodeEdit, TreePath};
use art_bytes::AsBytes;
use art_nodes::OpaqueNodePtr;

/// The last step of a path: an inner node, and the byte of its child.
#[inline(always)]
pub(crate) fn last_step(path: TreePath) -> Option<(OpaqueNodePtr, u8)>
    ensures { IsLastOf (steps_of path) result }
{
    match path {
        TreePath::Root => None,
        TreePath::ChildOfRoot {
            parent,
            child_key_byte,
        } => Some((parent.to_opaque(), child_key_byte)),
        TreePath::Normal {
            parent,
            child_key_byte,
            ..
        } => Some((parent.to_opaque(), child_key_byte)),
    }
}

/// Puts this node at a place below the inner node above it, which the last step to the place tells. Returns the name of
/// the root, which is the node itself if there is none above.
#[inline(always)]
pub(crate) fn put_below<K: AsBytes, V, const PREFIX_LEN: usize>(
    arena: &mut NodeArena<K, V, PREFIX_LEN>,
    root: OpaqueNodePtr,
    above: Option<(OpaqueNodePtr, u8)>,
    name: OpaqueNodePtr,
) -> OpaqueNodePtr
    requires { (ctx : List (Frame K V)) × (was : Name) × (rest : List (Name × Cell K V)) × (steps : List Step)
        × StandsAround K.bytes PREFIX_LEN (node_at arena.old) root ctx was rest steps × IsLastOf steps above }
    ensures holds { (ctx : List (Frame K V)) (was : Name) (rest : List (Name × Cell K V)) (steps : List Step)
        → StandsAround K.bytes PREFIX_LEN (node_at arena.old) root ctx was rest steps → IsLastOf steps above
        → Holds (node_at arena.new) (cells_before PREFIX_LEN ctx name ++ rest) }
    ensures root { (ctx : List (Frame K V)) (was : Name) (rest : List (Name × Cell K V)) (steps : List Step)
        → StandsAround K.bytes PREFIX_LEN (node_at arena.old) root ctx was rest steps → IsLastOf steps above
        → root_of ctx name ≡ result }
    ensures links { SameLinks arena.old arena.new }
    ensures room_of { KeepsRoomOf arena.old arena.new }
{
    match above {
        None => name,
        Some(step) => {
            let byte = step.1;
            arena.edit_inner(step.0, &NodeEdit::Write { byte, child: name });
            root
        }
    }
}

/// Puts this node at a place as `put_below` does, by the path to the place.
#[inline(always)]
pub(crate) fn repoint<K: AsBytes, V, const PREFIX_LEN: usize>(
    arena: &mut NodeArena<K, V, PREFIX_LEN>,
    root: OpaqueNodePtr,
    path: TreePath,
    name: OpaqueNodePtr,
) -> OpaqueNodePtr
    requires { (ctx : List (Frame K V)) × (was : Name) × (rest : List (Name × Cell K V))
        × StandsAround K.bytes PREFIX_LEN (node_at arena.old) root ctx was rest (steps_of path) }
    ensures holds { (ctx : List (Frame K V)) (was : Name) (rest : List (Name × Cell K V))
        → StandsAround K.bytes PREFIX_LEN (node_at arena.old) root ctx was rest (steps_of path)
        → Holds (node_at arena.new) (cells_before PREFIX_LEN ctx name ++ rest) }
    ensures root { (ctx : List (Frame K V)) (was : Name) (rest : List (Name × Cell K V))
        → StandsAround K.bytes PREFIX_LEN (node_at arena.old) root ctx was rest (steps_of path)
        → root_of ctx name ≡ result }
    ensures links { SameLinks arena.old arena.new }
    ensures room_of { KeepsRoomOf arena.old arena.new }
{
    put_below(arena, root, last_step(path), name)
}

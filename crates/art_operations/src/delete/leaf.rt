//! A leaf that is known by its name is removed from a tree.
ghost use Rattle.std.specs.Prelude.{◌≡◌, List, None, IfOk, IsOk, OnErr, OnOk};
ghost use Rattle.art_nodes.specs.Name.{Name};
ghost use Rattle.art_arena.specs.arena.Arena.{HasRoom, KeepsNodes, KeepsRoomOf, SameNodes, UsesRoom};
ghost use Rattle.art_arena.specs.arena.Cells.{Cell};
ghost use Rattle.art_arena.specs.arena.Shapes.{Shape, leaves};
ghost use Rattle.art_arena.specs.arena.Steps.{steps_of};
ghost use Rattle.art_arena.specs.arena.Rooms.{FreesRoomOf};
ghost use Rattle.art_nodes.specs.declared.kind.NodeType.TheVariants.{Leaf};
ghost use Rattle.art_arena.specs.arena.Stores.{StoresBeside};
ghost use Rattle.art_arena.specs.tree.Shrinks.{Shrinks};
ghost use Rattle.art_operations.specs.DeletePoints.{IsLeafPlace};
ghost use Rattle.art_operations.specs.Deletions.{IsAmong, IsDeletedBeside};
ghost use Rattle.art_operations.specs.LeafNames.{HasLeavesOf};

use crate::delete::point::{DeletePoint, search_for_delete_point};
use crate::delete::result::DeleteResult;
use art_arena::{LeafPtr, NodeArena};
use art_bytes::AsBytes;
use art_nodes::OpaqueNodePtr;
use std::alloc::AllocError;

/// Removes a leaf of the tree below a root. Returns the leaf, with open ends, and the root of what is left. The way to
/// it is found by its own key, of which no copy is made. Whatever stands beside the tree is unchanged.
///
/// Fails only if the removal turns a node into one of the next smaller kind, and there is no memory for that one. The
/// arena is unchanged then.
pub fn take_leaf<K: AsBytes, V, const PREFIX_LEN: usize>(
    arena: &mut NodeArena<K, V, PREFIX_LEN>,
    root: OpaqueNodePtr,
    leaf: LeafPtr,
) -> Result<DeleteResult<K, V>, AllocError>
    requires { (s : Shape K V) × (rest : List (Name × Cell K V))
        × StoresBeside K.bytes PREFIX_LEN arena.old root rest s × IsAmong leaf (leaves s) }
    ensures ok { IfOk result (λ deleted. (s : Shape K V) (rest : List (Name × Cell K V))
        → StoresBeside K.bytes PREFIX_LEN arena.old root rest s → IsAmong leaf (leaves s)
        → IsDeletedBeside K.bytes PREFIX_LEN arena.new rest s leaf deleted) }
    ensures open { IfOk result (λ deleted.
        (deleted.deleted_leaf.previous ≡ None) × (deleted.deleted_leaf.next ≡ None)) }
    ensures others { IfOk result (λ deleted. (s : Shape K V) (rest : List (Name × Cell K V))
        → StoresBeside K.bytes PREFIX_LEN arena.old root rest s → IsAmong leaf (leaves s)
        → KeepsNodes rest arena.old arena.new) }
    ensures names { OnOk result (HasLeavesOf K.bytes arena.old arena.new) }
    ensures err { OnErr result (SameNodes arena.old arena.new) }
    ensures shrinks { OnErr result ((s : Shape K V) (rest : List (Name × Cell K V))
        → StoresBeside K.bytes PREFIX_LEN arena.old root rest s
        → (there : IsAmong leaf (leaves s)) → Shrinks (λ l. K.bytes l.key) (leaves s) (K.bytes there.leaf.key)) }
    ensures succeeds { HasRoom arena.old 1 → IsOk result }
    ensures room { UsesRoom 1 arena.old arena.new }
    ensures leaf_room { OnOk result (FreesRoomOf Leaf arena.old arena.new) }
    ensures kept_room { OnErr result (KeepsRoomOf arena.old arena.new) }
{
    let point = point_of(arena, root, leaf);
    point.apply(arena, root)
}

// The leaf, with the inner nodes above it.
fn point_of<K: AsBytes, V, const PREFIX_LEN: usize>(
    arena: &NodeArena<K, V, PREFIX_LEN>,
    root: OpaqueNodePtr,
    leaf: LeafPtr,
) -> DeletePoint
    requires { (s : Shape K V) × (rest : List (Name × Cell K V))
        × StoresBeside K.bytes PREFIX_LEN arena.now root rest s × IsAmong leaf (leaves s) }
    ensures same { result.leaf_node_ptr ≡ leaf }
    ensures place { (s : Shape K V) (rest : List (Name × Cell K V))
        → StoresBeside K.bytes PREFIX_LEN arena.now root rest s → IsAmong leaf (leaves s)
        → IsLeafPlace K.bytes s leaf (steps_of result.path) }
{
    match search_for_delete_point(arena, root, arena.as_key_ref(leaf).as_bytes()) {
        Some(point) => point,
        None => unreachable!(),
    }
}

//! The leaf that is to be deleted.
ghost use Rattle.std.specs.Prelude.{◌≡◌, Some, None, IfSome};
ghost use Rattle.art_arena.specs.arena.EndLeaves.{end_slot};
ghost use Rattle.art_arena.specs.arena.Found.{found_in, IsAtKey};
ghost use Rattle.art_arena.specs.arena.Linked.{first_slot, last_slot};
ghost use Rattle.art_arena.specs.arena.Shapes.{leaves};
ghost use Rattle.art_arena.specs.arena.Steps.{steps_of};
ghost use Rattle.art_operations.specs.DeletePoints.{leaf_of, IsLeafPlace};
ghost use Rattle.art_operations.specs.Whichever.{HasTree, OfTree};

use art_arena::{ArenaReader, End, LeafPtr, NodeArena, TreePath, end_leaf, find_leaf};
use art_bytes::AsBytes;
use art_nodes::OpaqueNodePtr;

/// A leaf that is to be deleted. One that is built with the path and the leaf that a search would find counts as found.
#[derive(Clone, Copy, Debug)]
pub struct DeletePoint {
    /// The inner nodes just above the leaf.
    pub path: TreePath,
    /// The leaf.
    pub leaf_node_ptr: LeafPtr,
}

/// Finds the leaf with exactly this key in the tree below a name, if there is one. It allocates nothing.
pub fn search_for_delete_point<K: AsBytes, V, const PREFIX_LEN: usize>(
    arena: &NodeArena<K, V, PREFIX_LEN>,
    root: OpaqueNodePtr,
    key: &[u8],
) -> Option<DeletePoint>
    requires { HasTree K.bytes PREFIX_LEN arena.now root }
    ensures value { OfTree K.bytes PREFIX_LEN arena.now root (λ s. leaf_of result ≡ found_in K.bytes key.now s) }
    ensures place { OfTree K.bytes PREFIX_LEN arena.now root (λ s. IfSome result
        (λ point. IsAtKey K.bytes key.now s point.leaf_node_ptr (steps_of point.path))) }
{
    let mut reader = ArenaReader::new(arena);
    match find_leaf(&mut reader, root, key) {
        Some(found) => Some(DeletePoint {
            path: found.path,
            leaf_node_ptr: found.leaf_node_ptr,
        }),
        None => None,
    }
}

/// The leaf at an end, with the inner nodes above it.
pub(crate) fn end_point<K: AsBytes, V, const PREFIX_LEN: usize>(
    arena: &NodeArena<K, V, PREFIX_LEN>,
    root: OpaqueNodePtr,
    end: End,
) -> DeletePoint
    requires { HasTree K.bytes PREFIX_LEN arena.now root }
    ensures value { OfTree K.bytes PREFIX_LEN arena.now root
        (λ s. end_slot end (leaves s) ≡ Some result.leaf_node_ptr) }
    ensures place { OfTree K.bytes PREFIX_LEN arena.now root
        (λ s. IsLeafPlace K.bytes s result.leaf_node_ptr (steps_of result.path)) }
{
    let found = end_leaf(arena, root, end);
    DeletePoint {
        path: found.path,
        leaf_node_ptr: found.leaf_node_ptr,
    }
}

/// Finds the first leaf of the tree below a name. It allocates nothing.
pub fn find_minimum_to_delete<K: AsBytes, V, const PREFIX_LEN: usize>(
    arena: &NodeArena<K, V, PREFIX_LEN>,
    root: OpaqueNodePtr,
) -> DeletePoint
    requires { HasTree K.bytes PREFIX_LEN arena.now root }
    ensures value { OfTree K.bytes PREFIX_LEN arena.now root
        (λ s. first_slot (leaves s) None ≡ Some result.leaf_node_ptr) }
    ensures place { OfTree K.bytes PREFIX_LEN arena.now root
        (λ s. IsLeafPlace K.bytes s result.leaf_node_ptr (steps_of result.path)) }
{
    end_point(arena, root, End::First)
}

/// Finds the last leaf of the tree below a name. It allocates nothing.
pub fn find_maximum_to_delete<K: AsBytes, V, const PREFIX_LEN: usize>(
    arena: &NodeArena<K, V, PREFIX_LEN>,
    root: OpaqueNodePtr,
) -> DeletePoint
    requires { HasTree K.bytes PREFIX_LEN arena.now root }
    ensures value { OfTree K.bytes PREFIX_LEN arena.now root
        (λ s. last_slot None (leaves s) ≡ Some result.leaf_node_ptr) }
    ensures place { OfTree K.bytes PREFIX_LEN arena.now root
        (λ s. IsLeafPlace K.bytes s result.leaf_node_ptr (steps_of result.path)) }
{
    end_point(arena, root, End::Last)
}

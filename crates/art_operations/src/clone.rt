//! A clone of a tree, in an arena of its own.
ghost use Rattle.std.specs.Prelude.{◌≡◌, IfOk};
ghost use Rattle.art_arena.specs.arena.Shapes.{Shape};
ghost use Rattle.art_arena.specs.arena.Stores.{StoresOnly};
ghost use Rattle.art_operations.specs.Clones.{IsClonedTree};

use art_arena::{LeafPtr, NodeArena, first_leaf, last_leaf};
use art_bytes::AsBytes;
use art_nodes::OpaqueNodePtr;
use std::alloc::{AllocError, Global};

/// A clone of a tree.
#[derive(Drop)]
pub struct CloneResult<K, V, const PREFIX_LEN: usize> {
    /// Its nodes, and no others.
    pub arena: NodeArena<K, V, PREFIX_LEN>,
    /// Its root.
    pub root: OpaqueNodePtr,
    /// Its first leaf, the one with the smallest key.
    pub min_leaf: LeafPtr,
    /// Its last leaf, the one with the greatest key.
    pub max_leaf: LeafPtr,
}

/// Clones a tree that an arena holds alone into another arena, which holds nothing else. The clone has nodes of its
/// own, of the same shape and under the same names, with clones of the keys and values. The bytes of a clone of a key
/// must be those of the key. The arena is only read.
///
/// Fails if a key or a value can't be cloned, or if out of memory. What was made is dropped then.
pub fn clone_unchecked<K: AsBytes + Clone, V: Clone, const PREFIX_LEN: usize>(
    alloc: Global,
    arena: &NodeArena<K, V, PREFIX_LEN>,
    root: OpaqueNodePtr,
) -> Result<CloneResult<K, V, PREFIX_LEN>, AllocError>
    requires keys { (k c : K) → K.is_clone k c → K.bytes c ≡ K.bytes k }
    requires tree { (s : Shape K V) × StoresOnly K.bytes PREFIX_LEN arena.now root s }
    ensures { IfOk result (λ cloned. (s : Shape K V) → StoresOnly K.bytes PREFIX_LEN arena.now root s
        → IsClonedTree K.is_clone V.is_clone K.bytes PREFIX_LEN s cloned) }
{
    let copy = arena.try_clone(alloc)?;
    let min_leaf = first_leaf(&copy, root);
    let max_leaf = last_leaf(&copy, root);
    Ok(CloneResult {
        arena: copy,
        root,
        min_leaf,
        max_leaf,
    })
}

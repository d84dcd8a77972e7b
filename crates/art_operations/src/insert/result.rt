//! What an insertion returns.

use art_arena::LeafPtr;
use art_nodes::{ConcreteInnerNodePtr, LeafNode, OpaqueNodePtr};
use thiserror::Error;

/// What an insertion changed above the leaf.
#[derive(Clone, Copy, Debug)]
pub enum InsertParentNodeChange {
    /// The leaf is a child of this inner node under this byte. The node is new, got one more child, or took the place
    /// of a smaller one.
    NewParent {
        /// The node.
        new_parent_node: ConcreteInnerNodePtr,
        /// The byte.
        leaf_node_key_byte: u8,
    },
    /// The leaf stands where it stood.
    NoChange,
}

/// What an insertion returns.
#[derive(Debug, Drop)]
pub struct InsertResult<K, V> {
    /// The leaf with the new key and value.
    pub leaf_node_ptr: LeafPtr,
    /// The leaf that had the key, if there was one, with the key and the value that it had.
    pub existing_leaf: Option<LeafNode<K, V>>,
    /// The root of the tree with the new leaf.
    pub new_root: OpaqueNodePtr,
    /// What changed above the leaf.
    pub parent_node_change: InsertParentNodeChange,
}

/// The call was out of memory for a leaf, or for an inner node above it. The error returns the key and the value.
#[derive(Debug, Drop, Error)]
#[error("no memory for a leaf, or for an inner node above it")]
pub struct InsertRefused<K, V> {
    /// The key.
    pub key: K,
    /// The value.
    pub value: V,
}

/// Why a pair was not inserted. The error returns it.
#[derive(Debug, Drop, Error)]
pub enum PairRefused<K, V> {
    /// The key is a prefix of a stored key, or a stored key is a prefix of it.
    #[error("the key begins a stored key, or a stored key begins it")]
    Conflict {
        /// The key.
        key: K,
        /// The value.
        value: V,
    },
    /// The call was out of memory for a leaf, or for an inner node above it.
    #[error("no memory for a leaf, or for an inner node above it")]
    Memory {
        /// The key.
        key: K,
        /// The value.
        value: V,
    },
}

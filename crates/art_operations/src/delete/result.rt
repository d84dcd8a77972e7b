//! What a deletion returns.

use art_nodes::{LeafNode, OpaqueNodePtr};

/// What a deletion returns.
#[derive(Debug, Drop)]
pub struct DeleteResult<K, V> {
    /// The root of the tree without the leaf, if a leaf is left.
    pub new_root: Option<OpaqueNodePtr>,
    /// The leaf that was removed.
    pub deleted_leaf: LeafNode<K, V>,
}

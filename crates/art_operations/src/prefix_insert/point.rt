//! The place of a new key that is inserted in place of those with which it is in conflict.
ghost use Rattle.art_arena.specs.arena.Shapes.{leaves};
ghost use Rattle.art_operations.specs.Overwrites.{IsPrefixPoint, TellsConflict};
ghost use Rattle.art_operations.specs.Whichever.{HasTree, OfTree};

use crate::insert::point::{InsertPoint, find_insert_point};
use art_arena::{NodeArena, TreePath};
use art_bytes::AsBytes;
use art_nodes::OpaqueNodePtr;

/// The part of a tree that gives way to a new leaf. Below it are the keys that are in conflict with the new one, and no
/// others.
#[derive(Clone, Copy, Debug)]
pub struct OverwritePoint {
    /// The root of the tree.
    pub root: OpaqueNodePtr,
    /// The inner nodes just above the part.
    pub path: TreePath,
    /// The root of the part.
    pub overwrite_point: OpaqueNodePtr,
}

/// Where a new key goes, whichever keys it is in conflict with.
#[derive(Clone, Copy, Debug)]
pub enum PrefixInsertPoint {
    /// It is in conflict with no key: this is its place.
    InsertPoint(InsertPoint),
    /// It takes the place of a part.
    OverwritePoint(OverwritePoint),
}

/// Finds where a new key goes in the tree below a name. It returns an `InsertPoint`, of kind `Exact` if the key is
/// stored. If the key is in conflict with a stored one, it returns an `OverwritePoint`. So an empty key overwrites the
/// whole tree, unless it is stored. It never fails, and allocates nothing.
pub fn search_for_prefix_insert_point<K: AsBytes, V, const PREFIX_LEN: usize>(
    arena: &NodeArena<K, V, PREFIX_LEN>,
    root: OpaqueNodePtr,
    key: &[u8],
) -> PrefixInsertPoint
    requires { HasTree K.bytes PREFIX_LEN arena.now root }
    ensures place { OfTree K.bytes PREFIX_LEN arena.now root (λ s. IsPrefixPoint K.bytes key.now s result) }
    ensures conflict { OfTree K.bytes PREFIX_LEN arena.now root (λ s. TellsConflict K.bytes key.now (leaves s) result) }
{
    match find_insert_point(arena, root, key) {
        Ok(point) => PrefixInsertPoint::InsertPoint(point),
        Err(conflict) => PrefixInsertPoint::OverwritePoint(OverwritePoint {
            root: conflict.root,
            path: conflict.path,
            overwrite_point: conflict.part,
        }),
    }
}

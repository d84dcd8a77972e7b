//! A key that the tree has already: its leaf takes the new key and the new value.
ghost use Rattle.std.specs.Prelude.{◌≡◌};
ghost use Rattle.art_arena.specs.arena.Steps.{steps_of};
ghost use Rattle.art_operations.specs.Insertions.{IsInsertedBeside};
ghost use Rattle.art_operations.specs.Points.{IsPoint};
ghost use Rattle.art_operations.specs.declared.insert.point.InsertKind.TheVariants as kind;
ghost use Rattle.art_arena.specs.arena.Arena.{KeepsNodes, KeepsRoom, KeepsRoomOf};
ghost use Rattle.art_operations.specs.Whichever.{HasTreeWhere, OfTreeWhere};

use crate::insert::point::InsertPoint;
use crate::insert::result::{InsertParentNodeChange, InsertResult};
use art_arena::{LeafPtr, NodeArena};
use art_bytes::AsBytes;
use art_nodes::LeafNode;

/// Puts a key and a value into the leaf that has the key. The leaf keeps its name and its links; what it had is
/// answered. It takes no memory.
pub(crate) fn replace_pair<K: AsBytes, V, const PREFIX_LEN: usize>(
    arena: &mut NodeArena<K, V, PREFIX_LEN>,
    point: InsertPoint,
    leaf: LeafPtr,
    key: K,
    value: V,
) -> InsertResult<K, V>
    requires tree { HasTreeWhere K.bytes PREFIX_LEN arena.old point.root (λ s. IsPoint K.bytes (K.bytes key) s point) }
    requires kind { point.insert_kind ≡ kind.Exact leaf }
    ensures inserted { OfTreeWhere K.bytes PREFIX_LEN arena.old point.root (λ s. IsPoint K.bytes (K.bytes key) s point)
        (λ s rest. IsInsertedBeside K.bytes PREFIX_LEN arena.new rest s (steps_of point.path) key value result) }
    ensures others { OfTreeWhere K.bytes PREFIX_LEN arena.old point.root (λ s. IsPoint K.bytes (K.bytes key) s point)
        (λ s rest. KeepsNodes rest arena.old arena.new) }
    ensures room { KeepsRoom arena.old arena.new }
    ensures room_of { KeepsRoomOf arena.old arena.new }
{
    let mut node = LeafNode::with_no_siblings(key, value);
    let old = arena.as_ref::<LeafNode<K, V>>(leaf);
    node.set_previous(old.previous());
    node.set_next(old.next());
    let mut existing = arena.replace(leaf, node);
    existing.set_previous(None);
    existing.set_next(None);
    InsertResult {
        leaf_node_ptr: leaf,
        existing_leaf: Some(existing),
        new_root: point.root,
        parent_node_change: InsertParentNodeChange::NoChange,
    }
}

//! A new leaf, before it is linked and stands under an inner node.
ghost use Rattle.std.specs.Prelude.{◌≡◌, None, IsSome, IsOk, IfOk, OnErr};
ghost use Rattle.art_arena.specs.arena.Arena.{held_at, Allocates, SameNodes, HasRoom, HasRoomOf};
ghost use Rattle.art_arena.specs.arena.Arena.{KeepsRoom, KeepsRoomOf, UsesRoom};
ghost use Rattle.art_arena.specs.arena.Rooms.{FreesRoomOf, UsesRoomOf};
ghost use Rattle.art_nodes.specs.declared.kind.NodeType.{NodeType};
ghost use Rattle.art_arena.specs.arena.Cells.{UpdatesAt, leaf_name};
ghost use Rattle.art_nodes.specs.declared.leaf.LeafNode as node;
ghost use Rattle.art_operations.specs.inner.Edits.{lone_leaf};
ghost use Rattle.art_operations.specs.Held.{HasLeaf};
ghost use Rattle.art_operations.specs.Insertions.{HandsPairBack};

use crate::insert::result::InsertRefused;
use art_arena::{LeafPtr, NodeArena};
use art_nodes::LeafNode;

/// Stores a leaf with no links. Fails if out of memory; the error returns the key and the value.
pub(crate) fn store_leaf<K, V, const PREFIX_LEN: usize>(
    arena: &mut NodeArena<K, V, PREFIX_LEN>,
    key: K,
    value: V,
) -> Result<LeafPtr, InsertRefused<K, V>>
    ensures ok { IfOk result (λ leaf. Allocates arena.old arena.new (leaf_name leaf) (lone_leaf key value)) }
    ensures err { OnErr result (SameNodes arena.old arena.new) }
    ensures handed_back { HandsPairBack key value result }
    ensures succeeds { HasRoom arena.old 1 → IsOk result }
    ensures room { UsesRoom 1 arena.old arena.new }
    ensures room_of { UsesRoomOf NodeType.Leaf arena.old arena.new }
    ensures kept_room { OnErr result (KeepsRoomOf arena.old arena.new) }
{
    match arena.allocate_node_ptr(LeafNode::with_no_siblings(key, value)) {
        Ok(leaf) => Ok(leaf),
        Err(refused) => {
            let (key, value) = refused.node.into_entry();
            Err(InsertRefused { key, value })
        }
    }
}

/// Removes a leaf from the arena again, and returns its key and value in an error.
pub(crate) fn take_back<K, V, const PREFIX_LEN: usize>(
    arena: &mut NodeArena<K, V, PREFIX_LEN>,
    leaf: LeafPtr,
) -> InsertRefused<K, V>
    requires { IsSome (held_at arena.old (leaf_name leaf)) }
    ensures pair { (l : node.LeafNode K V) → HasLeaf arena.old leaf l → (result.key ≡ l.key)
        × (result.value ≡ l.value) }
    ensures updates { UpdatesAt (held_at arena.old) (held_at arena.new) (leaf_name leaf) None }
    ensures room { KeepsRoom arena.old arena.new }
    ensures room_of { KeepsRoomOf arena.old arena.new }
    ensures frees { FreesRoomOf NodeType.Leaf arena.old arena.new }
    ensures room_for_it { HasRoomOf arena.new NodeType.Leaf 1 }
{
    let node: LeafNode<K, V> = arena.deallocate_node_ptr(leaf);
    let (key, value) = node.into_entry();
    InsertRefused { key, value }
}

//! An inner node that is made at once, with all its children.
ghost use Rattle.std.specs.Prelude.{◌≡◌, ◌≤◌, ◌+◌, ◌-◌, ℕ, suc, length, take, drop, IsOk, IfOk, OnErr};
ghost use Rattle.art_nodes.specs.InnerNode.{IsAscending};
ghost use Rattle.art_nodes.specs.declared.kind.NodeType.{NodeType};
ghost use Rattle.art_nodes.specs.declared.leaf.LeafNode as node;
ghost use Rattle.art_arena.specs.arena.Arena.{inner_held, Allocates, HasRoomOf, SameNodes};
ghost use Rattle.art_arena.specs.arena.Rooms.{SameLeaves, UsesRoomOf};
ghost use Rattle.art_arena.specs.tree.Kinds.{IsKindOf};
ghost use Rattle.art_operations.specs.Held.{HasLeaf};
ghost use Rattle.art_operations.specs.Rebuilds.{HasInnerRoom};
ghost use Rattle.art_operations.specs.inner.Spines.{inner_over};

use art_arena::{LeafPtr, NodeArena, StoredInner};
use art_bytes::AsBytes;
use art_nodes::{
    InnerNode4, InnerNode16, InnerNode32, InnerNode48, InnerNode256, InnerNodeCommon, OpaqueNodePtr,
};
use std::alloc::AllocError;

// An inner node of these children under this prefix.
#[inline(always)]
fn node_over<N: InnerNodeCommon<PREFIX_LEN>, const PREFIX_LEN: usize>(
    prefix: &[u8],
    children: &[(u8, OpaqueNodePtr)],
) -> N
    requires ascending { IsAscending children.now }
    requires room { length children.now ≤ N.room }
    ensures { N.inner result ≡ inner_over PREFIX_LEN prefix.now children.now }
{
    let mut node = N::from_prefix(prefix, prefix.len());
    for child in children {
        node.write_child(child.0, child.1);
    }
    node
}

// Stores an inner node of one kind. Each kind has a call of its own: it clears as much of the stack as one node takes.
#[inline(never)]
fn store_kind<
    K: AsBytes,
    V,
    N: StoredInner<K, V, NodeArena<K, V, PREFIX_LEN>, PREFIX_LEN>,
    const PREFIX_LEN: usize,
>(
    arena: &mut NodeArena<K, V, PREFIX_LEN>,
    leaf: LeafPtr,
    from: usize,
    depth: usize,
    children: &[(u8, OpaqueNodePtr)],
) -> Result<OpaqueNodePtr, AllocError>
    requires leaf { (l : node.LeafNode K V) × HasLeaf arena.old leaf l × (depth ≤ length (K.bytes l.key)) }
    requires prefix { from ≤ depth }
    requires ascending { IsAscending children.now }
    requires room { length children.now ≤ N.room }
    ensures ok { (l : node.LeafNode K V) → HasLeaf arena.old leaf l
        → IfOk result (λ name. (name.kind ≡ N.Kind.TYPE) × Allocates arena.old arena.new name
        (inner_held (inner_over PREFIX_LEN (take (depth - from) (drop from (K.bytes l.key))) children.now))) }
    ensures err { OnErr result (SameNodes arena.old arena.new) }
    ensures succeeds { HasRoomOf arena.old N.Kind.TYPE 1 → IsOk result }
    ensures room { UsesRoomOf N.Kind.TYPE arena.old arena.new }
{
    let prefix = &arena.as_key_ref(leaf).as_bytes()[from..depth];
    let node: N = node_over(prefix, children);
    Ok(arena.allocate_node_ptr(node)?.to_opaque())
}

/// Stores an inner node of these children. Its prefix are the bytes of the leaf's key from one depth to another. It is
/// of the smallest kind that has room for them. Fails if out of memory.
pub(super) fn store_over<K: AsBytes, V, const PREFIX_LEN: usize>(
    arena: &mut NodeArena<K, V, PREFIX_LEN>,
    leaf: LeafPtr,
    from: usize,
    depth: usize,
    children: &[(u8, OpaqueNodePtr)],
) -> Result<OpaqueNodePtr, AllocError>
    requires leaf { (l : node.LeafNode K V) × HasLeaf arena.old leaf l × (depth ≤ length (K.bytes l.key)) }
    requires prefix { from ≤ depth }
    requires ascending { IsAscending children.now }
    requires two { 2 ≤ length children.now }
    ensures leaves { SameLeaves arena.old arena.new }
    ensures kind { IfOk result (λ name. IsKindOf name.kind (length children.now)) }
    ensures ok { IfOk result (λ name. (l : node.LeafNode K V) → HasLeaf arena.old leaf l
        → Allocates arena.old arena.new name
        (inner_held (inner_over PREFIX_LEN (take (depth - from) (drop from (K.bytes l.key))) children.now))) }
    ensures err { OnErr result (SameNodes arena.old arena.new) }
    ensures succeeds { (more : ℕ) → HasInnerRoom arena.old (length children.now + more) → IsOk result }
    ensures room { (more : ℕ) → HasInnerRoom arena.old (length children.now + more)
        → HasInnerRoom arena.new (suc more) }
    ensures uses { (kind : NodeType) → IsKindOf kind (length children.now) → UsesRoomOf kind arena.old arena.new }
{
    if !arena.fits_in_memory() {
        return Err(AllocError);
    }
    let count = children.len();
    if count <= 4 {
        return store_kind::<K, V, InnerNode4<K, V, PREFIX_LEN>, PREFIX_LEN>(
            arena, leaf, from, depth, children,
        );
    }
    if count <= 16 {
        return store_kind::<K, V, InnerNode16<K, V, PREFIX_LEN>, PREFIX_LEN>(
            arena, leaf, from, depth, children,
        );
    }
    if count <= 32 {
        return store_kind::<K, V, InnerNode32<K, V, PREFIX_LEN>, PREFIX_LEN>(
            arena, leaf, from, depth, children,
        );
    }
    if count <= 48 {
        return store_kind::<K, V, InnerNode48<K, V, PREFIX_LEN>, PREFIX_LEN>(
            arena, leaf, from, depth, children,
        );
    }
    store_kind::<K, V, InnerNode256<K, V, PREFIX_LEN>, PREFIX_LEN>(
        arena, leaf, from, depth, children,
    )
}

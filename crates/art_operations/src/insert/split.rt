//! A key that parts from the prefix of an inner node or from the key of a leaf. A new inner node takes that node's
//! place, over it and over the new leaf.
ghost use Rattle.std.specs.Prelude.{◌≡◌, ◌≢◌, ◌+◌, ◌<◌, ◌≤◌, ◌^◌, ◌∷◌, ◌++◌, ℕ, List, None, Some, length, take, drop};
ghost use Rattle.std.specs.Prelude.{IsSome, IsOk, IfOk, OnErr};
ghost use Rattle.art_nodes.specs.declared.kind.NodeType.TheVariants.{Node4};
ghost use Rattle.art_nodes.specs.declared.leaf.LeafNode as node;
ghost use Rattle.art_arena.specs.arena.Arena.{held_at, node_at, links_at, Allocates, SameNodes, HasRoom};
ghost use Rattle.art_arena.specs.arena.Arena.{KeepsRoomOf};
ghost use Rattle.art_arena.specs.arena.Arena.{KeepsNodes, SameCells, UsesRoom};
ghost use Rattle.art_arena.specs.arena.Cells.{Cell, UpdatesAt, leaf_name};
ghost use Rattle.art_arena.specs.arena.Linked.{AreLinked, IsBeside, KeepsLinksOutside};
ghost use Rattle.art_arena.specs.arena.Prefixes.{prefix_of};
ghost use Rattle.art_arena.specs.arena.Shapes.{Shape, LeafAt, leaves};
ghost use Rattle.art_arena.specs.arena.Steps.{steps_of};
ghost use Rattle.art_operations.specs.inner.Edits.{lone_leaf, AllocatesBoth};
ghost use Rattle.art_operations.specs.inner.Splits.{PartsFrom, trimmed, root_cell, with_prefix, IsEnd, IsBetween};
ghost use Rattle.art_operations.specs.inner.Splits.{split_held, split_node};
ghost use Rattle.art_operations.specs.Frees.{SwapsLeaves};
ghost use Rattle.art_operations.specs.Insertions.{HandsPairBack, IsInsertedBeside, replaced_by};
ghost use Rattle.art_operations.specs.Rebuilds.{KeepsLeafRoom};
ghost use Rattle.art_operations.specs.Points.{IsPoint};
ghost use Rattle.art_arena.specs.arena.Stores.{StoresAt, StoresBelow};
ghost use Rattle.art_operations.specs.Held.{HasLeaf, SameLinks};
ghost use Rattle.art_operations.specs.Whichever.{HasSome, HasTreeWhere, OfEach, OfTreeWhere};

use crate::insert::leaf::{store_leaf, take_back};
use crate::insert::point::InsertPoint;
use crate::insert::result::{InsertParentNodeChange, InsertRefused, InsertResult};
use crate::meeting::Parted;
use crate::parent::repoint;
use art_arena::links::{insert_after, insert_before};
use art_arena::{LeafPtr, NodeArena, NodeEdit, first_leaf, last_leaf, read_full_prefix};
use art_bytes::AsBytes;
use art_nodes::{
    ConcreteInnerNodePtr, Header, InnerNode4, Kind4, KindLeaf, NodePtr, NodeType, OpaqueNodePtr,
};
use std::alloc::AllocError;

// The nodes that a split makes: a leaf, and an inner node over the old part and the leaf.
#[derive(Clone, Copy)]
struct SplitNodes {
    leaf: LeafPtr,
    inner: NodePtr<Kind4>,
}

// An inner node over the old part and a new leaf: which of the two bytes is the smaller is asked once.
#[inline(always)]
fn split_of<K, V, const PREFIX_LEN: usize>(
    prefix: &[u8],
    parted: Parted,
    old: OpaqueNodePtr,
    leaf: LeafPtr,
) -> InnerNode4<K, V, PREFIX_LEN>
    requires { parted.old_byte ≢ parted.new_byte }
    ensures { result ≡ split_node PREFIX_LEN prefix.now parted.old_byte old parted.new_byte (leaf_name leaf) }
{
    let old_child = (parted.old_byte, old);
    let new_child = (parted.new_byte, leaf.to_opaque());
    if parted.old_byte < parted.new_byte {
        InnerNode4::with_two_children(prefix, prefix.len(), old_child, new_child)
    } else {
        InnerNode4::with_two_children(prefix, prefix.len(), new_child, old_child)
    }
}

// Stores an inner node over the old part and a new leaf, whose key lends the prefix.
#[inline(always)]
fn store_split<K: AsBytes, V, const PREFIX_LEN: usize>(
    arena: &mut NodeArena<K, V, PREFIX_LEN>,
    old: OpaqueNodePtr,
    depth: usize,
    parted: Parted,
    leaf: LeafPtr,
) -> Result<NodePtr<Kind4>, AllocError>
    requires leaf { (l : node.LeafNode K V) × HasLeaf arena.old leaf l
        × (depth + parted.matched ≤ length (K.bytes l.key)) }
    requires differs { parted.old_byte ≢ parted.new_byte }
    requires fits_in_memory { PREFIX_LEN < 2 ^ 62 }
    ensures ok { IfOk result (λ inner. (l : node.LeafNode K V) → HasLeaf arena.old leaf l
        → Allocates arena.old arena.new (record { kind = Node4; slot = inner })
        (split_held PREFIX_LEN (take parted.matched (drop depth (K.bytes l.key))) parted old leaf)) }
    ensures err { OnErr result (SameNodes arena.old arena.new) }
    ensures succeeds { HasRoom arena.old 1 → IsOk result }
    ensures room { UsesRoom 1 arena.old arena.new }
    ensures leaf_room { KeepsLeafRoom arena.old arena.new }
    ensures kept_room { OnErr result (KeepsRoomOf arena.old arena.new) }
{
    let key = arena.as_key_ref(leaf).as_bytes();
    let node: InnerNode4<K, V, PREFIX_LEN> = split_of(
        &key[depth..depth + parted.matched],
        parted,
        old,
        leaf,
    );
    match arena.allocate_node_ptr(node) {
        Ok(inner) => Ok(inner),
        Err(_) => Err(AllocError),
    }
}

// Stores a leaf, and an inner node over it and the old part. Where there is no memory for both, neither stays.
#[inline(always)]
fn store_nodes<K: AsBytes, V, const PREFIX_LEN: usize>(
    arena: &mut NodeArena<K, V, PREFIX_LEN>,
    old: OpaqueNodePtr,
    depth: usize,
    parted: Parted,
    key: K,
    value: V,
) -> Result<SplitNodes, InsertRefused<K, V>>
    requires within { depth + parted.matched ≤ length (K.bytes key) }
    requires differs { parted.old_byte ≢ parted.new_byte }
    requires fits_in_memory { PREFIX_LEN < 2 ^ 62 }
    ensures ok { IfOk result (λ made. AllocatesBoth arena.old arena.new (leaf_name made.leaf) (lone_leaf key value)
        (record { kind = Node4; slot = made.inner })
        (split_held PREFIX_LEN (take parted.matched (drop depth (K.bytes key))) parted old made.leaf)) }
    ensures err { OnErr result (SameNodes arena.old arena.new) }
    ensures handed_back { HandsPairBack key value result }
    ensures succeeds { HasRoom arena.old 2 → IsOk result }
    ensures room { UsesRoom 2 arena.old arena.new }
    ensures leaf_room { IfOk result (λ made. SwapsLeaves 1 0 arena.old arena.new) }
    ensures kept_room { OnErr result (KeepsRoomOf arena.old arena.new) }
{
    let leaf = store_leaf(arena, key, value)?;
    match store_split(arena, old, depth, parted, leaf) {
        Ok(inner) => Ok(SplitNodes { leaf, inner }),
        Err(_) => Err(take_back(arena, leaf)),
    }
}

/// Returns the leaf at one end of a part: the first, or else the last. Where the part is a leaf, its name tells, and no
/// node is read.
#[inline(always)]
pub(crate) fn leaf_at_end<K: AsBytes, V, const PREFIX_LEN: usize>(
    arena: &NodeArena<K, V, PREFIX_LEN>,
    node: OpaqueNodePtr,
    is_first: bool,
) -> LeafPtr
    requires { HasSome (StoresBelow K.bytes PREFIX_LEN arena.now node) }
    ensures { OfEach (StoresBelow K.bytes PREFIX_LEN arena.now node) (λ path s. IsEnd is_first result (leaves s)) }
{
    match node.cast::<KindLeaf>() {
        Some(leaf) => leaf,
        None => {
            if is_first {
                first_leaf(arena, node)
            } else {
                last_leaf(arena, node)
            }
        }
    }
}

/// Links a new leaf in between two lists: before the first leaf of the second, or else after the last one of the
/// first.
#[inline(always)]
pub(crate) fn link_between<K, V, const PREFIX_LEN: usize>(
    arena: &mut NodeArena<K, V, PREFIX_LEN>,
    leaf: LeafPtr,
    neighbour: LeafPtr,
    is_before: bool,
)
    requires { (xs : List (LeafAt K V)) × (ys : List (LeafAt K V)) × IsBeside (links_at arena.old) (xs ++ ys) leaf
        × IsBetween is_before neighbour xs ys }
    ensures nodes { SameCells arena.old arena.new }
    ensures room_of { KeepsRoomOf arena.old arena.new }
    ensures linked { (xs ys : List (LeafAt K V)) (m : LeafAt K V) → IsBeside (links_at arena.old) (xs ++ ys) leaf
        → IsBetween is_before neighbour xs ys → m.slot ≡ leaf
        → AreLinked (links_at arena.new) None (xs ++ m ∷ ys) None }
    ensures others { (xs ys : List (LeafAt K V)) (m : LeafAt K V) → IsBeside (links_at arena.old) (xs ++ ys) leaf
        → IsBetween is_before neighbour xs ys → m.slot ≡ leaf
        → KeepsLinksOutside (links_at arena.old) (links_at arena.new) (xs ++ m ∷ ys) }
{
    if is_before {
        insert_before(arena, leaf, neighbour);
    } else {
        insert_after(arena, leaf, neighbour);
    }
}

// The prefix of an inner node that stands at this depth, after so many bytes and one more, in a header; none for a
// leaf.
#[inline(always)]
fn rest_of_prefix<K: AsBytes, V, const PREFIX_LEN: usize>(
    arena: &NodeArena<K, V, PREFIX_LEN>,
    node: OpaqueNodePtr,
    depth: usize,
    matched: usize,
) -> Option<Header<PREFIX_LEN>>
    requires stands { (path : List ℕ) × (s : Shape K V) × StoresAt K.bytes PREFIX_LEN arena.now node depth path s
        × (node.kind ≢ NodeType.Leaf → matched < length (prefix_of s)) }
    requires fits_in_memory { PREFIX_LEN < 2 ^ 62 }
    ensures cell { (path : List ℕ) (s : Shape K V) → StoresAt K.bytes PREFIX_LEN arena.now node depth path s
        → with_prefix result (root_cell PREFIX_LEN s) ≡ root_cell PREFIX_LEN (trimmed (matched + 1) s) }
    ensures inner { IsSome result → node.kind ≢ NodeType.Leaf }
{
    if node.is::<KindLeaf>() {
        return None;
    }
    let prefix = read_full_prefix(arena, node, depth).prefix;
    let rest = &prefix[matched + 1..];
    Some(Header::new(rest, rest.len()))
}

// Gives an inner node the prefix of a header, if there is one.
#[inline(always)]
fn trim<K, V, const PREFIX_LEN: usize>(
    arena: &mut NodeArena<K, V, PREFIX_LEN>,
    node: OpaqueNodePtr,
    header: Option<Header<PREFIX_LEN>>,
)
    requires held { IsSome (held_at arena.old node) }
    requires inner { IsSome header → node.kind ≢ NodeType.Leaf }
    ensures cell { (c : Cell K V) → node_at arena.old node ≡ Some c
        → UpdatesAt (node_at arena.old) (node_at arena.new) node (Some (with_prefix header.entry c)) }
    ensures links { SameLinks arena.old arena.new }
    ensures room_of { KeepsRoomOf arena.old arena.new }
{
    if let Some(header) = header {
        arena.edit_inner(node, &NodeEdit::CopyPrefix { header: &header });
    }
}

/// Puts an inner node in the place of the node from which the key parts, over it and over a new leaf of the key.
///
/// Where there is no memory for the two new nodes, the key and the value are handed back, and the tree is as it was.
#[inline(always)]
pub(crate) fn split<K: AsBytes, V, const PREFIX_LEN: usize>(
    arena: &mut NodeArena<K, V, PREFIX_LEN>,
    point: InsertPoint,
    old: OpaqueNodePtr,
    parted: Parted,
    key: K,
    value: V,
) -> Result<InsertResult<K, V>, InsertRefused<K, V>>
    requires tree { HasTreeWhere K.bytes PREFIX_LEN arena.old point.root (λ s. IsPoint K.bytes (K.bytes key) s point) }
    requires kind { PartsFrom point.insert_kind old parted }
    ensures ok { IfOk result (λ inserted. OfTreeWhere K.bytes PREFIX_LEN arena.old point.root
        (λ s. IsPoint K.bytes (K.bytes key) s point)
        (λ s rest. IsInsertedBeside K.bytes PREFIX_LEN arena.new rest s (steps_of point.path) key value inserted)) }
    ensures others { IfOk result (λ inserted. OfTreeWhere K.bytes PREFIX_LEN arena.old point.root
        (λ s. IsPoint K.bytes (K.bytes key) s point) (λ s rest. KeepsNodes rest arena.old arena.new)) }
    ensures err { OnErr result (SameNodes arena.old arena.new) }
    ensures handed_back { HandsPairBack key value result }
    ensures succeeds { HasRoom arena.old 2 → IsOk result }
    ensures room { UsesRoom 2 arena.old arena.new }
    ensures leaf_room { IfOk result (λ inserted. SwapsLeaves 1 (replaced_by inserted) arena.old arena.new) }
    ensures kept_room { OnErr result (KeepsRoomOf arena.old arena.new) }
{
    if !arena.fits_in_memory() {
        return Err(InsertRefused { key, value });
    }
    let depth = point.key_bytes_used;
    let is_before = parted.new_byte < parted.old_byte;
    let neighbour = leaf_at_end(arena, old, is_before);
    let rest = rest_of_prefix(arena, old, depth, parted.matched);
    let made = store_nodes(arena, old, depth, parted, key, value)?;
    trim(arena, old, rest);
    link_between(arena, made.leaf, neighbour, is_before);
    let new_root = repoint(arena, point.root, point.path, made.inner.to_opaque());
    Ok(InsertResult {
        leaf_node_ptr: made.leaf,
        existing_leaf: None,
        new_root,
        parent_node_change: InsertParentNodeChange::NewParent {
            new_parent_node: ConcreteInnerNodePtr::Node4(made.inner),
            leaf_node_key_byte: parted.new_byte,
        },
    })
}

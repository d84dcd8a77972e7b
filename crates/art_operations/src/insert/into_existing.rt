//! A new leaf under an inner node that is there.
ghost use Rattle.std.specs.Prelude.{◌≡◌, ◌<◌, ◌+◌, ℕ, suc, List, ◌∷◌, ◌++◌, take, Some, None, IsOk, IfOk, OnErr};
ghost use Rattle.art_nodes.specs.Name.{Name};
ghost use Rattle.art_nodes.specs.InnerNode as node;
ghost use Rattle.art_arena.specs.arena.Arena.{KeepsNodes, SameCells, SameNodes, HasRoom, UsesRoom, links_at};
ghost use Rattle.art_arena.specs.arena.Arena.{KeepsRoomOf};
ghost use Rattle.art_arena.specs.arena.Cells.{Cell};
ghost use Rattle.art_arena.specs.arena.Linked.{AreLinked, IsBeside, KeepsLinksOutside};
ghost use Rattle.art_arena.specs.arena.Context.{Frame, plug, leaves_before, leaves_after};
ghost use Rattle.art_arena.specs.tree.Kinds.{IsKindOf};
ghost use Rattle.art_arena.specs.arena.Shapes.{LeafAt, leaf_at, leaves, width};
ghost use Rattle.art_arena.specs.arena.Steps.{Step, steps_to, steps_of};
ghost use Rattle.art_operations.specs.Frees.{SwapsLeaves};
ghost use Rattle.art_operations.specs.Rebuilds.{KeepsLeafRoom};
ghost use Rattle.art_operations.specs.Points.{IsPoint};
ghost use Rattle.art_operations.specs.Insertions.{HandsPairBack, IsInsertedBeside, replaced_by};
ghost use Rattle.art_operations.specs.declared.insert.point.InsertKind.TheVariants as kind;
ghost use Rattle.art_operations.specs.inner.Edits.{IsLastOf};
ghost use Rattle.art_operations.specs.inner.Waiting.{AreNeighbours, AwaitsLeaf, MustGrow};
ghost use Rattle.art_arena.specs.arena.Stores.{StoresBelow, StoresBeside};
ghost use Rattle.art_operations.specs.Held.{SameLinks};
ghost use Rattle.art_operations.specs.Whichever.{HasSome, HasTreeWhere, OfEach, OfTreeWhere};

use crate::insert::leaf::{store_leaf, take_back};
use crate::insert::point::InsertPoint;
use crate::insert::result::{InsertParentNodeChange, InsertRefused, InsertResult};
use crate::insert::split::{leaf_at_end, link_between};
use crate::parent::{last_step, put_below};
use art_arena::links::insert_between;
use art_arena::{LeafPtr, NodeArena, NodeEdit, inner_node_ptr};
use art_bytes::AsBytes;
use art_nodes::{KindLeaf, OpaqueNodePtr, assume_proved};
use std::alloc::AllocError;

// An inner node with room for one more child, and the root of its tree.
#[derive(Clone, Copy)]
struct Place {
    node: OpaqueNodePtr,
    root: OpaqueNodePtr,
}

// A leaf that is linked, and whether a new one goes before it or after it.
#[derive(Clone, Copy)]
struct Neighbour {
    leaf: LeafPtr,
    is_before: bool,
}

// The leaves beside the place of a new one: one of them, which knows the other, or both.
#[derive(Clone, Copy)]
enum Neighbours {
    One(Neighbour),
    Both { previous: LeafPtr, next: LeafPtr },
}

// An inner node of the next larger kind takes the place of a full one, which the last step to it tells.
#[inline(never)]
fn grow_at<K: AsBytes, V, const PREFIX_LEN: usize>(
    arena: &mut NodeArena<K, V, PREFIX_LEN>,
    root: OpaqueNodePtr,
    above: Option<(OpaqueNodePtr, u8)>,
    inner: OpaqueNodePtr,
) -> Result<Place, AllocError>
    requires { (byte : ℕ) × (leaf : ℕ) × (f : Frame K V) × (outer : List (Frame K V)) × (l : LeafAt K V)
        × (rest : List (Name × Cell K V)) × (steps : List Step)
        × AwaitsLeaf K.bytes PREFIX_LEN arena.old rest root inner byte leaf f outer l
        × (take 2 (steps_to outer) ≡ steps) × IsLastOf steps above
        × MustGrow inner.kind (width f.before + width f.after) }
    ensures ok { IfOk result (λ place. (byte leaf : ℕ) (f : Frame K V) (outer : List (Frame K V)) (l : LeafAt K V)
        (rest : List (Name × Cell K V)) (steps : List Step)
        → AwaitsLeaf K.bytes PREFIX_LEN arena.old rest root inner byte leaf f outer l
        → take 2 (steps_to outer) ≡ steps → IsLastOf steps above → MustGrow inner.kind (width f.before + width f.after)
        → AwaitsLeaf K.bytes PREFIX_LEN arena.new rest place.root place.node byte leaf
        (record f { name = place.node }) outer l
        × IsKindOf place.node.kind (suc (width f.before + width f.after))) }
    ensures links { IfOk result (λ place. SameLinks arena.old arena.new) }
    ensures err { OnErr result (SameNodes arena.old arena.new) }
    ensures succeeds { HasRoom arena.old 1 → IsOk result }
    ensures room { UsesRoom 1 arena.old arena.new }
    ensures leaf_room { KeepsLeafRoom arena.old arena.new }
    ensures kept_room { OnErr result (KeepsRoomOf arena.old arena.new) }
{
    let node = arena.grow(inner)?;
    let root = put_below(arena, root, above, node);
    arena.edit_inner(inner, &NodeEdit::Free);
    Ok(Place { node, root })
}

// Makes room for one more child, under this byte, in the inner node at a point: where the node is full, one of the next
// larger kind takes its place.
#[inline(always)]
fn reserve_child<K: AsBytes, V, const PREFIX_LEN: usize>(
    arena: &mut NodeArena<K, V, PREFIX_LEN>,
    point: InsertPoint,
    inner: OpaqueNodePtr,
    byte: u8,
) -> Result<Place, AllocError>
    requires { (leaf : ℕ) × (f : Frame K V) × (outer : List (Frame K V)) × (l : LeafAt K V)
        × (rest : List (Name × Cell K V))
        × AwaitsLeaf K.bytes PREFIX_LEN arena.old rest point.root inner byte leaf f outer l
        × (take 2 (steps_to outer) ≡ steps_of point.path) × IsKindOf inner.kind (width f.before + width f.after) }
    ensures ok { IfOk result (λ place. (leaf : ℕ) (f : Frame K V) (outer : List (Frame K V)) (l : LeafAt K V)
        (rest : List (Name × Cell K V))
        → AwaitsLeaf K.bytes PREFIX_LEN arena.old rest point.root inner byte leaf f outer l
        → take 2 (steps_to outer) ≡ steps_of point.path → IsKindOf inner.kind (width f.before + width f.after)
        → AwaitsLeaf K.bytes PREFIX_LEN arena.new rest place.root place.node byte leaf
        (record f { name = place.node }) outer l
        × IsKindOf place.node.kind (suc (width f.before + width f.after))) }
    ensures links { IfOk result (λ place. SameLinks arena.old arena.new) }
    ensures err { OnErr result (SameNodes arena.old arena.new) }
    ensures succeeds { HasRoom arena.old 1 → IsOk result }
    ensures room { UsesRoom 1 arena.old arena.new }
    ensures leaf_room { KeepsLeafRoom arena.old arena.new }
    ensures kept_room { OnErr result (KeepsRoomOf arena.old arena.new) }
{
    if arena.inner(inner).may_write(byte) {
        return Ok(Place {
            node: inner,
            root: point.root,
        });
    }
    grow_at(arena, point.root, last_step(point.path), inner)
}

// The leaves beside the place between two neighbouring parts of a tree. Where both are leaves, both are told: then
// neither waits for the other to be read. Where one is, it alone is told, since nodes would have to be read to name the
// leaf at the end of the other part. Where none is, it is the first leaf of the next part.
fn neighbours_between<K: AsBytes, V, const PREFIX_LEN: usize>(
    arena: &NodeArena<K, V, PREFIX_LEN>,
    previous: OpaqueNodePtr,
    next: OpaqueNodePtr,
) -> Neighbours
    requires before { HasSome (StoresBelow K.bytes PREFIX_LEN arena.now previous) }
    requires after { HasSome (StoresBelow K.bytes PREFIX_LEN arena.now next) }
    ensures { OfEach (StoresBelow K.bytes PREFIX_LEN arena.now previous) (λ to_before before.
        OfEach (StoresBelow K.bytes PREFIX_LEN arena.now next) (λ to_after following.
        AreNeighbours result (leaves before) (leaves following))) }
{
    if !previous.is::<KindLeaf>() {
        return Neighbours::One(Neighbour {
            leaf: leaf_at_end(arena, next, true),
            is_before: true,
        });
    }
    let last = leaf_at_end(arena, previous, false);
    if next.is::<KindLeaf>() {
        return Neighbours::Both {
            previous: last,
            next: leaf_at_end(arena, next, true),
        };
    }
    Neighbours::One(Neighbour {
        leaf: last,
        is_before: false,
    })
}

// The leaves beside the place of a new one that is to stand under this byte of an inner node, where no child does.
fn neighbours_at<K: AsBytes, V, const PREFIX_LEN: usize>(
    arena: &NodeArena<K, V, PREFIX_LEN>,
    node: OpaqueNodePtr,
    byte: u8,
) -> Neighbours
    requires { (root : Name) × (leaf : ℕ) × (f : Frame K V) × (outer : List (Frame K V)) × (l : LeafAt K V)
        × (rest : List (Name × Cell K V))
        × AwaitsLeaf K.bytes PREFIX_LEN arena.now rest root node byte leaf f outer l }
    ensures { (root : Name) (leaf : ℕ) (f : Frame K V) (outer : List (Frame K V)) (l : LeafAt K V)
        (rest : List (Name × Cell K V))
        → AwaitsLeaf K.bytes PREFIX_LEN arena.now rest root node byte leaf f outer l
        → AreNeighbours result (leaves_before (f ∷ outer)) (leaves_after (f ∷ outer)) }
{
    let inner = arena.inner(node);
    let before = inner.child_before(byte);
    let following = inner.child_after(byte);
    match (before, following) {
        (Some(previous), Some(next)) => neighbours_between(arena, previous.1, next.1),
        (None, Some(next)) => Neighbours::One(Neighbour {
            leaf: leaf_at_end(arena, next.1, true),
            is_before: true,
        }),
        (Some(previous), None) => Neighbours::One(Neighbour {
            leaf: leaf_at_end(arena, previous.1, false),
            is_before: false,
        }),
        (None, None) => {
            assume_proved(false);
            unreachable!()
        }
    }
}

// Links a leaf in beside its neighbours.
fn link_in<K, V, const PREFIX_LEN: usize>(
    arena: &mut NodeArena<K, V, PREFIX_LEN>,
    leaf: LeafPtr,
    neighbours: Neighbours,
)
    requires { (xs : List (LeafAt K V)) × (ys : List (LeafAt K V)) × IsBeside (links_at arena.old) (xs ++ ys) leaf
        × AreNeighbours neighbours xs ys }
    ensures nodes { SameCells arena.old arena.new }
    ensures room_of { KeepsRoomOf arena.old arena.new }
    ensures linked { (xs ys : List (LeafAt K V)) (m : LeafAt K V) → IsBeside (links_at arena.old) (xs ++ ys) leaf
        → AreNeighbours neighbours xs ys → m.slot ≡ leaf
        → AreLinked (links_at arena.new) None (xs ++ m ∷ ys) None }
    ensures others { (xs ys : List (LeafAt K V)) (m : LeafAt K V) → IsBeside (links_at arena.old) (xs ++ ys) leaf
        → AreNeighbours neighbours xs ys → m.slot ≡ leaf
        → KeepsLinksOutside (links_at arena.old) (links_at arena.new) (xs ++ m ∷ ys) }
{
    match neighbours {
        Neighbours::One(one) => link_between(arena, leaf, one.leaf, one.is_before),
        Neighbours::Both { previous, next } => insert_between(arena, leaf, previous, next),
    }
}

// Links a leaf in and puts it under a byte of an inner node, which has room for it.
fn insert_leaf<K: AsBytes, V, const PREFIX_LEN: usize>(
    arena: &mut NodeArena<K, V, PREFIX_LEN>,
    node: OpaqueNodePtr,
    byte: u8,
    leaf: LeafPtr,
)
    requires { (root : Name) × (f : Frame K V) × (outer : List (Frame K V)) × (l : LeafAt K V)
        × (rest : List (Name × Cell K V)) × AwaitsLeaf K.bytes PREFIX_LEN arena.old rest root node byte leaf f outer l
        × IsKindOf node.kind (suc (width f.before + width f.after)) }
    ensures room_of { KeepsRoomOf arena.old arena.new }
    ensures put { (root : Name) (f : Frame K V) (outer : List (Frame K V)) (l : LeafAt K V)
        (rest : List (Name × Cell K V)) → AwaitsLeaf K.bytes PREFIX_LEN arena.old rest root node byte leaf f outer l
        → IsKindOf node.kind (suc (width f.before + width f.after))
        → StoresBeside K.bytes PREFIX_LEN arena.new root rest (plug (f ∷ outer) (leaf_at l.slot l.key l.value)) }
    ensures others { (root : Name) (f : Frame K V) (outer : List (Frame K V)) (l : LeafAt K V)
        (rest : List (Name × Cell K V)) → AwaitsLeaf K.bytes PREFIX_LEN arena.old rest root node byte leaf f outer l
        → KeepsLinksOutside (links_at arena.old) (links_at arena.new)
        (leaves_before (f ∷ outer) ++ l ∷ leaves_after (f ∷ outer)) }
{
    let neighbours = neighbours_at(arena, node, byte);
    link_in(arena, leaf, neighbours);
    arena.edit_inner(
        node,
        &NodeEdit::Write {
            byte,
            child: leaf.to_opaque(),
        },
    );
}

/// Puts a key and its value under an inner node that has no child under the key's next byte.
///
/// A leaf is made, and where the node is full one of the next larger kind, which takes its place. Where there is no
/// memory for them, the key and the value are handed back, and the tree is as it was.
#[inline(always)]
pub(crate) fn insert_into_existing<K: AsBytes, V, const PREFIX_LEN: usize>(
    arena: &mut NodeArena<K, V, PREFIX_LEN>,
    point: InsertPoint,
    inner: OpaqueNodePtr,
    byte: u8,
    key: K,
    value: V,
) -> Result<InsertResult<K, V>, InsertRefused<K, V>>
    requires tree { HasTreeWhere K.bytes PREFIX_LEN arena.old point.root (λ s. IsPoint K.bytes (K.bytes key) s point) }
    requires kind { point.insert_kind ≡ kind.IntoExisting inner byte }
    ensures ok { IfOk result (λ inserted. OfTreeWhere K.bytes PREFIX_LEN arena.old point.root
        (λ s. IsPoint K.bytes (K.bytes key) s point)
        (λ s rest. IsInsertedBeside K.bytes PREFIX_LEN arena.new rest s (steps_of point.path) key value inserted)) }
    ensures others { IfOk result (λ inserted. OfTreeWhere K.bytes PREFIX_LEN arena.old point.root
        (λ s. IsPoint K.bytes (K.bytes key) s point) (λ s rest. KeepsNodes rest arena.old arena.new)) }
    ensures err { OnErr result (SameNodes arena.old arena.new) }
    ensures handed_back { HandsPairBack key value result }
    ensures succeeds { HasRoom arena.old 2 → IsOk result }
    ensures room { UsesRoom 2 arena.old arena.new }
    ensures leaf_room { IfOk result (λ inserted. SwapsLeaves 1 (replaced_by inserted) arena.old arena.new) }
    ensures kept_room { OnErr result (KeepsRoomOf arena.old arena.new) }
{
    let leaf = store_leaf(arena, key, value)?;
    let place = match reserve_child(arena, point, inner, byte) {
        Ok(place) => place,
        Err(_) => return Err(take_back(arena, leaf)),
    };
    insert_leaf(arena, place.node, byte, leaf);
    Ok(InsertResult {
        leaf_node_ptr: leaf,
        existing_leaf: None,
        new_root: place.root,
        parent_node_change: InsertParentNodeChange::NewParent {
            new_parent_node: inner_node_ptr(place.node),
            leaf_node_key_byte: byte,
        },
    })
}

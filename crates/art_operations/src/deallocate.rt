//! Frees a tree, its leaves alone, or its inner nodes alone. None of these fails, allocates or recurses, and each takes
//! time in proportion to the nodes that it frees.
//!
//! A tree is freed from its last children on. What waits stands below the first child of what is at hand. If the last
//! child of a node is an inner node, the node itself takes the place of the first childless node below that child,
//! which is freed for it. So the way down to that one is gone only once.
ghost use Rattle.std.specs.Prelude.{◌≡◌, ◌≢◌, ◌<◌, ◌++◌, ◌-◌, ◌^◌, min, Bool, List, IfSome, IfNone, length};
ghost use Rattle.art_nodes.specs.Name.{Name};
ghost use Rattle.art_arena.specs.arena.Arena.{node_at, leaf_capacity, KeepsRoom, KeepsRoomOf, SameNodes};
ghost use Rattle.art_arena.specs.arena.Cells.{Cell, Holds};
ghost use Rattle.art_arena.specs.arena.Shapes.{Shape, cells, leaves};
ghost use Rattle.art_operations.specs.Frees.{cells_with, inner_cells, leaf_cells, HoldsBeside, HoldsInnerBeside};
ghost use Rattle.art_operations.specs.Frees.{FreesLeaves, HoldsRun, KeepsAllBut};
ghost use Rattle.art_operations.specs.inner.Freeing.{FreesRoot, HasFreedOne, HoldsBoth, HoldsOneLess, HoldsPart};
ghost use Rattle.art_operations.specs.inner.Freeing.{IsBottom, IsChildIn};
ghost use Rattle.art_operations.specs.Whichever.{HasSome, OfEach};

use art_arena::{InnerRef, LeafPtr, NodeArena, NodeEdit};
use art_nodes::{KindLeaf, LeafNode, OpaqueNodePtr};
use std::ops::Bound;

// The first node without a child below a node, and the byte of a parent under which it stands. There is none where it
// is that node itself.
#[derive(Clone, Copy)]
struct Bottom {
    node: OpaqueNodePtr,
    place: Option<(OpaqueNodePtr, u8)>,
}

// What is left of a tree: its root, and a byte below which to look for a child of it first.
#[derive(Clone, Copy)]
struct Left {
    root: OpaqueNodePtr,
    below: u8,
}

// Goes down from a node by first children.
fn find_bottom<K, V, const PREFIX_LEN: usize>(
    arena: &NodeArena<K, V, PREFIX_LEN>,
    root: OpaqueNodePtr,
) -> Bottom
    requires { (with_leaves : Bool) × (s : Shape K V) × (rest : List (Name × Cell K V))
        × HoldsPart PREFIX_LEN with_leaves arena.now root s rest }
    ensures { (with_leaves : Bool) → OfEach (HoldsPart PREFIX_LEN with_leaves arena.now root)
        (λ s rest. IsBottom s result) }
{
    let mut node = root;
    let mut place = None;
    'down: loop {
        if node.is::<KindLeaf>() {
            return Bottom { node, place };
        }
        match arena.inner(node).first_child() {
            Some(child) => {
                place = Some((node, child.0));
                node = child.1;
            }
            None => return Bottom { node, place },
        }
    }
}

// Frees a node alone, a leaf only where leaves are to be freed.
fn free_node<K: Drop, V: Drop, const PREFIX_LEN: usize>(
    arena: &mut NodeArena<K, V, PREFIX_LEN>,
    node: OpaqueNodePtr,
    with_leaves: bool,
)
    requires { HasSome (HoldsPart PREFIX_LEN with_leaves arena.old node) }
    ensures freed { OfEach (HoldsPart PREFIX_LEN with_leaves arena.old node)
        (λ s rest. FreesRoot with_leaves arena.old arena.new s) }
    ensures room_of { KeepsRoomOf arena.old arena.new }
    ensures capacity { leaf_capacity arena.new ≡ leaf_capacity arena.old }
{
    if let Some(leaf) = node.cast::<KindLeaf>() {
        if with_leaves {
            arena.deallocate_node_ptr::<LeafNode<K, V>>(leaf);
        }
        return;
    }
    arena.edit_inner(node, &NodeEdit::Free);
}

// Lets a node stand in the place of the first childless node below another one, which is freed. Answers the root of
// both.
fn hang<K: Drop, V: Drop, const PREFIX_LEN: usize>(
    arena: &mut NodeArena<K, V, PREFIX_LEN>,
    node: OpaqueNodePtr,
    below: OpaqueNodePtr,
    with_leaves: bool,
) -> OpaqueNodePtr
    requires { (s t : Shape K V) × (rest : List (Name × Cell K V))
        × HoldsBoth PREFIX_LEN with_leaves arena.old node s below t rest }
    ensures freed { (s t : Shape K V) (rest : List (Name × Cell K V))
        → HoldsBoth PREFIX_LEN with_leaves arena.old node s below t rest
        → HoldsOneLess PREFIX_LEN with_leaves arena.new result (length (cells PREFIX_LEN s ++ cells PREFIX_LEN t))
        (cells_with PREFIX_LEN with_leaves s ++ cells_with PREFIX_LEN with_leaves t) rest }
    ensures kept { (s t : Shape K V) (rest : List (Name × Cell K V))
        → HoldsBoth PREFIX_LEN with_leaves arena.old node s below t rest
        → KeepsAllBut (cells_with PREFIX_LEN with_leaves s ++ cells_with PREFIX_LEN with_leaves t) arena.old
        arena.new }
    ensures room_of { KeepsRoomOf arena.old arena.new }
    ensures capacity { leaf_capacity arena.new ≡ leaf_capacity arena.old }
{
    let bottom = find_bottom(arena, below);
    free_node(arena, bottom.node, with_leaves);
    match bottom.place {
        None => node,
        Some(place) => {
            let edit = NodeEdit::Write {
                byte: place.1,
                child: node,
            };
            arena.edit_inner(place.0, &edit);
            below
        }
    }
}

// A child of a node: the last one below this byte, or else the last of all. Where the children at this byte and above
// it are gone, no place of theirs is read again, of which a wide node has one for each byte.
fn child_below<K, V, const PREFIX_LEN: usize>(
    inner: &InnerRef<'_, K, V, PREFIX_LEN>,
    byte: u8,
) -> Option<(u8, OpaqueNodePtr)>
    ensures { IsChildIn inner.now.node.children result }
{
    let mut below = inner.range(Bound::Unbounded, Bound::Excluded(byte));
    match below.next_back() {
        Some(child) => Some(child),
        None => inner.last_child(),
    }
}

// Where to look for the next child of a root: below the one that was taken out, if the root is the same.
fn below_which(left: OpaqueNodePtr, root: OpaqueNodePtr, taken: u8) -> u8
    ensures same { left ≡ root → result ≡ taken }
    ensures other { left ≢ root → result ≡ 255 }
{
    if left == root { taken } else { u8::MAX }
}

// Frees one node of a tree, and answers the root of what is left of it, if anything is.
fn free_one<K: Drop, V: Drop, const PREFIX_LEN: usize>(
    arena: &mut NodeArena<K, V, PREFIX_LEN>,
    root: OpaqueNodePtr,
    below: u8,
    with_leaves: bool,
) -> Option<Left>
    requires { HasSome (HoldsPart PREFIX_LEN with_leaves arena.old root) }
    ensures freed { OfEach (HoldsPart PREFIX_LEN with_leaves arena.old root)
        (λ s rest. HasFreedOne PREFIX_LEN with_leaves arena.new result s rest) }
    ensures kept { OfEach (HoldsPart PREFIX_LEN with_leaves arena.old root)
        (λ s rest. KeepsAllBut (cells_with PREFIX_LEN with_leaves s) arena.old arena.new) }
    ensures room_of { KeepsRoomOf arena.old arena.new }
    ensures capacity { leaf_capacity arena.new ≡ leaf_capacity arena.old }
{
    if root.is::<KindLeaf>() {
        free_node(arena, root, with_leaves);
        return None;
    }
    let inner = arena.inner(root);
    // The header also tells that the children ascend, so that a byte has no second child.
    let count = inner.header().num_children();
    match child_below(&inner, below) {
        None => {
            free_node(arena, root, with_leaves);
            None
        }
        Some(child) => {
            if count == 1 {
                free_node(arena, root, with_leaves);
                return Some(Left {
                    root: child.1,
                    below: u8::MAX,
                });
            }
            arena.edit_inner(root, &NodeEdit::Remove { byte: child.0 });
            let left = hang(arena, root, child.1, with_leaves);
            Some(Left {
                root: left,
                below: below_which(left, root, child.0),
            })
        }
    }
}

// Frees the inner nodes of a tree, and its leaves where these are to be freed too. Answers how many nodes it had, its
// leaves among them; a count that reaches the greatest number stays there.
fn free_nodes<K: Drop, V: Drop, const PREFIX_LEN: usize>(
    arena: &mut NodeArena<K, V, PREFIX_LEN>,
    root: OpaqueNodePtr,
    with_leaves: bool,
) -> u64
    requires { HasSome (HoldsPart PREFIX_LEN with_leaves arena.old root) }
    ensures freed { OfEach (HoldsPart PREFIX_LEN with_leaves arena.old root)
        (λ s rest. Holds (node_at arena.new) rest) }
    ensures value { OfEach (HoldsPart PREFIX_LEN with_leaves arena.old root)
        (λ s rest. result ≡ min (length (cells PREFIX_LEN s)) (2 ^ 64 - 1)) }
    ensures kept { OfEach (HoldsPart PREFIX_LEN with_leaves arena.old root)
        (λ s rest. KeepsAllBut (cells_with PREFIX_LEN with_leaves s) arena.old arena.new) }
    ensures room_of { KeepsRoomOf arena.old arena.new }
    ensures capacity { leaf_capacity arena.new ≡ leaf_capacity arena.old }
{
    let mut current = root;
    let mut below = u8::MAX;
    let mut count: u64 = 0;
    'free: loop {
        count = count.saturating_add(1);
        match free_one(arena, current, below, with_leaves) {
            Some(left) => {
                current = left.root;
                below = left.below;
            }
            None => return count,
        }
    }
}

/// What was freed of a tree: so many leaves, and so many nodes, the leaves among them. A count of nodes that reaches
/// the greatest number stays there.
#[derive(Clone, Copy)]
pub(crate) struct Freed {
    pub(crate) leaves: usize,
    pub(crate) nodes: u64,
}

/// Frees each node of the tree below a name, as `deallocate_tree` does, and counts them.
pub(crate) fn free_tree<K: Drop, V: Drop, const PREFIX_LEN: usize>(
    arena: &mut NodeArena<K, V, PREFIX_LEN>,
    root: OpaqueNodePtr,
) -> Freed
    requires { HasSome (HoldsBeside PREFIX_LEN arena.old root) }
    ensures freed { OfEach (HoldsBeside PREFIX_LEN arena.old root) (λ s rest. Holds (node_at arena.new) rest) }
    ensures leaves { OfEach (HoldsBeside PREFIX_LEN arena.old root) (λ s rest. result.leaves ≡ length (leaves s)) }
    ensures range { result.leaves < 2 ^ 64 }
    ensures nodes { OfEach (HoldsBeside PREFIX_LEN arena.old root)
        (λ s rest. result.nodes ≡ min (length (cells PREFIX_LEN s)) (2 ^ 64 - 1)) }
    ensures kept { OfEach (HoldsBeside PREFIX_LEN arena.old root)
        (λ s rest. KeepsAllBut (cells PREFIX_LEN s) arena.old arena.new) }
    ensures room { KeepsRoom arena.old arena.new }
    ensures room_of { KeepsRoomOf arena.old arena.new }
    ensures leaf_room { FreesLeaves result.leaves arena.old arena.new }
{
    let before = arena.leaf_count();
    let nodes = free_nodes(arena, root, true);
    Freed {
        leaves: before - arena.leaf_count(),
        nodes,
    }
}

/// Frees each node of the tree below a name, and returns how many leaves it had. Any shape is freed, canonical or not.
/// What else the arena holds is unchanged, and the memory of the nodes stays with it.
///
/// It never fails, allocates nothing and doesn't recurse. It takes time in proportion to the nodes, however deep they
/// lie.
pub fn deallocate_tree<K: Drop, V: Drop, const PREFIX_LEN: usize>(
    arena: &mut NodeArena<K, V, PREFIX_LEN>,
    root: OpaqueNodePtr,
) -> usize
    requires { HasSome (HoldsBeside PREFIX_LEN arena.old root) }
    ensures freed { OfEach (HoldsBeside PREFIX_LEN arena.old root) (λ s rest. Holds (node_at arena.new) rest) }
    ensures value { OfEach (HoldsBeside PREFIX_LEN arena.old root) (λ s rest. result ≡ length (leaves s)) }
    ensures kept { OfEach (HoldsBeside PREFIX_LEN arena.old root)
        (λ s rest. KeepsAllBut (cells PREFIX_LEN s) arena.old arena.new) }
    ensures room { KeepsRoom arena.old arena.new }
    ensures room_of { KeepsRoomOf arena.old arena.new }
    ensures leaf_room { FreesLeaves result arena.old arena.new }
{
    free_tree(arena, root).leaves
}

/// Frees each inner node of the tree below a name. Its leaves and their links are unchanged, if the arena still holds
/// them; they may also be gone. It never fails, allocates nothing, and takes time as `deallocate_tree` does.
pub fn deallocate_tree_non_leaves<K: Drop, V: Drop, const PREFIX_LEN: usize>(
    arena: &mut NodeArena<K, V, PREFIX_LEN>,
    root: OpaqueNodePtr,
)
    requires { HasSome (HoldsInnerBeside PREFIX_LEN arena.old root) }
    ensures freed { OfEach (HoldsInnerBeside PREFIX_LEN arena.old root) (λ s rest. Holds (node_at arena.new) rest) }
    ensures kept { OfEach (HoldsInnerBeside PREFIX_LEN arena.old root)
        (λ s rest. KeepsAllBut (inner_cells PREFIX_LEN s) arena.old arena.new) }
    ensures room { KeepsRoom arena.old arena.new }
    ensures room_of { KeepsRoomOf arena.old arena.new }
{
    free_nodes(arena, root, false);
}

// Frees the leaves of a linked run, from its first to its last.
fn free_run<K: Drop, V: Drop, const PREFIX_LEN: usize>(
    arena: &mut NodeArena<K, V, PREFIX_LEN>,
    first: LeafPtr,
    last: LeafPtr,
)
    requires { HasSome (HoldsRun arena.old first last) }
    ensures freed { OfEach (HoldsRun arena.old first last) (λ ls rest. Holds (node_at arena.new) rest) }
    ensures kept { OfEach (HoldsRun arena.old first last) (λ ls rest. KeepsAllBut (leaf_cells ls) arena.old arena.new) }
    ensures room_of { KeepsRoomOf arena.old arena.new }
    ensures capacity { leaf_capacity arena.new ≡ leaf_capacity arena.old }
{
    let mut current = first;
    'run: loop {
        let leaf = arena.deallocate_node_ptr::<LeafNode<K, V>>(current);
        if current == last {
            return;
        }
        match leaf.next() {
            Some(next) => current = next,
            None => unreachable!(),
        }
    }
}

/// Frees the leaves of a linked run, from its first to its last, or none. What else the arena holds is unchanged: the
/// leaves beside the run keep their links, also those that led into it. It never fails and allocates nothing.
pub fn deallocate_leaves<K: Drop, V: Drop, const PREFIX_LEN: usize>(
    arena: &mut NodeArena<K, V, PREFIX_LEN>,
    run: Option<(LeafPtr, LeafPtr)>,
)
    requires { IfSome run (λ ends. HasSome (HoldsRun arena.old ends.0 ends.1)) }
    ensures freed { IfSome run (λ ends. OfEach (HoldsRun arena.old ends.0 ends.1)
        (λ ls rest. Holds (node_at arena.new) rest)) }
    ensures kept { IfSome run (λ ends. OfEach (HoldsRun arena.old ends.0 ends.1)
        (λ ls rest. KeepsAllBut (leaf_cells ls) arena.old arena.new)) }
    ensures none { IfNone run (SameNodes arena.old arena.new) }
    ensures room { KeepsRoom arena.old arena.new }
    ensures room_of { KeepsRoomOf arena.old arena.new }
    ensures leaf_room { IfSome run (λ ends. OfEach (HoldsRun arena.old ends.0 ends.1)
        (λ ls rest. FreesLeaves (length ls) arena.old arena.new)) }
{
    if let Some(ends) = run {
        free_run(arena, ends.0, ends.1);
    }
}

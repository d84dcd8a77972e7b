//! A visitor that meets a whole tree: the inner nodes that it meets wait in a list, and each is then gone over in turn.
ghost use Rattle.std.specs.Prelude.{◌≡◌, IsSome, IsTrue, ⊤};
ghost use Rattle.std.specs.List.{AllByRecursion};
ghost use Rattle.art_nodes.specs.InnerNode.{names_of};
ghost use Rattle.art_arena.specs.arena.Arena.{held_at};
ghost use Rattle.art_walks.specs.Visits.{children_in};

use art_arena::NodeArena;
use art_bytes::CloneBytes;
use art_nodes::{ChildIter, KindLeaf, LeafNode, OpaqueNodePtr};
use art_operations::{Command, RunResult, run};
use art_walks::{Visitable, Visitor};
use std::alloc::{AllocError, Global};

// The values of leaves, as the digits of a number, and the inner nodes that wait.
#[derive(Drop)]
struct Digits {
    inner_nodes: usize,
    leaves: usize,
    waiting: Vec<OpaqueNodePtr>,
    refused: bool,
}

impl<K, const PREFIX_LEN: usize> Visitor<K, u8, PREFIX_LEN> for Digits {
    type Output = u64;

    ghost default_gives = { λ digits output. output ≡ 7 };

    ghost combine_gives = { λ digits earlier later both. ⊤ };

    ghost inner_gives = { λ digits arena node now output. output ≡ 0 };

    ghost leaf_gives = { λ digits leaf now output. output ≡ leaf.value };

    fn default_output(&self) -> u64 {
        7
    }

    fn combine_output(&self, earlier: u64, later: u64) -> u64 {
        earlier.wrapping_mul(10).wrapping_add(later)
    }

    fn visit_inner_node(
        &mut self,
        _arena: &NodeArena<K, u8, PREFIX_LEN>,
        node: OpaqueNodePtr,
    ) -> u64 {
        self.inner_nodes = self.inner_nodes.wrapping_add(1);
        if self.waiting.push(node).is_err() {
            self.refused = true;
        }
        0
    }

    fn visit_leaf(&mut self, leaf: &LeafNode<K, u8>) -> u64 {
        self.leaves = self.leaves.wrapping_add(1);
        u64::from(*leaf.value_ref())
    }
}

// Whether each of these children is held.
fn are_held<K, V, const PREFIX_LEN: usize>(
    arena: &NodeArena<K, V, PREFIX_LEN>,
    children: ChildIter<'_>,
) -> bool
    ensures { IsTrue result → AllByRecursion (λ n. IsSome (held_at arena.now n)) (names_of children.entry) }
{
    let mut left = children;
    while let Some((_, child)) = left.next() {
        if !arena.holds(child) {
            return false;
        }
    }
    true
}

// Whether a node is held, with its children.
fn is_whole<K, V, const PREFIX_LEN: usize>(
    arena: &NodeArena<K, V, PREFIX_LEN>,
    node: OpaqueNodePtr,
) -> bool
    ensures held { IsTrue result → IsSome (held_at arena.now node) }
    ensures children { IsTrue result → AllByRecursion (λ n. IsSome (held_at arena.now n))
        (children_in (held_at arena.now node)) }
{
    if !arena.holds(node) {
        return false;
    }
    match node.cast::<KindLeaf>() {
        Some(leaf) => {
            let _leaf = arena.as_ref::<LeafNode<K, V>>(leaf);
            true
        }
        None => are_held(arena, arena.inner(node).children()),
    }
}

// Visits a node, and then the children of each inner node that waits, a hundred at most.
fn go_over<K, const PREFIX_LEN: usize>(
    arena: &NodeArena<K, u8, PREFIX_LEN>,
    root: OpaqueNodePtr,
    digits: &mut Digits,
) -> Option<u64> {
    if !arena.holds(root) {
        return None;
    }
    let mut last = root.visit_with(arena, digits);
    for _ in 0..100 {
        match digits.waiting.pop() {
            Some(node) => {
                if !is_whole(arena, node) {
                    return None;
                }
                last = node.super_visit_with(arena, digits);
            }
            None => return Some(last),
        }
    }
    None
}

// What a visitor met below a root, and what came of the last inner node.
fn met_below<K, const PREFIX_LEN: usize>(
    alloc: Global,
    arena: &NodeArena<K, u8, PREFIX_LEN>,
    root: Option<OpaqueNodePtr>,
) -> Result<Option<(usize, usize, u64)>, AllocError> {
    let mut digits = Digits {
        inner_nodes: 0,
        leaves: 0,
        waiting: Vec::new(alloc),
        refused: false,
    };
    let last = match root {
        Some(root) => go_over(arena, root, &mut digits),
        None => None,
    };
    match last {
        _ if digits.refused => Err(AllocError),
        Some(last) => Ok(Some((digits.inner_nodes, digits.leaves, last))),
        None => Ok(None),
    }
}

/// Goes over the tree that commands make. Returns how many inner nodes and leaves a visitor met, and what came of the
/// last node.
pub fn met<K: CloneBytes>(
    alloc: Global,
    commands: &[Command<K, u8>],
) -> Result<Option<(usize, usize, u64)>, AllocError> {
    let ran: RunResult<K, u8, 4> = run(alloc, commands)?;
    met_below(alloc, &ran.arena, ran.root)
}

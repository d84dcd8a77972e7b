//! What a walk reads ahead of its leaves. They are linked each to the next, so a walk along them waits for one leaf
//! after another. So from time to time a few of the leaves to come are found by the inner nodes, and then one goes
//! along the links from all of these in turn: none waits for the others.
//!
//! Nothing rests on what is read here, so a contract sees nothing of it.
//!
//! The model of a `Prefetcher` is ⊤. So a walk that lends can hold one, and still say exactly what it is after a step.
ghost use Rattle.std.specs.Prelude.{⊤};

use crate::raw_iterator::RawIterator;
use art_arena::{ArenaReader, InnerRef, LeafPtr, NodeArena};
use art_bytes::AsBytes;
use art_nodes::{LeafNode, NodePtr, NodeType, OpaqueNodePtr};
use std::marker::Model;
use std::ops::Bound;

/// How many leaves an arena has at least where a walk reads ahead. Where there are fewer, they are near anyway.
const MIN_LEAVES: usize = 65_536;

/// How many leaves a walk goes along before it reads ahead, so that a short one pays nothing for it.
const FIRST_LEAVES: usize = 128;

/// How many leaves it goes along where leaves stand in line, so that they are at hand anyway.
const IN_LINE: usize = 1024;

/// How many of these are looked at.
const IN_LINE_LOOKS: usize = 8;

/// From how many leaves one goes along the links in turn.
const STARTS: usize = 16;

/// How many leaves there should be from one of these to the next.
const GAP: usize = 8;

/// How many leaves are read from each: always so many, since where one chain ends could not be foreseen.
const CHAIN_LEAVES: usize = 20;

/// How many children are looked at to find these leaves.
const LOOKED_AT: usize = 128;

/// How many inner nodes are gone down to a leaf at most. Below more of them nothing is read ahead, so that a walk costs
/// no more per leaf where a tree is deep.
const DEPTH: usize = 64;

/// How many inner nodes on the way to a leaf are kept: the lowest.
const STEPS: usize = 8;

/// How many levels below a child its first leaf is looked for.
const LEVELS: usize = 4;

/// The slot of no leaf.
const NO_SLOT: usize = usize::MAX;

/// What a walk along leaves reads ahead: from time to time the leaves to come. It changes nothing, and each call names
/// the arena, and the root of the tree as it is then.
#[derive(Debug, Drop)]
pub struct Prefetcher {
    // It reads ahead after so many leaves, or never if it is none.
    left: usize,
    checksum: u8,
}

impl Model for Prefetcher {
    ghost Value = { ⊤ };

    ghost view = { λ _. tt };
}

impl Prefetcher {
    /// Returns what reads ahead for a walk that begins.
    pub fn new() -> Self {
        Prefetcher {
            left: FIRST_LEAVES,
            checksum: 0,
        }
    }

    // Another that goes on as this one does.
    pub(crate) fn duplicate(&self) -> Self {
        Prefetcher {
            left: self.left,
            checksum: self.checksum,
        }
    }

    /// Reads nothing from now on. A walk from both ends waits for two leaves at a time anyway.
    #[inline(always)]
    pub fn stop(&mut self) {
        self.left = 0;
    }

    /// Goes on by the first leaf of a run. If those that were read together are used up, it reads the next ones in the
    /// tree below this root. Without a root it reads nothing.
    #[inline(always)]
    pub fn step<K: AsBytes, V, const PREFIX_LEN: usize>(
        &mut self,
        arena: &NodeArena<K, V, PREFIX_LEN>,
        root: Option<OpaqueNodePtr>,
        leaves: RawIterator,
    ) {
        self.left = self.left.wrapping_sub(1);
        if self.left == 0 {
            // At two places, and by values alone. So it stays a call, and the caller keeps what it has in registers.
            // Below a leaf it reads nothing.
            (self.left, self.checksum) = match (root, leaves.ends()) {
                (Some(root), Some((first, _))) => read(arena, root, first, self.checksum),
                (_, Some((_, last))) => read(arena, last.to_opaque(), last, self.checksum),
                _ => (0, self.checksum),
            };
        }
    }
}

// Reads the leaves after one together. Returns after how many it goes on so, if at all, and a byte that can't be told
// without having read them, so that no compiler leaves the reads out.
#[inline(never)]
fn read<K: AsBytes, V, const PREFIX_LEN: usize>(
    arena: &NodeArena<K, V, PREFIX_LEN>,
    root: OpaqueNodePtr,
    first: LeafPtr,
    checksum: u8,
) -> (usize, u8) {
    let is_leaf = root.node_type() == NodeType::Leaf;
    if is_leaf || arena.leaf_count() < MIN_LEAVES || !arena.holds(first.to_opaque()) {
        return (0, checksum);
    }
    if are_in_line(arena, first) {
        return (IN_LINE, checksum);
    }
    let key = arena.as_key_ref(first).as_bytes();
    let mut starts = Starts::new(first);
    starts.find(arena, low_path_to(arena, root, key));
    starts.descend_each(arena);
    let mut chains = starts.chains();
    let (read, checksum) = chains.read(arena, checksum);
    (if chains.has_end { read } else { FIRST_LEAVES }, checksum)
}

// Whether the leaves to come stand in the slots after this one, as some of them tell.
fn are_in_line<K, V, const PREFIX_LEN: usize>(
    arena: &NodeArena<K, V, PREFIX_LEN>,
    first: LeafPtr,
) -> bool {
    for i in 0..IN_LINE_LOOKS {
        let slot = first.slot().wrapping_add(i * (IN_LINE / IN_LINE_LOOKS));
        let leaf = LeafPtr::from_slot(slot);
        if !arena.holds(leaf.to_opaque()) {
            return false;
        }
        match arena.as_ref::<LeafNode<K, V>>(leaf).next() {
            Some(next) if next.slot() == slot.wrapping_add(1) => {}
            _ => return false,
        }
    }
    true
}

// The inner nodes above a leaf, each with the first byte whose child is still to come: the lowest, in places in turn.
#[derive(Drop)]
struct LowPath {
    steps: [Step; STEPS],
    top: usize,
    kept: usize,
}

#[derive(Clone, Copy, Default, Drop)]
struct Step {
    name: OpaqueNodePtr,
    from: Option<u8>,
    // How many bytes further the next child is looked for, once one was found, and about how many leaves are passed so.
    stride: u8,
    passed: usize,
}

// The way of a key down the tree below a root, as far as it goes. It passes prefixes by their lengths. A way through
// more nodes than `DEPTH` has no step.
fn low_path_to<K, V, const PREFIX_LEN: usize>(
    arena: &NodeArena<K, V, PREFIX_LEN>,
    root: OpaqueNodePtr,
    key: &[u8],
) -> LowPath {
    let mut path = LowPath {
        steps: [Step::default(); STEPS],
        top: 0,
        kept: 0,
    };
    let mut name = root;
    let mut at = 0usize;
    for _ in 0..DEPTH {
        let Some(inner) = inner_at(arena, name) else {
            return path;
        };
        at = at.saturating_add(inner.prefix_len());
        let Some(byte) = key.get(at).copied() else {
            return path;
        };
        let Some(child) = inner.lookup_child(byte) else {
            return path;
        };
        path.push(name, byte.checked_add(1));
        name = child;
        at = at.saturating_add(1);
    }
    path.kept = 0;
    path
}

impl LowPath {
    // Goes down to a node.
    fn push(&mut self, name: OpaqueNodePtr, from: Option<u8>) {
        self.top = self.top.wrapping_add(1) % STEPS;
        self.steps[self.top % STEPS] = Step {
            name,
            from,
            stride: 0,
            passed: 0,
        };
        self.kept = self.kept.saturating_add(1).min(STEPS);
    }

    // The next child of the lowest node that has one to come. Of a wide node some children are left out, which are
    // near.
    fn next<K, V, const PREFIX_LEN: usize>(
        &mut self,
        arena: &NodeArena<K, V, PREFIX_LEN>,
    ) -> Option<(OpaqueNodePtr, usize)> {
        for _ in 0..STEPS {
            if self.kept == 0 {
                return None;
            }
            let step = self.steps[self.top % STEPS];
            if let Some((byte, child)) = child_from(arena, step.name, step.from) {
                let (mut stride, mut passed) = (step.stride, step.passed);
                if stride == 0 {
                    (stride, passed) = stride_of(step.name, child);
                }
                self.steps[self.top % STEPS] = Step {
                    name: step.name,
                    from: byte.checked_add(stride),
                    stride,
                    passed,
                };
                return Some((child, passed));
            }
            self.kept = self.kept.saturating_sub(1);
            self.top = self.top.wrapping_sub(1) % STEPS;
        }
        None
    }
}

// The first child from a byte on, with its byte.
fn child_from<K, V, const PREFIX_LEN: usize>(
    arena: &NodeArena<K, V, PREFIX_LEN>,
    name: OpaqueNodePtr,
    from: Option<u8>,
) -> Option<(u8, OpaqueNodePtr)> {
    let from = from?;
    let inner = inner_at(arena, name)?;
    inner.range(Bound::Included(from), Bound::Unbounded).next()
}

// How many bytes further than a child the next one is looked for, and about how many leaves are passed so.
fn stride_of(name: OpaqueNodePtr, child: OpaqueNodePtr) -> (u8, usize) {
    match (name.node_type(), child.node_type()) {
        (NodeType::Node256, NodeType::Leaf) => (10, GAP),
        (NodeType::Node256, NodeType::Node4) => (4, GAP),
        (_, NodeType::Leaf) => (1, 1),
        (_, NodeType::Node4) => (1, 3),
        _ => (1, GAP),
    }
}

// The inner node of this name, if there is one.
#[inline(always)]
fn inner_at<K, V, const PREFIX_LEN: usize>(
    arena: &NodeArena<K, V, PREFIX_LEN>,
    name: OpaqueNodePtr,
) -> Option<InnerRef<'_, K, V, PREFIX_LEN>> {
    if name.node_type() == NodeType::Leaf || !arena.holds(name) {
        return None;
    }
    match ArenaReader::new(arena).visit(name).leaf() {
        Ok(_) => None,
        Err(inner) => Some(inner),
    }
}

// Whether there are too many leaves below a node of this name to go along them from the first.
fn is_wide(name: OpaqueNodePtr) -> bool {
    matches!(name.node_type(), NodeType::Node48 | NodeType::Node256)
}

// The nodes to whose first leaves one goes, in the order of keys.
#[derive(Drop)]
struct Starts {
    names: [OpaqueNodePtr; STARTS],
    len: usize,
}

impl Starts {
    // This leaf.
    fn new(leaf: LeafPtr) -> Self {
        let mut names = [OpaqueNodePtr::default(); STARTS];
        names[0] = leaf.to_opaque();
        Starts { names, len: 1 }
    }

    // Finds others after a way.
    fn find<K, V, const PREFIX_LEN: usize>(
        &mut self,
        arena: &NodeArena<K, V, PREFIX_LEN>,
        mut path: LowPath,
    ) {
        let mut passed = 0usize;
        for _ in 0..LOOKED_AT {
            if self.len >= STARTS {
                break;
            }
            let Some((child, leaves)) = path.next(arena) else {
                break;
            };
            if is_wide(child) {
                path.push(child, Some(0));
                continue;
            }
            if passed >= GAP {
                self.names[self.len] = child;
                self.len += 1;
                passed = 0;
            }
            passed = passed.wrapping_add(leaves);
        }
    }

    // Goes down from each to its first leaf, level by level.
    fn descend_each<K, V, const PREFIX_LEN: usize>(&mut self, arena: &NodeArena<K, V, PREFIX_LEN>) {
        for _ in 0..LEVELS {
            let mut is_done = true;
            for i in 0..self.len.min(STARTS) {
                if self.names[i].node_type() == NodeType::Leaf {
                    continue;
                }
                is_done = false;
                if let Some((_, child)) = child_from(arena, self.names[i], Some(0)) {
                    self.names[i] = child;
                }
            }
            if is_done {
                break;
            }
        }
    }

    // What is gone along from these leaves.
    fn chains(&self) -> Chains {
        let mut chains = Chains {
            at: [self.names[0].with_kind(); STARTS],
            ends: [NO_SLOT; STARTS],
            len: 1,
            has_end: false,
        };
        for i in 1..self.len.min(STARTS) {
            if self.names[i].node_type() != NodeType::Leaf {
                break;
            }
            chains.at[i] = self.names[i].with_kind();
            chains.ends[i - 1] = self.names[i].slot();
            chains.has_end = true;
            chains.len = i;
        }
        chains
    }
}

// Leaves from which one goes along the links in turn, and those from which the next ones went.
#[derive(Drop)]
struct Chains {
    at: [LeafPtr; STARTS],
    ends: [usize; STARTS],
    len: usize,
    // Whether one is known after the last.
    has_end: bool,
}

impl Chains {
    // Reads the leaves, and returns how many of them come before the last end, or fewer, and what was seen.
    fn read<K: AsBytes, V, const PREFIX_LEN: usize>(
        &mut self,
        arena: &NodeArena<K, V, PREFIX_LEN>,
        checksum: u8,
    ) -> (usize, u8) {
        let mut met = [false; STARTS];
        let mut len = 0usize;
        let mut bits = checksum;
        for _ in 0..CHAIN_LEAVES {
            for i in 0..self.len.min(STARTS) {
                let leaf = self.at[i];
                if arena.holds(leaf.to_opaque()) {
                    let node = arena.as_ref::<LeafNode<K, V>>(leaf);
                    bits ^= u8::from(node.key_ref().as_bytes().is_empty());
                    let next = node.next().unwrap_or(leaf);
                    self.at[i] = next;
                    len = len.wrapping_add(usize::from(!met[i]));
                    met[i] |= next.slot() == self.ends[i];
                }
            }
        }
        (len, bits)
    }
}

//! A reader of an arena, which counts each node that it reads.
ghost use Rattle.std.specs.Prelude.{◌≡◌, ◌≢◌, ◌+◌, ◌-◌, ◌^◌, ◌<◌, ◌≤◌, ℕ, List, drop, length, min};
ghost use Rattle.std.specs.Prelude.{None, Some, IsSome, MatchResult};
ghost use Rattle.art_nodes.specs.Name.{Name};
ghost use Rattle.art_arena.specs.arena.Arena.{held_at, leaf_held, inner_held};
ghost use Rattle.art_arena.specs.arena.Cells.{leaf_name};
ghost use Rattle.art_arena.specs.arena.Descents.{IsGuide};
ghost use Rattle.art_arena.specs.arena.Linked.{first_slot};
ghost use Rattle.art_arena.specs.arena.Reads.{IsReadAt, KeysWithin, ReadsAtLeast, ReadsExactly};
ghost use Rattle.art_arena.specs.arena.Reads.{ReadsToFirst};
ghost use Rattle.art_arena.specs.declared.ends.End.TheVariants.{First};
ghost use Rattle.art_arena.specs.tree.Ways.{end_path, path_to_guide};
ghost use Rattle.art_arena.specs.arena.Shapes.{Shape, erase, leaves};
ghost use Rattle.art_arena.specs.arena.Visited.{arena_of, count_of, held_of, kind_of};

use crate::arena::{LeafPtr, NodeArena};
use crate::descent::Landed;
use crate::guide::walk_on;
use crate::inner_ref::{InnerArm, InnerRef};
use crate::prefix::walk_below;
use art_bytes::AsBytes;
use art_nodes::{
    InnerNode4, InnerNode16, InnerNode32, InnerNode48, InnerNode256, LeafNode, NodeType,
    OpaqueNodePtr, assume_proved,
};

/// A node that was read, lent as long as the arena is.
#[derive(Drop)]
pub enum VisitedNode<'a, K, V, const PREFIX_LEN: usize> {
    /// One of the smallest inner nodes.
    Node4(&'a InnerNode4<K, V, PREFIX_LEN>),
    /// An inner node of up to 16 children.
    Node16(&'a InnerNode16<K, V, PREFIX_LEN>),
    /// An inner node of up to 32 children.
    Node32(&'a InnerNode32<K, V, PREFIX_LEN>),
    /// An inner node of up to 48 children.
    Node48(&'a InnerNode48<K, V, PREFIX_LEN>),
    /// One of the largest inner nodes.
    Node256(&'a InnerNode256<K, V, PREFIX_LEN>),
    /// A leaf.
    Leaf(&'a LeafNode<K, V>),
}

impl<'a, K, V, const PREFIX_LEN: usize> VisitedNode<'a, K, V, PREFIX_LEN> {
    /// Returns the leaf, or else the inner node, whatever its kind. That an inner node fits in memory is what `visit`
    /// says.
    #[inline(always)]
    pub fn leaf(self) -> Result<&'a LeafNode<K, V>, InnerRef<'a, K, V, PREFIX_LEN>>
        requires fits_in_memory { kind_of self ≢ NodeType.Leaf → PREFIX_LEN < 2 ^ 62 }
        ensures { MatchResult result (λ leaf. held_of self.entry
            ≡ leaf_held leaf.now) (λ inner. (held_of self.entry ≡ inner_held inner.node)
            × (kind_of self.entry ≡ inner.kind) × (inner.kind ≢ NodeType.Leaf)) }
    {
        match self {
            VisitedNode::Leaf(leaf) => Ok(leaf),
            VisitedNode::Node4(node) => Err(InnerRef {
                arm: InnerArm::Node4(node),
            }),
            VisitedNode::Node16(node) => Err(InnerRef {
                arm: InnerArm::Node16(node),
            }),
            VisitedNode::Node32(node) => Err(InnerRef {
                arm: InnerArm::Node32(node),
            }),
            VisitedNode::Node48(node) => Err(InnerRef {
                arm: InnerArm::Node48(node),
            }),
            VisitedNode::Node256(node) => Err(InnerRef {
                arm: InnerArm::Node256(node),
            }),
        }
    }

    // The inner node.
    #[inline(always)]
    pub(crate) fn inner(&self) -> InnerRef<'a, K, V, PREFIX_LEN>
        requires kind { kind_of self.now ≢ NodeType.Leaf }
        requires fits_in_memory { PREFIX_LEN < 2 ^ 62 }
        ensures value { held_of self.now ≡ inner_held result.node }
        ensures kind { result.kind ≡ kind_of self.now }
    {
        match *self {
            VisitedNode::Node4(node) => InnerRef {
                arm: InnerArm::Node4(node),
            },
            VisitedNode::Node16(node) => InnerRef {
                arm: InnerArm::Node16(node),
            },
            VisitedNode::Node32(node) => InnerRef {
                arm: InnerArm::Node32(node),
            },
            VisitedNode::Node48(node) => InnerRef {
                arm: InnerArm::Node48(node),
            },
            VisitedNode::Node256(node) => InnerRef {
                arm: InnerArm::Node256(node),
            },
            VisitedNode::Leaf(_) => {
                assume_proved(false);
                unreachable!()
            }
        }
    }
}

/// Something that is read step by step, and how many steps were made.
#[derive(Drop)]
pub struct Reader<'a, T> {
    arena: &'a T,
    count: u64,
}

/// The one way to the nodes of an arena for a search whose reads are counted.
pub type ArenaReader<'a, K, V, const PREFIX_LEN: usize> = Reader<'a, NodeArena<K, V, PREFIX_LEN>>;

impl<'a, T> Reader<'a, T> {
    /// Returns a reader that has read nothing yet.
    pub fn new(arena: &'a T) -> Self
        ensures arena { arena_of result ≡ arena.now }
        ensures count { count_of result ≡ 0 }
    {
        Reader { arena, count: 0 }
    }

    /// Returns how many nodes were read so far. A count that reaches the greatest number stays there.
    pub fn count(&self) -> u64
        ensures { result ≡ count_of self.now }
    {
        self.count
    }

    // One step.
    #[inline(always)]
    fn step(&mut self) -> &'a T
        ensures value { result.now ≡ arena_of self.old }
        ensures kept { arena_of self.new ≡ arena_of self.old }
        ensures counts { count_of self.new ≡ min (count_of self.old + 1) (2 ^ 64 - 1) }
    {
        self.count = self.count.saturating_add(1);
        self.arena
    }
}

impl<'a, K, V, const PREFIX_LEN: usize> Reader<'a, NodeArena<K, V, PREFIX_LEN>> {
    /// Reads the node under this name. Each call counts one. If it is an inner node, it fits in memory, which a caller
    /// over any `PREFIX_LEN` owes.
    #[inline(always)]
    pub fn visit(&mut self, name: OpaqueNodePtr) -> VisitedNode<'a, K, V, PREFIX_LEN>
        requires { IsSome (held_at (arena_of self.old) name) }
        ensures value { held_at (arena_of self.old) name ≡ Some (held_of result) }
        ensures kind { kind_of result ≡ name.kind }
        ensures fits_in_memory { name.kind ≢ NodeType.Leaf → PREFIX_LEN < 2 ^ 62 }
        ensures kept { arena_of self.new ≡ arena_of self.old }
        ensures counts { count_of self.new ≡ min (count_of self.old + 1) (2 ^ 64 - 1) }
    {
        node_in(self.step(), name)
    }

    /// Reads the inner node under this name, whatever its kind. Each call counts one.
    #[inline(always)]
    pub fn visit_inner(&mut self, name: OpaqueNodePtr) -> InnerRef<'a, K, V, PREFIX_LEN>
        requires held { IsSome (held_at (arena_of self.old) name) }
        requires inner { name.kind ≢ NodeType.Leaf }
        ensures value { held_at (arena_of self.old) name ≡ Some (inner_held result.node) }
        ensures kept { arena_of self.new ≡ arena_of self.old }
        ensures counts { count_of self.new ≡ min (count_of self.old + 1) (2 ^ 64 - 1) }
    {
        match self.visit(name).leaf() {
            Err(inner) => inner,
            Ok(_) => {
                assume_proved(false);
                unreachable!()
            }
        }
    }

    /// Reads the leaf under this name. Each call counts one.
    #[inline(always)]
    pub fn visit_leaf(&mut self, name: LeafPtr) -> &'a LeafNode<K, V>
        requires { IsSome (held_at (arena_of self.old) (leaf_name name)) }
        ensures value { held_at (arena_of self.old) (leaf_name name) ≡ Some (leaf_held result.now) }
        ensures kept { arena_of self.new ≡ arena_of self.old }
        ensures counts { count_of self.new ≡ min (count_of self.old + 1) (2 ^ 64 - 1) }
    {
        match self.visit(name.to_opaque()).leaf() {
            Ok(leaf) => leaf,
            Err(_) => {
                assume_proved(false);
                unreachable!()
            }
        }
    }
}

// The first leaf below an inner node that was read already. The nodes from there down to the leaf are read by a reader
// of their own, whose count is added at once: so a count which nobody asks for is not kept for the call.
#[inline(always)]
pub(crate) fn first_below<'a, K: AsBytes, V, const PREFIX_LEN: usize>(
    reader: &mut ArenaReader<'a, K, V, PREFIX_LEN>,
    inner: &InnerRef<'a, K, V, PREFIX_LEN>,
) -> Landed<'a, K, V>
    requires { (root : Name) × (depth : ℕ) × (path : List ℕ) × (s : Shape K V)
        × IsReadAt K.bytes PREFIX_LEN (arena_of reader.old) inner.now.node root depth path s }
    ensures value { (root : Name) (depth : ℕ) (path : List ℕ) (s : Shape K V)
        → IsReadAt K.bytes PREFIX_LEN (arena_of reader.old) inner.now.node root depth path s
        → first_slot (leaves s) None ≡ Some result.name }
    ensures leaf { held_at (arena_of reader.old) (leaf_name result.name) ≡ Some (leaf_held result.leaf.now) }
    ensures kept { arena_of reader.new ≡ arena_of reader.old }
    ensures counts { (root : Name) (depth : ℕ) (path : List ℕ) (s : Shape K V)
        → IsReadAt K.bytes PREFIX_LEN (arena_of reader.old) inner.now.node root depth path s
        → ReadsToFirst K.bytes (arena_of reader.old) path s (count_of reader.old) (count_of reader.new) }
    ensures exact { (root : Name) (depth : ℕ) (path : List ℕ) (s : Shape K V)
        → IsReadAt K.bytes PREFIX_LEN (arena_of reader.old) inner.now.node root depth path s
        → ReadsExactly (length (end_path First (erase s)) - 1) (count_of reader.old) (count_of reader.new) }
    ensures least { ReadsAtLeast 1 (count_of reader.old) (count_of reader.new) }
    ensures few { (root : Name) (depth : ℕ) (path : List ℕ) (s : Shape K V)
        → IsReadAt K.bytes PREFIX_LEN (arena_of reader.old) inner.now.node root depth path s
        → (longest : ℕ) → KeysWithin K.bytes longest (leaves s)
        → count_of reader.new + depth ≤ count_of reader.old + longest }
{
    let mut further = Reader::new(reader.arena);
    let first = walk_below(&mut further, inner);
    reader.count = reader.count.saturating_add(further.count);
    first
}

// A guide for a key, so many bytes of which lead to an inner node that was read already. It is looked for by a reader
// of its own, too.
#[inline(always)]
pub(crate) fn guide_below<'a, K: AsBytes, V, const PREFIX_LEN: usize>(
    reader: &mut ArenaReader<'a, K, V, PREFIX_LEN>,
    inner: &InnerRef<'a, K, V, PREFIX_LEN>,
    key: &[u8],
    depth: usize,
) -> &'a LeafNode<K, V>
    requires stands { (root : Name) × (path : List ℕ) × (s : Shape K V)
        × IsReadAt K.bytes PREFIX_LEN (arena_of reader.old) inner.now.node root depth path s }
    requires within { depth ≤ length key.now }
    ensures guide { (root : Name) (path : List ℕ) (s : Shape K V)
        → IsReadAt K.bytes PREFIX_LEN (arena_of reader.old) inner.now.node root depth path s
        → IsGuide key.now (K.bytes result.now.key) path s }
    ensures kept { arena_of reader.new ≡ arena_of reader.old }
    ensures counts { (root : Name) (path : List ℕ) (s : Shape K V)
        → IsReadAt K.bytes PREFIX_LEN (arena_of reader.old) inner.now.node root depth path s
        → ReadsExactly (length (path_to_guide (erase s) (drop depth key.now)) - 1) (count_of reader.old)
        (count_of reader.new) }
    ensures least { ReadsAtLeast 1 (count_of reader.old) (count_of reader.new) }
    ensures few { (root : Name) (path : List ℕ) (s : Shape K V)
        → IsReadAt K.bytes PREFIX_LEN (arena_of reader.old) inner.now.node root depth path s
        → (longest : ℕ) → KeysWithin K.bytes longest (leaves s)
        → count_of reader.new + depth ≤ count_of reader.old + longest }
{
    let mut along = Reader::new(reader.arena);
    let leaf = walk_on(&mut along, inner, key, depth);
    reader.count = reader.count.saturating_add(along.count);
    leaf
}

// The node under this name.
#[inline(always)]
fn node_in<'a, K, V, const PREFIX_LEN: usize>(
    arena: &'a NodeArena<K, V, PREFIX_LEN>,
    name: OpaqueNodePtr,
) -> VisitedNode<'a, K, V, PREFIX_LEN>
    requires { IsSome (held_at arena.now name) }
    ensures value { held_at arena.now name ≡ Some (held_of result) }
    ensures kind { kind_of result ≡ name.kind }
    ensures fits_in_memory { name.kind ≢ NodeType.Leaf → PREFIX_LEN < 2 ^ 62 }
{
    let slot = name.slot();
    match name.node_type() {
        NodeType::Node4 => VisitedNode::Node4(arena.nodes4.node(slot)),
        NodeType::Node16 => VisitedNode::Node16(arena.nodes16.node(slot)),
        NodeType::Node32 => VisitedNode::Node32(arena.nodes32.node(slot)),
        NodeType::Node48 => VisitedNode::Node48(arena.nodes48.node(slot)),
        NodeType::Node256 => VisitedNode::Node256(arena.nodes256.node(slot)),
        NodeType::Leaf => VisitedNode::Leaf(arena.leaves.node(slot)),
    }
}

impl<K, V, const PREFIX_LEN: usize> NodeArena<K, V, PREFIX_LEN> {
    /// Returns the inner node under this name, whatever its kind. It isn't counted.
    #[inline(always)]
    pub fn inner(&self, name: OpaqueNodePtr) -> InnerRef<'_, K, V, PREFIX_LEN>
        requires held { IsSome (held_at self.now name) }
        requires inner { name.kind ≢ NodeType.Leaf }
        ensures value { held_at self.now name ≡ Some (inner_held result.node) }
        ensures kind { result.kind ≡ name.kind }
        ensures fits_in_memory { PREFIX_LEN < 2 ^ 62 }
    {
        match node_in(self, name).leaf() {
            Err(inner) => inner,
            Ok(_) => {
                assume_proved(false);
                unreachable!()
            }
        }
    }
}

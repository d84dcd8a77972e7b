//! The kinds of nodes, and the one table of what each kind of inner node holds.
ghost use Rattle.std.specs.Prelude.{◌≡◌, ◌≢◌, ◌≤◌, ◌+◌, ◌↔◌, IsTrue, IsSomeAnd};
ghost use Rattle.std.proofs.Common.{lit<};
ghost use Rattle.art_nodes.specs.Kind.{row_of, CanShrink};
ghost use Rattle.art_nodes.specs.lemmas.KindLaws.{has_room};
ghost use Rattle.art_nodes.specs.declared.kind.NodeType.{NodeType};
ghost use Rattle.art_nodes.specs.declared.kind.NodeType.TheVariants.{Node4, Node16, Node32, Node48, Node256, Leaf};

use crate::sealed::Sealed;
use std::ops::Range;

/// The kind of a node: one of the inner kinds, or a leaf.
#[derive(Clone, Copy, PartialEq, Eq, Hash, Debug)]
pub enum NodeType {
    /// The smallest inner node.
    Node4,
    /// An inner node of up to 16 children.
    Node16,
    /// An inner node of up to 32 children.
    Node32,
    /// An inner node of up to 48 children.
    Node48,
    /// The inner node with room for every byte.
    Node256,
    /// A pair, with no children.
    Leaf,
}

/// What the table of kinds says of one kind.
#[derive(Clone, Copy)]
pub struct KindRow {
    /// The fewest children in a canonical tree.
    pub fewest: usize,
    /// The most children, which is also the room.
    pub most: usize,
    /// The kind that a full node grows into.
    pub larger: Option<NodeType>,
    /// The kind that a node of few children shrinks into.
    pub smaller: Option<NodeType>,
}

impl NodeType {
    /// Returns this kind's row of the table, from which all else about kinds is read. A leaf has no children.
    pub const fn row(self) -> KindRow
        ensures { result ≡ row_of self }
    {
        match self {
            NodeType::Node4 => KindRow {
                fewest: 2,
                most: 4,
                larger: Some(NodeType::Node16),
                smaller: None,
            },
            NodeType::Node16 => KindRow {
                fewest: 5,
                most: 16,
                larger: Some(NodeType::Node32),
                smaller: Some(NodeType::Node4),
            },
            NodeType::Node32 => KindRow {
                fewest: 17,
                most: 32,
                larger: Some(NodeType::Node48),
                smaller: Some(NodeType::Node16),
            },
            NodeType::Node48 => KindRow {
                fewest: 33,
                most: 48,
                larger: Some(NodeType::Node256),
                smaller: Some(NodeType::Node32),
            },
            NodeType::Node256 => KindRow {
                fewest: 49,
                most: 256,
                larger: None,
                smaller: Some(NodeType::Node48),
            },
            NodeType::Leaf => KindRow {
                fewest: 0,
                most: 0,
                larger: None,
                smaller: None,
            },
        }
    }

    /// Returns how many children an inner node of this kind has in a canonical tree: the half-open range from the
    /// fewest to one above the most.
    pub const fn capacity_range(self) -> Range<usize>
        requires { self ≢ NodeType.Leaf }
        ensures fewest { result.start ≡ (row_of self).fewest }
        ensures most { result.end ≡ (row_of self).most + 1 }
    {
        let row = self.row();
        row.fewest..row.most + 1
    }

    /// Returns whether an inner node of this kind with so many children belongs in the next smaller kind: if there is
    /// one, and it has room for them.
    pub const fn should_shrink_inner_node(self, num_children: usize) -> bool
        requires { self ≢ NodeType.Leaf }
        ensures { IsTrue result ↔ CanShrink self num_children }
    {
        match self.row().smaller {
            Some(smaller) => num_children <= smaller.row().most,
            None => false,
        }
    }
}

/// A kind as a type, which the names of its nodes carry.
pub trait NodeKind: Sealed {
    ghost TYPE: { NodeType };

    /// The kind as a value.
    const TYPE: NodeType;
}

/// A kind of inner nodes.
pub trait InnerKind: NodeKind {
    ghost is_inner: { Self.TYPE ≢ NodeType.Leaf };
}

/// The kind of the smallest inner nodes.
pub struct Kind4;

impl Sealed for Kind4 {}

impl NodeKind for Kind4 {
    ghost TYPE = { Node4 };

    const TYPE: NodeType = NodeType::Node4;
}

impl InnerKind for Kind4 {
    ghost is_inner = { has_room Node4 (lit< tt) };
}

/// The kind of inner nodes of up to 16 children.
pub struct Kind16;

impl Sealed for Kind16 {}

impl NodeKind for Kind16 {
    ghost TYPE = { Node16 };

    const TYPE: NodeType = NodeType::Node16;
}

impl InnerKind for Kind16 {
    ghost is_inner = { has_room Node16 (lit< tt) };
}

/// The kind of inner nodes of up to 32 children.
pub struct Kind32;

impl Sealed for Kind32 {}

impl NodeKind for Kind32 {
    ghost TYPE = { Node32 };

    const TYPE: NodeType = NodeType::Node32;
}

impl InnerKind for Kind32 {
    ghost is_inner = { has_room Node32 (lit< tt) };
}

/// The kind of inner nodes of up to 48 children.
pub struct Kind48;

impl Sealed for Kind48 {}

impl NodeKind for Kind48 {
    ghost TYPE = { Node48 };

    const TYPE: NodeType = NodeType::Node48;
}

impl InnerKind for Kind48 {
    ghost is_inner = { has_room Node48 (lit< tt) };
}

/// The kind of the largest inner nodes.
pub struct Kind256;

impl Sealed for Kind256 {}

impl NodeKind for Kind256 {
    ghost TYPE = { Node256 };

    const TYPE: NodeType = NodeType::Node256;
}

impl InnerKind for Kind256 {
    ghost is_inner = { has_room Node256 (lit< tt) };
}

/// The kind of leaves.
pub struct KindLeaf;

impl Sealed for KindLeaf {}

impl NodeKind for KindLeaf {
    ghost TYPE = { Leaf };

    const TYPE: NodeType = NodeType::Leaf;
}

//! Names whose kind is seen by a match.
ghost use Rattle.std.specs.Prelude.{◌≡◌, ◌≢◌};

use crate::hint::assume_proved;
use crate::kind::{
    InnerKind, Kind4, Kind16, Kind32, Kind48, Kind256, KindLeaf, NodeKind, NodeType,
};
use crate::names::{NodePtr, OpaqueNodePtr};

/// The name of a node, with a case for each kind.
#[derive(Clone, Copy, Debug)]
pub enum ConcreteNodePtr {
    /// The name of one of the smallest inner nodes.
    Node4(NodePtr<Kind4>),
    /// The name of an inner node of up to 16 children.
    Node16(NodePtr<Kind16>),
    /// The name of an inner node of up to 32 children.
    Node32(NodePtr<Kind32>),
    /// The name of an inner node of up to 48 children.
    Node48(NodePtr<Kind48>),
    /// The name of one of the largest inner nodes.
    Node256(NodePtr<Kind256>),
    /// The name of a leaf.
    LeafNode(NodePtr<KindLeaf>),
}

/// The name of an inner node, with a case for each kind.
#[derive(Clone, Copy, Debug)]
pub enum ConcreteInnerNodePtr {
    /// The name of one of the smallest inner nodes.
    Node4(NodePtr<Kind4>),
    /// The name of an inner node of up to 16 children.
    Node16(NodePtr<Kind16>),
    /// The name of an inner node of up to 32 children.
    Node32(NodePtr<Kind32>),
    /// The name of an inner node of up to 48 children.
    Node48(NodePtr<Kind48>),
    /// The name of one of the largest inner nodes.
    Node256(NodePtr<Kind256>),
}

impl ConcreteNodePtr {
    ghost use Rattle.art_nodes.specs.Concrete.{node_name_of};

    /// Returns this name with its kind as a value.
    pub fn to_opaque(self) -> OpaqueNodePtr
        ensures { result ≡ node_name_of self }
    {
        match self {
            ConcreteNodePtr::Node4(name) => name.to_opaque(),
            ConcreteNodePtr::Node16(name) => name.to_opaque(),
            ConcreteNodePtr::Node32(name) => name.to_opaque(),
            ConcreteNodePtr::Node48(name) => name.to_opaque(),
            ConcreteNodePtr::Node256(name) => name.to_opaque(),
            ConcreteNodePtr::LeafNode(name) => name.to_opaque(),
        }
    }
}

impl ConcreteInnerNodePtr {
    ghost use Rattle.art_nodes.specs.Concrete.{inner_name_of};

    /// Returns this name with its kind as a value.
    pub fn to_opaque(self) -> OpaqueNodePtr
        ensures { result ≡ inner_name_of self }
    {
        match self {
            ConcreteInnerNodePtr::Node4(name) => name.to_opaque(),
            ConcreteInnerNodePtr::Node16(name) => name.to_opaque(),
            ConcreteInnerNodePtr::Node32(name) => name.to_opaque(),
            ConcreteInnerNodePtr::Node48(name) => name.to_opaque(),
            ConcreteInnerNodePtr::Node256(name) => name.to_opaque(),
        }
    }
}

impl OpaqueNodePtr {
    ghost use Rattle.art_nodes.specs.Concrete.{node_name_of, inner_name_of};

    /// Returns this name with a case for its kind.
    pub fn to_node_ptr(self) -> ConcreteNodePtr
        ensures { node_name_of result ≡ self }
    {
        match self.node_type() {
            NodeType::Node4 => ConcreteNodePtr::Node4(self.with_kind()),
            NodeType::Node16 => ConcreteNodePtr::Node16(self.with_kind()),
            NodeType::Node32 => ConcreteNodePtr::Node32(self.with_kind()),
            NodeType::Node48 => ConcreteNodePtr::Node48(self.with_kind()),
            NodeType::Node256 => ConcreteNodePtr::Node256(self.with_kind()),
            NodeType::Leaf => ConcreteNodePtr::LeafNode(self.with_kind()),
        }
    }

    /// Returns this name with a case for its kind, which must be that of an inner node.
    pub fn to_inner_ptr(self) -> ConcreteInnerNodePtr
        requires { self.kind ≢ NodeType.Leaf }
        ensures { inner_name_of result ≡ self }
    {
        match self.to_node_ptr() {
            ConcreteNodePtr::Node4(name) => ConcreteInnerNodePtr::Node4(name),
            ConcreteNodePtr::Node16(name) => ConcreteInnerNodePtr::Node16(name),
            ConcreteNodePtr::Node32(name) => ConcreteInnerNodePtr::Node32(name),
            ConcreteNodePtr::Node48(name) => ConcreteInnerNodePtr::Node48(name),
            ConcreteNodePtr::Node256(name) => ConcreteInnerNodePtr::Node256(name),
            ConcreteNodePtr::LeafNode(_) => {
                assume_proved(false);
                unreachable!()
            }
        }
    }
}

impl<N: NodeKind> From<NodePtr<N>> for ConcreteNodePtr {
    ghost use Rattle.art_nodes.specs.Concrete.{node_name_of};

    ghost from_gives = { λ name new. node_name_of new ≡ record { kind = N.TYPE; slot = name } };

    fn from(name: NodePtr<N>) -> Self {
        name.to_opaque().to_node_ptr()
    }
}

impl<N: InnerKind> From<NodePtr<N>> for ConcreteInnerNodePtr {
    ghost use Rattle.art_nodes.specs.Concrete.{inner_name_of};

    ghost from_gives = { λ name new. inner_name_of new ≡ record { kind = N.TYPE; slot = name } };

    fn from(name: NodePtr<N>) -> Self {
        name.to_opaque().to_inner_ptr()
    }
}

//! A builder of inner nodes, which gives the node out once it has at least two children.
ghost use Rattle.std.specs.Prelude.{◌≡◌, ◌<◌, None, length};
ghost use Rattle.art_nodes.specs.InnerNode.{child_at, with_child, with_children, node_with};

use crate::inner_node::InnerNodeCommon;
use crate::names::OpaqueNodePtr;
use std::marker::PhantomData;

/// A builder with no child yet.
#[derive(Drop)]
pub struct NoChild;

/// A builder with one child.
#[derive(Drop)]
pub struct HasOneChild;

/// A builder with two children or more.
#[derive(Drop)]
pub struct HasChild;

/// An inner node in the making; `S` says how many children it has.
#[derive(Drop)]
pub struct InnerNodeBuilder<N, S> {
    node: N,
    state: PhantomData<S>,
}

// A node with one child more.
fn with_one_more<N: InnerNodeCommon<PREFIX_LEN>, const PREFIX_LEN: usize>(
    mut node: N,
    byte: u8,
    name: OpaqueNodePtr,
) -> N
    requires vacant { child_at (N.inner node).children byte ≡ None }
    requires room { length (N.inner node).children < N.room }
    ensures { N.inner result ≡ node_with (N.inner node) byte name }
{
    node.write_child(byte, name);
    node
}

impl<N> InnerNodeBuilder<N, NoChild> {
    /// A builder of this node, which has no children.
    pub(crate) fn new(node: N) -> Self
        ensures { result.node ≡ node }
    {
        InnerNodeBuilder {
            node,
            state: PhantomData,
        }
    }

    /// Stores the first child.
    pub fn write_child<const PREFIX_LEN: usize>(
        self,
        byte: u8,
        name: OpaqueNodePtr,
    ) -> InnerNodeBuilder<N, HasOneChild>
    where
        N: InnerNodeCommon<PREFIX_LEN>,
        requires vacant { child_at (N.inner self.node).children byte ≡ None }
        requires room { length (N.inner self.node).children < N.room }
        ensures { N.inner result.node ≡ node_with (N.inner self.node) byte name }
    {
        let InnerNodeBuilder { node, state: _ } = self;
        InnerNodeBuilder {
            node: with_one_more(node, byte, name),
            state: PhantomData,
        }
    }
}

impl<N> InnerNodeBuilder<N, HasOneChild> {
    /// Stores the second child, under a new byte.
    pub fn write_child<const PREFIX_LEN: usize>(
        self,
        byte: u8,
        name: OpaqueNodePtr,
    ) -> InnerNodeBuilder<N, HasChild>
    where
        N: InnerNodeCommon<PREFIX_LEN>,
        requires vacant { child_at (N.inner self.node).children byte ≡ None }
        requires room { length (N.inner self.node).children < N.room }
        ensures { N.inner result.node ≡ node_with (N.inner self.node) byte name }
    {
        let InnerNodeBuilder { node, state: _ } = self;
        InnerNodeBuilder {
            node: with_one_more(node, byte, name),
            state: PhantomData,
        }
    }
}

impl<N> InnerNodeBuilder<N, HasChild> {
    /// Stores one more child, under a new byte.
    pub fn write_child<const PREFIX_LEN: usize>(self, byte: u8, name: OpaqueNodePtr) -> Self
    where
        N: InnerNodeCommon<PREFIX_LEN>,
        requires vacant { child_at (N.inner self.node).children byte ≡ None }
        requires room { length (N.inner self.node).children < N.room }
        ensures { N.inner result.node ≡ node_with (N.inner self.node) byte name }
    {
        let InnerNodeBuilder { node, state: _ } = self;
        InnerNodeBuilder {
            node: with_one_more(node, byte, name),
            state: PhantomData,
        }
    }

    /// Returns the node.
    pub fn build(self) -> N
        ensures { result ≡ self.node }
    {
        let InnerNodeBuilder { node, state: _ } = self;
        node
    }
}

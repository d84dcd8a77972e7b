//! The one door to an inner node: what is read of it, whatever its kind. The hints to inline let a descent test the
//! kind of a node once, and not at each call. Without them a look-up takes twice the instructions.
ghost use Rattle.std.specs.Prelude.{◌≡◌, ◌↔◌, ◌<◌, ◌≤◌, ◌⊎◌, IsFalse, IsSome, IsTrue, MatchOption, None, length};
ghost use Rattle.std.specs.declared.ops.Bound.TheVariants.{Excluded, Unbounded};
ghost use Rattle.art_nodes.specs.InnerNode as node;
ghost use Rattle.art_nodes.specs.Kind.{row_of};
ghost use Rattle.art_arena.specs.arena.Descents.{GoesNoFurther, GoesOn, MeetsStored};
ghost use Rattle.art_arena.specs.arena.EndLeaves.{end_child};

use crate::ends::End;
use crate::front::begins_with_short;
use art_nodes::{
    ChildIter, Header, InnerNode4, InnerNode16, InnerNode32, InnerNode48, InnerNode256,
    InnerNodeCommon, OpaqueNodePtr,
};
use std::marker::Model;
use std::ops::Bound;

// An inner node, with a case for each kind.
#[derive(Drop)]
pub(crate) enum InnerArm<'a, K, V, const PREFIX_LEN: usize> {
    Node4(&'a InnerNode4<K, V, PREFIX_LEN>),
    Node16(&'a InnerNode16<K, V, PREFIX_LEN>),
    Node32(&'a InnerNode32<K, V, PREFIX_LEN>),
    Node48(&'a InnerNode48<K, V, PREFIX_LEN>),
    Node256(&'a InnerNode256<K, V, PREFIX_LEN>),
}

/// An inner node of any kind, lent by an arena. It fits in memory, which a caller over any `PREFIX_LEN` need not show.
#[derive(Drop)]
pub struct InnerRef<'a, K, V, const PREFIX_LEN: usize> {
    pub(crate) arm: InnerArm<'a, K, V, PREFIX_LEN>,
}

impl<'a, K, V, const PREFIX_LEN: usize> Model for InnerRef<'a, K, V, PREFIX_LEN> {
    ghost use Rattle.std.specs.Prelude.{◌<◌, ◌^◌};
    ghost use Rattle.art_arena.specs.arena.InnerRef.{Inner, arm_inner};

    ghost Value = { Inner };

    ghost view = { λ a. arm_inner a.arm };

    ghost invariant = { λ a. PREFIX_LEN < 2 ^ 62 };
}

// An expression over the node, whatever its kind.
macro_rules! on_arm {
    ($self:ident, $node:ident => $body:expr) => {
        match $self.arm {
            InnerArm::Node4($node) => $body,
            InnerArm::Node16($node) => $body,
            InnerArm::Node32($node) => $body,
            InnerArm::Node48($node) => $body,
            InnerArm::Node256($node) => $body,
        }
    };
}

impl<'a, K, V, const PREFIX_LEN: usize> InnerRef<'a, K, V, PREFIX_LEN> {
    /// Returns the header.
    #[inline(always)]
    pub fn header(&self) -> &'a Header<PREFIX_LEN>
        ensures value { result.now ≡ self.now.node.header }
        ensures is_inner_node { node.IsInnerNode PREFIX_LEN (row_of self.now.kind).most self.now.node }
    {
        on_arm!(self, node => node.header())
    }

    /// Returns how many bytes the whole prefix has.
    #[inline(always)]
    pub fn prefix_len(&self) -> usize
        ensures { result ≡ self.now.node.header.prefix_len }
    {
        let _arm = &self.arm;
        self.header().prefix_len()
    }

    /// Returns the bytes of the prefix that are stored: the first of them.
    #[inline(always)]
    pub fn read_prefix(&self) -> &[u8]
        ensures { result.now ≡ self.now.node.header.stored }
    {
        let _arm = &self.arm;
        self.header().read_prefix()
    }

    /// Returns how many children there are.
    #[inline(always)]
    pub fn num_children(&self) -> usize
        ensures { result ≡ length self.now.node.children }
    {
        let _arm = &self.arm;
        self.header().num_children()
    }

    /// Returns whether the room is used up.
    #[inline(always)]
    pub fn is_full(&self) -> bool
        ensures value { IsTrue result ↔ (length self.now.node.children ≡ (row_of self.now.kind).most) }
        ensures room { length self.now.node.children ≤ (row_of self.now.kind).most }
    {
        on_arm!(self, node => node.is_full())
    }

    /// Returns the child under this byte.
    #[inline(always)]
    pub fn lookup_child(&self, byte: u8) -> Option<OpaqueNodePtr>
        ensures { result ≡ node.child_at self.now.node.children byte }
    {
        on_arm!(self, node => node.lookup_child(byte))
    }

    /// Returns whether a child may be written under this byte of the node as it is: it has room, or one stands there.
    /// If not, there is a larger kind.
    #[inline(always)]
    pub fn may_write(&self, byte: u8) -> bool
        ensures yes { IsTrue result → (length self.now.node.children < (row_of self.now.kind).most)
            ⊎ IsSome (node.child_at self.now.node.children byte) }
        ensures no { IsFalse result → (length self.now.node.children ≡ (row_of self.now.kind).most)
            × IsSome (row_of self.now.kind).larger }
        ensures absent { IsFalse result → node.child_at self.now.node.children byte ≡ None }
    {
        on_arm!(self, node => has_room::<_, PREFIX_LEN>(node, byte))
    }

    /// Returns an iterator over the children, by ascending byte.
    #[inline(always)]
    pub fn children(&self) -> ChildIter<'_>
        ensures value { result ≡ self.now.node.children }
        ensures ascending { node.IsAscending result }
    {
        on_arm!(self, node => node.iter())
    }

    /// Returns an iterator over the children whose bytes lie between two bounds, by ascending byte.
    #[inline(always)]
    pub fn range(&self, start: Bound<u8>, end: Bound<u8>) -> ChildIter<'_>
        requires { node.AreValidBounds start end }
        ensures { result ≡ node.children_between start end self.now.node.children }
    {
        on_arm!(self, node => node.range(start, end))
    }

    /// Returns the child under the smallest byte, with its byte.
    #[inline(always)]
    pub fn first_child(&self) -> Option<(u8, OpaqueNodePtr)>
        ensures { result ≡ node.first_child self.now.node.children }
    {
        self.children().next()
    }

    /// Returns the child under the greatest byte, with its byte.
    #[tactic(auto, using(art_nodes::proofs::ChildLemmas::lasts))]
    #[inline(always)]
    pub fn last_child(&self) -> Option<(u8, OpaqueNodePtr)>
        ensures { result ≡ node.last_child self.now.node.children }
    {
        self.children().next_back()
    }

    /// Returns the child at this end, with its byte.
    #[inline(always)]
    pub fn end_child(&self, end: End) -> Option<(u8, OpaqueNodePtr)>
        ensures { result ≡ end_child end self.now.node.children }
    {
        match end {
            End::First => self.first_child(),
            End::Last => self.last_child(),
        }
    }

    /// Returns the child under the smallest byte above this one, with its byte.
    #[inline(always)]
    pub fn child_after(&self, byte: u8) -> Option<(u8, OpaqueNodePtr)>
        ensures { result ≡ node.first_child (node.children_between (Excluded byte) Unbounded self.now.node.children) }
    {
        self.range(Bound::Excluded(byte), Bound::Unbounded).next()
    }

    /// Returns the child under the greatest byte below this one, with its byte.
    #[tactic(auto, using(art_nodes::proofs::ChildLemmas::lasts))]
    #[inline(always)]
    pub fn child_before(&self, byte: u8) -> Option<(u8, OpaqueNodePtr)>
        ensures { result ≡ node.last_child (node.children_between Unbounded (Excluded byte) self.now.node.children) }
    {
        self.range(Bound::Unbounded, Bound::Excluded(byte))
            .next_back()
    }

    /// Returns whether a key, so many bytes of which lead here, goes on with what is stored of the prefix. Most nodes
    /// have none, and then nothing is compared.
    #[inline(always)]
    pub fn meets_stored(&self, key: &[u8], depth: usize) -> bool
        requires { depth ≤ length key.now }
        ensures { IsTrue result ↔ MeetsStored key.now depth self.now.node }
    {
        let stored = self.read_prefix();
        stored.is_empty() || begins_with_short(&key[depth..], stored)
    }

    /// Returns the child to which a key goes on from here, after so many of its bytes. It passes the prefix by its
    /// length alone: its caller compares the key of the leaf that is reached.
    ///
    /// It returns `None` if the key ends within the prefix or with it, or if no child stands under its next byte.
    #[inline(always)]
    pub fn next_step(&self, key: &[u8], depth: usize) -> Option<NextStep>
        requires { depth ≤ length key.now }
        ensures { MatchOption result (GoesNoFurther key.now depth self.now.node)
            (λ step. GoesOn key.now depth self.now.node step.byte step.child step.depth) }
    {
        on_arm!(self, node => step_from::<_, PREFIX_LEN>(node, key, depth))
    }
}

/// A step of a key from an inner node to a child.
#[derive(Clone, Copy)]
pub struct NextStep {
    /// The byte under which the child stands.
    pub byte: u8,
    /// The child.
    pub child: OpaqueNodePtr,
    /// How many bytes of the key lead to it.
    pub depth: usize,
}

// The child to which a key goes on from an inner node of one kind that stands after so many of its bytes.
#[inline(always)]
fn step_from<N: InnerNodeCommon<PREFIX_LEN>, const PREFIX_LEN: usize>(
    inner: &N,
    key: &[u8],
    depth: usize,
) -> Option<NextStep>
    requires { depth ≤ length key.now }
    ensures { MatchOption result (GoesNoFurther key.now depth (N.inner inner.now))
        (λ step. GoesOn key.now depth (N.inner inner.now) step.byte step.child step.depth) }
{
    let _children = inner.iter();
    let prefix_len = inner.header().prefix_len();
    if key.len() - depth <= prefix_len {
        return None;
    }
    let at = depth + prefix_len;
    let byte = key[at];
    match inner.lookup_child(byte) {
        Some(child) => Some(NextStep {
            byte,
            child,
            depth: at + 1,
        }),
        None => None,
    }
}

// Whether a child may be written under this byte of a node as it stands.
#[inline(always)]
fn has_room<N: InnerNodeCommon<PREFIX_LEN>, const PREFIX_LEN: usize>(inner: &N, byte: u8) -> bool
    ensures yes { IsTrue result → (length (N.inner inner.now).children < N.room)
        ⊎ IsSome (node.child_at (N.inner inner.now).children byte) }
    ensures no { IsFalse result → (length (N.inner inner.now).children ≡ N.room) × (N.room < 256) }
    ensures absent { IsFalse result → node.child_at (N.inner inner.now).children byte ≡ None }
{
    let _children = inner.iter();
    !inner.is_full() || inner.lookup_child(byte).is_some()
}

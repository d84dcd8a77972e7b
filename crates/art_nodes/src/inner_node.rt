//! The traits of nodes: what is said of every kind is said here.
ghost use Rattle.std.specs.Prelude.{◌≡◌, ◌↔◌, ◌<◌, ◌≤◌, ◌⊎◌, ◌+◌, ◌^◌, ℕ, [], true, false, length, min, IsTrue, IsSome};
ghost use Rattle.std.specs.Prelude.{MatchResult};
ghost use Rattle.art_nodes.specs.PrefixMatch.{agreeing};
ghost use Rattle.art_nodes.specs.Header.{front_of, header_of};
ghost use Rattle.art_nodes.specs.InnerNode.{InnerNode, IsInnerNode, IsAscending, MayWrite, child_at, with_child};
ghost use Rattle.art_nodes.specs.InnerNode.{without_child, with_children, childless, node_with, node_without};
ghost use Rattle.art_nodes.specs.InnerNode.{with_prefix_of, first_child, last_child, children_between, AreValidBounds};

use crate::builder::{InnerNodeBuilder, NoChild};
use crate::child_iter::ChildIter;
use crate::header::Header;
use crate::kind::NodeKind;
use crate::names::OpaqueNodePtr;
use crate::prefix_match::{
    AttemptOptimisticPrefixMatch, OptimisticMismatch, PessimisticMismatch, PrefixMatch,
    count_agreeing,
};
use crate::sealed::Sealed;
use std::ops::Bound;

/// A node of one kind.
pub trait Node: Sealed + Sized {
    /// The kind, which its names carry.
    type Kind: NodeKind;

    /// The type of the keys in its tree.
    type Key;

    /// The type of the values in its tree.
    type Value;
}

/// How an inner node is made.
pub trait InnerNodeInit<const PREFIX_LEN: usize>: Sealed + Sized {
    /// What a contract sees of the node.
    ghost inner: { Self → InnerNode };

    /// Makes a node of no children whose prefix is the first `len` bytes of these, which must cover what is stored.
    fn from_prefix(bytes: &[u8], len: usize) -> Self
        requires { min len PREFIX_LEN ≤ length bytes.now }
        ensures { inner result ≡ childless (header_of PREFIX_LEN bytes.now len) };

    /// Makes a node of no children with this header, which must count none.
    #[tactic(auto, using(crate::proofs::PrefixLemmas::fronts))]
    final fn from_header(heading: Header<PREFIX_LEN>) -> Self
        requires { heading.num_children ≡ 0 }
        ensures { inner result ≡ childless heading.entry }
    {
        let _count = heading.num_children();
        Self::from_prefix(heading.read_prefix(), heading.prefix_len())
    }
}

/// An inner node: a header, and a finite map from byte to name, whichever way the children are held.
pub trait InnerNodeCommon<const PREFIX_LEN: usize>: InnerNodeInit<PREFIX_LEN> + Drop {
    /// The most children that the node has room for.
    ghost room: { ℕ };

    /// Returns the header.
    fn header(&self) -> &Header<PREFIX_LEN>
        ensures value { result.now ≡ (Self.inner self.now).header }
        ensures is_inner_node { IsInnerNode PREFIX_LEN room (Self.inner self.now) };

    /// Takes the prefix of this header. The children stay.
    fn copy_prefix(&mut self, prefix: &Header<PREFIX_LEN>)
        ensures { Self.inner self.new ≡ with_prefix_of prefix.now (Self.inner self.old) };

    /// Returns whether the room is used up.
    fn is_full(&self) -> bool
        ensures value { IsTrue result ↔ (length (Self.inner self.now).children ≡ room) }
        ensures room { length (Self.inner self.now).children ≤ room };

    /// Returns the child under this byte.
    fn lookup_child(&self, byte: u8) -> Option<OpaqueNodePtr>
        ensures { result ≡ child_at (Self.inner self.now).children byte };

    /// Stores a child under this byte, in place of one that stands there.
    fn write_child(&mut self, byte: u8, name: OpaqueNodePtr)
        requires { MayWrite room (Self.inner self.old).children byte }
        ensures { Self.inner self.new ≡ node_with (Self.inner self.old) byte name };

    /// Removes the child under this byte, and returns it.
    fn remove_child(&mut self, byte: u8) -> Option<OpaqueNodePtr>
        ensures value { result ≡ child_at (Self.inner self.old).children byte }
        ensures rest { Self.inner self.new ≡ node_without (Self.inner self.old) byte };

    /// Returns an iterator over the children, by ascending byte.
    fn iter(&self) -> ChildIter<'_>
        ensures value { result ≡ (Self.inner self.now).children }
        ensures ascending { IsAscending result }
        ensures fits_in_memory { PREFIX_LEN + 17 < 2 ^ 63 };

    /// Returns a builder of a node with this header, which must count none.
    final fn builder(heading: Header<PREFIX_LEN>) -> InnerNodeBuilder<Self, NoChild>
        requires { heading.num_children ≡ 0 }
        ensures { Self.inner result.node ≡ childless heading.entry }
    {
        InnerNodeBuilder::new(Self::from_header(heading))
    }

    /// Checks by length alone whether the prefix may agree with the rest of a key: its bytes from the node's depth on.
    /// A mismatch counts all of the rest.
    final fn optimistic_match_prefix(&self, rest: &[u8]) -> Result<PrefixMatch, OptimisticMismatch>
        ensures { let len = (Self.inner self.now).header.prefix_len in MatchResult result
            (λ yes. (yes.matched_bytes ≡ len) × (len ≤ length rest.now))
            (λ no. (no.matched_bytes ≡ length rest.now) × (length rest.now < len)) }
    {
        // The children tell that a header fits in memory.
        let _children = self.iter();
        let len = self.header().prefix_len();
        if len <= rest.len() {
            Ok(PrefixMatch { matched_bytes: len })
        } else {
            Err(OptimisticMismatch {
                matched_bytes: rest.len(),
            })
        }
    }

    /// Compares the prefix with the rest of a key: its bytes from the node's depth on. If the prefix isn't wholly
    /// stored, it checks by length alone, and the result says so.
    final fn attempt_pessimistic_match_prefix(
        &self,
        rest: &[u8],
    ) -> Result<AttemptOptimisticPrefixMatch, PessimisticMismatch>
        ensures compared { let header = (Self.inner self.now).header in
            let len = header.prefix_len in
            let agree = agreeing header.stored rest.now in
            len ≤ PREFIX_LEN → MatchResult result
            (λ yes. (yes.any_implicit_bytes ≡ false) × (yes.matched_bytes ≡ len) × (agree ≡ len))
            (λ no. (no.matched_bytes ≡ agree) × (no.matched_bytes < len)) }
        ensures by_length { let len = (Self.inner self.now).header.prefix_len in
            PREFIX_LEN < len → MatchResult result
            (λ yes. (yes.any_implicit_bytes ≡ true) × (yes.matched_bytes ≡ len) × (len ≤ length rest.now))
            (λ no. (no.matched_bytes ≡ length rest.now) × (length rest.now < len)) }
    {
        // The children tell that a header fits in memory.
        let _children = self.iter();
        let header = self.header();
        let len = header.prefix_len();
        if len <= PREFIX_LEN {
            let matched_bytes = count_agreeing(header.read_prefix(), rest);
            if matched_bytes == len {
                Ok(AttemptOptimisticPrefixMatch {
                    matched_bytes,
                    any_implicit_bytes: false,
                })
            } else {
                Err(PessimisticMismatch { matched_bytes })
            }
        } else if len <= rest.len() {
            Ok(AttemptOptimisticPrefixMatch {
                matched_bytes: len,
                any_implicit_bytes: true,
            })
        } else {
            Err(PessimisticMismatch {
                matched_bytes: rest.len(),
            })
        }
    }

    /// Returns an iterator over the children whose bytes lie between two bounds, by ascending byte.
    fn range(&self, start: Bound<u8>, end: Bound<u8>) -> ChildIter<'_>
        requires { AreValidBounds start end }
        ensures { result ≡ children_between start end (Self.inner self.now).children };

    /// Returns the child under the smallest byte, with its byte.
    final fn min(&self) -> Option<(u8, OpaqueNodePtr)>
        ensures { result ≡ first_child (Self.inner self.now).children }
    {
        self.iter().next()
    }

    /// Returns the child under the greatest byte, with its byte.
    #[tactic(auto, using(crate::proofs::ChildLemmas::lasts))]
    final fn max(&self) -> Option<(u8, OpaqueNodePtr)>
        ensures { result ≡ last_child (Self.inner self.now).children }
    {
        self.iter().next_back()
    }
}

/// An inner node of one kind.
pub trait InnerNode<const PREFIX_LEN: usize>: Node + InnerNodeCommon<PREFIX_LEN> {
    ghost use Rattle.art_nodes.specs.Kind.{row_of, CanShrink, grown_kind, shrunk_kind};

    /// The next larger kind, and for the largest itself.
    type GrownNode: Node + InnerNodeCommon<PREFIX_LEN>;

    /// The next smaller kind, and for the smallest itself.
    type ShrunkNode: Node + InnerNodeCommon<PREFIX_LEN>;

    /// Makes a node of the next larger kind with the same header and children. This one must be full and not of the
    /// largest kind.
    fn grow(&self) -> Self::GrownNode
        requires full { length (Self.inner self.now).children ≡ Self.room }
        requires larger { IsSome (row_of Self.Kind.TYPE).larger }
        ensures { Self.GrownNode.inner result ≡ Self.inner self.now };

    /// Makes a node of the next smaller kind with the same header and children, if `should_shrink_inner_node` holds of
    /// their number.
    fn shrink(&self) -> Self::ShrunkNode
        requires { CanShrink Self.Kind.TYPE (length (Self.inner self.now).children) }
        ensures { Self.ShrunkNode.inner result ≡ Self.inner self.now };

    /// The room is the most children that the table of kinds names.
    ghost room_is_most: { Self.room ≡ (row_of Self.Kind.TYPE).most };

    /// What a node grows into is of the kind that the table names.
    ghost grows_by_table: { Self.GrownNode.Kind.TYPE ≡ grown_kind Self.Kind.TYPE };

    /// What a node shrinks into is of the kind that the table names.
    ghost shrinks_by_table: { Self.ShrunkNode.Kind.TYPE ≡ shrunk_kind Self.Kind.TYPE };
}

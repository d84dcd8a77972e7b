//! Iterators that lend the pairs of a run of leaves, which need not be counted.
ghost use Rattle.std.specs.Prelude.{◌≡◌, ℕ, length, ⊤};
ghost use Rattle.std.specs.Iterator.{at_most};
ghost use Rattle.std.specs.Map.Iter.{TakesFirst, TakesLast, deref_pair};
ghost use Rattle.art_arena.specs.arena.Shapes.{pairs_of};
ghost use Rattle.art_walks.specs.Walked.{IsCounted};

use crate::prefetch::Prefetcher;
use crate::raw_iterator::RawIterator;
use art_arena::NodeArena;
use art_bytes::AsBytes;
use art_nodes::OpaqueNodePtr;
use std::alloc::AllocError;
use std::iter::FusedIterator;
use std::marker::{Model, PhantomData};

/// An iterator over the pairs of a run of leaves in order, from either end. A contract sees it as the list of those
/// still to come. It does not know how many they are.
///
/// The last parameter is never written: it tells the borrow check that the arena lives as long as it is lent.
#[derive(Drop)]
pub struct Range<'a, K, V, const PREFIX_LEN: usize, M: 'a = NodeArena<K, V, PREFIX_LEN>> {
    arena: &'a NodeArena<K, V, PREFIX_LEN>,
    leaves: RawIterator,
    root: Option<OpaqueNodePtr>,
    pub(crate) ahead: Prefetcher,
    mark: PhantomData<M>,
}

impl<'a, K, V, const PREFIX_LEN: usize, M: 'a> Model for Range<'a, K, V, PREFIX_LEN, M> {
    ghost use Rattle.std.specs.Prelude.{List};
    ghost use Rattle.art_walks.specs.Walked.{IsCounted, leaves_left, pairs_left};

    ghost Value = { List (K × V) };

    ghost view = { λ it. pairs_left it.arena.now it.leaves };

    ghost invariant = { λ it. IsCounted it.arena.now it.leaves (leaves_left it.arena.now it.leaves) };
}

impl<'a, K: AsBytes, V, const PREFIX_LEN: usize> Range<'a, K, V, PREFIX_LEN> {
    /// Returns an iterator over a run of leaves, which are linked neighbours in this arena.
    pub fn new(
        arena: &'a NodeArena<K, V, PREFIX_LEN>,
        leaves: RawIterator,
        root: Option<OpaqueNodePtr>,
    ) -> Self
        requires { (n : ℕ) × IsCounted arena.now leaves n }
        ensures { (n : ℕ) (run : IsCounted arena.now leaves n) → result ≡ pairs_of run.leaves }
    {
        Range {
            arena,
            leaves,
            root,
            ahead: Prefetcher::new(),
            mark: PhantomData,
        }
    }
}

impl<'a, K, V, const PREFIX_LEN: usize> Clone for Range<'a, K, V, PREFIX_LEN> {
    ghost is_clone = { λ original copy. copy ≡ original };

    ghost is_infallible = { λ _. ⊤ };

    fn clone(&self) -> Result<Self, AllocError> {
        Ok(Range {
            arena: self.arena,
            leaves: self.leaves,
            root: self.root,
            ahead: self.ahead.duplicate(),
            mark: PhantomData,
        })
    }
}

impl<'a, K: AsBytes, V, const PREFIX_LEN: usize> Iterator for Range<'a, K, V, PREFIX_LEN> {
    type Item = (&'a K, &'a V);

    ghost next_gives = { TakesFirst deref_pair };

    ghost remaining = { λ rest. at_most (length rest) };

    #[inline]
    fn next(&mut self) -> Option<(&'a K, &'a V)> {
        let arena = self.arena;
        self.ahead.step(arena, self.root, self.leaves);
        let leaf = match self.leaves.next(arena) {
            Some(leaf) => leaf,
            None => return None,
        };
        Some(arena.as_key_value_ref(leaf))
    }
}

impl<'a, K: AsBytes, V, const PREFIX_LEN: usize> FusedIterator for Range<'a, K, V, PREFIX_LEN> {}

impl<'a, K: AsBytes, V, const PREFIX_LEN: usize> DoubleEndedIterator
    for Range<'a, K, V, PREFIX_LEN> {
    ghost next_back_gives = { TakesLast deref_pair };

    #[inline]
    fn next_back(&mut self) -> Option<(&'a K, &'a V)> {
        let arena = self.arena;
        self.ahead.stop();
        let leaf = match self.leaves.next_back(arena) {
            Some(leaf) => leaf,
            None => return None,
        };
        Some(arena.as_key_value_ref(leaf))
    }
}

/// An iterator over the pairs of the leaves whose keys begin with a prefix, in order, from either end.
pub type Prefix<'a, K, V, const PREFIX_LEN: usize> = Range<'a, K, V, PREFIX_LEN>;

/// An iterator over the pairs of the leaves below one node of a tree in order, from either end. Their keys are those
/// that begin with the prefix that leads to the node.
pub type SubtreeIter<'a, K, V, const PREFIX_LEN: usize> = Range<'a, K, V, PREFIX_LEN>;

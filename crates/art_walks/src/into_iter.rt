//! Iterators that own the pairs of a run of leaves, and give them away.
ghost use Rattle.std.specs.Prelude.{◌≡◌, IfSome, Some, length};
ghost use Rattle.std.specs.Iterator.{UpTo, at_most};
ghost use Rattle.std.specs.Iterator.SizeHint.{IsWithinCount};
ghost use Rattle.std.specs.Map.{keys_of, values_of};
ghost use Rattle.std.specs.Map.Iter.{TakesFirst, TakesLast};
ghost use Rattle.art_arena.specs.arena.Shapes.{pairs_of};
ghost use Rattle.art_walks.specs.Walked.{IsCounted};

use crate::prefetch::Prefetcher;
use crate::raw_iterator::RawIterator;
use art_arena::NodeArena;
use art_bytes::AsBytes;
use art_nodes::{LeafNode, OpaqueNodePtr};
use std::iter::FusedIterator;
use std::marker::Model;

/// An iterator over the pairs of a run of leaves in order, from either end. A contract sees it as the list of those
/// still to come.
///
/// It owns the arena, and takes the leaf of each pair out of it. If it is dropped, the pairs still to come are dropped
/// with it.
#[derive(Drop)]
pub struct IntoIter<K, V, const PREFIX_LEN: usize> {
    arena: NodeArena<K, V, PREFIX_LEN>,
    leaves: RawIterator,
    len: usize,
    root: Option<OpaqueNodePtr>,
    ahead: Prefetcher,
}

impl<K, V, const PREFIX_LEN: usize> Model for IntoIter<K, V, PREFIX_LEN> {
    ghost use Rattle.std.specs.Prelude.{List};
    ghost use Rattle.art_walks.specs.Walked.{IsRest, pairs_along, start_of};

    ghost Value = { List (K × V) };

    ghost view = { λ it. pairs_along it.len it.arena (start_of it.leaves) };

    ghost invariant = { λ it. IsRest it.arena it.leaves it.len };
}

impl<K, V, const PREFIX_LEN: usize> IntoIter<K, V, PREFIX_LEN> {
    /// Returns an iterator over a run of exactly so many leaves, which are linked neighbours in this arena. It reads
    /// ahead in the tree below this root, if there is one.
    pub fn new(
        arena: NodeArena<K, V, PREFIX_LEN>,
        leaves: RawIterator,
        len: usize,
        root: Option<OpaqueNodePtr>,
    ) -> Self
        requires { IsCounted arena leaves len }
        ensures { (run : IsCounted arena leaves len) → result ≡ pairs_of run.leaves }
    {
        let ahead = Prefetcher::new();
        IntoIter {
            arena,
            leaves,
            len,
            root,
            ahead,
        }
    }
}

impl<K: AsBytes + Drop, V: Drop, const PREFIX_LEN: usize> Iterator for IntoIter<K, V, PREFIX_LEN> {
    type Item = (K, V);

    ghost next_gives = { TakesFirst (λ pair. pair) };

    ghost remaining = { λ rest. at_most (length rest) };

    #[inline]
    fn next(&mut self) -> Option<(K, V)> {
        let (first, last) = self.leaves.ends()?;
        self.ahead.step(&self.arena, self.root, self.leaves);
        let leaf = self.arena.deallocate_node_ptr::<LeafNode<K, V>>(first);
        self.leaves = RawIterator::after(first, last, leaf.next());
        self.len -= 1;
        Some(leaf.into_entry())
    }

    fn size_hint(&self) -> (usize, Option<usize>)
        ensures lower { IsWithinCount result.0 (at_most (length self.now)) }
        ensures upper { IfSome result.1 (UpTo (at_most (length self.now))) }
        ensures exact { result ≡ (length self.now, Some (length self.now)) }
    {
        let len = self.len();
        (len, Some(len))
    }
}

impl<K: AsBytes + Drop, V: Drop, const PREFIX_LEN: usize> FusedIterator
    for IntoIter<K, V, PREFIX_LEN> {}

impl<K: AsBytes + Drop, V: Drop, const PREFIX_LEN: usize> DoubleEndedIterator
    for IntoIter<K, V, PREFIX_LEN> {
    ghost next_back_gives = { TakesLast (λ pair. pair) };

    #[inline]
    fn next_back(&mut self) -> Option<(K, V)> {
        let (first, last) = self.leaves.ends()?;
        self.ahead.stop();
        let leaf = self.arena.deallocate_node_ptr::<LeafNode<K, V>>(last);
        self.leaves = RawIterator::before(first, last, leaf.previous());
        self.len -= 1;
        Some(leaf.into_entry())
    }
}

impl<K: AsBytes + Drop, V: Drop, const PREFIX_LEN: usize> ExactSizeIterator
    for IntoIter<K, V, PREFIX_LEN> {
    fn len(&self) -> usize {
        self.len
    }
}

/// An iterator over the keys of a run of leaves in order, from either end. A contract sees it as the list of those
/// still to come.
///
/// It owns the arena, as `IntoIter` does, and drops each value.
#[derive(Drop)]
pub struct IntoKeys<K, V, const PREFIX_LEN: usize> {
    inner: IntoIter<K, V, PREFIX_LEN>,
}

impl<K, V, const PREFIX_LEN: usize> Model for IntoKeys<K, V, PREFIX_LEN> {
    ghost use Rattle.std.specs.Prelude.{List};
    ghost use Rattle.std.specs.Map.{keys_of};

    ghost Value = { List K };

    ghost view = { λ it. keys_of it.inner };
}

impl<K, V, const PREFIX_LEN: usize> IntoKeys<K, V, PREFIX_LEN> {
    /// Returns an iterator over the keys of these pairs.
    pub fn new(pairs: IntoIter<K, V, PREFIX_LEN>) -> Self
        ensures { result ≡ keys_of pairs }
    {
        IntoKeys { inner: pairs }
    }
}

impl<K: AsBytes + Drop, V: Drop, const PREFIX_LEN: usize> Iterator for IntoKeys<K, V, PREFIX_LEN> {
    type Item = K;

    ghost next_gives = { TakesFirst (λ key. key) };

    ghost remaining = { λ rest. at_most (length rest) };

    #[inline]
    fn next(&mut self) -> Option<K> {
        let (key, _) = self.inner.next()?;
        Some(key)
    }

    fn size_hint(&self) -> (usize, Option<usize>)
        ensures lower { IsWithinCount result.0 (at_most (length self.now)) }
        ensures upper { IfSome result.1 (UpTo (at_most (length self.now))) }
        ensures exact { result ≡ (length self.now, Some (length self.now)) }
    {
        self.inner.size_hint()
    }
}

impl<K: AsBytes + Drop, V: Drop, const PREFIX_LEN: usize> FusedIterator
    for IntoKeys<K, V, PREFIX_LEN> {}

impl<K: AsBytes + Drop, V: Drop, const PREFIX_LEN: usize> DoubleEndedIterator
    for IntoKeys<K, V, PREFIX_LEN> {
    ghost next_back_gives = { TakesLast (λ key. key) };

    #[inline]
    fn next_back(&mut self) -> Option<K> {
        let (key, _) = self.inner.next_back()?;
        Some(key)
    }
}

impl<K: AsBytes + Drop, V: Drop, const PREFIX_LEN: usize> ExactSizeIterator
    for IntoKeys<K, V, PREFIX_LEN> {
    fn len(&self) -> usize {
        self.inner.len()
    }
}

/// An iterator over the values of a run of leaves in order, from either end. A contract sees it as the list of those
/// still to come.
///
/// It owns the arena, as `IntoIter` does, and drops each key.
#[derive(Drop)]
pub struct IntoValues<K, V, const PREFIX_LEN: usize> {
    inner: IntoIter<K, V, PREFIX_LEN>,
}

impl<K, V, const PREFIX_LEN: usize> Model for IntoValues<K, V, PREFIX_LEN> {
    ghost use Rattle.std.specs.Prelude.{List};
    ghost use Rattle.std.specs.Map.{values_of};

    ghost Value = { List V };

    ghost view = { λ it. values_of it.inner };
}

impl<K, V, const PREFIX_LEN: usize> IntoValues<K, V, PREFIX_LEN> {
    /// Returns an iterator over the values of these pairs.
    pub fn new(pairs: IntoIter<K, V, PREFIX_LEN>) -> Self
        ensures { result ≡ values_of pairs }
    {
        IntoValues { inner: pairs }
    }
}

impl<K: AsBytes + Drop, V: Drop, const PREFIX_LEN: usize> Iterator
    for IntoValues<K, V, PREFIX_LEN> {
    type Item = V;

    ghost next_gives = { TakesFirst (λ value. value) };

    ghost remaining = { λ rest. at_most (length rest) };

    #[inline]
    fn next(&mut self) -> Option<V> {
        let (_, value) = self.inner.next()?;
        Some(value)
    }

    fn size_hint(&self) -> (usize, Option<usize>)
        ensures lower { IsWithinCount result.0 (at_most (length self.now)) }
        ensures upper { IfSome result.1 (UpTo (at_most (length self.now))) }
        ensures exact { result ≡ (length self.now, Some (length self.now)) }
    {
        self.inner.size_hint()
    }
}

impl<K: AsBytes + Drop, V: Drop, const PREFIX_LEN: usize> FusedIterator
    for IntoValues<K, V, PREFIX_LEN> {}

impl<K: AsBytes + Drop, V: Drop, const PREFIX_LEN: usize> DoubleEndedIterator
    for IntoValues<K, V, PREFIX_LEN> {
    ghost next_back_gives = { TakesLast (λ value. value) };

    #[inline]
    fn next_back(&mut self) -> Option<V> {
        let (_, value) = self.inner.next_back()?;
        Some(value)
    }
}

impl<K: AsBytes + Drop, V: Drop, const PREFIX_LEN: usize> ExactSizeIterator
    for IntoValues<K, V, PREFIX_LEN> {
    fn len(&self) -> usize {
        self.inner.len()
    }
}

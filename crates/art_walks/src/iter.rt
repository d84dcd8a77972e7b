//! Iterators that lend the pairs of a run of leaves.
ghost use Rattle.std.specs.Prelude.{◌≡◌, IfSome, Some, length, ⊤};
ghost use Rattle.std.specs.Iterator.{UpTo, at_most};
ghost use Rattle.std.specs.Iterator.SizeHint.{IsWithinCount};
ghost use Rattle.std.specs.Map.{keys_of, values_of};
ghost use Rattle.std.specs.Map.Iter.{TakesFirst, TakesLast, deref, deref_pair};
ghost use Rattle.art_arena.specs.arena.Shapes.{pairs_of};
ghost use Rattle.art_walks.specs.Walked.{IsCounted};

use crate::range::Range;
use crate::raw_iterator::RawIterator;
use art_arena::NodeArena;
use art_bytes::AsBytes;
use art_nodes::OpaqueNodePtr;
use std::alloc::AllocError;
use std::iter::FusedIterator;
use std::marker::Model;

/// An iterator over the pairs of a run of leaves in order, from either end. A contract sees it as the list of those
/// still to come.
#[derive(Drop)]
pub struct Iter<'a, K, V, const PREFIX_LEN: usize, M: 'a = NodeArena<K, V, PREFIX_LEN>> {
    inner: Range<'a, K, V, PREFIX_LEN, M>,
    len: usize,
}

impl<'a, K, V, const PREFIX_LEN: usize, M: 'a> Model for Iter<'a, K, V, PREFIX_LEN, M> {
    ghost use Rattle.std.specs.Prelude.{◌≡◌, List, length};

    ghost Value = { List (K × V) };

    ghost view = { λ it. it.inner };

    ghost invariant = { λ it. it.len ≡ length it.inner };
}

impl<'a, K: AsBytes, V, const PREFIX_LEN: usize> Iter<'a, K, V, PREFIX_LEN> {
    /// Returns an iterator over a run of exactly so many leaves, which are linked neighbours in this arena.
    pub fn new(
        arena: &'a NodeArena<K, V, PREFIX_LEN>,
        leaves: RawIterator,
        len: usize,
        root: Option<OpaqueNodePtr>,
    ) -> Self
        requires { IsCounted arena.now leaves len }
        ensures { (run : IsCounted arena.now leaves len) → result ≡ pairs_of run.leaves }
    {
        Iter {
            inner: Range::new(arena, leaves, root),
            len,
        }
    }

    /// Returns the same iterator, which reads nothing ahead: for a caller that does so itself.
    pub fn one_by_one(mut self) -> Self
        ensures { result ≡ self.entry }
    {
        self.inner.ahead.stop();
        self
    }
}

impl<'a, K, V, const PREFIX_LEN: usize> Clone for Iter<'a, K, V, PREFIX_LEN> {
    ghost is_clone = { λ original copy. copy ≡ original };

    ghost is_infallible = { λ _. ⊤ };

    fn clone(&self) -> Result<Self, AllocError> {
        Ok(Iter {
            inner: self.inner.clone()?,
            len: self.len,
        })
    }
}

impl<'a, K: AsBytes, V, const PREFIX_LEN: usize> Iterator for Iter<'a, K, V, PREFIX_LEN> {
    type Item = (&'a K, &'a V);

    ghost next_gives = { TakesFirst deref_pair };

    ghost remaining = { λ rest. at_most (length rest) };

    #[inline]
    fn next(&mut self) -> Option<(&'a K, &'a V)> {
        match self.inner.next() {
            Some(pair) => {
                self.len -= 1;
                Some(pair)
            }
            None => None,
        }
    }

    fn size_hint(&self) -> (usize, Option<usize>)
        ensures lower { IsWithinCount result.0 (at_most (length self.now)) }
        ensures upper { IfSome result.1 (UpTo (at_most (length self.now))) }
        ensures exact { result ≡ (length self.now, Some (length self.now)) }
    {
        let len = self.len();
        (len, Some(len))
    }
}

impl<'a, K: AsBytes, V, const PREFIX_LEN: usize> FusedIterator for Iter<'a, K, V, PREFIX_LEN> {}

impl<'a, K: AsBytes, V, const PREFIX_LEN: usize> DoubleEndedIterator
    for Iter<'a, K, V, PREFIX_LEN> {
    ghost next_back_gives = { TakesLast deref_pair };

    #[inline]
    fn next_back(&mut self) -> Option<(&'a K, &'a V)> {
        match self.inner.next_back() {
            Some(pair) => {
                self.len -= 1;
                Some(pair)
            }
            None => None,
        }
    }
}

impl<'a, K: AsBytes, V, const PREFIX_LEN: usize> ExactSizeIterator for Iter<'a, K, V, PREFIX_LEN> {
    fn len(&self) -> usize {
        self.len
    }
}

/// An iterator over the keys of a run of leaves in order, from either end. A contract sees it as the list of those
/// still to come.
#[derive(Drop)]
pub struct Keys<'a, K, V, const PREFIX_LEN: usize, M: 'a = NodeArena<K, V, PREFIX_LEN>> {
    inner: Iter<'a, K, V, PREFIX_LEN, M>,
}

impl<'a, K, V, const PREFIX_LEN: usize, M: 'a> Model for Keys<'a, K, V, PREFIX_LEN, M> {
    ghost use Rattle.std.specs.Prelude.{List};
    ghost use Rattle.std.specs.Map.{keys_of};

    ghost Value = { List K };

    ghost view = { λ it. keys_of it.inner };
}

impl<'a, K, V, const PREFIX_LEN: usize> Keys<'a, K, V, PREFIX_LEN> {
    /// Returns an iterator over the keys of these pairs.
    pub fn new(pairs: Iter<'a, K, V, PREFIX_LEN>) -> Self
        ensures { result ≡ keys_of pairs.entry }
    {
        Keys { inner: pairs }
    }
}

impl<'a, K, V, const PREFIX_LEN: usize> Clone for Keys<'a, K, V, PREFIX_LEN> {
    ghost is_clone = { λ original copy. copy ≡ original };

    ghost is_infallible = { λ _. ⊤ };

    fn clone(&self) -> Result<Self, AllocError> {
        Ok(Keys {
            inner: self.inner.clone()?,
        })
    }
}

impl<'a, K: AsBytes, V, const PREFIX_LEN: usize> Iterator for Keys<'a, K, V, PREFIX_LEN> {
    type Item = &'a K;

    ghost next_gives = { TakesFirst deref };

    ghost remaining = { λ rest. at_most (length rest) };

    #[inline]
    fn next(&mut self) -> Option<&'a K> {
        let (key, _) = self.inner.next()?;
        Some(key)
    }

    fn size_hint(&self) -> (usize, Option<usize>)
        ensures lower { IsWithinCount result.0 (at_most (length self.now)) }
        ensures upper { IfSome result.1 (UpTo (at_most (length self.now))) }
        ensures exact { result ≡ (length self.now, Some (length self.now)) }
    {
        self.inner.size_hint()
    }
}

impl<'a, K: AsBytes, V, const PREFIX_LEN: usize> FusedIterator for Keys<'a, K, V, PREFIX_LEN> {}

impl<'a, K: AsBytes, V, const PREFIX_LEN: usize> DoubleEndedIterator
    for Keys<'a, K, V, PREFIX_LEN> {
    ghost next_back_gives = { TakesLast deref };

    #[inline]
    fn next_back(&mut self) -> Option<&'a K> {
        let (key, _) = self.inner.next_back()?;
        Some(key)
    }
}

impl<'a, K: AsBytes, V, const PREFIX_LEN: usize> ExactSizeIterator for Keys<'a, K, V, PREFIX_LEN> {
    fn len(&self) -> usize {
        self.inner.len()
    }
}

/// An iterator over the values of a run of leaves in order, from either end. A contract sees it as the list of those
/// still to come.
#[derive(Drop)]
pub struct Values<'a, K, V, const PREFIX_LEN: usize, M: 'a = NodeArena<K, V, PREFIX_LEN>> {
    inner: Iter<'a, K, V, PREFIX_LEN, M>,
}

impl<'a, K, V, const PREFIX_LEN: usize, M: 'a> Model for Values<'a, K, V, PREFIX_LEN, M> {
    ghost use Rattle.std.specs.Prelude.{List};
    ghost use Rattle.std.specs.Map.{values_of};

    ghost Value = { List V };

    ghost view = { λ it. values_of it.inner };
}

impl<'a, K, V, const PREFIX_LEN: usize> Values<'a, K, V, PREFIX_LEN> {
    /// Returns an iterator over the values of these pairs.
    pub fn new(pairs: Iter<'a, K, V, PREFIX_LEN>) -> Self
        ensures { result ≡ values_of pairs.entry }
    {
        Values { inner: pairs }
    }
}

impl<'a, K, V, const PREFIX_LEN: usize> Clone for Values<'a, K, V, PREFIX_LEN> {
    ghost is_clone = { λ original copy. copy ≡ original };

    ghost is_infallible = { λ _. ⊤ };

    fn clone(&self) -> Result<Self, AllocError> {
        Ok(Values {
            inner: self.inner.clone()?,
        })
    }
}

impl<'a, K: AsBytes, V, const PREFIX_LEN: usize> Iterator for Values<'a, K, V, PREFIX_LEN> {
    type Item = &'a V;

    ghost next_gives = { TakesFirst deref };

    ghost remaining = { λ rest. at_most (length rest) };

    #[inline]
    fn next(&mut self) -> Option<&'a V> {
        let (_, value) = self.inner.next()?;
        Some(value)
    }

    fn size_hint(&self) -> (usize, Option<usize>)
        ensures lower { IsWithinCount result.0 (at_most (length self.now)) }
        ensures upper { IfSome result.1 (UpTo (at_most (length self.now))) }
        ensures exact { result ≡ (length self.now, Some (length self.now)) }
    {
        self.inner.size_hint()
    }
}

impl<'a, K: AsBytes, V, const PREFIX_LEN: usize> FusedIterator for Values<'a, K, V, PREFIX_LEN> {}

impl<'a, K: AsBytes, V, const PREFIX_LEN: usize> DoubleEndedIterator
    for Values<'a, K, V, PREFIX_LEN> {
    ghost next_back_gives = { TakesLast deref };

    #[inline]
    fn next_back(&mut self) -> Option<&'a V> {
        let (_, value) = self.inner.next_back()?;
        Some(value)
    }
}

impl<'a, K: AsBytes, V, const PREFIX_LEN: usize> ExactSizeIterator
    for Values<'a, K, V, PREFIX_LEN> {
    fn len(&self) -> usize {
        self.inner.len()
    }
}

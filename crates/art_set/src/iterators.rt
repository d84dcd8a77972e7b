//! Iterators over the keys of one set.
ghost use Rattle.std.specs.Prelude.{◌≡◌, length, ⊤};
ghost use Rattle.std.specs.Iterator.{at_most};
ghost use Rattle.std.specs.Map.{keys_of};
ghost use Rattle.std.specs.Map.Iter.{TakesFirst, TakesLast, deref};

pub mod extract_if;

use art_arena::NodeArena;
use art_bytes::AsBytes;
use art_walks::{IntoKeys, Keys};
use std::alloc::AllocError;
use std::iter::FusedIterator;
use std::marker::Model;

/// An iterator over the keys of a set in order, from either end. A contract sees it as the list of those still to come.
/// A clone of it allocates nothing, and never fails.
///
/// ```
/// let mut set = TreeSet::new(rt.alloc());
/// set.extend([*b"ab", *b"ac"])?;
/// let mut keys = set.iter();
/// keys.next();
/// let again = keys.clone()?;
/// assert_eq!(rt; keys.next_back(), Some(b"ac"));
/// assert!(rt; again.eq([b"ac"]));
/// ```
pub type Iter<'a, K, const PREFIX_LEN: usize> = Keys<'a, K, (), PREFIX_LEN>;

/// An iterator over the keys of a set in order, from either end, which it owns. A contract sees it as the list of those
/// still to come.
///
/// If it is dropped, the keys still to come are dropped with it.
pub type IntoIter<K, const PREFIX_LEN: usize> = IntoKeys<K, (), PREFIX_LEN>;

/// An iterator over the keys of a range of a set in order, from either end. A contract sees it as the list of those
/// still to come. It does not know how many they are.
///
/// The last parameter is never written: it tells the borrow check that the arena lives as long as it is lent.
#[derive(Drop)]
pub struct Range<'a, K, const PREFIX_LEN: usize, M: 'a = NodeArena<K, (), PREFIX_LEN>> {
    inner: art_walks::Range<'a, K, (), PREFIX_LEN, M>,
}

/// An iterator over the keys of a set that begin with a prefix, in order, from either end. A clone of it allocates
/// nothing, and never fails.
///
/// ```
/// let mut set = TreeSet::new(rt.alloc());
/// set.extend([*b"ab", *b"ac"])?;
/// let mut keys = set.prefix(b"a");
/// keys.next();
/// let again = keys.clone()?;
/// assert_eq!(rt; keys.next_back(), Some(b"ac"));
/// assert!(rt; again.eq([b"ac"]));
/// ```
pub type Prefix<'a, K, const PREFIX_LEN: usize> = Range<'a, K, PREFIX_LEN>;

impl<'a, K, const PREFIX_LEN: usize, M: 'a> Model for Range<'a, K, PREFIX_LEN, M> {
    ghost use Rattle.std.specs.Prelude.{List};
    ghost use Rattle.std.specs.Map.{keys_of};

    ghost Value = { List K };

    ghost view = { λ it. keys_of it.inner };
}

impl<'a, K, const PREFIX_LEN: usize> Range<'a, K, PREFIX_LEN> {
    pub(crate) fn new(pairs: art_walks::Range<'a, K, (), PREFIX_LEN>) -> Self
        ensures { result ≡ keys_of pairs.entry }
    {
        Range { inner: pairs }
    }
}

/// Another iterator over the keys still to come. It allocates nothing, and never fails.
///
/// ```
/// use std::ops::Bound;
/// let mut set = TreeSet::new(rt.alloc());
/// set.extend([*b"ab", *b"ac"])?;
/// let mut keys = set.range(Bound::Included(b"ab"), Bound::Unbounded);
/// keys.next();
/// let again = keys.clone()?;
/// assert_eq!(rt; keys.next_back(), Some(b"ac"));
/// assert!(rt; again.eq([b"ac"]));
/// ```
impl<'a, K, const PREFIX_LEN: usize> Clone for Range<'a, K, PREFIX_LEN> {
    ghost is_clone = { λ original copy. copy ≡ original };

    ghost is_infallible = { λ _. ⊤ };

    fn clone(&self) -> Result<Self, AllocError> {
        Ok(Range {
            inner: self.inner.clone()?,
        })
    }
}

impl<'a, K: AsBytes, const PREFIX_LEN: usize> Iterator for Range<'a, K, PREFIX_LEN> {
    type Item = &'a K;

    ghost next_gives = { TakesFirst deref };

    ghost remaining = { λ rest. at_most (length rest) };

    #[inline]
    fn next(&mut self) -> Option<&'a K> {
        let (key, _) = self.inner.next()?;
        Some(key)
    }
}

impl<'a, K: AsBytes, const PREFIX_LEN: usize> FusedIterator for Range<'a, K, PREFIX_LEN> {}

impl<'a, K: AsBytes, const PREFIX_LEN: usize> DoubleEndedIterator for Range<'a, K, PREFIX_LEN> {
    ghost next_back_gives = { TakesLast deref };

    #[inline]
    fn next_back(&mut self) -> Option<&'a K> {
        let (key, _) = self.inner.next_back()?;
        Some(key)
    }
}

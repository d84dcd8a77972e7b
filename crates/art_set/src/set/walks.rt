//! Iterators over the keys.
ghost use Rattle.std.specs.Prelude.{◌≡◌, ◌⊎◌, []};
ghost use Rattle.std.specs.Range.Bound.{bound_map};
ghost use Rattle.art_arena.specs.tree.Order.{AscendsByKey};
ghost use Rattle.art_walks.specs.Bounds.{AreValidKeyBounds};
ghost use Rattle.art_set.specs.Members.{keys_between};

use crate::iterators::{IntoIter, Iter, Range};
use crate::set::TreeSet;
use art_bytes::AsBytes;
use std::ops::Bound;

impl<K: AsBytes, const PREFIX_LEN: usize> TreeSet<K, PREFIX_LEN> {
    /// Returns an iterator over the keys. It ascends by their bytes, and gives keys from either end. It allocates
    /// nothing.
    ///
    /// ```
    /// let mut set = TreeSet::new(rt.alloc());
    /// set.extend([*b"cd", *b"ab"])?;
    /// let mut keys = set.iter();
    /// assert_eq!(rt; keys.next_back(), Some(b"cd"));
    /// assert_eq!(rt; keys.len(), 1);
    /// ```
    pub fn iter(&self) -> Iter<'_, K, PREFIX_LEN>
        ensures rest { result ≡ self.now.keys }
        ensures ordered { AscendsByKey K.bytes self.now.keys }
    {
        Iter::new(self.map.iter())
    }

    /// Returns an iterator over the keys between two bounds, by their bytes. It ascends, and gives keys from either
    /// end. It allocates nothing. The bounds' keys need not be stored.
    ///
    /// If the set has a key, the bounds have to be valid, as `bounds_are_valid` tells.
    ///
    /// ```
    /// use std::ops::Bound;
    /// let mut set = TreeSet::new(rt.alloc());
    /// set.extend([*b"ab", *b"cd", *b"ef"])?;
    /// assert!(rt; set.range(Bound::Excluded(b"ab"), Bound::Included(b"ef")).eq([b"cd", b"ef"]));
    /// ```
    pub fn range<Q: AsBytes>(&self, start: Bound<&Q>, end: Bound<&Q>) -> Range<'_, K, PREFIX_LEN>
        requires { (self.now.keys ≡ []) ⊎ AreValidKeyBounds (bound_map (λ key. Q.bytes key.now) start)
            (bound_map (λ key. Q.bytes key.now) end) }
        ensures rest { result ≡ keys_between K.bytes (bound_map (λ key. Q.bytes key.now) start.entry)
            (bound_map (λ key. Q.bytes key.now) end.entry) self.now.keys }
        ensures ordered { AscendsByKey K.bytes self.now.keys }
    {
        Range::new(self.map.range(start, end))
    }
}

/// The iterator of a loop over a set: that of `iter`.
///
/// ```
/// let mut set = TreeSet::new(rt.alloc());
/// set.extend([*b"cd", *b"ab"])?;
/// let mut firsts = Vec::new(rt.alloc());
/// for key in &set {
///     firsts.push(key[0])?;
/// }
/// assert_eq!(rt; firsts.as_slice(), b"ac".as_slice());
/// ```
impl<'a, K: AsBytes, const PREFIX_LEN: usize> IntoIterator for &'a TreeSet<K, PREFIX_LEN> {
    type Item = &'a K;

    type IntoIter = Iter<'a, K, PREFIX_LEN>;

    ghost into_iter_gives = { λ s r. r ≡ s.now.keys };

    fn into_iter(self) -> Iter<'a, K, PREFIX_LEN> {
        self.iter()
    }
}

/// An iterator over the keys, which it owns. It ascends by their bytes, and gives keys from either end. It allocates
/// nothing. If it is dropped, so are the keys still to come.
///
/// ```
/// let mut set = TreeSet::new(rt.alloc());
/// set.extend([*b"cd", *b"ab"])?;
/// assert!(rt; set.into_iter().eq([*b"ab", *b"cd"]));
/// ```
impl<K: AsBytes + Drop, const PREFIX_LEN: usize> IntoIterator for TreeSet<K, PREFIX_LEN> {
    type Item = K;

    type IntoIter = IntoIter<K, PREFIX_LEN>;

    ghost into_iter_gives = { λ s r. r ≡ s.keys };

    fn into_iter(self) -> IntoIter<K, PREFIX_LEN> {
        let TreeSet { alloc: _, map } = self;
        map.into_keys()
    }
}

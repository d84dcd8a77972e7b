//! Iterators over the pairs, the keys and the values.
ghost use Rattle.std.specs.Prelude.{◌≡◌, length};
ghost use Rattle.std.specs.Map.{keys_of, values_of};
ghost use Rattle.art_arena.specs.arena.Shapes.{key_of};
ghost use Rattle.art_arena.specs.tree.Order.{AscendsByKey};
ghost use Rattle.art_map.specs.Walked.{IsWalkOf};

use crate::map::TreeMap;
use art_bytes::AsBytes;
use art_operations::{maximum_unchecked, minimum_unchecked};
use art_walks::{Iter, Keys, RawIterator, Values};

impl<K: AsBytes, V, const PREFIX_LEN: usize> TreeMap<K, V, PREFIX_LEN> {
    // The run of all leaves.
    pub(crate) fn walk(&self) -> RawIterator
        ensures { IsWalkOf self.now.nodes result self.now.pairs }
    {
        match self.root {
            Some(root) => RawIterator::new(
                minimum_unchecked(&self.arena, root),
                maximum_unchecked(&self.arena, root),
            ),
            None => RawIterator::empty(),
        }
    }

    /// Returns an iterator over the pairs. It ascends by the bytes of their keys, and gives pairs from either end.
    ///
    /// ```
    /// let mut map = TreeMap::new(rt.alloc());
    /// map.extend([(*b"cd", 2), (*b"ab", 1)])?;
    /// let mut pairs = map.iter();
    /// assert_eq!(rt; pairs.next_back(), Some((b"cd", &2)));
    /// assert_eq!(rt; pairs.len(), 1);
    /// ```
    pub fn iter(&self) -> Iter<'_, K, V, PREFIX_LEN>
        ensures rest { result ≡ self.now.pairs }
        ensures ordered { AscendsByKey (key_of K.bytes) self.now.pairs }
    {
        let walk = self.walk();
        let len = self.len();
        Iter::new(&self.arena, walk, len, self.root)
    }

    /// Returns an iterator over the keys. It ascends by their bytes, and gives keys from either end.
    ///
    /// ```
    /// let mut map = TreeMap::new(rt.alloc());
    /// map.extend([(*b"cd", 2), (*b"ab", 1)])?;
    /// assert!(rt; map.keys().eq([b"ab", b"cd"]));
    /// ```
    pub fn keys(&self) -> Keys<'_, K, V, PREFIX_LEN>
        ensures { result ≡ keys_of self.now.pairs }
    {
        Keys::new(self.iter())
    }

    /// Returns an iterator over the values. It ascends by the bytes of their keys, and gives values from either end.
    ///
    /// ```
    /// let mut map = TreeMap::new(rt.alloc());
    /// map.extend([(*b"cd", 2), (*b"ab", 1)])?;
    /// assert!(rt; map.values().eq([&1, &2]));
    /// ```
    pub fn values(&self) -> Values<'_, K, V, PREFIX_LEN>
        ensures { result ≡ values_of self.now.pairs }
    {
        Values::new(self.iter())
    }
}

/// The iterator of a loop over a map: that of `iter`.
///
/// ```
/// let mut map = TreeMap::new(rt.alloc());
/// map.extend([(*b"cd", 2), (*b"ab", 1)])?;
/// let mut told = 0;
/// for (_key, value) in &map {
///     told = 10 * told + *value;
/// }
/// assert_eq!(rt; told, 12);
/// ```
impl<'a, K: AsBytes, V, const PREFIX_LEN: usize> IntoIterator for &'a TreeMap<K, V, PREFIX_LEN> {
    type Item = (&'a K, &'a V);

    type IntoIter = Iter<'a, K, V, PREFIX_LEN>;

    ghost into_iter_gives = { λ m r. r ≡ m.now.pairs };

    fn into_iter(self) -> Iter<'a, K, V, PREFIX_LEN> {
        self.iter()
    }
}

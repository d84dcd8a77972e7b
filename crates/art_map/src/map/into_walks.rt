//! Iterators that own the pairs, the keys or the values, and give them away.
ghost use Rattle.std.specs.Prelude.{◌≡◌};
ghost use Rattle.std.specs.Map.{keys_of, values_of};

use crate::map::TreeMap;
use art_bytes::AsBytes;
use art_walks::{IntoIter, IntoKeys, IntoValues};

impl<K: AsBytes, V, const PREFIX_LEN: usize> TreeMap<K, V, PREFIX_LEN> {
    // The iterator over all pairs, which takes the map's nodes.
    fn into_pairs(self) -> IntoIter<K, V, PREFIX_LEN>
        ensures { result ≡ self.pairs }
    {
        let walk = self.walk();
        let len = self.len();
        let TreeMap {
            alloc: _,
            arena,
            root,
        } = self;
        IntoIter::new(arena, walk, len, root)
    }

    /// Returns an iterator over the keys, which it owns. It ascends by their bytes, and gives keys from either end. It
    /// allocates nothing.
    ///
    /// Each value is dropped as its key is given away. If the iterator is dropped, so are the pairs still to come.
    ///
    /// ```
    /// let mut map = TreeMap::new(rt.alloc());
    /// map.extend([(*b"cd", 2), (*b"ab", 1)])?;
    /// assert!(rt; map.into_keys().eq([*b"ab", *b"cd"]));
    /// ```
    pub fn into_keys(self) -> IntoKeys<K, V, PREFIX_LEN>
        ensures { result ≡ keys_of self.pairs }
    {
        IntoKeys::new(self.into_pairs())
    }

    /// Returns an iterator over the values, which it owns. It ascends by the bytes of their keys, and gives values from
    /// either end. It allocates nothing.
    ///
    /// Each key is dropped as its value is given away. If the iterator is dropped, so are the pairs still to come.
    ///
    /// ```
    /// let mut map = TreeMap::new(rt.alloc());
    /// map.extend([(*b"cd", 2), (*b"ab", 1)])?;
    /// assert!(rt; map.into_values().eq([1, 2]));
    /// ```
    pub fn into_values(self) -> IntoValues<K, V, PREFIX_LEN>
        ensures { result ≡ values_of self.pairs }
    {
        IntoValues::new(self.into_pairs())
    }
}

/// An iterator over the pairs, which it owns. It ascends by the bytes of their keys, and gives pairs from either end.
/// It allocates nothing. If it is dropped, so are the pairs still to come.
///
/// ```
/// let mut map = TreeMap::new(rt.alloc());
/// map.extend([(*b"cd", 2), (*b"ab", 1)])?;
/// assert!(rt; map.into_iter().eq([(*b"ab", 1), (*b"cd", 2)]));
/// ```
impl<K: AsBytes + Drop, V: Drop, const PREFIX_LEN: usize> IntoIterator
    for TreeMap<K, V, PREFIX_LEN> {
    type Item = (K, V);

    type IntoIter = IntoIter<K, V, PREFIX_LEN>;

    ghost into_iter_gives = { λ m r. r ≡ m.pairs };

    fn into_iter(self) -> IntoIter<K, V, PREFIX_LEN> {
        self.into_pairs()
    }
}

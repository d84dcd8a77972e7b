//! Iterators over the pairs of a range that is written as Rust's are: `a..b`, `a..=b`, `a..`, `..b`.
ghost use Rattle.std.specs.Prelude.{◌≡◌, ◌⊎◌, []};
ghost use Rattle.std.specs.Range.Bound.{bound_map};
ghost use Rattle.art_arena.specs.arena.Shapes.{key_of};
ghost use Rattle.art_arena.specs.tree.Order.{AscendsByKey};
ghost use Rattle.art_walks.specs.Bounds.{AreValidKeyBounds};
ghost use Rattle.art_map.specs.Ranges.{pairs_between};

use crate::map::TreeMap;
use crate::map::walks_mut::RangeMut;
use art_bytes::AsBytes;
use art_walks::Range;
use std::ops::RangeBounds;

impl<K: AsBytes, V, const PREFIX_LEN: usize> TreeMap<K, V, PREFIX_LEN> {
    ghost use Rattle.art_map.specs.LentWalks.{range_rest};

    /// Returns an iterator over the pairs whose keys are in a range, by their bytes. It ascends, and gives pairs from
    /// either end. It allocates nothing.
    ///
    /// The range is `a..b`, `a..=b`, `a..`, `..b`, `..=b` of queries or of references to them, or a pair of `Bound`s.
    /// Its ends need not be stored. If the map has a pair, the range has to be valid: its start is not greater than its
    /// end, by their bytes.
    ///
    /// ```
    /// let mut map = TreeMap::new(rt.alloc());
    /// map.extend([(*b"ab", 1), (*b"cd", 2), (*b"ef", 3)])?;
    /// assert!(rt; map.range_in(*b"ab"..*b"ef").eq([(b"ab", &1), (b"cd", &2)]));
    /// ```
    pub fn range_in<Q: AsBytes, R: RangeBounds<Q>>(&self, range: R) -> Range<'_, K, V, PREFIX_LEN>
        requires bounds { R.has_bounds range }
        requires valid { (self.now.pairs ≡ []) ⊎ AreValidKeyBounds (bound_map Q.bytes (R.start_bound range))
            (bound_map Q.bytes (R.end_bound range)) }
        ensures rest { result ≡ pairs_between K.bytes (bound_map Q.bytes (R.start_bound range))
            (bound_map Q.bytes (R.end_bound range)) self.now.pairs }
        ensures ordered { AscendsByKey (key_of K.bytes) self.now.pairs }
    {
        self.range(range.start_bound(), range.end_bound())
    }

    /// Returns an iterator over the pairs whose keys are in a range, as `range_in` does. It lends values for writing,
    /// one at a time.
    ///
    /// ```
    /// let mut map = TreeMap::new(rt.alloc());
    /// map.extend([(*b"ab", 1), (*b"cd", 2), (*b"ef", 3)])?;
    /// let mut pairs = map.range_mut_in(*b"cd"..);
    /// while let Some(value) = pairs.next() {
    ///     *value += 10;
    /// }
    /// assert!(rt; map.values().eq([&1, &12, &13]));
    /// ```
    pub fn range_mut_in<Q: AsBytes, R: RangeBounds<Q>>(
        &mut self,
        range: R,
    ) -> RangeMut<'_, K, V, PREFIX_LEN>
        requires bounds { R.has_bounds range }
        requires valid { (self.old.pairs ≡ []) ⊎ AreValidKeyBounds (bound_map Q.bytes (R.start_bound range))
            (bound_map Q.bytes (R.end_bound range)) }
        ensures same_map { (result.map.ghost_name ≡ self.entry.ghost_name) × (result.map.now ≡ self.old) }
        ensures rest { range_rest result ≡ pairs_between K.bytes (bound_map Q.bytes (R.start_bound range))
            (bound_map Q.bytes (R.end_bound range)) self.old.pairs }
    {
        self.range_mut(range.start_bound(), range.end_bound())
    }
}

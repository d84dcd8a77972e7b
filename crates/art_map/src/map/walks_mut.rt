//! Iterators over a part of a map, which lend its values for writing one at a time.
ghost use Rattle.std.specs.Prelude.{◌≡◌, ◌==◌, ◌<◌, ◌⊎◌, [], length, IfSome};
ghost use Rattle.std.specs.Range.Bound.{bound_map};
ghost use Rattle.std.specs.Borrow.{sem};
ghost use Rattle.std.specs.Map.Iter.{deref_pair_mut};
ghost use Rattle.art_arena.specs.arena.Shapes.{key_of};
ghost use Rattle.art_arena.specs.tree.Tenants.{with_front};
ghost use Rattle.art_walks.specs.Bounds.{AreValidKeyBounds};
ghost use Rattle.art_operations.specs.Pairs.{IsAtEnd};
ghost use Rattle.art_map.specs.LentRuns.{IsRunIn, left_at, run_pairs, slot_at};
ghost use Rattle.art_map.specs.Ranges.{pairs_between};

use crate::map::TreeMap;
use crate::map::extraction::next_of;
use crate::map::ranges::bytes_of;
use art_arena::{End, LeafPtr};
use art_bytes::AsBytes;
use art_walks::{Prefetcher, RawIterator};
use std::ops::Bound;

/// An iterator over a run of a map's pairs in order, from either end. It lends their values for writing, one at a time.
#[derive(Drop)]
pub struct RangeMut<'a, K: AsBytes, V, const PREFIX_LEN: usize> {
    map: &'a mut TreeMap<K, V, PREFIX_LEN>,
    leaves: RawIterator,
    ahead: Prefetcher,
    ghost valid: { ∥ IsRunIn map.now leaves ∥₁ },
}

/// An iterator over the pairs whose keys begin with a prefix, in order, from either end. It lends their values for
/// writing, one at a time.
pub type PrefixMut<'a, K, V, const PREFIX_LEN: usize> = RangeMut<'a, K, V, PREFIX_LEN>;

/// An iterator over the pairs of the leaves below a node, in order, from either end. It lends their values for writing,
/// one at a time.
pub type SubtreeIterMut<'a, K, V, const PREFIX_LEN: usize> = RangeMut<'a, K, V, PREFIX_LEN>;

impl<K: AsBytes, V, const PREFIX_LEN: usize> TreeMap<K, V, PREFIX_LEN> {
    ghost use Rattle.art_map.specs.Contents.{HasLeafAt};
    ghost use Rattle.art_map.specs.Found.{HasPairAt};
    ghost use Rattle.art_map.specs.Lends.{with_value_at};
    ghost use Rattle.art_map.specs.LentWalks.{range_rest};

    // The leaf at an end of a run, which is then without it.
    #[inline(always)]
    pub(super) fn leaf_of(&self, leaves: &mut RawIterator, end: End) -> Option<LeafPtr>
        requires { ∥ IsRunIn self.now leaves.old ∥₁ }
        ensures leaf { result ≡ slot_at end leaves.old }
        ensures left { leaves.new ≡ left_at end self.now leaves.old }
        ensures rest { IfSome result (λ leaf. HasLeafAt self.now leaf × ((p : _) → HasPairAt self.now leaf p → (w : V)
            → IsAtEnd end p (run_pairs (with_value_at self.now leaf w) leaves.new) (run_pairs self.now leaves.old))) }
    {
        next_of(leaves, &self.arena, end)
    }

    // Goes on by the leaf at an end of a run. From the front it reads ahead.
    #[inline]
    pub(super) fn read_ahead(&self, ahead: &mut Prefetcher, leaves: RawIterator, end: End) {
        match end {
            End::First => ahead.step(&self.arena, self.root, leaves),
            End::Last => ahead.stop(),
        }
    }

    /// Returns an iterator over the pairs whose keys are between two bounds, by their bytes. It ascends, and lends
    /// values for writing from either end, one at a time. It allocates nothing. The bounds' keys need not be stored.
    ///
    /// If the map has a pair, the bounds have to be valid, as `bounds_are_valid` tells.
    ///
    /// ```
    /// use std::ops::Bound;
    /// let mut map = TreeMap::new(rt.alloc());
    /// map.extend([(*b"ab", 1), (*b"cd", 2)])?;
    /// if let Some(value) = map.range_mut(Bound::Excluded(b"ab"), Bound::Included(b"cd")).next() {
    ///     *value = 7;
    /// }
    /// assert!(rt; map.values().eq([&1, &7]));
    /// ```
    pub fn range_mut<Q: AsBytes>(
        &mut self,
        start: Bound<&Q>,
        end: Bound<&Q>,
    ) -> RangeMut<'_, K, V, PREFIX_LEN>
        requires { (self.old.pairs ≡ []) ⊎ AreValidKeyBounds (bound_map (λ key. Q.bytes key.now) start)
            (bound_map (λ key. Q.bytes key.now) end) }
        ensures same_map { (result.map.ghost_name ≡ self.entry.ghost_name) × (result.map.now ≡ self.old) }
        ensures rest { range_rest result ≡ pairs_between K.bytes (bound_map (λ key. Q.bytes key.now) start.entry)
            (bound_map (λ key. Q.bytes key.now) end.entry) self.old.pairs }
    {
        let leaves = self.walk_between(bytes_of(start), bytes_of(end));
        RangeMut {
            map: self,
            leaves,
            ahead: Prefetcher::new(),
        }
    }

    /// Returns an iterator over the pairs whose keys begin with a prefix's bytes. It ascends, and lends values for
    /// writing from either end, one at a time. It allocates nothing.
    ///
    /// ```
    /// let mut map = TreeMap::new(rt.alloc());
    /// map.extend([(*b"ab", 1), (*b"ac", 2), (*b"bc", 3)])?;
    /// let mut pairs = map.prefix_mut(b"a");
    /// while let Some(value) = pairs.next() {
    ///     *value += 10;
    /// }
    /// assert!(rt; map.values().eq([&11, &12, &3]));
    /// ```
    pub fn prefix_mut<Q: AsBytes>(&mut self, prefix: &Q) -> PrefixMut<'_, K, V, PREFIX_LEN>
        ensures same_map { (result.map.ghost_name ≡ self.entry.ghost_name) × (result.map.now ≡ self.old) }
        ensures rest { range_rest result ≡ with_front (key_of K.bytes) (Q.bytes prefix.now) self.old.pairs }
    {
        let leaves = self.walk_with_prefix(prefix.as_bytes());
        RangeMut {
            map: self,
            leaves,
            ahead: Prefetcher::new(),
        }
    }

    // The pairs of a run, their values lent for writing one at a time.
    pub(super) fn run_mut(&mut self, leaves: RawIterator) -> RangeMut<'_, K, V, PREFIX_LEN>
        requires { ∥ IsRunIn self.old leaves ∥₁ }
        ensures same_map { (result.map.ghost_name ≡ self.entry.ghost_name) × (result.map.now ≡ self.old) }
        ensures rest { range_rest result ≡ run_pairs self.old leaves }
    {
        RangeMut {
            map: self,
            leaves,
            ahead: Prefetcher::new(),
        }
    }
}

impl<'a, K: AsBytes, V, const PREFIX_LEN: usize> RangeMut<'a, K, V, PREFIX_LEN> {
    ghost use Rattle.art_map.specs.LentWalks.{IsRangeEnd, IsRangeFirst, IsRangeLast, LendsValue};
    ghost use Rattle.art_map.specs.LentWalks.{lends_if_in_range, lends_in_range};
    ghost use Rattle.art_map.specs.LentWalks.{range_before, range_after, range_left, range_rest};

    /// Returns whether no pair is still to come.
    ///
    /// ```
    /// let mut map = TreeMap::new(rt.alloc());
    /// map.extend([(*b"ab", 1), (*b"bc", 2)])?;
    /// assert!(rt; map.prefix_mut(b"c").is_empty());
    /// assert!(rt; !map.prefix_mut(b"b").is_empty());
    /// ```
    pub fn is_empty(&self) -> bool
        ensures { result ≡ (length (range_rest self.now) == 0) }
    {
        let mut ahead = self.leaves;
        self.map.leaf_of(&mut ahead, End::First).is_none()
    }

    /// Lends the value of the first pair still to come for writing. It returns `None` if none is, and from then on.
    ///
    /// ```
    /// let mut map = TreeMap::new(rt.alloc());
    /// map.extend([(*b"ab", 1), (*b"ac", 2)])?;
    /// if let Some(value) = map.prefix_mut(b"a").next() {
    ///     *value = 7;
    /// }
    /// assert!(rt; map.values().eq([&7, &2]));
    /// ```
    pub fn next(&mut self) -> Option<&mut V>
        ensures* writes_back { sem 𝓛 (lends_if_in_range K.row V.row PREFIX_LEN K.AsBytes self.entry
            (range_after self.old) result) }
        ensures lent { LendsValue (IsRangeFirst self.old) (range_rest self.old) result }
    {
        if self.is_empty() {
            return None;
        }
        let (_key, value) = self.next_pair();
        Some(value)
    }

    /// Lends the value of the last pair still to come for writing. It returns `None` if none is, and from then on.
    ///
    /// ```
    /// let mut map = TreeMap::new(rt.alloc());
    /// map.extend([(*b"ab", 1), (*b"ac", 2)])?;
    /// if let Some(value) = map.prefix_mut(b"a").next_back() {
    ///     *value = 7;
    /// }
    /// assert!(rt; map.values().eq([&1, &7]));
    /// ```
    pub fn next_back(&mut self) -> Option<&mut V>
        ensures* writes_back { sem 𝓛 (lends_if_in_range K.row V.row PREFIX_LEN K.AsBytes self.entry
            (range_before self.old) result) }
        ensures lent { LendsValue (IsRangeLast self.old) (range_rest self.old) result }
    {
        if self.is_empty() {
            return None;
        }
        let (_key, value) = self.next_back_pair();
        Some(value)
    }

    /// Lends the first pair still to come, its value for writing. A pair has to be left, as `is_empty` tells.
    ///
    /// ```
    /// let mut map = TreeMap::new(rt.alloc());
    /// map.extend([(*b"ab", 1), (*b"ac", 2)])?;
    /// let mut pairs = map.prefix_mut(b"a");
    /// let (key, value) = pairs.next_pair();
    /// assert_eq!(rt; key, b"ab");
    /// *value = 7;
    /// assert_eq!(rt; map.get(b"ab"), Some(&7));
    /// ```
    pub fn next_pair(&mut self) -> (&K, &mut V)
        requires { 0 < length (range_rest self.old) }
        ensures* writes_back { sem 𝓛 (lends_in_range K.row V.row PREFIX_LEN K.AsBytes self.entry
            (range_after self.old) result.1) }
        ensures lent { IsRangeFirst self.old (deref_pair_mut result) }
    {
        self.lend(End::First)
    }

    /// Lends the last pair still to come, its value for writing. A pair has to be left, as `is_empty` tells.
    ///
    /// ```
    /// let mut map = TreeMap::new(rt.alloc());
    /// map.extend([(*b"ab", 1), (*b"ac", 2)])?;
    /// let mut pairs = map.prefix_mut(b"a");
    /// let (key, value) = pairs.next_back_pair();
    /// assert_eq!(rt; key, b"ac");
    /// *value = 7;
    /// assert_eq!(rt; map.get(b"ac"), Some(&7));
    /// ```
    pub fn next_back_pair(&mut self) -> (&K, &mut V)
        requires { 0 < length (range_rest self.old) }
        ensures* writes_back { sem 𝓛 (lends_in_range K.row V.row PREFIX_LEN K.AsBytes self.entry
            (range_before self.old) result.1) }
        ensures lent { IsRangeLast self.old (deref_pair_mut result) }
    {
        self.lend(End::Last)
    }

    // Lends the pair at an end of those still to come, its value for writing.
    #[inline(always)]
    fn lend(&mut self, end: End) -> (&K, &mut V)
        requires { 0 < length (range_rest self.old) }
        ensures* writes_back { sem 𝓛 (lends_in_range K.row V.row PREFIX_LEN K.AsBytes self.entry
            (range_left end self.old) result.1) }
        ensures lent { IsRangeEnd end self.old (deref_pair_mut result) }
    {
        self.map.read_ahead(&mut self.ahead, self.leaves, end);
        let leaf = match self.map.leaf_of(&mut self.leaves, end) {
            Some(leaf) => leaf,
            None => unreachable!(),
        };
        self.map.pair_mut_at(leaf)
    }
}

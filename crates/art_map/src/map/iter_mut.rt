//! Iterators over all pairs of a map, which lend its values for writing one at a time.
ghost use Rattle.std.specs.Prelude.{◌≡◌, ◌==◌, ◌<◌, length};
ghost use Rattle.std.specs.Borrow.{sem};
ghost use Rattle.std.specs.Map.Iter.{deref_pair_mut};
ghost use Rattle.art_walks.specs.Walked.{leaves_left};
ghost use Rattle.art_map.specs.LentRuns.{IsRunIn};

use crate::map::TreeMap;
use art_arena::End;
use art_bytes::AsBytes;
use art_walks::{Prefetcher, RawIterator};

/// An iterator over all pairs of a map in order, from either end. It lends their values for writing, one at a time.
#[derive(Drop)]
pub struct IterMut<'a, K: AsBytes, V, const PREFIX_LEN: usize> {
    map: &'a mut TreeMap<K, V, PREFIX_LEN>,
    leaves: RawIterator,
    len: usize,
    ahead: Prefetcher,
    ghost valid: { ∥ IsRunIn map.now leaves ∥₁ },
    ghost counted: { len ≡ leaves_left map.now.nodes leaves },
}

/// An iterator over all values of a map in the order of their keys, from either end. It lends them for writing, one at
/// a time.
pub type ValuesMut<'a, K, V, const PREFIX_LEN: usize> = IterMut<'a, K, V, PREFIX_LEN>;

impl<K: AsBytes, V, const PREFIX_LEN: usize> TreeMap<K, V, PREFIX_LEN> {
    ghost use Rattle.art_map.specs.LentIters.{iter_rest};

    /// Returns an iterator over the pairs. It ascends by the bytes of their keys, and lends values for writing from
    /// either end, one at a time.
    ///
    /// ```
    /// let mut map = TreeMap::new(rt.alloc());
    /// map.extend([(*b"ab", 1), (*b"cd", 2)])?;
    /// let mut pairs = map.iter_mut();
    /// while !pairs.is_empty() {
    ///     let (key, value) = pairs.next_pair();
    ///     *value += i32::from(key[0] == b'c');
    /// }
    /// assert!(rt; map.values().eq([&1, &3]));
    /// ```
    pub fn iter_mut(&mut self) -> IterMut<'_, K, V, PREFIX_LEN>
        ensures same_map { (result.map.ghost_name ≡ self.entry.ghost_name) × (result.map.now ≡ self.old) }
        ensures rest { iter_rest result ≡ self.old.pairs }
    {
        let leaves = self.walk();
        let len = self.len();
        IterMut {
            map: self,
            leaves,
            len,
            ahead: Prefetcher::new(),
        }
    }

    /// Returns an iterator over the values. It ascends by the bytes of their keys, and lends values for writing from
    /// either end, one at a time.
    ///
    /// ```
    /// let mut map = TreeMap::new(rt.alloc());
    /// map.extend([(*b"ab", 1), (*b"cd", 2)])?;
    /// let mut values = map.values_mut();
    /// while let Some(value) = values.next() {
    ///     *value += 10;
    /// }
    /// assert!(rt; map.values().eq([&11, &12]));
    /// ```
    pub fn values_mut(&mut self) -> ValuesMut<'_, K, V, PREFIX_LEN>
        ensures same_map { (result.map.ghost_name ≡ self.entry.ghost_name) × (result.map.now ≡ self.old) }
        ensures rest { iter_rest result ≡ self.old.pairs }
    {
        self.iter_mut()
    }
}

impl<'a, K: AsBytes, V, const PREFIX_LEN: usize> IterMut<'a, K, V, PREFIX_LEN> {
    ghost use Rattle.art_map.specs.LentIters.{IsIterEnd, IsIterFirst, IsIterLast, lends_if_in_iter, lends_in_iter};
    ghost use Rattle.art_map.specs.LentIters.{iter_before, iter_after, iter_left, iter_rest};
    ghost use Rattle.art_map.specs.LentWalks.{LendsValue};

    /// Returns whether no pair is still to come.
    ///
    /// ```
    /// let mut map = TreeMap::new(rt.alloc());
    /// map.insert(*b"ab", 1)?;
    /// let mut pairs = map.iter_mut();
    /// assert!(rt; !pairs.is_empty());
    /// pairs.next();
    /// assert!(rt; pairs.is_empty());
    /// ```
    pub fn is_empty(&self) -> bool
        ensures { result ≡ (length (iter_rest self.now) == 0) }
    {
        self.len == 0
    }

    /// Returns how many pairs are still to come.
    ///
    /// ```
    /// let mut map = TreeMap::new(rt.alloc());
    /// map.extend([(*b"ab", 1), (*b"cd", 2)])?;
    /// let mut pairs = map.iter_mut();
    /// pairs.next_back();
    /// assert_eq!(rt; pairs.len(), 1);
    /// ```
    pub fn len(&self) -> usize
        ensures { result ≡ length (iter_rest self.now) }
    {
        self.len
    }

    /// Lends the value of the first pair still to come for writing. It returns `None` if none is, and from then on.
    ///
    /// ```
    /// let mut map = TreeMap::new(rt.alloc());
    /// map.extend([(*b"ab", 1), (*b"cd", 2)])?;
    /// if let Some(value) = map.iter_mut().next() {
    ///     *value = 7;
    /// }
    /// assert!(rt; map.values().eq([&7, &2]));
    /// ```
    pub fn next(&mut self) -> Option<&mut V>
        ensures* writes_back { sem 𝓛 (lends_if_in_iter K.row V.row PREFIX_LEN K.AsBytes self.entry
            (iter_after self.old) result) }
        ensures lent { LendsValue (IsIterFirst self.old) (iter_rest self.old) result }
    {
        if self.is_empty() {
            return None;
        }
        let (_key, value) = self.next_pair();
        Some(value)
    }

    /// Lends the value of the last pair still to come for writing. It returns `None` if none is, and from then on.
    ///
    /// ```
    /// let mut map = TreeMap::new(rt.alloc());
    /// map.extend([(*b"ab", 1), (*b"cd", 2)])?;
    /// if let Some(value) = map.iter_mut().next_back() {
    ///     *value = 7;
    /// }
    /// assert!(rt; map.values().eq([&1, &7]));
    /// ```
    pub fn next_back(&mut self) -> Option<&mut V>
        ensures* writes_back { sem 𝓛 (lends_if_in_iter K.row V.row PREFIX_LEN K.AsBytes self.entry
            (iter_before self.old) result) }
        ensures lent { LendsValue (IsIterLast self.old) (iter_rest self.old) result }
    {
        if self.is_empty() {
            return None;
        }
        let (_key, value) = self.next_back_pair();
        Some(value)
    }

    /// Lends the first pair still to come, its value for writing. A pair has to be left, as `is_empty` tells.
    ///
    /// ```
    /// let mut map = TreeMap::new(rt.alloc());
    /// map.insert(*b"ab", 1)?;
    /// let mut pairs = map.iter_mut();
    /// let (key, value) = pairs.next_pair();
    /// assert_eq!(rt; key, b"ab");
    /// *value = 7;
    /// assert_eq!(rt; map.get(b"ab"), Some(&7));
    /// ```
    pub fn next_pair(&mut self) -> (&K, &mut V)
        requires { 0 < length (iter_rest self.old) }
        ensures* writes_back { sem 𝓛 (lends_in_iter K.row V.row PREFIX_LEN K.AsBytes self.entry
            (iter_after self.old) result.1) }
        ensures lent { IsIterFirst self.old (deref_pair_mut result) }
    {
        self.lend(End::First)
    }

    /// Lends the last pair still to come, its value for writing. A pair has to be left, as `is_empty` tells.
    ///
    /// ```
    /// let mut map = TreeMap::new(rt.alloc());
    /// map.extend([(*b"ab", 1), (*b"cd", 2)])?;
    /// let mut pairs = map.iter_mut();
    /// let (key, value) = pairs.next_back_pair();
    /// assert_eq!(rt; key, b"cd");
    /// *value = 7;
    /// assert_eq!(rt; map.get(b"cd"), Some(&7));
    /// ```
    pub fn next_back_pair(&mut self) -> (&K, &mut V)
        requires { 0 < length (iter_rest self.old) }
        ensures* writes_back { sem 𝓛 (lends_in_iter K.row V.row PREFIX_LEN K.AsBytes self.entry
            (iter_before self.old) result.1) }
        ensures lent { IsIterLast self.old (deref_pair_mut result) }
    {
        self.lend(End::Last)
    }

    // Lends the pair at an end of those still to come, its value for writing.
    #[inline(always)]
    fn lend(&mut self, end: End) -> (&K, &mut V)
        requires { 0 < length (iter_rest self.old) }
        ensures* writes_back { sem 𝓛 (lends_in_iter K.row V.row PREFIX_LEN K.AsBytes self.entry
            (iter_left end self.old) result.1) }
        ensures lent { IsIterEnd end self.old (deref_pair_mut result) }
    {
        let mut leaves = self.leaves;
        self.map.read_ahead(&mut self.ahead, leaves, end);
        let leaf = match self.map.leaf_of(&mut leaves, end) {
            Some(leaf) => leaf,
            None => unreachable!(),
        };
        self.leaves = leaves;
        self.len -= 1;
        self.map.pair_mut_at(leaf)
    }
}

//! Iterators over the pairs between two bounds, and over those whose keys begin with a prefix.
ghost use Rattle.std.specs.Prelude.{◌≡◌, ◌⊎◌, []};
ghost use Rattle.std.specs.Range.Bound.{bound_map};
ghost use Rattle.art_arena.specs.arena.Shapes.{key_of};
ghost use Rattle.art_arena.specs.tree.Order.{AscendsByKey};
ghost use Rattle.art_arena.specs.tree.Tenants.{with_front};
ghost use Rattle.art_walks.specs.Bounds.{AreValidKeyBounds};
ghost use Rattle.art_map.specs.Ranges.{pairs_between};
ghost use Rattle.art_map.specs.Walked.{IsWalkOf};

use crate::map::TreeMap;
use art_arena::LeafPtr;
use art_bytes::AsBytes;
use art_operations::{find_prefix_segment, find_range_segment};
use art_walks::{Prefix, Range, RawIterator};
use std::ops::Bound;

// A bound of bytes: those of its key.
pub(super) fn bytes_of<Q: AsBytes>(bound: Bound<&Q>) -> Bound<&[u8]>
    ensures { bound_map (λ bytes. bytes.now) result ≡ bound_map (λ key. Q.bytes key.now) bound.entry }
{
    match bound {
        Bound::Included(key) => Bound::Included(key.as_bytes()),
        Bound::Excluded(key) => Bound::Excluded(key.as_bytes()),
        Bound::Unbounded => Bound::Unbounded,
    }
}

// The run between two leaves.
pub(super) fn walk_of(ends: Option<(LeafPtr, LeafPtr)>) -> RawIterator
    ensures { result ≡ ends }
{
    match ends {
        Some((first, last)) => RawIterator::new(first, last),
        None => RawIterator::empty(),
    }
}

impl<K: AsBytes, V, const PREFIX_LEN: usize> TreeMap<K, V, PREFIX_LEN> {
    ghost use Rattle.art_map.specs.Leaves.{IsRun};

    // The run of the leaves between two bounds.
    pub(super) fn walk_between(&self, start: Bound<&[u8]>, end: Bound<&[u8]>) -> RawIterator
        ensures walk { IsWalkOf self.now.nodes result (pairs_between K.bytes (bound_map (λ key. key.now) start.entry)
            (bound_map (λ key. key.now) end.entry) self.now.pairs) }
        ensures run { IsRun K.bytes PREFIX_LEN self.now result }
    {
        match self.root {
            Some(root) => walk_of(find_range_segment(&self.arena, root, start, end)),
            None => RawIterator::empty(),
        }
    }

    // The ends of the run of the leaves whose keys begin with these bytes.
    pub(super) fn ends_with_prefix(&self, prefix: &[u8]) -> Option<(LeafPtr, LeafPtr)>
        ensures { IsWalkOf self.now.nodes result (with_front (key_of K.bytes) prefix.now self.now.pairs) }
    {
        match self.root {
            Some(root) => find_prefix_segment(&self.arena, root, prefix),
            None => None,
        }
    }

    // The run of these leaves.
    pub(super) fn walk_with_prefix(&self, prefix: &[u8]) -> RawIterator
        ensures { IsWalkOf self.now.nodes result (with_front (key_of K.bytes) prefix.now self.now.pairs) }
    {
        walk_of(self.ends_with_prefix(prefix))
    }

    /// Returns an iterator over the pairs whose keys are between two bounds, by their bytes. It ascends, and gives
    /// pairs from either end. It allocates nothing. The bounds' keys need not be stored.
    ///
    /// If the map has a pair, the bounds have to be valid, as `bounds_are_valid` tells.
    ///
    /// ```
    /// use std::ops::Bound;
    /// let mut map = TreeMap::new(rt.alloc());
    /// map.extend([(*b"ab", 1), (*b"cd", 2), (*b"ef", 3)])?;
    /// let mut range = map.range(Bound::Included(b"b"), Bound::Included(b"f"));
    /// assert_eq!(rt; range.next(), Some((b"cd", &2)));
    /// assert_eq!(rt; range.next_back(), Some((b"ef", &3)));
    /// ```
    pub fn range<Q: AsBytes>(&self, start: Bound<&Q>, end: Bound<&Q>) -> Range<'_, K, V, PREFIX_LEN>
        requires { (self.now.pairs ≡ []) ⊎ AreValidKeyBounds (bound_map (λ key. Q.bytes key.now) start)
            (bound_map (λ key. Q.bytes key.now) end) }
        ensures rest { result ≡ pairs_between K.bytes (bound_map (λ key. Q.bytes key.now) start.entry)
            (bound_map (λ key. Q.bytes key.now) end.entry) self.now.pairs }
        ensures ordered { AscendsByKey (key_of K.bytes) self.now.pairs }
    {
        self.pairs_within(bytes_of(start), bytes_of(end))
    }

    // The pairs between two bounds of bytes.
    pub(super) fn pairs_within(
        &self,
        start: Bound<&[u8]>,
        end: Bound<&[u8]>,
    ) -> Range<'_, K, V, PREFIX_LEN>
        ensures rest { result ≡ pairs_between K.bytes (bound_map (λ key. key.now) start.entry)
            (bound_map (λ key. key.now) end.entry) self.now.pairs }
        ensures ordered { AscendsByKey (key_of K.bytes) self.now.pairs }
    {
        let walk = self.walk_between(start, end);
        Range::new(&self.arena, walk, self.root)
    }

    /// Returns an iterator over the pairs whose keys begin with a prefix's bytes. It ascends, and gives pairs from
    /// either end. It allocates nothing.
    ///
    /// ```
    /// let mut map = TreeMap::new(rt.alloc());
    /// map.extend([(*b"ab", 1), (*b"ac", 2), (*b"bc", 3)])?;
    /// assert!(rt; map.prefix(b"a").eq([(b"ab", &1), (b"ac", &2)]));
    /// ```
    pub fn prefix<Q: AsBytes>(&self, prefix: &Q) -> Prefix<'_, K, V, PREFIX_LEN>
        ensures rest { result ≡ with_front (key_of K.bytes) (Q.bytes prefix.now) self.now.pairs }
        ensures ordered { AscendsByKey (key_of K.bytes) self.now.pairs }
    {
        let walk = self.walk_with_prefix(prefix.as_bytes());
        Prefix::new(&self.arena, walk, self.root)
    }
}

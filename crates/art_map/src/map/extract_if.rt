//! `ExtractIf`: the pairs of a range that a closure picks, which leave the map; and `retain`.
ghost use Rattle.std.specs.Prelude.{◌≡◌, ◌⊎◌, ◌-◌, List, [], length, IsOk, OnErr, OnOk};
ghost use Rattle.std.specs.Iterator.{at_most, MakesProgress};
ghost use Rattle.std.specs.Map.Calls.{CallableOnEachPair, CalledAtPair, RetainsPairs, TakesPair};
ghost use Rattle.std.specs.Range.Bound.{bound_map};
ghost use Rattle.art_arena.specs.arena.Arena.{HasRoom, UsesRoom};
ghost use Rattle.art_arena.specs.arena.Shapes.{key_of};
ghost use Rattle.art_arena.specs.declared.ends.End.TheVariants.{First, Last};
ghost use Rattle.art_arena.specs.tree.Shrinks.{Shrinks};
ghost use Rattle.art_operations.specs.Frees.{FreesLeaves};
ghost use Rattle.art_walks.specs.Bounds.{AreValidKeyBounds};
ghost use Rattle.art_map.specs.LeafNames.{AddsNoLeaf, KeepsLeaves};
ghost use Rattle.art_map.specs.Ranges.{pairs_between};

use crate::map::TreeMap;
use crate::map::extraction::Extraction;
use art_arena::End;
use art_bytes::AsBytes;
use std::alloc::AllocError;
use std::iter::FusedIterator;
use std::ops::Bound;

/// An iterator over the pairs of a range of a map for which a closure returns true: these leave the map one by one. The
/// closure is called on each pair once, in turn from the end of the call, and may change its value. Pairs for which it
/// returns false stay.
///
/// If the removal of a pair fails, the iterator returns that once, and then nothing more. The pair stays, with its
/// value as the closure left it. Pairs that left before are gone, and those that come after stay as they are. If an
/// `ExtractIf` is dropped, the pairs still to come stay too.
#[derive(Drop)]
pub struct ExtractIf<'a, K: AsBytes, V, F, const PREFIX_LEN: usize> {
    extraction: Extraction<'a, K, V, PREFIX_LEN>,
    pred: F,
}

impl<'a, K: AsBytes, V, F: FnMut(&K, &mut V) -> bool, const PREFIX_LEN: usize> ExtractIf<
    'a,
    K,
    V,
    F,
    PREFIX_LEN,
> {
    ghost use Rattle.art_map.specs.Asked.{asking, CanExtractIf, ExtractsIf};

    // Calls the closure on the pairs in turn from an end, until it returns true, and takes that pair out.
    fn extract(&mut self, end: End) -> Option<Result<(K, V), AllocError>>
        requires { CanExtractIf F.FnMut self.old }
        ensures steps { ExtractsIf F.FnMut end self.old result self.new }
        ensures goes { MakesProgress (CanExtractIf F.FnMut) (λ walk. at_most (length (asking walk).left))
            self.old result self.new }
    {
        while !self.extraction.is_empty() {
            if self.extraction.ask(end, &mut self.pred) {
                return Some(self.extraction.take(end));
            }
            self.extraction.pass(end);
        }
        None
    }
}

impl<'a, K: AsBytes + Drop, V: Drop, F: FnMut(&K, &mut V) -> bool, const PREFIX_LEN: usize> Iterator
    for ExtractIf<'a, K, V, F, PREFIX_LEN> {
    type Item = Result<(K, V), AllocError>;

    ghost use Rattle.art_map.specs.Asked.{asking, CanExtractIf, ExtractsIf};

    ghost can_next = { CanExtractIf F.FnMut };

    ghost next_gives = { ExtractsIf F.FnMut First };

    ghost remaining = { λ walk. at_most (length (asking walk).left) };

    fn next(&mut self) -> Option<Result<(K, V), AllocError>> {
        self.extract(End::First)
    }
}

impl<'a, K: AsBytes, V, F: Drop, const PREFIX_LEN: usize> FusedIterator
    for ExtractIf<'a, K, V, F, PREFIX_LEN>
where
    ExtractIf<'a, K, V, F, PREFIX_LEN>: Iterator,
{}

impl<
    'a,
    K: AsBytes + Drop,
    V: Drop,
    F: FnMut(&K, &mut V) -> bool,
    const PREFIX_LEN: usize,
> DoubleEndedIterator for ExtractIf<'a, K, V, F, PREFIX_LEN> {
    ghost use Rattle.art_map.specs.Asked.{CanExtractIf, ExtractsIf};

    ghost can_next_back = { CanExtractIf F.FnMut };

    ghost next_back_gives = { ExtractsIf F.FnMut Last };

    fn next_back(&mut self) -> Option<Result<(K, V), AllocError>> {
        self.extract(End::Last)
    }
}

impl<K: AsBytes, V, const PREFIX_LEN: usize> TreeMap<K, V, PREFIX_LEN> {
    ghost use Rattle.art_map.specs.Asked.{asking, extract_map, CallableFromEnds, CanExtractIf, StopsAt};

    /// Returns an iterator over the pairs whose keys are between two bounds, by their bytes, and for which the closure
    /// returns true. They leave the map as they are asked for, from either end. It allocates nothing. The bounds' keys
    /// need not be stored.
    ///
    /// If the map has a pair, the bounds have to be valid, as `bounds_are_valid` tells. The closure has to be callable
    /// on each pair of the range, in whatever state its earlier calls leave it.
    ///
    /// ```
    /// use std::ops::Bound;
    /// let mut map = TreeMap::new(rt.alloc());
    /// map.extend([(*b"ab", 1), (*b"cd", 2), (*b"ef", 3)])?;
    /// let mut odd = map.extract_if(Bound::Included(b"ab"), Bound::Excluded(b"ef"), |_, value| *value % 2 == 1);
    /// assert_eq!(rt; odd.next(), Some(Ok((*b"ab", 1))));
    /// assert_eq!(rt; odd.next(), None);
    /// assert!(rt; map.values().eq([&2, &3]));
    /// ```
    pub fn extract_if<Q: AsBytes, F: FnMut(&K, &mut V) -> bool>(
        &mut self,
        start: Bound<&Q>,
        end: Bound<&Q>,
        pred: F,
    ) -> ExtractIf<'_, K, V, F, PREFIX_LEN>
        requires valid { (self.old.pairs ≡ []) ⊎ AreValidKeyBounds (bound_map (λ key. Q.bytes key.now) start)
            (bound_map (λ key. Q.bytes key.now) end) }
        requires callable { CallableFromEnds (CalledAtPair F.FnMut) (TakesPair F.FnMut) pred (pairs_between K.bytes
            (bound_map (λ key. Q.bytes key.now) start) (bound_map (λ key. Q.bytes key.now) end) self.old.pairs) }
        ensures same_map { ((extract_map result).ghost_name ≡ self.entry.ghost_name)
            × ((extract_map result).now ≡ self.old) }
        ensures left { (asking result).left ≡ pairs_between K.bytes (bound_map (λ key. Q.bytes key.now) start.entry)
            (bound_map (λ key. Q.bytes key.now) end.entry) self.old.pairs }
        ensures asks { (asking result).asks ≡ pred }
        ensures callable { CanExtractIf F.FnMut result }
    {
        ExtractIf {
            extraction: self.extraction(start, end),
            pred,
        }
    }

    /// Keeps the pairs for which the closure returns true, and drops the others. The closure is called on each pair in
    /// ascending order, and may change its value. It has to be callable there, whatever it returned before.
    ///
    /// Fails if the removal of a pair does, as that of `remove_entry`. That pair then stays, with its value as the
    /// closure left it. So do the pairs after it, on which the closure was not called. What was dropped before is
    /// gone.
    ///
    /// ```
    /// let mut map = TreeMap::new(rt.alloc());
    /// map.extend([(*b"ab", 1), (*b"cd", 2), (*b"ef", 3)])?;
    /// map.retain(|_key, value| *value != 2)?;
    /// assert!(rt; map.values().eq([&1, &3]));
    /// ```
    pub fn retain<F: FnMut(&K, &mut V) -> bool>(&mut self, keep: F) -> Result<(), AllocError>
    where
        K: Drop,
        V: Drop,
        requires { CallableOnEachPair (CalledAtPair F.FnMut) (TakesPair F.FnMut) keep self.old.pairs }
        ensures retained { OnOk result (RetainsPairs (CalledAtPair F.FnMut) keep self.old.pairs self.new.pairs) }
        ensures refused { OnErr result ((key : K)
            × StopsAt (CalledAtPair F.FnMut) keep self.old.pairs key self.new.pairs
            × Shrinks (key_of K.bytes) self.new.pairs (K.bytes key)) }
        ensures names { KeepsLeaves K.bytes self.old self.new }
        ensures succeeds { HasRoom self.old.nodes (length self.old.pairs) → IsOk result }
        ensures room { UsesRoom (length self.old.pairs - length self.new.pairs) self.old.nodes self.new.nodes }
        ensures leaf_room { FreesLeaves (length self.old.pairs - length self.new.pairs) self.old.nodes self.new.nodes }
    {
        self.name_leaves();
        let retained = self.drop_others(keep);
        self.name_leaves();
        retained
    }

    // Drops the pairs for which the closure returns false.
    fn drop_others<F: FnMut(&K, &mut V) -> bool>(&mut self, mut keep: F) -> Result<(), AllocError>
    where
        K: Drop,
        V: Drop,
        requires { CallableOnEachPair (CalledAtPair F.FnMut) (TakesPair F.FnMut) keep self.old.pairs }
        ensures retained { OnOk result (RetainsPairs (CalledAtPair F.FnMut) keep self.old.pairs self.new.pairs) }
        ensures refused { OnErr result ((key : K)
            × StopsAt (CalledAtPair F.FnMut) keep self.old.pairs key self.new.pairs
            × Shrinks (key_of K.bytes) self.new.pairs (K.bytes key)) }
        ensures none_new { AddsNoLeaf K.bytes self.old self.new }
        ensures succeeds { HasRoom self.old.nodes (length self.old.pairs) → IsOk result }
        ensures room { UsesRoom (length self.old.pairs - length self.new.pairs) self.old.nodes self.new.nodes }
        ensures leaf_room { FreesLeaves (length self.old.pairs - length self.new.pairs) self.old.nodes self.new.nodes }
    {
        let (_arena, _root) = self.nodes();
        let mut pairs = self.extraction_of_all();
        while !pairs.is_empty() {
            if pairs.ask(End::First, &mut keep) {
                pairs.pass_front();
            } else {
                let _pair = pairs.take(End::First)?;
            }
        }
        Ok(())
    }
}

//! `ExtractIf`: the keys of a range that a closure picks, which leave the set; and `retain`.
ghost use Rattle.std.specs.Prelude.{◌≡◌, ◌⊎◌, ◌-◌, [], is_ok, length, IfOk, IsOk, OnErr, OnOk};
ghost use Rattle.std.specs.Fn.{CalledAt, TakesAt};
ghost use Rattle.std.specs.Iterator.{at_most};
ghost use Rattle.std.specs.List.Retain.{IsFiltered};
ghost use Rattle.std.specs.Borrow.{sem};
ghost use Rattle.std.specs.Map.{keys_of};
ghost use Rattle.std.specs.Range.Bound.{bound_map};
ghost use Rattle.art_arena.specs.arena.Arena.{HasRoom, UsesRoom};
ghost use Rattle.art_arena.specs.tree.Shrinks.{Shrinks};
ghost use Rattle.art_walks.specs.Bounds.{AreValidKeyBounds};
ghost use Rattle.art_map.specs.Extractions.{left_of, map_of};
ghost use Rattle.art_operations.specs.Frees.{FreesLeaves};
ghost use Rattle.art_set.specs.LeafNames.{KeepsNames};
ghost use Rattle.art_set.specs.Members.{keys_between};

use crate::set::TreeSet;
use art_bytes::AsBytes;
use art_map::{Extraction, TreeMap};
use std::alloc::AllocError;
use std::iter::FusedIterator;
use std::ops::Bound;

// The key of a pair that was taken out.
fn key_of<K>(pair: Result<(K, ()), AllocError>) -> Result<K, AllocError>
    ensures ok { IfOk result (λ key. IfOk pair (λ p. p.0 ≡ key)) }
    ensures outcome { is_ok result ≡ is_ok pair }
{
    match pair {
        Ok((key, ())) => Ok(key),
        Err(refused) => Err(refused),
    }
}

/// An iterator over the keys of a range of a set for which a closure returns true: these leave the set one by one. The
/// closure is called on each key once, in turn. Keys for which it returns false stay.
///
/// If the removal of a key fails, the iterator returns that once, and then nothing more. The key stays. Keys that left
/// before are gone, and those that come after stay. If an `ExtractIf` is dropped, the keys still to come stay too. No
/// key gets another leaf, and for each that left there is room for one leaf more.
#[derive(Drop)]
pub struct ExtractIf<'a, K: AsBytes, F, const PREFIX_LEN: usize> {
    extraction: Extraction<'a, K, (), PREFIX_LEN>,
    pred: F,
}

impl<'a, K: AsBytes + Drop, F: FnMut(&K) -> bool, const PREFIX_LEN: usize> Iterator
    for ExtractIf<'a, K, F, PREFIX_LEN> {
    type Item = Result<K, AllocError>;

    ghost use Rattle.art_set.specs.Asked.{asking_keys, CanExtractKeys, ExtractsKeyIf};

    ghost can_next = { CanExtractKeys F.FnMut };

    ghost next_gives = { ExtractsKeyIf F.FnMut };

    ghost remaining = { λ walk. at_most (length (asking_keys walk).left) };

    fn next(&mut self) -> Option<Result<K, AllocError>> {
        while let Some((key, _)) = self.extraction.front_key_value() {
            if (self.pred)(key) {
                return Some(key_of(self.extraction.take_front()));
            }
            self.extraction.pass_front();
        }
        None
    }
}

impl<'a, K: AsBytes, F: Drop, const PREFIX_LEN: usize> FusedIterator
    for ExtractIf<'a, K, F, PREFIX_LEN>
where
    ExtractIf<'a, K, F, PREFIX_LEN>: Iterator,
{}

// All keys of a set's map, to be taken out or left there, each for itself.
fn all_of<K: AsBytes, const PREFIX_LEN: usize>(
    map: &mut TreeMap<K, (), PREFIX_LEN>,
) -> Extraction<'_, K, (), PREFIX_LEN>
    ensures same_map { ((map_of result).ghost_name ≡ map.entry.ghost_name) × ((map_of result).now ≡ map.old) }
    ensures left { left_of result ≡ map.old.pairs }
{
    map.extraction::<[u8; 0]>(Bound::Unbounded, Bound::Unbounded)
}

impl<K: AsBytes, const PREFIX_LEN: usize> TreeSet<K, PREFIX_LEN> {
    ghost use Rattle.art_set.specs.Asked.{asking_keys, extract_set, CallableOnEachKey, CanExtractKeys, StopsAtKey};
    ghost use Rattle.art_set.specs.Lends.{lends_keys};

    /// Returns an iterator over the keys between two bounds, by their bytes, for which the closure returns true. They
    /// leave the set as they are asked for. It allocates nothing. The bounds' keys need not be stored.
    ///
    /// If the set has a key, the bounds have to be valid, as `bounds_are_valid` tells. The closure has to be callable
    /// on each key of the range, in whatever state its earlier calls leave it.
    ///
    /// ```
    /// use std::ops::Bound;
    /// let mut set = TreeSet::new(rt.alloc());
    /// set.extend([*b"ab", *b"cd", *b"cf"])?;
    /// let mut taken = set.extract_if(Bound::Included(b"ab"), Bound::Included(b"cd"), |key| key[0] == b'c');
    /// assert_eq!(rt; taken.next(), Some(Ok(*b"cd")));
    /// assert_eq!(rt; taken.next(), None);
    /// assert!(rt; set.iter().eq([b"ab", b"cf"]));
    /// ```
    pub fn extract_if<Q: AsBytes, F: FnMut(&K) -> bool>(
        &mut self,
        start: Bound<&Q>,
        end: Bound<&Q>,
        pred: F,
    ) -> ExtractIf<'_, K, F, PREFIX_LEN>
        requires valid { (self.old.keys ≡ []) ⊎ AreValidKeyBounds (bound_map (λ key. Q.bytes key.now) start)
            (bound_map (λ key. Q.bytes key.now) end) }
        requires callable { CallableOnEachKey (CalledAt F.FnMut) (TakesAt F.FnMut) pred (keys_between K.bytes
            (bound_map (λ key. Q.bytes key.now) start) (bound_map (λ key. Q.bytes key.now) end) self.old.keys) }
        ensures* writes_back { sem 𝓛 (lends_keys K.row PREFIX_LEN.row K.AsBytes self.entry
            (extract_set result).ghost_name) }
        ensures keys { (asking_keys result).keys ≡ self.old.keys }
        ensures nodes { (extract_set result).now.nodes ≡ self.old.nodes }
        ensures left { (asking_keys result).left ≡ keys_between K.bytes (bound_map (λ key. Q.bytes key.now) start.entry)
            (bound_map (λ key. Q.bytes key.now) end.entry) self.old.keys }
        ensures asks { (asking_keys result).asks ≡ pred }
        ensures callable { CanExtractKeys F.FnMut result }
    {
        let map = self.map_mut();
        ExtractIf {
            extraction: map.extraction(start, end),
            pred,
        }
    }

    // The set's map, for changes.
    fn map_mut(&mut self) -> &mut TreeMap<K, (), PREFIX_LEN>
        ensures* writes_back { sem 𝓛 (lends_keys K.row PREFIX_LEN.row K.AsBytes self.entry result.ghost_name) }
        ensures keys { keys_of result.now.pairs ≡ self.old.keys }
        ensures nodes { result.now.nodes ≡ self.old.nodes }
    {
        &mut self.map
    }

    /// Keeps the keys for which the closure returns true, and drops the others. The closure is called on each key in
    /// ascending order. It has to be callable there, whatever it returned before.
    ///
    /// Fails if the removal of a key does, as that of `take`. That key then stays. So do the keys after it, on which
    /// the closure was not called. What was dropped before is gone. The keys that stay keep their leaves, and for each
    /// that went there is room for one leaf more.
    ///
    /// ```
    /// let mut set = TreeSet::new(rt.alloc());
    /// set.extend([*b"ab", *b"cd"])?;
    /// set.retain(|key| key[0] == b'c')?;
    /// assert!(rt; set.iter().eq([b"cd"]));
    /// ```
    pub fn retain<F: FnMut(&K) -> bool>(&mut self, mut keep: F) -> Result<(), AllocError>
    where
        K: Drop,
        requires { CallableOnEachKey (CalledAt F.FnMut) (TakesAt F.FnMut) keep self.old.keys }
        ensures retained { OnOk result (IsFiltered (CalledAt F.FnMut) keep self.old.keys self.new.keys) }
        ensures refused { OnErr result ((key : K) × StopsAtKey (CalledAt F.FnMut) keep self.old.keys key self.new.keys
            × Shrinks K.bytes self.new.keys (K.bytes key)) }
        ensures succeeds { HasRoom self.old.nodes (length self.old.keys) → IsOk result }
        ensures names { KeepsNames K.bytes self.old self.new }
        ensures room { UsesRoom (length self.old.keys - length self.new.keys) self.old.nodes self.new.nodes }
        ensures leaf_room { FreesLeaves (length self.old.keys - length self.new.keys) self.old.nodes self.new.nodes }
    {
        let _keys = self.iter();
        let mut keys = all_of(&mut self.map);
        while let Some((key, _)) = keys.front_key_value() {
            if keep(key) {
                keys.pass_front();
            } else {
                let _pair = keys.take_front()?;
            }
        }
        Ok(())
    }
}

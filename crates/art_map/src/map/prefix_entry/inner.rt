//! The methods of `InnerOccupiedEntry`.
ghost use Rattle.std.specs.Prelude.{◌≡◌, option_copied, Some, IfOk, IsOk, IsSome};
ghost use Rattle.std.specs.Borrow.{sem};
ghost use Rattle.std.specs.Option.{option_copied_mut};
ghost use Rattle.art_arena.specs.arena.Arena.{HasRoom};
ghost use Rattle.art_operations.specs.Insertions.{HandsPairBack};
ghost use Rattle.art_map.specs.Contents.{option_value};
ghost use Rattle.art_map.specs.Overlapped.{lone_item};

use super::{InnerOccupiedEntry, LonePair};
use crate::map::entry::OccupiedEntry;
use crate::map::prefix_entry::lone::LonePairMut;
use crate::map::walks_mut::SubtreeIterMut;
use art_bytes::AsBytes;
use art_operations::InsertRefused;
use art_walks::SubtreeIter;

impl<'a, K: AsBytes, V, const PREFIX_LEN: usize> InnerOccupiedEntry<'a, K, V, PREFIX_LEN> {
    ghost use Rattle.art_map.specs.Entries.{option_key};
    ghost use Rattle.art_map.specs.Lends.{with_value_at};
    ghost use Rattle.art_map.specs.LentWalks.{range_rest};
    ghost use Rattle.art_map.specs.LonePairs.{shown_pair};
    ghost use Rattle.art_map.specs.PrefixEntries.{lends_from_inner, lends_inner, lends_lone, map_row};
    ghost use Rattle.art_map.specs.PrefixEntries.{inner_rests, removed_pairs, with_contents};
    ghost use Rattle.art_map.specs.PrefixEntries.{IsInnerWritten, IsWithLoneValue};

    /// Returns the key that would be inserted.
    ///
    /// ```
    /// let mut map = TreeMap::new(rt.alloc());
    /// map.try_insert(StrKey("abc"), 1)?;
    /// if let PrefixEntry::Occupied(entry) = map.prefix_entry(StrKey("ab")) {
    ///     if let PrefixOccupiedKind::Inner(entry) = entry.kind() {
    ///         assert_eq!(rt; *entry.key(), StrKey("ab"));
    ///     }
    /// }
    /// ```
    pub fn key(&self) -> &K
        ensures { result.now ≡ self.now.key }
    {
        &self.key
    }

    /// Returns the value of the pair that an insertion would remove, if it is one alone.
    ///
    /// ```
    /// let mut map = TreeMap::new(rt.alloc());
    /// map.try_insert(StrKey("abc"), 1)?;
    /// if let PrefixEntry::Occupied(entry) = map.prefix_entry(StrKey("ab")) {
    ///     if let PrefixOccupiedKind::Inner(entry) = entry.kind() {
    ///         assert_eq!(rt; entry.get(), Some(&1));
    ///     }
    /// }
    /// ```
    pub fn get(&self) -> Option<&V>
        ensures { option_copied result ≡ option_value (lone_item (removed_pairs K.bytes self.now)) }
    {
        let leaf = self.map.lone_over(self.key.as_bytes())?;
        Some(self.map.pair_at(leaf).1)
    }

    /// Returns the stored key of the pair that an insertion would remove, if it is one alone.
    ///
    /// ```
    /// let mut map = TreeMap::new(rt.alloc());
    /// map.try_insert(StrKey("abc"), 1)?;
    /// if let PrefixEntry::Occupied(entry) = map.prefix_entry(StrKey("ab")) {
    ///     if let PrefixOccupiedKind::Inner(entry) = entry.kind() {
    ///         assert_eq!(rt; entry.get_key(), Some(&StrKey("abc")));
    ///     }
    /// }
    /// ```
    pub fn get_key(&self) -> Option<&K>
        ensures { option_copied result ≡ option_key (lone_item (removed_pairs K.bytes self.now)) }
    {
        let leaf = self.map.lone_over(self.key.as_bytes())?;
        Some(self.map.pair_at(leaf).0)
    }

    /// Lends the value of the pair that an insertion would remove for writing, if it is one alone.
    ///
    /// ```
    /// let mut map = TreeMap::new(rt.alloc());
    /// map.try_insert(StrKey("abc"), 1)?;
    /// if let PrefixEntry::Occupied(entry) = map.prefix_entry(StrKey("ab")) {
    ///     if let PrefixOccupiedKind::Inner(mut entry) = entry.kind() {
    ///         entry.get_mut().into_iter().for_each(|value| *value = 7);
    ///     }
    /// }
    /// assert_eq!(rt; map.get(&StrKey("abc")), Some(&7));
    /// ```
    pub fn get_mut(&mut self) -> Option<&mut V>
        ensures* writes_back { sem 𝓛 (lends_lone K.row V.row PREFIX_LEN K.AsBytes self.entry result) }
        ensures value { option_copied_mut result ≡ option_value (lone_item (removed_pairs K.bytes self.old)) }
    {
        let leaf = self.map.lone_over(self.key.as_bytes())?;
        let (_key, value) = self.map.pair_mut_at(leaf);
        Some(value)
    }

    /// Returns the pair that an insertion would remove, if it is one alone: its stored key, and its value for writing.
    ///
    /// ```
    /// let mut map = TreeMap::new(rt.alloc());
    /// map.try_insert(StrKey("abc"), 1)?;
    /// if let PrefixEntry::Occupied(entry) = map.prefix_entry(StrKey("ab")) {
    ///     if let PrefixOccupiedKind::Inner(mut entry) = entry.kind() {
    ///         entry.get_key_value_mut().value_mut().into_iter().for_each(|value| *value = 7);
    ///     }
    /// }
    /// assert_eq!(rt; map.get(&StrKey("abc")), Some(&7));
    /// ```
    pub fn get_key_value_mut(&mut self) -> LonePairMut<'_, K, V, PREFIX_LEN>
        ensures* writes_back { sem 𝓛 (lends_from_inner K.row V.row PREFIX_LEN K.AsBytes
            (map_row K.row V.row PREFIX_LEN K.AsBytes) self.entry result.map (with_contents self.old)) }
        ensures unchanged { result.map.now ≡ self.old.map.now }
        ensures pair { shown_pair result ≡ lone_item (removed_pairs K.bytes self.old) }
    {
        let leaf = self.map.lone_over(self.key.as_bytes());
        self.map.lone_pair_at(leaf)
    }

    /// Lends the pair that an insertion would remove, its value for writing. It has to be one alone, as `get` tells.
    ///
    /// ```
    /// let mut map = TreeMap::new(rt.alloc());
    /// map.try_insert(StrKey("abc"), 1)?;
    /// if let PrefixEntry::Occupied(entry) = map.prefix_entry(StrKey("ab")) {
    ///     if let PrefixOccupiedKind::Inner(mut entry) = entry.kind() {
    ///         *entry.lone_pair_mut().value = 7;
    ///     }
    /// }
    /// assert_eq!(rt; map.get(&StrKey("abc")), Some(&7));
    /// ```
    pub fn lone_pair_mut(&mut self) -> LonePair<'_, K, V>
        requires { IsSome (option_value (lone_item (removed_pairs K.bytes self.old))) }
        ensures* writes_back { sem 𝓛 (lends_from_inner K.row V.row PREFIX_LEN K.AsBytes V.row self.entry result.value
            (λ w. with_contents self.old (with_value_at self.old.map.now result.leaf w))) }
        ensures pair { lone_item (removed_pairs K.bytes self.old) ≡ Some (result.key.now, result.value.now) }
        ensures written { (w : V) → IsWithLoneValue K.bytes self.old w
            (with_contents self.old (with_value_at self.old.map.now result.leaf w)) }
    {
        let leaf = match self.map.lone_over(self.key.as_bytes()) {
            Some(leaf) => leaf,
            None => unreachable!(),
        };
        let (key, value) = self.map.pair_mut_at(leaf);
        LonePair { key, value, leaf }
    }

    /// Returns an iterator over the pairs that an insertion would remove. It ascends by the bytes of their keys, and
    /// gives pairs from either end.
    ///
    /// ```
    /// let mut map = TreeMap::new(rt.alloc());
    /// map.try_insert(StrKey("abc"), 1)?;
    /// map.try_insert(StrKey("abd"), 2)?;
    /// if let PrefixEntry::Occupied(entry) = map.prefix_entry(StrKey("ab")) {
    ///     if let PrefixOccupiedKind::Inner(entry) = entry.kind() {
    ///         assert_eq!(rt; entry.iter().count(), 2);
    ///     }
    /// }
    /// ```
    pub fn iter(&self) -> SubtreeIter<'_, K, V, PREFIX_LEN>
        ensures { result ≡ removed_pairs K.bytes self.now }
    {
        self.map.pairs_over(self.key.as_bytes())
    }

    /// Returns an iterator over the pairs that an insertion would remove. It ascends by the bytes of their keys, and
    /// lends values for writing from either end, one at a time.
    ///
    /// ```
    /// let mut map = TreeMap::new(rt.alloc());
    /// map.try_insert(StrKey("abc"), 1)?;
    /// if let PrefixEntry::Occupied(entry) = map.prefix_entry(StrKey("ab")) {
    ///     if let PrefixOccupiedKind::Inner(mut entry) = entry.kind() {
    ///         entry.iter_mut().next().into_iter().for_each(|value| *value = 7);
    ///     }
    /// }
    /// assert_eq!(rt; map.get(&StrKey("abc")), Some(&7));
    /// ```
    pub fn iter_mut(&mut self) -> SubtreeIterMut<'_, K, V, PREFIX_LEN>
        ensures* writes_back { sem 𝓛 (lends_from_inner K.row V.row PREFIX_LEN K.AsBytes
            (map_row K.row V.row PREFIX_LEN K.AsBytes) self.entry result.map (with_contents self.old)) }
        ensures unchanged { result.map.now ≡ self.old.map.now }
        ensures rest { range_rest result ≡ removed_pairs K.bytes self.old }
    {
        let leaves = self.map.walk_over(self.key.as_bytes());
        self.map.run_mut(leaves)
    }

    /// Inserts the key with this value, and removes the pairs of `iter`. The value is lent for writing as long as the
    /// map is lent.
    ///
    /// Fails only if out of memory. The error returns key and value, and the map is unchanged.
    ///
    /// ```
    /// let mut map = TreeMap::new(rt.alloc());
    /// map.try_insert(StrKey("abc"), 1)?;
    /// if let PrefixEntry::Occupied(entry) = map.prefix_entry(StrKey("ab")) {
    ///     if let PrefixOccupiedKind::Inner(entry) = entry.kind() {
    ///         assert_eq!(rt; *entry.insert(2)?, 2);
    ///     }
    /// }
    /// assert!(rt; map.keys().eq([&StrKey("ab")]));
    /// ```
    pub fn insert(self, value: V) -> Result<&'a mut V, InsertRefused<K, V>>
    where
        K: Drop,
        V: Drop,
        ensures* writes_back { sem 𝓛 (lends_inner K.row V.row PREFIX_LEN K.AsBytes self.entry result) }
        ensures value { IfOk result (λ lent. lent.now ≡ value) }
        ensures handed_back { HandsPairBack self.entry.key value result }
        ensures succeeds { HasRoom self.entry.map.now.nodes 2 → IsOk result }
    {
        let InnerOccupiedEntry { map, key, mark: _ } = self;
        let put = match map.prefix_put(key, value) {
            Ok(put) => put,
            Err(refused) => return Err(refused),
        };
        let (_key, stored) = map.pair_mut_at(put.leaf);
        Ok(stored)
    }

    /// Inserts the key with this value, removes the pairs of `iter`, and returns the key's entry. It fails as `insert`
    /// does.
    ///
    /// ```
    /// let mut map = TreeMap::new(rt.alloc());
    /// map.try_insert(StrKey("abc"), 1)?;
    /// if let PrefixEntry::Occupied(entry) = map.prefix_entry(StrKey("ab")) {
    ///     if let PrefixOccupiedKind::Inner(entry) = entry.kind() {
    ///         assert_eq!(rt; *entry.insert_entry(2)?.key(), StrKey("ab"));
    ///     }
    /// }
    /// ```
    pub fn insert_entry(
        self,
        value: V,
    ) -> Result<OccupiedEntry<'a, K, V, PREFIX_LEN>, InsertRefused<K, V>>
    where
        K: Drop,
        V: Drop,
        ensures* rests { sem 𝓛 (inner_rests K.row V.row PREFIX_LEN K.AsBytes self.entry result) }
        ensures written { IfOk result (IsInnerWritten self.entry value) }
        ensures handed_back { HandsPairBack self.entry.key value result }
        ensures succeeds { HasRoom self.entry.map.now.nodes 2 → IsOk result }
    {
        let InnerOccupiedEntry { map, key, mark: _ } = self;
        match map.prefix_put(key, value) {
            Ok(put) => Ok(OccupiedEntry::new(map, put.leaf)),
            Err(refused) => Err(refused),
        }
    }
}

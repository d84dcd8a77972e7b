//! The methods of `PrefixOccupied`.
ghost use Rattle.std.specs.Prelude.{◌≡◌, option_copied, Some, IfOk, IsOk};
ghost use Rattle.std.specs.Borrow.{sem};
ghost use Rattle.std.specs.Option.{option_copied_mut};
ghost use Rattle.art_arena.specs.arena.Arena.{KeepsRoomOf};
ghost use Rattle.art_map.specs.Contents.{option_value};

use super::{InnerOccupiedEntry, PrefixOccupied, PrefixOccupiedKind, Spot};
use crate::map::entry::OccupiedEntry;
use art_arena::LeafPtr;
use art_bytes::AsBytes;
use art_operations::InsertRefused;

impl<'a, K: AsBytes, V, const PREFIX_LEN: usize> PrefixOccupied<'a, K, V, PREFIX_LEN> {
    ghost use Rattle.art_map.specs.Entries.{option_key};
    ghost use Rattle.art_map.specs.Found.{stored_slot, IsAt};
    ghost use Rattle.art_map.specs.LeafNames.{KeepsLeaves};
    ghost use Rattle.art_map.specs.Lends.{lends_value_at, with_value_at};
    ghost use Rattle.art_map.specs.PrefixEntries.{occupied_kind, lends_prefix, lends_shown, lone_pair, occupied_map};
    ghost use Rattle.art_map.specs.PrefixEntries.{prefix_key, prefix_pairs_with, prefix_rests, prefix_value};
    ghost use Rattle.art_map.specs.PrefixEntries.{Occupied, IsPrefixFilled, IsPrefixWritten, IsRefusedPrefix};

    /// Returns the entry of the stored key, or that of a key in conflict with stored ones, in the same map.
    ///
    /// ```
    /// let mut map = TreeMap::new(rt.alloc());
    /// map.try_insert(StrKey("ab"), 1)?;
    /// if let PrefixEntry::Occupied(entry) = map.prefix_entry(StrKey("ab")) {
    ///     assert!(rt; matches!(entry.kind(), PrefixOccupiedKind::Leaf(_)));
    /// }
    /// ```
    pub fn kind(self) -> PrefixOccupiedKind<'a, K, V, PREFIX_LEN>
        ensures same_map { (occupied_map result).ghost_name ≡ self.entry.map.ghost_name }
        ensures kind { result ≡ occupied_kind self.entry }
    {
        let PrefixOccupied { map, spot, mark } = self;
        match spot {
            Spot::Stored(leaf) => PrefixOccupiedKind::Leaf(OccupiedEntry { map, leaf, mark }),
            Spot::New(key) => PrefixOccupiedKind::Inner(InnerOccupiedEntry { map, key, mark }),
        }
    }

    // The leaf of the key, if it is stored.
    pub(super) fn stored(&self) -> Option<LeafPtr>
        ensures { result ≡ stored_slot self.now.spot }
    {
        match &self.spot {
            Spot::Stored(leaf) => Some(*leaf),
            Spot::New(_) => None,
        }
    }

    // The value of a stored key, for writing, as long as the map is lent.
    pub(super) fn lend(self, leaf: LeafPtr) -> &'a mut V
    where
        K: Drop,
        requires { stored_slot self.spot ≡ Some leaf }
        ensures* writes_back { sem 𝓛 (lends_value_at K.row V.row PREFIX_LEN.row K.AsBytes self.entry.map leaf result) }
        ensures value { prefix_value (Occupied self.entry) ≡ Some result.now }
        ensures pairs { (w : V) → (with_value_at self.entry.map.now leaf w).pairs
            ≡ prefix_pairs_with (Occupied self.entry) w }
        ensures names { (w : V) → KeepsLeaves K.bytes self.entry.map.now (with_value_at self.entry.map.now leaf w) }
        ensures room { (w : V) → KeepsRoomOf self.entry.map.now.nodes (with_value_at self.entry.map.now leaf w).nodes }
    {
        let PrefixOccupied {
            map,
            spot: _,
            mark: _,
        } = self;
        let (_key, value) = map.pair_mut_at(leaf);
        value
    }

    // The entry of a stored key.
    pub(super) fn give(
        self,
        leaf: LeafPtr,
    ) -> Result<OccupiedEntry<'a, K, V, PREFIX_LEN>, InsertRefused<K, V>>
    where
        K: Drop,
        requires { stored_slot self.spot ≡ Some leaf }
        ensures* rests { sem 𝓛 (prefix_rests K.row V.row PREFIX_LEN K.AsBytes (Occupied self.entry) result) }
        ensures same { IfOk result (IsPrefixFilled (Occupied self.entry) (λ v. ⊥)) }
        ensures ok { IsOk result }
    {
        let PrefixOccupied { map, spot, mark: _ } = self;
        drop(spot);
        Ok(OccupiedEntry::new(map, leaf))
    }

    /// Returns the stored key, or for `Inner` the one that would be inserted.
    ///
    /// ```
    /// let mut map = TreeMap::new(rt.alloc());
    /// map.try_insert(StrKey("abc"), 1)?;
    /// if let PrefixEntry::Occupied(entry) = map.prefix_entry(StrKey("ab")) {
    ///     assert_eq!(rt; *entry.key(), StrKey("ab"));
    /// }
    /// ```
    pub fn key(&self) -> &K
        ensures { result.now ≡ prefix_key (Occupied self.now) }
    {
        match &self.spot {
            Spot::Stored(leaf) => self.map.pair_at(*leaf).0,
            Spot::New(key) => key,
        }
    }

    // The leaf of the pair that an insertion would change or remove, if it is one alone.
    fn shown(&self) -> Option<LeafPtr>
        ensures { IsAt (lone_pair (occupied_kind self.now)) self.now.map.now result }
    {
        match &self.spot {
            Spot::Stored(leaf) => Some(*leaf),
            Spot::New(key) => self.map.lone_over(key.as_bytes()),
        }
    }

    /// Returns the value of the pair that an insertion would change or remove, if it is one alone.
    ///
    /// ```
    /// let mut map = TreeMap::new(rt.alloc());
    /// map.try_insert(StrKey("abc"), 1)?;
    /// if let PrefixEntry::Occupied(entry) = map.prefix_entry(StrKey("ab")) {
    ///     assert_eq!(rt; entry.get(), Some(&1));
    /// }
    /// ```
    pub fn get(&self) -> Option<&V>
        ensures { option_copied result ≡ option_value (lone_pair (occupied_kind self.now)) }
    {
        let leaf = self.shown()?;
        Some(self.map.pair_at(leaf).1)
    }

    /// Lends the value of the pair that an insertion would change or remove for writing, if it is one alone.
    ///
    /// ```
    /// let mut map = TreeMap::new(rt.alloc());
    /// map.try_insert(StrKey("abc"), 1)?;
    /// if let PrefixEntry::Occupied(mut entry) = map.prefix_entry(StrKey("ab")) {
    ///     entry.get_mut().into_iter().for_each(|value| *value = 7);
    /// }
    /// assert_eq!(rt; map.get(&StrKey("abc")), Some(&7));
    /// ```
    pub fn get_mut(&mut self) -> Option<&mut V>
        ensures* writes_back { sem 𝓛 (lends_shown K.row V.row PREFIX_LEN K.AsBytes self.entry result) }
        ensures value { option_copied_mut result ≡ option_value (lone_pair (occupied_kind self.old)) }
    {
        match &self.spot {
            Spot::Stored(leaf) => {
                let leaf = *leaf;
                let (_key, value) = self.map.pair_mut_at(leaf);
                Some(value)
            }
            Spot::New(key) => match self.map.lone_over(key.as_bytes()) {
                Some(leaf) => {
                    let (_key, value) = self.map.pair_mut_at(leaf);
                    Some(value)
                }
                None => None,
            },
        }
    }

    /// Returns the stored key of the pair that an insertion would change or remove, if it is one alone.
    ///
    /// ```
    /// let mut map = TreeMap::new(rt.alloc());
    /// map.try_insert(StrKey("abc"), 1)?;
    /// if let PrefixEntry::Occupied(entry) = map.prefix_entry(StrKey("ab")) {
    ///     assert_eq!(rt; entry.get_key(), Some(&StrKey("abc")));
    /// }
    /// ```
    pub fn get_key(&self) -> Option<&K>
        ensures { option_copied result ≡ option_key (lone_pair (occupied_kind self.now)) }
    {
        let leaf = self.shown()?;
        Some(self.map.pair_at(leaf).0)
    }

    /// Makes this the value of the key. For `Inner` the key is inserted, in place of the pairs that it overlaps. The
    /// value is lent for writing as long as the map is lent.
    ///
    /// Fails only for `Inner`, and only if out of memory. The error returns key and value, and the map is unchanged.
    ///
    /// ```
    /// let mut map = TreeMap::new(rt.alloc());
    /// map.try_insert(StrKey("abc"), 1)?;
    /// if let PrefixEntry::Occupied(entry) = map.prefix_entry(StrKey("ab")) {
    ///     assert_eq!(rt; *entry.insert(2)?, 2);
    /// }
    /// assert!(rt; map.keys().eq([&StrKey("ab")]));
    /// ```
    pub fn insert(self, value: V) -> Result<&'a mut V, InsertRefused<K, V>>
    where
        K: Drop,
        V: Drop,
        ensures* writes_back { sem 𝓛 (lends_prefix K.row V.row PREFIX_LEN K.AsBytes (Occupied self.entry) result) }
        ensures value { IfOk result (λ lent. lent.now ≡ value) }
        ensures handed_back { IsRefusedPrefix (Occupied self.entry) (λ v. v ≡ value) result }
    {
        let PrefixOccupied { map, spot, mark: _ } = self;
        match spot {
            Spot::Stored(leaf) => {
                let (_key, lent) = map.pair_mut_at(leaf);
                *lent = value;
                Ok(lent)
            }
            Spot::New(key) => {
                let put = match map.prefix_put(key, value) {
                    Ok(put) => put,
                    Err(refused) => return Err(refused),
                };
                let (_key, stored) = map.pair_mut_at(put.leaf);
                Ok(stored)
            }
        }
    }

    /// Makes this the value of the key, as `insert` does, and returns the key's entry.
    ///
    /// ```
    /// let mut map = TreeMap::new(rt.alloc());
    /// map.try_insert(StrKey("abc"), 1)?;
    /// if let PrefixEntry::Occupied(entry) = map.prefix_entry(StrKey("ab")) {
    ///     assert_eq!(rt; *entry.insert_entry(2)?.key(), StrKey("ab"));
    /// }
    /// ```
    pub fn insert_entry(
        self,
        value: V,
    ) -> Result<OccupiedEntry<'a, K, V, PREFIX_LEN>, InsertRefused<K, V>>
    where
        K: Drop,
        V: Drop,
        ensures* rests { sem 𝓛 (prefix_rests K.row V.row PREFIX_LEN K.AsBytes (Occupied self.entry) result) }
        ensures written { IfOk result (IsPrefixWritten (Occupied self.entry) value) }
        ensures handed_back { IsRefusedPrefix (Occupied self.entry) (λ v. v ≡ value) result }
    {
        let PrefixOccupied { map, spot, mark: _ } = self;
        match spot {
            Spot::Stored(leaf) => {
                map.write_at(leaf, value);
                Ok(OccupiedEntry::new(map, leaf))
            }
            Spot::New(key) => match map.prefix_put(key, value) {
                Ok(put) => Ok(OccupiedEntry::new(map, put.leaf)),
                Err(refused) => Err(refused),
            },
        }
    }
}

//! The methods of `VacantEntry`.
ghost use Rattle.std.specs.Prelude.{◌≡◌, IfOk, IsOk};
ghost use Rattle.std.specs.Borrow.{sem};
ghost use Rattle.art_arena.specs.arena.Arena.{HasRoom};
ghost use Rattle.art_operations.specs.Insertions.{HandsPairBack};

use super::{OccupiedEntry, VacantEntry};
use art_bytes::AsBytes;
use art_operations::InsertRefused;

impl<'a, K: AsBytes, V, const PREFIX_LEN: usize> VacantEntry<'a, K, V, PREFIX_LEN> {
    ghost use Rattle.art_map.specs.Entries.{Occupied, Vacant, entry_key, entry_map, lends_entry, rests_if_refused};
    ghost use Rattle.art_map.specs.Entries.{IsWritten};

    /// Returns the key that would be inserted.
    ///
    /// ```
    /// let mut map: TreeMap<_, u32, 16> = TreeMap::new(rt.alloc());
    /// if let Entry::Vacant(entry) = map.entry(*b"ab") {
    ///     assert_eq!(rt; entry.key(), b"ab");
    /// }
    /// ```
    pub fn key(&self) -> &K
        ensures { result.now ≡ entry_key (Vacant self.now) }
    {
        &self.key
    }

    /// Returns the key that would be inserted, by value. The map is unchanged.
    ///
    /// ```
    /// let mut map: TreeMap<_, u32, 16> = TreeMap::new(rt.alloc());
    /// if let Entry::Vacant(entry) = map.entry(*b"ab") {
    ///     assert_eq!(rt; entry.into_key(), *b"ab");
    /// }
    /// assert!(rt; map.is_empty());
    /// ```
    pub fn into_key(self) -> K
        ensures key { result ≡ entry_key (Vacant self.entry) }
        ensures unchanged { self.exit.0.now ≡ self.entry.map.now }
    {
        self.key
    }

    /// Inserts the key with this value, which is lent for writing as long as the map is lent.
    ///
    /// Fails only if out of memory. The error returns the pair, and the map is unchanged.
    ///
    /// ```
    /// let mut map = TreeMap::new(rt.alloc());
    /// if let Entry::Vacant(entry) = map.entry(*b"ab") {
    ///     *entry.insert(1)? += 10;
    /// }
    /// assert_eq!(rt; map.get(b"ab"), Some(&11));
    /// ```
    pub fn insert(self, value: V) -> Result<&'a mut V, InsertRefused<K, V>>
    where
        K: Drop,
        V: Drop,
        ensures* writes_back { sem 𝓛 (lends_entry K.row V.row PREFIX_LEN K.AsBytes (Vacant self.entry) result) }
        ensures value { IfOk result (λ lent. lent.now ≡ value) }
        ensures handed_back { HandsPairBack (entry_key (Vacant self.entry)) value result }
        ensures succeeds { HasRoom (entry_map (Vacant self.entry)).now.nodes 2 → IsOk result }
    {
        let VacantEntry {
            map,
            place,
            key,
            mark: _,
        } = self;
        let leaf = match map.insert_leaf(place.found(), key, value) {
            Ok(leaf) => leaf,
            Err(refused) => return Err(refused),
        };
        let (_key, value) = map.pair_mut_at(leaf);
        Ok(value)
    }

    /// Inserts the key with this value, and returns its entry. It fails as `insert` does.
    ///
    /// ```
    /// let mut map = TreeMap::new(rt.alloc());
    /// if let Entry::Vacant(entry) = map.entry(*b"ab") {
    ///     assert_eq!(rt; entry.insert_entry(1)?.key(), b"ab");
    /// }
    /// assert_eq!(rt; map.get(b"ab"), Some(&1));
    /// ```
    pub fn insert_entry(
        self,
        value: V,
    ) -> Result<OccupiedEntry<'a, K, V, PREFIX_LEN>, InsertRefused<K, V>>
    where
        K: Drop,
        V: Drop,
        ensures* rests { sem 𝓛 (rests_if_refused K.row V.row PREFIX_LEN K.AsBytes (Vacant self.entry) result) }
        ensures written { IfOk result (λ entry. IsWritten (Vacant self.entry) value (Occupied entry)) }
        ensures handed_back { HandsPairBack (entry_key (Vacant self.entry)) value result }
        ensures succeeds { HasRoom (entry_map (Vacant self.entry)).now.nodes 2 → IsOk result }
    {
        let VacantEntry {
            map,
            place,
            key,
            mark: _,
        } = self;
        match map.insert_leaf(place.found(), key, value) {
            Ok(leaf) => Ok(OccupiedEntry::new(map, leaf)),
            Err(refused) => Err(refused),
        }
    }
}

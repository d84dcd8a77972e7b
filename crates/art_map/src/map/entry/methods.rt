//! The entry of a key, and the methods of `Entry`.
ghost use Rattle.std.specs.Prelude.{◌≡◌, Some, None, IfErr, IfOk, IsOk, OnOk};
ghost use Rattle.std.specs.Borrow.{sem, Bor, MutBor};
ghost use Rattle.std.specs.Fn.{FnOnceReturnsAt};
ghost use Rattle.std.specs.Map.{lookup};
ghost use Rattle.std.specs.Map.Calls.{ModifiesValue};
ghost use Rattle.std.specs.Option.{unwrap_or, UnwrapsOrElse};
ghost use Rattle.art_arena.specs.arena.Arena.{KeepsRoomOf};
ghost use Rattle.art_arena.specs.arena.Shapes.{key_of};
ghost use Rattle.art_operations.specs.KeyedLists.{HasKey, IsBlocked};

use super::{Entry, FoundPlace, OccupiedEntry, VacantEntry};
use crate::map::TreeMap;
use crate::map::refused::TryKeyError;
use art_bytes::{AsBytes, NoPrefixesBytes};
use art_operations::{InsertPrefixError, InsertRefused, KeyPrefix};
use std::marker::PhantomData;

impl<K: AsBytes, V, const PREFIX_LEN: usize> TreeMap<K, V, PREFIX_LEN> {
    ghost use Rattle.art_map.specs.Changes.{IsKeyRefused};
    ghost use Rattle.art_map.specs.Entries.{entry_map, rests_if_blocked, IsEntryOf};

    /// Returns the entry of a key. If an equal key is stored, the one that was passed is dropped.
    ///
    /// Fails with `Prefix` if the key is a prefix of a stored key, or a stored key is a prefix of it. Fails with
    /// `Memory` if there is no memory for the bytes that `Prefix` tells. The error returns the key, and the map is
    /// unchanged. A key that is stored never fails.
    ///
    /// ```
    /// let mut map = TreeMap::new(rt.alloc());
    /// map.try_entry(StrKey("ab"))?.or_insert(1)?;
    /// assert!(rt; matches!(map.try_entry(StrKey("abc")), Err(TryKeyError::Prefix { .. })));
    /// assert_eq!(rt; map.get(&StrKey("ab")), Some(&1));
    /// ```
    pub fn try_entry(&mut self, key: K) -> Result<Entry<'_, K, V, PREFIX_LEN>, TryKeyError<K>>
    where
        K: Drop,
        ensures* rests { sem 𝓛 (rests_if_blocked K.row V.row PREFIX_LEN K.AsBytes self.entry result) }
        ensures same_map { IfOk result (λ entry. (entry_map entry).ghost_name ≡ self.entry.ghost_name) }
        ensures unchanged { IfOk result (λ entry. (entry_map entry).now ≡ self.old) }
        ensures entry { IfOk result (IsEntryOf self.old.pairs key) }
        ensures free { OnOk result (IsBlocked (key_of K.bytes) (K.bytes key) self.old.pairs → ⊥) }
        ensures stored { HasKey (key_of K.bytes) (K.bytes key) self.old.pairs → IsOk result }
        ensures refused { IfErr result (IsKeyRefused K.bytes self.old.pairs key) }
    {
        match self.find_place(&key) {
            Ok(place) => match self.stored_at(&place) {
                Some(leaf) => Ok(Entry::Occupied(OccupiedEntry::new(self, leaf))),
                None => Ok(Entry::Vacant(VacantEntry {
                    map: self,
                    place: FoundPlace::new(place),
                    key,
                    mark: PhantomData,
                })),
            },
            Err(_) => match KeyPrefix::new(self.alloc, key.as_bytes()) {
                Ok(byte_repr) => Err(TryKeyError::Prefix {
                    key,
                    error: InsertPrefixError { byte_repr },
                }),
                Err(_) => Err(TryKeyError::Memory { key }),
            },
        }
    }
}

impl<K: NoPrefixesBytes, V, const PREFIX_LEN: usize> TreeMap<K, V, PREFIX_LEN> {
    ghost use Rattle.art_map.specs.Entries.{entry_map, IsEntryOf};

    /// Returns the entry of a key. If an equal key is stored, the one that was passed is dropped.
    ///
    /// ```
    /// let mut counts = TreeMap::new(rt.alloc());
    /// for word in [*b"ab", *b"cd", *b"ab"] {
    ///     *counts.entry(word).or_insert(0)? += 1;
    /// }
    /// assert!(rt; counts.values().eq([&2, &1]));
    /// ```
    pub fn entry(&mut self, key: K) -> Entry<'_, K, V, PREFIX_LEN>
    where
        K: Drop,
        ensures same_map { (entry_map result).ghost_name ≡ self.entry.ghost_name }
        ensures unchanged { (entry_map result).now ≡ self.old }
        ensures entry { IsEntryOf self.old.pairs key result }
    {
        let place = self.place_free(&key);
        match self.stored_at(&place) {
            Some(leaf) => Entry::Occupied(OccupiedEntry::new(self, leaf)),
            None => Entry::Vacant(VacantEntry {
                map: self,
                place: FoundPlace::new(place),
                key,
                mark: PhantomData,
            }),
        }
    }
}

impl<'a, K: AsBytes, V, const PREFIX_LEN: usize> Entry<'a, K, V, PREFIX_LEN> {
    ghost use Rattle.art_map.specs.Entries.{Occupied, entry_key, entry_map, entry_value, lends_entry, entry_pairs};
    ghost use Rattle.art_map.specs.Entries.{pairs_without, rests_if_refused, IsFilled, IsRefusedEntry, IsSame};
    ghost use Rattle.art_map.specs.Entries.{IsWritten};
    ghost use Rattle.art_map.specs.LeafNames.{KeepsAllLeaves};

    /// Returns the stored key, or the one that would be inserted if none is stored.
    ///
    /// ```
    /// let mut map: TreeMap<_, u32, 16> = TreeMap::new(rt.alloc());
    /// assert_eq!(rt; map.entry(*b"ab").key(), b"ab");
    /// ```
    pub fn key(&self) -> &K
        ensures { result.now ≡ entry_key self.now }
    {
        match self {
            Entry::Occupied(entry) => entry.key(),
            Entry::Vacant(entry) => entry.key(),
        }
    }

    /// Calls `f` on the value, if the key is stored; `f` has to be callable on it. If the key is not stored, the entry
    /// is unchanged.
    ///
    /// ```
    /// let mut map = TreeMap::new(rt.alloc());
    /// for _ in 0..3 {
    ///     map.entry(*b"ab").and_modify(|value| *value += 1).or_insert(0)?;
    /// }
    /// assert_eq!(rt; map.get(b"ab"), Some(&2));
    /// ```
    pub fn and_modify<F: FnOnce(&mut V)>(self, f: F) -> Self
        requires { (p : MutBor V) → entry_value self ≡ Some p.now → F.pre f p }
        ensures same_map { (entry_map result).ghost_name ≡ (entry_map self.entry).ghost_name }
        ensures same_key { entry_key result ≡ entry_key self.entry }
        ensures same_writes { (w : V) → entry_pairs result w ≡ entry_pairs self.entry w }
        ensures pairs { (w : V) → entry_value result ≡ Some w
            → (entry_map result).now.pairs ≡ entry_pairs self.entry w }
        ensures names { KeepsAllLeaves K.bytes (entry_map self.entry).now (entry_map result).now }
        ensures room { KeepsRoomOf (entry_map self.entry).now.nodes (entry_map result).now.nodes }
        ensures same_removal { pairs_without result ≡ pairs_without self.entry }
        ensures vacant { entry_value self.entry ≡ None → IsSame self.entry result }
        ensures update { ModifiesValue F.FnOnce f (entry_value self.entry) (entry_value result) }
    {
        match self {
            Entry::Occupied(mut entry) => {
                f(entry.get_mut());
                Entry::Occupied(entry)
            }
            Entry::Vacant(entry) => Entry::Vacant(entry),
        }
    }

    /// Returns the stored value, or inserts this one if the key is not stored. The value is lent for writing as long as
    /// the map is lent.
    ///
    /// Fails only if the key is not stored, and only if out of memory. The error returns the pair, and the map is
    /// unchanged.
    ///
    /// ```
    /// let mut map = TreeMap::new(rt.alloc());
    /// *map.entry(*b"ab").or_insert(1)? += 10;
    /// *map.entry(*b"ab").or_insert(1)? += 10;
    /// assert_eq!(rt; map.get(b"ab"), Some(&21));
    /// ```
    pub fn or_insert(self, default: V) -> Result<&'a mut V, InsertRefused<K, V>>
    where
        K: Drop,
        V: Drop,
        ensures* writes_back { sem 𝓛 (lends_entry K.row V.row PREFIX_LEN K.AsBytes self.entry result) }
        ensures value { IfOk result (λ lent. lent.now ≡ unwrap_or (entry_value self.entry) default) }
        ensures handed_back { IsRefusedEntry self.entry (λ v. v ≡ default) result }
    {
        self.or_insert_with_key(|_key| default)
    }

    /// Does as `or_insert`, with the default value of its type.
    ///
    /// ```
    /// let mut map: TreeMap<_, u32, 16> = TreeMap::new(rt.alloc());
    /// *map.entry(*b"ab").or_default()? += 1;
    /// assert_eq!(rt; map.get(b"ab"), Some(&1));
    /// ```
    pub fn or_default(self) -> Result<&'a mut V, InsertRefused<K, V>>
    where
        K: Drop,
        V: Drop + Default,
        ensures* writes_back { sem 𝓛 (lends_entry K.row V.row PREFIX_LEN K.AsBytes self.entry result) }
        ensures value { IfOk result (λ lent. UnwrapsOrElse (entry_value self.entry) V.is_default lent.now) }
        ensures handed_back { IsRefusedEntry self.entry V.is_default result }
    {
        self.or_insert_with_key(|_key| V::default())
    }

    /// Does as `or_insert`, with a value that `default` returns. It is called only if the key is not stored, and has to
    /// be callable there.
    ///
    /// ```
    /// let mut map = TreeMap::new(rt.alloc());
    /// assert_eq!(rt; *map.entry(*b"ab").or_insert_with(|| 3 * 7)?, 21);
    /// ```
    pub fn or_insert_with<F: FnOnce() -> V>(
        self,
        default: F,
    ) -> Result<&'a mut V, InsertRefused<K, V>>
    where
        K: Drop,
        V: Drop,
        requires { entry_value self ≡ None → F.pre default }
        ensures* writes_back { sem 𝓛 (lends_entry K.row V.row PREFIX_LEN K.AsBytes self.entry result) }
        ensures value { IfOk result (λ lent. UnwrapsOrElse (entry_value self.entry) (F.post default) lent.now) }
        ensures handed_back { IsRefusedEntry self.entry (F.post default) result }
    {
        self.or_insert_with_key(|_key| default())
    }

    /// Does as `or_insert`, with a value that `default` returns for the key. It is called only if the key is not
    /// stored, and has to be callable there.
    ///
    /// ```
    /// let mut map = TreeMap::new(rt.alloc());
    /// assert_eq!(rt; *map.entry(*b"ab").or_insert_with_key(|key| key[0])?, b'a');
    /// ```
    pub fn or_insert_with_key<F: FnOnce(&K) -> V>(
        self,
        default: F,
    ) -> Result<&'a mut V, InsertRefused<K, V>>
    where
        K: Drop,
        V: Drop,
        requires { entry_value self ≡ None → (p : Bor K) → p.now ≡ entry_key self → F.pre default p }
        ensures* writes_back { sem 𝓛 (lends_entry K.row V.row PREFIX_LEN K.AsBytes self.entry result) }
        ensures value { IfOk result (λ lent. UnwrapsOrElse (entry_value self.entry)
            (FnOnceReturnsAt F.FnOnce default (entry_key self.entry)) lent.now) }
        ensures handed_back { IsRefusedEntry self.entry
            (FnOnceReturnsAt F.FnOnce default (entry_key self.entry)) result }
    {
        match self {
            Entry::Occupied(entry) => Ok(entry.into_mut()),
            Entry::Vacant(entry) => {
                let value = default(entry.key());
                entry.insert(value)
            }
        }
    }

    /// Inserts this value, or replaces the stored one by it, and returns the entry. Fails only if the key is not
    /// stored, and only if out of memory. The error returns the pair, and the map is unchanged.
    ///
    /// ```
    /// let mut map = TreeMap::new(rt.alloc());
    /// map.insert(*b"ab", 1)?;
    /// assert_eq!(rt; *map.entry(*b"ab").insert_entry(2)?.get(), 2);
    /// assert_eq!(rt; map.len(), 1);
    /// ```
    pub fn insert_entry(
        self,
        value: V,
    ) -> Result<OccupiedEntry<'a, K, V, PREFIX_LEN>, InsertRefused<K, V>>
    where
        K: Drop,
        V: Drop,
        ensures* rests { sem 𝓛 (rests_if_refused K.row V.row PREFIX_LEN K.AsBytes self.entry result) }
        ensures written { IfOk result (λ entry. IsWritten self.entry value (Occupied entry)) }
        ensures handed_back { IsRefusedEntry self.entry (λ v. v ≡ value) result }
    {
        match self {
            Entry::Occupied(entry) => {
                let OccupiedEntry { map, leaf, mark: _ } = entry;
                map.write_at(leaf, value);
                Ok(OccupiedEntry::new(map, leaf))
            }
            Entry::Vacant(entry) => entry.insert_entry(value),
        }
    }

    /// Inserts this value if the key is not stored, and returns the entry. It fails as `or_insert` does.
    ///
    /// ```
    /// let mut map = TreeMap::new(rt.alloc());
    /// let entry = map.entry(*b"ab").or_insert_entry(1)?;
    /// assert_eq!(rt; entry.remove()?, 1);
    /// assert!(rt; map.is_empty());
    /// ```
    pub fn or_insert_entry(
        self,
        default: V,
    ) -> Result<OccupiedEntry<'a, K, V, PREFIX_LEN>, InsertRefused<K, V>>
    where
        K: Drop,
        V: Drop,
        ensures* rests { sem 𝓛 (rests_if_refused K.row V.row PREFIX_LEN K.AsBytes self.entry result) }
        ensures filled { IfOk result (IsFilled self.entry (λ v. v ≡ default)) }
        ensures handed_back { IsRefusedEntry self.entry (λ v. v ≡ default) result }
    {
        self.or_insert_with_key_entry(|_key| default)
    }

    /// Does as `or_insert_entry`, with the default value of its type.
    ///
    /// ```
    /// let mut map: TreeMap<_, u32, 16> = TreeMap::new(rt.alloc());
    /// let entry = map.entry(*b"ab").or_default_entry()?;
    /// assert_eq!(rt; *entry.get(), 0);
    /// ```
    pub fn or_default_entry(
        self,
    ) -> Result<OccupiedEntry<'a, K, V, PREFIX_LEN>, InsertRefused<K, V>>
    where
        K: Drop,
        V: Drop + Default,
        ensures* rests { sem 𝓛 (rests_if_refused K.row V.row PREFIX_LEN K.AsBytes self.entry result) }
        ensures filled { IfOk result (IsFilled self.entry V.is_default) }
        ensures handed_back { IsRefusedEntry self.entry V.is_default result }
    {
        self.or_insert_with_key_entry(|_key| V::default())
    }

    /// Does as `or_insert_entry`, with a value that `default` returns. It is called only if the key is not stored, and
    /// has to be callable there.
    ///
    /// ```
    /// let mut map = TreeMap::new(rt.alloc());
    /// let entry = map.entry(*b"ab").or_insert_with_entry(|| 3 * 7)?;
    /// assert_eq!(rt; *entry.get(), 21);
    /// ```
    pub fn or_insert_with_entry<F: FnOnce() -> V>(
        self,
        default: F,
    ) -> Result<OccupiedEntry<'a, K, V, PREFIX_LEN>, InsertRefused<K, V>>
    where
        K: Drop,
        V: Drop,
        requires { entry_value self ≡ None → F.pre default }
        ensures* rests { sem 𝓛 (rests_if_refused K.row V.row PREFIX_LEN K.AsBytes self.entry result) }
        ensures filled { IfOk result (IsFilled self.entry (F.post default)) }
        ensures handed_back { IsRefusedEntry self.entry (F.post default) result }
    {
        self.or_insert_with_key_entry(|_key| default())
    }

    /// Does as `or_insert_entry`, with a value that `default` returns for the key. It is called only if the key is not
    /// stored, and has to be callable there.
    ///
    /// ```
    /// let mut map = TreeMap::new(rt.alloc());
    /// let entry = map.entry(*b"ab").or_insert_with_key_entry(|key| key[1])?;
    /// assert_eq!(rt; *entry.get(), b'b');
    /// ```
    pub fn or_insert_with_key_entry<F: FnOnce(&K) -> V>(
        self,
        default: F,
    ) -> Result<OccupiedEntry<'a, K, V, PREFIX_LEN>, InsertRefused<K, V>>
    where
        K: Drop,
        V: Drop,
        requires { entry_value self ≡ None → (p : Bor K) → p.now ≡ entry_key self → F.pre default p }
        ensures* rests { sem 𝓛 (rests_if_refused K.row V.row PREFIX_LEN K.AsBytes self.entry result) }
        ensures filled { IfOk result (IsFilled self.entry
            (FnOnceReturnsAt F.FnOnce default (entry_key self.entry))) }
        ensures handed_back { IsRefusedEntry self.entry
            (FnOnceReturnsAt F.FnOnce default (entry_key self.entry)) result }
    {
        match self {
            Entry::Occupied(entry) => entry.as_it_is(),
            Entry::Vacant(entry) => {
                let given = default(entry.key());
                entry.insert_entry(given)
            }
        }
    }
}

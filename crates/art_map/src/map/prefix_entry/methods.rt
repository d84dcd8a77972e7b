//! The prefix entry of a key, and the methods of `PrefixEntry`.
ghost use Rattle.std.specs.Prelude.{◌≡◌, option_copied, None, IfOk};
ghost use Rattle.std.specs.Borrow.{sem, Bor};
ghost use Rattle.std.specs.Fn.{FnOnceReturnsAt};
ghost use Rattle.std.specs.Option.{unwrap_or, UnwrapsOrElse};

use super::{PrefixEntry, PrefixOccupied, Spot};
use crate::map::TreeMap;
use crate::map::entry::{FoundPlace, OccupiedEntry, VacantEntry};
use art_bytes::AsBytes;
use art_operations::InsertRefused;
use std::marker::PhantomData;

impl<K: AsBytes, V, const PREFIX_LEN: usize> TreeMap<K, V, PREFIX_LEN> {
    ghost use Rattle.art_map.specs.PrefixEntries.{prefix_map, IsPrefixEntryOf};

    /// Returns the entry of a key that goes in place of all stored keys that overlap it. These have the same bytes, or
    /// a prefix of them, or begin with them. If an equal key is stored, the one that was passed is dropped. It
    /// allocates nothing.
    ///
    /// ```
    /// let mut map = TreeMap::new(rt.alloc());
    /// map.try_insert(StrKey("abc"), 1)?;
    /// map.prefix_entry(StrKey("ab")).or_insert(2)?;
    /// assert!(rt; map.keys().eq([&StrKey("ab")]));
    /// ```
    pub fn prefix_entry(&mut self, key: K) -> PrefixEntry<'_, K, V, PREFIX_LEN>
    where
        K: Drop,
        ensures same_map { (prefix_map result).ghost_name ≡ self.entry.ghost_name }
        ensures unchanged { (prefix_map result).now ≡ self.old }
        ensures entry { IsPrefixEntryOf self.old.pairs key result }
    {
        match self.find_place(&key) {
            Ok(place) => match self.stored_at(&place) {
                Some(leaf) => PrefixEntry::Occupied(PrefixOccupied {
                    map: self,
                    spot: Spot::Stored(leaf),
                    mark: PhantomData,
                }),
                None => PrefixEntry::Vacant(VacantEntry {
                    map: self,
                    place: FoundPlace::new(place),
                    key,
                    mark: PhantomData,
                }),
            },
            Err(_) => PrefixEntry::Occupied(PrefixOccupied {
                map: self,
                spot: Spot::New(key),
                mark: PhantomData,
            }),
        }
    }
}

impl<'a, K: AsBytes, V, const PREFIX_LEN: usize> PrefixEntry<'a, K, V, PREFIX_LEN> {
    ghost use Rattle.art_map.specs.PrefixEntries.{lends_prefix, prefix_key, prefix_rests, prefix_value, shown_key};
    ghost use Rattle.art_map.specs.PrefixEntries.{IsPrefixFilled, IsPrefixWritten, IsRefusedPrefix};

    /// Returns the stored key, or the one that would be inserted if it is not stored.
    ///
    /// ```
    /// let mut map: TreeMap<_, u32, 16> = TreeMap::new(rt.alloc());
    /// assert_eq!(rt; *map.prefix_entry(StrKey("ab")).key(), StrKey("ab"));
    /// ```
    pub fn key(&self) -> &K
        ensures { result.now ≡ prefix_key self.now }
    {
        match self {
            PrefixEntry::Occupied(entry) => entry.key(),
            PrefixEntry::Vacant(entry) => entry.key(),
        }
    }

    /// Returns the stored key of the pair that an insertion would change or remove, if it is one alone. If no stored
    /// key overlaps the key, it returns the one that would be inserted.
    ///
    /// ```
    /// let mut map = TreeMap::new(rt.alloc());
    /// map.try_insert(StrKey("abc"), 1)?;
    /// assert_eq!(rt; map.prefix_entry(StrKey("ab")).get_key(), Some(&StrKey("abc")));
    /// ```
    pub fn get_key(&self) -> Option<&K>
        ensures { option_copied result ≡ shown_key self.now }
    {
        match self {
            PrefixEntry::Occupied(entry) => entry.get_key(),
            PrefixEntry::Vacant(entry) => Some(entry.key()),
        }
    }

    /// Replaces the stored value by this one, or inserts the key with it in place of the pairs that the key overlaps.
    /// It returns the key's entry.
    ///
    /// Fails only if the key is not stored, and only if out of memory. The error returns key and value, and the map is
    /// unchanged.
    ///
    /// ```
    /// let mut map = TreeMap::new(rt.alloc());
    /// map.try_insert(StrKey("abc"), 1)?;
    /// assert_eq!(rt; *map.prefix_entry(StrKey("ab")).insert_entry(2)?.get(), 2);
    /// assert_eq!(rt; map.len(), 1);
    /// ```
    pub fn insert_entry(
        self,
        value: V,
    ) -> Result<OccupiedEntry<'a, K, V, PREFIX_LEN>, InsertRefused<K, V>>
    where
        K: Drop,
        V: Drop,
        ensures* rests { sem 𝓛 (prefix_rests K.row V.row PREFIX_LEN K.AsBytes self.entry result) }
        ensures written { IfOk result (IsPrefixWritten self.entry value) }
        ensures handed_back { IsRefusedPrefix self.entry (λ v. v ≡ value) result }
    {
        match self {
            PrefixEntry::Occupied(entry) => entry.insert_entry(value),
            PrefixEntry::Vacant(entry) => entry.insert_entry(value),
        }
    }

    /// Returns the stored value. If the key is not stored, it inserts this one in place of the pairs that the key
    /// overlaps. The value is lent for writing as long as the map is lent.
    ///
    /// It fails as `insert_entry` does.
    ///
    /// ```
    /// let mut map = TreeMap::new(rt.alloc());
    /// map.try_insert(StrKey("ab"), 1)?;
    /// assert_eq!(rt; *map.prefix_entry(StrKey("ab")).or_insert(2)?, 1);
    /// assert_eq!(rt; *map.prefix_entry(StrKey("abc")).or_insert(2)?, 2);
    /// assert!(rt; map.keys().eq([&StrKey("abc")]));
    /// ```
    pub fn or_insert(self, default: V) -> Result<&'a mut V, InsertRefused<K, V>>
    where
        K: Drop,
        V: Drop,
        ensures* writes_back { sem 𝓛 (lends_prefix K.row V.row PREFIX_LEN K.AsBytes self.entry result) }
        ensures value { IfOk result (λ lent. lent.now ≡ unwrap_or (prefix_value self.entry) default) }
        ensures handed_back { IsRefusedPrefix self.entry (λ v. v ≡ default) result }
    {
        self.or_insert_with_key(|_key| default)
    }

    /// Does as `or_insert`, with the default value of its type.
    ///
    /// ```
    /// let mut map: TreeMap<_, u32, 16> = TreeMap::new(rt.alloc());
    /// *map.prefix_entry(StrKey("ab")).or_default()? += 1;
    /// assert_eq!(rt; map.get(&StrKey("ab")), Some(&1));
    /// ```
    pub fn or_default(self) -> Result<&'a mut V, InsertRefused<K, V>>
    where
        K: Drop,
        V: Drop + Default,
        ensures* writes_back { sem 𝓛 (lends_prefix K.row V.row PREFIX_LEN K.AsBytes self.entry result) }
        ensures value { IfOk result (λ lent. UnwrapsOrElse (prefix_value self.entry) V.is_default lent.now) }
        ensures handed_back { IsRefusedPrefix self.entry V.is_default result }
    {
        self.or_insert_with_key(|_key| V::default())
    }

    /// Does as `or_insert`, with a value that `default` returns. It is called only if the key is not stored, and has to
    /// be callable there.
    ///
    /// ```
    /// let mut map = TreeMap::new(rt.alloc());
    /// assert_eq!(rt; *map.prefix_entry(StrKey("ab")).or_insert_with(|| 3 * 7)?, 21);
    /// ```
    pub fn or_insert_with<F: FnOnce() -> V>(
        self,
        default: F,
    ) -> Result<&'a mut V, InsertRefused<K, V>>
    where
        K: Drop,
        V: Drop,
        requires { prefix_value self ≡ None → F.pre default }
        ensures* writes_back { sem 𝓛 (lends_prefix K.row V.row PREFIX_LEN K.AsBytes self.entry result) }
        ensures value { IfOk result (λ lent. UnwrapsOrElse (prefix_value self.entry) (F.post default) lent.now) }
        ensures handed_back { IsRefusedPrefix self.entry (F.post default) result }
    {
        self.or_insert_with_key(|_key| default())
    }

    /// Does as `or_insert`, with a value that `default` returns for the key. It is called only if the key is not
    /// stored, and has to be callable there.
    ///
    /// ```
    /// let mut map = TreeMap::new(rt.alloc());
    /// assert_eq!(rt; *map.prefix_entry(StrKey("ab")).or_insert_with_key(|key| key.0.len())?, 2);
    /// ```
    pub fn or_insert_with_key<F: FnOnce(&K) -> V>(
        self,
        default: F,
    ) -> Result<&'a mut V, InsertRefused<K, V>>
    where
        K: Drop,
        V: Drop,
        requires { prefix_value self ≡ None → (p : Bor K) → p.now ≡ prefix_key self → F.pre default p }
        ensures* writes_back { sem 𝓛 (lends_prefix K.row V.row PREFIX_LEN K.AsBytes self.entry result) }
        ensures value { IfOk result (λ lent. UnwrapsOrElse (prefix_value self.entry)
            (FnOnceReturnsAt F.FnOnce default (prefix_key self.entry)) lent.now) }
        ensures handed_back { IsRefusedPrefix self.entry
            (FnOnceReturnsAt F.FnOnce default (prefix_key self.entry)) result }
    {
        match self {
            PrefixEntry::Occupied(entry) => match entry.stored() {
                Some(leaf) => Ok(entry.lend(leaf)),
                None => {
                    let value = default(entry.key());
                    entry.insert(value)
                }
            },
            PrefixEntry::Vacant(entry) => {
                let value = default(entry.key());
                entry.insert(value)
            }
        }
    }

    /// Returns the key's entry. If the key is not stored, it is inserted with this value, in place of the pairs that it
    /// overlaps. It fails as `insert_entry` does.
    ///
    /// ```
    /// let mut map = TreeMap::new(rt.alloc());
    /// let entry = map.prefix_entry(StrKey("ab")).or_insert_entry(1)?;
    /// assert_eq!(rt; *entry.get(), 1);
    /// ```
    pub fn or_insert_entry(
        self,
        default: V,
    ) -> Result<OccupiedEntry<'a, K, V, PREFIX_LEN>, InsertRefused<K, V>>
    where
        K: Drop,
        V: Drop,
        ensures* rests { sem 𝓛 (prefix_rests K.row V.row PREFIX_LEN K.AsBytes self.entry result) }
        ensures filled { IfOk result (IsPrefixFilled self.entry (λ v. v ≡ default)) }
        ensures handed_back { IsRefusedPrefix self.entry (λ v. v ≡ default) result }
    {
        self.or_insert_with_key_entry(|_key| default)
    }

    /// Does as `or_insert_entry`, with the default value of its type.
    ///
    /// ```
    /// let mut map: TreeMap<_, u32, 16> = TreeMap::new(rt.alloc());
    /// let entry = map.prefix_entry(StrKey("ab")).or_default_entry()?;
    /// assert_eq!(rt; *entry.get(), 0);
    /// ```
    pub fn or_default_entry(
        self,
    ) -> Result<OccupiedEntry<'a, K, V, PREFIX_LEN>, InsertRefused<K, V>>
    where
        K: Drop,
        V: Drop + Default,
        ensures* rests { sem 𝓛 (prefix_rests K.row V.row PREFIX_LEN K.AsBytes self.entry result) }
        ensures filled { IfOk result (IsPrefixFilled self.entry V.is_default) }
        ensures handed_back { IsRefusedPrefix self.entry V.is_default result }
    {
        self.or_insert_with_key_entry(|_key| V::default())
    }

    /// Does as `or_insert_entry`, with a value that `default` returns. It is called only if the key is not stored, and
    /// has to be callable there.
    ///
    /// ```
    /// let mut map = TreeMap::new(rt.alloc());
    /// let entry = map.prefix_entry(StrKey("ab")).or_insert_with_entry(|| 3 * 7)?;
    /// assert_eq!(rt; *entry.get(), 21);
    /// ```
    pub fn or_insert_with_entry<F: FnOnce() -> V>(
        self,
        default: F,
    ) -> Result<OccupiedEntry<'a, K, V, PREFIX_LEN>, InsertRefused<K, V>>
    where
        K: Drop,
        V: Drop,
        requires { prefix_value self ≡ None → F.pre default }
        ensures* rests { sem 𝓛 (prefix_rests K.row V.row PREFIX_LEN K.AsBytes self.entry result) }
        ensures filled { IfOk result (IsPrefixFilled self.entry (F.post default)) }
        ensures handed_back { IsRefusedPrefix self.entry (F.post default) result }
    {
        self.or_insert_with_key_entry(|_key| default())
    }

    /// Does as `or_insert_entry`, with a value that `default` returns for the key. It is called only if the key is not
    /// stored, and has to be callable there.
    ///
    /// ```
    /// let mut map = TreeMap::new(rt.alloc());
    /// let entry = map.prefix_entry(StrKey("ab")).or_insert_with_key_entry(|key| key.0.len())?;
    /// assert_eq!(rt; *entry.get(), 2);
    /// ```
    pub fn or_insert_with_key_entry<F: FnOnce(&K) -> V>(
        self,
        default: F,
    ) -> Result<OccupiedEntry<'a, K, V, PREFIX_LEN>, InsertRefused<K, V>>
    where
        K: Drop,
        V: Drop,
        requires { prefix_value self ≡ None → (p : Bor K) → p.now ≡ prefix_key self → F.pre default p }
        ensures* rests { sem 𝓛 (prefix_rests K.row V.row PREFIX_LEN K.AsBytes self.entry result) }
        ensures filled { IfOk result (IsPrefixFilled self.entry
            (FnOnceReturnsAt F.FnOnce default (prefix_key self.entry))) }
        ensures handed_back { IsRefusedPrefix self.entry
            (FnOnceReturnsAt F.FnOnce default (prefix_key self.entry)) result }
    {
        match self {
            PrefixEntry::Occupied(entry) => match entry.stored() {
                Some(leaf) => entry.give(leaf),
                None => {
                    let value = default(entry.key());
                    entry.insert_entry(value)
                }
            },
            PrefixEntry::Vacant(entry) => {
                let value = default(entry.key());
                entry.insert_entry(value)
            }
        }
    }
}

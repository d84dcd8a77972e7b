//! The entries of the first pair and of the last.
ghost use Rattle.std.specs.Prelude.{◌≡◌, IfSome};
ghost use Rattle.std.specs.Borrow.{sem};

use crate::map::TreeMap;
use crate::map::entry::OccupiedEntry;
use art_bytes::AsBytes;

impl<K: AsBytes, V, const PREFIX_LEN: usize> TreeMap<K, V, PREFIX_LEN> {
    ghost use Rattle.art_map.specs.Contents.{first_item, last_item};
    ghost use Rattle.art_map.specs.Entries.{rests_if_none, IsPairOf};

    /// Returns the entry of the first pair, whose key is the least, if there is one. It allocates nothing.
    ///
    /// ```
    /// let mut map = TreeMap::new(rt.alloc());
    /// map.extend([(*b"ab", 1), (*b"cd", 2)])?;
    /// if let Some(entry) = map.first_entry() {
    ///     assert_eq!(rt; entry.remove()?, 1);
    /// }
    /// assert!(rt; map.keys().eq([b"cd"]));
    /// ```
    pub fn first_entry(&mut self) -> Option<OccupiedEntry<'_, K, V, PREFIX_LEN>>
        ensures* rests { sem 𝓛 (rests_if_none K.row V.row PREFIX_LEN K.AsBytes self.entry result) }
        ensures same_map { IfSome result (λ entry.
            (entry.map.ghost_name ≡ self.entry.ghost_name) × (entry.map.now ≡ self.old)) }
        ensures pair { IsPairOf (first_item self.old.pairs) result }
    {
        let leaf = self.first()?;
        Some(OccupiedEntry::new(self, leaf))
    }

    /// Returns the entry of the last pair, whose key is the greatest, if there is one. It allocates nothing.
    ///
    /// ```
    /// let mut map = TreeMap::new(rt.alloc());
    /// map.extend([(*b"ab", 1), (*b"cd", 2)])?;
    /// if let Some(mut entry) = map.last_entry() {
    ///     *entry.get_mut() = 7;
    /// }
    /// assert!(rt; map.values().eq([&1, &7]));
    /// ```
    pub fn last_entry(&mut self) -> Option<OccupiedEntry<'_, K, V, PREFIX_LEN>>
        ensures* rests { sem 𝓛 (rests_if_none K.row V.row PREFIX_LEN K.AsBytes self.entry result) }
        ensures same_map { IfSome result (λ entry.
            (entry.map.ghost_name ≡ self.entry.ghost_name) × (entry.map.now ≡ self.old)) }
        ensures pair { IsPairOf (last_item self.old.pairs) result }
    {
        let leaf = self.last()?;
        Some(OccupiedEntry::new(self, leaf))
    }
}

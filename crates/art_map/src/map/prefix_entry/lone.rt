//! The pair that an insertion would remove, if it is one alone, and the methods of `LonePairMut`.
ghost use Rattle.std.specs.Prelude.{◌≡◌, option_copied, option_map, true};
ghost use Rattle.std.specs.Borrow.{sem};
ghost use Rattle.std.specs.Map.Iter.{deref_pair};
ghost use Rattle.std.specs.Option.{option_copied_mut};
ghost use Rattle.art_map.specs.Contents.{option_value};
ghost use Rattle.art_map.specs.LoneLeaves.{is_held_where};

use crate::map::TreeMap;
use art_arena::LeafPtr;
use art_bytes::AsBytes;

/// The pair that an insertion would remove, if it is one alone. It shows the stored key, and lends the value for
/// writing.
#[derive(Drop)]
pub struct LonePairMut<'a, K: AsBytes, V, const PREFIX_LEN: usize> {
    map: &'a mut TreeMap<K, V, PREFIX_LEN>,
    leaf: Option<LeafPtr>,
    ghost held: { is_held_where map.now leaf ≡ true },
}

impl<K: AsBytes, V, const PREFIX_LEN: usize> TreeMap<K, V, PREFIX_LEN> {
    // The pair of a leaf, if one is named.
    pub(super) fn lone_pair_at(
        &mut self,
        leaf: Option<LeafPtr>,
    ) -> LonePairMut<'_, K, V, PREFIX_LEN>
        requires { is_held_where self.old leaf ≡ true }
        ensures same_map { (result.map.ghost_name ≡ self.entry.ghost_name) × (result.map.now ≡ self.old) }
        ensures leaf { result.leaf ≡ leaf }
    {
        LonePairMut { map: self, leaf }
    }
}

impl<'a, K: AsBytes, V, const PREFIX_LEN: usize> LonePairMut<'a, K, V, PREFIX_LEN> {
    ghost use Rattle.art_map.specs.Entries.{option_key};
    ghost use Rattle.art_map.specs.LonePairs.{lends_shown_value, shown_pair};

    /// Returns the stored key, if there is one pair alone.
    ///
    /// ```
    /// let mut map = TreeMap::new(rt.alloc());
    /// map.try_insert(StrKey("abc"), 1)?;
    /// if let PrefixEntry::Occupied(entry) = map.prefix_entry(StrKey("ab")) {
    ///     if let PrefixOccupiedKind::Inner(mut entry) = entry.kind() {
    ///         assert_eq!(rt; entry.get_key_value_mut().key(), Some(&StrKey("abc")));
    ///     }
    /// }
    /// ```
    pub fn key(&self) -> Option<&K>
        ensures { option_copied result ≡ option_key (shown_pair self.now) }
    {
        let leaf = self.leaf?;
        Some(self.map.pair_at(leaf).0)
    }

    /// Returns the pair, if there is one alone.
    ///
    /// ```
    /// let mut map = TreeMap::new(rt.alloc());
    /// map.try_insert(StrKey("abc"), 1)?;
    /// if let PrefixEntry::Occupied(entry) = map.prefix_entry(StrKey("ab")) {
    ///     if let PrefixOccupiedKind::Inner(mut entry) = entry.kind() {
    ///         assert_eq!(rt; entry.get_key_value_mut().get(), Some((&StrKey("abc"), &1)));
    ///     }
    /// }
    /// ```
    pub fn get(&self) -> Option<(&K, &V)>
        ensures { option_map deref_pair result ≡ shown_pair self.now }
    {
        let leaf = self.leaf?;
        Some(self.map.pair_at(leaf))
    }

    /// Lends the value for writing, if there is one pair alone.
    ///
    /// ```
    /// let mut map = TreeMap::new(rt.alloc());
    /// map.try_insert(StrKey("abc"), 1)?;
    /// if let PrefixEntry::Occupied(entry) = map.prefix_entry(StrKey("ab")) {
    ///     if let PrefixOccupiedKind::Inner(mut entry) = entry.kind() {
    ///         entry.get_key_value_mut().value_mut().into_iter().for_each(|value| *value = 7);
    ///     }
    /// }
    /// assert_eq!(rt; map.get(&StrKey("abc")), Some(&7));
    /// ```
    pub fn value_mut(&mut self) -> Option<&mut V>
        ensures* writes_back { sem 𝓛 (lends_shown_value K.row V.row PREFIX_LEN K.AsBytes self.entry result) }
        ensures value { option_copied_mut result ≡ option_value (shown_pair self.old) }
    {
        let leaf = self.leaf?;
        let (_key, value) = self.map.pair_mut_at(leaf);
        Some(value)
    }
}

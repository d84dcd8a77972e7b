//! Look-ups: of a key, of the key that is a prefix of a query, with a mark or without, and of the first and the last
//! pair.
ghost use Rattle.std.specs.Prelude.{◌≡◌, Some, IfSome, IsSome, is_some, option_copied, option_map};
ghost use Rattle.std.specs.Borrow.{sem};
ghost use Rattle.std.specs.Option.{option_copied_mut};
ghost use Rattle.std.specs.Map.{lookup, lookup_entry};
ghost use Rattle.std.specs.Map.Iter.{deref_pair, deref_pair_mut};
ghost use Rattle.art_operations.specs.Pairs.{with_pair_put};

use crate::map::TreeMap;
use crate::map::entry::OccupiedEntry;
use art_arena::LeafPtr;
use art_bytes::AsBytes;
use art_operations::{
    marked_search_unchecked, maximum_unchecked, minimum_unchecked, prefix_search_unchecked,
    search_unchecked,
};
use std::ops::Index;

impl<K: AsBytes, V, const PREFIX_LEN: usize> TreeMap<K, V, PREFIX_LEN> {
    ghost use Rattle.art_map.specs.Contents.{first_item, found_pair, found_value, has_bytes, HasLeafAt};
    ghost use Rattle.art_map.specs.Contents.{is_front, last_item, marked_pair, option_value};
    ghost use Rattle.art_map.specs.Entries.{rests_if_none, IsPairOf};
    ghost use Rattle.art_map.specs.Found.{IsAt, IsFound, HasPairAt};
    ghost use Rattle.art_map.specs.Lends.{lends_get, lends_value_at, with_value_at};

    // The leaf of the pair whose key has these bytes.
    pub(super) fn find(&self, key: &[u8]) -> Option<LeafPtr>
        ensures { IsFound (has_bytes K.bytes key.now) self.now result }
    {
        let root = self.root?;
        search_unchecked(&self.arena, root, key)
    }

    // The leaf of the pair whose key is a prefix of these bytes, or equals them.
    fn prefix_find(&self, key: &[u8]) -> Option<LeafPtr>
        ensures { IsFound (is_front K.bytes key.now) self.now result }
    {
        let root = self.root?;
        prefix_search_unchecked(&self.arena, root, key)
    }

    // The leaf of the pair whose key is the longest that is some of these bytes, from the first, and the mark.
    fn marked_find(&self, query: &[u8], mark: u8) -> Option<LeafPtr>
        ensures { IsAt (marked_pair K.bytes query.now mark self.now.pairs) self.now result }
    {
        match self.root {
            Some(root) => marked_search_unchecked(&self.arena, root, query, mark),
            None => None,
        }
    }

    // The leaf of the first pair.
    pub(super) fn first(&self) -> Option<LeafPtr>
        ensures { IsAt (first_item self.now.pairs) self.now result }
    {
        let root = self.root?;
        Some(minimum_unchecked(&self.arena, root))
    }

    // The leaf of the last pair.
    pub(super) fn last(&self) -> Option<LeafPtr>
        ensures { IsAt (last_item self.now.pairs) self.now result }
    {
        let root = self.root?;
        Some(maximum_unchecked(&self.arena, root))
    }

    // The pair of a leaf.
    pub(super) fn pair_at(&self, leaf: LeafPtr) -> (&K, &V)
        requires { HasLeafAt self.now leaf }
        ensures { HasPairAt self.now leaf (deref_pair result) }
    {
        self.arena.as_key_value_ref(leaf)
    }

    // The key of a leaf, and its value for writing.
    pub(super) fn pair_mut_at(&mut self, leaf: LeafPtr) -> (&K, &mut V)
        requires { HasLeafAt self.old leaf }
        ensures* writes_back { sem 𝓛 (lends_value_at K.row V.row PREFIX_LEN.row K.AsBytes self.entry leaf result.1) }
        ensures value { HasPairAt self.old leaf (deref_pair_mut result) }
        ensures pairs { (w : V) → (with_value_at self.old leaf w).pairs
            ≡ with_pair_put K.bytes result.0.now w self.old.pairs }
    {
        self.arena.as_key_ref_value_mut(leaf)
    }

    // Replaces the value of a leaf.
    pub(super) fn write_at(&mut self, leaf: LeafPtr, value: V)
    where
        V: Drop,
        requires { HasLeafAt self.old leaf }
        ensures now { self.new ≡ with_value_at self.old leaf value }
        ensures pairs { (p : K × V) → HasPairAt self.old leaf p
            → self.new.pairs ≡ with_pair_put K.bytes p.0 value self.old.pairs }
    {
        let (_key, old) = self.pair_mut_at(leaf);
        *old = value;
    }

    /// Returns the value of the pair whose key has the query's bytes, if there is one.
    ///
    /// ```
    /// let mut map = TreeMap::new(rt.alloc());
    /// map.insert(*b"ab", 1)?;
    /// assert_eq!(rt; map.get(b"ab"), Some(&1));
    /// assert_eq!(rt; map.get(&StrKey("ab")), Some(&1));
    /// assert_eq!(rt; map.get(b"ac"), None);
    /// ```
    #[tactic(auto, using(crate::proofs::LookedUp::values))]
    pub fn get<Q: AsBytes>(&self, key: &Q) -> Option<&V>
        ensures { option_copied result ≡ found_value K.bytes (Q.bytes key.now) self.now.pairs }
    {
        match self.get_key_value(key) {
            Some((_key, value)) => Some(value),
            None => None,
        }
    }

    /// Returns the pair whose key has the query's bytes, if there is one.
    ///
    /// ```
    /// let mut map = TreeMap::new(rt.alloc());
    /// map.insert(*b"ab", 1)?;
    /// assert_eq!(rt; map.get_key_value(&StrKey("ab")), Some((b"ab", &1)));
    /// ```
    pub fn get_key_value<Q: AsBytes>(&self, key: &Q) -> Option<(&K, &V)>
        ensures { option_map deref_pair result ≡ found_pair K.bytes (Q.bytes key.now) self.now.pairs }
    {
        let leaf = self.find(key.as_bytes())?;
        Some(self.pair_at(leaf))
    }

    /// Returns whether a pair's key has the query's bytes.
    ///
    /// ```
    /// let mut map = TreeMap::new(rt.alloc());
    /// map.insert(*b"ab", 1)?;
    /// assert!(rt; map.contains_key(b"ab"));
    /// assert!(rt; !map.contains_key(b"a"));
    /// ```
    pub fn contains_key<Q: AsBytes>(&self, key: &Q) -> bool
        ensures { result ≡ is_some (found_value K.bytes (Q.bytes key.now) self.now.pairs) }
    {
        self.get(key).is_some()
    }

    /// Lends the value of the pair whose key has the query's bytes for writing, if there is one.
    ///
    /// ```
    /// let mut map = TreeMap::new(rt.alloc());
    /// map.insert(*b"ab", 1)?;
    /// if let Some(value) = map.get_mut(b"ab") {
    ///     *value += 1;
    /// }
    /// assert_eq!(rt; map.get(b"ab"), Some(&2));
    /// ```
    pub fn get_mut<Q: AsBytes>(&mut self, key: &Q) -> Option<&mut V>
        ensures* writes_back { sem 𝓛 (lends_get K.row V.row PREFIX_LEN.row K.AsBytes self.entry
            (has_bytes K.bytes (Q.bytes key.now)) result) }
        ensures value { option_copied_mut result ≡ found_value K.bytes (Q.bytes key.now) self.old.pairs }
    {
        match self.find(key.as_bytes()) {
            Some(leaf) => {
                let (_key, value) = self.pair_mut_at(leaf);
                Some(value)
            }
            None => None,
        }
    }

    /// Returns the value of the one pair whose key is a prefix of the query's bytes, or equals them, if there is one.
    ///
    /// ```
    /// let mut blocks = TreeMap::new(rt.alloc());
    /// blocks.try_insert(SliceKey(&[10, 1]), "lab")?;
    /// assert_eq!(rt; blocks.prefix_get(&[10, 1, 0, 7]), Some(&"lab"));
    /// assert_eq!(rt; blocks.prefix_get(&[10, 2, 0, 7]), None);
    /// ```
    #[tactic(auto, using(crate::proofs::LookedUp::values))]
    pub fn prefix_get<Q: AsBytes>(&self, key: &Q) -> Option<&V>
        ensures { option_copied result ≡ lookup (is_front K.bytes (Q.bytes key.now)) self.now.pairs }
    {
        match self.prefix_get_key_value(key) {
            Some((_key, value)) => Some(value),
            None => None,
        }
    }

    /// Returns the one pair whose key is a prefix of the query's bytes, or equals them, if there is one.
    ///
    /// ```
    /// let mut map = TreeMap::new(rt.alloc());
    /// map.try_insert(StrKey("ab"), 1)?;
    /// assert_eq!(rt; map.prefix_get_key_value(&StrKey("abc")), Some((&StrKey("ab"), &1)));
    /// ```
    pub fn prefix_get_key_value<Q: AsBytes>(&self, key: &Q) -> Option<(&K, &V)>
        ensures { option_map deref_pair result ≡ lookup_entry (is_front K.bytes (Q.bytes key.now)) self.now.pairs }
    {
        let leaf = self.prefix_find(key.as_bytes())?;
        Some(self.pair_at(leaf))
    }

    /// Returns the value of the pair whose key is the longest that is a prefix of the query's bytes, or all of them,
    /// and the mark after it, if there is one.
    ///
    /// ```
    /// let mut routes = TreeMap::new(rt.alloc());
    /// routes.try_insert(SliceKey(b"/\0"), 1)?;
    /// routes.try_insert(SliceKey(b"/api\0"), 2)?;
    /// assert_eq!(rt; routes.marked_get(b"/api/v1", 0), Some(&2));
    /// assert_eq!(rt; routes.marked_get(b"/about", 0), Some(&1));
    /// assert_eq!(rt; routes.marked_get(b"api", 0), None);
    /// ```
    pub fn marked_get<Q: AsBytes>(&self, query: &Q, mark: u8) -> Option<&V>
        ensures { option_copied result ≡ option_value (marked_pair K.bytes (Q.bytes query.now) mark self.now.pairs) }
    {
        match self.marked_get_key_value(query, mark) {
            Some((_key, value)) => Some(value),
            None => None,
        }
    }

    /// Returns the pair whose key is the longest that is a prefix of the query's bytes, or all of them, and the mark
    /// after it, if there is one. So it finds the longest text that begins the query where each key is a text and an
    /// end mark, which lets texts be stored that begin each other. The query has no mark.
    ///
    /// The query is gone down once, or twice where prefixes aren't wholly stored: its time grows with the query's
    /// length, however many keys begin it.
    ///
    /// ```
    /// let mut map = TreeMap::new(rt.alloc());
    /// map.try_insert(SliceKey(b"a\0"), 1)?;
    /// map.try_insert(SliceKey(b"ab\0"), 2)?;
    /// assert_eq!(rt; map.marked_get_key_value(b"abc", 0), Some((&SliceKey(b"ab\0"), &2)));
    /// ```
    pub fn marked_get_key_value<Q: AsBytes>(&self, query: &Q, mark: u8) -> Option<(&K, &V)>
        ensures { option_map deref_pair result ≡ marked_pair K.bytes (Q.bytes query.now) mark self.now.pairs }
    {
        let leaf = self.marked_find(query.as_bytes(), mark)?;
        Some(self.pair_at(leaf))
    }

    /// Lends the value of the one pair whose key is a prefix of the query's bytes, or equals them, for writing, if
    /// there is one.
    ///
    /// ```
    /// let mut map = TreeMap::new(rt.alloc());
    /// map.try_insert(StrKey("ab"), 1)?;
    /// if let Some(value) = map.prefix_get_mut(&StrKey("abc")) {
    ///     *value = 7;
    /// }
    /// assert_eq!(rt; map.get(&StrKey("ab")), Some(&7));
    /// ```
    pub fn prefix_get_mut<Q: AsBytes>(&mut self, key: &Q) -> Option<&mut V>
        ensures* writes_back { sem 𝓛 (lends_get K.row V.row PREFIX_LEN.row K.AsBytes self.entry
            (is_front K.bytes (Q.bytes key.now)) result) }
        ensures value { option_copied_mut result ≡ lookup (is_front K.bytes (Q.bytes key.now)) self.old.pairs }
    {
        match self.prefix_find(key.as_bytes()) {
            Some(leaf) => {
                let (_key, value) = self.pair_mut_at(leaf);
                Some(value)
            }
            None => None,
        }
    }

    /// Returns the entry of the one pair whose key is a prefix of the query's bytes, or equals them, if there is one.
    /// The entry shows the pair's key and lends its value for writing.
    ///
    /// ```
    /// let mut map = TreeMap::new(rt.alloc());
    /// map.insert(*b"ab", 1)?;
    /// if let Some(mut entry) = map.prefix_get_key_value_mut(b"abc") {
    ///     assert_eq!(rt; entry.key(), b"ab");
    ///     *entry.get_mut() = 7;
    /// }
    /// ```
    pub fn prefix_get_key_value_mut<Q: AsBytes>(
        &mut self,
        key: &Q,
    ) -> Option<OccupiedEntry<'_, K, V, PREFIX_LEN>>
        ensures* rests { sem 𝓛 (rests_if_none K.row V.row PREFIX_LEN K.AsBytes self.entry result) }
        ensures same_map { IfSome result (λ entry.
            (entry.map.ghost_name ≡ self.entry.ghost_name) × (entry.map.now ≡ self.old)) }
        ensures pair { IsPairOf (lookup_entry (is_front K.bytes (Q.bytes key.now)) self.old.pairs) result }
    {
        let leaf = self.prefix_find(key.as_bytes())?;
        Some(OccupiedEntry::new(self, leaf))
    }

    /// Returns the first pair, whose key is the least, if there is one.
    ///
    /// ```
    /// let mut map = TreeMap::new(rt.alloc());
    /// map.extend([(*b"cd", 2), (*b"ab", 1)])?;
    /// assert_eq!(rt; map.first_key_value(), Some((b"ab", &1)));
    /// ```
    pub fn first_key_value(&self) -> Option<(&K, &V)>
        ensures { option_map deref_pair result ≡ first_item self.now.pairs }
    {
        let leaf = self.first()?;
        Some(self.pair_at(leaf))
    }

    /// Returns the last pair, whose key is the greatest, if there is one.
    ///
    /// ```
    /// let mut map = TreeMap::new(rt.alloc());
    /// map.extend([(*b"cd", 2), (*b"ab", 1)])?;
    /// assert_eq!(rt; map.last_key_value(), Some((b"cd", &2)));
    /// ```
    pub fn last_key_value(&self) -> Option<(&K, &V)>
        ensures { option_map deref_pair result ≡ last_item self.now.pairs }
    {
        let leaf = self.last()?;
        Some(self.pair_at(leaf))
    }
}

/// `map[key]` is the value of a key. The key has to be stored, as `contains_key` tells.
///
/// ```
/// let mut map = TreeMap::new(rt.alloc());
/// map.insert(*b"ab", 1)?;
/// assert_eq!(rt; map[b"ab"], 1);
/// ```
impl<K: AsBytes, V, Q: AsBytes, const PREFIX_LEN: usize> Index<&Q> for TreeMap<K, V, PREFIX_LEN> {
    ghost use Rattle.art_map.specs.Contents.{found_value};

    type Output = V;

    ghost can_index = { λ m q. IsSome (found_value K.bytes (Q.bytes q.now) m.pairs) };

    ghost index_gives = { λ m q v. found_value K.bytes (Q.bytes q.now) m.pairs ≡ Some v };

    fn index(&self, key: &Q) -> &V {
        self.get(key).unwrap()
    }
}

//! Insertions: of a pair whose key overlaps no other, in place of an equal key, or in place of all that overlap.
ghost use Rattle.std.specs.Prelude.{◌≡◌, ◌-◌, ℕ, List, [], length, None, Some, IfOk, IfErr, IsOk, MatchResult, OnErr};
ghost use Rattle.std.specs.Prelude.{OnOk};
ghost use Rattle.std.specs.List.{AllByRecursion};
ghost use Rattle.std.specs.Map.{set_value};
ghost use Rattle.art_arena.specs.arena.Arena.{HasRoom, KeepsRoomOf, UsesRoom};
ghost use Rattle.art_arena.specs.arena.Shapes.{key_of};
ghost use Rattle.art_operations.specs.Frees.{SwapsLeaves};
ghost use Rattle.art_operations.specs.Insertions.{HandsPairBack, IsForConflict, IsPairRefused};
ghost use Rattle.art_operations.specs.KeyedLists.{HasKey, IsBlocked, overlapping};
ghost use Rattle.art_operations.specs.Pairs.{CanPut, IsPlaceFor, TellsConflict, with_pair_put, with_pair_over};
ghost use Rattle.art_map.specs.Contents.{entry_in, found_pair, found_value, option_value, IsUntouched};
ghost use Rattle.art_map.specs.Found.{HasPairAt};
ghost use Rattle.art_map.specs.LeafNames.{KeepsAllLeaves, KeepsLeaves};
ghost use Rattle.art_map.specs.Room.{UsesLeafRoom};

use crate::map::TreeMap;
use crate::map::refused::TryInsertError;
use art_arena::LeafPtr;
use art_bytes::{AsBytes, NoPrefixesBytes};
use art_nodes::{LeafNode, assume_proved};
use art_operations::{
    InsertPoint, InsertPrefixError, InsertRefused, KeyPrefix, PairRefused, PrefixConflict,
    find_place, insert_at, insert_pair,
};
use std::mem::replace;

// The pair of a leaf, if there is one.
#[inline(always)]
fn entry_of<K, V>(leaf: Option<LeafNode<K, V>>) -> Option<(K, V)>
    ensures { result ≡ entry_in leaf }
{
    Some(leaf?.into_entry())
}

// The value of a pair, whose key is dropped.
#[inline(always)]
pub(super) fn value_of<K: Drop, V>(pair: Option<(K, V)>) -> Option<V>
    ensures { result ≡ option_value pair }
{
    let (_key, value) = pair?;
    Some(value)
}

impl<K: AsBytes, V, const PREFIX_LEN: usize> TreeMap<K, V, PREFIX_LEN> {
    ghost use Rattle.art_map.specs.Contents.{has_bytes};
    ghost use Rattle.art_map.specs.Changes.{IsTryRefused};
    ghost use Rattle.art_operations.specs.Pairs.{IsPlaced};
    ghost use Rattle.art_map.specs.Found.{IsFound};

    /// Finds where a key with the query's bytes goes, for `insert_at`. It allocates nothing.
    ///
    /// Fails if the key is a prefix of a stored key, or a stored key is a prefix of it. The error names the part of the
    /// tree that has these keys.
    ///
    /// ```
    /// let mut map = TreeMap::new(rt.alloc());
    /// map.try_insert(StrKey("ab"), 1)?;
    /// assert!(rt; map.find_place(&StrKey("cd")).is_ok());
    /// assert!(rt; map.find_place(&StrKey("abc")).is_err());
    /// ```
    #[inline(always)]
    pub fn find_place<Q: AsBytes>(&self, key: &Q) -> Result<Option<InsertPoint>, PrefixConflict>
        ensures placed { IsPlaced K.bytes PREFIX_LEN self.now.nodes (Q.bytes key.now) result self.now.pairs [] }
        ensures place { IfOk result (IsPlaceFor K.bytes PREFIX_LEN self.now.nodes self.now.root (Q.bytes key.now)) }
        ensures part { IfErr result
            (TellsConflict K.bytes PREFIX_LEN self.now.nodes self.now.root (Q.bytes key.now)) }
        ensures stored { HasKey (key_of K.bytes) (Q.bytes key.now) self.now.pairs → IsOk result }
        ensures keys { AllByRecursion (λ p. K.is_key p.0) self.now.pairs }
        ensures key { Q.is_key key.now }
    {
        // By value an option of a name counts as moved, so a copy goes in.
        let root = self.root;
        find_place(&self.arena, root, key.as_bytes())
    }

    // The leaf of the pair that already has a key, if the place that was found for the key is one.
    pub(super) fn stored_at(&self, place: &Option<InsertPoint>) -> Option<LeafPtr>
        ensures { (key : List ℕ) → ∥ IsPlaceFor K.bytes PREFIX_LEN self.now.nodes self.now.root key place.now ∥₁
            → IsFound (has_bytes K.bytes key) self.now result }
    {
        let _opened = &self.root;
        match place {
            Some(point) => point.stored_leaf(),
            None => None,
        }
    }

    /// Inserts a pair at the place that `find_place` found for its key in this map as it is. It replaces a pair whose
    /// key has the same bytes, and returns that pair's value.
    ///
    /// Fails only if out of memory, and never if the key is stored or the nodes have room for two more. The error
    /// returns the pair. The map and its nodes are unchanged then, so the place is still right.
    ///
    /// ```
    /// let mut map = TreeMap::new(rt.alloc());
    /// if let Ok(place) = map.find_place(&StrKey("ab")) {
    ///     map.insert_at(place, StrKey("ab"), 1)?;
    /// }
    /// assert_eq!(rt; map.get(&StrKey("ab")), Some(&1));
    /// ```
    #[inline(always)]
    pub fn insert_at(
        &mut self,
        place: Option<InsertPoint>,
        key: K,
        value: V,
    ) -> Result<Option<V>, InsertRefused<K, V>>
    where
        K: Drop,
        requires { CanPut K.bytes PREFIX_LEN self.old.nodes place (K.bytes key) self.old.pairs [] }
        ensures value { IfOk result (λ old. old ≡ found_value K.bytes (K.bytes key) self.old.pairs) }
        ensures pairs { OnOk result (self.new.pairs ≡ with_pair_put K.bytes key value self.old.pairs) }
        ensures stored { HasKey (key_of K.bytes) (K.bytes key) self.old.pairs → IsOk result }
        ensures names { OnOk result (KeepsAllLeaves K.bytes self.old self.new) }
        ensures err { OnErr result (self.new.pairs ≡ self.old.pairs) }
        ensures kept { OnErr result (IsUntouched self.old self.new) }
        ensures handed_back { HandsPairBack key value result }
        ensures succeeds { HasRoom self.old.nodes 2 → IsOk result }
        ensures room { UsesRoom 2 self.old.nodes self.new.nodes }
        ensures stored_room { HasKey (key_of K.bytes) (K.bytes key) self.old.pairs
            → KeepsRoomOf self.old.nodes self.new.nodes }
        ensures leaf_room { UsesLeafRoom (length self.new.pairs - length self.old.pairs) self.old.nodes self.new.nodes }
    {
        let (_leaf, old) = self.insert_leaf_at(place, key, value)?;
        Ok(old)
    }

    /// Replaces the value at the place that `find_place` found for a key in this map as it is, and returns the old one.
    /// If the key is not stored, it returns the value that was passed. It copies no key, and allocates nothing.
    ///
    /// ```
    /// let mut map = TreeMap::new(rt.alloc());
    /// map.try_insert(StrKey("ab"), 1)?;
    /// if let Ok(place) = map.find_place(&StrKey("ab")) {
    ///     assert_eq!(rt; map.replace_at(&place, 2), Ok(1));
    /// }
    /// assert_eq!(rt; map.get(&StrKey("ab")), Some(&2));
    /// ```
    pub fn replace_at(&mut self, place: &Option<InsertPoint>, value: V) -> Result<V, V>
        requires { (key : List ℕ) × IsPlaceFor K.bytes PREFIX_LEN self.old.nodes self.old.root key place.now }
        ensures value { (key : List ℕ) → IsPlaceFor K.bytes PREFIX_LEN self.old.nodes self.old.root key place.now
            → MatchResult result (λ old. found_value K.bytes key self.old.pairs ≡ Some old)
            (λ back. (found_value K.bytes key self.old.pairs ≡ None) × (back ≡ value)) }
        ensures pairs { OnOk result ((key : List ℕ)
            → IsPlaceFor K.bytes PREFIX_LEN self.old.nodes self.old.root key place.now
            → self.new.pairs ≡ set_value (has_bytes K.bytes key) self.old.pairs value) }
        ensures names { OnOk result (KeepsAllLeaves K.bytes self.old self.new) }
        ensures room { OnOk result (KeepsRoomOf self.old.nodes self.new.nodes) }
        ensures same { OnErr result (self.new ≡ self.old) }
    {
        match self.stored_at(place) {
            Some(leaf) => {
                let (_key, stored) = self.pair_mut_at(leaf);
                Ok(replace(stored, value))
            }
            None => Err(value),
        }
    }

    // Inserts a pair as `insert_at` does, and returns its leaf too.
    #[inline(always)]
    pub(super) fn insert_leaf_at(
        &mut self,
        place: Option<InsertPoint>,
        key: K,
        value: V,
    ) -> Result<(LeafPtr, Option<V>), InsertRefused<K, V>>
    where
        K: Drop,
        requires { CanPut K.bytes PREFIX_LEN self.old.nodes place (K.bytes key) self.old.pairs [] }
        ensures leaf { IfOk result (λ put. HasPairAt self.new put.0 (key, value)) }
        ensures value { IfOk result (λ put. put.1 ≡ found_value K.bytes (K.bytes key) self.old.pairs) }
        ensures pairs { OnOk result (self.new.pairs ≡ with_pair_put K.bytes key value self.old.pairs) }
        ensures stored { HasKey (key_of K.bytes) (K.bytes key) self.old.pairs → IsOk result }
        ensures names { OnOk result (KeepsAllLeaves K.bytes self.old self.new) }
        ensures err { OnErr result (self.new.pairs ≡ self.old.pairs) }
        ensures kept { OnErr result (IsUntouched self.old self.new) }
        ensures handed_back { HandsPairBack key value result }
        ensures succeeds { HasRoom self.old.nodes 2 → IsOk result }
        ensures room { UsesRoom 2 self.old.nodes self.new.nodes }
        ensures stored_room { HasKey (key_of K.bytes) (K.bytes key) self.old.pairs
            → KeepsRoomOf self.old.nodes self.new.nodes }
        ensures leaf_room { UsesLeafRoom (length self.new.pairs - length self.old.pairs) self.old.nodes self.new.nodes }
        ensures one_leaf { UsesLeafRoom 1 self.old.nodes self.new.nodes }
    {
        let _key_bytes = key.as_bytes();
        match insert_at(&mut self.arena, place, key, value) {
            Ok(put) => {
                self.root = Some(put.new_root);
                let leaf = put.leaf_node_ptr;
                Ok((leaf, value_of(entry_of(put.existing_leaf))))
            }
            Err(refused) => Err(refused),
        }
    }

    // Inserts a pair at the place that is remembered for its key, and returns its leaf.
    pub(super) fn insert_leaf(
        &mut self,
        place: Option<InsertPoint>,
        key: K,
        value: V,
    ) -> Result<LeafPtr, InsertRefused<K, V>>
    where
        K: Drop,
        V: Drop,
        requires { ∥ IsPlaceFor K.bytes PREFIX_LEN self.old.nodes self.old.root (K.bytes key) place ∥₁ }
        ensures leaf { IfOk result (λ leaf. HasPairAt self.new leaf (key, value)) }
        ensures pairs { OnOk result (self.new.pairs ≡ with_pair_put K.bytes key value self.old.pairs) }
        ensures names { OnOk result (KeepsAllLeaves K.bytes self.old self.new) }
        ensures err { OnErr result (self.new.pairs ≡ self.old.pairs) }
        ensures kept { OnErr result (IsUntouched self.old self.new) }
        ensures handed_back { HandsPairBack key value result }
        ensures succeeds { HasRoom self.old.nodes 2 → IsOk result }
        ensures room { UsesRoom 2 self.old.nodes self.new.nodes }
        ensures leaf_room { UsesLeafRoom 1 self.old.nodes self.new.nodes }
    {
        let _opened = &self.root;
        let (leaf, _old) = self.insert_leaf_at(place, key, value)?;
        Ok(leaf)
    }

    // Inserts a pair, and returns the one whose key has the same bytes, if there is one. If it fails, the map is
    // unchanged.
    #[inline(always)]
    pub(super) fn put(&mut self, key: K, value: V) -> Result<Option<(K, V)>, PairRefused<K, V>>
        ensures old { IfOk result (λ old. old ≡ found_pair K.bytes (K.bytes key) self.old.pairs) }
        ensures pairs { OnOk result (self.new.pairs ≡ with_pair_put K.bytes key value self.old.pairs) }
        ensures free { OnOk result (IsBlocked (key_of K.bytes) (K.bytes key) self.old.pairs → ⊥) }
        ensures stored { HasKey (key_of K.bytes) (K.bytes key) self.old.pairs → IsOk result }
        ensures names { OnOk result (KeepsAllLeaves K.bytes self.old self.new) }
        ensures err { OnErr result (self.new.pairs ≡ self.old.pairs) }
        ensures kept { OnErr result (IsUntouched self.old self.new) }
        ensures refused { IfErr result
            (IsPairRefused key value (IsBlocked (key_of K.bytes) (K.bytes key) self.old.pairs)) }
        ensures succeeds { IfErr result (λ e. HasRoom self.old.nodes 2 → IsForConflict e) }
        ensures room { UsesRoom 2 self.old.nodes self.new.nodes }
        ensures stored_room { HasKey (key_of K.bytes) (K.bytes key) self.old.pairs
            → KeepsRoomOf self.old.nodes self.new.nodes }
        ensures leaf_room { UsesLeafRoom (length self.new.pairs - length self.old.pairs) self.old.nodes self.new.nodes }
        ensures one_leaf { UsesLeafRoom 1 self.old.nodes self.new.nodes }
        ensures keys { AllByRecursion (λ p. K.is_key p.0) self.old.pairs }
        ensures key { K.is_key key }
    {
        let _key_bytes = key.as_bytes();
        // By value an option of a name counts as moved, so a copy goes in.
        let root = self.root;
        match insert_pair(&mut self.arena, root, key, value) {
            Ok(put) => {
                self.root = Some(put.new_root);
                Ok(entry_of(put.existing_leaf))
            }
            Err(refused) => Err(refused),
        }
    }

    /// Inserts a pair. It replaces a pair whose key has the same bytes, and returns that pair's value.
    ///
    /// Fails with `Prefix` if the key is a prefix of a stored key, or a stored key is a prefix of it. Fails with
    /// `Memory` if out of memory, for the pair or for the bytes that `Prefix` tells. The error returns the pair, and
    /// the map is unchanged. A key that is stored never fails.
    ///
    /// ```
    /// let mut map = TreeMap::new(rt.alloc());
    /// assert_eq!(rt; map.try_insert(StrKey("ab"), 1)?, None);
    /// assert_eq!(rt; map.try_insert(StrKey("ab"), 2)?, Some(1));
    /// assert!(rt; matches!(map.try_insert(StrKey("abc"), 3), Err(TryInsertError::Prefix { .. })));
    /// ```
    #[inline(never)]
    #[tactic(auto, using(crate::proofs::LookedUp::values))]
    pub fn try_insert(&mut self, key: K, value: V) -> Result<Option<V>, TryInsertError<K, V>>
    where
        K: Drop,
        ensures value { IfOk result (λ old. old ≡ found_value K.bytes (K.bytes key) self.old.pairs) }
        ensures pairs { OnOk result (self.new.pairs ≡ with_pair_put K.bytes key value self.old.pairs) }
        ensures free { OnOk result (IsBlocked (key_of K.bytes) (K.bytes key) self.old.pairs → ⊥) }
        ensures stored { HasKey (key_of K.bytes) (K.bytes key) self.old.pairs → IsOk result }
        ensures names { OnOk result (KeepsAllLeaves K.bytes self.old self.new) }
        ensures err { OnErr result (self.new.pairs ≡ self.old.pairs) }
        ensures kept { OnErr result (IsUntouched self.old self.new) }
        ensures refused { IfErr result (IsTryRefused K.bytes self.old.pairs key value) }
        ensures succeeds { OnErr result (HasRoom self.old.nodes 2
            → IsBlocked (key_of K.bytes) (K.bytes key) self.old.pairs) }
        ensures room { UsesRoom 2 self.old.nodes self.new.nodes }
        ensures stored_room { HasKey (key_of K.bytes) (K.bytes key) self.old.pairs
            → KeepsRoomOf self.old.nodes self.new.nodes }
        ensures leaf_room { UsesLeafRoom (length self.new.pairs - length self.old.pairs) self.old.nodes self.new.nodes }
    {
        match self.put(key, value) {
            Ok(old) => Ok(value_of(old)),
            Err(refused) => Err(self.refusal(refused)),
        }
    }

    // Why a pair was not inserted.
    #[inline(never)]
    fn refusal(&self, refused: PairRefused<K, V>) -> TryInsertError<K, V>
        requires { (key : K) × (value : V)
            × IsPairRefused key value (IsBlocked (key_of K.bytes) (K.bytes key) self.now.pairs) refused }
        ensures { (key : K) (value : V)
            → IsPairRefused key value (IsBlocked (key_of K.bytes) (K.bytes key) self.now.pairs) refused
            → IsTryRefused K.bytes self.now.pairs key value result }
    {
        match refused {
            PairRefused::Conflict { key, value } => self.blocked(key, value),
            PairRefused::Memory { key, value } => TryInsertError::Memory { key, value },
        }
    }

    // Why a pair was not inserted whose key a stored one blocks.
    fn blocked(&self, key: K, value: V) -> TryInsertError<K, V>
        requires { IsBlocked (key_of K.bytes) (K.bytes key) self.now.pairs }
        ensures { IsTryRefused K.bytes self.now.pairs key value result }
    {
        match KeyPrefix::new(self.alloc, key.as_bytes()) {
            Ok(byte_repr) => TryInsertError::Prefix {
                key,
                value,
                error: InsertPrefixError { byte_repr },
            },
            Err(_) => TryInsertError::Memory { key, value },
        }
    }

    /// Inserts a pair in place of all whose keys overlap its key. These have the same bytes, or a prefix of them, or
    /// begin with them. It returns how many they were.
    ///
    /// Fails only if out of memory, and never if the key is stored or the nodes have room for two more. The error
    /// returns the pair, and the map is unchanged. Where there was room for a leaf, there is room for one less now, and
    /// for as many more as pairs went.
    ///
    /// ```
    /// let mut map = TreeMap::new(rt.alloc());
    /// map.try_insert(StrKey("abc"), 1)?;
    /// map.try_insert(StrKey("abd"), 2)?;
    /// assert_eq!(rt; map.prefix_insert(StrKey("ab"), 3)?, 2);
    /// assert_eq!(rt; map.len(), 1);
    /// ```
    pub fn prefix_insert(&mut self, key: K, value: V) -> Result<usize, InsertRefused<K, V>>
    where
        K: Drop,
        V: Drop,
        ensures count { IfOk result (λ n. n ≡ length (overlapping (key_of K.bytes) (K.bytes key) self.old.pairs)) }
        ensures pairs { OnOk result (self.new.pairs ≡ with_pair_over K.bytes key value self.old.pairs) }
        ensures stored { HasKey (key_of K.bytes) (K.bytes key) self.old.pairs → IsOk result }
        ensures names { OnOk result (KeepsLeaves K.bytes self.old self.new) }
        ensures err { OnErr result (self.new.pairs ≡ self.old.pairs) }
        ensures kept { OnErr result (IsUntouched self.old self.new) }
        ensures handed_back { HandsPairBack key value result }
        ensures succeeds { HasRoom self.old.nodes 2 → IsOk result }
        ensures room { UsesRoom 2 self.old.nodes self.new.nodes }
        ensures stored_room { HasKey (key_of K.bytes) (K.bytes key) self.old.pairs
            → KeepsRoomOf self.old.nodes self.new.nodes }
        ensures leaf_room { IfOk result (λ n. SwapsLeaves 1 n self.old.nodes self.new.nodes) }
    {
        let put = self.prefix_put(key, value)?;
        Ok(put.count)
    }
}

impl<K: NoPrefixesBytes, V, const PREFIX_LEN: usize> TreeMap<K, V, PREFIX_LEN> {
    // Where a key goes: no key of its type is a prefix of another.
    pub(super) fn place_free(&self, key: &K) -> Option<InsertPoint>
        ensures placed { CanPut K.bytes PREFIX_LEN self.now.nodes result (K.bytes key.now) self.now.pairs [] }
        ensures place { IsPlaceFor K.bytes PREFIX_LEN self.now.nodes self.now.root (K.bytes key.now) result }
    {
        match self.find_place(key) {
            Ok(place) => place,
            Err(_) => unreachable!(),
        }
    }

    /// Inserts a pair. It replaces a pair whose key has the same bytes, and returns that pair's value.
    ///
    /// Fails only if out of memory, and never if the key is stored. The error returns the pair, and the map is
    /// unchanged.
    ///
    /// ```
    /// let mut map = TreeMap::new(rt.alloc());
    /// assert_eq!(rt; map.insert(*b"ab", 1)?, None);
    /// assert_eq!(rt; map.insert(*b"ab", 2)?, Some(1));
    /// assert_eq!(rt; map.get(b"ab"), Some(&2));
    /// ```
    #[tactic(auto, using(crate::proofs::LookedUp::values))]
    pub fn insert(&mut self, key: K, value: V) -> Result<Option<V>, InsertRefused<K, V>>
    where
        K: Drop,
        ensures value { IfOk result (λ old. old ≡ found_value K.bytes (K.bytes key) self.old.pairs) }
        ensures pairs { OnOk result (self.new.pairs ≡ with_pair_put K.bytes key value self.old.pairs) }
        ensures stored { HasKey (key_of K.bytes) (K.bytes key) self.old.pairs → IsOk result }
        ensures names { OnOk result (KeepsAllLeaves K.bytes self.old self.new) }
        ensures err { OnErr result (self.new.pairs ≡ self.old.pairs) }
        ensures kept { OnErr result (IsUntouched self.old self.new) }
        ensures handed_back { HandsPairBack key value result }
        ensures succeeds { HasRoom self.old.nodes 2 → IsOk result }
        ensures room { UsesRoom 2 self.old.nodes self.new.nodes }
        ensures stored_room { HasKey (key_of K.bytes) (K.bytes key) self.old.pairs
            → KeepsRoomOf self.old.nodes self.new.nodes }
        ensures leaf_room { UsesLeafRoom (length self.new.pairs - length self.old.pairs) self.old.nodes self.new.nodes }
    {
        let old = self.replace_entry(key, value)?;
        Ok(value_of(old))
    }

    /// Inserts a pair. It replaces a pair whose key has the same bytes, and returns that pair with its key.
    ///
    /// Fails only if out of memory, and never if the key is stored or the nodes have room for two more. The error
    /// returns the pair, and the map is unchanged.
    ///
    /// ```
    /// let mut map = TreeMap::new(rt.alloc());
    /// assert_eq!(rt; map.replace_entry(*b"ab", 1)?, None);
    /// assert_eq!(rt; map.replace_entry(*b"ab", 2)?, Some((*b"ab", 1)));
    /// ```
    #[inline(always)]
    pub fn replace_entry(&mut self, key: K, value: V) -> Result<Option<(K, V)>, InsertRefused<K, V>>
        ensures old { IfOk result (λ old. old ≡ found_pair K.bytes (K.bytes key) self.old.pairs) }
        ensures pairs { OnOk result (self.new.pairs ≡ with_pair_put K.bytes key value self.old.pairs) }
        ensures stored { HasKey (key_of K.bytes) (K.bytes key) self.old.pairs → IsOk result }
        ensures names { OnOk result (KeepsAllLeaves K.bytes self.old self.new) }
        ensures err { OnErr result (self.new.pairs ≡ self.old.pairs) }
        ensures kept { OnErr result (IsUntouched self.old self.new) }
        ensures handed_back { HandsPairBack key value result }
        ensures succeeds { HasRoom self.old.nodes 2 → IsOk result }
        ensures room { UsesRoom 2 self.old.nodes self.new.nodes }
        ensures stored_room { HasKey (key_of K.bytes) (K.bytes key) self.old.pairs
            → KeepsRoomOf self.old.nodes self.new.nodes }
        ensures leaf_room { UsesLeafRoom (length self.new.pairs - length self.old.pairs) self.old.nodes self.new.nodes }
    {
        match self.put(key, value) {
            Ok(old) => Ok(old),
            Err(PairRefused::Memory { key, value }) => Err(InsertRefused { key, value }),
            Err(PairRefused::Conflict { .. }) => {
                assume_proved(false);
                unreachable!()
            }
        }
    }
}

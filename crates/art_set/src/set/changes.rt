//! Insertions: of a key that overlaps no other, or in place of a key with the same bytes.
ghost use Rattle.std.specs.Prelude.{◌≡◌, ◌-◌, List, find, length, not, IfErr, IfOk, IsOk, OnErr, OnOk};
ghost use Rattle.art_operations.specs.KeyedLists.{HasKey, IsBlocked};
ghost use Rattle.std.specs.Map.{keys_of};
ghost use Rattle.art_map.specs.Contents.{has_bytes};
ghost use Rattle.art_map.specs.Changes.{IsTryRefused as IsPairRefused};
ghost use Rattle.art_map.specs.Room.{UsesLeafRoom};
ghost use Rattle.art_arena.specs.arena.Arena.{HasRoom, KeepsRoomOf, UsesRoom};
ghost use Rattle.art_set.specs.Changes.{IsKeyTurnedAway};
ghost use Rattle.art_set.specs.LeafNames.{IsSetUntouched, KeepsAllNames};
ghost use Rattle.art_set.specs.Members.{is_member, with_key_put};

use crate::set::TreeSet;
use crate::set::refused::RefusedKey;
use crate::set::removals::key_of;
use art_bytes::{AsBytes, NoPrefixesBytes};
use art_map::{TryInsertError, TryKeyError};

// Why a key was not inserted, from why its pair was not.
fn without_value<K: AsBytes>(refused: TryInsertError<K, ()>) -> TryKeyError<K>
    ensures { (pairs : List (K × Unit {0})) (key : K) → IsPairRefused K.bytes pairs key tt refused
        → IsKeyTurnedAway K.bytes (keys_of pairs) key result }
{
    match refused {
        TryInsertError::Prefix { key, error, .. } => TryKeyError::Prefix { key, error },
        TryInsertError::Memory { key, .. } => TryKeyError::Memory { key },
    }
}

impl<K: AsBytes, const PREFIX_LEN: usize> TreeSet<K, PREFIX_LEN> {
    /// Inserts a key. It replaces a key with the same bytes, and returns whether there was none.
    ///
    /// Fails with `Prefix` if the key is a prefix of a key of the set, or one of these is a prefix of it. Fails with
    /// `Memory` if out of memory, for the key or for the bytes that `Prefix` tells. The error returns the key, and the
    /// set is unchanged. A key whose bytes are stored never fails.
    ///
    /// ```
    /// let mut set = TreeSet::new(rt.alloc());
    /// assert!(rt; set.try_insert(StrKey("ab"))?);
    /// assert!(rt; !set.try_insert(StrKey("ab"))?);
    /// assert!(rt; set.try_insert(StrKey("abc")).is_err());
    /// ```
    pub fn try_insert(&mut self, key: K) -> Result<bool, TryKeyError<K>>
    where
        K: Drop,
        ensures added { IfOk result (λ added. added ≡ not (is_member K.bytes (K.bytes key) self.old.keys)) }
        ensures keys { OnOk result (self.new.keys ≡ with_key_put K.bytes key self.old.keys) }
        ensures free { OnOk result (IsBlocked K.bytes (K.bytes key) self.old.keys → ⊥) }
        ensures stored { HasKey K.bytes (K.bytes key) self.old.keys → IsOk result }
        ensures names { OnOk result (KeepsAllNames K.bytes self.old self.new) }
        ensures err { OnErr result (self.new.keys ≡ self.old.keys) }
        ensures kept { OnErr result (IsSetUntouched self.old self.new) }
        ensures refused { IfErr result (IsKeyTurnedAway K.bytes self.old.keys key) }
        ensures succeeds { OnErr result (HasRoom self.old.nodes 2 → IsBlocked K.bytes (K.bytes key) self.old.keys) }
        ensures room { UsesRoom 2 self.old.nodes self.new.nodes }
        ensures stored_room { HasKey K.bytes (K.bytes key) self.old.keys
            → KeepsRoomOf self.old.nodes self.new.nodes }
        ensures leaf_room { UsesLeafRoom (length self.new.keys - length self.old.keys) self.old.nodes self.new.nodes }
    {
        let old = match self.map.try_insert(key, ()) {
            Ok(old) => old,
            Err(refused) => return Err(without_value(refused)),
        };
        Ok(old.is_none())
    }
}

impl<K: NoPrefixesBytes, const PREFIX_LEN: usize> TreeSet<K, PREFIX_LEN> {
    /// Inserts a key. It replaces a key with the same bytes, and returns whether there was none.
    ///
    /// Fails only if out of memory, and never if the key's bytes are stored. The error returns the key, and the set is
    /// unchanged.
    ///
    /// ```
    /// let mut set = TreeSet::new(rt.alloc());
    /// assert!(rt; set.insert(*b"ab")?);
    /// assert!(rt; !set.insert(*b"ab")?);
    /// ```
    pub fn insert(&mut self, key: K) -> Result<bool, RefusedKey<K>>
    where
        K: Drop,
        ensures added { IfOk result (λ added. added ≡ not (is_member K.bytes (K.bytes key) self.old.keys)) }
        ensures keys { OnOk result (self.new.keys ≡ with_key_put K.bytes key self.old.keys) }
        ensures stored { HasKey K.bytes (K.bytes key) self.old.keys → IsOk result }
        ensures names { OnOk result (KeepsAllNames K.bytes self.old self.new) }
        ensures err { OnErr result (self.new.keys ≡ self.old.keys) }
        ensures kept { OnErr result (IsSetUntouched self.old self.new) }
        ensures handed_back { IfErr result (λ refused. refused.key ≡ key) }
        ensures succeeds { HasRoom self.old.nodes 2 → IsOk result }
        ensures room { UsesRoom 2 self.old.nodes self.new.nodes }
        ensures stored_room { HasKey K.bytes (K.bytes key) self.old.keys
            → KeepsRoomOf self.old.nodes self.new.nodes }
        ensures leaf_room { UsesLeafRoom (length self.new.keys - length self.old.keys) self.old.nodes self.new.nodes }
    {
        let old = match self.map.insert(key, ()) {
            Ok(old) => old,
            Err(refused) => return Err(RefusedKey { key: refused.key }),
        };
        Ok(old.is_none())
    }

    /// Inserts a key. It replaces a key with the same bytes, and returns that one.
    ///
    /// Fails only if out of memory, and never if the key's bytes are stored. The error returns the key, and the set is
    /// unchanged.
    ///
    /// ```
    /// let mut set = TreeSet::new(rt.alloc());
    /// assert_eq!(rt; set.replace(*b"ab")?, None);
    /// assert_eq!(rt; set.replace(*b"ab")?, Some(*b"ab"));
    /// ```
    pub fn replace(&mut self, key: K) -> Result<Option<K>, RefusedKey<K>>
        ensures old { IfOk result (λ old. old ≡ find (has_bytes K.bytes (K.bytes key)) self.old.keys) }
        ensures keys { OnOk result (self.new.keys ≡ with_key_put K.bytes key self.old.keys) }
        ensures stored { HasKey K.bytes (K.bytes key) self.old.keys → IsOk result }
        ensures names { OnOk result (KeepsAllNames K.bytes self.old self.new) }
        ensures err { OnErr result (self.new.keys ≡ self.old.keys) }
        ensures kept { OnErr result (IsSetUntouched self.old self.new) }
        ensures handed_back { IfErr result (λ refused. refused.key ≡ key) }
        ensures succeeds { HasRoom self.old.nodes 2 → IsOk result }
        ensures room { UsesRoom 2 self.old.nodes self.new.nodes }
        ensures stored_room { HasKey K.bytes (K.bytes key) self.old.keys
            → KeepsRoomOf self.old.nodes self.new.nodes }
        ensures leaf_room { UsesLeafRoom (length self.new.keys - length self.old.keys) self.old.nodes self.new.nodes }
    {
        let old = match self.map.replace_entry(key, ()) {
            Ok(old) => old,
            Err(refused) => return Err(RefusedKey { key: refused.key }),
        };
        Ok(key_of(old))
    }
}

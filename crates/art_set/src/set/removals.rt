//! Removals: of a key, of the first key, and of the last.
ghost use Rattle.std.specs.Prelude.{◌≡◌, ◌∷◌, ◌++◌, [], find, IfNone, IfOk, IsOk, MatchOption, OnErr, OnOk, OnSome};
ghost use Rattle.std.specs.Bool.{OnFalse, OnTrue};
ghost use Rattle.art_nodes.specs.declared.kind.NodeType.TheVariants.{Leaf};
ghost use Rattle.art_arena.specs.arena.Arena.{HasRoom, KeepsRoomOf, UsesRoom};
ghost use Rattle.art_arena.specs.arena.Rooms.{FreesRoomOf};
ghost use Rattle.art_arena.specs.declared.ends.End.TheVariants.{First, Last};
ghost use Rattle.art_arena.specs.tree.Shrinks.{Shrinks};
ghost use Rattle.art_map.specs.Contents.{has_bytes};
ghost use Rattle.art_operations.specs.KeyedLists.{HasKey, without_key};
ghost use Rattle.art_set.specs.LeafNames.{IsSetUntouched, KeepsNames};
ghost use Rattle.art_set.specs.Members.{is_member, key_if_some, KeyShrinksAtEnd};

use crate::set::TreeSet;
use art_bytes::AsBytes;
use std::alloc::AllocError;

// The key of a pair.
pub(super) fn key_of<K>(pair: Option<(K, ())>) -> Option<K>
    ensures { result ≡ key_if_some pair }
{
    match pair {
        Some((key, ())) => Some(key),
        None => None,
    }
}

impl<K: AsBytes, const PREFIX_LEN: usize> TreeSet<K, PREFIX_LEN> {
    /// Removes the key with the query's bytes, and returns it, if there is one.
    ///
    /// Fails only if the removal turns a node into one of the next smaller kind, and there is no memory for that one.
    /// The set is unchanged then.
    ///
    /// ```
    /// let mut set = TreeSet::new(rt.alloc());
    /// set.insert(*b"ab")?;
    /// assert_eq!(rt; set.take(b"ab")?, Some(*b"ab"));
    /// assert_eq!(rt; set.take(b"ab")?, None);
    /// ```
    pub fn take<Q: AsBytes>(&mut self, key: &Q) -> Result<Option<K>, AllocError>
        ensures key { IfOk result (λ old. old ≡ find (has_bytes K.bytes (Q.bytes key.now)) self.old.keys) }
        ensures keys { OnOk result (self.new.keys ≡ without_key K.bytes (Q.bytes key.now) self.old.keys) }
        ensures names { OnOk result (KeepsNames K.bytes self.old self.new) }
        ensures err { OnErr result (self.new.keys ≡ self.old.keys) }
        ensures kept { OnErr result (IsSetUntouched self.old self.new) }
        ensures shrinks { OnErr result (HasKey K.bytes (Q.bytes key.now) self.old.keys
            × Shrinks K.bytes self.old.keys (Q.bytes key.now)) }
        ensures succeeds { HasRoom self.old.nodes 1 → IsOk result }
        ensures room { UsesRoom 1 self.old.nodes self.new.nodes }
        ensures leaf_room { IfOk result (λ old. OnSome old (FreesRoomOf Leaf self.old.nodes self.new.nodes)) }
        ensures none_room { IfOk result (λ old. IfNone old (KeepsRoomOf self.old.nodes self.new.nodes)) }
    {
        let pair = self.map.remove_entry(key)?;
        Ok(key_of(pair))
    }

    /// Removes the key with the query's bytes, and returns whether there was one. It fails as `take` does.
    ///
    /// ```
    /// let mut set = TreeSet::new(rt.alloc());
    /// set.insert(*b"ab")?;
    /// assert!(rt; set.remove(b"ab")?);
    /// assert!(rt; !set.remove(b"ab")?);
    /// ```
    pub fn remove<Q: AsBytes>(&mut self, key: &Q) -> Result<bool, AllocError>
    where
        K: Drop,
        ensures found { IfOk result (λ found. found ≡ is_member K.bytes (Q.bytes key.now) self.old.keys) }
        ensures keys { OnOk result (self.new.keys ≡ without_key K.bytes (Q.bytes key.now) self.old.keys) }
        ensures names { OnOk result (KeepsNames K.bytes self.old self.new) }
        ensures err { OnErr result (self.new.keys ≡ self.old.keys) }
        ensures kept { OnErr result (IsSetUntouched self.old self.new) }
        ensures shrinks { OnErr result (HasKey K.bytes (Q.bytes key.now) self.old.keys
            × Shrinks K.bytes self.old.keys (Q.bytes key.now)) }
        ensures succeeds { HasRoom self.old.nodes 1 → IsOk result }
        ensures room { UsesRoom 1 self.old.nodes self.new.nodes }
        ensures leaf_room { IfOk result (λ found. OnTrue found (FreesRoomOf Leaf self.old.nodes self.new.nodes)) }
        ensures none_room { IfOk result (λ found. OnFalse found (KeepsRoomOf self.old.nodes self.new.nodes)) }
    {
        let found = self.map.remove(key)?;
        Ok(found.is_some())
    }

    /// Removes the first key, which is the least, and returns it, if there is one. It fails as `take` does.
    ///
    /// ```
    /// let mut set = TreeSet::new(rt.alloc());
    /// set.extend([*b"cd", *b"ab"])?;
    /// assert_eq!(rt; set.pop_first()?, Some(*b"ab"));
    /// ```
    pub fn pop_first(&mut self) -> Result<Option<K>, AllocError>
        ensures key { IfOk result
            (λ taken. MatchOption taken (self.old.keys ≡ []) (λ k. self.old.keys ≡ k ∷ self.new.keys)) }
        ensures none { IfOk result (λ taken. IfNone taken (self.new.keys ≡ [])) }
        ensures names { OnOk result (KeepsNames K.bytes self.old self.new) }
        ensures err { OnErr result (self.new.keys ≡ self.old.keys) }
        ensures kept { OnErr result (IsSetUntouched self.old self.new) }
        ensures shrinks { OnErr result (KeyShrinksAtEnd K.bytes First self.old.keys) }
        ensures succeeds { HasRoom self.old.nodes 1 → IsOk result }
        ensures room { UsesRoom 1 self.old.nodes self.new.nodes }
        ensures leaf_room { IfOk result (λ taken. OnSome taken (FreesRoomOf Leaf self.old.nodes self.new.nodes)) }
        ensures none_room { IfOk result (λ taken. IfNone taken (KeepsRoomOf self.old.nodes self.new.nodes)) }
    {
        let pair = self.map.pop_first()?;
        Ok(key_of(pair))
    }

    /// Removes the last key, which is the greatest, and returns it, if there is one. It fails as `take` does.
    ///
    /// ```
    /// let mut set = TreeSet::new(rt.alloc());
    /// set.extend([*b"cd", *b"ab"])?;
    /// assert_eq!(rt; set.pop_last()?, Some(*b"cd"));
    /// ```
    pub fn pop_last(&mut self) -> Result<Option<K>, AllocError>
        ensures key { IfOk result
            (λ taken. MatchOption taken (self.old.keys ≡ []) (λ k. self.old.keys ≡ self.new.keys ++ k ∷ [])) }
        ensures none { IfOk result (λ taken. IfNone taken (self.new.keys ≡ [])) }
        ensures names { OnOk result (KeepsNames K.bytes self.old self.new) }
        ensures err { OnErr result (self.new.keys ≡ self.old.keys) }
        ensures kept { OnErr result (IsSetUntouched self.old self.new) }
        ensures shrinks { OnErr result (KeyShrinksAtEnd K.bytes Last self.old.keys) }
        ensures succeeds { HasRoom self.old.nodes 1 → IsOk result }
        ensures room { UsesRoom 1 self.old.nodes self.new.nodes }
        ensures leaf_room { IfOk result (λ taken. OnSome taken (FreesRoomOf Leaf self.old.nodes self.new.nodes)) }
        ensures none_room { IfOk result (λ taken. IfNone taken (KeepsRoomOf self.old.nodes self.new.nodes)) }
    {
        let pair = self.map.pop_last()?;
        Ok(key_of(pair))
    }
}

//! Removals: of a key, of the first pair, and of the last.
ghost use Rattle.std.specs.Prelude.{◌≡◌, List, ◌∷◌, ◌++◌, [], IfNone, IfOk, IsOk, MatchOption, OnErr, OnOk, OnSome};
ghost use Rattle.art_nodes.specs.declared.kind.NodeType.TheVariants.{Leaf};
ghost use Rattle.art_arena.specs.arena.Arena.{HasRoom, KeepsRoomOf, UsesRoom};
ghost use Rattle.art_arena.specs.arena.Rooms.{FreesRoomOf};
ghost use Rattle.art_arena.specs.arena.Shapes.{key_of, LeafAt};
ghost use Rattle.art_arena.specs.tree.Shrinks.{Shrinks};
ghost use Rattle.art_map.specs.Contents.{IsUntouched};
ghost use Rattle.art_map.specs.LeafNames.{AddsNoLeaf, KeepsLeaves};
ghost use Rattle.art_operations.specs.Deletions.{IsAmong};
ghost use Rattle.art_operations.specs.KeyedLists.{HasKey, without_key};
ghost use Rattle.art_operations.specs.Pairs.{IsAtEnd, ShrinksAtEnd};

use crate::map::TreeMap;
use crate::map::changes::value_of;
use art_arena::{End, LeafPtr};
use art_bytes::AsBytes;
use art_operations::{take_end, take_leaf, take_pair};
use std::alloc::AllocError;

impl<K: AsBytes, V, const PREFIX_LEN: usize> TreeMap<K, V, PREFIX_LEN> {
    ghost use Rattle.art_map.specs.Contents.{found_pair, found_value, HasLeafAt};
    ghost use Rattle.art_map.specs.Found.{HasPairAt};
    ghost use Rattle.art_map.specs.Leaves.{AreLeaves};

    /// Removes the pair whose key has the query's bytes, and returns its value, if there is one. It fails as
    /// `remove_entry` does.
    ///
    /// ```
    /// let mut map = TreeMap::new(rt.alloc());
    /// map.insert(*b"ab", 1)?;
    /// assert_eq!(rt; map.remove(b"ab")?, Some(1));
    /// assert_eq!(rt; map.remove(b"ab")?, None);
    /// ```
    #[tactic(auto, using(crate::proofs::LookedUp::values))]
    pub fn remove<Q: AsBytes>(&mut self, key: &Q) -> Result<Option<V>, AllocError>
    where
        K: Drop,
        ensures value { IfOk result (λ old. old ≡ found_value K.bytes (Q.bytes key.now) self.old.pairs) }
        ensures pairs { OnOk result (self.new.pairs ≡ without_key (key_of K.bytes) (Q.bytes key.now) self.old.pairs) }
        ensures names { OnOk result (KeepsLeaves K.bytes self.old self.new) }
        ensures err { OnErr result (self.new.pairs ≡ self.old.pairs) }
        ensures kept { OnErr result (IsUntouched self.old self.new) }
        ensures shrinks { OnErr result (HasKey (key_of K.bytes) (Q.bytes key.now) self.old.pairs
            × Shrinks (key_of K.bytes) self.old.pairs (Q.bytes key.now)) }
        ensures succeeds { HasRoom self.old.nodes 1 → IsOk result }
        ensures room { UsesRoom 1 self.old.nodes self.new.nodes }
        ensures leaf_room { IfOk result (λ old. OnSome old (FreesRoomOf Leaf self.old.nodes self.new.nodes)) }
        ensures none_room { IfOk result (λ old. IfNone old (KeepsRoomOf self.old.nodes self.new.nodes)) }
    {
        let pair = self.remove_entry(key)?;
        Ok(value_of(pair))
    }

    /// Removes the pair whose key has the query's bytes, and returns it, if there is one. There is room for one leaf
    /// more then.
    ///
    /// Fails only if the removal turns a node into one of the next smaller kind, and there is neither room nor memory
    /// for that one. The map is unchanged then.
    ///
    /// ```
    /// let mut map = TreeMap::new(rt.alloc());
    /// map.insert(*b"ab", 1)?;
    /// assert_eq!(rt; map.remove_entry(b"ab")?, Some((*b"ab", 1)));
    /// assert!(rt; map.is_empty());
    /// ```
    pub fn remove_entry<Q: AsBytes>(&mut self, key: &Q) -> Result<Option<(K, V)>, AllocError>
        ensures value { IfOk result (λ old.
            old ≡ found_pair K.bytes (Q.bytes key.now) self.old.pairs) }
        ensures pairs { OnOk result (self.new.pairs ≡ without_key (key_of K.bytes) (Q.bytes key.now) self.old.pairs) }
        ensures names { OnOk result (KeepsLeaves K.bytes self.old self.new) }
        ensures err { OnErr result (self.new.pairs ≡ self.old.pairs) }
        ensures kept { OnErr result (IsUntouched self.old self.new) }
        ensures shrinks { OnErr result (HasKey (key_of K.bytes) (Q.bytes key.now) self.old.pairs
            × Shrinks (key_of K.bytes) self.old.pairs (Q.bytes key.now)) }
        ensures succeeds { HasRoom self.old.nodes 1 → IsOk result }
        ensures room { UsesRoom 1 self.old.nodes self.new.nodes }
        ensures leaf_room { IfOk result (λ old. OnSome old (FreesRoomOf Leaf self.old.nodes self.new.nodes)) }
        ensures none_room { IfOk result (λ old. IfNone old (KeepsRoomOf self.old.nodes self.new.nodes)) }
    {
        // By value an option of a name counts as moved, so a copy goes in.
        let root = self.root;
        match take_pair(&mut self.arena, root, key.as_bytes()) {
            Ok(Some(deleted)) => {
                self.root = deleted.new_root;
                Ok(Some(deleted.deleted_leaf.into_entry()))
            }
            Ok(None) => Ok(None),
            Err(refused) => Err(refused),
        }
    }

    /// Removes the first pair, whose key is the least, and returns it, if there is one. It fails as `remove_entry`
    /// does.
    ///
    /// ```
    /// let mut map = TreeMap::new(rt.alloc());
    /// map.extend([(*b"cd", 2), (*b"ab", 1)])?;
    /// assert_eq!(rt; map.pop_first()?, Some((*b"ab", 1)));
    /// assert_eq!(rt; map.len(), 1);
    /// ```
    pub fn pop_first(&mut self) -> Result<Option<(K, V)>, AllocError>
        ensures value { IfOk result (λ taken. MatchOption taken (self.old.pairs ≡ [])
            (λ pair. self.old.pairs ≡ pair ∷ self.new.pairs)) }
        ensures none { IfOk result (λ taken. IfNone taken (self.new.pairs ≡ [])) }
        ensures names { OnOk result (KeepsLeaves K.bytes self.old self.new) }
        ensures err { OnErr result (self.new.pairs ≡ self.old.pairs) }
        ensures kept { OnErr result (IsUntouched self.old self.new) }
        ensures shrinks { OnErr result (ShrinksAtEnd K.bytes End.First self.old.pairs) }
        ensures succeeds { HasRoom self.old.nodes 1 → IsOk result }
        ensures room { UsesRoom 1 self.old.nodes self.new.nodes }
        ensures leaf_room { IfOk result (λ taken. OnSome taken (FreesRoomOf Leaf self.old.nodes self.new.nodes)) }
        ensures none_room { IfOk result (λ taken. IfNone taken (KeepsRoomOf self.old.nodes self.new.nodes)) }
    {
        self.pop(End::First)
    }

    /// Removes the last pair, whose key is the greatest, and returns it, if there is one. It fails as `remove_entry`
    /// does.
    ///
    /// ```
    /// let mut map = TreeMap::new(rt.alloc());
    /// map.extend([(*b"cd", 2), (*b"ab", 1)])?;
    /// assert_eq!(rt; map.pop_last()?, Some((*b"cd", 2)));
    /// assert_eq!(rt; map.len(), 1);
    /// ```
    pub fn pop_last(&mut self) -> Result<Option<(K, V)>, AllocError>
        ensures value { IfOk result (λ taken. MatchOption taken (self.old.pairs ≡ [])
            (λ pair. self.old.pairs ≡ self.new.pairs ++ pair ∷ [])) }
        ensures none { IfOk result (λ taken. IfNone taken (self.new.pairs ≡ [])) }
        ensures names { OnOk result (KeepsLeaves K.bytes self.old self.new) }
        ensures err { OnErr result (self.new.pairs ≡ self.old.pairs) }
        ensures kept { OnErr result (IsUntouched self.old self.new) }
        ensures shrinks { OnErr result (ShrinksAtEnd K.bytes End.Last self.old.pairs) }
        ensures succeeds { HasRoom self.old.nodes 1 → IsOk result }
        ensures room { UsesRoom 1 self.old.nodes self.new.nodes }
        ensures leaf_room { IfOk result (λ taken. OnSome taken (FreesRoomOf Leaf self.old.nodes self.new.nodes)) }
        ensures none_room { IfOk result (λ taken. IfNone taken (KeepsRoomOf self.old.nodes self.new.nodes)) }
    {
        self.pop(End::Last)
    }

    // Removes the pair of a leaf, and returns it. The other leaves stay what they are, and are linked in order. It
    // fails as `remove_entry` does.
    pub(crate) fn take_at(&mut self, leaf: LeafPtr) -> Result<(K, V), AllocError>
        requires { HasLeafAt self.old leaf }
        ensures value { IfOk result (λ pair. HasPairAt self.old leaf pair) }
        ensures pairs { IfOk result (λ pair.
            self.new.pairs ≡ without_key (key_of K.bytes) (K.bytes pair.0) self.old.pairs) }
        ensures leaves { OnOk result ((ls : List (LeafAt K V)) → AreLeaves K.bytes PREFIX_LEN self.old ls
            → (there : IsAmong leaf ls) → AreLeaves K.bytes PREFIX_LEN self.new (there.front ++ there.back)) }
        ensures names { OnOk result (KeepsLeaves K.bytes self.old self.new) }
        ensures none_new { AddsNoLeaf K.bytes self.old self.new }
        ensures err { OnErr result (self.new.pairs ≡ self.old.pairs) }
        ensures kept { OnErr result ((ls : List (LeafAt K V)) → AreLeaves K.bytes PREFIX_LEN self.old ls
            → AreLeaves K.bytes PREFIX_LEN self.new ls) }
        ensures untouched { OnErr result (IsUntouched self.old self.new) }
        ensures shrinks { OnErr result ((pair : K × V) → HasPairAt self.old leaf pair
            → Shrinks (key_of K.bytes) self.old.pairs (K.bytes pair.0)) }
        ensures succeeds { HasRoom self.old.nodes 1 → IsOk result }
        ensures room { UsesRoom 1 self.old.nodes self.new.nodes }
        ensures leaf_room { OnOk result (FreesRoomOf Leaf self.old.nodes self.new.nodes) }
    {
        match self.root {
            Some(root) => match take_leaf(&mut self.arena, root, leaf) {
                Ok(deleted) => {
                    self.root = deleted.new_root;
                    Ok(deleted.deleted_leaf.into_entry())
                }
                Err(refused) => Err(refused),
            },
            None => unreachable!(),
        }
    }

    // Removes the pair at an end.
    pub(super) fn pop(&mut self, end: End) -> Result<Option<(K, V)>, AllocError>
        ensures value { IfOk result (λ taken. MatchOption taken (self.old.pairs ≡ [])
            (λ pair. IsAtEnd end pair self.new.pairs self.old.pairs)) }
        ensures none { IfOk result (λ taken. IfNone taken (self.new.pairs ≡ [])) }
        ensures names { OnOk result (KeepsLeaves K.bytes self.old self.new) }
        ensures none_new { OnOk result (AddsNoLeaf K.bytes self.old self.new) }
        ensures err { OnErr result (self.new.pairs ≡ self.old.pairs) }
        ensures kept { OnErr result (IsUntouched self.old self.new) }
        ensures shrinks { OnErr result (ShrinksAtEnd K.bytes end self.old.pairs) }
        ensures succeeds { HasRoom self.old.nodes 1 → IsOk result }
        ensures room { UsesRoom 1 self.old.nodes self.new.nodes }
        ensures leaf_room { IfOk result (λ taken. OnSome taken (FreesRoomOf Leaf self.old.nodes self.new.nodes)) }
        ensures none_room { IfOk result (λ taken. IfNone taken (KeepsRoomOf self.old.nodes self.new.nodes)) }
    {
        // By value an option of a name counts as moved, so a copy goes in.
        let root = self.root;
        match take_end(&mut self.arena, root, end) {
            Ok(Some(deleted)) => {
                self.root = deleted.new_root;
                Ok(Some(deleted.deleted_leaf.into_entry()))
            }
            Ok(None) => Ok(None),
            Err(refused) => Err(refused),
        }
    }
}

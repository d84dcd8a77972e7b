//! The methods of `OccupiedEntry`.
ghost use Rattle.std.specs.Prelude.{◌≡◌, Some, IfOk, IsOk, OnErr, OnOk};
ghost use Rattle.std.specs.Borrow.{sem};
ghost use Rattle.art_nodes.specs.declared.kind.NodeType.TheVariants.{Leaf};
ghost use Rattle.art_arena.specs.arena.Arena.{HasRoom, KeepsRoomOf, UsesRoom};
ghost use Rattle.art_arena.specs.arena.Rooms.{FreesRoomOf};
ghost use Rattle.art_arena.specs.arena.Shapes.{key_of};
ghost use Rattle.art_arena.specs.tree.Shrinks.{Shrinks};

use super::OccupiedEntry;
use crate::map::TreeMap;
use art_arena::LeafPtr;
use art_bytes::AsBytes;
use art_operations::InsertRefused;
use std::alloc::AllocError;
use std::marker::PhantomData;
use std::mem::replace;

impl<'a, K: AsBytes, V, const PREFIX_LEN: usize> OccupiedEntry<'a, K, V, PREFIX_LEN> {
    ghost use Rattle.art_map.specs.Contents.{IsUntouched};
    ghost use Rattle.art_map.specs.Found.{HasPairAt, HasPairUnder};
    ghost use Rattle.art_map.specs.LeafNames.{KeepsAllLeaves, KeepsLeaves};
    ghost use Rattle.art_map.specs.Lends.{lends_value_at};
    ghost use Rattle.art_map.specs.Entries.{Occupied, entry_key, entry_value, lends_entry_value, entry_pairs};
    ghost use Rattle.art_map.specs.Entries.{pairs_without, rests_if_refused, with_entry_value, IsSame, IsWritten};

    // The entry of a leaf.
    pub(crate) fn new(map: &'a mut TreeMap<K, V, PREFIX_LEN>, leaf: LeafPtr) -> Self
        requires { HasPairUnder map.old leaf }
        ensures same_map { (result.map.ghost_name ≡ map.entry.ghost_name) × (result.map.now ≡ map.old) }
        ensures pair { (p : K × V) → HasPairAt map.old leaf p
            → (entry_key (Occupied result) ≡ p.0) × (entry_value (Occupied result) ≡ Some p.1) }
    {
        OccupiedEntry {
            map,
            leaf,
            mark: PhantomData,
        }
    }

    // The entry itself, made anew of its parts: so the borrow check follows the map into the result.
    pub(crate) fn as_it_is(self) -> Result<Self, InsertRefused<K, V>>
        ensures* rests { sem 𝓛 (rests_if_refused K.row V.row PREFIX_LEN K.AsBytes (Occupied self.entry) result) }
        ensures same { IfOk result (λ entry. IsSame (Occupied self.entry) (Occupied entry)) }
        ensures ok { IsOk result }
    {
        let OccupiedEntry { map, leaf, mark: _ } = self;
        Ok(OccupiedEntry::new(map, leaf))
    }

    /// Returns the stored key.
    ///
    /// ```
    /// let mut map = TreeMap::new(rt.alloc());
    /// let entry = map.entry(*b"ab").insert_entry(1)?;
    /// assert_eq!(rt; entry.key(), b"ab");
    /// ```
    pub fn key(&self) -> &K
        ensures { result.now ≡ entry_key (Occupied self.now) }
    {
        self.map.pair_at(self.leaf).0
    }

    /// Returns the value.
    ///
    /// ```
    /// let mut map = TreeMap::new(rt.alloc());
    /// let entry = map.entry(*b"ab").insert_entry(1)?;
    /// assert_eq!(rt; *entry.get(), 1);
    /// ```
    pub fn get(&self) -> &V
        ensures { entry_value (Occupied self.now) ≡ Some result.now }
    {
        self.map.pair_at(self.leaf).1
    }

    /// Lends the value for writing.
    ///
    /// ```
    /// let mut map = TreeMap::new(rt.alloc());
    /// let mut entry = map.entry(*b"ab").insert_entry(1)?;
    /// *entry.get_mut() += 10;
    /// assert_eq!(rt; map.get(b"ab"), Some(&11));
    /// ```
    pub fn get_mut(&mut self) -> &mut V
        ensures* writes_back { sem 𝓛 (lends_entry_value K.row V.row PREFIX_LEN K.AsBytes self.entry result) }
        ensures value { entry_value (Occupied self.old) ≡ Some result.now }
        ensures written { (w : V) → IsWritten (Occupied self.old) w (Occupied (with_entry_value self.old w)) }
    {
        let leaf = self.leaf;
        let (_key, value) = self.map.pair_mut_at(leaf);
        value
    }

    /// Lends the value for writing, as long as the map is lent.
    ///
    /// ```
    /// let mut map = TreeMap::new(rt.alloc());
    /// let value = map.entry(*b"ab").insert_entry(1)?.into_mut();
    /// *value += 10;
    /// assert_eq!(rt; map.get(b"ab"), Some(&11));
    /// ```
    pub fn into_mut(self) -> &'a mut V
        ensures* writes_back { sem 𝓛 (lends_value_at K.row V.row PREFIX_LEN.row K.AsBytes
            self.entry.map self.entry.leaf result) }
        ensures value { entry_value (Occupied self.entry) ≡ Some result.now }
        ensures pairs { (w : V) → (with_entry_value self.entry w).map.now.pairs ≡ entry_pairs (Occupied self.entry) w }
        ensures names { (w : V) → KeepsAllLeaves K.bytes self.entry.map.now (with_entry_value self.entry w).map.now }
        ensures room { (w : V) → KeepsRoomOf self.entry.map.now.nodes (with_entry_value self.entry w).map.now.nodes }
    {
        let OccupiedEntry { map, leaf, mark: _ } = self;
        let (_key, value) = map.pair_mut_at(leaf);
        value
    }

    /// Replaces the value, and returns the old one. The stored key stays.
    ///
    /// ```
    /// let mut map = TreeMap::new(rt.alloc());
    /// let mut entry = map.entry(*b"ab").insert_entry(1)?;
    /// assert_eq!(rt; entry.insert(2), 1);
    /// assert_eq!(rt; map.get(b"ab"), Some(&2));
    /// ```
    pub fn insert(&mut self, value: V) -> V
        ensures old { entry_value (Occupied self.old) ≡ Some result }
        ensures written { IsWritten (Occupied self.old) value (Occupied self.new) }
    {
        replace(self.get_mut(), value)
    }

    /// Removes the pair from the map, and returns its value. It fails as `remove_entry` does.
    ///
    /// ```
    /// let mut map = TreeMap::new(rt.alloc());
    /// let entry = map.entry(*b"ab").insert_entry(1)?;
    /// assert_eq!(rt; entry.remove()?, 1);
    /// assert!(rt; map.is_empty());
    /// ```
    pub fn remove(self) -> Result<V, AllocError>
    where
        K: Drop,
        ensures value { IfOk result (λ value. entry_value (Occupied self.entry) ≡ Some value) }
        ensures pairs { OnOk result (self.exit.0.now.pairs ≡ pairs_without (Occupied self.entry)) }
        ensures names { OnOk result (KeepsLeaves K.bytes self.entry.map.now self.exit.0.now) }
        ensures err { OnErr result (self.exit.0.now.pairs ≡ self.entry.map.now.pairs) }
        ensures kept { OnErr result (IsUntouched self.entry.map.now self.exit.0.now) }
        ensures shrinks { OnErr result (Shrinks (key_of K.bytes) self.entry.map.now.pairs
            (K.bytes (entry_key (Occupied self.entry)))) }
        ensures succeeds { HasRoom self.entry.map.now.nodes 1 → IsOk result }
        ensures room { UsesRoom 1 self.entry.map.now.nodes self.exit.0.now.nodes }
        ensures leaf_room { OnOk result (FreesRoomOf Leaf self.entry.map.now.nodes self.exit.0.now.nodes) }
    {
        let (_key, value) = self.remove_entry()?;
        Ok(value)
    }

    /// Removes the pair from the map, and returns it.
    ///
    /// Fails only if the removal turns a node into one of the next smaller kind, and there is no memory for that one.
    /// The map is unchanged then.
    ///
    /// ```
    /// let mut map = TreeMap::new(rt.alloc());
    /// let entry = map.entry(*b"ab").insert_entry(1)?;
    /// assert_eq!(rt; entry.remove_entry()?, (*b"ab", 1));
    /// assert!(rt; map.is_empty());
    /// ```
    pub fn remove_entry(self) -> Result<(K, V), AllocError>
        ensures pair { IfOk result (λ pair. (pair.0 ≡ entry_key (Occupied self.entry))
            × (entry_value (Occupied self.entry) ≡ Some pair.1)) }
        ensures pairs { OnOk result (self.exit.0.now.pairs ≡ pairs_without (Occupied self.entry)) }
        ensures names { OnOk result (KeepsLeaves K.bytes self.entry.map.now self.exit.0.now) }
        ensures err { OnErr result (self.exit.0.now.pairs ≡ self.entry.map.now.pairs) }
        ensures kept { OnErr result (IsUntouched self.entry.map.now self.exit.0.now) }
        ensures shrinks { OnErr result (Shrinks (key_of K.bytes) self.entry.map.now.pairs
            (K.bytes (entry_key (Occupied self.entry)))) }
        ensures succeeds { HasRoom self.entry.map.now.nodes 1 → IsOk result }
        ensures room { UsesRoom 1 self.entry.map.now.nodes self.exit.0.now.nodes }
        ensures leaf_room { OnOk result (FreesRoomOf Leaf self.entry.map.now.nodes self.exit.0.now.nodes) }
    {
        let leaf = self.leaf;
        self.map.take_at(leaf)
    }
}

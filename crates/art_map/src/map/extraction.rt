//! `Extraction`: the pairs of a range, each of which stays in the map or is taken out.
ghost use Rattle.std.specs.Prelude.{◌≡◌, ◌⊎◌, ◌<◌, ◌==◌, List, [], ◌∷◌, ◌++◌, length};
ghost use Rattle.std.specs.Prelude.{None, Some, IfOk, IsOk, MatchOption, OnErr, OnOk, option_map};
ghost use Rattle.std.specs.Borrow.{sem};
ghost use Rattle.std.specs.Map.Calls.{CalledAtPair, TakesPair};
ghost use Rattle.std.specs.Map.Iter.{deref_pair};
ghost use Rattle.std.specs.Range.Bound.{bound_map};
ghost use Rattle.art_nodes.specs.declared.kind.NodeType.TheVariants.{Leaf};
ghost use Rattle.art_arena.specs.arena.Arena.{links_at, HasRoom, KeepsRoomOf, UsesRoom};
ghost use Rattle.art_arena.specs.arena.Rooms.{FreesRoomOf};
ghost use Rattle.art_arena.specs.arena.Shapes.{key_of, LeafAt};
ghost use Rattle.art_arena.specs.tree.Shrinks.{Shrinks};
ghost use Rattle.art_operations.specs.KeyedLists.{without_key};
ghost use Rattle.art_operations.specs.Pairs.{IsAtEnd};
ghost use Rattle.art_walks.specs.Bounds.{AreValidKeyBounds};
ghost use Rattle.art_walks.specs.Runs.{IsWalk};
ghost use Rattle.art_map.specs.Contents.{first_item, last_item, IsUntouched};
ghost use Rattle.art_map.specs.LeafNames.{AddsNoLeaf, KeepsLeaves};
ghost use Rattle.art_map.specs.Leaves.{IsRun, IsNextAt};
ghost use Rattle.art_map.specs.LentRuns.{slot_at};
ghost use Rattle.art_map.specs.Ranges.{pairs_between};

use crate::map::TreeMap;
use crate::map::ranges::bytes_of;
use art_arena::{End, LeafPtr, NodeArena};
use art_bytes::AsBytes;
use art_walks::{Prefetcher, RawIterator};
use std::alloc::AllocError;
use std::ops::Bound;

/// The pairs of a range of a map that are still to be decided on, from either end. Each is left in the map or taken
/// out.
///
/// After a removal that failed, no pair is left to be decided on.
#[derive(Drop)]
pub struct Extraction<'a, K: AsBytes, V, const PREFIX_LEN: usize> {
    map: &'a mut TreeMap<K, V, PREFIX_LEN>,
    leaves: RawIterator,
    ahead: Prefetcher,
    ghost run: { ∥ IsRun K.bytes PREFIX_LEN map.now leaves ∥₁ },
}

// The leaf at an end of a run, which then ends before it.
#[inline(always)]
pub(super) fn next_of<K, V, const PREFIX_LEN: usize>(
    leaves: &mut RawIterator,
    arena: &NodeArena<K, V, PREFIX_LEN>,
    end: End,
) -> Option<LeafPtr>
    requires { ∥ ((ys : List (LeafAt K V)) × IsWalk (links_at arena.now) leaves.old ys) ∥₁ }
    ensures taken { (l : LeafAt K V) (ys zs : List (LeafAt K V)) → IsAtEnd end l ys zs
        → IsWalk (links_at arena.now) leaves.old zs
        → (result ≡ Some l.slot) × IsWalk (links_at arena.now) leaves.new ys }
    ensures none { leaves.old ≡ None → (result ≡ None) × (leaves.new ≡ None) }
{
    match end {
        End::First => leaves.next(arena),
        End::Last => leaves.next_back(arena),
    }
}

impl<'a, K: AsBytes, V, const PREFIX_LEN: usize> Extraction<'a, K, V, PREFIX_LEN> {
    ghost use Rattle.art_map.specs.Extractions.{map_of, left_of, lends_end, IsLentAt};
    ghost use Rattle.art_map.specs.Found.{HasPairAt};
    ghost use Rattle.art_map.specs.inner.Asks.{asking_by, IsAsked};

    /// Returns whether no pair is left to be decided on.
    ///
    /// ```
    /// let mut map = TreeMap::new(rt.alloc());
    /// map.insert(*b"ab", 1)?;
    /// let mut pairs = map.extraction::<[u8; 0]>(std::ops::Bound::Unbounded, std::ops::Bound::Unbounded);
    /// assert!(rt; !pairs.is_empty());
    /// pairs.pass_front();
    /// assert!(rt; pairs.is_empty());
    /// ```
    pub fn is_empty(&self) -> bool
        ensures { result ≡ (length (left_of self.now) == 0) }
    {
        self.leaf_at(End::First).is_none()
    }

    // The leaf at an end of those still to be decided on, if one is left.
    fn leaf_at(&self, end: End) -> Option<LeafPtr>
        ensures at { result ≡ slot_at end self.now.leaves }
        ensures pair { MatchOption result (left_of self.now ≡ []) (λ leaf. (pair : K × V) × (rest : List (K × V))
            × HasPairAt (map_of self.now).now leaf pair × IsAtEnd end pair rest (left_of self.now)) }
    {
        let (arena, _root) = self.map.nodes();
        let mut leaves = self.leaves;
        next_of(&mut leaves, arena, end)
    }

    // Calls a closure on the pair at an end of those still to be decided on. It may change the value.
    pub(super) fn ask<F: FnMut(&K, &mut V) -> bool>(&mut self, end: End, pred: &mut F) -> bool
        requires left { 0 < length (left_of self.old) }
        requires callable { (pair : K × V) (rest : List (K × V)) → IsAtEnd end pair rest (left_of self.old)
            → TakesPair F.FnMut pred.old pair.0 pair.1 }
        ensures same_map { (map_of self.new).ghost_name ≡ (map_of self.old).ghost_name }
        ensures none_new { AddsNoLeaf K.bytes (map_of self.old).now (map_of self.new).now }
        ensures asked { IsAsked (CalledAtPair F.FnMut) K.bytes end (asking_by self.old pred.old) result
            (asking_by self.new pred.new) }
        ensures room { KeepsRoomOf (map_of self.old).now.nodes (map_of self.new).now.nodes }
    {
        let leaf = match self.leaf_at(end) {
            Some(leaf) => leaf,
            None => unreachable!(),
        };
        let (key, value) = self.map.pair_mut_at(leaf);
        pred(key, value)
    }

    // Lends the value of the pair at an end of those still to be decided on for writing, if one is left.
    fn lend(&mut self, end: End) -> Option<&mut V>
        ensures* writes_back { sem 𝓛 (lends_end K.row V.row PREFIX_LEN K.AsBytes end self.entry result) }
        ensures value { IsLentAt end (left_of self.old) result }
    {
        let leaf = self.leaf_at(end)?;
        let (_key, value) = self.map.pair_mut_at(leaf);
        Some(value)
    }

    /// Lends the value of the first pair that is still to be decided on for writing. It returns `None` if none is left.
    ///
    /// ```
    /// use std::ops::Bound;
    /// let mut map = TreeMap::new(rt.alloc());
    /// map.extend([(*b"ab", 1), (*b"cd", 2)])?;
    /// if let Some(value) = map.extraction(Bound::Excluded(b"ab"), Bound::Included(b"cd")).front() {
    ///     *value = 7;
    /// }
    /// assert!(rt; map.values().eq([&1, &7]));
    /// ```
    pub fn front(&mut self) -> Option<&mut V>
        ensures* writes_back { sem 𝓛 (lends_end K.row V.row PREFIX_LEN K.AsBytes End.First self.entry result) }
        ensures value { IsLentAt End.First (left_of self.old) result }
    {
        self.lend(End::First)
    }

    /// Lends the value of the last pair that is still to be decided on for writing. It returns `None` if none is left.
    ///
    /// ```
    /// use std::ops::Bound;
    /// let mut map = TreeMap::new(rt.alloc());
    /// map.extend([(*b"ab", 1), (*b"cd", 2)])?;
    /// if let Some(value) = map.extraction(Bound::Included(b"ab"), Bound::Excluded(b"cd")).back() {
    ///     *value = 7;
    /// }
    /// assert!(rt; map.values().eq([&7, &2]));
    /// ```
    pub fn back(&mut self) -> Option<&mut V>
        ensures* writes_back { sem 𝓛 (lends_end K.row V.row PREFIX_LEN K.AsBytes End.Last self.entry result) }
        ensures value { IsLentAt End.Last (left_of self.old) result }
    {
        self.lend(End::Last)
    }

    // The pair at an end of those still to be decided on, if one is left.
    fn pair_at_end(&self, end: End) -> Option<(&K, &V)>
        ensures { MatchOption result (left_of self.now ≡ []) (λ pair. (rest : List (K × V))
            × IsAtEnd end (deref_pair pair) rest (left_of self.now)) }
    {
        let leaf = self.leaf_at(end)?;
        Some(self.map.pair_at(leaf))
    }

    /// Returns the first pair that is still to be decided on, if one is left.
    ///
    /// ```
    /// use std::ops::Bound;
    /// let mut map = TreeMap::new(rt.alloc());
    /// map.extend([(*b"ab", 1), (*b"cd", 2)])?;
    /// let pairs = map.extraction(Bound::Included(b"ab"), Bound::Included(b"cd"));
    /// assert_eq!(rt; pairs.front_key_value(), Some((b"ab", &1)));
    /// ```
    pub fn front_key_value(&self) -> Option<(&K, &V)>
        ensures { option_map deref_pair result ≡ first_item (left_of self.now) }
    {
        self.pair_at_end(End::First)
    }

    /// Returns the last pair that is still to be decided on, if one is left.
    ///
    /// ```
    /// use std::ops::Bound;
    /// let mut map = TreeMap::new(rt.alloc());
    /// map.extend([(*b"ab", 1), (*b"cd", 2)])?;
    /// let pairs = map.extraction(Bound::Included(b"ab"), Bound::Included(b"cd"));
    /// assert_eq!(rt; pairs.back_key_value(), Some((b"cd", &2)));
    /// ```
    pub fn back_key_value(&self) -> Option<(&K, &V)>
        ensures { option_map deref_pair result ≡ last_item (left_of self.now) }
    {
        self.pair_at_end(End::Last)
    }

    // The leaf at an end of those still to be decided on, which are then the others.
    fn next_leaf(&mut self, end: End) -> LeafPtr
        requires { 0 < length (left_of self.old) }
        ensures same { map_of self.new ≡ map_of self.old }
        ensures left { (pair : K × V) × HasPairAt (map_of self.new).now result pair
            × IsAtEnd end pair (left_of self.new) (left_of self.old) }
        ensures step { ∥ IsNextAt K.bytes PREFIX_LEN (map_of self.new).now end result self.new.leaves ∥₁ }
    {
        self.map.read_ahead(&mut self.ahead, self.leaves, end);
        let (arena, _root) = self.map.nodes();
        match next_of(&mut self.leaves, arena, end) {
            Some(leaf) => leaf,
            None => unreachable!(),
        }
    }

    /// Leaves the first pair that is still to be decided on in the map. One has to be left, as `is_empty` tells.
    ///
    /// ```
    /// use std::ops::Bound;
    /// let mut map = TreeMap::new(rt.alloc());
    /// map.extend([(*b"ab", 1), (*b"cd", 2)])?;
    /// let mut pairs = map.extraction(Bound::Included(b"ab"), Bound::Included(b"cd"));
    /// pairs.pass_front();
    /// assert_eq!(rt; pairs.take_front()?, (*b"cd", 2));
    /// assert!(rt; map.keys().eq([b"ab"]));
    /// ```
    pub fn pass_front(&mut self)
        requires { 0 < length (left_of self.old) }
        ensures same { map_of self.new ≡ map_of self.old }
        ensures left { (pair : K × V) × (left_of self.old ≡ pair ∷ left_of self.new) }
    {
        self.pass(End::First);
    }

    /// Leaves the last pair that is still to be decided on in the map. One has to be left, as `is_empty` tells.
    ///
    /// ```
    /// use std::ops::Bound;
    /// let mut map = TreeMap::new(rt.alloc());
    /// map.extend([(*b"ab", 1), (*b"cd", 2)])?;
    /// let mut pairs = map.extraction(Bound::Included(b"ab"), Bound::Included(b"cd"));
    /// pairs.pass_back();
    /// assert_eq!(rt; pairs.take_back()?, (*b"ab", 1));
    /// assert!(rt; map.keys().eq([b"cd"]));
    /// ```
    pub fn pass_back(&mut self)
        requires { 0 < length (left_of self.old) }
        ensures same { map_of self.new ≡ map_of self.old }
        ensures left { (pair : K × V) × (left_of self.old ≡ left_of self.new ++ pair ∷ []) }
    {
        self.pass(End::Last);
    }

    /// Removes the first pair that is still to be decided on from the map, and returns it. One has to be left, as
    /// `is_empty` tells.
    ///
    /// Fails as `remove_entry` does. The map is unchanged then, and no pair is left to be decided on.
    ///
    /// ```
    /// use std::ops::Bound;
    /// let mut map = TreeMap::new(rt.alloc());
    /// map.extend([(*b"ab", 1), (*b"cd", 2)])?;
    /// let mut pairs = map.extraction(Bound::Included(b"ab"), Bound::Included(b"cd"));
    /// assert_eq!(rt; pairs.take_front()?, (*b"ab", 1));
    /// assert!(rt; map.keys().eq([b"cd"]));
    /// ```
    pub fn take_front(&mut self) -> Result<(K, V), AllocError>
        requires { 0 < length (left_of self.old) }
        ensures left { IfOk result (λ pair. left_of self.old ≡ pair ∷ left_of self.new) }
        ensures pairs { IfOk result (λ pair.
            (map_of self.new).now.pairs ≡ without_key (key_of K.bytes) (K.bytes pair.0) (map_of self.old).now.pairs) }
        ensures names { OnOk result (KeepsLeaves K.bytes (map_of self.old).now (map_of self.new).now) }
        ensures none_new { AddsNoLeaf K.bytes (map_of self.old).now (map_of self.new).now }
        ensures err { OnErr result ((left_of self.new ≡ [])
            × ((map_of self.new).now.pairs ≡ (map_of self.old).now.pairs)) }
        ensures untouched { OnErr result (IsUntouched (map_of self.old).now (map_of self.new).now) }
        ensures same_map { (map_of self.new).ghost_name ≡ (map_of self.old).ghost_name }
        ensures shrinks { OnErr result ((pair : K × V) × (rest : List (K × V)) × (left_of self.old ≡ pair ∷ rest)
            × Shrinks (key_of K.bytes) (map_of self.old).now.pairs (K.bytes pair.0)) }
        ensures succeeds { HasRoom (map_of self.old).now.nodes 1 → IsOk result }
        ensures room { UsesRoom 1 (map_of self.old).now.nodes (map_of self.new).now.nodes }
        ensures leaf_room { OnOk result (FreesRoomOf Leaf (map_of self.old).now.nodes (map_of self.new).now.nodes) }
    {
        self.take(End::First)
    }

    /// Removes the last pair that is still to be decided on from the map, and returns it. One has to be left, as
    /// `is_empty` tells.
    ///
    /// Fails as `remove_entry` does. The map is unchanged then, and no pair is left to be decided on.
    ///
    /// ```
    /// use std::ops::Bound;
    /// let mut map = TreeMap::new(rt.alloc());
    /// map.extend([(*b"ab", 1), (*b"cd", 2)])?;
    /// let mut pairs = map.extraction(Bound::Included(b"ab"), Bound::Included(b"cd"));
    /// assert_eq!(rt; pairs.take_back()?, (*b"cd", 2));
    /// assert!(rt; map.keys().eq([b"ab"]));
    /// ```
    pub fn take_back(&mut self) -> Result<(K, V), AllocError>
        requires { 0 < length (left_of self.old) }
        ensures left { IfOk result (λ pair. left_of self.old ≡ left_of self.new ++ pair ∷ []) }
        ensures pairs { IfOk result (λ pair.
            (map_of self.new).now.pairs ≡ without_key (key_of K.bytes) (K.bytes pair.0) (map_of self.old).now.pairs) }
        ensures names { OnOk result (KeepsLeaves K.bytes (map_of self.old).now (map_of self.new).now) }
        ensures none_new { AddsNoLeaf K.bytes (map_of self.old).now (map_of self.new).now }
        ensures err { OnErr result ((left_of self.new ≡ [])
            × ((map_of self.new).now.pairs ≡ (map_of self.old).now.pairs)) }
        ensures untouched { OnErr result (IsUntouched (map_of self.old).now (map_of self.new).now) }
        ensures same_map { (map_of self.new).ghost_name ≡ (map_of self.old).ghost_name }
        ensures shrinks { OnErr result ((pair : K × V) × (rest : List (K × V)) × (left_of self.old ≡ rest ++ pair ∷ [])
            × Shrinks (key_of K.bytes) (map_of self.old).now.pairs (K.bytes pair.0)) }
        ensures succeeds { HasRoom (map_of self.old).now.nodes 1 → IsOk result }
        ensures room { UsesRoom 1 (map_of self.old).now.nodes (map_of self.new).now.nodes }
        ensures leaf_room { OnOk result (FreesRoomOf Leaf (map_of self.old).now.nodes (map_of self.new).now.nodes) }
    {
        self.take(End::Last)
    }

    // Leaves the pair at an end in the map.
    pub(super) fn pass(&mut self, end: End)
        requires { 0 < length (left_of self.old) }
        ensures same { map_of self.new ≡ map_of self.old }
        ensures left { (pair : K × V) × IsAtEnd end pair (left_of self.new) (left_of self.old) }
    {
        let _leaf = self.next_leaf(end);
    }

    // Removes the pair at an end from the map.
    pub(super) fn take(&mut self, end: End) -> Result<(K, V), AllocError>
        requires { 0 < length (left_of self.old) }
        ensures left { IfOk result (λ pair. IsAtEnd end pair (left_of self.new) (left_of self.old)) }
        ensures pairs { IfOk result (λ pair.
            (map_of self.new).now.pairs ≡ without_key (key_of K.bytes) (K.bytes pair.0) (map_of self.old).now.pairs) }
        ensures names { OnOk result (KeepsLeaves K.bytes (map_of self.old).now (map_of self.new).now) }
        ensures none_new { AddsNoLeaf K.bytes (map_of self.old).now (map_of self.new).now }
        ensures err { OnErr result ((left_of self.new ≡ [])
            × ((map_of self.new).now.pairs ≡ (map_of self.old).now.pairs)) }
        ensures untouched { OnErr result (IsUntouched (map_of self.old).now (map_of self.new).now) }
        ensures same_map { (map_of self.new).ghost_name ≡ (map_of self.old).ghost_name }
        ensures shrinks { OnErr result ((pair : K × V) × (rest : List (K × V))
            × IsAtEnd end pair rest (left_of self.old)
            × Shrinks (key_of K.bytes) (map_of self.old).now.pairs (K.bytes pair.0)) }
        ensures succeeds { HasRoom (map_of self.old).now.nodes 1 → IsOk result }
        ensures room { UsesRoom 1 (map_of self.old).now.nodes (map_of self.new).now.nodes }
        ensures leaf_room { OnOk result (FreesRoomOf Leaf (map_of self.old).now.nodes (map_of self.new).now.nodes) }
    {
        let leaf = self.next_leaf(end);
        match self.map.take_at(leaf) {
            Ok(pair) => Ok(pair),
            Err(refused) => {
                self.leaves = RawIterator::empty();
                Err(refused)
            }
        }
    }
}

impl<K: AsBytes, V, const PREFIX_LEN: usize> TreeMap<K, V, PREFIX_LEN> {
    ghost use Rattle.art_map.specs.Extractions.{map_of, left_of};

    // All pairs, each to be taken out of the map or left in it.
    pub(super) fn extraction_of_all(&mut self) -> Extraction<'_, K, V, PREFIX_LEN>
        ensures same_map { ((map_of result).ghost_name ≡ self.entry.ghost_name) × ((map_of result).now ≡ self.old) }
        ensures left { left_of result ≡ self.old.pairs }
    {
        let leaves = self.walk_between(Bound::Unbounded, Bound::Unbounded);
        Extraction {
            map: self,
            leaves,
            ahead: Prefetcher::new(),
        }
    }

    /// Returns the pairs whose keys are between two bounds, by their bytes. From either end, each is left in the map or
    /// taken out. It allocates nothing. The bounds' keys need not be stored.
    ///
    /// If the map has a pair, the bounds have to be valid, as `bounds_are_valid` tells.
    ///
    /// ```
    /// use std::ops::Bound;
    /// let mut map = TreeMap::new(rt.alloc());
    /// map.extend([(*b"ab", 1), (*b"cd", 2), (*b"ef", 3)])?;
    /// let mut pairs = map.extraction(Bound::Excluded(b"ab"), Bound::Included(b"ef"));
    /// pairs.pass_front();
    /// assert_eq!(rt; pairs.take_front()?, (*b"ef", 3));
    /// assert!(rt; map.keys().eq([b"ab", b"cd"]));
    /// ```
    pub fn extraction<Q: AsBytes>(
        &mut self,
        start: Bound<&Q>,
        end: Bound<&Q>,
    ) -> Extraction<'_, K, V, PREFIX_LEN>
        requires { (self.old.pairs ≡ []) ⊎ AreValidKeyBounds (bound_map (λ key. Q.bytes key.now) start)
            (bound_map (λ key. Q.bytes key.now) end) }
        ensures same_map { ((map_of result).ghost_name ≡ self.entry.ghost_name) × ((map_of result).now ≡ self.old) }
        ensures left { left_of result ≡ pairs_between K.bytes (bound_map (λ key. Q.bytes key.now) start.entry)
            (bound_map (λ key. Q.bytes key.now) end.entry) self.old.pairs }
    {
        let leaves = self.walk_between(bytes_of(start), bytes_of(end));
        Extraction {
            map: self,
            leaves,
            ahead: Prefetcher::new(),
        }
    }
}

//! `TreeMapBuilder`: a map that is made of pairs which come one after another.
ghost use Rattle.std.specs.Prelude.{◌≡◌, ◌+◌, ◌<◌, ◌^◌, ℕ, List, [], false};
ghost use Rattle.std.specs.Prelude.{IfErr, IfOk, IsOk, MatchResult, OnErr, OnOk};
ghost use Rattle.std.specs.Iterator.{IsFinite};
ghost use Rattle.std.specs.List.{AllByRecursion};
ghost use Rattle.std.specs.Map.Iter.{deref_pair};
ghost use Rattle.art_arena.specs.arena.Arena.{HasRoom, KeepsRoomOf, UsesRoom};
ghost use Rattle.art_arena.specs.arena.Shapes.{key_of};
ghost use Rattle.art_operations.specs.Builders.{Builds, HasRoomBeside};
ghost use Rattle.art_operations.specs.Insertions.{HandsPairBack, IsForConflict, IsPairRefused};
ghost use Rattle.art_operations.specs.KeyedLists.{HasKey, IsBlocked};
ghost use Rattle.art_operations.specs.LeafNames.{HasLeavesOf};
ghost use Rattle.art_operations.specs.Pairs.{with_pair_put};
ghost use Rattle.art_map.specs.Builders.{GathersWith, HasGathered, HasGatheredInOrder, HasRoomLeft, KeepsRoomLeft};
ghost use Rattle.art_map.specs.Builders.{nodes_of};
ghost use Rattle.art_map.specs.inner.Pushes.{pair_handed_back};

mod push;

use crate::map::TreeMap;
use art_arena::NodeArena;
use art_bytes::{AsBytes, NoPrefixesBytes};
use art_nodes::assume_proved;
use art_operations::{InsertRefused, PairRefused, PushRefused, SpineRoom, TreeBuilder};
use std::alloc::Global;
use std::mem;

// So many pairs are inserted before the first look whether keys go after the last again.
const FIRST_PAUSE: usize = 8;

// Each look doubles their number, up to this one.
const LONGEST_PAUSE: usize = 1024;

/// A map in the making, which takes pairs one after another. As long as each key goes after the last, no place is
/// looked for, and an inner node is made once, with all its children. From the first that doesn't, pairs are inserted.
/// Eight pairs later it looks whether keys go after the last again, and so no place is looked for again, until one
/// doesn't. Each look doubles the number of pairs that are inserted before the next one, up to 1024.
///
/// Where there is no memory to go on without a search, it inserts the pair instead. So a pair is refused only if an
/// insertion of it would be out of memory.
///
/// Nodes of its `PREFIX_LEN` must fit in memory: see `nodes_fit`.
///
/// ```
/// let mut builder: TreeMapBuilder<_, _, 16> = TreeMapBuilder::new(rt.alloc());
/// builder.put(*b"ab", 1)?;
/// builder.put(*b"cd", 2)?;
/// let map = builder.finish();
/// assert!(rt; map.keys().eq([b"ab", b"cd"]));
/// ```
#[derive(Drop)]
pub struct TreeMapBuilder<K: AsBytes, V, const PREFIX_LEN: usize> {
    alloc: Global,
    // Whether keys go after the last. If one didn't, the map has the pairs.
    in_order: bool,
    // If not, so many pairs are inserted before the next look,
    wait: usize,
    // and between the last look and that one so many.
    pause: usize,
    arena: NodeArena<K, V, PREFIX_LEN>,
    builder: TreeBuilder,
    map: TreeMap<K, V, PREFIX_LEN>,
}

impl<K: AsBytes + Drop, V: Drop, const PREFIX_LEN: usize> TreeMapBuilder<K, V, PREFIX_LEN> {
    /// Makes a builder that has no pair. It allocates nothing.
    ///
    /// ```
    /// let builder: TreeMapBuilder<[u8; 2], u32, 16> = TreeMapBuilder::new(rt.alloc());
    /// assert!(rt; builder.finish().is_empty());
    /// ```
    pub fn new(alloc: Global) -> Self
        ensures { HasGathered K.bytes K.is_key result [] }
    {
        let arena = NodeArena::new(alloc);
        let builder = TreeBuilder::new(alloc);
        let map = TreeMap::with_prefix_len(alloc);
        TreeMapBuilder {
            alloc,
            in_order: true,
            wait: FIRST_PAUSE,
            pause: FIRST_PAUSE,
            arena,
            builder,
            map,
        }
    }

    /// Makes a builder that goes on from a map: it has the map's pairs. It allocates nothing.
    ///
    /// ```
    /// let mut map = TreeMap::new(rt.alloc());
    /// map.insert(*b"ab", 1)?;
    /// let mut builder = TreeMapBuilder::from_map(map);
    /// builder.put(*b"cd", 2)?;
    /// assert!(rt; builder.finish().keys().eq([b"ab", b"cd"]));
    /// ```
    pub fn from_map(map: TreeMap<K, V, PREFIX_LEN>) -> Self
        requires fits_in_memory { PREFIX_LEN < 2 ^ 62 }
        ensures pairs { HasGathered K.bytes K.is_key result map.pairs }
        ensures names { HasLeavesOf K.bytes (nodes_of result) map.nodes }
        ensures room { (n : ℕ) → HasRoom map.nodes n → HasRoomLeft result n }
    {
        let alloc = map.alloc;
        match map.root {
            None => TreeMapBuilder {
                alloc,
                in_order: true,
                wait: FIRST_PAUSE,
                pause: FIRST_PAUSE,
                arena: map.arena,
                builder: TreeBuilder::new(alloc),
                map: TreeMap::with_prefix_len(alloc),
            },
            Some(_) => TreeMapBuilder {
                alloc,
                in_order: false,
                wait: FIRST_PAUSE,
                pause: FIRST_PAUSE,
                arena: NodeArena::new(alloc),
                builder: TreeBuilder::new(alloc),
                map,
            },
        }
    }

    /// Takes a pair, whatever its type's keys are. It replaces a pair whose key has the same bytes.
    ///
    /// Fails with `Conflict` if the key is a prefix of one that it has, or one of these is a prefix of it. As long as
    /// keys ascend, only the last can be. Fails with `Memory` only if an insertion of the pair would be out of memory.
    /// A key that it has never fails. The error returns the pair, and the builder has the pairs that it had.
    ///
    /// ```
    /// let mut builder: TreeMapBuilder<_, _, 16> = TreeMapBuilder::new(rt.alloc());
    /// builder.try_put(StrKey("ab"), 1)?;
    /// assert!(rt; matches!(builder.try_put(StrKey("abc"), 2), Err(PairRefused::Conflict { .. })));
    /// builder.try_put(StrKey("ac"), 3)?;
    /// assert!(rt; builder.finish().values().eq([&1, &3]));
    /// ```
    pub fn try_put(&mut self, key: K, value: V) -> Result<(), PairRefused<K, V>>
        requires fits_in_memory { PREFIX_LEN < 2 ^ 62 }
        requires taken { (pairs : List (K × V)) × HasGathered K.bytes K.is_key self.old pairs }
        ensures ok { OnOk result ((pairs : List (K × V)) → HasGathered K.bytes K.is_key self.old pairs
            → HasGathered K.bytes K.is_key self.new (with_pair_put K.bytes key value pairs)) }
        ensures free { OnOk result ((pairs : List (K × V)) → HasGathered K.bytes K.is_key self.old pairs
            → IsBlocked (key_of K.bytes) (K.bytes key) pairs → ⊥) }
        ensures refused { IfErr result (λ e. (pairs : List (K × V)) → HasGathered K.bytes K.is_key self.old pairs
            → IsPairRefused key value (IsBlocked (key_of K.bytes) (K.bytes key) pairs) e) }
        ensures stored { (pairs : List (K × V)) → HasGathered K.bytes K.is_key self.old pairs
            → HasKey (key_of K.bytes) (K.bytes key) pairs → IsOk result }
        ensures kept { OnErr result ((pairs : List (K × V)) → HasGathered K.bytes K.is_key self.old pairs
            → HasGathered K.bytes K.is_key self.new pairs) }
        ensures names { HasLeavesOf K.bytes (nodes_of self.new) (nodes_of self.old) }
        ensures succeeds { IfErr result (λ e. HasRoomLeft self.old 2 → IsForConflict e) }
        ensures room { (n : ℕ) → HasRoomLeft self.old (n + 2) → HasRoomLeft self.new n }
        ensures kept_room { OnErr result (KeepsRoomLeft self.old self.new) }
        ensures stored_room { (pairs : List (K × V)) → HasGathered K.bytes K.is_key self.old pairs
            → HasKey (key_of K.bytes) (K.bytes key) pairs → KeepsRoomLeft self.old self.new }
        ensures keys { (pairs : List (K × V)) → HasGathered K.bytes K.is_key self.old pairs
            → AllByRecursion (λ p. K.is_key p.0) pairs }
        ensures key { K.is_key key }
    {
        self.resume(key.as_bytes());
        self.put_on(key, value)
    }

    // Takes a pair after the last one, where keys go there and there is memory for that, or inserts it.
    fn put_on(&mut self, key: K, value: V) -> Result<(), PairRefused<K, V>>
        requires fits_in_memory { PREFIX_LEN < 2 ^ 62 }
        requires taken { (pairs : List (K × V)) × HasGathered K.bytes K.is_key self.old pairs }
        ensures ok { OnOk result ((pairs : List (K × V)) → HasGathered K.bytes K.is_key self.old pairs
            → HasGathered K.bytes K.is_key self.new (with_pair_put K.bytes key value pairs)) }
        ensures free { OnOk result ((pairs : List (K × V)) → HasGathered K.bytes K.is_key self.old pairs
            → IsBlocked (key_of K.bytes) (K.bytes key) pairs → ⊥) }
        ensures refused { IfErr result (λ e. (pairs : List (K × V)) → HasGathered K.bytes K.is_key self.old pairs
            → IsPairRefused key value (IsBlocked (key_of K.bytes) (K.bytes key) pairs) e) }
        ensures stored { (pairs : List (K × V)) → HasGathered K.bytes K.is_key self.old pairs
            → HasKey (key_of K.bytes) (K.bytes key) pairs → IsOk result }
        ensures kept { OnErr result ((pairs : List (K × V)) → HasGathered K.bytes K.is_key self.old pairs
            → HasGathered K.bytes K.is_key self.new pairs) }
        ensures names { HasLeavesOf K.bytes (nodes_of self.new) (nodes_of self.old) }
        ensures succeeds { IfErr result (λ e. HasRoomLeft self.old 2 → IsForConflict e) }
        ensures room { (n : ℕ) → HasRoomLeft self.old (n + 2) → HasRoomLeft self.new n }
        ensures kept_room { OnErr result (KeepsRoomLeft self.old self.new) }
        ensures stored_room { (pairs : List (K × V)) → HasGathered K.bytes K.is_key self.old pairs
            → HasKey (key_of K.bytes) (K.bytes key) pairs → KeepsRoomLeft self.old self.new }
        ensures keys { (pairs : List (K × V)) → HasGathered K.bytes K.is_key self.old pairs
            → AllByRecursion (λ p. K.is_key p.0) pairs }
        ensures key { K.is_key key }
    {
        // Its bytes tell that it is a key.
        let _key_bytes = key.as_bytes();
        if !self.in_order {
            return self.insert(key, value);
        }
        match self.builder.push(&mut self.arena, key, value) {
            Ok(()) => Ok(()),
            Err(refused) => {
                let (key, value) = handed_back(refused);
                self.build_in_order();
                self.insert(key, value)
            }
        }
    }

    // Where pairs are inserted, looks after a pause whether keys go after the last again, as this one does. Then the
    // map's tree is opened again, and pairs go on after its last one. The next pause is twice as long, up to a limit.
    // The builder has the pairs that it had.
    #[inline]
    fn resume(&mut self, key: &[u8])
        ensures pairs { (pairs : List (K × V)) → HasGathered K.bytes K.is_key self.old pairs
            → HasGathered K.bytes K.is_key self.new pairs }
        ensures names { HasLeavesOf K.bytes (nodes_of self.new) (nodes_of self.old) }
        ensures room { (n : ℕ) → HasRoomLeft self.old n → HasRoomLeft self.new n }
    {
        if self.in_order {
            return;
        }
        if self.wait > 0 {
            self.wait -= 1;
            return;
        }
        self.pause = next_pause(self.pause);
        self.wait = self.pause;
        if !self.map.ends_before(key) {
            return;
        }
        self.reopen();
    }

    // Opens the tree of the map again. Out of memory the map keeps it, and pairs are inserted as before.
    fn reopen(&mut self)
        requires settled { self.old.in_order ≡ false }
        ensures pairs { (pairs : List (K × V)) → self.old.map.pairs ≡ pairs
            → HasGathered K.bytes K.is_key self.new pairs }
        ensures names { HasLeavesOf K.bytes (nodes_of self.new) self.old.map.nodes }
        ensures room { (n : ℕ) → HasRoom self.old.map.nodes n → HasRoomLeft self.new n }
    {
        let empty = TreeMap::with_prefix_len(self.alloc);
        match mem::replace(&mut self.map, empty).into_tree() {
            Ok((arena, builder)) => {
                self.in_order = true;
                self.arena = arena;
                self.builder = builder;
            }
            Err(map) => self.map = map,
        }
    }

    // Inserts a pair into the map that has the others.
    fn insert(&mut self, key: K, value: V) -> Result<(), PairRefused<K, V>>
        requires settled { self.old.in_order ≡ false }
        ensures settled { self.new.in_order ≡ false }
        ensures pairs { OnOk result (self.new.map.pairs ≡ with_pair_put K.bytes key value self.old.map.pairs) }
        ensures free { OnOk result (IsBlocked (key_of K.bytes) (K.bytes key) self.old.map.pairs → ⊥) }
        ensures refused { IfErr result
            (IsPairRefused key value (IsBlocked (key_of K.bytes) (K.bytes key) self.old.map.pairs)) }
        ensures stored { HasKey (key_of K.bytes) (K.bytes key) self.old.map.pairs → IsOk result }
        ensures kept { OnErr result (self.new.map.pairs ≡ self.old.map.pairs) }
        ensures names { HasLeavesOf K.bytes self.new.map.nodes self.old.map.nodes }
        ensures succeeds { IfErr result (λ e. HasRoom self.old.map.nodes 2 → IsForConflict e) }
        ensures room { UsesRoom 2 self.old.map.nodes self.new.map.nodes }
        ensures kept_room { OnErr result (KeepsRoomOf self.old.map.nodes self.new.map.nodes) }
        ensures stored_room { HasKey (key_of K.bytes) (K.bytes key) self.old.map.pairs
            → KeepsRoomOf self.old.map.nodes self.new.map.nodes }
        ensures keys { AllByRecursion (λ p. K.is_key p.0) self.old.map.pairs }
        ensures key { K.is_key key }
    {
        match self.map.put(key, value) {
            Ok(_old) => Ok(()),
            Err(refused) => Err(refused),
        }
    }

    // Makes the map of the pairs that came in order.
    fn build_in_order(&mut self)
        requires fits_in_memory { PREFIX_LEN < 2 ^ 62 }
        requires taken { (pairs : List (K × V)) × HasGatheredInOrder K.bytes K.is_key self.old pairs }
        ensures settled { self.new.in_order ≡ false }
        ensures pairs { (pairs : List (K × V)) → HasGatheredInOrder K.bytes K.is_key self.old pairs
            → self.new.map.pairs ≡ pairs }
        ensures names { HasLeavesOf K.bytes self.new.map.nodes self.old.arena }
        ensures room { (n : ℕ) → HasRoomBeside self.old.arena self.old.builder n → HasRoom self.new.map.nodes n }
    {
        self.in_order = false;
        let arena = mem::replace(&mut self.arena, NodeArena::new(self.alloc));
        let builder = mem::replace(&mut self.builder, TreeBuilder::new(self.alloc));
        self.map = TreeMap::of_tree(self.alloc, arena, builder);
    }

    /// Returns the map of the pairs. Of pairs whose keys have the same bytes it has the last. It never fails, and
    /// allocates nothing.
    ///
    /// ```
    /// let mut builder: TreeMapBuilder<_, _, 16> = TreeMapBuilder::new(rt.alloc());
    /// builder.put(*b"ab", 1)?;
    /// assert_eq!(rt; builder.finish().get(b"ab"), Some(&1));
    /// ```
    pub fn finish(self) -> TreeMap<K, V, PREFIX_LEN>
        requires fits_in_memory { PREFIX_LEN < 2 ^ 62 }
        requires taken { (pairs : List (K × V)) × HasGathered K.bytes K.is_key self pairs }
        ensures pairs { (pairs : List (K × V)) → HasGathered K.bytes K.is_key self pairs → result.pairs ≡ pairs }
        ensures names { HasLeavesOf K.bytes result.nodes (nodes_of self) }
        ensures room { (n : ℕ) → HasRoomLeft self n → HasRoom result.nodes n }
    {
        if !self.in_order {
            return self.map;
        }
        TreeMap::of_tree(self.alloc, self.arena, self.builder)
    }
}

impl<K: NoPrefixesBytes + Drop, V: Drop, const PREFIX_LEN: usize> TreeMapBuilder<K, V, PREFIX_LEN> {
    // Puts in the pairs that an iterator gives, one after another, up to the first that is refused.
    pub(super) fn put_all<U: IntoIterator<Item = (K, V)>>(
        &mut self,
        iter: U,
    ) -> Result<(), InsertRefused<K, V>>
        requires fits_in_memory { PREFIX_LEN < 2 ^ 62 }
        requires taken { (pairs : List (K × V)) × HasGathered K.bytes K.is_key self.old pairs }
        requires ends { (it : U.IntoIter) → U.into_iter_gives iter it
            → U.IntoIter.can_next it × IsFinite (U.IntoIter.remaining it) }
        ensures pairs { GathersWith K.bytes K.is_key (λ pair. pair) U.into_iter_gives U.IntoIter.next_gives iter
            self.old result self.new }
        ensures names { HasLeavesOf K.bytes (nodes_of self.new) (nodes_of self.old) }
    {
        for (key, value) in iter {
            self.put(key, value)?;
        }
        Ok(())
    }

    // Puts in copies of the pairs that an iterator lends, as `put_all` does.
    pub(super) fn put_copies<'a, U: IntoIterator<Item = (&'a K, &'a V)>>(
        &mut self,
        iter: U,
    ) -> Result<(), InsertRefused<K, V>>
    where
        K: Copy + 'a,
        V: Copy + 'a,
        requires fits_in_memory { PREFIX_LEN < 2 ^ 62 }
        requires taken { (pairs : List (K × V)) × HasGathered K.bytes K.is_key self.old pairs }
        requires ends { (it : U.IntoIter) → U.into_iter_gives iter it
            → U.IntoIter.can_next it × IsFinite (U.IntoIter.remaining it) }
        ensures pairs { GathersWith K.bytes K.is_key deref_pair U.into_iter_gives U.IntoIter.next_gives iter
            self.old result self.new }
        ensures names { HasLeavesOf K.bytes (nodes_of self.new) (nodes_of self.old) }
    {
        for (key, value) in iter {
            self.put(*key, *value)?;
        }
        Ok(())
    }

    /// Takes a pair. It replaces a pair whose key has the same bytes.
    ///
    /// Fails only if an insertion of the pair would be out of memory, and never if it has the key. The error returns
    /// the pair, and the builder has the pairs that it had. Neither uses up room.
    ///
    /// ```
    /// let mut builder: TreeMapBuilder<_, _, 16> = TreeMapBuilder::new(rt.alloc());
    /// builder.put(*b"cd", 1)?;
    /// builder.put(*b"ab", 2)?;
    /// builder.put(*b"cd", 3)?;
    /// assert!(rt; builder.finish().iter().eq([(b"ab", &2), (b"cd", &3)]));
    /// ```
    pub fn put(&mut self, key: K, value: V) -> Result<(), InsertRefused<K, V>>
        requires fits_in_memory { PREFIX_LEN < 2 ^ 62 }
        requires taken { (pairs : List (K × V)) × HasGathered K.bytes K.is_key self.old pairs }
        ensures ok { OnOk result ((pairs : List (K × V)) → HasGathered K.bytes K.is_key self.old pairs
            → HasGathered K.bytes K.is_key self.new (with_pair_put K.bytes key value pairs)) }
        ensures handed_back { HandsPairBack key value result }
        ensures stored { (pairs : List (K × V)) → HasGathered K.bytes K.is_key self.old pairs
            → HasKey (key_of K.bytes) (K.bytes key) pairs → IsOk result }
        ensures kept { OnErr result ((pairs : List (K × V)) → HasGathered K.bytes K.is_key self.old pairs
            → HasGathered K.bytes K.is_key self.new pairs) }
        ensures names { HasLeavesOf K.bytes (nodes_of self.new) (nodes_of self.old) }
        ensures succeeds { HasRoomLeft self.old 2 → IsOk result }
        ensures room { (n : ℕ) → HasRoomLeft self.old (n + 2) → HasRoomLeft self.new n }
        ensures kept_room { OnErr result (KeepsRoomLeft self.old self.new) }
        ensures stored_room { (pairs : List (K × V)) → HasGathered K.bytes K.is_key self.old pairs
            → HasKey (key_of K.bytes) (K.bytes key) pairs → KeepsRoomLeft self.old self.new }
    {
        match self.try_put(key, value) {
            Ok(()) => Ok(()),
            Err(PairRefused::Memory { key, value }) => Err(InsertRefused { key, value }),
            Err(PairRefused::Conflict { .. }) => {
                assume_proved(false);
                unreachable!()
            }
        }
    }
}

// The pair that was not taken.
fn handed_back<K, V>(refused: PushRefused<K, V>) -> (K, V)
    ensures { result ≡ pair_handed_back refused }
{
    match refused {
        PushRefused::NotAfter { key, value } | PushRefused::Memory { key, value } => (key, value),
    }
}

// The pause after the next look.
fn next_pause(pause: usize) -> usize {
    if pause < LONGEST_PAUSE {
        return 2 * pause;
    }
    pause
}

impl<K: AsBytes + Drop, V: Drop, const PREFIX_LEN: usize> TreeMap<K, V, PREFIX_LEN> {
    // Whether there is a last key, which comes before these bytes.
    fn ends_before(&self, key: &[u8]) -> bool {
        match self.last_key_value() {
            Some((last, _)) => last.as_bytes() < key,
            None => false,
        }
    }

    // Moves the pairs into a builder, which goes on from them. The map is empty then.
    pub(super) fn take_into_builder(&mut self) -> TreeMapBuilder<K, V, PREFIX_LEN>
        requires fits_in_memory { PREFIX_LEN < 2 ^ 62 }
        ensures pairs { HasGathered K.bytes K.is_key result self.old.pairs }
        ensures names { HasLeavesOf K.bytes (nodes_of result) self.old.nodes }
        ensures room { (n : ℕ) → HasRoom self.old.nodes n → HasRoomLeft result n }
    {
        let empty = TreeMap::with_prefix_len(self.alloc);
        TreeMapBuilder::from_map(mem::replace(self, empty))
    }

    // Takes the pairs of a builder, in place of those that are there.
    pub(super) fn put_back(&mut self, builder: TreeMapBuilder<K, V, PREFIX_LEN>)
        requires fits_in_memory { PREFIX_LEN < 2 ^ 62 }
        requires taken { (pairs : List (K × V)) × HasGathered K.bytes K.is_key builder pairs }
        ensures pairs { (pairs : List (K × V)) → HasGathered K.bytes K.is_key builder pairs → self.new.pairs ≡ pairs }
        ensures names { HasLeavesOf K.bytes self.new.nodes (nodes_of builder) }
        ensures room { (n : ℕ) → HasRoomLeft builder n → HasRoom self.new.nodes n }
    {
        *self = builder.finish();
    }

    // The map of the pairs of which a tree is being built.
    pub(super) fn of_tree(
        alloc: Global,
        arena: NodeArena<K, V, PREFIX_LEN>,
        builder: TreeBuilder,
    ) -> Self
        requires fits_in_memory { PREFIX_LEN < 2 ^ 62 }
        requires builds { (pairs : List (K × V)) × Builds K.bytes PREFIX_LEN arena builder pairs
            × AllByRecursion (λ p. K.is_key p.0) pairs }
        ensures pairs { (pairs : List (K × V)) → Builds K.bytes PREFIX_LEN arena builder pairs
            → result.pairs ≡ pairs }
        ensures names { HasLeavesOf K.bytes result.nodes arena }
        ensures room { (n : ℕ) → HasRoomBeside arena builder n → HasRoom result.nodes n }
    {
        let mut arena = arena;
        let root = builder.finish(&mut arena);
        TreeMap { alloc, arena, root }
    }

    // Opens the tree of the map again at its last leaf, to build on there. Out of memory it returns the map as it was.
    fn into_tree(self) -> Result<(NodeArena<K, V, PREFIX_LEN>, TreeBuilder), Self>
        ensures ok { IfOk result (λ tree. Builds K.bytes PREFIX_LEN tree.0 tree.1 self.pairs
            × AllByRecursion (λ p. K.is_key p.0) self.pairs) }
        ensures err { IfErr result (λ map. map.pairs ≡ self.pairs) }
        ensures names { MatchResult result (λ tree. HasLeavesOf K.bytes tree.0 self.nodes)
            (λ map. HasLeavesOf K.bytes map.nodes self.nodes) }
        ensures room { (n : ℕ) → HasRoom self.nodes n
            → MatchResult result (λ tree. HasRoomBeside tree.0 tree.1 n) (λ map. HasRoom map.nodes n) }
    {
        let alloc = self.alloc;
        let mut arena = self.arena;
        let Some(root) = self.root else {
            return Ok((arena, TreeBuilder::new(alloc)));
        };
        match TreeBuilder::reopen(SpineRoom::empty(alloc), &mut arena, root) {
            Ok(builder) => Ok((arena, builder)),
            Err(node) => {
                let root = Some(node);
                Err(TreeMap { alloc, arena, root })
            }
        }
    }
}

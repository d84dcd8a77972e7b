//! Removal of all pairs whose keys begin with a prefix, in one cut. `prepare_remove_prefix` takes the memory, `apply`
//! cuts.
ghost use Rattle.std.specs.Prelude.{◌≡◌, ◌≢◌, ◌+◌, ◌*◌, ◌≤◌, ℕ, [], List, length, IfOk, IsOk, OnErr, OnOk};
ghost use Rattle.std.specs.Borrow.{sem};
ghost use Rattle.art_nodes.specs.declared.kind.NodeType.TheVariants.{Leaf};
ghost use Rattle.art_arena.specs.arena.Arena.{HasRoom, HasRoomOf, KeepsRoom, KeepsRoomOf, UsesRoom};
ghost use Rattle.art_arena.specs.arena.Shapes.{key_of};
ghost use Rattle.art_arena.specs.tree.Tenants.{with_front, without_front};
ghost use Rattle.art_operations.specs.Frees.{FreesLeaves};
ghost use Rattle.art_operations.specs.Openings.{OpeningReads};
ghost use Rattle.art_walks.specs.MapReads.{PairsWithin};
ghost use Rattle.art_map.specs.Contents.{HasSameNodes};
ghost use Rattle.art_map.specs.LeafNames.{KeepsLeaves};
ghost use Rattle.art_map.specs.PrefixBlocks.{AreCutVisits, IsFoundPart, IsReadyPart, ShrinksAtCut};
ghost use Rattle.art_map.specs.PrefixBlocks.{cut_reads, cut_visits};

use crate::map::TreeMap;
use art_arena::ArenaReader;
use art_bytes::{AsBytes, History, Piece};
use art_operations::{PreparedSubtreeDelete, SubtreeDeletePoint, search_for_subtree_delete_point};
use std::alloc::AllocError;
use std::marker::{Model, PhantomData};

/// What the removal of all keys that begin with a prefix did.
#[derive(Clone, Copy, Debug)]
pub struct Removed {
    /// How many pairs were removed.
    pub pairs: usize,
    /// How many nodes were read to find the pairs, or freed. A count that reaches the greatest number stays there.
    pub visits: u64,
}

// The part of a tree that is to be cut, and how many nodes were read to find it. What the cut needs is allocated. It is
// a struct with a model of its own: so who moves it needs to know nothing of the kinds of nodes that it names.
#[derive(Drop)]
struct FoundBlock {
    part: Option<PreparedSubtreeDelete>,
    visits: u64,
}

impl Model for FoundBlock {
    ghost use Rattle.art_map.specs.PrefixBlocks.{Block};

    ghost Value = { Block };

    ghost view = { λ b. record { part = b.part; reads = b.visits } };

    ghost inverse = { λ v. record { part = v.part; visits = v.reads } };
}

impl FoundBlock {
    fn new(part: Option<PreparedSubtreeDelete>, visits: u64) -> Self
        ensures { result ≡ record { part = part; reads = visits } }
    {
        FoundBlock { part, visits }
    }
}

/// All pairs of a map whose keys begin with a prefix, to be removed in one cut. What the cut needs is allocated.
///
/// If it is dropped, the map keeps its pairs. The last parameter is never written: it tells the borrow check that the
/// map lives as long as it is lent.
#[derive(Drop)]
pub struct PrefixRemoval<
    'a,
    K: AsBytes,
    V,
    const PREFIX_LEN: usize,
    M: 'a = TreeMap<K, V, PREFIX_LEN>,
> {
    map: &'a mut TreeMap<K, V, PREFIX_LEN>,
    block: FoundBlock,
    front: History,
    mark: PhantomData<M>,
    ghost found: { ∥ IsReadyPart K.bytes PREFIX_LEN map.now front.items block.part ∥₁ },
}

impl<'a, K: AsBytes, V, const PREFIX_LEN: usize> PrefixRemoval<'a, K, V, PREFIX_LEN> {
    ghost use Rattle.art_map.specs.PrefixRemovals.{removal_map, removal_prefix, removal_reads};

    /// Removes the pairs from the map. It never fails.
    ///
    /// It counts the nodes that were read to find the pairs, and those that are freed. One is freed for each pair, and
    /// one for each of the different longest common prefixes of neighbours among them. So they are fewer than twice as
    /// many as pairs.
    ///
    /// ```
    /// let mut map = TreeMap::new(rt.alloc());
    /// map.extend([(*b"ab", 1), (*b"ac", 2), (*b"ba", 3)])?;
    /// let removed = map.prepare_remove_prefix(b"a")?.apply();
    /// assert_eq!(rt; removed.pairs, 2);
    /// assert!(rt; map.keys().eq([b"ba"]));
    /// ```
    pub fn apply(self) -> Removed
    where
        K: Drop,
        V: Drop,
        ensures pairs { self.exit.0.now.pairs
            ≡ without_front (key_of K.bytes) (removal_prefix self.entry) (removal_map self.entry).now.pairs }
        ensures count { result.pairs
            ≡ length (with_front (key_of K.bytes) (removal_prefix self.entry) (removal_map self.entry).now.pairs) }
        ensures visits { result.visits ≡ cut_visits K.bytes (removal_prefix self.entry)
            (removal_map self.entry).now.pairs (removal_reads self.entry) }
        ensures names { KeepsLeaves K.bytes (removal_map self.entry).now self.exit.0.now }
        ensures all_counted { result.pairs ≤ result.visits }
        ensures few { result.visits ≤ removal_reads self.entry + 2 * result.pairs }
        ensures room { UsesRoom 1 (removal_map self.entry).now.nodes self.exit.0.now.nodes }
        ensures leaf_room { FreesLeaves result.pairs (removal_map self.entry).now.nodes self.exit.0.now.nodes }
    {
        let block = self.block;
        self.map.cut_block(block)
    }
}

impl<K: AsBytes, V, const PREFIX_LEN: usize> TreeMap<K, V, PREFIX_LEN> {
    ghost use Rattle.art_map.specs.PrefixRemovals.{removal_map, removal_prefix, removal_reads, rests_if_unprepared};

    // The part of the tree whose keys begin with a prefix, if any does, and how many nodes were read to find it.
    fn part_with_prefix(&self, prefix: &[u8]) -> (Option<SubtreeDeletePoint>, u64)
        ensures part { IsFoundPart K.bytes PREFIX_LEN self.now prefix.now result.0 }
        ensures counts { result.1 ≡ cut_reads K.bytes PREFIX_LEN prefix.now self.now.pairs }
        ensures few { (longest : ℕ) → PairsWithin K.bytes longest self.now.pairs
            → OpeningReads longest (length prefix.now) 0 result.1 }
        ensures least { self.now.pairs ≢ [] → 1 ≤ result.1 }
        ensures none { self.now.pairs ≡ [] → result.1 ≡ 0 }
    {
        match self.root {
            Some(root) => {
                let mut reader = ArenaReader::new(&self.arena);
                let found = search_for_subtree_delete_point(&mut reader, root, prefix);
                (found, reader.count())
            }
            None => (None, 0),
        }
    }

    // Allocates what the loss of the part of the tree needs whose keys begin with a prefix.
    fn ready_part(&mut self, part: SubtreeDeletePoint) -> Result<PreparedSubtreeDelete, AllocError>
        requires { (prefix : List ℕ) × IsFoundPart K.bytes PREFIX_LEN self.old prefix (Some part) }
        ensures ready { IfOk result (λ ready. (prefix : List ℕ)
            → IsFoundPart K.bytes PREFIX_LEN self.old prefix (Some part)
            → IsReadyPart K.bytes PREFIX_LEN self.new prefix (Some ready)) }
        ensures pairs { self.new.pairs ≡ self.old.pairs }
        ensures kept { HasSameNodes self.old self.new }
        ensures kept_room { KeepsRoom self.old.nodes self.new.nodes }
        ensures room_of { KeepsRoomOf self.old.nodes self.new.nodes }
        ensures succeeds { HasRoom self.old.nodes 1 → IsOk result }
        ensures shrinks { OnErr result ((prefix : List ℕ) → IsFoundPart K.bytes PREFIX_LEN self.old prefix (Some part)
            → ShrinksAtCut K.bytes prefix self.old.pairs) }
    {
        part.prepare(&mut self.arena)
    }

    // Finds the part of the tree whose keys begin with a prefix, and allocates what its loss needs.
    fn block_with_prefix(&mut self, prefix: &[u8]) -> Result<FoundBlock, AllocError>
        ensures ready { IfOk result (λ block. IsReadyPart K.bytes PREFIX_LEN self.new prefix.now block.part) }
        ensures counts { IfOk result (λ block.
            block.reads ≡ cut_reads K.bytes PREFIX_LEN prefix.now self.old.pairs) }
        ensures few { IfOk result (λ block. (longest : ℕ) → PairsWithin K.bytes longest self.old.pairs
            → OpeningReads longest (length prefix.now) 0 block.reads) }
        ensures least { IfOk result (λ block. self.old.pairs ≢ [] → 1 ≤ block.reads) }
        ensures none { IfOk result (λ block. self.old.pairs ≡ [] → block.reads ≡ 0) }
        ensures pairs { self.new.pairs ≡ self.old.pairs }
        ensures kept { HasSameNodes self.old self.new }
        ensures kept_room { KeepsRoom self.old.nodes self.new.nodes }
        ensures room_of { KeepsRoomOf self.old.nodes self.new.nodes }
        ensures succeeds { HasRoom self.old.nodes 1 → IsOk result }
        ensures shrinks { OnErr result (ShrinksAtCut K.bytes prefix.now self.old.pairs) }
    {
        let (found, visits) = self.part_with_prefix(prefix);
        match found {
            Some(part) => {
                let ready = self.ready_part(part)?;
                Ok(FoundBlock::new(Some(ready), visits))
            }
            None => Ok(FoundBlock::new(None, visits)),
        }
    }

    // Removes a part from the tree, in which it was found. What its loss needs is allocated.
    fn cut(&mut self, ready: PreparedSubtreeDelete, visits: u64) -> Removed
    where
        K: Drop,
        V: Drop,
        requires { (prefix : List ℕ) × ∥ IsReadyPart K.bytes PREFIX_LEN self.old prefix (Some ready) ∥₁ }
        ensures pairs { (prefix : List ℕ) → ∥ IsReadyPart K.bytes PREFIX_LEN self.old prefix (Some ready) ∥₁
            → self.new.pairs ≡ without_front (key_of K.bytes) prefix self.old.pairs }
        ensures count { (prefix : List ℕ) → ∥ IsReadyPart K.bytes PREFIX_LEN self.old prefix (Some ready) ∥₁
            → result.pairs ≡ length (with_front (key_of K.bytes) prefix self.old.pairs) }
        ensures visits { (prefix : List ℕ) → ∥ IsReadyPart K.bytes PREFIX_LEN self.old prefix (Some ready) ∥₁
            → result.visits ≡ cut_visits K.bytes prefix self.old.pairs visits }
        ensures names { KeepsLeaves K.bytes self.old self.new }
        ensures all_counted { result.pairs ≤ result.visits }
        ensures few { result.visits ≤ visits + 2 * result.pairs }
        ensures room { UsesRoom 1 self.old.nodes self.new.nodes }
        ensures leaf_room { FreesLeaves result.pairs self.old.nodes self.new.nodes }
    {
        let cut = ready.apply(&mut self.arena);
        self.root = cut.new_root;
        Removed {
            pairs: cut.leafs_removed,
            visits: visits.saturating_add(cut.nodes_freed),
        }
    }

    // Removes a part from the tree, as `cut` does, or nothing if no key begins with the prefix.
    fn cut_block(&mut self, block: FoundBlock) -> Removed
    where
        K: Drop,
        V: Drop,
        requires { (prefix : List ℕ) × ∥ IsReadyPart K.bytes PREFIX_LEN self.old prefix block.part ∥₁ }
        ensures pairs { (prefix : List ℕ) → ∥ IsReadyPart K.bytes PREFIX_LEN self.old prefix block.part ∥₁
            → self.new.pairs ≡ without_front (key_of K.bytes) prefix self.old.pairs }
        ensures count { (prefix : List ℕ) → ∥ IsReadyPart K.bytes PREFIX_LEN self.old prefix block.part ∥₁
            → result.pairs ≡ length (with_front (key_of K.bytes) prefix self.old.pairs) }
        ensures visits { (prefix : List ℕ) → ∥ IsReadyPart K.bytes PREFIX_LEN self.old prefix block.part ∥₁
            → result.visits ≡ cut_visits K.bytes prefix self.old.pairs block.reads }
        ensures names { KeepsLeaves K.bytes self.old self.new }
        ensures all_counted { result.pairs ≤ result.visits }
        ensures few { result.visits ≤ block.reads + 2 * result.pairs }
        ensures room { UsesRoom 1 self.old.nodes self.new.nodes }
        ensures leaf_room { FreesLeaves result.pairs self.old.nodes self.new.nodes }
    {
        let FoundBlock { part, visits } = block;
        match part {
            Some(ready) => self.cut(ready, visits),
            None => Removed { pairs: 0, visits },
        }
    }

    /// Finds all pairs whose keys begin with a prefix, and allocates what their removal needs. The result removes them
    /// and can't fail. If it is dropped, the map keeps its pairs.
    ///
    /// Fails only if keys begin with the prefix, their removal turns a node into one of the next smaller kind, and
    /// there is no memory for that one. The map is unchanged then. An empty prefix never fails.
    ///
    /// If the map has a pair, at least one node is read, the root. At most (n + 6) * (k + 2) nodes are read, where n is
    /// the length of the prefix and k that of the longest key.
    ///
    /// ```
    /// let mut map = TreeMap::new(rt.alloc());
    /// map.extend([(*b"ab", 1), (*b"ac", 2)])?;
    /// let removal = map.prepare_remove_prefix(b"a")?;
    /// drop(removal);
    /// assert_eq!(rt; map.len(), 2);
    /// ```
    pub fn prepare_remove_prefix(
        &mut self,
        prefix: &[u8],
    ) -> Result<PrefixRemoval<'_, K, V, PREFIX_LEN>, AllocError>
        ensures* rests { sem 𝓛 (rests_if_unprepared K.row V.row PREFIX_LEN K.AsBytes self.entry result) }
        ensures same_map { IfOk result (λ r. (removal_map r).ghost_name ≡ self.entry.ghost_name) }
        ensures same { IfOk result (λ r. (removal_map r).now.pairs ≡ self.old.pairs) }
        ensures kept { IfOk result (λ r. HasSameNodes self.old (removal_map r).now) }
        ensures kept_room { IfOk result (λ r. KeepsRoom self.old.nodes (removal_map r).now.nodes) }
        ensures room_of { IfOk result (λ r. KeepsRoomOf self.old.nodes (removal_map r).now.nodes) }
        ensures succeeds { HasRoom self.old.nodes 1 → IsOk result }
        ensures prefix { IfOk result (λ r. removal_prefix r ≡ prefix.now) }
        ensures counts { IfOk result (λ r.
            removal_reads r ≡ cut_reads K.bytes PREFIX_LEN prefix.now self.old.pairs) }
        ensures few { IfOk result (λ r. (longest : ℕ) → PairsWithin K.bytes longest self.old.pairs
            → OpeningReads longest (length prefix.now) 0 (removal_reads r)) }
        ensures least { IfOk result (λ r. self.old.pairs ≢ [] → 1 ≤ removal_reads r) }
        ensures none { IfOk result (λ r. self.old.pairs ≡ [] → removal_reads r ≡ 0) }
        ensures shrinks { OnErr result (ShrinksAtCut K.bytes prefix.now self.old.pairs) }
    {
        let front = History::new().then(&Piece { bytes: prefix });
        let block = self.block_with_prefix(prefix)?;
        Ok(PrefixRemoval {
            map: self,
            block,
            front,
            mark: PhantomData,
        })
    }

    /// Removes all pairs whose keys begin with a prefix. It fails as `prepare_remove_prefix` does.
    ///
    /// It counts the nodes that are read to find the pairs, and those that are freed. At least one is freed for each
    /// pair, and fewer than twice as many as pairs.
    ///
    /// ```
    /// let mut map = TreeMap::new(rt.alloc());
    /// map.extend([(*b"ab", 1), (*b"ac", 2), (*b"ba", 3)])?;
    /// assert_eq!(rt; map.remove_prefix(b"a")?.pairs, 2);
    /// assert_eq!(rt; map.get(b"ba"), Some(&3));
    /// ```
    pub fn remove_prefix(&mut self, prefix: &[u8]) -> Result<Removed, AllocError>
    where
        K: Drop,
        V: Drop,
        ensures pairs { OnOk result (self.new.pairs ≡ without_front (key_of K.bytes) prefix.now self.old.pairs) }
        ensures count { IfOk result (λ done.
            done.pairs ≡ length (with_front (key_of K.bytes) prefix.now self.old.pairs)) }
        ensures visits { IfOk result (λ done.
            AreCutVisits K.bytes PREFIX_LEN prefix.now self.old.pairs done.visits) }
        ensures names { OnOk result (KeepsLeaves K.bytes self.old self.new) }
        ensures all_counted { IfOk result (λ done. done.pairs ≤ done.visits) }
        ensures few { IfOk result (λ done. (longest : ℕ) → PairsWithin K.bytes longest self.old.pairs
            → OpeningReads longest (length prefix.now) (2 * done.pairs) done.visits) }
        ensures err { OnErr result (self.new.pairs ≡ self.old.pairs) }
        ensures kept { OnErr result (HasSameNodes self.old self.new) }
        ensures kept_room { OnErr result (KeepsRoomOf self.old.nodes self.new.nodes) }
        ensures shrinks { OnErr result (ShrinksAtCut K.bytes prefix.now self.old.pairs) }
        ensures succeeds { HasRoom self.old.nodes 1 → IsOk result }
        ensures room { UsesRoom 1 self.old.nodes self.new.nodes }
        ensures leaf_room { IfOk result (λ done. (n : ℕ) → HasRoom self.old.nodes n
            → HasRoomOf self.new.nodes Leaf (n + done.pairs)) }
    {
        match self.prepare_remove_prefix(prefix) {
            Ok(removal) => Ok(removal.apply()),
            Err(refused) => Err(refused),
        }
    }
}

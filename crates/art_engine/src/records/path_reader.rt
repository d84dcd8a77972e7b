//! The nodes of a map, each counted when it is read.
ghost use Rattle.std.specs.Prelude.{◌≡◌, ◌+◌, ◌^◌, ◌<◌, ◌≢◌, ◌++◌, ◌∷◌, [], IfSome, MatchOption, Some};
ghost use Rattle.art_nodes.specs.declared.kind.NodeType.TheVariants as kind;
ghost use Rattle.art_arena.specs.arena.Arena.{held_at};
ghost use Rattle.art_arena.specs.arena.Visited.{arena_of, count_of, held_of, kind_of};
ghost use Rattle.art_operations.specs.Runs.{HoldsTreeOf};

use crate::read_ahead::names::Names;
use art_arena::{ArenaReader, NodeArena, VisitedNode};
use art_bytes::AsBytes;
use art_map::TreeMap;
use art_nodes::{NodeType, OpaqueNodePtr};
use std::marker::PhantomData;

/// The one access to the nodes of a map for prefetching: it counts each node that it lends. It can't be
/// let go: `end` alone ends it, and returns how many nodes were read. For proofs alone it keeps the names of these.
///
/// The last parameter is never written: it tells the borrow check that the arena lives as long as it is lent.
pub struct PathReader<'a, K, const PREFIX_LEN: usize, M: 'a = NodeArena<K, Vec<u8>, PREFIX_LEN>> {
    arena: &'a NodeArena<K, Vec<u8>, PREFIX_LEN>,
    root: Option<OpaqueNodePtr>,
    len: usize,
    reader: ArenaReader<'a, K, Vec<u8>, PREFIX_LEN>,
    visited: Names,
    mark: PhantomData<M>,
    ghost same: { arena_of reader ≡ arena.now },
}

impl<'a, K: AsBytes, const PREFIX_LEN: usize> PathReader<'a, K, PREFIX_LEN> {
    /// Returns a reader of this map, which has read nothing yet.
    ///
    /// ```
    /// use art_engine::read_ahead::PathReader;
    /// let map: TreeMap<Vec<u8>, Vec<u8>, 16> = TreeMap::new(rt.alloc());
    /// assert_eq!(rt; PathReader::new(&map).end(), 0);
    /// ```
    pub fn new(map: &'a TreeMap<K, Vec<u8>, PREFIX_LEN>) -> Self
        ensures same { (result.arena.now ≡ map.now.nodes) × (result.root ≡ map.now.root) }
        ensures tree { HoldsTreeOf K.bytes PREFIX_LEN result.arena.now result.root map.now.pairs }
        ensures count { count_of result.reader ≡ 0 }
    {
        let (arena, root) = map.nodes();
        PathReader {
            arena,
            root,
            len: map.len(),
            reader: ArenaReader::new(arena),
            visited: Names::new(),
            mark: PhantomData,
        }
    }
}

impl<'a, K, const PREFIX_LEN: usize> PathReader<'a, K, PREFIX_LEN> {
    /// The root of the map, if it has this many records or more.
    pub(crate) fn root(&self, few: usize) -> Option<OpaqueNodePtr>
        ensures { IfSome result (λ name. self.now.root ≡ Some name) }
    {
        self.root.filter(|_| self.len >= few)
    }

    /// Reads the node under a name, if there is one. Where the greatest number of nodes was read, it reads no more.
    #[inline(always)]
    pub(crate) fn visit(
        &mut self,
        name: OpaqueNodePtr,
    ) -> Option<VisitedNode<'a, K, Vec<u8>, PREFIX_LEN>>
        ensures value { IfSome result (λ node. held_at self.old.arena.now name ≡ Some (held_of node)) }
        ensures named { MatchOption result (self.new.visited.items ≡ self.old.visited.items)
            (λ _. self.new.visited.items ≡ self.old.visited.items ++ name ∷ []) }
        ensures fits_in_memory { IfSome result (λ node. kind_of node ≢ NodeType.Leaf → PREFIX_LEN < 2 ^ 62) }
        ensures kept { (self.new.arena.now ≡ self.old.arena.now) × (self.new.root ≡ self.old.root) }
        ensures counts { MatchOption result (count_of self.new.reader ≡ count_of self.old.reader)
            (λ node. count_of self.new.reader ≡ count_of self.old.reader + 1) }
    {
        if self.reader.count() == u64::MAX || !self.arena.holds(name) {
            return None;
        }
        self.visited = self.visited.then(&name);
        Some(self.reader.visit(name))
    }

    /// Ends the reading, and returns how many nodes were read.
    ///
    /// ```
    /// use art_engine::read_ahead::PathReader;
    /// let map: TreeMap<Vec<u8>, Vec<u8>, 16> = TreeMap::new(rt.alloc());
    /// assert_eq!(rt; PathReader::new(&map).end(), 0);
    /// ```
    pub fn end(self) -> u64
        ensures { result ≡ count_of self.entry.reader }
    {
        let PathReader {
            arena: _,
            root: _,
            len: _,
            reader,
            visited: _,
            mark: _,
        } = self;
        reader.count()
    }
}

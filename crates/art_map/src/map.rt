//! The map itself: what it keeps, how it is made, and its length.
ghost use Rattle.std.specs.Prelude.{◌≡◌, ◌==◌, [], length};
ghost use Rattle.art_arena.specs.arena.Arena.{HasNoRoom, KeepsRoom, KeepsRoomOf};
ghost use Rattle.art_arena.specs.arena.Shapes.{key_of};
ghost use Rattle.art_arena.specs.tree.Order.{AscendsByKey};
ghost use Rattle.art_operations.specs.Runs.{HoldsTreeOf};

mod audit;
pub mod builder;
mod bulk;
mod changes;
mod clones;
mod collects;
mod compact;
mod compared;
mod end_entries;
pub mod entry;
pub mod extract_if;
pub mod extraction;
mod into_walks;
pub mod iter_mut;
mod joins;
mod leaf_names;
pub mod leaf_run;
mod lookups;
pub mod prefix_entry;
pub mod prefix_removal;
mod range_bounds;
mod ranges;
mod readers;
pub mod refused;
mod removals;
pub mod room;
mod splits;
mod walks;
pub mod walks_mut;

use art_arena::NodeArena;
use art_bytes::AsBytes;
use art_nodes::OpaqueNodePtr;
use std::alloc::Global;
use std::default::MadeWith;
use std::marker::Model;

/// An ordered map. It sees its keys as bytes and keeps them in the order of these. No key is a prefix of another.
///
/// `PREFIX_LEN` is how many bytes of a prefix an inner node stores. It changes what a call costs, never what it
/// returns.
///
/// ```
/// let mut map = TreeMap::new(rt.alloc());
/// map.try_insert(StrKey("apple"), 3)?;
/// assert_eq!(rt; map.get(&StrKey("apple")), Some(&3));
/// assert_eq!(rt; map.remove(&StrKey("apple"))?, Some(3));
/// ```
#[derive(Drop)]
pub struct TreeMap<K: AsBytes, V, const PREFIX_LEN: usize> {
    alloc: Global,
    arena: NodeArena<K, V, PREFIX_LEN>,
    root: Option<OpaqueNodePtr>,
}

impl<K: AsBytes, V, const PREFIX_LEN: usize> Model for TreeMap<K, V, PREFIX_LEN> {
    ghost use Rattle.art_map.specs.Contents.{Contents, contents, IsMap};

    ghost Value = { Contents K V };

    ghost view = { λ m. contents m.arena m.root };

    ghost invariant = { λ m. IsMap K.bytes K.is_key PREFIX_LEN m.arena m.root };
}

/// How many bytes of a prefix an inner node stores in a map that `new` makes.
pub const DEFAULT_PREFIX_LEN: usize = 16;

impl<K: AsBytes, V> TreeMap<K, V, DEFAULT_PREFIX_LEN> {
    /// Makes an empty map, whose inner nodes store 16 bytes of a prefix. It allocates nothing.
    ///
    /// ```
    /// let mut map = TreeMap::new(rt.alloc());
    /// assert!(rt; map.is_empty());
    /// map.insert(*b"ab", 1)?;
    /// ```
    pub fn new(alloc: Global) -> Self
        ensures pairs { result.pairs ≡ [] }
        ensures no_room { HasNoRoom result.nodes }
    {
        TreeMap::with_prefix_len(alloc)
    }
}

impl<K: AsBytes, V, const PREFIX_LEN: usize> TreeMap<K, V, PREFIX_LEN> {
    /// Makes an empty map, whose inner nodes store `PREFIX_LEN` bytes of a prefix. It allocates nothing.
    ///
    /// ```
    /// let mut map: TreeMap<[u8; 2], u32, 4> = TreeMap::with_prefix_len(rt.alloc());
    /// map.insert(*b"ab", 1)?;
    /// assert_eq!(rt; map.len(), 1);
    /// ```
    pub fn with_prefix_len(alloc: Global) -> Self
        ensures pairs { result.pairs ≡ [] }
        ensures no_room { HasNoRoom result.nodes }
    {
        TreeMap {
            alloc,
            arena: NodeArena::new(alloc),
            root: None,
        }
    }

    /// Returns the number of pairs.
    ///
    /// ```
    /// let mut map = TreeMap::new(rt.alloc());
    /// map.insert(*b"ab", 1)?;
    /// map.insert(*b"ab", 2)?;
    /// assert_eq!(rt; map.len(), 1);
    /// ```
    pub fn len(&self) -> usize
        ensures { result ≡ length self.now.pairs }
    {
        self.arena.leaf_count()
    }

    /// Returns whether the map has no pair.
    ///
    /// ```
    /// let mut map = TreeMap::new(rt.alloc());
    /// assert!(rt; map.is_empty());
    /// map.insert(*b"ab", 1)?;
    /// assert!(rt; !map.is_empty());
    /// ```
    pub fn is_empty(&self) -> bool
        ensures { result ≡ (length self.now.pairs == 0) }
    {
        self.len() == 0
    }

    /// Removes every pair. The memory of the nodes stays with the map.
    ///
    /// ```
    /// let mut map = TreeMap::new(rt.alloc());
    /// map.insert(*b"ab", 1)?;
    /// map.clear();
    /// assert_eq!(rt; map.get(b"ab"), None);
    /// ```
    pub fn clear(&mut self)
    where
        K: Drop,
        V: Drop,
        ensures pairs { self.new.pairs ≡ [] }
        ensures room { KeepsRoom self.old.nodes self.new.nodes }
        ensures room_of { KeepsRoomOf self.old.nodes self.new.nodes }
    {
        self.root = None;
        self.arena.clear();
    }

    /// Returns the arena and the name of the root. They store the tree of the map's pairs, and the arena holds nothing
    /// else.
    ///
    /// ```
    /// let mut map = TreeMap::new(rt.alloc());
    /// map.extend([(*b"ab", 1), (*b"ac", 2)])?;
    /// let (arena, root) = map.nodes();
    /// assert_eq!(rt; arena.leaf_count(), 2);
    /// assert!(rt; root.is_some());
    /// ```
    pub fn nodes(&self) -> (&NodeArena<K, V, PREFIX_LEN>, Option<OpaqueNodePtr>)
        ensures tree { HoldsTreeOf K.bytes PREFIX_LEN result.0.now result.1 self.now.pairs }
        ensures same { (result.0.now ≡ self.now.nodes) × (result.1 ≡ self.now.root) }
        ensures ordered { AscendsByKey (key_of K.bytes) self.now.pairs }
    {
        (&self.arena, self.root)
    }
}

/// An empty map, where std makes a default value: as the value of an entry, or in place of what is taken.
///
/// ```
/// use std::collections::BTreeMap;
/// let mut shelves: BTreeMap<u8, TreeMap<[u8; 2], u32, 16>> = BTreeMap::new(rt.alloc());
/// shelves.entry(7)?.or_default().insert(*b"ab", 1)?;
/// assert_eq!(rt; shelves[&7].len(), 1);
/// ```
impl<K: AsBytes, V, const PREFIX_LEN: usize> MadeWith<Global> for TreeMap<K, V, PREFIX_LEN> {
    ghost is_made_with = { λ m. (m.pairs ≡ []) × HasNoRoom m.nodes };

    fn made_with(alloc: Global) -> Self {
        TreeMap::with_prefix_len(alloc)
    }
}

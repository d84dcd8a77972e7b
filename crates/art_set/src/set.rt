//! The set itself: what it keeps, how it is made, and its length.
ghost use Rattle.std.specs.Prelude.{◌≡◌, ◌==◌, ◌*◌, ◌<◌, ◌^◌, [], length, IsOk, OnOk};
ghost use Rattle.art_arena.specs.arena.Arena.{HasNoRoom, HasNoUnusedRoom, HasRoom, IsTrimmed, KeepsRoom, KeepsRoomOf};
ghost use Rattle.art_set.specs.LeafNames.{HasSameSetNodes, IsSetUntouched};

mod algebra;
mod builder;
pub mod bulk;
mod changes;
mod collects;
mod compact;
mod compared;
mod joins;
mod lookups;
mod nodes;
mod prefixes;
pub mod refused;
mod removals;
mod walks;

use art_bytes::AsBytes;
use art_map::{DEFAULT_PREFIX_LEN, TreeMap};
use std::alloc::{AllocError, Global};
use std::default::MadeWith;
use std::marker::Model;

/// An ordered set. It sees its keys as bytes and keeps them in the order of these. No key is a prefix of another.
///
/// `PREFIX_LEN` is how many bytes of a prefix an inner node stores. It changes what a call costs, never what it
/// returns.
///
/// ```
/// let mut set = TreeSet::new(rt.alloc());
/// assert!(rt; set.try_insert(StrKey("apple"))?);
/// assert_eq!(rt; set.first(), Some(&StrKey("apple")));
/// assert!(rt; set.remove(&StrKey("apple"))?);
/// ```
#[derive(Drop)]
pub struct TreeSet<K: AsBytes, const PREFIX_LEN: usize> {
    pub(crate) alloc: Global,
    pub(crate) map: TreeMap<K, (), PREFIX_LEN>,
}

impl<K: AsBytes, const PREFIX_LEN: usize> Model for TreeSet<K, PREFIX_LEN> {
    ghost use Rattle.art_set.specs.Members.{Members, members};

    ghost Value = { Members K };

    ghost view = { λ s. members s.map };
}

impl<K: AsBytes> TreeSet<K, DEFAULT_PREFIX_LEN> {
    /// Makes an empty set, whose inner nodes store 16 bytes of a prefix. It allocates nothing.
    ///
    /// ```
    /// let mut set = TreeSet::new(rt.alloc());
    /// assert!(rt; set.is_empty());
    /// set.insert(*b"ab")?;
    /// ```
    pub fn new(alloc: Global) -> Self
        ensures keys { result.keys ≡ [] }
        ensures no_room { HasNoRoom result.nodes }
    {
        TreeSet::with_prefix_len(alloc)
    }
}

impl<K: AsBytes, const PREFIX_LEN: usize> TreeSet<K, PREFIX_LEN> {
    /// Makes an empty set, whose inner nodes store `PREFIX_LEN` bytes of a prefix. It allocates nothing.
    ///
    /// ```
    /// let mut set: TreeSet<[u8; 2], 4> = TreeSet::with_prefix_len(rt.alloc());
    /// set.insert(*b"ab")?;
    /// assert_eq!(rt; set.len(), 1);
    /// ```
    pub fn with_prefix_len(alloc: Global) -> Self
        ensures keys { result.keys ≡ [] }
        ensures no_room { HasNoRoom result.nodes }
    {
        TreeSet {
            alloc,
            map: TreeMap::with_prefix_len(alloc),
        }
    }

    /// Returns the number of keys.
    ///
    /// ```
    /// let mut set = TreeSet::new(rt.alloc());
    /// set.extend([*b"ab", *b"cd", *b"ab"])?;
    /// assert_eq!(rt; set.len(), 2);
    /// ```
    pub fn len(&self) -> usize
        ensures { result ≡ length self.now.keys }
    {
        self.map.len()
    }

    /// Returns whether the set has no key.
    ///
    /// ```
    /// let mut set = TreeSet::new(rt.alloc());
    /// assert!(rt; set.is_empty());
    /// set.insert(*b"ab")?;
    /// assert!(rt; !set.is_empty());
    /// ```
    pub fn is_empty(&self) -> bool
        ensures { result ≡ (length self.now.keys == 0) }
    {
        self.len() == 0
    }

    /// Removes every key. The memory of the nodes stays with the set.
    ///
    /// ```
    /// let mut set = TreeSet::new(rt.alloc());
    /// set.insert(*b"ab")?;
    /// set.clear();
    /// assert!(rt; set.is_empty());
    /// ```
    pub fn clear(&mut self)
    where
        K: Drop,
        ensures keys { self.new.keys ≡ [] }
        ensures room { KeepsRoom self.old.nodes self.new.nodes }
        ensures room_of { KeepsRoomOf self.old.nodes self.new.nodes }
    {
        self.map.clear();
    }

    /// Gives memory back that the nodes don't need, as `TreeMap::shrink_to_fit` does: all of it where the set is empty.
    /// It never fails.
    ///
    /// ```
    /// let mut set = TreeSet::new(rt.alloc());
    /// set.extend([*b"ab", *b"cd"])?;
    /// set.pop_last()?;
    /// set.shrink_to_fit();
    /// assert_eq!(rt; set.last(), Some(b"ab"));
    /// ```
    pub fn shrink_to_fit(&mut self)
    where
        K: Drop,
        ensures keys { self.new.keys ≡ self.old.keys }
        ensures kept { HasSameSetNodes self.old self.new }
        ensures no_more { KeepsRoomOf self.new.nodes self.old.nodes }
        ensures trimmed { PREFIX_LEN < 2 ^ 62 → IsTrimmed self.new.nodes }
        ensures frees { HasNoUnusedRoom self.new.nodes }
        ensures empty { self.old.keys ≡ [] → HasNoRoom self.new.nodes }
    {
        self.map.shrink_to_fit();
    }

    /// Allocates the nodes of so many more insertions, whatever their keys are, as `TreeMap::reserve` does. While there
    /// is room for two nodes, `insert`, `try_insert` and `replace` are never out of memory, and each uses room for two
    /// at most. Nor are `extend` and `append` of so many keys. A removal uses room for one, and doesn't fail where
    /// there is so much. Room stays where a call is refused, or a key was a member already or isn't found.
    ///
    /// Fails only if there is no room for so many, and no memory. Either way the set is unchanged.
    ///
    /// ```
    /// let mut set = TreeSet::new(rt.alloc());
    /// set.reserve(2)?;
    /// set.extend([*b"ab", *b"cd"])?;
    /// assert_eq!(rt; set.len(), 2);
    /// ```
    pub fn reserve(&mut self, additional: usize) -> Result<(), AllocError>
        ensures room { OnOk result (HasRoom self.new.nodes (2 * additional)) }
        ensures succeeds { HasRoom self.old.nodes (2 * additional) → IsOk result }
        ensures keys { self.new.keys ≡ self.old.keys }
        ensures kept { IsSetUntouched self.old self.new }
    {
        self.map.reserve(additional)
    }
}

/// An empty set, where std makes a default value: as the value of an entry, or in place of what is taken.
///
/// ```
/// use std::collections::BTreeMap;
/// let mut shelves: BTreeMap<u8, TreeSet<[u8; 2], 16>> = BTreeMap::new(rt.alloc());
/// shelves.entry(7)?.or_default().insert(*b"ab")?;
/// assert!(rt; shelves[&7].contains(b"ab"));
/// ```
impl<K: AsBytes, const PREFIX_LEN: usize> MadeWith<Global> for TreeSet<K, PREFIX_LEN> {
    ghost is_made_with = { λ s. (s.keys ≡ []) × HasNoRoom s.nodes };

    fn made_with(alloc: Global) -> Self {
        TreeSet::with_prefix_len(alloc)
    }
}

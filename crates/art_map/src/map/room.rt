//! Memory for nodes that are still to be made.
ghost use Rattle.std.specs.Prelude.{◌≡◌, ◌↔◌, ◌*◌, ◌<◌, ◌^◌, [], IsOk, IsTrue, OnOk};
ghost use Rattle.art_arena.specs.arena.Arena.{HasNoRoom, HasNoUnusedRoom, HasRoom, IsTrimmed, KeepsRoomOf};
ghost use Rattle.art_map.specs.Contents.{HasSameNodes, IsUntouched};

use crate::map::TreeMap;
use art_bytes::AsBytes;
use std::alloc::AllocError;

// An inner node that stores so long a prefix fits in no memory.
const PREFIX_LEN_LIMIT: usize = 1 << 62;

/// Returns whether an inner node that stores `PREFIX_LEN` bytes of a prefix fits in memory: exactly if `PREFIX_LEN` is
/// less than 2^62.
///
/// A call that makes a map and may drop it asks this first. A type over the map does so too.
///
/// ```
/// assert!(rt; nodes_fit::<16>());
/// assert!(rt; !nodes_fit::<0x7fff_ffff_ffff_ffff>());
/// ```
pub fn nodes_fit<const PREFIX_LEN: usize>() -> bool
    ensures { IsTrue result ↔ PREFIX_LEN < 2 ^ 62 }
{
    PREFIX_LEN < PREFIX_LEN_LIMIT
}

impl<K: AsBytes, V, const PREFIX_LEN: usize> TreeMap<K, V, PREFIX_LEN> {
    // Whether an inner node fits in memory, as it does if there is room for one.
    pub(super) fn fits_in_memory(&self) -> bool
        ensures value { IsTrue result → PREFIX_LEN < 2 ^ 62 }
        ensures exact { PREFIX_LEN < 2 ^ 62 → IsTrue result }
        ensures room { HasRoom self.now.nodes 1 → IsTrue result }
    {
        self.arena.fits_in_memory()
    }

    // Allocates the nodes of so many removals, each of which makes a node at most.
    pub(super) fn reserve_removals(&mut self, count: usize) -> Result<(), AllocError>
        ensures room { OnOk result (HasRoom self.new.nodes count) }
        ensures succeeds { HasRoom self.old.nodes count → IsOk result }
        ensures pairs { self.new.pairs ≡ self.old.pairs }
        ensures kept { IsUntouched self.old self.new }
    {
        self.arena.reserve(count)
    }

    /// Allocates the nodes of so many more insertions, whatever their keys are. While there is room for two nodes, no
    /// insertion of a pair is out of memory, also by an entry or at a place, and each uses room for two at most. Nor
    /// are `extend` and `append` of so many pairs. A removal uses room for one, and doesn't fail where there is so
    /// much. It gives room for a leaf back. Room stays where a call is refused, a key was stored already or isn't
    /// found, or a value is written.
    ///
    /// A node of any kind may be needed, so that many of each kind are allocated, some kilobytes for each insertion. It
    /// serves a few insertions that must not fail. Fails only if there is no room for so many, and no memory. Either
    /// way the map is unchanged.
    ///
    /// ```
    /// let mut map = TreeMap::new(rt.alloc());
    /// map.reserve(2)?;
    /// map.extend([(*b"ab", 1), (*b"cd", 2)])?;
    /// assert_eq!(rt; map.len(), 2);
    /// ```
    pub fn reserve(&mut self, additional: usize) -> Result<(), AllocError>
        ensures room { OnOk result (HasRoom self.new.nodes (2 * additional)) }
        ensures succeeds { HasRoom self.old.nodes (2 * additional) → IsOk result }
        ensures pairs { self.new.pairs ≡ self.old.pairs }
        ensures kept { IsUntouched self.old self.new }
    {
        self.reserve_insertions(additional)
    }

    /// Gives memory back that the nodes don't need: of each kind of node, what lies after the last one. It never
    /// fails. No node moves, so that each leaf keeps its name: where the last nodes stay, little goes back. Of a kind
    /// that has no node all goes back, and so all of an empty map, as after `clear`.
    ///
    /// ```
    /// let mut map = TreeMap::new(rt.alloc());
    /// map.extend([(*b"ab", 1), (*b"cd", 2), (*b"ef", 3)])?;
    /// map.pop_last()?;
    /// map.shrink_to_fit();
    /// assert!(rt; map.keys().eq([b"ab", b"cd"]));
    /// ```
    pub fn shrink_to_fit(&mut self)
    where
        K: Drop,
        V: Drop,
        ensures pairs { self.new.pairs ≡ self.old.pairs }
        ensures kept { HasSameNodes self.old self.new }
        ensures no_more { KeepsRoomOf self.new.nodes self.old.nodes }
        ensures trimmed { PREFIX_LEN < 2 ^ 62 → IsTrimmed self.new.nodes }
        ensures frees { HasNoUnusedRoom self.new.nodes }
        ensures empty { self.old.pairs ≡ [] → HasNoRoom self.new.nodes }
    {
        self.arena.shrink_to_fit();
    }

    // Allocates the nodes of so many insertions, each of which makes two nodes at most.
    pub(super) fn reserve_insertions(&mut self, count: usize) -> Result<(), AllocError>
        ensures room { OnOk result (HasRoom self.new.nodes (2 * count)) }
        ensures succeeds { HasRoom self.old.nodes (2 * count) → IsOk result }
        ensures pairs { self.new.pairs ≡ self.old.pairs }
        ensures kept { IsUntouched self.old self.new }
    {
        // So there is no room for more than can be counted.
        self.arena.room_is_bounded();
        match count.checked_mul(2) {
            Some(nodes) => self.reserve_removals(nodes),
            None => Err(AllocError),
        }
    }
}

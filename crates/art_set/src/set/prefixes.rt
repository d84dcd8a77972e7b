//! The keys that begin with a prefix, and those of a range that is written as Rust's are.
ghost use Rattle.std.specs.Prelude.{◌≡◌, ◌⊎◌, ◌+◌, ◌*◌, ◌≤◌, ℕ, [], length, IfOk, IsOk, OnErr, OnOk};
ghost use Rattle.std.specs.Range.Bound.{bound_map};
ghost use Rattle.art_nodes.specs.declared.kind.NodeType.TheVariants.{Leaf};
ghost use Rattle.art_arena.specs.arena.Arena.{HasRoom, HasRoomOf, KeepsRoomOf, UsesRoom};
ghost use Rattle.art_arena.specs.tree.Order.{AscendsByKey};
ghost use Rattle.art_arena.specs.tree.Tenants.{with_front, without_front};
ghost use Rattle.art_operations.specs.Openings.{OpeningReads};
ghost use Rattle.art_walks.specs.Bounds.{AreValidKeyBounds};
ghost use Rattle.art_walks.specs.MapReads.{PairsWithin};
ghost use Rattle.art_map.specs.PrefixBlocks.{AreCutVisits, ShrinksAtCut};
ghost use Rattle.art_set.specs.LeafNames.{HasSameSetNodes, KeepsNames};
ghost use Rattle.art_set.specs.Members.{keys_between};
ghost use Rattle.art_set.specs.Pairs.{pairs_of_keys};

use crate::iterators::{Prefix, Range};
use crate::set::TreeSet;
use art_bytes::AsBytes;
use art_map::Removed;
use std::alloc::AllocError;
use std::ops::RangeBounds;

impl<K: AsBytes, const PREFIX_LEN: usize> TreeSet<K, PREFIX_LEN> {
    /// Returns an iterator over the keys that begin with a prefix's bytes. It ascends, and gives keys from either end.
    /// It allocates nothing.
    ///
    /// ```
    /// let mut set = TreeSet::new(rt.alloc());
    /// set.extend([*b"ab", *b"ac", *b"bc"])?;
    /// assert!(rt; set.prefix(b"a").eq([b"ab", b"ac"]));
    /// ```
    pub fn prefix<Q: AsBytes>(&self, prefix: &Q) -> Prefix<'_, K, PREFIX_LEN>
        ensures rest { result ≡ with_front K.bytes (Q.bytes prefix.now) self.now.keys }
        ensures ordered { AscendsByKey K.bytes self.now.keys }
    {
        Prefix::new(self.map.prefix(prefix))
    }

    /// Returns an iterator over the keys in a range, by their bytes. It ascends, and gives keys from either end. It
    /// allocates nothing.
    ///
    /// The range is `a..b`, `a..=b`, `a..`, `..b`, `..=b` of queries or of references to them, or a pair of `Bound`s.
    /// Its ends need not be in the set. If the set has a key, the range has to be valid: its start is not greater than
    /// its end, by their bytes.
    ///
    /// ```
    /// let mut set = TreeSet::new(rt.alloc());
    /// set.extend([*b"ab", *b"cd", *b"ef"])?;
    /// assert!(rt; set.range_in(*b"b0"..=*b"ef").eq([b"cd", b"ef"]));
    /// ```
    pub fn range_in<Q: AsBytes, R: RangeBounds<Q>>(&self, range: R) -> Range<'_, K, PREFIX_LEN>
        requires bounds { R.has_bounds range }
        requires valid { (self.now.keys ≡ []) ⊎ AreValidKeyBounds (bound_map Q.bytes (R.start_bound range))
            (bound_map Q.bytes (R.end_bound range)) }
        ensures rest { result ≡ keys_between K.bytes (bound_map Q.bytes (R.start_bound range))
            (bound_map Q.bytes (R.end_bound range)) self.now.keys }
        ensures ordered { AscendsByKey K.bytes self.now.keys }
    {
        Range::new(self.map.range_in(range))
    }

    /// Removes all keys that begin with a prefix. Returns how many they were, and how many nodes were read to find them
    /// or freed.
    ///
    /// Fails only if keys begin with the prefix, their removal turns a node into one of the next smaller kind, and
    /// there is no memory for that one. The set is unchanged then. An empty prefix never fails.
    ///
    /// ```
    /// let mut set = TreeSet::new(rt.alloc());
    /// set.extend([*b"ab", *b"ac", *b"bc"])?;
    /// assert_eq!(rt; set.remove_prefix(b"a")?.pairs, 2);
    /// assert!(rt; set.iter().eq([b"bc"]));
    /// ```
    pub fn remove_prefix(&mut self, prefix: &[u8]) -> Result<Removed, AllocError>
    where
        K: Drop,
        ensures keys { OnOk result (self.new.keys ≡ without_front K.bytes prefix.now self.old.keys) }
        ensures count { IfOk result (λ done. done.pairs ≡ length (with_front K.bytes prefix.now self.old.keys)) }
        ensures visits { IfOk result (λ done.
            AreCutVisits K.bytes PREFIX_LEN prefix.now (pairs_of_keys self.old.keys) done.visits) }
        ensures all_counted { IfOk result (λ done. done.pairs ≤ done.visits) }
        ensures few { IfOk result (λ done. (longest : ℕ) → PairsWithin K.bytes longest (pairs_of_keys self.old.keys)
            → OpeningReads longest (length prefix.now) (2 * done.pairs) done.visits) }
        ensures names { OnOk result (KeepsNames K.bytes self.old self.new) }
        ensures err { OnErr result (self.new.keys ≡ self.old.keys) }
        ensures kept { OnErr result (HasSameSetNodes self.old self.new) }
        ensures kept_room { OnErr result (KeepsRoomOf self.old.nodes self.new.nodes) }
        ensures shrinks { OnErr result (ShrinksAtCut K.bytes prefix.now (pairs_of_keys self.old.keys)) }
        ensures succeeds { HasRoom self.old.nodes 1 → IsOk result }
        ensures room { UsesRoom 1 self.old.nodes self.new.nodes }
        ensures leaf_room { IfOk result (λ done. (n : ℕ) → HasRoom self.old.nodes n
            → HasRoomOf self.new.nodes Leaf (n + done.pairs)) }
    {
        self.map.remove_prefix(prefix)
    }
}

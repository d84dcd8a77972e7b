//! The nodes of a set: lent, read with each counted, and counted by kind.
ghost use Rattle.std.specs.Prelude.{◌≡◌, IfOk};
ghost use Rattle.art_arena.specs.arena.Shapes.{key_of};
ghost use Rattle.art_arena.specs.tree.Order.{AscendsByKey};
ghost use Rattle.art_operations.specs.Runs.{HoldsTreeOf};
ghost use Rattle.art_walks.specs.MapReads.{ReadsPairs};
ghost use Rattle.art_map.specs.Audit.{audit_of};
ghost use Rattle.art_set.specs.Pairs.{pairs_of_keys};

use crate::set::TreeSet;
use art_arena::NodeArena;
use art_bytes::AsBytes;
use art_nodes::OpaqueNodePtr;
use art_walks::{MapReader, WellFormedTreeStats};
use std::alloc::AllocError;

impl<K: AsBytes, const PREFIX_LEN: usize> TreeSet<K, PREFIX_LEN> {
    /// Returns the arena and the name of the root. They store the tree of the set's keys, and the arena holds nothing
    /// else.
    ///
    /// ```
    /// let mut set = TreeSet::new(rt.alloc());
    /// set.extend([*b"ab", *b"ac"])?;
    /// let (arena, root) = set.nodes();
    /// assert_eq!(rt; arena.leaf_count(), 2);
    /// assert!(rt; root.is_some());
    /// ```
    pub fn nodes(&self) -> (&NodeArena<K, (), PREFIX_LEN>, Option<OpaqueNodePtr>)
        ensures tree { HoldsTreeOf K.bytes PREFIX_LEN result.0.now result.1 (pairs_of_keys self.now.keys) }
        ensures same { (result.0.now ≡ self.now.nodes) × (result.1 ≡ self.now.root) }
        ensures ordered { AscendsByKey K.bytes self.now.keys }
    {
        self.map.nodes()
    }

    /// Returns a reader of the set, which has read no node yet, and counts the nodes that it reads. What it returns
    /// depends on the keys alone, each beside `()`, and how many nodes it reads for that on their tree. It allocates
    /// nothing.
    ///
    /// ```
    /// let mut set = TreeSet::new(rt.alloc());
    /// set.extend([*b"ab", *b"ac"])?;
    /// let mut reader = set.reader();
    /// assert_eq!(rt; reader.get_key_value(b"ab"), Some((b"ab", &())));
    /// assert_eq!(rt; reader.visits(), 2);
    /// ```
    pub fn reader(&self) -> MapReader<'_, K, (), PREFIX_LEN>
        ensures same { (result.nodes ≡ self.now.nodes) × (result.root ≡ self.now.root) }
        ensures count { result.count ≡ 0 }
        ensures keys { ReadsPairs K.bytes PREFIX_LEN result.nodes result.root (pairs_of_keys self.now.keys) }
    {
        self.map.reader()
    }

    /// Returns how many leaves the set's tree has, and how many inner nodes of each kind. The checker counts them, and
    /// the keys alone tell what it finds.
    ///
    /// A tree has a leaf for each key. It has an inner node for each of the different longest common prefixes of
    /// neighbours, whose children are the different bytes that follow the prefix.
    ///
    /// Fails only if there is no memory for the names that the checker has seen.
    ///
    /// ```
    /// let mut set = TreeSet::new(rt.alloc());
    /// set.extend([*b"ab", *b"ac", *b"bc"])?;
    /// assert_eq!(rt; set.audit()?.total_nodes(), 5);
    /// ```
    pub fn audit(&self) -> Result<WellFormedTreeStats, AllocError>
        ensures { IfOk result (λ stats. stats ≡ audit_of (key_of K.bytes) (pairs_of_keys self.now.keys)) }
    {
        self.map.audit()
    }
}

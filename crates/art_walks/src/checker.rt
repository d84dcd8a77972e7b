//! A check in any arena: whether a name means a canonical tree with its leaves linked in order. It goes over the names,
//! then over the keys, then over the links.
ghost use Rattle.std.specs.Prelude.{◌≡◌, ◌≢◌, IfErr, IfOk, MatchOption};
ghost use Rattle.art_arena.specs.arena.Arena.{links_at, node_at};
ghost use Rattle.art_arena.specs.arena.Stores.{IsMeant};
ghost use Rattle.art_arena.specs.tree.Trees.{Tree};
ghost use Rattle.art_walks.specs.Faults.{Stands};
ghost use Rattle.art_walks.specs.Stats.{AreCounts, no_nodes};

mod counts;
mod keys;
mod links;
mod names;

use crate::malformed::MalformedTreeError;
use crate::stats::WellFormedTreeStats;
use art_arena::NodeArena;
use art_bytes::AsBytes;
use art_nodes::OpaqueNodePtr;
use counts::counts_of;
use keys::keys_fit;
use links::leaves_linked;
use names::names_below;
use std::alloc::Global;

/// The check of a tree in an arena whose names may be dead, looping, unlinked or of the wrong kind.
pub struct WellFormedChecker;

impl WellFormedChecker {
    /// Returns how many nodes of each kind the tree below a name has. That must be a canonical tree with its leaves
    /// linked in order and open ends. Other nodes may stand beside it.
    ///
    /// Else it returns a fault that is there, or `Memory` if there was no memory for the names that it saw. It takes
    /// time and memory in proportion to the nodes that it sees, and to the bytes of keys above them. It doesn't
    /// recurse.
    ///
    /// ```
    /// use art_map::TreeMap;
    /// let mut map = TreeMap::new(rt.alloc());
    /// map.extend([(*b"ab", 1), (*b"ac", 2)])?;
    /// let (arena, root) = map.nodes();
    /// if let Some(root) = root {
    ///     assert_eq!(rt; WellFormedChecker::check_tree(rt.alloc(), arena, root)?.num_leaf, 2);
    /// }
    /// ```
    pub fn check_tree<K: AsBytes, V, const PREFIX_LEN: usize>(
        alloc: Global,
        arena: &NodeArena<K, V, PREFIX_LEN>,
        root: OpaqueNodePtr,
    ) -> Result<WellFormedTreeStats, MalformedTreeError>
        ensures ok { IfOk result (λ stats. (t : Tree (K × V)) × IsMeant K.bytes PREFIX_LEN arena.now root t
            × AreCounts stats t) }
        ensures err { IfErr result (Stands K.bytes PREFIX_LEN (node_at arena.now) (links_at arena.now) root) }
    {
        let met = names_below(alloc, arena, root)?;
        if !keys_fit(alloc, arena, root)? {
            return Err(MalformedTreeError::PrefixMismatch);
        }
        if !leaves_linked(arena, met.as_slice()) {
            return Err(MalformedTreeError::WrongSiblingLinks);
        }
        Ok(counts_of(met.as_slice()))
    }

    /// Checks the tree of a map of so many pairs: the tree below its root. If it has no root, the length has to be 0:
    /// then it returns that there are no nodes, and else the fault `EmptyTreeWithLen`.
    ///
    /// ```
    /// use art_map::TreeMap;
    /// let mut map = TreeMap::new(rt.alloc());
    /// map.extend([(*b"ab", 1), (*b"ac", 2)])?;
    /// let (arena, root) = map.nodes();
    /// assert_eq!(rt; WellFormedChecker::check(rt.alloc(), arena, root, 2)?.total_nodes(), 3);
    /// ```
    pub fn check<K: AsBytes, V, const PREFIX_LEN: usize>(
        alloc: Global,
        arena: &NodeArena<K, V, PREFIX_LEN>,
        root: Option<OpaqueNodePtr>,
        len: usize,
    ) -> Result<WellFormedTreeStats, MalformedTreeError>
        ensures ok { IfOk result (λ stats. MatchOption root ((len ≡ 0) × (stats ≡ no_nodes))
            (λ r. (t : Tree (K × V)) × IsMeant K.bytes PREFIX_LEN arena.now r t × AreCounts stats t)) }
        ensures err { IfErr result (λ fault. MatchOption root
            ((len ≢ 0) × (fault ≡ MalformedTreeError.EmptyTreeWithLen))
            (λ r. Stands K.bytes PREFIX_LEN (node_at arena.now) (links_at arena.now) r fault)) }
    {
        match root {
            Some(root) => Self::check_tree(alloc, arena, root),
            None => {
                if len == 0 {
                    return Ok(WellFormedTreeStats {
                        num_node4: 0,
                        num_node16: 0,
                        num_node32: 0,
                        num_node48: 0,
                        num_node256: 0,
                        num_leaf: 0,
                    });
                }
                Err(MalformedTreeError::EmptyTreeWithLen)
            }
        }
    }
}

//! `audit`: how many nodes of each kind a map has.
ghost use Rattle.std.specs.Prelude.{◌≡◌, IfOk};
ghost use Rattle.art_arena.specs.arena.Shapes.{key_of};
ghost use Rattle.art_map.specs.Audit.{audit_of};

use crate::map::TreeMap;
use art_bytes::AsBytes;
use art_walks::{MalformedTreeError, WellFormedChecker, WellFormedTreeStats};
use std::alloc::AllocError;

impl<K: AsBytes, V, const PREFIX_LEN: usize> TreeMap<K, V, PREFIX_LEN> {
    /// Returns how many leaves the map's tree has, and how many inner nodes of each kind. The checker counts them, and
    /// the keys alone tell what it finds.
    ///
    /// A tree has a leaf for each key. It has an inner node for each of the different longest common prefixes of
    /// neighbours, whose children are the different bytes that follow the prefix.
    ///
    /// Fails only if there is no memory for the names that the checker has seen.
    ///
    /// ```
    /// let mut map = TreeMap::new(rt.alloc());
    /// map.extend([(*b"ab", 1), (*b"ac", 2), (*b"bc", 3)])?;
    /// assert_eq!(rt; map.audit()?.total_nodes(), 5);
    /// ```
    pub fn audit(&self) -> Result<WellFormedTreeStats, AllocError>
        ensures { IfOk result (λ stats. stats ≡ audit_of (key_of K.bytes) self.now.pairs) }
    {
        // By value an option of a name counts as moved, so a copy goes in.
        let root = self.root;
        match WellFormedChecker::check(self.alloc, &self.arena, root, self.len()) {
            Ok(stats) => Ok(stats),
            Err(fault) => Err(alloc_error_of(fault)),
        }
    }
}

// The fault that any tree may have.
fn alloc_error_of(fault: MalformedTreeError) -> AllocError
    requires { fault ≡ MalformedTreeError.Memory }
{
    match fault {
        MalformedTreeError::Memory => AllocError,
        _ => unreachable!(),
    }
}

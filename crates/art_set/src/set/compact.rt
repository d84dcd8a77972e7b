//! `compact`: all nodes are made anew, in the order of the keys.
ghost use Rattle.std.specs.Prelude.{◌≡◌, ◌<◌, ◌^◌, [], IsOk, OnErr, OnOk};
ghost use Rattle.art_arena.specs.arena.Arena.{HasNoRoom, IsTrimmed};

use crate::set::TreeSet;
use art_bytes::AsBytes;
use std::alloc::AllocError;

impl<K: AsBytes, const PREFIX_LEN: usize> TreeSet<K, PREFIX_LEN> {
    /// Makes all nodes anew in the order of the keys, and gives the memory back that they don't need, as
    /// `TreeMap::compact` does. So a walk costs less where keys came in random order. Each leaf has a new name.
    ///
    /// Fails if there is no memory for the new nodes, all of which is allocated first. The set is unchanged then. An
    /// empty set allocates nothing, gives back what it has, and can't fail.
    ///
    /// ```
    /// let mut set = TreeSet::new(rt.alloc());
    /// set.extend([*b"ef", *b"ab", *b"cd"])?;
    /// set.compact()?;
    /// assert!(rt; set.iter().eq([b"ab", b"cd", b"ef"]));
    /// ```
    pub fn compact(&mut self) -> Result<(), AllocError>
    where
        K: Drop,
        ensures keys { self.new.keys ≡ self.old.keys }
        ensures trimmed { OnOk result (PREFIX_LEN < 2 ^ 62 → IsTrimmed self.new.nodes) }
        ensures err { OnErr result (self.new ≡ self.old) }
        ensures empty { self.old.keys ≡ [] → IsOk result }
        ensures no_room { self.old.keys ≡ [] → HasNoRoom self.new.nodes }
    {
        self.map.compact()
    }
}

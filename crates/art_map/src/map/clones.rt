//! `clone`: another map of clones of the pairs, with nodes of its own.
ghost use Rattle.std.specs.Prelude.{◌≡◌, IfOk};
ghost use Rattle.art_arena.specs.arena.ArenaClones.{HasNoSpare, IsArenaClone};
ghost use Rattle.art_operations.specs.Runs.{AreClones};

use crate::clone_key::CloneKey;
use crate::map::TreeMap;
use art_bytes::CloneBytes;
use std::alloc::AllocError;

impl<K: CloneBytes, V: Clone, const PREFIX_LEN: usize> TreeMap<K, V, PREFIX_LEN> {
    /// Makes a map of clones of the pairs, in the same order. Its tree has the same shape, and nodes of its own, with
    /// memory for as many of each kind as there are slots for here, and for no more. If a clone of a key or a value
    /// equals its original, it has the same pairs. A clone of a key has to be a key of its
    /// type, as it is if it equals its original.
    ///
    /// Fails if a key or a value can't be cloned, or if out of memory. What was made is dropped then. The map is only
    /// read.
    ///
    /// ```
    /// let mut map = TreeMap::new(rt.alloc());
    /// map.insert(*b"ab", 1)?;
    /// let mut copy = map.clone()?;
    /// copy.insert(*b"ab", 2)?;
    /// assert_eq!(rt; map.get(b"ab"), Some(&1));
    /// ```
    pub fn clone(&self) -> Result<Self, AllocError>
        requires { (k c : K) → K.is_key k → K.is_clone k c → K.is_key c }
        ensures clones { IfOk result (λ copy. AreClones K.is_clone V.is_clone self.now.pairs copy.pairs) }
        ensures pairs { ((k c : K) → K.is_clone k c → c ≡ k) → ((v c : V) → V.is_clone v c → c ≡ v)
            → IfOk result (λ copy. copy.pairs ≡ self.now.pairs) }
        ensures shape { IfOk result (λ copy. IsArenaClone K.is_clone V.is_clone self.now.nodes copy.nodes
            × (copy.root ≡ self.now.root)) }
        ensures exact { IfOk result (λ copy. HasNoSpare self.now.nodes copy.nodes) }
    {
        Ok(TreeMap {
            alloc: self.alloc,
            arena: self.arena.try_clone(self.alloc)?,
            root: self.root,
        })
    }
}

/// A map of clones, as the method `clone` of the map makes it.
///
/// ```
/// #[derive(Clone, Drop)]
/// struct Shelf {
///     books: TreeMap<[u8; 2], u32, 16>,
/// }
/// let mut shelf = Shelf { books: TreeMap::new(rt.alloc()) };
/// shelf.books.insert(*b"ab", 1)?;
/// assert_eq!(rt; shelf.clone()?.books.get(b"ab"), Some(&1));
/// ```
impl<K: CloneKey, V: Clone, const PREFIX_LEN: usize> Clone for TreeMap<K, V, PREFIX_LEN> {
    ghost is_clone = { λ old copy. AreClones K.is_clone V.is_clone old.pairs copy.pairs
        × IsArenaClone K.is_clone V.is_clone old.nodes copy.nodes × (copy.root ≡ old.root)
        × HasNoSpare old.nodes copy.nodes };

    fn clone(&self) -> Result<Self, AllocError> {
        match TreeMap::clone(self) {
            Ok(copy) => Ok(copy),
            Err(refused) => Err(refused),
        }
    }
}

//! `append`, `split_off` and `clone`: all keys of a set move into another, or those from a key on; and a set of clones.
ghost use Rattle.std.specs.Prelude.{◌≡◌, ◌≢◌, ◌⊎◌, ◌-◌, ◌*◌, ◌<◌, ◌^◌, [], length, IfOk, IsOk, OnErr, OnOk};
ghost use Rattle.std.specs.List.{AllZip};
ghost use Rattle.std.specs.declared.ops.Bound.TheVariants.{Included, Excluded, Unbounded};
ghost use Rattle.art_arena.specs.arena.Arena.{HasNoRoom, HasRoom, UsesRoom};
ghost use Rattle.art_arena.specs.arena.ArenaClones.{HasNoSpare};
ghost use Rattle.art_operations.specs.Frees.{FreesLeaves};
ghost use Rattle.art_map.specs.Room.{UsesLeafRoom};
ghost use Rattle.art_set.specs.LeafNames.{IsSetClone, IsSetUntouched, KeepsAllNames, KeepsNames};
ghost use Rattle.art_set.specs.Members.{keys_between, with_keys_put};

use crate::set::TreeSet;
use art_bytes::{AsBytes, CloneBytes, NoPrefixesBytes};
use art_map::CloneKey;
use std::alloc::AllocError;

impl<K: AsBytes, const PREFIX_LEN: usize> TreeSet<K, PREFIX_LEN> {
    /// Moves the keys whose bytes are not less than the query's into a set of their own, and returns that set. The
    /// others keep their leaves. If all leave, the nodes go with them, and all room. If none do, all room stays, in an
    /// empty set too.
    ///
    /// A key that leaves gives room for a leaf back. Of each other kind it uses room for four nodes at most.
    ///
    /// Fails if there is no memory for the nodes that the moves need, those of the new set among them. All of it is
    /// allocated first, and the set is unchanged then. If none leave, or all, it allocates nothing, and can't fail
    /// where nodes fit in memory (`nodes_fit` of `art_map`).
    ///
    /// ```
    /// let mut set = TreeSet::new(rt.alloc());
    /// set.extend([*b"ab", *b"cd", *b"ef"])?;
    /// let off = set.split_off(b"cd")?;
    /// assert!(rt; set.iter().eq([b"ab"]));
    /// assert!(rt; off.iter().eq([b"cd", b"ef"]));
    /// ```
    pub fn split_off<Q: AsBytes>(&mut self, key: &Q) -> Result<Self, AllocError>
    where
        K: Drop,
        ensures off { IfOk result (λ off. off.keys
            ≡ keys_between K.bytes (Included (Q.bytes key.now)) Unbounded self.old.keys) }
        ensures keys { OnOk result (self.new.keys
            ≡ keys_between K.bytes Unbounded (Excluded (Q.bytes key.now)) self.old.keys) }
        ensures names { OnOk result (KeepsNames K.bytes self.old self.new) }
        ensures err { OnErr result (self.new.keys ≡ self.old.keys) }
        ensures kept { OnErr result (IsSetUntouched self.old self.new) }
        ensures free { PREFIX_LEN < 2 ^ 62
            → (keys_between K.bytes (Included (Q.bytes key.now)) Unbounded self.old.keys ≡ [])
            ⊎ (keys_between K.bytes Unbounded (Excluded (Q.bytes key.now)) self.old.keys ≡ []) → IsOk result }
        ensures leaf_room { IfOk result (λ off. self.new.keys ≢ []
            → FreesLeaves (length off.keys) self.old.nodes self.new.nodes) }
        ensures room { IfOk result (λ off. self.new.keys ≢ []
            → UsesRoom (4 * length off.keys) self.old.nodes self.new.nodes) }
        ensures nothing { IfOk result (λ off. off.keys ≡ [] → (self.new ≡ self.old) × HasNoRoom off.nodes) }
        ensures swapped { IfOk result (λ off. self.new.keys ≡ [] → off.keys ≢ []
            → (off ≡ self.old) × HasNoRoom self.new.nodes) }
    {
        let alloc = self.alloc;
        let map = self.map.split_off(key)?;
        Ok(TreeSet { alloc, map })
    }

    /// Makes a set of clones of the keys, in the same order, with nodes of its own. It has memory for as many nodes of
    /// each kind as there are slots for here, and for no more. If a clone of a key equals its original, it has the same
    /// keys: see `laws::keys_of_clones`. A clone of a key has to be a key of its type, as it is if it equals its
    /// original.
    ///
    /// Fails if a key can't be cloned, or if out of memory. What was made is dropped then. The set is only read.
    ///
    /// ```
    /// let mut set = TreeSet::new(rt.alloc());
    /// set.insert(*b"ab")?;
    /// let mut copy = set.clone()?;
    /// copy.insert(*b"cd")?;
    /// assert_eq!(rt; set.len(), 1);
    /// ```
    pub fn clone(&self) -> Result<Self, AllocError>
    where
        K: CloneBytes,
        requires { (k c : K) → K.is_key k → K.is_clone k c → K.is_key c }
        ensures clones { IfOk result (λ copy. AllZip K.is_clone self.now.keys copy.keys) }
        ensures shape { IfOk result (IsSetClone K.is_clone self.now) }
        ensures exact { IfOk result (λ copy. HasNoSpare self.now.nodes copy.nodes) }
    {
        let map = self.map.clone()?;
        Ok(TreeSet {
            alloc: self.alloc,
            map,
        })
    }
}

impl<K: NoPrefixesBytes + Drop, const PREFIX_LEN: usize> TreeSet<K, PREFIX_LEN> {
    /// Moves all keys of another set into this one. Each replaces a key with the same bytes. The other set is empty
    /// then.
    ///
    /// Fails if there is no memory for the nodes that the moves need. All of it is allocated first, and both sets are
    /// unchanged then. With room for two nodes a key of the other, as `reserve` makes it, it never fails. If one of
    /// them is empty, it allocates nothing and can't fail.
    ///
    /// Of the room for leaves, only the keys that come anew use some. Of each other kind, a key of the other set uses
    /// room for four nodes at most. The other set has no room left, since all its memory is freed. If this set is
    /// empty, the two change places, and so does their room.
    ///
    /// ```
    /// let mut set = TreeSet::new(rt.alloc());
    /// set.extend([*b"ab", *b"cd"])?;
    /// let mut other = TreeSet::new(rt.alloc());
    /// other.extend([*b"cd", *b"ef"])?;
    /// set.append(&mut other)?;
    /// assert!(rt; set.iter().eq([b"ab", b"cd", b"ef"]));
    /// ```
    pub fn append(&mut self, other: &mut Self) -> Result<(), AllocError>
        ensures keys { OnOk result (self.new.keys ≡ with_keys_put K.bytes other.old.keys self.old.keys) }
        ensures emptied { OnOk result (other.new.keys ≡ []) }
        ensures freed { OnOk result (self.old.keys ≢ [] → other.old.keys ≢ [] → HasNoRoom other.new.nodes) }
        ensures names { OnOk result (KeepsAllNames K.bytes self.old self.new) }
        ensures err { OnErr result ((self.new.keys ≡ self.old.keys) × (other.new.keys ≡ other.old.keys)) }
        ensures kept { OnErr result (IsSetUntouched self.old self.new × IsSetUntouched other.old other.new) }
        ensures free { (self.old.keys ≡ []) ⊎ (other.old.keys ≡ []) → IsOk result }
        ensures succeeds { HasRoom self.old.nodes (2 * length other.old.keys) → IsOk result }
        ensures leaf_room { OnOk result (self.old.keys ≢ []
            → UsesLeafRoom (length self.new.keys - length self.old.keys) self.old.nodes self.new.nodes) }
        ensures room { OnOk result (self.old.keys ≢ []
            → UsesRoom (4 * length other.old.keys) self.old.nodes self.new.nodes) }
        ensures nothing { other.old.keys ≡ [] → (self.new ≡ self.old) × (other.new ≡ other.old) }
        ensures swapped { self.old.keys ≡ [] → other.old.keys ≢ []
            → (self.new ≡ other.old) × (other.new ≡ self.old) }
    {
        self.map.append(&mut other.map)
    }
}

/// A set of clones, as the method `clone` of the set makes it.
///
/// ```
/// #[derive(Clone, Drop)]
/// struct Shelf {
///     books: TreeSet<[u8; 2], 16>,
/// }
/// let mut shelf = Shelf { books: TreeSet::new(rt.alloc()) };
/// shelf.books.insert(*b"ab")?;
/// assert!(rt; shelf.clone()?.books.contains(b"ab"));
/// ```
impl<K: CloneKey, const PREFIX_LEN: usize> Clone for TreeSet<K, PREFIX_LEN> {
    ghost is_clone = { λ old copy. AllZip K.is_clone old.keys copy.keys × IsSetClone K.is_clone old copy
        × HasNoSpare old.nodes copy.nodes };

    fn clone(&self) -> Result<Self, AllocError> {
        match TreeSet::clone(self) {
            Ok(copy) => Ok(copy),
            Err(refused) => Err(refused),
        }
    }
}

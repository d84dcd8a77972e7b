//! `Extend` and `FromIterator`, by which what an iterator gives is put into a set.
ghost use Rattle.std.specs.Prelude.{◌≡◌, [], length, map};
ghost use Rattle.std.specs.Map.Iter.{deref};
ghost use Rattle.art_map.specs.Bulk.{UsesRoomOfPairs};
ghost use Rattle.art_set.specs.LeafNames.{KeepsAllNames};
ghost use Rattle.art_set.specs.Members.{with_keys_put};

use crate::set::TreeSet;
use art_bytes::NoPrefixesBytes;
use std::alloc::{AllocError, Global};

/// Inserts keys one after another, as the method `extend` of the set does. That one returns a key that is refused.
///
/// ```
/// use std::alloc::AllocError;
/// use std::iter::Extend;
/// fn put<S: Extend<[u8; 2]>>(set: &mut S, keys: [[u8; 2]; 2]) -> Result<(), AllocError>
///     requires { S.can_extend set.old keys }
/// {
///     set.extend(keys)
/// }
/// ```
impl<K: NoPrefixesBytes + Drop, const PREFIX_LEN: usize> Extend<K> for TreeSet<K, PREFIX_LEN> {
    ghost extend_gives = { λ old keys new.
        (new.keys ≡ with_keys_put K.bytes keys old.keys) × KeepsAllNames K.bytes old new
        × UsesRoomOfPairs (length keys) old.nodes new.nodes };

    fn extend<U: IntoIterator<Item = K>>(&mut self, iter: U) -> Result<(), AllocError> {
        match TreeSet::extend(self, iter) {
            Ok(()) => Ok(()),
            Err(_refused) => Err(AllocError),
        }
    }
}

/// Inserts copies of keys that are lent, as the method `extend_from_refs` of the set does.
impl<'a, K: NoPrefixesBytes + Copy + 'a, const PREFIX_LEN: usize> Extend<&'a K>
    for TreeSet<K, PREFIX_LEN> {
    ghost extend_gives = { λ old keys new.
        (new.keys ≡ with_keys_put K.bytes (map deref keys) old.keys) × KeepsAllNames K.bytes old new
        × UsesRoomOfPairs (length keys) old.nodes new.nodes };

    fn extend<U: IntoIterator<Item = &'a K>>(&mut self, iter: U) -> Result<(), AllocError> {
        match self.extend_from_refs(iter) {
            Ok(()) => Ok(()),
            Err(_refused) => Err(AllocError),
        }
    }
}

/// Makes a set of keys, as the function `from_iter` of the set does. So an iterator over keys is collected.
///
/// ```
/// let set: TreeSet<_, 16> = [*b"cd", *b"ab"].into_iter().collect(rt.alloc())?;
/// assert!(rt; set.iter().eq([b"ab", b"cd"]));
/// ```
impl<K: NoPrefixesBytes + Drop, const PREFIX_LEN: usize> FromIterator<K>
    for TreeSet<K, PREFIX_LEN> {
    type Alloc = Global;

    ghost from_iter_gives = { λ keys made. made.keys ≡ with_keys_put K.bytes keys [] };

    fn from_iter<U: IntoIterator<Item = K>>(alloc: Global, iter: U) -> Result<Self, AllocError> {
        match TreeSet::from_iter(alloc, iter) {
            Ok(made) => Ok(made),
            Err(_refused) => Err(AllocError),
        }
    }
}

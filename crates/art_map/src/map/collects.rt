//! `Extend` and `FromIterator`, by which what an iterator gives is put into a map.
ghost use Rattle.std.specs.Prelude.{◌≡◌, [], length, map};
ghost use Rattle.std.specs.Map.Iter.{deref_pair};
ghost use Rattle.art_map.specs.Asked.{with_pairs_put};
ghost use Rattle.art_map.specs.Bulk.{UsesRoomOfPairs};
ghost use Rattle.art_map.specs.LeafNames.{KeepsAllLeaves};

use crate::map::TreeMap;
use art_bytes::NoPrefixesBytes;
use std::alloc::{AllocError, Global};

/// Inserts pairs one after another, as the method `extend` of the map does. That one returns a pair that is refused.
///
/// ```
/// use std::alloc::AllocError;
/// use std::iter::Extend;
/// fn put<M: Extend<([u8; 2], u32)>>(map: &mut M, pairs: [([u8; 2], u32); 2]) -> Result<(), AllocError>
///     requires { M.can_extend map.old pairs }
/// {
///     map.extend(pairs)
/// }
/// ```
impl<K: NoPrefixesBytes + Drop, V: Drop, const PREFIX_LEN: usize> Extend<(K, V)>
    for TreeMap<K, V, PREFIX_LEN> {
    ghost extend_gives = { λ old pairs new.
        (new.pairs ≡ with_pairs_put K.bytes pairs old.pairs) × KeepsAllLeaves K.bytes old new
        × UsesRoomOfPairs (length pairs) old.nodes new.nodes };

    fn extend<U: IntoIterator<Item = (K, V)>>(&mut self, iter: U) -> Result<(), AllocError> {
        match TreeMap::extend(self, iter) {
            Ok(()) => Ok(()),
            Err(_refused) => Err(AllocError),
        }
    }
}

/// Inserts copies of pairs that are lent, as the method `extend_from_refs` of the map does.
impl<'a, K: NoPrefixesBytes + Copy + 'a, V: Copy + 'a, const PREFIX_LEN: usize> Extend<
    (&'a K, &'a V),
> for TreeMap<K, V, PREFIX_LEN> {
    ghost extend_gives = { λ old pairs new.
        (new.pairs ≡ with_pairs_put K.bytes (map deref_pair pairs) old.pairs) × KeepsAllLeaves K.bytes old new
        × UsesRoomOfPairs (length pairs) old.nodes new.nodes };

    fn extend<U: IntoIterator<Item = (&'a K, &'a V)>>(
        &mut self,
        iter: U,
    ) -> Result<(), AllocError> {
        match self.extend_from_refs(iter) {
            Ok(()) => Ok(()),
            Err(_refused) => Err(AllocError),
        }
    }
}

/// Makes a map of pairs, as the function `from_iter` of the map does. So an iterator over pairs is collected.
///
/// ```
/// let map: TreeMap<_, _, 16> = [(*b"cd", 2), (*b"ab", 1)].into_iter().collect(rt.alloc())?;
/// assert!(rt; map.values().eq([&1, &2]));
/// ```
impl<K: NoPrefixesBytes + Drop, V: Drop, const PREFIX_LEN: usize> FromIterator<(K, V)>
    for TreeMap<K, V, PREFIX_LEN> {
    type Alloc = Global;

    ghost from_iter_gives = { λ pairs made. made.pairs ≡ with_pairs_put K.bytes pairs [] };

    fn from_iter<U: IntoIterator<Item = (K, V)>>(
        alloc: Global,
        iter: U,
    ) -> Result<Self, AllocError> {
        match TreeMap::from_iter(alloc, iter) {
            Ok(made) => Ok(made),
            Err(_refused) => Err(AllocError),
        }
    }
}

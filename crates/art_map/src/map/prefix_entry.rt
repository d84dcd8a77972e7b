//! The prefix entry of a key: the key goes in place of the pairs whose keys overlap it.
//!
//! Two keys overlap if they have the same bytes, or one is a prefix of the other.
ghost use Rattle.std.specs.Prelude.{◌≡◌, true};
ghost use Rattle.art_map.specs.Found.{is_held};

mod inner;
pub mod lone;
mod methods;
mod occupied;
mod overlapped;

use crate::map::TreeMap;
use crate::map::entry::{OccupiedEntry, VacantEntry};
use art_arena::LeafPtr;
use art_bytes::AsBytes;
use std::marker::PhantomData;

/// The entry of a key that goes in place of all stored keys that overlap it.
///
/// ```
/// let mut map = TreeMap::new(rt.alloc());
/// map.try_insert(StrKey("abc"), 1)?;
/// match map.prefix_entry(StrKey("ab")) {
///     PrefixEntry::Occupied(entry) => assert_eq!(rt; entry.get(), Some(&1)),
///     PrefixEntry::Vacant(entry) => assert_eq!(rt; *entry.key(), StrKey("cd")),
/// }
/// ```
#[derive(Drop)]
pub enum PrefixEntry<
    'a,
    K: AsBytes,
    V,
    const PREFIX_LEN: usize,
    M: 'a = TreeMap<K, V, PREFIX_LEN>,
> {
    /// A stored key overlaps the key.
    Occupied(PrefixOccupied<'a, K, V, PREFIX_LEN, M>),
    /// No stored key overlaps the key.
    Vacant(VacantEntry<'a, K, V, PREFIX_LEN, M>),
}

/// The entry of a key that stored keys overlap. `kind` tells whether it is one of them.
///
/// The last parameter is never written: it tells the borrow check that the map lives as long as it is lent.
#[derive(Drop)]
pub struct PrefixOccupied<
    'a,
    K: AsBytes,
    V,
    const PREFIX_LEN: usize,
    M: 'a = TreeMap<K, V, PREFIX_LEN>,
> {
    map: &'a mut TreeMap<K, V, PREFIX_LEN>,
    spot: Spot<K>,
    mark: PhantomData<M>,
    ghost held: { is_held map.now spot ≡ true },
}

// Where a key that stored keys overlap is stored, or the key itself where it is not.
#[derive(Drop)]
enum Spot<K> {
    Stored(LeafPtr),
    New(K),
}

/// The kinds of entries of a key that stored keys overlap.
#[derive(Drop)]
pub enum PrefixOccupiedKind<
    'a,
    K: AsBytes,
    V,
    const PREFIX_LEN: usize,
    M: 'a = TreeMap<K, V, PREFIX_LEN>,
> {
    /// The key is stored.
    Leaf(OccupiedEntry<'a, K, V, PREFIX_LEN, M>),
    /// The key is not stored, but a stored key is a prefix of it, or it is a prefix of stored keys.
    Inner(InnerOccupiedEntry<'a, K, V, PREFIX_LEN, M>),
}

/// The entry of a key that is not stored. A stored key is a prefix of it, or it is a prefix of stored keys. An
/// insertion removes the pairs of these.
///
/// The last parameter is never written: it tells the borrow check that the map lives as long as it is lent.
#[derive(Drop)]
pub struct InnerOccupiedEntry<
    'a,
    K: AsBytes,
    V,
    const PREFIX_LEN: usize,
    M: 'a = TreeMap<K, V, PREFIX_LEN>,
> {
    map: &'a mut TreeMap<K, V, PREFIX_LEN>,
    key: K,
    mark: PhantomData<M>,
}

/// The only pair that an insertion would remove. Its value is lent for writing.
#[derive(Drop)]
pub struct LonePair<'a, K, V> {
    /// The stored key.
    pub key: &'a K,
    /// Its value.
    pub value: &'a mut V,
    // What the contract calls the place of the pair.
    leaf: LeafPtr,
}

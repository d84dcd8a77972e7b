//! The laws of what a look-up finds after a change, how many pairs there are then, and which, in the words of the
//! contracts of `TreeMap`. Each function does nothing, and its contract is the law.
#![tactic(auto, using(crate::proofs::MapLaws::all_laws))]

ghost use Rattle.std.specs.Prelude.{◌≡◌};
ghost use Rattle.art_arena.specs.arena.Shapes.{key_of};
ghost use Rattle.art_arena.specs.tree.Order.{AscendsByKey};
ghost use Rattle.art_map.specs.Laws.{FoundAfterInsertion, FoundAfterPrefixInsertion, FoundAfterPrefixRemoval};
ghost use Rattle.art_map.specs.Laws.{FoundAfterRemoval, FoundOfEndedKeys, FoundWithinBounds, FoundWithinPrefix};
ghost use Rattle.art_map.specs.Laws.{FoundAmongRetained, FoundAfterInsertions, FoundAfterWrite};
ghost use Rattle.art_map.specs.Laws.{LenAfterInsertion, LenAfterPrefixRemoval, LenAfterRemoval, LenAfterWrite};
ghost use Rattle.art_map.specs.PairLaws.{LenAmongRetained, LenAfterInsertions, LenAfterPrefixInsertion};
ghost use Rattle.art_map.specs.PairLaws.{IsInAmongRetained, IsInAfterInsertion, IsInAfterInsertions, IsInAfterWrite};
ghost use Rattle.art_map.specs.PairLaws.{IsInAfterPrefixInsertion, IsInAfterPrefixRemoval, IsInAfterRemoval};
ghost use Rattle.art_map.specs.PairLaws.{FirstIsLeast, FoundByKey, FoundByPrefix, LastIsGreatest};

use crate::map::TreeMap;
use art_bytes::AsBytes;

/// After `insert`, `try_insert`, `insert_at` and their like the bytes of the new key find its value. All others find
/// what they found before.
pub fn found_after_insertion<K, V>()
    ensures { FoundAfterInsertion K V }
{}

/// After `remove` and `remove_entry` the bytes of the key find nothing. All others find what they found before.
pub fn found_after_removal<K, V>()
    ensures { FoundAfterRemoval K V }
{}

/// After `prefix_insert` the bytes of the new key find its value, and all others that overlap them find nothing. The
/// rest find what they found before.
pub fn found_after_prefix_insertion<K, V>()
    ensures { FoundAfterPrefixInsertion K V }
{}

/// After `remove_prefix` the bytes that begin with the prefix find nothing. All others find what they found before.
pub fn found_after_prefix_removal<K, V>()
    ensures { FoundAfterPrefixRemoval K V }
{}

/// Among the pairs of `prefix` the bytes that begin with the prefix find what they find in the map, and all others find
/// nothing.
pub fn found_within_prefix<K, V>()
    ensures { FoundWithinPrefix K V }
{}

/// Among the pairs of `range` the bytes between the bounds find what they find in the map, and all others find nothing.
pub fn found_within_bounds<K, V>()
    ensures { FoundWithinBounds K V }
{}

/// After a value is written through `get_mut` the bytes of its key find that value, if they found one. All others find
/// what they found before.
pub fn found_after_write<K, V>()
    ensures { FoundAfterWrite K V }
{}

/// After `extend`, `append` and their like bytes find the value of the last pair with that key of those that were put
/// in. If there is none, they find what they found before.
pub fn found_after_insertions<K, V>()
    ensures { FoundAfterInsertions K V }
{}

/// Among the pairs that pass a test of their bytes and value, bytes find the value that they find in the map, if that
/// one passes. That `retain` keeps these pairs, if its closure is such a test and changes nothing, is std's
/// `filter_from_retain_pairs`.
pub fn found_among_retained<K, V>()
    ensures { FoundAmongRetained K V }
{}

/// After an insertion a map has one pair more, unless the key was stored.
pub fn len_after_insertion<K, V>()
    ensures { LenAfterInsertion K V }
{}

/// After a removal a map has one pair less, if the key was stored.
pub fn len_after_removal<K, V>()
    ensures { LenAfterRemoval K V }
{}

/// The pairs that begin with a prefix and the others are all pairs.
pub fn len_after_prefix_removal<K, V>()
    ensures { LenAfterPrefixRemoval K V }
{}

/// After a value is written a map has as many pairs as before.
pub fn len_after_write<K, V>()
    ensures { LenAfterWrite K V }
{}

/// After a prefix insertion a map has one pair more, and those less that the key overlaps.
pub fn len_after_prefix_insertion<K, V>()
    ensures { LenAfterPrefixInsertion K V }
{}

/// After `extend`, `append` and their like a map has more pairs by the number of different keys that were put in and
/// were not stored.
pub fn len_after_insertions<K, V>()
    ensures { LenAfterInsertions K V }
{}

/// The pairs that pass a test and the others are all pairs. So it is where `retain` keeps those that pass, and where a
/// walk gives those of a range.
pub fn len_among_retained<K, V>()
    ensures { LenAmongRetained K V }
{}

/// After an insertion the pairs are the new one and those that were there under other bytes.
pub fn is_in_after_insertion<K, V>()
    ensures { IsInAfterInsertion K V }
{}

/// After a removal the pairs are those that were there under other bytes.
pub fn is_in_after_removal<K, V>()
    ensures { IsInAfterRemoval K V }
{}

/// After a prefix insertion the pairs are the new one and those that were there under bytes that its key doesn't
/// overlap.
pub fn is_in_after_prefix_insertion<K, V>()
    ensures { IsInAfterPrefixInsertion K V }
{}

/// After `remove_prefix` the pairs are those that were there under bytes that don't begin with the prefix.
pub fn is_in_after_prefix_removal<K, V>()
    ensures { IsInAfterPrefixRemoval K V }
{}

/// After a value is written the pair of its key has that value. The others are those that were there under other bytes.
pub fn is_in_after_write<K, V>()
    ensures { IsInAfterWrite K V }
{}

/// After `extend`, `append` and their like the pairs are the last of each key of those that were put in, and those that
/// were there under bytes that no new key has.
pub fn is_in_after_insertions<K, V>()
    ensures { IsInAfterInsertions K V }
{}

/// Among the pairs that pass a test are those of the map that pass it. So it is where `retain` keeps these, and where a
/// walk gives those of a range or of a prefix.
pub fn is_in_among_retained<K, V>()
    ensures { IsInAmongRetained K V }
{}

/// The key of the first pair comes before all others.
pub fn first_is_least<K, V>()
    ensures { FirstIsLeast K V }
{}

/// The key of the last pair comes after all others.
pub fn last_is_greatest<K, V>()
    ensures { LastIsGreatest K V }
{}

/// `get_key_value` and its like find a pair exactly if it is in the map and its key has the bytes.
pub fn found_by_key<K, V>()
    ensures { FoundByKey K V }
{}

/// `prefix_get_key_value` and its like find a pair exactly if it is in the map and its key begins the bytes, or equals
/// them.
pub fn found_by_prefix<K, V>()
    ensures { FoundByPrefix K V }
{}

/// If keys end with a zero and have no other, as those of `ZeroEnded`, the bytes with a zero at their end find what the
/// bytes without it find among the keys without theirs.
pub fn found_of_ended_keys<V>()
    ensures { FoundOfEndedKeys V }
{}

/// The keys of a map ascend by their bytes, no two have the same, and none is a prefix of another.
pub fn keys_ascend<K: AsBytes, V, const PREFIX_LEN: usize>(map: &TreeMap<K, V, PREFIX_LEN>)
    ensures { AscendsByKey (key_of K.bytes) map.now.pairs }
{
    let _pairs = map.nodes();
}

// Takes what may go to another thread and be read from several at once.
fn crossing<T: Send + Sync>(value: T) -> T
    ensures { result ≡ value }
{
    value
}

/// A map may go to another thread, and be read from several at once, if its keys and values may. It returns the map.
pub fn map_crosses<K: AsBytes + Send + Sync, V: Send + Sync, const PREFIX_LEN: usize>(
    map: TreeMap<K, V, PREFIX_LEN>,
) -> TreeMap<K, V, PREFIX_LEN>
    ensures { result ≡ map }
{
    crossing(map)
}

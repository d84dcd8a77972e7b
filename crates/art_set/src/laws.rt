//! The laws of what is a member after a change and of a merge, how many keys there are then, and which, in the words of
//! the contracts of `TreeSet`. Each function does nothing, and its contract is the law.
#![tactic(auto, using(crate::proofs::MembersAfter::member_laws))]

ghost use Rattle.std.specs.Prelude.{◌≡◌};
ghost use Rattle.std.specs.Thread.{IsSend, IsSync};
ghost use Rattle.art_arena.specs.tree.Order.{AscendsByKey};
ghost use Rattle.art_set.specs.Laws.{MembersAfterInsertion, MembersAfterPrefixRemoval, MembersAfterRemoval};
ghost use Rattle.art_set.specs.Laws.{MembersAmongRetained, MembersAfterInsertions, MembersOfDifference};
ghost use Rattle.art_set.specs.Laws.{MembersOfIntersection, MembersOfSymmetricDifference, MembersOfUnion};
ghost use Rattle.art_set.specs.Laws.{ManyKeysAmongRetained, ManyKeysAfterInsertion, ManyKeysAfterInsertions};
ghost use Rattle.art_set.specs.Laws.{ManyKeysAfterRemoval, ManyKeysOfDifference, ManyKeysOfSymmetricDifference};
ghost use Rattle.art_set.specs.Laws.{ManyKeysOfIntersection, ManyKeysOfUnion, IsKeyInAmongRetained};
ghost use Rattle.art_set.specs.Laws.{IsKeyInAfterInsertion, IsKeyInAfterInsertions, IsKeyInAfterPrefixRemoval};
ghost use Rattle.art_set.specs.Laws.{IsKeyInAfterRemoval};
ghost use Rattle.art_set.specs.Laws.{FirstKeyIsLeast, KeyFoundByBytes, KeysOfClones, LastKeyIsGreatest};
ghost use Rattle.art_set.specs.contracts.set.TreeSet.{the_row};

use crate::set::TreeSet;
use art_bytes::AsBytes;

/// After `insert`, `try_insert` and `replace` the bytes of the new key are a member's. All others are as before.
pub fn members_after_insertion<K>()
    ensures { MembersAfterInsertion K }
{}

/// After `remove` and `take` the bytes of the key are no member's. All others are as before.
pub fn members_after_removal<K>()
    ensures { MembersAfterRemoval K }
{}

/// After `remove_prefix` the bytes that begin with the prefix are no member's. All others are as before.
pub fn members_after_prefix_removal<K>()
    ensures { MembersAfterPrefixRemoval K }
{}

/// After `extend`, `append` and their like the bytes of each key that was put in are a member's. All others are as
/// before.
pub fn members_after_insertions<K>()
    ensures { MembersAfterInsertions K }
{}

/// Among the keys whose bytes pass a test, bytes are a member's if they pass and are a member's of the set. So it is
/// where `retain` keeps these, and where a walk gives those of a range or of a prefix.
pub fn members_among_retained<K>()
    ensures { MembersAmongRetained K }
{}

/// Of an intersection, bytes are a member's if they are of both sets.
pub fn members_of_intersection<K>()
    ensures { MembersOfIntersection K }
{}

/// Of a difference, bytes are a member's if they are of the first set and not of the second.
pub fn members_of_difference<K>()
    ensures { MembersOfDifference K }
{}

/// Of a union, bytes are a member's if they are of either set.
pub fn members_of_union<K>()
    ensures { MembersOfUnion K }
{}

/// Of a symmetric difference, bytes are a member's if they are of one set and not of the other.
pub fn members_of_symmetric_difference<K>()
    ensures { MembersOfSymmetricDifference K }
{}

/// After an insertion a set has one key more, unless one with its bytes was a member.
pub fn len_after_insertion<K>()
    ensures { ManyKeysAfterInsertion K }
{}

/// After a removal a set has one key less, if the key was a member.
pub fn len_after_removal<K>()
    ensures { ManyKeysAfterRemoval K }
{}

/// After `extend`, `append` and their like a set has more keys by the number of different ones that were put in and
/// were no members.
pub fn len_after_insertions<K>()
    ensures { ManyKeysAfterInsertions K }
{}

/// The keys that pass a test and the others are all keys.
pub fn len_among_retained<K>()
    ensures { ManyKeysAmongRetained K }
{}

/// The keys that both sets have and those that the first has alone are all keys of the first.
pub fn len_of_difference<K>()
    ensures { ManyKeysOfDifference K }
{}

/// Two sets have as many keys in common, whichever of them is the first.
pub fn len_of_intersection<K>()
    ensures { ManyKeysOfIntersection K }
{}

/// A union has the keys of the first set, and as many more as the second has alone.
pub fn len_of_union<K>()
    ensures { ManyKeysOfUnion K }
{}

/// A symmetric difference has as many keys as either set has alone.
pub fn len_of_symmetric_difference<K>()
    ensures { ManyKeysOfSymmetricDifference K }
{}

/// After an insertion the keys are the new one and those that were there with other bytes.
pub fn is_in_after_insertion<K>()
    ensures { IsKeyInAfterInsertion K }
{}

/// After `remove` and `take` the keys are those that were there with other bytes.
pub fn is_in_after_removal<K>()
    ensures { IsKeyInAfterRemoval K }
{}

/// After `remove_prefix` the keys are those that were there with bytes that don't begin with the prefix.
pub fn is_in_after_prefix_removal<K>()
    ensures { IsKeyInAfterPrefixRemoval K }
{}

/// After `extend`, `append` and their like the keys are the last of each bytes of those that were put in, and those
/// that were there with bytes that no new key has.
pub fn is_in_after_insertions<K>()
    ensures { IsKeyInAfterInsertions K }
{}

/// Among the keys that pass a test are those of the set that pass it.
pub fn is_in_among_retained<K>()
    ensures { IsKeyInAmongRetained K }
{}

/// `get` finds a key exactly if it is in the set and has the bytes.
pub fn found_by_key<K>()
    ensures { KeyFoundByBytes K }
{}

/// The first key comes before all others.
pub fn first_is_least<K>()
    ensures { FirstKeyIsLeast K }
{}

/// The last key comes after all others.
pub fn last_is_greatest<K>()
    ensures { LastKeyIsGreatest K }
{}

/// If a clone of a key equals it, what `clone`, `&`, `|`, `^` and `-` make of keys has these keys.
pub fn keys_of_clones<K: Clone>()
    ensures { KeysOfClones K K.is_clone }
{}

/// The keys of a set ascend by their bytes, no two have the same, and none is a prefix of another.
pub fn keys_ascend<K: AsBytes, const PREFIX_LEN: usize>(set: &TreeSet<K, PREFIX_LEN>)
    ensures { AscendsByKey K.bytes set.now.keys }
{
    let _keys = set.nodes();
}

// Takes what may go to another thread and be read from several at once, as the language judges.
fn crossing<T: Send + Sync>(value: T) -> T
    ensures { result ≡ value }
{
    value
}

/// A set may go to another thread, and be read from several at once, if its keys may. It returns the set.
pub fn set_crosses<K: AsBytes + Send + Sync, const PREFIX_LEN: usize>(
    set: TreeSet<K, PREFIX_LEN>,
) -> TreeSet<K, PREFIX_LEN>
    ensures same { result ≡ set }
    ensures sent { IsSend (the_row K.row PREFIX_LEN.row K.AsBytes) }
    ensures shared { IsSync (the_row K.row PREFIX_LEN.row K.AsBytes) }
{
    crossing(set)
}

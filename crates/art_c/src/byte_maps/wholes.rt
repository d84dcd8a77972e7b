//! The exports of maps of bytes: a map as a whole.
#![tactic(auto, using(crate::proofs::Answered::no_bytes))]

ghost use Rattle.std.specs.Prelude.{◌≡◌, ◌*◌, length, None};
ghost use Rattle.art_c.specs.Answers.{Answers, Changes, OnlyReads};
ghost use Rattle.art_c.specs.Calls.{IsAudited, IsNew};
ghost use Rattle.art_c.specs.Codes.{code_number};
ghost use Rattle.art_c.specs.Handles.{byte_map_in, byte_map_of, is_frozen_map, pairs_or_none, store_of};
ghost use Rattle.art_c.specs.Joins.{IsAppended};
ghost use Rattle.art_c.specs.Puts.{IsPrefixRemoved};
ghost use Rattle.art_c.specs.Wholes.{IsCleared, IsCompacted, GetsCopy, IsFrozen, IsReserved, IsShared, IsShrunk};
ghost use Rattle.art_c.specs.Wholes.{HasRoomInStore, IsSplitOff, IsThawed, IsTrimmedStore};
ghost use Rattle.art_c.specs.declared.code.Code.TheVariants.{Done, NoMemory};

use crate::bytes::Bytes;
use crate::calls::{counts, joins, own, wholes};
use crate::code::Code;
use crate::handle::{Handle, Kind, keeping, reading};
use crate::nodes::NodeCounts;
use std::alloc::Global;

/// Makes an empty map in a handle. A map that it had is freed.
#[unsafe(no_mangle)]
pub extern "C" fn bytes_new(alloc: Global, handle: &mut Handle) -> u32
    ensures { IsNew byte_map_in (store_of handle.old) result (store_of handle.new) }
{
    wholes::new::<Bytes>(alloc, handle)
}

/// Frees the map of a handle, if one is made.
#[unsafe(no_mangle)]
pub extern "C" fn bytes_free(alloc: Global, handle: &mut Handle)
    ensures { store_of handle.new ≡ None }
{
    let _map = handle.take(alloc);
}

/// How many pairs there are.
#[unsafe(no_mangle)]
pub extern "C" fn bytes_len(alloc: Global, handle: &mut Handle) -> usize
    ensures len { result ≡ length (pairs_or_none (byte_map_of handle.old)) }
    ensures kept { store_of handle.new ≡ store_of handle.old }
{
    wholes::len::<Bytes>(alloc, handle)
}

/// Whether the map is frozen.
#[unsafe(no_mangle)]
pub extern "C" fn bytes_is_frozen(alloc: Global, handle: &mut Handle) -> bool
    ensures is { result ≡ is_frozen_map (byte_map_of handle.old) }
    ensures kept { store_of handle.new ≡ store_of handle.old }
{
    wholes::is_frozen::<Bytes>(alloc, handle)
}

/// Takes out all pairs whose keys begin with a prefix.
#[unsafe(no_mangle)]
pub extern "C" fn bytes_remove_prefix(
    alloc: Global,
    handle: &mut Handle,
    prefix: &[u8],
    count: &mut usize,
) -> u32
    ensures { Answers byte_map_in (Changes (IsPrefixRemoved prefix.now)) (store_of handle.old) count.old
        result (store_of handle.new) count.new }
{
    keeping!(alloc, handle: Bytes, |kept| own::remove_prefix(kept, prefix, count))
}

/// Puts a copy of the map into another handle.
#[unsafe(no_mangle)]
pub extern "C" fn bytes_clone(alloc: Global, handle: &mut Handle, to: &mut Handle) -> u32
    ensures { Answers byte_map_in (OnlyReads (GetsCopy byte_map_in)) (store_of handle.old) (store_of to.old)
        result (store_of handle.new) (store_of to.new) }
{
    reading!(alloc, handle: Bytes, |map| wholes::clone(alloc, map, to))
}

/// Moves the pairs from a key on into a map of their own in another handle.
#[unsafe(no_mangle)]
pub extern "C" fn bytes_split_off(
    alloc: Global,
    handle: &mut Handle,
    key: &[u8],
    to: &mut Handle,
) -> u32
    ensures { Answers byte_map_in (Changes (IsSplitOff byte_map_in key.now)) (store_of handle.old) (store_of to.old)
        result (store_of handle.new) (store_of to.new) }
{
    keeping!(alloc, handle: Bytes, |kept| wholes::split_off(alloc, kept, key, to))
}

/// Moves all pairs of another handle's map into this one, up to the first that is refused.
#[unsafe(no_mangle)]
pub extern "C" fn bytes_append(alloc: Global, handle: &mut Handle, other: &mut Handle) -> u32
    ensures { Answers byte_map_in (Changes (IsAppended byte_map_in)) (store_of handle.old) (store_of other.old)
        result (store_of handle.new) (store_of other.new) }
{
    keeping!(alloc, handle: Bytes, |kept| joins::append(alloc, kept, other))
}

/// Allocates the nodes of so many more insertions.
#[unsafe(no_mangle)]
pub extern "C" fn bytes_reserve(alloc: Global, handle: &mut Handle, additional: usize) -> u32
    ensures pairs { Answers byte_map_in (Changes IsReserved) (store_of handle.old) tt result (store_of handle.new) tt }
    ensures room { result ≡ code_number Done → HasRoomInStore (2 * additional) (store_of handle.new) }
    ensures succeeds { result ≡ code_number NoMemory
        → HasRoomInStore (2 * additional) (store_of handle.old) → ⊥ }
{
    keeping!(alloc, handle: Bytes, |kept| wholes::reserve(kept, additional))
}

/// Gives memory back that the nodes don't need.
#[unsafe(no_mangle)]
pub extern "C" fn bytes_shrink(alloc: Global, handle: &mut Handle) -> u32
    ensures pairs { Answers byte_map_in (Changes IsShrunk) (store_of handle.old) tt result (store_of handle.new) tt }
    ensures trimmed { result ≡ code_number Done → IsTrimmedStore (store_of handle.new) }
{
    keeping!(alloc, handle: Bytes, |kept| wholes::shrink(kept))
}

/// Makes all nodes anew in the order of the keys, and gives memory back that they don't need.
#[unsafe(no_mangle)]
pub extern "C" fn bytes_compact(alloc: Global, handle: &mut Handle) -> u32
    ensures pairs { Answers byte_map_in (Changes IsCompacted) (store_of handle.old) tt result (store_of handle.new) tt }
    ensures trimmed { result ≡ code_number Done → IsTrimmedStore (store_of handle.new) }
{
    keeping!(alloc, handle: Bytes, |kept| wholes::compact(kept))
}

/// Takes all pairs out, and frees their memory.
#[unsafe(no_mangle)]
pub extern "C" fn bytes_clear(alloc: Global, handle: &mut Handle) -> u32
    ensures { Answers byte_map_in (Changes IsCleared) (store_of handle.old) tt result (store_of handle.new) tt }
{
    keeping!(alloc, handle: Bytes, |kept| wholes::clear(alloc, kept))
}

/// Freezes the map: no call changes it from then on.
#[unsafe(no_mangle)]
pub extern "C" fn bytes_freeze(alloc: Global, handle: &mut Handle) -> u32
    ensures { Answers byte_map_in (IsFrozen) (store_of handle.old) tt result (store_of handle.new) tt }
{
    keeping!(alloc, handle: Bytes, |kept| wholes::freeze(alloc, kept))
}

/// Makes a frozen map one that can be changed, where no other handle has it.
#[unsafe(no_mangle)]
pub extern "C" fn bytes_thaw(alloc: Global, handle: &mut Handle) -> u32
    ensures { Answers byte_map_in (IsThawed) (store_of handle.old) tt result (store_of handle.new) tt }
{
    keeping!(alloc, handle: Bytes, |kept| wholes::thaw(alloc, kept))
}

/// Makes another handle on a frozen map.
#[unsafe(no_mangle)]
pub extern "C" fn bytes_share(alloc: Global, handle: &mut Handle, to: &mut Handle) -> u32
    ensures { Answers byte_map_in (IsShared byte_map_in) (store_of handle.old) (store_of to.old)
        result (store_of handle.new) (store_of to.new) }
{
    keeping!(alloc, handle: Bytes, |kept| wholes::share(alloc, kept, to))
}

/// Counts the nodes of the tree.
#[unsafe(no_mangle)]
pub extern "C" fn bytes_audit(
    alloc: Global,
    handle: &mut Handle,
    node_counts: &mut NodeCounts,
) -> u32
    ensures { Answers byte_map_in (OnlyReads IsAudited) (store_of handle.old) node_counts.old
        result (store_of handle.new) node_counts.new }
{
    reading!(alloc, handle: Bytes, |map| counts::audit(map, node_counts))
}

//! The exports of maps of bytes: single pairs by their keys.
#![tactic(auto, using(crate::proofs::Answered::no_bytes))]

ghost use Rattle.std.specs.Prelude.{◌≡◌};
ghost use Rattle.art_c.specs.Answers.{Answers, Changes, OnlyReads};
ghost use Rattle.art_c.specs.Calls.{is_stored, IsValueRead};
ghost use Rattle.art_c.specs.Handles.{byte_map_in, byte_map_of, pairs_or_none, store_of};
ghost use Rattle.art_c.specs.Puts.{IsBytesPut, IsRemoved};

use crate::bytes::Bytes;
use crate::calls::{own, reads};
use crate::code::Code;
use crate::copies::give_value;
use crate::handle::{Handle, Kind, keeping, reading};
use art_bytes::SliceKey;
use std::alloc::Global;

/// Puts a pair in.
#[unsafe(no_mangle)]
pub extern "C" fn bytes_put(alloc: Global, handle: &mut Handle, key: &[u8], value: &[u8]) -> u32
    ensures { Answers byte_map_in (Changes (IsBytesPut key.now value.now)) (store_of handle.old) tt
        result (store_of handle.new) tt }
{
    keeping!(alloc, handle: Bytes, |kept| own::put_bytes(kept, alloc, key, value))
}

/// Copies out the value of a key.
#[unsafe(no_mangle)]
pub extern "C" fn bytes_get(
    alloc: Global,
    handle: &mut Handle,
    key: &[u8],
    room: &mut [u8],
    value_len: &mut usize,
) -> u32
    ensures { Answers byte_map_in (OnlyReads (IsValueRead key.now)) (store_of handle.old) (room.old, value_len.old)
        result (store_of handle.new) (room.new, value_len.new) }
{
    reading!(alloc, handle: Bytes, |map| give_value(map.get(&SliceKey(key)), room, value_len))
}

/// Whether a pair has the key.
#[unsafe(no_mangle)]
pub extern "C" fn bytes_contains(alloc: Global, handle: &mut Handle, key: &[u8]) -> bool
    ensures is { result ≡ is_stored key.now (pairs_or_none (byte_map_of handle.old)) }
    ensures kept { store_of handle.new ≡ store_of handle.old }
{
    reads::contains::<Bytes>(alloc, handle, key)
}

/// Takes out the pair with a key.
#[unsafe(no_mangle)]
pub extern "C" fn bytes_remove(alloc: Global, handle: &mut Handle, key: &[u8]) -> u32
    ensures { Answers byte_map_in (Changes (IsRemoved key.now)) (store_of handle.old) tt
        result (store_of handle.new) tt }
{
    keeping!(alloc, handle: Bytes, |kept| own::remove_bytes(kept, key))
}

//! The exports of maps of bytes: pairs that lie next to a key, at an end, or at an end of those with a prefix.
#![tactic(auto, using(crate::proofs::Answered::no_bytes))]

ghost use Rattle.art_map.specs.Contents.{first_item, last_item};
ghost use Rattle.art_c.specs.Answers.{Answers, OnlyReads};
ghost use Rattle.art_c.specs.Calls.{first_with_prefix, IsPairRead, last_with_prefix, pair_above};
ghost use Rattle.art_c.specs.Calls.{pair_at_or_above, pair_at_or_below, pair_below, pair_of_front};
ghost use Rattle.art_c.specs.Copies.{rooms};
ghost use Rattle.art_c.specs.Handles.{byte_map_in, store_of};

use crate::bytes::Bytes;
use crate::calls::reads::{Wanted, pair_of};
use crate::code::Code;
use crate::copies::give_pair;
use crate::handle::{Handle, Kind, reading};
use std::alloc::Global;

/// Copies out the pair whose key is a front of a query, or equals it.
#[unsafe(no_mangle)]
pub extern "C" fn bytes_find(
    alloc: Global,
    handle: &mut Handle,
    query: &[u8],
    key_room: &mut [u8],
    key_len: &mut usize,
    value_room: &mut [u8],
    value_len: &mut usize,
) -> u32
    ensures { Answers byte_map_in (OnlyReads (IsPairRead (pair_of_front query.now)))
        (store_of handle.old) (rooms key_room.old key_len.old value_room.old value_len.old)
        result (store_of handle.new) (rooms key_room.new key_len.new value_room.new value_len.new) }
{
    reading!(alloc, handle: Bytes, |map| {
        give_pair(pair_of(map, Wanted::FrontOf(query)), key_room, key_len, value_room, value_len)
    })
}

/// Copies out the pair with the least key.
#[unsafe(no_mangle)]
pub extern "C" fn bytes_first(
    alloc: Global,
    handle: &mut Handle,
    key_room: &mut [u8],
    key_len: &mut usize,
    value_room: &mut [u8],
    value_len: &mut usize,
) -> u32
    ensures { Answers byte_map_in (OnlyReads (IsPairRead first_item))
        (store_of handle.old) (rooms key_room.old key_len.old value_room.old value_len.old)
        result (store_of handle.new) (rooms key_room.new key_len.new value_room.new value_len.new) }
{
    reading!(alloc, handle: Bytes, |map| {
        give_pair(pair_of(map, Wanted::First), key_room, key_len, value_room, value_len)
    })
}

/// Copies out the pair with the greatest key.
#[unsafe(no_mangle)]
pub extern "C" fn bytes_last(
    alloc: Global,
    handle: &mut Handle,
    key_room: &mut [u8],
    key_len: &mut usize,
    value_room: &mut [u8],
    value_len: &mut usize,
) -> u32
    ensures { Answers byte_map_in (OnlyReads (IsPairRead last_item))
        (store_of handle.old) (rooms key_room.old key_len.old value_room.old value_len.old)
        result (store_of handle.new) (rooms key_room.new key_len.new value_room.new value_len.new) }
{
    reading!(alloc, handle: Bytes, |map| {
        give_pair(pair_of(map, Wanted::Last), key_room, key_len, value_room, value_len)
    })
}

/// Copies out the pair with the least key that begins with a prefix.
#[unsafe(no_mangle)]
pub extern "C" fn bytes_first_with_prefix(
    alloc: Global,
    handle: &mut Handle,
    prefix: &[u8],
    key_room: &mut [u8],
    key_len: &mut usize,
    value_room: &mut [u8],
    value_len: &mut usize,
) -> u32
    ensures { Answers byte_map_in (OnlyReads (IsPairRead (first_with_prefix prefix.now)))
        (store_of handle.old) (rooms key_room.old key_len.old value_room.old value_len.old)
        result (store_of handle.new) (rooms key_room.new key_len.new value_room.new value_len.new) }
{
    reading!(alloc, handle: Bytes, |map| {
        give_pair(pair_of(map, Wanted::FirstWithPrefix(prefix)), key_room, key_len, value_room, value_len)
    })
}

/// Copies out the pair with the greatest key that begins with a prefix.
#[unsafe(no_mangle)]
pub extern "C" fn bytes_last_with_prefix(
    alloc: Global,
    handle: &mut Handle,
    prefix: &[u8],
    key_room: &mut [u8],
    key_len: &mut usize,
    value_room: &mut [u8],
    value_len: &mut usize,
) -> u32
    ensures { Answers byte_map_in (OnlyReads (IsPairRead (last_with_prefix prefix.now)))
        (store_of handle.old) (rooms key_room.old key_len.old value_room.old value_len.old)
        result (store_of handle.new) (rooms key_room.new key_len.new value_room.new value_len.new) }
{
    reading!(alloc, handle: Bytes, |map| {
        give_pair(pair_of(map, Wanted::LastWithPrefix(prefix)), key_room, key_len, value_room, value_len)
    })
}

/// Copies out the pair with the least key above a key.
#[unsafe(no_mangle)]
pub extern "C" fn bytes_next(
    alloc: Global,
    handle: &mut Handle,
    key: &[u8],
    key_room: &mut [u8],
    key_len: &mut usize,
    value_room: &mut [u8],
    value_len: &mut usize,
) -> u32
    ensures { Answers byte_map_in (OnlyReads (IsPairRead (pair_above key.now)))
        (store_of handle.old) (rooms key_room.old key_len.old value_room.old value_len.old)
        result (store_of handle.new) (rooms key_room.new key_len.new value_room.new value_len.new) }
{
    reading!(alloc, handle: Bytes, |map| {
        give_pair(pair_of(map, Wanted::Above(key)), key_room, key_len, value_room, value_len)
    })
}

/// Copies out the pair with the greatest key below a key.
#[unsafe(no_mangle)]
pub extern "C" fn bytes_previous(
    alloc: Global,
    handle: &mut Handle,
    key: &[u8],
    key_room: &mut [u8],
    key_len: &mut usize,
    value_room: &mut [u8],
    value_len: &mut usize,
) -> u32
    ensures { Answers byte_map_in (OnlyReads (IsPairRead (pair_below key.now)))
        (store_of handle.old) (rooms key_room.old key_len.old value_room.old value_len.old)
        result (store_of handle.new) (rooms key_room.new key_len.new value_room.new value_len.new) }
{
    reading!(alloc, handle: Bytes, |map| {
        give_pair(pair_of(map, Wanted::Below(key)), key_room, key_len, value_room, value_len)
    })
}

/// Copies out the pair with a key, or else the one with the least key above it.
#[unsafe(no_mangle)]
pub extern "C" fn bytes_at_or_after(
    alloc: Global,
    handle: &mut Handle,
    key: &[u8],
    key_room: &mut [u8],
    key_len: &mut usize,
    value_room: &mut [u8],
    value_len: &mut usize,
) -> u32
    ensures { Answers byte_map_in (OnlyReads (IsPairRead (pair_at_or_above key.now)))
        (store_of handle.old) (rooms key_room.old key_len.old value_room.old value_len.old)
        result (store_of handle.new) (rooms key_room.new key_len.new value_room.new value_len.new) }
{
    reading!(alloc, handle: Bytes, |map| {
        give_pair(pair_of(map, Wanted::AtOrAbove(key)), key_room, key_len, value_room, value_len)
    })
}

/// Copies out the pair with a key, or else the one with the greatest key below it.
#[unsafe(no_mangle)]
pub extern "C" fn bytes_at_or_before(
    alloc: Global,
    handle: &mut Handle,
    key: &[u8],
    key_room: &mut [u8],
    key_len: &mut usize,
    value_room: &mut [u8],
    value_len: &mut usize,
) -> u32
    ensures { Answers byte_map_in (OnlyReads (IsPairRead (pair_at_or_below key.now)))
        (store_of handle.old) (rooms key_room.old key_len.old value_room.old value_len.old)
        result (store_of handle.new) (rooms key_room.new key_len.new value_room.new value_len.new) }
{
    reading!(alloc, handle: Bytes, |map| {
        give_pair(pair_of(map, Wanted::AtOrBelow(key)), key_room, key_len, value_room, value_len)
    })
}

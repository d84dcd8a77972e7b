//! The exports of maps of words: pairs that lie next to a key, at an end, or at an end of those with a prefix.
#![tactic(auto, using(crate::proofs::Answered::no_words))]

ghost use Rattle.art_map.specs.Contents.{first_item, last_item};
ghost use Rattle.art_c.specs.Answers.{Answers, OnlyReads};
ghost use Rattle.art_c.specs.Calls.{first_with_prefix, IsLenWordRead, IsPairsWordRead, IsWordPairRead};
ghost use Rattle.art_c.specs.Calls.{last_with_prefix, pair_above, pair_at_or_above, pair_at_or_below};
ghost use Rattle.art_c.specs.Calls.{pair_below, pair_of_front, pair_of_marked_front};
ghost use Rattle.art_c.specs.Copies.{key_room};
ghost use Rattle.art_c.specs.Handles.{store_of, word_map_in};

use crate::calls::reads::{Wanted, pair_of};
use crate::code::Code;
use crate::copies::{give_len_word, give_pairs_word, give_word_pair};
use crate::handle::{Handle, Kind, reading};
use std::alloc::Global;

/// Tells how long the key is that begins a query, or equals it, and its word.
#[unsafe(no_mangle)]
pub extern "C" fn words_find(
    alloc: Global,
    handle: &mut Handle,
    query: &[u8],
    key_len: &mut usize,
    word: &mut u64,
) -> u32
    ensures { Answers word_map_in (OnlyReads (IsLenWordRead (pair_of_front query.now)))
        (store_of handle.old) (key_len.old, word.old)
        result (store_of handle.new) (key_len.new, word.new) }
{
    reading!(alloc, handle: u64, |map| {
        give_len_word(pair_of(map, Wanted::FrontOf(query)), key_len, word)
    })
}

/// Tells how long the longest key is, with the mark at its end, that is some bytes of a query, from its first, and the
/// mark; and its word.
#[unsafe(no_mangle)]
pub extern "C" fn words_find_marked(
    alloc: Global,
    handle: &mut Handle,
    query: &[u8],
    mark: u8,
    key_len: &mut usize,
    word: &mut u64,
) -> u32
    ensures { Answers word_map_in (OnlyReads (IsLenWordRead (pair_of_marked_front query.now mark)))
        (store_of handle.old) (key_len.old, word.old)
        result (store_of handle.new) (key_len.new, word.new) }
{
    reading!(alloc, handle: u64, |map| {
        give_len_word(pair_of(map, Wanted::MarkedFrontOf(query, mark)), key_len, word)
    })
}

/// Copies out the pair with the least key.
#[unsafe(no_mangle)]
pub extern "C" fn words_first(
    alloc: Global,
    handle: &mut Handle,
    room: &mut [u8],
    key_len: &mut usize,
    word: &mut u64,
) -> u32
    ensures { Answers word_map_in (OnlyReads (IsWordPairRead first_item))
        (store_of handle.old) (key_room room.old key_len.old word.old)
        result (store_of handle.new) (key_room room.new key_len.new word.new) }
{
    reading!(alloc, handle: u64, |map| {
        give_word_pair(pair_of(map, Wanted::First), room, key_len, word)
    })
}

/// Copies out the pair with the greatest key.
#[unsafe(no_mangle)]
pub extern "C" fn words_last(
    alloc: Global,
    handle: &mut Handle,
    room: &mut [u8],
    key_len: &mut usize,
    word: &mut u64,
) -> u32
    ensures { Answers word_map_in (OnlyReads (IsWordPairRead last_item))
        (store_of handle.old) (key_room room.old key_len.old word.old)
        result (store_of handle.new) (key_room room.new key_len.new word.new) }
{
    reading!(alloc, handle: u64, |map| {
        give_word_pair(pair_of(map, Wanted::Last), room, key_len, word)
    })
}

/// Copies out the pair with the least key that begins with a prefix.
#[unsafe(no_mangle)]
pub extern "C" fn words_first_with_prefix(
    alloc: Global,
    handle: &mut Handle,
    prefix: &[u8],
    room: &mut [u8],
    key_len: &mut usize,
    word: &mut u64,
) -> u32
    ensures { Answers word_map_in (OnlyReads (IsWordPairRead (first_with_prefix prefix.now)))
        (store_of handle.old) (key_room room.old key_len.old word.old)
        result (store_of handle.new) (key_room room.new key_len.new word.new) }
{
    reading!(alloc, handle: u64, |map| {
        give_word_pair(pair_of(map, Wanted::FirstWithPrefix(prefix)), room, key_len, word)
    })
}

/// Copies out the pair with the greatest key that begins with a prefix.
#[unsafe(no_mangle)]
pub extern "C" fn words_last_with_prefix(
    alloc: Global,
    handle: &mut Handle,
    prefix: &[u8],
    room: &mut [u8],
    key_len: &mut usize,
    word: &mut u64,
) -> u32
    ensures { Answers word_map_in (OnlyReads (IsWordPairRead (last_with_prefix prefix.now)))
        (store_of handle.old) (key_room room.old key_len.old word.old)
        result (store_of handle.new) (key_room room.new key_len.new word.new) }
{
    reading!(alloc, handle: u64, |map| {
        give_word_pair(pair_of(map, Wanted::LastWithPrefix(prefix)), room, key_len, word)
    })
}

/// Copies out the pair with the least key above a key.
#[unsafe(no_mangle)]
pub extern "C" fn words_next(
    alloc: Global,
    handle: &mut Handle,
    key: &[u8],
    room: &mut [u8],
    key_len: &mut usize,
    word: &mut u64,
) -> u32
    ensures { Answers word_map_in (OnlyReads (IsWordPairRead (pair_above key.now)))
        (store_of handle.old) (key_room room.old key_len.old word.old)
        result (store_of handle.new) (key_room room.new key_len.new word.new) }
{
    reading!(alloc, handle: u64, |map| {
        give_word_pair(pair_of(map, Wanted::Above(key)), room, key_len, word)
    })
}

/// Copies out the pair with the greatest key below a key.
#[unsafe(no_mangle)]
pub extern "C" fn words_previous(
    alloc: Global,
    handle: &mut Handle,
    key: &[u8],
    room: &mut [u8],
    key_len: &mut usize,
    word: &mut u64,
) -> u32
    ensures { Answers word_map_in (OnlyReads (IsWordPairRead (pair_below key.now)))
        (store_of handle.old) (key_room room.old key_len.old word.old)
        result (store_of handle.new) (key_room room.new key_len.new word.new) }
{
    reading!(alloc, handle: u64, |map| {
        give_word_pair(pair_of(map, Wanted::Below(key)), room, key_len, word)
    })
}

/// Copies out the pair with a key, or else the one with the least key above it.
#[unsafe(no_mangle)]
pub extern "C" fn words_at_or_after(
    alloc: Global,
    handle: &mut Handle,
    key: &[u8],
    room: &mut [u8],
    key_len: &mut usize,
    word: &mut u64,
) -> u32
    ensures { Answers word_map_in (OnlyReads (IsWordPairRead (pair_at_or_above key.now)))
        (store_of handle.old) (key_room room.old key_len.old word.old)
        result (store_of handle.new) (key_room room.new key_len.new word.new) }
{
    reading!(alloc, handle: u64, |map| {
        give_word_pair(pair_of(map, Wanted::AtOrAbove(key)), room, key_len, word)
    })
}

/// Copies out the pair with a key, or else the one with the greatest key below it.
#[unsafe(no_mangle)]
pub extern "C" fn words_at_or_before(
    alloc: Global,
    handle: &mut Handle,
    key: &[u8],
    room: &mut [u8],
    key_len: &mut usize,
    word: &mut u64,
) -> u32
    ensures { Answers word_map_in (OnlyReads (IsWordPairRead (pair_at_or_below key.now)))
        (store_of handle.old) (key_room room.old key_len.old word.old)
        result (store_of handle.new) (key_room room.new key_len.new word.new) }
{
    reading!(alloc, handle: u64, |map| {
        give_word_pair(pair_of(map, Wanted::AtOrBelow(key)), room, key_len, word)
    })
}

/// Tells the word of the pair with the least key.
#[unsafe(no_mangle)]
pub extern "C" fn words_first_word(alloc: Global, handle: &mut Handle, word: &mut u64) -> u32
    ensures { Answers word_map_in (OnlyReads (IsPairsWordRead first_item)) (store_of handle.old) word.old
        result (store_of handle.new) word.new }
{
    reading!(alloc, handle: u64, |map| give_pairs_word(pair_of(map, Wanted::First), word))
}

/// Tells the word of the pair with the greatest key.
#[unsafe(no_mangle)]
pub extern "C" fn words_last_word(alloc: Global, handle: &mut Handle, word: &mut u64) -> u32
    ensures { Answers word_map_in (OnlyReads (IsPairsWordRead last_item)) (store_of handle.old) word.old
        result (store_of handle.new) word.new }
{
    reading!(alloc, handle: u64, |map| give_pairs_word(pair_of(map, Wanted::Last), word))
}

/// Tells the word of the pair with the least key that begins with a prefix.
#[unsafe(no_mangle)]
pub extern "C" fn words_first_word_with_prefix(
    alloc: Global,
    handle: &mut Handle,
    prefix: &[u8],
    word: &mut u64,
) -> u32
    ensures { Answers word_map_in (OnlyReads (IsPairsWordRead (first_with_prefix prefix.now)))
        (store_of handle.old) word.old result (store_of handle.new) word.new }
{
    reading!(alloc, handle: u64, |map| {
        give_pairs_word(pair_of(map, Wanted::FirstWithPrefix(prefix)), word)
    })
}

/// Tells the word of the pair with the greatest key that begins with a prefix.
#[unsafe(no_mangle)]
pub extern "C" fn words_last_word_with_prefix(
    alloc: Global,
    handle: &mut Handle,
    prefix: &[u8],
    word: &mut u64,
) -> u32
    ensures { Answers word_map_in (OnlyReads (IsPairsWordRead (last_with_prefix prefix.now)))
        (store_of handle.old) word.old result (store_of handle.new) word.new }
{
    reading!(alloc, handle: u64, |map| {
        give_pairs_word(pair_of(map, Wanted::LastWithPrefix(prefix)), word)
    })
}

/// Tells the word of the pair with the least key above a key.
#[unsafe(no_mangle)]
pub extern "C" fn words_next_word(
    alloc: Global,
    handle: &mut Handle,
    key: &[u8],
    word: &mut u64,
) -> u32
    ensures { Answers word_map_in (OnlyReads (IsPairsWordRead (pair_above key.now))) (store_of handle.old) word.old
        result (store_of handle.new) word.new }
{
    reading!(alloc, handle: u64, |map| give_pairs_word(pair_of(map, Wanted::Above(key)), word))
}

/// Tells the word of the pair with the greatest key below a key.
#[unsafe(no_mangle)]
pub extern "C" fn words_previous_word(
    alloc: Global,
    handle: &mut Handle,
    key: &[u8],
    word: &mut u64,
) -> u32
    ensures { Answers word_map_in (OnlyReads (IsPairsWordRead (pair_below key.now))) (store_of handle.old) word.old
        result (store_of handle.new) word.new }
{
    reading!(alloc, handle: u64, |map| give_pairs_word(pair_of(map, Wanted::Below(key)), word))
}

/// Tells the word of the pair with a key, or else of the one with the least key above it.
#[unsafe(no_mangle)]
pub extern "C" fn words_word_at_or_after(
    alloc: Global,
    handle: &mut Handle,
    key: &[u8],
    word: &mut u64,
) -> u32
    ensures { Answers word_map_in (OnlyReads (IsPairsWordRead (pair_at_or_above key.now)))
        (store_of handle.old) word.old result (store_of handle.new) word.new }
{
    reading!(alloc, handle: u64, |map| give_pairs_word(pair_of(map, Wanted::AtOrAbove(key)), word))
}

/// Tells the word of the pair with a key, or else of the one with the greatest key below it.
#[unsafe(no_mangle)]
pub extern "C" fn words_word_at_or_before(
    alloc: Global,
    handle: &mut Handle,
    key: &[u8],
    word: &mut u64,
) -> u32
    ensures { Answers word_map_in (OnlyReads (IsPairsWordRead (pair_at_or_below key.now)))
        (store_of handle.old) word.old result (store_of handle.new) word.new }
{
    reading!(alloc, handle: u64, |map| give_pairs_word(pair_of(map, Wanted::AtOrBelow(key)), word))
}

//! The exports of maps of words: single pairs by their keys.
#![tactic(auto, using(crate::proofs::Answered::no_words))]

ghost use Rattle.std.specs.Prelude.{◌≡◌};
ghost use Rattle.art_c.specs.Answers.{Answers, Changes, OnlyReads};
ghost use Rattle.art_c.specs.Calls.{is_stored, IsWordRead};
ghost use Rattle.art_c.specs.Handles.{pairs_or_none, store_of, word_map_in, word_map_of};
ghost use Rattle.art_c.specs.Puts.{IsWordPopped, IsWordPut, IsWordRemoved};
ghost use Rattle.art_c.specs.Spans.{walk_end};

use crate::calls::{own, reads};
use crate::code::Code;
use crate::copies::give_word;
use crate::handle::{Handle, Kind, keeping, reading};
use art_bytes::SliceKey;
use std::alloc::Global;

/// Puts a pair in, and tells the word that its key had.
#[unsafe(no_mangle)]
pub extern "C" fn words_put(
    alloc: Global,
    handle: &mut Handle,
    key: &[u8],
    word: u64,
    old: &mut u64,
) -> u32
    ensures { Answers word_map_in (Changes (IsWordPut key.now word)) (store_of handle.old) old.old
        result (store_of handle.new) old.new }
{
    keeping!(alloc, handle: u64, |kept| own::put_word(kept, alloc, key, word, old))
}

/// Tells the word of a key.
#[unsafe(no_mangle)]
pub extern "C" fn words_get(alloc: Global, handle: &mut Handle, key: &[u8], word: &mut u64) -> u32
    ensures { Answers word_map_in (OnlyReads (IsWordRead key.now)) (store_of handle.old) word.old
        result (store_of handle.new) word.new }
{
    reading!(alloc, handle: u64, |map| give_word(map.get(&SliceKey(key)), word))
}

/// Whether a pair has the key.
#[unsafe(no_mangle)]
pub extern "C" fn words_contains(alloc: Global, handle: &mut Handle, key: &[u8]) -> bool
    ensures is { result ≡ is_stored key.now (pairs_or_none (word_map_of handle.old)) }
    ensures kept { store_of handle.new ≡ store_of handle.old }
{
    reads::contains::<u64>(alloc, handle, key)
}

/// Takes out the pair with a key, and tells its word.
#[unsafe(no_mangle)]
pub extern "C" fn words_remove(
    alloc: Global,
    handle: &mut Handle,
    key: &[u8],
    word: &mut u64,
) -> u32
    ensures { Answers word_map_in (Changes (IsWordRemoved key.now)) (store_of handle.old) word.old
        result (store_of handle.new) word.new }
{
    keeping!(alloc, handle: u64, |kept| own::remove_word(kept, key, word))
}

/// Takes out the pair with the least key, or the greatest, and tells its word.
#[unsafe(no_mangle)]
pub extern "C" fn words_pop(alloc: Global, handle: &mut Handle, back: bool, word: &mut u64) -> u32
    ensures { Answers word_map_in (Changes (IsWordPopped (walk_end back))) (store_of handle.old) word.old
        result (store_of handle.new) word.new }
{
    keeping!(alloc, handle: u64, |kept| own::pop_word(kept, back, word))
}

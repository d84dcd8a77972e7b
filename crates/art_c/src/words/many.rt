//! The exports of maps of words: many pairs in one call.
#![tactic(auto, using(crate::proofs::Answered::no_words))]

ghost use Rattle.art_c.specs.Answers.{Answers, Changes, OnlyReads};
ghost use Rattle.art_c.specs.Gets.{IsManyGot};
ghost use Rattle.art_c.specs.Handles.{store_of, word_map_in};
ghost use Rattle.art_c.specs.Layouts.{no_text, word_key_len, word_text_len, words_pair};
ghost use Rattle.art_c.specs.Loads.{IsLoadedIn};
ghost use Rattle.art_c.specs.Marked.{AreMarkedTold};
ghost use Rattle.art_c.specs.Prefixes.{IsPrefixTaken};
ghost use Rattle.art_c.specs.Spans.{reach};
ghost use Rattle.art_c.specs.Walks.{IsWalked, IsWordsWalked, many_rooms};

use crate::calls::walks::{self, Span};
use crate::calls::{gets, marked, own};
use crate::code::Code;
use crate::handle::{Handle, Kind, keeping, reading};
use crate::value::WordsPair;
use art_map::RunHint;
use std::alloc::Global;

/// Copies out as many pairs of a span as go in. A hint of where they begin and end changes nothing but the cost.
#[unsafe(no_mangle)]
pub extern "C" fn words_walk(
    alloc: Global,
    handle: &mut Handle,
    back: bool,
    from: u32,
    from_key: &[u8],
    to: u32,
    to_key: &[u8],
    hint: &mut RunHint,
    room: &mut [u8],
    pairs: &mut [WordsPair],
    count: &mut usize,
) -> u32
    ensures { Answers word_map_in (OnlyReads (IsWalked no_text words_pair (reach back from from_key.now to to_key.now)))
        (store_of handle.old) (many_rooms room.old pairs.old count.old)
        result (store_of handle.new) (many_rooms room.new pairs.new count.new) }
{
    let span = Span::new(back, from, from_key, to, to_key);
    reading!(alloc, handle: u64, |map| walks::walk(map, span, hint, room, pairs, count))
}

/// Copies out as many words of a span as there are places. A hint of where they begin and end changes nothing but the
/// cost.
#[unsafe(no_mangle)]
pub extern "C" fn words_walk_words(
    alloc: Global,
    handle: &mut Handle,
    back: bool,
    from: u32,
    from_key: &[u8],
    to: u32,
    to_key: &[u8],
    hint: &mut RunHint,
    words: &mut [u64],
    count: &mut usize,
) -> u32
    ensures { Answers word_map_in (OnlyReads (IsWordsWalked (reach back from from_key.now to to_key.now)))
        (store_of handle.old) (words.old, count.old)
        result (store_of handle.new) (words.new, count.new) }
{
    let span = Span::new(back, from, from_key, to, to_key);
    reading!(alloc, handle: u64, |map| walks::walk_words(map, span, hint, words, count))
}

/// Puts in the pairs of a buffer, whose keys ascend, up to the first that is refused.
#[unsafe(no_mangle)]
pub extern "C" fn words_load(
    alloc: Global,
    handle: &mut Handle,
    keys: &[u8],
    pairs: &[WordsPair],
    taken: &mut usize,
) -> u32
    ensures { Answers word_map_in
        (Changes (IsLoadedIn no_text words_pair word_key_len word_text_len keys.now pairs.now))
        (store_of handle.old) taken.old result (store_of handle.new) taken.new }
{
    keeping!(alloc, handle: u64, |kept| own::load(kept, alloc, keys, pairs, taken))
}

/// Looks many keys up, and tells the words of those that are stored.
#[unsafe(no_mangle)]
pub extern "C" fn words_get_many(
    alloc: Global,
    handle: &mut Handle,
    keys: &[u8],
    pairs: &mut [WordsPair],
    found: &mut [u8],
    looked_up: &mut usize,
) -> u32
    ensures { Answers word_map_in (OnlyReads (IsManyGot keys.now))
        (store_of handle.old) ((pairs.old, found.old), looked_up.old)
        result (store_of handle.new) ((pairs.new, found.new), looked_up.new) }
{
    reading!(alloc, handle: u64, |map| gets::get_many(map, keys, pairs, found, looked_up))
}

/// Takes out the first pairs whose keys begin with a prefix, and tells their words.
#[unsafe(no_mangle)]
pub extern "C" fn words_take_prefix(
    alloc: Global,
    handle: &mut Handle,
    prefix: &[u8],
    words: &mut [u64],
    count: &mut usize,
) -> u32
    ensures { Answers word_map_in (Changes (IsPrefixTaken prefix.now)) (store_of handle.old) (words.old, count.old)
        result (store_of handle.new) (words.new, count.new) }
{
    keeping!(alloc, handle: u64, |kept| own::take_prefix(kept, prefix, words, count))
}

/// Tells the pairs whose keys are some bytes of a query, from its first, and the mark: the longest first, as many as
/// there are places.
#[unsafe(no_mangle)]
pub extern "C" fn words_prefixes(
    alloc: Global,
    handle: &mut Handle,
    query: &[u8],
    mark: u8,
    pairs: &mut [WordsPair],
    count: &mut usize,
) -> u32
    ensures { Answers word_map_in (OnlyReads (AreMarkedTold query.now mark))
        (store_of handle.old) (pairs.old, count.old) result (store_of handle.new) (pairs.new, count.new) }
{
    reading!(alloc, handle: u64, |map| marked::prefixes(map, query, mark, pairs, count))
}

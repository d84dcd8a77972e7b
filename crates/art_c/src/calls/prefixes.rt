//! Pairs whose keys begin with a prefix are taken out, some at a time.
ghost use Rattle.std.specs.Prelude.{◌≡◌};
ghost use Rattle.art_map.specs.Extractions.{left_of, map_of};
ghost use Rattle.art_c.specs.Prefixes.{AreFirstTaken, IsNextWith, IsPrefixTaken, TakingLeavesRoom};

use crate::bytes::Bytes;
use crate::calls::walks::words_code;
use crate::code::Code;
use crate::handle::Map;
use art_bytes::{AsBytes, SliceKey};
use art_map::Extraction;
use std::ops::Bound;

/// Pairs of a map of words that can be taken out.
type Words<'m> = Extraction<'m, Bytes, u64, 16>;

/// Whether there is a next pair, and its key begins with the prefix.
fn is_next_with(pairs: &Words<'_>, prefix: &[u8]) -> bool
    ensures { IsNextWith prefix.now (left_of pairs.now) result }
{
    match pairs.front_key_value() {
        Some((key, _word)) => key.as_bytes().starts_with(prefix),
        None => false,
    }
}

/// Takes pairs out while their keys begin with the prefix and there is a place for the word. Tells their number.
fn take_first(pairs: &mut Words<'_>, prefix: &[u8], words: &mut [u64]) -> (usize, Code)
    ensures same_map { (map_of pairs.new).ghost_name ≡ (map_of pairs.old).ghost_name }
    ensures taken { AreFirstTaken prefix.now (left_of pairs.old) (map_of pairs.old).now.pairs words.old
        result (map_of pairs.new).now.pairs words.new }
    ensures room { TakingLeavesRoom result.0 result.1 (map_of pairs.old).now.nodes (map_of pairs.new).now.nodes }
{
    let mut count = 0;
    while is_next_with(pairs, prefix) {
        if count == words.len() {
            return (count, words_code(count, true));
        }
        match pairs.take_front() {
            Ok((_key, word)) => words[count] = word,
            Err(_) => return (count, Code::NoMemory),
        }
        count += 1;
    }
    (count, words_code(count, false))
}

pub(crate) fn take_prefix(
    map: &mut Map<u64>,
    prefix: &[u8],
    words: &mut [u64],
    count: &mut usize,
) -> Code
    ensures { IsPrefixTaken prefix.now map.old (words.old, count.old)
        result map.new (words.new, count.new) }
{
    // Tells that they ascend.
    let (_nodes, _root) = map.nodes();
    let mut pairs = map.extraction(Bound::Included(&SliceKey(prefix)), Bound::Unbounded);
    let (taken, code) = take_first(&mut pairs, prefix, words);
    *count = taken;
    code
}

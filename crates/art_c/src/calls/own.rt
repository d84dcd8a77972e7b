//! What changes a map, where it is not frozen.
ghost use Rattle.art_c.specs.Answers.{Changes};
ghost use Rattle.art_c.specs.Handles.{state_of};
ghost use Rattle.art_c.specs.Loads.{IsLoadedIn};
ghost use Rattle.art_c.specs.Prefixes.{IsPrefixTaken};
ghost use Rattle.art_c.specs.Puts.{IsBytesPut, IsPrefixRemoved, IsRemoved, IsWordPopped, IsWordPut, IsWordRemoved};
ghost use Rattle.art_c.specs.Spans.{walk_end};

use crate::bytes::Bytes;
use crate::calls::{changes, loads, prefixes};
use crate::code::Code;
use crate::handle::Kept;
use crate::value::Value;
use std::alloc::Global;

pub(crate) fn put_word(
    kept: &mut Kept<u64>,
    alloc: Global,
    key: &[u8],
    word: u64,
    old: &mut u64,
) -> Code
    ensures { Changes (IsWordPut key.now word) (state_of kept.old) old.old result (state_of kept.new) old.new }
{
    match kept {
        Kept::Own(owned) => changes::put_word(&mut owned.map, alloc, key, word, old),
        Kept::Frozen(_) => Code::Frozen,
    }
}

pub(crate) fn put_bytes(kept: &mut Kept<Bytes>, alloc: Global, key: &[u8], value: &[u8]) -> Code
    ensures { Changes (IsBytesPut key.now value.now) (state_of kept.old) tt result (state_of kept.new) tt }
{
    match kept {
        Kept::Own(owned) => changes::put_bytes(&mut owned.map, alloc, key, value),
        Kept::Frozen(_) => Code::Frozen,
    }
}

pub(crate) fn remove_word(kept: &mut Kept<u64>, key: &[u8], word: &mut u64) -> Code
    ensures { Changes (IsWordRemoved key.now) (state_of kept.old) word.old result (state_of kept.new) word.new }
{
    match kept {
        Kept::Own(owned) => changes::remove_word(&mut owned.map, key, word),
        Kept::Frozen(_) => Code::Frozen,
    }
}

pub(crate) fn remove_bytes(kept: &mut Kept<Bytes>, key: &[u8]) -> Code
    ensures { Changes (IsRemoved key.now) (state_of kept.old) tt result (state_of kept.new) tt }
{
    match kept {
        Kept::Own(owned) => changes::remove_bytes(&mut owned.map, key),
        Kept::Frozen(_) => Code::Frozen,
    }
}

pub(crate) fn pop_word(kept: &mut Kept<u64>, back: bool, word: &mut u64) -> Code
    ensures { Changes (IsWordPopped (walk_end back)) (state_of kept.old) word.old result (state_of kept.new) word.new }
{
    match kept {
        Kept::Own(owned) => changes::pop_word(&mut owned.map, back, word),
        Kept::Frozen(_) => Code::Frozen,
    }
}

pub(crate) fn remove_prefix<V: Drop>(kept: &mut Kept<V>, prefix: &[u8], count: &mut usize) -> Code
    ensures { Changes (IsPrefixRemoved prefix.now) (state_of kept.old) count.old
        result (state_of kept.new) count.new }
{
    match kept {
        Kept::Own(owned) => changes::remove_prefix(&mut owned.map, prefix, count),
        Kept::Frozen(_) => Code::Frozen,
    }
}

pub(crate) fn take_prefix(
    kept: &mut Kept<u64>,
    prefix: &[u8],
    words: &mut [u64],
    count: &mut usize,
) -> Code
    ensures { Changes (IsPrefixTaken prefix.now) (state_of kept.old) (words.old, count.old)
        result (state_of kept.new) (words.new, count.new) }
{
    match kept {
        Kept::Own(owned) => prefixes::take_prefix(&mut owned.map, prefix, words, count),
        Kept::Frozen(_) => Code::Frozen,
    }
}

pub(crate) fn load<V: Value>(
    kept: &mut Kept<V>,
    alloc: Global,
    bytes: &[u8],
    items: &[V::Item],
    taken: &mut usize,
) -> Code
    ensures { Changes (IsLoadedIn V.text_of V.item_of V.key_len_of V.text_len_of bytes.now items.now)
        (state_of kept.old) taken.old result (state_of kept.new) taken.new }
{
    match kept {
        Kept::Own(owned) => loads::load(&mut owned.map, alloc, bytes, items, taken),
        Kept::Frozen(_) => Code::Frozen,
    }
}

//! Pairs are put in and taken out.
ghost use Rattle.std.specs.Prelude.{◌≡◌, [], None, IfErr, IfOk, MatchResult, OnErr};
ghost use Rattle.art_arena.specs.arena.Arena.{HasRoom, KeepsRoomOf};
ghost use Rattle.art_operations.specs.Pairs.{CanPut, with_pair_put};
ghost use Rattle.art_c.specs.Calls.{GoesIn, IsPutRefused, stored_value, whole};
ghost use Rattle.art_c.specs.NodeRoom.{NeedsMemory, PutLeavesRoom};
ghost use Rattle.art_c.specs.Placed.{IsLong};
ghost use Rattle.art_c.specs.Puts.{IsBytesPut, IsEndTaken, IsPrefixRemoved, IsRemoved, IsWordPopped, IsWordPut};
ghost use Rattle.art_c.specs.Puts.{IsWordRemoved};
ghost use Rattle.art_c.specs.Spans.{walk_end};
ghost use Rattle.art_c.specs.declared.code.Code.TheVariants.{NoMemory};

use crate::bytes::Bytes;
use crate::code::Code;
use crate::handle::Map;
use crate::value::{BytesPair, Value, WordsPair};
use art_bytes::SliceKey;
use art_operations::InsertPoint;
use std::alloc::{AllocError, Global};

/// Puts in the value that is told so. Returns the value that the key had. All memory is taken before anything is
/// changed, and none where there is a conflict. For a key that is stored none is taken but the value's.
#[tactic(auto, using(crate::proofs::Lookups::put_stored))]
pub(super) fn put<V: Value>(
    map: &mut Map<V>,
    alloc: Global,
    key: &[u8],
    item: V::Item,
    text: &[u8],
) -> Result<Option<V>, Code>
    ensures put { MatchResult result
        (λ was. GoesIn key.now (V.value_of item text.now) map.old.pairs was map.new.pairs)
        (λ code. IsPutRefused key.now map.old.pairs code map.new.pairs) }
    ensures room { MatchResult result
        (λ was. PutLeavesRoom was map.old map.new) (λ code. KeepsRoomOf map.old.nodes map.new.nodes) }
    ensures memory { IfErr result (λ code. code ≡ NoMemory → NeedsMemory key.now text.now map.old) }
{
    let Ok(place) = map.find_place(&SliceKey(key)) else {
        return Err(Code::Conflict);
    };
    let Ok(value) = V::made(alloc, item, text) else {
        return Err(Code::NoMemory);
    };
    match map.replace_at(&place, value) {
        Ok(was) => {
            // Tells that the pairs ascend.
            let (_nodes, _root) = map.nodes();
            Ok(Some(was))
        }
        Err(value) => put_new(map, alloc, place, key, value),
    }
}

/// Puts in a pair at the place that was found for its key.
#[tactic(auto, using(crate::proofs::Lookups::put_copy))]
fn put_new<V: Value>(
    map: &mut Map<V>,
    alloc: Global,
    place: Option<InsertPoint>,
    key: &[u8],
    value: V,
) -> Result<Option<V>, Code>
    requires place { CanPut whole 16 map.old.nodes place key.now map.old.pairs [] }
    requires new { stored_value key.now map.old.pairs ≡ None }
    ensures put { IfOk result (λ was. (was ≡ stored_value key.now map.old.pairs)
        × (map.new.pairs ≡ with_pair_put whole key.now value map.old.pairs)) }
    ensures refused { IfErr result (λ code. (code ≡ NoMemory) × (map.new.pairs ≡ map.old.pairs)) }
    ensures room { MatchResult result
        (λ was. PutLeavesRoom was map.old map.new) (λ code. KeepsRoomOf map.old.nodes map.new.nodes) }
    ensures long { OnErr result (HasRoom map.old.nodes 2 → IsLong key.now) }
{
    let Ok(key) = Bytes::copied(alloc, key) else {
        return Err(Code::NoMemory);
    };
    match map.insert_at(place, key, value) {
        Ok(was) => Ok(was),
        Err(_) => Err(Code::NoMemory),
    }
}

pub(crate) fn put_word(
    map: &mut Map<u64>,
    alloc: Global,
    key: &[u8],
    word: u64,
    old: &mut u64,
) -> Code
    ensures { IsWordPut key.now word map.old old.old result map.new old.new }
{
    let item = WordsPair {
        key_len: key.len(),
        word,
    };
    match put(map, alloc, key, item, &[]) {
        Ok(None) => Code::Done,
        Ok(Some(was)) => {
            *old = was;
            Code::Replaced
        }
        Err(code) => code,
    }
}

pub(crate) fn put_bytes(map: &mut Map<Bytes>, alloc: Global, key: &[u8], value: &[u8]) -> Code
    ensures { IsBytesPut key.now value.now map.old tt result map.new tt }
{
    let item = BytesPair {
        key_len: key.len(),
        value_len: value.len(),
    };
    match put(map, alloc, key, item, value) {
        Ok(None) => Code::Done,
        Ok(Some(_was)) => Code::Replaced,
        Err(code) => code,
    }
}

pub(crate) fn remove_word(map: &mut Map<u64>, key: &[u8], word: &mut u64) -> Code
    ensures { IsWordRemoved key.now map.old word.old result map.new word.new }
{
    match map.remove(&SliceKey(key)) {
        Ok(Some(was)) => {
            *word = was;
            Code::Done
        }
        Ok(None) => Code::NotFound,
        Err(_) => Code::NoMemory,
    }
}

/// Takes out the pair at an end.
fn take_end(map: &mut Map<u64>, back: bool) -> Result<Option<(Bytes, u64)>, AllocError>
    ensures { IsEndTaken (walk_end back) map.old result map.new }
{
    if back {
        map.pop_last()
    } else {
        map.pop_first()
    }
}

pub(crate) fn pop_word(map: &mut Map<u64>, back: bool, word: &mut u64) -> Code
    ensures { IsWordPopped (walk_end back) map.old word.old result map.new word.new }
{
    match take_end(map, back) {
        Ok(Some((_key, taken))) => {
            *word = taken;
            Code::Done
        }
        Ok(None) => Code::NotFound,
        Err(_) => Code::NoMemory,
    }
}

pub(crate) fn remove_bytes(map: &mut Map<Bytes>, key: &[u8]) -> Code
    ensures { IsRemoved key.now map.old tt result map.new tt }
{
    match map.remove(&SliceKey(key)) {
        Ok(Some(_was)) => Code::Done,
        Ok(None) => Code::NotFound,
        Err(_) => Code::NoMemory,
    }
}

pub(crate) fn remove_prefix<V: Drop>(map: &mut Map<V>, prefix: &[u8], count: &mut usize) -> Code
    ensures { IsPrefixRemoved prefix.now map.old count.old result map.new count.new }
{
    match map.remove_prefix(prefix) {
        Ok(removed) => {
            *count = removed.pairs;
            Code::Done
        }
        Err(_) => Code::NoMemory,
    }
}

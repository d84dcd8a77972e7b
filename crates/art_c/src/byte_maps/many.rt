//! The exports of maps of bytes: many pairs in one call.
#![tactic(auto, using(crate::proofs::Answered::no_bytes))]

ghost use Rattle.art_c.specs.Answers.{Answers, Changes, OnlyReads};
ghost use Rattle.art_c.specs.Calls.{whole};
ghost use Rattle.art_c.specs.Handles.{byte_map_in, store_of};
ghost use Rattle.art_c.specs.Layouts.{bytes_key_len, bytes_pair, bytes_text_len};
ghost use Rattle.art_c.specs.Loads.{IsLoadedIn};
ghost use Rattle.art_c.specs.Spans.{reach};
ghost use Rattle.art_c.specs.Walks.{IsWalked, many_rooms};

use crate::bytes::Bytes;
use crate::calls::own;
use crate::calls::walks::{self, Span};
use crate::code::Code;
use crate::handle::{Handle, Kind, keeping, reading};
use crate::value::BytesPair;
use art_map::RunHint;
use std::alloc::Global;

/// Copies out as many pairs of a span as go in.
#[unsafe(no_mangle)]
pub extern "C" fn bytes_walk(
    alloc: Global,
    handle: &mut Handle,
    back: bool,
    from: u32,
    from_key: &[u8],
    to: u32,
    to_key: &[u8],
    room: &mut [u8],
    pairs: &mut [BytesPair],
    count: &mut usize,
) -> u32
    ensures { Answers byte_map_in (OnlyReads (IsWalked whole bytes_pair (reach back from from_key.now to to_key.now)))
        (store_of handle.old) (many_rooms room.old pairs.old count.old)
        result (store_of handle.new) (many_rooms room.new pairs.new count.new) }
{
    let span = Span::new(back, from, from_key, to, to_key);
    let mut hint = RunHint::default();
    reading!(alloc, handle: Bytes, |map| walks::walk(map, span, &mut hint, room, pairs, count))
}

/// Puts in the pairs of a buffer, whose keys ascend, up to the first that is refused.
#[unsafe(no_mangle)]
pub extern "C" fn bytes_load(
    alloc: Global,
    handle: &mut Handle,
    bytes: &[u8],
    pairs: &[BytesPair],
    taken: &mut usize,
) -> u32
    ensures { Answers byte_map_in
        (Changes (IsLoadedIn whole bytes_pair bytes_key_len bytes_text_len bytes.now pairs.now))
        (store_of handle.old) taken.old result (store_of handle.new) taken.new }
{
    keeping!(alloc, handle: Bytes, |kept| own::load(kept, alloc, bytes, pairs, taken))
}

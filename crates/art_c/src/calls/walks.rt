//! Many pairs are copied out in order.
ghost use Rattle.std.specs.Prelude.{◌≡◌, ◌==◌, ◌+◌, ◌≤◌, ◌↔◌, IsTrue, length, MatchOption, not, option_map};
ghost use Rattle.std.specs.Map.Iter.{deref_pair};
ghost use Rattle.std.specs.Range.Bound.{bound_map};
ghost use Rattle.art_map.specs.Ranges.{pairs_between};
ghost use Rattle.art_walks.specs.Bounds.{AreValidKeyBounds};
ghost use Rattle.art_c.specs.Calls.{whole};
ghost use Rattle.art_c.specs.Spans.{bound_of, goes_on, is_block, IsForward, met_of, reach, reach_of, reached_in};
ghost use Rattle.art_c.specs.Spans.{stop_of};
ghost use Rattle.art_c.specs.Walks.{AreTaken, AreWordsTaken, IsWalked, IsWordsWalked, many_rooms, TakesNext};
ghost use Rattle.art_c.specs.Walks.{words_code};

use crate::bytes::Bytes;
use crate::code::Code;
use crate::handle::Map;
use crate::many::{tell_first, write_pair};
use crate::value::Value;
use art_arena::End;
use art_bytes::{AsBytes, SliceKey};
use art_map::{LeafRun, RunHint};
use art_walks::bounds_are_valid;
use std::ops::Bound;

/// Pairs of a map that are still to come.
type Pairs<'m, V> = LeafRun<'m, Bytes, V, 16>;

/// Which pairs a walk meets, as `artmap_span` has it: from which end, where it begins and where it ends.
#[derive(Clone, Copy)]
pub(crate) struct Span<'a> {
    end: End,
    from: u32,
    from_key: &'a [u8],
    to: u32,
    to_key: &'a [u8],
}

impl<'a> Span<'a> {
    pub(crate) fn new(
        back: bool,
        from: u32,
        from_key: &'a [u8],
        to: u32,
        to_key: &'a [u8],
    ) -> Span<'a>
        ensures { reach_of result ≡ reach back from from_key.now to to_key.now }
    {
        let end = if back { End::Last } else { End::First };
        Span {
            end,
            from,
            from_key,
            to,
            to_key,
        }
    }
}

/// Where a walk begins, by its number in `bindings/c/artmap.h`.
fn bound_of<'a, 'k>(from: u32, key: &'a SliceKey<'k>) -> Bound<&'a SliceKey<'k>>
    ensures { bound_map (λ it. it.now.0.now) result ≡ bound_of from key.now.0.now }
{
    match from {
        0 => Bound::Unbounded,
        1 => Bound::Included(key),
        _ => Bound::Excluded(key),
    }
}

/// Where a walk ends, by its number there. With a prefix its bound is none.
fn stop_of<'a, 'k>(to: u32, key: &'a SliceKey<'k>) -> Bound<&'a SliceKey<'k>>
    ensures { bound_map (λ it. it.now.0.now) result ≡ stop_of to key.now.0.now }
{
    match to {
        1 => Bound::Included(key),
        2 => Bound::Excluded(key),
        _ => Bound::Unbounded,
    }
}

/// Whether a walk begins at an end, of the keys with a prefix alone.
fn is_block(from: u32, to: u32) -> bool
    ensures { result ≡ is_block from to }
{
    match (from, to) {
        (0, 0..=2) => false,
        (0, _) => true,
        _ => false,
    }
}

/// The pairs between two bounds, or nothing where these are not valid.
fn between<'m, V>(
    map: &'m Map<V>,
    start: Bound<&SliceKey<'_>>,
    end: Bound<&SliceKey<'_>>,
    hint: RunHint,
) -> Option<Pairs<'m, V>>
    ensures { let lower = bound_map (λ it. it.now.0.now) start.entry in
        let upper = bound_map (λ it. it.now.0.now) end.entry in
        MatchOption result (AreValidKeyBounds lower upper → ⊥)
        (λ it. AreValidKeyBounds lower upper × (it ≡ pairs_between whole lower upper map.now.pairs)) }
{
    if bounds_are_valid(start, end) {
        Some(map.range_run(start, end, hint))
    } else {
        None
    }
}

/// The pairs of a span, but for where its prefix ends it, or nothing where it ends before it begins.
fn reached_in<'m, V>(map: &'m Map<V>, span: Span<'_>, hint: RunHint) -> Option<Pairs<'m, V>>
    ensures { MatchOption result (IsForward (reach_of span.entry) → ⊥)
        (λ it. IsForward (reach_of span.entry) × (it ≡ reached_in (reach_of span.entry) map.now.pairs)) }
{
    let (from_key, to_key) = (SliceKey(span.from_key), SliceKey(span.to_key));
    if is_block(span.from, span.to) {
        return Some(map.prefix_run(&to_key));
    }
    let (from, to) = (bound_of(span.from, &from_key), stop_of(span.to, &to_key));
    match span.end {
        End::First => between(map, from, to, hint),
        End::Last => between(map, to, from, hint),
    }
}

/// Whether a walk goes on to a key: not where it is to have a prefix and does not.
fn goes_on(to: u32, prefix: &[u8], key: &[u8]) -> bool
    ensures { result ≡ goes_on to prefix.now key.now }
{
    match to {
        0..=2 => true,
        _ => key.starts_with(prefix),
    }
}

/// The next pair of a walk, if it goes on.
#[inline(always)]
fn next_pair<'m, V>(pairs: &mut Pairs<'m, V>, span: Span<'_>) -> Option<(&'m Bytes, &'m V)>
    ensures { TakesNext (reach_of span.entry) pairs.old (option_map deref_pair result) pairs.new }
{
    let next = match span.end {
        End::First => pairs.next(),
        End::Last => pairs.next_back(),
    };
    let (key, value) = next?;
    if goes_on(span.to, span.to_key, key.as_bytes()) {
        Some((key, value))
    } else {
        None
    }
}

/// Whether a pair goes into so many bytes.
fn fits(key: &[u8], text: &[u8], room: usize) -> bool
    ensures { IsTrue result ↔ (length key.now + length text.now ≤ room) }
{
    key.len() <= room && text.len() <= room - key.len()
}

/// Copies pairs out while they go in. Tells their number, and the pair that does not go in, if there is one: it is the
/// one that was taken last.
fn copy_out<'m, V: Value>(
    pairs: &mut Pairs<'m, V>,
    span: Span<'_>,
    room: &mut [u8],
    items: &mut [V::Item],
) -> (usize, Option<(&'m Bytes, &'m V)>)
    ensures { AreTaken V.text_of V.item_of (met_of (reach_of span.entry) pairs.old) (many_rooms room.old items.old 0)
        (option_map deref_pair result.1) (many_rooms room.new items.new result.0) }
{
    let (mut at, mut count) = (0, 0);
    while let Some((key, value)) = next_pair(pairs, span) {
        let (key_bytes, text) = (key.as_bytes(), value.text());
        if count == items.len() || !fits(key_bytes, text, room.len() - at) {
            return (count, Some((key, value)));
        }
        write_pair(key_bytes, text, at, room);
        items[count] = value.item(key_bytes);
        at += key_bytes.len() + text.len();
        count += 1;
    }
    (count, None)
}

/// Whether a walk goes on to another pair. Without a prefix no leaf is read for that.
#[inline(always)]
fn goes_further<V>(pairs: &mut Pairs<'_, V>, span: Span<'_>) -> bool
    ensures { result ≡ not (length (met_of (reach_of span.entry) pairs.old) == 0) }
{
    if span.to <= 2 {
        return !pairs.is_empty();
    }
    match next_pair(pairs, span) {
        Some(_pair) => true,
        None => false,
    }
}

/// Copies words out while there is a place. Tells their number, and whether another is left.
fn words_out(pairs: &mut Pairs<'_, u64>, span: Span<'_>, words: &mut [u64]) -> (usize, bool)
    ensures { AreWordsTaken (met_of (reach_of span.entry) pairs.old) words.old result.0 result.1 words.new }
{
    let mut count = 0;
    while count < words.len() {
        match next_pair(pairs, span) {
            Some((_key, word)) => words[count] = *word,
            None => return (count, false),
        }
        count += 1;
    }
    (count, goes_further(pairs, span))
}

pub(crate) fn walk<V: Value>(
    map: &Map<V>,
    span: Span<'_>,
    hint: &mut RunHint,
    room: &mut [u8],
    items: &mut [V::Item],
    count: &mut usize,
) -> Code
    ensures { IsWalked V.text_of V.item_of (reach_of span.entry) map.now.pairs (many_rooms room.old items.old count.old)
        result (many_rooms room.new items.new count.new) }
{
    let Some(mut pairs) = reached_in(map, span, *hint) else {
        *count = 0;
        return Code::NotFound;
    };
    let (copied, other) = copy_out(&mut pairs, span, room, items);
    *hint = pairs.hint();
    *count = copied;
    match other {
        None => {
            if copied == 0 {
                Code::NotFound
            } else {
                Code::Done
            }
        }
        Some((key, value)) => {
            if copied != 0 {
                return Code::More;
            }
            tell_first(value.item(key.as_bytes()), items);
            Code::NoRoom
        }
    }
}

/// What is answered of so many words.
pub(super) fn words_code(count: usize, is_more: bool) -> Code
    ensures { result ≡ words_code count is_more }
{
    match (count, is_more) {
        (0, false) => Code::NotFound,
        (0, true) => Code::NoRoom,
        (_, false) => Code::Done,
        (_, true) => Code::More,
    }
}

pub(crate) fn walk_words(
    map: &Map<u64>,
    span: Span<'_>,
    hint: &mut RunHint,
    words: &mut [u64],
    count: &mut usize,
) -> Code
    ensures { IsWordsWalked (reach_of span.entry) map.now.pairs (words.old, count.old) result (words.new, count.new) }
{
    let Some(mut pairs) = reached_in(map, span, *hint) else {
        *count = 0;
        return Code::NotFound;
    };
    let (copied, is_more) = words_out(&mut pairs, span, words);
    *hint = pairs.hint();
    *count = copied;
    words_code(copied, is_more)
}

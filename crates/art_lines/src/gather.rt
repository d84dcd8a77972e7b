//! Lines that are gathered in a room, and leave in few pieces.
ghost use Rattle.std.specs.Prelude.{◌≡◌, ◌<◌, ◌≤◌, ◌∷◌, [], ◌++◌, length, take, drop, false, is_err, IfOk, OnErr};
ghost use Rattle.art_lines.specs.Words.{line_of, name, bytes};
ghost use Rattle.art_lines.specs.ReplyWords.{pair_words, number_words, end_words};
ghost use Rattle.art_lines.specs.Writes.{IsCut, Writes};
ghost use Rattle.art_lines.specs.Gathered.{IsPartTaken};

use crate::command::LINE_ROOM;
use crate::reply::{write_long, write_pair, write_piece};
use crate::room::{put_found, put_number, put_pair, put_text};
use crate::stream::{Sink, WriteFailed};
use itoa::Buffer;

/// The bytes of lines that are gathered before they are written, at most, where all records are told.
pub const ROOM: usize = 8192;

/// The bytes of a tenant, which stand before those of its keys.
const TENANT_LEN: usize = 4;

/// The longest line that ends a list.
const END: usize = 25;

/// Writes what is gathered if it is more than so many bytes, and returns how much is gathered then.
#[inline]
fn flush_above<W: Sink>(
    sink: &mut W,
    room: &[u8],
    held: usize,
    most: usize,
) -> Result<usize, WriteFailed>
    requires open { W.has_failed sink.old ≡ false }
    requires held { held ≤ length room.now }
    ensures fits { IfOk result (λ left. left ≤ most) }
    ensures taken { IfOk result (λ left.
        IsPartTaken (W.taken sink.old) (W.taken sink.new) (take left room.now) (take held room.now)) }
    ensures cut { OnErr result (IsCut (W.taken sink.old) (W.taken sink.new) (take held room.now)) }
    ensures failed { is_err result ≡ W.has_failed sink.new }
{
    if held <= most {
        return Ok(held);
    }
    write_piece(sink, &room[..held])?;
    Ok(0)
}

/// Writes what is gathered if no line and a byte fit after it, and returns how much is gathered then.
#[inline]
pub fn reserve_line<W: Sink>(sink: &mut W, room: &[u8], held: usize) -> Result<usize, WriteFailed>
    requires open { W.has_failed sink.old ≡ false }
    requires held { held ≤ length room.now }
    ensures fits { IfOk result (λ left. left ≤ 4094) }
    ensures taken { IfOk result (λ left.
        IsPartTaken (W.taken sink.old) (W.taken sink.new) (take left room.now) (take held room.now)) }
    ensures cut { OnErr result (IsCut (W.taken sink.old) (W.taken sink.new) (take held room.now)) }
    ensures failed { is_err result ≡ W.has_failed sink.new }
{
    flush_above(sink, room, held, ROOM - LINE_ROOM - 1)
}

/// Returns the key that stands after the tenant in a full key.
#[inline]
pub fn key_of(full: &[u8]) -> &[u8]
    requires { 4 ≤ length full.now }
    ensures { result.now ≡ drop 4 full.now }
{
    &full[TENANT_LEN..]
}

/// How many bytes the line of a pair takes, or up to two more.
#[inline]
fn length_of_pair(key: &[u8], value: &[u8]) -> usize
    requires { length (line_of (pair_words (key.now, value.now))) ≤ 4097 }
    ensures most { length (line_of (pair_words (key.now, value.now))) ≤ result }
    ensures few { result ≤ 4099 }
{
    2 * (key.len() + value.len()) + 4
}

/// How many bytes the line of a word and bytes takes, or up to two more.
#[inline]
fn length_of_found(word: &[u8], value: &[u8]) -> usize
    requires { length (line_of (name word.now ∷ bytes value.now ∷ [])) ≤ 4097 }
    ensures most { length (line_of (name word.now ∷ bytes value.now ∷ [])) ≤ result }
    ensures few { result ≤ 4099 }
{
    word.len() + 2 * value.len() + 3
}

/// Gathers the line of a pair under a full key: its key without the tenant, and its value. Returns how much is gathered
/// then. A byte at least is left of the room. What doesn't fit is written before, and a line that never fits alone.
#[inline]
pub fn gather_pair<W: Sink>(
    sink: &mut W,
    room: &mut [u8],
    held: usize,
    full: &[u8],
    value: &[u8],
) -> Result<usize, WriteFailed>
    requires open { W.has_failed sink.old ≡ false }
    requires held { held < length room.old }
    requires front { 4 ≤ length full.now }
    requires line { length (line_of (pair_words (drop 4 full.now, value.now))) ≤ 4097 }
    ensures fits { IfOk result (λ next. next < length room.new) }
    ensures taken { IfOk result (λ next. IsPartTaken (W.taken sink.old) (W.taken sink.new) (take next room.new)
        (take held room.old ++ line_of (pair_words (drop 4 full.now, value.now)))) }
    ensures cut { OnErr result (IsCut (W.taken sink.old) (W.taken sink.new)
        (take held room.old ++ line_of (pair_words (drop 4 full.now, value.now)))) }
    ensures failed { is_err result ≡ W.has_failed sink.new }
{
    gather_key_and_value(sink, room, held, key_of(full), value)
}

/// Gathers the line of a key and a value, as `gather_pair` does that of a pair under a full key.
#[inline]
fn gather_key_and_value<W: Sink>(
    sink: &mut W,
    room: &mut [u8],
    held: usize,
    key: &[u8],
    value: &[u8],
) -> Result<usize, WriteFailed>
    requires open { W.has_failed sink.old ≡ false }
    requires held { held < length room.old }
    requires line { length (line_of (pair_words (key.now, value.now))) ≤ 4097 }
    ensures fits { IfOk result (λ next. next < length room.new) }
    ensures taken { IfOk result (λ next. IsPartTaken (W.taken sink.old) (W.taken sink.new) (take next room.new)
        (take held room.old ++ line_of (pair_words (key.now, value.now)))) }
    ensures cut { OnErr result (IsCut (W.taken sink.old) (W.taken sink.new)
        (take held room.old ++ line_of (pair_words (key.now, value.now)))) }
    ensures failed { is_err result ≡ W.has_failed sink.new }
{
    let len = length_of_pair(key, value);
    let at = flush_above(sink, room, held, room.len().saturating_sub(len + 1))?;
    if at + len < room.len() {
        let next = put_pair(room, at, key, value);
        return Ok(next);
    }
    write_pair(sink, key, value)?;
    Ok(0)
}

/// Gathers the line of a number and its value, as `gather_pair` does that of a pair.
#[inline]
pub fn gather_number<W: Sink>(
    sink: &mut W,
    room: &mut [u8],
    held: usize,
    number: i64,
    value: &[u8],
) -> Result<usize, WriteFailed>
    requires open { W.has_failed sink.old ≡ false }
    requires held { held < length room.old }
    requires line { length (line_of (number_words (number, value.now))) ≤ 4097 }
    ensures fits { IfOk result (λ next. next < length room.new) }
    ensures taken { IfOk result (λ next. IsPartTaken (W.taken sink.old) (W.taken sink.new) (take next room.new)
        (take held room.old ++ line_of (number_words (number, value.now)))) }
    ensures cut { OnErr result (IsCut (W.taken sink.old) (W.taken sink.new)
        (take held room.old ++ line_of (number_words (number, value.now)))) }
    ensures failed { is_err result ≡ W.has_failed sink.new }
{
    let mut digits = Buffer::new();
    let text = digits.format(number).as_bytes();
    gather_found(sink, room, held, text, value)
}

/// Gathers the line of a word and bytes, as `gather_pair` does that of a pair.
#[inline]
fn gather_found<W: Sink>(
    sink: &mut W,
    room: &mut [u8],
    held: usize,
    word: &[u8],
    value: &[u8],
) -> Result<usize, WriteFailed>
    requires open { W.has_failed sink.old ≡ false }
    requires held { held < length room.old }
    requires line { length (line_of (name word.now ∷ bytes value.now ∷ [])) ≤ 4097 }
    ensures fits { IfOk result (λ next. next < length room.new) }
    ensures taken { IfOk result (λ next. IsPartTaken (W.taken sink.old) (W.taken sink.new) (take next room.new)
        (take held room.old ++ line_of (name word.now ∷ bytes value.now ∷ []))) }
    ensures cut { OnErr result (IsCut (W.taken sink.old) (W.taken sink.new)
        (take held room.old ++ line_of (name word.now ∷ bytes value.now ∷ []))) }
    ensures failed { is_err result ≡ W.has_failed sink.new }
{
    let len = length_of_found(word, value);
    let at = flush_above(sink, room, held, room.len().saturating_sub(len + 1))?;
    if at + len < room.len() {
        let next = put_found(room, at, word, value);
        return Ok(next);
    }
    write_long(sink, word, value)?;
    Ok(0)
}

/// Writes what is gathered, and after it the line that ends a list of so many.
pub fn write_end<W: Sink>(
    sink: &mut W,
    room: &mut [u8],
    held: usize,
    count: usize,
) -> Result<(), WriteFailed>
    requires open { W.has_failed sink.old ≡ false }
    requires held { held ≤ length room.old }
    requires room { 25 ≤ length room.old }
    ensures { Writes result (W.taken sink.old) (W.taken sink.new) (take held room.old ++ line_of (end_words count))
        (W.has_failed sink.new) }
{
    let at = flush_above(sink, room, held, room.len() - END)?;
    let number = put_text(room, at, b"end ");
    let newline = put_number(room, number, count as u64);
    let end = put_text(room, newline, b"\n");
    write_piece(sink, &room[..end])
}

//! Replies, written to a sink.
ghost use Rattle.std.specs.Prelude.{◌≡◌, ◌+◌, ◌<◌, ◌≤◌, ◌∷◌, ◌++◌, [], length, false, codes, decimal, option_map};
ghost use Rattle.std.specs.Prelude.{Some, IfSome};
ghost use Rattle.hex.specs.Hex.{encode_lower};
ghost use Rattle.art_lines.specs.Words.{shown, line_of, name, natural, bytes};
ghost use Rattle.art_lines.specs.ReplyWords.{found_or, end_words, pair_words, find_reply};
ghost use Rattle.art_lines.specs.Writes.{Writes};

use crate::command::LINE_ROOM;
use crate::room::{put_found, put_pair, put_text};
use crate::stream::{Sink, WriteFailed};
use itoa::Buffer;

/// The bytes that are encoded at a time.
const PART: usize = 64;

/// Room for the line of a word of four letters and so many bytes.
const SHORT: usize = 136;

/// Writes the whole piece, by as many writes as it takes.
pub fn write_piece<W: Sink>(sink: &mut W, piece: &[u8]) -> Result<(), WriteFailed>
    requires { W.has_failed sink.old ≡ false }
    ensures { Writes result (W.taken sink.old) (W.taken sink.new) piece.now (W.has_failed sink.new) }
{
    let mut rest = piece;
    while !rest.is_empty() {
        let n = sink.write(rest)?;
        rest = &rest[n..];
    }
    Ok(())
}

/// Writes a few bytes as lower case digits.
fn write_part<W: Sink>(sink: &mut W, part: &[u8]) -> Result<(), WriteFailed>
    requires open { W.has_failed sink.old ≡ false }
    requires few { length part.now ≤ 64 }
    ensures { Writes result (W.taken sink.old) (W.taken sink.new) (encode_lower part.now) (W.has_failed sink.new) }
{
    let mut digits = [0; 2 * PART];
    let text = &mut digits[..2 * part.len()];
    let _ = hex::encode_to_slice(part, text);
    write_piece(sink, text)
}

/// Writes bytes as lower case digits, or `-` for none.
pub fn write_bytes<W: Sink>(sink: &mut W, value: &[u8]) -> Result<(), WriteFailed>
    requires { W.has_failed sink.old ≡ false }
    ensures { Writes result (W.taken sink.old) (W.taken sink.new) (shown (bytes value.now)) (W.has_failed sink.new) }
{
    if value.is_empty() {
        return write_piece(sink, b"-");
    }
    let mut rest = value;
    while !rest.is_empty() {
        let (part, after) = rest.split_at(rest.len().min(PART));
        write_part(sink, part)?;
        rest = after;
    }
    Ok(())
}

/// Writes a number in digits.
pub fn write_number<W: Sink>(sink: &mut W, number: u64) -> Result<(), WriteFailed>
    requires { W.has_failed sink.old ≡ false }
    ensures { Writes result (W.taken sink.old) (W.taken sink.new) (decimal number) (W.has_failed sink.new) }
{
    let mut digits = Buffer::new();
    write_piece(sink, digits.format(number).as_bytes())
}

/// Writes a wide number in digits.
fn write_wide<W: Sink>(sink: &mut W, number: u128) -> Result<(), WriteFailed>
    requires { W.has_failed sink.old ≡ false }
    ensures { Writes result (W.taken sink.old) (W.taken sink.new) (decimal number) (W.has_failed sink.new) }
{
    let mut digits = Buffer::new();
    write_piece(sink, digits.format(number).as_bytes())
}

/// Writes a line of a word and bytes. It leaves in one piece if the bytes are few.
#[inline(never)]
pub fn write_found<W: Sink, const N: usize>(
    sink: &mut W,
    word: &[u8; N],
    value: &[u8],
) -> Result<(), WriteFailed>
    requires open { W.has_failed sink.old ≡ false }
    requires short { length word.now ≤ 4 }
    ensures { Writes result (W.taken sink.old) (W.taken sink.new)
        (line_of (name word.now ∷ bytes value.now ∷ []))
        (W.has_failed sink.new) }
{
    if value.len() > PART {
        return write_long(sink, word, value);
    }
    let mut room = [0; SHORT];
    let len = put_found(&mut room, 0, word, value);
    write_piece(sink, &room[..len])
}

/// Writes a space, bytes and a newline, in pieces.
fn write_last_field<W: Sink>(sink: &mut W, value: &[u8]) -> Result<(), WriteFailed>
    requires { W.has_failed sink.old ≡ false }
    ensures { Writes result (W.taken sink.old) (W.taken sink.new)
        (32 ∷ [] ++ (shown (bytes value.now) ++ 10 ∷ []))
        (W.has_failed sink.new) }
{
    write_piece(sink, b" ")?;
    write_bytes(sink, value)?;
    write_piece(sink, b"\n")
}

/// Writes a line of a word and bytes in pieces.
pub(crate) fn write_long<W: Sink>(
    sink: &mut W,
    word: &[u8],
    value: &[u8],
) -> Result<(), WriteFailed>
    requires { W.has_failed sink.old ≡ false }
    ensures { Writes result (W.taken sink.old) (W.taken sink.new)
        (line_of (name word.now ∷ bytes value.now ∷ []))
        (W.has_failed sink.new) }
{
    write_piece(sink, word)?;
    write_last_field(sink, value)
}

/// Writes a line of two lots of bytes in pieces.
pub(crate) fn write_pair<W: Sink>(sink: &mut W, key: &[u8], value: &[u8]) -> Result<(), WriteFailed>
    requires { W.has_failed sink.old ≡ false }
    ensures { Writes result (W.taken sink.old) (W.taken sink.new)
        (line_of (pair_words (key.now, value.now)))
        (W.has_failed sink.new) }
{
    write_bytes(sink, key)?;
    write_last_field(sink, value)
}

/// Writes the line of a value that was looked for.
pub fn write_value<W: Sink>(sink: &mut W, value: Option<&[u8]>) -> Result<(), WriteFailed>
    requires { W.has_failed sink.old ≡ false }
    ensures { Writes result (W.taken sink.old) (W.taken sink.new)
        (line_of (found_or (option_map (λ v. v.now) value.entry) (codes "is") (codes "none")))
        (W.has_failed sink.new) }
{
    match value {
        Some(value) => write_found(sink, b"is", value),
        None => write_piece(sink, b"none\n"),
    }
}

/// Writes a word and a space, the number of records under keys and of those under numbers, and a newline.
pub fn write_sum<W: Sink>(
    sink: &mut W,
    word: &[u8],
    keys: usize,
    numbers: usize,
) -> Result<(), WriteFailed>
    requires { W.has_failed sink.old ≡ false }
    ensures { Writes result (W.taken sink.old) (W.taken sink.new)
        (word.now ++ (decimal (keys + numbers) ++ 10 ∷ []))
        (W.has_failed sink.new) }
{
    write_piece(sink, word)?;
    write_wide(sink, keys as u128 + numbers as u128)?;
    write_piece(sink, b"\n")
}

/// Writes the line that ends a dump of so many records under keys and so many under numbers.
pub fn write_total<W: Sink>(sink: &mut W, keys: usize, numbers: usize) -> Result<(), WriteFailed>
    requires { W.has_failed sink.old ≡ false }
    ensures { Writes result (W.taken sink.old) (W.taken sink.new)
        (line_of (end_words (keys + numbers)))
        (W.has_failed sink.new) }
{
    write_sum(sink, b"end ", keys, numbers)
}

/// Writes the line that tells in place of how many keys a value was put.
pub fn write_over<W: Sink>(sink: &mut W, count: usize) -> Result<(), WriteFailed>
    requires { W.has_failed sink.old ≡ false }
    ensures { Writes result (W.taken sink.old) (W.taken sink.new)
        (line_of (name (codes "over") ∷ natural count ∷ []))
        (W.has_failed sink.new) }
{
    write_piece(sink, b"over ")?;
    write_number(sink, count as u64)?;
    write_piece(sink, b"\n")
}

/// The line of a key that was looked for by a longer one, and its value, put together in a room for it.
fn write_at<W: Sink>(
    sink: &mut W,
    room: &mut [u8],
    key: &[u8],
    value: &[u8],
) -> Result<(), WriteFailed>
    requires open { W.has_failed sink.old ≡ false }
    requires room { 3 + length (line_of (pair_words (key.now, value.now))) ≤ length room.old }
    ensures { Writes result (W.taken sink.old) (W.taken sink.new)
        (line_of (find_reply (Some (key.now, value.now))))
        (W.has_failed sink.new) }
{
    let digits = put_text(room, 0, b"at ");
    let end = put_pair(room, digits, key, value);
    write_piece(sink, &room[..end])
}

/// Writes the line of what was looked for by a longer key.
#[inline(never)]
pub fn write_prefix_pair<W: Sink>(
    sink: &mut W,
    found: Option<(&[u8], &[u8])>,
) -> Result<(), WriteFailed>
    requires open { W.has_failed sink.old ≡ false }
    requires line { IfSome found (λ p. 3 + length (line_of (pair_words (p.0.now, p.1.now))) ≤ 4097) }
    ensures { Writes result (W.taken sink.old) (W.taken sink.new)
        (line_of (find_reply (option_map (λ p. (p.0.now, p.1.now)) found.entry)))
        (W.has_failed sink.new) }
{
    match found {
        Some((key, value)) => {
            if key.len() + value.len() <= PART {
                write_at(sink, &mut [0; SHORT], key, value)
            } else {
                write_at(sink, &mut [0; LINE_ROOM], key, value)
            }
        }
        None => write_piece(sink, b"none\n"),
    }
}

//! Text that is gathered in a room before it goes to a sink, so that many lines leave in one piece. Each call puts a
//! text at a place, leaves what stands before it, and tells the place after it.
ghost use Rattle.std.specs.Prelude.{◌≡◌, ◌+◌, ◌*◌, ◌≤◌, ◌∷◌, [], length, decimal};
ghost use Rattle.std.specs.Fmt.{signed_decimal};
ghost use Rattle.hex.specs.Hex.{encode_lower};
ghost use Rattle.art_lines.specs.Words.{shown, name, bytes, line_of};
ghost use Rattle.art_lines.specs.Commands.{put_words, nput_words};
ghost use Rattle.art_lines.specs.ReplyWords.{pair_words, number_words};
ghost use Rattle.art_lines.specs.Gathered.{Puts};
ghost use Rattle.art_lines.specs.Ends.{tenant_of_head};

use crate::head::Head;
use itoa::Buffer;

/// Puts a text.
#[inline]
pub fn put_text(room: &mut [u8], at: usize, text: &[u8]) -> usize
    requires { at + length text.now ≤ length room.old }
    ensures { Puts result at text.now room.old room.new }
{
    let next = at + text.len();
    room[at..next].copy_from_slice(text);
    next
}

/// Puts bytes as lower case digits.
#[inline]
fn put_digits(room: &mut [u8], at: usize, value: &[u8]) -> usize
    requires { at + 2 * length value.now ≤ length room.old }
    ensures { Puts result at (encode_lower value.now) room.old room.new }
{
    let next = at + 2 * value.len();
    let _ = hex::encode_to_slice(value, &mut room[at..next]);
    next
}

/// Puts bytes as lower case digits, or `-` for none.
#[inline]
fn put_bytes(room: &mut [u8], at: usize, value: &[u8]) -> usize
    requires { at + length (shown (bytes value.now)) ≤ length room.old }
    ensures { Puts result at (shown (bytes value.now)) room.old room.new }
{
    if value.is_empty() {
        return put_text(room, at, b"-");
    }
    put_digits(room, at, value)
}

/// Puts a number in digits.
#[inline]
pub fn put_number(room: &mut [u8], at: usize, number: u64) -> usize
    requires { at + length (decimal number) ≤ length room.old }
    ensures { Puts result at (decimal number) room.old room.new }
{
    let mut digits = Buffer::new();
    put_text(room, at, digits.format(number).as_bytes())
}

/// Puts the line that makes a record of the tenant with this head.
#[inline]
pub fn put_record(room: &mut [u8], at: usize, head: &Head, key: &[u8], value: &[u8]) -> usize
    requires head { at + 16 ≤ length room.old }
    requires line { at + length (line_of (put_words (tenant_of_head head.now) key.now value.now)) ≤ length room.old }
    ensures { Puts result at (line_of (put_words (tenant_of_head head.now) key.now value.now)) room.old room.new }
{
    let digits = head.put(room, at);
    let space = put_bytes(room, digits, key);
    let digits = put_text(room, space, b" ");
    let newline = put_bytes(room, digits, value);
    put_text(room, newline, b"\n")
}

/// Puts a line of two lots of bytes, as a key and its value.
#[inline]
pub fn put_pair(room: &mut [u8], at: usize, key: &[u8], value: &[u8]) -> usize
    requires { at + length (line_of (pair_words (key.now, value.now))) ≤ length room.old }
    ensures { Puts result at (line_of (pair_words (key.now, value.now))) room.old room.new }
{
    let space = put_bytes(room, at, key);
    let digits = put_text(room, space, b" ");
    let newline = put_bytes(room, digits, value);
    put_text(room, newline, b"\n")
}

/// Puts a line of a number and its value.
#[inline]
pub fn put_number_pair(room: &mut [u8], at: usize, number: i64, value: &[u8]) -> usize
    requires { at + length (line_of (number_words (number, value.now))) ≤ length room.old }
    ensures { Puts result at (line_of (number_words (number, value.now))) room.old room.new }
{
    let mut digits = Buffer::new();
    put_found(room, at, digits.format(number).as_bytes(), value)
}

/// Puts the line that makes a record of a tenant's under a number.
#[inline]
pub fn put_number_record(
    room: &mut [u8],
    at: usize,
    tenant: u32,
    number: i64,
    value: &[u8],
) -> usize
    requires { at + length (line_of (nput_words tenant number value.now)) ≤ length room.old }
    ensures { Puts result at (line_of (nput_words tenant number value.now)) room.old room.new }
{
    let digits = put_text(room, at, b"nput ");
    let space = put_number(room, digits, u64::from(tenant));
    let pair = put_text(room, space, b" ");
    put_number_pair(room, pair, number, value)
}

/// Puts a line of a word and bytes.
#[inline]
pub fn put_found(room: &mut [u8], at: usize, word: &[u8], value: &[u8]) -> usize
    requires { at + length (line_of (name word.now ∷ bytes value.now ∷ [])) ≤ length room.old }
    ensures { Puts result at (line_of (name word.now ∷ bytes value.now ∷ [])) room.old room.new }
{
    let space = put_text(room, at, word);
    let digits = put_text(room, space, b" ");
    let newline = put_bytes(room, digits, value);
    put_text(room, newline, b"\n")
}

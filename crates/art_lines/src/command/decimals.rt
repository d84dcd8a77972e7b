//! Decimal numbers, read where they stand: a tenant, or a number with its sign. Eight digits are read at a time, as
//! long as there are so many.
ghost use Rattle.std.specs.Prelude.{◌≡◌, ◌+◌, ◌<◌, ◌≤◌, ◌^◌, ◌∷◌, length, take, true};
ghost use Rattle.std.specs.Prelude.{IfSome, IfNone, IsSome, MatchBool};
ghost use Rattle.std.specs.List.{AllByRecursion};
ghost use Rattle.art_lines.specs.Decimals.{AreFirstDigits, IsDigitAt, pairs_shown};
ghost use Rattle.art_lines.specs.InPlace.{HasNoFirst, IsFirst};
ghost use Rattle.art_lines.specs.Reading.{natural_in, tenant_in, negated as negated_by, number_in};

use std::simd::prelude::*;

/// A number of more digits is none that is read.
const MOST: usize = 19;

/// Whether all of these are less than ten.
#[inline(always)]
fn are_low(values: u8x8) -> bool
    ensures { result ≡ true → AllByRecursion (λ value. value < 10) values }
{
    values.simd_gt(u8x8::splat(9)).to_bitmask() == 0
}

/// The numbers that digits with these values show, two by two.
#[inline(always)]
fn pairs_of(values: u8x8) -> u8x4
    ensures { result ≡ pairs_shown values }
{
    let tens = values.swizzle([0, 2, 4, 6]);
    tens * u8x4::splat(10) + values.swizzle([1, 3, 5, 7])
}

/// The number that eight digits show, if all of them are digits.
#[inline(always)]
fn number_of_eight(digits: u8x8) -> Option<u64>
    ensures { IfSome result (λ number. AreFirstDigits digits 8 number) }
{
    let values = digits - u8x8::splat(b'0');
    if !are_low(values) {
        return None;
    }
    let pairs = pairs_of(values).to_array();
    let high = u64::from(pairs[0]) * 100 + u64::from(pairs[1]);
    let low = u64::from(pairs[2]) * 100 + u64::from(pairs[3]);
    Some(high * 10_000 + low)
}

/// Reads eight digits more, after some, if there are so many. Returns what all of them show, and how many they are.
#[inline(always)]
fn read_eight(text: &[u8], number: u64, len: usize) -> (u64, usize)
    requires read { AreFirstDigits text.now len number }
    requires few { len ≤ 8 }
    ensures read { AreFirstDigits text.now result.1 result.0 }
    ensures few { result.1 ≤ len + 8 }
{
    if text.len() - len < 8 {
        return (number, len);
    }
    match number_of_eight(u8x8::from_slice(&text[len..])) {
        Some(eight) => (number * 100_000_000 + eight, len + 8),
        None => (number, len),
    }
}

/// Whether there is a digit at a place.
#[inline(always)]
fn is_digit_at(text: &[u8], at: usize) -> bool
    ensures { MatchBool result (IsDigitAt text.now at) (IsDigitAt text.now at → ⊥) }
{
    match text.get(at) {
        Some(digit) => digit.is_ascii_digit(),
        None => false,
    }
}

/// Reads all digits that stand after some, of a text of nineteen bytes at most. Returns what all of them show, and how
/// many they are.
#[inline(always)]
fn read_on(text: &[u8], from: u64, at: usize) -> (u64, usize)
    requires read { AreFirstDigits text.now at from }
    requires few { length text.now ≤ 19 }
    ensures read { AreFirstDigits text.now result.1 result.0 }
    ensures end { IsDigitAt text.now result.1 → ⊥ }
{
    let (mut number, mut len) = (from, at);
    'digits: while is_digit_at(text, len) {
        number = number * 10 + u64::from(text[len] - b'0');
        len += 1;
    }
    (number, len)
}

/// Reads all digits that stand after some, up to the nineteenth. Returns what all of them show, and how many they are.
#[inline(always)]
fn read_each(text: &[u8], from: u64, at: usize) -> (u64, usize)
    requires read { AreFirstDigits text.now at from }
    requires few { at ≤ 19 }
    ensures read { AreFirstDigits text.now result.1 result.0 }
    ensures end { result.1 < 19 → IsDigitAt text.now result.1 → ⊥ }
{
    read_on(&text[..text.len().min(MOST)], from, at)
}

/// Reads the digits that a text begins with, up to the nineteenth. Returns what they show, and how many they are.
#[inline(always)]
fn read_all(text: &[u8]) -> (u64, usize)
    ensures read { AreFirstDigits text.now result.1 result.0 }
    ensures end { result.1 < 19 → IsDigitAt text.now result.1 → ⊥ }
{
    let (high, first) = read_eight(text, 0, 0);
    if first < 8 {
        return read_each(text, high, first);
    }
    let (number, len) = read_eight(text, high, first);
    read_each(text, number, len)
}

/// The natural number of at most 2^63 that these digits are read as, which show a number.
#[inline(always)]
fn natural_of(text: &[u8], number: u64, len: usize) -> Option<u64>
    requires { AreFirstDigits text.now len number }
    ensures value { result ≡ natural_in (2 ^ 63 + 1) (take len text.now) }
    ensures some { IsSome result → 0 < len }
{
    if len == 0 {
        return None;
    }
    if len > 1 && text[0] == b'0' {
        return None; // `01`
    }
    if number > 1 << 63 {
        return None;
    }
    Some(number)
}

/// The natural number of at most 2^63 that the field is read as.
#[inline(always)]
fn parse_natural(field: &[u8]) -> Option<u64>
    ensures { result ≡ natural_in (2 ^ 63 + 1) field.now }
{
    let (number, len) = read_all(field);
    if len < field.len() {
        return None;
    }
    natural_of(field, number, len)
}

/// The tenant that the field is read as.
#[inline(always)]
pub(crate) fn parse_tenant(field: &[u8]) -> Option<u32>
    ensures tenant { result ≡ tenant_in field.now }
    ensures some { IsSome result → 0 < length field.now }
{
    let natural = parse_natural(field)?;
    u32::try_from(natural).ok()
}

/// The number that the field is read as.
pub(crate) fn parse_number(field: &[u8]) -> Option<i64>
    ensures { result ≡ number_in field.now }
{
    let (first, rest) = field.split_first()?;
    if *first == b'-' {
        return negated(parse_natural(rest)?);
    }
    i64::try_from(parse_natural(field)?).ok()
}

/// The number below 0 by so much, if that is not 0.
fn negated(natural: u64) -> Option<i64>
    requires { natural ≤ 2 ^ 63 }
    ensures { result ≡ negated_by natural }
{
    let less = natural.checked_sub(1)?;
    Some(-1 - less as i64)
}

/// The natural number of at most 2^63 that the first field of a text is read as, if a space ends it, and what stands
/// after that space. These are the digits that the text begins with.
#[inline(always)]
fn split_after(text: &[u8], number: u64, len: usize) -> Option<(u64, &[u8])>
    requires read { AreFirstDigits text.now len number }
    requires end { len < 19 → IsDigitAt text.now len → ⊥ }
    ensures some { IfSome result (λ p. IsFirst (natural_in (2 ^ 63 + 1)) text.now p.0 p.1.now) }
    ensures shorter { IfSome result (λ p. 2 + length p.1.now ≤ length text.now) }
    ensures none { IfNone result (HasNoFirst (natural_in (2 ^ 63 + 1)) text.now) }
{
    if len >= text.len() {
        return None;
    }
    if text[len] != b' ' {
        return None;
    }
    let natural = natural_of(text, number, len)?;
    Some((natural, &text[len + 1..]))
}

/// The tenant that the first field of a text is read as, if a space ends it, and what stands after that space.
#[inline(always)]
pub(crate) fn split_tenant(text: &[u8]) -> Option<(u32, &[u8])>
    ensures some { IfSome result (λ p. IsFirst tenant_in text.now p.0 p.1.now) }
    ensures shorter { IfSome result (λ p. 2 + length p.1.now ≤ length text.now) }
    ensures none { IfNone result (HasNoFirst tenant_in text.now) }
{
    let (number, len) = read_each(text, 0, 0);
    let (natural, rest) = split_after(text, number, len)?;
    let tenant = u32::try_from(natural).ok()?;
    Some((tenant, rest))
}

/// The number that the first field of a text is read as, if a space ends it, and what stands after that space.
#[inline(always)]
pub(crate) fn split_number(text: &[u8]) -> Option<(i64, &[u8])>
    ensures some { IfSome result (λ p. IsFirst number_in text.now p.0 p.1.now) }
    ensures shorter { IfSome result (λ p. 1 + length p.1.now ≤ length text.now) }
    ensures none { IfNone result (HasNoFirst number_in text.now) }
{
    let (first, rest) = text.split_first()?;
    if *first == b'-' {
        return split_below(rest);
    }
    let (number, len) = read_all(text);
    let (natural, after) = split_after(text, number, len)?;
    let number = i64::try_from(natural).ok()?;
    Some((number, after))
}

/// The same of the text that a sign begins, from what stands after the sign.
#[inline(always)]
fn split_below(digits: &[u8]) -> Option<(i64, &[u8])>
    ensures some { IfSome result (λ p. IsFirst number_in (45 ∷ digits.now) p.0 p.1.now) }
    ensures shorter { IfSome result (λ p. 1 + length p.1.now ≤ length digits.now) }
    ensures none { IfNone result (HasNoFirst number_in (45 ∷ digits.now)) }
{
    let (number, len) = read_all(digits);
    let (natural, rest) = split_after(digits, number, len)?;
    let less = negated(natural)?;
    Some((less, rest))
}

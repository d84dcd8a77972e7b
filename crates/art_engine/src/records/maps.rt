//! Which two maps an index may be made of.
ghost use Rattle.std.specs.Prelude.{◌≡◌, ◌≤◌, ◌-◌, ◌^◌, ◌↔◌, IsTrue, true, length, decimal, min};
ghost use Rattle.std.specs.Fmt.{signed_decimal};
ghost use Rattle.std.specs.List.{AllByRecursion};
ghost use Rattle.art_engine.specs.Held.{IsShortPair, IsShortNumberPair, IsShortRecord, IsShortNumber};
ghost use Rattle.art_engine.specs.Held.{IsRecordIn, IsNumberRecordIn};
ghost use Rattle.art_engine.specs.Stored.{ArePairs, AreNumberPairs};
ghost use Rattle.art_lines.specs.Words.{shown, bytes};

use crate::full_key::split_number_key;
use art_lines::command::LINE;
use art_lines::command::fields::NUMBER_KEY;
use art_map::TreeMap;
use itoa::Buffer;

/// Returns whether an index may be made of these maps. Each key of the first has the four bytes of a tenant, and the
/// line that makes each record, by `put` or by `nput`, has at most 4,096 bytes. It allocates nothing.
///
/// ```
/// let mut byte_map: TreeMap<Vec<u8>, Vec<u8>, 16> = TreeMap::new(rt.alloc());
/// assert!(rt; are_records(&byte_map, &TreeMap::new(rt.alloc())));
/// byte_map.try_insert(b"hi".to_vec(rt.alloc())?, Vec::new(rt.alloc()))?;
/// assert!(rt; !are_records(&byte_map, &TreeMap::new(rt.alloc())));
/// ```
pub fn are_records<const PREFIX_LEN: usize>(
    byte_map: &TreeMap<Vec<u8>, Vec<u8>, PREFIX_LEN>,
    number_map: &TreeMap<[u8; NUMBER_KEY], Vec<u8>, PREFIX_LEN>,
) -> bool
    ensures exact { IsTrue result ↔ (AllByRecursion IsShortPair byte_map.now.pairs
        × AllByRecursion IsShortNumberPair number_map.now.pairs) }
    ensures records { result ≡ true → ArePairs byte_map.now.pairs × AreNumberPairs number_map.now.pairs }
{
    if !are_keyed(byte_map) {
        return false;
    }
    are_numbered(number_map)
}

// Whether an index may be made of these records under keys.
fn are_keyed<const PREFIX_LEN: usize>(map: &TreeMap<Vec<u8>, Vec<u8>, PREFIX_LEN>) -> bool
    ensures exact { IsTrue result ↔ AllByRecursion IsShortPair map.now.pairs }
    ensures records { result ≡ true → ArePairs map.now.pairs }
{
    for (key, value) in map.iter() {
        let full = key.as_slice();
        let text = value.as_slice();
        if !is_record(full, text) {
            return false;
        }
    }
    true
}

// Whether an index may be made of these records under numbers.
fn are_numbered<const PREFIX_LEN: usize>(
    map: &TreeMap<[u8; NUMBER_KEY], Vec<u8>, PREFIX_LEN>,
) -> bool
    ensures exact { IsTrue result ↔ AllByRecursion IsShortNumberPair map.now.pairs }
    ensures records { result ≡ true → AreNumberPairs map.now.pairs }
{
    for (key, value) in map.iter() {
        let text = value.as_slice();
        if !is_number_record(key, text) {
            return false;
        }
    }
    true
}

// Whether a value may stand under a full key.
fn is_record(full: &[u8], value: &[u8]) -> bool
    ensures exact { IsTrue result ↔ IsShortRecord full.now value.now }
    ensures record { result ≡ true → IsRecordIn full.now value.now }
{
    is_short(full, value)
}

// Whether it is long enough, and its line short enough.
fn is_short(full: &[u8], value: &[u8]) -> bool
    ensures { IsTrue result ↔ IsShortRecord full.now value.now }
{
    if full.len() < 4 {
        return false;
    }
    let tenant = u32::from_be_bytes([full[0], full[1], full[2], full[3]]);
    let first = digits_of(tenant).saturating_add(letters_of(&full[4..]));
    first.saturating_add(6).saturating_add(letters_of(value)) <= LINE
}

// Whether a value may stand under the bytes of a number.
fn is_number_record(key: &[u8; NUMBER_KEY], value: &[u8]) -> bool
    ensures exact { IsTrue result ↔ IsShortNumber key.now value.now }
    ensures record { result ≡ true → IsNumberRecordIn key.now value.now }
{
    is_short_number(key, value)
}

// Whether its line is short enough.
fn is_short_number(key: &[u8; NUMBER_KEY], value: &[u8]) -> bool
    ensures { IsTrue result ↔ IsShortNumber key.now value.now }
{
    let (tenant, number) = split_number_key(key);
    let first = digits_of(tenant).saturating_add(digits_of_signed(number));
    first.saturating_add(7).saturating_add(letters_of(value)) <= LINE
}

// How many digits a tenant has.
fn digits_of(tenant: u32) -> usize
    ensures { result ≡ length (decimal tenant) }
{
    let mut digits = Buffer::new();
    digits.format(tenant).as_bytes().len()
}

// How many digits a number has, and its sign.
fn digits_of_signed(number: i64) -> usize
    ensures { result ≡ length (signed_decimal number) }
{
    let mut digits = Buffer::new();
    digits.format(number).as_bytes().len()
}

// How many letters some bytes have in a line. The greatest number stands for more.
fn letters_of(value: &[u8]) -> usize
    ensures { result ≡ min (length (shown (bytes value.now))) (2 ^ 64 - 1) }
{
    if value.is_empty() {
        return 1;
    }
    value.len().saturating_mul(2)
}

//! A row: items in the first places of an array, whose owner counts them. The other places mean nothing.
ghost use Rattle.std.specs.Prelude.{◌≡◌, ◌≤◌, ◌<◌, ◌+◌, ◌-◌, ◌==◌, length, take, position};
ghost use Rattle.std.specs.List.{insert, remove, position_or_len};
ghost use Rattle.art_nodes.specs.inner.Place.{place};

use crate::child_iter::place_of;
use std::simd::prelude::*;

/// Inserts an item at this place, among the first `used` of a row. Those from there on move up by one.
pub(crate) fn put_in<T: Copy>(row: &mut [T], used: usize, at: usize, item: T)
    requires { (at ≤ used) × (used < length row.old) }
    ensures items { take (used + 1) row.new ≡ insert (take used row.old) at item }
    ensures len { length row.new ≡ length row.old }
{
    row.copy_within(at..used, at + 1);
    row[at] = item;
}

/// Removes the item at this place from the first `used` of a row. Those after it move down by one.
pub(crate) fn take_out<T: Copy>(row: &mut [T], used: usize, at: usize)
    requires { (at < used) × (used ≤ length row.old) }
    ensures items { take (used - 1) row.new ≡ remove (take used row.old) at }
    ensures len { length row.new ≡ length row.old }
{
    row.copy_within(at + 1..used, at);
}

// How many of the first `used` of these bytes stand before the first that equals this one, all bytes compared at once.
#[inline(always)]
fn before_equal<const N: usize>(keys: &[u8], used: usize, byte: u8) -> usize
    requires lanes { (0 < N) × (N ≤ 64) × (length keys.now ≡ N) }
    requires used { used ≤ N }
    ensures { result ≡ position_or_len (λ key. key == byte) (take used keys.now) }
{
    let marks = Simd::<u8, N>::from_slice(keys)
        .simd_eq(Simd::splat(byte))
        .to_bitmask();
    (marks.trailing_zeros() as usize).min(used)
}

// How many of the first `used` of these ascending bytes are below this one, all bytes compared at once.
#[inline(always)]
fn before_at_least<const N: usize>(keys: &[u8], used: usize, byte: u8) -> usize
    requires lanes { (0 < N) × (N ≤ 64) × (length keys.now ≡ N) }
    requires used { used ≤ N }
    ensures { result ≡ place (take used keys.now) byte }
{
    let marks = Simd::<u8, N>::from_slice(keys)
        .simd_ge(Simd::splat(byte))
        .to_bitmask();
    (marks.trailing_zeros() as usize).min(used)
}

/// The first place of this byte among the first `used` of these bytes. A row of 4 or 16 bytes is compared at once.
#[inline(always)]
pub(crate) fn position_in(keys: &[u8], used: usize, byte: u8) -> Option<usize>
    requires { used ≤ length keys.now }
    ensures { result ≡ position (λ key. key == byte) (take used keys.now) }
{
    let at = match keys.len() {
        16 => before_equal::<16>(keys, used, byte),
        4 => before_equal::<4>(keys, used, byte),
        _ => return keys[..used].iter().position(|key| *key == byte),
    };
    if at < used { Some(at) } else { None }
}

/// How many of the first `used` of these ascending bytes are below this one. A row of 4 or 16 bytes is compared at
/// once.
#[inline(always)]
pub(crate) fn place_in(keys: &[u8], used: usize, byte: u8) -> usize
    requires { used ≤ length keys.now }
    ensures { result ≡ place (take used keys.now) byte }
{
    match keys.len() {
        16 => before_at_least::<16>(keys, used, byte),
        4 => before_at_least::<4>(keys, used, byte),
        _ => place_of(&keys[..used], usize::from(byte)),
    }
}

/// How many of the first `used` of these ascending bytes are below this bound, which may be past all bytes.
#[inline(always)]
pub(crate) fn place_below(keys: &[u8], used: usize, bound: usize) -> usize
    requires used { used ≤ length keys.now }
    requires bound { bound ≤ 256 }
    requires bytes { place (take used keys.now) 256 ≡ used }
    ensures { result ≡ place (take used keys.now) bound }
{
    match u8::try_from(bound) {
        Ok(byte) => place_in(keys, used, byte),
        Err(_) => used,
    }
}

//! Whether a list of bytes begins with another, compared a word at a time.
ghost use Rattle.std.specs.Prelude.{◌≡◌, ◌+◌, ◌≤◌, ◌<◌, ◌↔◌, drop, length, take};
ghost use Rattle.std.specs.Prelude.{IsTrue};
ghost use Rattle.art_bytes.specs.Keys.{BeginsWith};

use std::simd::prelude::*;

// Whether two lists agree on the N bytes from a place on, all compared at once. As vectors they are compared in place:
// of two slices LLVM makes a call.
#[inline(always)]
fn agree_at<const N: usize>(bytes: &[u8], front: &[u8], at: usize) -> bool
    requires lanes { (0 < N) × (N ≤ 64) }
    requires within { (at + N ≤ length bytes.now) × (at + N ≤ length front.now) }
    ensures { IsTrue result ↔ take N (drop at bytes.now) ≡ take N (drop at front.now) }
{
    let marks = Simd::<u8, N>::from_slice(&bytes[at..])
        .simd_ne(Simd::from_slice(&front[at..]))
        .to_bitmask();
    marks == 0
}

// Whether a list begins with another of N to twice N bytes. Its first and its last N may overlap.
#[inline(always)]
fn begins_with_two<const N: usize>(bytes: &[u8], front: &[u8]) -> bool
    requires lanes { (0 < N) × (N ≤ 64) }
    requires len { (N ≤ length front.now) × (length front.now ≤ N + N) }
    requires within { length front.now ≤ length bytes.now }
    ensures { IsTrue result ↔ BeginsWith front.now bytes.now }
{
    agree_at::<N>(bytes, front, 0) && agree_at::<N>(bytes, front, front.len() - N)
}

/// Whether a list of bytes begins with another. The last word reaches back over bytes that agree, so that no loop of
/// single bytes is needed. It is one call, and not inlined: so a descent's loop stays small enough to be unrolled at
/// its start, before its first step.
#[inline(never)]
pub(crate) fn begins_with(bytes: &[u8], front: &[u8]) -> bool
    ensures { IsTrue result ↔ BeginsWith front.now bytes.now }
{
    let len = front.len();
    if len > bytes.len() {
        return false;
    }
    if len >= 8 {
        let last = len - 8;
        let mut at = 0;
        'words: while at < last {
            if !agree_at::<8>(bytes, front, at) {
                return false;
            }
            at += 8;
        }
        return agree_at::<8>(bytes, front, last);
    }
    if len >= 4 {
        return begins_with_two::<4>(bytes, front);
    }
    if len >= 2 {
        return begins_with_two::<2>(bytes, front);
    }
    len == 0 || bytes[0] == front[0]
}

/// Whether a list of bytes begins with another, which is compared in line if it has 4 to 16 bytes: a call costs more
/// than that.
#[inline(always)]
pub(crate) fn begins_with_short(bytes: &[u8], front: &[u8]) -> bool
    ensures { IsTrue result ↔ BeginsWith front.now bytes.now }
{
    let len = front.len();
    if len < 4 || len > 16 {
        return begins_with(bytes, front);
    }
    if len > bytes.len() {
        return false;
    }
    if len <= 8 {
        return begins_with_two::<4>(bytes, front);
    }
    begins_with_two::<8>(bytes, front)
}

/// Returns what lies after so many of these bytes: nothing where there are no more.
#[inline(always)]
pub fn rest_after(bytes: &[u8], depth: usize) -> &[u8]
    ensures { result.now ≡ drop depth bytes.now }
{
    if depth < bytes.len() {
        return &bytes[depth..];
    }
    &bytes[bytes.len()..]
}

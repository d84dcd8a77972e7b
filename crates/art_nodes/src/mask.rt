//! A set of bytes: a bit for each.
ghost use Rattle.std.specs.Prelude.{◌≡◌, ◌<◌, ◌≤◌, ◌+◌, ◌-◌, ◌*◌, ◌^◌, ◌&&◌, nat_lt, nat_le, true, false, ℕ, []};
ghost use Rattle.std.specs.Prelude.{length, min, MatchOption};
ghost use Rattle.std.specs.List.{insert, remove};
ghost use Rattle.art_nodes.specs.inner.Place.{place, StandsAt, BelongsAt, IsFirstFrom, IsLastBelow};
ghost use Rattle.art_nodes.specs.inner.Mask.{those_passing, is_set};

use std::marker::Model;

/// How many words there are, and how many bits are in one.
const WORDS: usize = 4;

const BITS: usize = 64;

/// Which of the 256 bytes are marked: bit `byte % 64` of word `byte / 64` is set. A contract sees the marked bytes,
/// ascending.
#[derive(Drop)]
pub(crate) struct Mask {
    words: [u64; WORDS],
}

impl Model for Mask {
    ghost use Rattle.std.specs.Prelude.{ℕ, List};
    ghost use Rattle.art_nodes.specs.inner.Mask.{marked};

    ghost Value = { List ℕ };

    ghost view = { λ m. marked m.words };
}

// The lowest so many bits of a word, or all.
fn low_bits(count: usize) -> u64
    ensures { result ≡ 2 ^ min count 64 - 1 }
{
    if count < BITS {
        (1 << count) - 1
    } else {
        u64::MAX
    }
}

// How many of a word's bits below this one are set.
fn set_bits_below(word: u64, bit: usize) -> usize
    requires { bit ≤ 64 }
    ensures value { result ≡ length (those_passing (is_set word) 0 bit) }
    ensures few { result ≤ 64 }
{
    (word & low_bits(bit)).count_ones() as usize
}

// The lowest bit of a word that is set.
fn lowest_bit(word: u64) -> Option<usize>
    ensures { MatchOption result (word ≡ 0)
        (λ bit. (bit < 64) × (is_set word bit ≡ true) × ((i : ℕ) → i < bit → is_set word i ≡ false)) }
{
    if word == 0 {
        return None;
    }
    Some(word.trailing_zeros() as usize)
}

// The highest bit of a word that is set.
fn highest_bit(word: u64) -> Option<usize>
    ensures { MatchOption result (word ≡ 0)
        (λ bit. (bit < 64) × (is_set word bit ≡ true) × ((i : ℕ) → bit < i → is_set word i ≡ false)) }
{
    if word == 0 {
        return None;
    }
    Some(BITS - 1 - word.leading_zeros() as usize)
}

// The bits of word `at` that are set for bytes below this bound.
fn bits_below(word: u64, at: usize, bound: usize) -> u64
    requires { at < 4 }
    ensures { (j : ℕ) → j < 64 → is_set result j ≡ (is_set word j && nat_lt (64 * at + j) bound) }
{
    word & low_bits(bound.saturating_sub(BITS * at))
}

// The bits of word `at` that are set for bytes from this bound on.
fn bits_from(word: u64, at: usize, bound: usize) -> u64
    requires { at < 4 }
    ensures { (j : ℕ) → j < 64 → is_set result j ≡ (is_set word j && nat_le bound (64 * at + j)) }
{
    word & !low_bits(bound.saturating_sub(BITS * at))
}

impl Mask {
    /// No byte is marked.
    pub(crate) fn new() -> Self
        ensures { result ≡ [] }
    {
        Mask { words: [0; WORDS] }
    }

    /// How many of the marked bytes are below this bound, which may be past all bytes.
    pub(crate) fn place(&self, bound: usize) -> usize
        requires { bound ≤ 256 }
        ensures { result ≡ place self.now bound }
    {
        let whole = bound / BITS;
        let mut count = 0;
        for at in 0..whole {
            count += set_bits_below(self.words[at], BITS);
        }
        if whole == WORDS {
            return count;
        }
        count + set_bits_below(self.words[whole], bound % BITS)
    }

    /// The place of the byte among the marked ones, if it is marked.
    pub(crate) fn find(&self, byte: u8) -> Option<usize>
        ensures { MatchOption result (BelongsAt self.now byte (place self.now byte)) (StandsAt self.now byte) }
    {
        let word = self.words[usize::from(byte) / BITS];
        if word >> (usize::from(byte) % BITS) & 1 == 0 {
            return None;
        }
        Some(self.place(usize::from(byte)))
    }

    /// Marks a byte that isn't.
    pub(crate) fn mark(&mut self, byte: u8)
        requires { (at : ℕ) × BelongsAt self.old byte at }
        ensures { self.new ≡ insert self.old (place self.old byte) byte }
    {
        self.words[usize::from(byte) / BITS] |= 1 << (usize::from(byte) % BITS);
    }

    /// Takes the mark from a byte that has one.
    pub(crate) fn unmark(&mut self, byte: u8)
        requires { (at : ℕ) × StandsAt self.old byte at }
        ensures { self.new ≡ remove self.old (place self.old byte) }
    {
        self.words[usize::from(byte) / BITS] &= !(1 << (usize::from(byte) % BITS));
    }

    /// The lowest marked byte from this bound on: the one that stands at the bound's place.
    pub(crate) fn lowest_from(&self, from: usize) -> Option<u8>
        requires { from ≤ 256 }
        ensures { MatchOption result (place self.now from ≡ length self.now) (IsFirstFrom self.now from) }
    {
        for at in from / BITS..WORDS {
            if let Some(bit) = lowest_bit(bits_from(self.words[at], at, from)) {
                return Some((BITS * at + bit) as u8);
            }
        }
        None
    }

    /// The highest marked byte below this bound: the one before the bound's place.
    pub(crate) fn highest_below(&self, to: usize) -> Option<u8>
        requires { to ≤ 256 }
        ensures { MatchOption result (place self.now to ≡ 0) (IsLastBelow self.now to) }
    {
        let mut at = to.div_ceil(BITS);
        while at > 0 {
            at -= 1;
            if let Some(bit) = highest_bit(bits_below(self.words[at], at, to)) {
                return Some((BITS * at + bit) as u8);
            }
        }
        None
    }
}

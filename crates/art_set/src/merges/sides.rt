//! Two sets side by side: which key comes next, and which of them have it.
ghost use Rattle.std.specs.Prelude.{◌≡◌, ◌+◌, ◌-◌, ◌^◌, ◌<◌, ⊤, min, [], length, Some, None, IfNone, if◌then◌else◌};
ghost use Rattle.std.specs.Option.{option_copied};
ghost use Rattle.std.specs.Bool.{OnFalse, OnTrue};
ghost use Rattle.std.specs.Map.Iter.{TakesFirst, deref};
ghost use Rattle.art_set.specs.Merges.{AscendsInBytes};

use crate::merges::peeked::Peeked;
use art_arena::NodeArena;
use art_bytes::OrderedBytes;
use art_bytes::laws::order_is_of_bytes;
use std::alloc::AllocError;
use std::cmp::Ordering;
use std::marker::Model;

/// Which keys a merge gives: those that the first set has alone, those that both have, those that the second has alone.
#[derive(Clone, Copy)]
pub struct Wanted {
    pub(crate) first: bool,
    pub(crate) both: bool,
    pub(crate) second: bool,
}

/// A key of two sets, by which of them have it. Of a key that both have it is the first set's.
#[derive(Drop)]
pub(super) enum Met<'a, K> {
    First(&'a K),
    Both(&'a K),
    Second(&'a K),
}

impl Wanted {
    ghost use Rattle.art_set.specs.inner.Merging.{is_wanted, met_key};

    // The key that was met, if it is wanted.
    fn pick<'a, K>(self, met: Met<'a, K>) -> Option<&'a K>
        ensures { option_copied result ≡ (if is_wanted self met.entry then Some (met_key met.entry) else None) }
    {
        match met {
            Met::First(key) if self.first => Some(key),
            Met::Both(key) if self.both => Some(key),
            Met::Second(key) if self.second => Some(key),
            _ => None,
        }
    }
}

// A count that stays at the greatest number.
fn one_more(count: usize) -> usize
    ensures { result ≡ min (count + 1) (2 ^ 64 - 1) }
{
    count.saturating_add(1)
}

/// The keys of two sets that are still to come, and how many comparisons were made.
#[derive(Drop)]
pub(crate) struct Sides<
    'a,
    K: OrderedBytes,
    const PREFIX_LEN: usize,
    M: 'a = NodeArena<K, (), PREFIX_LEN>,
> {
    first: Peeked<'a, K, PREFIX_LEN, M>,
    second: Peeked<'a, K, PREFIX_LEN, M>,
    comparisons: usize,
}

impl<'a, K: OrderedBytes, const PREFIX_LEN: usize, M: 'a> Model for Sides<'a, K, PREFIX_LEN, M> {
    ghost use Rattle.art_set.specs.Merges.{AscendsInBytes};
    ghost use Rattle.art_set.specs.inner.Merging.{Beside};

    ghost Value = { Beside K };

    ghost view = { λ s. record { first = s.first; second = s.second; comparisons = s.comparisons } };

    ghost invariant = { λ s. AscendsInBytes K.bytes s.first × AscendsInBytes K.bytes s.second };
}

impl<'a, K: OrderedBytes, const PREFIX_LEN: usize> Sides<'a, K, PREFIX_LEN> {
    ghost use Rattle.art_set.specs.inner.Merging.{keys_left, merging, steps_left, IsCompared, IsMet};

    pub(crate) fn new(first: Peeked<'a, K, PREFIX_LEN>, second: Peeked<'a, K, PREFIX_LEN>) -> Self
        requires first { AscendsInBytes K.bytes first }
        requires second { AscendsInBytes K.bytes second }
        ensures first { result.first ≡ first.entry }
        ensures second { result.second ≡ second.entry }
        ensures comparisons { result.comparisons ≡ 0 }
    {
        Sides {
            first,
            second,
            comparisons: 0,
        }
    }

    /// Returns how many comparisons were made. The count stays at the greatest `usize`.
    pub(super) fn comparisons(&self) -> usize
        ensures { result ≡ self.now.comparisons }
    {
        self.comparisons
    }

    // Whether a key may come that is wanted.
    fn goes_on(&self, wanted: Wanted) -> bool
        ensures on { OnTrue result (0 < keys_left self.now) }
        ensures off { OnFalse result (merging K.bytes wanted self.now ≡ []) }
        ensures ended { OnFalse result (steps_left K.bytes self.now ≡ 0) }
    {
        match (self.first.is_empty(), self.second.is_empty()) {
            (false, false) => true,
            (false, true) => wanted.first,
            (true, false) => wanted.second,
            (true, true) => false,
        }
    }

    // Goes past the next key. One has to be left.
    fn advance(&mut self) -> Met<'a, K>
        requires { 0 < keys_left self.old }
        ensures met { (w : _) → IsMet K.bytes w self.old result self.new }
        ensures compared { IsCompared K.bytes self.old self.new }
        ensures fewer { keys_left self.new < keys_left self.old }
    {
        let x = match self.first.peek() {
            Some(x) => x,
            None => match self.second.peek() {
                Some(y) => {
                    self.second.advance();
                    return Met::Second(y);
                }
                None => unreachable!()
            },
        };
        let y = match self.second.peek() {
            Some(y) => y,
            None => {
                self.first.advance();
                return Met::First(x);
            }
        };
        self.comparisons = one_more(self.comparisons);
        match order_is_of_bytes(x, y) {
            Ordering::Less => {
                self.first.advance();
                Met::First(x)
            }
            Ordering::Equal => {
                self.first.advance();
                self.second.advance();
                Met::Both(x)
            }
            Ordering::Greater => {
                self.second.advance();
                Met::Second(y)
            }
        }
    }

    // The next key that is wanted, if one comes.
    pub(crate) fn next_wanted(&mut self, wanted: Wanted) -> Option<&'a K>
        ensures takes { TakesFirst deref (merging K.bytes wanted self.old) result (merging K.bytes wanted self.new) }
        ensures compared { IsCompared K.bytes self.old self.new }
        ensures ended { IfNone result (steps_left K.bytes self.new ≡ 0) }
    {
        while self.goes_on(wanted) {
            let met = self.advance();
            if let Some(key) = wanted.pick(met) {
                return Some(key);
            }
        }
        None
    }
}

impl<'a, K: OrderedBytes, const PREFIX_LEN: usize> Clone for Sides<'a, K, PREFIX_LEN> {
    ghost is_clone = { λ original copy. copy ≡ original };

    ghost is_infallible = { λ _. ⊤ };

    fn clone(&self) -> Result<Self, AllocError> {
        Ok(Sides {
            first: self.first.clone()?,
            second: self.second.clone()?,
            comparisons: self.comparisons,
        })
    }
}

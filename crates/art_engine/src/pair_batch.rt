//! Pairs of a map, read in batches. The leaves are linked, so that one is read after another. But then the bytes of all
//! keys and values of a batch are requested together, and the processor waits for them at once.
ghost use Rattle.std.specs.Prelude.{◌≡◌, ◌+◌, ◌<◌, ◌≤◌, ℕ, List, None, [], ⊤, drop, length, option_map, take};
ghost use Rattle.std.specs.Global.{Vec};
ghost use Rattle.std.specs.Map.Iter.{deref_pair};
ghost use Rattle.art_walks.specs.MapReads.{IsSameMap, IsSpan};
ghost use Rattle.art_engine.specs.Counts.{GrewBy};
ghost use Rattle.art_engine.specs.Spans.{pending, pending_all, IsClosed, span_pairs};

use art_bytes::AsBytes;
use art_walks::{Iter, MapReader, ReadSpan};

/// How many pairs a batch has.
const BATCH: usize = 8;

/// A source of the pairs of a map, one after another, from a place on.
pub(crate) trait PairSource<'a, K, P> {
    /// The pairs from a place on.
    ghost left: { Self → P → List (K × Vec ℕ) };

    /// Whether this is a place of it.
    ghost is_place: { Self → P → Type 0 };

    /// Whether the same is read as before.
    ghost is_same: { Self → Self → Type 0 };

    /// Whether its count grew by so many from a first one.
    ghost has_grown: { ℕ → ℕ → Self → Type 0 };

    /// Returns the pair at a place, if there is one, and moves the place past it.
    fn next_pair(&mut self, place: &mut P) -> Option<(&'a K, &'a Vec<u8>)>
        requires place { is_place self.old place.old }
        ensures gives { left self.old place.old ≡ pending (option_map deref_pair result) (left self.new place.new) }
        ensures ended { result ≡ None → left self.new place.new ≡ [] }
        ensures place { is_place self.new place.new }
        ensures kept { (first : Self) → is_same first self.old → is_same first self.new }
        ensures counts { (given first : ℕ) → has_grown given first self.old
            → has_grown (given + length (pending (option_map deref_pair result) [])) first self.new };
}

/// A reader gives the pairs of a span, and counts each.
impl<'a, K: AsBytes, const PREFIX_LEN: usize> PairSource<'a, K, ReadSpan>
    for MapReader<'a, K, Vec<u8>, PREFIX_LEN> {
    ghost left = { λ map span. span_pairs map.nodes span };

    ghost is_place = { λ map span. IsSpan map.nodes span };

    ghost is_same = { λ first map. IsSameMap first map };

    ghost has_grown = { λ given first map. GrewBy given first map.count };

    #[inline(always)]
    fn next_pair(&mut self, span: &mut ReadSpan) -> Option<(&'a K, &'a Vec<u8>)> {
        self.next(span)
    }
}

/// A walk gives the pairs that it has still to give, from whatever place.
impl<'a, K: AsBytes, const PREFIX_LEN: usize> PairSource<'a, K, ()>
    for Iter<'a, K, Vec<u8>, PREFIX_LEN> {
    ghost left = { λ pairs _. pairs };

    ghost is_place = { λ _ _. ⊤ };

    ghost is_same = { λ _ _. ⊤ };

    ghost has_grown = { λ _ _ _. ⊤ };

    #[inline(always)]
    fn next_pair(&mut self, _place: &mut ()) -> Option<(&'a K, &'a Vec<u8>)> {
        self.next()
    }
}

/// The pairs that were read and not given yet: those from one place up to another. If one is missing, none
/// follows it.
#[derive(Drop)]
pub(crate) struct PairBatch<'a, K> {
    pairs: [Option<(&'a K, &'a Vec<u8>)>; BATCH],
    at: usize,
    len: usize,
    checksum: u8,
}

/// A checksum that no one knows without having read the bytes of these pairs, so that no compiler leaves the reads out.
fn checksum_of<K: AsBytes>(pairs: &[Option<(&K, &Vec<u8>)>]) -> u8 {
    let mut checksum = 0;
    for pair in pairs {
        if let Some((key, value)) = *pair {
            let bytes = key.as_bytes();
            for end in [bytes.first(), bytes.last(), value.first()] {
                checksum ^= end.copied().unwrap_or_default();
            }
        }
    }
    checksum
}

/// Up to where one reads, once this was read at a place: no further, if there was no pair.
#[inline(always)]
fn end_after<K>(pair: Option<(&K, &Vec<u8>)>, at: usize, end: usize) -> usize
    requires { at < end }
    ensures least { at < result }
    ensures most { result ≤ end }
    ensures none { pair.entry ≡ None → result ≡ at + 1 }
{
    match pair {
        Some(_) => end,
        None => at + 1,
    }
}

/// Reads the next pairs into these places, up to the first that is none, and returns how many places that are.
fn read_batch<'a, K, P, R: PairSource<'a, K, P>>(
    pairs: &mut [Option<(&'a K, &'a Vec<u8>)>],
    records: &mut R,
    place: &mut P,
) -> usize
    requires some { 0 < length pairs.old }
    requires place { R.is_place records.old place.old }
    ensures some { 0 < result }
    ensures within { result ≤ length pairs.new }
    ensures length { length pairs.new ≡ length pairs.old }
    ensures gives { R.left records.old place.old
        ≡ pending_all deref_pair (take result pairs.new) (R.left records.new place.new) }
    ensures place { R.is_place records.new place.new }
    ensures closed { IsClosed deref_pair (take result pairs.new) (R.left records.new place.new) }
    ensures kept { (first : R) → R.is_same first records.old → R.is_same first records.new }
    ensures counts { (given first : ℕ) → R.has_grown given first records.old
        → R.has_grown (given + length (pending_all deref_pair (take result pairs.new) [])) first records.new }
{
    let (mut len, mut end) = (0, pairs.len());
    'pairs: while len < end {
        let pair = records.next_pair(place);
        end = end_after(pair, len, end);
        pairs[len] = pair;
        len += 1;
    }
    len
}

impl<'a, K: AsBytes> PairBatch<'a, K> {
    /// None, at first.
    pub(crate) fn new() -> Self
        ensures none { drop result.at (take result.len result.pairs) ≡ [] }
        ensures within { result.len ≤ 8 }
    {
        PairBatch {
            pairs: [None; BATCH],
            at: 0,
            len: 0,
            checksum: 0,
        }
    }

    /// Returns a byte that depends on all that was read.
    pub(crate) fn checksum(&self) -> u8 {
        self.checksum
    }

    /// The next pair, if there is one: of those that were read, or of the next ones, which then are read.
    #[inline]
    pub(crate) fn next<P, R: PairSource<'a, K, P>>(
        &mut self,
        records: &mut R,
        place: &mut P,
    ) -> Option<(&'a K, &'a Vec<u8>)>
        requires within { self.old.len ≤ 8 }
        requires place { R.is_place records.old place.old }
        requires closed { IsClosed deref_pair (drop self.old.at (take self.old.len self.old.pairs))
            (R.left records.old place.old) }
        ensures within { self.new.len ≤ 8 }
        ensures gives { pending_all deref_pair (drop self.old.at (take self.old.len self.old.pairs))
            (R.left records.old place.old) ≡ pending (option_map deref_pair result)
            (pending_all deref_pair (drop self.new.at (take self.new.len self.new.pairs))
            (R.left records.new place.new)) }
        ensures ended { result ≡ None → pending_all deref_pair (drop self.new.at (take self.new.len self.new.pairs))
            (R.left records.new place.new) ≡ [] }
        ensures place { R.is_place records.new place.new }
        ensures closed { IsClosed deref_pair (drop self.new.at (take self.new.len self.new.pairs))
            (R.left records.new place.new) }
        ensures kept { (first : R) → R.is_same first records.old → R.is_same first records.new }
        ensures counts { (given first : ℕ) → R.has_grown (given
            + length (pending_all deref_pair (drop self.old.at (take self.old.len self.old.pairs)) [])) first
            records.old → R.has_grown (given + length (pending (option_map deref_pair result)
            (pending_all deref_pair (drop self.new.at (take self.new.len self.new.pairs)) []))) first
            records.new }
    {
        if self.at >= self.len {
            self.fill(records, place);
            return self.take_next();
        }
        self.take_next()
    }

    /// The next pair of those that were read.
    #[inline(always)]
    fn take_next(&mut self) -> Option<(&'a K, &'a Vec<u8>)>
        requires some { self.old.at < self.old.len }
        requires within { self.old.len ≤ 8 }
        ensures within { self.new.len ≤ 8 }
        ensures gives { (rest : List (K × Vec ℕ))
            → pending_all deref_pair (drop self.old.at (take self.old.len self.old.pairs)) rest
            ≡ pending (option_map deref_pair result)
            (pending_all deref_pair (drop self.new.at (take self.new.len self.new.pairs)) rest) }
        ensures closed { (rest : List (K × Vec ℕ))
            → IsClosed deref_pair (drop self.old.at (take self.old.len self.old.pairs)) rest
            → IsClosed deref_pair (drop self.new.at (take self.new.len self.new.pairs)) rest × (result ≡ None
            → pending_all deref_pair (drop self.new.at (take self.new.len self.new.pairs)) rest ≡ []) }
    {
        let pairs = &self.pairs[..self.len];
        let next = &pairs[self.at];
        match *next {
            Some(pair) => {
                self.at += 1;
                Some(pair)
            }
            None => None,
        }
    }

    /// Reads the next pairs.
    #[inline(never)]
    fn fill<P, R: PairSource<'a, K, P>>(&mut self, records: &mut R, place: &mut P)
        requires place { R.is_place records.old place.old }
        ensures at { self.new.at ≡ 0 }
        ensures some { 0 < self.new.len }
        ensures within { self.new.len ≤ 8 }
        ensures gives { R.left records.old place.old
            ≡ pending_all deref_pair (take self.new.len self.new.pairs) (R.left records.new place.new) }
        ensures place { R.is_place records.new place.new }
        ensures closed { IsClosed deref_pair (take self.new.len self.new.pairs) (R.left records.new place.new) }
        ensures kept { (first : R) → R.is_same first records.old → R.is_same first records.new }
        ensures counts { (given first : ℕ) → R.has_grown given first records.old
            → R.has_grown (given + length (pending_all deref_pair (take self.new.len self.new.pairs) [])) first
            records.new }
    {
        self.at = 0;
        self.len = read_batch(&mut self.pairs[..], records, place);
        self.checksum ^= checksum_of(&self.pairs[..self.len]);
    }
}

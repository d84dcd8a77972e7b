//! Walks over a tenant's records, each leaf that is read counted. A span is opened, and then read and written as lines.
//!
//! Lines are gathered in a buffer, so a list takes no memory, whatever its length. Where a prefix isn't stored whole, a
//! leaf is read for it: so what a list or a drop reads goes by `PREFIX_LEN`, too, and the model of an index has it as a
//! parameter.
ghost use Rattle.std.specs.Prelude.{◌≡◌, ◌+◌, ◌++◌, ◌^◌, ◌<◌, ◌≤◌, ℕ, IfOk, List, OnErr, OnOk, Some, false, flat_map};
ghost use Rattle.std.specs.Prelude.{int_lt, is_err, length, map, take};
ghost use Rattle.std.specs.Global.{Vec};
ghost use Rattle.std.specs.List.{AllByRecursion};
ghost use Rattle.art_bytes.specs.Keys.{is_below};
ghost use Rattle.art_walks.specs.MapReads.{IsSameMap, IsSpan};
ghost use Rattle.art_lines.specs.Words.{Word, line_of};
ghost use Rattle.art_lines.specs.Commands.{list, span, nspan, of_tenant};
ghost use Rattle.art_engine.specs.Records.{own};
ghost use Rattle.art_lines.specs.ReplyWords.{end_words, listed, number_words, numbers_listed, pair_words};
ghost use Rattle.art_lines.specs.Gathered.{IsPartTaken};
ghost use Rattle.art_engine.specs.Replies.{own_reply, pairs_from_to, numbers_from_to};
ghost use Rattle.art_lines.specs.Writes.{IsCut, Writes};
ghost use Rattle.art_engine.specs.Counts.{visits_of, exactly, span_nodes, number_span_nodes, GrewBy, GrewUpTo, Grew};
ghost use Rattle.art_lines.specs.Parsed.{tenant_in_place, key_in_place, upper_in_place};
ghost use Rattle.art_lines.specs.Parsed.{number_in_place, bound_in_place};
ghost use Rattle.art_engine.specs.Stored.{Pair, NumberPair, records_of, number_records_of};
ghost use Rattle.art_engine.specs.Spans.{span_pairs, own_pair, IsListed, ReadsRecords};
ghost use Rattle.art_engine.specs.Spans.{own_number, IsNumbered, ReadsNumbers};

use crate::full_key::split_number_key;
use crate::pair_batch::PairBatch;
use art_bytes::{AsBytes, SliceKey};
use art_lines::command::fields::{Fields, NUMBER_KEY};
use art_lines::gather::{gather_number, gather_pair, write_end};
use art_lines::reply::write_piece;
use art_lines::{Sink, WriteFailed};
use art_walks::{MapReader, ReadSpan};
use std::ops::Bound;

/// The bytes of lines that are gathered before they are written, at most. They are cleared for each list, so they are
/// few.
const ROOM: usize = 1024;

/// The key of a pair that is listed: its line has no tenant.
pub(crate) trait ListedKey: AsBytes {
    /// The words of a pair's line.
    ghost words: { Self × Vec ℕ → List Word };

    /// Whether a pair has such a line, which is no longer than one may be.
    ghost is_listed: { Self × Vec ℕ → Type 0 };

    /// Gathers the line of the pair of this key and a value, and returns how much is gathered then. A byte at least is
    /// left of the room. What doesn't fit is written before.
    fn gather<W: Sink>(
        &self,
        value: &Vec<u8>,
        sink: &mut W,
        room: &mut [u8],
        held: usize,
    ) -> Result<usize, WriteFailed>
        requires open { W.has_failed sink.old ≡ false }
        requires held { held < length room.old }
        requires listed { is_listed (self.now, value.now) }
        ensures fits { IfOk result (λ next. next < length room.new) }
        ensures taken { IfOk result (λ next. IsPartTaken (W.taken sink.old) (W.taken sink.new) (take next room.new)
            (take held room.old ++ line_of (words (self.now, value.now)))) }
        ensures cut { OnErr result (IsCut (W.taken sink.old) (W.taken sink.new)
            (take held room.old ++ line_of (words (self.now, value.now)))) }
        ensures failed { is_err result ≡ W.has_failed sink.new };
}

impl ListedKey for Vec<u8> {
    ghost words = { λ p. pair_words (own_pair p) };

    ghost is_listed = { λ p. IsListed p };

    #[inline(always)]
    fn gather<W: Sink>(
        &self,
        value: &Vec<u8>,
        sink: &mut W,
        room: &mut [u8],
        held: usize,
    ) -> Result<usize, WriteFailed> {
        let key = self.as_slice();
        gather_pair(sink, room, held, key, value.as_slice())
    }
}

impl ListedKey for [u8; NUMBER_KEY] {
    ghost words = { λ p. number_words (own_number p) };

    ghost is_listed = { λ p. IsNumbered p };

    #[inline(always)]
    fn gather<W: Sink>(
        &self,
        value: &Vec<u8>,
        sink: &mut W,
        room: &mut [u8],
        held: usize,
    ) -> Result<usize, WriteFailed> {
        let (_tenant, number) = split_number_key(self);
        gather_number(sink, room, held, number, value.as_slice())
    }
}

/// Writes the pairs of a span without their tenant, and how many they are. The lines are gathered, and leave in few
/// pieces. A leaf is read for each pair, many at a time. What is seen of them is kept after what is gathered.
#[inline(never)]
fn write_pairs<K: ListedKey, W: Sink, const PREFIX_LEN: usize>(
    records: &mut MapReader<'_, K, Vec<u8>, PREFIX_LEN>,
    span: &mut ReadSpan,
    sink: &mut W,
) -> Result<(), WriteFailed>
    requires open { W.has_failed sink.old ≡ false }
    requires span { IsSpan records.old.nodes span.old }
    requires listed { AllByRecursion K.is_listed (span_pairs records.old.nodes span.old) }
    requires few { length (span_pairs records.old.nodes span.old) < 2 ^ 64 }
    ensures written { Writes result (W.taken sink.old) (W.taken sink.new)
        (flat_map line_of (map K.words (span_pairs records.old.nodes span.old))
        ++ line_of (end_words (length (span_pairs records.old.nodes span.old))))
        (W.has_failed sink.new) }
    ensures kept { IsSameMap records.old records.new }
    ensures counts { OnOk result
        (GrewBy (length (span_pairs records.old.nodes span.old)) records.old.count records.new.count) }
    ensures few { GrewUpTo (length (span_pairs records.old.nodes span.old)) records.old.count records.new.count }
{
    let mut room = [0; ROOM];
    let (mut held, mut count) = (0, 0);
    let mut batch = PairBatch::new();
    'pairs: while let Some((key, value)) = batch.next(records, span) {
        room[ROOM - 1] = batch.checksum();
        let next = key.gather(value, sink, &mut room, held)?;
        held = next;
        count += 1;
    }
    write_end(sink, &mut room, held, count)
}

/// Writes the tenant's pairs whose keys begin with the prefix that was read, and how many they are.
pub(crate) fn write_list<W: Sink, const PREFIX_LEN: usize>(
    records: &mut MapReader<'_, Vec<u8>, Vec<u8>, PREFIX_LEN>,
    fields: &Fields,
    sink: &mut W,
) -> Result<(), WriteFailed>
    requires open { W.has_failed sink.old ≡ false }
    requires reads { (ps : List Pair) × ReadsRecords PREFIX_LEN records.old ps }
    ensures output { (ps : List Pair) → ReadsRecords PREFIX_LEN records.old ps
        → Writes result (W.taken sink.old) (W.taken sink.new)
        (flat_map line_of (own_reply (list (key_in_place fields.now))
        (own (tenant_in_place fields.now) (records_of ps))))
        (W.has_failed sink.new) }
    ensures kept { IsSameMap records.old records.new }
    ensures visits { (ps : List Pair) → ReadsRecords PREFIX_LEN records.old ps → OnOk result (Grew
        (visits_of PREFIX_LEN (Some (of_tenant (tenant_in_place fields.now) (list (key_in_place fields.now))))
        (records_of ps))
        records.old.count records.new.count) }
    ensures few { (ps : List Pair) → ReadsRecords PREFIX_LEN records.old ps → records.new.count ≤ records.old.count
        + (visits_of PREFIX_LEN (Some (of_tenant (tenant_in_place fields.now) (list (key_in_place fields.now))))
        (records_of ps)).most }
{
    let mut span = records.prefix(&SliceKey(fields.full_key()));
    write_pairs(records, &mut span, sink)
}

/// Writes the tenant's pairs from the low key on that was read and below the high one, and how many they are. It checks
/// that the bounds are in order before it reads the map.
pub(crate) fn write_span<W: Sink, const PREFIX_LEN: usize>(
    records: &mut MapReader<'_, Vec<u8>, Vec<u8>, PREFIX_LEN>,
    fields: &Fields,
    sink: &mut W,
) -> Result<(), WriteFailed>
    requires open { W.has_failed sink.old ≡ false }
    requires reads { (ps : List Pair) × ReadsRecords PREFIX_LEN records.old ps }
    ensures output { (ps : List Pair) → ReadsRecords PREFIX_LEN records.old ps
        → Writes result (W.taken sink.old) (W.taken sink.new)
        (flat_map line_of (own_reply (span (key_in_place fields.now) (upper_in_place fields.now))
        (own (tenant_in_place fields.now) (records_of ps))))
        (W.has_failed sink.new) }
    ensures kept { IsSameMap records.old records.new }
    ensures visits { (ps : List Pair) → ReadsRecords PREFIX_LEN records.old ps → OnOk result (Grew
        (visits_of PREFIX_LEN (Some (of_tenant (tenant_in_place fields.now)
        (span (key_in_place fields.now) (upper_in_place fields.now)))) (records_of ps))
        records.old.count records.new.count) }
    ensures few { (ps : List Pair) → ReadsRecords PREFIX_LEN records.old ps → records.new.count ≤ records.old.count
        + (visits_of PREFIX_LEN (Some (of_tenant (tenant_in_place fields.now)
        (span (key_in_place fields.now) (upper_in_place fields.now)))) (records_of ps)).most }
{
    if fields.upper().cmp(fields.key()).is_lt() {
        return write_piece(sink, b"bounds\n");
    }
    write_between(records, fields, sink)
}

/// Writes the tenant's pairs between two keys, as `write_span` does, if the bounds are in order.
fn write_between<W: Sink, const PREFIX_LEN: usize>(
    records: &mut MapReader<'_, Vec<u8>, Vec<u8>, PREFIX_LEN>,
    fields: &Fields,
    sink: &mut W,
) -> Result<(), WriteFailed>
    requires open { W.has_failed sink.old ≡ false }
    requires reads { (ps : List Pair) × ReadsRecords PREFIX_LEN records.old ps }
    requires order { is_below (upper_in_place fields.now) (key_in_place fields.now) ≡ false }
    ensures output { (ps : List Pair) → ReadsRecords PREFIX_LEN records.old ps
        → Writes result (W.taken sink.old) (W.taken sink.new)
        (flat_map line_of (listed (pairs_from_to (key_in_place fields.now) (upper_in_place fields.now)
        (own (tenant_in_place fields.now) (records_of ps)).keys)))
        (W.has_failed sink.new) }
    ensures kept { IsSameMap records.old records.new }
    ensures visits { (ps : List Pair) → ReadsRecords PREFIX_LEN records.old ps → OnOk result (Grew
        (exactly (span_nodes PREFIX_LEN (tenant_in_place fields.now) (key_in_place fields.now)
        (upper_in_place fields.now) (records_of ps)))
        records.old.count records.new.count) }
    ensures few { (ps : List Pair) → ReadsRecords PREFIX_LEN records.old ps → records.new.count ≤ records.old.count
        + span_nodes PREFIX_LEN (tenant_in_place fields.now) (key_in_place fields.now)
        (upper_in_place fields.now) (records_of ps) }
{
    let (low, high) = (SliceKey(fields.full_key()), SliceKey(fields.full_upper()));
    let mut span = records.range(Bound::Included(&low), Bound::Excluded(&high));
    write_pairs(records, &mut span, sink)
}

/// Writes the tenant's numbers from the low one that was read up to the high one, with their values, and how many they
/// are. It checks that the bounds are in order before it reads the map.
pub(crate) fn write_number_span<W: Sink, const PREFIX_LEN: usize>(
    numbers: &mut MapReader<'_, [u8; NUMBER_KEY], Vec<u8>, PREFIX_LEN>,
    fields: &Fields,
    sink: &mut W,
) -> Result<(), WriteFailed>
    requires open { W.has_failed sink.old ≡ false }
    requires reads { (ns : List NumberPair) × ReadsNumbers PREFIX_LEN numbers.old ns }
    ensures output { (ns : List NumberPair) → ReadsNumbers PREFIX_LEN numbers.old ns
        → Writes result (W.taken sink.old) (W.taken sink.new)
        (flat_map line_of (own_reply (nspan (number_in_place fields.now) (bound_in_place fields.now))
        (own (tenant_in_place fields.now) (number_records_of ns))))
        (W.has_failed sink.new) }
    ensures kept { IsSameMap numbers.old numbers.new }
    ensures visits { (ns : List NumberPair) → ReadsNumbers PREFIX_LEN numbers.old ns → OnOk result (Grew
        (visits_of PREFIX_LEN (Some (of_tenant (tenant_in_place fields.now)
        (nspan (number_in_place fields.now) (bound_in_place fields.now)))) (number_records_of ns))
        numbers.old.count numbers.new.count) }
    ensures few { (ns : List NumberPair) → ReadsNumbers PREFIX_LEN numbers.old ns
        → numbers.new.count ≤ numbers.old.count
        + (visits_of PREFIX_LEN (Some (of_tenant (tenant_in_place fields.now)
        (nspan (number_in_place fields.now) (bound_in_place fields.now)))) (number_records_of ns)).most }
{
    if fields.bound() < fields.number() {
        return write_piece(sink, b"bounds\n");
    }
    write_numbers_between(numbers, fields, sink)
}

/// Writes the tenant's numbers between two, as `write_number_span` does, if the bounds are in order.
fn write_numbers_between<W: Sink, const PREFIX_LEN: usize>(
    numbers: &mut MapReader<'_, [u8; NUMBER_KEY], Vec<u8>, PREFIX_LEN>,
    fields: &Fields,
    sink: &mut W,
) -> Result<(), WriteFailed>
    requires open { W.has_failed sink.old ≡ false }
    requires reads { (ns : List NumberPair) × ReadsNumbers PREFIX_LEN numbers.old ns }
    requires order { int_lt (bound_in_place fields.now) (number_in_place fields.now) ≡ false }
    ensures output { (ns : List NumberPair) → ReadsNumbers PREFIX_LEN numbers.old ns
        → Writes result (W.taken sink.old) (W.taken sink.new)
        (flat_map line_of (numbers_listed (numbers_from_to (number_in_place fields.now) (bound_in_place fields.now)
        (own (tenant_in_place fields.now) (number_records_of ns)).numbers)))
        (W.has_failed sink.new) }
    ensures kept { IsSameMap numbers.old numbers.new }
    ensures visits { (ns : List NumberPair) → ReadsNumbers PREFIX_LEN numbers.old ns → OnOk result (Grew
        (exactly (number_span_nodes PREFIX_LEN (tenant_in_place fields.now) (number_in_place fields.now)
        (bound_in_place fields.now) (number_records_of ns)))
        numbers.old.count numbers.new.count) }
    ensures few { (ns : List NumberPair) → ReadsNumbers PREFIX_LEN numbers.old ns
        → numbers.new.count ≤ numbers.old.count
        + number_span_nodes PREFIX_LEN (tenant_in_place fields.now) (number_in_place fields.now)
        (bound_in_place fields.now) (number_records_of ns) }
{
    let (low, high) = (fields.number_key(), fields.bound_key());
    let mut span = numbers.range(Bound::Included(&low), Bound::Included(&high));
    write_pairs(numbers, &mut span, sink)
}

//! What is asked of all records.
ghost use Rattle.std.specs.Prelude.{◌≡◌, ◌≤◌, ◌++◌, List, ℕ, flat_map, false, length, take};
ghost use Rattle.std.specs.Prelude.{is_err, IfOk, OnErr};
ghost use Rattle.art_lines.specs.Words.{line_of};
ghost use Rattle.art_engine.specs.Replies.{dump_of, key_lines, number_lines};
ghost use Rattle.art_lines.specs.Writes.{Writes, IsCut};
ghost use Rattle.art_lines.specs.Gathered.{IsPartTaken};
ghost use Rattle.art_engine.specs.Stored.{records_of, number_records_of, all_records_of, ArePairs, AreNumberPairs};

use crate::full_key::{split_full_key, split_number_key};
use crate::pair_batch::PairBatch;
use art_lines::command::fields::NUMBER_KEY;
use art_lines::gather::{ROOM, reserve_line};
use art_lines::head::Head;
use art_lines::reply::{write_piece, write_total};
use art_lines::room::{put_number_record, put_record};
use art_lines::{Sink, WriteFailed};
use art_map::TreeMap;

/// Gathers the lines of all records under keys, and returns how much is gathered then. Many records are read at a time.
/// What is seen of them goes to the end of the room, where no line comes, so that the reads are not left out.
fn gather_keys<W: Sink, const PREFIX_LEN: usize>(
    records: &TreeMap<Vec<u8>, Vec<u8>, PREFIX_LEN>,
    sink: &mut W,
    room: &mut [u8],
) -> Result<usize, WriteFailed>
    requires open { W.has_failed sink.old ≡ false }
    requires held { ArePairs records.now.pairs }
    requires whole { length room.old ≡ 8192 }
    ensures fits { IfOk result (λ held. held ≤ 8192) }
    ensures taken { IfOk result (λ held. IsPartTaken (W.taken sink.old) (W.taken sink.new) (take held room.new)
        (flat_map line_of (key_lines (records_of records.now.pairs)))) }
    ensures cut { OnErr result (IsCut (W.taken sink.old) (W.taken sink.new)
        (flat_map line_of (key_lines (records_of records.now.pairs)))) }
    ensures failed { is_err result ≡ W.has_failed sink.new }
{
    let mut held = 0;
    let mut head = Head::new(0);
    let mut pairs = records.iter();
    let mut batch = PairBatch::new();
    'pairs: while let Some((full, value)) = batch.next(&mut pairs, &mut ()) {
        let (tenant, key) = split_full_key(full.as_slice());
        let at = reserve_line(sink, room, held)?;
        room[ROOM - 1] = batch.checksum();
        head.set_tenant(tenant);
        held = put_record(room, at, &head, key, value.as_slice());
    }
    Ok(held)
}

/// Gathers the lines of all records under numbers, after what is gathered, and returns how much is gathered then.
fn gather_numbers<W: Sink, const PREFIX_LEN: usize>(
    numbers: &TreeMap<[u8; NUMBER_KEY], Vec<u8>, PREFIX_LEN>,
    sink: &mut W,
    room: &mut [u8],
    before: usize,
) -> Result<usize, WriteFailed>
    requires open { W.has_failed sink.old ≡ false }
    requires numbers { AreNumberPairs numbers.now.pairs }
    requires whole { length room.old ≡ 8192 }
    requires held { before ≤ 8192 }
    ensures fits { IfOk result (λ held. held ≤ 8192) }
    ensures taken { IfOk result (λ held. IsPartTaken (W.taken sink.old) (W.taken sink.new) (take held room.new)
        (take before room.old ++ flat_map line_of (number_lines (number_records_of numbers.now.pairs)))) }
    ensures cut { OnErr result (IsCut (W.taken sink.old) (W.taken sink.new)
        (take before room.old ++ flat_map line_of (number_lines (number_records_of numbers.now.pairs)))) }
    ensures failed { is_err result ≡ W.has_failed sink.new }
{
    let mut held = before;
    let mut pairs = numbers.iter();
    let mut batch = PairBatch::new();
    'pairs: while let Some((key, value)) = batch.next(&mut pairs, &mut ()) {
        let (tenant, number) = split_number_key(key);
        let at = reserve_line(sink, room, held)?;
        room[ROOM - 1] = batch.checksum();
        held = put_number_record(room, at, tenant, number, value.as_slice());
    }
    Ok(held)
}

/// Writes every record: those under keys, and then those under numbers. The lines are gathered, and leave in few
/// pieces.
#[inline(never)]
pub(super) fn write_dump<W: Sink, const PREFIX_LEN: usize>(
    records: &TreeMap<Vec<u8>, Vec<u8>, PREFIX_LEN>,
    numbers: &TreeMap<[u8; NUMBER_KEY], Vec<u8>, PREFIX_LEN>,
    sink: &mut W,
) -> Result<(), WriteFailed>
    requires open { W.has_failed sink.old ≡ false }
    requires held { ArePairs records.now.pairs }
    requires numbers { AreNumberPairs numbers.now.pairs }
    ensures { Writes result (W.taken sink.old) (W.taken sink.new)
        (flat_map line_of (dump_of (all_records_of records.now.pairs numbers.now.pairs)))
        (W.has_failed sink.new) }
{
    let mut room = [0; ROOM];
    let keys = gather_keys(records, sink, &mut room)?;
    let held = gather_numbers(numbers, sink, &mut room, keys)?;
    write_piece(sink, &room[..held])?;
    write_total(sink, records.len(), numbers.len())
}

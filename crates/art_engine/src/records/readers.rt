//! What a look-up is given: a reader of each map, and no map.
ghost use Rattle.std.specs.Prelude.{◌≡◌, ◌≤◌, List, Some, false, flat_map, OnOk};
ghost use Rattle.art_lines.specs.Words.{line_of};
ghost use Rattle.art_engine.specs.Counts.{visits_of, IsWithin};
ghost use Rattle.art_lines.specs.Writes.{Writes};
ghost use Rattle.art_lines.specs.Parsed.{looks_up};
ghost use Rattle.art_engine.specs.Replies.{command_reply};
ghost use Rattle.art_engine.specs.Spans.{ReadsRecords, ReadsNumbers};
ghost use Rattle.art_engine.specs.Stored.{Pair, NumberPair, all_records_of, ArePairs, AreNumberPairs};

use crate::index::Reads;
use crate::lookup::write_look_up;
use art_lines::command::fields::{Fields, NUMBER_KEY};
use art_lines::command::word::LookUp;
use art_lines::{Sink, WriteFailed};
use art_map::TreeMap;
use art_walks::MapReader;

/// A reader of each map. It can't be let go: `execute` alone ends it, which executes a look-up by it and returns how
/// many nodes were read through it.
pub(super) struct Readers<'a, const PREFIX_LEN: usize> {
    keys: MapReader<'a, Vec<u8>, Vec<u8>, PREFIX_LEN>,
    numbers: MapReader<'a, [u8; NUMBER_KEY], Vec<u8>, PREFIX_LEN>,
}

impl<'a, const PREFIX_LEN: usize> Readers<'a, PREFIX_LEN> {
    /// Readers of these maps, which have read nothing yet.
    pub(super) fn new(
        keys: &'a TreeMap<Vec<u8>, Vec<u8>, PREFIX_LEN>,
        numbers: &'a TreeMap<[u8; NUMBER_KEY], Vec<u8>, PREFIX_LEN>,
    ) -> Self
        requires held { ArePairs keys.now.pairs }
        requires numbers { AreNumberPairs numbers.now.pairs }
        ensures bytes { ReadsRecords PREFIX_LEN result.keys keys.now.pairs }
        ensures numbers { ReadsNumbers PREFIX_LEN result.numbers numbers.now.pairs }
        ensures unread { (result.keys.count ≡ 0) × (result.numbers.count ≡ 0) }
    {
        let _all = (keys.len(), numbers.len()); // (there are no more, so that they can be counted)
        Readers {
            keys: keys.reader(),
            numbers: numbers.reader(),
        }
    }

    /// Executes a look-up through a reader of each map. Also returns how many nodes both have read, whatever became of
    /// the reply.
    pub(super) fn execute<W: Sink>(
        self,
        word: LookUp,
        fields: &Fields,
        sink: &mut W,
    ) -> (Result<(), WriteFailed>, Reads)
        requires open { W.has_failed sink.old ≡ false }
        requires bytes { (ps : List Pair) × ReadsRecords PREFIX_LEN self.keys ps }
        requires numbers { (ns : List NumberPair) × ReadsNumbers PREFIX_LEN self.numbers ns }
        requires unread { (self.keys.count ≡ 0) × (self.numbers.count ≡ 0) }
        ensures output { (ps : List Pair) (ns : List NumberPair) → ReadsRecords PREFIX_LEN self.entry.keys ps
            → ReadsNumbers PREFIX_LEN self.entry.numbers ns → Writes result.0 (W.taken sink.old) (W.taken sink.new)
            (flat_map line_of (command_reply (Some (looks_up word fields.now)) (all_records_of ps ns)))
            (W.has_failed sink.new) }
        ensures visits { (ps : List Pair) (ns : List NumberPair) → ReadsRecords PREFIX_LEN self.entry.keys ps
            → ReadsNumbers PREFIX_LEN self.entry.numbers ns → OnOk result.0 (IsWithin
            (visits_of PREFIX_LEN (Some (looks_up word fields.now)) (all_records_of ps ns)) result.1.number) }
        ensures few { (ps : List Pair) (ns : List NumberPair) → ReadsRecords PREFIX_LEN self.entry.keys ps
            → ReadsNumbers PREFIX_LEN self.entry.numbers ns
            → result.1.number ≤ (visits_of PREFIX_LEN (Some (looks_up word fields.now)) (all_records_of ps ns)).most }
    {
        let Readers {
            mut keys,
            mut numbers,
        } = self;
        let written = write_look_up(&mut keys, &mut numbers, word, fields, sink);
        let visits = keys.visits().saturating_add(numbers.visits());
        (written, Reads::of(visits))
    }
}

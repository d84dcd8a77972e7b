//! The records of all tenants: both maps, and all that touches them. No file outside this module can name a map of an
//! index, or a function that takes one. So what is told of reads is believed of this module's files, and of no other.
ghost use Rattle.std.specs.Prelude.{◌≡◌, ◌+◌, ◌≤◌, List, ℕ, length, map, max, flat_map, IfOk, OnOk, Some, false};
ghost use Rattle.art_map.specs.Audit.{audit_of};
ghost use Rattle.art_lines.specs.Commands.{Spells};
ghost use Rattle.art_lines.specs.Parsed.{changes, looks_up, tenant_in_place};
ghost use Rattle.art_lines.specs.Words.{line_of};
ghost use Rattle.art_lines.specs.Writes.{Writes};
ghost use Rattle.art_engine.specs.Ahead.{AreNext};
ghost use Rattle.art_engine.specs.Changed.{IsChangeDone};
ghost use Rattle.art_engine.specs.Counts.{IsWithin, visits_of};
ghost use Rattle.art_engine.specs.Dropped.{IsDropDone};
ghost use Rattle.art_engine.specs.Keys.{full_key_of, full_pair, number_key_of, number_pair};
ghost use Rattle.art_engine.specs.OwnAhead.{AreReadAhead};
ghost use Rattle.art_engine.specs.ReadAhead.{to_come, read_of, texts_of};
ghost use Rattle.art_engine.specs.Records.{AreRecords, no_records};
ghost use Rattle.art_engine.specs.Replies.{command_reply, dump_of};
ghost use Rattle.art_engine.specs.Stored.{all_records_of, ArePairs, AreNumberPairs};

mod change;
mod drop_tenant;
mod dump;
mod maps;
mod path_reader;
mod readers;

use crate::change::Changed;
use crate::drop_tenant::Dropped;
use crate::index::Reads;
use crate::read_ahead::{MIN_RECORDS, ReadAhead};
use art_lines::command::fields::{Fields, NUMBER_KEY};
use art_lines::command::word::{Change, LookUp};
use art_lines::{Sink, WriteFailed};
use art_map::TreeMap;
use art_walks::WellFormedTreeStats;
pub use maps::are_records;
pub use path_reader::PathReader;
use readers::Readers;
use std::alloc::{AllocError, Global};
use std::marker::Model;

/// The records of all tenants: those under keys in one map, and those under numbers in the other.
#[derive(Drop)]
pub(crate) struct Records<const PREFIX_LEN: usize> {
    alloc: Global,
    keys: TreeMap<Vec<u8>, Vec<u8>, PREFIX_LEN>,
    numbers: TreeMap<[u8; NUMBER_KEY], Vec<u8>, PREFIX_LEN>,
}

impl<const PREFIX_LEN: usize> Model for Records<PREFIX_LEN> {
    ghost use Rattle.art_engine.specs.Records.{Records};

    ghost Value = { Records };

    ghost use Rattle.art_engine.specs.Stored.{all_records_of, ArePairs, AreNumberPairs};

    ghost view = { λ s. all_records_of s.keys.pairs s.numbers.pairs };

    ghost invariant = { λ s. ArePairs s.keys.pairs × AreNumberPairs s.numbers.pairs };
}

impl<const PREFIX_LEN: usize> Records<PREFIX_LEN> {
    /// No records.
    pub(crate) fn new(alloc: Global) -> Self
        ensures { result ≡ no_records }
    {
        Records {
            alloc,
            keys: TreeMap::with_prefix_len(alloc),
            numbers: TreeMap::with_prefix_len(alloc),
        }
    }

    /// Those that two maps stand for.
    pub(crate) fn from_maps(
        alloc: Global,
        byte_map: TreeMap<Vec<u8>, Vec<u8>, PREFIX_LEN>,
        number_map: TreeMap<[u8; NUMBER_KEY], Vec<u8>, PREFIX_LEN>,
    ) -> Self
        requires keys { ArePairs byte_map.pairs }
        requires numbers { AreNumberPairs number_map.pairs }
        ensures { result ≡ all_records_of byte_map.entry.pairs number_map.entry.pairs }
    {
        Records {
            alloc,
            keys: byte_map,
            numbers: number_map,
        }
    }

    /// The allocator that is used for them.
    pub(crate) fn alloc(&self) -> Global {
        self.alloc
    }

    /// A law, which does nothing: they are records in order, without conflicts, each of bytes and no longer than a
    /// line.
    pub(crate) fn are_records(&self)
        ensures { AreRecords self.now }
    {
        let _records = &self.keys;
    }

    /// The map of those under keys, for callers of an index.
    pub(crate) fn byte_map(&self) -> &TreeMap<Vec<u8>, Vec<u8>, PREFIX_LEN>
        ensures { map (λ p. (p.0.items, p.1.items)) result.now.pairs ≡ map full_pair self.now.keys }
    {
        &self.keys
    }

    /// The map of those under numbers, for callers of an index.
    pub(crate) fn number_map(&self) -> &TreeMap<[u8; NUMBER_KEY], Vec<u8>, PREFIX_LEN>
        ensures { map (λ p. (p.0, p.1.items)) result.now.pairs ≡ map number_pair self.now.numbers }
    {
        &self.numbers
    }

    /// How many records the larger of both maps has.
    pub(crate) fn larger_len(&self) -> usize
        ensures { result ≡ max (length self.now.keys) (length self.now.numbers) }
    {
        self.keys.len().max(self.numbers.len())
    }

    /// Executes a look-up through a reader of each map. Also returns how many nodes both have read, whatever became of
    /// the reply.
    pub(crate) fn look_up<W: Sink>(
        &self,
        word: LookUp,
        fields: &Fields,
        sink: &mut W,
    ) -> (Result<(), WriteFailed>, Reads)
        requires open { W.has_failed sink.old ≡ false }
        ensures output { Writes result.0 (W.taken sink.old) (W.taken sink.new)
            (flat_map line_of (command_reply (Some (looks_up word fields.now)) self.now))
            (W.has_failed sink.new) }
        ensures visits { OnOk result.0
            (IsWithin (visits_of PREFIX_LEN (Some (looks_up word fields.now)) self.now) result.1.number) }
        ensures few { result.1.number ≤ (visits_of PREFIX_LEN (Some (looks_up word fields.now)) self.now).most }
        ensures are { AreRecords self.now }
    {
        let readers = Readers::new(&self.keys, &self.numbers);
        readers.execute(word, fields, sink)
    }

    /// Prefetches for the next lines of a text through a reader of each map, and returns how many nodes each has read.
    /// What was read ahead of each line are the first nodes of the path of its own full key.
    pub(crate) fn prefetch(&self, read_ahead: &mut ReadAhead, text: &[u8]) -> (Reads, Reads)
        ensures comes { AreNext (texts_of (to_come read_ahead.new)) text.now }
        ensures counted { result.0.number + result.1.number ≡ read_of (to_come read_ahead.new) }
        ensures ahead { AreReadAhead PREFIX_LEN self.now (to_come read_ahead.new) }
    {
        let mut keys = PathReader::new(&self.keys);
        let mut numbers = PathReader::new(&self.numbers);
        read_ahead.read_maps(&mut keys, &mut numbers, MIN_RECORDS, text);
        (Reads::of(keys.end()), Reads::of(numbers.end()))
    }

    /// Makes a change, and returns how it went. If it was out of memory, nothing is changed.
    pub(crate) fn change(&mut self, word: Change, fields: &Fields) -> Changed
        requires spelled { (line : List ℕ) × Spells line (changes word fields.now) }
        ensures { IsChangeDone result (changes word fields.now) self.old self.new }
    {
        change::change(self.alloc, &mut self.keys, &mut self.numbers, word, fields)
    }

    /// Removes all records of the tenant that was read. If it is out of memory, nothing is changed.
    pub(crate) fn drop_tenant(&mut self, fields: &Fields) -> Dropped
        ensures { IsDropDone PREFIX_LEN result (tenant_in_place fields.now) self.old self.new }
    {
        drop_tenant::drop_tenant(&mut self.keys, &mut self.numbers, fields)
    }

    /// Writes every record, as the line that would make it, and how many they are.
    pub(crate) fn write_dump<W: Sink>(&self, sink: &mut W) -> Result<(), WriteFailed>
        requires { W.has_failed sink.old ≡ false }
        ensures { Writes result (W.taken sink.old) (W.taken sink.new) (flat_map line_of (dump_of self.now))
            (W.has_failed sink.new) }
    {
        dump::write_dump(&self.keys, &self.numbers, sink)
    }

    /// Returns how many nodes of each kind the tree of all records under keys has, and that of all under numbers. It
    /// allocates, and fails if there is no memory for that.
    pub(crate) fn count_nodes(
        &self,
    ) -> Result<(WellFormedTreeStats, WellFormedTreeStats), AllocError>
        ensures { IfOk result (λ counts. (counts.0 ≡ audit_of full_key_of self.now.keys)
            × (counts.1 ≡ audit_of number_key_of self.now.numbers)) }
    {
        let keys = self.keys.audit()?;
        let numbers = self.numbers.audit()?;
        Ok((keys, numbers))
    }
}

//! An index: the records, and for proofs alone what its lines have read.
ghost use Rattle.std.specs.Prelude.{◌≡◌, ◌⊎◌, ◌+◌, ◌≤◌, ◌∷◌, [], ◌++◌, map, OnErr, IfErr, IfOk, is_err};
ghost use Rattle.std.specs.Prelude.{false, List, ℕ};
ghost use Rattle.art_lines.specs.Reading.{command_of};
ghost use Rattle.art_engine.specs.Ahead.{AreNext, most_ahead, total};
ghost use Rattle.art_engine.specs.Done.{IsLineAnswered};
ghost use Rattle.art_engine.specs.Faults.{IsCutLine};
ghost use Rattle.art_engine.specs.Keys.{full_pair, number_pair};
ghost use Rattle.art_engine.specs.OwnAhead.{AreReadAhead};
ghost use Rattle.art_engine.specs.Records.{AreRecords, no_records};
ghost use Rattle.art_engine.specs.State.{unread};
ghost use Rattle.art_engine.specs.Stored.{all_records_of, ArePairs, AreNumberPairs};
ghost use Rattle.art_engine.specs.ReadAhead.{command_parsed, to_come, read_of, texts_of, AreLanded, IsLandedParsed};

use crate::handling::{Done, Handled, RunFault};
use crate::read_ahead::{ParsedLine, ReadAhead};
use crate::records::Records;
use art_bytes::{Count, History};
use art_lines::Sink;
use art_lines::command::fields::NUMBER_KEY;
use art_map::TreeMap;
use std::alloc::Global;
use std::marker::Model;

/// How many nodes were read. It can't be let go: an index alone ends it, and counts it.
pub(crate) struct Reads {
    number: u64,
}

impl Reads {
    /// So many.
    pub(crate) fn of(number: u64) -> Self
        ensures { result.number ≡ number }
    {
        Reads { number }
    }
}

/// The records of all tenants. For proofs alone, it also keeps how many nodes each line has read, how many were
/// read ahead of it, and what the readers counted that went ahead.
///
/// ```
/// let mut index: Index<16> = Index::new(rt.alloc());
/// let mut replies = Vec::new(rt.alloc());
/// index.handle(b"put 7 0a0b 6869", &mut ToWriter::new(&mut replies))?;
/// index.handle(b"get 7 0a0b", &mut ToWriter::new(&mut replies))?;
/// assert_eq!(rt; replies.as_slice(), b"new\nis 6869\n".as_slice());
/// ```
#[derive(Drop)]
pub struct Index<const PREFIX_LEN: usize> {
    records: Records<PREFIX_LEN>,
    reads: History,
    ahead: History,
    prefetched: History,
}

impl<const PREFIX_LEN: usize> Model for Index<PREFIX_LEN> {
    ghost use Rattle.art_engine.specs.State.{State};

    ghost Value = { State PREFIX_LEN };

    ghost view = { λ s. record {
      records = s.records;
      reads = s.reads.items;
      ahead = s.ahead.items;
      prefetched = s.prefetched.items;
    } };
}

impl<const PREFIX_LEN: usize> Index<PREFIX_LEN> {
    /// Makes an index that holds nothing. It allocates nothing.
    ///
    /// ```
    /// let mut index: Index<16> = Index::new(rt.alloc());
    /// let mut replies = Vec::new(rt.alloc());
    /// index.handle(b"dump", &mut ToWriter::new(&mut replies))?;
    /// assert_eq!(rt; replies.as_slice(), b"end 0\n".as_slice());
    /// ```
    pub fn new(alloc: Global) -> Self
        ensures { result ≡ unread no_records }
    {
        Index {
            records: Records::new(alloc),
            reads: History::new(),
            ahead: History::new(),
            prefetched: History::new(),
        }
    }

    /// Makes an index of these two maps and nothing else. They have to be maps of records, as `are_records` says. It
    /// allocates nothing.
    ///
    /// ```
    /// let mut byte_map: TreeMap<Vec<u8>, Vec<u8>, 16> = TreeMap::new(rt.alloc());
    /// byte_map.try_insert(b"\0\0\0\x07\x0a".to_vec(rt.alloc())?, b"hi".to_vec(rt.alloc())?)?;
    /// let mut index = Index::from_maps(rt.alloc(), byte_map, TreeMap::new(rt.alloc()));
    /// let mut replies = Vec::new(rt.alloc());
    /// index.handle(b"get 7 0a", &mut ToWriter::new(&mut replies))?;
    /// assert_eq!(rt; replies.as_slice(), b"is 6869\n".as_slice());
    /// ```
    pub fn from_maps(
        alloc: Global,
        byte_map: TreeMap<Vec<u8>, Vec<u8>, PREFIX_LEN>,
        number_map: TreeMap<[u8; NUMBER_KEY], Vec<u8>, PREFIX_LEN>,
    ) -> Self
        requires keys { ArePairs byte_map.pairs }
        requires numbers { AreNumberPairs number_map.pairs }
        ensures { result ≡ unread (all_records_of byte_map.entry.pairs number_map.entry.pairs) }
    {
        Index {
            records: Records::from_maps(alloc, byte_map, number_map),
            reads: History::new(),
            ahead: History::new(),
            prefetched: History::new(),
        }
    }

    /// The allocator that it uses.
    pub(crate) fn alloc(&self) -> Global {
        self.records.alloc()
    }

    /// A law, which does nothing: what an index holds are records in order, without conflicts, each of bytes and no
    /// longer than a line.
    pub fn holds_records(&self)
        ensures { AreRecords self.now.records }
    {
        self.records.are_records();
    }

    /// Returns the records under keys, each value under its full key: four bytes of the tenant, the highest first, and
    /// then its key.
    ///
    /// ```
    /// let mut index: Index<16> = Index::new(rt.alloc());
    /// index.handle(b"put 7 0a 6869", &mut ToWriter::new(&mut Vec::new(rt.alloc())))?;
    /// let value = index.byte_map().get(b"\0\0\0\x07\x0a");
    /// assert_eq!(rt; value.map(|it| it.as_slice()), Some(b"hi".as_slice()));
    /// ```
    pub fn byte_map(&self) -> &TreeMap<Vec<u8>, Vec<u8>, PREFIX_LEN>
        ensures { map (λ p. (p.0.items, p.1.items)) result.now.pairs ≡ map full_pair self.now.records.keys }
    {
        self.records.byte_map()
    }

    /// Returns the records under numbers, each value under twelve bytes: four of the tenant, the highest first, and
    /// then eight of the number with its top bit flipped.
    ///
    /// ```
    /// let mut index: Index<16> = Index::new(rt.alloc());
    /// index.handle(b"nput 7 -5 6869", &mut ToWriter::new(&mut Vec::new(rt.alloc())))?;
    /// let key = Mapped::<ConcatTuple<(ToUBE, ToIBE)>, (u32, i64)>::new(rt.alloc(), (7, -5))?;
    /// assert!(rt; index.number_map().contains_key(&key));
    /// ```
    pub fn number_map(&self) -> &TreeMap<[u8; NUMBER_KEY], Vec<u8>, PREFIX_LEN>
        ensures { map (λ p. (p.0, p.1.items)) result.now.pairs ≡ map number_pair self.now.records.numbers }
    {
        self.records.number_map()
    }

    /// Counts what a line has read, and returns how many nodes these were.
    fn count(&mut self, reads: Reads) -> u64
        ensures number { result ≡ reads.number }
        ensures counted { self.new.reads ≡ self.old.reads ++ reads.number ∷ [] }
        ensures kept { (self.new.records ≡ self.old.records) × (self.new.ahead ≡ self.old.ahead)
            × (self.new.prefetched ≡ self.old.prefetched) }
    {
        let Reads { number } = reads;
        self.reads = self.reads.then_count(&Count { number });
        number
    }

    /// Counts how many nodes were read ahead of a line.
    pub(crate) fn count_ahead(&mut self, ahead: u64)
        ensures counted { self.new.ahead ≡ self.old.ahead ++ ahead ∷ [] }
        ensures kept { (self.new.records ≡ self.old.records) × (self.new.reads ≡ self.old.reads)
            × (self.new.prefetched ≡ self.old.prefetched) }
    {
        self.ahead = self.ahead.then_count(&Count { number: ahead });
    }

    /// Prefetches for the next lines of a text, through a reader of each map, if those that were parsed before their
    /// turn are used up and where it may pay. What each reader has counted is kept. What was read ahead of each line
    /// are the first nodes of the path of its own full key in the tree of the records, in order, and as many as are
    /// told for it.
    #[inline]
    pub(crate) fn prefetch(&mut self, read_ahead: &mut ReadAhead, text: &[u8])
        requires comes { AreNext (texts_of (to_come read_ahead.old)) text.now }
        ensures comes { AreNext (texts_of (to_come read_ahead.new)) text.now }
        ensures counted { total self.new.prefetched + read_of (to_come read_ahead.old)
            ≡ total self.old.prefetched + read_of (to_come read_ahead.new) }
        ensures ahead { (to_come read_ahead.new ≡ to_come read_ahead.old)
            ⊎ AreReadAhead PREFIX_LEN self.old.records (to_come read_ahead.new) }
        ensures landed { AreLanded PREFIX_LEN self.old.records read_ahead.old
            → AreLanded PREFIX_LEN self.new.records read_ahead.new }
        ensures kept { (self.new.records ≡ self.old.records) × (self.new.reads ≡ self.old.reads)
            × (self.new.ahead ≡ self.old.ahead) }
    {
        if read_ahead.should_read(self.records.larger_len()) {
            self.prefetch_now(read_ahead, text);
        }
    }

    /// Prefetches for the next lines of a text, where none are to come that were parsed before their turn.
    fn prefetch_now(&mut self, read_ahead: &mut ReadAhead, text: &[u8])
        ensures comes { AreNext (texts_of (to_come read_ahead.new)) text.now }
        ensures counted { total self.new.prefetched ≡ total self.old.prefetched + read_of (to_come read_ahead.new) }
        ensures ahead { AreReadAhead PREFIX_LEN self.old.records (to_come read_ahead.new) }
        ensures kept { (self.new.records ≡ self.old.records) × (self.new.reads ≡ self.old.reads)
            × (self.new.ahead ≡ self.old.ahead) }
    {
        let (keys, numbers) = self.records.prefetch(read_ahead, text);
        self.count_prefetched(keys);
        self.count_prefetched(numbers);
    }

    /// Counts what a reader has read that went ahead of lines.
    fn count_prefetched(&mut self, reads: Reads)
        ensures counted { self.new.prefetched ≡ self.old.prefetched ++ reads.number ∷ [] }
        ensures kept { (self.new.records ≡ self.old.records) × (self.new.reads ≡ self.old.reads)
            × (self.new.ahead ≡ self.old.ahead) }
    {
        let Reads { number } = reads;
        self.prefetched = self.prefetched.then_count(&Count { number });
    }

    /// Executes one line as `handle` does, which was parsed. If its record is known from what was read ahead of it,
    /// that is what it has read.
    pub(crate) fn execute_parsed<W: Sink>(
        &mut self,
        line: &ParsedLine<'_>,
        sink: &mut W,
    ) -> Result<Handled, RunFault>
        requires open { W.has_failed sink.old ≡ false }
        requires read { (text : List ℕ) × (command_parsed line.now ≡ command_of text) }
        requires few { line.now.ahead ≤ most_ahead (command_parsed line.now) }
        requires landed { IsLandedParsed PREFIX_LEN self.old.records line.now }
        ensures done { (text : List ℕ) → command_parsed line.now ≡ command_of text
            → IfOk result (λ done. IsLineAnswered done.memory done.visits text self.old self.new
            (W.taken sink.old) (W.taken sink.new)) }
        ensures ahead { self.new.ahead ≡ self.old.ahead ++ line.now.ahead ∷ [] }
        ensures prefetched { self.new.prefetched ≡ self.old.prefetched }
        ensures err { IfErr result (λ fault. fault ≡ RunFault.Write) }
        ensures failed { is_err result ≡ W.has_failed sink.new }
        ensures cut { (text : List ℕ) → command_parsed line.now ≡ command_of text
            → OnErr result (IsCutLine self.old text (W.taken sink.old) (W.taken sink.new) self.new) }
    {
        let done = self.records.execute(line, sink);
        let Done {
            written,
            memory,
            reads,
        } = done;
        let visits = self.count(reads);
        self.count_ahead(line.ahead);
        written?;
        Ok(Handled { memory, visits })
    }
}

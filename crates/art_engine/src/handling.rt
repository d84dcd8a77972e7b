//! What a line does: it is parsed, and its word's arm does the work and writes the answer. No map is at hand here, and
//! what an arm has read can't be let go: it is told, and the index counts it.
ghost use Rattle.std.specs.Prelude.{◌≡◌, ◌∷◌, [], ◌++◌, OnErr, IfOk, IfErr, IfSome, is_err, true, List, ℕ};
ghost use Rattle.std.specs.Prelude.{false, flat_map, Some, None};
ghost use Rattle.art_lines.specs.Commands.{audit, dump, Spells};
ghost use Rattle.art_lines.specs.Parsed.{changes, drops, looks_up};
ghost use Rattle.art_lines.specs.Reading.{command_of};
ghost use Rattle.art_lines.specs.Words.{line_of};
ghost use Rattle.art_lines.specs.Writes.{Writes};
ghost use Rattle.art_engine.specs.Counts.{IsShort, IsWithin, ReadsOwnPath, line_visits, visits_of};
ghost use Rattle.art_engine.specs.Done.{IsCommandDone};
ghost use Rattle.art_engine.specs.Faults.{IsCutLine};
ghost use Rattle.art_engine.specs.Landed.{IsLandingOf};
ghost use Rattle.art_engine.specs.Outcome.{answer, left_by};
ghost use Rattle.art_engine.specs.ReadAhead.{command_parsed, IsLandedParsed};
ghost use Rattle.art_engine.specs.Refusals.{LineMayRefuse};
ghost use Rattle.art_engine.specs.Replies.{command_reply};

use crate::audit::write_audit;
use crate::change::write_changed;
use crate::drop_tenant::write_dropped;
use crate::index::{Index, Reads};
use crate::read_ahead::{Landing, ParsedLine};
use crate::records::Records;
use art_lines::command::fields::Fields;
use art_lines::command::read_line;
use art_lines::command::word::{Change, LookUp, Whole, Word};
use art_lines::reply::{write_piece, write_prefix_pair, write_value};
use art_lines::{Sink, WriteFailed};
use thiserror::Error;

/// Which end of a run failed.
#[derive(Debug, Drop, Error)]
pub enum RunFault {
    /// The source failed to give bytes.
    #[error("read failed")]
    Read,
    /// The sink failed to take bytes.
    #[error("write failed")]
    Write,
}

impl From<WriteFailed> for RunFault {
    ghost use Rattle.art_engine.specs.declared.handling.RunFault.TheVariants.{Write};
    ghost use Rattle.std.specs.Prelude.{◌≡◌};

    ghost from_gives = { λ _ fault. fault ≡ Write };

    fn from(_failed: WriteFailed) -> RunFault {
        RunFault::Write
    }
}

/// How a line was executed.
#[derive(Clone, Copy, Debug)]
pub struct Handled {
    /// Whether the reply was `memory`.
    pub memory: bool,
    /// The number of nodes read by a look-up, or read and freed by a drop. It is 0 for every other line, and for one
    /// whose reply was `memory`.
    pub visits: u64,
}

impl<const PREFIX_LEN: usize> Index<PREFIX_LEN> {
    /// Executes one line, which is passed without its newline, and writes its whole reply.
    ///
    /// Returns `RunFault::Write` if the sink fails. What the line does is done then, and its reply is cut.
    ///
    /// ```
    /// let mut index: Index<16> = Index::new(rt.alloc());
    /// let mut replies = Vec::new(rt.alloc());
    /// let done = index.handle(b"get 7 0a", &mut ToWriter::new(&mut replies))?;
    /// assert!(rt; !done.memory);
    /// assert_eq!(rt; replies.as_slice(), b"none\n".as_slice());
    /// ```
    pub fn handle<W: Sink>(&mut self, line: &[u8], sink: &mut W) -> Result<Handled, RunFault>
        requires { W.has_failed sink.old ≡ false }
        ensures output { IfOk result (λ done.
            W.taken sink.new ≡ W.taken sink.old ++ answer done.memory self.old.records line.now) }
        ensures left { IfOk result (λ done. self.new.records ≡ left_by done.memory self.old.records line.now) }
        ensures lawful { IfOk result (λ done. done.memory ≡ true → LineMayRefuse self.old.records line.now) }

        // A look-up reads so many nodes, and a drop reads and frees so many, given by the records and `PREFIX_LEN`
        // alone; each other line reads none, nor does one that found no memory. They are counted.
        ensures visits { IfOk result (λ done.
            IsWithin (line_visits PREFIX_LEN done.memory line.now self.old.records) done.visits) }
        ensures short { IfOk result (λ done. IsShort (command_of line.now) done.visits) }
        ensures own_path { IfOk result (λ done. ReadsOwnPath (command_of line.now) self.old.records done.visits) }
        ensures counted { IfOk result (λ done. self.new.reads ≡ self.old.reads ++ done.visits ∷ []) }

        // Nothing is read ahead of it.
        ensures ahead { IfOk result (λ done. self.new.ahead ≡ self.old.ahead ++ 0 ∷ []) }
        ensures ahead_of_cut { OnErr result (self.new.ahead ≡ self.old.ahead ++ 0 ∷ []) }
        ensures prefetched { self.new.prefetched ≡ self.old.prefetched }

        ensures err { IfErr result (λ fault. fault ≡ RunFault.Write) }
        ensures failed { is_err result ≡ W.has_failed sink.new }
        ensures cut { OnErr result (IsCutLine self.old line.now (W.taken sink.old) (W.taken sink.new) self.new) }
    {
        let mut fields = Fields::new();
        let word = read_line(line, &mut fields);
        let parsed = ParsedLine {
            word,
            fields: &fields,
            ahead: 0,
            landing: Landing::Open,
            value: &[],
        };
        self.execute_parsed(&parsed, sink)
    }
}

/// What was done for a line.
pub(crate) struct Done {
    /// Whether its answer was written whole.
    pub(crate) written: Result<(), WriteFailed>,
    /// Whether its answer is `memory`.
    pub(crate) memory: bool,
    /// What it has read that counts.
    pub(crate) reads: Reads,
}

impl<const PREFIX_LEN: usize> Records<PREFIX_LEN> {
    /// Executes a line that was parsed, and writes its answer.
    pub(crate) fn execute<W: Sink>(&mut self, line: &ParsedLine<'_>, sink: &mut W) -> Done
        requires open { W.has_failed sink.old ≡ false }
        requires read { (text : List ℕ) × (command_parsed line.now ≡ command_of text) }
        requires landed { IsLandedParsed PREFIX_LEN self.old line.now }
        ensures { IsCommandDone PREFIX_LEN (command_parsed line.now) result.memory result.reads.number
            self.old self.new result.written (W.taken sink.old) (W.taken sink.new) (W.has_failed sink.new) }
    {
        let fields = line.fields;
        match line.word {
            Some(Word::LookUp(word)) => self.execute_look_up(word, line, sink),
            Some(Word::Change(word)) => self.execute_change(word, fields, sink),
            Some(Word::Drop) => self.execute_drop(fields, sink),
            Some(Word::Whole(Whole::Dump)) => self.execute_dump(sink),
            Some(Word::Whole(Whole::Audit)) => self.execute_audit(sink),
            None => self.reply_bad(sink),
        }
    }

    /// Answers a look-up: by what is known of its record, if that is so, and else by the maps.
    fn execute_look_up<W: Sink>(&self, word: LookUp, line: &ParsedLine<'_>, sink: &mut W) -> Done
        requires open { W.has_failed sink.old ≡ false }
        requires landed { IsLandingOf PREFIX_LEN self.now (Some (looks_up word line.now.fields.now)) line.now.landing
            line.now.value.now line.now.ahead }
        ensures { IsCommandDone PREFIX_LEN (Some (looks_up word line.now.fields.now)) result.memory
            result.reads.number self.now self.now result.written (W.taken sink.old) (W.taken sink.new)
            (W.has_failed sink.new) }
    {
        self.are_records();
        if let Some(written) = self.reply_landed(word, line, sink) {
            return Done {
                written,
                memory: false,
                reads: Reads::of(line.ahead),
            };
        }
        let (written, reads) = self.look_up(word, line.fields, sink);
        Done {
            written,
            memory: false,
            reads,
        }
    }

    /// Answers a look-up of one record by what its path came to. If that isn't known, it does nothing.
    #[inline(always)]
    fn reply_landed<W: Sink>(
        &self,
        word: LookUp,
        line: &ParsedLine<'_>,
        sink: &mut W,
    ) -> Option<Result<(), WriteFailed>>
        requires open { W.has_failed sink.old ≡ false }
        requires landed { IsLandingOf PREFIX_LEN self.now (Some (looks_up word line.now.fields.now)) line.now.landing
            line.now.value.now line.now.ahead }
        ensures left_alone { result ≡ None → sink.new ≡ sink.old }
        ensures output { IfSome result (λ written. Writes written (W.taken sink.old) (W.taken sink.new)
            (flat_map line_of (command_reply (Some (looks_up word line.now.fields.now)) self.now))
            (W.has_failed sink.new)) }
        ensures visits { IfSome result (λ _.
            IsWithin (visits_of PREFIX_LEN (Some (looks_up word line.now.fields.now)) self.now) line.now.ahead) }
    {
        let len = match line.landing {
            Landing::Open => return None,
            Landing::Leaf => return None,
            Landing::Missed => None,
            Landing::Found(len) => Some(len),
        };
        match word {
            LookUp::Get => Some(write_value(sink, len.and(Some(line.value)))),
            LookUp::NGet => Some(write_value(sink, len.and(Some(line.value)))),
            LookUp::Find => {
                let key = line.fields.key();
                let pair = match len {
                    Some(len) => Some((&key[..len.saturating_sub(4).min(key.len())], line.value)),
                    None => None,
                };
                Some(write_prefix_pair(sink, pair))
            }
            LookUp::List => None,
            LookUp::Span => None,
            LookUp::NSpan => None,
        }
    }

    /// Makes a change, and writes how it went.
    fn execute_change<W: Sink>(&mut self, word: Change, fields: &Fields, sink: &mut W) -> Done
        requires open { W.has_failed sink.old ≡ false }
        requires spelled { (line : List ℕ) × Spells line (changes word fields.now) }
        ensures { IsCommandDone PREFIX_LEN (Some (changes word fields.now)) result.memory result.reads.number
            self.old self.new result.written (W.taken sink.old) (W.taken sink.new) (W.has_failed sink.new) }
    {
        let changed = self.change(word, fields);
        Done {
            written: write_changed(sink, &changed),
            memory: changed.is_memory(),
            reads: Reads::of(0),
        }
    }

    /// Drops a tenant, and writes how that went.
    fn execute_drop<W: Sink>(&mut self, fields: &Fields, sink: &mut W) -> Done
        requires { W.has_failed sink.old ≡ false }
        ensures { IsCommandDone PREFIX_LEN (Some (drops fields.now)) result.memory result.reads.number self.old self.new
            result.written (W.taken sink.old) (W.taken sink.new) (W.has_failed sink.new) }
    {
        let dropped = self.drop_tenant(fields);
        Done {
            written: write_dropped(sink, dropped),
            memory: dropped.is_memory(),
            reads: Reads::of(dropped.visits()),
        }
    }

    /// Writes every record.
    fn execute_dump<W: Sink>(&self, sink: &mut W) -> Done
        requires { W.has_failed sink.old ≡ false }
        ensures { IsCommandDone PREFIX_LEN (Some dump) result.memory result.reads.number self.now self.now
            result.written (W.taken sink.old) (W.taken sink.new) (W.has_failed sink.new) }
    {
        Done {
            written: self.write_dump(sink),
            memory: false,
            reads: Reads::of(0),
        }
    }

    /// Counts the nodes of both trees, and writes how many they are.
    fn execute_audit<W: Sink>(&self, sink: &mut W) -> Done
        requires { W.has_failed sink.old ≡ false }
        ensures { IsCommandDone PREFIX_LEN (Some audit) result.memory result.reads.number self.now self.now
            result.written (W.taken sink.old) (W.taken sink.new) (W.has_failed sink.new) }
    {
        match self.count_nodes() {
            Ok((keys, numbers)) => Done {
                written: write_audit(sink, &keys, &numbers),
                memory: false,
                reads: Reads::of(0),
            },
            Err(_) => Done {
                written: write_piece(sink, b"memory\n"),
                memory: true,
                reads: Reads::of(0),
            },
        }
    }

    /// Answers a line that spells no command.
    fn reply_bad<W: Sink>(&self, sink: &mut W) -> Done
        requires { W.has_failed sink.old ≡ false }
        ensures { IsCommandDone PREFIX_LEN None result.memory result.reads.number self.now self.now
            result.written (W.taken sink.old) (W.taken sink.new) (W.has_failed sink.new) }
    {
        Done {
            written: write_piece(sink, b"bad\n"),
            memory: false,
            reads: Reads::of(0),
        }
    }
}

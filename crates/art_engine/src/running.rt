//! From a source to a sink.
//!
//! The order of calls is no value that a clause could name. So `read_piece` alone reads from the source. It requires of
//! the sink that nothing is held back in it (`is_out`), which `send` ensures.
ghost use Rattle.std.specs.Prelude.{◌≡◌, ℕ, ◌+◌, ◌<◌, ◌≤◌, ◌++◌, ◌∷◌, ◌↔◌, ◌⊎◌, [], List, length, take, OnOk, OnErr};
ghost use Rattle.std.specs.Prelude.{Bool, IfErr, IfOk, IsTrue, is_err, true, false, suc, Err, Ok, option_map};
ghost use Rattle.art_lines.specs.Ends.{bytes_taken, calls_to_flush, has_write_failed, writes_unflushed};
ghost use Rattle.art_lines.specs.Lines.{lines_of, whole_lines_of, lines_so_far};
ghost use Rattle.art_engine.specs.State.{State};
ghost use Rattle.art_lines.specs.Reading.{command_of};
ghost use Rattle.art_engine.specs.Ahead.{AreNext, IsAllTold, Tells, most_ahead, total};
ghost use Rattle.art_lines.specs.Parsed.{command_with};
ghost use Rattle.art_lines.specs.declared.command.fields.Fields.{Fields};
ghost use Rattle.art_engine.specs.Done.{records_left};
ghost use Rattle.art_engine.specs.ReadAhead.{ahead_now, command_now, to_come, read_of, texts_of};
ghost use Rattle.art_engine.specs.ReadAhead.{AreLanded, IsLandedNow};
ghost use Rattle.art_engine.specs.Records.{Records};
ghost use Rattle.art_engine.specs.Outcome.{IsLineDone, IsOutcome, answer};
ghost use Rattle.art_engine.specs.Faults.{AfterWriteFault, IsCutLine};
ghost use Rattle.art_engine.specs.Progress.{Carried, IsCutRun, NoNewline};

use crate::handling::RunFault;
use crate::index::Index;
use crate::piece::PieceRoom;
use crate::read_ahead::ReadAhead;
use arrayvec::ArrayVec;
use art_lines::command::LINE_ROOM;
use art_lines::command::word::Word;
use art_lines::{ReadFailed, Sink, Source, ToWriter};
use memchr::memchr;
use std::io::Write;

/// Reads lines to the end of the input, and writes the reply to each. Before each read, the replies to all whole lines
/// so far have been written. A last line without a newline counts, unless it is empty. After a failed read it doesn't.
///
/// ```
/// let mut index: Index<16> = Index::new(rt.alloc());
/// let mut source = FromReader::new(b"put 7 0a0b 6869\nget 7 0a0b\n".as_slice());
/// let mut replies = Vec::new(rt.alloc());
/// run(&mut index, &mut source, &mut ToWriter::new(&mut replies))?;
/// assert_eq!(rt; replies.as_slice(), b"new\nis 6869\n".as_slice());
/// ```
pub fn run<S: Source, W: Sink, const PREFIX_LEN: usize>(
    index: &mut Index<PREFIX_LEN>,
    source: &mut S,
    sink: &mut W,
) -> Result<(), RunFault>
    requires source_open { S.has_failed source.old ≡ false }
    requires source_goes_on { S.has_ended source.old ≡ false }
    requires sink_open { W.has_failed sink.old ≡ false }

    // Where it answers Ok, the source has ended, and what was written is the replies to the lines of the text given.
    // What each line has read of the trees is counted, and so is what was read ahead of it.
    ensures ended { OnOk result (S.has_ended source.new ≡ true) }
    ensures outcome { OnOk result ((text written : List ℕ)
        × (S.given source.new ≡ S.given source.old ++ text)
        × (W.taken sink.new ≡ W.taken sink.old ++ written)
        × IsOutcome index.old (lines_of text) written index.new) }

    // However it ends, all that the readers counted that went ahead of lines is told, and nothing else is: what was
    // read ahead of a line beside it, and after a failed write that of lines which did not come after them.
    ensures ahead { IsAllTold index.old index.new }

    // A fault is that of the end that failed.
    ensures read { (result ≡ Err RunFault.Read) ↔ (S.has_failed source.new ≡ true) }
    ensures write { (result ≡ Err RunFault.Write) ↔ (W.has_failed sink.new ≡ true) }

    // After a failed read, the whole lines of the text given are answered, and nothing else.
    ensures after_read_fault { result ≡ Err RunFault.Read → (text written : List ℕ)
        × (S.given source.new ≡ S.given source.old ++ text)
        × (W.taken sink.new ≡ W.taken sink.old ++ written)
        × IsOutcome index.old (whole_lines_of text) written index.new }

    // After a failed write, one line more is carried out than is answered whole. Of its answer a beginning is written.
    ensures after_write_fault { result ≡ Err RunFault.Write → (text written : List ℕ)
        × (S.given source.new ≡ S.given source.old ++ text)
        × (W.taken sink.new ≡ W.taken sink.old ++ written)
        × AfterWriteFault index.old (lines_so_far (S.has_ended source.new) text) written index.new }
{
    let mut held: ArrayVec<u8, LINE_ROOM> = ArrayVec::new();
    let mut read_ahead = ReadAhead::new(index.alloc());
    run_held(index, &mut held, &mut read_ahead, source, sink)
}

/// Does what `run` does, over room that it is lent. (`run` owns it and has one way out: Rattle's own compiler makes
/// room at each for what is dropped there.)
fn run_held<S: Source, W: Sink, const PREFIX_LEN: usize>(
    index: &mut Index<PREFIX_LEN>,
    held: &mut ArrayVec<u8, LINE_ROOM>,
    read_ahead: &mut ReadAhead,
    source: &mut S,
    sink: &mut W,
) -> Result<(), RunFault>
    requires none_held { held.old.items ≡ [] }
    requires used_up { to_come read_ahead.old ≡ [] }
    requires source_open { S.has_failed source.old ≡ false }
    requires source_goes_on { S.has_ended source.old ≡ false }
    requires sink_open { W.has_failed sink.old ≡ false }
    ensures ended { OnOk result (S.has_ended source.new ≡ true) }
    ensures outcome { OnOk result ((text written : List ℕ)
        × (S.given source.new ≡ S.given source.old ++ text)
        × (W.taken sink.new ≡ W.taken sink.old ++ written)
        × IsOutcome index.old (lines_of text) written index.new) }
    ensures ahead { IsAllTold index.old index.new }
    ensures read { (result ≡ Err RunFault.Read) ↔ (S.has_failed source.new ≡ true) }
    ensures write { (result ≡ Err RunFault.Write) ↔ (W.has_failed sink.new ≡ true) }
    ensures after_read_fault { result ≡ Err RunFault.Read → (text written : List ℕ)
        × (S.given source.new ≡ S.given source.old ++ text)
        × (W.taken sink.new ≡ W.taken sink.old ++ written)
        × IsOutcome index.old (whole_lines_of text) written index.new }
    ensures after_write_fault { result ≡ Err RunFault.Write → (text written : List ℕ)
        × (S.given source.new ≡ S.given source.old ++ text)
        × (W.taken sink.new ≡ W.taken sink.old ++ written)
        × AfterWriteFault index.old (lines_so_far (S.has_ended source.new) text) written index.new }
{
    let mut room = PieceRoom::new(index.alloc());
    'reads: loop {
        sink.send();
        let buf = room.as_mut_slice();
        let Ok(n) = read_piece(source, sink, buf) else {
            return Err(RunFault::Read);
        };
        if n == 0 {
            break 'reads;
        }
        feed(index, held, read_ahead, &buf[..n], sink)?;
    }
    drop(room);
    if held.is_empty() {
        return Ok(());
    }
    let line = held.as_slice();
    read_ahead.parse_now(line);
    execute_current(index, read_ahead, sink)?;
    Ok(())
}

/// Reads the next piece, and returns how many bytes it has. No other function reads from a source. Nothing may be held
/// back in the sink then: a client may wait for its replies before it sends more.
#[inline(always)]
fn read_piece<S: Source, W: Sink>(
    source: &mut S,
    _sink: &W,
    buf: &mut [u8],
) -> Result<usize, ReadFailed>
    requires room { 0 < length buf.old }
    requires out { W.is_out _sink.now }
    ensures bound { IfOk result (λ n. n ≤ length buf.new) }
    ensures gives { IfOk result (λ n. S.given source.new ≡ S.given source.old ++ take n buf.new) }
    ensures gives_none { OnErr result (S.given source.new ≡ S.given source.old) }
    ensures failed { is_err result ≡ S.has_failed source.new }
    ensures ends { result ≡ Ok 0 → IsTrue (S.has_ended source.new) }
    ensures goes_on { IfOk result (λ n. 0 < n → S.has_ended source.new ≡ S.has_ended source.old) }
    ensures ended_before { OnErr result (S.has_ended source.new ≡ S.has_ended source.old) }
    ensures fewer { IfOk result (λ n. 0 < n → S.reads_left source.new < S.reads_left source.old) }
{
    source.read(buf)
}

/// Executes the lines that the piece ends, and holds what stands after them. A line that lies whole in the piece is
/// handled there; only a line that was cut is put together. What the look-ups among them read is read ahead.
fn feed<W: Sink, const PREFIX_LEN: usize>(
    index: &mut Index<PREFIX_LEN>,
    held: &mut ArrayVec<u8, LINE_ROOM>,
    read_ahead: &mut ReadAhead,
    piece: &[u8],
    sink: &mut W,
) -> Result<(), RunFault>
    requires open { W.has_failed sink.old ≡ false }
    requires used_up { to_come read_ahead.old ≡ [] }
    ensures carried { OnOk result ((start : State PREFIX_LEN) (text before : List ℕ)
        → Carried start index.old text held.old.items before (W.taken sink.old) []
        → Carried start index.new (text ++ piece.now) held.new.items before (W.taken sink.new) []) }
    ensures used_up { to_come read_ahead.new ≡ [] }
    ensures counted { Tells index.old 0 index.new 0 }
    ensures cut { OnErr result ((start : State PREFIX_LEN) (text before : List ℕ)
        → Carried start index.old text held.old.items before (W.taken sink.old) []
        → IsCutRun start index.new (whole_lines_of (text ++ piece.now)) before (W.taken sink.new)) }
    ensures err { IfErr result (λ fault. fault ≡ RunFault.Write) }
    ensures failed { is_err result ≡ W.has_failed sink.new }
{
    let mut rest = piece;
    'lines: while let Some(at) = memchr(b'\n', rest) {
        finish_line(index, held, read_ahead, rest, &rest[..at], sink)?;
        rest = &rest[at + 1..];
    }
    append_capped(held, rest);
    Ok(())
}

/// Carries out the line that is held and then ends with the part, with which the rest of the piece begins.
fn finish_line<W: Sink, const PREFIX_LEN: usize>(
    index: &mut Index<PREFIX_LEN>,
    held: &mut ArrayVec<u8, LINE_ROOM>,
    read_ahead: &mut ReadAhead,
    rest: &[u8],
    part: &[u8],
    sink: &mut W,
) -> Result<(), RunFault>
    requires open { W.has_failed sink.old ≡ false }
    requires part { NoNewline part.now × ((following : List ℕ) × (rest.now ≡ (part.now ++ 10 ∷ []) ++ following)) }
    requires comes { AreNext (texts_of (to_come read_ahead.old)) rest.now }
    requires landed { AreLanded PREFIX_LEN index.old.records read_ahead.old }
    requires cut { (held.old.items ≡ []) ⊎ (to_come read_ahead.old ≡ []) }
    ensures carried { OnOk result ((start : State PREFIX_LEN) (text before : List ℕ)
        → NoNewline part.now
        → Carried start index.old text held.old.items before (W.taken sink.old) (to_come read_ahead.old)
        → Carried start index.new (text ++ part.now ++ 10 ∷ []) held.new.items before (W.taken sink.new)
        (to_come read_ahead.new)) }
    ensures emptied { OnOk result (held.new.items ≡ []) }
    ensures comes { OnOk result ((following : List ℕ) → rest.now ≡ (part.now ++ 10 ∷ []) ++ following
        → AreNext (texts_of (to_come read_ahead.new)) following) }
    ensures landed { OnOk result (AreLanded PREFIX_LEN index.new.records read_ahead.new) }
    ensures used_up { OnErr result (to_come read_ahead.new ≡ []) }
    ensures counted { Tells index.old (read_of (to_come read_ahead.old)) index.new (read_of (to_come read_ahead.new)) }
    ensures cut { OnErr result ((start : State PREFIX_LEN) (text before : List ℕ)
        → NoNewline part.now
        → Carried start index.old text held.old.items before (W.taken sink.old) (to_come read_ahead.old)
        → IsCutRun start index.new (whole_lines_of (text ++ part.now ++ 10 ∷ [])) before (W.taken sink.new)) }
    ensures err { IfErr result (λ fault. fault ≡ RunFault.Write) }
    ensures failed { is_err result ≡ W.has_failed sink.new }
{
    if held.is_empty() {
        index.prefetch(read_ahead, rest);
        read_ahead.next(part);
        execute_current(index, read_ahead, sink)?;
        return Ok(());
    }
    append_capped(held, part);
    let line = held.as_slice();
    read_ahead.parse_now(line);
    execute_current(index, read_ahead, sink)?;
    held.clear();
    Ok(())
}

/// Whether a line with this word leaves the records as they are.
fn keeps_records(word: Option<Word>) -> bool
    ensures { IsTrue result → (fields : Fields) (memory : Bool) (records : Records)
        → records_left memory (option_map (λ word. command_with word fields) word) records ≡ records }
{
    match word {
        None => true,
        Some(Word::LookUp(_)) => true,
        Some(Word::Whole(_)) => true,
        Some(Word::Change(_)) => false,
        Some(Word::Drop) => false,
    }
}

/// Executes the line that came last. If the sink fails, what was read ahead of lines that do not come is counted, too.
/// If it may change the records, what the paths of lines to come came to is forgotten.
fn execute_current<W: Sink, const PREFIX_LEN: usize>(
    index: &mut Index<PREFIX_LEN>,
    read_ahead: &mut ReadAhead,
    sink: &mut W,
) -> Result<(), RunFault>
    requires open { W.has_failed sink.old ≡ false }
    requires read { (line : List ℕ) × (command_now read_ahead.old ≡ command_of line) }
    requires few { ahead_now read_ahead.old ≤ most_ahead (command_now read_ahead.old) }
    requires now { IsLandedNow PREFIX_LEN index.old.records read_ahead.old }
    requires landed { AreLanded PREFIX_LEN index.old.records read_ahead.old }
    ensures landed { OnOk result (AreLanded PREFIX_LEN index.new.records read_ahead.new) }
    ensures done { (line : List ℕ) → command_now read_ahead.old ≡ command_of line
        → OnOk result ((memory : Bool) × (done : IsLineDone memory index.old line index.new)
        × (W.taken sink.new ≡ W.taken sink.old ++ answer memory index.old.records line)
        × (done.visits_ahead ≤ ahead_now read_ahead.old)) }
    ensures cut { (line : List ℕ) → command_now read_ahead.old ≡ command_of line
        → OnErr result ((cut : IsCutLine index.old line (W.taken sink.old) (W.taken sink.new) index.new)
        × (cut.visits_ahead ≤ ahead_now read_ahead.old)) }
    ensures kept { OnOk result (to_come read_ahead.new ≡ to_come read_ahead.old) }
    ensures used_up { OnErr result (to_come read_ahead.new ≡ []) }
    ensures counted { total index.new.ahead + read_of (to_come read_ahead.new)
        ≡ total index.old.ahead + ahead_now read_ahead.old + read_of (to_come read_ahead.old) }
    ensures prefetched { index.new.prefetched ≡ index.old.prefetched }
    ensures err { IfErr result (λ fault. fault ≡ RunFault.Write) }
    ensures failed { is_err result ≡ W.has_failed sink.new }
{
    let parsed = read_ahead.parsed();
    let keeps = keeps_records(parsed.word);
    match index.execute_parsed(&parsed, sink) {
        Ok(_handled) => {
            index.holds_records();
            if !keeps {
                read_ahead.forget_landings();
            }
            Ok(())
        }
        Err(fault) => {
            count_unused(index, read_ahead);
            Err(fault)
        }
    }
}

/// Counts what was read ahead of lines that do not come, each by itself.
fn count_unused<const PREFIX_LEN: usize>(index: &mut Index<PREFIX_LEN>, read_ahead: &mut ReadAhead)
    ensures told { (unused : List ℕ) × (index.new.ahead ≡ index.old.ahead ++ unused)
        × (total unused ≡ read_of (to_come read_ahead.old)) }
    ensures used_up { to_come read_ahead.new ≡ [] }
    ensures kept { (index.new.records ≡ index.old.records) × (index.new.reads ≡ index.old.reads)
        × (index.new.prefetched ≡ index.old.prefetched) }
{
    'lines: while let Some(ahead) = read_ahead.pass_next() {
        index.count_ahead(ahead);
    }
}

/// Appends the part to what is held, as far as there is room: for one byte more than a line may have, so that a longer
/// one is known as such.
fn append_capped(held: &mut ArrayVec<u8, LINE_ROOM>, part: &[u8])
    ensures { held.new.items ≡ take 4097 (held.old.items ++ part.now) }
{
    let room = part.len().min(LINE_ROOM - held.len());
    let _ = held.try_extend_from_slice(&part[..room]);
}

/// Flushes a writer once if all went well, and returns how it went then.
///
/// ```
/// let mut writer = ToWriter::new(rt.stdout());
/// assert!(rt; flushed(Ok(()), &mut writer).is_ok());
/// assert!(rt; flushed(Err(RunFault::Read), &mut writer).is_err());
/// ```
pub fn flushed<W: Write>(
    done: Result<(), RunFault>,
    writer: &mut ToWriter<W>,
) -> Result<(), RunFault>
    ensures kept { IfErr done (λ fault. result ≡ Err fault) }
    ensures left_alone { OnErr done (writer.new ≡ writer.old) }
    ensures write { OnOk done (IfErr result (λ fault. fault ≡ RunFault.Write)) }
    ensures exact { OnOk done (is_err result ≡ has_write_failed writer.new) }
    ensures flushes { OnOk done (has_write_failed writer.old ≡ false
        → calls_to_flush writer.new ≡ suc (calls_to_flush writer.old)) }
    ensures flushed { OnOk result (calls_to_flush writer.new ≡ suc (calls_to_flush writer.old)) }
    ensures unflushed { OnOk result (writes_unflushed writer.new ≡ 0) }
    ensures taken { bytes_taken writer.new ≡ bytes_taken writer.old }
{
    done?;
    writer.flush()?;
    Ok(())
}

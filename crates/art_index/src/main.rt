//! A program that keeps the records of many tenants: it reads lines and writes the reply to each.
//! The contract that it rests on is that of `run`: what is written is the definition's replies to the lines read,
//! however they are cut.
//!
//! To believe it, believe these definitions, in this order: `Lines`, `Words`, `Commands` and `Keys` of art_lines;
//! `Records` and `Keys` of art_engine; `ReplyWords` of art_lines; `Replies`, `Refusals`, `Outcome` and `Faults` of
//! art_engine. `Outcome` reads a line by `Reading` of art_lines, which need not be believed: its law
//! `reading_is_spelling` says that it is the grammar of `Commands`. What passes between `run` and the program's two
//! ends is a clause of `FromReader::read` and of `ToWriter::write`; what a file, a pipe or a terminal gave or took no
//! contract can say.
#![tactic(auto)]

ghost use Rattle.std.specs.Prelude.{◌≡◌, ◌<◌, ◌++◌, ◌↔◌, ◌⊎◌, ℕ, List, [], length, true, false, OnOk, Err};
ghost use Rattle.art_lines.specs.Ends.{bytes_given, has_run_out, has_read_failed};
ghost use Rattle.art_lines.specs.Ends.{bytes_taken, calls_to_flush, has_write_failed, writes_unflushed};
ghost use Rattle.art_lines.specs.Lines.{lines_of, lines_so_far, whole_lines_of};
ghost use Rattle.art_engine.specs.Ahead.{IsAllTold};
ghost use Rattle.art_engine.specs.Faults.{AfterWriteFault};
ghost use Rattle.art_engine.specs.Outcome.{IsOutcome};

mod buffered;
mod serving;

use art_engine::{Index, RunFault, flushed, run};
use art_lines::buffered::reserve_buffer;
use art_lines::{Buffered, FromReader, ToWriter};
use buffered::{Gathering, run_buffered};
use serving::{Ends, report, touch_stack};
use std::env;
use std::process::ExitCode;

/// The number of bytes of a prefix that an inner node stores.
const PREFIX_LEN: usize = 16;

/// Answers standard input out of an index. Replies leave by way of a room.
#[inline(never)]
fn serve(rt: &HostRuntime, index: &mut Index<PREFIX_LEN>, room: Vec<u8>) -> Ends
    requires { 0 < length room.items }

    // Where nothing failed, all of the input was read, all of the answers were written, and all that was written was
    // flushed.
    ensures ended { OnOk result.done (has_run_out result.source ≡ true) }
    ensures outcome { OnOk result.done
        (IsOutcome index.old (lines_of (bytes_given result.source)) (bytes_taken result.sink) index.new) }
    ensures flushed { OnOk result.done ((0 < calls_to_flush result.sink) × (writes_unflushed result.sink ≡ 0)) }

    // A failure of either end is told, that of the source first.
    ensures read { (result.done ≡ Err RunFault.Read) ↔ (has_read_failed result.source ≡ true) }
    ensures write { OnOk result.done (has_write_failed result.sink ≡ false) }
    ensures write_failed { (result.done ≡ Err RunFault.Write)
        ↔ ((has_write_failed result.sink ≡ true) × (has_read_failed result.source ≡ false)) }

    // However it ends, all that was read ahead of lines is told.
    ensures ahead { IsAllTold index.old index.new }

    // After a failed read, the whole lines are answered, and nothing else. Where no write failed, all of it is written.
    ensures after_read_fault { result.done ≡ Err RunFault.Read → (written rest : List ℕ)
        × (bytes_taken result.sink ++ rest ≡ written)
        × ((has_write_failed result.sink ≡ false) ↔ (rest ≡ []))
        × IsOutcome index.old (whole_lines_of (bytes_given result.source)) written index.new }

    // After a failed write, one line more is carried out than is answered whole; or all lines are, and the last answers
    // did not leave, or were not flushed. All of the answers is written but some bytes at their end. Where none are
    // missing all lines are answered, and the flush failed.
    ensures after_write_fault { result.done ≡ Err RunFault.Write → (written rest : List ℕ)
        × (bytes_taken result.sink ++ rest ≡ written)
        × (rest ≡ [] → (0 < calls_to_flush result.sink)
        × IsOutcome index.old (lines_of (bytes_given result.source)) written index.new)
        × (AfterWriteFault index.old (lines_so_far (has_run_out result.source) (bytes_given result.source)) written
        index.new ⊎ IsOutcome index.old (lines_of (bytes_given result.source)) written index.new) }
{
    let mut source = FromReader::new(rt.stdin());
    let mut gathering = Gathering::new(Buffered::new(ToWriter::new(rt.stdout()), room));
    let answered = run_buffered(index, &mut source, &mut gathering);
    let mut sink = gathering.into_sink();
    let done = flushed(answered, &mut sink);
    Ends { source, sink, done }
}

/// Answers standard input out of an index where there is no memory for a room: each reply leaves at once.
#[inline(never)]
fn serve_at_once(rt: &HostRuntime, index: &mut Index<PREFIX_LEN>) -> Ends
    ensures ended { OnOk result.done (has_run_out result.source ≡ true) }
    ensures outcome { OnOk result.done
        (IsOutcome index.old (lines_of (bytes_given result.source)) (bytes_taken result.sink) index.new) }
    ensures flushed { OnOk result.done ((0 < calls_to_flush result.sink) × (writes_unflushed result.sink ≡ 0)) }
    ensures read { (result.done ≡ Err RunFault.Read) ↔ (has_read_failed result.source ≡ true) }
    ensures write { OnOk result.done (has_write_failed result.sink ≡ false) }
    ensures write_failed { (result.done ≡ Err RunFault.Write)
        ↔ ((has_write_failed result.sink ≡ true) × (has_read_failed result.source ≡ false)) }
    ensures ahead { IsAllTold index.old index.new }
    ensures after_read_fault { result.done ≡ Err RunFault.Read
        → IsOutcome index.old (whole_lines_of (bytes_given result.source)) (bytes_taken result.sink) index.new }
    ensures after_write_fault { result.done ≡ Err RunFault.Write
        → AfterWriteFault index.old (lines_so_far (has_run_out result.source) (bytes_given result.source))
        (bytes_taken result.sink) index.new
        ⊎ ((0 < calls_to_flush result.sink)
        × IsOutcome index.old (lines_of (bytes_given result.source)) (bytes_taken result.sink) index.new) }
{
    let mut source = FromReader::new(rt.stdin());
    let mut sink = ToWriter::new(rt.stdout());
    let ran = run(index, &mut source, &mut sink);
    let done = flushed(ran, &mut sink);
    Ends { source, sink, done }
}

/// Counts the words of the command, its name included. (It is called twice: Rattle's own compiler puts what is called
/// once into the frame around it, and the 8 KiB by which words are read would lie below every line.)
fn count_args(rt: &HostRuntime) -> usize {
    match env::args(rt) {
        Ok(args) => args.count(),
        Err(_) => usize::MAX,
    }
}

fn main(rt: HostRuntime) -> ExitCode {
    let count = count_args(&rt);
    if count > 1 {
        let _ = eprintln!(rt; "art_index: takes no arguments");
        return ExitCode::from(2);
    }
    let filler = touch_stack(count, count_args(&rt) / 2);
    let mut index: Index<PREFIX_LEN> = Index::new(rt.alloc());
    let ends = match reserve_buffer(rt.alloc(), filler) {
        Ok(room) => serve(&rt, &mut index, room),
        Err(_) => serve_at_once(&rt, &mut index),
    };
    report(&rt, ends.done)
}

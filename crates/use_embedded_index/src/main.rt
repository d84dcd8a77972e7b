//! An index inside another program: who sits where in which hall. The program makes lines of the language out of its
//! own words, has the index carry them out, and saves all seats as lines that art_index reads back.
#![tactic(auto)]

ghost use Rattle.std.specs.Prelude.{◌≡◌, ◌++◌, false, flat_map, length, OnOk};
ghost use Rattle.art_lines.specs.Words.{line_of};
ghost use Rattle.art_engine.specs.Replies.{dump_of};

use art_engine::{Index, RunFault};
use art_lines::{Sink, ToWriter};
use std::alloc::{AllocError, Global};
use std::io;

/// Who sits where: a hall is a tenant, a seat a key, and a name a value.
type Seats = Index<16>;

/// How many seats are taken.
fn count(seats: &Seats) -> usize
    ensures { result ≡ length seats.now.records.keys }
{
    seats.byte_map().len()
}

/// Saves the seats: the lines that would take them all again, and then how many there are. It changes none.
fn save<W: Sink>(seats: &mut Seats, sink: &mut W) -> Result<(), RunFault>
    requires { W.has_failed sink.old ≡ false }
    ensures told { OnOk result (W.taken sink.new
        ≡ W.taken sink.old ++ flat_map line_of (dump_of seats.old.records)) }
    ensures kept { OnOk result (seats.new.records ≡ seats.old.records) }
{
    seats.handle(b"dump", sink)?;
    Ok(())
}

/// The line that a word of the program stands for, if it stands for one: `take HALL SEAT NAME`, `leave HALL SEAT`,
/// `who HALL SEAT`. Names and seats are texts, which lines have as digits.
fn line_for(alloc: Global, text: &str) -> Result<Option<String>, AllocError> {
    let words: Vec<&str> = text.split_whitespace().collect(alloc)?;
    let line = match words.as_slice() {
        ["take", hall, seat, name] => {
            let (seat, name) = (digits_of(alloc, seat)?, digits_of(alloc, name)?);
            format!(in alloc; "put {hall} {seat} {name}")?
        }
        ["leave", hall, seat] => {
            let seat = digits_of(alloc, seat)?;
            format!(in alloc; "del {hall} {seat}")?
        }
        ["who", hall, seat] => {
            let seat = digits_of(alloc, seat)?;
            format!(in alloc; "get {hall} {seat}")?
        }
        _ => return Ok(None),
    };
    Ok(Some(line))
}

/// The bytes of a text as digits, with a zero after them, so that no seat's digits begin another's.
fn digits_of(alloc: Global, text: &str) -> Result<String, AllocError> {
    let digits = hex::encode(alloc, text.as_bytes())?;
    format!(in alloc; "{digits}00")
}

/// Has the index carry out each line of the input, and then saves it.
fn answer_lines(rt: &HostRuntime, seats: &mut Seats) -> io::Result<()> {
    for text in rt.lines(rt.alloc()) {
        let text = text?;
        match line_for(rt.alloc(), text.as_str())? {
            Some(line) => answer(rt, seats, line.as_bytes())?,
            None => println!(rt; "not understood")?,
        }
    }
    println!(rt; "{} seats are taken", count(seats))?;
    io_result(save(seats, &mut ToWriter::new(rt.stdout())))
}

/// Has the index carry out a line.
fn answer(rt: &HostRuntime, seats: &mut Seats, line: &[u8]) -> io::Result<()> {
    io_result(seats.handle(line, &mut ToWriter::new(rt.stdout())))
}

/// What the index says of the output, as an error of the output.
fn io_result<T: Drop>(done: Result<T, RunFault>) -> io::Result<()> {
    match done {
        Ok(_) => Ok(()),
        Err(_) => Err(io::ErrorKind::Other.into()),
    }
}

fn main(rt: HostRuntime) -> io::Result<()> {
    let mut seats = Index::new(rt.alloc());
    answer_lines(&rt, &mut seats)
}

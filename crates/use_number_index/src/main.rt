//! An index by number: the notes of a log by the time that stands before them, the earliest first. A key is a time as
//! eight bytes, the highest first, whose order is that of the times; a value says which note it is.
#![tactic(auto)]

ghost use Rattle.std.specs.Prelude.{◌≡◌, [], option_map, OnOk, OnErr};

use art_bytes::{Mapped, ToUBE};
use art_map::TreeMap;
use std::alloc::{AllocError, Global};
use std::io;
use std::marker::Model;

/// A time as a key. (For numbers with a sign there is `ToIBE`.)
type Key = Mapped<ToUBE, u64>;

/// When a note was made, and its place among the notes.
#[derive(Clone, Copy)]
pub struct Entry {
    /// The time.
    pub time: u64,
    /// The place.
    pub place: usize,
}

/// Notes by time.
#[derive(Drop)]
pub struct ByTime {
    entries: TreeMap<Key, Entry, 16>,
}

// What a contract sees is the list of the entries, in the order of the index.
impl Model for ByTime {
    ghost use Rattle.std.specs.Prelude.{List};
    ghost use Rattle.std.specs.Map.{values_of};
    ghost use Rattle.use_number_index.specs.declared.Entry.{Entry};
    ghost use Rattle.use_number_index.specs.Entries.{AreEntries};

    ghost Value = { List Entry };

    ghost view = { λ s. values_of s.entries.pairs };

    ghost invariant = { λ s. AreEntries s.entries.pairs };
}

impl ByTime {
    ghost use Rattle.use_number_index.specs.Entries.{IsEntryAdded, IsEarliest};

    /// An index of nothing.
    pub fn new(alloc: Global) -> Self
        ensures { result ≡ [] }
    {
        ByTime {
            entries: TreeMap::new(alloc),
        }
    }

    /// The earliest entry, if there is one: none has a lower time.
    pub fn earliest(&self) -> Option<&Entry>
        ensures { IsEarliest self.now (option_map (λ e. e.now) result) }
    {
        let _ = self.entries.nodes();
        match self.entries.first_key_value() {
            Some((_, entry)) => Some(entry),
            None => None,
        }
    }

    /// Adds an entry, in the place of the one of its time if there is one. All of other times stay.
    pub fn add(&mut self, alloc: Global, entry: Entry) -> Result<(), AllocError>
        ensures added { OnOk result (IsEntryAdded entry self.old self.new) }
        ensures err { OnErr result (self.new ≡ self.old) }
    {
        let key = Mapped::new(alloc, entry.time)?;
        match self.entries.insert(key, entry) {
            Ok(_) => Ok(()),
            Err(_) => Err(AllocError),
        }
    }
}

/// Keeps the note of a line `TIME NOTE`, and answers whether it is one.
fn keep(
    alloc: Global,
    by_time: &mut ByTime,
    notes: &mut Vec<String>,
    line: &str,
) -> Result<bool, AllocError> {
    let Some((time, note)) = line.split_once(' ') else {
        return Ok(false);
    };
    let Ok(time) = time.parse::<u64>() else {
        return Ok(false);
    };
    let place = notes.len();
    notes.push(String::from_str(alloc, note)?)?;
    by_time.add(alloc, Entry { time, place })?;
    Ok(true)
}

/// Keeps the note of each line, and tells the lines that are none.
fn read_notes(rt: &HostRuntime, by_time: &mut ByTime, notes: &mut Vec<String>) -> io::Result<()> {
    for line in rt.lines(rt.alloc()) {
        let line = line?;
        if !keep(rt.alloc(), by_time, notes, line.as_str())? {
            println!(rt; "{line}: not understood")?;
        }
    }
    Ok(())
}

/// Lists the notes by time.
fn list(rt: &HostRuntime, by_time: &ByTime, notes: &[String]) -> io::Result<()> {
    if let Some(entry) = by_time.earliest() {
        println!(rt; "the earliest is note {}", entry.place)?;
    }
    for entry in by_time.entries.values() {
        if let Some(note) = notes.get(entry.place) {
            println!(rt; "{} {note}", entry.time)?;
        }
    }
    Ok(())
}

fn main(rt: HostRuntime) -> io::Result<()> {
    let mut by_time = ByTime::new(rt.alloc());
    let mut notes = Vec::new(rt.alloc());
    read_notes(&rt, &mut by_time, &mut notes)?;
    list(&rt, &by_time, notes.as_slice())
}

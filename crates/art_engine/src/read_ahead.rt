//! Lines that are parsed before their turn, and nodes that are prefetched for them. A line waits for one node after
//! another, then for its leaf, and then for its key and its value. The lines of a piece of input are at hand before
//! they are executed. So the paths of several are descended at a time, a step of each in turn. The processor waits for
//! many nodes at once, and each line then finds in the cache what it reads.
//!
//! A descent follows the line's full key and no further, and each node is counted. It goes as the look-up of the line
//! does. So a look-up of one record is answered by what its path came to, and goes down no second time. If a line
//! between changes the records, it goes down in its turn, and its path was prefetched in vain.
ghost use Rattle.std.specs.Prelude.{◌≡◌, ◌≤◌, ◌<◌, ◌+◌, [], None, IfSome, IsTrue, drop, length};
ghost use Rattle.std.specs.Prelude.{option_map, take, ◌++◌, map, Option, slice_get};
ghost use Rattle.std.specs.List.{AllByRecursion, sum_by};
ghost use Rattle.art_nodes.specs.Name.{Name};
ghost use Rattle.std.specs.Prelude.{if◌then◌else◌, ℕ, false};
ghost use Rattle.art_arena.specs.arena.Visited.{count_of};
ghost use Rattle.art_lines.specs.Lines.{whole_lines_of};
ghost use Rattle.art_lines.specs.Parsed.{command_with};
ghost use Rattle.art_lines.specs.Reading.{command_of};
ghost use Rattle.art_engine.specs.Ahead.{AreNext, IsNextLine, most_ahead};
ghost use Rattle.art_engine.specs.ReadAhead.{ahead_now, fields_now, line_now, to_come, read_of, texts_of, word_now};
ghost use Rattle.art_engine.specs.ReadAhead.{landing_now, value_now, AreLanded, IsAtStart};
ghost use Rattle.art_engine.specs.ReadAhead.{IsLandedNow, IsOnOwnWay};
ghost use Rattle.art_engine.specs.Records.{Records};

mod descents;
mod landing;
mod line;
pub(crate) mod names;

pub use crate::records::PathReader;
use art_lines::command::fields::{Fields, NUMBER_KEY};
use art_lines::command::read_line;
use art_lines::command::word::Word;
use art_nodes::OpaqueNodePtr;
use descents::{Prefetched, descend_both};
pub use landing::Landing;
use line::{Line, SHORT};
use memchr::memchr;
use std::alloc::Global;

/// How many lines are read ahead together, at most.
pub const LINES: usize = 16;

/// If fewer lines than this are at hand, nothing is prefetched for them.
const MIN_LINES: usize = 4;

/// If fewer paths than this end at a leaf, of as many as there may be, prefetching doesn't pay.
const MIN_LEAVES: usize = 4;

/// For so many lines nothing is prefetched then.
const PAUSE: usize = 128;

/// For a map of fewer records nothing is prefetched: it stands in a cache, and a line hardly waits.
pub const MIN_RECORDS: usize = 16_384;

/// A parsed line, how many nodes were prefetched for it, and what its path came to.
#[derive(Clone, Copy, Drop)]
pub struct ParsedLine<'a> {
    /// Its word, or `None` if the line spells no command.
    pub word: Option<Word>,
    /// What was read after the word. If there is no word, it doesn't matter.
    pub fields: &'a Fields,
    /// How many nodes were prefetched for it: 0 if it was not parsed before its turn.
    pub ahead: u64,
    /// What is known of the record that it looks up.
    pub landing: Landing,
    /// The value of that record, if one was found. Else it doesn't matter.
    pub value: &'a [u8],
}

/// The roots of the maps that are prefetched.
#[derive(Drop)]
pub(crate) struct Roots {
    keys: Option<OpaqueNodePtr>,
    numbers: Option<OpaqueNodePtr>,
}

impl Roots {
    /// That of the map of numbers, or that of the map of keys.
    pub(crate) fn of(&self, number: bool) -> Option<OpaqueNodePtr>
        ensures { result ≡ (if number then self.now.numbers else self.now.keys) }
    {
        if number { self.numbers } else { self.keys }
    }
}

/// Reads lines at the front of a text, as many as there are places and up to one that is not whole or not short. It
/// returns how many.
fn read_lines(lines: &mut [Line], roots: &Roots, text: &[u8]) -> usize
    ensures within { result ≤ length lines.new }
    ensures long { length lines.new ≡ length lines.old }
    ensures none { read_of (take result lines.new) ≡ 0 }
    ensures start { AllByRecursion (IsAtStart roots.now.keys roots.now.numbers) (take result lines.new) }
    ensures next { AreNext (texts_of (take result lines.new)) text.now }
{
    let (mut len, mut rest) = (0, text);
    'lines: while len < lines.len() {
        let Some(end) = memchr(b'\n', rest) else {
            break;
        };
        if end > SHORT {
            break;
        }
        lines[len].read(&rest[..end], roots);
        rest = &rest[end + 1..];
        len += 1;
    }
    len
}

/// The lines that are parsed before their turn: how many they are, which is next, and whether what their paths came to
/// still holds. Where there is no memory for them there are none, and each line is parsed in its turn.
#[derive(Drop)]
pub struct ReadAhead {
    alloc: Global,
    lines: Vec<Line>,
    len: usize,
    at: usize,
    fresh: bool,
    pause: usize,
    leaves: usize,
    checksum: u8,
    current: Option<usize>,
    word: Option<Word>,
    fields: Fields,
}

impl ReadAhead {
    /// No lines, at first. It allocates nothing.
    ///
    /// ```
    /// use art_engine::read_ahead::ReadAhead;
    /// assert_eq!(rt; ReadAhead::new(rt.alloc()).leaves(), 0);
    /// ```
    pub fn new(alloc: Global) -> Self
        ensures { to_come result ≡ [] }
    {
        ReadAhead {
            alloc,
            lines: Vec::new(alloc),
            len: 0,
            at: 0,
            fresh: false,
            pause: 0,
            leaves: 0,
            checksum: 0,
            current: None,
            word: None,
            fields: Fields::new(),
        }
    }

    /// The next line comes. If some were parsed before their turn and are still to come, it has to be their first.
    ///
    /// What was prefetched for it is counted for no other line: `parsed` returns it, and the later lines keep theirs.
    ///
    /// ```
    /// use art_engine::read_ahead::ReadAhead;
    /// let mut read_ahead = ReadAhead::new(rt.alloc());
    /// read_ahead.next(b"get 7 0a");
    /// assert_eq!(rt; read_ahead.parsed().ahead, 0);
    /// ```
    #[inline]
    pub fn next(&mut self, line: &[u8])
        requires comes { IsNextLine line.now (texts_of (to_come self.old)) }
        ensures read { option_map (λ word. command_with word (fields_now self.new)) (word_now self.new)
            ≡ command_of line.now }
        ensures few { ahead_now self.new ≤ most_ahead (command_of line.now) }
        ensures counted { ahead_now self.new + read_of (to_come self.new) ≡ read_of (to_come self.old) }
        ensures following { texts_of (to_come self.new) ≡ drop 1 (texts_of (to_come self.old)) }
        ensures own { (line_now self.new ≡ slice_get (to_come self.old) 0)
            × (to_come self.new ≡ drop 1 (to_come self.old)) }
        ensures landed { (P : ℕ) (records : Records) → AreLanded P records self.old
            → AreLanded P records self.new × IsLandedNow P records self.new }
    {
        let at = self.at;
        if at < self.len && at < self.lines.len() {
            self.lines[at].is_read();
            self.at = at + 1;
            self.current = Some(at);
            return;
        }
        self.parse_now(line);
    }

    /// Passes by the next of the lines that are still to come, and returns how many nodes were prefetched for it.
    pub(crate) fn pass_next(&mut self) -> Option<u64>
        ensures some { IfSome result (λ n. n + read_of (to_come self.new) ≡ read_of (to_come self.old)) }
        ensures fewer { IfSome result (λ _. length (to_come self.new) < length (to_come self.old)) }
        ensures none { result ≡ None → (to_come self.old ≡ []) × (to_come self.new ≡ []) }
    {
        let at = self.at;
        if at < self.len && at < self.lines.len() {
            self.at += 1;
            return Some(self.lines[at].parsed(false).ahead);
        }
        None
    }

    /// Parses a line in its turn.
    #[inline]
    pub(crate) fn parse_now(&mut self, line: &[u8])
        ensures read { option_map (λ word. command_with word (fields_now self.new)) (word_now self.new)
            ≡ command_of line.now }
        ensures ahead { ahead_now self.new ≡ 0 }
        ensures kept { (to_come self.new ≡ to_come self.old) × (self.new.fresh ≡ self.old.fresh) }
        ensures alone { line_now self.new ≡ None }
        ensures unlanded { (P : ℕ) (records : Records) → IsLandedNow P records self.new }
    {
        self.current = None;
        self.word = read_line(line, &mut self.fields);
    }

    /// Returns the line that came last, parsed.
    ///
    /// ```
    /// use art_engine::read_ahead::ReadAhead;
    /// let mut read_ahead = ReadAhead::new(rt.alloc());
    /// read_ahead.next(b"lost");
    /// assert!(rt; read_ahead.parsed().word.is_none());
    /// ```
    #[inline]
    pub fn parsed(&self) -> ParsedLine<'_>
        ensures word { result.word ≡ word_now self.now }
        ensures fields { result.fields.now ≡ fields_now self.now }
        ensures ahead { result.ahead ≡ ahead_now self.now }
        ensures landing { result.landing ≡ landing_now self.now }
        ensures value { result.value.now ≡ value_now self.now }
    {
        if let Some(at) = self.current {
            if let Some(line) = self.lines.get(at) {
                return line.parsed(self.fresh);
            }
        }
        ParsedLine {
            word: self.word,
            fields: &self.fields,
            ahead: 0,
            landing: Landing::Open,
            value: &[],
        }
    }

    /// The records have changed: what the paths of lines came to tells no more of them.
    pub(crate) fn forget_landings(&mut self)
        ensures { (to_come self.new ≡ to_come self.old) × (self.new.fresh ≡ false) }
    {
        self.fresh = false;
    }

    /// Returns whether the next lines are to be read now, where the larger of both maps has so many records: those that
    /// were parsed before their turn are used up, and it may pay. It counts down the pause.
    #[inline]
    pub(crate) fn should_read(&mut self, records: usize) -> bool
        ensures used_up { IsTrue result → to_come self.old ≡ [] }
        ensures kept { (to_come self.new ≡ to_come self.old) × (self.new.fresh ≡ self.old.fresh) }
    {
        if self.at < self.len {
            return false;
        }
        if let Some(pause) = self.pause.checked_sub(1) {
            self.pause = pause;
            return false;
        }
        records >= MIN_RECORDS
    }

    /// Reads the next lines of the text, 16 at most and up to one that is not whole or longer than 256 bytes. Descends
    /// the paths of these lines in the maps that have as many records as `few`, or more. If they are fewer than four
    /// lines, it descends none. Each node that it reads is counted by the reader of its map, and for the one line on
    /// whose path it lies.
    ///
    /// ```
    /// use art_engine::read_ahead::{ReadAhead, PathReader};
    /// let mut keys: TreeMap<Vec<u8>, Vec<u8>, 16> = TreeMap::new(rt.alloc());
    /// keys.try_insert(b"\0\0\0\x07\x0a".to_vec(rt.alloc())?, b"hi".to_vec(rt.alloc())?)?;
    /// let numbers = TreeMap::new(rt.alloc());
    /// let (mut keys, mut numbers) = (PathReader::new(&keys), PathReader::new(&numbers));
    /// let mut read_ahead = ReadAhead::new(rt.alloc());
    /// read_ahead.read_maps(&mut keys, &mut numbers, 0, b"get 7 0a\nput 7 0b -\nget 7 0c\nbad\n");
    /// assert_eq!(rt; (keys.end(), numbers.end(), read_ahead.leaves()), (2, 0, 2));
    /// ```
    #[inline(never)]
    pub fn read_maps<const PREFIX_LEN: usize>(
        &mut self,
        keys: &mut PathReader<'_, Vec<u8>, PREFIX_LEN>,
        numbers: &mut PathReader<'_, [u8; NUMBER_KEY], PREFIX_LEN>,
        few: usize,
        text: &[u8],
    )
        ensures next { AreNext (texts_of (to_come self.new)) text.now }
        ensures counted { read_of (to_come self.new) + count_of keys.old.reader + count_of numbers.old.reader
            ≡ count_of keys.new.reader + count_of numbers.new.reader }
        ensures ways { AllByRecursion (IsOnOwnWay keys.old.arena.now keys.old.root numbers.old.arena.now
            numbers.old.root) (to_come self.new) }
    {
        self.read_next_lines(
            &Roots {
                keys: keys.root(few),
                numbers: numbers.root(few),
            },
            text,
        );
        self.fresh = true;
        self.leaves = 0;
        if self.len < MIN_LINES {
            return;
        }
        let mut prefetched = Prefetched::default();
        descend_both(
            &mut self.lines[..],
            self.len,
            keys,
            numbers,
            &mut prefetched,
        );
        self.leaves = prefetched.leaves;
        self.checksum ^= prefetched.checksum;
        if self.leaves < MIN_LEAVES && self.len >= LINES {
            self.pause = PAUSE;
        }
    }

    /// Returns how many leaves the paths of the lines ended at that were read together last.
    ///
    /// ```
    /// use art_engine::read_ahead::ReadAhead;
    /// assert_eq!(rt; ReadAhead::new(rt.alloc()).leaves(), 0);
    /// ```
    pub fn leaves(&self) -> usize
        ensures { result ≡ self.now.leaves }
    {
        self.leaves
    }

    /// Reserves one line more, if there is memory for it.
    #[inline(never)]
    fn reserve_one(&mut self) -> bool {
        self.lines.push(Line::new()).is_ok()
    }

    /// Reserves four lines more, or as many as there is memory for.
    fn reserve_four(&mut self) -> bool {
        self.reserve_one() && self.reserve_one() && self.reserve_one() && self.reserve_one()
    }

    /// Reserves `LINES` lines, or as many as there is memory for. (Not by a loop: Rattle's own compiler puts
    /// what is called in a loop into the frame around it, and the frame of `run` would have three lines more.)
    fn reserve_lines(&mut self) {
        let _is_made = self.reserve_four()
            && self.reserve_four()
            && self.reserve_four()
            && self.reserve_four();
    }

    /// Reads the next lines, up to one that is not whole or not short.
    fn read_next_lines(&mut self, roots: &Roots, text: &[u8])
        ensures first { self.new.at ≡ 0 }
        ensures within { self.new.len ≤ length self.new.lines.items }
        ensures none { read_of (to_come self.new) ≡ 0 }
        ensures start { AllByRecursion (IsAtStart roots.now.keys roots.now.numbers) (to_come self.new) }
        ensures next { AreNext (texts_of (to_come self.new)) text.now }
    {
        if self.lines.is_empty() {
            self.reserve_lines();
        }
        self.at = 0;
        self.len = read_lines(&mut self.lines[..], roots, text);
    }
}

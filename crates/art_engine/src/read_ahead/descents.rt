//! The descents of several lines side by side, and what is read at their ends.
ghost use Rattle.std.specs.Prelude.{◌≡◌, ◌+◌, ◌≤◌, ℕ, Option, length, take};
ghost use Rattle.std.specs.Global.{Vec};
ghost use Rattle.std.specs.List.{AllByRecursion, AllZip};
ghost use Rattle.art_nodes.specs.Name.{Name};
ghost use Rattle.art_arena.specs.arena.Arena.{Arena};
ghost use Rattle.art_arena.specs.arena.Visited.{count_of};
ghost use Rattle.art_engine.specs.ReadAhead.{AreReadEarly, IsDescended, IsOnOwnWay, read_of, texts_of};

use crate::read_ahead::line::{KEY, Line};
use crate::read_ahead::{LINES, PathReader};
use art_bytes::AsBytes;
use art_lines::command::fields::NUMBER_KEY;

/// The leaves at the ends of paths: how many there were, and a checksum that no one knows without having read their
/// keys and values, so that no compiler leaves the reads out.
#[derive(Default, Drop)]
pub(super) struct Prefetched {
    pub(super) leaves: usize,
    pub(super) checksum: u8,
}

impl Prefetched {
    /// Reads the ends of the keys of leaves and of the values that are shown, before any is compared or copied: so the
    /// processor waits for all of them at once. It is given nothing else, so no other bytes are read early.
    fn read<K: AsBytes>(&mut self, leaves: &[Option<(&K, Option<&Vec<u8>>)>; LINES]) {
        for leaf in leaves {
            if let Some((key, value)) = *leaf {
                self.leaves = self.leaves.saturating_add(1);
                let bytes = key.as_bytes();
                let shown = value.and_then(|it| it.first());
                let ends = [bytes.first(), bytes.last(), shown];
                for end in ends {
                    self.checksum ^= end.copied().unwrap_or_default();
                }
            }
        }
    }
}

/// Reads the next node of the path of each line that goes on in this map, and returns whether there was one. What is
/// read early of the leaf that a path ends at is kept at the line's place.
fn step_each<'a, K: AsBytes, const PREFIX_LEN: usize>(
    lines: &mut [Line],
    reader: &mut PathReader<'a, K, PREFIX_LEN>,
    of_number: bool,
    leaves: &mut [Option<(&'a K, Option<&'a Vec<u8>>)>; LINES],
) -> bool
    ensures counted { read_of lines.new + count_of reader.old.reader ≡ read_of lines.old + count_of reader.new.reader }
    ensures texts { texts_of lines.new ≡ texts_of lines.old }
    ensures long { length lines.new ≡ length lines.old }
    ensures descended { AllZip (IsDescended K.bytes reader.old.arena.now of_number) lines.old lines.new }
    ensures reached { AreReadEarly reader.old.arena.now of_number lines.old leaves.old
        → AreReadEarly reader.old.arena.now of_number lines.new leaves.new }
    ensures same_tree { (reader.new.arena.now ≡ reader.old.arena.now) × (reader.new.root ≡ reader.old.root) }
{
    let mut goes_on = false;
    'lines: for at in 0..lines.len().min(LINES) {
        if lines[at].goes_on(of_number) {
            goes_on = true;
            if let Some(reached) = lines[at].step(reader) {
                leaves[at] = Some(reached);
            }
        }
    }
    goes_on
}

/// Finds out of each line whose path came to a leaf whether that is the record that it looks up.
fn land_each<K: AsBytes>(
    lines: &mut [Line],
    _of_number: bool,
    leaves: &[Option<(&K, Option<&Vec<u8>>)>; LINES],
)
    ensures counted { read_of lines.new ≡ read_of lines.old }
    ensures texts { texts_of lines.new ≡ texts_of lines.old }
    ensures long { length lines.new ≡ length lines.old }
    ensures descended { (arena : Arena K (Vec ℕ)) → AreReadEarly arena _of_number lines.old leaves.now
        → AllZip (IsDescended K.bytes arena _of_number) lines.old lines.new }
{
    'lines: for at in 0..lines.len().min(LINES) {
        if let Some(reached) = leaves[at] {
            lines[at].land(reached);
        }
    }
}

/// Descends the paths of some lines in one map to their ends, a step of each in turn.
fn step_all<'a, K: AsBytes, const PREFIX_LEN: usize>(
    lines: &mut [Line],
    reader: &mut PathReader<'a, K, PREFIX_LEN>,
    of_number: bool,
    leaves: &mut [Option<(&'a K, Option<&'a Vec<u8>>)>; LINES],
)
    ensures counted { read_of lines.new + count_of reader.old.reader ≡ read_of lines.old + count_of reader.new.reader }
    ensures texts { texts_of lines.new ≡ texts_of lines.old }
    ensures long { length lines.new ≡ length lines.old }
    ensures descended { AllZip (IsDescended K.bytes reader.old.arena.now of_number) lines.old lines.new }
    ensures reached { AreReadEarly reader.old.arena.now of_number lines.old leaves.old
        → AreReadEarly reader.old.arena.now of_number lines.new leaves.new }
    ensures same_tree { (reader.new.arena.now ≡ reader.old.arena.now) × (reader.new.root ≡ reader.old.root) }
{
    'steps: for _ in 0..KEY + 1 {
        if !step_each(lines, reader, of_number, leaves) {
            break;
        }
    }
}

/// Descends the paths of some lines in one map, reads the leaves that they end at, and finds out what these tell.
fn descend_all<K: AsBytes, const PREFIX_LEN: usize>(
    lines: &mut [Line],
    reader: &mut PathReader<'_, K, PREFIX_LEN>,
    of_number: bool,
    prefetched: &mut Prefetched,
)
    ensures counted { read_of lines.new + count_of reader.old.reader ≡ read_of lines.old + count_of reader.new.reader }
    ensures texts { texts_of lines.new ≡ texts_of lines.old }
    ensures long { length lines.new ≡ length lines.old }
    ensures descended { AllZip (IsDescended K.bytes reader.old.arena.now of_number) lines.old lines.new }
    ensures same_tree { (reader.new.arena.now ≡ reader.old.arena.now) × (reader.new.root ≡ reader.old.root) }
{
    let mut leaves = [None; LINES];
    step_all(lines, reader, of_number, &mut leaves);
    prefetched.read(&leaves);
    land_each(lines, of_number, &leaves);
}

/// Descends the paths of the first lines in both maps.
pub(super) fn descend_both<const PREFIX_LEN: usize>(
    lines: &mut [Line],
    len: usize,
    keys: &mut PathReader<'_, Vec<u8>, PREFIX_LEN>,
    numbers: &mut PathReader<'_, [u8; NUMBER_KEY], PREFIX_LEN>,
    prefetched: &mut Prefetched,
)
    requires { len ≤ length lines.old }
    ensures counted { read_of (take len lines.new) + count_of keys.old.reader + count_of numbers.old.reader
        ≡ read_of (take len lines.old) + count_of keys.new.reader + count_of numbers.new.reader }
    ensures texts { texts_of (take len lines.new) ≡ texts_of (take len lines.old) }
    ensures long { length lines.new ≡ length lines.old }
    ensures ways { (keys_root numbers_root : Option Name)
        → AllByRecursion (IsOnOwnWay keys.old.arena.now keys_root numbers.old.arena.now numbers_root)
        (take len lines.old)
        → AllByRecursion (IsOnOwnWay keys.old.arena.now keys_root numbers.old.arena.now numbers_root)
        (take len lines.new) }
{
    let first = &mut lines[..len];
    descend_all(first, keys, false, prefetched);
    descend_all(first, numbers, true, prefetched);
}

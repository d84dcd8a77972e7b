//! How many nodes of each kind trees have, as lines.
ghost use Rattle.std.specs.Prelude.{◌≡◌, ◌+◌, ◌≤◌, ◌∷◌, [], length, decimal, codes, false, flat_map};
ghost use Rattle.art_lines.specs.Words.{line_of};
ghost use Rattle.art_engine.specs.Replies.{count_words};
ghost use Rattle.art_lines.specs.Writes.{Writes};
ghost use Rattle.art_lines.specs.Gathered.{Puts};

use art_lines::reply::write_piece;
use art_lines::room::{put_number, put_text};
use art_lines::{Sink, WriteFailed};
use art_walks::WellFormedTreeStats;

/// Room for the lines of two trees.
const ROOM: usize = 268;

/// Puts a space and a number in digits.
fn put_count(room: &mut [u8], at: usize, count: usize) -> usize
    requires { at + 21 ≤ length room.old }
    ensures output { Puts result at (32 ∷ decimal count) room.old room.new }
    ensures few { result ≤ at + 21 }
{
    let next = put_text(room, at, b" ");
    put_number(room, next, count as u64)
}

/// Puts the line of a tree: its name, its leaves, and its inner nodes from few children to many.
fn put_counts(room: &mut [u8], at: usize, tree: &[u8], counts: &WellFormedTreeStats) -> usize
    requires name { length tree.now ≤ 7 }
    requires room { at + 134 ≤ length room.old }
    ensures output { Puts result at (line_of (count_words tree.now counts.now)) room.old room.new }
    ensures few { result ≤ at + 134 }
{
    let leaves = put_text(room, at, tree);
    let fours = put_count(room, leaves, counts.num_leaf);
    let sixteens = put_count(room, fours, counts.num_node4);
    let thirty_twos = put_count(room, sixteens, counts.num_node16);
    let forty_eights = put_count(room, thirty_twos, counts.num_node32);
    let most = put_count(room, forty_eights, counts.num_node48);
    let newline = put_count(room, most, counts.num_node256);
    put_text(room, newline, b"\n")
}

/// Writes the line of the tree of the records under keys, and that of the tree of those under numbers.
pub(crate) fn write_audit<W: Sink>(
    sink: &mut W,
    keys: &WellFormedTreeStats,
    numbers: &WellFormedTreeStats,
) -> Result<(), WriteFailed>
    requires { W.has_failed sink.old ≡ false }
    ensures { Writes result (W.taken sink.old) (W.taken sink.new)
        (flat_map line_of (count_words (codes "bytes") keys.now ∷ count_words (codes "numbers") numbers.now ∷ []))
        (W.has_failed sink.new) }
{
    let mut room = [0; ROOM];
    let second = put_counts(&mut room, 0, b"bytes", keys);
    let end = put_counts(&mut room, second, b"numbers", numbers);
    write_piece(sink, &room[..end])
}

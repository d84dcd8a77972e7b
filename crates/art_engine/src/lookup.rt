//! Look-ups. They are given a reader of each map and what was read of the line, and nothing else to answer from. The
//! readers count each node that they read.
//!
//! `look` is given a `Command`, which is a copy of its fields, of up to 4 KB. So lines go by `look_up`, which is given
//! a word and the fields where they are. `look` calls it, and both have one contract.
ghost use Rattle.std.specs.Prelude.{◌≡◌, ◌+◌, ◌≤◌, List, Some, false, true, flat_map, IfErr, OnOk};
ghost use Rattle.art_walks.specs.MapReads.{IsSameMap};
ghost use Rattle.art_lines.specs.Words.{line_of};
ghost use Rattle.art_engine.specs.Replies.{command_reply};
ghost use Rattle.art_lines.specs.Writes.{Writes};
ghost use Rattle.art_engine.specs.Counts.{key_visits, number_visits, Grew};
ghost use Rattle.art_lines.specs.Parsed.{is_look_up, looks_up, meaning};
ghost use Rattle.art_engine.specs.Spans.{ReadsRecords, ReadsNumbers};
ghost use Rattle.art_engine.specs.Stored.{Pair, NumberPair, all_records_of};

mod record;

use crate::handling::RunFault;
use crate::listing::{write_list, write_number_span, write_span};
use art_lines::command::fields::{Fields, NUMBER_KEY};
use art_lines::command::word::LookUp;
use art_lines::reply::{write_prefix_pair, write_value};
use art_lines::{Command, Sink, WriteFailed};
use art_walks::MapReader;
use record::{prefix_pair_of, value_at_number, value_of};

/// Answers a command, one of the six look-ups, through a reader of each map: those of an index's records. It requires a
/// sink that has not failed, and returns `RunFault::Write` if the sink fails.
///
/// It copies the command's fields and calls `look_up`, which says what the readers count.
///
/// ```
/// let mut index: Index<16> = Index::new(rt.alloc());
/// let mut replies = Vec::new(rt.alloc());
/// index.handle(b"nput 7 -5 6869", &mut ToWriter::new(&mut replies))?;
/// let (mut bytes, mut numbers) = (index.byte_map().reader(), index.number_map().reader());
/// let command = Command::NGet { tenant: 7, number: -5 };
/// look(&mut bytes, &mut numbers, &command, &mut ToWriter::new(&mut replies))?;
/// assert_eq!(rt; replies.as_slice(), b"new\nis 6869\n".as_slice());
/// assert_eq!(rt; (bytes.visits(), numbers.visits()), (0, 1));
/// ```
pub fn look<W: Sink, const PREFIX_LEN: usize>(
    bytes: &mut MapReader<'_, Vec<u8>, Vec<u8>, PREFIX_LEN>,
    numbers: &mut MapReader<'_, [u8; NUMBER_KEY], Vec<u8>, PREFIX_LEN>,
    command: &Command,
    sink: &mut W,
) -> Result<(), RunFault>
    requires open { W.has_failed sink.old ≡ false }
    requires look_up { is_look_up command.now ≡ true }
    requires bytes { (ps : List Pair) × ReadsRecords PREFIX_LEN bytes.old ps }
    requires numbers { (ns : List NumberPair) × ReadsNumbers PREFIX_LEN numbers.old ns }
    ensures output { (ps : List Pair) (ns : List NumberPair) → ReadsRecords PREFIX_LEN bytes.old ps
        → ReadsNumbers PREFIX_LEN numbers.old ns → Writes result (W.taken sink.old) (W.taken sink.new)
        (flat_map line_of (command_reply (Some (meaning command.now)) (all_records_of ps ns)))
        (W.has_failed sink.new) }
    ensures err { IfErr result (λ fault. fault ≡ RunFault.Write) }
    ensures kept { IsSameMap bytes.old bytes.new × IsSameMap numbers.old numbers.new }
    ensures bytes_read { (ps : List Pair) (ns : List NumberPair) → ReadsRecords PREFIX_LEN bytes.old ps
        → ReadsNumbers PREFIX_LEN numbers.old ns → OnOk result (Grew
        (key_visits PREFIX_LEN (Some (meaning command.now)) (all_records_of ps ns)) bytes.old.count bytes.new.count) }
    ensures numbers_read { (ps : List Pair) (ns : List NumberPair) → ReadsRecords PREFIX_LEN bytes.old ps
        → ReadsNumbers PREFIX_LEN numbers.old ns → OnOk result (Grew
        (number_visits PREFIX_LEN (Some (meaning command.now)) (all_records_of ps ns))
        numbers.old.count numbers.new.count) }

    // Whatever became of the reply, no more nodes were read than a whole one may take.
    ensures bytes_few { (ps : List Pair) (ns : List NumberPair) → ReadsRecords PREFIX_LEN bytes.old ps
        → ReadsNumbers PREFIX_LEN numbers.old ns → bytes.new.count ≤ bytes.old.count
        + (key_visits PREFIX_LEN (Some (meaning command.now)) (all_records_of ps ns)).most }
    ensures numbers_few { (ps : List Pair) (ns : List NumberPair) → ReadsRecords PREFIX_LEN bytes.old ps
        → ReadsNumbers PREFIX_LEN numbers.old ns → numbers.new.count ≤ numbers.old.count
        + (number_visits PREFIX_LEN (Some (meaning command.now)) (all_records_of ps ns)).most }
{
    let mut fields = Fields::new();
    let word = fields.set_look_up(command);
    look_up(bytes, numbers, word, &fields, sink)
}

/// Answers a look-up, which changes nothing, by its word and its fields in place, as the program answers its six
/// look-ups. It is given a reader of each map, those of an index's records. It requires a sink that has not failed, and
/// returns `RunFault::Write` if the sink fails.
///
/// The readers count what they read, each by itself, whatever they had read before. If it returns `Ok`, `Grew` says how
/// many nodes these are, given by the records and `PREFIX_LEN` alone. One of both maps is read, and nothing of the
/// other.
///
/// ```
/// use art_lines::command::{fields::Fields, read_line, word::LookUp};
/// let mut index: Index<16> = Index::new(rt.alloc());
/// let mut replies = Vec::new(rt.alloc());
/// index.handle(b"put 7 0a 6869", &mut ToWriter::new(&mut replies))?;
/// let mut fields = Fields::new();
/// read_line(b"get 7 0a", &mut fields);
/// let (mut bytes, mut numbers) = (index.byte_map().reader(), index.number_map().reader());
/// look_up(&mut bytes, &mut numbers, LookUp::Get, &fields, &mut ToWriter::new(&mut replies))?;
/// assert_eq!(rt; replies.as_slice(), b"new\nis 6869\n".as_slice());
/// ```
pub fn look_up<W: Sink, const PREFIX_LEN: usize>(
    bytes: &mut MapReader<'_, Vec<u8>, Vec<u8>, PREFIX_LEN>,
    numbers: &mut MapReader<'_, [u8; NUMBER_KEY], Vec<u8>, PREFIX_LEN>,
    word: LookUp,
    fields: &Fields,
    sink: &mut W,
) -> Result<(), RunFault>
    requires open { W.has_failed sink.old ≡ false }
    requires bytes { (ps : List Pair) × ReadsRecords PREFIX_LEN bytes.old ps }
    requires numbers { (ns : List NumberPair) × ReadsNumbers PREFIX_LEN numbers.old ns }
    ensures output { (ps : List Pair) (ns : List NumberPair) → ReadsRecords PREFIX_LEN bytes.old ps
        → ReadsNumbers PREFIX_LEN numbers.old ns → Writes result (W.taken sink.old) (W.taken sink.new)
        (flat_map line_of (command_reply (Some (looks_up word fields.now)) (all_records_of ps ns)))
        (W.has_failed sink.new) }
    ensures err { IfErr result (λ fault. fault ≡ RunFault.Write) }
    ensures kept { IsSameMap bytes.old bytes.new × IsSameMap numbers.old numbers.new }
    ensures bytes_read { (ps : List Pair) (ns : List NumberPair) → ReadsRecords PREFIX_LEN bytes.old ps
        → ReadsNumbers PREFIX_LEN numbers.old ns → OnOk result (Grew
        (key_visits PREFIX_LEN (Some (looks_up word fields.now)) (all_records_of ps ns))
        bytes.old.count bytes.new.count) }
    ensures numbers_read { (ps : List Pair) (ns : List NumberPair) → ReadsRecords PREFIX_LEN bytes.old ps
        → ReadsNumbers PREFIX_LEN numbers.old ns → OnOk result (Grew
        (number_visits PREFIX_LEN (Some (looks_up word fields.now)) (all_records_of ps ns))
        numbers.old.count numbers.new.count) }

    // Whatever became of the reply, no more nodes were read than a whole one may take.
    ensures bytes_few { (ps : List Pair) (ns : List NumberPair) → ReadsRecords PREFIX_LEN bytes.old ps
        → ReadsNumbers PREFIX_LEN numbers.old ns → bytes.new.count ≤ bytes.old.count
        + (key_visits PREFIX_LEN (Some (looks_up word fields.now)) (all_records_of ps ns)).most }
    ensures numbers_few { (ps : List Pair) (ns : List NumberPair) → ReadsRecords PREFIX_LEN bytes.old ps
        → ReadsNumbers PREFIX_LEN numbers.old ns → numbers.new.count ≤ numbers.old.count
        + (number_visits PREFIX_LEN (Some (looks_up word fields.now)) (all_records_of ps ns)).most }
{
    write_look_up(bytes, numbers, word, fields, sink)?;
    Ok(())
}

/// Answers a look-up as `look_up` does, and returns the sink's own fault.
pub(crate) fn write_look_up<W: Sink, const PREFIX_LEN: usize>(
    bytes: &mut MapReader<'_, Vec<u8>, Vec<u8>, PREFIX_LEN>,
    numbers: &mut MapReader<'_, [u8; NUMBER_KEY], Vec<u8>, PREFIX_LEN>,
    word: LookUp,
    fields: &Fields,
    sink: &mut W,
) -> Result<(), WriteFailed>
    requires open { W.has_failed sink.old ≡ false }
    requires bytes { (ps : List Pair) × ReadsRecords PREFIX_LEN bytes.old ps }
    requires numbers { (ns : List NumberPair) × ReadsNumbers PREFIX_LEN numbers.old ns }
    ensures output { (ps : List Pair) (ns : List NumberPair) → ReadsRecords PREFIX_LEN bytes.old ps
        → ReadsNumbers PREFIX_LEN numbers.old ns → Writes result (W.taken sink.old) (W.taken sink.new)
        (flat_map line_of (command_reply (Some (looks_up word fields.now)) (all_records_of ps ns)))
        (W.has_failed sink.new) }
    ensures kept { IsSameMap bytes.old bytes.new × IsSameMap numbers.old numbers.new }
    ensures bytes_read { (ps : List Pair) (ns : List NumberPair) → ReadsRecords PREFIX_LEN bytes.old ps
        → ReadsNumbers PREFIX_LEN numbers.old ns → OnOk result (Grew
        (key_visits PREFIX_LEN (Some (looks_up word fields.now)) (all_records_of ps ns))
        bytes.old.count bytes.new.count) }
    ensures numbers_read { (ps : List Pair) (ns : List NumberPair) → ReadsRecords PREFIX_LEN bytes.old ps
        → ReadsNumbers PREFIX_LEN numbers.old ns → OnOk result (Grew
        (number_visits PREFIX_LEN (Some (looks_up word fields.now)) (all_records_of ps ns))
        numbers.old.count numbers.new.count) }
    ensures bytes_few { (ps : List Pair) (ns : List NumberPair) → ReadsRecords PREFIX_LEN bytes.old ps
        → ReadsNumbers PREFIX_LEN numbers.old ns → bytes.new.count ≤ bytes.old.count
        + (key_visits PREFIX_LEN (Some (looks_up word fields.now)) (all_records_of ps ns)).most }
    ensures numbers_few { (ps : List Pair) (ns : List NumberPair) → ReadsRecords PREFIX_LEN bytes.old ps
        → ReadsNumbers PREFIX_LEN numbers.old ns → numbers.new.count ≤ numbers.old.count
        + (number_visits PREFIX_LEN (Some (looks_up word fields.now)) (all_records_of ps ns)).most }
{
    match word {
        LookUp::Get => write_value(sink, value_of(bytes, fields)),
        LookUp::Find => write_prefix_pair(sink, prefix_pair_of(bytes, fields)),
        LookUp::List => write_list(bytes, fields, sink),
        LookUp::Span => write_span(bytes, fields, sink),
        LookUp::NGet => write_value(sink, value_at_number(numbers, fields)),
        LookUp::NSpan => write_number_span(numbers, fields, sink),
    }
}

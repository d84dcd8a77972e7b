//! Callers of art_engine and art_lines, of which their pages show one each.
ghost use Rattle.std.specs.Prelude.{◌≡◌, ℕ, ◌++◌, List, false, true, flat_map, IfErr, IsTrue, OnOk};
ghost use Rattle.art_lines.specs.Words.{line_of};
ghost use Rattle.art_lines.specs.Commands.{of_tenant, get, Spells};
ghost use Rattle.art_engine.specs.Replies.{dump_of};
ghost use Rattle.art_engine.specs.Spans.{ReadsRecords, ReadsNumbers};
ghost use Rattle.art_engine.specs.Stored.{NumberPair, Pair};
ghost use Rattle.art_walks.specs.MapReads.{IsSameMap};

use art_engine::{Index, RunFault, look};
use art_lines::command::fields::NUMBER_KEY;
use art_lines::{Command, Sink, parse_line};
use art_walks::MapReader;

/// Writes the lines that would make all records of an index, and then how many there are.
pub fn save<W: Sink, const PREFIX_LEN: usize>(
    index: &mut Index<PREFIX_LEN>,
    sink: &mut W,
) -> Result<(), RunFault>
    requires { W.has_failed sink.old ≡ false }
    ensures told { OnOk result (W.taken sink.new
        ≡ W.taken sink.old ++ flat_map line_of (dump_of index.old.records)) }
    ensures kept { OnOk result (index.new.records ≡ index.old.records) }
{
    index.handle(b"dump", sink)?;
    Ok(())
}

/// Whether a line asks for the value at a key.
pub fn is_get(line: &[u8]) -> bool
    ensures { IsTrue result → (tenant : ℕ) × (key : List ℕ) × Spells line.now (of_tenant tenant (get key)) }
{
    matches!(parse_line(line), Some(Command::Get { .. }))
}

/// Writes what stands under a tenant's number, by a reader of each map. Each reader goes on in the map that it had.
pub fn look_at_number<W: Sink, const PREFIX_LEN: usize>(
    bytes: &mut MapReader<'_, Vec<u8>, Vec<u8>, PREFIX_LEN>,
    numbers: &mut MapReader<'_, [u8; NUMBER_KEY], Vec<u8>, PREFIX_LEN>,
    tenant: u32,
    number: i64,
    sink: &mut W,
) -> Result<(), RunFault>
    requires open { W.has_failed sink.old ≡ false }
    requires bytes { (ps : List Pair) × ReadsRecords PREFIX_LEN bytes.old ps }
    requires numbers { (ns : List NumberPair) × ReadsNumbers PREFIX_LEN numbers.old ns }
    ensures err { IfErr result (λ fault. fault ≡ RunFault.Write) }
    ensures kept { IsSameMap bytes.old bytes.new × IsSameMap numbers.old numbers.new }
{
    look(bytes, numbers, &Command::NGet { tenant, number }, sink)
}

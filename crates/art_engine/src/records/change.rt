//! How the words that change something change the maps.
ghost use Rattle.std.specs.Prelude.{◌≡◌, ℕ, List};
ghost use Rattle.art_lines.specs.Commands.{Spells};
ghost use Rattle.art_lines.specs.Parsed.{changes};
ghost use Rattle.art_engine.specs.Stored.{all_records_of, ArePairs, AreNumberPairs};
ghost use Rattle.art_engine.specs.Changed.{IsChangeDone};

mod keys;
mod numbers;

use crate::change::Changed;
use art_lines::command::fields::{Fields, NUMBER_KEY};
use art_lines::command::word::Change;
use art_map::TreeMap;
use keys::{put_over, put_value, remove_key};
use numbers::{put_at_number, remove_number};
use std::alloc::Global;

/// Makes a change, and returns how it went. If it was out of memory, nothing is changed.
pub(super) fn change<const PREFIX_LEN: usize>(
    alloc: Global,
    records: &mut TreeMap<Vec<u8>, Vec<u8>, PREFIX_LEN>,
    numbers: &mut TreeMap<[u8; NUMBER_KEY], Vec<u8>, PREFIX_LEN>,
    word: Change,
    fields: &Fields,
) -> Changed
    requires held { ArePairs records.old.pairs }
    requires numbers { AreNumberPairs numbers.old.pairs }
    requires spelled { (line : List ℕ) × Spells line (changes word fields.now) }
    ensures held { ArePairs records.new.pairs }
    ensures numbers { AreNumberPairs numbers.new.pairs }
    ensures done { IsChangeDone result (changes word fields.now) (all_records_of records.old.pairs numbers.old.pairs)
        (all_records_of records.new.pairs numbers.new.pairs) }
{
    match word {
        Change::Put => put_value(alloc, records, fields),
        Change::Over => put_over(alloc, records, fields),
        Change::Del => remove_key(records, fields),
        Change::NPut => put_at_number(alloc, numbers, fields),
        Change::NDel => remove_number(numbers, fields),
    }
}

//! The records of all tenants under numbers: how the map of values under the bytes of a tenant and a number is changed.
ghost use Rattle.art_lines.specs.Commands.{of_tenant, nput, ndel};
ghost use Rattle.art_engine.specs.Records.{NumberFits};
ghost use Rattle.art_lines.specs.Parsed.{tenant_in_place, number_in_place, value_in_place};
ghost use Rattle.art_engine.specs.Stored.{number_records_of, AreNumberPairs};
ghost use Rattle.art_engine.specs.Changed.{IsChangeDone};

use crate::change::Changed;
use art_lines::command::fields::{Fields, NUMBER_KEY};
use art_map::TreeMap;
use std::alloc::Global;

/// Puts the value that was read at the tenant's number that was read. All memory is taken before anything is changed.
/// No number conflicts with another, since their keys have as many bytes.
#[inline(never)]
pub(super) fn put_at_number<const PREFIX_LEN: usize>(
    alloc: Global,
    numbers: &mut TreeMap<[u8; NUMBER_KEY], Vec<u8>, PREFIX_LEN>,
    fields: &Fields,
) -> Changed
    requires held { AreNumberPairs numbers.old.pairs }
    requires fits { NumberFits (record {
      tenant = tenant_in_place fields.now;
      key = number_in_place fields.now;
      value = value_in_place fields.now;
    }) }
    ensures held { AreNumberPairs numbers.new.pairs }
    ensures done { IsChangeDone result
        (of_tenant (tenant_in_place fields.now) (nput (number_in_place fields.now) (value_in_place fields.now)))
        (number_records_of numbers.old.pairs) (number_records_of numbers.new.pairs) }
{
    let Ok(value) = Vec::from_slice(alloc, fields.value()) else {
        return Changed::Memory;
    };
    match numbers.insert(fields.number_key(), value) {
        Ok(Some(old)) => Changed::Old(old),
        Ok(None) => Changed::New,
        Err(_) => Changed::Memory,
    }
}

/// Removes the value at the tenant's number that was read. It takes memory only where a node becomes one of the next
/// smaller kind.
pub(super) fn remove_number<const PREFIX_LEN: usize>(
    numbers: &mut TreeMap<[u8; NUMBER_KEY], Vec<u8>, PREFIX_LEN>,
    fields: &Fields,
) -> Changed
    requires { AreNumberPairs numbers.old.pairs }
    ensures held { AreNumberPairs numbers.new.pairs }
    ensures done { IsChangeDone result (of_tenant (tenant_in_place fields.now) (ndel (number_in_place fields.now)))
        (number_records_of numbers.old.pairs) (number_records_of numbers.new.pairs) }
{
    match numbers.remove(&fields.number_key()) {
        Ok(Some(value)) => Changed::Gone(value),
        Ok(None) => Changed::Absent,
        Err(_) => Changed::Memory,
    }
}

//! The records of all tenants under keys: how the map of values under full keys is changed.
ghost use Rattle.art_lines.specs.Commands.{of_tenant, over, del};
ghost use Rattle.art_engine.specs.Records.{KeyFits};
ghost use Rattle.art_lines.specs.Parsed.{tenant_in_place, key_in_place, value_in_place};
ghost use Rattle.art_engine.specs.Stored.{records_of, ArePairs};
ghost use Rattle.art_engine.specs.Changed.{IsPutDone, IsChangeDone};

use crate::change::Changed;
use art_bytes::SliceKey;
use art_lines::command::fields::Fields;
use art_map::TreeMap;
use std::alloc::Global;

/// Puts the value that was read at the tenant's key that was read, unless the key conflicts with another. All memory is
/// taken before anything is changed, and none where there is a conflict.
#[inline(never)]
pub(super) fn put_value<const PREFIX_LEN: usize>(
    alloc: Global,
    records: &mut TreeMap<Vec<u8>, Vec<u8>, PREFIX_LEN>,
    fields: &Fields,
) -> Changed
    requires held { ArePairs records.old.pairs }
    requires fits { KeyFits (record {
      tenant = tenant_in_place fields.now;
      key = key_in_place fields.now;
      value = value_in_place fields.now;
    }) }
    ensures held { ArePairs records.new.pairs }
    ensures placed { IsPutDone result (records_of records.old.pairs) (tenant_in_place fields.now)
        (key_in_place fields.now) (value_in_place fields.now) (records_of records.new.pairs) }
{
    let full = fields.full_key();
    let Ok(place) = records.find_place(&SliceKey(full)) else {
        return Changed::Conflict;
    };
    let Ok(key) = Vec::from_slice(alloc, full) else {
        return Changed::Memory;
    };
    let Ok(value) = Vec::from_slice(alloc, fields.value()) else {
        return Changed::Memory;
    };
    match records.insert_at(place, key, value) {
        Ok(Some(old)) => Changed::Old(old),
        Ok(None) => Changed::New,
        Err(_) => Changed::Memory,
    }
}

/// Puts the value that was read at the tenant's key that was read, in the place of all whose keys overlap it. All
/// memory is taken before anything is changed.
#[inline(never)]
pub(super) fn put_over<const PREFIX_LEN: usize>(
    alloc: Global,
    records: &mut TreeMap<Vec<u8>, Vec<u8>, PREFIX_LEN>,
    fields: &Fields,
) -> Changed
    requires held { ArePairs records.old.pairs }
    requires fits { KeyFits (record {
      tenant = tenant_in_place fields.now;
      key = key_in_place fields.now;
      value = value_in_place fields.now;
    }) }
    ensures held { ArePairs records.new.pairs }
    ensures done { IsChangeDone result
        (of_tenant (tenant_in_place fields.now) (over (key_in_place fields.now) (value_in_place fields.now)))
        (records_of records.old.pairs) (records_of records.new.pairs) }
{
    let Ok(key) = Vec::from_slice(alloc, fields.full_key()) else {
        return Changed::Memory;
    };
    let Ok(value) = Vec::from_slice(alloc, fields.value()) else {
        return Changed::Memory;
    };
    match records.prefix_insert(key, value) {
        Ok(count) => Changed::Over(count),
        Err(_) => Changed::Memory,
    }
}

/// Removes the value at the tenant's key that was read. It takes memory only where a node becomes one of the next
/// smaller kind.
pub(super) fn remove_key<const PREFIX_LEN: usize>(
    records: &mut TreeMap<Vec<u8>, Vec<u8>, PREFIX_LEN>,
    fields: &Fields,
) -> Changed
    requires { ArePairs records.old.pairs }
    ensures held { ArePairs records.new.pairs }
    ensures done { IsChangeDone result (of_tenant (tenant_in_place fields.now) (del (key_in_place fields.now)))
        (records_of records.old.pairs) (records_of records.new.pairs) }
{
    match records.remove(&SliceKey(fields.full_key())) {
        Ok(Some(value)) => Changed::Gone(value),
        Ok(None) => Changed::Absent,
        Err(_) => Changed::Memory,
    }
}

//! The drop of a tenant: all of its records are removed.
//!
//! A map that is empty then keeps its memory. Giving it back was tried under 16 MiB: a load of another shape then
//! mostly stored more records, but the same load again fewer, since glibc then asks the system for larger blocks only.
ghost use Rattle.std.specs.Prelude.{◌≡◌, ◌+◌, ◌-◌, ◌^◌, min};
ghost use Rattle.art_engine.specs.Dropped.{IsDropDone};
ghost use Rattle.art_engine.specs.declared.drop_tenant.Dropped.TheVariants.{Gone};
ghost use Rattle.art_lines.specs.Parsed.{tenant_in_place};
ghost use Rattle.art_engine.specs.Stored.{all_records_of, ArePairs, AreNumberPairs};

use crate::drop_tenant::Dropped;
use art_lines::command::fields::{Fields, NUMBER_KEY};
use art_map::{Removed, TreeMap};

/// Removes all records of the tenant that was read, those under keys and those under numbers. Both removals are
/// prepared before either is made: so if one is out of memory, nothing is changed. They allocate only if the loss of
/// all that the tenant has in one tree makes a node of it one of the next smaller kind.
pub(super) fn drop_tenant<const PREFIX_LEN: usize>(
    records: &mut TreeMap<Vec<u8>, Vec<u8>, PREFIX_LEN>,
    numbers: &mut TreeMap<[u8; NUMBER_KEY], Vec<u8>, PREFIX_LEN>,
    fields: &Fields,
) -> Dropped
    requires held { ArePairs records.old.pairs }
    requires numbers { AreNumberPairs numbers.old.pairs }
    ensures held { ArePairs records.new.pairs }
    ensures numbers { AreNumberPairs numbers.new.pairs }
    ensures done { IsDropDone PREFIX_LEN result (tenant_in_place fields.now)
        (all_records_of records.old.pairs numbers.old.pairs) (all_records_of records.new.pairs numbers.new.pairs) }
{
    let prefix = fields.tenant().to_be_bytes();
    let Ok(keys) = records.prepare_remove_prefix(&prefix) else {
        return Dropped::Memory;
    };
    match numbers.prepare_remove_prefix(&prefix) {
        Ok(others) => sum_removed(keys.apply(), others.apply()),
        Err(_) => Dropped::Memory,
    }
}

// What both removals did.
fn sum_removed(keys: Removed, others: Removed) -> Dropped
    ensures { result ≡ Gone keys.pairs others.pairs (min (keys.visits + others.visits) (2 ^ 64 - 1)) }
{
    Dropped::Gone {
        keys: keys.pairs,
        numbers: others.pairs,
        visits: keys.visits.saturating_add(others.visits),
    }
}

//! Records that are looked up by their full keys, each node that is read counted.
ghost use Rattle.std.specs.Prelude.{◌≡◌, List, Some, option_map, IfSome, ◌+◌, ◌≤◌, length, bytes_eq};
ghost use Rattle.std.specs.Ordering.{int_eq};
ghost use Rattle.art_walks.specs.MapReads.{IsSameMap};
ghost use Rattle.art_lines.specs.Words.{line_of};
ghost use Rattle.art_lines.specs.Commands.{get, find, nget, of_tenant};
ghost use Rattle.art_engine.specs.Records.{own};
ghost use Rattle.art_engine.specs.Replies.{value_at, front_at};
ghost use Rattle.art_lines.specs.ReplyWords.{pair_words};
ghost use Rattle.art_engine.specs.Counts.{visits_of, Grew};
ghost use Rattle.art_lines.specs.Parsed.{tenant_in_place, key_in_place, number_in_place};
ghost use Rattle.art_engine.specs.Stored.{Pair, NumberPair, records_of, number_records_of};
ghost use Rattle.art_engine.specs.Spans.{ReadsRecords, ReadsNumbers};

use art_bytes::SliceKey;
use art_lines::command::fields::{Fields, NUMBER_KEY};
use art_lines::gather::key_of;
use art_walks::MapReader;

/// The value at the tenant's key that was read. It is looked up by its full key in place, without an allocation. Nodes
/// of the full key's path are read, and no others: all of them if the value is there, else up to one whose prefix, as
/// it is stored, isn't the full key's there.
pub(crate) fn value_of<'a, const PREFIX_LEN: usize>(
    records: &mut MapReader<'a, Vec<u8>, Vec<u8>, PREFIX_LEN>,
    fields: &Fields,
) -> Option<&'a [u8]>
    ensures value { (ps : List Pair) → ReadsRecords PREFIX_LEN records.old ps → option_map (λ v. v.now) result
        ≡ value_at bytes_eq (key_in_place fields.now) (own (tenant_in_place fields.now) (records_of ps)).keys }
    ensures kept { IsSameMap records.old records.new }
    ensures visits { (ps : List Pair) → ReadsRecords PREFIX_LEN records.old ps → Grew
        (visits_of PREFIX_LEN (Some (of_tenant (tenant_in_place fields.now) (get (key_in_place fields.now))))
        (records_of ps))
        records.old.count records.new.count }
{
    match records.get_key_value(&SliceKey(fields.full_key())) {
        Some((_full, value)) => Some(value.as_slice()),
        None => None,
    }
}

/// The tenant's key that is a prefix of the one that was read, or equals it, and the value there. It is looked up as in
/// `value_of`.
pub(crate) fn prefix_pair_of<'a, const PREFIX_LEN: usize>(
    records: &mut MapReader<'a, Vec<u8>, Vec<u8>, PREFIX_LEN>,
    fields: &Fields,
) -> Option<(&'a [u8], &'a [u8])>
    requires { (ps : List Pair) × ReadsRecords PREFIX_LEN records.old ps }
    ensures found { (ps : List Pair) → ReadsRecords PREFIX_LEN records.old ps
        → option_map (λ p. (p.0.now, p.1.now)) result
        ≡ front_at (key_in_place fields.now) (own (tenant_in_place fields.now) (records_of ps)).keys }
    ensures line { IfSome result (λ p. 3 + length (line_of (pair_words (p.0.now, p.1.now))) ≤ 4097) }
    ensures kept { IsSameMap records.old records.new }
    ensures visits { (ps : List Pair) → ReadsRecords PREFIX_LEN records.old ps → Grew
        (visits_of PREFIX_LEN (Some (of_tenant (tenant_in_place fields.now) (find (key_in_place fields.now))))
        (records_of ps))
        records.old.count records.new.count }
{
    match records.prefix_get_key_value(&SliceKey(fields.full_key())) {
        Some((full, value)) => {
            let key = key_of(full.as_slice());
            let text = value.as_slice();
            Some((key, text))
        }
        None => None,
    }
}

/// The value at the tenant's number that was read. Its key is put together in place, without an allocation.
pub(crate) fn value_at_number<'a, const PREFIX_LEN: usize>(
    numbers: &mut MapReader<'a, [u8; NUMBER_KEY], Vec<u8>, PREFIX_LEN>,
    fields: &Fields,
) -> Option<&'a [u8]>
    ensures value { (ns : List NumberPair) → ReadsNumbers PREFIX_LEN numbers.old ns
        → option_map (λ v. v.now) result ≡ value_at int_eq (number_in_place fields.now)
        (own (tenant_in_place fields.now) (number_records_of ns)).numbers }
    ensures kept { IsSameMap numbers.old numbers.new }
    ensures visits { (ns : List NumberPair) → ReadsNumbers PREFIX_LEN numbers.old ns → Grew
        (visits_of PREFIX_LEN (Some (of_tenant (tenant_in_place fields.now) (nget (number_in_place fields.now))))
        (number_records_of ns))
        numbers.old.count numbers.new.count }
{
    match numbers.get_key_value(&fields.number_key()) {
        Some((_key, value)) => Some(value.as_slice()),
        None => None,
    }
}

//! The pairs that a caller asks for.
ghost use Rattle.std.specs.Prelude.{◌≡◌, option_map};
ghost use Rattle.std.specs.Map.Iter.{deref_pair};
ghost use Rattle.std.specs.Range.Bound.{bound_map};
ghost use Rattle.art_c.specs.Calls.{first_with_prefix, is_stored, last_with_prefix, pair_inside, wanted_of};
ghost use Rattle.art_c.specs.Handles.{pairs_or_none, store_of};

use crate::bytes::Bytes;
use crate::handle::{Handle, Kind, Map};
use art_bytes::SliceKey;
use art_operations::find_leaf_pointer_for_bound;
use std::alloc::Global;
use std::ops::Bound;

/// Which pair of a map is wanted.
#[derive(Clone, Copy)]
pub(crate) enum Wanted<'a> {
    /// The one with the least key.
    First,
    /// The one with the greatest key.
    Last,
    /// The one with the least key that begins with these bytes.
    FirstWithPrefix(&'a [u8]),
    /// The one with the greatest key that begins with these bytes.
    LastWithPrefix(&'a [u8]),
    /// The one whose key is a front of these bytes, or equals them.
    FrontOf(&'a [u8]),
    /// The one with the longest key that is a front of these bytes, or all of them, and this mark after it.
    MarkedFrontOf(&'a [u8], u8),
    /// The one with the least key above this one.
    Above(&'a [u8]),
    /// The one with the greatest key below this one.
    Below(&'a [u8]),
    /// The one with this key, or else with the least key above it.
    AtOrAbove(&'a [u8]),
    /// The one with this key, or else with the greatest key below it.
    AtOrBelow(&'a [u8]),
}

/// The first pair that is inside a bound as a start, or the last that is inside it as an end, by one way down the tree.
fn pair_inside<'m, V>(
    map: &'m Map<V>,
    bound: Bound<&[u8]>,
    is_start: bool,
) -> Option<(&'m Bytes, &'m V)>
    ensures { option_map deref_pair result
        ≡ pair_inside is_start (bound_map (λ key. key.now) bound.entry) map.now.pairs }
{
    let (nodes, root) = map.nodes();
    let Some(root) = root else {
        return None;
    };
    let Some(leaf) = find_leaf_pointer_for_bound(nodes, root, bound, is_start) else {
        return None;
    };
    Some(nodes.as_key_value_ref(leaf))
}

fn first_with_prefix<'m, V>(map: &'m Map<V>, prefix: &[u8]) -> Option<(&'m Bytes, &'m V)>
    ensures { option_map deref_pair result ≡ first_with_prefix prefix.now map.now.pairs }
{
    map.prefix(&SliceKey(prefix)).next()
}

fn last_with_prefix<'m, V>(map: &'m Map<V>, prefix: &[u8]) -> Option<(&'m Bytes, &'m V)>
    ensures { option_map deref_pair result ≡ last_with_prefix prefix.now map.now.pairs }
{
    map.prefix(&SliceKey(prefix)).next_back()
}

pub(crate) fn pair_of<'m, V>(map: &'m Map<V>, wanted: Wanted<'_>) -> Option<(&'m Bytes, &'m V)>
    ensures { option_map deref_pair result ≡ wanted_of wanted.entry map.now.pairs }
{
    match wanted {
        Wanted::First => map.first_key_value(),
        Wanted::Last => map.last_key_value(),
        Wanted::FirstWithPrefix(prefix) => first_with_prefix(map, prefix),
        Wanted::LastWithPrefix(prefix) => last_with_prefix(map, prefix),
        Wanted::FrontOf(query) => map.prefix_get_key_value(&SliceKey(query)),
        Wanted::MarkedFrontOf(query, mark) => map.marked_get_key_value(&SliceKey(query), mark),
        Wanted::Above(key) => pair_inside(map, Bound::Excluded(key), true),
        Wanted::Below(key) => pair_inside(map, Bound::Excluded(key), false),
        Wanted::AtOrAbove(key) => pair_inside(map, Bound::Included(key), true),
        Wanted::AtOrBelow(key) => pair_inside(map, Bound::Included(key), false),
    }
}

/// Whether a pair has the key.
pub(crate) fn contains<V: Kind>(alloc: Global, handle: &mut Handle, key: &[u8]) -> bool
    ensures is { result ≡ is_stored key.now (pairs_or_none (V.view (store_of handle.old))) }
    ensures kept { store_of handle.new ≡ store_of handle.old }
{
    let Some(store) = handle.take(alloc) else {
        return false;
    };
    let is = match V::kept(&store) {
        Some(kept) => kept.map().get(&SliceKey(key)).is_some(),
        None => false,
    };
    handle.set(store);
    is
}

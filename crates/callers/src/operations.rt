//! Callers of art_operations, of which its README.md shows one.

ghost use Rattle.std.specs.Prelude.{◌≡◌, [], ℕ, List, Some, IfNone, IfOk, IfSome, IsTrue, OnErr};
ghost use Rattle.std.specs.BTreeMap.Range.{range_contains};
ghost use Rattle.std.specs.Range.Bound.{bound_map};
ghost use Rattle.std.specs.Str.{bytes_eq};
ghost use Rattle.art_bytes.specs.Keys.{bytes_cmp};
ghost use Rattle.art_arena.specs.arena.Arena.{SameNodes, node_at};
ghost use Rattle.art_arena.specs.arena.Meaning.{IsSubtree};
ghost use Rattle.art_arena.specs.arena.Shapes.{Shape, key_of, leaves, pairs_of};
ghost use Rattle.art_arena.specs.arena.Stores.{StoresOnly};
ghost use Rattle.art_arena.specs.tree.Changes.{IsIn};
ghost use Rattle.art_arena.specs.tree.Tenants.{begins_with};
ghost use Rattle.art_operations.specs.Deletions.{IsDeletedBeside};
ghost use Rattle.art_operations.specs.KeyedLists.{without_key};
ghost use Rattle.art_operations.specs.Lookups.{leaf_where};
ghost use Rattle.art_operations.specs.Pairs.{HasPairs, with_pair_put};

use art_arena::{LeafPtr, NodeArena};
use art_bytes::AsBytes;
use art_nodes::OpaqueNodePtr;
use art_operations::{
    DeleteResult, InsertKind, find_insert_point, find_leaf_pointer_for_bound, find_prefix_segment,
    find_range_segment, insert_pair, search_for_delete_point, search_unchecked, take_leaf,
    take_pair,
};
use std::alloc::AllocError;
use std::ops::Bound;

/// The leaf with a key of the same bytes as this one.
pub fn find<K: AsBytes, V, const PREFIX_LEN: usize>(
    arena: &NodeArena<K, V, PREFIX_LEN>,
    root: OpaqueNodePtr,
    key: &K,
) -> Option<LeafPtr>
    requires { (s : Shape K V) × IsSubtree K.bytes PREFIX_LEN (node_at arena.now) root [] s }
    ensures { (s : Shape K V) → IsSubtree K.bytes PREFIX_LEN (node_at arena.now) root [] s
        → result ≡ leaf_where K.bytes (λ k. bytes_eq k (K.bytes key.now)) (leaves s) }
{
    search_unchecked(arena, root, key.as_bytes())
}

/// Stores a pair, in the place of one that has the key, and answers the new root. There is none where the key is in
/// conflict with a stored one, or there is no memory: nothing changed then.
pub fn store<K: AsBytes + Drop, V: Drop, const PREFIX_LEN: usize>(
    arena: &mut NodeArena<K, V, PREFIX_LEN>,
    root: Option<OpaqueNodePtr>,
    key: K,
    value: V,
) -> Option<OpaqueNodePtr>
    requires { (pairs : List (K × V)) × HasPairs K.bytes PREFIX_LEN arena.old root pairs }
    ensures some { IfSome result (λ top. (pairs : List (K × V)) → HasPairs K.bytes PREFIX_LEN arena.old root pairs
        → HasPairs K.bytes PREFIX_LEN arena.new (Some top) (with_pair_put K.bytes key value pairs)) }
    ensures none { IfNone result (SameNodes arena.old arena.new) }
{
    match insert_pair(arena, root, key, value) {
        Ok(put) => Some(put.new_root),
        Err(_) => None,
    }
}

/// Drops the pair that has a key, if there is one, and answers the root of what is left.
pub fn forget<K: AsBytes + Drop, V: Drop, const PREFIX_LEN: usize>(
    arena: &mut NodeArena<K, V, PREFIX_LEN>,
    root: OpaqueNodePtr,
    key: &[u8],
) -> Result<Option<OpaqueNodePtr>, AllocError>
    requires { (pairs : List (K × V)) × HasPairs K.bytes PREFIX_LEN arena.old (Some root) pairs }
    ensures ok { IfOk result (λ left. (pairs : List (K × V)) → HasPairs K.bytes PREFIX_LEN arena.old (Some root) pairs
        → HasPairs K.bytes PREFIX_LEN arena.new left (without_key (key_of K.bytes) key.now pairs)) }
    ensures err { OnErr result (SameNodes arena.old arena.new) }
{
    match take_pair(arena, Some(root), key)? {
        Some(deleted) => Ok(deleted.new_root),
        None => Ok(Some(root)),
    }
}

/// Puts a pair in whose key is not stored, at its point, and answers the new root. There is none where the key is
/// stored or in conflict with a stored one, or there is no memory: nothing changed then.
pub fn put_new<K: AsBytes + Drop, V: Drop, const PREFIX_LEN: usize>(
    arena: &mut NodeArena<K, V, PREFIX_LEN>,
    root: OpaqueNodePtr,
    key: K,
    value: V,
) -> Option<OpaqueNodePtr>
    requires { (s : Shape K V) × StoresOnly K.bytes PREFIX_LEN arena.old root s }
    ensures some { IfSome result (λ top. (t : Shape K V) × StoresOnly K.bytes PREFIX_LEN arena.new top t
        × IsIn (key, value) (pairs_of (leaves t))) }
    ensures none { IfNone result (SameNodes arena.old arena.new) }
{
    let Ok(point) = find_insert_point(arena, root, key.as_bytes()) else {
        return None;
    };
    let kind = point.insert_kind;
    if let InsertKind::Exact { .. } = kind {
        return None;
    }
    match point.apply(arena, key, value) {
        Ok(put) => Some(put.new_root),
        Err(_) => None,
    }
}

/// Takes the leaf with a key out at its point, if there is one, and answers it with the root of what is left.
pub fn take_at<K: AsBytes, V, const PREFIX_LEN: usize>(
    arena: &mut NodeArena<K, V, PREFIX_LEN>,
    root: OpaqueNodePtr,
    key: &[u8],
) -> Result<Option<DeleteResult<K, V>>, AllocError>
    requires { (s : Shape K V) × StoresOnly K.bytes PREFIX_LEN arena.old root s }
    ensures ok { IfOk result (λ taken. IfSome taken (λ deleted. (s : Shape K V)
        → StoresOnly K.bytes PREFIX_LEN arena.old root s
        → (slot : ℕ) × IsDeletedBeside K.bytes PREFIX_LEN arena.new [] s slot deleted)) }
    ensures err { OnErr result (SameNodes arena.old arena.new) }
{
    let Some(point) = search_for_delete_point(arena, root, key) else {
        return Ok(None);
    };
    let deleted = point.apply(arena, root)?;
    Ok(Some(deleted))
}

/// Takes the first leaf out whose key is this one or above it, if there is one, and answers it with the root of what is
/// left.
pub fn take_from<K: AsBytes, V, const PREFIX_LEN: usize>(
    arena: &mut NodeArena<K, V, PREFIX_LEN>,
    root: OpaqueNodePtr,
    key: &[u8],
) -> Result<Option<DeleteResult<K, V>>, AllocError>
    requires { (s : Shape K V) × StoresOnly K.bytes PREFIX_LEN arena.old root s }
    ensures ok { IfOk result (λ taken. IfSome taken (λ deleted. (s : Shape K V)
        → StoresOnly K.bytes PREFIX_LEN arena.old root s
        → (slot : ℕ) × IsDeletedBeside K.bytes PREFIX_LEN arena.new [] s slot deleted)) }
    ensures err { OnErr result (SameNodes arena.old arena.new) }
{
    let bound = Bound::Included(key);
    let Some(leaf) = find_leaf_pointer_for_bound(arena, root, bound, true) else {
        return Ok(None);
    };
    let deleted = take_leaf(arena, root, leaf)?;
    Ok(Some(deleted))
}

/// The first key between two bounds.
pub fn first_between<'a, K: AsBytes, V, const PREFIX_LEN: usize>(
    arena: &'a NodeArena<K, V, PREFIX_LEN>,
    root: OpaqueNodePtr,
    start: Bound<&[u8]>,
    end: Bound<&[u8]>,
) -> Option<&'a K>
    requires { (s : Shape K V) × StoresOnly K.bytes PREFIX_LEN arena.now root s }
    ensures { IfSome result (λ key. IsTrue (range_contains bytes_cmp (bound_map (λ key. key.now) start.entry)
        (bound_map (λ key. key.now) end.entry) (K.bytes key.now))) }
{
    match find_range_segment(arena, root, start, end) {
        Some((first, _)) => Some(arena.as_key_ref(first)),
        None => None,
    }
}

/// The first key that begins with a prefix.
pub fn first_under_prefix<'a, K: AsBytes, V, const PREFIX_LEN: usize>(
    arena: &'a NodeArena<K, V, PREFIX_LEN>,
    root: OpaqueNodePtr,
    prefix: &[u8],
) -> Option<&'a K>
    requires { (s : Shape K V) × StoresOnly K.bytes PREFIX_LEN arena.now root s }
    ensures { IfSome result (λ key. IsTrue (begins_with prefix.now (K.bytes key.now))) }
{
    match find_prefix_segment(arena, root, prefix) {
        Some((first, _)) => Some(arena.as_key_ref(first)),
        None => None,
    }
}

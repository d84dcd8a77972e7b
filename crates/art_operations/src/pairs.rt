//! Insertion and deletion, told by the pairs that an arena has: commands and maps stand on these.
ghost use Rattle.std.specs.Prelude.{◌≡◌, ◌+◌, List, [], Some, None, IfErr, IfNone, IfOk, IfSome, IsOk, OnErr, OnOk};
ghost use Rattle.std.specs.Prelude.{OnSome};
ghost use Rattle.art_nodes.specs.declared.kind.NodeType.TheVariants.{Leaf};
ghost use Rattle.art_nodes.specs.Name.{Name};
ghost use Rattle.art_arena.specs.arena.Arena.{node_at, HasRoom, KeepsNodes, KeepsRoomOf, SameNodes, UsesRoom};
ghost use Rattle.art_arena.specs.arena.Cells.{Cell, HoldsOnly};
ghost use Rattle.art_arena.specs.arena.Rooms.{FreesRoomOf};
ghost use Rattle.art_arena.specs.arena.Shapes.{key_of};
ghost use Rattle.art_arena.specs.tree.Shrinks.{Shrinks};
ghost use Rattle.art_operations.specs.Insertions.{HandsPairBack, IsForConflict, IsPairRefused, replaced_by};
ghost use Rattle.art_operations.specs.Frees.{SwapsLeaves};
ghost use Rattle.art_operations.specs.KeyedLists.{HasKey, IsBlocked};
ghost use Rattle.art_operations.specs.LeafNames.{HasLeavesOf, KeepsLeavesOf};
ghost use Rattle.art_operations.specs.Overwrites.{removed_by};
ghost use Rattle.art_operations.specs.Pairs.{CanPut, CanPutOver, HasPairsBeside, HasPut};
ghost use Rattle.art_operations.specs.Pairs.{HasPutOver, HasTaken, HasTakenEnd, IsPlaced};
ghost use Rattle.art_operations.specs.Pairs.{IsPlaceFor, ShrinksAtEnd, TellsConflict, with_pair_over};
ghost use Rattle.art_operations.specs.Whichever.{HasSome, OfEach};

use crate::delete::point::{end_point, search_for_delete_point};
use crate::delete::result::DeleteResult;
use crate::insert::leaf::store_leaf;
use crate::insert::point::{InsertPoint, PrefixConflict, find_insert_point};
use crate::insert::result::{InsertParentNodeChange, InsertRefused, InsertResult, PairRefused};
use crate::prefix_insert::point::{PrefixInsertPoint, search_for_prefix_insert_point};
use crate::prefix_insert::result::PrefixInsertResult;
use art_arena::{End, NodeArena};
use art_bytes::AsBytes;
use art_nodes::OpaqueNodePtr;
use std::alloc::AllocError;

/// Finds where a key goes: its point in the tree, or `None` if there is no pair yet. It allocates nothing.
///
/// Fails if the key is a prefix of a stored key, or a stored key is a prefix of it. The error names the part of the
/// tree that has these keys.
#[inline(always)]
pub fn find_place<K: AsBytes, V, const PREFIX_LEN: usize>(
    arena: &NodeArena<K, V, PREFIX_LEN>,
    root: Option<OpaqueNodePtr>,
    key: &[u8],
) -> Result<Option<InsertPoint>, PrefixConflict>
    requires { HasSome (HasPairsBeside K.bytes PREFIX_LEN arena.now root) }
    ensures placed { OfEach (HasPairsBeside K.bytes PREFIX_LEN arena.now root)
        (IsPlaced K.bytes PREFIX_LEN arena.now key.now result) }
    ensures place { IfOk result (IsPlaceFor K.bytes PREFIX_LEN arena.now root key.now) }
    ensures part { IfErr result (TellsConflict K.bytes PREFIX_LEN arena.now root key.now) }
{
    match root {
        Some(top) => match find_insert_point(arena, top, key) {
            Ok(point) => Ok(Some(point)),
            Err(conflict) => Err(conflict),
        },
        None => Ok(None),
    }
}

// Stores the first pair.
fn insert_first<K: AsBytes, V, const PREFIX_LEN: usize>(
    arena: &mut NodeArena<K, V, PREFIX_LEN>,
    key: K,
    value: V,
) -> Result<InsertResult<K, V>, InsertRefused<K, V>>
    ensures ok { IfOk result (λ put. (rest : List (Name × Cell K V)) → HoldsOnly (node_at arena.old) rest
        → HasPut K.bytes PREFIX_LEN arena.new key value put [] rest) }
    ensures others { IfOk result (λ put. (rest : List (Name × Cell K V)) → HoldsOnly (node_at arena.old) rest
        → KeepsNodes rest arena.old arena.new) }
    ensures names { OnOk result (HasLeavesOf K.bytes arena.new arena.old) }
    ensures err { OnErr result (SameNodes arena.old arena.new) }
    ensures handed_back { HandsPairBack key value result }
    ensures succeeds { HasRoom arena.old 1 → IsOk result }
    ensures room { UsesRoom 1 arena.old arena.new }
    ensures leaf_room { IfOk result (λ put. SwapsLeaves 1 (replaced_by put) arena.old arena.new) }
    ensures kept_room { OnErr result (KeepsRoomOf arena.old arena.new) }
{
    let leaf = store_leaf(arena, key, value)?;
    Ok(InsertResult {
        leaf_node_ptr: leaf,
        existing_leaf: None,
        new_root: leaf.to_opaque(),
        parent_node_change: InsertParentNodeChange::NoChange,
    })
}

/// Inserts a key and its value at the place that was found for the key. It returns a pair that has the key already,
/// whose leaf the new one takes: that never fails. Whatever stands beside the tree is unchanged.
///
/// Fails if out of memory. The error returns the key and the value, and nothing changed.
#[inline(always)]
pub fn insert_at<K: AsBytes, V, const PREFIX_LEN: usize>(
    arena: &mut NodeArena<K, V, PREFIX_LEN>,
    place: Option<InsertPoint>,
    key: K,
    value: V,
) -> Result<InsertResult<K, V>, InsertRefused<K, V>>
    requires { HasSome (CanPut K.bytes PREFIX_LEN arena.old place (K.bytes key)) }
    ensures ok { IfOk result (λ put. OfEach (CanPut K.bytes PREFIX_LEN arena.old place (K.bytes key))
        (HasPut K.bytes PREFIX_LEN arena.new key value put)) }
    ensures others { IfOk result (λ put. OfEach (CanPut K.bytes PREFIX_LEN arena.old place (K.bytes key))
        (λ pairs rest. KeepsNodes rest arena.old arena.new)) }
    ensures stored { OfEach (CanPut K.bytes PREFIX_LEN arena.old place (K.bytes key))
        (λ pairs rest. HasKey (key_of K.bytes) (K.bytes key) pairs → IsOk result) }
    ensures names { OnOk result (HasLeavesOf K.bytes arena.new arena.old) }
    ensures err { OnErr result (SameNodes arena.old arena.new) }
    ensures handed_back { HandsPairBack key value result }
    ensures succeeds { HasRoom arena.old 2 → IsOk result }
    ensures room { UsesRoom 2 arena.old arena.new }
    ensures leaf_room { IfOk result (λ put. SwapsLeaves 1 (replaced_by put) arena.old arena.new) }
    ensures kept_room { OnErr result (KeepsRoomOf arena.old arena.new) }
    ensures stored_room { OfEach (CanPut K.bytes PREFIX_LEN arena.old place (K.bytes key))
        (λ pairs rest. HasKey (key_of K.bytes) (K.bytes key) pairs → KeepsRoomOf arena.old arena.new) }
{
    match place {
        Some(point) => point.apply(arena, key, value),
        None => insert_first(arena, key, value),
    }
}

// The refusal of a pair for which no memory was found.
fn memory_refusal<K, V>(refused: InsertRefused<K, V>) -> PairRefused<K, V>
    ensures { IsPairRefused refused.key refused.value ⊥ result × (IsForConflict result → ⊥) }
{
    PairRefused::Memory {
        key: refused.key,
        value: refused.value,
    }
}

/// Inserts a key and its value at the place of the key, by `find_place` and `insert_at`. It returns a pair that has the
/// key already, whose leaf the new one takes: that never fails. Whatever stands beside the tree is unchanged.
///
/// Fails if the key is a prefix of a stored key, or a stored key is a prefix of it, and if out of memory. The error
/// returns the key and the value, and nothing changed.
#[inline(always)]
pub fn insert_pair<K: AsBytes, V, const PREFIX_LEN: usize>(
    arena: &mut NodeArena<K, V, PREFIX_LEN>,
    root: Option<OpaqueNodePtr>,
    key: K,
    value: V,
) -> Result<InsertResult<K, V>, PairRefused<K, V>>
    requires { HasSome (HasPairsBeside K.bytes PREFIX_LEN arena.old root) }
    ensures ok { IfOk result (λ put. OfEach (HasPairsBeside K.bytes PREFIX_LEN arena.old root)
        (HasPut K.bytes PREFIX_LEN arena.new key value put)) }
    ensures others { IfOk result (λ put. OfEach (HasPairsBeside K.bytes PREFIX_LEN arena.old root)
        (λ pairs rest. KeepsNodes rest arena.old arena.new)) }
    ensures free { IfOk result (λ put. OfEach (HasPairsBeside K.bytes PREFIX_LEN arena.old root)
        (λ pairs rest. IsBlocked (key_of K.bytes) (K.bytes key) pairs → ⊥)) }
    ensures stored { OfEach (HasPairsBeside K.bytes PREFIX_LEN arena.old root)
        (λ pairs rest. HasKey (key_of K.bytes) (K.bytes key) pairs → IsOk result) }
    ensures names { OnOk result (HasLeavesOf K.bytes arena.new arena.old) }
    ensures err { OnErr result (SameNodes arena.old arena.new) }
    ensures refused { IfErr result (λ e. OfEach (HasPairsBeside K.bytes PREFIX_LEN arena.old root)
        (λ pairs rest. IsPairRefused key value (IsBlocked (key_of K.bytes) (K.bytes key) pairs) e)) }
    ensures succeeds { IfErr result (λ e. HasRoom arena.old 2 → IsForConflict e) }
    ensures room { UsesRoom 2 arena.old arena.new }
    ensures leaf_room { IfOk result (λ put. SwapsLeaves 1 (replaced_by put) arena.old arena.new) }
    ensures kept_room { OnErr result (KeepsRoomOf arena.old arena.new) }
    ensures stored_room { OfEach (HasPairsBeside K.bytes PREFIX_LEN arena.old root)
        (λ pairs rest. HasKey (key_of K.bytes) (K.bytes key) pairs → KeepsRoomOf arena.old arena.new) }
{
    match find_place(arena, root, key.as_bytes()) {
        Ok(place) => match insert_at(arena, place, key, value) {
            Ok(put) => Ok(put),
            Err(refused) => Err(memory_refusal(refused)),
        },
        Err(_) => Err(PairRefused::Conflict { key, value }),
    }
}

/// Finds where a key goes that is inserted in place of all whose keys overlap it. These are its bytes, or a prefix of
/// them, or begin with them. It returns `None` if there is no pair yet. It never fails, and allocates nothing.
pub fn find_place_over<K: AsBytes, V, const PREFIX_LEN: usize>(
    arena: &NodeArena<K, V, PREFIX_LEN>,
    root: Option<OpaqueNodePtr>,
    key: &[u8],
) -> Option<PrefixInsertPoint>
    requires { HasSome (HasPairsBeside K.bytes PREFIX_LEN arena.now root) }
    ensures { OfEach (HasPairsBeside K.bytes PREFIX_LEN arena.now root)
        (CanPutOver K.bytes PREFIX_LEN arena.now result key.now) }
{
    match root {
        Some(top) => Some(search_for_prefix_insert_point(arena, top, key)),
        None => None,
    }
}

/// Inserts a key and its value at the place that was found for the key by `find_place_over`. The pairs whose keys
/// overlap it go, and their number is `pairs_removed` of the result. If a pair has the key already, this one takes its
/// leaf: that never fails. Whatever stands beside the tree is unchanged.
///
/// Fails if out of memory. The error returns the key and the value, and nothing changed.
pub fn insert_over<K: AsBytes + Drop, V: Drop, const PREFIX_LEN: usize>(
    arena: &mut NodeArena<K, V, PREFIX_LEN>,
    place: Option<PrefixInsertPoint>,
    key: K,
    value: V,
) -> Result<PrefixInsertResult<K, V>, InsertRefused<K, V>>
    requires { HasSome (CanPutOver K.bytes PREFIX_LEN arena.old place (K.bytes key)) }
    ensures ok { IfOk result (λ put. OfEach (CanPutOver K.bytes PREFIX_LEN arena.old place (K.bytes key))
        (HasPutOver K.bytes PREFIX_LEN arena.new key value put)) }
    ensures others { IfOk result (λ put. OfEach (CanPutOver K.bytes PREFIX_LEN arena.old place (K.bytes key))
        (λ pairs rest. KeepsNodes rest arena.old arena.new)) }
    ensures names { IfOk result (λ put. OfEach (CanPutOver K.bytes PREFIX_LEN arena.old place (K.bytes key))
        (λ pairs rest. KeepsLeavesOf K.bytes (with_pair_over K.bytes key value pairs) arena.old arena.new)) }
    ensures stored { OfEach (CanPutOver K.bytes PREFIX_LEN arena.old place (K.bytes key))
        (λ pairs rest. HasKey (key_of K.bytes) (K.bytes key) pairs → IsOk result) }
    ensures err { OnErr result (SameNodes arena.old arena.new) }
    ensures handed_back { HandsPairBack key value result }
    ensures succeeds { HasRoom arena.old 2 → IsOk result }
    ensures room { UsesRoom 2 arena.old arena.new }
    ensures leaf_room { IfOk result (λ put. SwapsLeaves 1 (removed_by put) arena.old arena.new) }
    ensures kept_room { OnErr result (KeepsRoomOf arena.old arena.new) }
    ensures stored_room { OfEach (CanPutOver K.bytes PREFIX_LEN arena.old place (K.bytes key))
        (λ pairs rest. HasKey (key_of K.bytes) (K.bytes key) pairs → KeepsRoomOf arena.old arena.new) }
{
    match place {
        Some(over) => over.apply(arena, key, value),
        None => Ok(PrefixInsertResult {
            insert_result: insert_first(arena, key, value)?,
            leafs_removed: 0,
        }),
    }
}

/// Removes the pair with a key, and returns its leaf, with open ends, or `None` if no pair has the key. Whatever stands
/// beside the tree is unchanged.
///
/// Fails only if the removal turns a node into one of the next smaller kind, and there is no memory for that one.
/// Nothing changed then.
pub fn take_pair<K: AsBytes, V, const PREFIX_LEN: usize>(
    arena: &mut NodeArena<K, V, PREFIX_LEN>,
    root: Option<OpaqueNodePtr>,
    key: &[u8],
) -> Result<Option<DeleteResult<K, V>>, AllocError>
    requires { HasSome (HasPairsBeside K.bytes PREFIX_LEN arena.old root) }
    ensures ok { IfOk result (λ taken. OfEach (HasPairsBeside K.bytes PREFIX_LEN arena.old root)
        (HasTaken K.bytes PREFIX_LEN arena.new root key.now taken)) }
    ensures open { IfOk result (λ taken. IfSome taken (λ deleted.
        (deleted.deleted_leaf.previous ≡ None) × (deleted.deleted_leaf.next ≡ None))) }
    ensures others { IfOk result (λ taken. OfEach (HasPairsBeside K.bytes PREFIX_LEN arena.old root)
        (λ pairs rest. KeepsNodes rest arena.old arena.new)) }
    ensures names { OnOk result (HasLeavesOf K.bytes arena.old arena.new) }
    ensures err { OnErr result (SameNodes arena.old arena.new) }
    ensures shrinks { OnErr result (OfEach (HasPairsBeside K.bytes PREFIX_LEN arena.old root)
        (λ pairs rest. HasKey (key_of K.bytes) key.now pairs × Shrinks (key_of K.bytes) pairs key.now)) }
    ensures succeeds { HasRoom arena.old 1 → IsOk result }
    ensures room { UsesRoom 1 arena.old arena.new }
    ensures leaf_room { IfOk result (λ taken. OnSome taken (FreesRoomOf Leaf arena.old arena.new)) }
    ensures kept_room { OnErr result (KeepsRoomOf arena.old arena.new) }
    ensures none_room { IfOk result (λ taken. IfNone taken (KeepsRoomOf arena.old arena.new)) }
{
    let Some(top) = root else {
        return Ok(None);
    };
    let Some(point) = search_for_delete_point(arena, top, key) else {
        return Ok(None);
    };
    match point.apply(arena, top) {
        Ok(deleted) => Ok(Some(deleted)),
        Err(refused) => Err(refused),
    }
}

/// Removes the pair at an end, and returns its leaf, with open ends, or `None` if there is no pair. Whatever stands
/// beside the tree is unchanged.
///
/// Fails only if the removal turns a node into one of the next smaller kind, and there is no memory for that one.
/// Nothing changed then.
pub fn take_end<K: AsBytes, V, const PREFIX_LEN: usize>(
    arena: &mut NodeArena<K, V, PREFIX_LEN>,
    root: Option<OpaqueNodePtr>,
    end: End,
) -> Result<Option<DeleteResult<K, V>>, AllocError>
    requires { HasSome (HasPairsBeside K.bytes PREFIX_LEN arena.old root) }
    ensures ok { IfOk result (λ taken. OfEach (HasPairsBeside K.bytes PREFIX_LEN arena.old root)
        (HasTakenEnd K.bytes PREFIX_LEN arena.new root end taken)) }
    ensures open { IfOk result (λ taken. IfSome taken (λ deleted.
        (deleted.deleted_leaf.previous ≡ None) × (deleted.deleted_leaf.next ≡ None))) }
    ensures others { IfOk result (λ taken. OfEach (HasPairsBeside K.bytes PREFIX_LEN arena.old root)
        (λ pairs rest. KeepsNodes rest arena.old arena.new)) }
    ensures names { OnOk result (HasLeavesOf K.bytes arena.old arena.new) }
    ensures err { OnErr result (SameNodes arena.old arena.new) }
    ensures shrinks { OnErr result (OfEach (HasPairsBeside K.bytes PREFIX_LEN arena.old root)
        (λ pairs rest. ShrinksAtEnd K.bytes end pairs)) }
    ensures succeeds { HasRoom arena.old 1 → IsOk result }
    ensures room { UsesRoom 1 arena.old arena.new }
    ensures leaf_room { IfOk result (λ taken. OnSome taken (FreesRoomOf Leaf arena.old arena.new)) }
    ensures kept_room { OnErr result (KeepsRoomOf arena.old arena.new) }
    ensures none_room { IfOk result (λ taken. IfNone taken (KeepsRoomOf arena.old arena.new)) }
{
    let Some(top) = root else {
        return Ok(None);
    };
    let point = end_point(arena, top, end);
    match point.apply(arena, top) {
        Ok(deleted) => Ok(Some(deleted)),
        Err(failed) => Err(failed),
    }
}

//! The change of a tree that inserts a new key in place of those with which it is in conflict.
ghost use Rattle.std.specs.Prelude.{ℕ, List, IfOk, OnErr, IsOk, is_some, if◌then◌else◌};
ghost use Rattle.art_nodes.specs.Name.{Name};
ghost use Rattle.art_arena.specs.arena.Arena.{node_at, HasRoom, KeepsNodes, SameNodes, UsesRoom};
ghost use Rattle.art_arena.specs.arena.Arena.{KeepsRoomOf};
ghost use Rattle.art_arena.specs.arena.Cells.{Cell, Holds};
ghost use Rattle.art_arena.specs.arena.Shapes.{Shape, IsUnder, cells, leaves, pairs_of};
ghost use Rattle.art_arena.specs.arena.Steps.{steps_of};
ghost use Rattle.art_operations.specs.Frees.{FreesLeaves, HoldsBeside, KeepsAllBut, SwapsLeaves};
ghost use Rattle.art_operations.specs.LeafCursors.{KeepsInnerRoom};
ghost use Rattle.art_operations.specs.LeafNames.{KeepsLeavesOf};
ghost use Rattle.art_operations.specs.Overwrites.{AreRemoved, IsExact, IsOverwrittenBeside, IsPrefixPoint};
ghost use Rattle.art_operations.specs.Overwrites.{removed_by, root_at, steps_at};
ghost use Rattle.art_operations.specs.Pairs.{with_pair_over};
ghost use Rattle.art_operations.specs.Points.{IsInTheWay};
ghost use Rattle.art_operations.specs.Whichever.{HasTreeWhere, OfTreeWhere};
ghost use Rattle.art_operations.specs.Insertions.{HandsPairBack};

use crate::deallocate::deallocate_tree;
use crate::insert::leaf::store_leaf;
use crate::insert::result::{InsertParentNodeChange, InsertRefused, InsertResult};
use crate::parent::repoint;
use crate::prefix_insert::point::{OverwritePoint, PrefixInsertPoint};
use crate::prefix_insert::result::PrefixInsertResult;
use art_arena::links::replace_run;
use art_arena::{NodeArena, first_leaf, last_leaf};
use art_bytes::AsBytes;
use art_nodes::{KindLeaf, LeafNode, OpaqueNodePtr};

// The part that gave way to a new leaf: a single leaf, or so many.
#[derive(Drop)]
struct Removed<K, V> {
    leaf: Option<LeafNode<K, V>>,
    count: usize,
}

// Takes a part out of the arena, to which nothing points any more. A single leaf is handed back, with open ends.
fn remove_part<K: AsBytes + Drop, V: Drop, const PREFIX_LEN: usize>(
    arena: &mut NodeArena<K, V, PREFIX_LEN>,
    part: OpaqueNodePtr,
) -> Removed<K, V>
    requires { (path : List ℕ) × (s : Shape K V) × (rest : List (Name × Cell K V)) × IsUnder K.bytes path s
        × HoldsBeside PREFIX_LEN arena.old part s rest }
    ensures freed { (path : List ℕ) (s : Shape K V) (rest : List (Name × Cell K V)) → IsUnder K.bytes path s
        → HoldsBeside PREFIX_LEN arena.old part s rest → Holds (node_at arena.new) rest }
    ensures removed { (path : List ℕ) (s : Shape K V) (rest : List (Name × Cell K V)) → IsUnder K.bytes path s
        → HoldsBeside PREFIX_LEN arena.old part s rest → AreRemoved (pairs_of (leaves s)) result.leaf result.count }
    ensures kept { (path : List ℕ) (s : Shape K V) (rest : List (Name × Cell K V)) → IsUnder K.bytes path s
        → HoldsBeside PREFIX_LEN arena.old part s rest → KeepsAllBut (cells PREFIX_LEN s) arena.old arena.new }
    ensures room_of { KeepsRoomOf arena.old arena.new }
    ensures leaf_room { FreesLeaves (if is_some result.leaf then 1 else result.count) arena.old arena.new }
{
    match part.cast::<KindLeaf>() {
        Some(leaf) => {
            let mut removed: LeafNode<K, V> = arena.deallocate_node_ptr(leaf);
            removed.set_previous(None);
            removed.set_next(None);
            Removed {
                leaf: Some(removed),
                count: 0,
            }
        }
        None => Removed {
            leaf: None,
            count: deallocate_tree(arena, part),
        },
    }
}

impl OverwritePoint {
    /// Inserts a key and its value in place of the part that is in its way, and frees that part. The part was found by
    /// `search_for_prefix_insert_point` in this tree. Whatever stands beside the tree is unchanged.
    ///
    /// Only the new leaf needs memory. Fails if there is none for it: the error returns the key and the value, and the
    /// tree is unchanged.
    pub fn apply<K: AsBytes + Drop, V: Drop, const PREFIX_LEN: usize>(
        self,
        arena: &mut NodeArena<K, V, PREFIX_LEN>,
        key: K,
        value: V,
    ) -> Result<PrefixInsertResult<K, V>, InsertRefused<K, V>>
        requires { HasTreeWhere K.bytes PREFIX_LEN arena.old self.root
            (λ s. IsInTheWay K.bytes (K.bytes key) s self.root self.overwrite_point (steps_of self.path)) }
        ensures ok { IfOk result (λ put. OfTreeWhere K.bytes PREFIX_LEN arena.old self.root
            (λ s. IsInTheWay K.bytes (K.bytes key) s self.root self.overwrite_point (steps_of self.path))
            (λ s rest. IsOverwrittenBeside K.bytes PREFIX_LEN arena.new rest s (steps_of self.path) key value put)) }
        ensures others { IfOk result (λ put. OfTreeWhere K.bytes PREFIX_LEN arena.old self.root
            (λ s. IsInTheWay K.bytes (K.bytes key) s self.root self.overwrite_point (steps_of self.path))
            (λ s rest. KeepsNodes rest arena.old arena.new)) }
        ensures err { OnErr result (SameNodes arena.old arena.new) }
        ensures handed_back { HandsPairBack key value result }
        ensures succeeds { HasRoom arena.old 1 → IsOk result }
        ensures room { UsesRoom 1 arena.old arena.new }
        ensures leaf_room { IfOk result (λ put. SwapsLeaves 1 (removed_by put) arena.old arena.new) }
        ensures inner_room { KeepsInnerRoom arena.old arena.new }
        ensures kept_room { OnErr result (KeepsRoomOf arena.old arena.new) }
    {
        let part = self.overwrite_point;
        let first = first_leaf(arena, part);
        let last = last_leaf(arena, part);
        let leaf = store_leaf(arena, key, value)?;
        replace_run(arena, leaf, first, last);
        let new_root = repoint(arena, self.root, self.path, leaf.to_opaque());
        let removed = remove_part(arena, part);
        Ok(PrefixInsertResult {
            insert_result: InsertResult {
                leaf_node_ptr: leaf,
                existing_leaf: removed.leaf,
                new_root,
                parent_node_change: InsertParentNodeChange::NoChange,
            },
            leafs_removed: removed.count,
        })
    }
}

impl PrefixInsertPoint {
    /// Inserts a key and its value at the key's place, which was found by `search_for_prefix_insert_point` in this
    /// tree. The leaf that has the key, or those that are in conflict with it, give way. Whatever stands beside the
    /// tree is unchanged.
    ///
    /// A leaf with the key takes the new pair, and this never fails. Otherwise a leaf is made, and if none gives way at
    /// most one inner node. Fails if there is no memory for them: the error returns the key and the value, and the tree
    /// is unchanged.
    pub fn apply<K: AsBytes + Drop, V: Drop, const PREFIX_LEN: usize>(
        self,
        arena: &mut NodeArena<K, V, PREFIX_LEN>,
        key: K,
        value: V,
    ) -> Result<PrefixInsertResult<K, V>, InsertRefused<K, V>>
        requires { HasTreeWhere K.bytes PREFIX_LEN arena.old (root_at self)
            (λ s. IsPrefixPoint K.bytes (K.bytes key) s self) }
        ensures ok { IfOk result (λ put. OfTreeWhere K.bytes PREFIX_LEN arena.old (root_at self)
            (λ s. IsPrefixPoint K.bytes (K.bytes key) s self)
            (λ s rest. IsOverwrittenBeside K.bytes PREFIX_LEN arena.new rest s (steps_at self) key value put)) }
        ensures others { IfOk result (λ put. OfTreeWhere K.bytes PREFIX_LEN arena.old (root_at self)
            (λ s. IsPrefixPoint K.bytes (K.bytes key) s self) (λ s rest. KeepsNodes rest arena.old arena.new)) }
        ensures names { IfOk result (λ put. OfTreeWhere K.bytes PREFIX_LEN arena.old (root_at self)
            (λ s. IsPrefixPoint K.bytes (K.bytes key) s self)
            (λ s rest. KeepsLeavesOf K.bytes (with_pair_over K.bytes key value (pairs_of (leaves s))) arena.old
            arena.new)) }
        ensures err { OnErr result (SameNodes arena.old arena.new) }
        ensures handed_back { HandsPairBack key value result }
        ensures exact { IsExact self → IsOk result }
        ensures succeeds { HasRoom arena.old 2 → IsOk result }
        ensures room { UsesRoom 2 arena.old arena.new }
        ensures leaf_room { IfOk result (λ put. SwapsLeaves 1 (removed_by put) arena.old arena.new) }
        ensures kept_room { OnErr result (KeepsRoomOf arena.old arena.new) }
        ensures exact_room { IsExact self → KeepsRoomOf arena.old arena.new }
    {
        match self {
            PrefixInsertPoint::InsertPoint(point) => Ok(PrefixInsertResult {
                insert_result: point.apply(arena, key, value)?,
                leafs_removed: 0,
            }),
            PrefixInsertPoint::OverwritePoint(point) => point.apply(arena, key, value),
        }
    }
}

//! The part of a tree whose keys begin with a prefix is deleted in one cut. It is found, what the cut needs is
//! allocated, and then it goes.
//!
//! `prepare` makes room, and no copy, so `apply` can't fail and `abandon` has nothing to undo. It reserves one node of
//! the next smaller kind, where one is needed. That room stays after `abandon`: a slab gives back only what lies past
//! its last node, so room that was there before would go, too.
ghost use Rattle.std.specs.Prelude.{◌≡◌, ◌≢◌, ◌+◌, ◌-◌, ◌*◌, ◌≤◌, ℕ, List, length};
ghost use Rattle.std.specs.Prelude.{IfOk, IfSome, IsOk, MatchOption, OnErr, OnOk};
ghost use Rattle.art_nodes.specs.Name.{Name};
ghost use Rattle.art_nodes.specs.InnerNode as node;
ghost use Rattle.art_nodes.specs.Kind.{CanShrink, shrunk_kind};
ghost use Rattle.art_arena.specs.arena.Arena.{HasRoom, KeepsNodes, KeepsRoom, KeepsRoomOf, SameNodes, UsesRoom};
ghost use Rattle.art_arena.specs.arena.Shapes.{erase, key_of, leaves};
ghost use Rattle.art_arena.specs.arena.Steps.{steps_of};
ghost use Rattle.art_operations.specs.Frees.{FreesLeaves};
ghost use Rattle.art_operations.specs.Held.{HasInner};
ghost use Rattle.art_operations.specs.LeafNames.{HasLeavesOf};
ghost use Rattle.art_operations.specs.Openings.{ForLongest, OpeningReads, ReadsAtLeast, ReadsExactly};
ghost use Rattle.art_operations.specs.Openings.{SpanReads, part_reads};
ghost use Rattle.art_operations.specs.Subtrees.{CanLoseChild, GainsRoomAbove, GainsRoomOfOnly, HasRoomAbove};
ghost use Rattle.art_operations.specs.Subtrees.{IsCutBeside, IsSubtreeAnswer};
ghost use Rattle.art_operations.specs.Subtrees.{IsSubtreePoint, ShrinksWithout};
ghost use Rattle.art_operations.specs.declared.insert.point.InsertKind.TheVariants as kind;
ghost use Rattle.art_operations.specs.inner.LeafParts.{IsLeafPart};
ghost use Rattle.art_operations.specs.Whichever.{HasTree, HasTreeWhere, OfTree, OfTreeWhere};

use crate::bounds::segment_at;
use crate::deallocate::free_tree;
use crate::delete::detach::detach_in_room;
use crate::insert::point::{InsertPoint, find_insert_point_with};
use crate::parent::last_step;
use art_arena::links::remove_segment;
use art_arena::{ArenaReader, LeafPtr, NodeArena, TreePath};
use art_bytes::AsBytes;
use art_nodes::{NodeType, OpaqueNodePtr};
use std::alloc::AllocError;

/// The part of a tree that has the leaves whose keys begin with a prefix, and no others.
#[derive(Clone, Copy, Debug)]
pub struct SubtreeDeletePoint {
    /// The root of the tree.
    pub root: OpaqueNodePtr,
    /// The inner nodes just above the part.
    pub path: TreePath,
    /// The root of the part.
    pub subtree: OpaqueNodePtr,
    /// The first leaf of the part.
    pub first_leaf: LeafPtr,
    /// The last leaf of the part.
    pub last_leaf: LeafPtr,
}

/// A part that can be deleted without an allocation. Only `prepare` makes one.
#[derive(Debug, Drop)]
pub struct PreparedSubtreeDelete {
    point: SubtreeDeletePoint,
}

/// What the deletion of a part returns.
#[derive(Clone, Copy, Debug)]
pub struct SubtreeDeleteResult {
    /// The root of the tree without the part, if a leaf is left.
    pub new_root: Option<OpaqueNodePtr>,
    /// How many leaves the part had.
    pub leafs_removed: usize,
    /// How many nodes the part had, its leaves among them: one for each leaf, and one for each of the different longest
    /// common prefixes of neighbours. So they are fewer than twice as many as leaves. A count that reaches the greatest
    /// number stays there.
    pub nodes_freed: u64,
}

// The leaf that has the key of a point, as a part, if there is one.
fn leaf_part(root: OpaqueNodePtr, point: InsertPoint) -> Option<SubtreeDeletePoint>
    ensures { MatchOption result ((slot : ℕ) → point.insert_kind ≡ kind.Exact slot → ⊥)
        (λ part. IsLeafPart root point part) }
{
    let path = point.path;
    match point.stored_leaf() {
        Some(leaf) => Some(SubtreeDeletePoint {
            root,
            path,
            subtree: leaf.to_opaque(),
            first_leaf: leaf,
            last_leaf: leaf,
        }),
        None => None,
    }
}

/// Finds the part of the tree below a name whose keys begin with a prefix, if any does. The prefix need not end where a
/// node's does. It allocates nothing.
///
/// The reader counts each node that is read. They are at most 6 * (k + 2), where k is the length of the longest key.
pub fn search_for_subtree_delete_point<K: AsBytes, V, const PREFIX_LEN: usize>(
    reader: &mut ArenaReader<'_, K, V, PREFIX_LEN>,
    root: OpaqueNodePtr,
    prefix: &[u8],
) -> Option<SubtreeDeletePoint>
    requires { HasTree K.bytes PREFIX_LEN reader.old.arena.now root }
    ensures value { OfTree K.bytes PREFIX_LEN reader.old.arena.now root
        (λ s. IsSubtreeAnswer K.bytes prefix.now s result) }
    ensures root { IfSome result (λ point. point.root ≡ root) }
    ensures kept { reader.new.arena.now ≡ reader.old.arena.now }
    ensures counts { OfTree K.bytes PREFIX_LEN reader.old.arena.now root (λ s. ReadsExactly
        (part_reads (key_of K.bytes) PREFIX_LEN (erase s) prefix.now) reader.old.count reader.new.count) }
    ensures least { ReadsAtLeast 1 reader.old.count reader.new.count }
    ensures few { OfTree K.bytes PREFIX_LEN reader.old.arena.now root (λ s. ForLongest K.bytes s
        (λ longest. OpeningReads longest (length prefix.now) reader.old.count reader.new.count)) }
    ensures linear { OfTree K.bytes PREFIX_LEN reader.old.arena.now root (λ s. ForLongest K.bytes s
        (λ longest. SpanReads longest reader.old.count reader.new.count)) }
{
    let conflict = match find_insert_point_with(reader, root, prefix) {
        Ok(point) => return leaf_part(root, point),
        Err(conflict) => conflict,
    };
    let Some(ends) = segment_at(reader, conflict.part, prefix) else {
        return None;
    };
    Some(SubtreeDeletePoint {
        root,
        path: conflict.path,
        subtree: conflict.part,
        first_leaf: ends.0,
        last_leaf: ends.1,
    })
}

// Makes room for what an inner node becomes without one of its children, where that is one of the next smaller kind.
fn reserve_smaller<K, V, const PREFIX_LEN: usize>(
    arena: &mut NodeArena<K, V, PREFIX_LEN>,
    parent: OpaqueNodePtr,
) -> Result<(), AllocError>
    requires inner { parent.kind ≢ NodeType.Leaf }
    requires held { (n : node.InnerNode) × HasInner arena.old parent n × (1 ≤ length n.children) }
    ensures room { OnOk result (CanLoseChild arena.new parent) }
    ensures shrinks { OnErr result ((n : node.InnerNode) → HasInner arena.old parent n
        → CanShrink parent.kind (length n.children - 1)) }
    ensures succeeds { HasRoom arena.old 1 → IsOk result }
    ensures kept_room { KeepsRoom arena.old arena.new }
    ensures room_of { KeepsRoomOf arena.old arena.new }
    ensures gains { GainsRoomOfOnly arena.old arena.new (shrunk_kind parent.kind) }
    ensures kept { SameNodes arena.old arena.new }
{
    let kind = parent.node_type();
    let left = arena.inner(parent).num_children() - 1;
    if !kind.should_shrink_inner_node(left) {
        return Ok(());
    }
    match kind.row().smaller {
        Some(smaller) => arena.reserve_kind(smaller, 1),
        None => Ok(()),
    }
}

impl SubtreeDeletePoint {
    /// Allocates what the deletion of the part needs, which was found in the tree of this arena. No node is made, and
    /// no name changes. What room there was of each kind stays. There may be more only for the next smaller kind of the
    /// node above the part.
    ///
    /// Fails only if the removal turns the node above the part into one of the next smaller kind, and there is no
    /// memory for that one. A part that is the whole tree needs none.
    pub fn prepare<K: AsBytes, V, const PREFIX_LEN: usize>(
        self,
        arena: &mut NodeArena<K, V, PREFIX_LEN>,
    ) -> Result<PreparedSubtreeDelete, AllocError>
        requires { (prefix : List ℕ)
            × HasTreeWhere K.bytes PREFIX_LEN arena.old self.root (λ s. IsSubtreePoint K.bytes prefix s self) }
        ensures point { IfOk result (λ prepared. prepared.point ≡ self) }
        ensures ready { OnOk result (HasRoomAbove arena.new (steps_of self.path)) }
        ensures shrinks { OnErr result ((prefix : List ℕ) → OfTreeWhere K.bytes PREFIX_LEN arena.old self.root
            (λ s. IsSubtreePoint K.bytes prefix s self)
            (λ s rest. ShrinksWithout (λ l. K.bytes l.key) (leaves s) prefix)) }
        ensures succeeds { HasRoom arena.old 1 → IsOk result }
        ensures kept_room { KeepsRoom arena.old arena.new }
        ensures room_of { KeepsRoomOf arena.old arena.new }
        ensures gains { GainsRoomAbove arena.old arena.new (steps_of self.path) }
        ensures kept { SameNodes arena.old arena.new }
    {
        let Some(step) = last_step(self.path) else {
            return Ok(PreparedSubtreeDelete { point: self });
        };
        reserve_smaller(arena, step.0)?;
        Ok(PreparedSubtreeDelete { point: self })
    }
}

impl PreparedSubtreeDelete {
    /// Removes the part from the tree, in which it was found, and frees its nodes. What it needs is allocated, so it
    /// never fails. The leaves that stay keep their names, and whatever stands beside the tree is unchanged.
    pub fn apply<K: AsBytes + Drop, V: Drop, const PREFIX_LEN: usize>(
        self,
        arena: &mut NodeArena<K, V, PREFIX_LEN>,
    ) -> SubtreeDeleteResult
        requires place { (prefix : List ℕ) × HasTreeWhere K.bytes PREFIX_LEN arena.old self.point.root
            (λ s. IsSubtreePoint K.bytes prefix s self.point) }
        requires ready { HasRoomAbove arena.old (steps_of self.point.path) }
        ensures cut { (prefix : List ℕ) → OfTreeWhere K.bytes PREFIX_LEN arena.old self.point.root
            (λ s. IsSubtreePoint K.bytes prefix s self.point)
            (λ s rest. IsCutBeside K.bytes prefix PREFIX_LEN arena.new rest s result) }
        ensures others { (prefix : List ℕ) → OfTreeWhere K.bytes PREFIX_LEN arena.old self.point.root
            (λ s. IsSubtreePoint K.bytes prefix s self.point) (λ s rest. KeepsNodes rest arena.old arena.new) }
        ensures names { HasLeavesOf K.bytes arena.old arena.new }
        ensures all_freed { result.leafs_removed ≤ result.nodes_freed }
        ensures few_freed { result.nodes_freed + 1 ≤ 2 * result.leafs_removed }
        ensures room { UsesRoom 1 arena.old arena.new }
        ensures leaf_room { FreesLeaves result.leafs_removed arena.old arena.new }
    {
        let point = self.point;
        let new_root = detach_in_room(arena, point.root, point.path, point.subtree);
        remove_segment(arena, point.first_leaf, point.last_leaf);
        let freed = free_tree(arena, point.subtree);
        SubtreeDeleteResult {
            new_root,
            leafs_removed: freed.leaves,
            nodes_freed: freed.nodes,
        }
    }

    /// Returns the part as it was found. The tree is unchanged, and the arena has the room that it had before the
    /// preparation. What `prepare` allocated beside that stays with it, for nodes to come. To delete the part later,
    /// prepare it again.
    pub fn abandon(self) -> SubtreeDeletePoint
        ensures { result ≡ self.point }
    {
        self.point
    }
}

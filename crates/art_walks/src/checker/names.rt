//! The names below a root, each met once.
ghost use Rattle.std.specs.Prelude.{◌≡◌, ◌≢◌, ◌||◌, ◌++◌, ◌⊎◌, ℕ, List, not, IfErr, IfOk, IsSome, OnOk, reverse};
ghost use Rattle.art_nodes.specs.InnerNode.{names_of};
ghost use Rattle.art_nodes.specs.Name.{Name};
ghost use Rattle.art_arena.specs.arena.Arena.{held_at, links_at, node_at};
ghost use Rattle.art_arena.specs.arena.Cells.{same_name};
ghost use Rattle.art_walks.specs.Faults.{Stands};
ghost use Rattle.art_walks.specs.inner.Names.{AreOnce, has_name, IsMiscounted, IsOpened};
ghost use Rattle.art_walks.specs.inner.Skeletons.{IsSkeleton};

use crate::malformed::MalformedTreeError;
use art_arena::NodeArena;
use art_nodes::{ChildIter, KindLeaf, NodeType, OpaqueNodePtr};
use std::alloc::{AllocError, Global};
use std::collections::HashSet;

// The names below a root, from the front of the tree: those of a shape. Each is held and met once, and each node has as
// many children as its kind.
pub(crate) fn names_below<K, V, const PREFIX_LEN: usize>(
    alloc: Global,
    arena: &NodeArena<K, V, PREFIX_LEN>,
    root: OpaqueNodePtr,
) -> Result<Vec<OpaqueNodePtr>, MalformedTreeError>
    ensures shape { IfOk result (λ met. IsSkeleton PREFIX_LEN (node_at arena.now) root met.items) }
    ensures once { IfOk result (λ met. AreOnce met.items) }
    ensures err { (bytes : K → List ℕ) → IfErr result (Stands bytes PREFIX_LEN (node_at arena.now) (links_at arena.now)
        root) }
{
    let mut met = Vec::new(alloc);
    let mut seen = HashSet::new(alloc);
    let mut waiting = Vec::new(alloc);
    waiting.push(root)?;
    while let Some(name) = waiting.pop() {
        if !arena.holds(name) {
            return Err(MalformedTreeError::DeadName);
        }
        if !note(&mut seen, name)? {
            return Err(MalformedTreeError::LoopFound);
        }
        met.push(name)?;
        if !name.is::<KindLeaf>() {
            open(arena, name, &mut waiting)?;
        }
    }
    Ok(met)
}

// Puts a name into the set, and tells whether it is new there.
fn note(seen: &mut HashSet<OpaqueNodePtr>, name: OpaqueNodePtr) -> Result<bool, AllocError>
    ensures new { IfOk result (λ new. new ≡ not (has_name name seen.old.keys)) }
    ensures noted { OnOk result ((q : Name) → has_name q seen.new.keys
        ≡ (same_name q name || has_name q seen.old.keys)) }
{
    match seen.insert(name) {
        Ok(new) => Ok(new),
        Err(_) => Err(AllocError),
    }
}

// Lets the children of an inner node wait, if they are as many as one of its kind has. More than that it has no room
// for.
fn open<K, V, const PREFIX_LEN: usize>(
    arena: &NodeArena<K, V, PREFIX_LEN>,
    name: OpaqueNodePtr,
    waiting: &mut Vec<OpaqueNodePtr>,
) -> Result<(), MalformedTreeError>
    requires held { IsSome (held_at arena.now name) }
    requires inner { name.kind ≢ NodeType.Leaf }
    ensures ok { OnOk result (IsOpened (node_at arena.now) name PREFIX_LEN waiting.old.items waiting.new.items) }
    ensures err { IfErr result (λ fault. (fault ≡ MalformedTreeError.Memory)
        ⊎ ((fault ≡ MalformedTreeError.WrongChildrenCount) × IsMiscounted (node_at arena.now) name)) }
{
    let inner = arena.inner(name);
    let _header = inner.header();
    let row = name.node_type().row();
    let children = inner.num_children();
    if children < row.fewest {
        return Err(MalformedTreeError::WrongChildrenCount);
    }
    push_children(inner.children(), waiting)
}

// Puts children on those that wait, the first of them on top.
fn push_children(
    children: ChildIter<'_>,
    waiting: &mut Vec<OpaqueNodePtr>,
) -> Result<(), MalformedTreeError>
    ensures ok { OnOk result (waiting.new.items ≡ waiting.old.items ++ reverse (names_of children.entry)) }
    ensures err { IfErr result (λ fault. fault ≡ MalformedTreeError.Memory) }
{
    let mut left = children;
    while let Some((_, child)) = left.next_back() {
        waiting.push(child)?;
    }
    Ok(())
}

//! Callers of art_walks, of which its README.md shows one.

ghost use Rattle.std.specs.Prelude.{◌≡◌, [], ◌∷◌, length, IfErr, IfOk};
ghost use Rattle.std.specs.BTreeMap.Range.{range_contains};
ghost use Rattle.std.specs.Range.Bound.{bound_map};
ghost use Rattle.art_bytes.specs.Keys.{bytes_cmp};
ghost use Rattle.art_arena.specs.arena.Arena.{links_at, node_at};
ghost use Rattle.art_arena.specs.arena.Descents.{passing};
ghost use Rattle.art_arena.specs.arena.Linked.{IsList};
ghost use Rattle.art_arena.specs.arena.Shapes.{LeafAt, Shape, leaves, pairs_of};
ghost use Rattle.art_arena.specs.arena.Stores.{IsMeant, StoresOnly};
ghost use Rattle.art_arena.specs.tree.Tenants.{begins_with};
ghost use Rattle.art_arena.specs.tree.Trees.{Tree, items};
ghost use Rattle.art_walks.specs.Faults.{Stands};
ghost use Rattle.art_walks.specs.Walked.{IsCounted};

use art_arena::{LeafPtr, NodeArena, first_leaf, last_leaf};
use art_bytes::AsBytes;
use art_nodes::OpaqueNodePtr;
use art_operations::{find_prefix_segment, find_range_segment};
use art_walks::{
    IntoIter, IntoKeys, IntoValues, Iter, MalformedTreeError, Prefix, Range, RawIterator,
    WellFormedChecker,
};
use std::alloc::{AllocError, Global};
use std::ops::Bound;

/// Three leaves.
#[derive(Clone, Copy)]
pub struct Leaves {
    pub first: LeafPtr,
    pub second: LeafPtr,
    pub third: LeafPtr,
}

/// Whether a walk over all three takes each once, from both ends in turn, and then none.
pub fn meets_in_the_middle<K, V>(arena: &NodeArena<K, V, 4>, leaves: Leaves) -> bool
    requires { (x : LeafAt K V) × (y : LeafAt K V) × (z : LeafAt K V)
        × IsList (links_at arena.now) (x ∷ y ∷ z ∷ [])
        × (x.slot ≡ leaves.first) × (y.slot ≡ leaves.second) × (z.slot ≡ leaves.third) }
{
    let mut walk = RawIterator::new(leaves.first, leaves.third);
    let first = walk.next(arena);
    let last = walk.next_back(arena);
    let middle = walk.next(arena);
    let none = walk.next_back(arena);
    let never = walk.next(arena);
    first == Some(leaves.first)
        && last == Some(leaves.third)
        && middle == Some(leaves.second)
        && none.is_none()
        && never.is_none()
}

/// The run of all leaves of a tree that stands alone, and how many they are.
pub fn all_leaves<K: AsBytes, V>(
    arena: &NodeArena<K, V, 4>,
    root: OpaqueNodePtr,
) -> (RawIterator, usize)
    requires { (s : Shape K V) × StoresOnly K.bytes 4 arena.now root s }
    ensures { (s : Shape K V) → StoresOnly K.bytes 4 arena.now root s
        → (run : IsCounted arena.now result.0 result.1) × (run.leaves ≡ leaves s) }
{
    let run = RawIterator::new(first_leaf(arena, root), last_leaf(arena, root));
    (run, arena.leaf_count())
}

// The run between two leaves, if there are any.
fn run_between(ends: Option<(LeafPtr, LeafPtr)>) -> RawIterator
    ensures { result ≡ ends }
{
    match ends {
        Some((first, last)) => RawIterator::new(first, last),
        None => RawIterator::empty(),
    }
}

/// The pairs whose keys begin with a prefix.
pub fn pairs_under_prefix<'a, K: AsBytes, V>(
    arena: &'a NodeArena<K, V, 4>,
    root: OpaqueNodePtr,
    prefix: &[u8],
) -> Prefix<'a, K, V, 4>
    requires { (s : Shape K V) × StoresOnly K.bytes 4 arena.now root s }
    ensures { (s : Shape K V) → StoresOnly K.bytes 4 arena.now root s
        → result ≡ pairs_of (passing K.bytes (λ k. begins_with prefix.now k) (leaves s)) }
{
    let run = run_between(find_prefix_segment(arena, root, prefix));
    Prefix::new(arena, run, Some(root))
}

/// The pairs whose keys are between two bounds.
pub fn pairs_between<'a, K: AsBytes, V>(
    arena: &'a NodeArena<K, V, 4>,
    root: OpaqueNodePtr,
    start: Bound<&[u8]>,
    end: Bound<&[u8]>,
) -> Range<'a, K, V, 4>
    requires { (s : Shape K V) × StoresOnly K.bytes 4 arena.now root s }
    ensures { (s : Shape K V) → StoresOnly K.bytes 4 arena.now root s
        → result ≡ pairs_of (passing K.bytes (λ k. range_contains bytes_cmp (bound_map (λ key. key.now) start.entry)
        (bound_map (λ key. key.now) end.entry) k) (leaves s)) }
{
    let run = run_between(find_range_segment(arena, root, start, end));
    Range::new(arena, run, Some(root))
}

/// Copies of the values of a run of so many leaves, in order, for which room is made at once.
pub fn values_of<K: AsBytes, V: Copy>(
    alloc: Global,
    arena: &NodeArena<K, V, 4>,
    run: RawIterator,
    len: usize,
) -> Result<Vec<V>, AllocError>
    requires { IsCounted arena.now run len }
{
    let pairs = Iter::new(arena, run, len, None);
    let mut values = Vec::with_capacity(alloc, pairs.len())?;
    for (_, value) in pairs {
        values.push(*value)?;
    }
    Ok(values)
}

/// The first pair of a run of so many leaves and the last, which leave the arena; all others are dropped.
pub fn into_ends<K: AsBytes + Drop, V: Drop>(
    arena: NodeArena<K, V, 4>,
    run: RawIterator,
    len: usize,
) -> (Option<(K, V)>, Option<(K, V)>)
    requires { IsCounted arena run len }
{
    let mut pairs = IntoIter::new(arena, run, len, None);
    let first = pairs.next();
    let last = pairs.next_back();
    (first, last)
}

/// The last key of a run of so many leaves; all others are dropped.
pub fn last_key<K: AsBytes + Drop, V: Drop>(
    arena: NodeArena<K, V, 4>,
    run: RawIterator,
    len: usize,
) -> Option<K>
    requires { IsCounted arena run len }
{
    IntoKeys::new(IntoIter::new(arena, run, len, None)).next_back()
}

/// The first value of a run of so many leaves; all others are dropped.
pub fn first_value<K: AsBytes + Drop, V: Drop>(
    arena: NodeArena<K, V, 4>,
    run: RawIterator,
    len: usize,
) -> Option<V>
    requires { IsCounted arena run len }
{
    IntoValues::new(IntoIter::new(arena, run, len, None)).next()
}

/// How many leaves a tree has that may be damaged, or a fault that it has.
pub fn leaves_checked<K: AsBytes, V>(
    alloc: Global,
    arena: &NodeArena<K, V, 4>,
    root: OpaqueNodePtr,
) -> Result<usize, MalformedTreeError>
    ensures ok { IfOk result (λ count. (t : Tree (K × V)) × IsMeant K.bytes 4 arena.now root t
        × (count ≡ length (items t))) }
    ensures err { IfErr result (Stands K.bytes 4 (node_at arena.now) (links_at arena.now) root) }
{
    let stats = WellFormedChecker::check_tree(alloc, arena, root)?;
    Ok(stats.num_leaf)
}

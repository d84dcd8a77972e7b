//! Whether each node below a root fits what stands directly below it: its prefix, and the bytes of its children.
ghost use Rattle.std.specs.Prelude.{◌≡◌, ◌≢◌, ◌+◌, ◌<◌, ◌≤◌, ◌++◌, ◌∷◌, ◌↔◌, ℕ, List, [], IfOk, IsTrue};
ghost use Rattle.std.specs.Prelude.{drop, length, take};
ghost use Rattle.art_nodes.specs.Name.{Name};
ghost use Rattle.std.specs.Bool.{MatchBool};
ghost use Rattle.std.specs.List.{AllByRecursion};
ghost use Rattle.art_arena.specs.arena.Arena.{node_at};
ghost use Rattle.art_arena.specs.arena.Meaning.{IsPart};
ghost use Rattle.art_arena.specs.arena.Shapes.{Shape};
ghost use Rattle.art_walks.specs.inner.Fillings.{Await, ChildFits, FitAt, FitBelow, first_key, HasShape, LeafHasKey};
ghost use Rattle.art_walks.specs.inner.Fillings.{Opens, StandsAsTold};

use art_arena::{LeafPtr, NodeArena};
use art_bytes::AsBytes;
use art_nodes::{ChildIter, KindLeaf, NodeType, OpaqueNodePtr};
use std::alloc::{AllocError, Global};

// A part of a tree, how many bytes lead there, and the first leaf below.
#[derive(Clone, Copy)]
pub(crate) struct Place {
    pub(crate) name: OpaqueNodePtr,
    pub(crate) depth: usize,
    pub(crate) first: LeafPtr,
}

// Whether each node below a root fits. Of each key no more is read than the path to its leaf.
pub(crate) fn keys_fit<K: AsBytes, V, const PREFIX_LEN: usize>(
    alloc: Global,
    arena: &NodeArena<K, V, PREFIX_LEN>,
    root: OpaqueNodePtr,
) -> Result<bool, AllocError>
    requires { HasShape K.bytes PREFIX_LEN (node_at arena.now) root }
    ensures { IfOk result (λ fit. MatchBool fit (FitBelow K.bytes PREFIX_LEN (node_at arena.now) 0 root)
        (FitBelow K.bytes PREFIX_LEN (node_at arena.now) 0 root → ⊥)) }
{
    let first = first_below(arena, root);
    let mut waiting = Vec::new(alloc);
    waiting.push(Place {
        name: root,
        depth: 0,
        first,
    })?;
    while let Some(place) = waiting.pop() {
        if place.name.is::<KindLeaf>() {
            continue;
        }
        if !node_fits(arena, place, &mut waiting)? {
            return Ok(false);
        }
    }
    Ok(true)
}

// The first leaf below a name.
fn first_below<K: AsBytes, V, const PREFIX_LEN: usize>(
    arena: &NodeArena<K, V, PREFIX_LEN>,
    name: OpaqueNodePtr,
) -> LeafPtr
    requires { HasShape K.bytes PREFIX_LEN (node_at arena.now) name }
    ensures { (s : Shape K V) → IsPart PREFIX_LEN (node_at arena.now) name s
        → LeafHasKey K.bytes PREFIX_LEN (node_at arena.now) result (first_key K.bytes s) }
{
    let mut current = name;
    'down: loop {
        if let Some(leaf) = current.cast::<KindLeaf>() {
            return leaf;
        }
        match arena.inner(current).first_child() {
            Some(child) => current = child.1,
            None => unreachable!(),
        }
    }
}

// Whether an inner node fits, whose children wait then.
fn node_fits<K: AsBytes, V, const PREFIX_LEN: usize>(
    arena: &NodeArena<K, V, PREFIX_LEN>,
    place: Place,
    waiting: &mut Vec<Place>,
) -> Result<bool, AllocError>
    requires stands { StandsAsTold K.bytes PREFIX_LEN (node_at arena.now) place }
    requires inner { place.name.kind ≢ NodeType.Leaf }
    ensures { IfOk result (λ fits. MatchBool fits
        (Opens K.bytes PREFIX_LEN (node_at arena.now) place waiting.old.items waiting.new.items)
        (FitAt K.bytes PREFIX_LEN (node_at arena.now) place → ⊥)) }
{
    let inner = arena.inner(place.name);
    let key = key_at(arena, place.first);
    let prefix_len = inner.prefix_len();
    if key.len() - place.depth < prefix_len {
        return Ok(false);
    }
    if !begins_at(key, place.depth, inner.read_prefix()) {
        return Ok(false);
    }
    let end = place.depth + prefix_len;
    children_fit(arena, key, end, place.first, inner.children(), waiting)
}

// The bytes of a leaf's key.
fn key_at<K: AsBytes, V, const PREFIX_LEN: usize>(
    arena: &NodeArena<K, V, PREFIX_LEN>,
    leaf: LeafPtr,
) -> &[u8]
    requires { (key : List ℕ) × LeafHasKey K.bytes PREFIX_LEN (node_at arena.now) leaf key }
    ensures { (key : List ℕ) → LeafHasKey K.bytes PREFIX_LEN (node_at arena.now) leaf key → result.now ≡ key }
{
    arena.as_key_ref(leaf).as_bytes()
}

// Whether the first keys below these children go on with their bytes after so many bytes of a key, which is the first
// of them. The children wait then.
fn children_fit<K: AsBytes, V, const PREFIX_LEN: usize>(
    arena: &NodeArena<K, V, PREFIX_LEN>,
    key: &[u8],
    end: usize,
    first: LeafPtr,
    children: ChildIter<'_>,
    waiting: &mut Vec<Place>,
) -> Result<bool, AllocError>
    requires stand { AllByRecursion (λ c. HasShape K.bytes PREFIX_LEN (node_at arena.now) c.1) children }
    requires within { end ≤ length key.now }
    requires is_key { LeafHasKey K.bytes PREFIX_LEN (node_at arena.now) first key.now }
    requires is_first { (c : ℕ × Name) (rest : List (ℕ × Name)) (s : Shape K V) → children ≡ c ∷ rest
        → IsPart PREFIX_LEN (node_at arena.now) c.1 s → first_key K.bytes s ≡ key.now }
    ensures { IfOk result (λ fit. MatchBool fit
        ((places : List Place) × (waiting.new.items ≡ waiting.old.items ++ places)
        × Await K.bytes PREFIX_LEN (node_at arena.now) end key.now children.entry places)
        (AllByRecursion (ChildFits K.bytes PREFIX_LEN (node_at arena.now) end key.now) children.entry → ⊥)) }
{
    let mut left = children;
    match left.next() {
        Some(child) => {
            if !goes_on(key, end, child.0) {
                return Ok(false);
            }
            waiting.push(Place {
                name: child.1,
                depth: end + 1,
                first,
            })?;
            others_fit(arena, key, end, left, waiting)
        }
        None => Ok(true),
    }
}

// Whether the first keys below these children go on with their bytes after so many bytes of a key. The children wait
// then.
fn others_fit<K: AsBytes, V, const PREFIX_LEN: usize>(
    arena: &NodeArena<K, V, PREFIX_LEN>,
    key: &[u8],
    end: usize,
    children: ChildIter<'_>,
    waiting: &mut Vec<Place>,
) -> Result<bool, AllocError>
    requires stand { AllByRecursion (λ c. HasShape K.bytes PREFIX_LEN (node_at arena.now) c.1) children }
    requires within { end ≤ length key.now }
    ensures { IfOk result (λ fit. MatchBool fit
        ((places : List Place) × (waiting.new.items ≡ waiting.old.items ++ places)
        × Await K.bytes PREFIX_LEN (node_at arena.now) end key.now children.entry places)
        (AllByRecursion (ChildFits K.bytes PREFIX_LEN (node_at arena.now) end key.now) children.entry → ⊥)) }
{
    let mut left = children;
    while let Some(child) = left.next() {
        let first = first_below(arena, child.1);
        if !parts_at(key, key_at(arena, first), end, child.0) {
            return Ok(false);
        }
        waiting.push(Place {
            name: child.1,
            depth: end + 1,
            first,
        })?;
    }
    Ok(true)
}

// Whether a key has these bytes after so many bytes.
fn begins_at(key: &[u8], depth: usize, bytes: &[u8]) -> bool
    requires { depth ≤ length key.now }
    ensures { IsTrue result ↔ (bytes.now ≡ take (length bytes.now) (drop depth key.now)) }
{
    key[depth..].starts_with(bytes)
}

// Whether a key has this byte after so many bytes.
fn goes_on(key: &[u8], end: usize, byte: u8) -> bool
    requires { end ≤ length key.now }
    ensures value { IsTrue result ↔ (take (end + 1) key.now ≡ take end key.now ++ byte ∷ []) }
    ensures within { IsTrue result → end < length key.now }
{
    if key.len() == end {
        return false;
    }
    key[end] == byte
}

// Whether another key has the same first bytes, so many, and then this byte.
fn parts_at(key: &[u8], other: &[u8], end: usize, byte: u8) -> bool
    requires { end ≤ length key.now }
    ensures value { IsTrue result ↔ (take (end + 1) other.now ≡ take end key.now ++ byte ∷ []) }
    ensures within { IsTrue result → end < length other.now }
{
    if other.len() <= end {
        return false;
    }
    if other[end] != byte {
        return false;
    }
    other[..end] == key[..end]
}

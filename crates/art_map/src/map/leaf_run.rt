//! `LeafRun`: the pairs of a run of leaves, whose ends may be known from an earlier walk.
ghost use Rattle.std.specs.Prelude.{◌≡◌, ◌==◌, ◌∷◌, ◌++◌, [], IfSome, IsTrue, List, MatchOption, Some, ⊤, ℕ, false};
ghost use Rattle.std.specs.Prelude.{length};
ghost use Rattle.std.specs.BTreeMap.Range.{range_contains};
ghost use Rattle.std.specs.Map.Iter.{TakesFirst, TakesLast, deref_pair};
ghost use Rattle.std.specs.Range.Bound.{bound_map};
ghost use Rattle.art_bytes.specs.Keys.{bytes_cmp};
ghost use Rattle.art_nodes.specs.declared.leaf.LeafNode.{LeafNode};
ghost use Rattle.art_arena.specs.arena.Arena.{held_at, leaf_held, links_at};
ghost use Rattle.art_arena.specs.arena.Cells.{leaf_name};
ghost use Rattle.art_arena.specs.arena.Shapes.{key_of, LeafAt, pairs_of};
ghost use Rattle.art_arena.specs.tree.Order.{AscendsByKey};
ghost use Rattle.art_arena.specs.tree.Tenants.{with_front};
ghost use Rattle.art_operations.specs.Bounds.{AreEndsWhere, slot_inside};
ghost use Rattle.art_map.specs.Leaves.{AreLeaves};
ghost use Rattle.art_map.specs.LeafRuns.{beside, is_inside};
ghost use Rattle.art_map.specs.Ranges.{pairs_between};
ghost use Rattle.art_walks.specs.Runs.{IsWalk};
ghost use Rattle.art_walks.specs.Walked.{IsCounted};

use crate::map::TreeMap;
use crate::map::ranges::bytes_of;
use art_arena::{LeafPtr, NodeArena};
use art_bytes::AsBytes;
use art_nodes::{LeafNode, OpaqueNodePtr, assume_proved};
use art_operations::find_leaf_pointer_for_bound;
use art_walks::{Prefetcher, RawIterator};
use std::marker::{Model, PhantomData};
use std::ops::Bound;

/// The leaves at which a run begins and ends, as an earlier run told them. It is a hint, which is checked, so any two
/// numbers will do. The default is none.
#[repr(C)]
#[derive(Clone, Copy, Debug, Default)]
pub struct RunHint {
    /// One more than the slab key of the first leaf, or zero.
    pub first: usize,
    /// One more than that of the last leaf, or zero.
    pub last: usize,
}

/// The pairs of a run of a map's leaves that are still to come, from either end. A contract sees it as their list.
///
/// The last parameter is never written: it tells the borrow check that the arena lives as long as it is lent.
#[derive(Drop)]
pub struct LeafRun<'a, K, V, const PREFIX_LEN: usize, M: 'a = NodeArena<K, V, PREFIX_LEN>> {
    arena: &'a NodeArena<K, V, PREFIX_LEN>,
    ends: Option<(LeafPtr, LeafPtr)>,
    root: Option<OpaqueNodePtr>,
    ahead: Prefetcher,
    mark: PhantomData<M>,
}

impl<'a, K, V, const PREFIX_LEN: usize, M: 'a> Model for LeafRun<'a, K, V, PREFIX_LEN, M> {
    ghost use Rattle.std.specs.Prelude.{List};
    ghost use Rattle.art_walks.specs.Walked.{IsCounted, leaves_left, pairs_left};

    ghost Value = { List (K × V) };

    ghost view = { λ it. pairs_left it.arena.now it.ends };

    ghost invariant = { λ it. IsCounted it.arena.now it.ends (leaves_left it.arena.now it.ends) };
}

// The first leaf of a run of neighbours, and what is left of it. The leaf is looked up once.
#[inline(always)]
fn first_of<K, V, const PREFIX_LEN: usize>(
    arena: &NodeArena<K, V, PREFIX_LEN>,
    first: LeafPtr,
    last: LeafPtr,
) -> (&LeafNode<K, V>, Option<(LeafPtr, LeafPtr)>)
    requires { ∥ ((ys : List (LeafAt K V)) × IsWalk (links_at arena.now) (Some (first, last)) ys) ∥₁ }
    ensures leaf { held_at arena.now (leaf_name first) ≡ Some (leaf_held result.0.now) }
    ensures left { (l : LeafAt K V) (ys : List (LeafAt K V)) → IsWalk (links_at arena.now) (Some (first, last)) (l ∷ ys)
        → (Some first ≡ Some l.slot) × IsWalk (links_at arena.now) result.1 ys }
{
    let leaf = arena.as_ref::<LeafNode<K, V>>(first);
    if first == last {
        return (leaf, None);
    }
    match leaf.next() {
        Some(next) => (leaf, Some((next, last))),
        None => {
            assume_proved(false);
            unreachable!()
        }
    }
}

// The last leaf of a run of neighbours, and what is left of it.
#[inline(always)]
fn last_of<K, V, const PREFIX_LEN: usize>(
    arena: &NodeArena<K, V, PREFIX_LEN>,
    first: LeafPtr,
    last: LeafPtr,
) -> (&LeafNode<K, V>, Option<(LeafPtr, LeafPtr)>)
    requires { ∥ ((ys : List (LeafAt K V)) × IsWalk (links_at arena.now) (Some (first, last)) ys) ∥₁ }
    ensures leaf { held_at arena.now (leaf_name last) ≡ Some (leaf_held result.0.now) }
    ensures left { (l : LeafAt K V) (ys : List (LeafAt K V))
        → IsWalk (links_at arena.now) (Some (first, last)) (ys ++ l ∷ [])
        → (Some last ≡ Some l.slot) × IsWalk (links_at arena.now) result.1 ys }
{
    let leaf = arena.as_ref::<LeafNode<K, V>>(last);
    if first == last {
        return (leaf, None);
    }
    match leaf.previous() {
        Some(previous) => (leaf, Some((first, previous))),
        None => {
            assume_proved(false);
            unreachable!()
        }
    }
}

impl<'a, K: AsBytes, V, const PREFIX_LEN: usize> LeafRun<'a, K, V, PREFIX_LEN> {
    // The pairs of the leaves from one to another, which are linked neighbours in this arena.
    fn new(
        arena: &'a NodeArena<K, V, PREFIX_LEN>,
        ends: Option<(LeafPtr, LeafPtr)>,
        root: Option<OpaqueNodePtr>,
    ) -> Self
        requires { (n : ℕ) × IsCounted arena.now ends n }
        ensures { (n : ℕ) (run : IsCounted arena.now ends n) → result ≡ pairs_of run.leaves }
    {
        LeafRun {
            arena,
            ends,
            root,
            ahead: Prefetcher::new(),
            mark: PhantomData,
        }
    }

    /// Returns the first pair of those still to come, if there is one. The others are then still to come.
    ///
    /// ```
    /// let mut map = TreeMap::new(rt.alloc());
    /// map.extend([(*b"ab", 1), (*b"ac", 2)])?;
    /// let mut run = map.prefix_run(b"a");
    /// assert_eq!(rt; run.next(), Some((b"ab", &1)));
    /// ```
    #[inline(always)]
    pub fn next(&mut self) -> Option<(&'a K, &'a V)>
        ensures { TakesFirst deref_pair self.old result self.new }
    {
        let (first, last) = self.ends?;
        let arena = self.arena;
        self.ahead
            .step(arena, self.root, RawIterator::new(first, last));
        let (leaf, left) = first_of(arena, first, last);
        self.ends = left;
        Some(leaf.entry_ref())
    }

    /// Returns the last pair of those still to come, if there is one. The others are then still to come.
    ///
    /// ```
    /// let mut map = TreeMap::new(rt.alloc());
    /// map.extend([(*b"ab", 1), (*b"ac", 2)])?;
    /// let mut run = map.prefix_run(b"a");
    /// assert_eq!(rt; run.next_back(), Some((b"ac", &2)));
    /// ```
    #[inline(always)]
    pub fn next_back(&mut self) -> Option<(&'a K, &'a V)>
        ensures { TakesLast deref_pair self.old result self.new }
    {
        let (first, last) = self.ends?;
        let arena = self.arena;
        let (leaf, left) = last_of(arena, first, last);
        self.ends = left;
        Some(leaf.entry_ref())
    }

    /// Returns whether no pair is still to come. It reads no leaf.
    ///
    /// ```
    /// let mut map = TreeMap::new(rt.alloc());
    /// map.extend([(*b"ab", 1), (*b"ac", 2)])?;
    /// let mut run = map.prefix_run(b"ab");
    /// assert!(rt; !run.is_empty());
    /// run.next();
    /// assert!(rt; run.is_empty());
    /// ```
    pub fn is_empty(&self) -> bool
        ensures { result ≡ (length self.now == 0) }
    {
        self.ends.is_none()
    }

    /// Returns where the pairs still to come begin and end, for a run over them later.
    ///
    /// ```
    /// let mut map = TreeMap::new(rt.alloc());
    /// map.extend([(*b"ab", 1), (*b"ac", 2)])?;
    /// let mut run = map.prefix_run(b"a");
    /// run.next();
    /// let hint = run.hint();
    /// let mut rest = map.range_run(std::ops::Bound::Excluded(b"ab"), std::ops::Bound::Unbounded, hint);
    /// assert_eq!(rt; rest.next(), Some((b"ac", &2)));
    /// ```
    pub fn hint(&self) -> RunHint {
        match self.ends {
            Some((first, last)) => RunHint {
                first: number_of(first),
                last: number_of(last),
            },
            None => RunHint { first: 0, last: 0 },
        }
    }
}

// What a hint says of a leaf.
#[inline(always)]
fn number_of(leaf: LeafPtr) -> usize {
    leaf.slot().wrapping_add(1)
}

// Whether a key is inside a bound, as a start or as an end.
#[inline(always)]
fn is_inside(bound: Bound<&[u8]>, is_start: bool, key: &[u8]) -> bool
    ensures { result ≡ is_inside is_start (bound_map (λ key. key.now) bound.entry) key.now }
{
    match bound {
        Bound::Unbounded => true,
        Bound::Included(at) => {
            let order = at.cmp(key);
            if is_start {
                order.is_le()
            } else {
                order.is_ge()
            }
        }
        Bound::Excluded(at) => {
            let order = at.cmp(key);
            if is_start {
                order.is_lt()
            } else {
                order.is_gt()
            }
        }
    }
}

// The leaf beside a leaf, where a run that begins or ends with it has none.
#[inline(always)]
fn beside<K, V>(leaf: &LeafNode<K, V>, is_start: bool) -> Option<LeafPtr>
    ensures { result ≡ beside is_start leaf.now }
{
    if is_start {
        leaf.previous()
    } else {
        leaf.next()
    }
}

impl<K: AsBytes, V, const PREFIX_LEN: usize> TreeMap<K, V, PREFIX_LEN> {
    // The leaf under a name, if one stands there.
    #[inline(always)]
    fn leaf_under(&self, name: LeafPtr) -> Option<&LeafNode<K, V>>
        ensures { MatchOption result ⊤ (λ leaf. held_at self.now.nodes (leaf_name name) ≡ Some (leaf_held leaf.now)) }
    {
        if self.arena.holds(name.to_opaque()) {
            Some(self.arena.as_ref::<LeafNode<K, V>>(name))
        } else {
            None
        }
    }

    // Whether a leaf is there whose key is outside a bound, or none is to be there.
    #[inline(always)]
    fn is_outside(&self, name: Option<LeafPtr>, bound: Bound<&[u8]>, is_start: bool) -> bool
        ensures { IsTrue result → IfSome name (λ slot. (leaf : LeafNode K V)
            → held_at self.now.nodes (leaf_name slot) ≡ Some (leaf_held leaf)
            → is_inside is_start (bound_map (λ key. key.now) bound.entry) (K.bytes leaf.key) ≡ false) }
    {
        let Some(name) = name else {
            return true;
        };
        match self.leaf_under(name) {
            Some(leaf) => !is_inside(bound, is_start, leaf.key_ref().as_bytes()),
            None => false,
        }
    }

    // Whether a leaf is the first that is inside a bound as a start, or the last inside it as an end: its key is
    // inside, and that of the leaf beside it is not.
    #[inline(always)]
    fn is_at_bound(&self, name: LeafPtr, bound: Bound<&[u8]>, is_start: bool) -> bool
        ensures { IsTrue result → (ls : List (LeafAt K V)) → AreLeaves K.bytes PREFIX_LEN self.now ls
            → slot_inside K.bytes is_start (bound_map (λ key. key.now) bound.entry) ls ≡ Some name }
    {
        let Some(leaf) = self.leaf_under(name) else {
            return false;
        };
        if !is_inside(bound, is_start, leaf.key_ref().as_bytes()) {
            return false;
        }
        self.is_outside(beside(leaf, is_start), bound, is_start)
    }

    // The leaf of a hint, or the one beside it, if it is the first that is inside a bound as a start, or the last
    // inside it as an end.
    fn hinted(&self, hint: usize, bound: Bound<&[u8]>, is_start: bool) -> Option<LeafPtr>
        ensures { IfSome result (λ slot. (ls : List (LeafAt K V)) → AreLeaves K.bytes PREFIX_LEN self.now ls
            → slot_inside K.bytes is_start (bound_map (λ key. key.now) bound.entry) ls ≡ Some slot) }
    {
        let name = LeafPtr::from_slot(hint.checked_sub(1)?);
        if self.is_at_bound(name, bound, is_start) {
            return Some(name);
        }
        let other = beside(self.leaf_under(name)?, is_start)?;
        if self.is_at_bound(other, bound, is_start) {
            Some(other)
        } else {
            None
        }
    }

    // The first leaf that is inside a bound as a start, or the last inside it as an end, found by the tree.
    fn find_inside(&self, bound: Bound<&[u8]>, is_start: bool) -> Option<LeafPtr>
        ensures { (ls : List (LeafAt K V)) → AreLeaves K.bytes PREFIX_LEN self.now ls
            → result ≡ slot_inside K.bytes is_start (bound_map (λ key. key.now) bound.entry) ls }
    {
        match self.root {
            Some(root) => find_leaf_pointer_for_bound(&self.arena, root, bound, is_start),
            None => None,
        }
    }

    // The same, found by a hint if it is right.
    fn leaf_inside(&self, hint: usize, bound: Bound<&[u8]>, is_start: bool) -> Option<LeafPtr>
        ensures { (ls : List (LeafAt K V)) → AreLeaves K.bytes PREFIX_LEN self.now ls
            → result ≡ slot_inside K.bytes is_start (bound_map (λ key. key.now) bound.entry) ls }
    {
        match self.hinted(hint, bound, is_start) {
            Some(leaf) => Some(leaf),
            None => self.find_inside(bound, is_start),
        }
    }

    // Tells that the map has leaves.
    #[inline(always)]
    fn some_leaves(&self)
        ensures { (ls : List (LeafAt K V)) × AreLeaves K.bytes PREFIX_LEN self.now ls }
    {
        let _opened = &self.root;
    }

    // The first and the last of the leaves whose keys are between two bounds, if there is one.
    fn ends_between(
        &self,
        hint: RunHint,
        start: Bound<&[u8]>,
        end: Bound<&[u8]>,
    ) -> Option<(LeafPtr, LeafPtr)>
        ensures { (ls : List (LeafAt K V)) → AreLeaves K.bytes PREFIX_LEN self.now ls → AreEndsWhere K.bytes
            (λ k. range_contains bytes_cmp (bound_map (λ key. key.now) start.entry)
            (bound_map (λ key. key.now) end.entry) k) ls result }
    {
        self.some_leaves();
        let first = match self.leaf_inside(hint.first, start, true) {
            Some(first) => first,
            None => return None,
        };
        let (key, _value) = self.pair_at(first);
        if !is_inside(end, false, key.as_bytes()) {
            return None;
        }
        match self.leaf_inside(hint.last, end, false) {
            Some(last) => Some((first, last)),
            None => None,
        }
    }

    // The pairs between two bounds of bytes.
    fn run_between(
        &self,
        start: Bound<&[u8]>,
        end: Bound<&[u8]>,
        hint: RunHint,
    ) -> LeafRun<'_, K, V, PREFIX_LEN>
        ensures rest { result ≡ pairs_between K.bytes (bound_map (λ key. key.now) start.entry)
            (bound_map (λ key. key.now) end.entry) self.now.pairs }
        ensures ordered { AscendsByKey (key_of K.bytes) self.now.pairs }
    {
        let ends = self.ends_between(hint, start, end);
        LeafRun::new(&self.arena, ends, self.root)
    }

    /// Returns the pairs whose keys are between two bounds, by their bytes, as `range` does. No pair is between bounds
    /// that are not valid.
    ///
    /// A hint of where they begin and end saves the way down the tree: that of an earlier run, once these are what is
    /// left of it. It is checked, and where it is wrong the leaves are found as without one. So it changes what the
    /// call costs, and not what it returns.
    ///
    /// ```
    /// use std::ops::Bound;
    /// let mut map = TreeMap::new(rt.alloc());
    /// map.extend([(*b"ab", 1), (*b"cd", 2), (*b"ef", 3)])?;
    /// let mut run = map.range_run(Bound::Included(b"b"), Bound::Unbounded, RunHint::default());
    /// assert_eq!(rt; run.next(), Some((b"cd", &2)));
    /// let mut rest = map.range_run(Bound::Excluded(b"cd"), Bound::Unbounded, run.hint());
    /// assert_eq!(rt; rest.next(), Some((b"ef", &3)));
    /// assert_eq!(rt; rest.next(), None);
    /// ```
    pub fn range_run<Q: AsBytes>(
        &self,
        start: Bound<&Q>,
        end: Bound<&Q>,
        hint: RunHint,
    ) -> LeafRun<'_, K, V, PREFIX_LEN>
        ensures rest { result ≡ pairs_between K.bytes (bound_map (λ key. Q.bytes key.now) start.entry)
            (bound_map (λ key. Q.bytes key.now) end.entry) self.now.pairs }
        ensures ordered { AscendsByKey (key_of K.bytes) self.now.pairs }
    {
        self.run_between(bytes_of(start), bytes_of(end), hint)
    }

    /// Returns the pairs whose keys begin with a prefix's bytes, as `prefix` does.
    ///
    /// ```
    /// let mut map = TreeMap::new(rt.alloc());
    /// map.extend([(*b"ab", 1), (*b"ac", 2), (*b"bc", 3)])?;
    /// assert_eq!(rt; map.prefix_run(b"a").next_back(), Some((b"ac", &2)));
    /// ```
    pub fn prefix_run<Q: AsBytes>(&self, prefix: &Q) -> LeafRun<'_, K, V, PREFIX_LEN>
        ensures rest { result ≡ with_front (key_of K.bytes) (Q.bytes prefix.now) self.now.pairs }
        ensures ordered { AscendsByKey (key_of K.bytes) self.now.pairs }
    {
        let ends = self.ends_with_prefix(prefix.as_bytes());
        LeafRun::new(&self.arena, ends, self.root)
    }
}

//! A run of neighbours among linked leaves, by the names of its first and its last leaf.
ghost use Rattle.std.specs.Prelude.{◌≡◌, ◌≢◌, ℕ, List, [], ◌∷◌, ◌++◌, Some, None};
ghost use Rattle.art_arena.specs.arena.Arena.{links_at};
ghost use Rattle.art_arena.specs.arena.Shapes.{LeafAt};
ghost use Rattle.art_walks.specs.Runs.{IsWalk};

use art_arena::{LeafPtr, NodeArena};
use art_nodes::{LeafNode, assume_proved};
use std::marker::Model;

/// A run of neighbours among the linked leaves of an arena, which may be empty. It borrows nothing, and each call names
/// the arena.
#[derive(Clone, Copy, Debug)]
pub struct RawIterator {
    ends: Option<(LeafPtr, LeafPtr)>,
}

impl Model for RawIterator {
    ghost use Rattle.art_walks.specs.Runs.{Ends};

    ghost Value = { Ends };

    ghost view = { λ walk. walk.ends };

    ghost inverse = { λ ends. record { ends = ends } };
}

impl RawIterator {
    /// Returns the empty run.
    pub fn empty() -> Self
        ensures { result ≡ None }
    {
        RawIterator { ends: None }
    }

    /// Returns the run from one leaf to another, which doesn't come before it in their list.
    pub fn new(start: LeafPtr, end: LeafPtr) -> Self
        ensures { result ≡ Some (start, end) }
    {
        RawIterator {
            ends: Some((start, end)),
        }
    }

    // Its first leaf and its last, or `None` where the run is empty.
    pub(crate) fn ends(self) -> Option<(LeafPtr, LeafPtr)>
        ensures { result ≡ self }
    {
        self.ends
    }

    // The run from one leaf to another without the first, which links to this one.
    pub(crate) fn after(first: LeafPtr, last: LeafPtr, next: Option<LeafPtr>) -> Self
        ensures alone { first ≡ last → result ≡ None }
        ensures more { first ≢ last → (slot : ℕ) → next ≡ Some slot → result ≡ Some (slot, last) }
    {
        match next {
            Some(next) if first != last => RawIterator::new(next, last),
            _ => RawIterator::empty(),
        }
    }

    // The run from one leaf to another without the last, which links back to this one.
    pub(crate) fn before(first: LeafPtr, last: LeafPtr, previous: Option<LeafPtr>) -> Self
        ensures alone { first ≡ last → result ≡ None }
        ensures more { first ≢ last → (slot : ℕ) → previous ≡ Some slot → result ≡ Some (first, slot) }
    {
        match previous {
            Some(previous) if first != last => RawIterator::new(first, previous),
            _ => RawIterator::empty(),
        }
    }

    /// Returns the first leaf of the run, which goes on after it. It returns `None` if the run is empty, and leaves it
    /// so. The run has to be one of neighbours in this arena.
    pub fn next<K, V, const PREFIX_LEN: usize>(
        &mut self,
        arena: &NodeArena<K, V, PREFIX_LEN>,
    ) -> Option<LeafPtr>
        requires { ∥ ((ys : List (LeafAt K V)) × IsWalk (links_at arena.now) self.old ys) ∥₁ }
        ensures first { (l : LeafAt K V) (ys : List (LeafAt K V)) → IsWalk (links_at arena.now) self.old (l ∷ ys)
            → (result ≡ Some l.slot) × IsWalk (links_at arena.now) self.new ys }
        ensures end { self.old ≡ None → (result ≡ None) × (self.new ≡ None) }
    {
        let (first, last) = self.ends?;
        // It is read in either case, so that a caller that reads it too looks it up once.
        let leaf = arena.as_ref::<LeafNode<K, V>>(first);
        if first == last {
            self.ends = None;
            return Some(first);
        }
        match leaf.next() {
            Some(next) => self.ends = Some((next, last)),
            None => {
                assume_proved(false);
                unreachable!()
            }
        }
        Some(first)
    }

    /// Returns the last leaf of the run, which then ends before it. It returns `None` if the run is empty, and leaves
    /// it so. The run has to be one of neighbours in this arena.
    pub fn next_back<K, V, const PREFIX_LEN: usize>(
        &mut self,
        arena: &NodeArena<K, V, PREFIX_LEN>,
    ) -> Option<LeafPtr>
        requires { ∥ ((ys : List (LeafAt K V)) × IsWalk (links_at arena.now) self.old ys) ∥₁ }
        ensures last { (l : LeafAt K V) (ys : List (LeafAt K V)) → IsWalk (links_at arena.now) self.old (ys ++ l ∷ [])
            → (result ≡ Some l.slot) × IsWalk (links_at arena.now) self.new ys }
        ensures end { self.old ≡ None → (result ≡ None) × (self.new ≡ None) }
    {
        let (first, last) = self.ends?;
        let leaf = arena.as_ref::<LeafNode<K, V>>(last);
        if first == last {
            self.ends = None;
            return Some(last);
        }
        match leaf.previous() {
            Some(previous) => self.ends = Some((first, previous)),
            None => {
                assume_proved(false);
                unreachable!()
            }
        }
        Some(last)
    }
}

//! An iterator over the children of an inner node, from either end.
ghost use Rattle.std.specs.Prelude.{◌≡◌, ◌↔◌, IsTrue, ◌+◌, ◌-◌, ◌<◌, ◌≤◌, length, take, drop, Some, IfSome};
ghost use Rattle.std.specs.List.{zip};
ghost use Rattle.std.specs.Iterator.{YieldsFirst, YieldsLast, item_count, UpTo};
ghost use Rattle.std.specs.Iterator.SizeHint.{IsWithinCount};
ghost use Rattle.art_nodes.specs.InnerNode.{AreValidBounds};
ghost use Rattle.std.specs.Range.Bound.{start_index, end_index};
ghost use Rattle.art_nodes.specs.inner.Place.{place, children_within, bytes_within, AreLeft};
ghost use Rattle.art_nodes.specs.inner.Table.{children_from, entry_at, IsMarkedTable};

use crate::mask::Mask;
use crate::names::{OpaqueNodePtr, Place};
use std::marker::Model;
use std::ops::Bound;

/// An iterator over the children of an inner node by ascending byte, whichever way the node holds them. It gives them
/// from either end in any mixture, and knows how many are left.
#[derive(Drop)]
pub struct ChildIter<'a> {
    arm: Arm<'a>,
}

impl<'a> Model for ChildIter<'a> {
    ghost use Rattle.std.specs.Prelude.{ℕ, List};
    ghost use Rattle.art_nodes.specs.Name.{Name};

    ghost Value = { List (ℕ × Name) };

    ghost use Rattle.art_nodes.specs.inner.ChildIter.{left_in};

    ghost view = { λ it. left_in it.arm };
}

// How the children that are left are held.
#[derive(Drop)]
enum Arm<'a> {
    Sorted(SortedChildren<'a>),
    Direct(DirectChildren<'a>),
    Indirect(IndirectChildren<'a>),
}

// Bytes and names side by side.
#[derive(Drop)]
struct SortedChildren<'a> {
    keys: &'a [u8],
    names: &'a [OpaqueNodePtr],
}

impl<'a> Model for SortedChildren<'a> {
    ghost use Rattle.std.specs.Prelude.{◌≡◌, ℕ, List, length};
    ghost use Rattle.std.specs.List.{zip};
    ghost use Rattle.art_nodes.specs.Name.{Name};

    ghost Value = { List (ℕ × Name) };

    ghost view = { λ s. zip s.keys.now s.names.now };

    ghost invariant = { λ s. length s.keys.now ≡ length s.names.now };
}

// Marked bytes from one bound up to another, and a table with a place for each byte.
#[derive(Drop)]
struct DirectChildren<'a> {
    mask: &'a Mask,
    from: usize,
    to: usize,
    slots: &'a [Place; 256],
}

impl<'a> Model for DirectChildren<'a> {
    ghost use Rattle.std.specs.Prelude.{ℕ, List};
    ghost use Rattle.art_nodes.specs.Name.{Name};
    ghost use Rattle.art_nodes.specs.inner.Place.{children_within};
    ghost use Rattle.art_nodes.specs.inner.Table.{children_from, IsPartOfTable};

    ghost Value = { List (ℕ × Name) };

    ghost view = { λ d. children_within d.from d.to (children_from 0 d.slots.now) };

    ghost invariant = { λ d. IsPartOfTable d.from d.to d.mask.now d.slots.now };
}

// Marked bytes from one bound up to another, and their names, side by side.
#[derive(Drop)]
struct IndirectChildren<'a> {
    mask: &'a Mask,
    from: usize,
    to: usize,
    names: &'a [OpaqueNodePtr],
}

impl<'a> Model for IndirectChildren<'a> {
    ghost use Rattle.std.specs.Prelude.{ℕ, List};
    ghost use Rattle.std.specs.List.{zip};
    ghost use Rattle.art_nodes.specs.Name.{Name};
    ghost use Rattle.art_nodes.specs.inner.Place.{bytes_within, AreLeft};

    ghost Value = { List (ℕ × Name) };

    ghost view = { λ s. zip (bytes_within s.from s.to s.mask.now) s.names.now };

    ghost invariant = { λ s. AreLeft s.from s.to s.mask.now s.names.now };
}

/// How many of these ascending bytes are below the bound.
pub(crate) fn place_of(keys: &[u8], bound: usize) -> usize
    ensures { result ≡ place keys.now bound }
{
    let mut at = 0;
    while at < keys.len() && usize::from(keys[at]) < bound {
        at += 1;
    }
    at
}

/// Returns whether `range` may be called with these bounds. It may not if the start is greater than the end, or if they
/// are equal and both excluded.
pub fn are_valid_child_bounds(start: Bound<u8>, end: Bound<u8>) -> bool
    ensures { IsTrue result ↔ AreValidBounds start end }
{
    match (start, end) {
        (Bound::Unbounded, _) => true,
        (_, Bound::Unbounded) => true,
        (Bound::Excluded(first), Bound::Excluded(last)) => first < last,
        (Bound::Included(first), Bound::Included(last)) => first <= last,
        (Bound::Included(first), Bound::Excluded(last)) => first <= last,
        (Bound::Excluded(first), Bound::Included(last)) => first <= last,
    }
}

// The first byte of a range that starts at this bound.
pub(crate) fn start_of(start: Bound<u8>) -> usize
    ensures value { result ≡ start_index start }
    ensures fits { result ≤ 256 }
{
    match start {
        Bound::Included(byte) => usize::from(byte),
        Bound::Excluded(byte) => usize::from(byte) + 1,
        Bound::Unbounded => 0,
    }
}

// The byte after the last of a range that stops at this bound.
pub(crate) fn end_of(end: Bound<u8>) -> usize
    ensures value { result ≡ end_index end 256 }
    ensures fits { result ≤ 256 }
{
    match end {
        Bound::Included(byte) => usize::from(byte) + 1,
        Bound::Excluded(byte) => usize::from(byte),
        Bound::Unbounded => 256,
    }
}

/// What stands in a table's place for this byte.
#[tactic(auto, using(crate::proofs::DirectLemmas::holds))]
pub(crate) fn held(slots: &[Place; 256], byte: u8) -> Option<OpaqueNodePtr>
    ensures { result ≡ entry_at slots.now byte }
{
    slots[usize::from(byte)].get()
}

impl<'a> SortedChildren<'a> {
    fn next(&mut self) -> Option<(u8, OpaqueNodePtr)>
        ensures { YieldsFirst (λ s. s) self.old result self.new }
    {
        let (key, keys) = self.keys.split_first()?;
        let (name, names) = self.names.split_first()?;
        self.keys = keys;
        self.names = names;
        Some((*key, *name))
    }

    #[tactic(auto, using(crate::proofs::ChildLemmas::zips))]
    fn next_back(&mut self) -> Option<(u8, OpaqueNodePtr)>
        ensures { YieldsLast (λ s. s) self.old result self.new }
    {
        let (key, keys) = self.keys.split_last()?;
        let (name, names) = self.names.split_last()?;
        self.keys = keys;
        self.names = names;
        Some((*key, *name))
    }

    #[tactic(auto, using(crate::proofs::ChildLemmas::zips))]
    fn len(&self) -> usize
        ensures { result ≡ length self.now }
    {
        self.keys.len()
    }
}

impl<'a> DirectChildren<'a> {
    fn next(&mut self) -> Option<(u8, OpaqueNodePtr)>
        ensures { YieldsFirst (λ s. s) self.old result self.new }
    {
        let first = self.mask.lowest_from(self.from)?;
        if usize::from(first) >= self.to {
            return None;
        }
        let name = held(self.slots, first)?;
        self.from = usize::from(first) + 1;
        Some((first, name))
    }

    fn next_back(&mut self) -> Option<(u8, OpaqueNodePtr)>
        ensures { YieldsLast (λ s. s) self.old result self.new }
    {
        let last = self.mask.highest_below(self.to)?;
        if usize::from(last) < self.from {
            return None;
        }
        let name = held(self.slots, last)?;
        self.to = usize::from(last);
        Some((last, name))
    }

    #[tactic(auto, using(crate::proofs::PlaceLemmas::places))]
    fn len(&self) -> usize
        ensures { result ≡ length self.now }
    {
        self.mask.place(self.to) - self.mask.place(self.from)
    }
}

impl<'a> IndirectChildren<'a> {
    fn next(&mut self) -> Option<(u8, OpaqueNodePtr)>
        ensures { YieldsFirst (λ s. s) self.old result self.new }
    {
        let (name, names) = self.names.split_first()?;
        let byte = self.mask.lowest_from(self.from)?;
        self.from = usize::from(byte) + 1;
        self.names = names;
        Some((byte, *name))
    }

    fn next_back(&mut self) -> Option<(u8, OpaqueNodePtr)>
        ensures { YieldsLast (λ s. s) self.old result self.new }
    {
        let (name, names) = self.names.split_last()?;
        let byte = self.mask.highest_below(self.to)?;
        self.to = usize::from(byte);
        self.names = names;
        Some((byte, *name))
    }

    #[tactic(auto, using(crate::proofs::ChildLemmas::zips))]
    fn len(&self) -> usize
        ensures { result ≡ length self.now }
    {
        self.names.len()
    }
}

impl<'a> ChildIter<'a> {
    /// The children of bytes and names side by side.
    pub(crate) fn sorted(keys: &'a [u8], names: &'a [OpaqueNodePtr]) -> Self
        requires { length keys.now ≡ length names.now }
        ensures { result ≡ zip keys.now names.now }
    {
        ChildIter {
            arm: Arm::Sorted(SortedChildren { keys, names }),
        }
    }

    /// The children of bytes and names side by side, from one place up to another.
    pub(crate) fn sorted_part(
        keys: &'a [u8],
        names: &'a [OpaqueNodePtr],
        low: usize,
        high: usize,
    ) -> Self
        requires same_length { length keys.now ≡ length names.now }
        requires within { (low ≤ high) × (high ≤ length keys.now) }
        ensures { result ≡ zip (take (high - low) (drop low keys.now)) (take (high - low) (drop low names.now)) }
    {
        ChildIter::sorted(&keys[low..high], &names[low..high])
    }

    /// The children of the marked bytes from one bound up to another, with their names.
    pub(crate) fn indirect(
        mask: &'a Mask,
        from: usize,
        to: usize,
        names: &'a [OpaqueNodePtr],
    ) -> Self
        requires { AreLeft from to mask.now names.now }
        ensures { result ≡ zip (bytes_within from to mask.now) names.now }
    {
        ChildIter {
            arm: Arm::Indirect(IndirectChildren {
                mask,
                from,
                to,
                names,
            }),
        }
    }

    /// The children of marked bytes, whose names these are, from one bound up to another.
    #[tactic(auto, using(crate::proofs::PlaceLemmas::places))]
    pub(crate) fn indirect_part(
        mask: &'a Mask,
        names: &'a [OpaqueNodePtr],
        from: usize,
        to: usize,
    ) -> Self
        requires same_length { length mask.now ≡ length names.now }
        requires bounds { (from ≤ to) × (to ≤ 256) }
        ensures { result ≡ zip (bytes_within from to mask.now)
            (take (place mask.now to - place mask.now from) (drop (place mask.now from) names.now)) }
    {
        let low = mask.place(from);
        let high = mask.place(to);
        ChildIter::indirect(mask, from, to, &names[low..high])
    }

    /// The children of a table of names, a place for each byte, of which those with a name are marked, from one byte
    /// up to another.
    pub(crate) fn direct(mask: &'a Mask, slots: &'a [Place; 256], from: usize, to: usize) -> Self
        requires marks { IsMarkedTable mask.now slots.now }
        requires bounds { (from ≤ to) × (to ≤ 256) }
        ensures { result ≡ children_within from to (children_from 0 slots.now) }
    {
        ChildIter {
            arm: Arm::Direct(DirectChildren {
                mask,
                from,
                to,
                slots,
            }),
        }
    }
}

impl<'a> Iterator for ChildIter<'a> {
    type Item = (u8, OpaqueNodePtr);

    ghost next_gives = { YieldsFirst (λ s. s) };

    ghost remaining = { item_count (λ s. s) };

    fn next(&mut self) -> Option<(u8, OpaqueNodePtr)> {
        match &mut self.arm {
            Arm::Sorted(children) => children.next(),
            Arm::Indirect(children) => children.next(),
            Arm::Direct(children) => children.next(),
        }
    }

    fn size_hint(&self) -> (usize, Option<usize>)
        ensures lower { IsWithinCount result.0 (item_count (λ s. s) self.now) }
        ensures upper { IfSome result.1 (UpTo (item_count (λ s. s) self.now)) }
        ensures value { result ≡ (length self.now, Some (length self.now)) }
    {
        let len = self.len();
        (len, Some(len))
    }
}

impl<'a> DoubleEndedIterator for ChildIter<'a> {
    ghost next_back_gives = { YieldsLast (λ s. s) };

    fn next_back(&mut self) -> Option<(u8, OpaqueNodePtr)> {
        match &mut self.arm {
            Arm::Sorted(children) => children.next_back(),
            Arm::Indirect(children) => children.next_back(),
            Arm::Direct(children) => children.next_back(),
        }
    }
}

impl<'a> ExactSizeIterator for ChildIter<'a> {
    fn len(&self) -> usize {
        match &self.arm {
            Arm::Sorted(children) => children.len(),
            Arm::Indirect(children) => children.len(),
            Arm::Direct(children) => children.len(),
        }
    }
}

//! The nodes of one kind, under their slab keys.
//!
//! A slab grows by what memory there is, rather than by what it wants or not at all. What the keys then lack may have
//! gone to nodes. Nodes of many children are large, so slabs of these grow by less.
ghost use Rattle.std.specs.Prelude.{◌≡◌, ℕ, ◌<◌, ◌≤◌, ◌-◌, ◌^◌, ◌↔◌, ◌+◌, max};
ghost use Rattle.std.specs.Prelude.{[], Some, None, IfOk, IfErr, IsOk, IsSome, IsTrue, OnErr, OnOk};
ghost use Rattle.std.specs.Borrow.{sem};
ghost use Rattle.slab.specs.Slab.{get, slab_len, EndsWithValue, HasRoomFor, SameValues, Updates, IsSlotClone};
ghost use Rattle.art_nodes.specs.declared.kind.NodeType.{NodeType};
ghost use Rattle.art_arena.specs.inner.Growths.{growth_of};
ghost use Rattle.art_arena.specs.inner.NodesLends.{lends_in};

use crate::claimed::ClaimedSlab;
use art_nodes::{NodeType, assume_proved};
use std::alloc::{AllocError, AllocFailed, Global};
use std::marker::Model;

// No memory holds a node whose stored prefix has so many bytes.
pub(crate) const PREFIX_LEN_LIMIT: usize = 1 << 62;

/// The nodes of one kind, each under its slab key. If there is one, or room for one, a prefix of `PREFIX_LEN` stored
/// bytes is so short that a node fits in memory.
#[derive(Drop)]
pub(crate) struct Nodes<N, const PREFIX_LEN: usize> {
    slab: ClaimedSlab<N>,
}

impl<N, const PREFIX_LEN: usize> Model for Nodes<N, PREFIX_LEN> {
    ghost use Rattle.slab.specs.Slab.{Slab};
    ghost use Rattle.art_arena.specs.inner.Fits.{FitsWhereUsed};

    ghost Value = { Slab N };

    ghost view = { λ a. a.slab };

    ghost invariant = { λ a. FitsWhereUsed PREFIX_LEN a.slab };
}

// How many more nodes of a kind are asked for at a time, where there are so many: as many again, or a quarter of them
// where one takes half a kilobyte or more. Those are the nodes with room for more than 32 children.
fn growth(kind: NodeType, len: usize) -> usize
    ensures { result ≡ growth_of kind len }
{
    if kind.row().most > 32 { len / 4 } else { len }
}

// Makes room for so many more values, where there is none: for as many as are wanted, if so much memory is had, else
// for half as many, and so on, down to no more than these.
#[cold]
fn grow<T>(slab: &mut ClaimedSlab<T>, additional: usize, wanted: usize) -> Result<(), AllocError>
    ensures room { OnOk result (HasRoomFor slab.new additional) }
    ensures few { slab.new.capacity ≤ max slab.old.capacity (slab_len slab.old + max additional wanted) }
    ensures err { OnErr result (slab.new ≡ slab.old) }
    ensures capacity { slab.old.capacity ≤ slab.new.capacity }
    ensures kept { slab.new ≡ record slab.old { capacity = slab.new.capacity } }
{
    let mut more = wanted;
    'halves: while more > additional {
        if slab.reserve_exact(more).is_ok() {
            return Ok(());
        }
        more /= 2;
    }
    slab.reserve_exact(additional)
}

impl<N, const PREFIX_LEN: usize> Nodes<N, PREFIX_LEN> {
    // No nodes. It takes no memory.
    pub(crate) fn new(alloc: Global) -> Self
        ensures slots { result.slots ≡ [] }
        ensures capacity { result.capacity ≡ 0 }
    {
        Nodes {
            slab: ClaimedSlab::new(alloc),
        }
    }

    // How many nodes there are.
    pub(crate) fn len(&self) -> usize
        ensures { result ≡ slab_len self.now }
    {
        self.slab.len()
    }

    // Where a node fits in no memory, there is none, and no room for one.
    pub(crate) fn none_fits(&self)
        ensures none { 2 ^ 62 ≤ PREFIX_LEN → (slot : ℕ) → get self.now slot ≡ None }
        ensures len { 2 ^ 62 ≤ PREFIX_LEN → slab_len self.now ≡ 0 }
        ensures capacity { 2 ^ 62 ≤ PREFIX_LEN → self.now.capacity ≡ 0 }
    {
        let _capacity = self.slab.capacity();
    }

    // Takes all nodes out. The room for them stays.
    pub(crate) fn clear(&mut self)
    where
        N: Drop,
        requires { PREFIX_LEN < 2 ^ 62 }
        ensures slots { self.new.slots ≡ [] }
        ensures capacity { self.new.capacity ≡ self.old.capacity }
    {
        self.slab.clear();
    }

    // Puts clones of other nodes in place of these, each under the key of its original. There is room for no more:
    // spare room is not copied.
    pub(crate) fn put_clones(&mut self, source: &Self) -> Result<(), AllocError>
    where
        N: Clone,
        requires { PREFIX_LEN < 2 ^ 62 }
        ensures clones { OnOk result ((slot : ℕ) → IsSlotClone N.is_clone (get source.now slot) (get self.new slot)) }
        ensures exact { OnOk result (self.new.capacity ≡ slab_len source.now) }
    {
        let slab = source.slab.try_clone()?;
        self.slab = slab;
        Ok(())
    }

    // Whether there is a node under this key.
    pub(crate) fn contains(&self, slot: usize) -> bool
        ensures { IsTrue result ↔ IsSome (get self.now slot) }
    {
        self.slab.contains(slot)
    }

    // Makes room for so many more nodes. It is refused only where there is no room for them, and no memory. Their kind
    // tells how many are asked for.
    pub(crate) fn reserve(&mut self, kind: NodeType, additional: usize) -> Result<(), AllocError>
        ensures room { OnOk result (HasRoomFor self.new additional) }
        ensures succeeds { HasRoomFor self.old additional → IsOk result }
        ensures err { OnErr result (self.new ≡ self.old) }
        ensures enough { HasRoomFor self.old additional → self.new ≡ self.old }
        ensures few { self.new.capacity
            ≤ max self.old.capacity (slab_len self.old + max additional (growth_of kind (slab_len self.old))) }
        ensures capacity { self.old.capacity ≤ self.new.capacity }
        ensures kept { self.new ≡ record self.old { capacity = self.new.capacity } }
    {
        let slab = &mut self.slab;
        if slab.capacity() - slab.len() >= additional {
            return Ok(());
        }
        if PREFIX_LEN >= PREFIX_LEN_LIMIT {
            return Err(AllocError);
        }
        let wanted = growth(kind, slab.len());
        grow(slab, additional, wanted)
    }

    // There is no room for 2^64 nodes or more. Nothing is done.
    pub(crate) fn room_is_bounded(&self)
        ensures { (n : ℕ) → HasRoomFor self.now n → n < 2 ^ 64 }
    {
        let _capacity = self.slab.capacity();
    }

    // Gives back the memory after the last node: all of it where there is none. No key changes.
    pub(crate) fn shrink_to_fit(&mut self)
    where
        N: Drop,
        ensures values { SameValues self.old self.new }
        ensures capacity { (n : ℕ) → HasRoomFor self.new n → HasRoomFor self.old n }
        ensures trimmed { PREFIX_LEN < 2 ^ 62 → EndsWithValue self.new }
        ensures frees { slab_len self.old ≡ 0 → self.new.capacity ≡ 0 }
    {
        let slab = &mut self.slab;
        if PREFIX_LEN >= PREFIX_LEN_LIMIT {
            return;
        }
        slab.shrink_to_fit();
    }

    // Stores a node of this kind, or hands it back where there is no memory.
    pub(crate) fn insert(&mut self, kind: NodeType, node: N) -> Result<usize, AllocFailed<N>>
        ensures was_vacant { IfOk result (λ slot. get self.old slot ≡ None) }
        ensures updates { IfOk result (λ slot. Updates self.old self.new slot (Some node)) }
        ensures len { OnOk result (slab_len self.new ≡ slab_len self.old + 1) }
        ensures err { OnErr result (self.new ≡ self.old) }
        ensures handed_back { IfErr result (λ failed. failed.value ≡ node) }
        ensures succeeds { HasRoomFor self.old 1 → IsOk result }
        ensures few { self.new.capacity
            ≤ max self.old.capacity (slab_len self.old + max 1 (growth_of kind (slab_len self.old))) }
        ensures capacity { self.old.capacity ≤ self.new.capacity }
        ensures enough { HasRoomFor self.old 1 → self.new.capacity ≡ self.old.capacity }
        ensures below { IfOk result (λ slot. slot < 2 ^ 64 - 1) }
    {
        if self.reserve(kind, 1).is_err() {
            return Err(AllocFailed { value: node });
        }
        Ok(self.slab.insert_reserved(node))
    }

    // Whether a node fits in memory, as it does where there is room for one.
    pub(crate) fn fits_in_memory(&self) -> bool
        ensures value { IsTrue result → PREFIX_LEN < 2 ^ 62 }
        ensures exact { PREFIX_LEN < 2 ^ 62 → IsTrue result }
        ensures room { HasRoomFor self.now 1 → IsTrue result }
    {
        let _slab = &self.slab;
        PREFIX_LEN < PREFIX_LEN_LIMIT
    }

    // The node under this key. Where there is one, it fits in memory.
    #[inline(always)]
    pub(crate) fn node(&self, slot: usize) -> &N
        requires { IsSome (get self.now slot) }
        ensures value { get self.now slot ≡ Some result.now }
        ensures fits_in_memory { PREFIX_LEN < 2 ^ 62 }
    {
        match self.slab.get(slot) {
            Some(node) => node,
            None => {
                assume_proved(false);
                unreachable!()
            }
        }
    }

    // The node under this key, for writing.
    pub(crate) fn node_mut(&mut self, slot: usize) -> &mut N
        requires { IsSome (get self.old slot) }
        ensures* writes_back { sem 𝓛 (lends_in N.row PREFIX_LEN.row self.entry slot result) }
        ensures value { get self.old slot ≡ Some result.now }
    {
        self.slab.get_mut(slot)
    }

    // Takes the node under this key out.
    pub(crate) fn remove(&mut self, slot: usize) -> N
        requires { IsSome (get self.old slot) }
        ensures value { get self.old slot ≡ Some result }
        ensures updates { Updates self.old self.new slot None }
        ensures len { slab_len self.new + 1 ≡ slab_len self.old }
        ensures room { HasRoomFor self.new 1 }
        ensures capacity { self.new.capacity ≡ self.old.capacity }
    {
        self.slab.remove(slot)
    }
}

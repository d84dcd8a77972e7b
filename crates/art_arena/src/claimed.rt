//! Values in a slab of which room is claimed. A slab may end up with more room than it was asked for, and its contract
//! doesn't say how much. What is told here is what was claimed of it, so each number is exact.
ghost use Rattle.std.specs.Prelude.{◌≡◌, ◌<◌, ◌≤◌, ◌-◌, ◌^◌, ◌↔◌, ◌+◌, max};
ghost use Rattle.std.specs.Prelude.{[], Some, None, IfOk, IsOk, IsSome, IsTrue, OnErr, OnOk, OnSome, option_copied};
ghost use Rattle.std.specs.Borrow.{sem};
ghost use Rattle.slab.specs.Slab.{get, slab_len, ContainsKey, EndsWithValue, HasRoomFor, SameValues, Updates};
ghost use Rattle.art_arena.specs.inner.Claims.{IsExactClone};
ghost use Rattle.art_arena.specs.inner.ClaimedLends.{lends_at};

use art_nodes::assume_proved;
use slab::Slab;
use std::alloc::{AllocError, Global};
use std::marker::Model;

/// Values under keys that the slab picks. A key keeps its value until that is removed, and only then is given out
/// again.
#[derive(Drop)]
pub(crate) struct ClaimedSlab<T> {
    slab: Slab<T>,
    // How many values fit with no allocation, those that are held among them: so many at least.
    claimed: usize,
}

impl<T> Model for ClaimedSlab<T> {
    ghost use Rattle.slab.specs.Slab.{Slab, slab_code};
    ghost use Rattle.art_arena.specs.inner.Claims.{IsClaimed};

    ghost Value = { Slab T };

    ghost coded = { slab_code T.code };

    ghost view = { λ s. record s.slab { capacity = s.claimed } };

    ghost invariant = { λ s. IsClaimed s.slab s.claimed };
}

// (Reading a capacity costs nothing. A proof knows from it that the slab holds no more, and that a word holds it.)
impl<T> ClaimedSlab<T> {
    // No value. It takes no memory.
    pub(crate) fn new(alloc: Global) -> Self
        ensures empty { result.slots ≡ [] }
        ensures capacity { result.capacity ≡ 0 }
    {
        ClaimedSlab {
            slab: Slab::new(alloc),
            claimed: 0,
        }
    }

    // How many values fit with no allocation.
    pub(crate) fn capacity(&self) -> usize
        ensures value { result ≡ self.now.capacity }
        ensures holds_all { slab_len self.now ≤ result }
    {
        self.claimed
    }

    // How many values there are.
    pub(crate) fn len(&self) -> usize
        ensures { result ≡ slab_len self.now }
    {
        self.slab.len()
    }

    // Makes room for so many more values, and claims no more.
    pub(crate) fn reserve_exact(&mut self, additional: usize) -> Result<(), AllocError>
        ensures room { OnOk result (HasRoomFor self.new additional) }
        ensures exact { OnOk result (self.new.capacity ≡ max self.old.capacity (slab_len self.old + additional)) }
        ensures succeeds { HasRoomFor self.old additional → IsOk result }
        ensures err { OnErr result (self.new ≡ self.old) }
        ensures capacity { self.old.capacity ≤ self.new.capacity }
        ensures rest_kept { self.new ≡ record self.old { capacity = self.new.capacity } }
    {
        let len = self.slab.len();
        if self.claimed - len >= additional {
            return Ok(());
        }
        self.slab.reserve_exact(additional)?;
        let _capacity = self.slab.capacity();
        self.claimed = len + additional;
        Ok(())
    }

    // Gives back the memory that is not needed: all of it where there is no value. No key changes, and no room is left.
    pub(crate) fn shrink_to_fit(&mut self)
    where
        T: Drop,
        ensures values { SameValues self.old self.new }
        ensures len { slab_len self.new ≡ slab_len self.old }
        ensures trimmed { EndsWithValue self.new }
        ensures exact { self.new.capacity ≡ slab_len self.old }
        ensures capacity { self.new.capacity ≤ self.old.capacity }
    {
        self.slab.shrink_to_fit();
        let _capacity = self.slab.capacity();
        self.claimed = self.slab.len();
    }

    // Removes every value, and keeps the room.
    pub(crate) fn clear(&mut self)
    where
        T: Drop,
        ensures empty { self.new.slots ≡ [] }
        ensures capacity { self.new.capacity ≡ self.old.capacity }
    {
        self.slab.clear();
    }

    // A clone of each value under the same key, with room for no more.
    pub(crate) fn try_clone(&self) -> Result<Self, AllocError>
    where
        T: Clone,
        ensures { IfOk result (IsExactClone T.is_clone self.now) }
    {
        let slab = self.slab.clone()?;
        let claimed = slab.len();
        Ok(ClaimedSlab { slab, claimed })
    }

    // The value at `key`, if there is one.
    #[inline(always)]
    pub(crate) fn get(&self, key: usize) -> Option<&T>
        ensures { option_copied result ≡ get self.now key }
    {
        self.slab.get(key)
    }

    // The value at `key` for writing. There must be one.
    #[inline(always)]
    pub(crate) fn get_mut(&mut self, key: usize) -> &mut T
        requires { ContainsKey self.old key }
        ensures* writes_back { sem 𝓛 (lends_at T.row self.entry key result) }
        ensures value { get self.old key ≡ Some result.now }
    {
        match self.slab.get_mut(key) {
            Some(value) => value,
            None => {
                assume_proved(false);
                unreachable!()
            }
        }
    }

    // Stores a value where there is room for it, which can't fail.
    pub(crate) fn insert_reserved(&mut self, value: T) -> usize
        requires { HasRoomFor self.old 1 }
        ensures was_vacant { get self.old result ≡ None }
        ensures updates { Updates self.old self.new result (Some value) }
        ensures len { slab_len self.new ≡ slab_len self.old + 1 }
        ensures key_in_range { result < 2 ^ 64 - 1 }
        ensures capacity { self.new.capacity ≡ self.old.capacity }
    {
        let _capacity = self.slab.capacity();
        self.slab.insert_reserved(value)
    }

    // Takes the value at `key` out, which must have one.
    pub(crate) fn remove(&mut self, key: usize) -> T
        requires { ContainsKey self.old key }
        ensures value { get self.old key ≡ Some result }
        ensures updates { Updates self.old self.new key None }
        ensures len { slab_len self.new + 1 ≡ slab_len self.old }
        ensures room { HasRoomFor self.new 1 }
        ensures capacity { self.new.capacity ≡ self.old.capacity }
    {
        self.slab.remove(key)
    }

    // Whether there is a value at `key`.
    pub(crate) fn contains(&self, key: usize) -> bool
        ensures { IsTrue result ↔ ContainsKey self.now key }
    {
        self.slab.contains(key)
    }
}

//! What a handle holds: a box as a pointer that says nothing of its type, or nothing.
ghost use Rattle.std.specs.Prelude.{◌≡◌, Option, Some, None, IsSome};
ghost use Rattle.art_c.specs.Held.{held_owns, store_row, Kept};

use super::Store;
use super::loose::Loose;
use std::alloc::Global;
use std::marker::{Model, Send};
use std::ptr::null_mut;

/// A map's box under a pointer, or nothing.
#[repr(C)]
#[derive(Drop)]
pub struct Held {
    at: *mut u8,
    ghost store: { Option Kept },
}

impl Model for Held {
    ghost also_owns = { λ h. held_owns store_row h.at h.store };
}

// What the pointer leads to is the handle's own, or is never changed: it may go to another thread with it.
unsafe impl Send for Held {}

impl Held {
    pub(super) fn none() -> Held
        ensures { result.store ≡ None }
    {
        Held { at: null_mut() }
    }

    pub(super) fn of(loose: Loose<Store, Global>) -> Held
        ensures { result.store ≡ Some loose.value }
    {
        let Loose { at, alloc: _alloc } = loose;
        Held { at: at as *mut u8 }
    }

    pub(super) fn into_loose(self, alloc: Global) -> Loose<Store, Global>
        requires { IsSome self.store }
        ensures { self.store ≡ Some result.value }
    {
        let Held { at } = self;
        Loose {
            at: at as *mut Store,
            alloc,
        }
    }
}

//! How a handle is made and opened.
ghost use Rattle.std.specs.Prelude.{◌≡◌, Some, None, option_map};
ghost use Rattle.art_c.specs.Handles.{store_of};

use super::held::Held;
use super::loose::Loose;
use super::{Handle, Store};
use std::alloc::Global;

impl Handle {
    // A handle with no map.
    pub(crate) fn empty() -> Handle
        ensures { store_of result ≡ None }
    {
        Handle {
            held: Held::none(),
            is_made: false,
        }
    }

    // A handle of this map.
    pub(crate) fn of(store: Box<Store>) -> Handle
        ensures { store_of result ≡ Some store.value }
    {
        Handle {
            held: Held::of(Loose::of(store)),
            is_made: true,
        }
    }

    // The map, if one is made.
    fn into_store(self, alloc: Global) -> Option<Box<Store>>
        ensures { store_of self ≡ option_map (λ store. store.value) result }
    {
        let Handle { held, is_made } = self;
        if is_made {
            Some(held.into_loose(alloc).into_box())
        } else {
            None
        }
    }

    // Takes the map out, if one is made. The handle has none then.
    pub(crate) fn take(&mut self, alloc: Global) -> Option<Box<Store>>
        ensures map { store_of self.old ≡ option_map (λ store. store.value) result }
        ensures left { store_of self.new ≡ None }
    {
        std::mem::replace(self, Handle::empty()).into_store(alloc)
    }

    // Puts a map into a handle that has none.
    pub(crate) fn set(&mut self, store: Box<Store>)
        requires { store_of self.old ≡ None }
        ensures { store_of self.new ≡ Some store.value }
    {
        std::mem::replace(self, Handle::of(store)).end()
    }

    // Puts a map into a handle in the place of the one that it has, which is freed.
    pub(crate) fn replace(&mut self, alloc: Global, store: Box<Store>)
        ensures { store_of self.new ≡ Some store.value }
    {
        let _old = self.take(alloc);
        self.set(store);
    }

    // Lets a handle go that has no map.
    fn end(self)
        requires { store_of self ≡ None }
    {
        let Handle {
            held: _held,
            is_made: _is_made,
        } = self;
    }
}

//! The handle of a map, which C keeps.
ghost use Rattle.std.specs.Prelude.{◌≡◌, is_some};

mod held;
mod kept;
mod kind;
mod loose;
mod opened;
mod store;

use held::Held;
pub(crate) use kept::{Kept, Map, Owned};
pub(crate) use kind::Kind;
pub(crate) use store::Store;

/// The handle of a map. It lies in the caller's memory, and owns a map where one is made. It can't be dropped, so no
/// map is lost with it: where another takes its place, it is taken out and freed first.
#[repr(C)]
pub struct Handle {
    held: Held,
    is_made: bool,
    ghost agrees: { is_made ≡ is_some held.store },
}

// What is read of the map of this kind in a handle: the number of the code that it gives.
macro_rules! reading {
    ($alloc:ident, $handle:ident: $kind:ty, |$map:ident| $done:expr) => {
        match $handle.take($alloc) {
            Some(store) => match <$kind as Kind>::kept(&store) {
                Some(kept) => {
                    let $map = kept.map();
                    let code = $done;
                    $handle.set(store);
                    code.number()
                }
                None => {
                    $handle.set(store);
                    Code::NoMap.number()
                }
            },
            None => Code::NoMap.number(),
        }
    };
}

// What is done with what a handle of this kind keeps, frozen or not: the number of the code that it gives.
macro_rules! keeping {
    ($alloc:ident, $handle:ident: $kind:ty, |$kept:ident| $done:expr) => {
        match $handle.take($alloc) {
            Some(mut store) => match <$kind as Kind>::kept_mut(&mut store) {
                Some($kept) => {
                    let code = $done;
                    $handle.set(store);
                    code.number()
                }
                None => {
                    $handle.set(store);
                    Code::NoMap.number()
                }
            },
            None => Code::NoMap.number(),
        }
    };
}

pub(crate) use keeping;
pub(crate) use reading;

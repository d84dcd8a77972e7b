//! What is done with a map as a whole, of either kind.
ghost use Rattle.std.specs.Prelude.{◌≡◌, ◌*◌, [], MatchResult, length, true};
ghost use Rattle.art_arena.specs.arena.Arena.{IsTrimmed};
ghost use Rattle.art_c.specs.Answers.{Changes};
ghost use Rattle.art_c.specs.Calls.{IsNew};
ghost use Rattle.art_c.specs.Handles.{IsOwn, is_frozen_map, is_shut, pairs_or_none, state_of, store_of};
ghost use Rattle.art_c.specs.Wholes.{GetsCopy, HasRoomIn, IsCleared, IsCompacted, IsFrozen, IsGiven, IsReserved};
ghost use Rattle.art_c.specs.Wholes.{IsShared, IsSharedOf, IsShrunk, IsSplitOff, IsThawed, IsTrimmedIn};
ghost use Rattle.art_c.specs.declared.code.Code.TheVariants.{Done, NoMemory};

use crate::code::Code;
use crate::handle::{Handle, Kept, Kind, Map, Owned};
use art_bytes::SliceKey;
use art_map::TreeMap;
use std::alloc::Global;
use std::mem;
use std::sync::Arc;

/// Gives a handle this map, in the place of the one that it has.
fn give<V: Kind>(alloc: Global, to: &mut Handle, kept: Kept<V>) -> Code
    ensures { IsGiven V.view (λ s. s ≡ state_of kept) (store_of to.old) result (store_of to.new) }
{
    match Box::new(alloc, V::store(kept)) {
        Ok(store) => {
            to.replace(alloc, store);
            Code::Done
        }
        Err(_) => Code::NoMemory,
    }
}

/// An empty map.
fn empty<V: Drop>(alloc: Global) -> Kept<V>
    ensures { IsOwn [] (state_of result) }
{
    Kept::Own(Owned {
        map: TreeMap::new(alloc),
    })
}

/// Gives a handle an empty map, in the place of the one that it has.
pub(crate) fn new<V: Kind>(alloc: Global, handle: &mut Handle) -> u32
    ensures { IsNew V.view (store_of handle.old) result (store_of handle.new) }
{
    give(alloc, handle, empty::<V>(alloc)).number()
}

/// How many pairs there are.
pub(crate) fn len<V: Kind>(alloc: Global, handle: &mut Handle) -> usize
    ensures len { result ≡ length (pairs_or_none (V.view (store_of handle.old))) }
    ensures kept { store_of handle.new ≡ store_of handle.old }
{
    let Some(store) = handle.take(alloc) else {
        return 0;
    };
    let len = match V::kept(&store) {
        Some(kept) => kept.map().len(),
        None => 0,
    };
    handle.set(store);
    len
}

/// Whether the map is frozen.
pub(crate) fn is_frozen<V: Kind>(alloc: Global, handle: &mut Handle) -> bool
    ensures is { result ≡ is_frozen_map (V.view (store_of handle.old)) }
    ensures kept { store_of handle.new ≡ store_of handle.old }
{
    let Some(store) = handle.take(alloc) else {
        return false;
    };
    let is = match V::kept(&store) {
        Some(kept) => kept.is_frozen(),
        None => false,
    };
    handle.set(store);
    is
}

/// Gives another handle a copy of a map.
pub(crate) fn clone<V: Kind>(alloc: Global, map: &Map<V>, to: &mut Handle) -> Code
    ensures { GetsCopy V.view map.now.pairs (store_of to.old) result (store_of to.new) }
{
    match map.clone() {
        Ok(map) => give(alloc, to, Kept::Own(Owned { map })),
        Err(_) => Code::NoMemory,
    }
}

/// Moves the pairs from a key on into a map of their own. The box that takes them is allocated first.
fn split<V: Kind>(alloc: Global, map: &mut Map<V>, key: &[u8], to: &mut Handle) -> Code
    ensures { IsSplitOff V.view key.now map.old (store_of to.old) result map.new (store_of to.new) }
{
    let Ok(mut store) = Box::new(alloc, V::store(empty(alloc))) else {
        return Code::NoMemory;
    };
    match map.split_off(&SliceKey(key)) {
        Ok(map) => {
            *store = V::store(Kept::Own(Owned { map }));
            to.replace(alloc, store);
            Code::Done
        }
        Err(_) => Code::NoMemory,
    }
}

pub(crate) fn split_off<V: Kind>(
    alloc: Global,
    kept: &mut Kept<V>,
    key: &[u8],
    to: &mut Handle,
) -> Code
    ensures { Changes (IsSplitOff V.view key.now) (state_of kept.old) (store_of to.old)
        result (state_of kept.new) (store_of to.new) }
{
    match kept {
        Kept::Own(owned) => split(alloc, &mut owned.map, key, to),
        Kept::Frozen(_) => Code::Frozen,
    }
}

pub(crate) fn reserve<V: Drop>(kept: &mut Kept<V>, additional: usize) -> Code
    ensures pairs { Changes IsReserved (state_of kept.old) tt result (state_of kept.new) tt }
    ensures room { result ≡ Done → HasRoomIn (2 * additional) kept.new }
    ensures succeeds { result ≡ NoMemory → HasRoomIn (2 * additional) kept.old → ⊥ }
{
    match kept {
        Kept::Own(owned) => match owned.map.reserve(additional) {
            Ok(()) => Code::Done,
            Err(_) => Code::NoMemory,
        },
        Kept::Frozen(_) => Code::Frozen,
    }
}

pub(crate) fn shrink<V: Drop>(kept: &mut Kept<V>) -> Code
    ensures pairs { Changes IsShrunk (state_of kept.old) tt result (state_of kept.new) tt }
    ensures trimmed { result ≡ Done → IsTrimmedIn kept.new }
{
    match kept {
        Kept::Own(owned) => {
            owned.map.shrink_to_fit();
            Code::Done
        }
        Kept::Frozen(_) => Code::Frozen,
    }
}

/// Makes the nodes of a map anew in the order of the keys.
fn put_in_order<V: Drop>(map: &mut Map<V>) -> Code
    ensures pairs { IsCompacted map.old tt result map.new tt }
    ensures trimmed { result ≡ Done → IsTrimmed map.new.nodes }
    ensures kept { result ≡ NoMemory → map.new ≡ map.old }
{
    match map.compact() {
        Ok(()) => Code::Done,
        Err(_) => Code::NoMemory,
    }
}

pub(crate) fn compact<V: Drop>(kept: &mut Kept<V>) -> Code
    ensures pairs { Changes IsCompacted (state_of kept.old) tt result (state_of kept.new) tt }
    ensures trimmed { result ≡ Done → IsTrimmedIn kept.new }
{
    match kept {
        Kept::Own(owned) => put_in_order(&mut owned.map),
        Kept::Frozen(_) => Code::Frozen,
    }
}

pub(crate) fn clear<V: Drop>(alloc: Global, kept: &mut Kept<V>) -> Code
    ensures { Changes IsCleared (state_of kept.old) tt result (state_of kept.new) tt }
{
    match kept {
        Kept::Own(owned) => {
            owned.map = TreeMap::new(alloc);
            Code::Done
        }
        Kept::Frozen(_) => Code::Frozen,
    }
}

/// The map with its nodes in the order of the keys, where there is memory for that, else as it is.
fn compacted<V: Drop>(owned: Owned<V>) -> Owned<V>
    ensures { result.map.pairs ≡ owned.map.pairs }
{
    let mut owned = owned;
    let _code = put_in_order(&mut owned.map);
    owned
}

pub(crate) fn freeze<V: Drop>(alloc: Global, kept: &mut Kept<V>) -> Code
    ensures { IsFrozen (state_of kept.old) tt result (state_of kept.new) tt }
{
    match mem::replace(kept, empty(alloc)) {
        Kept::Own(owned) => match Arc::new(alloc, compacted(owned)) {
            Ok(shared) => {
                *kept = Kept::Frozen(shared);
                Code::Done
            }
            Err(refused) => {
                *kept = Kept::Own(refused.value);
                Code::NoMemory
            }
        },
        frozen => {
            *kept = frozen;
            Code::Done
        }
    }
}

pub(crate) fn thaw<V: Drop>(alloc: Global, kept: &mut Kept<V>) -> Code
    ensures { IsThawed (state_of kept.old) tt result (state_of kept.new) tt }
{
    match mem::replace(kept, empty(alloc)) {
        Kept::Frozen(shared) => match Arc::try_unwrap(shared) {
            Ok(owned) => {
                *kept = Kept::Own(owned);
                Code::Done
            }
            Err(shared) => {
                *kept = Kept::Frozen(shared);
                Code::Shared
            }
        },
        own => {
            *kept = own;
            Code::Done
        }
    }
}

/// Another owner of a frozen map, if it is frozen.
fn shared_of<V: Drop>(kept: &Kept<V>) -> Result<Kept<V>, Code>
    ensures { MatchResult result (λ other. (is_shut (state_of kept.now) ≡ true) × (state_of other ≡ state_of kept.now))
        (IsSharedOf (state_of kept.now)) }
{
    match kept {
        Kept::Own(_) => Err(Code::NotFound),
        Kept::Frozen(shared) => match Arc::try_clone(shared) {
            Ok(other) => Ok(Kept::Frozen(other)),
            Err(_) => Err(Code::NoMemory),
        },
    }
}

pub(crate) fn share<V: Kind>(alloc: Global, kept: &Kept<V>, to: &mut Handle) -> Code
    ensures { IsShared V.view (state_of kept.now) (store_of to.old) result (state_of kept.now) (store_of to.new) }
{
    match shared_of(kept) {
        Ok(other) => give(alloc, to, other),
        Err(code) => code,
    }
}

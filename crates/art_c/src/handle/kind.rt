//! The two kinds of map. What is done with a map as a whole is written once, for a map of any kind.
ghost use Rattle.std.specs.Prelude.{◌≡◌, None, Some, MatchOption};
ghost use Rattle.std.specs.Borrow.{sem, LendsIf};
ghost use Rattle.art_c.specs.Handles.{byte_map_in, state_of, View, word_map_in};
ghost use Rattle.art_c.specs.contracts.handle.kept.Kept.{the_row as kept_row};
ghost use Rattle.art_c.specs.contracts.handle.store.Store.{the_row as store_row};
ghost use Rattle.art_c.specs.declared.handle.kept.Kept.{Kept};
ghost use Rattle.art_c.specs.declared.handle.store.Store.{Store};
ghost use Rattle.art_c.specs.declared.handle.store.Store.TheVariants as variants;

use super::{Kept, Store};
use crate::bytes::Bytes;
use crate::value::Value;

/// A kind of map, by what stands at its keys.
pub trait Kind: Value + Clone {
    /// The map of this kind that a handle has, if it has one.
    ghost view: { View Self };

    /// What a handle has where it keeps such a map.
    ghost stored: { Kept Self → Store };

    fn store(kept: Kept<Self>) -> Store
        ensures { result ≡ stored kept };

    /// What is kept, if it is of this kind.
    fn kept(store: &Store) -> Option<&Kept<Self>>
        ensures { MatchOption result (view (Some store.now) ≡ None) (λ kept. store.now ≡ stored kept.now) };

    /// The same, to be changed.
    fn kept_mut(store: &mut Store) -> Option<&mut Kept<Self>>
        ensures* writes_back { sem 𝓛 (LendsIf store_row (kept_row Self.row) store.entry result stored store.old) }
        ensures value { MatchOption result (view (Some store.old) ≡ None) (λ kept. store.old ≡ stored kept.now) };

    ghost seen: { (kept : Kept Self) → view (Some (stored kept)) ≡ Some (state_of kept) };

    ghost none_seen: { view None ≡ None };

    ghost clones: { (v w : Self) → Self.is_clone v w → w ≡ v };
}

impl Kind for u64 {
    ghost use Rattle.std.specs.Prelude.{refl};

    ghost view = { word_map_in };

    ghost stored = { variants.Words };

    fn store(kept: Kept<u64>) -> Store
        ensures { result ≡ variants.Words kept }
    {
        Store::Words(kept)
    }

    fn kept(store: &Store) -> Option<&Kept<u64>> {
        if let Store::Words(kept) = store {
            Some(kept)
        } else {
            None
        }
    }

    fn kept_mut(store: &mut Store) -> Option<&mut Kept<u64>> {
        if let Store::Words(kept) = store {
            Some(kept)
        } else {
            None
        }
    }

    ghost seen = { λ kept. refl };

    ghost none_seen = { refl };

    ghost clones = { λ v w same. same };
}

impl Kind for Bytes {
    ghost use Rattle.std.specs.Prelude.{refl};

    ghost view = { byte_map_in };

    ghost stored = { variants.Bytes };

    fn store(kept: Kept<Bytes>) -> Store
        ensures { result ≡ variants.Bytes kept }
    {
        Store::Bytes(kept)
    }

    fn kept(store: &Store) -> Option<&Kept<Bytes>> {
        if let Store::Bytes(kept) = store {
            Some(kept)
        } else {
            None
        }
    }

    fn kept_mut(store: &mut Store) -> Option<&mut Kept<Bytes>> {
        if let Store::Bytes(kept) = store {
            Some(kept)
        } else {
            None
        }
    }

    ghost seen = { λ kept. refl };

    ghost none_seen = { refl };

    ghost clones = { λ v w same. same };
}

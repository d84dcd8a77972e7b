//! All pairs of a map move into another.
ghost use Rattle.std.specs.Prelude.{◌≡◌, MatchOption};
ghost use Rattle.art_arena.specs.arena.Arena.{KeepsRoom, UsesRoom};
ghost use Rattle.art_c.specs.Answers.{Changes};
ghost use Rattle.art_c.specs.Handles.{state_of, store_of};
ghost use Rattle.art_c.specs.Joins.{IsJoined, IsAppended, MoveEnds, MovesFirst};

use crate::code::Code;
use crate::handle::{Handle, Kept, Kind, Map};
use std::alloc::Global;
use std::mem;

/// Moves the first pair of another map. Tells how it ends where it moves none. All memory is allocated before the pair
/// leaves.
fn move_first<V: Drop>(map: &mut Map<V>, other: &mut Map<V>) -> Option<Code>
    ensures moves { MatchOption result (MovesFirst other.old.pairs map.old.pairs other.new.pairs map.new.pairs)
        (λ code. MoveEnds other.old.pairs map.old.pairs code
        × (other.new.pairs ≡ other.old.pairs) × (map.new.pairs ≡ map.old.pairs)) }
    ensures room { MatchOption result
        (UsesRoom 2 map.old.nodes map.new.nodes × UsesRoom 1 other.old.nodes other.new.nodes)
        (λ code. KeepsRoom map.old.nodes map.new.nodes × KeepsRoom other.old.nodes other.new.nodes) }
{
    let Some((key, _value)) = other.first_key_value() else {
        return Some(Code::Done);
    };
    let Ok(_) = map.find_place(key) else {
        return Some(Code::Conflict);
    };
    let Ok(()) = map.reserve(1) else {
        return Some(Code::NoMemory);
    };
    match other.pop_first() {
        Ok(Some((key, value))) => match map.try_insert(key, value) {
            Ok(_old) => None,
            Err(_) => unreachable!(),
        },
        Ok(None) => Some(Code::Done),
        Err(_) => Some(Code::NoMemory),
    }
}

/// Moves the pairs of another map while they can be put in. An empty map takes them all at once, with their room.
fn join<V: Drop>(map: &mut Map<V>, other: &mut Map<V>) -> Code
    ensures { IsJoined other.old map.old result other.new map.new }
{
    // Tells that they ascend.
    let (_nodes, _root) = other.nodes();
    if other.is_empty() {
        return Code::Done;
    }
    if map.is_empty() {
        mem::swap(map, other);
        return Code::Done;
    }
    loop {
        if let Some(code) = move_first(map, other) {
            return code;
        }
    }
}

/// The same of what another handle keeps, where it is not frozen.
fn join_kept<V: Drop>(map: &mut Map<V>, other: &mut Kept<V>) -> Code
    ensures { Changes IsJoined (state_of other.old) map.old result (state_of other.new) map.new }
{
    match other {
        Kept::Own(owned) => join(map, &mut owned.map),
        Kept::Frozen(_) => Code::Frozen,
    }
}

/// The same of another handle, where it has a map of this kind.
fn join_handle<V: Kind>(alloc: Global, map: &mut Map<V>, other: &mut Handle) -> Code
    ensures { IsAppended V.view map.old (store_of other.old) result map.new (store_of other.new) }
{
    match other.take(alloc) {
        Some(mut store) => match V::kept_mut(&mut store) {
            Some(kept) => {
                let code = join_kept(map, kept);
                other.set(store);
                code
            }
            None => {
                other.set(store);
                Code::NoMap
            }
        },
        None => Code::NoMap,
    }
}

pub(crate) fn append<V: Kind>(alloc: Global, kept: &mut Kept<V>, other: &mut Handle) -> Code
    ensures { Changes (IsAppended V.view) (state_of kept.old) (store_of other.old)
        result (state_of kept.new) (store_of other.new) }
{
    match kept {
        Kept::Own(owned) => join_handle(alloc, &mut owned.map, other),
        Kept::Frozen(_) => Code::Frozen,
    }
}

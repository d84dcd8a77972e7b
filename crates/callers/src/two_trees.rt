//! Two trees in one arena: a change of one leaves the other alone.
ghost use Rattle.std.specs.Prelude.{[], IfSome};
ghost use Rattle.art_arena.specs.arena.Arena.{node_at, links_at};
ghost use Rattle.art_arena.specs.arena.Meaning.{IsSubtree};
ghost use Rattle.art_arena.specs.arena.Shapes.{Shape, cells};
ghost use Rattle.art_arena.specs.arena.Stores.{StoresBeside, StoresOnly};

use art_arena::NodeArena;
use art_bytes::AsBytes;
use art_nodes::OpaqueNodePtr;
use art_operations::{insert_at, search_unchecked, take_pair};

// Stores a pair as a tree of its own beside another tree, and returns its root.
fn put_beside<K: AsBytes + Drop, V: Drop>(
    arena: &mut NodeArena<K, V, 4>,
    root: OpaqueNodePtr,
    key: K,
    value: V,
) -> Option<OpaqueNodePtr>
    requires { (s : Shape K V) × StoresOnly K.bytes 4 arena.old root s }
    ensures { IfSome result (λ other. (s : Shape K V) × (t : Shape K V)
        × StoresBeside K.bytes 4 arena.new root (cells 4 t) s × IsSubtree K.bytes 4 (node_at arena.new) other [] t) }
{
    match insert_at(arena, None, key, value) {
        Ok(put) => Some(put.new_root),
        Err(_) => None,
    }
}

// Takes a key out of one tree, and returns whether the other, which stands beside it, has the key then.
fn takes_from_one<K: AsBytes + Drop, V: Drop>(
    arena: &mut NodeArena<K, V, 4>,
    root: OpaqueNodePtr,
    other: OpaqueNodePtr,
    key: &[u8],
) -> bool
    requires { (s : Shape K V) × (t : Shape K V) × StoresBeside K.bytes 4 arena.old root (cells 4 t) s
        × IsSubtree K.bytes 4 (node_at arena.old) other [] t }
{
    match take_pair(arena, Some(root), key) {
        Ok(Some(_)) => search_unchecked(arena, other, key).is_some(),
        Ok(None) => false,
        Err(_) => false,
    }
}

/// Whether a key that a tree has is found in another, which has it alone, once it is taken out of the first.
pub fn takes_beside<K: AsBytes + Drop, V: Drop>(
    arena: &mut NodeArena<K, V, 4>,
    root: OpaqueNodePtr,
    pair: (K, V),
    bytes: &[u8],
) -> bool
    requires { (s : Shape K V) × StoresOnly K.bytes 4 arena.old root s }
{
    match put_beside(arena, root, pair.0, pair.1) {
        Some(other) => takes_from_one(arena, root, other, bytes),
        None => false,
    }
}

//! The part of a tree with a prefix: room is made to cut it off, and it is left.
ghost use Rattle.std.specs.Prelude.{IfSome};
ghost use Rattle.art_arena.specs.arena.Arena.{SameNodes};
ghost use Rattle.art_arena.specs.arena.Shapes.{Shape};
ghost use Rattle.art_arena.specs.arena.Stores.{StoresOnly};
ghost use Rattle.art_operations.specs.Subtrees.{IsSubtreePoint};

use art_arena::{ArenaReader, NodeArena};
use art_bytes::AsBytes;
use art_nodes::OpaqueNodePtr;
use art_operations::{SubtreeDeletePoint, search_for_subtree_delete_point};
use std::alloc::AllocError;

/// The part with a prefix.
pub fn part_of<K: AsBytes, V, const PREFIX_LEN: usize>(
    arena: &NodeArena<K, V, PREFIX_LEN>,
    root: OpaqueNodePtr,
    prefix: &[u8],
) -> Option<SubtreeDeletePoint>
    requires { (s : Shape K V) × StoresOnly K.bytes PREFIX_LEN arena.now root s }
    ensures { IfSome result (λ point. (s : Shape K V) × StoresOnly K.bytes PREFIX_LEN arena.now point.root s
        × IsSubtreePoint K.bytes prefix.now s point) }
{
    let mut reader = ArenaReader::new(arena);
    search_for_subtree_delete_point(&mut reader, root, prefix)
}

/// Makes room for the cut of the part with a prefix, and leaves it. None where there is no such part.
pub fn leave<K: AsBytes, V, const PREFIX_LEN: usize>(
    arena: &mut NodeArena<K, V, PREFIX_LEN>,
    root: OpaqueNodePtr,
    prefix: &[u8],
) -> Option<Result<(), AllocError>>
    requires { (s : Shape K V) × StoresOnly K.bytes PREFIX_LEN arena.old root s }
    ensures { SameNodes arena.old arena.new }
{
    let Some(point) = part_of(arena, root, prefix) else {
        return None;
    };
    match point.prepare(arena) {
        Ok(prepared) => {
            prepared.abandon();
            Some(Ok(()))
        }
        Err(refused) => Some(Err(refused)),
    }
}

//! A caller of art_arena, which its README.md shows.

ghost use Rattle.std.specs.Prelude.{◌≡◌, Some, OnErr, IfOk};
ghost use Rattle.art_arena.specs.arena.Arena.{held_at, SameNodes};

use art_arena::{NodeArena, NodeRefused, Stored};
use art_nodes::NodePtr;

/// Stores a node, whatever its kind.
pub fn store<K, V, N: Stored<K, V, NodeArena<K, V, PREFIX_LEN>>, const PREFIX_LEN: usize>(
    arena: &mut NodeArena<K, V, PREFIX_LEN>,
    node: N,
) -> Result<NodePtr<N::Kind>, NodeRefused<N>>
    ensures there { IfOk result (λ slot. held_at arena.new (record { kind = N.Kind.TYPE; slot = slot })
        ≡ Some (N.held node)) }
    ensures kept { OnErr result (SameNodes arena.old arena.new) }
{
    arena.allocate_node_ptr(node)
}

//! The search for a key.
ghost use Rattle.std.specs.Prelude.{◌≡◌, ◌+◌, ◌-◌, ◌^◌, ◌≤◌, length, min, filter, IfSome};
ghost use Rattle.std.specs.Str.{bytes_eq};
ghost use Rattle.art_arena.specs.arena.Arena.{node_at};
ghost use Rattle.art_arena.specs.arena.Descents.{ReadsLookUp};
ghost use Rattle.art_arena.specs.arena.Found.{found_of, found_in, pair_found, IsAtKey};
ghost use Rattle.art_arena.specs.tree.Paths.{look_up_path};
ghost use Rattle.art_arena.specs.arena.Shapes.{Shape};
ghost use Rattle.art_arena.specs.arena.Steps.{steps_of};
ghost use Rattle.art_arena.specs.arena.Stores.{Stores, IsMeant};
ghost use Rattle.art_arena.specs.tree.Trees.{Tree, items};
ghost use Rattle.art_arena.specs.arena.Visited.{arena_of, count_of};

use crate::arena::LeafPtr;
use crate::descent::land;
use crate::path::TreePath;
use crate::reader::ArenaReader;
use art_bytes::AsBytes;
use art_nodes::OpaqueNodePtr;

/// A leaf that was found, and the last steps of the way to it.
#[derive(Clone, Copy, Debug)]
pub struct FoundLeaf {
    /// The leaf.
    pub leaf_node_ptr: LeafPtr,
    /// The inner nodes just above it.
    pub path: TreePath,
}

/// Finds the leaf with exactly this key in the canonical tree below a name: by a descent, and one comparison of what
/// that didn't compare. It reads nodes of the key's path, each once, up to one whose prefix, as it is stored, isn't the
/// key's there.
pub fn find_leaf<K: AsBytes, V, const PREFIX_LEN: usize>(
    reader: &mut ArenaReader<'_, K, V, PREFIX_LEN>,
    root: OpaqueNodePtr,
    key: &[u8],
) -> Option<FoundLeaf>
    requires { (s : Shape K V) × Stores K.bytes PREFIX_LEN (arena_of reader.old) root s }
    ensures value { (s : Shape K V) → Stores K.bytes PREFIX_LEN (arena_of reader.old) root s
        → found_of result ≡ found_in K.bytes key.now s }
    ensures place { (s : Shape K V) → Stores K.bytes PREFIX_LEN (arena_of reader.old) root s
        → IfSome result (λ found. IsAtKey K.bytes key.now s found.leaf_node_ptr (steps_of found.path)) }
    ensures pairs { (t : Tree (K × V))
        → IsMeant K.bytes PREFIX_LEN (arena_of reader.old) root t
        → pair_found (node_at (arena_of reader.old)) result ≡ filter (λ p. bytes_eq (K.bytes p.0) key.now) (items t) }
    ensures kept { arena_of reader.new ≡ arena_of reader.old }
    ensures counts { (t : Tree (K × V))
        → IsMeant K.bytes PREFIX_LEN (arena_of reader.old) root t
        → count_of reader.new ≡ min (count_of reader.old + length (look_up_path PREFIX_LEN t key.now)) (2 ^ 64 - 1) }
    ensures reads { (s : Shape K V) → Stores K.bytes PREFIX_LEN (arena_of reader.old) root s
        → ReadsLookUp PREFIX_LEN key.now s (count_of reader.old) (count_of reader.new) }
    ensures few { count_of reader.new ≤ count_of reader.old + (length key.now + 1) }
{
    match land(reader, root, key) {
        Some(landed) => {
            if landed.has_key(key) {
                return Some(FoundLeaf {
                    leaf_node_ptr: landed.name,
                    path: landed.path,
                });
            }
            None
        }
        None => None,
    }
}

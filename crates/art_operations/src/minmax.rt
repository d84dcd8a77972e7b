//! The first and the last leaf below a node.
ghost use Rattle.std.specs.Prelude.{◌≡◌, ◌+◌, ◌≤◌, Some, None, drop, length};
ghost use Rattle.art_arena.specs.arena.Shapes.{erase, leaves};
ghost use Rattle.art_arena.specs.arena.Linked.{first_slot, last_slot};
ghost use Rattle.art_arena.specs.arena.Stores.{StoresBelow};
ghost use Rattle.art_nodes.specs.declared.leaf.LeafNode.{LeafNode};
ghost use Rattle.art_operations.specs.Held.{HasLeaf};
ghost use Rattle.art_operations.specs.Lookups.{ReadsPath};
ghost use Rattle.art_operations.specs.Openings.{ForLongest, ReadsAtLeast, ReadsExactly};
ghost use Rattle.art_arena.specs.declared.ends.End.TheVariants.{First, Last};
ghost use Rattle.art_arena.specs.tree.Ways.{end_path};
ghost use Rattle.art_operations.specs.Whichever.{HasSome, OfEach};

use art_arena::{ArenaReader, End, LeafPtr, NodeArena, end_leaf_with};
use art_bytes::AsBytes;
use art_nodes::OpaqueNodePtr;

/// Returns the first leaf below a node: the one with the smallest key.
pub fn minimum_unchecked<K: AsBytes, V, const PREFIX_LEN: usize>(
    arena: &NodeArena<K, V, PREFIX_LEN>,
    root: OpaqueNodePtr,
) -> LeafPtr
    requires { HasSome (StoresBelow K.bytes PREFIX_LEN arena.now root) }
    ensures { OfEach (StoresBelow K.bytes PREFIX_LEN arena.now root)
        (λ path s. first_slot (leaves s) None ≡ Some result) }
{
    let mut reader = ArenaReader::new(arena);
    minimum_with(&mut reader, root)
}

/// Returns the last leaf below a node: the one with the greatest key.
pub fn maximum_unchecked<K: AsBytes, V, const PREFIX_LEN: usize>(
    arena: &NodeArena<K, V, PREFIX_LEN>,
    root: OpaqueNodePtr,
) -> LeafPtr
    requires { HasSome (StoresBelow K.bytes PREFIX_LEN arena.now root) }
    ensures { OfEach (StoresBelow K.bytes PREFIX_LEN arena.now root)
        (λ path s. last_slot None (leaves s) ≡ Some result) }
{
    let mut reader = ArenaReader::new(arena);
    maximum_with(&mut reader, root)
}

/// Returns what `minimum_unchecked` does, by a reader that counts each node that is read. These are the nodes of the
/// path of the leaf's key below the node, the leaf included. The count stays at the greatest number.
#[inline(always)]
pub fn minimum_with<K: AsBytes, V, const PREFIX_LEN: usize>(
    reader: &mut ArenaReader<'_, K, V, PREFIX_LEN>,
    root: OpaqueNodePtr,
) -> LeafPtr
    requires { HasSome (StoresBelow K.bytes PREFIX_LEN reader.old.arena.now root) }
    ensures value { OfEach (StoresBelow K.bytes PREFIX_LEN reader.old.arena.now root)
        (λ path s. first_slot (leaves s) None ≡ Some result) }
    ensures kept { reader.new.arena.now ≡ reader.old.arena.now }
    ensures counts { OfEach (StoresBelow K.bytes PREFIX_LEN reader.old.arena.now root)
        (λ path s. (l : LeafNode K V) → HasLeaf reader.old.arena.now result l
        → ReadsPath (drop (length path) (K.bytes l.key)) s reader.old.count reader.new.count) }
    ensures exact { OfEach (StoresBelow K.bytes PREFIX_LEN reader.old.arena.now root)
        (λ path s. ReadsExactly (length (end_path First (erase s))) reader.old.count reader.new.count) }
    ensures least { ReadsAtLeast 1 reader.old.count reader.new.count }
    ensures few { OfEach (StoresBelow K.bytes PREFIX_LEN reader.old.arena.now root)
        (λ path s. ForLongest K.bytes s (λ longest. reader.new.count ≤ reader.old.count + (longest + 1))) }
{
    end_leaf_with(reader, root, End::First).name
}

/// Returns what `maximum_unchecked` does, by a reader that counts each node that is read. These are the nodes of the
/// path of the leaf's key below the node, the leaf included. The count stays at the greatest number.
#[inline(always)]
pub fn maximum_with<K: AsBytes, V, const PREFIX_LEN: usize>(
    reader: &mut ArenaReader<'_, K, V, PREFIX_LEN>,
    root: OpaqueNodePtr,
) -> LeafPtr
    requires { HasSome (StoresBelow K.bytes PREFIX_LEN reader.old.arena.now root) }
    ensures value { OfEach (StoresBelow K.bytes PREFIX_LEN reader.old.arena.now root)
        (λ path s. last_slot None (leaves s) ≡ Some result) }
    ensures kept { reader.new.arena.now ≡ reader.old.arena.now }
    ensures counts { OfEach (StoresBelow K.bytes PREFIX_LEN reader.old.arena.now root)
        (λ path s. (l : LeafNode K V) → HasLeaf reader.old.arena.now result l
        → ReadsPath (drop (length path) (K.bytes l.key)) s reader.old.count reader.new.count) }
    ensures exact { OfEach (StoresBelow K.bytes PREFIX_LEN reader.old.arena.now root)
        (λ path s. ReadsExactly (length (end_path Last (erase s))) reader.old.count reader.new.count) }
    ensures least { ReadsAtLeast 1 reader.old.count reader.new.count }
    ensures few { OfEach (StoresBelow K.bytes PREFIX_LEN reader.old.arena.now root)
        (λ path s. ForLongest K.bytes s (λ longest. reader.new.count ≤ reader.old.count + (longest + 1))) }
{
    end_leaf_with(reader, root, End::Last).name
}

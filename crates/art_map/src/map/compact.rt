//! `compact`: all nodes are made anew, in the order of the keys.
ghost use Rattle.std.specs.Prelude.{◌≡◌, ◌<◌, ◌^◌, [], length, IfOk, IsOk, OnErr, OnOk};
ghost use Rattle.art_nodes.specs.declared.kind.NodeType.TheVariants.{Leaf};
ghost use Rattle.art_arena.specs.arena.Arena.{HasNoRoom, HasRoomOf, IsTrimmed};
ghost use Rattle.art_arena.specs.arena.Shapes.{key_of};
ghost use Rattle.art_arena.specs.tree.Order.{AscendsByKey};
ghost use Rattle.art_operations.specs.Builders.{Builds, HasRoomToPush};

use crate::map::TreeMap;
use crate::map::room::nodes_fit;
use art_arena::NodeArena;
use art_bytes::AsBytes;
use art_nodes::NodeType;
use art_operations::TreeBuilder;
use art_walks::IntoIter;
use std::alloc::{AllocError, Global};
use std::mem;

impl<K: AsBytes, V, const PREFIX_LEN: usize> TreeMap<K, V, PREFIX_LEN> {
    /// Makes all nodes anew in the order of the keys, and gives the memory back that they don't need. So a walk finds
    /// each leaf beside the one before it, and costs a fraction of what it costs where keys came in random order. Each
    /// leaf has a new name.
    ///
    /// It costs about as much as to build the map of its pairs in order. Meanwhile the old nodes and the new ones are
    /// there, with room for as many inner nodes as a tree of so many leaves can have. A map that doesn't change any
    /// more is compacted once, before it is read.
    ///
    /// Fails if there is no memory for the new nodes, all of which is allocated first. The map is unchanged then, each
    /// name and all room too. An empty map allocates nothing, gives back what it has, and can't
    /// fail.
    ///
    /// ```
    /// let mut map = TreeMap::new(rt.alloc());
    /// map.extend([(*b"ef", 3), (*b"ab", 1), (*b"cd", 2)])?;
    /// map.compact()?;
    /// assert!(rt; map.iter().eq([(b"ab", &1), (b"cd", &2), (b"ef", &3)]));
    /// ```
    pub fn compact(&mut self) -> Result<(), AllocError>
    where
        K: Drop,
        V: Drop,
        ensures pairs { self.new.pairs ≡ self.old.pairs }
        ensures trimmed { OnOk result (PREFIX_LEN < 2 ^ 62 → IsTrimmed self.new.nodes) }
        ensures err { OnErr result (self.new ≡ self.old) }
        ensures empty { self.old.pairs ≡ [] → IsOk result }
        ensures no_room { self.old.pairs ≡ [] → HasNoRoom self.new.nodes }
    {
        if self.is_empty() {
            self.shrink_to_fit();
            return Ok(());
        }
        if !nodes_fit::<PREFIX_LEN>() {
            return Err(AllocError);
        }
        let (arena, builder) = reserve_tree(self.alloc, self.len())?;
        self.move_into(arena, builder);
        Ok(())
    }

    // Moves all pairs into the tree of a builder, for which memory was allocated. The old nodes are dropped, and room
    // that the new ones don't need goes back.
    fn move_into(&mut self, arena: NodeArena<K, V, PREFIX_LEN>, builder: TreeBuilder)
    where
        K: Drop,
        V: Drop,
        requires fits { PREFIX_LEN < 2 ^ 62 }
        requires none { Builds K.bytes PREFIX_LEN arena builder [] }
        requires places { HasRoomToPush builder (length self.old.pairs) }
        requires leaves { HasRoomOf arena Leaf (length self.old.pairs) }
        ensures pairs { self.new.pairs ≡ self.old.pairs }
        ensures trimmed { IsTrimmed self.new.nodes }
    {
        let empty = TreeMap::with_prefix_len(self.alloc);
        *self = mem::replace(self, empty).moved_into(arena, builder);
        self.shrink_to_fit();
    }

    // The map of the same pairs in the tree of a builder, for which memory was allocated.
    fn moved_into(self, arena: NodeArena<K, V, PREFIX_LEN>, builder: TreeBuilder) -> Self
    where
        K: Drop,
        V: Drop,
        requires fits { PREFIX_LEN < 2 ^ 62 }
        requires none { Builds K.bytes PREFIX_LEN arena builder [] }
        requires places { HasRoomToPush builder (length self.pairs) }
        requires leaves { HasRoomOf arena Leaf (length self.pairs) }
        ensures pairs { result.pairs ≡ self.pairs }
    {
        // Tells that the pairs ascend.
        let (_nodes, _root) = self.nodes();
        let alloc = self.alloc;
        let mut arena = arena;
        let mut builder = builder;
        push_all(&mut arena, &mut builder, self.into_iter());
        TreeMap::of_tree(alloc, arena, builder)
    }
}

// An empty arena and a builder over it, with memory for a tree of so many leaves.
fn reserve_tree<K: AsBytes + Drop, V: Drop, const PREFIX_LEN: usize>(
    alloc: Global,
    leaves: usize,
) -> Result<(NodeArena<K, V, PREFIX_LEN>, TreeBuilder), AllocError>
    requires fits { PREFIX_LEN < 2 ^ 62 }
    ensures none { IfOk result (λ tree. Builds K.bytes PREFIX_LEN tree.0 tree.1 []) }
    ensures places { IfOk result (λ tree. HasRoomToPush tree.1 leaves) }
    ensures leaves { IfOk result (λ tree. HasRoomOf tree.0 Leaf leaves) }
{
    let mut arena = NodeArena::new(alloc);
    let mut builder = TreeBuilder::new(alloc);
    arena.reserve_kind(NodeType::Leaf, leaves)?;
    builder.reserve(&mut arena, leaves)?;
    Ok((arena, builder))
}

// Takes ascending pairs, the first ones of a tree. All memory was allocated.
fn push_all<K: AsBytes + Drop, V: Drop, const PREFIX_LEN: usize>(
    arena: &mut NodeArena<K, V, PREFIX_LEN>,
    builder: &mut TreeBuilder,
    mut pairs: IntoIter<K, V, PREFIX_LEN>,
)
    requires none { Builds K.bytes PREFIX_LEN arena.old builder.old [] }
    requires ordered { AscendsByKey (key_of K.bytes) pairs }
    requires places { HasRoomToPush builder.old (length pairs) }
    requires leaves { HasRoomOf arena.old Leaf (length pairs) }
    ensures built { Builds K.bytes PREFIX_LEN arena.new builder.new pairs }
{
    while let Some((key, value)) = pairs.next() {
        match builder.push(arena, key, value) {
            Ok(()) => {}
            Err(_) => unreachable!(),
        }
    }
}

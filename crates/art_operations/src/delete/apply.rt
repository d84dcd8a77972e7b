//! A leaf is removed from a tree.
ghost use Rattle.std.specs.Prelude.{◌≡◌, List, None, IfOk, IsOk, OnErr, OnOk};
ghost use Rattle.art_nodes.specs.Name.{Name};
ghost use Rattle.art_arena.specs.arena.Arena.{HasRoom, KeepsNodes, KeepsRoomOf, SameNodes, UsesRoom};
ghost use Rattle.art_arena.specs.arena.Cells.{Cell};
ghost use Rattle.art_arena.specs.arena.Shapes.{Shape, leaves};
ghost use Rattle.art_arena.specs.tree.Shrinks.{Shrinks};
ghost use Rattle.art_arena.specs.arena.Steps.{steps_of};
ghost use Rattle.art_arena.specs.arena.Rooms.{FreesRoomOf};
ghost use Rattle.art_nodes.specs.declared.kind.NodeType.TheVariants.{Leaf};
ghost use Rattle.art_operations.specs.DeletePoints.{IsLeafPlace};
ghost use Rattle.art_operations.specs.Deletions.{IsDeletedBeside};
ghost use Rattle.art_arena.specs.arena.Stores.{StoresBeside};
ghost use Rattle.art_operations.specs.Whichever.{HasTreeWhere, OfTreeWhere};

use crate::delete::detach::detach;
use crate::delete::point::DeletePoint;
use crate::delete::result::DeleteResult;
use art_arena::NodeArena;
use art_arena::links::remove_self;
use art_bytes::AsBytes;
use art_nodes::{LeafNode, OpaqueNodePtr};
use std::alloc::AllocError;

impl DeletePoint {
    /// Removes its leaf from the tree below this root, in which it was found. Returns the leaf, with open ends, and the
    /// root of what is left. Whatever stands beside the tree is unchanged.
    ///
    /// Fails only if the removal turns a node into one of the next smaller kind, and there is no memory for that one.
    /// The arena is unchanged then. A node that is left with one child needs no memory to go.
    pub fn apply<K: AsBytes, V, const PREFIX_LEN: usize>(
        self,
        arena: &mut NodeArena<K, V, PREFIX_LEN>,
        root: OpaqueNodePtr,
    ) -> Result<DeleteResult<K, V>, AllocError>
        requires { HasTreeWhere K.bytes PREFIX_LEN arena.old root
            (λ s. IsLeafPlace K.bytes s self.leaf_node_ptr (steps_of self.path)) }
        ensures ok { IfOk result (λ deleted. OfTreeWhere K.bytes PREFIX_LEN arena.old root
            (λ s. IsLeafPlace K.bytes s self.leaf_node_ptr (steps_of self.path))
            (λ s rest. IsDeletedBeside K.bytes PREFIX_LEN arena.new rest s self.leaf_node_ptr deleted)) }
        ensures open { IfOk result (λ deleted.
            (deleted.deleted_leaf.previous ≡ None) × (deleted.deleted_leaf.next ≡ None)) }
        ensures others { IfOk result (λ deleted. OfTreeWhere K.bytes PREFIX_LEN arena.old root
            (λ s. IsLeafPlace K.bytes s self.leaf_node_ptr (steps_of self.path))
            (λ s rest. KeepsNodes rest arena.old arena.new)) }
        ensures err { OnErr result (SameNodes arena.old arena.new) }
        ensures shrinks { OnErr result ((s : Shape K V) (rest : List (Name × Cell K V))
            → StoresBeside K.bytes PREFIX_LEN arena.old root rest s
            → (place : IsLeafPlace K.bytes s self.leaf_node_ptr (steps_of self.path))
            → Shrinks (λ l. K.bytes l.key) (leaves s) (K.bytes place.key)) }
        ensures succeeds { HasRoom arena.old 1 → IsOk result }
        ensures room { UsesRoom 1 arena.old arena.new }
        ensures leaf_room { OnOk result (FreesRoomOf Leaf arena.old arena.new) }
        ensures kept_room { OnErr result (KeepsRoomOf arena.old arena.new) }
    {
        let DeletePoint {
            path,
            leaf_node_ptr: leaf,
        } = self;
        let new_root = detach(arena, root, path, leaf.to_opaque())?;
        remove_self(arena, leaf);
        let mut deleted_leaf = arena.deallocate_node_ptr::<LeafNode<K, V>>(leaf);
        deleted_leaf.set_previous(None);
        deleted_leaf.set_next(None);
        Ok(DeleteResult {
            new_root,
            deleted_leaf,
        })
    }
}

//! The change of a tree that inserts a new key.
ghost use Rattle.std.specs.Prelude.{◌≡◌, ℕ, IfOk, OnErr, IsOk};
ghost use Rattle.art_arena.specs.arena.Arena.{HasRoom, KeepsNodes, KeepsRoomOf, SameNodes, UsesRoom};
ghost use Rattle.art_arena.specs.arena.Steps.{steps_of};
ghost use Rattle.art_operations.specs.Frees.{SwapsLeaves};
ghost use Rattle.art_operations.specs.Insertions.{HandsPairBack, IsInsertedBeside, replaced_by};
ghost use Rattle.art_operations.specs.Points.{IsPoint};
ghost use Rattle.art_operations.specs.declared.insert.point.InsertKind.TheVariants as kind;
ghost use Rattle.art_operations.specs.Whichever.{HasTreeWhere, OfTreeWhere};

use crate::insert::exact::replace_pair;
use crate::insert::into_existing::insert_into_existing;
use crate::insert::point::{InsertKind, InsertPoint};
use crate::insert::result::{InsertRefused, InsertResult};
use crate::insert::split::split;
use art_arena::NodeArena;
use art_bytes::AsBytes;

impl InsertPoint {
    /// Inserts a key and its value at the key's place, which was found by `search_for_insert_point` in this tree.
    /// Whatever stands beside the tree is unchanged.
    ///
    /// If a leaf has the key already, it takes the new key and value, and the result has what it had. This allocates
    /// nothing and never fails. Otherwise a leaf is made, and at most one inner node. Fails if there is no memory for
    /// them: the error returns the key and the value, and the tree is unchanged.
    #[inline(always)]
    pub fn apply<K: AsBytes, V, const PREFIX_LEN: usize>(
        self,
        arena: &mut NodeArena<K, V, PREFIX_LEN>,
        key: K,
        value: V,
    ) -> Result<InsertResult<K, V>, InsertRefused<K, V>>
        requires { HasTreeWhere K.bytes PREFIX_LEN arena.old self.root (λ s. IsPoint K.bytes (K.bytes key) s self) }
        ensures ok { IfOk result (λ inserted. OfTreeWhere K.bytes PREFIX_LEN arena.old self.root
            (λ s. IsPoint K.bytes (K.bytes key) s self)
            (λ s rest. IsInsertedBeside K.bytes PREFIX_LEN arena.new rest s (steps_of self.path) key value inserted)) }
        ensures others { IfOk result (λ inserted. OfTreeWhere K.bytes PREFIX_LEN arena.old self.root
            (λ s. IsPoint K.bytes (K.bytes key) s self) (λ s rest. KeepsNodes rest arena.old arena.new)) }
        ensures err { OnErr result (SameNodes arena.old arena.new) }
        ensures handed_back { HandsPairBack key value result }
        ensures exact { (leaf : ℕ) → self.insert_kind ≡ kind.Exact leaf → IsOk result }
        ensures succeeds { HasRoom arena.old 2 → IsOk result }
        ensures room { UsesRoom 2 arena.old arena.new }
        ensures leaf_room { IfOk result (λ inserted. SwapsLeaves 1 (replaced_by inserted) arena.old arena.new) }
        ensures kept_room { OnErr result (KeepsRoomOf arena.old arena.new) }
        ensures exact_room { (leaf : ℕ) → self.insert_kind ≡ kind.Exact leaf → KeepsRoomOf arena.old arena.new }
    {
        let kind = self.insert_kind;
        match kind {
            InsertKind::MismatchPrefix {
                inner_node_ptr,
                parted,
            } => split(arena, self, inner_node_ptr, parted, key, value),
            InsertKind::SplitLeaf {
                leaf_node_ptr,
                parted,
            } => split(arena, self, leaf_node_ptr.to_opaque(), parted, key, value),
            InsertKind::IntoExisting {
                inner_node_ptr,
                key_byte,
            } => insert_into_existing(arena, self, inner_node_ptr, key_byte, key, value),
            InsertKind::Exact { leaf_node_ptr } => {
                Ok(replace_pair(arena, self, leaf_node_ptr, key, value))
            }
        }
    }
}

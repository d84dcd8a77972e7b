//! A tree that is built of ascending pairs, each of which goes after the last. An inner node is made once, when no
//! child of it can come any more. So it has the kind of its children's number at once, and no place is looked for. A
//! builder may go on from a tree: what stands on the way to its last leaf is then to be made once more.
ghost use Rattle.std.specs.Prelude.{◌≡◌, ◌≤◌, ◌+◌, ◌∷◌, ◌++◌, ℕ, suc, List, [], None, IfErr, IsOk, OnErr, OnOk};
ghost use Rattle.art_nodes.specs.declared.kind.NodeType.TheVariants.{Leaf};
ghost use Rattle.art_arena.specs.arena.Arena.{HasRoom, HasRoomOf, KeepsRoomOf, SameNodes};
ghost use Rattle.art_arena.specs.arena.Rooms.{SameLeaves};
ghost use Rattle.art_operations.specs.Builders.{Builds, IsAfterAll, HasRoomBeside, HasRoomToPush};
ghost use Rattle.art_operations.specs.Builders.{IsPushRefused};
ghost use Rattle.art_operations.specs.LeafNames.{HasLeavesOf};
ghost use Rattle.art_operations.specs.Pairs.{HasPairs};
ghost use Rattle.art_operations.specs.Rebuilds.{KeepsLeafRoom};
ghost use Rattle.art_operations.specs.inner.Spines.{IsEmptySpine};

mod made;
mod over_leaves;
mod reopen;
mod spine;

use crate::build::spine::{Spine, close, pass_at};
use crate::leaf_list::store_last;
use crate::meeting::{Meeting, meet};
use art_arena::{LeafPtr, NodeArena};
use art_bytes::AsBytes;
use art_nodes::OpaqueNodePtr;
pub use over_leaves::{SpineRoom, keep_leaves, rebuild};
use std::alloc::{AllocError, Global};
use thiserror::Error;

// For so many pairs room is made at once, or for as many as there are.
const MOST_AT_ONCE: usize = 32;

/// A tree in the making, in an arena of its own. Its pairs ascend, and each new one goes after the last.
#[derive(Drop)]
pub struct TreeBuilder {
    spine: Spine,
    last: Option<LeafPtr>,
    // For so many leaves there is room in the spine and for inner nodes, the last leaf among them.
    room: usize,
}

/// Why a pair was not taken. The error returns it.
#[derive(Debug, Drop, Error)]
pub enum PushRefused<K, V> {
    /// The key doesn't go after the last: it comes before it, has its bytes, or one of both is a prefix of the other.
    #[error("the key doesn't go after the last one")]
    NotAfter {
        /// The key.
        key: K,
        /// The value.
        value: V,
    },
    /// The call was out of memory.
    #[error("no memory for a leaf, or for an inner node above it")]
    Memory {
        /// The key.
        key: K,
        /// The value.
        value: V,
    },
}

impl TreeBuilder {
    /// Makes a builder that has no pair. It allocates nothing.
    pub fn new(alloc: Global) -> Self
        ensures spine { IsEmptySpine result.spine }
        ensures last { result.last ≡ None }
        ensures room { result.room ≡ 0 }
    {
        TreeBuilder {
            spine: Spine::new(alloc),
            last: None,
            room: 0,
        }
    }

    /// Takes a pair, whose key must go after the last one: from each key it must part, and go on by a greater byte.
    ///
    /// Fails if it doesn't, or if out of memory. The error returns the pair, and nothing changed: the builder has the
    /// pairs that it had, and room stays. The first pair is always taken if the arena has room for its leaf. So is each
    /// other that goes after the last, if `reserve` made room for it, too. A pair that is taken uses the room of one.
    pub fn push<K: AsBytes + Drop, V: Drop, const PREFIX_LEN: usize>(
        &mut self,
        arena: &mut NodeArena<K, V, PREFIX_LEN>,
        key: K,
        value: V,
    ) -> Result<(), PushRefused<K, V>>
        requires { (pairs : List (K × V)) × Builds K.bytes PREFIX_LEN arena.old self.old pairs }
        ensures ok { OnOk result ((pairs : List (K × V)) → Builds K.bytes PREFIX_LEN arena.old self.old pairs
            → Builds K.bytes PREFIX_LEN arena.new self.new (pairs ++ (key, value) ∷ [])) }
        ensures refused { IfErr result (λ e. (pairs : List (K × V)) → Builds K.bytes PREFIX_LEN arena.old self.old pairs
            → IsPushRefused key value (IsAfterAll K.bytes (K.bytes key) pairs) e) }
        ensures kept { OnErr result (SameNodes arena.old arena.new) }
        ensures left { OnErr result ((pairs : List (K × V)) → Builds K.bytes PREFIX_LEN arena.old self.old pairs
            → Builds K.bytes PREFIX_LEN arena.new self.new pairs) }
        ensures names { HasLeavesOf K.bytes arena.new arena.old }
        ensures succeeds { self.old.last ≡ None → HasRoomOf arena.old Leaf 1 → IsOk result }
        ensures with_room { HasRoomToPush self.old 1 → HasRoomOf arena.old Leaf 1 → (pairs : List (K × V))
            → Builds K.bytes PREFIX_LEN arena.old self.old pairs → IsAfterAll K.bytes (K.bytes key) pairs
            → IsOk result }
        ensures uses { OnOk result ((n : ℕ) → HasRoomToPush self.old (suc n) → HasRoomToPush self.new n) }
        ensures room { (n : ℕ) → HasRoomBeside arena.old self.old (n + 2) → HasRoomBeside arena.new self.new n }
        ensures kept_room { OnErr result ((n : ℕ) → 1 ≤ n → HasRoomBeside arena.old self.old n
            → HasRoomBeside arena.new self.new n) }
        ensures kept_places { OnErr result ((n : ℕ) → HasRoomToPush self.old n → HasRoomToPush self.new n) }
        ensures room_of { OnErr result (KeepsRoomOf arena.old arena.new) }
        ensures leaf_room { (n : ℕ) → HasRoomOf arena.old Leaf (n + 1) → HasRoomOf arena.new Leaf n }
    {
        let Some(last) = self.last else {
            return match store_last(arena, None, key, value) {
                Ok(first) => {
                    self.last = Some(first);
                    Ok(())
                }
                Err(refused) => Err(PushRefused::Memory {
                    key: refused.key,
                    value: refused.value,
                }),
            };
        };
        let met = meet(arena.as_key_ref(last).as_bytes(), key.as_bytes());
        let Meeting::Parts(parted) = met else {
            return Err(PushRefused::NotAfter { key, value });
        };
        if parted.new_byte < parted.old_byte {
            return Err(PushRefused::NotAfter { key, value });
        }
        let Ok(()) = self.reserve_one(arena) else {
            return Err(PushRefused::Memory { key, value });
        };
        match store_last(arena, Some(last), key, value) {
            Ok(leaf) => {
                pass_at(arena, &mut self.spine, last, leaf, parted);
                self.last = Some(leaf);
                self.room -= 1;
                Ok(())
            }
            Err(refused) => Err(PushRefused::Memory {
                key: refused.key,
                value: refused.value,
            }),
        }
    }

    // Makes room for a pair after the last one, its leaf aside, where there is none.
    fn reserve_one<K: AsBytes, V, const PREFIX_LEN: usize>(
        &mut self,
        arena: &mut NodeArena<K, V, PREFIX_LEN>,
    ) -> Result<(), AllocError>
        ensures ok { OnOk result (HasRoomToPush self.new 1) }
        ensures succeeds { HasRoomToPush self.old 1 → IsOk result }
        ensures last { self.new.last ≡ self.old.last }
        ensures kept { SameNodes arena.old arena.new }
        ensures left { (pairs : List (K × V)) → Builds K.bytes PREFIX_LEN arena.old self.old pairs
            → Builds K.bytes PREFIX_LEN arena.new self.new pairs }
        ensures kept_room { (n : ℕ) → HasRoomToPush self.old n → HasRoomToPush self.new n }
        ensures beside { (n : ℕ) → HasRoomBeside arena.old self.old n → HasRoomBeside arena.new self.new n }
        ensures room_of { KeepsRoomOf arena.old arena.new }
    {
        if self.room >= 2 {
            return Ok(());
        }
        let more = arena.leaf_count().clamp(1, MOST_AT_ONCE);
        self.reserve(arena, more)
    }

    /// Allocates what so many more pairs need beside their leaves: inner nodes, and places to note what is open. While
    /// there is room for one, `push` is out of memory only if the arena has no room for a leaf.
    ///
    /// Fails only if there is no room for so many, and no memory. Either way no node changes, and room stays.
    pub fn reserve<K: AsBytes, V, const PREFIX_LEN: usize>(
        &mut self,
        arena: &mut NodeArena<K, V, PREFIX_LEN>,
        additional: usize,
    ) -> Result<(), AllocError>
        ensures room { OnOk result (HasRoomToPush self.new additional) }
        ensures succeeds { HasRoomToPush self.old additional → IsOk result }
        ensures last { self.new.last ≡ self.old.last }
        ensures kept { SameNodes arena.old arena.new }
        ensures left { (pairs : List (K × V)) → Builds K.bytes PREFIX_LEN arena.old self.old pairs
            → Builds K.bytes PREFIX_LEN arena.new self.new pairs }
        ensures kept_room { (n : ℕ) → HasRoomToPush self.old n → HasRoomToPush self.new n }
        ensures beside { (n : ℕ) → HasRoomBeside arena.old self.old n → HasRoomBeside arena.new self.new n }
        ensures room_of { KeepsRoomOf arena.old arena.new }
    {
        if additional < self.room {
            return Ok(());
        }
        // Among the leaves that the room is for is the last one.
        let Some(room) = additional.checked_add(1) else {
            return Err(AllocError);
        };
        self.spine.reserve(arena, room)?;
        self.room = room;
        Ok(())
    }

    /// Makes the nodes that are still open, and returns the name of the root, or `None` if no pair was taken. The arena
    /// then has the tree of the pairs, as insertions would make it. No leaf changes.
    ///
    /// It never fails, and allocates nothing.
    pub fn finish<K: AsBytes + Drop, V: Drop, const PREFIX_LEN: usize>(
        self,
        arena: &mut NodeArena<K, V, PREFIX_LEN>,
    ) -> Option<OpaqueNodePtr>
        requires { (pairs : List (K × V)) × Builds K.bytes PREFIX_LEN arena.old self pairs }
        ensures tree { (pairs : List (K × V)) → Builds K.bytes PREFIX_LEN arena.old self pairs
            → HasPairs K.bytes PREFIX_LEN arena.new result pairs }
        ensures leaves { SameLeaves arena.old arena.new }
        ensures room { (n : ℕ) → HasRoomBeside arena.old self n → HasRoom arena.new n }
        ensures leaf_room { KeepsLeafRoom arena.old arena.new }
    {
        let Some(last) = self.last else {
            return None;
        };
        if self.room == 0 {
            return Some(last.to_opaque());
        }
        let mut spine = self.spine;
        let Ok(root) = close(arena, &mut spine, last, 0) else {
            unreachable!();
        };
        Some(root)
    }
}

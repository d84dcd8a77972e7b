//! Whether the leaves that were met are linked in order, with open ends.
ghost use Rattle.std.specs.Prelude.{◌≡◌, Some, None, IsSome};
ghost use Rattle.std.specs.Bool.{MatchBool};
ghost use Rattle.std.specs.List.{AllByRecursion};
ghost use Rattle.art_arena.specs.arena.Arena.{held_at, links_at};
ghost use Rattle.art_walks.specs.inner.Slots.{AreLinkedSlots, IsAfter, leaf_slots};

use art_arena::{LeafPtr, NodeArena};
use art_nodes::{KindLeaf, LeafNode, OpaqueNodePtr};

// The leaf that was seen last, and the one that it is linked to.
#[derive(Clone, Copy)]
pub(crate) struct Last {
    pub(crate) leaf: LeafPtr,
    pub(crate) next: Option<LeafPtr>,
}

// Whether the leaves among these names are linked in their order, with open ends.
pub(crate) fn leaves_linked<K, V, const PREFIX_LEN: usize>(
    arena: &NodeArena<K, V, PREFIX_LEN>,
    names: &[OpaqueNodePtr],
) -> bool
    requires { AllByRecursion (λ n. IsSome (held_at arena.now n)) names.now }
    ensures { MatchBool result (AreLinkedSlots (links_at arena.now) None (leaf_slots names.now) None)
        (AreLinkedSlots (links_at arena.now) None (leaf_slots names.now) None → ⊥) }
{
    let mut last: Option<Last> = None;
    for name in names {
        let Some(leaf) = name.cast::<KindLeaf>() else {
            continue;
        };
        let node = arena.as_ref::<LeafNode<K, V>>(leaf);
        let next = node.next();
        if !is_after(last, leaf, node.previous()) {
            return false;
        }
        last = Some(Last { leaf, next });
    }
    match last {
        Some(last) => last.next.is_none(),
        None => true,
    }
}

// Whether a leaf with this link back stands after the last one.
fn is_after(last: Option<Last>, leaf: LeafPtr, previous: Option<LeafPtr>) -> bool
    ensures { MatchBool result (IsAfter last leaf previous) (IsAfter last leaf previous → ⊥) }
{
    match last {
        None => previous.is_none(),
        Some(last) => {
            if previous != Some(last.leaf) {
                return false;
            }
            last.next == Some(leaf)
        }
    }
}

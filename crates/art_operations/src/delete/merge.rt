//! A node of two children loses one, and the other one takes its place.
ghost use Rattle.std.specs.Prelude.{◌≡◌, ◌≢◌, ◌<◌, ◌+◌, ◌^◌, ℕ, List, ◌∷◌, ◌++◌, Some, None, length, take};
ghost use Rattle.art_nodes.specs.InnerNode as node;
ghost use Rattle.art_nodes.specs.Name.{Name};
ghost use Rattle.art_arena.specs.arena.Arena.{Arena, held_at, KeepsRoom, KeepsRoomOf};
ghost use Rattle.art_arena.specs.arena.Cells.{UpdatesAt};
ghost use Rattle.art_arena.specs.arena.Shapes.{Shape};
ghost use Rattle.art_operations.specs.inner.Removals.{IsOther, Lengthens};
ghost use Rattle.art_arena.specs.arena.Stores.{StoresBelow};
ghost use Rattle.art_operations.specs.Held.{HasInner};

use art_arena::{NodeArena, NodeEdit, first_leaf};
use art_bytes::AsBytes;
use art_nodes::{Header, KindLeaf, NodeType, OpaqueNodePtr};

// The only other child of a node of two, with its byte.
fn other_child<K, V, const PREFIX_LEN: usize>(
    arena: &NodeArena<K, V, PREFIX_LEN>,
    parent: OpaqueNodePtr,
    byte: u8,
) -> (u8, OpaqueNodePtr)
    requires inner { parent.kind ≢ NodeType.Leaf }
    requires two { (n : node.InnerNode) × (other : ℕ × Name) × HasInner arena.now parent n
        × IsOther n.children byte other }
    ensures { (n : node.InnerNode) (other : ℕ × Name) → HasInner arena.now parent n → IsOther n.children byte other
        → result ≡ other }
{
    let inner = arena.inner(parent);
    match inner.first_child() {
        Some(first) => {
            if first.0 != byte {
                return first;
            }
        }
        None => unreachable!(),
    }
    match inner.last_child() {
        Some(last) => last,
        None => unreachable!(),
    }
}

// The prefix of the first header, the byte and the prefix of the second one, in one header of no children.
fn joined_prefix<const PREFIX_LEN: usize>(
    above: &Header<PREFIX_LEN>,
    byte: u8,
    below: &Header<PREFIX_LEN>,
) -> Header<PREFIX_LEN>
    requires fits { above.now.prefix_len + 1 + below.now.prefix_len < 2 ^ 64 }
    ensures { result ≡ record {
      num_children = 0;
      prefix_len = above.now.prefix_len + 1 + below.now.prefix_len;
      stored = take PREFIX_LEN (above.now.stored ++ byte ∷ below.now.stored);
    } }
{
    // The counts tell how much of each prefix is stored.
    let _above = above.num_children();
    let _below = below.num_children();
    let mut prefix = above.without_children();
    prefix.push_prefix(&[byte], 1);
    prefix.push_prefix(below.read_prefix(), below.prefix_len());
    prefix
}

// Tells that the prefix of a node, a byte and the prefix of its child are no longer together than a slice, since a key
// below begins with them.
fn prefixes_fit<K: AsBytes, V, const PREFIX_LEN: usize>(
    arena: &NodeArena<K, V, PREFIX_LEN>,
    len: usize,
    child: OpaqueNodePtr,
)
    requires inner { child.kind ≢ NodeType.Leaf }
    requires stored { (path : List ℕ) × (s : Shape K V) × StoresBelow K.bytes PREFIX_LEN arena.now child path s
        × (len < length path) }
    ensures { (n : node.InnerNode) → HasInner arena.now child n → len + 1 + n.header.prefix_len < 2 ^ 64 }
{
    let below = arena.inner(child).prefix_len();
    if len <= PREFIX_LEN {
        if below <= PREFIX_LEN {
            return;
        }
    }
    let leaf = first_leaf(arena, child);
    let _key = arena.as_key_ref(leaf).as_bytes();
}

// Puts the prefix of a node and a byte in front of the prefix of its child under the byte, unless that is a leaf.
fn lengthen<K: AsBytes, V, const PREFIX_LEN: usize>(
    arena: &mut NodeArena<K, V, PREFIX_LEN>,
    parent: OpaqueNodePtr,
    byte: u8,
    child: OpaqueNodePtr,
)
    requires inner { parent.kind ≢ NodeType.Leaf }
    requires held { (n : node.InnerNode) × HasInner arena.old parent n
        × (path : List ℕ) × (s : Shape K V) × StoresBelow K.bytes PREFIX_LEN arena.old child path s
        × (n.header.prefix_len < length path) }
    ensures lengthens { (n : node.InnerNode) → HasInner arena.old parent n
        → Lengthens PREFIX_LEN arena.old arena.new n byte child }
    ensures room { KeepsRoom arena.old arena.new }
    ensures room_of { KeepsRoomOf arena.old arena.new }
{
    if child.is::<KindLeaf>() {
        return;
    }
    let above = arena.inner(parent).header();
    prefixes_fit(arena, above.prefix_len(), child);
    let header = joined_prefix(above, byte, arena.inner(child).header());
    arena.edit_inner(child, &NodeEdit::CopyPrefix { header: &header });
}

/// Drops a node of two children without the one under a byte. It returns the other one, which can take its place.
pub(crate) fn merge<K: AsBytes, V, const PREFIX_LEN: usize>(
    arena: &mut NodeArena<K, V, PREFIX_LEN>,
    parent: OpaqueNodePtr,
    byte: u8,
) -> OpaqueNodePtr
    requires inner { parent.kind ≢ NodeType.Leaf }
    requires two { (n : node.InnerNode) × (other : ℕ × Name) × HasInner arena.old parent n
        × IsOther n.children byte other
        × (path : List ℕ) × (s : Shape K V) × StoresBelow K.bytes PREFIX_LEN arena.old other.1 path s
        × (n.header.prefix_len < length path) × (other.1 ≢ parent) }
    ensures value { (n : node.InnerNode) (other : ℕ × Name) → HasInner arena.old parent n
        → IsOther n.children byte other → result ≡ other.1 }
    ensures merges { (n : node.InnerNode) (other : ℕ × Name) → HasInner arena.old parent n
        → IsOther n.children byte other
        → (mid : Arena K V) × Lengthens PREFIX_LEN arena.old mid n other.0 other.1
        × UpdatesAt (held_at mid) (held_at arena.new) parent None }
    ensures room { KeepsRoom arena.old arena.new }
    ensures room_of { KeepsRoomOf arena.old arena.new }
{
    let (edge, child) = other_child(arena, parent, byte);
    lengthen(arena, parent, edge, child);
    arena.edit_inner(parent, &NodeEdit::Free);
    child
}

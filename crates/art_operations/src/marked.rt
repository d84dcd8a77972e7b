//! The longest key that begins a query, once its mark is put after it: each key of such a tree is some bytes and a
//! mark.
ghost use Rattle.std.specs.Prelude.{◌≡◌, ◌≤◌, ◌↔◌, ℕ, List, Some, None, IsSome, IsTrue, MatchOption, MatchResult};
ghost use Rattle.std.specs.Prelude.{◌++◌, length, take};
ghost use Rattle.art_nodes.specs.Name.{Name};
ghost use Rattle.art_arena.specs.arena.Arena.{held_at, inner_held, leaf_held};
ghost use Rattle.art_arena.specs.arena.Shapes.{Branches, children_at, inner_at};
ghost use Rattle.art_arena.specs.arena.Stores.{StoresBelow};
ghost use Rattle.art_operations.specs.Marked.{FindsMarked, option_or};
ghost use Rattle.art_operations.specs.inner.MarkedEnds.{EndsAt, IsDeepest, IsMarked, IsMarkedChild, NoneMarked};
ghost use Rattle.art_operations.specs.Whichever.{HasTree, OfTree};

use art_arena::{ArenaReader, InnerRef, LeafPtr, NodeArena};
use art_bytes::AsBytes;
use art_nodes::{LeafNode, OpaqueNodePtr, count_agreeing};

// The node under this name.
#[inline(always)]
fn node_in<'a, K, V, const PREFIX_LEN: usize>(
    arena: &'a NodeArena<K, V, PREFIX_LEN>,
    name: OpaqueNodePtr,
) -> Result<&'a LeafNode<K, V>, InnerRef<'a, K, V, PREFIX_LEN>>
    requires { IsSome (held_at arena.now name) }
    ensures { MatchResult result (λ leaf. held_at arena.now name ≡ Some (leaf_held leaf.now))
        (λ inner. held_at arena.now name ≡ Some (inner_held inner.node)) }
{
    let mut reader = ArenaReader::new(arena);
    reader.visit(name).leaf()
}

// Whether a key is so many bytes, and the mark after them.
fn ends_at(key: &[u8], depth: usize, mark: u8) -> bool
    ensures { IsTrue result ↔ EndsAt depth mark key.now }
{
    depth < key.len() && depth + 1 == key.len() && key[depth] == mark
}

// Whether a key is some bytes of the query, and the mark after them.
fn is_marked(key: &[u8], query: &[u8], mark: u8) -> bool
    ensures { IsTrue result ↔ IsMarked query.now mark key.now }
{
    if key.is_empty() {
        return false;
    }
    let last = key.len() - 1;
    key[last] == mark && last <= count_agreeing(key, query)
}

// The first bytes, so many of them.
fn first_bytes(bytes: &[u8], len: usize) -> &[u8]
    requires { len ≤ length bytes.now }
    ensures { result.now ≡ take len bytes.now }
{
    &bytes[..len]
}

// The first leaf, or the second where the first is none.
fn first_or(first: Option<LeafPtr>, other: Option<LeafPtr>) -> Option<LeafPtr>
    ensures { result ≡ option_or first other }
{
    match first {
        Some(leaf) => Some(leaf),
        None => other,
    }
}

// The leaf under the mark at an inner node whose children stand after so many bytes, if its key ends with the mark.
fn marked_child<K: AsBytes, V, const PREFIX_LEN: usize>(
    arena: &NodeArena<K, V, PREFIX_LEN>,
    inner: &InnerRef<'_, K, V, PREFIX_LEN>,
    depth: usize,
    mark: u8,
) -> Option<LeafPtr>
    requires { (name : Name) × (path prefix : List ℕ) × (kids : Branches K V)
        × StoresBelow K.bytes PREFIX_LEN arena.now name path (inner_at name prefix kids)
        × (inner.now.node.children ≡ children_at kids) }
    ensures { (name : Name) (path prefix : List ℕ) (kids : Branches K V)
        → StoresBelow K.bytes PREFIX_LEN arena.now name path (inner_at name prefix kids)
        → inner.now.node.children ≡ children_at kids → length (path ++ prefix) ≡ depth
        → IsMarkedChild K.bytes (path ++ prefix) kids mark result }
{
    match inner.lookup_child(mark) {
        Some(child) => match node_in(arena, child) {
            Ok(leaf) => {
                if ends_at(leaf.key_ref().as_bytes(), depth, mark) {
                    return Some(child.with_kind());
                }
                None
            }
            Err(_) => None,
        },
        None => None,
    }
}

// The deepest leaf on the query's way whose key ends with the mark after no more bytes than the query has. The way
// passes prefixes by their lengths alone, so its key is compared by the caller. The leaf at the way's end is looked at,
// and at each node before it that under the mark.
fn deepest_marked<K: AsBytes, V, const PREFIX_LEN: usize>(
    arena: &NodeArena<K, V, PREFIX_LEN>,
    root: OpaqueNodePtr,
    query: &[u8],
    mark: u8,
) -> Option<LeafPtr>
    requires { HasTree K.bytes PREFIX_LEN arena.now root }
    ensures { OfTree K.bytes PREFIX_LEN arena.now root (λ s. MatchOption result
        (NoneMarked K.bytes query.now mark s) (λ slot. IsDeepest K.bytes query.now mark s slot)) }
{
    let mut best = None;
    let mut current = root;
    let mut depth = 0;
    'down: loop {
        match node_in(arena, current) {
            Ok(leaf) => {
                if is_marked(leaf.key_ref().as_bytes(), query, mark) {
                    return Some(current.with_kind());
                }
                return best;
            }
            Err(inner) => {
                let len = inner.prefix_len();
                if query.len() - depth < len {
                    return best;
                }
                best = first_or(marked_child(arena, &inner, depth + len, mark), best);
                match inner.next_step(query, depth) {
                    Some(step) => {
                        current = step.child;
                        depth = step.depth;
                    }
                    None => return best,
                }
            }
        }
    }
}

/// Returns the leaf of the longest key that is some bytes of the query, from its first, and the mark after them, in the
/// tree below a name, or `None` if there is none.
///
/// It goes down once, by lengths alone, and compares the deepest key that may be meant. Where this one is another, it
/// goes down once more, as far as that key agrees with the query. So the time is linear in the query. Nothing is copied
/// or allocated.
pub fn marked_search_unchecked<K: AsBytes, V, const PREFIX_LEN: usize>(
    arena: &NodeArena<K, V, PREFIX_LEN>,
    root: OpaqueNodePtr,
    query: &[u8],
    mark: u8,
) -> Option<LeafPtr>
    requires { HasTree K.bytes PREFIX_LEN arena.now root }
    ensures { FindsMarked K.bytes PREFIX_LEN arena.now root query.now mark result }
{
    let mut most = query.len();
    'shorter: loop {
        let front = first_bytes(query, most);
        match deepest_marked(arena, root, front, mark) {
            Some(leaf) => {
                let key = arena.as_key_ref(leaf).as_bytes();
                if is_marked(key, front, mark) {
                    return Some(leaf);
                }
                most = count_agreeing(key, front);
            }
            None => return None,
        }
    }
}

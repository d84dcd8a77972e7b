//! A leaf that stands for the prefixes on a key's way that aren't wholly stored.
//!
//! A search for a place passes prefixes by their bytes. All that no header stores whole are read from this one leaf.
//! With a walk to the least leaf for each of them, a line past 113 such prefixes took 16 times the instructions.
ghost use Rattle.std.specs.Prelude.{◌≡◌, ◌+◌, ◌-◌, ◌≤◌, ◌||◌, ℕ, List, IfSome, IsSome, MatchOption, drop, is_some};
ghost use Rattle.std.specs.Prelude.{length};
ghost use Rattle.art_nodes.specs.Name.{Name};
ghost use Rattle.art_arena.specs.arena.Descents.{IsGuide};
ghost use Rattle.art_arena.specs.arena.Prefixes.{prefix_of};
ghost use Rattle.art_arena.specs.arena.Reads.{IsReadAt, KeysWithin, ReadsAtLeast, ReadsExactly};
ghost use Rattle.art_arena.specs.arena.Reads.{guide_cost, unguided};
ghost use Rattle.art_arena.specs.tree.Ways.{is_cut, path_to_guide};
ghost use Rattle.art_arena.specs.arena.Shapes.{Shape, erase, leaves};
ghost use Rattle.art_arena.specs.arena.Stores.{StoresAt};
ghost use Rattle.art_arena.specs.arena.Visited.{arena_of, count_of};

use crate::inner_ref::InnerRef;
use crate::prefix::walk_below;
use crate::reader::{ArenaReader, guide_below};
use art_bytes::AsBytes;
use art_nodes::{LeafNode, OpaqueNodePtr};

// A guide for a key, so many bytes of which lead to a node: a leaf below each node to which the key leads from there.
// The way to it goes on by the key's bytes as far as they go, over prefixes by their lengths, and then to a first leaf.
pub(crate) fn walk_along<'a, K: AsBytes, V, const PREFIX_LEN: usize>(
    reader: &mut ArenaReader<'a, K, V, PREFIX_LEN>,
    root: OpaqueNodePtr,
    key: &[u8],
    depth: usize,
) -> &'a LeafNode<K, V>
    requires stands { (path : List ℕ) × (s : Shape K V)
        × StoresAt K.bytes PREFIX_LEN (arena_of reader.old) root depth path s }
    requires within { depth ≤ length key.now }
    ensures guide { (path : List ℕ) (s : Shape K V)
        → StoresAt K.bytes PREFIX_LEN (arena_of reader.old) root depth path s
        → IsGuide key.now (K.bytes result.now.key) path s }
    ensures kept { arena_of reader.new ≡ arena_of reader.old }
    ensures counts { (path : List ℕ) (s : Shape K V)
        → StoresAt K.bytes PREFIX_LEN (arena_of reader.old) root depth path s
        → ReadsExactly (length (path_to_guide (erase s) (drop depth key.now))) (count_of reader.old)
        (count_of reader.new) }
    ensures least { ReadsAtLeast 1 (count_of reader.old) (count_of reader.new) }
    ensures few { (path : List ℕ) (s : Shape K V)
        → StoresAt K.bytes PREFIX_LEN (arena_of reader.old) root depth path s
        → (longest : ℕ) → KeysWithin K.bytes longest (leaves s)
        → count_of reader.new + depth ≤ count_of reader.old + (longest + 1) }
{
    let mut current = root;
    let mut used = depth;
    'down: loop {
        match reader.visit(current).leaf() {
            Ok(leaf) => return leaf,
            Err(inner) => match inner.next_step(key, used) {
                None => return walk_below(reader, &inner).leaf,
                Some(step) => {
                    current = step.child;
                    used = step.depth;
                }
            },
        }
    }
}

// A guide for a key, so many bytes of which lead to an inner node that was read already. One call, and not inlined: a
// descent's loop stays small.
#[inline(never)]
pub(crate) fn walk_on<'a, K: AsBytes, V, const PREFIX_LEN: usize>(
    reader: &mut ArenaReader<'a, K, V, PREFIX_LEN>,
    inner: &InnerRef<'a, K, V, PREFIX_LEN>,
    key: &[u8],
    depth: usize,
) -> &'a LeafNode<K, V>
    requires stands { (root : Name) × (path : List ℕ) × (s : Shape K V)
        × IsReadAt K.bytes PREFIX_LEN (arena_of reader.old) inner.now.node root depth path s }
    requires within { depth ≤ length key.now }
    ensures guide { (root : Name) (path : List ℕ) (s : Shape K V)
        → IsReadAt K.bytes PREFIX_LEN (arena_of reader.old) inner.now.node root depth path s
        → IsGuide key.now (K.bytes result.now.key) path s }
    ensures kept { arena_of reader.new ≡ arena_of reader.old }
    ensures counts { (root : Name) (path : List ℕ) (s : Shape K V)
        → IsReadAt K.bytes PREFIX_LEN (arena_of reader.old) inner.now.node root depth path s
        → ReadsExactly (length (path_to_guide (erase s) (drop depth key.now)) - 1) (count_of reader.old)
        (count_of reader.new) }
    ensures least { ReadsAtLeast 1 (count_of reader.old) (count_of reader.new) }
    ensures few { (root : Name) (path : List ℕ) (s : Shape K V)
        → IsReadAt K.bytes PREFIX_LEN (arena_of reader.old) inner.now.node root depth path s
        → (longest : ℕ) → KeysWithin K.bytes longest (leaves s)
        → count_of reader.new + depth ≤ count_of reader.old + longest }
{
    match inner.next_step(key, depth) {
        Some(step) => walk_along(reader, step.child, key, step.depth),
        None => walk_below(reader, inner).leaf,
    }
}

// The guide of a descent: the one that it has, or one that is looked for now and kept.
#[inline(always)]
fn guide_at<'a, K: AsBytes, V, const PREFIX_LEN: usize>(
    reader: &mut ArenaReader<'a, K, V, PREFIX_LEN>,
    inner: &InnerRef<'a, K, V, PREFIX_LEN>,
    key: &[u8],
    depth: usize,
    guide: &mut Option<&'a LeafNode<K, V>>,
) -> &'a LeafNode<K, V>
    requires stands { (root : Name) × (path : List ℕ) × (s : Shape K V)
        × IsReadAt K.bytes PREFIX_LEN (arena_of reader.old) inner.now.node root depth path s }
    requires within { depth ≤ length key.now }
    ensures guide { (root : Name) (path : List ℕ) (s : Shape K V)
        → IsReadAt K.bytes PREFIX_LEN (arena_of reader.old) inner.now.node root depth path s
        → IfSome guide.old (λ leaf. IsGuide key.now (K.bytes leaf.now.key) path s)
        → IsGuide key.now (K.bytes result.now.key) path s }
    ensures keeps { (root : Name) (path : List ℕ) (s : Shape K V)
        → IsReadAt K.bytes PREFIX_LEN (arena_of reader.old) inner.now.node root depth path s
        → IfSome guide.old (λ leaf. IsGuide key.now (K.bytes leaf.now.key) path s)
        → IfSome guide.new (λ leaf. IsGuide key.now (K.bytes leaf.now.key) path s) }
    ensures kept { arena_of reader.new ≡ arena_of reader.old }
    ensures found { IsSome guide.new }
    ensures counts { (root : Name) (path : List ℕ) (s : Shape K V)
        → IsReadAt K.bytes PREFIX_LEN (arena_of reader.old) inner.now.node root depth path s
        → MatchOption guide.old (ReadsExactly (length (path_to_guide (erase s) (drop depth key.now)) - 1)
        (count_of reader.old) (count_of reader.new)) (λ leaf. count_of reader.new ≡ count_of reader.old) }
    ensures least { ReadsAtLeast 0 (count_of reader.old) (count_of reader.new) }
    ensures few { (root : Name) (path : List ℕ) (s : Shape K V)
        → IsReadAt K.bytes PREFIX_LEN (arena_of reader.old) inner.now.node root depth path s
        → (longest : ℕ) → KeysWithin K.bytes longest (leaves s)
        → count_of reader.new + unguided guide.new longest ≤ count_of reader.old + unguided guide.old longest }
{
    match *guide {
        Some(leaf) => leaf,
        None => {
            let leaf = guide_below(reader, inner, key, depth);
            *guide = Some(leaf);
            leaf
        }
    }
}

// The whole prefix of an inner node that was read already, to which so many bytes of a key lead. If the header doesn't
// store all of it, it is lent from the key of the descent's guide, and no other node is read once there is one.
#[inline(always)]
pub(crate) fn guided_prefix<'a, K: AsBytes, V, const PREFIX_LEN: usize>(
    reader: &mut ArenaReader<'a, K, V, PREFIX_LEN>,
    inner: &InnerRef<'a, K, V, PREFIX_LEN>,
    key: &[u8],
    depth: usize,
    guide: &mut Option<&'a LeafNode<K, V>>,
) -> &'a [u8]
    requires stands { (root : Name) × (path : List ℕ) × (s : Shape K V)
        × IsReadAt K.bytes PREFIX_LEN (arena_of reader.old) inner.now.node root depth path s
        × IfSome guide.old (λ leaf. IsGuide key.now (K.bytes leaf.now.key) path s) }
    requires within { depth ≤ length key.now }
    ensures prefix { (root : Name) (path : List ℕ) (s : Shape K V)
        → IsReadAt K.bytes PREFIX_LEN (arena_of reader.old) inner.now.node root depth path s
        → IfSome guide.old (λ leaf. IsGuide key.now (K.bytes leaf.now.key) path s)
        → result.now ≡ prefix_of s }
    ensures keeps { (root : Name) (path : List ℕ) (s : Shape K V)
        → IsReadAt K.bytes PREFIX_LEN (arena_of reader.old) inner.now.node root depth path s
        → IfSome guide.old (λ leaf. IsGuide key.now (K.bytes leaf.now.key) path s)
        → IfSome guide.new (λ leaf. IsGuide key.now (K.bytes leaf.now.key) path s) }
    ensures kept { arena_of reader.new ≡ arena_of reader.old }
    ensures found { (root : Name) (path : List ℕ) (s : Shape K V)
        → IsReadAt K.bytes PREFIX_LEN (arena_of reader.old) inner.now.node root depth path s
        → is_some guide.new ≡ (is_some guide.old || is_cut PREFIX_LEN (erase s)) }
    ensures counts { (root : Name) (path : List ℕ) (s : Shape K V)
        → IsReadAt K.bytes PREFIX_LEN (arena_of reader.old) inner.now.node root depth path s
        → ReadsExactly (guide_cost guide.old PREFIX_LEN (erase s) (drop depth key.now)) (count_of reader.old)
        (count_of reader.new) }
    ensures least { ReadsAtLeast 0 (count_of reader.old) (count_of reader.new) }
    ensures few { (root : Name) (path : List ℕ) (s : Shape K V)
        → IsReadAt K.bytes PREFIX_LEN (arena_of reader.old) inner.now.node root depth path s
        → (longest : ℕ) → KeysWithin K.bytes longest (leaves s)
        → count_of reader.new + unguided guide.new longest ≤ count_of reader.old + unguided guide.old longest }
{
    let _arm = &inner.arm;
    let len = inner.prefix_len();
    if len <= PREFIX_LEN {
        return inner.header().read_prefix();
    }
    let leaf = guide_at(reader, inner, key, depth, guide);
    let bytes = leaf.key_ref().as_bytes();
    &bytes[depth..depth + len]
}

//! The way of a key down the tree below a name: to the one leaf that can be meant, or as far as it agrees.
ghost use Rattle.std.specs.Prelude.{◌≡◌, ◌+◌, ◌-◌, ◌^◌, ◌≤◌, ◌↔◌, ◌||◌, [], ℕ, List, drop, length};
ghost use Rattle.std.specs.Prelude.{IfSome, IsTrue, MatchOption, is_some};
ghost use Rattle.art_bytes.specs.Keys.{BeginsWith};
ghost use Rattle.art_nodes.specs.Name.{Name};
ghost use Rattle.art_arena.specs.arena.Arena.{node_at};
ghost use Rattle.art_arena.specs.arena.Descents.{AgreesUpTo, HasNoFront, IsGuide, Lands, LandsAt, OnWayTo};
ghost use Rattle.art_arena.specs.arena.Descents.{ReadsLookUp, Stops};
ghost use Rattle.art_arena.specs.arena.Prefixes.{prefix_of};
ghost use Rattle.art_arena.specs.arena.Reads.{DescentReads, IsReadAt, KeysWithin, ReadsAtLeast, ReadsExactly};
ghost use Rattle.art_arena.specs.arena.Reads.{guide_cost, unguided};
ghost use Rattle.art_arena.specs.tree.Paths.{look_up_path};
ghost use Rattle.art_arena.specs.tree.Ways.{compared_on, descent_reads, is_cut};
ghost use Rattle.art_arena.specs.arena.Shapes.{Shape, erase, leaves};
ghost use Rattle.art_arena.specs.arena.Stores.{Stores, StoresAt};
ghost use Rattle.art_arena.specs.inner.Stepping.{IsComparedAfter, IsGuided, StepsFrom, TakesStep};
ghost use Rattle.art_arena.specs.arena.Visited.{arena_of, count_of};

use crate::arena::LeafPtr;
use crate::front::{begins_with, rest_after};
use crate::guide::guided_prefix;
use crate::inner_ref::{InnerRef, NextStep};
use crate::path::{TreePath, TreePathSearch};
use crate::reader::ArenaReader;
use art_bytes::AsBytes;
use art_nodes::{LeafNode, OpaqueNodePtr};

/// How a descent passes over the prefix of an inner node.
#[derive(Clone, Copy, PartialEq, Eq, Debug)]
pub enum Passing {
    /// Only if what is stored of it are the key's bytes. It reads nothing but nodes of the key's path, and its caller
    /// compares the key of the leaf at which it ends, since the bytes that aren't stored may be others.
    ByStored,
    /// Only if all its bytes are the key's: so the way is a prefix of the key. Prefixes that aren't wholly stored are
    /// all read from one leaf, to which the descent goes down once.
    ByBytes,
}

/// Where a descent ended.
#[derive(Drop)]
pub struct Stop<'a, K, V> {
    /// The node from which the key goes no further.
    pub node: OpaqueNodePtr,
    /// The node itself, which was read, if it is a leaf.
    pub leaf: Option<&'a LeafNode<K, V>>,
    /// How many bytes of the key lead there.
    pub depth: usize,
    /// How many of the key's first bytes were compared with those of the way, and are the same, if it was passed by
    /// what is stored.
    pub compared: usize,
}

/// The leaf at which a way down ended. If the way was that of a key, no other leaf's key can be that key or a prefix of
/// it.
#[derive(Drop)]
pub struct Landed<'a, K, V> {
    /// Its name.
    pub name: LeafPtr,
    /// The leaf itself, which was read.
    pub leaf: &'a LeafNode<K, V>,
    /// The inner nodes just above it.
    pub path: TreePath,
    /// How many of the key's first bytes are the leaf's, as a descent for the key found on its way: those before the
    /// first bytes of a prefix that aren't stored. Of a way without a key none.
    pub compared: usize,
}

impl<'a, K: AsBytes, V> Landed<'a, K, V> {
    /// Returns whether the leaf's key is the one that was looked for. It compares what the descent didn't, which is
    /// nothing where the way has all the key's bytes.
    #[inline(always)]
    pub fn has_key(&self, key: &[u8]) -> bool
        requires { AgreesUpTo self.now.compared (K.bytes self.now.leaf.now.key) key.now }
        ensures { IsTrue result ↔ (K.bytes self.now.leaf.now.key ≡ key.now) }
    {
        let own = self.leaf.key_ref().as_bytes();
        rest_after(own, self.compared) == rest_after(key, self.compared)
    }

    /// Returns whether the leaf's key is a prefix of the query that was looked for, or all of it. It compares what the
    /// descent didn't.
    #[inline(always)]
    pub fn has_prefix_of(&self, query: &[u8]) -> bool
        requires { AgreesUpTo self.now.compared (K.bytes self.now.leaf.now.key) query.now }
        ensures { IsTrue result ↔ BeginsWith (K.bytes self.now.leaf.now.key) query.now }
    {
        let own = self.leaf.key_ref().as_bytes();
        rest_after(query, self.compared).starts_with(rest_after(own, self.compared))
    }
}

// Whether a key, so many bytes of which lead to an inner node, goes on with the node's whole prefix. Most nodes have
// none, and then nothing is compared.
#[inline(always)]
fn passes_prefix<'a, K: AsBytes, V, const PREFIX_LEN: usize>(
    reader: &mut ArenaReader<'a, K, V, PREFIX_LEN>,
    inner: &InnerRef<'a, K, V, PREFIX_LEN>,
    key: &[u8],
    depth: usize,
    guide: &mut Option<&'a LeafNode<K, V>>,
) -> bool
    requires stands { (root : Name) × (path : List ℕ) × (s : Shape K V)
        × IsReadAt K.bytes PREFIX_LEN (arena_of reader.old) inner.now.node root depth path s
        × IfSome guide.old (λ leaf. IsGuide key.now (K.bytes leaf.now.key) path s) }
    requires within { depth ≤ length key.now }
    ensures passes { (root : Name) (path : List ℕ) (s : Shape K V)
        → IsReadAt K.bytes PREFIX_LEN (arena_of reader.old) inner.now.node root depth path s
        → IfSome guide.old (λ leaf. IsGuide key.now (K.bytes leaf.now.key) path s)
        → IsTrue result ↔ BeginsWith (prefix_of s) (drop depth key.now) }
    ensures keeps { (root : Name) (path : List ℕ) (s : Shape K V)
        → IsReadAt K.bytes PREFIX_LEN (arena_of reader.old) inner.now.node root depth path s
        → IfSome guide.old (λ leaf. IsGuide key.now (K.bytes leaf.now.key) path s)
        → IfSome guide.new (λ leaf. IsGuide key.now (K.bytes leaf.now.key) path s) }
    ensures kept { arena_of reader.new ≡ arena_of reader.old }
    ensures none { inner.now.node.header.prefix_len ≡ 0 → count_of reader.new ≡ count_of reader.old }
    ensures found { (root : Name) (path : List ℕ) (s : Shape K V)
        → IsReadAt K.bytes PREFIX_LEN (arena_of reader.old) inner.now.node root depth path s
        → is_some guide.new ≡ (is_some guide.old || is_cut PREFIX_LEN (erase s)) }
    ensures counts { (root : Name) (path : List ℕ) (s : Shape K V)
        → IsReadAt K.bytes PREFIX_LEN (arena_of reader.old) inner.now.node root depth path s
        → count_of reader.old ≤ 2 ^ 64 - 1
        → ReadsExactly (guide_cost guide.old PREFIX_LEN (erase s) (drop depth key.now)) (count_of reader.old)
        (count_of reader.new) }
    ensures least { ReadsAtLeast 0 (count_of reader.old) (count_of reader.new) }
    ensures few { (root : Name) (path : List ℕ) (s : Shape K V)
        → IsReadAt K.bytes PREFIX_LEN (arena_of reader.old) inner.now.node root depth path s
        → (longest : ℕ) → KeysWithin K.bytes longest (leaves s)
        → count_of reader.new + unguided guide.new longest ≤ count_of reader.old + unguided guide.old longest }
{
    if inner.prefix_len() == 0 {
        return true;
    }
    let prefix = guided_prefix(reader, inner, key, depth, guide);
    begins_with(&key[depth..], prefix)
}

// How many of a key's first bytes are compared after a step: all that led to it, if all were before it and the prefix
// is wholly stored.
#[inline(always)]
fn compared_after<'a, K, V, const PREFIX_LEN: usize>(
    inner: &InnerRef<'a, K, V, PREFIX_LEN>,
    compared: usize,
    depth: usize,
    step: &NextStep,
) -> usize
    ensures { IsComparedAfter PREFIX_LEN inner.now.node compared depth step.now.depth result }
{
    if compared == depth && inner.prefix_len() <= PREFIX_LEN {
        return step.depth;
    }
    compared
}

// The child to which a key goes on from an inner node, which stands after so many of its bytes. Nothing is read for a
// step, but where a step by bytes needs a guide and there is none yet, one way down to a leaf.
#[inline(always)]
fn step_at<'a, K: AsBytes, V, const PREFIX_LEN: usize>(
    reader: &mut ArenaReader<'a, K, V, PREFIX_LEN>,
    inner: &InnerRef<'a, K, V, PREFIX_LEN>,
    key: &[u8],
    depth: usize,
    passing: Passing,
    guide: &mut Option<&'a LeafNode<K, V>>,
) -> Option<NextStep>
    requires stands { (root : Name) × (path : List ℕ) × (s : Shape K V)
        × IsReadAt K.bytes PREFIX_LEN (arena_of reader.old) inner.now.node root depth path s
        × (passing ≡ Passing.ByBytes → IsGuided K.bytes key.now path s guide.old) }
    requires within { depth ≤ length key.now }
    ensures goes { TakesStep passing key.now depth inner.now.node result }
    ensures steps { (root : Name) (path : List ℕ) (s : Shape K V)
        → IsReadAt K.bytes PREFIX_LEN (arena_of reader.old) inner.now.node root depth path s
        → StepsFrom K.bytes PREFIX_LEN key.now depth path s passing result guide.old guide.new reader.old reader.new }
    ensures kept { arena_of reader.new ≡ arena_of reader.old }
    ensures by_stored { passing ≡ Passing.ByStored → count_of reader.new ≡ count_of reader.old }
    ensures least { ReadsAtLeast 0 (count_of reader.old) (count_of reader.new) }
{
    match passing {
        Passing::ByStored => {
            if inner.meets_stored(key, depth) {
                return inner.next_step(key, depth);
            }
            None
        }
        Passing::ByBytes => {
            if passes_prefix(reader, inner, key, depth, guide) {
                return inner.next_step(key, depth);
            }
            None
        }
    }
}

/// Goes down for a key in the canonical tree below a name, as far as it goes. It ends at a leaf, at a node where the
/// key ends or has no child, or at one whose prefix it doesn't pass.
///
/// Each node of the way is read once. By bytes, so are the nodes from the first whose prefix isn't wholly stored down
/// to a leaf, from which this prefix and all others after it are read. So at most two ways down are read. Nothing is
/// copied or allocated. The last steps of the way are left in `search`.
#[inline(always)]
pub fn descend<'a, K: AsBytes, V, const PREFIX_LEN: usize>(
    reader: &mut ArenaReader<'a, K, V, PREFIX_LEN>,
    search: &mut TreePathSearch,
    root: OpaqueNodePtr,
    key: &[u8],
    passing: Passing,
) -> Stop<'a, K, V>
    requires tree { (s : Shape K V) × Stores K.bytes PREFIX_LEN (arena_of reader.old) root s }
    requires fresh { search.old ≡ [] }
    ensures lands { passing ≡ Passing.ByStored → (s : Shape K V)
        → Stores K.bytes PREFIX_LEN (arena_of reader.old) root s
        → MatchOption result.leaf (HasNoFront K.bytes key.now s)
        (λ leaf. LandsAt K.bytes key.now s result.node.slot leaf.now search.new) }
    ensures agrees { passing ≡ Passing.ByStored
        → IfSome result.leaf (λ leaf. AgreesUpTo result.compared (K.bytes leaf.now.key) key.now) }
    ensures counts { passing ≡ Passing.ByStored → (s : Shape K V)
        → Stores K.bytes PREFIX_LEN (arena_of reader.old) root s
        → ReadsLookUp PREFIX_LEN key.now s (count_of reader.old) (count_of reader.new) }
    ensures compared { passing ≡ Passing.ByStored → (s : Shape K V)
        → Stores K.bytes PREFIX_LEN (arena_of reader.old) root s
        → IfSome result.leaf (λ _. result.compared
        ≡ compared_on PREFIX_LEN (look_up_path PREFIX_LEN (erase s) key.now)) }
    ensures way { passing ≡ Passing.ByBytes → (s : Shape K V)
        → Stores K.bytes PREFIX_LEN (arena_of reader.old) root s
        → OnWayTo K.bytes PREFIX_LEN (node_at (arena_of reader.old)) key.now s result.node search.new result.depth }
    ensures stops { passing ≡ Passing.ByBytes → (path : List ℕ) (s : Shape K V)
        → StoresAt K.bytes PREFIX_LEN (arena_of reader.old) result.node result.depth path s
        → BeginsWith path key.now → Stops K.bytes key.now path s }
    ensures reads { passing ≡ Passing.ByBytes → (s : Shape K V)
        → Stores K.bytes PREFIX_LEN (arena_of reader.old) root s
        → ReadsExactly (descent_reads PREFIX_LEN (erase s) key.now) (count_of reader.old) (count_of reader.new) }
    ensures kept { arena_of reader.new ≡ arena_of reader.old }
    ensures within { result.depth ≤ length key.now }
    ensures least { ReadsAtLeast 1 (count_of reader.old) (count_of reader.new) }
    ensures few { (s : Shape K V) → Stores K.bytes PREFIX_LEN (arena_of reader.old) root s
        → (longest : ℕ) → KeysWithin K.bytes longest (leaves s)
        → DescentReads longest result.depth (count_of reader.old) (count_of reader.new) }
{
    let mut current = root;
    let mut depth = 0;
    let mut compared = 0;
    let mut guide = None;
    'down: loop {
        match reader.visit(current).leaf() {
            Ok(leaf) => {
                return Stop {
                    node: current,
                    leaf: Some(leaf),
                    depth,
                    compared,
                };
            }
            Err(inner) => match step_at(reader, &inner, key, depth, passing, &mut guide) {
                None => {
                    return Stop {
                        node: current,
                        leaf: None,
                        depth,
                        compared,
                    };
                }
                Some(step) => {
                    compared = compared_after(&inner, compared, depth, &step);
                    search.go_down(current, step.byte);
                    current = step.child;
                    depth = step.depth;
                }
            },
        }
    }
}

/// Goes down for a key in the canonical tree below a name. It ends at a leaf, or at a node where the key ends or has no
/// child, or whose prefix as it is stored it doesn't pass. What isn't stored is passed over by its length, so its
/// caller compares what of the leaf's key wasn't.
///
/// It reads nodes of the key's path, each once: all of them if the key is stored. Nothing is copied or allocated.
#[inline(always)]
pub fn land<'a, K: AsBytes, V, const PREFIX_LEN: usize>(
    reader: &mut ArenaReader<'a, K, V, PREFIX_LEN>,
    root: OpaqueNodePtr,
    key: &[u8],
) -> Option<Landed<'a, K, V>>
    requires { (s : Shape K V) × Stores K.bytes PREFIX_LEN (arena_of reader.old) root s }
    ensures lands { (s : Shape K V) → Stores K.bytes PREFIX_LEN (arena_of reader.old) root s
        → Lands K.bytes key.now s result }
    ensures agrees { IfSome result (λ landed.
        AgreesUpTo landed.compared (K.bytes landed.leaf.now.key) key.now) }
    ensures kept { arena_of reader.new ≡ arena_of reader.old }
    ensures counts { (s : Shape K V) → Stores K.bytes PREFIX_LEN (arena_of reader.old) root s
        → ReadsLookUp PREFIX_LEN key.now s (count_of reader.old) (count_of reader.new) }
    ensures compared { (s : Shape K V) → Stores K.bytes PREFIX_LEN (arena_of reader.old) root s
        → IfSome result (λ landed. landed.compared
        ≡ compared_on PREFIX_LEN (look_up_path PREFIX_LEN (erase s) key.now)) }
{
    let mut search = TreePathSearch::default();
    let stop = descend(reader, &mut search, root, key, Passing::ByStored);
    match stop.leaf {
        Some(leaf) => Some(Landed {
            name: stop.node.with_kind(),
            leaf,
            path: search.finish(),
            compared: stop.compared,
        }),
        None => None,
    }
}

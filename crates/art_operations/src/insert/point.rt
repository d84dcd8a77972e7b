//! The place of a new key.
ghost use Rattle.std.specs.Prelude.{◌≡◌, ◌↔◌, ◌+◌, ◌≤◌, ℕ, List, length, drop, IfOk, IfErr, IsTrue, MatchOption};
ghost use Rattle.std.specs.Prelude.{nat_eq};
ghost use Rattle.std.specs.Cmp.{partial_equiv_from_equiv};
ghost use Rattle.std.specs.Cmp.Lexicographic.{pointwise, nat_list_eq_equiv};
ghost use Rattle.art_bytes.specs.Keys.{BeginsWith};
ghost use Rattle.art_arena.specs.arena.Context.{path_to};
ghost use Rattle.art_arena.specs.arena.Shapes.{Shape, erase};
ghost use Rattle.art_arena.specs.tree.Ways.{descent_reads, prefix_reads};
ghost use Rattle.art_operations.specs.Openings.{DescentReads, ForLongest, PlaceReads, ReadsAtLeast, ReadsExactly};
ghost use Rattle.art_operations.specs.Openings.{place_reads};
ghost use Rattle.art_operations.specs.Points.{IsInTheWay, IsPlaceOrConflict, Refuses};
ghost use Rattle.art_operations.specs.declared.insert.point.InsertKind.TheVariants as kind;
ghost use Rattle.art_operations.specs.declared.insert.point.SearchEnd.TheVariants as way;
ghost use Rattle.art_arena.specs.arena.Arena.{node_at};
ghost use Rattle.art_arena.specs.arena.Steps.{steps_of};
ghost use Rattle.art_arena.specs.arena.Descents.{OnWayTo, Stops};
ghost use Rattle.art_operations.specs.inner.SearchEnds.{EndsInside, IsEndAtInner, IsEndAtLeaf, IsSearchEnd, met_by};
ghost use Rattle.art_operations.specs.inner.SearchEnds.{result_at};
ghost use Rattle.art_operations.specs.inner.SearchEnds.{point_at};
ghost use Rattle.art_arena.specs.arena.Stores.{StoresAt};
ghost use Rattle.art_operations.specs.Whichever.{HasTree, OfTree};

use crate::meeting::{Meeting, Parted, meet};
use art_arena::{
    ArenaReader, LeafPtr, NodeArena, Passing, TreePath, TreePathSearch, descend,
    read_full_prefix_with,
};
use art_bytes::AsBytes;
use art_nodes::{KindLeaf, LeafNode, OpaqueNodePtr};
use std::alloc::{AllocError, Global};
use std::marker::Model;
use thiserror::Error;

/// The bytes of a key that can't be inserted, since it is a prefix of a stored key, or a stored key is a prefix of it.
#[derive(Debug, Drop)]
pub struct KeyPrefix {
    bytes: Vec<u8>,
}

impl Model for KeyPrefix {
    ghost use Rattle.std.specs.Prelude.{ℕ, List};

    ghost Value = { List ℕ };

    ghost view = { λ p. p.bytes.items };
}

impl KeyPrefix {
    /// Makes a copy of these bytes. Fails if out of memory.
    pub fn new(alloc: Global, bytes: &[u8]) -> Result<Self, AllocError>
        ensures { IfOk result (λ prefix. prefix ≡ bytes.now) }
    {
        let bytes = Vec::from_slice(alloc, bytes)?;
        Ok(KeyPrefix { bytes })
    }

    /// Returns the bytes.
    pub fn bytes(&self) -> &[u8]
        ensures { result.now ≡ self.now }
    {
        self.bytes.as_slice()
    }

    /// Returns whether the bytes are those of an array: `==` compares values of one type alone.
    pub fn eq_array<const LEN: usize>(&self, other: &[u8; LEN]) -> bool
        ensures { IsTrue result ↔ (self.now ≡ other.now) }
    {
        self.bytes() == other.as_slice()
    }
}

/// Two are equal if their bytes are.
impl PartialEq for KeyPrefix {
    ghost eq = { λ m n. pointwise nat_eq m n };

    ghost laws = { partial_equiv_from_equiv nat_list_eq_equiv };

    fn eq(&self, other: &Self) -> bool {
        self.bytes() == other.bytes()
    }
}

impl Eq for KeyPrefix {
    ghost laws = { nat_list_eq_equiv };
}

/// A key can't be inserted, since it is a prefix of a stored key, or a stored key is a prefix of it. The stored keys of
/// which that holds are those of one part of the tree.
#[derive(Clone, Copy, Debug, Error)]
#[error("the key begins a stored key, or a stored key begins it")]
pub struct PrefixConflict {
    /// The root of the tree.
    pub root: OpaqueNodePtr,
    /// The inner nodes just above the part.
    pub path: TreePath,
    /// The root of the part.
    pub part: OpaqueNodePtr,
}

/// A key can't be inserted, since it is a prefix of a stored key, or a stored key is a prefix of it.
#[derive(Debug, Drop, Error)]
#[error("the key begins a stored key, or a stored key begins it")]
pub struct InsertPrefixError {
    /// The bytes of the new key.
    pub byte_repr: KeyPrefix,
}

/// Why no place was found for a key.
#[derive(Debug, Drop, Error)]
pub enum InsertSearchError {
    /// It is a prefix of a stored key, or a stored key is a prefix of it.
    #[error("the key begins a stored key, or a stored key begins it")]
    Prefix(InsertPrefixError),
    /// So it is, and there was no memory for its bytes.
    #[error("no memory for the bytes of a key that can't be put in")]
    Memory,
}

/// What a new key meets at its place.
#[derive(Clone, Copy, Debug)]
pub enum InsertKind {
    /// An inner node whose prefix has another byte than the key.
    MismatchPrefix {
        /// The node.
        inner_node_ptr: OpaqueNodePtr,
        /// Where the prefix and the rest of the key differ.
        parted: Parted,
    },
    /// A leaf whose key has another byte.
    SplitLeaf {
        /// The leaf.
        leaf_node_ptr: LeafPtr,
        /// Where the rests of both keys differ.
        parted: Parted,
    },
    /// An inner node that has no child under the key's next byte.
    IntoExisting {
        /// The node.
        inner_node_ptr: OpaqueNodePtr,
        /// The byte.
        key_byte: u8,
    },
    /// A leaf with this key.
    Exact {
        /// The leaf.
        leaf_node_ptr: LeafPtr,
    },
}

/// Where a new key goes.
#[derive(Clone, Copy, Debug)]
pub struct InsertPoint {
    /// The root of the tree.
    pub root: OpaqueNodePtr,
    /// The inner nodes just above what the key meets.
    pub path: TreePath,
    /// How many bytes of the key lead to what it meets.
    pub key_bytes_used: usize,
    /// What it meets.
    pub insert_kind: InsertKind,
}

impl InsertPoint {
    /// Returns the leaf that has the key already, if there is one.
    pub fn stored_leaf(self) -> Option<LeafPtr>
        ensures { MatchOption result ((slot : ℕ) → self.insert_kind ≡ kind.Exact slot → ⊥)
            (λ slot. self.insert_kind ≡ kind.Exact slot) }
    {
        let kind = self.insert_kind;
        match kind {
            InsertKind::Exact { leaf_node_ptr } => Some(leaf_node_ptr),
            _ => None,
        }
    }
}

// Where a descent stopped: the node, the last steps of the way to it, and how many bytes of the key lead there.
#[derive(Clone, Copy)]
struct Stop {
    node: OpaqueNodePtr,
    path: TreePath,
    depth: usize,
}

impl Stop {
    // The place of a key that meets this here.
    #[inline(always)]
    fn point(self, root: OpaqueNodePtr, insert_kind: InsertKind) -> InsertPoint
        ensures { result ≡ point_at root self insert_kind }
    {
        InsertPoint {
            root,
            path: self.path,
            key_bytes_used: self.depth,
            insert_kind,
        }
    }

    // What a search that ended here in this way answers. The place is made in each case alone: what cases hand on
    // together is taken apart into bytes.
    #[inline(always)]
    fn point_or_conflict(
        self,
        root: OpaqueNodePtr,
        way: SearchEnd,
    ) -> Result<InsertPoint, PrefixConflict>
        ensures { result ≡ result_at root self (met_by self.node way) }
    {
        let node = self.node;
        match way {
            SearchEnd::Conflict => Err(PrefixConflict {
                root,
                path: self.path,
                part: node,
            }),
            SearchEnd::Same => Ok(self.point(
                root,
                InsertKind::Exact {
                    leaf_node_ptr: node.with_kind(),
                },
            )),
            SearchEnd::PartsFromLeaf(parted) => Ok(self.point(
                root,
                InsertKind::SplitLeaf {
                    leaf_node_ptr: node.with_kind(),
                    parted,
                },
            )),
            SearchEnd::PartsFromPrefix(parted) => Ok(self.point(
                root,
                InsertKind::MismatchPrefix {
                    inner_node_ptr: node,
                    parted,
                },
            )),
            SearchEnd::NoChild(key_byte) => Ok(self.point(
                root,
                InsertKind::IntoExisting {
                    inner_node_ptr: node,
                    key_byte,
                },
            )),
        }
    }
}

// How the search for the place of a key ends at a node.
#[derive(Clone, Copy)]
enum SearchEnd {
    // The leaf has the key.
    Same,
    // The leaf's key has another byte.
    PartsFromLeaf(Parted),
    // The inner node's prefix has another byte.
    PartsFromPrefix(Parted),
    // The inner node has no child under this byte.
    NoChild(u8),
    // The key can't be put in.
    Conflict,
}

// Where the search ends at a leaf, after so many bytes of both keys.
#[inline(always)]
fn end_at_leaf<K: AsBytes, V>(leaf: &LeafNode<K, V>, key: &[u8], depth: usize) -> SearchEnd
    requires stored { depth ≤ length (K.bytes leaf.now.key) }
    requires key { depth ≤ length key.now }
    ensures { IsEndAtLeaf (drop depth (K.bytes leaf.now.key)) (drop depth key.now) result }
{
    let stored = leaf.key_ref().as_bytes();
    match meet(&stored[depth..], &key[depth..]) {
        Meeting::Same => SearchEnd::Same,
        Meeting::OldEnds => SearchEnd::Conflict,
        Meeting::NewEnds => SearchEnd::Conflict,
        Meeting::Parts(parted) => SearchEnd::PartsFromLeaf(parted),
    }
}

// Where the search ends at an inner node with this prefix, from which a key with this rest goes no further.
#[inline(always)]
fn end_at_inner(prefix: &[u8], rest: &[u8]) -> SearchEnd
    ensures { IsEndAtInner prefix.now rest.now result }
{
    match meet(prefix, rest) {
        Meeting::Same => SearchEnd::Conflict,
        Meeting::NewEnds => SearchEnd::Conflict,
        Meeting::Parts(parted) => SearchEnd::PartsFromPrefix(parted),
        Meeting::OldEnds => SearchEnd::NoChild(rest[prefix.len()]),
    }
}

// Where the search ends at a node, from which the key goes no further. What it reads of the node is counted.
#[inline(always)]
fn search_end_with<K: AsBytes, V, const PREFIX_LEN: usize>(
    reader: &mut ArenaReader<'_, K, V, PREFIX_LEN>,
    node: OpaqueNodePtr,
    key: &[u8],
    depth: usize,
) -> SearchEnd
    requires stands { (path : List ℕ) × (s : Shape K V)
        × StoresAt K.bytes PREFIX_LEN reader.old.arena.now node depth path s × BeginsWith path key.now }
    requires stops { (path : List ℕ) (s : Shape K V)
        → StoresAt K.bytes PREFIX_LEN reader.old.arena.now node depth path s
        → BeginsWith path key.now → Stops K.bytes key.now path s }
    ensures way { (path : List ℕ) (s : Shape K V)
        → StoresAt K.bytes PREFIX_LEN reader.old.arena.now node depth path s
        → BeginsWith path key.now → IsSearchEnd K.bytes key.now path s node result }
    ensures kept { reader.new.arena.now ≡ reader.old.arena.now }
    ensures counts { (path : List ℕ) (s : Shape K V)
        → StoresAt K.bytes PREFIX_LEN reader.old.arena.now node depth path s
        → ReadsExactly (prefix_reads PREFIX_LEN (erase s)) reader.old.count reader.new.count }
    ensures inside { result ≡ way.Conflict → (path : List ℕ) (s : Shape K V)
        → StoresAt K.bytes PREFIX_LEN reader.old.arena.now node depth path s
        → EndsInside (erase s) (drop depth key.now) }
    ensures least { ReadsAtLeast 1 reader.old.count reader.new.count }
    ensures few { (path : List ℕ) (s : Shape K V)
        → StoresAt K.bytes PREFIX_LEN reader.old.arena.now node depth path s
        → ForLongest K.bytes s (λ longest. reader.new.count + depth ≤ reader.old.count + (longest + 1)) }
{
    match node.cast::<KindLeaf>() {
        Some(leaf) => end_at_leaf(reader.visit_leaf(leaf), key, depth),
        None => {
            let prefix = read_full_prefix_with(reader, node, depth).prefix;
            end_at_inner(prefix, &key[depth..])
        }
    }
}

// Goes down for a key by whole prefixes, as far as it goes. What is read is counted.
#[inline(always)]
fn find_stop_with<K: AsBytes, V, const PREFIX_LEN: usize>(
    reader: &mut ArenaReader<'_, K, V, PREFIX_LEN>,
    root: OpaqueNodePtr,
    key: &[u8],
) -> Stop
    requires { HasTree K.bytes PREFIX_LEN reader.old.arena.now root }
    ensures way { OfTree K.bytes PREFIX_LEN reader.old.arena.now root
        (λ s. OnWayTo K.bytes PREFIX_LEN (node_at reader.old.arena.now) key.now s result.node
        (steps_of result.path) result.depth) }
    ensures stops { (path : List ℕ) (s : Shape K V)
        → StoresAt K.bytes PREFIX_LEN reader.old.arena.now result.node result.depth path s
        → BeginsWith path key.now → Stops K.bytes key.now path s }
    ensures kept { reader.new.arena.now ≡ reader.old.arena.now }
    ensures counts { OfTree K.bytes PREFIX_LEN reader.old.arena.now root
        (λ s. ReadsExactly (descent_reads PREFIX_LEN (erase s) key.now) reader.old.count reader.new.count) }
    ensures least { ReadsAtLeast 1 reader.old.count reader.new.count }
    ensures few { OfTree K.bytes PREFIX_LEN reader.old.arena.now root (λ s. ForLongest K.bytes s
        (λ longest. DescentReads longest result.depth reader.old.count reader.new.count)) }
{
    let mut search = TreePathSearch::default();
    let stop = descend(reader, &mut search, root, key, Passing::ByBytes);
    Stop {
        node: stop.node,
        path: search.finish(),
        depth: stop.depth,
    }
}

/// Finds where a new key goes in the tree below a name. It allocates nothing.
///
/// Fails if the key is a prefix of a stored key, or a stored key is a prefix of it. The error names the part of the
/// tree that has these keys.
#[inline(always)]
pub fn find_insert_point<K: AsBytes, V, const PREFIX_LEN: usize>(
    arena: &NodeArena<K, V, PREFIX_LEN>,
    root: OpaqueNodePtr,
    key: &[u8],
) -> Result<InsertPoint, PrefixConflict>
    requires { HasTree K.bytes PREFIX_LEN arena.now root }
    ensures value { OfTree K.bytes PREFIX_LEN arena.now root (λ s. IsPlaceOrConflict K.bytes key.now s result) }
    ensures part { IfErr result (λ e. OfTree K.bytes PREFIX_LEN arena.now root
        (λ s. IsInTheWay K.bytes key.now s e.root e.part (steps_of e.path))) }
{
    let mut reader = ArenaReader::new(arena);
    find_insert_point_with(&mut reader, root, key)
}

// What `find_insert_point` answers, by a reader that counts each node that is read. They are at most 2 * (k + 1), where
// k is the length of the longest key: two ways down from the root, of which one is that of the key.
#[inline(always)]
pub(crate) fn find_insert_point_with<K: AsBytes, V, const PREFIX_LEN: usize>(
    reader: &mut ArenaReader<'_, K, V, PREFIX_LEN>,
    root: OpaqueNodePtr,
    key: &[u8],
) -> Result<InsertPoint, PrefixConflict>
    requires { HasTree K.bytes PREFIX_LEN reader.old.arena.now root }
    ensures value { OfTree K.bytes PREFIX_LEN reader.old.arena.now root
        (λ s. IsPlaceOrConflict K.bytes key.now s result) }
    ensures part { IfErr result (λ e. OfTree K.bytes PREFIX_LEN reader.old.arena.now root
        (λ s. IsInTheWay K.bytes key.now s e.root e.part (steps_of e.path))) }
    ensures kept { reader.new.arena.now ≡ reader.old.arena.now }
    ensures counts { OfTree K.bytes PREFIX_LEN reader.old.arena.now root
        (λ s. ReadsExactly (place_reads PREFIX_LEN (erase s) key.now) reader.old.count reader.new.count) }
    ensures inside { IfErr result (λ e. OfTree K.bytes PREFIX_LEN reader.old.arena.now root
        (λ s. (there : IsInTheWay K.bytes key.now s e.root e.part (steps_of e.path))
        × EndsInside (erase there.part) (drop (length (path_to there.ctx)) key.now))) }
    ensures least { ReadsAtLeast 1 reader.old.count reader.new.count }
    ensures few { OfTree K.bytes PREFIX_LEN reader.old.arena.now root (λ s. ForLongest K.bytes s
        (λ longest. PlaceReads longest reader.old.count reader.new.count)) }
{
    let stop = find_stop_with(reader, root, key);
    let way = search_end_with(reader, stop.node, key, stop.depth);
    stop.point_or_conflict(root, way)
}

// Why a key can't be put in: it is in conflict with a stored one.
fn refusal(alloc: Global, key: &[u8]) -> InsertSearchError
    ensures { Refuses key.now result }
{
    match KeyPrefix::new(alloc, key) {
        Ok(byte_repr) => InsertSearchError::Prefix(InsertPrefixError { byte_repr }),
        Err(_) => InsertSearchError::Memory,
    }
}

/// Returns what `find_insert_point` does, but if the key is in conflict, a copy of its bytes, if there is memory for
/// one. Otherwise it allocates nothing.
pub fn search_for_insert_point<K: AsBytes, V, const PREFIX_LEN: usize>(
    alloc: Global,
    arena: &NodeArena<K, V, PREFIX_LEN>,
    root: OpaqueNodePtr,
    key: &[u8],
) -> Result<InsertPoint, InsertSearchError>
    requires { HasTree K.bytes PREFIX_LEN arena.now root }
    ensures value { OfTree K.bytes PREFIX_LEN arena.now root (λ s. IsPlaceOrConflict K.bytes key.now s result) }
    ensures refusal { IfErr result (λ e. Refuses key.now e) }
{
    match find_insert_point(arena, root, key) {
        Ok(point) => Ok(point),
        Err(_) => Err(refusal(alloc, key)),
    }
}

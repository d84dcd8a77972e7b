//! Look-ups of a key in the tree below a name.
ghost use Rattle.std.specs.Prelude.{◌≡◌, ◌<◌, ◌≤◌, ◌⊎◌, ◌↔◌, drop, IsTrue, MatchResult};
ghost use Rattle.std.specs.Str.{bytes_eq};
ghost use Rattle.art_bytes.specs.Keys.{BeginsWith};
ghost use Rattle.art_arena.specs.arena.Descents.{AgreesUpTo, passing};
ghost use Rattle.art_arena.specs.arena.Shapes.{leaves};
ghost use Rattle.art_arena.specs.tree.Tenants.{begins_with};
ghost use Rattle.art_operations.specs.Lookups.{behavior_after, landed_leaf, seen_by, takes_key};
ghost use Rattle.art_operations.specs.Lookups.{IsMatchedByBytes, IsMatchedByLength, ReadsLookUp};
ghost use Rattle.art_operations.specs.Whichever.{FindsLeaf, HasTree, OfTree};

use art_arena::{ArenaReader, Landed, LeafPtr, NodeArena, land, rest_after};
use art_bytes::AsBytes;
use art_nodes::{InnerNodeCommon, LeafNode, OpaqueNodePtr, PessimisticMismatch, PrefixMatch};

/// How a look-up matches the prefixes on its way with the bytes of a key.
#[derive(Clone, Copy, PartialEq, Eq, Debug)]
pub enum PrefixMatchBehavior {
    /// By their bytes: every prefix so far was wholly stored, and agreed with the key.
    Pessimistic,
    /// By their lengths alone, since a prefix came that isn't wholly stored. The key is compared at the leaf.
    Optimistic,
}

impl PrefixMatchBehavior {
    /// Matches the prefix of an inner node with the rest of a key: its bytes from the node's depth on. A look-up that
    /// compares bytes goes on by lengths alone from the first prefix that isn't wholly stored.
    pub fn match_prefix<N: InnerNodeCommon<PREFIX_LEN>, const PREFIX_LEN: usize>(
        &mut self,
        node: &N,
        rest: &[u8],
    ) -> Result<PrefixMatch, PessimisticMismatch>
        ensures compared { self.old ≡ PrefixMatchBehavior.Pessimistic
            → (N.inner node.now).header.prefix_len ≤ PREFIX_LEN
            → IsMatchedByBytes (N.inner node.now).header rest.now result }
        ensures by_length { (self.old ≡ PrefixMatchBehavior.Optimistic)
            ⊎ (PREFIX_LEN < (N.inner node.now).header.prefix_len)
            → IsMatchedByLength (N.inner node.now).header rest.now result }
        ensures behavior { MatchResult result
            (λ yes. self.new ≡ behavior_after PREFIX_LEN self.old (N.inner node.now).header.prefix_len)
            (λ no. self.new ≡ self.old) }
    {
        match *self {
            PrefixMatchBehavior::Pessimistic => match node.attempt_pessimistic_match_prefix(rest) {
                Ok(matched) => {
                    if matched.any_implicit_bytes {
                        *self = PrefixMatchBehavior::Optimistic;
                    }
                    Ok(PrefixMatch {
                        matched_bytes: matched.matched_bytes,
                    })
                }
                Err(mismatch) => Err(mismatch),
            },
            PrefixMatchBehavior::Optimistic => match node.optimistic_match_prefix(rest) {
                Ok(matched) => Ok(matched),
                Err(mismatch) => Err(PessimisticMismatch::from(mismatch)),
            },
        }
    }

    /// Returns whether the key of a leaf equals these bytes. If every prefix was compared, it compares from the leaf's
    /// depth on alone: what has no byte there ends there.
    pub fn matches_leaf_key<K: AsBytes, V>(
        self,
        leaf: &LeafNode<K, V>,
        key: &[u8],
        depth: usize,
    ) -> bool
        ensures { IsTrue result ↔ (seen_by self depth (K.bytes leaf.now.key) ≡ seen_by self depth key.now) }
    {
        match self {
            PrefixMatchBehavior::Pessimistic => {
                rest_after(leaf.key_ref().as_bytes(), depth) == rest_after(key, depth)
            }
            PrefixMatchBehavior::Optimistic => leaf.compare_full_key(key),
        }
    }

    /// Returns whether the key of a leaf is a prefix of these bytes, or all of them. If every prefix was compared, it
    /// compares from the leaf's depth on alone: what has no byte there ends there.
    pub fn leaf_key_is_prefix<K: AsBytes, V>(
        self,
        leaf: &LeafNode<K, V>,
        key: &[u8],
        depth: usize,
    ) -> bool
        ensures { IsTrue result ↔ BeginsWith (seen_by self depth (K.bytes leaf.now.key)) (seen_by self depth key.now) }
    {
        let front = leaf.key_ref().as_bytes();
        match self {
            PrefixMatchBehavior::Pessimistic => rest_after(key, depth).starts_with(rest_after(
                front, depth,
            )),
            PrefixMatchBehavior::Optimistic => key.starts_with(front),
        }
    }
}

/// Returns the leaf with exactly this key in the tree below a name, or `None` if there is none.
///
/// It reads nodes of the key's path, each once, up to one whose prefix, as it is stored, isn't the key's there. Nothing
/// is copied or allocated.
pub fn search_unchecked<K: AsBytes, V, const PREFIX_LEN: usize>(
    arena: &NodeArena<K, V, PREFIX_LEN>,
    root: OpaqueNodePtr,
    key: &[u8],
) -> Option<LeafPtr>
    requires { HasTree K.bytes PREFIX_LEN arena.now root }
    ensures { FindsLeaf K.bytes PREFIX_LEN arena.now root (λ k. bytes_eq k key.now) result }
{
    let mut reader = ArenaReader::new(arena);
    search_with(&mut reader, root, key)
}

/// Returns the leaf whose key is a prefix of this one, or all of it, in the tree below a name, or `None` if there is
/// none.
///
/// It reads nodes of the key's path, each once, up to one whose prefix, as it is stored, isn't the key's there. Nothing
/// is copied or allocated.
pub fn prefix_search_unchecked<K: AsBytes, V, const PREFIX_LEN: usize>(
    arena: &NodeArena<K, V, PREFIX_LEN>,
    root: OpaqueNodePtr,
    key: &[u8],
) -> Option<LeafPtr>
    requires { HasTree K.bytes PREFIX_LEN arena.now root }
    ensures { FindsLeaf K.bytes PREFIX_LEN arena.now root (λ k. begins_with k key.now) result }
{
    let mut counted = ArenaReader::new(arena);
    prefix_search_with(&mut counted, root, key)
}

// Whether a look-up takes the leaf at which it landed for its query.
#[inline(always)]
fn takes_leaf<'a, K: AsBytes, V>(landed: &Landed<'a, K, V>, query: &[u8], of_prefixes: bool) -> bool
    requires { AgreesUpTo landed.now.compared (K.bytes landed.now.leaf.now.key) query.now }
    ensures { result ≡ takes_key of_prefixes query.now (K.bytes landed.now.leaf.now.key) }
{
    if of_prefixes {
        return landed.has_prefix_of(query);
    }
    landed.has_key(query)
}

/// Returns the leaf whose key equals a query, or is a prefix of it where prefixes are asked for, in the tree below a
/// name, or `None` if there is none. The leaf is lent as long as the arena is.
///
/// The reader counts each node that is read: those of the query's path, up to one whose prefix, as it is stored, isn't
/// the query's there. The count stays at the greatest number.
#[inline(always)]
pub fn search_leaf_with<'a, K: AsBytes, V, const PREFIX_LEN: usize>(
    reader: &mut ArenaReader<'a, K, V, PREFIX_LEN>,
    root: OpaqueNodePtr,
    query: &[u8],
    of_prefixes: bool,
) -> Option<Landed<'a, K, V>>
    requires { HasTree K.bytes PREFIX_LEN reader.old.arena.now root }
    ensures value { OfTree K.bytes PREFIX_LEN reader.old.arena.now root
        (λ s. landed_leaf result ≡ passing K.bytes (takes_key of_prefixes query.now) (leaves s)) }
    ensures kept { reader.new.arena.now ≡ reader.old.arena.now }
    ensures counts { OfTree K.bytes PREFIX_LEN reader.old.arena.now root
        (λ s. ReadsLookUp PREFIX_LEN query.now s reader.old.count reader.new.count) }
{
    match land(reader, root, query) {
        Some(landed) => {
            if takes_leaf(&landed, query, of_prefixes) {
                return Some(landed);
            }
            None
        }
        None => None,
    }
}

/// Returns what `search_unchecked` does, by a reader that counts each node that is read: those of the key's path, up to
/// one whose prefix, as it is stored, isn't the key's there. The count stays at the greatest number.
pub fn search_with<K: AsBytes, V, const PREFIX_LEN: usize>(
    reader: &mut ArenaReader<'_, K, V, PREFIX_LEN>,
    root: OpaqueNodePtr,
    key: &[u8],
) -> Option<LeafPtr>
    requires { HasTree K.bytes PREFIX_LEN reader.old.arena.now root }
    ensures value { FindsLeaf K.bytes PREFIX_LEN reader.old.arena.now root (λ k. bytes_eq k key.now) result }
    ensures kept { reader.new.arena.now ≡ reader.old.arena.now }
    ensures counts { OfTree K.bytes PREFIX_LEN reader.old.arena.now root
        (λ s. ReadsLookUp PREFIX_LEN key.now s reader.old.count reader.new.count) }
{
    match search_leaf_with(reader, root, key, false) {
        Some(found) => Some(found.name),
        None => None,
    }
}

/// Returns what `prefix_search_unchecked` does, by a reader that counts each node that is read: those of the key's
/// path, up to one whose prefix, as it is stored, isn't the key's there. The count stays at the greatest number.
pub fn prefix_search_with<K: AsBytes, V, const PREFIX_LEN: usize>(
    reader: &mut ArenaReader<'_, K, V, PREFIX_LEN>,
    root: OpaqueNodePtr,
    key: &[u8],
) -> Option<LeafPtr>
    requires { HasTree K.bytes PREFIX_LEN reader.old.arena.now root }
    ensures value { FindsLeaf K.bytes PREFIX_LEN reader.old.arena.now root (λ k. begins_with k key.now) result }
    ensures kept { reader.new.arena.now ≡ reader.old.arena.now }
    ensures counts { OfTree K.bytes PREFIX_LEN reader.old.arena.now root
        (λ s. ReadsLookUp PREFIX_LEN key.now s reader.old.count reader.new.count) }
{
    match search_leaf_with(reader, root, key, true) {
        Some(found) => Some(found.name),
        None => None,
    }
}

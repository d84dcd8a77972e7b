//! A reader of a map, which counts each node that it reads.
ghost use Rattle.std.specs.Prelude.{◌≡◌, ◌≢◌, ◌+◌, ◌-◌, ◌^◌, ◌≤◌, ◌⊎◌, ◌∷◌, [], ℕ, List, bytes_eq, filter, length};
ghost use Rattle.std.specs.Prelude.{min, MatchOption, None, Some, if◌then◌else◌, option_map};
ghost use Rattle.std.specs.BTreeMap.Range.{range_contains};
ghost use Rattle.std.specs.Map.{lookup_entry};
ghost use Rattle.std.specs.Map.Iter.{deref_pair};
ghost use Rattle.std.specs.Range.Bound.{bound_map};
ghost use Rattle.art_bytes.specs.Keys.{bytes_cmp};
ghost use Rattle.art_arena.specs.arena.Shapes.{key_of};
ghost use Rattle.art_arena.specs.tree.Tenants.{begins_with};
ghost use Rattle.art_operations.specs.Openings.{bound_len, OpeningReads, ReadsAtLeast, SpanReads};
ghost use Rattle.art_operations.specs.Openings.{part_reads, range_reads};
ghost use Rattle.art_operations.specs.Pairs.{HasPairsBeside};
ghost use Rattle.art_operations.specs.Whichever.{HasSome};
ghost use Rattle.art_walks.specs.Bounds.{AreValidKeyBounds};
ghost use Rattle.art_walks.specs.MapReads.{IsSameMap, IsSpan, IsSpanOf, OfPairs, PairsWithin, ReadsMap, ReadsTree};
ghost use Rattle.art_walks.specs.MapReads.{look_up_reads};

use crate::raw_iterator::RawIterator;
use art_arena::{ArenaReader, LeafPtr, NodeArena};
use art_bytes::AsBytes;
use art_nodes::OpaqueNodePtr;
use art_operations::{find_prefix_segment_with, find_range_segment_with, search_leaf_with};
use std::marker::{Model, PhantomData};
use std::ops::Bound;

/// A run of the pairs of a map that are still to be given. It borrows nothing: a reader of the map gives them.
///
/// ```
/// use art_map::TreeMap;
/// let mut map = TreeMap::new(rt.alloc());
/// map.extend([(*b"ab", 1), (*b"ac", 2), (*b"bc", 3)])?;
/// let mut reader = map.reader();
/// let mut span = reader.prefix(b"a");
/// while let Some((_key, value)) = reader.next(&mut span) {
///     assert!(rt; *value < 3);
/// }
/// ```
#[derive(Clone, Copy, Debug)]
pub struct ReadSpan {
    leaves: RawIterator,
}

impl Model for ReadSpan {
    ghost use Rattle.art_walks.specs.Runs.{Ends};

    ghost Value = { Ends };

    ghost view = { λ span. span.leaves };

    ghost inverse = { λ ends. record { leaves = ends } };
}

impl ReadSpan {
    // From the first of these leaves to the last.
    fn of(ends: Option<(LeafPtr, LeafPtr)>) -> Self
        ensures { result ≡ ends }
    {
        let leaves = match ends {
            Some((first, last)) => RawIterator::new(first, last),
            None => RawIterator::empty(),
        };
        ReadSpan { leaves }
    }
}

/// A reader of a map, which counts each node that it reads. It has no other way to the pairs, and no call makes a
/// second reader of it. So its count, which never falls, is all that was read through it.
///
/// The last parameter is never written: it tells the borrow check that the arena lives as long as it is lent.
#[derive(Drop)]
pub struct MapReader<
    'a,
    K: AsBytes,
    V,
    const PREFIX_LEN: usize,
    M: 'a = NodeArena<K, V, PREFIX_LEN>,
> {
    reader: ArenaReader<'a, K, V, PREFIX_LEN>,
    root: Option<OpaqueNodePtr>,
    mark: PhantomData<M>,
}

impl<'a, K: AsBytes, V, const PREFIX_LEN: usize, M: 'a> Model
    for MapReader<'a, K, V, PREFIX_LEN, M> {
    ghost use Rattle.art_walks.specs.MapReads.{ReadMap, ReadsMap};

    ghost Value = { ReadMap K V };

    ghost view = { λ r. record { nodes = r.reader.arena.now; root = r.root; count = r.reader.count } };

    ghost invariant = { λ r. ReadsMap K.bytes PREFIX_LEN r.reader.arena.now r.root };
}

// A bound of bytes: those of its key.
fn bytes_of<Q: AsBytes>(bound: Bound<&Q>) -> Bound<&[u8]>
    ensures { bound_map (λ bytes. bytes.now) result ≡ bound_map (λ key. Q.bytes key.now) bound.entry }
{
    match bound {
        Bound::Included(key) => Bound::Included(key.as_bytes()),
        Bound::Excluded(key) => Bound::Excluded(key.as_bytes()),
        Bound::Unbounded => Bound::Unbounded,
    }
}

impl<'a, K: AsBytes, V, const PREFIX_LEN: usize> MapReader<'a, K, V, PREFIX_LEN> {
    /// Returns a reader that has read nothing yet, of the map of this tree. The root has to be that of the canonical
    /// tree of some pairs, whose leaves are linked in order, or there is none.
    ///
    /// ```
    /// use art_map::TreeMap;
    /// let mut map = TreeMap::new(rt.alloc());
    /// map.insert(*b"ab", 1)?;
    /// let (arena, root) = map.nodes();
    /// assert_eq!(rt; MapReader::new(arena, root).get_key_value(b"ab"), Some((b"ab", &1)));
    /// ```
    pub fn new(arena: &'a NodeArena<K, V, PREFIX_LEN>, root: Option<OpaqueNodePtr>) -> Self
        requires { HasSome (HasPairsBeside K.bytes PREFIX_LEN arena.now root) }
        ensures nodes { result.nodes ≡ arena.now }
        ensures root { result.root ≡ root }
        ensures count { result.count ≡ 0 }
    {
        MapReader {
            reader: ArenaReader::new(arena),
            root,
            mark: PhantomData,
        }
    }

    /// Returns how many nodes were read so far. A count that reaches the greatest number stays there.
    ///
    /// ```
    /// use art_map::TreeMap;
    /// let mut map = TreeMap::new(rt.alloc());
    /// map.extend([(*b"ab", 1), (*b"ac", 2)])?;
    /// let mut reader = map.reader();
    /// reader.get_key_value(b"ab");
    /// assert_eq!(rt; reader.visits(), 2);
    /// ```
    pub fn visits(&self) -> u64
        ensures { result ≡ self.now.count }
    {
        self.reader.count()
    }

    // The pair whose key is taken for a query, if there is one. Nodes of the query's path are read, up to one whose
    // prefix, as it is stored, isn't the query's there, and no others.
    #[inline(always)]
    fn pair_of(&mut self, query: &[u8], of_fronts: bool) -> Option<(&'a K, &'a V)>
        ensures value { OfPairs K.bytes PREFIX_LEN self.old.nodes self.old.root (λ pairs. option_map deref_pair result
            ≡ lookup_entry (λ k. if of_fronts then begins_with (K.bytes k) query.now
            else bytes_eq (K.bytes k) query.now) pairs) }
        ensures kept { IsSameMap self.old self.new }
        ensures counts { OfPairs K.bytes PREFIX_LEN self.old.nodes self.old.root
            (λ pairs. ReadsTree K.bytes (look_up_reads PREFIX_LEN query.now) pairs self.old.count self.new.count) }
    {
        let root = match self.root {
            Some(root) => root,
            None => return None,
        };
        let found = match search_leaf_with(&mut self.reader, root, query, of_fronts) {
            Some(found) => found,
            None => return None,
        };
        Some(found.leaf.entry_ref())
    }

    /// Returns the pair whose key has the query's bytes, if there is one. Nodes of the key's path are read, each once,
    /// up to one whose prefix, as it is stored, isn't the key's there, and no others. If a pair is found, they are the
    /// whole path.
    ///
    /// ```
    /// use art_map::TreeMap;
    /// let mut map = TreeMap::new(rt.alloc());
    /// map.insert(*b"ab", 1)?;
    /// assert_eq!(rt; map.reader().get_key_value(b"ab"), Some((b"ab", &1)));
    /// ```
    pub fn get_key_value<Q: AsBytes>(&mut self, key: &Q) -> Option<(&'a K, &'a V)>
        ensures value { OfPairs K.bytes PREFIX_LEN self.old.nodes self.old.root (λ pairs. option_map deref_pair result
            ≡ lookup_entry (λ k. bytes_eq (K.bytes k) (Q.bytes key.now)) pairs) }
        ensures kept { IsSameMap self.old self.new }
        ensures counts { OfPairs K.bytes PREFIX_LEN self.old.nodes self.old.root
            (λ pairs. ReadsTree K.bytes (look_up_reads PREFIX_LEN (Q.bytes key.now)) pairs
            self.old.count self.new.count) }
    {
        self.pair_of(key.as_bytes(), false)
    }

    /// Returns the one pair whose key is a prefix of the query's bytes, or equals them, if there is one. Nodes of the
    /// path of the query's bytes are read, as by `get_key_value`. If a pair is found, they are those of its own path.
    ///
    /// ```
    /// use art_map::TreeMap;
    /// let mut map = TreeMap::new(rt.alloc());
    /// map.insert(*b"ab", 1)?;
    /// assert_eq!(rt; map.reader().prefix_get_key_value(b"abc"), Some((b"ab", &1)));
    /// ```
    pub fn prefix_get_key_value<Q: AsBytes>(&mut self, key: &Q) -> Option<(&'a K, &'a V)>
        ensures value { OfPairs K.bytes PREFIX_LEN self.old.nodes self.old.root (λ pairs. option_map deref_pair result
            ≡ lookup_entry (λ k. begins_with (K.bytes k) (Q.bytes key.now)) pairs) }
        ensures kept { IsSameMap self.old self.new }
        ensures counts { OfPairs K.bytes PREFIX_LEN self.old.nodes self.old.root
            (λ pairs. ReadsTree K.bytes (look_up_reads PREFIX_LEN (Q.bytes key.now)) pairs
            self.old.count self.new.count) }
    {
        self.pair_of(key.as_bytes(), true)
    }

    /// Returns a span over the pairs whose keys are between two bounds, by their bytes, ascending. If the map has a
    /// pair, the bounds have to be valid, as `bounds_are_valid` tells.
    ///
    /// Which nodes are read follows from the pairs and `PREFIX_LEN`. If the map has a pair, at least one is, the root.
    /// At most 6 * (k + 2) nodes are read, where k is the length of the longest key.
    ///
    /// ```
    /// use art_map::TreeMap;
    /// use std::ops::Bound;
    /// let mut map = TreeMap::new(rt.alloc());
    /// map.extend([(*b"ab", 1), (*b"ac", 2)])?;
    /// let mut reader = map.reader();
    /// let mut span = reader.range(Bound::Excluded(b"ab"), Bound::Included(b"ac"));
    /// assert_eq!(rt; reader.next(&mut span), Some((b"ac", &2)));
    /// ```
    pub fn range<Q: AsBytes>(&mut self, start: Bound<&Q>, end: Bound<&Q>) -> ReadSpan
        requires { OfPairs K.bytes PREFIX_LEN self.old.nodes self.old.root (λ pairs. (pairs ≡ [])
            ⊎ AreValidKeyBounds (bound_map (λ key. Q.bytes key.now) start) (bound_map (λ key. Q.bytes key.now) end)) }
        ensures value { OfPairs K.bytes PREFIX_LEN self.old.nodes self.old.root
            (λ pairs. IsSpanOf self.new.nodes pairs result (filter (λ p. range_contains bytes_cmp
            (bound_map (λ key. Q.bytes key.now) start.entry) (bound_map (λ key. Q.bytes key.now) end.entry)
            (K.bytes p.0)) pairs)) }
        ensures span { IsSpan self.new.nodes result }
        ensures kept { IsSameMap self.old self.new }
        ensures counts { OfPairs K.bytes PREFIX_LEN self.old.nodes self.old.root (λ pairs. ReadsTree K.bytes
            (λ t. range_reads (key_of K.bytes) PREFIX_LEN t (bound_map (λ key. Q.bytes key.now) start.entry)
            (bound_map (λ key. Q.bytes key.now) end.entry)) pairs self.old.count self.new.count) }
        ensures least { MatchOption self.old.root (self.new.count ≡ self.old.count)
            (λ root. ReadsAtLeast 1 self.old.count self.new.count) }
        ensures few { OfPairs K.bytes PREFIX_LEN self.old.nodes self.old.root (λ pairs. (longest most : ℕ)
            → PairsWithin K.bytes longest pairs
            → bound_len (bound_map (λ key. Q.bytes key.now) start.entry) ≤ most
            → bound_len (bound_map (λ key. Q.bytes key.now) end.entry) ≤ most
            → OpeningReads longest most self.old.count self.new.count) }
        ensures linear { OfPairs K.bytes PREFIX_LEN self.old.nodes self.old.root (λ pairs. (longest : ℕ)
            → PairsWithin K.bytes longest pairs → SpanReads longest self.old.count self.new.count) }
    {
        match self.root {
            Some(root) => ReadSpan::of(find_range_segment_with(
                &mut self.reader,
                root,
                bytes_of(start),
                bytes_of(end),
            )),
            None => ReadSpan::of(None),
        }
    }

    /// Returns a span over the pairs whose keys begin with a prefix's bytes, ascending.
    ///
    /// Which nodes are read follows from the pairs and `PREFIX_LEN`. If the map has a pair, at least one is, the root.
    /// At most 6 * (k + 2) nodes are read, where k is the length of the longest key.
    ///
    /// ```
    /// use art_map::TreeMap;
    /// let mut map = TreeMap::new(rt.alloc());
    /// map.extend([(*b"ab", 1), (*b"bc", 2)])?;
    /// let mut reader = map.reader();
    /// let mut span = reader.prefix(b"b");
    /// assert_eq!(rt; reader.next(&mut span), Some((b"bc", &2)));
    /// ```
    pub fn prefix<Q: AsBytes>(&mut self, prefix: &Q) -> ReadSpan
        ensures value { OfPairs K.bytes PREFIX_LEN self.old.nodes self.old.root
            (λ pairs. IsSpanOf self.new.nodes pairs result
            (filter (λ p. begins_with (Q.bytes prefix.now) (K.bytes p.0)) pairs)) }
        ensures span { IsSpan self.new.nodes result }
        ensures kept { IsSameMap self.old self.new }
        ensures counts { OfPairs K.bytes PREFIX_LEN self.old.nodes self.old.root (λ pairs. ReadsTree K.bytes
            (λ t. part_reads (key_of K.bytes) PREFIX_LEN t (Q.bytes prefix.now)) pairs self.old.count self.new.count) }
        ensures least { MatchOption self.old.root (self.new.count ≡ self.old.count)
            (λ root. ReadsAtLeast 1 self.old.count self.new.count) }
        ensures few { OfPairs K.bytes PREFIX_LEN self.old.nodes self.old.root (λ pairs. (longest : ℕ)
            → PairsWithin K.bytes longest pairs
            → OpeningReads longest (length (Q.bytes prefix.now)) self.old.count self.new.count) }
        ensures linear { OfPairs K.bytes PREFIX_LEN self.old.nodes self.old.root (λ pairs. (longest : ℕ)
            → PairsWithin K.bytes longest pairs → SpanReads longest self.old.count self.new.count) }
    {
        match self.root {
            Some(root) => ReadSpan::of(find_prefix_segment_with(
                &mut self.reader,
                root,
                prefix.as_bytes(),
            )),
            None => ReadSpan::of(None),
        }
    }

    /// Returns the next pair of a span, which goes on after it. It returns `None` if the span has nothing more to
    /// give. One node is read for a pair, its leaf, and none if there is no pair.
    ///
    /// The span has to be one of this map: what this reader or another of the same map returned, or what this call left
    /// of it.
    ///
    /// ```
    /// use art_map::TreeMap;
    /// let mut map = TreeMap::new(rt.alloc());
    /// map.insert(*b"ab", 1)?;
    /// let mut reader = map.reader();
    /// let mut span = reader.prefix(b"a");
    /// assert_eq!(rt; reader.next(&mut span), Some((b"ab", &1)));
    /// assert_eq!(rt; reader.next(&mut span), None);
    /// ```
    pub fn next(&mut self, span: &mut ReadSpan) -> Option<(&'a K, &'a V)>
        requires { IsSpan self.old.nodes span.old }
        ensures first { (pairs : List (K × V)) (p : K × V) (left : List (K × V))
            → IsSpanOf self.old.nodes pairs span.old (p ∷ left)
            → (option_map deref_pair result ≡ Some p) × IsSpanOf self.new.nodes pairs span.new left }
        ensures end { (pairs : List (K × V)) → IsSpanOf self.old.nodes pairs span.old []
            → (result ≡ None) × IsSpanOf self.new.nodes pairs span.new [] }
        ensures span { IsSpan self.new.nodes span.new }
        ensures kept { IsSameMap self.old self.new }
        ensures counts { MatchOption result (self.new.count ≡ self.old.count)
            (λ pair. self.new.count ≡ min (self.old.count + 1) (2 ^ 64 - 1)) }
    {
        let (first, last) = span.leaves.ends()?;
        let leaf = self.reader.visit_leaf(first);
        span.leaves = RawIterator::after(first, last, leaf.next());
        Some(leaf.entry_ref())
    }
}

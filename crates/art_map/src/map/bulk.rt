//! Maps that are made of many pairs, and many pairs that are inserted one after another.
ghost use Rattle.std.specs.Prelude.{◌≡◌, ◌<◌, ◌^◌, [], IfErr, IfOk};
ghost use Rattle.std.specs.Iterator.{IsFinite};
ghost use Rattle.std.specs.Map.Iter.{deref_pair};
ghost use Rattle.art_arena.specs.arena.Shapes.{key_of};
ghost use Rattle.art_bytes.specs.Keys.{bytes_cmp};
ghost use Rattle.art_operations.specs.KeyedLists.{HasKey, with_key};
ghost use Rattle.art_map.specs.Asked.{with_pairs_put};
ghost use Rattle.art_map.specs.Bulk.{ExtendsWith, IsFirstOfList, IsMadeOf};
ghost use Rattle.art_map.specs.LeafNames.{KeepsAllLeaves};

use crate::map::TreeMap;
use crate::map::builder::TreeMapBuilder;
use crate::map::room::nodes_fit;
use art_bytes::{AsBytes, NoPrefixesBytes};
use art_operations::InsertRefused;
use std::alloc::Global;
use std::cmp::Ordering;

impl<K: NoPrefixesBytes + Drop, V: Drop, const PREFIX_LEN: usize> TreeMap<K, V, PREFIX_LEN> {
    /// Inserts the pairs that an iterator gives, one after another. Each replaces a pair whose key has the same bytes.
    /// The iterator has to end. As long as keys go after the last one of the map, no place is looked for: from the
    /// ninth pair on, or from the first one if the map is empty. See `TreeMapBuilder`.
    ///
    /// Fails only if an insertion of a pair would be out of memory, and so never with as many pairs as `reserve` made
    /// room for. The error returns that pair, whose key is not stored if nodes fit in memory (`nodes_fit`). The pairs
    /// before it stay in the map, and the iterator is dropped.
    ///
    /// ```
    /// let mut map = TreeMap::new(rt.alloc());
    /// map.extend([(*b"cd", 2), (*b"ab", 1), (*b"cd", 3)])?;
    /// assert!(rt; map.iter().eq([(b"ab", &1), (b"cd", &3)]));
    /// ```
    pub fn extend<U: IntoIterator<Item = (K, V)>>(
        &mut self,
        iter: U,
    ) -> Result<(), InsertRefused<K, V>>
        requires { (it : U.IntoIter) → U.into_iter_gives iter it
            → U.IntoIter.can_next it × IsFinite (U.IntoIter.remaining it) }
        ensures names { KeepsAllLeaves K.bytes self.old self.new }
        ensures pairs { ExtendsWith K.bytes (λ pair. pair) U.into_iter_gives U.IntoIter.next_gives iter
            self.old result self.new }
        ensures stored { PREFIX_LEN < 2 ^ 62
            → IfErr result (λ e. HasKey (key_of K.bytes) (K.bytes e.key) self.new.pairs → ⊥) }
    {
        if !self.fits_in_memory() {
            let mut pairs = iter.into_iter();
            let Some((key, value)) = pairs.next() else {
                return Ok(());
            };
            return Err(InsertRefused { key, value });
        }
        let mut builder = self.take_into_builder();
        let result = builder.put_all(iter);
        self.put_back(builder);
        result
    }

    /// Inserts copies of the keys and values that an iterator lends, as `extend` does.
    ///
    /// ```
    /// let mut first = TreeMap::new(rt.alloc());
    /// first.insert(*b"ab", 1)?;
    /// let mut second = TreeMap::new(rt.alloc());
    /// second.extend_from_refs(first.iter())?;
    /// assert_eq!(rt; second.get(b"ab"), Some(&1));
    /// ```
    pub fn extend_from_refs<'a, U: IntoIterator<Item = (&'a K, &'a V)>>(
        &mut self,
        iter: U,
    ) -> Result<(), InsertRefused<K, V>>
    where
        K: Copy + 'a,
        V: Copy + 'a,
        requires { (it : U.IntoIter) → U.into_iter_gives iter it
            → U.IntoIter.can_next it × IsFinite (U.IntoIter.remaining it) }
        ensures names { KeepsAllLeaves K.bytes self.old self.new }
        ensures pairs { ExtendsWith K.bytes deref_pair U.into_iter_gives U.IntoIter.next_gives iter
            self.old result self.new }
        ensures stored { PREFIX_LEN < 2 ^ 62
            → IfErr result (λ e. HasKey (key_of K.bytes) (K.bytes e.key) self.new.pairs → ⊥) }
    {
        if !self.fits_in_memory() {
            let mut pairs = iter.into_iter();
            let Some((key, value)) = pairs.next() else {
                return Ok(());
            };
            return Err(InsertRefused {
                key: *key,
                value: *value,
            });
        }
        let mut builder = self.take_into_builder();
        let result = builder.put_copies(iter);
        self.put_back(builder);
        result
    }

    /// Makes a map of the pairs that an iterator gives. Of pairs whose keys have the same bytes the last counts. The
    /// iterator has to end. As long as the keys ascend, no place is looked for: see `TreeMapBuilder`.
    ///
    /// Fails if there is no memory for a pair, which the error returns. All else is dropped.
    ///
    /// ```
    /// let map: TreeMap<_, _, 16> = TreeMap::from_iter(rt.alloc(), [(*b"cd", 2), (*b"ab", 1)])?;
    /// assert!(rt; map.values().eq([&1, &2]));
    /// ```
    pub fn from_iter<U: IntoIterator<Item = (K, V)>>(
        alloc: Global,
        iter: U,
    ) -> Result<Self, InsertRefused<K, V>>
        requires { (it : U.IntoIter) → U.into_iter_gives iter it
            → U.IntoIter.can_next it × IsFinite (U.IntoIter.remaining it) }
        ensures { IsMadeOf K.bytes (λ pair. pair) U.into_iter_gives U.IntoIter.next_gives iter result }
    {
        if !nodes_fit::<PREFIX_LEN>() {
            let mut pairs = iter.into_iter();
            let Some((key, value)) = pairs.next() else {
                return Ok(TreeMap::with_prefix_len(alloc));
            };
            return Err(InsertRefused { key, value });
        }
        let mut builder = TreeMapBuilder::new(alloc);
        builder.put_all(iter)?;
        Ok(builder.finish())
    }

    /// Makes a map of the pairs of a vector, as `from_iter` does. Of pairs whose keys have the same bytes the last
    /// counts. It sorts them by the bytes of their keys first, if there is memory for that, and so looks for no place.
    ///
    /// Fails if there is no memory for a pair, which the error returns. It is the first with its key. All else is
    /// dropped.
    ///
    /// ```
    /// let pairs = vec![in rt.alloc(); (*b"cd", 2), (*b"ab", 1)]?;
    /// let map: TreeMap<_, _, 16> = TreeMap::from_vec(rt.alloc(), pairs)?;
    /// assert!(rt; map.values().eq([&1, &2]));
    /// ```
    pub fn from_vec(alloc: Global, pairs: Vec<(K, V)>) -> Result<Self, InsertRefused<K, V>>
        ensures ok { IfOk result (λ made. made.pairs ≡ with_pairs_put K.bytes pairs.items []) }
        ensures err { IfErr result (IsFirstOfList K.bytes pairs.items) }
    {
        let mut pairs = pairs;
        sort_by_key_bytes(&mut pairs);
        let map = TreeMap::from_iter(alloc, pairs)?;
        // Gives the proof that its keys ascend.
        let _nodes = map.nodes();
        Ok(map)
    }
}

// Sorts pairs by the bytes of their keys, if there is memory for that. Those with the same key keep their order.
fn sort_by_key_bytes<K: AsBytes, V>(pairs: &mut Vec<(K, V)>)
    ensures { (p : K × V) → with_key (key_of K.bytes) (K.bytes p.0) pairs.new.items
        ≡ with_key (key_of K.bytes) (K.bytes p.0) pairs.old.items }
{
    let _sorted = pairs.sort_by(by_key_bytes);
}

fn by_key_bytes<K: AsBytes, V>(one: &(K, V), other: &(K, V)) -> Ordering
    ensures { result ≡ bytes_cmp (K.bytes one.now.0) (K.bytes other.now.0) }
{
    one.0.as_bytes().cmp(other.0.as_bytes())
}

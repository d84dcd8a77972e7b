//! Sets that are made of many keys, and many keys that are inserted one after another.
ghost use Rattle.std.specs.Prelude.{◌≡◌, ◌<◌, ◌^◌, [], IfErr, IfOk};
ghost use Rattle.std.specs.Iterator.{IsFinite};
ghost use Rattle.std.specs.Map.Iter.{deref};
ghost use Rattle.art_bytes.specs.Keys.{bytes_cmp};
ghost use Rattle.art_operations.specs.KeyedLists.{HasKey, with_key};
ghost use Rattle.art_set.specs.LeafNames.{KeepsAllNames};
ghost use Rattle.art_set.specs.Bulk.{ExtendsWithKeys, IsFirstOfKeys, IsMadeOfKeys};
ghost use Rattle.art_set.specs.Members.{with_keys_put};

use crate::set::TreeSet;
use crate::set::builder::{put_all, put_copies};
use crate::set::refused::RefusedKey;
use art_bytes::{AsBytes, NoPrefixesBytes};
use art_map::{TreeMapBuilder, nodes_fit};
use std::alloc::Global;
use std::cmp::Ordering;

impl<K: NoPrefixesBytes + Drop, const PREFIX_LEN: usize> TreeSet<K, PREFIX_LEN> {
    /// Inserts the keys that an iterator gives, one after another. Each replaces a key with the same bytes. The
    /// iterator has to end. As long as keys go after the last one of the set, no place is looked for: from the ninth
    /// key on, or from the first one if the set is empty. See `TreeMapBuilder`.
    ///
    /// Fails only if an insertion of a key would be out of memory, and so never with as many keys as `reserve` made
    /// room for. The error returns that key, which is no member if nodes fit in memory (`nodes_fit` of art_map). The
    /// keys before it stay in the set, and the iterator is dropped.
    ///
    /// ```
    /// let mut set = TreeSet::new(rt.alloc());
    /// set.extend([*b"cd", *b"ab", *b"cd"])?;
    /// assert!(rt; set.iter().eq([b"ab", b"cd"]));
    /// ```
    pub fn extend<U: IntoIterator<Item = K>>(&mut self, iter: U) -> Result<(), RefusedKey<K>>
        requires { (it : U.IntoIter) → U.into_iter_gives iter it
            → U.IntoIter.can_next it × IsFinite (U.IntoIter.remaining it) }
        ensures names { KeepsAllNames K.bytes self.old self.new }
        ensures keys { ExtendsWithKeys K.bytes (λ key. key) U.into_iter_gives U.IntoIter.next_gives iter
            self.old result self.new }
        ensures stored { PREFIX_LEN < 2 ^ 62
            → IfErr result (λ e. HasKey K.bytes (K.bytes e.key) self.new.keys → ⊥) }
    {
        if !self.fits_in_memory() {
            let mut keys = iter.into_iter();
            let Some(key) = keys.next() else {
                return Ok(());
            };
            return Err(RefusedKey { key });
        }
        let mut builder = self.take_into_builder();
        let result = put_all(&mut builder, iter);
        self.put_back(builder);
        result
    }

    /// Inserts copies of the keys that an iterator lends, as `extend` does.
    ///
    /// ```
    /// let mut first = TreeSet::new(rt.alloc());
    /// first.insert(*b"ab")?;
    /// let mut second = TreeSet::new(rt.alloc());
    /// second.extend_from_refs(first.iter())?;
    /// assert!(rt; second.contains(b"ab"));
    /// ```
    pub fn extend_from_refs<'a, U: IntoIterator<Item = &'a K>>(
        &mut self,
        iter: U,
    ) -> Result<(), RefusedKey<K>>
    where
        K: Copy + 'a,
        requires { (it : U.IntoIter) → U.into_iter_gives iter it
            → U.IntoIter.can_next it × IsFinite (U.IntoIter.remaining it) }
        ensures names { KeepsAllNames K.bytes self.old self.new }
        ensures keys { ExtendsWithKeys K.bytes deref U.into_iter_gives U.IntoIter.next_gives iter
            self.old result self.new }
        ensures stored { PREFIX_LEN < 2 ^ 62
            → IfErr result (λ e. HasKey K.bytes (K.bytes e.key) self.new.keys → ⊥) }
    {
        if !self.fits_in_memory() {
            let mut keys = iter.into_iter();
            let Some(key) = keys.next() else {
                return Ok(());
            };
            return Err(RefusedKey { key: *key });
        }
        let mut builder = self.take_into_builder();
        let result = put_copies(&mut builder, iter);
        self.put_back(builder);
        result
    }

    /// Makes a set of the keys that an iterator gives. Of keys with the same bytes the last counts. The iterator has to
    /// end. As long as the keys ascend, no place is looked for.
    ///
    /// Fails if there is no memory for a key, which the error returns. All else is dropped.
    ///
    /// ```
    /// let set: TreeSet<_, 16> = TreeSet::from_iter(rt.alloc(), [*b"cd", *b"ab"])?;
    /// assert!(rt; set.iter().eq([b"ab", b"cd"]));
    /// ```
    pub fn from_iter<U: IntoIterator<Item = K>>(
        alloc: Global,
        iter: U,
    ) -> Result<Self, RefusedKey<K>>
        requires { (it : U.IntoIter) → U.into_iter_gives iter it
            → U.IntoIter.can_next it × IsFinite (U.IntoIter.remaining it) }
        ensures { IsMadeOfKeys K.bytes (λ key. key) U.into_iter_gives U.IntoIter.next_gives iter result }
    {
        if !nodes_fit::<PREFIX_LEN>() {
            let mut keys = iter.into_iter();
            let Some(key) = keys.next() else {
                return Ok(TreeSet::with_prefix_len(alloc));
            };
            return Err(RefusedKey { key });
        }
        let mut builder = TreeMapBuilder::new(alloc);
        put_all(&mut builder, iter)?;
        let map = builder.finish();
        Ok(TreeSet { alloc, map })
    }

    /// Makes a set of the keys of a vector, as `from_iter` does. Of keys with the same bytes the last counts. It sorts
    /// them by their bytes first, if there is memory for that, and so looks for no place.
    ///
    /// Fails if there is no memory for a key, which the error returns. It is the first with its bytes. All else is
    /// dropped.
    ///
    /// ```
    /// let keys = vec![in rt.alloc(); *b"cd", *b"ab"]?;
    /// let set: TreeSet<_, 16> = TreeSet::from_vec(rt.alloc(), keys)?;
    /// assert!(rt; set.iter().eq([b"ab", b"cd"]));
    /// ```
    pub fn from_vec(alloc: Global, keys: Vec<K>) -> Result<Self, RefusedKey<K>>
        ensures ok { IfOk result (λ made. made.keys ≡ with_keys_put K.bytes keys.items []) }
        ensures err { IfErr result (IsFirstOfKeys K.bytes keys.items) }
    {
        let mut keys = keys;
        sort_by_bytes(&mut keys);
        let set = TreeSet::from_iter(alloc, keys)?;
        // Gives the proof that its keys ascend.
        let _nodes = set.nodes();
        Ok(set)
    }
}

// Sorts keys by their bytes, if there is memory for that. Those with the same bytes keep their order.
fn sort_by_bytes<K: AsBytes>(keys: &mut Vec<K>)
    ensures { (k : K) → with_key K.bytes (K.bytes k) keys.new.items ≡ with_key K.bytes (K.bytes k) keys.old.items }
{
    let _sorted = keys.sort_by(by_bytes);
}

fn by_bytes<K: AsBytes>(one: &K, other: &K) -> Ordering
    ensures { result ≡ bytes_cmp (K.bytes one.now) (K.bytes other.now) }
{
    one.as_bytes().cmp(other.as_bytes())
}

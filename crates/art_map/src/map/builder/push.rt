//! `push`: a pair goes in after all others, or is handed back.
ghost use Rattle.std.specs.Prelude.{◌≡◌, ◌+◌, ◌<◌, ◌≤◌, ◌^◌, ℕ, List, false, IfErr, IsOk, MatchBool, OnErr, OnOk};
ghost use Rattle.art_arena.specs.arena.Arena.{HasRoom};
ghost use Rattle.art_bytes.specs.Keys.{IsBefore};
ghost use Rattle.art_operations.specs.Builders.{IsAfterAll, IsPushRefused};
ghost use Rattle.art_operations.specs.LeafNames.{HasLeavesOf};
ghost use Rattle.art_operations.specs.Pairs.{with_pair_put};
ghost use Rattle.art_map.specs.Builders.{HasGathered, HasRoomLeft, KeepsRoomLeft, nodes_of};

use crate::map::TreeMap;
use crate::map::builder::TreeMapBuilder;
use art_bytes::AsBytes;
use art_nodes::assume_proved;
use art_operations::{PairRefused, PushRefused};

impl<K: AsBytes + Drop, V: Drop, const PREFIX_LEN: usize> TreeMapBuilder<K, V, PREFIX_LEN> {
    /// Takes a pair whose key goes after all that it has: from each it parts, and goes on by a greater byte. So where
    /// keys have to ascend, each is compared once, with the one before it. No place is looked for.
    ///
    /// Fails with `NotAfter` if the key doesn't go there: it comes before the last, has its bytes, or one of both is a
    /// prefix of the other. Fails with `Memory` only if an insertion of the pair would be out of memory. The error
    /// returns the pair, and the builder has the pairs that it had: `try_put` takes it where it belongs.
    ///
    /// ```
    /// let mut builder: TreeMapBuilder<_, _, 16> = TreeMapBuilder::new(rt.alloc());
    /// builder.push(*b"cd", 1)?;
    /// assert!(rt; matches!(builder.push(*b"ab", 2), Err(PushRefused::NotAfter { .. })));
    /// builder.push(*b"ef", 3)?;
    /// assert!(rt; builder.finish().keys().eq([b"cd", b"ef"]));
    /// ```
    pub fn push(&mut self, key: K, value: V) -> Result<(), PushRefused<K, V>>
        requires fits_in_memory { PREFIX_LEN < 2 ^ 62 }
        requires taken { (pairs : List (K × V)) × HasGathered K.bytes K.is_key self.old pairs }
        ensures ok { OnOk result ((pairs : List (K × V)) → HasGathered K.bytes K.is_key self.old pairs
            → HasGathered K.bytes K.is_key self.new (with_pair_put K.bytes key value pairs)) }
        ensures after { OnOk result ((pairs : List (K × V)) → HasGathered K.bytes K.is_key self.old pairs
            → IsAfterAll K.bytes (K.bytes key) pairs) }
        ensures refused { IfErr result (λ e. (pairs : List (K × V)) → HasGathered K.bytes K.is_key self.old pairs
            → IsPushRefused key value (IsAfterAll K.bytes (K.bytes key) pairs) e) }
        ensures kept { OnErr result ((pairs : List (K × V)) → HasGathered K.bytes K.is_key self.old pairs
            → HasGathered K.bytes K.is_key self.new pairs) }
        ensures names { HasLeavesOf K.bytes (nodes_of self.new) (nodes_of self.old) }
        ensures succeeds { HasRoomLeft self.old 2 → (pairs : List (K × V))
            → HasGathered K.bytes K.is_key self.old pairs → IsAfterAll K.bytes (K.bytes key) pairs → IsOk result }
        ensures room { (n : ℕ) → HasRoomLeft self.old (n + 2) → HasRoomLeft self.new n }
        ensures kept_room { OnErr result (KeepsRoomLeft self.old self.new) }
    {
        if !self.in_order {
            return self.push_onto_map(key, value);
        }
        // Its bytes tell that it is a key.
        let _key_bytes = key.as_bytes();
        match self.builder.push(&mut self.arena, key, value) {
            Ok(()) => Ok(()),
            Err(PushRefused::NotAfter { key, value }) => Err(PushRefused::NotAfter { key, value }),
            Err(PushRefused::Memory { key, value }) => self.put_last(key, value),
        }
    }

    // Does it where pairs are inserted: the map's tree is opened again if the key goes after all.
    fn push_onto_map(&mut self, key: K, value: V) -> Result<(), PushRefused<K, V>>
        requires fits_in_memory { PREFIX_LEN < 2 ^ 62 }
        requires settled { self.old.in_order ≡ false }
        ensures ok { OnOk result (HasGathered K.bytes K.is_key self.new
            (with_pair_put K.bytes key value self.old.map.pairs)) }
        ensures after { OnOk result (IsAfterAll K.bytes (K.bytes key) self.old.map.pairs) }
        ensures refused { IfErr result
            (IsPushRefused key value (IsAfterAll K.bytes (K.bytes key) self.old.map.pairs)) }
        ensures kept { OnErr result (HasGathered K.bytes K.is_key self.new self.old.map.pairs) }
        ensures names { HasLeavesOf K.bytes (nodes_of self.new) self.old.map.nodes }
        ensures succeeds { HasRoom self.old.map.nodes 2 → IsAfterAll K.bytes (K.bytes key) self.old.map.pairs
            → IsOk result }
        ensures room { (n : ℕ) → HasRoom self.old.map.nodes (n + 2) → HasRoomLeft self.new n }
        ensures kept_room { OnErr result ((n : ℕ) → 1 ≤ n → HasRoom self.old.map.nodes n → HasRoomLeft self.new n) }
    {
        if !self.map.ends_below(key.as_bytes()) {
            return Err(PushRefused::NotAfter { key, value });
        }
        self.reopen();
        self.put_last(key, value)
    }

    // Takes a pair whose key goes after all, by a search too where there is no memory to do without.
    fn put_last(&mut self, key: K, value: V) -> Result<(), PushRefused<K, V>>
        requires fits_in_memory { PREFIX_LEN < 2 ^ 62 }
        requires taken { (pairs : List (K × V)) × HasGathered K.bytes K.is_key self.old pairs
            × IsAfterAll K.bytes (K.bytes key) pairs }
        ensures ok { OnOk result ((pairs : List (K × V)) → HasGathered K.bytes K.is_key self.old pairs
            → HasGathered K.bytes K.is_key self.new (with_pair_put K.bytes key value pairs)) }
        ensures refused { IfErr result (IsPushRefused key value (Unit {0})) }
        ensures kept { OnErr result ((pairs : List (K × V)) → HasGathered K.bytes K.is_key self.old pairs
            → HasGathered K.bytes K.is_key self.new pairs) }
        ensures names { HasLeavesOf K.bytes (nodes_of self.new) (nodes_of self.old) }
        ensures succeeds { HasRoomLeft self.old 2 → IsOk result }
        ensures room { (n : ℕ) → HasRoomLeft self.old (n + 2) → HasRoomLeft self.new n }
        ensures kept_room { OnErr result (KeepsRoomLeft self.old self.new) }
    {
        match self.put_on(key, value) {
            Ok(()) => Ok(()),
            Err(PairRefused::Memory { key, value }) => Err(PushRefused::Memory { key, value }),
            Err(PairRefused::Conflict { .. }) => {
                assume_proved(false);
                unreachable!()
            }
        }
    }
}

impl<K: AsBytes, V, const PREFIX_LEN: usize> TreeMap<K, V, PREFIX_LEN> {
    // Whether a key goes after all.
    fn ends_below(&self, key: &[u8]) -> bool
        ensures { MatchBool result (IsAfterAll K.bytes key.now self.now.pairs)
            (IsAfterAll K.bytes key.now self.now.pairs → ⊥) }
    {
        // Tells that the keys ascend.
        let (_nodes, _root) = self.nodes();
        match self.last_key_value() {
            Some((last, _)) => goes_after(last.as_bytes(), key),
            None => true,
        }
    }
}

// Whether a key parts from another, and goes on by a greater byte.
fn goes_after(other: &[u8], key: &[u8]) -> bool
    ensures { MatchBool result (IsBefore other.now key.now) (IsBefore other.now key.now → ⊥) }
{
    if key.starts_with(other) {
        return false;
    }
    other.cmp(key).is_lt()
}

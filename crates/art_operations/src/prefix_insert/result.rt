//! What a prefix insertion returns.
ghost use Rattle.std.specs.Prelude.{◌≡◌};
ghost use Rattle.art_operations.specs.Overwrites.{removed_by};

use crate::insert::result::InsertResult;

/// What a prefix insertion returns.
#[derive(Debug, Drop)]
pub struct PrefixInsertResult<K, V> {
    /// What was inserted, and where. A single leaf that gave way, or that had the key, is its `existing_leaf`, with
    /// open ends.
    pub insert_result: InsertResult<K, V>,
    /// How many leaves gave way together, with the inner nodes above them: 0 if none did, or a single one.
    pub leafs_removed: usize,
}

impl<K, V> PrefixInsertResult<K, V> {
    /// Returns how many pairs are no more: those with a key in conflict with the new one, or the one with its key.
    pub fn pairs_removed(&self) -> usize
        ensures { result ≡ removed_by self.now }
    {
        match self.insert_result.existing_leaf {
            Some(_) => 1,
            None => self.leafs_removed,
        }
    }
}

//! The errors of insertions and entries.

use art_operations::InsertPrefixError;
use thiserror::Error;

/// Why a pair was not inserted. The error returns the pair, and the map is unchanged.
#[derive(Debug, Drop, Error)]
pub enum TryInsertError<K, V> {
    /// The key is a prefix of a stored key, or a stored key is a prefix of it.
    #[error("the key begins a stored key, or a stored key begins it")]
    Prefix {
        /// The key.
        key: K,
        /// The value.
        value: V,
        /// The bytes of the key.
        error: InsertPrefixError,
    },
    /// The call was out of memory.
    #[error("no memory for a pair, or for the bytes of a key that can't be put in")]
    Memory {
        /// The key.
        key: K,
        /// The value.
        value: V,
    },
}

/// Why the entry of a key was not given. The error returns the key, and the map is unchanged.
#[derive(Debug, Drop, Error)]
pub enum TryKeyError<K> {
    /// The key is a prefix of a stored key, or a stored key is a prefix of it.
    #[error("the key begins a stored key, or a stored key begins it")]
    Prefix {
        /// The key.
        key: K,
        /// The bytes of the key.
        error: InsertPrefixError,
    },
    /// The call was out of memory.
    #[error("no memory for the bytes of a key")]
    Memory {
        /// The key.
        key: K,
    },
}

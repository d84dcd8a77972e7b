//! Why a key was not inserted.

use thiserror::Error;

/// The call was out of memory for a key. The error returns the key, and the set is unchanged.
#[derive(Debug, Drop, Error)]
#[error("no memory for a key")]
pub struct RefusedKey<K> {
    /// The key.
    pub key: K,
}

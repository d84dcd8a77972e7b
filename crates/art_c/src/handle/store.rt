//! What a handle has.
use super::kept::Kept;
use crate::bytes::Bytes;

/// A map of one of the two kinds.
#[derive(Drop)]
pub enum Store {
    /// A map of words.
    Words(Kept<u64>),
    /// A map of bytes.
    Bytes(Kept<Bytes>),
}

//! Keys as bytes: what a key's bytes are, and the mappings that give numbers, addresses, lists and tuples their bytes.
//! A layer above relies on `as_bytes`, which lends exactly `bytes k`, and on the laws of the marker traits. The
//! definitions stand in `specs/`: byte strings in `Keys`, numbers in `Numbers`, mappings in `Mappings`.
//!
//! ```
//! use art_bytes::AsBytes;
//! assert_eq!(rt; StrKey("ab").as_bytes(), b"ab".as_slice());
//! let key = Mapped::<ToUBE, u32>::new(rt.alloc(), 258)?;
//! assert_eq!(rt; key.as_bytes(), [0, 0, 1, 2].as_slice());
//! assert_eq!(rt; key.get(rt.alloc())?, 258);
//! ```
#![tactic(auto)]

mod as_bytes;
mod fixed;
mod history;
mod keys;
pub mod laws;
mod mapped;
mod mapping;
mod mappings;

pub use as_bytes::{AsBytes, CloneBytes, NoPrefixesBytes, OrderedBytes};
pub use fixed::{Address, FixedBytes, Signed, StoredAsNumber, Unsigned};
pub use history::{Count, History, Piece};
pub use keys::{SliceKey, StrKey, ZeroEnded, ZeroEndedError};
pub use mapped::Mapped;
pub use mapping::{BytesMapping, FixedBytesMapping, NoPrefixesMapping, OrderedMapping};
pub use mappings::{ConcatTuple, Identity, Parts, ToIBE, ToOctets, ToUBE};

//! Callers of art_bytes, of which its README.md shows one.

ghost use Rattle.std.specs.Prelude.{◌≡◌, nat_eq};
ghost use Rattle.std.specs.Cmp.Lexicographic.{pointwise};

use art_bytes::{AsBytes, ConcatTuple, Mapped, ToIBE, ToUBE};
use std::alloc::{AllocError, Global};

pub type NumberKey = Mapped<ConcatTuple<(ToUBE, ToIBE)>, (u32, i64)>;

pub fn number_key(alloc: Global, tenant: u32, number: i64) -> Result<NumberKey, AllocError> {
    NumberKey::new(alloc, (tenant, number))
}

pub fn bytes_are<K: AsBytes>(key: &K, bytes: &[u8]) -> bool
    ensures { result ≡ pointwise nat_eq (K.bytes key.now) bytes.now }
{
    key.as_bytes() == bytes
}

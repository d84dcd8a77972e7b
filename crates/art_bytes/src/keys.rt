//! The keys that are bytes already, and those that stand for another key.
ghost use Rattle.std.specs.Prelude.{◌≡◌, length, refl};
ghost use Rattle.std.specs.String.{string_bytes};
ghost use Rattle.std.proofs.Common.{ap};
ghost use Rattle.std.specs.List.{each_same};
ghost use Rattle.art_bytes.specs.Keys.{AreBytes};
ghost use Rattle.art_bytes.specs.lemmas.KeyLaws.{BeginsWith-same_length};

mod slices;
mod zero_ended;

use crate::as_bytes::{AsBytes, CloneBytes, NoPrefixesBytes, OrderedBytes};
pub use slices::{SliceKey, StrKey};
use std::rc::Rc;
pub use zero_ended::{ZeroEnded, ZeroEndedError};

impl AsBytes for Vec<u8> {
    ghost is_key = { λ k. AreBytes k.items };

    ghost bytes = { λ k. k.items };

    ghost bytes_fit = { λ k h. h };

    fn as_bytes(&self) -> &[u8] {
        Vec::as_slice(self)
    }
}

impl OrderedBytes for Vec<u8> {
    ghost ordered = { λ k l hk hl. refl };
}

impl<const N: usize> AsBytes for [u8; N] {
    ghost is_key = { λ k. AreBytes k × (length k ≡ N) };

    ghost bytes = { λ k. k };

    ghost bytes_fit = { λ k h. h.0 };

    fn as_bytes(&self) -> &[u8] {
        let bytes = self.as_slice();
        bytes
    }
}

impl<const N: usize> NoPrefixesBytes for [u8; N] {
    ghost no_prefixes = { λ k l hk hl. BeginsWith-same_length k l N hk.1 hl.1 };
}

impl<const N: usize> OrderedBytes for [u8; N] {
    ghost ordered = { λ k l hk hl. refl };
}

impl<T: AsBytes> AsBytes for &T {
    ghost is_key = { λ k. T.is_key k.now };

    ghost bytes = { λ k. T.bytes k.now };

    ghost bytes_fit = { λ k h. T.bytes_fit k.now h };

    fn as_bytes(&self) -> &[u8] {
        T::as_bytes(*self)
    }
}

impl<T: NoPrefixesBytes> NoPrefixesBytes for &T {
    ghost no_prefixes = { λ k l. T.no_prefixes k.now l.now };
}

impl<T: OrderedBytes> OrderedBytes for &T {
    ghost ordered = { λ k l. T.ordered k.now l.now };
}

impl<T: AsBytes> AsBytes for Box<T> {
    ghost is_key = { λ k. T.is_key k.value };

    ghost bytes = { λ k. T.bytes k.value };

    ghost bytes_fit = { λ k h. T.bytes_fit k.value h };

    fn as_bytes(&self) -> &[u8] {
        T::as_bytes(self)
    }
}

impl<T: NoPrefixesBytes> NoPrefixesBytes for Box<T> {
    ghost no_prefixes = { λ k l. T.no_prefixes k.value l.value };
}

impl<T: OrderedBytes> OrderedBytes for Box<T> {
    ghost ordered = { λ k l. T.ordered k.value l.value };
}

impl<T: AsBytes> AsBytes for Rc<T> {
    ghost is_key = { λ k. T.is_key k.value };

    ghost bytes = { λ k. T.bytes k.value };

    ghost bytes_fit = { λ k h. T.bytes_fit k.value h };

    fn as_bytes(&self) -> &[u8] {
        let shared: &T = self;
        shared.as_bytes()
    }
}

impl<T: NoPrefixesBytes> NoPrefixesBytes for Rc<T> {
    ghost no_prefixes = { λ k l. T.no_prefixes k.value l.value };
}

impl<T: OrderedBytes> OrderedBytes for Rc<T> {
    ghost ordered = { λ k l. T.ordered k.value l.value };
}

impl AsBytes for String {
    ghost is_key = { λ k. AreBytes (string_bytes k) };

    ghost bytes = { λ k. string_bytes k };

    ghost bytes_fit = { λ k h. h };

    fn as_bytes(&self) -> &[u8] {
        let bytes = String::as_bytes(self);
        bytes
    }
}

impl OrderedBytes for String {
    ghost ordered = { λ k l hk hl. refl };
}

impl CloneBytes for Vec<u8> {
    ghost same_bytes = { λ k l h. each_same k.items l.items h.0 };
}

impl<const N: usize> CloneBytes for [u8; N] {
    ghost same_bytes = { λ k l h. each_same k l h.whole };
}

impl<T: AsBytes> CloneBytes for &T {
    ghost same_bytes = { λ k l h. ap (λ it. T.bytes it.now) h };
}

impl<T: AsBytes + Drop> CloneBytes for Rc<T> {
    ghost same_bytes = { λ k l h. ap T.bytes h };
}

impl<T: CloneBytes> CloneBytes for Box<T> {
    ghost same_bytes = { λ k l h. T.same_bytes k.value l.value h };
}

impl CloneBytes for String {
    ghost same_bytes = { λ k l h. h };
}

//! The unsigned numbers.
//!
//! `Coding` ties the mapping to what the bytes are kept in, so `ToUBE` and `ToIBE` are implemented once each. A struct
//! for each coding was proved, too, but its callers could not be.
#![tactic(auto, using(crate::specs::lemmas::NumberLaws::be_bytes_16))]

ghost use Rattle.std.specs.Prelude.{◌<◌, ◌^◌};
ghost use Rattle.art_bytes.specs.Numbers.{big_endian};
ghost use Rattle.std.proofs.Common.{lit<};
ghost use Rattle.art_bytes.specs.lemmas.FixedLaws.{unsigned_bytes};

use super::{FixedBytes, array_of};
use crate::mapping::BytesMapping;

/// A number without a sign, one that is not 0, or a vector or an array of these.
pub trait Unsigned: Sized {
    /// What its bytes are kept in, which is also the mapping that gives them.
    type Coding: BytesMapping<Self>;
}

impl Unsigned for u8 {
    type Coding = [u8; 1];
}

impl Unsigned for u16 {
    type Coding = [u8; 2];
}

impl Unsigned for u32 {
    type Coding = [u8; 4];
}

impl Unsigned for u64 {
    type Coding = [u8; 8];
}

impl Unsigned for u128 {
    type Coding = [u8; 16];
}

impl FixedBytes for u8 {
    type Array = [u8; 1];

    ghost WIDTH = { 1 };

    const WIDTH: usize = 1;

    ghost is_value = { λ n. n < 256 ^ 1 };

    ghost fixed_bytes = { big_endian 1 };

    ghost have_bytes = { unsigned_bytes 1 (lit< tt) };

    fn placeholder() -> u8 {
        0
    }

    fn to_array(self) -> [u8; 1] {
        self.to_be_bytes()
    }

    fn checked_from_slice(bytes: &[u8]) -> Option<u8> {
        Some(u8::from_be_bytes(array_of(bytes)))
    }
}

impl FixedBytes for u16 {
    type Array = [u8; 2];

    ghost WIDTH = { 2 };

    const WIDTH: usize = 2;

    ghost is_value = { λ n. n < 256 ^ 2 };

    ghost fixed_bytes = { big_endian 2 };

    ghost have_bytes = { unsigned_bytes 2 (lit< tt) };

    fn placeholder() -> u16 {
        0
    }

    fn to_array(self) -> [u8; 2] {
        self.to_be_bytes()
    }

    fn checked_from_slice(bytes: &[u8]) -> Option<u16> {
        Some(u16::from_be_bytes(array_of(bytes)))
    }
}

impl FixedBytes for u32 {
    type Array = [u8; 4];

    ghost WIDTH = { 4 };

    const WIDTH: usize = 4;

    ghost is_value = { λ n. n < 256 ^ 4 };

    ghost fixed_bytes = { big_endian 4 };

    ghost have_bytes = { unsigned_bytes 4 (lit< tt) };

    fn placeholder() -> u32 {
        0
    }

    fn to_array(self) -> [u8; 4] {
        self.to_be_bytes()
    }

    fn checked_from_slice(bytes: &[u8]) -> Option<u32> {
        Some(u32::from_be_bytes(array_of(bytes)))
    }
}

impl FixedBytes for u64 {
    type Array = [u8; 8];

    ghost WIDTH = { 8 };

    const WIDTH: usize = 8;

    ghost is_value = { λ n. n < 256 ^ 8 };

    ghost fixed_bytes = { big_endian 8 };

    ghost have_bytes = { unsigned_bytes 8 (lit< tt) };

    fn placeholder() -> u64 {
        0
    }

    fn to_array(self) -> [u8; 8] {
        self.to_be_bytes()
    }

    fn checked_from_slice(bytes: &[u8]) -> Option<u64> {
        Some(u64::from_be_bytes(array_of(bytes)))
    }
}

impl FixedBytes for u128 {
    type Array = [u8; 16];

    ghost WIDTH = { 16 };

    const WIDTH: usize = 16;

    ghost is_value = { λ n. n < 256 ^ 16 };

    ghost fixed_bytes = { big_endian 16 };

    ghost have_bytes = { unsigned_bytes 16 (lit< tt) };

    fn placeholder() -> u128 {
        0
    }

    fn to_array(self) -> [u8; 16] {
        self.to_be_bytes()
    }

    fn checked_from_slice(bytes: &[u8]) -> Option<u128> {
        Some(u128::from_be_bytes(array_of(bytes)))
    }
}

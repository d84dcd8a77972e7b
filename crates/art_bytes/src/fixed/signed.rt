//! The signed numbers: each is stored as its two's complement with the top bit flipped.
ghost use Rattle.std.specs.Prelude.{◌<◌, ◌^◌, FitsSigned};
ghost use Rattle.std.specs.Ordering.{int_cmp};
ghost use Rattle.std.proofs.Common.{lit<};
ghost use Rattle.art_bytes.specs.lemmas.FixedLaws.{stored_bytes, unsigned_bytes};
ghost use Rattle.std.specs.Int.{w8, w16, w32, w64, w128};
ghost use Rattle.art_bytes.specs.Numbers.{big_endian, flipped};
ghost use Rattle.art_bytes.specs.lemmas.FlipLaws.{flipped-injective, int_cmp-flipped};

use super::stored::read_stored;
use super::{FixedBytes, StoredAsNumber};
use crate::mapping::BytesMapping;

/// A number with a sign, one that is not 0, or a vector or an array of these. The negative ones come first.
pub trait Signed: Sized {
    /// What its bytes are kept in, which is also the mapping that gives them.
    type Coding: BytesMapping<Self>;
}

impl Signed for i8 {
    type Coding = [u8; 1];
}

impl StoredAsNumber for i8 {
    type Number = u8;

    ghost in_range = { FitsSigned w8 };

    ghost stored = { flipped w8 };

    ghost one_value = { flipped-injective w8 };

    ghost same_order = { int_cmp-flipped w8 };

    fn to_number(self) -> u8 {
        self.cast_unsigned() ^ (1 << 7)
    }

    fn from_number(number: u8) -> Option<i8> {
        Some((number ^ (1 << 7)).cast_signed())
    }
}

impl Signed for i16 {
    type Coding = [u8; 2];
}

impl StoredAsNumber for i16 {
    type Number = u16;

    ghost in_range = { FitsSigned w16 };

    ghost stored = { flipped w16 };

    ghost one_value = { flipped-injective w16 };

    ghost same_order = { int_cmp-flipped w16 };

    fn to_number(self) -> u16 {
        self.cast_unsigned() ^ (1 << 15)
    }

    fn from_number(number: u16) -> Option<i16> {
        Some((number ^ (1 << 15)).cast_signed())
    }
}

impl Signed for i32 {
    type Coding = [u8; 4];
}

impl StoredAsNumber for i32 {
    type Number = u32;

    ghost in_range = { FitsSigned w32 };

    ghost stored = { flipped w32 };

    ghost one_value = { flipped-injective w32 };

    ghost same_order = { int_cmp-flipped w32 };

    fn to_number(self) -> u32 {
        self.cast_unsigned() ^ (1 << 31)
    }

    fn from_number(number: u32) -> Option<i32> {
        Some((number ^ (1 << 31)).cast_signed())
    }
}

impl Signed for i64 {
    type Coding = [u8; 8];
}

impl StoredAsNumber for i64 {
    type Number = u64;

    ghost in_range = { FitsSigned w64 };

    ghost stored = { flipped w64 };

    ghost one_value = { flipped-injective w64 };

    ghost same_order = { int_cmp-flipped w64 };

    fn to_number(self) -> u64 {
        self.cast_unsigned() ^ (1 << 63)
    }

    fn from_number(number: u64) -> Option<i64> {
        Some((number ^ (1 << 63)).cast_signed())
    }
}

impl Signed for i128 {
    type Coding = [u8; 16];
}

impl StoredAsNumber for i128 {
    type Number = u128;

    ghost in_range = { FitsSigned w128 };

    ghost stored = { flipped w128 };

    ghost one_value = { flipped-injective w128 };

    ghost same_order = { int_cmp-flipped w128 };

    fn to_number(self) -> u128 {
        self.cast_unsigned() ^ (1 << 127)
    }

    fn from_number(number: u128) -> Option<i128> {
        Some((number ^ (1 << 127)).cast_signed())
    }
}

impl FixedBytes for i8 {
    type Array = [u8; 1];

    ghost WIDTH = { 1 };

    const WIDTH: usize = 1;

    ghost is_value = { λ v. FitsSigned w8 v × (flipped w8 v < 256 ^ 1) };

    ghost fixed_bytes = { λ v. big_endian 1 (flipped w8 v) };

    ghost have_bytes = { stored_bytes (flipped w8) (FitsSigned w8) int_cmp 1 _ _ _ (flipped-injective w8)
        (int_cmp-flipped w8) (unsigned_bytes 1 (lit< tt)) };

    fn placeholder() -> i8 {
        0
    }

    fn to_array(self) -> [u8; 1] {
        self.to_number().to_array()
    }

    fn checked_from_slice(bytes: &[u8]) -> Option<i8> {
        read_stored(bytes)
    }
}

impl FixedBytes for i16 {
    type Array = [u8; 2];

    ghost WIDTH = { 2 };

    const WIDTH: usize = 2;

    ghost is_value = { λ v. FitsSigned w16 v × (flipped w16 v < 256 ^ 2) };

    ghost fixed_bytes = { λ v. big_endian 2 (flipped w16 v) };

    ghost have_bytes = { stored_bytes (flipped w16) (FitsSigned w16) int_cmp 2 _ _ _ (flipped-injective w16)
        (int_cmp-flipped w16) (unsigned_bytes 2 (lit< tt)) };

    fn placeholder() -> i16 {
        0
    }

    fn to_array(self) -> [u8; 2] {
        self.to_number().to_array()
    }

    fn checked_from_slice(bytes: &[u8]) -> Option<i16> {
        read_stored(bytes)
    }
}

impl FixedBytes for i32 {
    type Array = [u8; 4];

    ghost WIDTH = { 4 };

    const WIDTH: usize = 4;

    ghost is_value = { λ v. FitsSigned w32 v × (flipped w32 v < 256 ^ 4) };

    ghost fixed_bytes = { λ v. big_endian 4 (flipped w32 v) };

    ghost have_bytes = { stored_bytes (flipped w32) (FitsSigned w32) int_cmp 4 _ _ _ (flipped-injective w32)
        (int_cmp-flipped w32) (unsigned_bytes 4 (lit< tt)) };

    fn placeholder() -> i32 {
        0
    }

    fn to_array(self) -> [u8; 4] {
        self.to_number().to_array()
    }

    fn checked_from_slice(bytes: &[u8]) -> Option<i32> {
        read_stored(bytes)
    }
}

impl FixedBytes for i64 {
    type Array = [u8; 8];

    ghost WIDTH = { 8 };

    const WIDTH: usize = 8;

    ghost is_value = { λ v. FitsSigned w64 v × (flipped w64 v < 256 ^ 8) };

    ghost fixed_bytes = { λ v. big_endian 8 (flipped w64 v) };

    ghost have_bytes = { stored_bytes (flipped w64) (FitsSigned w64) int_cmp 8 _ _ _ (flipped-injective w64)
        (int_cmp-flipped w64) (unsigned_bytes 8 (lit< tt)) };

    fn placeholder() -> i64 {
        0
    }

    fn to_array(self) -> [u8; 8] {
        self.to_number().to_array()
    }

    fn checked_from_slice(bytes: &[u8]) -> Option<i64> {
        read_stored(bytes)
    }
}

impl FixedBytes for i128 {
    type Array = [u8; 16];

    ghost WIDTH = { 16 };

    const WIDTH: usize = 16;

    ghost is_value = { λ v. FitsSigned w128 v × (flipped w128 v < 256 ^ 16) };

    ghost fixed_bytes = { λ v. big_endian 16 (flipped w128 v) };

    ghost have_bytes = { stored_bytes (flipped w128) (FitsSigned w128) int_cmp 16 _ _ _ (flipped-injective w128)
        (int_cmp-flipped w128) (unsigned_bytes 16 (lit< tt)) };

    fn placeholder() -> i128 {
        0
    }

    fn to_array(self) -> [u8; 16] {
        self.to_number().to_array()
    }

    fn checked_from_slice(bytes: &[u8]) -> Option<i128> {
        read_stored(bytes)
    }
}

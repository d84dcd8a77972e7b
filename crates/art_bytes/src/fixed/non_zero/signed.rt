//! The numbers with a sign that are not 0.
ghost use Rattle.std.specs.Prelude.{◌<◌, ◌^◌, FitsSigned, refl};
ghost use Rattle.std.specs.Int.{w8, w16, w32, w64, w128};
ghost use Rattle.std.specs.Ordering.{int_cmp};
ghost use Rattle.std.proofs.Common.{lit<};
ghost use Rattle.art_bytes.specs.Numbers.{big_endian, flipped};
ghost use Rattle.art_bytes.specs.lemmas.FlipLaws.{flipped-injective, int_cmp-flipped};
ghost use Rattle.std.specs.Int.NonZero.{non_zero_i8_get, non_zero_i16_get, non_zero_i32_get, non_zero_i64_get};
ghost use Rattle.std.specs.Int.NonZero.{non_zero_i128_get};
ghost use Rattle.art_bytes.specs.lemmas.FixedLaws.{stored_bytes, unsigned_bytes, one_holder, apart_from_zero};

use crate::fixed::stored::read_stored;
use crate::fixed::{FixedBytes, Signed, StoredAsNumber};
use std::num::{NonZeroI8, NonZeroI16, NonZeroI32, NonZeroI64, NonZeroI128};

impl Signed for NonZeroI8 {
    type Coding = [u8; 1];
}

impl StoredAsNumber for NonZeroI8 {
    type Number = i8;

    ghost in_range = { λ _. Unit {0} };

    ghost stored = { non_zero_i8_get };

    ghost one_value = { λ m n hm hn e. one_holder
        (λ v ok. record { value = v; ok = ok }) apart_from_zero m.value n.value m.ok n.ok e };

    ghost same_order = { λ m n hm hn. refl };

    fn to_number(self) -> i8 {
        self.get()
    }

    fn from_number(number: i8) -> Option<NonZeroI8> {
        NonZeroI8::new(number)
    }
}

impl Signed for NonZeroI16 {
    type Coding = [u8; 2];
}

impl StoredAsNumber for NonZeroI16 {
    type Number = i16;

    ghost in_range = { λ _. Unit {0} };

    ghost stored = { non_zero_i16_get };

    ghost one_value = { λ m n hm hn e. one_holder
        (λ v ok. record { value = v; ok = ok }) apart_from_zero m.value n.value m.ok n.ok e };

    ghost same_order = { λ m n hm hn. refl };

    fn to_number(self) -> i16 {
        self.get()
    }

    fn from_number(number: i16) -> Option<NonZeroI16> {
        NonZeroI16::new(number)
    }
}

impl Signed for NonZeroI32 {
    type Coding = [u8; 4];
}

impl StoredAsNumber for NonZeroI32 {
    type Number = i32;

    ghost in_range = { λ _. Unit {0} };

    ghost stored = { non_zero_i32_get };

    ghost one_value = { λ m n hm hn e. one_holder
        (λ v ok. record { value = v; ok = ok }) apart_from_zero m.value n.value m.ok n.ok e };

    ghost same_order = { λ m n hm hn. refl };

    fn to_number(self) -> i32 {
        self.get()
    }

    fn from_number(number: i32) -> Option<NonZeroI32> {
        NonZeroI32::new(number)
    }
}

impl Signed for NonZeroI64 {
    type Coding = [u8; 8];
}

impl StoredAsNumber for NonZeroI64 {
    type Number = i64;

    ghost in_range = { λ _. Unit {0} };

    ghost stored = { non_zero_i64_get };

    ghost one_value = { λ m n hm hn e. one_holder
        (λ v ok. record { value = v; ok = ok }) apart_from_zero m.value n.value m.ok n.ok e };

    ghost same_order = { λ m n hm hn. refl };

    fn to_number(self) -> i64 {
        self.get()
    }

    fn from_number(number: i64) -> Option<NonZeroI64> {
        NonZeroI64::new(number)
    }
}

impl Signed for NonZeroI128 {
    type Coding = [u8; 16];
}

impl StoredAsNumber for NonZeroI128 {
    type Number = i128;

    ghost in_range = { λ _. Unit {0} };

    ghost stored = { non_zero_i128_get };

    ghost one_value = { λ m n hm hn e. one_holder
        (λ v ok. record { value = v; ok = ok }) apart_from_zero m.value n.value m.ok n.ok e };

    ghost same_order = { λ m n hm hn. refl };

    fn to_number(self) -> i128 {
        self.get()
    }

    fn from_number(number: i128) -> Option<NonZeroI128> {
        NonZeroI128::new(number)
    }
}

impl FixedBytes for NonZeroI8 {
    type Array = [u8; 1];

    ghost WIDTH = { 1 };

    const WIDTH: usize = 1;

    ghost is_value = { λ v. Unit {0}
        × (FitsSigned w8 (non_zero_i8_get v) × (flipped w8 (non_zero_i8_get v) < 256 ^ 1)) };

    ghost fixed_bytes = { λ v. big_endian 1 (flipped w8 (non_zero_i8_get v)) };

    ghost have_bytes = { stored_bytes non_zero_i8_get (λ _. Unit {0})
        (λ m n. int_cmp (non_zero_i8_get m) (non_zero_i8_get n)) 1 _ _ _
        (λ m n hm hn e. one_holder (λ v ok. record { value = v; ok = ok }) apart_from_zero m.value n.value m.ok n.ok e)
        (λ m n hm hn. refl) (stored_bytes (flipped w8) (FitsSigned w8) int_cmp 1 _ _ _ (flipped-injective w8)
        (int_cmp-flipped w8) (unsigned_bytes 1 (lit< tt))) };

    fn placeholder() -> NonZeroI8 {
        NonZeroI8::MIN
    }

    fn to_array(self) -> [u8; 1] {
        self.to_number().to_array()
    }

    fn checked_from_slice(bytes: &[u8]) -> Option<NonZeroI8> {
        read_stored(bytes)
    }
}

impl FixedBytes for NonZeroI16 {
    type Array = [u8; 2];

    ghost WIDTH = { 2 };

    const WIDTH: usize = 2;

    ghost is_value = { λ v. Unit {0}
        × (FitsSigned w16 (non_zero_i16_get v) × (flipped w16 (non_zero_i16_get v) < 256 ^ 2)) };

    ghost fixed_bytes = { λ v. big_endian 2 (flipped w16 (non_zero_i16_get v)) };

    ghost have_bytes = { stored_bytes non_zero_i16_get (λ _. Unit {0})
        (λ m n. int_cmp (non_zero_i16_get m) (non_zero_i16_get n)) 2 _ _ _
        (λ m n hm hn e. one_holder (λ v ok. record { value = v; ok = ok }) apart_from_zero m.value n.value m.ok n.ok e)
        (λ m n hm hn. refl) (stored_bytes (flipped w16) (FitsSigned w16) int_cmp 2 _ _ _ (flipped-injective w16)
        (int_cmp-flipped w16) (unsigned_bytes 2 (lit< tt))) };

    fn placeholder() -> NonZeroI16 {
        NonZeroI16::MIN
    }

    fn to_array(self) -> [u8; 2] {
        self.to_number().to_array()
    }

    fn checked_from_slice(bytes: &[u8]) -> Option<NonZeroI16> {
        read_stored(bytes)
    }
}

impl FixedBytes for NonZeroI32 {
    type Array = [u8; 4];

    ghost WIDTH = { 4 };

    const WIDTH: usize = 4;

    ghost is_value = { λ v. Unit {0}
        × (FitsSigned w32 (non_zero_i32_get v) × (flipped w32 (non_zero_i32_get v) < 256 ^ 4)) };

    ghost fixed_bytes = { λ v. big_endian 4 (flipped w32 (non_zero_i32_get v)) };

    ghost have_bytes = { stored_bytes non_zero_i32_get (λ _. Unit {0})
        (λ m n. int_cmp (non_zero_i32_get m) (non_zero_i32_get n)) 4 _ _ _
        (λ m n hm hn e. one_holder (λ v ok. record { value = v; ok = ok }) apart_from_zero m.value n.value m.ok n.ok e)
        (λ m n hm hn. refl) (stored_bytes (flipped w32) (FitsSigned w32) int_cmp 4 _ _ _ (flipped-injective w32)
        (int_cmp-flipped w32) (unsigned_bytes 4 (lit< tt))) };

    fn placeholder() -> NonZeroI32 {
        NonZeroI32::MIN
    }

    fn to_array(self) -> [u8; 4] {
        self.to_number().to_array()
    }

    fn checked_from_slice(bytes: &[u8]) -> Option<NonZeroI32> {
        read_stored(bytes)
    }
}

impl FixedBytes for NonZeroI64 {
    type Array = [u8; 8];

    ghost WIDTH = { 8 };

    const WIDTH: usize = 8;

    ghost is_value = { λ v. Unit {0}
        × (FitsSigned w64 (non_zero_i64_get v) × (flipped w64 (non_zero_i64_get v) < 256 ^ 8)) };

    ghost fixed_bytes = { λ v. big_endian 8 (flipped w64 (non_zero_i64_get v)) };

    ghost have_bytes = { stored_bytes non_zero_i64_get (λ _. Unit {0})
        (λ m n. int_cmp (non_zero_i64_get m) (non_zero_i64_get n)) 8 _ _ _
        (λ m n hm hn e. one_holder (λ v ok. record { value = v; ok = ok }) apart_from_zero m.value n.value m.ok n.ok e)
        (λ m n hm hn. refl) (stored_bytes (flipped w64) (FitsSigned w64) int_cmp 8 _ _ _ (flipped-injective w64)
        (int_cmp-flipped w64) (unsigned_bytes 8 (lit< tt))) };

    fn placeholder() -> NonZeroI64 {
        NonZeroI64::MIN
    }

    fn to_array(self) -> [u8; 8] {
        self.to_number().to_array()
    }

    fn checked_from_slice(bytes: &[u8]) -> Option<NonZeroI64> {
        read_stored(bytes)
    }
}

impl FixedBytes for NonZeroI128 {
    type Array = [u8; 16];

    ghost WIDTH = { 16 };

    const WIDTH: usize = 16;

    ghost is_value = { λ v. Unit {0}
        × (FitsSigned w128 (non_zero_i128_get v) × (flipped w128 (non_zero_i128_get v) < 256 ^ 16)) };

    ghost fixed_bytes = { λ v. big_endian 16 (flipped w128 (non_zero_i128_get v)) };

    ghost have_bytes = { stored_bytes non_zero_i128_get (λ _. Unit {0})
        (λ m n. int_cmp (non_zero_i128_get m) (non_zero_i128_get n)) 16 _ _ _
        (λ m n hm hn e. one_holder (λ v ok. record { value = v; ok = ok }) apart_from_zero m.value n.value m.ok n.ok e)
        (λ m n hm hn. refl) (stored_bytes (flipped w128) (FitsSigned w128) int_cmp 16 _ _ _ (flipped-injective w128)
        (int_cmp-flipped w128) (unsigned_bytes 16 (lit< tt))) };

    fn placeholder() -> NonZeroI128 {
        NonZeroI128::MIN
    }

    fn to_array(self) -> [u8; 16] {
        self.to_number().to_array()
    }

    fn checked_from_slice(bytes: &[u8]) -> Option<NonZeroI128> {
        read_stored(bytes)
    }
}

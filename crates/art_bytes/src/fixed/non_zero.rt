//! The numbers that are not 0: those without a sign here, those with one in a room below.
ghost use Rattle.std.specs.Prelude.{◌<◌, ◌^◌, refl};
ghost use Rattle.std.specs.Ordering.{nat_cmp};
ghost use Rattle.std.proofs.Common.{lit<};
ghost use Rattle.art_bytes.specs.Numbers.{big_endian};
ghost use Rattle.std.specs.Int.NonZero.{non_zero_u8_get, non_zero_u16_get, non_zero_u32_get, non_zero_u64_get};
ghost use Rattle.std.specs.Int.NonZero.{non_zero_u128_get};
ghost use Rattle.art_bytes.specs.lemmas.FixedLaws.{stored_bytes, unsigned_bytes, one_holder, above_zero};

mod signed;

use super::stored::read_stored;
use super::{FixedBytes, StoredAsNumber, Unsigned};
use std::num::{NonZeroU8, NonZeroU16, NonZeroU32, NonZeroU64, NonZeroU128};

impl Unsigned for NonZeroU8 {
    type Coding = [u8; 1];
}

impl StoredAsNumber for NonZeroU8 {
    type Number = u8;

    ghost in_range = { λ _. Unit {0} };

    ghost stored = { non_zero_u8_get };

    ghost one_value = { λ m n hm hn e. one_holder
        (λ v ok. record { value = v; ok = ok }) above_zero m.value n.value m.ok n.ok e };

    ghost same_order = { λ m n hm hn. refl };

    fn to_number(self) -> u8 {
        self.get()
    }

    fn from_number(number: u8) -> Option<NonZeroU8> {
        NonZeroU8::new(number)
    }
}

impl Unsigned for NonZeroU16 {
    type Coding = [u8; 2];
}

impl StoredAsNumber for NonZeroU16 {
    type Number = u16;

    ghost in_range = { λ _. Unit {0} };

    ghost stored = { non_zero_u16_get };

    ghost one_value = { λ m n hm hn e. one_holder
        (λ v ok. record { value = v; ok = ok }) above_zero m.value n.value m.ok n.ok e };

    ghost same_order = { λ m n hm hn. refl };

    fn to_number(self) -> u16 {
        self.get()
    }

    fn from_number(number: u16) -> Option<NonZeroU16> {
        NonZeroU16::new(number)
    }
}

impl Unsigned for NonZeroU32 {
    type Coding = [u8; 4];
}

impl StoredAsNumber for NonZeroU32 {
    type Number = u32;

    ghost in_range = { λ _. Unit {0} };

    ghost stored = { non_zero_u32_get };

    ghost one_value = { λ m n hm hn e. one_holder
        (λ v ok. record { value = v; ok = ok }) above_zero m.value n.value m.ok n.ok e };

    ghost same_order = { λ m n hm hn. refl };

    fn to_number(self) -> u32 {
        self.get()
    }

    fn from_number(number: u32) -> Option<NonZeroU32> {
        NonZeroU32::new(number)
    }
}

impl Unsigned for NonZeroU64 {
    type Coding = [u8; 8];
}

impl StoredAsNumber for NonZeroU64 {
    type Number = u64;

    ghost in_range = { λ _. Unit {0} };

    ghost stored = { non_zero_u64_get };

    ghost one_value = { λ m n hm hn e. one_holder
        (λ v ok. record { value = v; ok = ok }) above_zero m.value n.value m.ok n.ok e };

    ghost same_order = { λ m n hm hn. refl };

    fn to_number(self) -> u64 {
        self.get()
    }

    fn from_number(number: u64) -> Option<NonZeroU64> {
        NonZeroU64::new(number)
    }
}

impl Unsigned for NonZeroU128 {
    type Coding = [u8; 16];
}

impl StoredAsNumber for NonZeroU128 {
    type Number = u128;

    ghost in_range = { λ _. Unit {0} };

    ghost stored = { non_zero_u128_get };

    ghost one_value = { λ m n hm hn e. one_holder
        (λ v ok. record { value = v; ok = ok }) above_zero m.value n.value m.ok n.ok e };

    ghost same_order = { λ m n hm hn. refl };

    fn to_number(self) -> u128 {
        self.get()
    }

    fn from_number(number: u128) -> Option<NonZeroU128> {
        NonZeroU128::new(number)
    }
}

impl FixedBytes for NonZeroU8 {
    type Array = [u8; 1];

    ghost WIDTH = { 1 };

    const WIDTH: usize = 1;

    ghost is_value = { λ v. Unit {0} × (non_zero_u8_get v < 256 ^ 1) };

    ghost fixed_bytes = { λ v. big_endian 1 (non_zero_u8_get v) };

    ghost have_bytes = { stored_bytes non_zero_u8_get (λ _. Unit {0})
        (λ m n. nat_cmp (non_zero_u8_get m) (non_zero_u8_get n)) 1 _ _ _
        (λ m n hm hn e. one_holder (λ v ok. record { value = v; ok = ok }) above_zero m.value n.value m.ok n.ok e)
        (λ m n hm hn. refl) (unsigned_bytes 1 (lit< tt)) };

    fn placeholder() -> NonZeroU8 {
        NonZeroU8::MIN
    }

    fn to_array(self) -> [u8; 1] {
        self.to_number().to_array()
    }

    fn checked_from_slice(bytes: &[u8]) -> Option<NonZeroU8> {
        read_stored(bytes)
    }
}

impl FixedBytes for NonZeroU16 {
    type Array = [u8; 2];

    ghost WIDTH = { 2 };

    const WIDTH: usize = 2;

    ghost is_value = { λ v. Unit {0} × (non_zero_u16_get v < 256 ^ 2) };

    ghost fixed_bytes = { λ v. big_endian 2 (non_zero_u16_get v) };

    ghost have_bytes = { stored_bytes non_zero_u16_get (λ _. Unit {0})
        (λ m n. nat_cmp (non_zero_u16_get m) (non_zero_u16_get n)) 2 _ _ _
        (λ m n hm hn e. one_holder (λ v ok. record { value = v; ok = ok }) above_zero m.value n.value m.ok n.ok e)
        (λ m n hm hn. refl) (unsigned_bytes 2 (lit< tt)) };

    fn placeholder() -> NonZeroU16 {
        NonZeroU16::MIN
    }

    fn to_array(self) -> [u8; 2] {
        self.to_number().to_array()
    }

    fn checked_from_slice(bytes: &[u8]) -> Option<NonZeroU16> {
        read_stored(bytes)
    }
}

impl FixedBytes for NonZeroU32 {
    type Array = [u8; 4];

    ghost WIDTH = { 4 };

    const WIDTH: usize = 4;

    ghost is_value = { λ v. Unit {0} × (non_zero_u32_get v < 256 ^ 4) };

    ghost fixed_bytes = { λ v. big_endian 4 (non_zero_u32_get v) };

    ghost have_bytes = { stored_bytes non_zero_u32_get (λ _. Unit {0})
        (λ m n. nat_cmp (non_zero_u32_get m) (non_zero_u32_get n)) 4 _ _ _
        (λ m n hm hn e. one_holder (λ v ok. record { value = v; ok = ok }) above_zero m.value n.value m.ok n.ok e)
        (λ m n hm hn. refl) (unsigned_bytes 4 (lit< tt)) };

    fn placeholder() -> NonZeroU32 {
        NonZeroU32::MIN
    }

    fn to_array(self) -> [u8; 4] {
        self.to_number().to_array()
    }

    fn checked_from_slice(bytes: &[u8]) -> Option<NonZeroU32> {
        read_stored(bytes)
    }
}

impl FixedBytes for NonZeroU64 {
    type Array = [u8; 8];

    ghost WIDTH = { 8 };

    const WIDTH: usize = 8;

    ghost is_value = { λ v. Unit {0} × (non_zero_u64_get v < 256 ^ 8) };

    ghost fixed_bytes = { λ v. big_endian 8 (non_zero_u64_get v) };

    ghost have_bytes = { stored_bytes non_zero_u64_get (λ _. Unit {0})
        (λ m n. nat_cmp (non_zero_u64_get m) (non_zero_u64_get n)) 8 _ _ _
        (λ m n hm hn e. one_holder (λ v ok. record { value = v; ok = ok }) above_zero m.value n.value m.ok n.ok e)
        (λ m n hm hn. refl) (unsigned_bytes 8 (lit< tt)) };

    fn placeholder() -> NonZeroU64 {
        NonZeroU64::MIN
    }

    fn to_array(self) -> [u8; 8] {
        self.to_number().to_array()
    }

    fn checked_from_slice(bytes: &[u8]) -> Option<NonZeroU64> {
        read_stored(bytes)
    }
}

impl FixedBytes for NonZeroU128 {
    type Array = [u8; 16];

    ghost WIDTH = { 16 };

    const WIDTH: usize = 16;

    ghost is_value = { λ v. Unit {0} × (non_zero_u128_get v < 256 ^ 16) };

    ghost fixed_bytes = { λ v. big_endian 16 (non_zero_u128_get v) };

    ghost have_bytes = { stored_bytes non_zero_u128_get (λ _. Unit {0})
        (λ m n. nat_cmp (non_zero_u128_get m) (non_zero_u128_get n)) 16 _ _ _
        (λ m n hm hn e. one_holder (λ v ok. record { value = v; ok = ok }) above_zero m.value n.value m.ok n.ok e)
        (λ m n hm hn. refl) (unsigned_bytes 16 (lit< tt)) };

    fn placeholder() -> NonZeroU128 {
        NonZeroU128::MIN
    }

    fn to_array(self) -> [u8; 16] {
        self.to_number().to_array()
    }

    fn checked_from_slice(bytes: &[u8]) -> Option<NonZeroU128> {
        read_stored(bytes)
    }
}

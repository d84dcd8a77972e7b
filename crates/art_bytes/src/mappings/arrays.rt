//! Arrays of numbers: the elements' bytes in order.
ghost use Rattle.std.specs.Prelude.{◌≡◌, ◌*◌, ◌+◌, ◌≤◌, List, length, MatchOption};
ghost use Rattle.std.specs.List.{flat_map};
ghost use Rattle.std.proofs.Common.{◌∙◌, sym, subst, ap};
ghost use Rattle.art_bytes.specs.Keys.{AreBytes};
ghost use Rattle.art_bytes.specs.lemmas.KeyLaws.{BeginsWith-same_length};
ghost use Rattle.art_bytes.specs.Lists.{HaveListBytes, part_at};
ghost use Rattle.art_bytes.specs.lemmas.ConcatLaws.{AreBytes-list, one_list, bytes_cmp-list, length-list};

use super::lists::write_list;
use crate::fixed::{FixedBytes, Signed, Unsigned};
use crate::mapping::{BytesMapping, NoPrefixesMapping, OrderedMapping};
use std::alloc::{AllocError, Global};

// Part `index` of the bytes.
fn part<E: FixedBytes>(bytes: &[u8], index: usize) -> &[u8]
    requires { (index + 1) * E.WIDTH ≤ length bytes.now }
    ensures { result.now ≡ part_at E.WIDTH bytes.now index }
{
    let start = index * E::WIDTH;
    &bytes[start..start + E::WIDTH]
}

// The array whose bytes these are, or None where they are no array's. It takes no memory.
fn read_array<E: FixedBytes, const N: usize>(bytes: &[u8]) -> Option<[E; N]>
    ensures { MatchOption result
        (¬ ((xs : List E) × HaveListBytes E.is_value E.fixed_bytes xs bytes.now × (length xs ≡ N)))
        (λ v. HaveListBytes E.is_value E.fixed_bytes v bytes.now × (length v ≡ N)) }
{
    let fits = match N.checked_mul(E::WIDTH) {
        Some(len) => len == bytes.len(),
        None => false,
    };
    if !fits {
        return None;
    }
    let mut array = [E::placeholder(); N];
    for index in 0..N {
        let value = match E::checked_from_slice(part::<E>(bytes, index)) {
            Some(value) => value,
            None => return None,
        };
        array[index] = value;
    }
    Some(array)
}

impl<E: FixedBytes, const N: usize> BytesMapping<[E; N]> for Vec<u8> {
    type Bytes = Vec<u8>;

    ghost has_bytes = { λ v b. HaveListBytes E.is_value E.fixed_bytes v b.items × (length v ≡ N) };

    ghost bytes_of = { flat_map E.fixed_bytes };

    ghost is_same = { λ v w. v ≡ w };

    ghost bytes_are_free = { ⊥ };

    ghost value_is_free = { Unit {0} };

    ghost are_bytes = { λ v b h. (
      subst AreBytes (sym h.0.1) (AreBytes-list E.WIDTH E.is_value E.fixed_bytes E.cmp E.have_bytes v h.0.0),
      h.0.1,
    ) };

    ghost by_bytes = { λ v b c h k e. (v, ((h.0.0, e ∙ h.0.1), h.1)) };

    ghost one_value = { λ v w b c h k e.
        one_list E.WIDTH E.is_value E.fixed_bytes E.cmp E.have_bytes v w h.0.0 k.0.0 e };

    fn to_bytes(alloc: Global, value: [E; N]) -> Result<Vec<u8>, AllocError> {
        write_list(alloc, Vec::from_array(alloc, value)?)
    }

    fn from_bytes(_alloc: Global, bytes: Vec<u8>) -> Result<[E; N], AllocError> {
        match read_array(bytes.as_slice()) {
            Some(array) => Ok(array),
            None => unreachable!(),
        }
    }

    fn checked_from_bytes(_alloc: Global, bytes: Vec<u8>) -> Result<Option<[E; N]>, AllocError> {
        Ok(read_array(bytes.as_slice()))
    }
}

impl<E: FixedBytes, const N: usize> NoPrefixesMapping<[E; N]> for Vec<u8> {
    ghost no_prefixes = { λ v w b c h k. BeginsWith-same_length _ _ (N * E.WIDTH)
        (length-list E.WIDTH E.is_value E.fixed_bytes E.cmp E.have_bytes v h.0.0 ∙ ap (λ n. n * E.WIDTH) h.1)
        (length-list E.WIDTH E.is_value E.fixed_bytes E.cmp E.have_bytes w k.0.0 ∙ ap (λ n. n * E.WIDTH) k.1) };
}

impl<E: FixedBytes, const N: usize> OrderedMapping<[E; N]> for Vec<u8> {
    ghost ordered = { λ v w b c h k.
        bytes_cmp-list E.WIDTH E.is_value E.fixed_bytes E.cmp E.have_bytes v w h.0.0 k.0.0 };
}

impl<E: Unsigned + FixedBytes, const N: usize> Unsigned for [E; N] {
    type Coding = Vec<u8>;
}

impl<E: Signed + FixedBytes, const N: usize> Signed for [E; N] {
    type Coding = Vec<u8>;
}

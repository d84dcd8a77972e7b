//! Lists of numbers: the elements' bytes in order.
ghost use Rattle.std.specs.Prelude.{◌≡◌, ◌++◌, List, length, IfOk, OnOk, MatchOption};
ghost use Rattle.std.specs.List.{AllByRecursion, flat_map};
ghost use Rattle.std.proofs.Common.{◌∙◌, sym, subst};
ghost use Rattle.art_bytes.specs.Keys.{AreBytes};
ghost use Rattle.art_bytes.specs.Lists.{HaveListBytes};
ghost use Rattle.art_bytes.specs.lemmas.ConcatLaws.{AreBytes-list, one_list, bytes_cmp-list};

use crate::as_bytes::AsBytes;
use crate::fixed::{FixedBytes, Signed, Unsigned};
use crate::mapping::{BytesMapping, OrderedMapping};
use std::alloc::{AllocError, Global};

// The bytes of the values, one after the other.
pub(super) fn write_list<E: FixedBytes>(
    alloc: Global,
    values: Vec<E>,
) -> Result<Vec<u8>, AllocError>
    ensures { IfOk result (λ bytes. HaveListBytes E.is_value E.fixed_bytes values.items bytes.items) }
{
    let mut bytes = Vec::with_capacity(alloc, values.len().saturating_mul(E::WIDTH))?;
    for value in values {
        let array = value.to_array();
        bytes.extend_from_slice(array.as_bytes())?;
    }
    Ok(bytes)
}

// The values whose bytes these are, or None where they are not those of a list.
fn read_list<E: FixedBytes>(alloc: Global, bytes: &[u8]) -> Result<Option<Vec<E>>, AllocError>
    ensures { IfOk result (λ found. MatchOption found
        (¬ ((xs : List E) × HaveListBytes E.is_value E.fixed_bytes xs bytes.now))
        (λ v. HaveListBytes E.is_value E.fixed_bytes v.items bytes.now)) }
{
    let mut values = Vec::new(alloc);
    let mut rest = bytes;
    while rest.len() >= E::WIDTH {
        let (front, back) = rest.split_at(E::WIDTH);
        let value = match E::checked_from_slice(front) {
            Some(value) => value,
            None => return Ok(None),
        };
        values.push(value)?;
        rest = back;
    }
    if rest.is_empty() {
        Ok(Some(values))
    } else {
        Ok(None)
    }
}

impl<E: FixedBytes> BytesMapping<Vec<E>> for Vec<u8> {
    type Bytes = Vec<u8>;

    ghost has_bytes = { λ v b. HaveListBytes E.is_value E.fixed_bytes v.items b.items };

    ghost bytes_of = { λ v. flat_map E.fixed_bytes v.items };

    ghost is_same = { λ v w. v.items ≡ w.items };

    ghost bytes_are_free = { ⊥ };

    ghost value_is_free = { ⊥ };

    ghost are_bytes = { λ v b h. (
      subst AreBytes (sym h.1) (AreBytes-list E.WIDTH E.is_value E.fixed_bytes E.cmp E.have_bytes v.items h.0),
      h.1,
    ) };

    ghost by_bytes = { λ v b c h k e. (v, (h.0, e ∙ h.1)) };

    ghost one_value = { λ v w b c h k e.
        one_list E.WIDTH E.is_value E.fixed_bytes E.cmp E.have_bytes v.items w.items h.0 k.0 e };

    fn to_bytes(alloc: Global, value: Vec<E>) -> Result<Vec<u8>, AllocError> {
        write_list(alloc, value)
    }

    fn from_bytes(alloc: Global, bytes: Vec<u8>) -> Result<Vec<E>, AllocError> {
        match read_list(alloc, bytes.as_slice())? {
            Some(values) => Ok(values),
            None => unreachable!(),
        }
    }

    fn checked_from_bytes(alloc: Global, bytes: Vec<u8>) -> Result<Option<Vec<E>>, AllocError> {
        read_list(alloc, bytes.as_slice())
    }
}

impl<E: FixedBytes> OrderedMapping<Vec<E>> for Vec<u8> {
    ghost ordered = { λ v w b c h k.
        bytes_cmp-list E.WIDTH E.is_value E.fixed_bytes E.cmp E.have_bytes v.items w.items h.0 k.0 };
}

impl<E: Unsigned + FixedBytes> Unsigned for Vec<E> {
    type Coding = Vec<u8>;
}

impl<E: Signed + FixedBytes> Signed for Vec<E> {
    type Coding = Vec<u8>;
}

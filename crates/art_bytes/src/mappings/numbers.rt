//! Numbers and addresses as their fixed bytes.
ghost use Rattle.std.specs.Prelude.{◌≡◌, ◌++◌, IfOk, OnErr, OnOk, MatchOption, length};
ghost use Rattle.std.proofs.Common.{◌∙◌, ap, refl, subst, sym};
ghost use Rattle.art_bytes.specs.Keys.{AppendsFrontOf, AreBytes};
ghost use Rattle.art_bytes.specs.Mappings.{HaveFixedBytes};
ghost use Rattle.art_bytes.specs.lemmas.KeyLaws.{BeginsWith-same_length};

use super::concat::Parts;
use crate::as_bytes::AsBytes;
use crate::fixed::{Address, FixedBytes, Signed, Unsigned};
use crate::mapping::{BytesMapping, FixedBytesMapping, NoPrefixesMapping, OrderedMapping};
use std::alloc::{AllocError, Global};

/// Unsigned numbers as big-endian bytes.
///
/// ```
/// use art_bytes::AsBytes;
/// let key = Mapped::<ToUBE, u32>::new(rt.alloc(), 258)?;
/// assert_eq!(rt; key.as_bytes(), [0, 0, 1, 2].as_slice());
/// ```
#[derive(Clone, Copy)]
pub struct ToUBE;

/// Signed numbers as big-endian bytes with the top bit flipped, so that the negative ones come first.
///
/// ```
/// use art_bytes::AsBytes;
/// let key = Mapped::<ToIBE, i16>::new(rt.alloc(), -1)?;
/// assert_eq!(rt; key.as_bytes(), [0x7f, 0xff].as_slice());
/// ```
#[derive(Clone, Copy)]
pub struct ToIBE;

/// Addresses as their octets.
///
/// ```
/// use art_bytes::AsBytes;
/// use std::net::Ipv4Addr;
/// let key = Mapped::<ToOctets, Ipv4Addr>::new(rt.alloc(), Ipv4Addr::new(10, 0, 0, 7))?;
/// assert_eq!(rt; key.as_bytes(), [10, 0, 0, 7].as_slice());
/// ```
#[derive(Clone, Copy)]
pub struct ToOctets;

// The value that has these bytes.
fn read<E: FixedBytes>(bytes: E::Array) -> E
    requires { (v : E) × E.is_value v × (E.Array.bytes bytes ≡ E.fixed_bytes v) }
    ensures value { E.is_value result }
    ensures bytes { E.Array.bytes bytes ≡ E.fixed_bytes result }
    ensures key { E.Array.is_key bytes }
{
    match E::checked_from_slice(bytes.as_bytes()) {
        Some(value) => value,
        None => unreachable!(),
    }
}

// The value that has these bytes, or None where there is none.
fn read_one<E: FixedBytes>(bytes: &[u8]) -> Option<E>
    ensures { MatchOption result (¬ ((v : E) × E.is_value v × (E.fixed_bytes v ≡ bytes.now)))
        (λ v. E.is_value v × (E.fixed_bytes v ≡ bytes.now)) }
{
    if bytes.len() != E::WIDTH {
        return None;
    }
    E::checked_from_slice(bytes)
}

// Appends the value's bytes to those that are there. If it fails, it has appended a front of them, or nothing.
fn push_one<E: FixedBytes>(bytes: &mut Vec<u8>, alloc: Global, value: E) -> Result<(), AllocError>
    ensures value { OnOk result (E.is_value value) }
    ensures bytes { OnOk result (bytes.new.items ≡ bytes.old.items ++ E.fixed_bytes value) }
    ensures err { OnErr result (AppendsFrontOf (E.fixed_bytes value) bytes.old.items bytes.new.items) }
{
    let array = value.to_array();
    bytes.extend_from_slice(array.as_bytes())
}

// The value that these bytes are read as, as they are kept in `E::Array`.
fn checked_read<E: FixedBytes>(bytes: E::Array) -> Option<E>
    ensures value { MatchOption result (¬ ((v : E) × E.is_value v × (E.Array.bytes bytes ≡ E.fixed_bytes v)))
        (λ v. E.is_value v × (E.Array.bytes bytes ≡ E.fixed_bytes v)) }
    ensures key { E.Array.is_key bytes }
{
    read_one(bytes.as_bytes())
}

impl<E: FixedBytes<Array = [u8; N]>, const N: usize> BytesMapping<E> for [u8; N] {
    type Bytes = [u8; N];

    ghost has_bytes = { λ v b. E.is_value v × (AreBytes b × (length b ≡ N)) × (b ≡ E.fixed_bytes v) };

    ghost bytes_of = { E.fixed_bytes };

    ghost is_same = { λ v w. v ≡ w };

    ghost bytes_are_free = { Unit {0} };

    ghost value_is_free = { Unit {0} };

    ghost are_bytes = { λ v b h. (h.1, h.2) };

    ghost by_bytes = { λ v b c h k e. (v, (h.0, k, e ∙ h.2)) };

    ghost one_value = { λ v w b c h k e. E.have_bytes.one_value v w h.0 k.0 e };

    fn to_bytes(_alloc: Global, value: E) -> Result<[u8; N], AllocError> {
        Ok(value.to_array())
    }

    fn from_bytes(_alloc: Global, bytes: [u8; N]) -> Result<E, AllocError> {
        Ok(read::<E>(bytes))
    }

    fn checked_from_bytes(_alloc: Global, bytes: [u8; N]) -> Result<Option<E>, AllocError> {
        Ok(checked_read::<E>(bytes))
    }
}

/// A coding of a value by its own bytes.
pub trait FixedCoding<E: FixedBytes>: BytesMapping<E> {
    ghost takes_no_memory: { Self.bytes_are_free × Self.value_is_free };

    ghost values: { (v : E) (b : Self.Bytes) → Self.has_bytes v b → E.is_value v };

    ghost own_bytes: { Self.bytes_of ≡ E.fixed_bytes };
}

impl<E: FixedBytes<Array = [u8; N]>, const N: usize> FixedCoding<E> for [u8; N] {
    ghost takes_no_memory = { (tt, tt) };

    ghost values = { λ v b h. h.0 };

    ghost own_bytes = { refl };
}

impl<E: FixedBytes<Array = [u8; N]>, const N: usize> NoPrefixesMapping<E> for [u8; N] {
    ghost no_prefixes = { λ v w b c h k. BeginsWith-same_length _ _ E.WIDTH (E.have_bytes.long v h.0)
        (E.have_bytes.long w k.0) };
}

impl<E: FixedBytes<Array = [u8; N]>, const N: usize> OrderedMapping<E> for [u8; N] {
    ghost ordered = { λ v w b c h k. E.have_bytes.ordered v w h.0 k.0 };
}

impl<D: Unsigned> BytesMapping<D> for ToUBE {
    type Bytes = <D::Coding as BytesMapping<D>>::Bytes;

    ghost has_bytes = { D.Coding.has_bytes };

    ghost bytes_of = { D.Coding.bytes_of };

    ghost is_same = { D.Coding.is_same };

    ghost bytes_are_free = { D.Coding.bytes_are_free };

    ghost value_is_free = { D.Coding.value_is_free };

    ghost are_bytes = { D.Coding.are_bytes };

    ghost by_bytes = { D.Coding.by_bytes };

    ghost one_value = { D.Coding.one_value };

    fn to_bytes(alloc: Global, value: D) -> Result<Self::Bytes, AllocError> {
        D::Coding::to_bytes(alloc, value)
    }

    fn from_bytes(alloc: Global, bytes: Self::Bytes) -> Result<D, AllocError> {
        D::Coding::from_bytes(alloc, bytes)
    }

    fn checked_from_bytes(alloc: Global, bytes: Self::Bytes) -> Result<Option<D>, AllocError> {
        D::Coding::checked_from_bytes(alloc, bytes)
    }
}

impl<E: Unsigned + FixedBytes> Parts<E> for ToUBE {
    ghost WIDTH = { E.WIDTH };

    ghost is_value = { E.is_value };

    ghost parts_bytes = { E.fixed_bytes };

    ghost have_bytes = { E.have_bytes };

    fn width() -> Option<usize> {
        Some(E::WIDTH)
    }

    fn push_bytes(bytes: &mut Vec<u8>, alloc: Global, value: E) -> Result<(), AllocError> {
        push_one(bytes, alloc, value)
    }

    fn checked_from_slice(bytes: &[u8]) -> Option<E> {
        read_one(bytes)
    }
}

impl<E: Unsigned + FixedBytes> FixedBytesMapping<E> for ToUBE
where
    E::Coding: FixedCoding<E>,
{
    ghost WIDTH = { E.WIDTH };

    const WIDTH: usize = E::WIDTH;

    ghost is_value = { E.is_value };

    ghost takes_no_memory = { E.Coding.takes_no_memory };

    ghost values = { E.Coding.values };

    ghost have_bytes = { subst (λ f. HaveFixedBytes E.WIDTH E.is_value f E.cmp) (sym E.Coding.own_bytes) E.have_bytes };

    ghost part_has_bytes = { λ v. ap (λ f. f v) (sym E.Coding.own_bytes) };

    fn checked_from_slice(number: &[u8]) -> Option<E> {
        E::checked_from_slice(number)
    }
}

impl<D: Unsigned> NoPrefixesMapping<D> for ToUBE
where
    D::Coding: NoPrefixesMapping<D>,
{
    ghost no_prefixes = { D.Coding.no_prefixes };
}

impl<D: Unsigned + Ord> OrderedMapping<D> for ToUBE
where
    D::Coding: OrderedMapping<D>,
{
    ghost ordered = { D.Coding.ordered };
}

impl<D: Signed> BytesMapping<D> for ToIBE {
    type Bytes = <D::Coding as BytesMapping<D>>::Bytes;

    ghost has_bytes = { D.Coding.has_bytes };

    ghost bytes_of = { D.Coding.bytes_of };

    ghost is_same = { D.Coding.is_same };

    ghost bytes_are_free = { D.Coding.bytes_are_free };

    ghost value_is_free = { D.Coding.value_is_free };

    ghost are_bytes = { D.Coding.are_bytes };

    ghost by_bytes = { D.Coding.by_bytes };

    ghost one_value = { D.Coding.one_value };

    fn to_bytes(alloc: Global, number: D) -> Result<Self::Bytes, AllocError> {
        D::Coding::to_bytes(alloc, number)
    }

    fn from_bytes(alloc: Global, signed: Self::Bytes) -> Result<D, AllocError> {
        D::Coding::from_bytes(alloc, signed)
    }

    fn checked_from_bytes(alloc: Global, signed: Self::Bytes) -> Result<Option<D>, AllocError> {
        D::Coding::checked_from_bytes(alloc, signed)
    }
}

impl<E: Signed + FixedBytes> Parts<E> for ToIBE {
    ghost WIDTH = { E.WIDTH };

    ghost is_value = { E.is_value };

    ghost parts_bytes = { E.fixed_bytes };

    ghost have_bytes = { E.have_bytes };

    fn width() -> Option<usize> {
        Some(E::WIDTH)
    }

    fn push_bytes(bytes: &mut Vec<u8>, alloc: Global, value: E) -> Result<(), AllocError> {
        push_one(bytes, alloc, value)
    }

    fn checked_from_slice(bytes: &[u8]) -> Option<E> {
        read_one(bytes)
    }
}

impl<E: Signed + FixedBytes> FixedBytesMapping<E> for ToIBE
where
    E::Coding: FixedCoding<E>,
{
    ghost WIDTH = { E.WIDTH };

    const WIDTH: usize = E::WIDTH;

    ghost is_value = { E.is_value };

    ghost takes_no_memory = { E.Coding.takes_no_memory };

    ghost values = { E.Coding.values };

    ghost have_bytes = { subst (λ f. HaveFixedBytes E.WIDTH E.is_value f E.cmp) (sym E.Coding.own_bytes) E.have_bytes };

    ghost part_has_bytes = { λ v. ap (λ f. f v) (sym E.Coding.own_bytes) };

    fn checked_from_slice(signed: &[u8]) -> Option<E> {
        E::checked_from_slice(signed)
    }
}

impl<D: Signed> NoPrefixesMapping<D> for ToIBE
where
    D::Coding: NoPrefixesMapping<D>,
{
    ghost no_prefixes = { D.Coding.no_prefixes };
}

impl<D: Signed + Ord> OrderedMapping<D> for ToIBE
where
    D::Coding: OrderedMapping<D>,
{
    ghost ordered = { D.Coding.ordered };
}

impl<E: Address> BytesMapping<E> for ToOctets {
    type Bytes = E::Array;

    ghost has_bytes = { λ v b. E.is_value v × E.Array.is_key b × (E.Array.bytes b ≡ E.fixed_bytes v) };

    ghost bytes_of = { E.fixed_bytes };

    ghost is_same = { λ v w. v ≡ w };

    ghost bytes_are_free = { Unit {0} };

    ghost value_is_free = { Unit {0} };

    ghost are_bytes = { λ v b h. (h.1, h.2) };

    ghost by_bytes = { λ v b c h k e. (v, (h.0, k, e ∙ h.2)) };

    ghost one_value = { λ v w b c h k e. E.have_bytes.one_value v w h.0 k.0 e };

    fn to_bytes(_alloc: Global, address: E) -> Result<E::Array, AllocError> {
        Ok(address.to_array())
    }

    fn from_bytes(_alloc: Global, octets: E::Array) -> Result<E, AllocError> {
        Ok(read::<E>(octets))
    }

    fn checked_from_bytes(_alloc: Global, octets: E::Array) -> Result<Option<E>, AllocError> {
        Ok(checked_read::<E>(octets))
    }
}

impl<E: Address> Parts<E> for ToOctets {
    ghost WIDTH = { E.WIDTH };

    ghost is_value = { E.is_value };

    ghost parts_bytes = { E.fixed_bytes };

    ghost have_bytes = { E.have_bytes };

    fn width() -> Option<usize> {
        Some(E::WIDTH)
    }

    fn push_bytes(bytes: &mut Vec<u8>, alloc: Global, value: E) -> Result<(), AllocError> {
        push_one(bytes, alloc, value)
    }

    fn checked_from_slice(bytes: &[u8]) -> Option<E> {
        read_one(bytes)
    }
}

impl<E: Address> FixedBytesMapping<E> for ToOctets {
    ghost WIDTH = { E.WIDTH };

    const WIDTH: usize = E::WIDTH;

    ghost is_value = { E.is_value };

    ghost takes_no_memory = { (tt, tt) };

    ghost values = { λ v b h. h.0 };

    ghost have_bytes = { E.have_bytes };

    ghost part_has_bytes = { λ v. refl };

    fn checked_from_slice(octets: &[u8]) -> Option<E> {
        E::checked_from_slice(octets)
    }
}

impl<E: Address> NoPrefixesMapping<E> for ToOctets {
    ghost no_prefixes = { λ v w b c h k. BeginsWith-same_length _ _ E.WIDTH (E.have_bytes.long v h.0)
        (E.have_bytes.long w k.0) };
}

impl<E: Address> OrderedMapping<E> for ToOctets {
    ghost ordered = { λ v w b c h k. E.have_bytes.ordered v w h.0 k.0 };
}

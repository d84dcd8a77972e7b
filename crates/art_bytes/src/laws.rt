//! The laws of keys and mappings, as contracts. The functions here do nothing else.
ghost use Rattle.std.specs.Prelude.{◌≡◌, IfOk, OnErr};
ghost use Rattle.art_bytes.specs.Keys.{AreBytes, BeginsWith, Conflict, bytes_cmp};
ghost use Rattle.art_bytes.specs.Laws.{pair_key};

use crate::as_bytes::{AsBytes, NoPrefixesBytes, OrderedBytes};
use crate::mapped::Mapped;
use crate::mapping::{BytesMapping, FixedBytesMapping, NoPrefixesMapping, OrderedMapping};
use crate::mappings::{ConcatTuple, ToIBE, ToUBE};
use std::alloc::{AllocError, Global};
use std::cmp::Ordering;

/// Each byte of a key is less than 256.
pub fn bytes_fit<K: AsBytes>(key: &K)
    ensures { AreBytes (K.bytes key.now) }
{
    let _ = key.as_bytes();
}

/// No key of a type without prefixes is a prefix of a key with other bytes.
pub fn no_conflict<K: NoPrefixesBytes>(a: &K, b: &K)
    ensures { ¬ (Conflict (K.bytes a.now) (K.bytes b.now)) }
{
    let _ = a.as_bytes();
    let _ = b.as_bytes();
}

/// The order of the keys of an ordered type is the order of their bytes.
pub fn order_is_of_bytes<K: OrderedBytes>(a: &K, b: &K) -> Ordering
    ensures keys { result ≡ K.cmp a.now b.now }
    ensures bytes { result ≡ bytes_cmp (K.bytes a.now) (K.bytes b.now) }
{
    let _first = a.as_bytes();
    let _second = b.as_bytes();
    K::cmp(a, b)
}

/// A value that is written and read back is the same value. It fails only if its bytes or the value need memory.
pub fn reads_back<B: BytesMapping<D>, D>(alloc: Global, value: D) -> Result<D, AllocError>
    ensures same { IfOk result (λ v. B.is_same v value) }
    ensures refused { OnErr result (¬ (B.bytes_are_free × B.value_is_free)) }
{
    let bytes = B::to_bytes(alloc, value)?;
    let read = B::from_bytes(alloc, bytes)?;
    Ok(read)
}

/// Bytes that are read and written back are the same bytes. It fails only if the value or its bytes need memory.
pub fn writes_back<B: BytesMapping<D>, D>(
    alloc: Global,
    bytes: B::Bytes,
) -> Result<B::Bytes, AllocError>
    requires { (v : D) × B.has_bytes v bytes }
    ensures same { IfOk result (λ b. B.Bytes.bytes b ≡ B.Bytes.bytes bytes) }
    ensures refused { OnErr result (¬ (B.bytes_are_free × B.value_is_free)) }
{
    let value = B::from_bytes(alloc, bytes)?;
    B::to_bytes(alloc, value)
}

/// A fixed mapping never fails.
pub fn fixed_bytes<B: FixedBytesMapping<D>, D: Ord>(alloc: Global, value: D) -> B::Bytes
    ensures { B.has_bytes value result }
{
    match B::to_bytes(alloc, value) {
        Ok(bytes) => bytes,
        Err(_) => unreachable!(),
    }
}

/// Mapped values have the order of the values.
pub fn order_is_of_values<B: OrderedMapping<D>, D: Ord>(
    a: &Mapped<B, D>,
    b: &Mapped<B, D>,
) -> Ordering
    ensures { (v w : D) → B.has_bytes v a.now → B.has_bytes w b.now → result ≡ D.cmp v w }
{
    a.cmp(b)
}

/// The key of a tenant's number: four bytes of the tenant, the highest first, then the eight of the number with its top
/// bit flipped.
pub fn pair_key_is(alloc: Global, tenant: u32, number: i64) -> Result<Vec<u8>, AllocError>
    ensures { IfOk result (λ key. key.items ≡ pair_key (tenant, number)) }
{
    ConcatTuple::<(ToUBE, ToIBE)>::to_bytes(alloc, (tenant, number))
}

/// The keys of tenants' numbers are in the order of the pairs: by tenant, and then by number.
pub fn pair_keys_are_ordered(a: (u32, i64), b: (u32, i64)) -> Ordering
    ensures { result ≡ bytes_cmp (pair_key a) (pair_key b) }
{
    a.cmp(&b)
}

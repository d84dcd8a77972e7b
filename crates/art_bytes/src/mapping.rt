//! Mappings: ways to give values bytes, and to read them back.
ghost use Rattle.std.specs.Prelude.{◌≡◌, ℕ, List, IfOk, OnErr, MatchOption, length};
ghost use Rattle.art_bytes.specs.Keys.{BeginsWith, bytes_cmp};
ghost use Rattle.art_bytes.specs.Mappings.{HaveFixedBytes};

use crate::as_bytes::AsBytes;
use crate::mappings::Parts;
use std::alloc::{AllocError, Global};

/// A way to give the values of `D` bytes, and to read them back.
pub trait BytesMapping<D> {
    /// What a value's bytes are kept in.
    type Bytes: AsBytes + Drop;

    /// The value has these bytes. What is written and what is read back both follow from this.
    ghost has_bytes: { D → Self.Bytes → Type 0 };

    /// The bytes of a value.
    ghost bytes_of: { D → List ℕ };

    /// Two values that no caller tells apart by what they hold: equal ones, and vectors of equal elements.
    ghost is_same: { D → D → Type 0 };

    /// Holds if the bytes need no memory.
    ghost bytes_are_free: { Type 0 };

    /// Holds if the value needs no memory.
    ghost value_is_free: { Type 0 };

    /// Returns the value's bytes. Fails only if they need memory.
    fn to_bytes(alloc: Global, value: D) -> Result<Self::Bytes, AllocError>
        ensures value { IfOk result (λ b. has_bytes value b) }
        ensures refused { OnErr result (¬ bytes_are_free) };

    /// Returns the value that has these bytes. Fails only if the value needs memory.
    fn from_bytes(alloc: Global, bytes: Self::Bytes) -> Result<D, AllocError>
        requires { (v : D) × has_bytes v bytes }
        ensures value { IfOk result (λ v. has_bytes v bytes) }
        ensures refused { OnErr result (¬ value_is_free) };

    /// Returns the value that has these bytes, or `None` exactly if they are no value's. Fails only if the value needs
    /// memory.
    ///
    /// ```
    /// use art_bytes::BytesMapping;
    /// let none: Option<std::num::NonZeroU8> = ToUBE::checked_from_bytes(rt.alloc(), [0])?;
    /// assert!(rt; none.is_none());
    /// ```
    fn checked_from_bytes(alloc: Global, bytes: Self::Bytes) -> Result<Option<D>, AllocError>
        ensures value { IfOk result
            (λ found. MatchOption found (¬ ((v : D) × has_bytes v bytes)) (λ v. has_bytes v bytes)) }
        ensures refused { OnErr result (¬ value_is_free) };

    /// What has a value's bytes is a key of these bytes.
    ghost are_bytes: { (v : D) (b : Self.Bytes) → has_bytes v b
        → Self.Bytes.is_key b × (Self.Bytes.bytes b ≡ bytes_of v) };

    /// Whether a key is some value's follows from its bytes.
    ghost by_bytes: { (v : D) (b c : Self.Bytes) → has_bytes v b → Self.Bytes.is_key c
        → Self.Bytes.bytes c ≡ Self.Bytes.bytes b → (w : D) × has_bytes w c };

    /// Values of equal bytes are the same.
    ghost one_value: { (v w : D) (b c : Self.Bytes) → has_bytes v b → has_bytes w c → bytes_of v ≡ bytes_of w
        → is_same v w };
}

/// A mapping that gives each value `WIDTH` bytes, in the order of the values, and allocates nothing. It may be that of
/// a tuple's part.
pub trait FixedBytesMapping<D: Ord>: BytesMapping<D> + Parts<D> {
    ghost WIDTH: { ℕ };

    /// The number of bytes.
    const WIDTH: usize;

    /// Holds of each value of the type: what its range keeps.
    ghost is_value: { D → Type 0 };

    /// Returns the value that has these bytes, or `None` if there is none. It allocates nothing.
    fn checked_from_slice(bytes: &[u8]) -> Option<D>
        requires { length bytes.now ≡ WIDTH }
        ensures { MatchOption result (¬ ((v : D) × is_value v × (Self.bytes_of v ≡ bytes.now)))
            (λ v. is_value v × (Self.bytes_of v ≡ bytes.now)) };

    /// Neither direction ever fails.
    ghost takes_no_memory: { Self.bytes_are_free × Self.value_is_free };

    /// What has bytes is a value.
    ghost values: { (v : D) (b : Self.Bytes) → Self.has_bytes v b → is_value v };

    /// Each value has its own bytes, all have `WIDTH`, and their order is the order of the values.
    ghost have_bytes: { HaveFixedBytes WIDTH is_value Self.bytes_of D.cmp };

    /// In a tuple a value has these bytes too.
    ghost part_has_bytes: { (v : D) → Self.parts_bytes v ≡ Self.bytes_of v };
}

/// A mapping under which no value's bytes are a prefix of another value's.
pub trait NoPrefixesMapping<D>: BytesMapping<D> {
    ghost no_prefixes: { (v w : D) (b c : Self.Bytes) → Self.has_bytes v b → Self.has_bytes w c
        → BeginsWith (Self.bytes_of v) (Self.bytes_of w) → Self.bytes_of v ≡ Self.bytes_of w };
}

/// A mapping under which the order of the values is the order of their bytes.
pub trait OrderedMapping<D: Ord>: BytesMapping<D> {
    ghost ordered: { (v w : D) (b c : Self.Bytes) → Self.has_bytes v b → Self.has_bytes w c
        → D.cmp v w ≡ bytes_cmp (Self.bytes_of v) (Self.bytes_of w) };
}

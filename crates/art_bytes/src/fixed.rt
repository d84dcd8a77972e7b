//! Values of a fixed number of bytes: numbers, numbers that are not 0, addresses.
ghost use Rattle.std.specs.Prelude.{◌≡◌, ℕ, List, length, MatchOption};
ghost use Rattle.art_bytes.specs.Mappings.{HaveFixedBytes};

mod address;
mod non_zero;
mod signed;
mod stored;
mod unsigned;

use crate::as_bytes::AsBytes;
pub use address::Address;
pub use signed::Signed;
pub use stored::StoredAsNumber;
pub use unsigned::Unsigned;

/// A value of `WIDTH` bytes, whose order is the order of its bytes.
pub trait FixedBytes: Ord + Copy {
    type Array: AsBytes + Drop;

    ghost WIDTH: { ℕ };

    /// The number of bytes.
    const WIDTH: usize;

    /// Holds of each value of the type: what its range keeps.
    ghost is_value: { Self → Type 0 };

    /// The bytes of a value.
    ghost fixed_bytes: { Self → List ℕ };

    /// Some value of the type.
    fn placeholder() -> Self;

    /// Returns the value's bytes. It allocates nothing.
    fn to_array(self) -> Self::Array
        ensures value { is_value self }
        ensures key { Self.Array.is_key result }
        ensures bytes { Self.Array.bytes result ≡ fixed_bytes self };

    /// Returns the value that has these bytes, or `None` if there is none. It allocates nothing.
    fn checked_from_slice(bytes: &[u8]) -> Option<Self>
        requires { length bytes.now ≡ WIDTH }
        ensures { MatchOption result (¬ ((v : Self) × is_value v × (fixed_bytes v ≡ bytes.now)))
            (λ v. is_value v × (fixed_bytes v ≡ bytes.now)) };

    ghost have_bytes: { HaveFixedBytes WIDTH is_value fixed_bytes Self.cmp };
}

// The bytes as an array.
fn array_of<const N: usize>(bytes: &[u8]) -> [u8; N]
    requires { length bytes.now ≡ N }
    ensures { result ≡ bytes.now }
{
    let mut array = [0; N];
    array.copy_from_slice(bytes);
    array
}

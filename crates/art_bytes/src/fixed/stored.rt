//! Values that are stored as a number of another type.
ghost use Rattle.std.specs.Prelude.{◌≡◌, MatchOption, length};

use super::FixedBytes;

/// A value that is stored as a number of another type, in the order of these numbers.
pub trait StoredAsNumber: Ord + Drop {
    type Number: FixedBytes;

    /// Holds of each value of the type: what its range keeps.
    ghost in_range: { Self → Type 0 };

    /// The number that it is stored as.
    ghost stored: { Self → Self.Number };

    /// Returns the number that the value is stored as. It allocates nothing.
    fn to_number(self) -> Self::Number
        ensures range { in_range self }
        ensures number { result ≡ stored self };

    /// Returns the value that is stored as this number, or `None` if there is none. It allocates nothing.
    fn from_number(number: Self::Number) -> Option<Self>
        ensures { MatchOption result (¬ ((v : Self) × in_range v × (stored v ≡ number)))
            (λ v. in_range v × (stored v ≡ number)) };

    ghost one_value: { (v w : Self) → in_range v → in_range w → stored v ≡ stored w → v ≡ w };

    ghost same_order: { (v w : Self) → in_range v → in_range w → Self.cmp v w ≡ Self.Number.cmp (stored v) (stored w) };
}

// The value whose number has these bytes, or None where there is none.
pub(super) fn read_stored<X: StoredAsNumber>(bytes: &[u8]) -> Option<X>
    requires { length bytes.now ≡ X.Number.WIDTH }
    ensures { MatchOption result
        (¬ ((v : X) × (X.in_range v × X.Number.is_value (X.stored v))
        × (X.Number.fixed_bytes (X.stored v) ≡ bytes.now)))
        (λ v. (X.in_range v × X.Number.is_value (X.stored v)) × (X.Number.fixed_bytes (X.stored v) ≡ bytes.now)) }
{
    X::from_number(X::Number::checked_from_slice(bytes)?)
}

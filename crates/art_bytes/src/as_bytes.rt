//! What a key's bytes are, and the laws that its type may keep of them.
//!
//! A law over all values of a key's type would be false, since in antt an array is a list of any length. So each type
//! says what it keeps of its values (`is_key`). `as_bytes` tells it of a key at hand, and the laws require it.
ghost use Rattle.std.specs.Prelude.{◌≡◌, ℕ, List};
ghost use Rattle.art_bytes.specs.Keys.{AreBytes, BeginsWith, bytes_cmp};

/// A key: a value that is seen as bytes.
///
/// Two keys with equal bytes name one entry, even if they are not equal values.
///
/// ```
/// use art_bytes::AsBytes;
/// assert_eq!(rt; [7, 8].as_bytes(), StrKey("\x07\x08").as_bytes());
/// ```
pub trait AsBytes {
    /// Holds of each value of the type: what its fields keep, such as the length of an array. `as_bytes` tells it of
    /// any key at hand, and the laws take it as their premise.
    ghost is_key: { Self → Type 0 };

    /// The bytes, which depend on the value alone.
    ghost bytes: { Self → List ℕ };

    /// Lends the key's bytes. It allocates nothing.
    fn as_bytes(&self) -> &[u8]
        ensures value { result.now ≡ bytes self.now }
        ensures key { is_key self.now };

    /// Each of the bytes is less than 256.
    ghost bytes_fit: { (k : Self) → is_key k → AreBytes (bytes k) };
}

/// Keys none of which is a prefix of another. If one key's bytes begin another's, both have the same bytes.
pub trait NoPrefixesBytes: AsBytes {
    ghost no_prefixes: { (k l : Self) → Self.is_key k → Self.is_key l → BeginsWith (Self.bytes k) (Self.bytes l)
        → Self.bytes k ≡ Self.bytes l };
}

/// Keys whose `Ord` is the order of their bytes.
pub trait OrderedBytes: AsBytes + Ord {
    ghost ordered: { (k l : Self) → Self.is_key k → Self.is_key l
        → Self.cmp k l ≡ bytes_cmp (Self.bytes k) (Self.bytes l) };
}

/// Keys whose clones have the same bytes.
pub trait CloneBytes: AsBytes + Clone {
    ghost same_bytes: { (k l : Self) → Self.is_clone k l → Self.bytes l ≡ Self.bytes k };
}

// The bytes themselves, of which the caller then knows that each is less than 256.
pub(crate) fn bytes_in_range(bytes: &[u8]) -> &[u8]
    ensures value { result.now ≡ bytes.now }
    ensures fit { AreBytes bytes.now }
{
    bytes
}

//! Keys that borrow a text or bytes.
ghost use Rattle.std.specs.Prelude.{◌≡◌};
ghost use Rattle.std.proofs.Common.{refl, ap};
ghost use Rattle.art_bytes.specs.Keys.{AreBytes};

use crate::as_bytes::{AsBytes, CloneBytes, OrderedBytes, bytes_in_range};

/// A borrowed text as a key: its UTF-8 bytes.
///
/// ```
/// use art_bytes::AsBytes;
/// assert_eq!(rt; StrKey("ab").as_bytes(), [97, 98].as_slice());
/// ```
#[derive(Clone, Copy, PartialEq, Eq, PartialOrd, Ord, Hash, Debug)]
pub struct StrKey<'a>(pub &'a str);

impl AsBytes for StrKey<'_> {
    ghost is_key = { λ k. AreBytes k.0.now };

    ghost bytes = { λ k. k.0.now };

    ghost bytes_fit = { λ k h. h };

    fn as_bytes(&self) -> &[u8] {
        let bytes = self.0.as_bytes();
        bytes
    }
}

impl OrderedBytes for StrKey<'_> {
    ghost ordered = { λ k l hk hl. refl };
}

impl CloneBytes for StrKey<'_> {
    ghost same_bytes = { λ k l h. ap (λ it. it.0.now) h };
}

/// Borrowed bytes as a key.
///
/// ```
/// use art_bytes::AsBytes;
/// let bytes = vec![in rt.alloc(); 1, 2, 3]?;
/// assert_eq!(rt; SliceKey(&bytes[1..]).as_bytes(), [2, 3].as_slice());
/// ```
#[derive(Clone, Copy, PartialEq, Eq, PartialOrd, Ord, Hash, Debug)]
pub struct SliceKey<'a>(pub &'a [u8]);

impl AsBytes for SliceKey<'_> {
    ghost is_key = { λ k. AreBytes k.0.now };

    ghost bytes = { λ k. k.0.now };

    ghost bytes_fit = { λ k h. h };

    fn as_bytes(&self) -> &[u8] {
        bytes_in_range(self.0)
    }
}

impl OrderedBytes for SliceKey<'_> {
    ghost ordered = { λ k l hk hl. refl };
}

impl CloneBytes for SliceKey<'_> {
    ghost same_bytes = { λ k l h. ap (λ it. it.0.now) h };
}

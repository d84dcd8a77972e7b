//! A key as itself.
ghost use Rattle.std.specs.Prelude.{◌≡◌};
ghost use Rattle.std.proofs.Common.{refl, subst, sym, ap};

use crate::as_bytes::{AsBytes, NoPrefixesBytes, OrderedBytes};
use crate::mapping::{BytesMapping, NoPrefixesMapping, OrderedMapping};
use std::alloc::{AllocError, Global};

/// A key is kept as it is.
///
/// ```
/// use art_bytes::AsBytes;
/// let key = Mapped::<Identity, [u8; 2]>::new(rt.alloc(), [1, 2])?;
/// assert_eq!(rt; key.as_bytes(), [1, 2].as_slice());
/// ```
#[derive(Clone, Copy)]
pub struct Identity;

impl<D: AsBytes + Drop> BytesMapping<D> for Identity {
    type Bytes = D;

    ghost has_bytes = { λ v b. (v ≡ b) × D.is_key v };

    ghost bytes_of = { D.bytes };

    ghost is_same = { λ v w. D.bytes v ≡ D.bytes w };

    ghost bytes_are_free = { Unit {0} };

    ghost value_is_free = { Unit {0} };

    ghost are_bytes = { λ v b h. (subst D.is_key h.0 h.1, ap D.bytes (sym h.0)) };

    ghost by_bytes = { λ v b c h k e. (c, (refl, k)) };

    ghost one_value = { λ v w b c h k e. e };

    fn to_bytes(_alloc: Global, value: D) -> Result<D, AllocError> {
        let _ = value.as_bytes();
        Ok(value)
    }

    fn from_bytes(_alloc: Global, bytes: D) -> Result<D, AllocError> {
        let _ = bytes.as_bytes();
        Ok(bytes)
    }

    fn checked_from_bytes(_alloc: Global, bytes: D) -> Result<Option<D>, AllocError> {
        let _ = bytes.as_bytes();
        Ok(Some(bytes))
    }
}

impl<D: NoPrefixesBytes + Drop> NoPrefixesMapping<D> for Identity {
    ghost no_prefixes = { λ v w b c h k. D.no_prefixes v w h.1 k.1 };
}

impl<D: OrderedBytes + Drop> OrderedMapping<D> for Identity {
    ghost ordered = { λ v w b c h k. D.ordered v w h.1 k.1 };
}

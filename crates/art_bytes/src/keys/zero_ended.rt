//! Bytes without a zero, kept with one at their end.
ghost use Rattle.std.specs.Prelude.{◌≡◌, ◌++◌, ◌-◌, [], ◌∷◌, ℕ, List, IfOk, IfErr, OnOk, nat_eq, Some, take, length};
ghost use Rattle.std.proofs.Common.{refl, rules, ap};
ghost use Rattle.std.specs.Cmp.{on_per, on_po, partial_equiv_from_equiv};
ghost use Rattle.std.specs.Cmp.Rules.{hashing};
ghost use Rattle.std.specs.Cmp.Lexicographic.{pointwise, nat_list_eq_equiv, on_texts, on_texts_equal, texts_po};
ghost use Rattle.std.specs.Cmp.Lexicographic.{texts_ties};
ghost use Rattle.std.specs.Hash as fed;
ghost use Rattle.std.specs.List.{each_same};
ghost use Rattle.art_bytes.specs.Keys.{AreBytes, HasNoZero, bytes_cmp};
ghost use Rattle.art_bytes.specs.lemmas.KeyLaws.{zero_ended_front, AreBytes-zero_ended};

use crate::as_bytes::{AsBytes, CloneBytes, NoPrefixesBytes, OrderedBytes, bytes_in_range};
use std::alloc::AllocError;
use std::cmp::Ordering;
use std::fmt;
use std::hash::{Hash, Hasher};
use std::marker::Model;
use thiserror::Error;

/// Why bytes could not be kept with a zero at their end. The error returns them.
#[derive(Debug, Drop, Error)]
pub enum ZeroEndedError {
    #[error("the bytes hold a zero")]
    HoldsZero(Vec<u8>),
    #[error("no memory for the zero at the end")]
    Memory(Vec<u8>),
}

/// Bytes none of which is zero, as a key with one zero at its end. So no key is a prefix of another.
///
/// A contract sees the list of the bytes without that zero.
///
/// ```
/// use art_bytes::AsBytes;
/// let key = ZeroEnded::new(b"ab".to_vec(rt.alloc())?)?;
/// assert_eq!(rt; key.as_bytes(), b"ab\0".as_slice());
/// ```
#[derive(Drop)]
pub struct ZeroEnded {
    with_zero: Vec<u8>,
}

impl Model for ZeroEnded {
    ghost Value = { List ℕ };

    ghost view = { λ k. take (length k.with_zero.items - 1) k.with_zero.items };

    ghost invariant = { λ k. (bytes : List ℕ) × HasNoZero bytes × AreBytes bytes
        × (k.with_zero.items ≡ bytes ++ 0 ∷ []) };
}

impl ZeroEnded {
    ghost use Rattle.art_bytes.specs.ZeroEnded.{HandsBack};

    /// Makes a key of these bytes. Fails if one of them is zero, or if there is no memory for the zero at the end. The
    /// error returns the bytes.
    ///
    /// ```
    /// assert!(rt; ZeroEnded::new(b"ab".to_vec(rt.alloc())?).is_ok());
    /// assert!(rt; ZeroEnded::new(b"a\0b".to_vec(rt.alloc())?).is_err());
    /// ```
    pub fn new(bytes: Vec<u8>) -> Result<Self, ZeroEndedError>
        ensures value { IfOk result (λ k. k ≡ bytes.items) }
        ensures fits { OnOk result (HasNoZero bytes.items) }
        ensures refused { IfErr result (λ e. HandsBack e bytes.items) }
    {
        if bytes_in_range(bytes.as_slice()).contains(&0) {
            return Err(ZeroEndedError::HoldsZero(bytes));
        }
        let mut with_zero = bytes;
        match with_zero.push(0) {
            Ok(()) => Ok(ZeroEnded { with_zero }),
            Err(_) => Err(ZeroEndedError::Memory(with_zero)),
        }
    }

    /// Returns the bytes without the zero at the end. It allocates nothing.
    ///
    /// ```
    /// let key = ZeroEnded::new(b"ab".to_vec(rt.alloc())?)?;
    /// assert_eq!(rt; key.to_bytes(), b"ab".as_slice());
    /// ```
    pub fn to_bytes(&self) -> &[u8]
        ensures value { result.now ≡ self.now }
        ensures no_zero { HasNoZero self.now }
    {
        let with_zero = self.with_zero.as_slice();
        &with_zero[..with_zero.len() - 1]
    }
}

impl AsBytes for ZeroEnded {
    ghost is_key = { λ k. HasNoZero k × AreBytes k };

    ghost bytes = { λ k. k ++ 0 ∷ [] };

    ghost bytes_fit = { λ k h. AreBytes-zero_ended k h.1 };

    fn as_bytes(&self) -> &[u8] {
        let bytes = self.with_zero.as_slice();
        bytes
    }
}

impl NoPrefixesBytes for ZeroEnded {
    ghost no_prefixes = { λ k l hk hl. zero_ended_front k l hk.0 hl.0 };
}

impl PartialEq for ZeroEnded {
    ghost eq = { λ k l. pointwise nat_eq (k ++ 0 ∷ []) (l ++ 0 ∷ []) };

    ghost laws = { on_per (λ k. k ++ 0 ∷ []) (partial_equiv_from_equiv nat_list_eq_equiv) };

    fn eq(&self, other: &Self) -> bool {
        self.as_bytes() == other.as_bytes()
    }
}

impl Eq for ZeroEnded {
    ghost laws = { on_texts_equal (λ k. k ++ 0 ∷ []) };
}

impl PartialOrd for ZeroEnded {
    ghost partial_cmp = { λ k l. Some (bytes_cmp (k ++ 0 ∷ []) (l ++ 0 ∷ [])) };

    ghost laws = { on_po (λ k. k ++ 0 ∷ []) texts_po };

    fn partial_cmp(&self, other: &Self) -> Option<Ordering> {
        Some(self.cmp(other))
    }
}

impl Ord for ZeroEnded {
    ghost cmp = { λ k l. bytes_cmp (k ++ 0 ∷ []) (l ++ 0 ∷ []) };

    ghost total = { on_texts (λ k. k ++ 0 ∷ []) };

    ghost matches_partial_cmp = { λ k l. refl };

    ghost matches_eq = { λ k l. texts_ties (k ++ 0 ∷ []) (l ++ 0 ∷ []) };

    fn cmp(&self, other: &Self) -> Ordering {
        self.as_bytes().cmp(other.as_bytes())
    }
}

impl OrderedBytes for ZeroEnded {
    ghost ordered = { λ k l hk hl. refl };
}

impl Hash for ZeroEnded {
    ghost hash_input = { λ k. fed.slice fed.u8 (k ++ 0 ∷ []) };

    ghost respects_eq = { Prim.search (hashing, rules) };

    fn hash<H: Hasher>(&self, state: &mut H) {
        self.as_bytes().hash(state);
    }
}

impl Clone for ZeroEnded {
    ghost is_clone = { λ k l. l ≡ k };

    fn clone(&self) -> Result<Self, AllocError> {
        let with_zero = self.with_zero.clone()?;
        Ok(ZeroEnded { with_zero })
    }
}

impl CloneBytes for ZeroEnded {
    ghost same_bytes = { λ k l h. ap (λ it. it ++ 0 ∷ []) h };
}

impl fmt::Debug for ZeroEnded {
    fn fmt<W: fmt::Write>(&self, f: &mut fmt::Formatter<W>) -> fmt::Result {
        let bytes = self.to_bytes();
        write!(f, "ZeroEnded({bytes:?})")
    }
}

//! A value as a key, by a mapping.
ghost use Rattle.std.specs.Prelude.{◌≡◌, IfOk, OnErr, nat_eq, Some};
ghost use Rattle.std.proofs.Common.{refl, rules};
ghost use Rattle.std.specs.Cmp.Rules.{hashing};
ghost use Rattle.std.specs.Cmp.{on_per, on_po, partial_equiv_from_equiv};
ghost use Rattle.std.specs.Cmp.Lexicographic.{pointwise, nat_list_eq_equiv, on_texts, on_texts_equal, texts_po};
ghost use Rattle.std.specs.Cmp.Lexicographic.{texts_ties};
ghost use Rattle.std.specs.Hash as fed;
ghost use Rattle.art_bytes.specs.Keys.{bytes_cmp};
ghost use Rattle.art_bytes.specs.lemmas.KeyLaws.{front_of_mapped};

use crate::as_bytes::{AsBytes, CloneBytes, NoPrefixesBytes, OrderedBytes};
use crate::mapping::{BytesMapping, NoPrefixesMapping, OrderedMapping};
use std::alloc::{AllocError, Global};
use std::cmp::Ordering;
use std::fmt;
use std::hash::{Hash, Hasher};
use std::marker::{Model, PhantomData};

/// A value of `D` as a key, which keeps the bytes that `B` gives it.
///
/// A contract sees what it keeps, of type `B::Bytes`, which is always some value's.
///
/// ```
/// use art_bytes::AsBytes;
/// let two = Mapped::<ToIBE, i32>::new(rt.alloc(), -2)?;
/// let three = Mapped::<ToIBE, i32>::new(rt.alloc(), 3)?;
/// assert!(rt; two.as_bytes() < three.as_bytes());
/// ```
#[derive(Drop)]
pub struct Mapped<B: BytesMapping<D>, D> {
    repr: B::Bytes,
    mapping: PhantomData<(B, D)>,
}

impl<B: BytesMapping<D>, D> Model for Mapped<B, D> {
    ghost Value = { B.Bytes };

    ghost view = { λ m. m.repr };

    ghost invariant = { λ m. (v : D) × B.has_bytes v m.repr };
}

impl<B: BytesMapping<D>, D> Mapped<B, D> {
    /// Makes a key of a value. Fails only if its bytes need memory.
    ///
    /// ```
    /// use art_bytes::AsBytes;
    /// let key = Mapped::<ToUBE, u16>::new(rt.alloc(), 258)?;
    /// assert_eq!(rt; key.as_bytes(), [1, 2].as_slice());
    /// ```
    pub fn new(alloc: Global, value: D) -> Result<Self, AllocError>
        ensures value { IfOk result (λ m. B.has_bytes value m) }
        ensures refused { OnErr result (¬ B.bytes_are_free) }
    {
        let repr = B::to_bytes(alloc, value)?;
        Ok(Mapped {
            repr,
            mapping: PhantomData,
        })
    }

    /// Returns the value. Fails only if it needs memory.
    ///
    /// ```
    /// let key = Mapped::<ToUBE, u16>::new(rt.alloc(), 258)?;
    /// assert_eq!(rt; key.get(rt.alloc())?, 258);
    /// ```
    pub fn get(self, alloc: Global) -> Result<D, AllocError>
        ensures value { IfOk result (λ v. B.has_bytes v self) }
        ensures refused { OnErr result (¬ B.value_is_free) }
    {
        let Mapped { repr, mapping: _ } = self;
        B::from_bytes(alloc, repr)
    }
}

impl<B: BytesMapping<D>, D> AsBytes for Mapped<B, D> {
    ghost is_key = { λ m. (v : D) × B.has_bytes v m };

    ghost bytes = { λ m. B.Bytes.bytes m };

    ghost bytes_fit = { λ m h. B.Bytes.bytes_fit m (B.are_bytes h.0 m h.1).0 };

    fn as_bytes(&self) -> &[u8] {
        self.repr.as_bytes()
    }
}

impl<B: NoPrefixesMapping<D>, D> NoPrefixesBytes for Mapped<B, D> {
    ghost no_prefixes = { λ m n hm hn. front_of_mapped (B.are_bytes hm.0 m hm.1).1 (B.are_bytes hn.0 n hn.1).1
        (B.no_prefixes hm.0 hn.0 m n hm.1 hn.1) };
}

impl<B: BytesMapping<D>, D> PartialEq for Mapped<B, D> {
    ghost eq = { λ m n. pointwise nat_eq (B.Bytes.bytes m) (B.Bytes.bytes n) };

    ghost laws = { on_per (λ m. B.Bytes.bytes m) (partial_equiv_from_equiv nat_list_eq_equiv) };

    fn eq(&self, other: &Self) -> bool {
        self.as_bytes() == other.as_bytes()
    }
}

impl<B: BytesMapping<D>, D> Eq for Mapped<B, D> {
    ghost laws = { on_texts_equal (λ m. B.Bytes.bytes m) };
}

impl<B: OrderedMapping<D>, D: Ord> PartialOrd for Mapped<B, D> {
    ghost partial_cmp = { λ m n. Some (bytes_cmp (B.Bytes.bytes m) (B.Bytes.bytes n)) };

    ghost laws = { on_po (λ m. B.Bytes.bytes m) texts_po };

    fn partial_cmp(&self, other: &Self) -> Option<Ordering> {
        Some(self.cmp(other))
    }
}

impl<B: OrderedMapping<D>, D: Ord> Ord for Mapped<B, D> {
    ghost cmp = { λ m n. bytes_cmp (B.Bytes.bytes m) (B.Bytes.bytes n) };

    ghost total = { on_texts (λ m. B.Bytes.bytes m) };

    ghost matches_partial_cmp = { λ m n. refl };

    ghost matches_eq = { λ m n. texts_ties (B.Bytes.bytes m) (B.Bytes.bytes n) };

    fn cmp(&self, other: &Self) -> Ordering {
        self.as_bytes().cmp(other.as_bytes())
    }
}

impl<B: OrderedMapping<D>, D: Ord> OrderedBytes for Mapped<B, D> {
    ghost ordered = { λ m n hm hn. refl };
}

impl<B: BytesMapping<D>, D> Hash for Mapped<B, D> {
    ghost hash_input = { λ m. fed.slice fed.u8 (B.Bytes.bytes m) };

    ghost respects_eq = { Prim.search (hashing, rules) };

    fn hash<H: Hasher>(&self, state: &mut H) {
        self.as_bytes().hash(state);
    }
}

impl<B: BytesMapping<D>, D: Drop> Clone for Mapped<B, D>
where
    B: Drop,
    B::Bytes: CloneBytes,
{
    ghost is_clone = { λ m n. B.Bytes.is_clone m n };

    fn clone(&self) -> Result<Self, AllocError> {
        let repr = self.repr.clone()?;
        let _ = repr.as_bytes();
        Ok(Mapped {
            repr,
            mapping: PhantomData,
        })
    }
}

impl<B: BytesMapping<D>, D: Drop> CloneBytes for Mapped<B, D>
where
    B: Drop,
    B::Bytes: CloneBytes,
{
    ghost same_bytes = { λ m n h. B.Bytes.same_bytes m n h };
}

impl<B: BytesMapping<D>, D> fmt::Debug for Mapped<B, D> {
    fn fmt<W: fmt::Write>(&self, f: &mut fmt::Formatter<W>) -> fmt::Result {
        let bytes = self.as_bytes();
        write!(f, "Mapped({bytes:?})")
    }
}

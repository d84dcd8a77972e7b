//! Tuples: the parts' bytes in order.
ghost use Rattle.std.specs.Prelude.{◌≡◌, ◌++◌, ◌+◌, ◌<◌, ◌^◌, ℕ, List, OnErr, OnOk, MatchOption};
ghost use Rattle.std.proofs.Common.{◌∙◌, sym, subst, refl, ap};
ghost use Rattle.art_bytes.specs.Keys.{AppendsFrontOf, AreBytes};
ghost use Rattle.art_bytes.specs.lemmas.KeyLaws.{BeginsWith-same_length};
ghost use Rattle.art_bytes.specs.Mappings.{HaveFixedBytes};
ghost use Rattle.art_bytes.specs.lemmas.ConcatLaws.{pair_bytes, regrouped_bytes};

use crate::as_bytes::AsBytes;
use crate::mapping::{BytesMapping, NoPrefixesMapping, OrderedMapping};
use std::alloc::{AllocError, Global};
use std::marker::PhantomData;

/// Tuples of two to six parts. Each part is mapped as the mapping in its place in `M` tells.
///
/// ```
/// use art_bytes::AsBytes;
/// let key = Mapped::<ConcatTuple<(ToUBE, ToUBE)>, (u8, u16)>::new(rt.alloc(), (7, 258))?;
/// assert_eq!(rt; key.as_bytes(), [7, 1, 2].as_slice());
/// ```
#[derive(Clone, Copy)]
pub struct ConcatTuple<M> {
    parts: PhantomData<M>,
}

/// The mappings of a tuple's parts, as one. A fixed mapping is that of one part.
pub trait Parts<D: Ord> {
    ghost WIDTH: { ℕ };

    /// Holds of each tuple: what its parts' ranges keep.
    ghost is_value: { D → Type 0 };

    /// The bytes of a tuple: those of its parts in order.
    ghost parts_bytes: { D → List ℕ };

    /// Returns the number of bytes, or `None` if no `usize` is as great.
    fn width() -> Option<usize>
        ensures { MatchOption result (¬ (WIDTH < 2 ^ 64)) (λ n. n ≡ WIDTH) };

    /// Appends the tuple's bytes to those that are there. If it fails, it has appended a front of them, or nothing.
    fn push_bytes(bytes: &mut Vec<u8>, alloc: Global, value: D) -> Result<(), AllocError>
        ensures value { OnOk result (is_value value) }
        ensures bytes { OnOk result (bytes.new.items ≡ bytes.old.items ++ parts_bytes value) }
        ensures err { OnErr result (AppendsFrontOf (parts_bytes value) bytes.old.items bytes.new.items) };

    /// Returns the tuple that has these bytes, or `None` if there is none. It allocates nothing.
    fn checked_from_slice(bytes: &[u8]) -> Option<D>
        ensures { MatchOption result (¬ ((v : D) × is_value v × (parts_bytes v ≡ bytes.now)))
            (λ v. is_value v × (parts_bytes v ≡ bytes.now)) };

    ghost have_bytes: { HaveFixedBytes WIDTH is_value parts_bytes D.cmp };
}

// The number of bytes of the first parts and the last, or None where no `usize` is as great.
fn pair_width<M: Parts<X>, X: Ord + Drop, A: Parts<Y>, Y: Ord + Drop>() -> Option<usize>
    ensures { MatchOption result (¬ (M.WIDTH + A.WIDTH < 2 ^ 64)) (λ n. n ≡ M.WIDTH + A.WIDTH) }
{
    M::width()?.checked_add(A::width()?)
}

// Puts the bytes of the first parts and then those of the last after those that are there.
fn push_pair<M: Parts<X>, X: Ord + Drop, A: Parts<Y>, Y: Ord + Drop>(
    bytes: &mut Vec<u8>,
    alloc: Global,
    first: X,
    last: Y,
) -> Result<(), AllocError>
    ensures first { OnOk result (M.is_value first) }
    ensures last { OnOk result (A.is_value last) }
    ensures bytes { OnOk result (bytes.new.items ≡ bytes.old.items ++ (M.parts_bytes first ++ A.parts_bytes last)) }
    ensures err { OnErr result
        (AppendsFrontOf (M.parts_bytes first ++ A.parts_bytes last) bytes.old.items bytes.new.items) }
{
    M::push_bytes(bytes, alloc, first)?;
    A::push_bytes(bytes, alloc, last)
}

// The first parts and the last that have these bytes, or None where there are none.
fn read_pair<M: Parts<X>, X: Ord + Drop, A: Parts<Y>, Y: Ord>(bytes: &[u8]) -> Option<(X, Y)>
    ensures { MatchOption result
        (¬ ((x : X) × (y : Y) × M.is_value x × A.is_value y × (M.parts_bytes x ++ A.parts_bytes y ≡ bytes.now)))
        (λ p. M.is_value p.0 × A.is_value p.1 × (M.parts_bytes p.0 ++ A.parts_bytes p.1 ≡ bytes.now)) }
{
    let width = A::width()?;
    if bytes.len() < width {
        return None;
    }
    let (front, back) = bytes.split_at(bytes.len() - width);
    let first = match M::checked_from_slice(front) {
        Some(first) => first,
        None => return None,
    };
    match A::checked_from_slice(back) {
        Some(last) => Some((first, last)),
        None => None,
    }
}

impl<M: Parts<D>, D: Ord + Drop> BytesMapping<D> for ConcatTuple<M> {
    type Bytes = Vec<u8>;

    ghost has_bytes = { λ v b. M.is_value v × (b.items ≡ M.parts_bytes v) };

    ghost bytes_of = { M.parts_bytes };

    ghost is_same = { λ v w. v ≡ w };

    ghost bytes_are_free = { ⊥ };

    ghost value_is_free = { Unit {0} };

    ghost are_bytes = { λ v b h. (subst AreBytes (sym h.1) (M.have_bytes.fit v h.0), h.1) };

    ghost by_bytes = { λ v b c h k e. (v, (h.0, e ∙ h.1)) };

    ghost one_value = { λ v w b c h k e. M.have_bytes.one_value v w h.0 k.0 e };

    fn to_bytes(alloc: Global, value: D) -> Result<Vec<u8>, AllocError> {
        let width = match M::width() {
            Some(width) => width,
            None => return Err(AllocError),
        };
        let mut bytes = Vec::with_capacity(alloc, width)?;
        M::push_bytes(&mut bytes, alloc, value)?;
        Ok(bytes)
    }

    fn from_bytes(_alloc: Global, bytes: Vec<u8>) -> Result<D, AllocError> {
        match M::checked_from_slice(bytes.as_slice()) {
            Some(value) => Ok(value),
            None => unreachable!(),
        }
    }

    fn checked_from_bytes(_alloc: Global, bytes: Vec<u8>) -> Result<Option<D>, AllocError> {
        Ok(M::checked_from_slice(bytes.as_slice()))
    }
}

impl<M: Parts<D>, D: Ord + Drop> NoPrefixesMapping<D> for ConcatTuple<M> {
    ghost no_prefixes = { λ v w b c h k. BeginsWith-same_length _ _ M.WIDTH (M.have_bytes.long v h.0)
        (M.have_bytes.long w k.0) };
}

impl<M: Parts<D>, D: Ord + Drop> OrderedMapping<D> for ConcatTuple<M> {
    ghost ordered = { λ v w b c h k. M.have_bytes.ordered v w h.0 k.0 };
}

impl<A: Parts<U>, B: Parts<V>, U: Ord + Drop, V: Ord + Drop> Parts<(U, V)> for (A, B) {
    ghost WIDTH = { A.WIDTH + B.WIDTH };

    ghost is_value = { λ v. A.is_value v.0 × B.is_value v.1 };

    ghost parts_bytes = { λ v. A.parts_bytes v.0 ++ B.parts_bytes v.1 };

    ghost have_bytes = { pair_bytes _ _ _ _ _ _ _ _ A.have_bytes B.have_bytes };

    fn width() -> Option<usize> {
        pair_width::<A, U, B, V>()
    }

    fn push_bytes(bytes: &mut Vec<u8>, alloc: Global, value: (U, V)) -> Result<(), AllocError> {
        push_pair::<A, U, B, V>(bytes, alloc, value.0, value.1)
    }

    fn checked_from_slice(bytes: &[u8]) -> Option<(U, V)> {
        read_pair::<A, U, B, V>(bytes)
    }
}

impl<A: Parts<U>, B: Parts<V>, C: Parts<W>, U: Ord + Drop, V: Ord + Drop, W: Ord + Drop> Parts<
    (U, V, W),
> for (A, B, C) {
    ghost WIDTH = { (A.WIDTH + B.WIDTH) + C.WIDTH };

    ghost is_value = { λ v. (A.is_value v.0 × B.is_value v.1) × C.is_value v.2 };

    ghost parts_bytes = { λ v. (A.parts_bytes v.0 ++ B.parts_bytes v.1) ++ C.parts_bytes v.2 };

    ghost have_bytes = { regrouped_bytes (λ v. ((v.0, v.1), v.2)) _ _ _ _ _
        (λ v w e. λ i. ((e i).0.0, (e i).0.1, (e i).1)) (λ v w. refl)
        (pair_bytes _ _ _ _ _ _ _ _ (pair_bytes _ _ _ _ _ _ _ _ A.have_bytes B.have_bytes) C.have_bytes) };

    fn width() -> Option<usize> {
        pair_width::<(A, B), (U, V), C, W>()
    }

    fn push_bytes(bytes: &mut Vec<u8>, alloc: Global, value: (U, V, W)) -> Result<(), AllocError> {
        push_pair::<(A, B), (U, V), C, W>(bytes, alloc, (value.0, value.1), value.2)
    }

    fn checked_from_slice(bytes: &[u8]) -> Option<(U, V, W)> {
        match read_pair::<(A, B), (U, V), C, W>(bytes) {
            Some(((a, b), c)) => Some((a, b, c)),
            None => None,
        }
    }
}

impl<
    A: Parts<U>,
    B: Parts<V>,
    C: Parts<W>,
    D: Parts<X>,
    U: Ord + Drop,
    V: Ord + Drop,
    W: Ord + Drop,
    X: Ord + Drop,
> Parts<(U, V, W, X)> for (A, B, C, D) {
    ghost WIDTH = { ((A.WIDTH + B.WIDTH) + C.WIDTH) + D.WIDTH };

    ghost is_value = { λ v. ((A.is_value v.0 × B.is_value v.1) × C.is_value v.2) × D.is_value v.3 };

    ghost parts_bytes = { λ v. ((A.parts_bytes v.0 ++ B.parts_bytes v.1) ++ C.parts_bytes v.2) ++ D.parts_bytes v.3 };

    ghost have_bytes = { regrouped_bytes (λ v. (((v.0, v.1), v.2), v.3)) _ _ _ _ _
        (λ v w e. λ i. ((e i).0.0.0, (e i).0.0.1, (e i).0.1, (e i).1)) (λ v w. refl)
        (pair_bytes _ _ _ _ _ _ _ _
        (pair_bytes _ _ _ _ _ _ _ _
        (pair_bytes _ _ _ _ _ _ _ _ A.have_bytes B.have_bytes) C.have_bytes) D.have_bytes) };

    fn width() -> Option<usize> {
        pair_width::<(A, B, C), (U, V, W), D, X>()
    }

    fn push_bytes(
        bytes: &mut Vec<u8>,
        alloc: Global,
        value: (U, V, W, X),
    ) -> Result<(), AllocError> {
        push_pair::<(A, B, C), (U, V, W), D, X>(bytes, alloc, (value.0, value.1, value.2), value.3)
    }

    fn checked_from_slice(bytes: &[u8]) -> Option<(U, V, W, X)> {
        match read_pair::<(A, B, C), (U, V, W), D, X>(bytes) {
            Some(((a, b, c), d)) => Some((a, b, c, d)),
            None => None,
        }
    }
}

impl<
    A: Parts<U>,
    B: Parts<V>,
    C: Parts<W>,
    D: Parts<X>,
    E: Parts<Y>,
    U: Ord + Drop,
    V: Ord + Drop,
    W: Ord + Drop,
    X: Ord + Drop,
    Y: Ord + Drop,
> Parts<(U, V, W, X, Y)> for (A, B, C, D, E) {
    ghost WIDTH = { (((A.WIDTH + B.WIDTH) + C.WIDTH) + D.WIDTH) + E.WIDTH };

    ghost is_value = { λ v. (((A.is_value v.0 × B.is_value v.1) × C.is_value v.2) × D.is_value v.3) × E.is_value v.4 };

    ghost parts_bytes = { λ v. (((A.parts_bytes v.0 ++ B.parts_bytes v.1) ++ C.parts_bytes v.2) ++ D.parts_bytes v.3)
        ++ E.parts_bytes v.4 };

    ghost have_bytes = { regrouped_bytes (λ v. ((((v.0, v.1), v.2), v.3), v.4)) _ _ _ _ _
        (λ v w e. λ i. ((e i).0.0.0.0, (e i).0.0.0.1, (e i).0.0.1, (e i).0.1, (e i).1)) (λ v w. refl)
        (pair_bytes _ _ _ _ _ _ _ _
        (pair_bytes _ _ _ _ _ _ _ _
        (pair_bytes _ _ _ _ _ _ _ _
        (pair_bytes _ _ _ _ _ _ _ _ A.have_bytes B.have_bytes) C.have_bytes) D.have_bytes) E.have_bytes) };

    fn width() -> Option<usize> {
        pair_width::<(A, B, C, D), (U, V, W, X), E, Y>()
    }

    fn push_bytes(
        bytes: &mut Vec<u8>,
        alloc: Global,
        value: (U, V, W, X, Y),
    ) -> Result<(), AllocError> {
        push_pair::<(A, B, C, D), (U, V, W, X), E, Y>(
            bytes,
            alloc,
            (value.0, value.1, value.2, value.3),
            value.4,
        )
    }

    fn checked_from_slice(bytes: &[u8]) -> Option<(U, V, W, X, Y)> {
        match read_pair::<(A, B, C, D), (U, V, W, X), E, Y>(bytes) {
            Some(((a, b, c, d), e)) => Some((a, b, c, d, e)),
            None => None,
        }
    }
}

impl<
    A: Parts<U>,
    B: Parts<V>,
    C: Parts<W>,
    D: Parts<X>,
    E: Parts<Y>,
    F: Parts<Z>,
    U: Ord + Drop,
    V: Ord + Drop,
    W: Ord + Drop,
    X: Ord + Drop,
    Y: Ord + Drop,
    Z: Ord + Drop,
> Parts<(U, V, W, X, Y, Z)> for (A, B, C, D, E, F) {
    ghost WIDTH = { ((((A.WIDTH + B.WIDTH) + C.WIDTH) + D.WIDTH) + E.WIDTH) + F.WIDTH };

    ghost is_value = { λ v. ((((A.is_value v.0 × B.is_value v.1) × C.is_value v.2) × D.is_value v.3) × E.is_value v.4)
        × F.is_value v.5 };

    ghost parts_bytes = { λ v.
        ((((A.parts_bytes v.0 ++ B.parts_bytes v.1) ++ C.parts_bytes v.2) ++ D.parts_bytes v.3) ++ E.parts_bytes v.4)
        ++ F.parts_bytes v.5 };

    ghost have_bytes = { regrouped_bytes (λ v. (((((v.0, v.1), v.2), v.3), v.4), v.5)) _ _ _ _ _
        (λ v w e. λ i. ((e i).0.0.0.0.0, (e i).0.0.0.0.1, (e i).0.0.0.1, (e i).0.0.1, (e i).0.1, (e i).1)) (λ v w. refl)
        (pair_bytes _ _ _ _ _ _ _ _
        (pair_bytes _ _ _ _ _ _ _ _
        (pair_bytes _ _ _ _ _ _ _ _
        (pair_bytes _ _ _ _ _ _ _ _
        (pair_bytes _ _ _ _ _ _ _ _ A.have_bytes B.have_bytes)
        C.have_bytes) D.have_bytes) E.have_bytes) F.have_bytes) };

    fn width() -> Option<usize> {
        pair_width::<(A, B, C, D, E), (U, V, W, X, Y), F, Z>()
    }

    fn push_bytes(
        bytes: &mut Vec<u8>,
        alloc: Global,
        value: (U, V, W, X, Y, Z),
    ) -> Result<(), AllocError> {
        push_pair::<(A, B, C, D, E), (U, V, W, X, Y), F, Z>(
            bytes,
            alloc,
            (value.0, value.1, value.2, value.3, value.4),
            value.5,
        )
    }

    fn checked_from_slice(bytes: &[u8]) -> Option<(U, V, W, X, Y, Z)> {
        match read_pair::<(A, B, C, D, E), (U, V, W, X, Y), F, Z>(bytes) {
            Some(((a, b, c, d, e), f)) => Some((a, b, c, d, e, f)),
            None => None,
        }
    }
}

//! `CloneKey`: keys whose clones are keys, so that a map of them can be cloned by `Clone`.
ghost use Rattle.std.specs.Prelude.{◌≡◌, length};
ghost use Rattle.std.proofs.Common.{sym, subst};
ghost use Rattle.std.specs.List.{each_same};
ghost use Rattle.art_bytes.specs.Keys.{AreBytes, HasNoZero};

use art_bytes::{AsBytes, BytesMapping, CloneBytes, Mapped, SliceKey, StrKey, ZeroEnded};
use std::rc::Rc;

/// Keys whose clones are keys of their type, too. A map or a set of them is `Clone`.
pub trait CloneKey: CloneBytes {
    ghost clone_is_key: { (k l : Self) → Self.is_key k → Self.is_clone k l → Self.is_key l };
}

impl CloneKey for Vec<u8> {
    ghost clone_is_key = { λ k l key h. subst AreBytes (sym (each_same k.items l.items h.0)) key };
}

impl<const N: usize> CloneKey for [u8; N] {
    ghost clone_is_key = { λ k l key h. subst (λ it. AreBytes it × (length it ≡ N)) (sym (each_same k l h.whole)) key };
}

impl<T: AsBytes> CloneKey for &T {
    ghost clone_is_key = { λ k l key h. subst (λ it. T.is_key it.now) (sym h) key };
}

impl<T: AsBytes + Drop> CloneKey for Rc<T> {
    ghost clone_is_key = { λ k l key h. subst T.is_key (sym h) key };
}

impl<T: CloneKey> CloneKey for Box<T> {
    ghost clone_is_key = { λ k l key h. T.clone_is_key k.value l.value key h };
}

impl CloneKey for String {
    ghost clone_is_key = { λ k l key h. subst AreBytes (sym h) key };
}

impl CloneKey for ZeroEnded {
    ghost clone_is_key = { λ k l key h. subst (λ it. HasNoZero it × AreBytes it) (sym h) key };
}

impl CloneKey for StrKey<'_> {
    ghost clone_is_key = { λ k l key h. subst (λ it. AreBytes it.0.now) (sym h) key };
}

impl CloneKey for SliceKey<'_> {
    ghost clone_is_key = { λ k l key h. subst (λ it. AreBytes it.0.now) (sym h) key };
}

impl<B: BytesMapping<D>, D: Drop> CloneKey for Mapped<B, D>
where
    B: Drop,
    B::Bytes: CloneKey,
{
    ghost clone_is_key = { λ m n key h. B.by_bytes key.0 m n key.1
        (B.Bytes.clone_is_key m n (B.are_bytes key.0 m key.1).0 h) (B.Bytes.same_bytes m n h) };
}

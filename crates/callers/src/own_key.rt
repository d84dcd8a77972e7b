//! A key of a caller's own: a text with a tag that is no part of its value. Equality, order and hash leave the tag out,
//! so that it shows which of two equal keys a map keeps.
ghost use Rattle.std.specs.Prelude.{◌≡◌, ◌++◌, [], ◌∷◌, ℕ, List, Some, nat_eq};
ghost use Rattle.std.proofs.Common.{refl, ap};
ghost use Rattle.std.specs.Cmp.{on_per, on_po, partial_equiv_from_equiv};
ghost use Rattle.std.specs.Cmp.Lexicographic.{pointwise, nat_list_eq_equiv, on_texts, on_texts_equal, texts_po};
ghost use Rattle.std.specs.Cmp.Lexicographic.{texts_ties};
ghost use Rattle.std.specs.Cmp.Rules.{hashing};
ghost use Rattle.std.proofs.Common.{rules};
ghost use Rattle.art_bytes.specs.Keys.{AreBytes, HasNoZero, bytes_cmp};
ghost use Rattle.art_bytes.specs.lemmas.KeyLaws.{zero_ended_front, AreBytes-zero_ended};

use art_bytes::{AsBytes, CloneBytes, NoPrefixesBytes, OrderedBytes, ZeroEnded};
use std::alloc::AllocError;
use std::cmp::Ordering;
use std::hash::{Hash, Hasher};
use std::marker::Model;

/// Bytes none of which is zero, with a zero after them, so that no key begins another, and a tag.
#[derive(Drop)]
pub struct TaggedKey {
    bytes: ZeroEnded,
    tag: u8,
}

impl TaggedKey {
    pub fn new(bytes: ZeroEnded, tag: u8) -> Self
        ensures { result ≡ bytes }
    {
        TaggedKey { bytes, tag }
    }

    pub fn tag(&self) -> u8 {
        self.tag
    }
}

impl Model for TaggedKey {
    ghost Value = { List ℕ };

    ghost view = { λ k. k.bytes };
}

impl AsBytes for TaggedKey {
    ghost is_key = { λ k. HasNoZero k × AreBytes k };

    ghost bytes = { λ k. k ++ 0 ∷ [] };

    ghost bytes_fit = { λ k h. AreBytes-zero_ended k h.1 };

    fn as_bytes(&self) -> &[u8] {
        self.bytes.as_bytes()
    }
}

impl NoPrefixesBytes for TaggedKey {
    ghost no_prefixes = { λ k l hk hl. zero_ended_front k l hk.0 hl.0 };
}

impl PartialEq for TaggedKey {
    ghost eq = { λ k l. pointwise nat_eq (k ++ 0 ∷ []) (l ++ 0 ∷ []) };

    ghost laws = { on_per (λ k. k ++ 0 ∷ []) (partial_equiv_from_equiv nat_list_eq_equiv) };

    fn eq(&self, other: &Self) -> bool {
        self.as_bytes() == other.as_bytes()
    }
}

impl Eq for TaggedKey {
    ghost laws = { on_texts_equal (λ k. k ++ 0 ∷ []) };
}

impl PartialOrd for TaggedKey {
    ghost partial_cmp = { λ k l. Some (bytes_cmp (k ++ 0 ∷ []) (l ++ 0 ∷ [])) };

    ghost laws = { on_po (λ k. k ++ 0 ∷ []) texts_po };

    fn partial_cmp(&self, other: &Self) -> Option<Ordering> {
        Some(self.cmp(other))
    }
}

impl Ord for TaggedKey {
    ghost cmp = { λ k l. bytes_cmp (k ++ 0 ∷ []) (l ++ 0 ∷ []) };

    ghost total = { on_texts (λ k. k ++ 0 ∷ []) };

    ghost matches_partial_cmp = { λ k l. refl };

    ghost matches_eq = { λ k l. texts_ties (k ++ 0 ∷ []) (l ++ 0 ∷ []) };

    fn cmp(&self, other: &Self) -> Ordering {
        self.as_bytes().cmp(other.as_bytes())
    }
}

impl OrderedBytes for TaggedKey {
    ghost ordered = { λ k l hk hl. refl };
}

impl Clone for TaggedKey {
    ghost is_clone = { λ k l. l ≡ k };

    fn clone(&self) -> Result<Self, AllocError> {
        let (bytes, tag) = (self.bytes.clone()?, self.tag);
        Ok(TaggedKey { bytes, tag })
    }
}

impl CloneBytes for TaggedKey {
    ghost same_bytes = { λ k l h. ap (λ it. it ++ 0 ∷ []) h };
}

/// The hasher is fed with the bytes by one write.
impl Hash for TaggedKey {
    ghost hash_input = { λ k. (k ++ 0 ∷ []) ∷ [] };

    ghost respects_eq = { Prim.search (hashing, rules) };

    fn hash<H: Hasher>(&self, state: &mut H) {
        state.write(self.as_bytes());
    }
}

//! A number in eight bytes of any alignment.
ghost use Rattle.std.specs.Prelude.{◌≡◌};

use std::alloc::AllocError;
use std::hash::{Hash, Hasher};
use std::marker::Model;

/// A number that takes eight bytes and forces no padding on what holds it.
pub struct Unaligned {
    bytes: [u8; 8],
}

impl Model for Unaligned {
    ghost use Rattle.std.specs.Prelude.{◌≡◌, ℕ, ◌<◌, List, length, slice_index};
    ghost use Rattle.std.specs.Int.{to_le_bytes, from_le_bytes, w64};
    ghost use Rattle.std.proofs.Common.{ap, refl};
    ghost use Rattle.std.proofs.lemmas.Nat.{le_bytes_8};

    ghost Value = { ℕ };

    ghost view = { λ s. from_le_bytes w64 s.bytes };

    ghost invariant = { λ s. (length s.bytes ≡ 8) × ((i : ℕ) → slice_index s.bytes i < 256) };

    ghost inverse = { λ n. record { bytes = to_le_bytes w64 n } };

    ghost inverse_ok = { λ a h. ap (λ (bytes : List ℕ). record a { bytes = bytes })
        (le_bytes_8 a.bytes (from_le_bytes w64 a.bytes) h.0 h.1 refl) };
}

impl Clone for Unaligned {
    ghost use Rattle.std.specs.Prelude.{◌≡◌, ⊤};

    ghost is_clone = { λ original copy. copy ≡ original };

    ghost is_infallible = { λ _. ⊤ };

    fn clone(&self) -> Result<Self, AllocError> {
        Ok(*self)
    }
}

impl Copy for Unaligned {}

impl PartialEq for Unaligned {
    ghost use Rattle.std.specs.Prelude.{◌==◌};
    ghost use Rattle.std.proofs.Common.{rules};
    ghost use Rattle.std.specs.Cmp.Rules.{comparing};

    ghost eq = { ◌==◌ };

    ghost laws = { Prim.search (comparing, rules) };

    fn eq(&self, other: &Self) -> bool {
        self.get() == other.get()
    }
}

impl Eq for Unaligned {
    ghost use Rattle.std.proofs.Common.{rules};
    ghost use Rattle.std.specs.Cmp.Rules.{comparing};

    ghost laws = { Prim.search (comparing, rules) };
}

impl Hash for Unaligned {
    ghost use Rattle.std.proofs.Common.{rules};
    ghost use Rattle.std.specs.Hash as fed;
    ghost use Rattle.std.specs.Cmp.Rules.{hashing};

    ghost hash_input = { λ s. fed.usize s };

    ghost respects_eq = { Prim.search (hashing, rules) };

    fn hash<H: Hasher>(&self, state: &mut H) {
        self.get().hash(state);
    }
}

impl Unaligned {
    /// This number, held in eight bytes.
    pub fn new(number: usize) -> Self
        ensures { result ≡ number }
    {
        Unaligned {
            bytes: number.to_le_bytes(),
        }
    }

    /// The number.
    pub fn get(self) -> usize
        ensures { result ≡ self }
    {
        usize::from_le_bytes(self.bytes)
    }
}

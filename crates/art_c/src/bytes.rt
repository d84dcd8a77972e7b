//! Byte strings, which are the keys of each map and the values of some, and how they are copied in.
ghost use Rattle.std.specs.Prelude.{◌≡◌, ℕ, List, IfOk, OnErr};
ghost use Rattle.art_bytes.specs.Keys.{AreBytes};
ghost use Rattle.art_c.specs.Placed.{placed_bytes, ArePlaced, IsLong};

use art_bytes::{AsBytes, CloneBytes};
use std::alloc::{AllocError, Global};
use std::marker::Model;

/// How many bytes stand in place at most. With their number they take what a vector and a tag take.
const SHORT: usize = 30;

/// Where the bytes stand.
#[derive(Drop)]
enum Placed {
    /// In place, and how many.
    Short([u8; 30], u8),
    /// In a block of their own.
    Long(Vec<u8>),
}

/// A byte string. What a contract sees is the list of its bytes. A short one takes no memory besides itself.
#[derive(Drop)]
pub struct Bytes {
    placed: Placed,
}

impl Model for Bytes {
    ghost Value = { List ℕ };

    ghost view = { λ b. placed_bytes b.placed };

    ghost invariant = { λ b. ArePlaced b.placed };
}

impl Bytes {
    /// A copy of these bytes. Up to thirty of them take no memory.
    pub(crate) fn copied(alloc: Global, bytes: &[u8]) -> Result<Bytes, AllocError>
        ensures copy { IfOk result (λ made. made ≡ bytes.now) }
        ensures long { OnErr result (IsLong bytes.now) }
    {
        if bytes.len() <= SHORT {
            let mut room = [0; 30];
            room[..bytes.len()].copy_from_slice(bytes);
            let placed = Placed::Short(room, bytes.len() as u8);
            return Ok(Bytes { placed });
        }
        let held = Vec::from_slice(alloc, bytes)?;
        let placed = Placed::Long(held);
        Ok(Bytes { placed })
    }
}

impl AsBytes for Bytes {
    ghost is_key = { λ k. AreBytes k };

    ghost bytes = { λ k. k };

    ghost bytes_fit = { λ k h. h };

    fn as_bytes(&self) -> &[u8] {
        match &self.placed {
            Placed::Short(room, len) => &room[..*len as usize],
            Placed::Long(held) => held.as_slice(),
        }
    }
}

impl Clone for Bytes {
    ghost is_clone = { λ b c. c ≡ b };

    fn clone(&self) -> Result<Bytes, AllocError> {
        let placed = match &self.placed {
            Placed::Short(room, len) => Placed::Short(*room, *len),
            Placed::Long(held) => Placed::Long(Vec::from_slice(
                *held.allocator(),
                held.as_slice(),
            )?),
        };
        Ok(Bytes { placed })
    }
}

impl CloneBytes for Bytes {
    ghost same_bytes = { λ k l h. h };
}

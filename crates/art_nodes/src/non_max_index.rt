//! An index below 255.
ghost use Rattle.std.specs.Prelude.{◌≡◌, ◌<◌, ◌↔◌, IsSome, IfSome, MatchResult, ◌≤◌};

use std::marker::Model;
use thiserror::Error;

/// A number above 254 is no index.
#[derive(Clone, Copy, Debug, Error)]
#[error("the number is above 254")]
pub struct TryFromByteError;

/// A place of at most 254, so that 255 is free to say that there is none.
///
/// A contract sees the number; `get` and the conversions tell that it is below 255.
#[derive(Clone, Copy, PartialEq, Eq, PartialOrd, Ord)]
pub struct NonMaxIndex {
    index: u8,
}

impl Model for NonMaxIndex {
    ghost use Rattle.std.specs.Prelude.{ℕ, ◌<◌};

    ghost Value = { ℕ };

    ghost view = { λ it. it.index };

    ghost invariant = { λ it. it.index < 255 };

    ghost inverse = { λ n. record { index = n } };
}

impl NonMaxIndex {
    /// Returns this index, or `None` for 255.
    pub fn new(index: u8) -> Option<Self>
        ensures variant { IsSome result ↔ (index < 255) }
        ensures value { IfSome result (λ it. it ≡ index) }
    {
        if index < 255 {
            Some(NonMaxIndex { index })
        } else {
            None
        }
    }

    /// Returns the number, which is less than 255.
    pub fn get(self) -> u8
        ensures value { result ≡ self }
        ensures below { result < 255 }
    {
        self.index
    }
}

impl Default for NonMaxIndex {
    ghost is_default = { λ it. it ≡ 0 };

    fn default() -> Self {
        NonMaxIndex { index: 0 }
    }
}

impl TryFrom<u8> for NonMaxIndex {
    type Error = TryFromByteError;

    fn try_from(index: u8) -> Result<Self, TryFromByteError>
        ensures { MatchResult result (λ it. (it ≡ index) × (index < 255)) (λ _. 255 ≤ index) }
    {
        match NonMaxIndex::new(index) {
            Some(it) => Ok(it),
            None => Err(TryFromByteError),
        }
    }
}

impl TryFrom<usize> for NonMaxIndex {
    type Error = TryFromByteError;

    fn try_from(index: usize) -> Result<Self, TryFromByteError>
        ensures { MatchResult result (λ it. (it ≡ index) × (index < 255)) (λ _. 255 ≤ index) }
    {
        if index < 255 {
            Ok(NonMaxIndex { index: index as u8 })
        } else {
            Err(TryFromByteError)
        }
    }
}

impl From<NonMaxIndex> for u8 {
    ghost from_gives = { λ it n. (n ≡ it) × (n < 255) };

    fn from(it: NonMaxIndex) -> u8 {
        it.index
    }
}

impl From<NonMaxIndex> for usize {
    ghost from_gives = { λ it n. (n ≡ it) × (n < 255) };

    fn from(it: NonMaxIndex) -> usize {
        usize::from(it.index)
    }
}

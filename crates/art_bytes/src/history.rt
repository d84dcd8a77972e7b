//! Bytes or counts that only proofs read. They take no room, and keeping them does nothing at run time.
ghost use Rattle.std.specs.Prelude.{◌≡◌, ℕ, List, [], ◌∷◌, ◌++◌};
ghost use Rattle.std.specs.Borrow.{ftrue};

use std::marker::Model;

/// A list that a contract speaks of, as that of the bytes which have passed a reader.
#[derive(Drop)]
pub struct History {
    ghost items: { List ℕ },
}

impl Model for History {
    ghost also_owns = { λ _. ftrue };
}

/// Bytes that come after those of a history.
#[derive(Clone, Copy)]
pub struct Piece<'a> {
    /// The bytes.
    pub bytes: &'a [u8],
}

/// A number that comes after those of a history.
#[derive(Clone, Copy)]
pub struct Count {
    /// The number.
    pub number: u64,
}

impl History {
    /// Makes a history of nothing.
    ///
    /// ```
    /// let given = History::new();
    /// let _more = given.then(&Piece { bytes: b"ab" });
    /// ```
    pub fn new() -> History
        ensures { result.items ≡ [] }
    {
        History {}
    }

    /// Makes the history that has a piece after the items of this one.
    ///
    /// ```
    /// let given = History::new().then(&Piece { bytes: b"ab" });
    /// let _more = given.then(&Piece { bytes: b"c" });
    /// ```
    pub fn then(&self, _piece: &Piece<'_>) -> History
        ensures { result.items ≡ self.now.items ++ _piece.now.bytes.now }
    {
        History {}
    }

    /// Makes the history that has a number after the items of this one.
    ///
    /// ```
    /// let counts = History::new().then_count(&Count { number: 3 });
    /// let _more = counts.then_count(&Count { number: 4 });
    /// ```
    pub fn then_count(&self, _count: &Count) -> History
        ensures { result.items ≡ self.now.items ++ _count.now.number ∷ [] }
    {
        History {}
    }
}

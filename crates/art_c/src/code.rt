//! What a call answers.
ghost use Rattle.std.specs.Prelude.{◌≡◌};
ghost use Rattle.art_c.specs.Codes.{code_number};

/// What a call answers. `bindings/c/artmap.h` has their numbers.
#[derive(Clone, Copy, PartialEq, Eq, Debug)]
pub enum Code {
    /// What was asked for was found, or done.
    Done,
    /// A pair was put in the place of the one with its key.
    Replaced,
    /// There is no such pair.
    NotFound,
    /// The key begins a stored key, or a stored key begins it.
    Conflict,
    /// The room for what is copied out is too small. Its length is told.
    NoRoom,
    /// No memory was found.
    NoMemory,
    /// No map is made in the handle.
    NoMap,
    /// The key is not above the one before it.
    NotAbove,
    /// The bytes end before the pair does.
    CutOff,
    /// It is done as far as the room goes, and other pairs are left.
    More,
    /// The map is frozen, so it is not changed.
    Frozen,
    /// Another handle has the frozen map, too.
    Shared,
}

impl Code {
    pub(crate) fn number(self) -> u32
        ensures { result ≡ code_number self }
    {
        match self {
            Code::Done => 0,
            Code::Replaced => 1,
            Code::NotFound => 2,
            Code::Conflict => 3,
            Code::NoRoom => 4,
            Code::NoMemory => 5,
            Code::NoMap => 6,
            Code::NotAbove => 7,
            Code::CutOff => 8,
            Code::More => 9,
            Code::Frozen => 10,
            Code::Shared => 11,
        }
    }
}

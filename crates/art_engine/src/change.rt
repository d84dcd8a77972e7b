//! How a change went, and how that is answered.
ghost use Rattle.std.specs.Prelude.{◌≡◌, false};
ghost use Rattle.art_lines.specs.Words.{line_of};
ghost use Rattle.art_lines.specs.Writes.{Writes};
ghost use Rattle.art_engine.specs.Changed.{changed_words};

use art_lines::reply::{write_found, write_over, write_piece};
use art_lines::{Sink, WriteFailed};

/// How a change went.
#[derive(Drop)]
pub(crate) enum Changed {
    /// The key was there; this was its value.
    Old(Vec<u8>),
    /// The key was not there.
    New,
    /// The key conflicts with another of the tenant's.
    Conflict,
    /// No memory was found.
    Memory,
    /// It stands in the place of so many.
    Over(usize),
    /// It is removed; this was its value.
    Gone(Vec<u8>),
    /// There was nothing to remove.
    Absent,
}

impl Changed {
    ghost use Rattle.std.specs.Prelude.{◌≡◌};
    ghost use Rattle.art_engine.specs.Changed.{change_is_memory};

    pub(crate) fn is_memory(&self) -> bool
        ensures { result ≡ change_is_memory self.now }
    {
        matches!(self, Changed::Memory)
    }
}

/// Writes how a change went.
pub(crate) fn write_changed<W: Sink>(sink: &mut W, changed: &Changed) -> Result<(), WriteFailed>
    requires { W.has_failed sink.old ≡ false }
    ensures { Writes result (W.taken sink.old) (W.taken sink.new)
        (line_of (changed_words changed.now))
        (W.has_failed sink.new) }
{
    match changed {
        Changed::Old(old) => write_found(sink, b"old", old.as_slice()),
        Changed::New => write_piece(sink, b"new\n"),
        Changed::Conflict => write_piece(sink, b"conflict\n"),
        Changed::Memory => write_piece(sink, b"memory\n"),
        Changed::Over(count) => write_over(sink, *count),
        Changed::Gone(value) => write_found(sink, b"gone", value.as_slice()),
        Changed::Absent => write_piece(sink, b"none\n"),
    }
}

//! How the drop of a tenant went, and how that is answered.
ghost use Rattle.std.specs.Prelude.{◌≡◌, false};
ghost use Rattle.art_lines.specs.Words.{line_of};
ghost use Rattle.art_engine.specs.Dropped.{dropped_words};
ghost use Rattle.art_lines.specs.Writes.{Writes};

use art_lines::reply::{write_piece, write_sum};
use art_lines::{Sink, WriteFailed};

/// How the drop of a tenant went.
#[derive(Clone, Copy)]
pub(crate) enum Dropped {
    /// So many records of the tenant are gone, those under keys and those under numbers. So many nodes were read to
    /// find them, and freed.
    Gone {
        keys: usize,
        numbers: usize,
        visits: u64,
    },
    /// No memory was found.
    Memory,
}

impl Dropped {
    ghost use Rattle.std.specs.Prelude.{◌≡◌};
    ghost use Rattle.art_engine.specs.Dropped.{drop_is_memory, drop_visits};

    pub(crate) fn is_memory(self) -> bool
        ensures { result ≡ drop_is_memory self }
    {
        matches!(self, Dropped::Memory)
    }

    /// How many nodes were read and freed.
    pub(crate) fn visits(self) -> u64
        ensures { result ≡ drop_visits self }
    {
        match self {
            Dropped::Gone { visits, .. } => visits,
            Dropped::Memory => 0,
        }
    }
}

/// Writes how the drop of a tenant went.
pub(crate) fn write_dropped<W: Sink>(sink: &mut W, dropped: Dropped) -> Result<(), WriteFailed>
    requires { W.has_failed sink.old ≡ false }
    ensures { Writes result (W.taken sink.old) (W.taken sink.new)
        (line_of (dropped_words dropped))
        (W.has_failed sink.new) }
{
    match dropped {
        Dropped::Gone { keys, numbers, .. } => write_sum(sink, b"dropped ", keys, numbers),
        Dropped::Memory => write_piece(sink, b"memory\n"),
    }
}

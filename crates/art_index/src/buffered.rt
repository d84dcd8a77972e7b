//! The ends of the program, over any source and sink. Replies are gathered, so that they leave in large writes. They
//! are out before more input is waited for.
ghost use Rattle.std.specs.Prelude.{◌≡◌, ◌≢◌, ℕ, ◌<◌, ◌≤◌, ◌++◌, ◌↔◌, ◌⊎◌, List, Bool, [], false, true, length, take};
ghost use Rattle.std.specs.Prelude.{is_err, Err, IfOk, IsErr, IsTrue, OnErr, OnOk};
ghost use Rattle.art_lines.specs.Ends.{HoldsWhatFailed, inner_sink};
ghost use Rattle.art_lines.specs.Lines.{lines_of, lines_so_far, whole_lines_of};
ghost use Rattle.art_engine.specs.Ahead.{IsAllTold};
ghost use Rattle.art_engine.specs.Faults.{AfterWriteFault};
ghost use Rattle.art_engine.specs.Outcome.{IsOutcome};

use art_engine::{Index, RunFault, run};
use art_lines::{Buffered, Sink, Source, WriteFailed};

/// A buffered sink whose inner one had not failed when it was put behind it. So where that one has failed, what it
/// failed to take is held back.
#[derive(Drop)]
pub struct Gathering<S: Sink> {
    buffered: Buffered<S>,
    ghost holds: { HoldsWhatFailed buffered },
}

impl<S: Sink> Gathering<S> {
    /// Gathers before the inner sink of this one, which must not have failed.
    pub fn new(buffered: Buffered<S>) -> Self
        requires { S.has_failed (inner_sink buffered) ≡ false }
        ensures { result.buffered ≡ buffered }
    {
        Gathering { buffered }
    }

    /// Returns the inner sink. What is held back is let go.
    pub fn into_sink(self) -> S
        ensures { result ≡ inner_sink self.buffered }
    {
        self.buffered.into_sink()
    }
}

impl<S: Sink> Sink for Gathering<S> {
    ghost taken = { λ s. ⟦<Buffered<S> as Sink>⟧.taken s.buffered };

    ghost has_failed = { λ s. ⟦<Buffered<S> as Sink>⟧.has_failed s.buffered };

    ghost is_out = { λ s. ⟦<Buffered<S> as Sink>⟧.is_out s.buffered };

    fn write(&mut self, piece: &[u8]) -> Result<usize, WriteFailed> {
        self.buffered.write(piece)
    }

    fn send(&mut self) {
        self.buffered.send();
    }

    fn failed(&self) -> bool {
        self.buffered.failed()
    }
}

/// Answers what a source gives out of an index, and has the inner sink of the gathering one take all replies.
pub fn run_buffered<S: Source, W: Sink, const PREFIX_LEN: usize>(
    index: &mut Index<PREFIX_LEN>,
    source: &mut S,
    sink: &mut Gathering<W>,
) -> Result<(), RunFault>
    requires source_open { S.has_failed source.old ≡ false }
    requires source_goes_on { S.has_ended source.old ≡ false }
    requires sink_open { ⟦<Gathering<W> as Sink>⟧.has_failed sink.old ≡ false }

    // Where it answers Ok, the source has ended, and nothing is held back any more.
    ensures ended { OnOk result (S.has_ended source.new ≡ true) }
    ensures outcome { OnOk result ((text written : List ℕ)
        × (S.given source.new ≡ S.given source.old ++ text)
        × (W.taken sink.new.buffered.sink ≡ ⟦<Gathering<W> as Sink>⟧.taken sink.old ++ written)
        × IsOutcome index.old (lines_of text) written index.new) }

    // However it ends, all that was read ahead of lines is told.
    ensures ahead { IsAllTold index.old index.new }

    // A failure of either end stays one. That of the source is told first.
    ensures read { (result ≡ Err RunFault.Read) ↔ (S.has_failed source.new ≡ true) }
    ensures write { (result ≡ Err RunFault.Write)
        ↔ ((W.has_failed sink.new.buffered.sink ≡ true) × (S.has_failed source.new ≡ false)) }
    ensures any { W.has_failed sink.new.buffered.sink ≡ true → IsErr result }

    // After a failed read, the whole lines of the text given are answered, and nothing else. The inner sink of the
    // gathering one has taken all answers. Only if it failed, too, some bytes at their end are missing.
    ensures after_read_fault { result ≡ Err RunFault.Read → (text written rest : List ℕ)
        × (S.given source.new ≡ S.given source.old ++ text)
        × (W.taken sink.new.buffered.sink ++ rest ≡ ⟦<Gathering<W> as Sink>⟧.taken sink.old ++ written)
        × ((W.has_failed sink.new.buffered.sink ≡ false) ↔ (rest ≡ []))
        × IsOutcome index.old (whole_lines_of text) written index.new }

    // After a failed write, one line more is carried out than is answered whole; or all lines are, and the last answers
    // did not leave. Of all answers the inner sink has taken a beginning, and some bytes at their end are missing.
    ensures after_write_fault { result ≡ Err RunFault.Write → (text written rest : List ℕ)
        × (S.given source.new ≡ S.given source.old ++ text)
        × (W.taken sink.new.buffered.sink ++ rest ≡ ⟦<Gathering<W> as Sink>⟧.taken sink.old ++ written)
        × (rest ≢ [])
        × (AfterWriteFault index.old (lines_so_far (S.has_ended source.new) text) written index.new
        ⊎ IsOutcome index.old (lines_of text) written index.new) }
{
    let done = run(index, source, sink);
    if sink.buffered.finish() || done.is_err() {
        return done;
    }
    Err(RunFault::Write)
}

//! A reader or a writer of which each call is counted, for proofs alone. No other way to it is in the hands of what
//! holds it: so a call that is made again can't be hidden.
ghost use Rattle.std.specs.Prelude.{◌≡◌, [], ◌∷◌, ◌++◌, MatchResult};
ghost use Rattle.std.specs.Io.{ReadsAtMost, WritesAtMost};
ghost use Rattle.std.specs.Io.KnownBytes.{Keeps, ReadConsumes, WriteAppends};

use art_bytes::{Count, History};
use std::io;
use std::io::{Read, Write};

/// One that was called so often: a reader to read, a writer to write and to flush, and to write since it was flushed.
/// Of the reads those that failed are counted, too.
#[derive(Drop)]
pub(crate) struct Counted<T> {
    inner: T,
    calls: History,
    failures: History,
    flushes: History,
    unflushed: History,
}

impl<T> Counted<T> {
    /// One that was not called yet.
    pub(crate) fn new(inner: T) -> Self
        ensures inner { result.inner ≡ inner }
        ensures none { (result.calls.items ≡ []) × (result.flushes.items ≡ []) × (result.unflushed.items ≡ []) }
        ensures no_failure { result.failures.items ≡ [] }
    {
        Counted {
            inner,
            calls: History::new(),
            failures: History::new(),
            flushes: History::new(),
            unflushed: History::new(),
        }
    }
}

impl<R: Read> Counted<R> {
    /// Reads once.
    pub(crate) fn read(&mut self, buf: &mut [u8]) -> io::Result<usize>
        ensures bound { ReadsAtMost result buf.new }
        ensures bytes { ReadConsumes (R.remaining self.old.inner) (R.remaining self.new.inner) result buf.new }
        ensures counts { self.new.calls.items ≡ self.old.calls.items ++ 1 ∷ [] }
        ensures failures { MatchResult result (λ _. self.new.failures.items ≡ self.old.failures.items)
            (λ _. self.new.failures.items ≡ self.old.failures.items ++ 1 ∷ []) }
    {
        self.calls = self.calls.then_count(&Count { number: 1 });
        match self.inner.read(buf) {
            Ok(n) => Ok(n),
            Err(error) => {
                self.failures = self.failures.then_count(&Count { number: 1 });
                Err(error)
            }
        }
    }
}

impl<W: Write> Counted<W> {
    /// Writes once.
    pub(crate) fn write(&mut self, piece: &[u8]) -> io::Result<usize>
        ensures bound { WritesAtMost result piece.now }
        ensures bytes { WriteAppends (W.contents self.old.inner) (W.contents self.new.inner) result piece.now }
        ensures counts { self.new.calls.items ≡ self.old.calls.items ++ 1 ∷ [] }
        ensures flushes { self.new.flushes.items ≡ self.old.flushes.items }
        ensures unflushed { self.new.unflushed.items ≡ self.old.unflushed.items ++ 1 ∷ [] }
    {
        self.calls = self.calls.then_count(&Count { number: 1 });
        self.unflushed = self.unflushed.then_count(&Count { number: 1 });
        self.inner.write(piece)
    }

    /// Flushes once.
    pub(crate) fn flush(&mut self) -> io::Result<()>
        ensures bytes { Keeps (W.contents self.old.inner) (W.contents self.new.inner) }
        ensures counts { self.new.flushes.items ≡ self.old.flushes.items ++ 1 ∷ [] }
        ensures calls { self.new.calls.items ≡ self.old.calls.items }
        ensures unflushed { self.new.unflushed.items ≡ [] }
    {
        self.flushes = self.flushes.then_count(&Count { number: 1 });
        self.unflushed = History::new();
        self.inner.flush()
    }
}

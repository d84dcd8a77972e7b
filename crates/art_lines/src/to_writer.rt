//! A writer as a sink.
ghost use Rattle.std.specs.Prelude.{◌≡◌, ◌+◌, ◌<◌, ◌≤◌, ◌++◌, [], length, take, is_err, IsTrue, IsErr, IfOk, OnErr};
ghost use Rattle.std.specs.Prelude.{suc, true, false, OnOk};
ghost use Rattle.std.specs.Io.KnownBytes.{Keeps, WriteAppends};
ghost use Rattle.art_lines.specs.Ends.{calls_to_flush, calls_to_write, writes_unflushed, writer_of, bytes_taken};
ghost use Rattle.art_lines.specs.Ends.{has_write_failed};

use crate::counted::Counted;
use crate::stream::{Sink, WriteFailed};
use art_bytes::{History, Piece};
use std::io::Write;

/// A writer as a sink. Any error is the failure, and so is a write that takes nothing of a piece. Neither is tried
/// again.
#[derive(Drop)]
pub struct ToWriter<W> {
    writer: Counted<W>,
    failed: bool,
    taken: History,
}

impl<W: Write> ToWriter<W> {
    /// Makes a sink over this writer. Nothing has been written yet. It allocates nothing.
    ///
    /// ```
    /// use art_lines::Sink;
    /// let mut replies = Vec::new(rt.alloc());
    /// assert_eq!(rt; ToWriter::new(&mut replies).write(b"new\n").ok(), Some(4));
    /// assert_eq!(rt; replies.as_slice(), b"new\n".as_slice());
    /// ```
    pub fn new(writer: W) -> Self
        ensures taken { ⟦<ToWriter<W> as Sink>⟧.taken result ≡ [] }
        ensures failed { ⟦<ToWriter<W> as Sink>⟧.has_failed result ≡ false }
        ensures over { writer_of result ≡ writer }
        ensures calls { (calls_to_write result ≡ 0) × (calls_to_flush result ≡ 0) × (writes_unflushed result ≡ 0) }
    {
        ToWriter {
            writer: Counted::new(writer),
            failed: false,
            taken: History::new(),
        }
    }

    /// Flushes the writer. Fails if that does, or if a write has failed before: then it isn't called.
    ///
    /// ```
    /// let mut replies = Vec::new(rt.alloc());
    /// assert!(rt; ToWriter::new(&mut replies).flush().is_ok());
    /// ```
    pub fn flush(&mut self) -> Result<(), WriteFailed>
        ensures failed { is_err result ≡ has_write_failed self.new }
        ensures stays_failed { IsTrue (has_write_failed self.old) → IsErr result }
        ensures taken { bytes_taken self.new ≡ bytes_taken self.old }
        ensures kept { Keeps (W.contents (writer_of self.old)) (W.contents (writer_of self.new)) }
        ensures once { has_write_failed self.old ≡ false → calls_to_flush self.new ≡ suc (calls_to_flush self.old) }
        ensures not_again { has_write_failed self.old ≡ true → calls_to_flush self.new ≡ calls_to_flush self.old }
        ensures calls { calls_to_write self.new ≡ calls_to_write self.old }
        ensures flushed { OnOk result (calls_to_flush self.new ≡ suc (calls_to_flush self.old)) }
        ensures unflushed { OnOk result (writes_unflushed self.new ≡ 0) }
    {
        if self.failed {
            return Err(WriteFailed);
        }
        match self.writer.flush() {
            Ok(()) => Ok(()),
            Err(_) => {
                self.failed = true;
                Err(WriteFailed)
            }
        }
    }
}

impl<W: Write> Sink for ToWriter<W> {
    ghost taken = { λ s. bytes_taken s };

    ghost has_failed = { λ s. has_write_failed s };

    ghost calls = { λ s. calls_to_write s };

    fn write(&mut self, piece: &[u8]) -> Result<usize, WriteFailed>
        ensures bound { IfOk result (λ n. n ≤ length piece.now) }
        ensures some { IfOk result (λ n. 0 < length piece.now → 0 < n) }
        ensures takes { IfOk result (λ n. bytes_taken self.new ≡ bytes_taken self.old ++ take n piece.now) }
        ensures takes_none { OnErr result (bytes_taken self.new ≡ bytes_taken self.old) }
        ensures failed { is_err result ≡ has_write_failed self.new }
        ensures stays_failed { IsTrue (has_write_failed self.old) → IsErr result }

        // The writer gets what is taken, and nothing else.
        ensures passed { WriteAppends
            (W.contents (writer_of self.old)) (W.contents (writer_of self.new)) result piece.now }

        // It calls the writer once; where a write has failed, not again.
        ensures once { calls_to_write self.new ≤ calls_to_write self.old + 1 }
        ensures not_again { IsTrue (has_write_failed self.old) → calls_to_write self.new ≡ calls_to_write self.old }
        ensures unflushed { calls_to_write self.old < calls_to_write self.new → 0 < writes_unflushed self.new }
        ensures asked { OnErr result (has_write_failed self.old ≡ false
            → calls_to_write self.new ≡ suc (calls_to_write self.old)) }
    {
        if self.failed {
            return Err(WriteFailed);
        }
        match self.writer.write(piece) {
            Ok(n) if n > 0 || piece.is_empty() => {
                self.taken = self.taken.then(&Piece { bytes: &piece[..n] });
                Ok(n)
            }
            _ => {
                self.failed = true;
                Err(WriteFailed)
            }
        }
    }

    fn send(&mut self) {}

    fn failed(&self) -> bool {
        self.failed
    }
}

//! A reader as a source.
ghost use Rattle.std.specs.Prelude.{◌≡◌, ℕ, suc, ◌^◌, ◌-◌, ◌+◌, ◌<◌, ◌≤◌, ◌++◌, ◌⊎◌, [], length, take, is_err};
ghost use Rattle.std.specs.Prelude.{IfOk, IsTrue, IsErr, OnErr, Ok, false};
ghost use Rattle.std.specs.Io.KnownBytes.{Consumes, Keeps, IsAtEnd};
ghost use Rattle.art_lines.specs.Ends.{reader_of, bytes_given, has_run_out, has_read_failed, reads_to_come};
ghost use Rattle.art_lines.specs.Ends.{calls_to_read, failed_reads};

use crate::counted::Counted;
use crate::stream::{ReadFailed, Source};
use art_bytes::{History, Piece};
use std::io::Read;

/// A reader as a source. Any error is the failure, and a read of no byte is the end. Neither is tried again, so no
/// error is taken for an end. After 2^64 - 1 reads it fails.
#[derive(Drop)]
pub struct FromReader<R> {
    reader: Counted<R>,
    failed: bool,
    ended: bool,
    reads_left: u64,
    given: History,
}

impl<R: Read> FromReader<R> {
    /// Makes a source over this reader. Nothing has been read yet. It allocates nothing.
    ///
    /// ```
    /// use art_lines::Source;
    /// let source = FromReader::new(b"dump\n".as_slice());
    /// assert!(rt; !source.ended() && !source.failed());
    /// ```
    pub fn new(reader: R) -> Self
        ensures given { ⟦<FromReader<R> as Source>⟧.given result ≡ [] }
        ensures failed { ⟦<FromReader<R> as Source>⟧.has_failed result ≡ false }
        ensures ended { ⟦<FromReader<R> as Source>⟧.has_ended result ≡ false }
        ensures reads { ⟦<FromReader<R> as Source>⟧.reads_left result ≡ 2 ^ 64 - 1 }
        ensures over { reader_of result ≡ reader }
        ensures calls { (calls_to_read result ≡ 0) × (failed_reads result ≡ 0) }
    {
        FromReader {
            reader: Counted::new(reader),
            failed: false,
            ended: false,
            reads_left: u64::MAX,
            given: History::new(),
        }
    }
}

impl<R: Read> Source for FromReader<R> {
    ghost given = { λ s. bytes_given s };

    ghost has_ended = { λ s. has_run_out s };

    ghost has_failed = { λ s. has_read_failed s };

    ghost reads_left = { λ s. reads_to_come s };

    ghost calls = { λ s. calls_to_read s };

    fn read(&mut self, buf: &mut [u8]) -> Result<usize, ReadFailed>
        requires { 0 < length buf.old }
        ensures bound { IfOk result (λ n. n ≤ length buf.new) }
        ensures gives { IfOk result (λ n. bytes_given self.new ≡ bytes_given self.old ++ take n buf.new) }
        ensures gives_none { OnErr result (bytes_given self.new ≡ bytes_given self.old) }

        ensures failed { is_err result ≡ has_read_failed self.new }
        ensures stays_failed { IsTrue (has_read_failed self.old) → IsErr result }

        ensures ends { result ≡ Ok 0 → IsTrue (has_run_out self.new) }
        ensures goes_on { IfOk result (λ n. 0 < n → has_run_out self.new ≡ has_run_out self.old) }
        ensures gives_no_more { IfOk result (λ n. IsTrue (has_run_out self.old) → n ≡ 0) }
        ensures ended_before { OnErr result (has_run_out self.new ≡ has_run_out self.old) }

        // Each read of the reader counts, and one that fails is the last.
        ensures fewer { IfOk result (λ n. 0 < n → reads_to_come self.new < reads_to_come self.old) }
        ensures counts { IfOk result (λ n. has_run_out self.old ≡ false
            → suc (reads_to_come self.new) ≡ reads_to_come self.old) }

        // What it gives is what the reader has next, and nothing of it passes by.
        ensures passed { IfOk result (λ n. Consumes
            (R.remaining (reader_of self.old)) (R.remaining (reader_of self.new)) (take n buf.new)) }
        ensures at_end { IfOk result (λ n. n ≡ 0 → has_run_out self.old ≡ false
            → IsAtEnd (R.remaining (reader_of self.new))) }
        ensures passes_none { OnErr result
            (Keeps (R.remaining (reader_of self.old)) (R.remaining (reader_of self.new))) }

        // It calls the reader once; where that has failed or come to its end, not again.
        ensures once { calls_to_read self.new ≤ calls_to_read self.old + 1 }
        ensures not_again { IsTrue (has_read_failed self.old) ⊎ IsTrue (has_run_out self.old)
            → calls_to_read self.new ≡ calls_to_read self.old }

        // Where it fails first, though more reads may follow, the reader was called.
        ensures asked { OnErr result (has_read_failed self.old ≡ false → 0 < reads_to_come self.old
            → calls_to_read self.new ≡ suc (calls_to_read self.old)) }

        // So has the reader then, and never where it gives bytes or none: a read of no byte is no failure.
        ensures fails { OnErr result (has_read_failed self.old ≡ false → 0 < reads_to_come self.old
            → failed_reads self.new ≡ suc (failed_reads self.old)) }
        ensures fails_not { IfOk result (λ _. failed_reads self.new ≡ failed_reads self.old) }
    {
        if self.failed || self.reads_left == 0 {
            self.failed = true;
            return Err(ReadFailed);
        }
        if self.ended {
            return Ok(0);
        }
        match self.reader.read(buf) {
            Ok(n) => {
                self.reads_left -= 1;
                self.given = self.given.then(&Piece { bytes: &buf[..n] });
                if n == 0 {
                    self.ended = true;
                }
                Ok(n)
            }
            Err(_) => {
                self.failed = true;
                Err(ReadFailed)
            }
        }
    }

    fn failed(&self) -> bool {
        self.failed
    }

    fn ended(&self) -> bool {
        self.ended
    }
}

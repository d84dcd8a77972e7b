//! Where bytes come from and where they go.
ghost use Rattle.std.specs.Prelude.{◌≡◌, ℕ, ◌<◌, ◌≤◌, ◌+◌, ◌++◌, ◌⊎◌, List, Bool, length, take, is_err, IsTrue, IsErr};
ghost use Rattle.std.specs.Prelude.{IfOk, OnErr, Ok};

use thiserror::Error;

/// A source failed to give bytes.
///
/// ```
/// let told = format!(in rt.alloc(); "{}", art_lines::ReadFailed)?;
/// assert_eq!(rt; told.as_str(), "the source failed to give bytes");
/// ```
#[derive(Clone, Copy, Debug, PartialEq, Eq, Error)]
#[error("the source failed to give bytes")]
pub struct ReadFailed;

/// A sink failed to take bytes.
///
/// ```
/// let told = format!(in rt.alloc(); "{}", art_lines::WriteFailed)?;
/// assert_eq!(rt; told.as_str(), "the sink failed to take bytes");
/// ```
#[derive(Clone, Copy, Debug, PartialEq, Eq, Error)]
#[error("the sink failed to take bytes")]
pub struct WriteFailed;

/// What gives bytes until it ends or fails.
pub trait Source {
    /// All bytes given so far.
    ghost given: { Self → List ℕ };

    /// Whether it has come to its end.
    ghost has_ended: { Self → Bool };

    /// Whether a read has failed.
    ghost has_failed: { Self → Bool };

    /// A number that each read lowers until the source ends or fails.
    ghost reads_left: { Self → ℕ };

    /// How often the reader below it was asked for bytes.
    ghost calls: { Self → ℕ } = { λ _. 0 };

    /// Reads the next bytes, to the first places of `buf`, and returns how many they are. No byte is the end, and a
    /// source that has ended gives nothing more.
    fn read(&mut self, buf: &mut [u8]) -> Result<usize, ReadFailed>
        requires { 0 < length buf.old }
        ensures bound { IfOk result (λ n. n ≤ length buf.new) }
        ensures gives { IfOk result (λ n. given self.new ≡ given self.old ++ take n buf.new) }
        ensures gives_none { OnErr result (given self.new ≡ given self.old) }

        ensures failed { is_err result ≡ has_failed self.new }
        ensures stays_failed { IsTrue (has_failed self.old) → IsErr result }

        ensures ends { result ≡ Ok 0 → IsTrue (has_ended self.new) }
        ensures goes_on { IfOk result (λ n. 0 < n → has_ended self.new ≡ has_ended self.old) }
        ensures gives_no_more { IfOk result (λ n. IsTrue (has_ended self.old) → n ≡ 0) }
        ensures ended_before { OnErr result (has_ended self.new ≡ has_ended self.old) }
        ensures fewer { IfOk result (λ n. 0 < n → reads_left self.new < reads_left self.old) }

        // The reader below it is asked once at most; where a read has failed or the end has come, not again.
        ensures once { calls self.new ≤ calls self.old + 1 }
        ensures not_again { IsTrue (has_failed self.old) ⊎ IsTrue (has_ended self.old)
            → calls self.new ≡ calls self.old };

    /// Returns whether a read has failed.
    fn failed(&self) -> bool
        ensures { result ≡ has_failed self.now };

    /// Returns whether it has come to its end.
    fn ended(&self) -> bool
        ensures { result ≡ has_ended self.now };
}

/// What takes bytes until it fails.
pub trait Sink {
    /// All bytes taken so far.
    ghost taken: { Self → List ℕ };

    /// Whether a write has failed.
    ghost has_failed: { Self → Bool };

    /// How often the writer below it was asked to take bytes, if each write asks it.
    ghost calls: { Self → ℕ } = { λ _. 0 };

    /// Whether nothing is held back: all that it took is handed on, as far as what stands behind it takes bytes.
    ghost is_out: { Self → Type 0 } = { λ _. Unit {0} };

    /// Takes some bytes from the front of `piece`, at least one if there are any, and returns how many they are.
    fn write(&mut self, piece: &[u8]) -> Result<usize, WriteFailed>
        ensures bound { IfOk result (λ n. n ≤ length piece.now) }
        ensures some { IfOk result (λ n. 0 < length piece.now → 0 < n) }
        ensures takes { IfOk result (λ n. taken self.new ≡ taken self.old ++ take n piece.now) }
        ensures takes_none { OnErr result (taken self.new ≡ taken self.old) }
        ensures failed { is_err result ≡ has_failed self.new }
        ensures stays_failed { IsTrue (has_failed self.old) → IsErr result }
        ensures once { calls self.new ≤ calls self.old + 1 }
        ensures not_again { IsTrue (has_failed self.old) → calls self.new ≡ calls self.old };

    /// Hands on what it has taken and still holds, if it holds bytes back. `run` calls it before each read. If that
    /// fails, the next write does.
    fn send(&mut self)
        ensures keeps { taken self.new ≡ taken self.old }
        ensures stays_open { has_failed self.new ≡ has_failed self.old }
        ensures out { is_out self.new };

    /// Returns whether a write has failed.
    fn failed(&self) -> bool
        ensures { result ≡ has_failed self.now };
}

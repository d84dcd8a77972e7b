//! A sink that gathers what it takes, so that it leaves in large writes.
ghost use Rattle.std.specs.Prelude.{◌≡◌, ◌<◌, ◌≤◌, ◌++◌, ◌⊎◌, [], length, take, false, true, is_err};
ghost use Rattle.std.specs.Prelude.{IfOk, IsErr, IsTrue, OnErr};
ghost use Rattle.std.specs.List.{between};

use crate::room::put_text;
use crate::stream::{Sink, WriteFailed};
use std::alloc::{AllocError, Global};

/// The bytes that leave at a time, at most.
const ROOM: usize = 65_536;

/// The bytes that leave at a time, at most, if there is no memory for `ROOM` of them.
const LEAST: usize = 512;

/// Makes room for bytes on their way out: for 65,536, or for 512 if there is no memory for them. It is filled with a
/// byte. Fails if out of memory.
///
/// ```
/// let room = art_lines::buffered::reserve_buffer(rt.alloc(), 0)?;
/// assert_eq!(rt; room.len(), 65_536);
/// ```
pub fn reserve_buffer(alloc: Global, filler: u8) -> Result<Vec<u8>, AllocError>
    ensures some { IfOk result (λ room. 0 < length room.items) }
    ensures size { IfOk result (λ room. (length room.items ≡ 65536) ⊎ (length room.items ≡ 512)) }
{
    match vec![in alloc; filler; ROOM] {
        Ok(room) => Ok(room),
        Err(_) => vec![in alloc; filler; LEAST],
    }
}

/// A sink in front of another one. What it took is what the other one has taken, followed by what it still holds in its
/// room. What the other one fails to take is held for good.
#[derive(Drop)]
pub struct Buffered<S: Sink> {
    sink: S,
    room: Vec<u8>,
    from: usize,
    to: usize,
    failed: bool,
    ghost begins: { from ≤ to },
    ghost fits: { to ≤ length room.items },
    ghost has_room: { 0 < length room.items },
    ghost stopped: { failed ≡ true → S.has_failed sink ≡ true },
}

impl<S: Sink> Buffered<S> {
    ghost use Rattle.art_lines.specs.Ends.{held_back, inner_sink, HoldsWhatFailed};

    /// Makes a sink in front of this one, which holds nothing. The room must not be empty.
    ///
    /// ```
    /// let mut replies = Vec::new(rt.alloc());
    /// let room = art_lines::buffered::reserve_buffer(rt.alloc(), 0)?;
    /// let mut sink = Buffered::new(ToWriter::new(&mut replies), room);
    /// art_lines::reply::write_number(&mut sink, 42)?;
    /// assert!(rt; sink.finish());
    /// assert_eq!(rt; replies.as_slice(), b"42".as_slice());
    /// ```
    pub fn new(sink: S, room: Vec<u8>) -> Self
        requires { 0 < length room.items }
        ensures taken { ⟦<Buffered<S> as Sink>⟧.taken result ≡ S.taken sink }
        ensures failed { ⟦<Buffered<S> as Sink>⟧.has_failed result ≡ false }
        ensures over { inner_sink result ≡ sink }
    {
        Buffered {
            sink,
            room,
            from: 0,
            to: 0,
            failed: false,
        }
    }

    /// Writes out what is held, until all is out or a write fails.
    fn write_out(&mut self)
        ensures same { S.taken self.new.sink ++ between self.new.from self.new.to self.new.room.items
            ≡ S.taken self.old.sink ++ between self.old.from self.old.to self.old.room.items }
        ensures out { S.has_failed self.new.sink ≡ false → self.new.to ≡ 0 }
        ensures kept { self.new.failed ≡ self.old.failed }
        ensures holds { HoldsWhatFailed self.old → HoldsWhatFailed self.new }
    {
        let part = &self.room.as_slice()[self.from..self.to];
        self.from += write_to(&mut self.sink, part);
        if self.from == self.to {
            self.from = 0;
            self.to = 0;
        }
    }

    /// Writes out what is left, and returns whether the inner sink has taken all.
    ///
    /// ```
    /// let mut replies = Vec::new(rt.alloc());
    /// let room = art_lines::buffered::reserve_buffer(rt.alloc(), 0)?;
    /// let mut sink = Buffered::new(ToWriter::new(&mut replies), room);
    /// assert!(rt; sink.finish());
    /// assert!(rt; replies.is_empty());
    /// ```
    pub fn finish(&mut self) -> bool
        ensures same { ⟦<Buffered<S> as Sink>⟧.taken self.new ≡ ⟦<Buffered<S> as Sink>⟧.taken self.old }
        ensures all { result ≡ true → S.taken (inner_sink self.new) ≡ ⟦<Buffered<S> as Sink>⟧.taken self.old }
        ensures failed { S.has_failed (inner_sink self.new) ≡ true → result ≡ false }
        ensures exact { S.has_failed (inner_sink self.new) ≡ false → result ≡ true }
        ensures stopped { ⟦<Buffered<S> as Sink>⟧.has_failed self.old ≡ true → result ≡ false }
        ensures sent { S.has_failed (inner_sink self.new) ≡ false → held_back self.new ≡ [] }
        ensures holds { HoldsWhatFailed self.old → HoldsWhatFailed self.new }
    {
        self.write_out();
        !self.sink.failed()
    }

    /// Returns the inner sink. What is held back is let go.
    ///
    /// ```
    /// let mut replies = Vec::new(rt.alloc());
    /// let room = art_lines::buffered::reserve_buffer(rt.alloc(), 0)?;
    /// let sink = Buffered::new(ToWriter::new(&mut replies), room);
    /// assert!(rt; sink.into_sink().flush().is_ok());
    /// ```
    pub fn into_sink(self) -> S
        ensures { result ≡ inner_sink self }
    {
        self.sink
    }
}

impl<S: Sink> Sink for Buffered<S> {
    ghost use Rattle.art_lines.specs.Ends.{inner_sink, held_back, has_stopped, HoldsWhatFailed};

    ghost taken = { λ s. S.taken (inner_sink s) ++ held_back s };

    ghost has_failed = { λ s. has_stopped s };

    ghost is_out = { λ s. (S.has_failed (inner_sink s) ≡ false → held_back s ≡ []) × S.is_out (inner_sink s) };

    fn write(&mut self, piece: &[u8]) -> Result<usize, WriteFailed>
        ensures bound { IfOk result (λ n. n ≤ length piece.now) }
        ensures some { IfOk result (λ n. 0 < length piece.now → 0 < n) }
        ensures takes { IfOk result (λ n. S.taken (inner_sink self.new) ++ held_back self.new
            ≡ (S.taken (inner_sink self.old) ++ held_back self.old) ++ take n piece.now) }
        ensures takes_none { OnErr result (S.taken (inner_sink self.new) ++ held_back self.new
            ≡ S.taken (inner_sink self.old) ++ held_back self.old) }
        ensures failed { is_err result ≡ has_stopped self.new }
        ensures stays_failed { IsTrue (has_stopped self.old) → IsErr result }
        ensures holds { HoldsWhatFailed self.old → HoldsWhatFailed self.new }
    {
        if self.to == self.room.len() {
            self.write_out();
        }
        if self.failed || self.sink.failed() {
            self.failed = true;
            return Err(WriteFailed);
        }
        let n = piece.len().min(self.room.len() - self.to);
        self.to = put_text(self.room.as_mut_slice(), self.to, &piece[..n]);
        Ok(n)
    }

    fn send(&mut self)
        ensures keeps { S.taken (inner_sink self.new) ++ held_back self.new
            ≡ S.taken (inner_sink self.old) ++ held_back self.old }
        ensures stays_open { has_stopped self.new ≡ has_stopped self.old }
        ensures sent { S.has_failed (inner_sink self.new) ≡ false → held_back self.new ≡ [] }
        ensures out { (S.has_failed (inner_sink self.new) ≡ false → held_back self.new ≡ [])
            × S.is_out (inner_sink self.new) }
        ensures holds { HoldsWhatFailed self.old → HoldsWhatFailed self.new }
    {
        self.write_out();
        self.sink.send();
    }

    fn failed(&self) -> bool {
        self.failed
    }
}

/// Writes bytes until all are written or a write fails, and returns how many were written.
fn write_to<S: Sink>(sink: &mut S, bytes: &[u8]) -> usize
    ensures bound { result ≤ length bytes.now }
    ensures output { S.taken sink.new ≡ S.taken sink.old ++ take result bytes.now }
    ensures all { S.has_failed sink.new ≡ false → result ≡ length bytes.now }
    ensures stays { S.has_failed sink.old ≡ true → S.has_failed sink.new ≡ true }
    ensures none { S.has_failed sink.old ≡ true → result ≡ 0 }
    ensures fewer { S.has_failed sink.old ≡ false → S.has_failed sink.new ≡ true → result < length bytes.now }
{
    let mut at = 0;
    while at < bytes.len() {
        let Ok(n) = sink.write(&bytes[at..]) else {
            return at;
        };
        at += n;
    }
    at
}

//! Readers and writers that record their calls.

ghost use Rattle.std.specs.Prelude.{◌≡◌, ◌+◌, ◌-◌, ◌^◌, min, false, true, OnOk, MatchResult};
ghost use Rattle.std.specs.Io.{ReadsAtMost};
ghost use Rattle.std.specs.Io.KnownBytes.{ReadConsumes, Appends};

use std::io;
use std::io::{Read, Write};

#[cfg(test)]
mod tests;

/// A reader or a writer, whether a call has failed, and how many bytes it has given.
pub struct Tracked<T> {
    inner: T,
    failed: bool,
    taken: u128,
}

impl<T> Tracked<T> {
    /// Begins without a failure, and with nothing given.
    pub fn new(inner: T) -> Tracked<T>
        ensures inner { result.inner ≡ inner }
        ensures failed { result.failed ≡ false }
        ensures taken { result.taken ≡ 0 }
    {
        Tracked {
            inner,
            failed: false,
            taken: 0,
        }
    }

    /// The reader or writer itself.
    pub fn into_inner(self) -> T
        ensures { result ≡ self.inner }
    {
        let Tracked {
            inner,
            failed: _,
            taken: _,
        } = self;
        inner
    }

    /// Whether a call has failed.
    pub fn failed(&self) -> bool
        ensures { result ≡ self.now.failed }
    {
        self.failed
    }

    /// How many bytes it has given, at most 2^128 - 1.
    pub fn taken(&self) -> u128
        ensures { result ≡ self.now.taken }
    {
        self.taken
    }
}

impl<R: Read> Tracked<R> {
    /// One call of the reader's `read`.
    pub fn read(&mut self, buffer: &mut [u8]) -> io::Result<usize>
        ensures bound { ReadsAtMost result buffer.new }
        ensures bytes { ReadConsumes (R.remaining self.old.inner)
            (R.remaining self.new.inner) result buffer.new }
        ensures failed { MatchResult result
            (λ _. self.new.failed ≡ self.old.failed)
            (λ _. self.new.failed ≡ true) }
        ensures taken { MatchResult result
            (λ n. self.new.taken ≡ min (self.old.taken + n) (2 ^ 128 - 1))
            (λ _. self.new.taken ≡ self.old.taken) }
    {
        let outcome = self.inner.read(buffer);
        match &outcome {
            Ok(n) => self.taken = self.taken.saturating_add(*n as u128),
            Err(_) => self.failed = true,
        }
        outcome
    }
}

impl<W: Write> Tracked<W> {
    /// One call of the writer's `write_all`.
    pub fn write_all(&mut self, bytes: &[u8]) -> io::Result<()>
        ensures bytes { OnOk result
            (Appends (W.contents self.old.inner) (W.contents self.new.inner) bytes.now) }
        ensures failed { MatchResult result
            (λ _. self.new.failed ≡ self.old.failed)
            (λ _. self.new.failed ≡ true) }
        ensures taken { self.new.taken ≡ self.old.taken }
    {
        let outcome = self.inner.write_all(bytes);
        if outcome.is_err() {
            self.failed = true;
        }
        outcome
    }
}

//! Readers and writers that count the calls that failed.
ghost use Rattle.std.specs.Prelude.{◌≡◌, ℕ, List, Option};
ghost use Rattle.std.specs.Io.{ReadsAtMost, WritesAtMost};
ghost use Rattle.std.specs.Io.KnownBytes.{ReadConsumes, WriteAppends};
ghost use Rattle.streams.specs.Streams.{CountsFailure, CountsWrite};

use std::io;
use std::io::{Read, Write};

/// Where bytes come from: std's `read`, with a count of the calls that failed.
pub trait Source {
    // The bytes that reads will give from here on, if they are known.
    ghost remaining: { Self → Option (List ℕ) };

    // How many calls have failed so far, in 64 bits.
    ghost failures: { Self → ℕ };

    /// Moves up to `buf.len()` bytes into the front of `buf`, and returns how many. It returns 0 only at the end,
    /// or if `buf` is empty. A call that fails moves nothing and adds one to the count.
    fn read(&mut self, buf: &mut [u8]) -> io::Result<usize>
        ensures bound { ReadsAtMost result buf.new }
        ensures bytes { ReadConsumes (remaining self.old) (remaining self.new) result buf.new }
        ensures counted { CountsFailure result (failures self.old) (failures self.new) };
}

/// Where bytes go: std's `write`, with a count of the calls that failed or took nothing.
pub trait Sink {
    // The bytes that were written so far, if they are known.
    ghost contents: { Self → Option (List ℕ) };

    // How many calls have failed so far, in 64 bits. A call that takes no byte of a non-empty buffer has failed.
    ghost failures: { Self → ℕ };

    /// Takes bytes from the front of `buf`, and returns how many. A call that fails takes nothing and adds one to the count.
    /// So does a call that returns 0 although `buf` is not empty.
    fn write(&mut self, buf: &[u8]) -> io::Result<usize>
        ensures bound { WritesAtMost result buf.now }
        ensures bytes { WriteAppends (contents self.old) (contents self.new) result buf.now }
        ensures counted { CountsWrite result buf.now (failures self.old) (failures self.new) };
}

/// A reader or writer of std with its count of failed calls, from 0. The count has 64 bits: after
/// its greatest value it continues at 0, so that one failed call always shows.
#[derive(Debug, Drop)]
pub struct Metered<T> {
    pub inner: T,
    pub failures: u64,
}

impl<T> Metered<T> {
    /// A reader or writer of which no call has failed yet.
    pub fn new(inner: T) -> Self
        ensures { result ≡ record { inner = inner; failures = 0 } }
    {
        Metered { inner, failures: 0 }
    }
}

impl<T: Read> Source for Metered<T> {
    ghost remaining = { λ m. T.remaining m.inner };

    ghost failures = { λ m. m.failures };

    fn read(&mut self, buf: &mut [u8]) -> io::Result<usize> {
        match self.inner.read(buf) {
            Ok(count) => Ok(count),
            Err(error) => {
                self.failures = self.failures.wrapping_add(1);
                Err(error)
            }
        }
    }
}

impl<T: Write> Sink for Metered<T> {
    ghost contents = { λ m. T.contents m.inner };

    ghost failures = { λ m. m.failures };

    fn write(&mut self, buf: &[u8]) -> io::Result<usize> {
        match self.inner.write(buf) {
            Ok(0) if !buf.is_empty() => {
                self.failures = self.failures.wrapping_add(1);
                Ok(0)
            }
            Ok(count) => Ok(count),
            Err(error) => {
                self.failures = self.failures.wrapping_add(1);
                Err(error)
            }
        }
    }
}

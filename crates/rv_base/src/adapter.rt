// std's readers and writers as sources and sinks. They tell of what is left and was written what the std type tells.
ghost use Rattle.std.specs.Prelude.{◌≡◌};

use crate::outside::{Failed, Sink, Source, ends_after};
use std::io::{Read, Write};

/// A reader of std, with a count of its errors.
#[derive(Drop)]
pub struct Reading<R: Read> {
    /// The reader.
    pub inner: R,
    /// How often it has failed.
    pub faults: u64,
    /// How often it has told its end.
    pub ends: u64,
}

impl<R: Read> Reading<R> {
    /// A reader that has not been read yet.
    pub fn new(inner: R) -> Self
        ensures { result ≡ record { inner = inner; faults = 0; ends = 0 } }
    {
        Reading {
            inner,
            faults: 0,
            ends: 0,
        }
    }
}

impl<R: Read> Source for Reading<R> {
    ghost state = { λ s. record { left = R.remaining s.inner; faults = s.faults; ends = s.ends } };

    // Of a real reader nothing is known.
    ghost fails_no_more = { λ _. ⊥ };

    fn read(&mut self, piece: &mut [u8]) -> Result<usize, Failed> {
        match self.inner.read(piece) {
            Ok(count) => {
                self.ends = ends_after(self.ends, count, piece);
                Ok(count)
            }
            Err(_) => {
                self.faults = self.faults.saturating_add(1);
                Err(Failed)
            }
        }
    }
}

/// A writer of std, with a count of its errors. A write that takes nothing of a piece that is not empty is one.
#[derive(Drop)]
pub struct Writing<W: Write> {
    /// The writer.
    pub inner: W,
    /// How often it has failed.
    pub faults: u64,
}

impl<W: Write> Writing<W> {
    /// A writer that has not been written to yet.
    pub fn new(inner: W) -> Self
        ensures { result ≡ record { inner = inner; faults = 0 } }
    {
        Writing { inner, faults: 0 }
    }
}

impl<W: Write> Sink for Writing<W> {
    ghost state = { λ s. record { written = W.contents s.inner; faults = s.faults; refusals = 0 } };

    // Of a real writer nothing is known.
    ghost fails_no_more = { λ _. ⊥ };

    fn write(&mut self, piece: &[u8]) -> Result<usize, Failed> {
        match self.inner.write(piece) {
            Ok(count) if count > 0 || piece.is_empty() => Ok(count),
            _ => {
                self.faults = self.faults.saturating_add(1);
                Err(Failed)
            }
        }
    }
}

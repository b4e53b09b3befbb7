// Streams with what became of them.

ghost use Rattle.std.specs.Prelude.{◌≡◌};

use crate::failure::{Failure, settle_read, settle_write};
use crate::sink::Sink;
use crate::source::Source;
use std::io::{Read, Write};

/// Any reader or writer, with how often it has failed.
#[derive(Drop)]
pub struct Tracked<T> {
    inner: T,
    failures: u64,
}

impl<R: Read> Tracked<R> {
    /// A reader of which no read has failed yet.
    pub fn reader(inner: R) -> Tracked<R>
        ensures left { ⟦<Tracked<R> as Source>⟧.left result ≡ R.remaining inner }
        ensures unfailed { ⟦<Tracked<R> as Source>⟧.failures result ≡ 0 }
    {
        Tracked { inner, failures: 0 }
    }
}

impl<W: Write> Tracked<W> {
    /// A writer of which no write has failed yet.
    pub fn writer(inner: W) -> Tracked<W>
        ensures held { ⟦<Tracked<W> as Sink>⟧.held result ≡ W.contents inner }
        ensures unfailed { ⟦<Tracked<W> as Sink>⟧.failures result ≡ 0 }
    {
        Tracked { inner, failures: 0 }
    }
}

impl<R: Read> Source for Tracked<R> {
    ghost left = { λ s. R.remaining s.inner };

    ghost failures = { λ s. s.failures };

    fn read_some(&mut self, buf: &mut [u8]) -> Result<usize, Failure> {
        settle_read(self.inner.read(buf), &mut self.failures)
    }
}

impl<W: Write> Sink for Tracked<W> {
    ghost held = { λ s. W.contents s.inner };

    ghost failures = { λ s. s.failures };

    fn put_some(&mut self, bytes: &[u8]) -> Result<usize, Failure> {
        let least = if bytes.is_empty() { 0 } else { 1 };
        settle_write(self.inner.write(bytes), least, &mut self.failures)
    }
}

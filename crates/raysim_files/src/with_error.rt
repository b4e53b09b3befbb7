// Why a read or a write failed.

ghost use Rattle.std.specs.Prelude.{◌≡◌, None, Some, IfErr, OnOk};
ghost use Rattle.std.specs.Io.{ReadsAtMost, WritesAtMost};
ghost use Rattle.std.specs.Io.KnownBytes.{Keeps, ReadConsumes, WriteAppends};
ghost use Rattle.raysim_files.specs.Errors.{last_error};

use std::io;
use std::io::{Read, Write};

/// A reader or a writer, with the error of its last call that failed.
#[derive(Drop)]
pub struct WithError<T> {
    inner: T,
    error: Option<io::Error>,
}

impl<T> WithError<T> {
    /// The reader or writer, none of whose calls has failed yet.
    pub fn new(inner: T) -> WithError<T>
        ensures { last_error result ≡ None }
    {
        WithError { inner, error: None }
    }

    /// The error of its last call that failed, if one did.
    pub fn error(&self) -> Option<io::Error>
        ensures { result ≡ last_error self.now }
    {
        self.error
    }
}

impl<R: Read> Read for WithError<R> {
    ghost remaining = { λ s. R.remaining s.inner };

    fn read(&mut self, buf: &mut [u8]) -> io::Result<usize>
        ensures bound { ReadsAtMost result buf.new }
        ensures bytes { ReadConsumes (R.remaining self.old.inner) (R.remaining self.new.inner) result buf.new }
        ensures failed { IfErr result (λ e. last_error self.new ≡ Some e) }
        ensures unfailed { OnOk result (last_error self.new ≡ last_error self.old) }
    {
        let done = self.inner.read(buf);
        if let Err(error) = done {
            self.error = Some(error);
        }
        done
    }
}

impl<W: Write> Write for WithError<W> {
    ghost contents = { λ s. W.contents s.inner };

    fn write(&mut self, buf: &[u8]) -> io::Result<usize>
        ensures bound { WritesAtMost result buf.now }
        ensures bytes { WriteAppends (W.contents self.old.inner) (W.contents self.new.inner) result buf.now }
        ensures failed { IfErr result (λ e. last_error self.new ≡ Some e) }
        ensures unfailed { OnOk result (last_error self.new ≡ last_error self.old) }
    {
        let done = self.inner.write(buf);
        if let Err(error) = done {
            self.error = Some(error);
        }
        done
    }

    fn flush(&mut self) -> io::Result<()>
        ensures bytes { Keeps (W.contents self.old.inner) (W.contents self.new.inner) }
        ensures failed { IfErr result (λ e. last_error self.new ≡ Some e) }
        ensures unfailed { OnOk result (last_error self.new ≡ last_error self.old) }
    {
        let done = self.inner.flush();
        if let Err(error) = done {
            self.error = Some(error);
        }
        done
    }
}

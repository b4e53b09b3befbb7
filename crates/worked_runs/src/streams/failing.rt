// A reader and a writer that fail at a byte.

use std::io;
use std::io::{ErrorKind, Read, Write};

/// Gives the bytes, and then fails.
#[derive(Drop)]
pub struct FailingReader<'a> {
    /// What is still given before it fails.
    pub bytes: &'a [u8],
}

impl Read for FailingReader<'_> {
    fn read(&mut self, buf: &mut [u8]) -> io::Result<usize> {
        if self.bytes.is_empty() {
            return Err(io::Error::from(ErrorKind::Other));
        }
        self.bytes.read(buf)
    }
}

/// Takes as many bytes as it has room for, and then fails.
#[derive(Drop)]
pub struct FailingWriter<'a> {
    /// What was taken so far.
    pub written: &'a mut Vec<u8>,
    /// How many bytes are still taken before it fails.
    pub room: usize,
}

impl Write for FailingWriter<'_> {
    fn write(&mut self, buf: &[u8]) -> io::Result<usize> {
        if self.room == 0 {
            return Err(io::Error::from(ErrorKind::Other));
        }
        let count = buf.len().min(self.room);
        let moved = self.written.write(&buf[..count])?;
        self.room = self.room.saturating_sub(moved);
        Ok(moved)
    }

    fn flush(&mut self) -> io::Result<()> {
        Ok(())
    }
}

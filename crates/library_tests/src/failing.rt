//! Readers and writers that fail.

use std::io;
use std::io::{ErrorKind, Read, Write};

/// A reader that gives some bytes, and then fails; and a writer that fails.
#[derive(Drop)]
pub(crate) struct Torn<'a> {
    pub bytes: &'a [u8],
    pub kind: ErrorKind,
}

impl Read for Torn<'_> {
    fn read(&mut self, buf: &mut [u8]) -> io::Result<usize> {
        match self.bytes.read(buf)? {
            0 => Err(io::Error::from(self.kind)),
            count => Ok(count),
        }
    }
}

impl Write for Torn<'_> {
    fn write(&mut self, _buf: &[u8]) -> io::Result<usize> {
        Err(io::Error::from(self.kind))
    }

    fn flush(&mut self) -> io::Result<()> {
        Err(io::Error::from(self.kind))
    }
}

/// A writer that takes this many bytes, and then fails.
#[derive(Drop)]
pub(crate) struct Narrow<'a> {
    pub taken: &'a mut Vec<u8>,
    pub room: usize,
    pub kind: ErrorKind,
}

impl Write for Narrow<'_> {
    fn write(&mut self, buf: &[u8]) -> io::Result<usize> {
        let count = self.room.min(buf.len());
        if count == 0 {
            return Err(io::Error::from(self.kind));
        }
        self.taken.extend_from_slice(&buf[..count])?;
        self.room -= count;
        Ok(count)
    }

    fn flush(&mut self) -> io::Result<()> {
        Ok(())
    }
}

/// A writer that takes all, and can't be flushed.
#[derive(Drop)]
pub(crate) struct Stuck<'a> {
    pub taken: &'a mut Vec<u8>,
    pub kind: ErrorKind,
}

impl Write for Stuck<'_> {
    fn write(&mut self, buf: &[u8]) -> io::Result<usize> {
        self.taken.extend_from_slice(buf)?;
        Ok(buf.len())
    }

    fn flush(&mut self) -> io::Result<()> {
        Err(io::Error::from(self.kind))
    }
}

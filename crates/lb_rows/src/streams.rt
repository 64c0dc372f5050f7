//! A reader that ends or fails after its bytes, and a writer that fails once it is full or when it is flushed.
use std::alloc::Global;
use std::io::{self, Error, ErrorKind, Read, Write};

/// A reader that gives its bytes, and then ends or fails.
#[derive(Drop)]
pub(crate) struct Source<'a> {
    pub(crate) left: &'a [u8],
    pub(crate) fails: bool,
}

impl Read for Source<'_> {
    fn read(&mut self, buf: &mut [u8]) -> io::Result<usize> {
        let count = self.left.len().min(buf.len());
        if count == 0 && self.fails {
            return Err(Error::from(ErrorKind::Other));
        }
        let (now, later) = self.left.split_at(count);
        buf[..count].copy_from_slice(now);
        self.left = later;
        Ok(count)
    }
}

/// A writer that keeps what is written, as many bytes as it has room for.
#[derive(Drop)]
pub(crate) struct Sink {
    pub(crate) written: Vec<u8>,
    pub(crate) room: usize,
    pub(crate) flushes: bool,
}

impl Sink {
    /// Returns a writer that takes everything.
    pub(crate) fn new(alloc: Global) -> Sink {
        Sink {
            written: Vec::new(alloc),
            room: usize::MAX,
            flushes: true,
        }
    }
}

impl Write for Sink {
    fn write(&mut self, buf: &[u8]) -> io::Result<usize> {
        let count = self.room.min(buf.len());
        if count == 0 && !buf.is_empty() {
            return Err(Error::from(ErrorKind::Other));
        }
        self.written.extend_from_slice(&buf[..count])?;
        self.room -= count;
        Ok(count)
    }

    fn flush(&mut self) -> io::Result<()> {
        if self.flushes {
            Ok(())
        } else {
            Err(Error::from(ErrorKind::Other))
        }
    }
}

//! Bytes that were read from a stream and not yet used, and the one place where a script is read. A line is found by a search of those
//! bytes; where none is left, what was answered is flushed before more is read.
ghost use Rattle.std.specs.Prelude.{◌≡◌, ◌≢◌, ℕ, ◌<◌, ◌≤◌, List, [], length, drop, slice_range, false, true, Err, OnOk, OnErr, IfOk};
ghost use Rattle.std.specs.Io.KnownBytes.{Keeps, IsAtEnd, prepend_known};
ghost use Rattle.lb_stream.specs.Counted.{inner_of, has_failed, is_flushed};

use crate::counted::Counted;
use std::io;
use std::io::{Read, Write};
use std::marker::Model;

/// How many bytes are asked for at a time.
const CAPACITY: usize = 8192;

/// Which of the two streams of a script failed.
#[derive(Clone, Copy, Debug, PartialEq, Eq)]
pub enum StreamError {
    /// The reader: a read failed.
    Read,
    /// The writer: what was written couldn't be flushed.
    Write,
}

/// Bytes that were read from a stream and not yet used, the first to come first.
#[derive(Drop)]
pub struct ReadAhead {
    bytes: [u8; CAPACITY],
    start: usize,
    end: usize,
}

impl Model for ReadAhead {
    ghost Value = { List ℕ };

    ghost view = { λ a. slice_range a.bytes a.start a.end };

    ghost invariant = { λ a. (a.start ≤ a.end) × (a.end ≤ 8192) };
}

impl ReadAhead {
    /// Returns a buffer without bytes.
    pub fn new() -> ReadAhead
        ensures { result ≡ [] }
    {
        ReadAhead {
            bytes: [0; CAPACITY],
            start: 0,
            end: 0,
        }
    }

    /// Returns the bytes, 8192 at most.
    pub fn bytes(&self) -> &[u8]
        ensures value { result.now ≡ self.now }
        ensures few { length result.now ≤ 8192 }
    {
        &self.bytes[self.start..self.end]
    }

    /// Drops the first `count` bytes, which the caller has used.
    pub fn consume(&mut self, count: usize)
        requires { count ≤ length self.old }
        ensures { self.new ≡ drop count self.old }
    {
        self.start += count;
    }

    /// Makes sure that a byte is there, by one read where none is. Returns `false` where the stream has ended.
    ///
    /// Before that read all that was written is flushed, so that it reaches a peer which waits for it before it sends more.
    pub fn fill<R: Read, W: Write>(
        &mut self,
        reader: &mut Counted<R>,
        writer: &mut Counted<W>,
    ) -> Result<bool, StreamError>
        ensures bytes { Keeps (prepend_known self.old (R.remaining (inner_of reader.old)))
            (prepend_known self.new (R.remaining (inner_of reader.new))) }
        ensures some { IfOk result (λ more. more ≡ true → 0 < length self.new) }
        ensures end { IfOk result (λ more. more ≡ false → IsAtEnd (prepend_known self.new (R.remaining (inner_of reader.new)))) }
        ensures none { OnErr result (self.new ≡ []) }
        ensures written { Keeps (W.contents (inner_of writer.old)) (W.contents (inner_of writer.new)) }
        ensures reader_failed { result ≡ Err StreamError.Read → has_failed reader.new ≡ true }
        ensures reader_kept { result ≢ Err StreamError.Read → has_failed reader.new ≡ has_failed reader.old }
        ensures writer_failed { result ≡ Err StreamError.Write → has_failed writer.new ≡ true }
        ensures writer_kept { result ≢ Err StreamError.Write → has_failed writer.new ≡ has_failed writer.old }
    {
        if self.start < self.end {
            return Ok(true);
        }
        if !writer.is_flushed() {
            match writer.flush() {
                Ok(()) => {}
                Err(_) => return Err(StreamError::Write),
            }
        }
        match self.read(reader, writer) {
            Ok(count) => Ok(count > 0),
            Err(_) => Err(StreamError::Read),
        }
    }

    // Reads over the bytes, which are all used. All that was written is flushed by then.
    fn read<R: Read, W: Write>(
        &mut self,
        reader: &mut Counted<R>,
        writer: &Counted<W>,
    ) -> io::Result<usize>
        requires none { self.old ≡ [] }
        requires flushed { is_flushed writer.now ≡ true }
        ensures bytes { Keeps (R.remaining (inner_of reader.old)) (prepend_known self.new (R.remaining (inner_of reader.new))) }
        ensures some { IfOk result (λ count. count ≡ length self.new) }
        ensures end { IfOk result (λ count. count ≡ 0 → IsAtEnd (R.remaining (inner_of reader.new))) }
        ensures none { OnErr result (self.new ≡ []) }
        ensures kept { OnOk result (has_failed reader.new ≡ has_failed reader.old) }
        ensures noted { OnErr result (has_failed reader.new ≡ true) }
    {
        self.start = 0;
        self.end = 0;
        let count = reader.read(&mut self.bytes)?;
        self.end = count;
        Ok(count)
    }
}

//! A reader or a writer that remembers whether a call of it has failed.
//! Callers learn from it, after a longer run, whether its streams did what they were asked.
ghost use Rattle.std.specs.Prelude.{◌≡◌, ◌≢◌, ℕ, ◌<◌, ◌≤◌, false, true, length, OnOk, OnErr, IfOk, IfErr};
ghost use Rattle.std.specs.Io.{ReadsAtMost, WritesAtMost};
ghost use Rattle.std.specs.IoError.{error_kind};
ghost use Rattle.std.specs.Io.KnownBytes.{ReadConsumes, WriteAppends, Keeps, Appends};
ghost use Rattle.lb_stream.specs.Stream.{OnBytes, GivesByte, SkipsSome, AppendsFront};

use std::io;
use std::io::{Error, ErrorKind, Read, Write};

// How many bytes are skipped by one read, at most.
const SKIPPED_AT_ONCE: usize = 512;

/// A reader or a writer, whether a call of it has failed so far, and whether what was written through it is flushed.
///
/// A call that the system interrupted is made again in here: it is no failure, and callers never see it.
/// A call that gives or takes fewer bytes than it could is no failure either. A write that takes none of
/// some bytes is one, of the kind `WriteZero`, since making it again may never end.
///
/// The contracts say that a failed call is remembered, and that a call which didn't fail leaves the mark as it was. Whether
/// the inner reader or writer failed they can't say: std's `Read` and `Write` have no word for it.
#[derive(Drop)]
pub struct Counted<T> {
    inner: T,
    has_failed: bool,
    is_flushed: bool,
}

impl<T> Counted<T> {
    ghost use Rattle.lb_stream.specs.Counted.{inner_of, has_failed, is_flushed};

    /// Wraps a reader or a writer, of which no call has failed yet, and through which nothing was written.
    pub fn new(inner: T) -> Counted<T>
        ensures inner { inner_of result ≡ inner }
        ensures fresh { has_failed result ≡ false }
        ensures flushed { is_flushed result ≡ true }
    {
        Counted {
            inner,
            has_failed: false,
            is_flushed: true,
        }
    }

    /// Returns whether a call has failed since `new`.
    pub fn failed(&self) -> bool
        ensures { result ≡ has_failed self.now }
    {
        self.has_failed
    }

    /// Returns whether no call of `write` came since `new` or the last flush that didn't fail.
    pub fn is_flushed(&self) -> bool
        ensures { result ≡ is_flushed self.now }
    {
        self.is_flushed
    }

    /// Returns the reader or writer.
    pub fn into_inner(self) -> T
        ensures { result ≡ inner_of self }
    {
        let Counted {
            inner,
            has_failed: _,
            is_flushed: _,
        } = self;
        inner
    }
}

impl<R: Read> Read for Counted<R> {
    ghost use Rattle.lb_stream.specs.Counted.{inner_of, has_failed, is_flushed};

    ghost remaining = { λ s. R.remaining (inner_of s) };

    fn read(&mut self, buf: &mut [u8]) -> io::Result<usize>
        ensures bound { ReadsAtMost result buf.new }
        ensures bytes { ReadConsumes (R.remaining (inner_of self.old)) (R.remaining (inner_of self.new)) result buf.new }
        ensures kept { OnOk result (has_failed self.new ≡ has_failed self.old) }
        ensures noted { OnErr result (has_failed self.new ≡ true) }
        ensures retried { IfErr result (λ e. error_kind e ≢ ErrorKind.Interrupted) }
        ensures flushed { is_flushed self.new ≡ is_flushed self.old }
    {
        for _ in 0..u64::MAX {
            match self.inner.read(buf) {
                Ok(n) => return Ok(n),
                Err(e) => {
                    if e.kind() != ErrorKind::Interrupted {
                        self.has_failed = true;
                        return Err(e);
                    }
                }
            }
        }
        self.has_failed = true;
        Err(Error::from(ErrorKind::TimedOut))
    }
}

impl<W: Write> Write for Counted<W> {
    ghost use Rattle.lb_stream.specs.Counted.{inner_of, has_failed, is_flushed};

    ghost contents = { λ s. W.contents (inner_of s) };

    fn write(&mut self, buf: &[u8]) -> io::Result<usize>
        ensures bound { WritesAtMost result buf.now }
        ensures bytes { WriteAppends (W.contents (inner_of self.old)) (W.contents (inner_of self.new)) result buf.now }
        ensures kept { OnOk result (has_failed self.new ≡ has_failed self.old) }
        ensures noted { OnErr result (has_failed self.new ≡ true) }
        ensures some { IfOk result (λ n. 0 < length buf.now → 0 < n) }
        ensures retried { IfErr result (λ e. error_kind e ≢ ErrorKind.Interrupted) }
        ensures pending { is_flushed self.new ≡ false }
    {
        self.is_flushed = false;
        for _ in 0..u64::MAX {
            match self.inner.write(buf) {
                Ok(0) if !buf.is_empty() => break,
                Ok(n) => return Ok(n),
                Err(e) => {
                    if e.kind() != ErrorKind::Interrupted {
                        self.has_failed = true;
                        return Err(e);
                    }
                }
            }
        }
        self.has_failed = true;
        Err(Error::from(ErrorKind::WriteZero))
    }

    fn flush(&mut self) -> io::Result<()>
        ensures bytes { Keeps (W.contents (inner_of self.old)) (W.contents (inner_of self.new)) }
        ensures kept { OnOk result (has_failed self.new ≡ has_failed self.old) }
        ensures noted { OnErr result (has_failed self.new ≡ true) }
        ensures retried { IfErr result (λ e. error_kind e ≢ ErrorKind.Interrupted) }
        ensures flushed { OnOk result (is_flushed self.new ≡ true) }
        ensures pending { OnErr result (is_flushed self.new ≡ is_flushed self.old) }
    {
        for _ in 0..u64::MAX {
            match self.inner.flush() {
                Ok(()) => {
                    self.is_flushed = true;
                    return Ok(());
                }
                Err(e) => {
                    if e.kind() != ErrorKind::Interrupted {
                        self.has_failed = true;
                        return Err(e);
                    }
                }
            }
        }
        self.has_failed = true;
        Err(Error::from(ErrorKind::TimedOut))
    }
}

impl<R: Read> Counted<R> {
    ghost use Rattle.lb_stream.specs.Counted.{inner_of, has_failed, is_flushed};

    /// Reads and returns the next byte, or `None` at the end of the stream.
    ///
    /// Each call asks the reader for one byte, so a reader over a device belongs in a `BufReader`.
    pub fn next_byte(&mut self) -> io::Result<Option<u8>>
        ensures byte { OnBytes (R.remaining (inner_of self.old)) (R.remaining (inner_of self.new)) (GivesByte result) }
        ensures kept { OnOk result (has_failed self.new ≡ has_failed self.old) }
        ensures noted { OnErr result (has_failed self.new ≡ true) }
    {
        let mut one = [0u8; 1];
        let n = self.read(&mut one)?;
        if n == 0 { Ok(None) } else { Ok(Some(one[0])) }
    }

    /// Reads some of the next bytes, `most` at most, and drops them.
    ///
    /// Returns how many, 0 at the end of the stream alone.
    pub fn skip_some(&mut self, most: u64) -> io::Result<u64>
        requires { 0 < most }
        ensures bytes { OnBytes (R.remaining (inner_of self.old)) (R.remaining (inner_of self.new)) (SkipsSome result) }
        ensures within { IfOk result (λ n. n ≤ most) }
        ensures kept { OnOk result (has_failed self.new ≡ has_failed self.old) }
        ensures noted { OnErr result (has_failed self.new ≡ true) }
    {
        let mut skipped = [0u8; SKIPPED_AT_ONCE];
        let room = most.min(SKIPPED_AT_ONCE as u64) as usize;
        let count = self.read(&mut skipped[..room])?;
        Ok(count as u64)
    }
}

impl<W: Write> Counted<W> {
    ghost use Rattle.lb_stream.specs.Counted.{inner_of, has_failed, is_flushed};

    /// Writes all the bytes, or fails with some front of them written.
    ///
    /// It doesn't flush.
    pub fn put(&mut self, bytes: &[u8]) -> io::Result<()>
        ensures ok { OnOk result (Appends (W.contents (inner_of self.old)) (W.contents (inner_of self.new)) bytes.now) }
        ensures part { OnErr result (AppendsFront (W.contents (inner_of self.old)) (W.contents (inner_of self.new)) bytes.now) }
        ensures kept { OnOk result (has_failed self.new ≡ has_failed self.old) }
        ensures noted { OnErr result (has_failed self.new ≡ true) }
    {
        let mut at = 0;
        while at < bytes.len() {
            match self.write(&bytes[at..]) {
                Ok(n) => at += n,
                Err(e) => return Err(e),
            }
        }
        Ok(())
    }
}

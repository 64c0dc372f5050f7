//! One line of a stream, up to its line feed and within a limit. A result says what came instead of a line: the end, a line too long, a
//! stream that failed, no memory.
ghost use Rattle.std.specs.Prelude.{◌≡◌, ◌≢◌, ◌+◌, ◌≤◌, true, [], ◌∷◌, ◌++◌, drop, length, IfSome};
ghost use Rattle.std.specs.Io.KnownBytes.{Keeps, prepend_known};
ghost use Rattle.lb_stream.specs.Counted.{inner_of, has_failed};
ghost use Rattle.lb_stream.specs.Lines.{Finds, HasNoFeed, IsLine, first_line};
ghost use Rattle.lb_stream.specs.Stream.{OnBytes};

use crate::counted::Counted;
use crate::read_ahead::{ReadAhead, StreamError};
use memchr::memchr;
use std::io::{Read, Write};

/// The most bytes that a line may have, its line feed not counted.
pub const LINE_LIMIT: usize = 16777216;

/// What came where a line was asked for.
#[derive(Clone, Copy, Debug, PartialEq, Eq)]
pub enum LineRead {
    /// A line, whose line feed came.
    Line,
    /// A line of a byte or more that the stream's end ended.
    LastLine,
    /// The end of the stream: no byte was left.
    End,
    /// A line of more than `LINE_LIMIT` bytes. Only its beginning was read.
    TooLong,
    /// The reader failed, before the line's end.
    ReadFailed,
    /// The writer failed, as it was flushed before a read.
    WriteFailed,
    /// The line needed memory that was refused.
    NoMemory,
}

/// Reads the next line into `line`, without its line feed, over what `line` contained before.
///
/// The stream is what `ahead` has and then what `reader` has left. After any result but `Line`, `LastLine` and `ReadFailed`, what `line`
/// then contains has no meaning. A read is asked for only where `ahead` has no whole line, and what was written to `writer` is flushed
/// before it.
pub fn read_line<R: Read, W: Write>(
    reader: &mut Counted<R>,
    writer: &mut Counted<W>,
    ahead: &mut ReadAhead,
    line: &mut Vec<u8>,
) -> LineRead
    ensures found { OnBytes (prepend_known ahead.old (R.remaining (inner_of reader.old)))
        (prepend_known ahead.new (R.remaining (inner_of reader.new))) (Finds result line.new.items) }
    ensures none { result ≡ LineRead.ReadFailed → ahead.new ≡ [] }
    ensures written { Keeps (W.contents (inner_of writer.old)) (W.contents (inner_of writer.new)) }
    ensures reader_failed { result ≡ LineRead.ReadFailed → has_failed reader.new ≡ true }
    ensures reader_kept { result ≢ LineRead.ReadFailed → has_failed reader.new ≡ has_failed reader.old }
    ensures writer_failed { result ≡ LineRead.WriteFailed → has_failed writer.new ≡ true }
    ensures writer_kept { result ≢ LineRead.WriteFailed → has_failed writer.new ≡ has_failed writer.old }
{
    line.clear();
    loop {
        match ahead.fill(reader, writer) {
            Ok(true) => {}
            Ok(false) if line.is_empty() => return LineRead::End,
            Ok(false) => return LineRead::LastLine,
            Err(StreamError::Read) => return LineRead::ReadFailed,
            Err(StreamError::Write) => return LineRead::WriteFailed,
        }
        let bytes = ahead.bytes();
        let count = feed_place(bytes);
        if count > LINE_LIMIT - line.len() {
            return LineRead::TooLong;
        }
        match line.extend_from_slice(&bytes[..count]) {
            Ok(()) => {}
            Err(_) => return LineRead::NoMemory,
        }
        if count < bytes.len() {
            ahead.consume(count + 1);
            return LineRead::Line;
        }
        ahead.consume(count);
    }
}

/// Borrows the next line, without its line feed, where all of it and its line feed were read ahead.
///
/// To go on after it, consume its bytes and one more.
pub fn line_ahead(ahead: &ReadAhead) -> Option<&[u8]>
    ensures line { IfSome result (λ line. IsLine line.now × (ahead.now ≡ line.now ++ 10 ∷ drop (length line.now + 1) ahead.now)) }
    ensures none { result ≡ None → HasNoFeed ahead.now }
{
    let bytes = ahead.bytes();
    match memchr(b'\n', bytes) {
        Some(place) => Some(&bytes[..place]),
        None => None,
    }
}

// How many bytes are before the first line feed.
fn feed_place(bytes: &[u8]) -> usize
    ensures place { result ≡ length (first_line bytes.now) }
    ensures within { result ≤ length bytes.now }
{
    match memchr(b'\n', bytes) {
        Some(place) => place,
        None => bytes.len(),
    }
}

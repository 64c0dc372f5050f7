//! A body in chunks. Each chunk's line is read whole before its size is looked at.
ghost use Rattle.std.specs.Prelude.{◌≡◌, ◌≢◌, ◌≤◌, true, IfOk};
ghost use Rattle.lb_stream.specs.Counted.{inner_of, has_failed};
ghost use Rattle.lb_stream.specs.Stream.{OnBytes};
ghost use Rattle.lb_health_http.specs.Body.{BodyOutcome};
ghost use Rattle.lb_health_http.specs.Internal.Steps.{ContentOutcome, StepOutcome};

use crate::body::skip;
use crate::chunk_line::size_of;
use crate::framing::Framing;
use crate::line::{expect, read_line};
use crate::trailers::read_trailers;
use lb_health_core::error::CheckError;
use lb_stream::counted::Counted;
use std::alloc::Global;
use std::io::Read;

/// The most bytes that a chunk line may have, with its CR LF.
pub(crate) const CHUNK_LINE_LIMIT: u64 = 4096;

// The bytes of a chunk, and the CR LF after them.
fn read_content<R: Read>(reader: &mut Counted<R>, size: u64) -> Result<(), CheckError>
    ensures outcome { OnBytes (R.remaining (inner_of reader.old)) (R.remaining (inner_of reader.new)) (ContentOutcome size result) }
    ensures own { result ≢ Err CheckError.Write }
    ensures failed { result ≡ Err CheckError.Read → has_failed reader.new ≡ true }
    ensures kept { result ≢ Err CheckError.Read → has_failed reader.new ≡ has_failed reader.old }
{
    match skip(reader, size) {
        Ok(()) => {}
        Err(fault) => return Err(fault),
    }
    match expect(reader, b'\r') {
        Ok(()) => {}
        Err(fault) => return Err(fault),
    }
    expect(reader, b'\n')
}

// One chunk of at most `room` bytes, and its size; at size 0 the line of the last chunk alone.
fn next_chunk<R: Read>(alloc: Global, reader: &mut Counted<R>, room: u64) -> Result<u64, CheckError>
    ensures outcome { OnBytes (R.remaining (inner_of reader.old)) (R.remaining (inner_of reader.new)) (StepOutcome room result) }
    ensures fits { IfOk result (λ size. size ≤ room) }
    ensures own { result ≢ Err CheckError.Write }
    ensures failed { result ≡ Err CheckError.Read → has_failed reader.new ≡ true }
    ensures kept { result ≢ Err CheckError.Read → has_failed reader.new ≡ has_failed reader.old }
{
    let line = match read_line(alloc, reader, CHUNK_LINE_LIMIT) {
        Ok(line) => line,
        Err(fault) => return Err(fault),
    };
    let size = match size_of(&line) {
        Some(size) => size,
        None => return Err(CheckError::BadFraming),
    };
    if size > room {
        return Err(CheckError::BodyTooLarge);
    }
    if size == 0 {
        return Ok(size);
    }
    match read_content(reader, size) {
        Ok(()) => Ok(size),
        Err(fault) => Err(fault),
    }
}

/// Passes over a body in chunks, its trailers and the empty line after them.
///
/// Faults: `Read`, `BadFraming`, `EndInMessage`, `BodyTooLarge` at the line of the chunk that would pass the limit, `OutOfMemory`.
pub(crate) fn read_chunked<R: Read>(
    alloc: Global,
    reader: &mut Counted<R>,
    limit: u64,
) -> Result<(), CheckError>
    ensures outcome { OnBytes (R.remaining (inner_of reader.old)) (R.remaining (inner_of reader.new))
        (BodyOutcome limit Framing.Chunked result) }
    ensures own { result ≢ Err CheckError.Write }
    ensures failed { result ≡ Err CheckError.Read → has_failed reader.new ≡ true }
    ensures kept { result ≢ Err CheckError.Read → has_failed reader.new ≡ has_failed reader.old }
{
    let mut room = limit;
    loop {
        match next_chunk(alloc, reader, room) {
            Ok(0) => return read_trailers(alloc, reader),
            Ok(size) => room -= size,
            Err(fault) => return Err(fault),
        }
    }
}

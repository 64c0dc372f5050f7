//! The trailer lines of a body in chunks, and the empty line after them. What they say is not looked at.
ghost use Rattle.std.specs.Prelude.{◌≡◌, ◌≢◌, true, MatchBool};
ghost use Rattle.lb_stream.specs.Counted.{inner_of, has_failed};
ghost use Rattle.lb_stream.specs.Stream.{OnBytes};
ghost use Rattle.lb_health_http.specs.Chunked.{IsTrailerLine};
ghost use Rattle.lb_health_http.specs.Internal.Steps.{TrailersOutcome};

use crate::line::{is_end, read_line};
use lb_health_core::error::CheckError;
use lb_stream::counted::Counted;
use std::alloc::Global;
use std::io::Read;

/// The most bytes that all trailer lines may have together, each with its CR LF.
pub(crate) const TRAILER_LIMIT: u64 = 65536;

// Whether the line is a trailer line: a byte or more, none of them CR or LF, and then CR LF.
fn is_trailer(line: &[u8]) -> bool
    ensures { MatchBool result (IsTrailerLine line.now) (¬ (IsTrailerLine line.now)) }
{
    let length = line.len();
    if length < 3 || line[length - 2] != b'\r' || line[length - 1] != b'\n' {
        return false;
    }
    for byte in &line[..length - 2] {
        if *byte == b'\r' || *byte == b'\n' {
            return false;
        }
    }
    true
}

/// Passes over the trailers and the empty line after them.
///
/// Faults: `Read`, `BadFraming`, `EndInMessage`, `OutOfMemory`.
pub(crate) fn read_trailers<R: Read>(
    alloc: Global,
    reader: &mut Counted<R>,
) -> Result<(), CheckError>
    ensures outcome { OnBytes (R.remaining (inner_of reader.old)) (R.remaining (inner_of reader.new)) (TrailersOutcome result) }
    ensures own { result ≢ Err CheckError.Write }
    ensures failed { result ≡ Err CheckError.Read → has_failed reader.new ≡ true }
    ensures kept { result ≢ Err CheckError.Read → has_failed reader.new ≡ has_failed reader.old }
{
    let mut room = TRAILER_LIMIT;
    loop {
        let line = match read_line(alloc, reader, room.max(2)) {
            Ok(line) => line,
            Err(fault) => return Err(fault),
        };
        if is_end(&line) {
            return Ok(());
        }
        if !is_trailer(&line) {
            return Err(CheckError::BadFraming);
        }
        room -= line.len() as u64;
    }
}

//! The body of an answer, passed over by its framing. Nothing of it is kept.
ghost use Rattle.std.specs.Prelude.{◌≡◌, ◌≢◌, true};
ghost use Rattle.lb_stream.specs.Counted.{inner_of, has_failed};
ghost use Rattle.lb_stream.specs.Stream.{OnBytes};
ghost use Rattle.lb_health_http.specs.Body.{BodyOutcome};
ghost use Rattle.lb_health_http.specs.Internal.Steps.{SkipOutcome};

use crate::chunk::read_chunked;
use crate::framing::Framing;
use lb_health_core::error::CheckError;
use lb_stream::counted::Counted;
use std::alloc::Global;
use std::io::Read;

/// Passes over so many bytes.
///
/// Faults: `Read`, `EndInMessage`.
pub(crate) fn skip<R: Read>(reader: &mut Counted<R>, length: u64) -> Result<(), CheckError>
    ensures outcome { OnBytes (R.remaining (inner_of reader.old)) (R.remaining (inner_of reader.new)) (SkipOutcome length result) }
    ensures own { result ≢ Err CheckError.Write }
    ensures failed { result ≡ Err CheckError.Read → has_failed reader.new ≡ true }
    ensures kept { result ≢ Err CheckError.Read → has_failed reader.new ≡ has_failed reader.old }
{
    let mut left = length;
    while left > 0 {
        match reader.skip_some(left) {
            Ok(0) => return Err(CheckError::EndInMessage),
            Ok(count) => left -= count,
            Err(_) => return Err(CheckError::Read),
        }
    }
    Ok(())
}

// A body of that length, refused before its first byte where it is above the limit.
fn read_sized<R: Read>(reader: &mut Counted<R>, limit: u64, length: u64) -> Result<(), CheckError>
    ensures outcome { OnBytes (R.remaining (inner_of reader.old)) (R.remaining (inner_of reader.new))
        (BodyOutcome limit (Framing.Sized length) result) }
    ensures own { result ≢ Err CheckError.Write }
    ensures failed { result ≡ Err CheckError.Read → has_failed reader.new ≡ true }
    ensures kept { result ≢ Err CheckError.Read → has_failed reader.new ≡ has_failed reader.old }
{
    if length > limit {
        return Err(CheckError::BodyTooLarge);
    }
    skip(reader, length)
}

// A body that goes on to the end of the stream.
fn read_to_end<R: Read>(reader: &mut Counted<R>, limit: u64) -> Result<(), CheckError>
    ensures outcome { OnBytes (R.remaining (inner_of reader.old)) (R.remaining (inner_of reader.new))
        (BodyOutcome limit Framing.ToEnd result) }
    ensures own { result ≢ Err CheckError.Write }
    ensures failed { result ≡ Err CheckError.Read → has_failed reader.new ≡ true }
    ensures kept { result ≢ Err CheckError.Read → has_failed reader.new ≡ has_failed reader.old }
{
    let mut left = limit;
    while left > 0 {
        match reader.skip_some(left) {
            Ok(0) => return Ok(()),
            Ok(count) => left -= count,
            Err(_) => return Err(CheckError::Read),
        }
    }
    match reader.next_byte() {
        Ok(None) => Ok(()),
        Ok(Some(_)) => Err(CheckError::BodyTooLarge),
        Err(_) => Err(CheckError::Read),
    }
}

/// Passes over the body and no byte after it.
///
/// `limit` is the most bytes that it may have. Faults: `Read`, `BadFraming`, `EndInMessage`, `BodyTooLarge`, `OutOfMemory`.
pub(crate) fn read_body<R: Read>(
    alloc: Global,
    reader: &mut Counted<R>,
    limit: u64,
    framing: Framing,
) -> Result<(), CheckError>
    ensures outcome { OnBytes (R.remaining (inner_of reader.old)) (R.remaining (inner_of reader.new)) (BodyOutcome limit framing result) }
    ensures own { result ≢ Err CheckError.Write }
    ensures failed { result ≡ Err CheckError.Read → has_failed reader.new ≡ true }
    ensures kept { result ≢ Err CheckError.Read → has_failed reader.new ≡ has_failed reader.old }
{
    match framing {
        Framing::Nothing => Ok(()),
        Framing::Sized(length) => read_sized(reader, limit, length),
        Framing::Chunked => read_chunked(alloc, reader, limit),
        Framing::ToEnd => read_to_end(reader, limit),
    }
}

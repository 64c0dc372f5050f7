//! Lines of a body in chunks, each read up to its line feed and within a limit, and single bytes.
ghost use Rattle.std.specs.Prelude.{◌≡◌, ◌≢◌, ◌≤◌, true, IfOk, MatchBool, length, vec_len};
ghost use Rattle.httparse.specs.Ascii.{crlf_bytes};
ghost use Rattle.lb_stream.specs.Counted.{inner_of, has_failed};
ghost use Rattle.lb_stream.specs.Stream.{OnBytes};
ghost use Rattle.lb_health_http.specs.Chunked.{IsLineText};
ghost use Rattle.lb_health_http.specs.Internal.Steps.{LineOutcome, ExpectOutcome};

use lb_health_core::error::CheckError;
use lb_stream::counted::Counted;
use std::alloc::Global;
use std::io::Read;

/// Reads a line of at most `most` bytes, with its line feed.
///
/// Faults: `Read`, `BadFraming` where the line is longer, `EndInMessage`, `OutOfMemory`.
pub(crate) fn read_line<R: Read>(
    alloc: Global,
    reader: &mut Counted<R>,
    most: u64,
) -> Result<Vec<u8>, CheckError>
    ensures outcome { OnBytes (R.remaining (inner_of reader.old)) (R.remaining (inner_of reader.new))
        (LineOutcome (λ line. line.items) most result) }
    ensures line { IfOk result (λ line. IsLineText line.items × (vec_len line ≤ most)) }
    ensures own { result ≢ Err CheckError.Write }
    ensures failed { result ≡ Err CheckError.Read → has_failed reader.new ≡ true }
    ensures kept { result ≢ Err CheckError.Read → has_failed reader.new ≡ has_failed reader.old }
{
    let mut line: Vec<u8> = Vec::new(alloc);
    for _ in 0..most {
        let byte = match reader.next_byte() {
            Ok(Some(byte)) => byte,
            Ok(None) => return Err(CheckError::EndInMessage),
            Err(_) => return Err(CheckError::Read),
        };
        match line.push(byte) {
            Ok(()) => {}
            Err(_) => return Err(CheckError::OutOfMemory),
        }
        if byte == b'\n' {
            return Ok(line);
        }
    }
    Err(CheckError::BadFraming)
}

/// Reads one byte, which must be that one.
///
/// Faults: `Read`, `BadFraming`, `EndInMessage`.
pub(crate) fn expect<R: Read>(reader: &mut Counted<R>, byte: u8) -> Result<(), CheckError>
    ensures outcome { OnBytes (R.remaining (inner_of reader.old)) (R.remaining (inner_of reader.new)) (ExpectOutcome byte result) }
    ensures own { result ≢ Err CheckError.Write }
    ensures failed { result ≡ Err CheckError.Read → has_failed reader.new ≡ true }
    ensures kept { result ≢ Err CheckError.Read → has_failed reader.new ≡ has_failed reader.old }
{
    match reader.next_byte() {
        Ok(Some(read)) if read == byte => Ok(()),
        Ok(Some(_)) => Err(CheckError::BadFraming),
        Ok(None) => Err(CheckError::EndInMessage),
        Err(_) => Err(CheckError::Read),
    }
}

/// Returns whether the line is the empty line, CR LF.
pub(crate) fn is_end(line: &[u8]) -> bool
    ensures { MatchBool result (line.now ≡ crlf_bytes) (line.now ≢ crlf_bytes) }
{
    line == b"\r\n".as_slice()
}

//! The head of an answer, read byte by byte, so that nothing after it is read.
//! Empty lines before it are passed over, and the rest is parsed at each line feed.
ghost use Rattle.std.specs.Prelude.{◌≡◌, ◌≢◌, ℕ, true, IfOk, MatchBool, length};
ghost use Rattle.lb_stream.specs.Counted.{inner_of, has_failed};
ghost use Rattle.lb_stream.specs.Stream.{OnBytes};
ghost use Rattle.lb_health_http.specs.Head.{Sees, HoldsHead, HeadOutcome, IsBlankLine};

use httparse::Status;
use httparse::spans::{EMPTY_HEADER_SPAN, HeaderSpan, ResponseSpans, parse_response};
use lb_health_core::error::CheckError;
use lb_stream::counted::Counted;
use std::alloc::Global;
use std::io::Read;

/// The most bytes that a head may have, empty lines in front of it included.
pub(crate) const HEAD_LIMIT: u64 = 65536;

/// The most fields that a head may have.
pub(crate) const FIELD_LIMIT: usize = 64;

// The most lines that a head may have before its empty line: the start line and the fields.
const LINE_LIMIT: usize = FIELD_LIMIT + 1;

/// Where the parts of a head are in its bytes.
#[derive(Drop)]
pub(crate) struct HeadParts {
    pub found: ResponseSpans,
    pub fields: [HeaderSpan; FIELD_LIMIT],
}

/// A head that was read whole.
#[derive(Drop)]
pub(crate) struct Head {
    pub bytes: Vec<u8>,
    pub parts: HeadParts,
}

/// What bytes that end in a line feed are.
#[derive(Drop)]
pub(crate) enum Seen {
    /// A head and perhaps more.
    Whole(HeadParts),
    /// No head yet.
    Open,
    /// No head with few enough fields, whatever follows.
    Bad,
}

// Parses the bytes.
fn look_at(bytes: &[u8]) -> Seen
    ensures { Sees bytes.now result }
{
    let mut fields = [EMPTY_HEADER_SPAN; FIELD_LIMIT];
    match parse_response(bytes, &mut fields) {
        Ok(Status::Complete(found)) => Seen::Whole(HeadParts { found, fields }),
        Ok(Status::Partial) => Seen::Open,
        Err(_) => Seen::Bad,
    }
}

// Whether a line that has just ended was empty.
fn is_blank(line: &[u8]) -> bool
    ensures { MatchBool result (IsBlankLine line.now) (¬ (IsBlankLine line.now)) }
{
    line.is_empty() || (line.len() == 1 && line[0] == b'\r')
}

/// Reads the head of an answer and no byte after it.
///
/// An empty line before the start line isn't parsed again with what follows it, so hostile empty lines cost no more than
/// others. A head of more than 64 fields is refused at the end of its 65th.
///
/// Faults: `Read`, `BadHead`, `HeadTooLarge`, `EndInMessage`, `OutOfMemory`.
pub(crate) fn read_head<R: Read>(alloc: Global, reader: &mut Counted<R>) -> Result<Head, CheckError>
    ensures outcome { OnBytes (R.remaining (inner_of reader.old)) (R.remaining (inner_of reader.new)) (HeadOutcome result) }
    ensures whole { IfOk result HoldsHead }
    ensures own { result ≢ Err CheckError.Write }
    ensures failed { result ≡ Err CheckError.Read → has_failed reader.new ≡ true }
    ensures kept { result ≢ Err CheckError.Read → has_failed reader.new ≡ has_failed reader.old }
{
    let mut bytes: Vec<u8> = Vec::new(alloc);
    let mut lines = 0;
    for _ in 0..HEAD_LIMIT {
        let byte = match reader.next_byte() {
            Ok(Some(byte)) => byte,
            Ok(None) => return Err(CheckError::EndInMessage),
            Err(_) => return Err(CheckError::Read),
        };
        if byte == b'\n' && is_blank(&bytes) {
            bytes.clear();
            continue;
        }
        match bytes.push(byte) {
            Ok(()) => {}
            Err(_) => return Err(CheckError::OutOfMemory),
        }
        if byte != b'\n' {
            continue;
        }
        lines += 1;
        match look_at(&bytes) {
            Seen::Whole(parts) if parts.found.code >= 100 => return Ok(Head { bytes, parts }),
            Seen::Whole(_) => return Err(CheckError::BadHead),
            Seen::Open if lines <= LINE_LIMIT => {}
            Seen::Open => return Err(CheckError::BadHead),
            Seen::Bad => return Err(CheckError::BadHead),
        }
    }
    Err(CheckError::HeadTooLarge)
}

//! One exchange: the request is written and one answer is read, whole and framed, or the fault is returned.
ghost use Rattle.std.specs.Prelude.{◌≡◌, ◌≢◌, ℕ, List, false, true, is_some, OnOk};
ghost use Rattle.std.specs.Io.KnownBytes.{Appends};
ghost use Rattle.http.specs.Request.{head_of};
ghost use Rattle.lb_stream.specs.Counted.{inner_of, has_failed, is_flushed};
ghost use Rattle.lb_stream.specs.Stream.{OnBytes};
ghost use Rattle.lb_health_http.specs.Check.{accepts_of, IsGood, CheckOutcome, IsOkOrFailed};
ghost use Rattle.lb_health_http.specs.Request.{text_of, asks_for_head};

use crate::body::read_body;
use crate::framing::frame;
use crate::head::read_head;
use crate::parts::to_parts;
use crate::request::{is_head, request_bytes, send};
use crate::validate::{Validate, judge};
use http::Request;
use lb_health_core::error::CheckError;
use lb_stream::counted::Counted;
use std::alloc::Global;
use std::io::{Read, Write};

// Reads one answer: the head, its judgement, its framing and its body, in this order.
fn answer<V: Validate, R: Read>(
    alloc: Global,
    head_alone: bool,
    validator: &Option<V>,
    max_body_bytes: u64,
    reader: &mut Counted<R>,
) -> Result<(), CheckError>
    ensures outcome { OnBytes (R.remaining (inner_of reader.old)) (R.remaining (inner_of reader.new))
        (CheckOutcome head_alone max_body_bytes (is_some validator.now) (accepts_of V.accepts validator.now) result) }
    ensures own { result ≢ Err CheckError.Write }
    ensures failed { result ≡ Err CheckError.Read → has_failed reader.new ≡ true }
    ensures kept { result ≢ Err CheckError.Read → has_failed reader.new ≡ has_failed reader.old }
{
    let head = match read_head(alloc, reader) {
        Ok(head) => head,
        Err(fault) => return Err(fault),
    };
    let parts = match to_parts(alloc, &head) {
        Ok(parts) => parts,
        Err(_) => return Err(CheckError::OutOfMemory),
    };
    match judge(validator, &parts) {
        Ok(()) => {}
        Err(fault) => return Err(fault),
    }
    match frame(head_alone, head.parts.found.version, &parts) {
        Some(framing) => read_body(alloc, reader, max_body_bytes, framing),
        None => Err(CheckError::BadFraming),
    }
}

// Reads one answer, and says too that a good answer gives no other fault than that of a device or of memory.
fn read_answer<V: Validate, R: Read>(
    alloc: Global,
    head_alone: bool,
    validator: &Option<V>,
    max_body_bytes: u64,
    reader: &mut Counted<R>,
) -> Result<(), CheckError>
    ensures outcome { OnBytes (R.remaining (inner_of reader.old)) (R.remaining (inner_of reader.new))
        (CheckOutcome head_alone max_body_bytes (is_some validator.now) (accepts_of V.accepts validator.now) result) }
    ensures only { OnBytes (R.remaining (inner_of reader.old)) (R.remaining (inner_of reader.new)) (λ stream rest.
        (other : List ℕ) → IsGood head_alone max_body_bytes (accepts_of V.accepts validator.now) stream other
        → IsOkOrFailed (has_failed reader.new) false result) }
    ensures own { result ≢ Err CheckError.Write }
    ensures failed { result ≡ Err CheckError.Read → has_failed reader.new ≡ true }
    ensures kept { result ≢ Err CheckError.Read → has_failed reader.new ≡ has_failed reader.old }
{
    answer(alloc, head_alone, validator, max_body_bytes, reader)
}

/// Writes the request and reads one answer: `Ok` exactly for a whole, framed message that is accepted.
///
/// The stream then begins with a whole message whose status isn't below 200, whose head the validator accepts (without one, whose status
/// is 200), and whose body has at most `max_body_bytes` bytes. The request's bytes were written and flushed, and no byte after the message
/// was read. Faults: `Write` and `Read` where the device failed, `OutOfMemory` where a growth was refused, and otherwise what is wrong
/// with the answer, as `CheckError` says; no other fault is returned for a good answer. What was read and written stays so.
///
/// The caller gives streams of which no call has failed yet. A reader over a device belongs in a buffer, since the head is read byte by
/// byte.
pub fn check_over<V: Validate, R: Read, W: Write>(
    alloc: Global,
    req: &Request<()>,
    validator: &Option<V>,
    max_body_bytes: u64,
    reader: &mut Counted<R>,
    writer: &mut Counted<W>,
) -> Result<(), CheckError>
    requires reader { has_failed reader.old ≡ false }
    requires writer { has_failed writer.old ≡ false }
    ensures outcome { result ≢ Err CheckError.Write → OnBytes (R.remaining (inner_of reader.old)) (R.remaining (inner_of reader.new))
        (CheckOutcome (asks_for_head (head_of req.now)) max_body_bytes (is_some validator.now) (accepts_of V.accepts validator.now)
        result) }
    ensures written { OnOk result (Appends (W.contents (inner_of writer.old)) (W.contents (inner_of writer.new))
        (text_of (head_of req.now))) }
    ensures flushed { OnOk result (is_flushed writer.new ≡ true) }
    ensures only { OnBytes (R.remaining (inner_of reader.old)) (R.remaining (inner_of reader.new)) (λ stream rest.
        (other : List ℕ) → IsGood (asks_for_head (head_of req.now)) max_body_bytes (accepts_of V.accepts validator.now) stream other
        → IsOkOrFailed (has_failed reader.new) (has_failed writer.new) result) }
    ensures read { result ≡ Err CheckError.Read → has_failed reader.new ≡ true }
    ensures write { result ≡ Err CheckError.Write → has_failed writer.new ≡ true }
{
    let text = match request_bytes(alloc, req) {
        Ok(text) => text,
        Err(_) => return Err(CheckError::OutOfMemory),
    };
    match send(writer, &text) {
        Ok(()) => {}
        Err(fault) => return Err(fault),
    }
    read_answer(alloc, is_head(req), validator, max_body_bytes, reader)
}

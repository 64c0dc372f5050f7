//! The bytes of a request, and how they are sent.
ghost use Rattle.std.specs.Prelude.{◌≡◌, ◌↔◌, ◌⊎◌, IfOk, IfErr, OnOk, OnErr, Err, true};
ghost use Rattle.std.specs.Io.KnownBytes.{Appends};
ghost use Rattle.http.specs.Request.{head_of};
ghost use Rattle.http_header.specs.FieldValue.{IsFieldValue};
ghost use Rattle.lb_stream.specs.Counted.{inner_of, has_failed, is_flushed};
ghost use Rattle.lb_stream.specs.Stream.{AppendsFront};
ghost use Rattle.lb_health_http.specs.Request.{text_of, target_of, asks_for_head, default_text};

use http::header::HOST;
use http::request::Parts;
use http::{HeaderValue, Method, Request};
use http_header::HeaderValueError;
use lb_health_core::error::CheckError;
use lb_select_base::refusal::Refusal;
use lb_stream::counted::Counted;
use std::alloc::{AllocError, Global};
use std::io::Write;

/// Returns the request for `/` of that host, with that method.
///
/// Refused `InvalidAddress` where the host is no header value, `OutOfMemory` where there is no room for it.
pub fn request_for(alloc: Global, method: Method, host: &str) -> Result<Request<()>, Refusal>
    ensures text { IfOk result (λ req. text_of (head_of req) ≡ default_text method host.now) }
    ensures invalid { result ≡ Err Refusal.InvalidAddress ↔ ¬ (IsFieldValue host.now) }
    ensures refused { IfErr result (λ e. (e ≡ Refusal.InvalidAddress) ⊎ (e ≡ Refusal.OutOfMemory)) }
{
    let value = match HeaderValue::from_bytes(alloc, host.as_bytes()) {
        Ok(value) => value,
        Err(HeaderValueError::Invalid) => return Err(Refusal::InvalidAddress),
        Err(HeaderValueError::OutOfMemory) => return Err(Refusal::OutOfMemory),
    };
    let mut parts = Parts::new(alloc);
    parts.method = method;
    match parts.headers.append(HOST, value) {
        Ok(_) => Ok(Request::from_parts(parts, ())),
        Err(_) => Err(Refusal::OutOfMemory),
    }
}

/// Returns the request's bytes.
///
/// A URI that shows no path asks for `/`.
pub(crate) fn request_bytes(alloc: Global, req: &Request<()>) -> Result<Vec<u8>, AllocError>
    ensures { IfOk result (λ text. text.items ≡ text_of (head_of req.now)) }
{
    let mut text: Vec<u8> = Vec::new(alloc);
    text.extend_from_slice(req.method().as_str().as_bytes())?;
    text.extend_from_slice(b" ")?;
    text.extend_from_slice(target_of(req).as_bytes())?;
    text.extend_from_slice(b" HTTP/1.1")?;
    text.extend_from_slice(b"\r\n")?;
    for (name, value) in req.headers().iter() {
        text.extend_from_slice(name.as_str().as_bytes())?;
        text.extend_from_slice(b": ")?;
        text.extend_from_slice(value.as_bytes())?;
        text.extend_from_slice(b"\r\n")?;
    }
    text.extend_from_slice(b"\r\n")?;
    Ok(text)
}

// The path and query that the request asks for.
fn target_of(req: &Request<()>) -> &str
    ensures { result.now ≡ target_of (head_of req.now) }
{
    match req.uri().path_and_query() {
        Some(target) => target.as_str(),
        None => "/",
    }
}

/// Returns whether the request asks for the head alone: whether its method is `HEAD`, spelled so.
pub(crate) fn is_head(req: &Request<()>) -> bool
    ensures { result ≡ asks_for_head (head_of req.now) }
{
    req.method().as_str().as_bytes() == b"HEAD".as_slice()
}

/// Writes the bytes and flushes the writer.
///
/// Fault: `Write`, with some front of the bytes written.
pub(crate) fn send<W: Write>(writer: &mut Counted<W>, text: &[u8]) -> Result<(), CheckError>
    ensures ok { OnOk result (Appends (W.contents (inner_of writer.old)) (W.contents (inner_of writer.new)) text.now) }
    ensures part { OnErr result (AppendsFront (W.contents (inner_of writer.old)) (W.contents (inner_of writer.new)) text.now) }
    ensures kept { OnOk result (has_failed writer.new ≡ has_failed writer.old) }
    ensures noted { OnErr result (has_failed writer.new ≡ true) }
    ensures flushed { OnOk result (is_flushed writer.new ≡ true) }
    ensures err { OnErr result (result ≡ Err CheckError.Write) }
{
    match writer.put(text) {
        Ok(()) => {}
        Err(_) => return Err(CheckError::Write),
    }
    match writer.flush() {
        Ok(()) => Ok(()),
        Err(_) => Err(CheckError::Write),
    }
}

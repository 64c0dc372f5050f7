//! Heads as they are passed on: the end-to-end fields in order, and then those that the proxy adds.
ghost use Rattle.std.specs.Prelude.{◌≡◌, ◌++◌, OnOk};
ghost use Rattle.lb_proxy.specs.Http.Write.{field_text, fields_text, version_text, via_text, coding_text, connection_text, forwarded_text};
ghost use Rattle.lb_proxy.specs.Http.Write.{goes_on, forwarded_name, is_end_to_end, request_line, request_added, request_text};
ghost use Rattle.lb_proxy.specs.Http.Write.{status_line, response_added, response_text};

use crate::http::field::{Field, is_end_to_end};
use crate::http::framing::{Framing, Version};
use crate::http::request::{Asked, RequestHead};
use crate::http::response::ResponseHead;
use itoa::Buffer;
use std::alloc::AllocError;

// Appends the line of a field.
fn push_field(out: &mut Vec<u8>, field: &Field<'_>) -> Result<(), AllocError>
    ensures { OnOk result (out.new.items ≡ out.old.items ++ field_text field.now) }
{
    out.extend_from_slice(field.name)?;
    out.extend_from_slice(b": ")?;
    out.extend_from_slice(field.value)?;
    out.extend_from_slice(b"\r\n")
}

// How a version is written in the start line.
fn version_text(version: Version) -> &'static [u8]
    ensures { result.now ≡ version_text version }
{
    match version {
        Version::Http10 => b"HTTP/1.0",
        Version::Http11 => b"HTTP/1.1",
    }
}

// The line that says by which version the message came here.
fn via_line(version: Version) -> &'static [u8]
    ensures { result.now ≡ via_text version }
{
    match version {
        Version::Http10 => b"Via: 1.0 lbproxy\r\n",
        Version::Http11 => b"Via: 1.1 lbproxy\r\n",
    }
}

// The line that says that the body is in chunks, where it is.
fn coding_line(framing: Framing) -> &'static [u8]
    ensures { result.now ≡ coding_text framing }
{
    match framing {
        Framing::Chunked => b"Transfer-Encoding: chunked\r\n",
        Framing::Nothing | Framing::Sized(_) | Framing::UntilClose => b"",
    }
}

// The line that says whether the client's connection goes on, where its version doesn't say so.
fn connection_line(version: Version, keeps: bool) -> &'static [u8]
    ensures { result.now ≡ connection_text version keeps }
{
    if !keeps {
        return b"Connection: close\r\n";
    }
    match version {
        Version::Http10 => b"Connection: keep-alive\r\n",
        Version::Http11 => b"",
    }
}

// Appends the values of the fields that list the clients, each with a comma behind it.
fn push_forwarded(out: &mut Vec<u8>, fields: &[Field<'_>]) -> Result<(), AllocError>
    ensures { OnOk result (out.new.items ≡ out.old.items ++ forwarded_text fields.now) }
{
    for field in fields {
        if field.is(b"x-forwarded-for") {
            out.extend_from_slice(field.value)?;
            out.extend_from_slice(b", ")?;
        }
    }
    Ok(())
}

// Appends the end-to-end fields of a request but those that list the clients.
fn push_request_fields(
    out: &mut Vec<u8>,
    options: &[&[u8]],
    fields: &[Field<'_>],
) -> Result<(), AllocError>
    ensures { OnOk result (out.new.items ≡ out.old.items ++ fields_text (goes_on options.now) fields.now) }
{
    for field in fields {
        if is_end_to_end(options, field) && !field.is(b"x-forwarded-for") {
            push_field(out, field)?;
        }
    }
    Ok(())
}

// Appends the end-to-end fields of an answer.
fn push_response_fields(
    out: &mut Vec<u8>,
    options: &[&[u8]],
    fields: &[Field<'_>],
) -> Result<(), AllocError>
    ensures { OnOk result (out.new.items ≡ out.old.items ++ fields_text (is_end_to_end options.now) fields.now) }
{
    for field in fields {
        if is_end_to_end(options, field) {
            push_field(out, field)?;
        }
    }
    Ok(())
}

// Appends the start line of a request.
fn push_request_line(out: &mut Vec<u8>, head: &RequestHead<'_>) -> Result<(), AllocError>
    ensures { OnOk result (out.new.items ≡ out.old.items ++ request_line head.now) }
{
    out.extend_from_slice(head.method)?;
    out.extend_from_slice(b" ")?;
    out.extend_from_slice(head.target)?;
    out.extend_from_slice(b" ")?;
    out.extend_from_slice(version_text(head.version))?;
    out.extend_from_slice(b"\r\n")
}

// What the field that lists the clients begins with.
#[tactic(auto, unfolding(crate::specs::Http::Write::forwarded_name))]
fn forwarded_name() -> &'static [u8]
    ensures { result.now ≡ forwarded_name }
{
    b"X-Forwarded-For: "
}

// Appends the fields that the proxy adds to a request.
fn push_request_added(
    out: &mut Vec<u8>,
    head: &RequestHead<'_>,
    client: &[u8],
) -> Result<(), AllocError>
    ensures { OnOk result (out.new.items ≡ out.old.items ++ request_added head.now client.now) }
{
    out.extend_from_slice(forwarded_name())?;
    push_forwarded(out, &head.fields)?;
    out.extend_from_slice(client)?;
    out.extend_from_slice(b"\r\n")?;
    out.extend_from_slice(via_line(head.version))?;
    out.extend_from_slice(coding_line(head.framing))
}

/// Appends the head of the request as a backend gets it; `client` is the text of the client's address.
///
/// It has the version of the request, so a backend sends no chunks for a client that doesn't know them. After an `Err` a part of it may
/// have been appended.
pub fn write_request(
    head: &RequestHead<'_>,
    client: &[u8],
    out: &mut Vec<u8>,
) -> Result<(), AllocError>
    ensures { OnOk result (out.new.items ≡ out.old.items ++ request_text head.now client.now) }
{
    push_request_line(out, head)?;
    push_request_fields(out, &head.options, &head.fields)?;
    push_request_added(out, head, client)?;
    out.extend_from_slice(b"\r\n")
}

// Appends the start line of an answer.
fn push_status_line(out: &mut Vec<u8>, head: &ResponseHead<'_>) -> Result<(), AllocError>
    ensures { OnOk result (out.new.items ≡ out.old.items ++ status_line head.now) }
{
    out.extend_from_slice(b"HTTP/1.1 ")?;
    let mut buffer = Buffer::new();
    out.extend_from_slice(buffer.format(head.status).as_bytes())?;
    out.extend_from_slice(b" ")?;
    out.extend_from_slice(head.reason)?;
    out.extend_from_slice(b"\r\n")
}

// Appends the fields that the proxy adds to an answer to a client of that version.
fn push_response_added(
    out: &mut Vec<u8>,
    head: &ResponseHead<'_>,
    version: Version,
    keeps: bool,
) -> Result<(), AllocError>
    ensures { OnOk result (out.new.items ≡ out.old.items ++ response_added head.now version keeps) }
{
    out.extend_from_slice(via_line(head.version))?;
    out.extend_from_slice(coding_line(head.framing))?;
    if head.status < 200 {
        return Ok(());
    }
    out.extend_from_slice(connection_line(version, keeps))
}

/// Appends the head of the answer as the client gets it; `keeps` says whether the client's connection goes on behind it.
///
/// After an `Err` a part of it may have been appended.
pub fn write_response(
    head: &ResponseHead<'_>,
    asked: Asked,
    keeps: bool,
    out: &mut Vec<u8>,
) -> Result<(), AllocError>
    ensures { OnOk result (out.new.items ≡ out.old.items ++ response_text head.now asked.version keeps) }
{
    push_status_line(out, head)?;
    push_response_fields(out, &head.options, &head.fields)?;
    push_response_added(out, head, asked.version, keeps)?;
    out.extend_from_slice(b"\r\n")
}

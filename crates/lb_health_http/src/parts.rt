//! The head of an answer as `http` has it, made from the spans that the parser found.
//! What the parser has passed a header map takes, so nothing but a refused growth can keep it from being made.
ghost use Rattle.std.specs.Prelude.{◌≡◌, IfOk, OnOk};
ghost use Rattle.http_header.specs.FieldName.{IsFieldName};
ghost use Rattle.http_header.specs.FieldValue.{IsFieldValue, plain_value};
ghost use Rattle.http_header.specs.HeaderMap.{append, RefusesAppend};
ghost use Rattle.http_header.specs.Token.{lowercase};
ghost use Rattle.httparse.specs.Grammar.{ResponseHead};
ghost use Rattle.lb_health_http.specs.Head.{HoldsHead, IsWholeHead};
ghost use Rattle.lb_health_http.specs.Parts.{parts_of};

use crate::head::Head;
use http::response::Parts;
use http::{HeaderMap, HeaderName, HeaderValue, StatusCode, Version};
use http_header::{HeaderMapError, HeaderNameError, HeaderValueError};
use std::alloc::{AllocError, Global};

// Appends a field that the map has room for, and whose name and value it takes.
fn append_field(
    alloc: Global,
    headers: &mut HeaderMap,
    name: &[u8],
    value: &[u8],
) -> Result<(), AllocError>
    requires name { IsFieldName name.now }
    requires value { IsFieldValue value.now }
    requires room { ¬ (RefusesAppend headers.old (lowercase name.now)) }
    ensures { OnOk result (headers.new ≡ append headers.old (lowercase name.now) (plain_value value.now)) }
{
    let name = match HeaderName::from_bytes(alloc, name) {
        Ok(name) => name,
        Err(HeaderNameError::Invalid) => unreachable!(),
        Err(HeaderNameError::OutOfMemory) => return Err(AllocError),
    };
    let value = match HeaderValue::from_bytes(alloc, value) {
        Ok(value) => value,
        Err(HeaderValueError::Invalid) => unreachable!(),
        Err(HeaderValueError::OutOfMemory) => return Err(AllocError),
    };
    match headers.append(name, value) {
        Ok(_) => Ok(()),
        Err(HeaderMapError::MaxSizeReached) => unreachable!(),
        Err(HeaderMapError::OutOfMemory) => Err(AllocError),
    }
}

/// Returns the status, version and fields of the head, or the refusal of a growth.
pub(crate) fn to_parts(alloc: Global, head: &Head) -> Result<Parts, AllocError>
    requires { HoldsHead head.now }
    ensures { IfOk result (λ p. (h : ResponseHead) → IsWholeHead head.now.bytes.items head.now.parts h → p ≡ parts_of h) }
{
    let Ok(status) = StatusCode::from_u16(head.parts.found.code) else {
        unreachable!()
    };
    let version = if head.parts.found.version == 0 {
        Version::HTTP_10
    } else {
        Version::HTTP_11
    };
    let mut headers = HeaderMap::new(alloc);
    let spans = &head.parts.fields[..head.parts.found.headers];
    for span in spans {
        let (name, value) = (span.name.of(&head.bytes), span.value.of(&head.bytes));
        append_field(alloc, &mut headers, name, value)?;
    }
    Ok(Parts {
        status,
        version,
        headers,
    })
}

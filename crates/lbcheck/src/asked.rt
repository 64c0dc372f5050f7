//! What the arguments ask for, as the values that a check takes.
use clap::ArgMatches;
use http::header::HOST;
use http::method::MethodError;
use http::request::Parts;
use http::uri::UriError;
use http::{HeaderMap, HeaderName, HeaderValue, Method, Request, StatusCode, Uri};
use http_header::{HeaderNameError, HeaderValueError};
use lb_health_http::{AcceptStatus, HttpPeer, MAX_BODY_BYTES};
use lb_select_base::backend::{Backend, SocketAddr};
use lb_select_base::refusal::Refusal;
use std::alloc::Global;

// A millisecond, in nanoseconds.
const MILLISECOND: u128 = 1_000_000;

// How long a whole check may take unless another limit is given, in nanoseconds.
const TOTAL_TIMEOUT: u128 = 10_000_000_000;

/// Why nothing can be checked.
#[derive(Clone, Copy)]
pub(crate) enum Refused {
    Address,
    Status,
    Method,
    Path,
    Value,
    Colon,
    Name,
    OutOfMemory,
}

impl Refused {
    /// What is wrong, in a sentence.
    pub(crate) fn text(self) -> &'static str {
        match self {
            Refused::Address => "ADDR is no address: names are not looked up",
            Refused::Status => "STATUS is no number from 100 to 999",
            Refused::Method => "METHOD is no method",
            Refused::Path => "PATH is no path of a URI, which begins with a slash",
            Refused::Value => "HOST or VALUE has a byte that no field may have",
            Refused::Colon => "FIELD has no colon",
            Refused::Name => "NAME is no name of a field",
            Refused::OutOfMemory => "there was no memory for the check",
        }
    }
}

/// What is accepted, and the most bytes of a body.
#[derive(Clone, Copy)]
pub(crate) struct Accepted {
    pub validator: Option<AcceptStatus>,
    pub max_body_bytes: u64,
}

/// The backend at the address.
pub(crate) fn backend_of(alloc: Global, given: &ArgMatches<'_>) -> Result<Backend, Refused> {
    let text = given.get_str("address").unwrap_or("");
    match Backend::from_text(alloc, text, 1) {
        Ok(backend) => Ok(backend),
        Err(Refusal::OutOfMemory) => Err(Refused::OutOfMemory),
        Err(_) => Err(Refused::Address),
    }
}

/// What is accepted.
pub(crate) fn accepted_of(given: &ArgMatches<'_>) -> Result<Accepted, Refused> {
    let validator = match given.get_one::<u16>("accept") {
        None => None,
        Some(code) => match StatusCode::from_u16(code) {
            Ok(status) => Some(AcceptStatus(status)),
            Err(_) => return Err(Refused::Status),
        },
    };
    let max_body_bytes = given.get_one::<u64>("max-body").unwrap_or(MAX_BODY_BYTES);
    Ok(Accepted {
        validator,
        max_body_bytes,
    })
}

// A limit in nanoseconds, where one is given under that name.
fn limit_of(given: &ArgMatches<'_>, name: &str) -> Option<u128> {
    let milliseconds = given.get_one::<u64>(name)?;
    Some(milliseconds as u128 * MILLISECOND)
}

/// How long is waited for the peer.
pub(crate) fn peer_of(given: &ArgMatches<'_>) -> HttpPeer {
    let mut peer = HttpPeer::new();
    if let Some(limit) = limit_of(given, "timeout") {
        peer.connection_timeout = Some(limit);
        peer.read_timeout = Some(limit);
        peer.write_timeout = Some(limit);
    }
    peer.total_timeout = Some(limit_of(given, "total-timeout").unwrap_or(TOTAL_TIMEOUT));
    peer
}

/// The method.
pub(crate) fn method_of(alloc: Global, given: &ArgMatches<'_>) -> Result<Method, Refused> {
    let text = given.get_str("method").unwrap_or("GET");
    match Method::from_bytes(alloc, text.as_bytes()) {
        Ok(method) => Ok(method),
        Err(MethodError::Invalid) => Err(Refused::Method),
        Err(MethodError::OutOfMemory) => Err(Refused::OutOfMemory),
    }
}

// The path and query that are asked for.
fn target_of(alloc: Global, given: &ArgMatches<'_>) -> Result<Uri, Refused> {
    let text = given.get_str("path").unwrap_or("/");
    if !text.starts_with('/') {
        return Err(Refused::Path);
    }
    match Uri::from_str(alloc, text) {
        Ok(uri) => Ok(uri),
        Err(UriError::Invalid(_)) => Err(Refused::Path),
        Err(UriError::OutOfMemory) => Err(Refused::OutOfMemory),
    }
}

// A field's value.
fn value_of(alloc: Global, text: &str) -> Result<HeaderValue, Refused> {
    match HeaderValue::from_str(alloc, text) {
        Ok(value) => Ok(value),
        Err(HeaderValueError::Invalid) => Err(Refused::Value),
        Err(HeaderValueError::OutOfMemory) => Err(Refused::OutOfMemory),
    }
}

// Adds a field.
fn add(headers: &mut HeaderMap, name: HeaderName, value: HeaderValue) -> Result<(), Refused> {
    match headers.append(name, value) {
        Ok(_) => Ok(()),
        Err(_) => Err(Refused::OutOfMemory),
    }
}

// A field's name.
fn name_of(alloc: Global, text: &str) -> Result<HeaderName, Refused> {
    match HeaderName::from_bytes(alloc, text.as_bytes()) {
        Ok(name) => Ok(name),
        Err(HeaderNameError::Invalid) => Err(Refused::Name),
        Err(HeaderNameError::OutOfMemory) => Err(Refused::OutOfMemory),
    }
}

// Adds the field 'NAME: VALUE'.
fn add_field(alloc: Global, headers: &mut HeaderMap, text: &str) -> Result<(), Refused> {
    let Some((name, value)) = text.split_once(':') else {
        return Err(Refused::Colon);
    };
    let name = name_of(alloc, name)?;
    let value = value_of(alloc, value.trim())?;
    add(headers, name, value)
}

// Adds the fields that are given.
fn add_fields(
    alloc: Global,
    headers: &mut HeaderMap,
    given: &ArgMatches<'_>,
) -> Result<(), Refused> {
    if let Some(fields) = given.get_strs("header") {
        for field in fields {
            add_field(alloc, headers, field)?;
        }
    }
    Ok(())
}

// The host that is asked where none is given: the address, and for a Unix socket `localhost`.
fn host_of<'a>(given: &ArgMatches<'a>, backend: &Backend) -> &'a str {
    match given.get_str("host") {
        Some(host) => host,
        None => match backend.addr {
            SocketAddr::Inet(_) => given.get_str("address").unwrap_or(""),
            SocketAddr::Unix(_) => "localhost",
        },
    }
}

// Sets what is asked.
fn ask(
    alloc: Global,
    parts: &mut Parts,
    given: &ArgMatches<'_>,
    backend: &Backend,
) -> Result<(), Refused> {
    parts.method = method_of(alloc, given)?;
    parts.uri = target_of(alloc, given)?;
    let host = value_of(alloc, host_of(given, backend))?;
    add(&mut parts.headers, HOST, host)?;
    add_fields(alloc, &mut parts.headers, given)
}

/// The request.
pub(crate) fn request_of(
    alloc: Global,
    given: &ArgMatches<'_>,
    backend: &Backend,
) -> Result<Request<()>, Refused> {
    let mut parts = Parts::new(alloc);
    ask(alloc, &mut parts, given, backend)?;
    Ok(Request::from_parts(parts, ()))
}

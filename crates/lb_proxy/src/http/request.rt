//! The head of a request.
ghost use Rattle.std.specs.Prelude.{true, false, ◌≡◌, ◌≢◌, ◌&&◌, ◌≤◌, ◌<◌, ℕ, List, ◌++◌, Ok, Err, None, All, IfOk, IfErr, IfSome, OnErr};
ghost use Rattle.std.specs.Prelude.{MatchBool, bytes_eq, codes, length, map, take, slice_range};
ghost use Rattle.std.specs.List.{list_all, list_any};
ghost use Rattle.httparse.specs.Grammar.{HasNoRequest, MayBecomeRequest};
ghost use Rattle.httparse.specs.Spans.{header_bytes, IsHeaderWithin, IsRequestWithin, IsRequestOf, span_bytes};
ghost use Rattle.lb_proxy.specs.Http.Fields.{values_of, options_of, is_guarded};
ghost use Rattle.lb_proxy.specs.Http.Framing.{keeps_by, has_no_body, is_idempotent, request_framing, statement_of};
ghost use Rattle.lb_proxy.specs.Http.Heads.{HasStrictFeeds, plain, version_of, is_host_byte, right_host, is_right_target, IsRequest};
ghost use Rattle.lb_proxy.specs.Internal.RefusedSpans.{RefusesAt};
ghost use Rattle.lb_proxy.specs.Http.Refusals.{asks_more, names_other_version, Refuses};

use crate::http::fault::Fault;
use crate::http::field::{Field, Found, connection_options, find_one, is_option, names_guarded};
use crate::http::framing::{Framing, Stated, Version, statement_of};
use crate::http::version::names_other_version;
use httparse::spans::{EMPTY_HEADER_SPAN, HeaderSpan, RequestSpans, parse_request};
use httparse::{Error, Status};
use std::alloc::{AllocError, Global};

/// The most bytes that a head may have.
pub const HEAD_LIMIT: usize = 65536;

/// The most fields that a head may have.
pub const FIELD_LIMIT: usize = 100;

/// The head of a request that may be passed on.
#[derive(Drop)]
pub struct RequestHead<'a> {
    pub method: &'a [u8],
    /// A path with its query, or `*`.
    pub target: &'a [u8],
    pub version: Version,
    /// In the order in which they came.
    pub fields: Vec<Field<'a>>,
    /// What the `Connection` fields say.
    pub options: Vec<&'a [u8]>,
    /// How many bytes the head has; the body begins behind them.
    pub length: usize,
    pub framing: Framing,
}

/// What has to be known of a request until its answer is passed on.
#[derive(Clone, Copy)]
pub struct Asked {
    /// Whether the head of an answer is asked for alone.
    pub is_head: bool,
    pub version: Version,
    /// Whether the client's connection is kept after the answer.
    pub keeps: bool,
    /// Whether the request may be sent once more.
    pub may_repeat: bool,
}

impl RequestHead<'_> {
    /// Returns what has to be known of the request until its answer is passed on.
    pub fn asked(&self) -> Asked
        ensures is_head { result.is_head ≡ bytes_eq self.now.method.now (codes "HEAD") }
        ensures version { result.version ≡ self.now.version }
        ensures keeps { result.keeps ≡ keeps_by self.now.version self.now.options.items }
        ensures may_repeat { result.may_repeat ≡ (has_no_body self.now.framing && is_idempotent self.now.method.now) }
    {
        Asked {
            is_head: self.method == b"HEAD".as_slice(),
            version: self.version,
            keeps: keeps(self.version, &self.options),
            may_repeat: has_no_body(self.framing) && is_idempotent(self.method),
        }
    }

    /// Returns the value of the first field of that name, in whatever case.
    pub fn value(&self, name: &[u8]) -> Option<&[u8]> {
        for field in &self.fields {
            if field.is(name) {
                return Some(field.value);
            }
        }
        None
    }
}

/// Returns whether a connection goes on after a message of that version with these options.
pub(crate) fn keeps(version: Version, options: &[&[u8]]) -> bool
    ensures { result ≡ keeps_by version options.now }
{
    match version {
        Version::Http10 => !is_option(options, b"close") && is_option(options, b"keep-alive"),
        Version::Http11 => !is_option(options, b"close"),
    }
}

// Whether there is no byte of a body.
fn has_no_body(framing: Framing) -> bool
    ensures { result ≡ has_no_body framing }
{
    match framing {
        Framing::Nothing => true,
        Framing::Sized(length) => length == 0,
        Framing::Chunked | Framing::UntilClose => false,
    }
}

// Whether a request of that method does no more when it comes twice.
#[tactic(auto, unfolding(crate::specs::Http::Framing::is_idempotent))]
fn is_idempotent(method: &[u8]) -> bool
    ensures { result ≡ is_idempotent method.now }
{
    method == b"GET".as_slice()
        || method == b"HEAD".as_slice()
        || method == b"OPTIONS".as_slice()
        || method == b"TRACE".as_slice()
        || method == b"PUT".as_slice()
        || method == b"DELETE".as_slice()
}

/// Returns whether a line feed is there without a carriage return before it.
pub(crate) fn has_bare_feed(bytes: &[u8]) -> bool
    ensures { MatchBool result (¬ (HasStrictFeeds bytes.now)) (HasStrictFeeds bytes.now) }
{
    for (index, byte) in bytes.iter().enumerate() {
        if *byte == b'\n' && (index == 0 || bytes[index - 1] != b'\r') {
            return true;
        }
    }
    false
}

/// Copies where the fields are into fields.
pub(crate) fn fields_at<'a>(
    alloc: Global,
    bytes: &'a [u8],
    spans: &[HeaderSpan],
) -> Result<Vec<Field<'a>>, AllocError>
    requires { All (IsHeaderWithin (length bytes.now)) spans.now }
    ensures copied { IfOk result (λ fields. map plain fields.items ≡ map (header_bytes bytes.now) spans.now) }
    ensures memory { OnErr result (0 < length spans.now) }
{
    let mut fields: Vec<Field<'a>> = Vec::new(alloc);
    for span in spans {
        fields.push(Field {
            name: span.name.of(bytes),
            value: span.value.of(bytes),
        })?;
    }
    Ok(fields)
}

/// Returns the version of that minor number.
pub(crate) fn version_of(minor: u8) -> Version
    ensures { result ≡ version_of minor }
{
    if minor == 0 {
        Version::Http10
    } else {
        Version::Http11
    }
}

// Whether the byte may be in the name of a host, or in its port.
#[tactic(auto, unfolding(crate::specs::Http::Heads::is_host_byte))]
fn is_host_byte(byte: u8) -> bool
    ensures { result ≡ is_host_byte byte }
{
    byte.is_ascii_alphanumeric() || b"-._~%!$&'()*+;=:[]".contains(&byte)
}

// Whether the value names a host, perhaps with a port.
fn is_host(value: &[u8]) -> bool
    ensures { result ≡ list_all is_host_byte value.now }
{
    value.iter().all(|byte| is_host_byte(*byte))
}

// Whether the host is named as the version wants it: once, at most once in HTTP/1.0.
fn has_right_host(version: Version, fields: &[Field<'_>]) -> bool
    ensures { result ≡ right_host version (values_of (codes "host") fields.now) }
{
    match find_one(fields, b"host") {
        Found::Absent => match version {
            Version::Http10 => true,
            Version::Http11 => false,
        },
        Found::One(value) => is_host(value),
        Found::Many => false,
    }
}

// Whether the target is a path, or `*` where the method takes it.
fn is_right_target(method: &[u8], target: &[u8]) -> bool
    ensures { result ≡ is_right_target method.now target.now }
{
    if target.is_empty() {
        return false;
    }
    if target[0] == b'/' {
        return true;
    }
    target == b"*".as_slice() && method == b"OPTIONS".as_slice()
}

// How what is stated frames the body of a request.
fn request_framing(stated: Stated) -> Result<Framing, Fault>
    ensures { result ≡ request_framing stated }
{
    match stated {
        Stated::Silent => Ok(Framing::Nothing),
        Stated::Length(length) => Ok(Framing::Sized(length)),
        Stated::Chunks => Ok(Framing::Chunked),
        Stated::Coded => Err(Fault::NotImplemented),
        Stated::Ambiguous => Err(Fault::BadRequest),
    }
}

// Whether the request asks for what isn't there: a transfer coding other than chunked, or a tunnel.
fn asks_more(stated: Stated, method: &[u8]) -> bool
    ensures { result ≡ asks_more stated method.now }
{
    match stated {
        Stated::Coded => true,
        Stated::Ambiguous => false,
        Stated::Silent | Stated::Length(_) | Stated::Chunks => method == b"CONNECT".as_slice(),
    }
}

// The head whose parts were found there.
fn head_at<'a>(
    alloc: Global,
    bytes: &'a [u8],
    found: &RequestSpans,
    spans: &[HeaderSpan],
) -> Result<RequestHead<'a>, Fault>
    requires within { IsRequestWithin bytes.now spans.now found.now }
    requires complete { IsRequestOf bytes.now spans.now found.now }
    requires room { length spans.now ≤ 100 }
    ensures length { IfOk result (λ head. head.length ≡ found.now.len) }
    ensures short { IfOk result (λ head. head.length ≤ 65536) }
    ensures strict { IfOk result (λ head. HasStrictFeeds (take head.length bytes.now)) }
    ensures method { IfOk result (λ head. head.method.now ≡ span_bytes bytes.now found.now.method) }
    ensures target { IfOk result (λ head. head.target.now ≡ span_bytes bytes.now found.now.path) }
    ensures version { IfOk result (λ head. head.version ≡ version_of found.now.version) }
    ensures fields { IfOk result (λ head. map plain head.fields.items ≡ map (header_bytes bytes.now) (take found.now.headers spans.now)) }
    ensures options { IfOk result (λ head. map (λ o. o.now) head.options.items ≡ options_of head.fields.items) }
    ensures framed { IfOk result (λ head. request_framing (statement_of head.version head.fields.items) ≡ Ok head.framing) }
    ensures unguarded { IfOk result (λ head. list_any (λ o. is_guarded o.now) head.options.items ≡ false) }
    ensures host { IfOk result (λ head. right_host head.version (values_of (codes "host") head.fields.items) ≡ true) }
    ensures right { IfOk result (λ head. is_right_target head.method.now head.target.now ≡ true) }
    ensures few { IfOk result (λ head. length head.fields.items ≤ 100) }
    ensures no_tunnel { IfOk result (λ head. bytes_eq head.method.now (codes "CONNECT") ≡ false) }
    ensures why { IfErr result (RefusesAt bytes.now spans.now found.now) }
    ensures refused { IfErr result (λ fault. fault ≢ Fault.Unavailable
        → (more : List ℕ) (head : RequestHead) → ¬ (IsRequest (bytes.now ++ more) head)) }
{
    if found.len > HEAD_LIMIT {
        return Err(Fault::HeadTooLarge);
    }
    if has_bare_feed(&bytes[..found.len]) {
        return Err(Fault::BadRequest);
    }
    let Ok(fields) = fields_at(alloc, bytes, &spans[..found.headers]) else {
        return Err(Fault::Unavailable);
    };
    let Ok(options) = connection_options(alloc, &fields) else {
        return Err(Fault::Unavailable);
    };
    let version = version_of(found.version);
    let stated = statement_of(version, &fields);
    let method = found.method.of(bytes);
    let target = found.path.of(bytes);
    if asks_more(stated, method) {
        return Err(Fault::NotImplemented);
    }
    let Ok(framing) = request_framing(stated) else {
        return Err(Fault::BadRequest);
    };
    if names_guarded(&options) {
        return Err(Fault::BadRequest);
    }
    if !has_right_host(version, &fields) {
        return Err(Fault::BadRequest);
    }
    if !is_right_target(method, target) {
        return Err(Fault::BadRequest);
    }
    Ok(RequestHead {
        method,
        target,
        version,
        fields,
        options,
        length: found.len,
        framing,
    })
}

/// Reads the head of a request at the front of the bytes; `None` where it isn't whole yet.
///
/// Refused `VersionNotSupported` where the request line names another version with its two digits (RFC 9110 section 15.6.6);
/// `HeadTooLarge` above `HEAD_LIMIT` bytes or `FIELD_LIMIT` fields (RFC 6585 section 5); `NotImplemented` for a transfer coding other than
/// chunked (RFC 9112 section 6.1) and for `CONNECT`; and `BadRequest` where the head is malformed or can be understood in two ways. Within
/// the limits a whole head that has a field may also be refused `Unavailable`, where memory is short. But for that, bytes that may become a
/// head that may be passed on are never refused.
pub fn read_request(alloc: Global, bytes: &[u8]) -> Result<Option<RequestHead<'_>>, Fault>
    ensures whole { IfOk result (λ read. IfSome read (IsRequest bytes.now)) }
    ensures open { result ≡ Ok None → HasNoRequest bytes.now }
    ensures refused { IfErr result (λ fault. fault ≢ Fault.Unavailable
        → (more : List ℕ) (head : RequestHead) → ¬ (IsRequest (bytes.now ++ more) head)) }
    ensures short { result ≡ Ok None → length bytes.now < 65536 }
    ensures strict { result ≡ Ok None → HasStrictFeeds bytes.now }
    ensures unfinished { result ≡ Ok None → MayBecomeRequest bytes.now }
    ensures other { names_other_version bytes.now ≡ true → result ≡ Err Fault.VersionNotSupported }
    ensures why { IfErr result (Refuses bytes.now) }
{
    if names_other_version(bytes) {
        return Err(Fault::VersionNotSupported);
    }
    let mut spans = [EMPTY_HEADER_SPAN; FIELD_LIMIT];
    match parse_request(bytes, &mut spans) {
        Ok(Status::Complete(found)) => match head_at(alloc, bytes, &found, &spans) {
            Ok(head) => Ok(Some(head)),
            Err(fault) => Err(fault),
        },
        Ok(Status::Partial) => {
            if bytes.len() >= HEAD_LIMIT {
                return Err(Fault::HeadTooLarge);
            }
            if has_bare_feed(bytes) {
                return Err(Fault::BadRequest);
            }
            Ok(None)
        }
        Err(Error::TooManyHeaders) => Err(Fault::HeadTooLarge),
        Err(_) => Err(Fault::BadRequest),
    }
}

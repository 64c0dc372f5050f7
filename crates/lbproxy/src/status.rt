//! The status page: what the pools and their backends are doing, for a person, as JSON, and as Prometheus reads it; and the flags of
//! backends, which a request from this machine sets.

use crate::flag::set_flag;
use crate::group::PoolGroup;
use crate::proxy::Proxy;
use crate::render::{json_text, metrics_text, page_text, text};
use crate::shown::{Shown, shown_of};
use log::{Log, warn};
use std::alloc::Global;
use std::io::{Read, Write};
use std::net::TcpStream;
use std::sync::Wait;
use std::time::Duration;
use std::{io, str};

// The most bytes of a request that are read.
const REQUEST: usize = 4096;

// How long a read or a write of the page may take, in seconds.
const LIMIT: u64 = 1;

// The statuses of answers.
const FINE: &str = "200 OK";

const BUSY: &str = "503 Service Unavailable";

const ABSENT: &str = "404 Not Found";

const REFUSED: &str = "403 Forbidden";

// An answer: its status, the kind of its body, and its body.
#[derive(Drop)]
struct Page {
    status: &'static str,
    kind: &'static str,
    body: Vec<u8>,
}

// What a request asks for, by its target.
#[derive(Clone, Copy)]
enum Asked<'h> {
    Get(&'h str),
    Put(&'h str),
    Other,
}

/// Answers one request. One that comes from this machine may set a flag.
pub fn serve_page<R: Log + Wait, G: PoolGroup>(
    rt: &R,
    alloc: Global,
    proxy: &Proxy<G>,
    mut stream: TcpStream,
    is_local: bool,
) {
    if let Err(error) = answer(rt, alloc, proxy, &mut stream, is_local) {
        warn!(rt; "status page: {error}");
    }
}

// Reads a request and answers it.
fn answer<R: Log + Wait, G: PoolGroup>(
    rt: &R,
    alloc: Global,
    proxy: &Proxy<G>,
    stream: &mut TcpStream,
    is_local: bool,
) -> io::Result<()> {
    set_limits(stream)?;
    let head = read_head(alloc, stream)?;
    let page = match asked_of(head.as_slice()) {
        Asked::Get(target) => page_of(rt, alloc, proxy, target),
        Asked::Put(target) if is_local => flag_page(rt, alloc, proxy, target),
        Asked::Put(_) => plain(alloc, REFUSED, "a flag is set from this machine alone\n"),
        Asked::Other => plain(alloc, ABSENT, "nothing is there\n"),
    };
    write_page(alloc, stream, &page?)
}

// Has each read and each write wait, but not for long.
fn set_limits(stream: &TcpStream) -> io::Result<()> {
    stream.set_nonblocking(false)?;
    stream.set_read_timeout(Some(Duration::from_secs(LIMIT)))?;
    stream.set_write_timeout(Some(Duration::from_secs(LIMIT)))
}

// Writes an answer.
fn write_page(alloc: Global, stream: &mut TcpStream, page: &Page) -> io::Result<()> {
    let Page { status, kind, body } = page;
    let length = body.len();
    let first = format!(in alloc; "HTTP/1.1 {status}\r\nContent-Type: {kind}\r\n")?;
    let last = format!(in alloc; "Content-Length: {length}\r\nConnection: close\r\n\r\n")?;
    stream.write_all(first.as_bytes())?;
    stream.write_all(last.as_bytes())?;
    stream.write_all(body.as_slice())
}

// Reads up to the blank line, or as much as is read of a request.
fn read_head(alloc: Global, stream: &mut TcpStream) -> io::Result<Vec<u8>> {
    let mut head = Vec::new(alloc);
    let mut buffer = [0u8; 1024];
    for _ in 0..REQUEST {
        let count = stream.read(&mut buffer)?;
        head.extend_from_slice(&buffer[..count])?;
        if count == 0 || head.len() >= REQUEST || head.as_slice().ends_with(b"\r\n\r\n") {
            break;
        }
    }
    Ok(head)
}

// What a request asks for, by the first words of its head.
fn asked_of(head: &[u8]) -> Asked<'_> {
    let Ok(text) = str::from_utf8(head) else {
        return Asked::Other;
    };
    let Some((method, rest)) = text.split_once(' ') else {
        return Asked::Other;
    };
    match (method, rest.split_once(' ')) {
        ("GET", Some((target, _))) => Asked::Get(target),
        ("PUT", Some((target, _))) => Asked::Put(target),
        _ => Asked::Other,
    }
}

// An answer of one line.
fn plain(alloc: Global, status: &'static str, line: &str) -> io::Result<Page> {
    Ok(Page {
        status,
        kind: "text/plain",
        body: text(alloc, line)?,
    })
}

// Sets the flag that a target names, and says so.
fn flag_page<R: Log + Wait, G: PoolGroup>(
    rt: &R,
    alloc: Global,
    proxy: &Proxy<G>,
    target: &str,
) -> io::Result<Page> {
    match set_flag(rt, alloc, proxy, target) {
        Ok(true) => plain(alloc, FINE, "set\n"),
        Ok(false) => plain(alloc, ABSENT, "no such backend\n"),
        Err(_) => Err(io::ErrorKind::OutOfMemory.into()),
    }
}

// The answer for a target.
fn page_of<R: Log + Wait, G: PoolGroup>(
    rt: &R,
    alloc: Global,
    proxy: &Proxy<G>,
    target: &str,
) -> io::Result<Page> {
    match shown_of(rt, alloc, proxy) {
        Ok(shown) => page_at(alloc, &shown, target),
        Err(_) => Err(io::ErrorKind::OutOfMemory.into()),
    }
}

// The answer for a target, by what is to be shown.
fn page_at(alloc: Global, shown: &Shown, target: &str) -> io::Result<Page> {
    let (status, kind, body) = match target {
        "/" => (FINE, "text/html; charset=utf-8", page_text(alloc, shown)?),
        "/status.json" => (FINE, "application/json", json_text(alloc, shown)?),
        "/metrics" => (
            FINE,
            "text/plain; version=0.0.4",
            metrics_text(alloc, shown)?,
        ),
        "/health" if shown.is_ready() => (FINE, "text/plain", text(alloc, "ready\n")?),
        "/health" => (BUSY, "text/plain", text(alloc, "no pool is ready\n")?),
        _ => (ABSENT, "text/plain", text(alloc, "nothing is there\n")?),
    };
    Ok(Page { status, kind, body })
}

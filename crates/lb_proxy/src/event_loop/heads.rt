//! Heads as the loop needs them: read from what came, and written for the other side.

use crate::http::fault::Fault;
use crate::http::framing::{Framing, Version};
use crate::http::request::{Asked, RequestHead, read_request};
use crate::http::response::read_response;
use crate::http::write::{write_request, write_response};
use crate::key::Key;
use std::alloc::{AllocError, Global};
use std::io;
use std::net::{IpAddr, SocketAddr};

/// A request whose head was read.
#[derive(Clone, Copy)]
pub struct Request {
    pub asked: Asked,
    pub framing: Framing,
    /// How many bytes the head has.
    pub length: usize,
}

/// An answer whose head was read.
#[derive(Clone, Copy)]
pub struct Answer {
    /// Whether another answer to the same request follows.
    pub is_interim: bool,
    pub keeps_backend: bool,
    pub keeps_client: bool,
    pub framing: Framing,
    /// How many bytes the head has.
    pub length: usize,
}

/// What a client is known by: the octets of its address, and its text.
#[derive(Drop)]
pub struct Client {
    pub octets: Vec<u8>,
    pub text: String,
}

impl Client {
    /// Returns what a client with this address is known by.
    pub fn of(alloc: Global, address: SocketAddr) -> io::Result<Client> {
        let ip = address.ip();
        Ok(Client {
            octets: source_of(alloc, address)?,
            text: format!(in alloc; "{ip}")?,
        })
    }
}

/// Returns the octets of an address.
pub fn source_of(alloc: Global, address: SocketAddr) -> io::Result<Vec<u8>> {
    let mut source = Vec::new(alloc);
    match address.ip() {
        IpAddr::V4(ip) => source.extend_from_slice(&ip.octets())?,
        IpAddr::V6(ip) => source.extend_from_slice(&ip.octets())?,
    }
    Ok(source)
}

/// What is asked by a request that wasn't read.
pub const NOTHING: Asked = Asked {
    is_head: false,
    version: Version::Http11,
    keeps: false,
    may_repeat: false,
};

/// Reads the head of a request at the front of the bytes; `None` where it isn't whole yet. Writes the head for a backend, and the bytes of
/// the key, in place of what was there.
pub fn take_request(
    alloc: Global,
    bytes: &[u8],
    client: &Client,
    key: Key<'_>,
    out: &mut Vec<u8>,
    key_bytes: &mut Vec<u8>,
) -> Result<Option<Request>, Fault> {
    let head = match read_request(alloc, bytes) {
        Ok(Some(head)) => head,
        Ok(None) => return Ok(None),
        Err(fault) => return Err(fault),
    };
    match write_all(&head, client, key, out, key_bytes) {
        Ok(()) => Ok(Some(Request {
            asked: head.asked(),
            framing: head.framing,
            length: head.length,
        })),
        Err(_) => Err(Fault::Unavailable),
    }
}

// Writes the head for a backend, and the bytes of the key.
fn write_all(
    head: &RequestHead<'_>,
    client: &Client,
    key: Key<'_>,
    out: &mut Vec<u8>,
    key_bytes: &mut Vec<u8>,
) -> Result<(), AllocError> {
    out.clear();
    key_bytes.clear();
    let field = match key {
        Key::Header(name) => head.value(name.as_bytes()),
        Key::Source | Key::Uri => None,
    };
    key_bytes.extend_from_slice(key.bytes(client.octets.as_slice(), head.target, field))?;
    write_request(head, client.text.as_bytes(), out)
}

/// Reads the head of an answer at the front of the bytes; `None` where it isn't whole yet. Adds the head for the client to what was
/// written for it; `keeps` says whether its connection may go on.
pub fn take_answer(
    alloc: Global,
    bytes: &[u8],
    asked: Asked,
    keeps: bool,
    out: &mut Vec<u8>,
) -> Result<Option<Answer>, Fault> {
    let head = match read_response(alloc, bytes, asked) {
        Ok(Some(head)) => head,
        Ok(None) => return Ok(None),
        Err(fault) => return Err(fault),
    };
    let answer = Answer {
        is_interim: head.is_interim(),
        keeps_backend: head.keeps(),
        keeps_client: keeps && head.keeps_client(asked),
        framing: head.framing,
        length: head.length,
    };
    if answer.is_interim && asked.version == Version::Http10 {
        return Ok(Some(answer));
    }
    match write_response(&head, asked, answer.keeps_client, out) {
        Ok(()) => Ok(Some(answer)),
        Err(_) => Err(Fault::Unavailable),
    }
}

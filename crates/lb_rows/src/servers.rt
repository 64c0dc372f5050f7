//! Checks of servers on the own loopback: each serves one connection in a thread of its own.
ghost use Rattle.std.specs.Prelude.{◌==◌};

use crate::server_tables::{By, Place, Server, Serves};
use http::header::USER_AGENT;
use http::response::Parts;
use http_header::{HeaderMap, HeaderValue};
use lb_health_core::error::CheckError;
use lb_health_core::health_check::{HealthCheck, IdentitySummary};
use lb_health_http::{HttpHealthCheck, HttpPeer, NoObserver, TcpHealthCheck, Validate};
use lb_select_base::backend::Backend;
use std::alloc::Global;
use std::io::{self, Error, ErrorKind, Read, Write};
use std::net::{Net, SocketAddr, TcpListener, TcpStream};
use std::os::unix::net::UnixListener;
use std::rt::{Clock, Files};
use std::thread::{Threads, join, sleep};
use std::time::{Duration, Instant};

// How long a check waits for a read, and for a write that is to fail, in nanoseconds.
const TIMEOUT: u128 = 300_000_000;

// More connections than a listener holds that takes none.
const MOST_HELD: u32 = 900;

// By when a check has to be over, in seconds.
const LATEST: u64 = 10;

/// Whether the row's check answers as the row says, in time.
pub(crate) fn agrees<R>(rt: &R, row: &Server) -> io::Result<bool>
where
    R: Net<Listener = TcpListener, Stream = TcpStream>
        + Threads
        + Clock
        + Files
        + Sync
        + AllocGlobal,
{
    match row.place {
        Place::Port => at_port(rt, row, false),
        Place::CheckPort => at_port(rt, row, true),
        Place::FullPort => at_full_port(rt, row),
        Place::ClosedPort => where_none_listens(rt, row, backend_at_closed_port(rt)),
        Place::Path(path) => at_path(rt, row, path, None),
        Place::PathAndPort(path) => at_path(rt, row, path, Some(1)),
        Place::NoPath(path) => where_none_listens(rt, row, backend_behind(rt.alloc(), path)),
    }
}

// Whether the check of a backend without a server agrees.
fn where_none_listens<R: Net<Stream = TcpStream> + Clock + AllocGlobal>(
    rt: &R,
    row: &Server,
    backend: io::Result<Backend>,
) -> io::Result<bool> {
    match backend {
        Ok(backend) => check_agrees(rt, row, &backend, None),
        Err(error) => Err(error),
    }
}

/// A backend at a port where nobody listens.
pub(crate) fn backend_at_closed_port<R>(rt: &R) -> io::Result<Backend>
where
    R: Net<Listener = TcpListener, Stream = TcpStream> + AllocGlobal,
{
    let port = closed_port(rt)?;
    backend_at(rt.alloc(), port)
}

// A port where nobody listens.
fn closed_port<R: Net<Listener = TcpListener, Stream = TcpStream>>(rt: &R) -> io::Result<u16> {
    Ok(TcpListener::bind(rt, "127.0.0.1:0")?.local_addr()?.port())
}

/// The backend at that port.
pub(crate) fn backend_at(alloc: Global, port: u16) -> io::Result<Backend> {
    match Backend::new(alloc, format!(in alloc; "127.0.0.1:{port}")?.as_str()) {
        Ok(backend) => Ok(backend),
        Err(_) => Err(Error::from(ErrorKind::Other)),
    }
}

// Whether the check of a listener agrees that holds as many connections as it can, none of which is taken.
fn at_full_port<R>(rt: &R, row: &Server) -> io::Result<bool>
where
    R: Net<Listener = TcpListener, Stream = TcpStream> + Clock + AllocGlobal,
{
    let listener = TcpListener::bind(rt, "127.0.0.1:0")?;
    let addr = listener.local_addr()?;
    let _held = connections_to(rt, &addr)?;
    where_none_listens(rt, row, backend_at(rt.alloc(), addr.port()))
}

// Connections to that address, until one more isn't made in 200 ms: a listener of std holds some 130.
fn connections_to<R: Net<Stream = TcpStream> + AllocGlobal>(
    rt: &R,
    addr: &SocketAddr,
) -> io::Result<Vec<TcpStream>> {
    let mut held = Vec::new(rt.alloc());
    for _ in 0..MOST_HELD {
        match TcpStream::connect_timeout(rt, addr, Duration::from_millis(200)) {
            Ok(stream) => held.push(stream)?,
            Err(_) => break,
        }
    }
    Ok(held)
}

// The backend behind that Unix socket.
fn backend_behind(alloc: Global, path: &str) -> io::Result<Backend> {
    match Backend::unix(alloc, path, 1) {
        Ok(backend) => Ok(backend),
        Err(_) => Err(Error::from(ErrorKind::Other)),
    }
}

// How many bytes a trickle has at most.
const TRICKLE: u32 = 1000;

// Writes a byte each 100 ms until the other side closes.
fn trickle<C: Clock, S: Write>(clock: &C, stream: &mut S) -> io::Result<()> {
    for _ in 0..TRICKLE {
        sleep(clock, Duration::from_millis(100));
        stream.write_all(b"x")?;
    }
    Ok(())
}

// Serves a connection that was made.
fn serve<C: Clock, S: Read + Write>(clock: &C, stream: &mut S, serves: Serves) -> io::Result<()> {
    let mut request = [0u8; 512];
    let _ = stream.read(&mut request)?;
    match serves {
        Serves::Answer(bytes) => stream.write_all(bytes),
        Serves::Drops(bytes) => {
            for byte in bytes {
                stream.write_all(&[*byte])?;
            }
            Ok(())
        }
        Serves::Trickle(bytes) => {
            stream.write_all(bytes)?;
            trickle(clock, stream)
        }
        Serves::Silence => {
            let _ = stream.read(&mut request)?;
            Ok(())
        }
        Serves::Nothing => Ok(()),
    }
}

// Serves one connection over TCP, if any.
fn serve_tcp<C: Clock>(clock: &C, listener: &TcpListener, serves: Serves) -> io::Result<()> {
    if matches!(&serves, Serves::Nothing) {
        return Ok(());
    }
    let (stream, _) = listener.accept()?;
    serve(clock, &mut &stream, serves)
}

// Serves one connection over a Unix socket, if any.
fn serve_unix<C: Clock>(clock: &C, listener: &UnixListener, serves: Serves) -> io::Result<()> {
    if matches!(&serves, Serves::Nothing) {
        return Ok(());
    }
    let (stream, _) = listener.accept()?;
    serve(clock, &mut &stream, serves)
}

// Whether the check of a server at a port agrees: at the backend's, or at that of the check alone. What owns the listener makes
// one call.
fn at_port<R>(rt: &R, row: &Server, of_check: bool) -> io::Result<bool>
where
    R: Net<Listener = TcpListener, Stream = TcpStream> + Threads + Clock + Sync + AllocGlobal,
{
    let listener = TcpListener::bind(rt, "127.0.0.1:0")?;
    at_listener(rt, row, &listener, of_check)
}

// The same of the server of that listener.
fn at_listener<R>(rt: &R, row: &Server, listener: &TcpListener, of_check: bool) -> io::Result<bool>
where
    R: Net<Listener = TcpListener, Stream = TcpStream> + Threads + Clock + Sync + AllocGlobal,
{
    let port = listener.local_addr()?.port();
    let backend = backend_at(rt.alloc(), if of_check { 1 } else { port })?;
    let own = if of_check { Some(port) } else { None };
    let (_served, agreed) = join(
        rt,
        || serve_tcp(rt, listener, row.serves),
        || check_agrees(rt, row, &backend, own),
    );
    agreed
}

// Whether the check of a server behind a Unix socket agrees, with that port of its own. What owns the backend makes one call.
fn at_path<R>(rt: &R, row: &Server, path: &str, port: Option<u16>) -> io::Result<bool>
where
    R: Net<Listener = TcpListener, Stream = TcpStream>
        + Threads
        + Clock
        + Files
        + Sync
        + AllocGlobal,
{
    let backend = backend_behind(rt.alloc(), path)?;
    behind_path(rt, row, path, &backend, port)
}

// The same of that backend.
fn behind_path<R>(
    rt: &R,
    row: &Server,
    path: &str,
    backend: &Backend,
    port: Option<u16>,
) -> io::Result<bool>
where
    R: Net<Listener = TcpListener, Stream = TcpStream>
        + Threads
        + Clock
        + Files
        + Sync
        + AllocGlobal,
{
    let listener = UnixListener::bind(rt, path)?;
    let (_served, agreed) = join(
        rt,
        || serve_unix(rt, &listener, row.serves),
        || check_agrees(rt, row, backend, port),
    );
    agreed
}

// Whether the row's check of that backend answers as the row says, in time.
fn check_agrees<R: Net<Stream = TcpStream> + Clock + AllocGlobal>(
    rt: &R,
    row: &Server,
    backend: &Backend,
    port: Option<u16>,
) -> io::Result<bool> {
    match row.by {
        By::Http => http_check_agrees(rt, row, backend, port),
        By::HttpMoved => moved_check_agrees(rt, row, backend),
        By::Tcp => timed_check_agrees(rt, &TcpHealthCheck::new(rt), row, backend),
    }
}

// The same of a check over HTTP. What owns the check makes one call.
fn http_check_agrees<R: Net<Stream = TcpStream> + Clock + AllocGlobal>(
    rt: &R,
    row: &Server,
    backend: &Backend,
    port: Option<u16>,
) -> io::Result<bool> {
    match HttpHealthCheck::new(rt.alloc(), rt, "h") {
        Ok(mut check) => set_check_agrees(rt, &mut check, row, backend, port),
        Err(_) => Err(Error::from(ErrorKind::OutOfMemory)),
    }
}

// The rule that accepts 301 and no other status.
#[derive(Drop)]
struct Moved;

impl Validate for Moved {
    ghost accepts = { λ _ p. p.status == 301 };

    fn validate(&self, head: &Parts) -> bool {
        head.status.as_u16() == 301
    }
}

// The same of a check over HTTP by that rule, with the limits that it is made with.
fn moved_check_agrees<R: Net<Stream = TcpStream> + Clock + AllocGlobal>(
    rt: &R,
    row: &Server,
    backend: &Backend,
) -> io::Result<bool> {
    match HttpHealthCheck::new(rt.alloc(), rt, "h") {
        Ok(check) => {
            let check = check.with_callbacks(Some(Moved), None::<NoObserver>, IdentitySummary);
            timed_check_agrees(rt, &check, row, backend)
        }
        Err(_) => Err(Error::from(ErrorKind::OutOfMemory)),
    }
}

// Sets the check as the row and the port ask; whether it answers so.
fn set_check_agrees<R: Net<Stream = TcpStream> + Clock + AllocGlobal>(
    rt: &R,
    check: &mut HttpHealthCheck<&R>,
    row: &Server,
    backend: &Backend,
    port: Option<u16>,
) -> io::Result<bool> {
    check.peer_template = HttpPeer {
        connection_timeout: None,
        read_timeout: Some(TIMEOUT),
        write_timeout: Some(TIMEOUT),
        total_timeout: row.total_timeout,
    };
    check.port_override = port;
    if row.field_bytes > 0 {
        append_field(rt.alloc(), check.req.headers_mut(), row.field_bytes)?;
    }
    timed_check_agrees(rt, check, row, backend)
}

// Appends a field of so many bytes.
fn append_field(alloc: Global, headers: &mut HeaderMap, count: usize) -> io::Result<()> {
    let many = vec![in alloc; b'x'; count]?;
    let Ok(value) = HeaderValue::from_bytes(alloc, &many) else {
        return Err(Error::from(ErrorKind::OutOfMemory));
    };
    match headers.append(USER_AGENT, value) {
        Ok(_) => Ok(()),
        Err(_) => Err(Error::from(ErrorKind::OutOfMemory)),
    }
}

// Whether a check answers as the row says, in time.
fn timed_check_agrees<R: Clock + AllocGlobal, C: HealthCheck>(
    rt: &R,
    check: &C,
    row: &Server,
    backend: &Backend,
) -> io::Result<bool> {
    let start = Instant::now(rt)?;
    let outcome = check.check(rt.alloc(), backend);
    Ok(outcome == row.outcome && start.elapsed(rt)? < Duration::from_secs(LATEST))
}

//! How long a check waits for its peer, and connections to one.
//! No name is looked up: a backend's address is where it is reached.
ghost use Rattle.std.specs.Prelude.{◌≡◌, ◌↔◌, Some, None, ◌*◌, ◌^◌, ◌<◌, ◌≤◌, ◌-◌, max, Err, IfSome, OnErr};
ghost use Rattle.std.specs.Duration.{as_nanos};
ghost use Rattle.lb_health_http.specs.Check.{at_port};

use lb_health_core::error::CheckError;
use lb_select_base::backend::InetAddr;
use std::net::{Net, SocketAddr, TcpStream};
use std::os::unix::net::UnixStream;
use std::time::Duration;

// A second, in nanoseconds.
const SECOND: u128 = 1_000_000_000;

/// The limit on how long a check waits to connect, in nanoseconds; without a limit, as long as the system does. A limit of 0 acts as 1.
#[derive(Clone, Copy, Debug)]
pub struct BasicPeer {
    pub connection_timeout: Option<u128>,
}

impl BasicPeer {
    /// Returns a limit of one second.
    pub fn new() -> BasicPeer
        ensures { result.connection_timeout ≡ Some SECOND }
    {
        BasicPeer {
            connection_timeout: Some(SECOND),
        }
    }
}

/// How long a check waits to connect, and for each read and each write, and how long it may take as a whole, in nanoseconds;
/// without a limit, as long as the system does. A limit of 0 acts as 1. To connect to a Unix socket has no limit.
///
/// The limit on the whole check begins before it connects. Where less is left of it than a call's own limit, that call waits no longer
/// than what is left; its fault is the same as where its own limit is exceeded.
#[derive(Clone, Copy, Debug)]
pub struct HttpPeer {
    pub connection_timeout: Option<u128>,
    pub read_timeout: Option<u128>,
    pub write_timeout: Option<u128>,
    pub total_timeout: Option<u128>,
}

impl HttpPeer {
    /// Returns a limit of one second to connect and for each read, and none for writes and for the whole check.
    pub fn new() -> HttpPeer
        ensures connect { result.connection_timeout ≡ Some SECOND }
        ensures read { result.read_timeout ≡ Some SECOND }
        ensures write { result.write_timeout ≡ None }
        ensures whole { result.total_timeout ≡ None }
    {
        HttpPeer {
            connection_timeout: Some(SECOND),
            read_timeout: Some(SECOND),
            write_timeout: None,
            total_timeout: None,
        }
    }
}

/// Returns a limit as std takes it, where there is one: 0 acts as a nanosecond, and more seconds than 64 bits count as the
/// most that they do.
pub(crate) fn duration_of(limit: Option<u128>) -> Option<Duration>
    ensures none { result ≡ None ↔ limit ≡ None }
    ensures some { IfSome limit (λ nanos. nanos < 2 ^ 64 * SECOND → IfSome result (λ d. as_nanos d ≡ max nanos 1)) }
    ensures above { IfSome limit (λ nanos. 2 ^ 64 * SECOND ≤ nanos
        → IfSome result (λ d. (as_nanos d ≤ nanos) × ((2 ^ 64 - 1) * SECOND ≤ as_nanos d))) }
{
    let nanos = limit?.max(1);
    let seconds = (nanos / SECOND).min(u64::MAX as u128) as u64;
    Some(Duration::new(seconds, (nanos % SECOND) as u32))
}

/// Returns the address, with that port in place of its own where one is given.
pub(crate) fn with_port(addr: InetAddr, port: Option<u16>) -> InetAddr
    ensures { result ≡ at_port addr port }
{
    match (addr, port) {
        (InetAddr::V4(octets, _), Some(port)) => InetAddr::V4(octets, port),
        (InetAddr::V6(octets, _), Some(port)) => InetAddr::V6(octets, port),
        (addr, None) => addr,
    }
}

/// Connects to an internet address.
///
/// Fault: `Connect`, also where the limit is exceeded.
pub(crate) fn connect<N: Net<Stream = TcpStream>>(
    net: &N,
    addr: InetAddr,
    limit: Option<u128>,
) -> Result<TcpStream, CheckError>
    ensures { OnErr result (result ≡ Err CheckError.Connect) }
{
    let addr = SocketAddr::from(addr);
    let connected = match duration_of(limit) {
        Some(limit) => TcpStream::connect_timeout(net, &addr, limit),
        None => TcpStream::connect(net, addr),
    };
    connected.map_err(|_| CheckError::Connect)
}

/// Connects to a Unix socket.
///
/// Fault: `Connect`.
pub(crate) fn connect_unix<N: Net>(net: &N, path: &str) -> Result<UnixStream, CheckError>
    ensures { OnErr result (result ≡ Err CheckError.Connect) }
{
    UnixStream::connect(net, path).map_err(|_| CheckError::Connect)
}

//! The check of backends: of the kind that the configuration names.
ghost use Rattle.std.specs.Prelude.{if◌then◌else◌};

use http::uri::UriError;
use http::{Method, Request, Uri};
use lb_proxy::config::{CheckConfig, CheckKind};
use pingora_load_balancing::health_check::{
    CheckError, HealthCheck, HttpHealthCheck, TcpHealthCheck, request_for,
};
use pingora_load_balancing::{Backend, Refusal};
use std::alloc::Global;
use std::net::{Net, TcpStream};
use std::time::Clock;

/// What a check does: it connects, or asks for an answer.
#[derive(Drop)]
pub enum Probe<N> {
    Tcp(TcpHealthCheck<N>),
    Http(HttpHealthCheck<N>),
}

/// A check of backends, with its thresholds.
#[derive(Drop)]
pub struct ProxyCheck<N> {
    probe: Probe<N>,
    rise: usize,
    fall: usize,
}

impl<N: Copy + Drop> ProxyCheck<N> {
    /// Returns the check that the configuration names.
    ///
    /// Refused `InvalidAddress` where the host can't be a field's value, and `OutOfMemory`.
    pub fn new(net: N, alloc: Global, config: &CheckConfig) -> Result<ProxyCheck<N>, Refusal> {
        let limit = Some(u128::from(config.timeout));
        let probe = match &config.kind {
            CheckKind::Tcp => Probe::Tcp(connecting(net, limit)),
            CheckKind::Http { host, path } => {
                Probe::Http(asking(net, alloc, host.as_str(), path.as_str(), limit)?)
            }
        };
        Ok(ProxyCheck {
            probe,
            rise: config.rise,
            fall: config.fall,
        })
    }
}

// A check that connects within the limit.
fn connecting<N>(net: N, limit: Option<u128>) -> TcpHealthCheck<N> {
    let mut check = TcpHealthCheck::new(net);
    check.peer_template.connection_timeout = limit;
    check
}

// A check that asks this host for this path, each wait within the limit.
fn asking<N: Drop>(
    net: N,
    alloc: Global,
    host: &str,
    path: &str,
    limit: Option<u128>,
) -> Result<HttpHealthCheck<N>, Refusal> {
    let req = request_at(alloc, request_for(alloc, Method::GET, host)?, path)?;
    let mut check = HttpHealthCheck::new(alloc, net, host)?;
    check.peer_template.connection_timeout = limit;
    check.peer_template.read_timeout = limit;
    check.peer_template.write_timeout = limit;
    check.req = req;
    Ok(check)
}

// The request, at another path.
fn request_at(alloc: Global, request: Request<()>, path: &str) -> Result<Request<()>, Refusal> {
    let (mut parts, body) = request.into_parts();
    match Uri::from_str(alloc, path) {
        Ok(uri) => parts.uri = uri,
        Err(UriError::OutOfMemory) => return Err(Refusal::OutOfMemory),
        Err(UriError::Invalid(_)) => return Err(Refusal::InvalidAddress),
    }
    Ok(Request::from_parts(parts, body))
}

impl<N: Net<Stream = TcpStream> + Clock> HealthCheck for ProxyCheck<N> {
    ghost threshold = { λ s success. if success then s.rise else s.fall };

    fn check(&self, alloc: Global, target: &Backend) -> Result<(), CheckError> {
        match &self.probe {
            Probe::Tcp(check) => check.check(alloc, target),
            Probe::Http(check) => check.check(alloc, target),
        }
    }

    fn health_threshold(&self, success: bool) -> usize {
        if success { self.rise } else { self.fall }
    }
}

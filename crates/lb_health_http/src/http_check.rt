//! A check that sends a request and reads one answer.
ghost use Rattle.std.specs.Prelude.{◌≡◌, ◌≢◌, ◌↔◌, ◌⊎◌, ℕ, List, Some, false, true, is_some, IfOk, IfErr, OnOk, codes, if◌then◌else◌};
ghost use Rattle.std.specs.Io.KnownBytes.{Appends};
ghost use Rattle.http.specs.Request.{head_of};
ghost use Rattle.http_header.specs.FieldValue.{IsFieldValue};
ghost use Rattle.lb_stream.specs.Counted.{inner_of, has_failed, is_flushed};
ghost use Rattle.lb_stream.specs.Stream.{OnBytes};
ghost use Rattle.lb_health_http.specs.Check.{accepts_of, IsGood, CheckOutcome, IsOkOrFailed};
ghost use Rattle.lb_health_http.specs.Request.{text_of, asks_for_head, default_text};

use crate::deadline::{Deadline, Limited, Timed, least_of};
use crate::engine::check_over;
use crate::observer::NoObserver;
use crate::peer::{HttpPeer, connect, connect_unix, with_port};
use crate::request::request_for;
use crate::validate::{AcceptStatus, Validate};
use http::{Method, Request};
use lb_health_core::error::CheckError;
use lb_health_core::health_check::{BackendSummary, HealthCheck, HealthObserve, IdentitySummary};
use lb_select_base::backend::{Backend, SocketAddr};
use lb_select_base::refusal::Refusal;
use lb_stream::counted::Counted;
use std::alloc::Global;
use std::io::{BufReader, Read, Write};
use std::net::{Net, TcpStream};
use std::rt::Clock;

/// The most bytes that a body may have, unless another limit is set.
pub const MAX_BODY_BYTES: u64 = 1048576;

/// A check that a backend gives a whole answer that is accepted.
#[derive(Drop)]
pub struct HttpHealthCheck<N, V = AcceptStatus, O = NoObserver, S = IdentitySummary> {
    net: N,
    /// How many successes in a row make a backend healthy; 0 acts as 1.
    pub consecutive_success: usize,
    /// How many failures in a row make a backend unhealthy; 0 acts as 1.
    pub consecutive_failure: usize,
    /// How long it waits for its peer.
    pub peer_template: HttpPeer,
    /// The request that is sent.
    pub req: Request<()>,
    /// What is accepted; without a validator the status 200.
    pub validator: Option<V>,
    /// The most bytes that the body of an answer may have.
    pub max_body_bytes: u64,
    /// The port that is checked in place of the backend's own. It means nothing to a Unix socket.
    pub port_override: Option<u16>,
    /// The observer of changes of a backend's health.
    pub health_changed_callback: Option<O>,
    /// How log lines name a backend.
    pub backend_summary_callback: S,
}

impl<N> HttpHealthCheck<N> {
    /// Returns a check over that network that asks `host` for `/`.
    ///
    /// Its thresholds are 1; it waits a second to connect and for each read, and has no limit for writes and for the whole check; a body
    /// has at most 1048576 bytes. It has no validator, no other port and no observer. To check, the network has to read a clock too.
    /// Refused `InvalidAddress` exactly where the host is no header value, and `OutOfMemory`.
    pub fn new(alloc: Global, net: N, host: &str) -> Result<HttpHealthCheck<N>, Refusal>
    where
        N: Drop,
        ensures asks { IfOk result (λ check. text_of (head_of check.req) ≡ default_text (codes "GET") host.now) }
        ensures accepts { IfOk result (λ check. check.validator ≡ None) }
        ensures limit { IfOk result (λ check. check.max_body_bytes ≡ MAX_BODY_BYTES) }
        ensures thresholds { IfOk result (λ check. (check.consecutive_success ≡ 1) × (check.consecutive_failure ≡ 1)) }
        ensures connects { IfOk result (λ check. check.peer_template.connection_timeout ≡ Some 1000000000) }
        ensures reads { IfOk result (λ check. check.peer_template.read_timeout ≡ Some 1000000000) }
        ensures writes { IfOk result (λ check. check.peer_template.write_timeout ≡ None) }
        ensures whole { IfOk result (λ check. check.peer_template.total_timeout ≡ None) }
        ensures port { IfOk result (λ check. check.port_override ≡ None) }
        ensures silent { IfOk result (λ check. check.health_changed_callback ≡ None) }
        ensures invalid { result ≡ Err Refusal.InvalidAddress ↔ ¬ (IsFieldValue host.now) }
        ensures refused { IfErr result (λ e. (e ≡ Refusal.InvalidAddress) ⊎ (e ≡ Refusal.OutOfMemory)) }
    {
        let req = request_for(alloc, Method::GET, host)?;
        Ok(HttpHealthCheck {
            net,
            consecutive_success: 1,
            consecutive_failure: 1,
            peer_template: HttpPeer::new(),
            req,
            validator: None,
            max_body_bytes: MAX_BODY_BYTES,
            port_override: None,
            health_changed_callback: None,
            backend_summary_callback: IdentitySummary,
        })
    }
}

impl<N, V, O, S: Drop> HttpHealthCheck<N, V, O, S> {
    /// Returns this check with that summary in place of its own.
    pub fn set_backend_summary<T: BackendSummary>(self, summary: T) -> HttpHealthCheck<N, V, O, T>
        ensures summary { result.backend_summary_callback ≡ summary }
        ensures validator { result.validator ≡ self.validator }
        ensures observer { result.health_changed_callback ≡ self.health_changed_callback }
        ensures asks { result.req ≡ self.req }
        ensures limit { result.max_body_bytes ≡ self.max_body_bytes }
        ensures port { result.port_override ≡ self.port_override }
        ensures peer { result.peer_template ≡ self.peer_template }
        ensures success { result.consecutive_success ≡ self.consecutive_success }
        ensures failure { result.consecutive_failure ≡ self.consecutive_failure }
    {
        let HttpHealthCheck {
            net,
            consecutive_success,
            consecutive_failure,
            peer_template,
            req,
            validator,
            max_body_bytes,
            port_override,
            health_changed_callback,
            backend_summary_callback: _,
        } = self;
        HttpHealthCheck {
            net,
            consecutive_success,
            consecutive_failure,
            peer_template,
            req,
            validator,
            max_body_bytes,
            port_override,
            health_changed_callback,
            backend_summary_callback: summary,
        }
    }
}

impl<N, V: Drop, O: Drop, S: Drop> HttpHealthCheck<N, V, O, S> {
    /// Returns this check with that validator, observer and summary in place of its own.
    pub fn with_callbacks<W: Validate, P: HealthObserve, T: BackendSummary>(
        self,
        validator: Option<W>,
        observer: Option<P>,
        summary: T,
    ) -> HttpHealthCheck<N, W, P, T>
        ensures validator { result.validator ≡ validator }
        ensures observer { result.health_changed_callback ≡ observer }
        ensures summary { result.backend_summary_callback ≡ summary }
        ensures asks { result.req ≡ self.req }
        ensures limit { result.max_body_bytes ≡ self.max_body_bytes }
        ensures port { result.port_override ≡ self.port_override }
        ensures peer { result.peer_template ≡ self.peer_template }
        ensures success { result.consecutive_success ≡ self.consecutive_success }
        ensures failure { result.consecutive_failure ≡ self.consecutive_failure }
    {
        let HttpHealthCheck {
            net,
            consecutive_success,
            consecutive_failure,
            peer_template,
            req,
            validator: _,
            max_body_bytes,
            port_override,
            health_changed_callback: _,
            backend_summary_callback: _,
        } = self;
        HttpHealthCheck {
            net,
            consecutive_success,
            consecutive_failure,
            peer_template,
            req,
            validator,
            max_body_bytes,
            port_override,
            health_changed_callback: observer,
            backend_summary_callback: summary,
        }
    }
}

impl<N, V: Validate, O, S> HttpHealthCheck<N, V, O, S> {
    /// Writes this check's request and reads one answer, over any streams, as the function `check_over` does.
    ///
    /// This check's validator and limit hold. The caller gives streams of which no call has failed yet.
    pub fn check_over<R: Read, W: Write>(
        &self,
        alloc: Global,
        reader: &mut Counted<R>,
        writer: &mut Counted<W>,
    ) -> Result<(), CheckError>
        requires reader { has_failed reader.old ≡ false }
        requires writer { has_failed writer.old ≡ false }
        ensures outcome { result ≢ Err CheckError.Write → OnBytes (R.remaining (inner_of reader.old)) (R.remaining (inner_of reader.new))
            (CheckOutcome (asks_for_head (head_of self.now.req)) self.now.max_body_bytes (is_some self.now.validator)
            (accepts_of V.accepts self.now.validator) result) }
        ensures written { OnOk result (Appends (W.contents (inner_of writer.old)) (W.contents (inner_of writer.new))
            (text_of (head_of self.now.req))) }
        ensures flushed { OnOk result (is_flushed writer.new ≡ true) }
        ensures only { OnBytes (R.remaining (inner_of reader.old)) (R.remaining (inner_of reader.new)) (λ stream rest. (other : List ℕ)
            → IsGood (asks_for_head (head_of self.now.req)) self.now.max_body_bytes (accepts_of V.accepts self.now.validator) stream other
            → IsOkOrFailed (has_failed reader.new) (has_failed writer.new) result) }
        ensures read { result ≡ Err CheckError.Read → has_failed reader.new ≡ true }
        ensures write { result ≡ Err CheckError.Write → has_failed writer.new ≡ true }
    {
        check_over(
            alloc,
            &self.req,
            &self.validator,
            self.max_body_bytes,
            reader,
            writer,
        )
    }
}

impl<N: Clock, V: Validate, O, S> HttpHealthCheck<N, V, O, S> {
    // One exchange over a connection, by both handles of it.
    fn exchange<C: Read + Write + Limited + Drop>(
        &self,
        alloc: Global,
        deadline: Option<Deadline>,
        reader: C,
        writer: C,
    ) -> Result<(), CheckError> {
        let reader = Timed::new(&self.net, self.peer_template, deadline, reader)?;
        let writer = Timed::new(&self.net, self.peer_template, deadline, writer)?;
        let Ok(buffered) = BufReader::new(alloc, reader) else {
            return Err(CheckError::OutOfMemory);
        };
        let mut reader = Counted::new(buffered);
        let mut writer = Counted::new(writer);
        self.check_over(alloc, &mut reader, &mut writer)
    }
}

impl<
    N: Net<Stream = TcpStream> + Clock,
    V: Validate,
    O: HealthObserve,
    S: BackendSummary,
> HealthCheck for HttpHealthCheck<N, V, O, S> {
    ghost threshold = { λ s success. if success then s.consecutive_success else s.consecutive_failure };

    fn check(&self, alloc: Global, target: &Backend) -> Result<(), CheckError> {
        let peer = self.peer_template;
        let deadline = Deadline::begin(&self.net, peer.total_timeout)?;
        match &target.addr {
            SocketAddr::Inet(addr) => {
                let addr = with_port(*addr, self.port_override);
                let limit = least_of(peer.connection_timeout, peer.total_timeout);
                let stream = connect(&self.net, addr, limit)?;
                self.exchange(alloc, deadline, &stream, &stream)
            }
            SocketAddr::Unix(path) => {
                let stream = connect_unix(&self.net, path.as_str())?;
                self.exchange(alloc, deadline, &stream, &stream)
            }
        }
    }

    fn health_status_change(&self, target: &Backend, healthy: bool) {
        if let Some(observer) = &self.health_changed_callback {
            observer.observe(target, healthy);
        }
    }

    fn backend_summary(&self, alloc: Global, target: &Backend) -> Result<String, Refusal> {
        self.backend_summary_callback.summary(alloc, target)
    }

    fn health_threshold(&self, success: bool) -> usize {
        if success {
            self.consecutive_success
        } else {
            self.consecutive_failure
        }
    }
}

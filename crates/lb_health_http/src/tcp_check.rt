//! A check that connects and no more.
ghost use Rattle.std.specs.Prelude.{◌≡◌, Some, None, Err, OnErr, if◌then◌else◌};
ghost use Rattle.lb_health_core.specs.declared.error.CheckError.TheVariants.{Connect};

use crate::observer::NoObserver;
use crate::peer::{BasicPeer, connect, connect_unix};
use lb_health_core::error::CheckError;
use lb_health_core::health_check::{BackendSummary, HealthCheck, HealthObserve, IdentitySummary};
use lb_select_base::backend::{Backend, SocketAddr};
use lb_select_base::refusal::Refusal;
use std::alloc::Global;
use std::net::{Net, TcpStream};

/// A check that a backend takes connections.
#[derive(Drop)]
pub struct TcpHealthCheck<N, O = NoObserver, S = IdentitySummary> {
    net: N,
    /// How many successes in a row make a backend healthy; 0 acts as 1.
    pub consecutive_success: usize,
    /// How many failures in a row make a backend unhealthy; 0 acts as 1.
    pub consecutive_failure: usize,
    /// How long it waits for its peer.
    pub peer_template: BasicPeer,
    /// The observer of changes of a backend's health.
    pub health_changed_callback: Option<O>,
    summary: S,
}

impl<N> TcpHealthCheck<N> {
    /// Returns a check over that network: thresholds of 1, a second to connect, no observer.
    pub fn new(net: N) -> TcpHealthCheck<N>
        ensures thresholds { (result.consecutive_success ≡ 1) × (result.consecutive_failure ≡ 1) }
        ensures limit { result.peer_template.connection_timeout ≡ Some 1000000000 }
        ensures silent { result.health_changed_callback ≡ None }
    {
        TcpHealthCheck {
            net,
            consecutive_success: 1,
            consecutive_failure: 1,
            peer_template: BasicPeer::new(),
            health_changed_callback: None,
            summary: IdentitySummary,
        }
    }
}

impl<N, O: Drop, S: Drop> TcpHealthCheck<N, O, S> {
    /// Returns this check with that observer and summary in place of its own.
    pub fn with_callbacks<P: HealthObserve, T: BackendSummary>(
        self,
        observer: Option<P>,
        summary: T,
    ) -> TcpHealthCheck<N, P, T>
        ensures observer { result.health_changed_callback ≡ observer }
        ensures peer { result.peer_template ≡ self.peer_template }
        ensures success { result.consecutive_success ≡ self.consecutive_success }
        ensures failure { result.consecutive_failure ≡ self.consecutive_failure }
    {
        let TcpHealthCheck {
            net,
            consecutive_success,
            consecutive_failure,
            peer_template,
            health_changed_callback: _,
            summary: _,
        } = self;
        TcpHealthCheck {
            net,
            consecutive_success,
            consecutive_failure,
            peer_template,
            health_changed_callback: observer,
            summary,
        }
    }
}

impl<N: Net<Stream = TcpStream>, O: HealthObserve, S: BackendSummary> HealthCheck
    for TcpHealthCheck<N, O, S> {
    ghost threshold = { λ s success. if success then s.consecutive_success else s.consecutive_failure };

    ghost answers = { λ _ _ answer. OnErr answer (answer ≡ Err Connect) };

    fn check(&self, _alloc: Global, target: &Backend) -> Result<(), CheckError> {
        match &target.addr {
            SocketAddr::Inet(addr) => {
                connect(&self.net, *addr, self.peer_template.connection_timeout)?;
            }
            SocketAddr::Unix(path) => {
                connect_unix(&self.net, path.as_str())?;
            }
        }
        Ok(())
    }

    fn health_status_change(&self, target: &Backend, healthy: bool) {
        if let Some(observer) = &self.health_changed_callback {
            observer.observe(target, healthy);
        }
    }

    fn backend_summary(&self, alloc: Global, target: &Backend) -> Result<String, Refusal> {
        self.summary.summary(alloc, target)
    }

    fn health_threshold(&self, success: bool) -> usize {
        if success {
            self.consecutive_success
        } else {
            self.consecutive_failure
        }
    }
}

//! A clock, a check and a service for the tests of services.
ghost use Rattle.std.specs.Prelude.{◌≡◌};

use crate::ends::Ends;
use lb_background::service::HealthCheckService;
use lb_background::shutdown::ShutdownWatch;
use lb_health_core::error::CheckError;
use lb_health_core::health_check::HealthCheck;
use lb_health_core::keys::Rule;
use lb_select_base::backend::Backend;
use lb_select_base::moments::MomentSource;
use lb_threads_core::keyed::{KeyedRegistry, NoRule, keyed_by_identity};
use lb_threads_core::registry::HealthRegistry;
use std::alloc::Global;
use std::collections::BTreeSet;
use std::process::Abort;
use std::sync::atomic::AtomicU64;
use std::sync::atomic::Ordering::SeqCst;
use std::sync::{Arc, Wait};
use std::thread;
use std::time::{Clock, Duration};

/// A clock that goes on by so many nanoseconds at each reading.
#[derive(Drop)]
pub struct Ticks {
    pub next: u128,
    pub step: u128,
}

impl MomentSource for Ticks {
    ghost reads = { λ s m _. m ≡ s.next };

    fn now(&mut self) -> u128 {
        let moment = self.next;
        self.next = moment.saturating_add(self.step);
        moment
    }
}

/// A check that finds every backend down. It counts its checks; with a watch, each waits, for ten seconds at most, until
/// that tells that services are to end.
#[derive(Drop)]
pub struct Down<R> {
    pub rt: R,
    pub checks: Arc<AtomicU64>,
    pub until: Option<ShutdownWatch>,
}

impl<R: Clock> HealthCheck for Down<R> {
    ghost threshold = { λ _ _. 1 };

    fn check(&self, _alloc: Global, _target: &Backend) -> Result<(), CheckError> {
        self.checks.fetch_add(1, SeqCst);
        if let Some(watch) = &self.until {
            for _ in 0..10_000 {
                if watch.is_shut() {
                    break;
                }
                thread::sleep(&self.rt, Duration::from_millis(1));
            }
        }
        Err(CheckError::Connect)
    }

    fn health_threshold(&self, _success: bool) -> usize {
        1
    }
}

/// A registry with a check of this type.
pub type Checked<R> = HealthRegistry<Rule<NoRule>, Down<R>>;

/// Returns a registry with a view, its first, of the backend 1.0.0.1:80/1 or of none.
pub fn registry_of<R: Abort>(rt: &R, alloc: Global, is_empty: bool) -> KeyedRegistry {
    let mut registry = keyed_by_identity(alloc);
    let id = registry.register_view(alloc).expect(rt, "refused");
    if !is_empty {
        let set = one_backend(rt, alloc);
        registry.update_view(alloc, id, set).expect(rt, "refused");
    }
    registry
}

/// A service over a registry, the count of the registry's checks, and the ends of what tells it to end and of what it notifies.
pub struct ServiceBench<R: Drop> {
    pub service: HealthCheckService<Rule<NoRule>, Down<R>>,
    pub registry: Arc<Checked<R>>,
    pub checks: Arc<AtomicU64>,
    pub ends: Ends,
}

impl<R: Drop> Drop for ServiceBench<R> {
    fn drop(self) {
        let ServiceBench {
            service: _,
            registry: _,
            checks: _,
            ends: _,
        } = self;
    }
}

impl<R: Abort + Wait + Clock + Copy + Send + Sync + Drop> ServiceBench<R> {
    /// Returns a service over this registry, which has no check yet.
    pub fn new(rt: &R, alloc: Global, registry: KeyedRegistry) -> ServiceBench<R> {
        let registry = HealthRegistry::over(alloc, registry).expect(rt, "refused");
        let registry: Arc<Checked<R>> = Arc::new(alloc, registry).expect(rt, "refused");
        let service = HealthCheckService::new(Arc::try_clone(&registry).expect(rt, "refused"));
        ServiceBench {
            service,
            registry,
            checks: Arc::new(alloc, AtomicU64::new(0)).expect(rt, "refused"),
            ends: Ends::new(alloc).expect(rt, "refused"),
        }
    }

    /// Sets the registry's check, which waits until services are to end or doesn't.
    pub fn set_check(&self, rt: &R, waits: bool) {
        let until = if waits {
            Some(self.ends.watch.try_clone().expect(rt, "refused"))
        } else {
            None
        };
        let check = Down {
            rt: *rt,
            checks: Arc::try_clone(&self.checks).expect(rt, "refused"),
            until,
        };
        self.registry
            .set_health_check(rt, check)
            .expect(rt, "refused");
    }
}

/// Returns the set of the backend 1.0.0.1:80/1.
pub fn one_backend<R: Abort>(rt: &R, alloc: Global) -> BTreeSet<Backend> {
    let backend = Backend::new(alloc, "1.0.0.1:80").expect(rt, "refused");
    let mut set = BTreeSet::new(alloc);
    set.insert(backend).expect(rt, "refused");
    set
}

/// Waits, for ten seconds at most, until so many checks were counted; whether they were.
pub fn counted<R: Clock>(rt: &R, checks: &AtomicU64, wanted: u64) -> bool {
    for _ in 0..10_000 {
        if checks.load(SeqCst) >= wanted {
            return true;
        }
        thread::sleep(rt, Duration::from_millis(1));
    }
    false
}

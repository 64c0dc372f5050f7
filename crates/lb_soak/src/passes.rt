//! Passes of checks over a shared registry.
use lb_health_core::health_check::HealthCheck;
use lb_health_core::keys::Rule;
use lb_select_base::refusal::Refusal;
use lb_threads_core::keyed::NoRule;
use lb_threads_core::registry::HealthRegistry;
use log::sink::Locked;
use log::{Level, Log, Logged};
use std::alloc::Global;
use std::sync::Wait;
use std::thread::Threads;

/// Checks the targets of a registry, without a line for each flip.
pub fn pass<W: Log + Threads + Wait + Copy + Sync + Drop, C: HealthCheck + Drop + Send + Sync>(
    rt: &W,
    alloc: Global,
    registry: &HealthRegistry<Rule<NoRule>, C>,
    is_parallel: bool,
) -> Result<(), Refusal> {
    let sink = Locked::new(*rt, Vec::new(alloc));
    let logged = Logged::new(*rt, Level::Error, &sink);
    registry.run_health_check(&logged, alloc, is_parallel)
}

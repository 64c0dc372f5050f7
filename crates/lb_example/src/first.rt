//! A balancer over two backends, of which one listens. Its run finds out which, and the requests go there.
#![tactic(auto)]

use log::Log;
use pingora_load_balancing::background::{RuntimeClock, shutdown_pair};
use pingora_load_balancing::discovery::BoxedDiscovery;
use pingora_load_balancing::health_check::{HealthCheck, NoRule, Rule};
use pingora_load_balancing::prelude::{LoadBalancer, RoundRobin};
use std::net::{Net, OpenListener, TcpListener};
use std::sync::Wait;
use std::thread::Threads;
use std::time::Clock;

// A balancer in turn, with a check of this type.
type Balancer<C> = LoadBalancer<RoundRobin, BoxedDiscovery, Rule<NoRule>, C>;

/// Runs a balancer once, with this check, and prints how many of four requests found a backend.
pub fn run<R, C>(rt: &R, check: C) -> Result<(), anyhow::Error>
where
    R: Log + Net + Threads + Wait + Clock + Print + AllocGlobal + Sync,
    C: HealthCheck + Drop + Send + Sync,
{
    let alloc = rt.alloc();
    let server = TcpListener::bind(rt, "127.0.0.1:0")?;
    let listening = format!(in alloc; "{}", server.local_addr()?)?;
    let texts = [listening.as_str(), "127.0.0.1:1"];
    let mut clock = RuntimeClock::new(rt);
    let balancer = Balancer::try_from_iter(rt, alloc, texts.iter().copied(), &mut clock)?;
    balancer.set_health_check(rt, check)?;
    let (_signal, watch) = shutdown_pair(alloc)?;
    // Discovers and checks once, as no frequency is set; with one, it does so until the signal sends the end.
    balancer.run(rt, alloc, &mut clock, &watch, None);
    let mut found = 0u32;
    for _ in 0..4 {
        let backend = balancer.select(rt, alloc, b"", 16)?;
        found = found.saturating_add(u32::from(backend.is_some()));
    }
    println!(rt; "{found} of 4 requests found a backend")?;
    Ok(())
}

//! Two groups over one registry of health and one gate. A service checks their servers in the background, and workers build their
//! selectors. A server that both groups have stops, and comes back.
#![tactic(auto)]

use log::Log;
use pingora_load_balancing::background::{
    HealthCheckService, RuntimeClock, ShutdownSignal, ShutdownWatch, shutdown_pair,
};
use pingora_load_balancing::discovery::{BoxedDiscovery, DiscoverySource, Static};
use pingora_load_balancing::health_check::{HealthCheck, NoRule, Rule};
use pingora_load_balancing::selection::RoundRobin;
use pingora_load_balancing::{Backends, HealthRegistry, LoadBalancerGroup, SelectorRebuildGate};
use std::alloc::Global;
use std::collections::BTreeSet;
use std::net::{Net, OpenListener, TcpListener};
use std::sync::{Arc, Wait};
use std::thread::{self, Threads};
use std::time::{Clock, Duration};

// A registry of health with checks of this type, and a group over it.
type Registry<C> = HealthRegistry<Rule<NoRule>, C>;

type Group<C> = LoadBalancerGroup<RoundRobin, BoxedDiscovery, Rule<NoRule>, C>;

// Makes a group with two slots over the servers at these addresses, starts its workers, and updates it once.
fn group_of<R, C>(
    rt: R,
    texts: [&str; 2],
    registry: &Arc<Registry<C>>,
    gate: &Arc<SelectorRebuildGate>,
) -> Result<Group<C>, anyhow::Error>
where
    R: Log + Net + Threads + Wait + Clock + AllocGlobal + Copy + Send + Sync + Drop + 'static,
    C: HealthCheck + Drop + Send + Sync + 'static,
{
    let alloc = rt.alloc();
    let mut configs = Vec::new(alloc);
    configs.push(None)?;
    configs.push(None)?;
    let (registry, gate) = (Arc::try_clone(registry)?, Arc::try_clone(gate)?);
    let found = Static::try_from_iter(alloc, &rt, texts.iter().copied())?;
    let found = DiscoverySource::Static(found);
    let backends: Backends<BoxedDiscovery, Rule<NoRule>, C> = Backends::new_with_health_registry(
        &rt, alloc, found, registry,
    )?;
    let mut group: Group<C> = LoadBalancerGroup::from_backends_with_configs(
        &rt, alloc, backends, configs,
    )?;
    group.with_rebuild_gate(&rt, alloc, gate)?;
    let mut clock = RuntimeClock::new(rt);
    let _ = group.start_workers(&rt, alloc, clock);
    group.update(&rt, alloc, &mut clock)?;
    Ok(group)
}

// Makes four requests to each slot. Returns how many servers they went to.
fn servers_used<R, C>(rt: &R, group: &Group<C>) -> Result<usize, anyhow::Error>
where
    R: Wait + AllocGlobal,
    C: HealthCheck + Drop,
{
    let alloc = rt.alloc();
    let mut used = BTreeSet::new(alloc);
    for request in 0..8usize {
        if let Some(backend) = group.select(rt, alloc, request % 2, b"", 16)? {
            used.insert(backend)?;
        }
    }
    Ok(used.len())
}

// Makes requests until each group's go to `wanted` servers, for ten seconds at most. Returns how many the last went to, in both groups.
fn settled<R, C>(rt: &R, groups: &[Group<C>; 2], wanted: usize) -> Result<usize, anyhow::Error>
where
    R: Wait + Clock + AllocGlobal,
    C: HealthCheck + Drop,
{
    let mut used = 0;
    for _ in 0..1000 {
        let [first, second] = groups;
        let one = servers_used(rt, first)?;
        let other = servers_used(rt, second)?;
        used = one.saturating_add(other);
        if one == wanted && other == wanted {
            break;
        }
        thread::sleep(rt, Duration::from_millis(10));
    }
    Ok(used)
}

// Makes requests while a server of both groups stops and comes back. Returns how many servers they went to each time.
fn make_requests<R, C>(
    rt: &R,
    groups: &[Group<C>; 2],
    server: R::Listener,
) -> Result<[usize; 3], anyhow::Error>
where
    R: Net + Wait + Clock + AllocGlobal,
    C: HealthCheck + Drop,
{
    let addr = server.local_addr()?;
    let all = settled(rt, groups, 2)?;
    drop(server);
    let less = settled(rt, groups, 1)?;
    let _server = TcpListener::bind(rt, addr)?;
    let again = settled(rt, groups, 2)?;
    Ok([all, less, again])
}

// Runs the service in a thread of its own, makes requests meanwhile, and prints how many servers they went to.
fn run_beside<R, C>(
    rt: &R,
    service: &HealthCheckService<Rule<NoRule>, C>,
    groups: &[Group<C>; 2],
    server: R::Listener,
    signal: &mut ShutdownSignal,
    watch: &ShutdownWatch,
) -> Result<(), anyhow::Error>
where
    R: Log + Net + Threads + Wait + Clock + Print + AllocGlobal + Copy + Sync,
    C: HealthCheck + Drop + Send + Sync,
{
    let ((), used) = thread::join(
        rt,
        move || service.run(rt, rt.alloc(), &mut RuntimeClock::new(rt), watch, None),
        move || {
            let used = make_requests(rt, groups, server);
            signal.send(true);
            used
        },
    );
    let [all, less, again] = used?;
    println!(rt; "two groups of two servers: requests go to {all}")?;
    println!(rt; "the server of both has stopped: requests go to {less}")?;
    println!(rt; "it came back: requests go to {again}")?;
    Ok(())
}

// A group over two servers.
fn group_over<R, C>(
    rt: R,
    servers: (&R::Listener, &R::Listener),
    registry: &Arc<Registry<C>>,
    gate: &Arc<SelectorRebuildGate>,
) -> Result<Group<C>, anyhow::Error>
where
    R: Log + Net + Threads + Wait + Clock + AllocGlobal + Copy + Send + Sync + Drop + 'static,
    C: HealthCheck + Drop + Send + Sync + 'static,
{
    let alloc = rt.alloc();
    let (one, other) = servers;
    let one_text = format!(in alloc; "{}", one.local_addr()?)?;
    let other_text = format!(in alloc; "{}", other.local_addr()?)?;
    group_of(rt, [one_text.as_str(), other_text.as_str()], registry, gate)
}

// Two groups over one gate, of which the second server is in both.
fn groups_over<R, C>(
    rt: R,
    servers: (&R::Listener, &R::Listener, &R::Listener),
    registry: &Arc<Registry<C>>,
) -> Result<[Group<C>; 2], anyhow::Error>
where
    R: Log + Net + Threads + Wait + Clock + AllocGlobal + Copy + Send + Sync + Drop + 'static,
    C: HealthCheck + Drop + Send + Sync + 'static,
{
    let alloc = rt.alloc();
    let (first, both, last) = servers;
    let gate = Arc::new(alloc, SelectorRebuildGate::new(alloc)?)?;
    let one = group_over(rt, (first, both), registry, &gate)?;
    let other = group_over(rt, (both, last), registry, &gate)?;
    Ok([one, other])
}

/// Runs two groups over one registry with this check and one gate, and prints how many servers their requests went to: with all servers,
/// without the one of both, with all again.
pub fn run<R, C>(rt: &R, check: C) -> Result<(), anyhow::Error>
where
    R: Log + Net + Threads + Wait + Clock + Print,
    R: AllocGlobal + Copy + Send + Sync + Drop + 'static,
    C: HealthCheck + Drop + Send + Sync + 'static,
{
    let alloc = rt.alloc();
    let first = TcpListener::bind(rt, "127.0.0.1:0")?;
    let both = TcpListener::bind(rt, "127.0.0.1:0")?;
    let last = TcpListener::bind(rt, "127.0.0.1:0")?;
    let registry: Registry<C> = HealthRegistry::new(alloc)?;
    let registry = Arc::new(alloc, registry)?;
    registry.set_health_check(rt, check)?;
    let groups = groups_over(*rt, (&first, &both, &last), &registry)?;
    let (mut signal, watch) = shutdown_pair(alloc)?;
    let mut service = HealthCheckService::new(registry);
    service.health_check_frequency = Some(100_000_000);
    run_beside(rt, &service, &groups, both, &mut signal, &watch)
}

//! Registries that threads share: by which rule backends share a cell, how cells begin, and views whose owners are dropped.

use crate::balancer::fixtures::listed;
use crate::service_fixtures::Down;
use lb_health_core::health_check::BoxedCheck;
use lb_health_core::keys::{KeyRule, Rule};
use lb_health_view::discovery::{BoxedDiscovery, DiscoverySource, Static};
use lb_select_base::backend::{Backend, InetAddr, SocketAddr};
use lb_threads_core::backends::{BackendView, Backends};
use lb_threads_core::keyed::{Equivalence, Numbered};
use lb_threads_core::registry::HealthRegistry;
use log::Log;
use std::alloc::Global;
use std::collections::BTreeSet;
use std::process::Abort;
use std::sync::atomic::AtomicU64;
use std::sync::atomic::Ordering::SeqCst;
use std::sync::{Arc, Wait};
use std::thread::Threads;
use std::time::Clock;

// Registers a view of one address at this weight.
fn view_of<W: Abort + Wait, R: KeyRule + Drop>(
    rt: &W,
    alloc: Global,
    registry: &HealthRegistry<R, BoxedCheck>,
    weight: usize,
) -> u64 {
    let id = registry.register_view(rt, alloc).expect(rt, "refused");
    let backend = Backend::new_with_weight(alloc, "1.0.0.1:80", weight).expect(rt, "refused");
    let mut set = BTreeSet::new(alloc);
    set.insert(backend).expect(rt, "refused");
    registry
        .update_view(rt, alloc, id, set)
        .expect(rt, "refused");
    id
}

// The numbers of two views, how many targets they have, and how many once the owner of the first is dropped.
fn two_views<W: Abort + Wait, R: KeyRule + Drop>(
    rt: &W,
    alloc: Global,
    registry: &HealthRegistry<R, BoxedCheck>,
) -> ([u64; 2], [usize; 2]) {
    let first = view_of(rt, alloc, registry, 1);
    let owner = registry.own_view(rt, alloc, first).expect(rt, "refused");
    let second = view_of(rt, alloc, registry, 2);
    let before = registry.target_count(rt, alloc).expect(rt, "refused");
    drop(owner);
    let after = registry.target_count(rt, alloc).expect(rt, "refused");
    ([first, second], [before, after])
}

// Two weights of an address are two targets by identity, and one by address.
#[test]
fn rules_of_keys(rt: HostRuntime) {
    let alloc = rt.alloc();
    let by_identity: HealthRegistry = HealthRegistry::new(alloc).expect(&rt, "refused");
    let by_address: HealthRegistry = HealthRegistry::by_address(alloc).expect(&rt, "refused");
    let told = [
        two_views(&rt, alloc, &by_identity),
        two_views(&rt, alloc, &by_address),
    ];
    assert_eq!(rt; told, [([1, 2], [2, 1]), ([1, 2], [1, 1])]);
}

// A cell begins healthy, or unhealthy where the registry was made so.
#[test]
fn first_health_of_cells(rt: HostRuntime) {
    let alloc = rt.alloc();
    let healthy: HealthRegistry = HealthRegistry::new(alloc).expect(&rt, "refused");
    let unhealthy: HealthRegistry = HealthRegistry::new(alloc).expect(&rt, "refused");
    let unhealthy = unhealthy.start_unhealthy(&rt);
    view_of(&rt, alloc, &healthy, 1);
    view_of(&rt, alloc, &unhealthy, 1);
    let are_ready = [healthy.cell_ready(&rt, 0), unhealthy.cell_ready(&rt, 0)];
    assert_eq!(rt; are_ready, [true, false]);
}

// A rule by which backends at one port share a cell.
#[derive(Drop)]
struct ByPort {}

impl Equivalence for ByPort {
    fn number(&self, backend: &Backend) -> u64 {
        match &backend.addr {
            SocketAddr::Inet(InetAddr::V4(_, port)) => u64::from(*port),
            _ => 0,
        }
    }
}

// A registry by that rule, and a view of it.
type ByPorts<W> = HealthRegistry<Rule<Numbered<ByPort>>, Down<W>>;

type PortsView<W> = BackendView<BoxedDiscovery, Rule<Numbered<ByPort>>, Down<W>>;

// Two backends at a port, and one at another.
const LISTED: &[&str] = &["1.0.0.1:80", "1.0.0.1:81", "1.0.0.2:80"];

// Notes which of them are ready.
fn note_ready<W: Abort + Wait + Clock + Drop>(
    rt: &W,
    alloc: Global,
    view: &PortsView<W>,
    text: &mut String,
) {
    for address in LISTED {
        let backend = Backend::new(alloc, *address).expect(rt, "refused");
        let mark = if view.ready(rt, &backend) {
            " yes"
        } else {
            " no"
        };
        text.push_str(mark).expect(rt, "refused");
    }
}

// Notes which backends are ready, once the first cell flips down, once it flips up again, and once a pass found every backend down.
fn flips<W: Abort + Log + Threads + Wait + Clock + Send + Sync + Drop>(
    rt: &W,
    alloc: Global,
    registry: &ByPorts<W>,
    view: &PortsView<W>,
    text: &mut String,
) {
    view.update(rt, alloc, |_| {}).expect(rt, "refused");
    note_ready(rt, alloc, view, text);
    for verdict in &[false, true] {
        let flipped = registry.observe(rt, 0, *verdict, 1);
        write!(text, " {}", flipped.expect(rt, "refused")).expect(rt, "refused");
        note_ready(rt, alloc, view, text);
    }
    registry
        .run_health_check(rt, alloc, false)
        .expect(rt, "refused");
    note_ready(rt, alloc, view, text);
}

// Where a caller's rule gives two of three backends one number, they have one cell: they flip together, and are checked once for both.
#[test]
fn classes_flip_together(rt: HostRuntime) {
    let alloc = rt.alloc();
    let checks = Arc::new(alloc, AtomicU64::new(0)).expect(&rt, "refused");
    let check = Down {
        rt,
        checks: Arc::try_clone(&checks).expect(&rt, "refused"),
        until: None,
    };
    let registry = HealthRegistry::with_equivalence(alloc, ByPort {}).expect(&rt, "refused");
    let registry = Arc::new(alloc, registry).expect(&rt, "refused");
    registry.set_health_check(&rt, check).expect(&rt, "refused");
    let found = listed(alloc, LISTED).expect(&rt, "refused");
    let found = DiscoverySource::Static(Static::new(found));
    let shared = Arc::try_clone(&registry).expect(&rt, "refused");
    let view = Backends::new_with_health_registry(&rt, alloc, found, shared);
    let view = view.expect(&rt, "refused");
    let mut text = String::new(alloc);
    flips(&rt, alloc, &*registry, &view, &mut text);
    let wanted = " yes yes yes true no yes no true yes yes yes no no no";
    assert_eq!(rt; (text.as_str(), checks.load(SeqCst)), (wanted, 2));
}

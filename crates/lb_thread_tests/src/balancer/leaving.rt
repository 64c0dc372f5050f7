//! Balancers that share a registry, and leave it.
use crate::balancer::fixtures::{SecondDown, Tested, listed, note};
use crate::service_fixtures::Ticks;
use lb_background::lending::LendsToThreads;
use lb_balancer::load_balancer::LoadBalancer;
use lb_health_core::keys::Rule;
use lb_health_view::discovery::{DiscoverySource, Static};
use lb_select::selection::RoundRobin;
use lb_select_base::backend::Backend;
use lb_threads_core::backends::Backends;
use lb_threads_core::keyed::NoRule;
use lb_threads_core::registry::{HealthRegistry, put_registry, take_registry};
use std::alloc::Global;
use std::process::Abort;
use std::sync::{Arc, Wait};
use std::time::Clock;

// The registry that they share.
type Shared<R> = HealthRegistry<Rule<NoRule>, SecondDown<R>>;

// A balancer of one backend, updated once, with a view in this registry.
fn sharing<R: Abort + Wait + Clock + Copy + Drop>(
    rt: &R,
    alloc: Global,
    registry: &Arc<Shared<R>>,
    address: &str,
) -> Tested<RoundRobin, R> {
    let found = listed(alloc, &[address]).expect(rt, "refused");
    let discovery = DiscoverySource::Static(Static::new(found));
    let registry = Arc::try_clone(registry).expect(rt, "refused");
    let backends = Backends::new_with_health_registry(rt, alloc, discovery, registry);
    let backends = backends.expect(rt, "refused");
    let balancer = LoadBalancer::from_backends(rt, alloc, backends).expect(rt, "refused");
    balancer
        .update(rt, alloc, &mut Ticks { next: 0, step: 5 })
        .expect(rt, "refused");
    balancer
}

// Notes how many targets there are.
fn count<R: Abort + Wait + Clock + Drop>(
    rt: &R,
    alloc: Global,
    registry: &Shared<R>,
    text: &mut String,
) {
    let targets = registry.target_count(rt, alloc).expect(rt, "refused");
    write!(text, " {targets}").expect(rt, "refused");
}

// Notes what a balancer selects.
fn select<R: Abort + Wait + Clock + Copy + Drop>(
    rt: &R,
    alloc: Global,
    balancer: &Tested<RoundRobin, R>,
    text: &mut String,
) {
    let found = balancer.select(rt, alloc, b"k", 1).expect(rt, "refused");
    note(rt, text, &found);
}

// A balancer that leaves twice; what it had is no target then, and isn't ready.
fn leaves<R: Abort + Wait + Clock + Copy + Drop>(
    rt: &R,
    alloc: Global,
    registry: &Shared<R>,
    balancer: &Tested<RoundRobin, R>,
    text: &mut String,
) {
    count(rt, alloc, registry, text);
    balancer.leave(rt);
    count(rt, alloc, registry, text);
    let second = Backend::new(alloc, "1.0.0.2:80").expect(rt, "refused");
    let is_ready = balancer.newest_ready(rt, &second);
    write!(text, " {is_ready}").expect(rt, "refused");
    balancer.leave(rt);
}

// A balancer that is dropped while the registry is out of its lock.
fn leaves_locked<R: Abort + Wait + Clock + Copy + Drop>(
    rt: &R,
    alloc: Global,
    registry: &Shared<R>,
    balancer: Tested<RoundRobin, R>,
    text: &mut String,
) {
    select(rt, alloc, &balancer, text);
    let held = take_registry(registry, rt);
    drop(balancer);
    put_registry(registry, held);
    count(rt, alloc, registry, text);
}

// Two of three balancers that leave, the second one as it is dropped.
fn leave<R: Abort + Wait + Clock + Copy + Drop>(
    rt: &R,
    alloc: Global,
    registry: &Arc<Shared<R>>,
    text: &mut String,
) {
    let stays = sharing(rt, alloc, registry, "1.0.0.1:80");
    let dropped = sharing(rt, alloc, registry, "1.0.0.3:80");
    let second = sharing(rt, alloc, registry, "1.0.0.2:80");
    leaves(rt, alloc, &**registry, &second, text);
    drop(second);
    leaves_locked(rt, alloc, &**registry, dropped, text);
    select(rt, alloc, &stays, text);
}

// What leaves has no targets any more, and what else is in the registry stays; a balancer leaves when it is dropped, also while the
// registry is out of its lock.
#[test]
fn views_leave(rt: HostRuntime) {
    let registry = HealthRegistry::new(rt.alloc()).expect(&rt, "refused");
    let registry = Arc::new(rt.alloc(), registry).expect(&rt, "refused");
    let mut text = String::new(rt.alloc());
    leave(&rt, rt.alloc(), &registry, &mut text);
    assert_eq!(rt; text.as_str(), " 3 2 false 1.0.0.3:80/1 1 1.0.0.1:80/1");
}

//! A group, by the types' defaults alone: its discovery and its check are a caller's, each in a box.
use crate::fixtures::{FIRST, Words, listed, new_check, new_words, note};
use lb_crowd::turns::{Still, turn};
use log::Log;
use pingora_load_balancing::background::shutdown_pair;
use pingora_load_balancing::discovery::{
    BoxedDiscovery, Discovered, DiscoverySource, ServiceDiscovery, Settings,
};
use pingora_load_balancing::health_check::BoxedCheck;
use pingora_load_balancing::prelude::{Backends, HealthCheckService, HealthRegistry};
use pingora_load_balancing::selection::Consistent;
use pingora_load_balancing::{
    Backend, InetAddr, LendsToThreads, LoadBalancerGroup, Refusal, SocketAddr,
};
use std::alloc::Global;
use std::process::Abort;
use std::sync::atomic::Ordering::SeqCst;
use std::sync::{Arc, Wait};
use std::thread::Threads;

// Finds three backends, and disables the third.
#[derive(Drop)]
struct TwoOfThree {}

impl ServiceDiscovery for TwoOfThree {
    fn discover(&self, alloc: Global) -> Result<Discovered, Refusal> {
        let set = listed(alloc, FIRST)?;
        let mut settings = Settings::new(alloc);
        let third = SocketAddr::Inet(InetAddr::V4([1, 0, 0, 3], 80));
        settings.insert((third, 1), false)?;
        Ok((set, settings))
    }
}

// Notes whether the second backend is ready in a group, and what the first slot selects.
fn look<W: Abort + Wait>(
    rt: &W,
    alloc: Global,
    group: &LoadBalancerGroup<Consistent>,
    text: &mut String,
) {
    let second = Backend::new(alloc, "1.0.0.2:80").expect(rt, "refused");
    let is_ready = group.newest_ready(rt, &second);
    write!(text, " {is_ready}").expect(rt, "refused");
    let found = group.select(rt, alloc, 0, b"k", 1000);
    note(rt, text, &found.expect(rt, "refused"));
}

// Updates a group, and builds what its first slot serves then.
fn build<W: Abort + Wait>(rt: &W, alloc: Global, group: &LoadBalancerGroup<Consistent>) {
    group.update(rt, alloc, &mut Still {}).expect(rt, "refused");
    for _ in 0..2 {
        turn(rt, alloc, &**group.shared(), 0).expect(rt, "refused");
    }
}

// Notes what a group shows before its update, after a pass of the service that finds the second backend down, and after a pass of its own
// that finds it up; the first one is disabled then.
fn grouped<W: Abort + Log + Threads + Wait + Sync>(
    rt: &W,
    alloc: Global,
    group: &LoadBalancerGroup<Consistent>,
    service: &HealthCheckService,
    words: &Words,
    text: &mut String,
) {
    look(rt, alloc, group, text);
    build(rt, alloc, group);
    words.is_down.store(true, SeqCst);
    let (_signal, watch) = shutdown_pair(alloc).expect(rt, "refused");
    service.run(rt, alloc, &mut Still {}, &watch, None);
    look(rt, alloc, group, text);
    words.is_down.store(false, SeqCst);
    group.run_health_check(rt, alloc).expect(rt, "refused");
    let first = Backend::new(alloc, "1.0.0.1:80").expect(rt, "refused");
    group.flag(rt, &first, false);
    look(rt, alloc, group, text);
}

// A group selects by its ring what its discovery found, but for what is disabled and what is down: by a pass of a service over its
// registry, or by one of its own.
#[test]
fn boxes_of_a_group(rt: HostRuntime) {
    let alloc = rt.alloc();
    let words = new_words(&rt, alloc, false);
    let check: BoxedCheck = Box::new(alloc, new_check(&rt, &words)).expect(&rt, "refused");
    let registry: HealthRegistry = HealthRegistry::new(alloc).expect(&rt, "refused");
    registry.set_health_check(&rt, check).expect(&rt, "refused");
    let registry = Arc::new(alloc, registry).expect(&rt, "refused");
    let service = HealthCheckService::new(Arc::try_clone(&registry).expect(&rt, "refused"));
    let found: BoxedDiscovery = Box::new(alloc, TwoOfThree {}).expect(&rt, "refused");
    let found = DiscoverySource::Boxed(found);
    let backends = Backends::new_with_health_registry(&rt, alloc, found, registry);
    let backends: Backends = backends.expect(&rt, "refused");
    let mut configs = Vec::new(alloc);
    configs.push(None).expect(&rt, "refused");
    let group = LoadBalancerGroup::from_backends_with_configs(&rt, alloc, backends, configs);
    let mut group: LoadBalancerGroup<Consistent> = group.expect(&rt, "refused");
    group.parallel_health_check = true;
    let mut text = String::new(alloc);
    grouped(&rt, alloc, &group, &service, &words, &mut text);
    let wanted = " false none false 1.0.0.1:80/1 true 1.0.0.2:80/1";
    assert_eq!(rt; (text.as_str(), words.told.load(SeqCst)), (wanted, 11));
}

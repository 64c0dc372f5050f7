//! What a caller boxes is what a pass calls: a discovery, a check over the network, and the check's observer.
use crate::asserted::assert_same;
use crate::health::passes::{is_ready, update_by};
use crate::selection::fixtures::set_of;
use lb_health_core::health_check::{
    BoxedCheck, HealthCheck, HealthObserve, HealthObserveCallback, IdentitySummary,
};
use lb_health_core::registry::RegistryCore;
use lb_health_http::TcpHealthCheck;
use lb_health_view::discovery::{BoxedDiscovery, DiscoverySource, Static};
use lb_health_view::passes::run_health_check;
use lb_health_view::view::ViewCore;
use lb_select_base::backend::Backend;
use lb_select_base::refusal::Refusal;
use log::Log;
use std::alloc::Global;
use std::sync::Arc;
use std::sync::atomic::AtomicU64;
use std::sync::atomic::Ordering::SeqCst;

// An observer that adds 1 for each backend of weight 7 that became unhealthy, and 10 for any other report.
#[derive(Drop)]
struct Adds {
    told: Arc<AtomicU64>,
}

impl HealthObserve for Adds {
    fn observe(&self, target: &Backend, healthy: bool) {
        let is_wanted = target.weight == 7 && !healthy;
        self.told.fetch_add(if is_wanted { 1 } else { 10 }, SeqCst);
    }
}

// Updates a new view by the discovery, and checks its first backend; whether that is ready before and after.
fn checked(
    alloc: Global,
    source: &DiscoverySource<BoxedDiscovery>,
    check: &impl HealthCheck,
    log: &impl Log,
) -> Result<[bool; 2], Refusal> {
    let mut registry = RegistryCore::new(alloc);
    let mut view = ViewCore::register(alloc, &mut registry)?;
    checked_in(alloc, source, &mut registry, &mut view, check, log)
}

// The same in this view.
fn checked_in(
    alloc: Global,
    source: &DiscoverySource<BoxedDiscovery>,
    registry: &mut RegistryCore,
    view: &mut ViewCore,
    check: &impl HealthCheck,
    log: &impl Log,
) -> Result<[bool; 2], Refusal> {
    update_by(alloc, source, registry, view)?;
    let before = is_ready(registry, view);
    run_health_check(log, alloc, registry, check)?;
    Ok([before, is_ready(registry, view)])
}

// Where nobody listens, what the discovery found becomes unhealthy, and the observer is told so once.
#[test]
fn boxes_are_called(rt: HostRuntime) {
    let alloc = rt.alloc();
    let told = Arc::new(alloc, AtomicU64::new(0)).expect(&rt, "refused");
    let adds = Adds {
        told: Arc::try_clone(&told).expect(&rt, "refused"),
    };
    let observer: HealthObserveCallback = Box::new(alloc, adds).expect(&rt, "refused");
    let check = TcpHealthCheck::new(rt).with_callbacks(Some(observer), IdentitySummary);
    let found = set_of(alloc, &[("127.0.0.1:1", 7)]).expect(&rt, "refused");
    let found: BoxedDiscovery = Box::new(alloc, Static::new(found)).expect(&rt, "refused");
    let source = DiscoverySource::Boxed(found);
    let ready = checked(alloc, &source, &check, &rt);
    let plain: BoxedCheck = Box::new(alloc, TcpHealthCheck::new(rt)).expect(&rt, "refused");
    let ready = [ready, checked(alloc, &source, &plain, &rt)];
    assert_same(
        &rt,
        &(ready, told.load(SeqCst)),
        &([Ok([true, false]); 2], 1),
        &"what is boxed",
    );
}

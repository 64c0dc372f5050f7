//! The calls of a group's handle.
ghost use Rattle.std.specs.Prelude.{◌≡◌};
ghost use Rattle.std.specs.Arc.{arc_value};

use crate::calls::{
    AskedHandle, BackendsCall, ByPasses, HandleAnswer, HandleByPasses, HandleCall,
    HandlePassAnswer, HandlePassCall, HandleReadings,
};
use lb_background::lending::{LendsToThreads, SharedBackends};
use lb_balancer_group::group::LoadBalancerGroup;
use lb_health_core::health_check::HealthCheck;
use lb_health_core::keys::KeyRule;
use lb_health_view::discovery::ServiceDiscovery;
use lb_rebuild::board::GroupPass;
use lb_select_base::backend::Backend;
use lb_select_base::moments::MomentSource;
use lb_select_base::refusal::Refusal;
use lb_select_base::walk::BackendSelection;
use std::alloc::Global;
use std::sync::Wait;

// What is read of a handle and of a slot.
fn readings_of<
    S: BackendSelection,
    D: ServiceDiscovery + Drop,
    R: KeyRule + Drop,
    C: HealthCheck + Drop,
    W: Wait,
>(rt: &W, group: &LoadBalancerGroup<S, D, R, C>, slot: usize) -> HandleReadings {
    HandleReadings {
        selector_count: group.selector_count(),
        worker_count: group.worker_count(),
        is_cancelled: group.is_cancelled(rt),
        coalesced: group.selector_coalesced_rebuilds(rt, slot),
        failed: group.selector_failed_rebuilds(rt, slot),
        timing: group.last_update_timing(rt),
        is_timed: group.selector_last_update_timing(rt, slot).is_some(),
    }
}

// Makes a call of borrowed backends.
fn answer_of<B: LendsToThreads, W: Wait>(
    rt: &W,
    backends: &SharedBackends<'_, B>,
    call: BackendsCall<'_>,
) -> HandleAnswer {
    match call {
        BackendsCall::SetEnable(backend, enabled) => {
            backends.set_enable(rt, backend, enabled);
            HandleAnswer::Done(Ok(()))
        }
        BackendsCall::Ready(backend) => HandleAnswer::Ready(backends.ready(rt, backend)),
        BackendsCall::Members => HandleAnswer::Members(backends.get_backend(rt)),
        BackendsCall::Newest => HandleAnswer::Newest(backends.generation(rt)),
    }
}

impl<
    S: BackendSelection,
    D: ServiceDiscovery + Drop,
    R: KeyRule + Drop,
    C: HealthCheck + Drop,
> AskedHandle for LoadBalancerGroup<S, D, R, C> {
    fn ask<W: Wait, K: MomentSource>(
        &self,
        rt: &W,
        alloc: Global,
        call: HandleCall<'_>,
        clock: &mut K,
    ) -> HandleAnswer {
        match call {
            HandleCall::Update => HandleAnswer::Generation(self.update(rt, alloc, clock)),
            HandleCall::Select(slot, key) => {
                HandleAnswer::Selected(self.select(rt, alloc, slot, key, 4))
            }
            HandleCall::SelectByReader(slot, key) => {
                HandleAnswer::Selected(self.reader().select(rt, alloc, slot, key, 4))
            }
            HandleCall::SetLoad(backend, load) => {
                HandleAnswer::Done(self.set_load(rt, alloc, backend, load))
            }
            HandleCall::OfBackends(call) => answer_of(rt, &self.backends(), call),
            HandleCall::Newest => HandleAnswer::Newest(self.backend_generation(rt)),
            HandleCall::Served(slot) => HandleAnswer::Served(self.selector_generation(rt, slot)),
            HandleCall::AreReadyFor(generation) => {
                HandleAnswer::Ready(self.selectors_ready_for(rt, generation))
            }
            HandleCall::Read(slot) => HandleAnswer::Readings(readings_of(rt, self, slot)),
            HandleCall::Cancel => {
                self.cancel(rt);
                HandleAnswer::Done(Ok(()))
            }
        }
    }
}

impl<
    S: BackendSelection,
    D: ServiceDiscovery + Drop,
    R: KeyRule + Drop,
    C: HealthCheck + Drop,
> ByPasses for LoadBalancerGroup<S, D, R, C> {
    ghost board = { λ g. (arc_value g.shared).board };

    fn pass(&self) -> GroupPass {
        LoadBalancerGroup::pass(self)
    }

    fn meet<W: Wait>(&self, rt: &W, pass: &mut GroupPass, other: &mut GroupPass) {
        LoadBalancerGroup::meet(self, rt, pass, other);
    }
}

// Enters slot 0 of a handle as a reader, selects by it and leaves; the generation that it entered, and its first candidate.
fn visited<
    S: BackendSelection,
    D: ServiceDiscovery + Drop,
    R: KeyRule + Drop,
    C: HealthCheck + Drop,
    W: Wait,
>(
    rt: &W,
    alloc: Global,
    group: &LoadBalancerGroup<S, D, R, C>,
    pass: &mut GroupPass,
) -> Result<(u64, Option<Backend>), Refusal>
    requires { pass.old.board ≡ (arc_value group.now.shared).board }
    ensures { pass.new.board ≡ (arc_value group.now.shared).board }
{
    let reader = group.enter_as(rt, 0, pass)?;
    let generation = reader.generation();
    let answer = group.select_in(rt, alloc, &reader, b"k", 1, &|_backend: &Backend| true);
    group.leave(rt, reader);
    Ok((generation, answer?))
}

impl<
    S: BackendSelection,
    D: ServiceDiscovery + Drop,
    R: KeyRule + Drop,
    C: HealthCheck + Drop,
> HandleByPasses for LoadBalancerGroup<S, D, R, C> {
    fn ask_as<W: Wait, K: MomentSource>(
        &self,
        rt: &W,
        alloc: Global,
        call: HandlePassCall,
        clock: &mut K,
        pass: &mut GroupPass,
    ) -> HandlePassAnswer {
        match call {
            HandlePassCall::Update => {
                HandlePassAnswer::Generation(self.update_as(rt, alloc, clock, pass))
            }
            HandlePassCall::Read(slot) => {
                let served = self.selector_generation_as(slot, pass);
                HandlePassAnswer::Read(self.backend_generation_as(pass), served)
            }
            HandlePassCall::AreReadyFor(generation) => {
                HandlePassAnswer::Ready(self.selectors_ready_for_as(generation, pass))
            }
            HandlePassCall::Visit => HandlePassAnswer::Visited(visited(rt, alloc, self, pass)),
        }
    }
}

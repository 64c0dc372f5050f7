//! The group of a pool: what a proxy asks of it, and how it is made.
//!
//! Few functions have the group's own type: each that has it takes the checker some seconds more. The others are generic over `PoolGroup`,
//! which has few methods for the same reason: each takes some seconds where a function is given the group.

use crate::pool::Common;
use crate::shown::ShownSlot;
use crate::source::{PoolBackends, PoolDiscovery};
use lb_proxy::attempts::Attempts;
use log::Log;
use pingora_load_balancing::background::RuntimeClock;
use pingora_load_balancing::discovery::{DiscoverySource, ServiceDiscovery};
use pingora_load_balancing::health_check::{HealthCheck, KeyRule, NoRule, Rule};
use pingora_load_balancing::selection::{BackendSelection, Chosen, Kind};
use pingora_load_balancing::{
    Backend, Backends, GateRefusal, HealthRegistry, LoadBalancerGroup, Refusal, SelectorRebuildGate,
};
use std::alloc::Global;
use std::collections::BTreeSet;
use std::sync::{Arc, Wait};
use std::time::Clock;

// How many candidates a selection looks at.
const CANDIDATES: usize = 256;

/// A call of the group of a pool.
pub enum Call<'c> {
    /// What is the newest generation?
    Generation,
    /// Does each slot serve the newest generation?
    IsBuilt,
    /// What do the slots serve, in order?
    Slots(Global),
    /// Which backends are there?
    Members,
    /// Is this backend ready?
    IsReady(&'c Backend),
    /// Enables or disables a backend.
    SetEnabled(&'c Backend, bool),
    /// Sets the load of a backend, for slots that go by loads.
    SetLoad(Global, &'c Backend, u64),
}

/// What a call answers.
#[derive(Drop)]
pub enum Answer {
    Generation(u64),
    Holds(bool),
    Slots(Result<Vec<ShownSlot>, Refusal>),
    Members(Result<Arc<BTreeSet<Backend>>, Refusal>),
    Done(Result<(), Refusal>),
}

/// What a proxy asks of the group of a pool. Slots are named by their numbers.
pub trait PoolGroup {
    /// Discovers the backends, and has the workers build. Returns the generation.
    fn update<W: Wait + Clock + Copy + Drop>(&self, rt: &W, alloc: Global) -> Result<u64, Refusal>;

    /// Returns a ready backend of what the slot serves, none that was tried before.
    fn select<W: Wait>(
        &self,
        rt: &W,
        alloc: Global,
        slot: usize,
        key: &[u8],
        attempts: &Attempts,
    ) -> Result<Option<Backend>, Refusal>;

    /// Makes a call, and returns the answer of its kind.
    fn ask<W: Wait>(&self, rt: &W, call: Call<'_>) -> Answer;
}

impl<
    S: BackendSelection,
    D: ServiceDiscovery + Drop,
    K: KeyRule + Drop,
    C: HealthCheck + Drop,
> PoolGroup for LoadBalancerGroup<S, D, K, C> {
    fn update<W: Wait + Clock + Copy + Drop>(&self, rt: &W, alloc: Global) -> Result<u64, Refusal> {
        LoadBalancerGroup::update(self, rt, alloc, &mut RuntimeClock::new(*rt))
    }

    fn select<W: Wait>(
        &self,
        rt: &W,
        alloc: Global,
        slot: usize,
        key: &[u8],
        attempts: &Attempts,
    ) -> Result<Option<Backend>, Refusal> {
        let accept = |backend: &Backend, ready: bool| ready && !attempts.was_tried(backend);
        self.select_with(rt, alloc, slot, key, CANDIDATES, &accept)
    }

    fn ask<W: Wait>(&self, rt: &W, call: Call<'_>) -> Answer {
        match call {
            Call::Generation => Answer::Generation(self.backend_generation(rt)),
            Call::IsBuilt => {
                Answer::Holds(self.selectors_ready_for(rt, self.backend_generation(rt)))
            }
            Call::Slots(alloc) => Answer::Slots(slots_of(rt, alloc, self)),
            Call::Members => Answer::Members(self.shared().get_backend(rt)),
            Call::IsReady(backend) => Answer::Holds(self.shared().ready(rt, backend)),
            Call::SetEnabled(backend, enabled) => {
                self.shared().set_enable(rt, backend, enabled);
                Answer::Done(Ok(()))
            }
            Call::SetLoad(alloc, backend, load) => {
                Answer::Done(self.set_load(rt, alloc, backend, load))
            }
        }
    }
}

// What the slots of a group serve.
fn slots_of<
    S: BackendSelection,
    D: ServiceDiscovery + Drop,
    K: KeyRule + Drop,
    C: HealthCheck + Drop,
    W: Wait,
>(rt: &W, alloc: Global, group: &LoadBalancerGroup<S, D, K, C>) -> Result<Vec<ShownSlot>, Refusal> {
    let mut slots = Vec::new(alloc);
    for slot in 0..group.selector_count() {
        slots.push(ShownSlot {
            generation: group.selector_generation(rt, slot).unwrap_or(0),
            failed: group.selector_failed_rebuilds(rt, slot).unwrap_or(0),
        })?;
    }
    Ok(slots)
}

/// The group that a proxy makes for a pool.
pub type Group<R, C> = LoadBalancerGroup<Chosen, PoolDiscovery<R>, Rule<NoRule>, C>;

/// Returns the group of a pool, with a slot of each of these kinds, on this registry and the gate of all. No worker runs yet.
pub fn group_of<R: Log + Wait + Copy + Drop, C: HealthCheck + Drop>(
    rt: R,
    alloc: Global,
    backends: Arc<PoolBackends>,
    kinds: Vec<Option<Kind>>,
    common: &Common<C>,
) -> Result<Group<R, C>, Refusal> {
    let registry = Arc::try_clone(&common.registry)?;
    let gate = Arc::try_clone(&common.gate)?;
    let discovery = PoolDiscovery { rt, backends };
    gated(&rt, alloc, discovery, kinds, registry, gate)
}

// A group over this discovery, with a slot of each of these configurations, on this registry and this gate.
fn gated<
    S: BackendSelection,
    D: ServiceDiscovery + Drop,
    K: KeyRule + Drop,
    C: HealthCheck + Drop,
    W: Wait,
>(
    rt: &W,
    alloc: Global,
    discovery: D,
    configs: Vec<Option<S::Config>>,
    registry: Arc<HealthRegistry<K, C>>,
    gate: Arc<SelectorRebuildGate>,
) -> Result<LoadBalancerGroup<S, D, K, C>, Refusal> {
    let discovery = DiscoverySource::Boxed(discovery);
    let backends = Backends::new_with_health_registry(rt, alloc, discovery, registry)?;
    let mut group = LoadBalancerGroup::from_backends_with_configs(rt, alloc, backends, configs)?;
    let refusal = match group.with_rebuild_gate(rt, alloc, gate) {
        Ok(()) => return Ok(group),
        Err(GateRefusal::NotMade(refusal)) => refusal,
        Err(GateRefusal::WasUpdated) => Refusal::NoSuch,
    };
    Err(refusal)
}

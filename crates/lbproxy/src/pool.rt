//! A pool: a group with a slot for each listener on it, and what its backends have carried.

use crate::group::{Answer, Call, PoolGroup};
use crate::shown::ShownSlot;
use crate::source::PoolBackends;
use lb_proxy::attempts::Attempts;
use lb_proxy::event_loop::upstream::Happened;
use log::{Log, info, warn};
use pingora_load_balancing::health_check::{HealthCheck, NoRule, Rule};
use pingora_load_balancing::{Backend, HealthRegistry, Refusal, SelectorRebuildGate};
use std::alloc::{AllocError, Global};
use std::collections::{BTreeMap, BTreeSet};
use std::sync::{Arc, Mutex, Wait};
use std::time::Clock;

/// The registry of all pools that have the same check.
pub type Registry<C> = HealthRegistry<Rule<NoRule>, C>;

/// What a backend has carried. In http mode `live` counts the requests that are in progress, and `total` the connections.
#[derive(Clone, Copy)]
pub struct Traffic {
    pub live: u64,
    pub total: u64,
    pub requests: u64,
    pub refused: u64,
    pub sent: u64,
    pub received: u64,
}

/// What the backends of a pool have carried.
pub type TrafficTable = BTreeMap<Backend, Traffic>;

/// A pool over a group of type `G`.
#[derive(Drop)]
pub struct Pool<G> {
    pub name: String,
    pub group: G,
    pub backends: Arc<PoolBackends>,
    pub traffic: Mutex<TrafficTable>,
    // Whether a slot goes by loads.
    by_load: bool,
}

/// What all pools that have the same check share.
#[derive(Drop)]
pub struct Common<C: HealthCheck + Drop> {
    pub registry: Arc<Registry<C>>,
    pub gate: Arc<SelectorRebuildGate>,
}

/// What the pools share, and for each pool, in order, what it has in place of that where its check is its own.
#[derive(Drop)]
pub struct Commons<C: HealthCheck + Drop> {
    pub shared: Common<C>,
    pub own: Vec<Option<Common<C>>>,
}

impl<C: HealthCheck + Drop> Commons<C> {
    /// Returns what the pool of this number has.
    pub fn of(&self, pool: usize) -> &Common<C> {
        match self.own.get(pool) {
            Some(Some(own)) => own,
            _ => &self.shared,
        }
    }
}

impl<G> Pool<G> {
    /// Returns a pool over a group. `by_load` says whether a slot of it goes by loads.
    pub fn new(
        alloc: Global,
        name: String,
        backends: Arc<PoolBackends>,
        group: G,
        by_load: bool,
    ) -> Pool<G> {
        Pool {
            name,
            group,
            backends,
            traffic: Mutex::new(BTreeMap::new(alloc)),
            by_load,
        }
    }

    /// Returns what a backend has carried.
    pub fn traffic_of<W: Wait>(&self, rt: &W, backend: &Backend) -> Traffic {
        match self.traffic.lock(rt).get(backend) {
            Some(traffic) => *traffic,
            None => Traffic::new(),
        }
    }
}

impl<G: PoolGroup> Pool<G> {
    /// Discovers the backends, and has the workers build.
    pub fn update<W: Log + Wait + Clock + Copy + Drop>(&self, rt: &W, alloc: Global) {
        let name = self.name.as_str();
        match self.group.update(rt, alloc) {
            Ok(generation) => info!(rt; "pool {name}: generation {generation}"),
            Err(refusal) => warn!(rt; "pool {name}: stays as it was: {refusal}"),
        }
    }

    /// Returns a ready backend for a connection, none that was tried before.
    pub fn select<W: Log + Wait>(
        &self,
        rt: &W,
        alloc: Global,
        slot: usize,
        key: &[u8],
        attempts: &Attempts,
    ) -> Option<Backend> {
        match self.group.select(rt, alloc, slot, key, attempts) {
            Ok(selected) => selected,
            Err(refusal) => {
                let name = self.name.as_str();
                warn!(rt; "pool {name}: no selection: {refusal}");
                None
            }
        }
    }

    /// Takes note of what happened to a connection or a request at the backend. A slot that goes by loads learns how many are live.
    ///
    /// Where memory is refused, it isn't counted.
    pub fn note<W: Wait>(&self, rt: &W, alloc: Global, backend: &Backend, happened: Happened) {
        let mut traffic = self.traffic.lock(rt);
        if let Ok(live) = counted(&mut *traffic, alloc, backend, happened) {
            if self.by_load {
                let _ = self.group.ask(rt, Call::SetLoad(alloc, backend, live));
            }
        }
    }

    /// Returns the newest generation.
    pub fn generation<W: Wait>(&self, rt: &W) -> u64 {
        match self.group.ask(rt, Call::Generation) {
            Answer::Generation(generation) => generation,
            _ => 0,
        }
    }

    /// Returns whether each slot serves the newest generation.
    pub fn is_built<W: Wait>(&self, rt: &W) -> bool {
        self.holds(rt, Call::IsBuilt)
    }

    /// Returns what the slots serve, in order.
    pub fn slots<W: Wait>(&self, rt: &W, alloc: Global) -> Result<Vec<ShownSlot>, Refusal> {
        match self.group.ask(rt, Call::Slots(alloc)) {
            Answer::Slots(slots) => slots,
            _ => Err(Refusal::NoSuch),
        }
    }

    /// Returns the backends.
    pub fn members<W: Wait>(&self, rt: &W) -> Result<Arc<BTreeSet<Backend>>, Refusal> {
        match self.group.ask(rt, Call::Members) {
            Answer::Members(members) => members,
            _ => Err(Refusal::NoSuch),
        }
    }

    /// Returns whether the backend is in the pool.
    pub fn has<W: Wait>(&self, rt: &W, backend: &Backend) -> bool {
        match self.members(rt) {
            Ok(members) => members.contains(backend),
            Err(_) => true,
        }
    }

    /// Returns whether the backend is ready.
    pub fn is_ready<W: Wait>(&self, rt: &W, backend: &Backend) -> bool {
        self.holds(rt, Call::IsReady(backend))
    }

    /// Enables or disables the backend.
    pub fn set_enabled<W: Wait>(&self, rt: &W, backend: &Backend, enabled: bool) {
        let _ = self.group.ask(rt, Call::SetEnabled(backend, enabled));
    }

    // Makes a call that answers whether something holds.
    fn holds<W: Wait>(&self, rt: &W, call: Call<'_>) -> bool {
        matches!(self.group.ask(rt, call), Answer::Holds(true))
    }
}

impl Traffic {
    // Nothing was carried yet.
    fn new() -> Traffic {
        Traffic {
            live: 0,
            total: 0,
            requests: 0,
            refused: 0,
            sent: 0,
            received: 0,
        }
    }

    // Counts what happened.
    fn count(&mut self, happened: Happened) {
        match happened {
            Happened::Began => {
                self.live = self.live.saturating_add(1);
                self.total = self.total.saturating_add(1);
            }
            Happened::Resumed => self.live = self.live.saturating_add(1),
            Happened::Asked => self.requests = self.requests.saturating_add(1),
            Happened::Refused => {
                self.live = self.live.saturating_sub(1);
                self.refused = self.refused.saturating_add(1);
            }
            Happened::Ended { sent, received } => {
                self.live = self.live.saturating_sub(1);
                self.sent = self.sent.saturating_add(sent);
                self.received = self.received.saturating_add(received);
            }
        }
    }
}

// Counts what happened at the backend. Returns how many connections are live there.
fn counted(
    table: &mut TrafficTable,
    alloc: Global,
    backend: &Backend,
    happened: Happened,
) -> Result<u64, AllocError> {
    if let Some(traffic) = table.get_mut(backend) {
        traffic.count(happened);
        return Ok(traffic.live);
    }
    let mut traffic = Traffic::new();
    traffic.count(happened);
    table.insert(backend.copied(alloc)?, traffic)?;
    Ok(traffic.live)
}

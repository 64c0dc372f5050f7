//! What a proxy is doing, as values that the status page shows.

use crate::group::PoolGroup;
use crate::pool::Pool;
use crate::proxy::Proxy;
use pingora_load_balancing::{Backend, Refusal};
use serde::Serialize;
use std::alloc::Global;
use std::sync::Wait;
use std::sync::atomic::Ordering;

/// A backend, and what it has carried.
#[derive(Drop, Serialize)]
pub struct ShownBackend {
    pub address: String,
    pub ready: bool,
    pub live: u64,
    pub total: u64,
    pub requests: u64,
    pub refused: u64,
    pub sent: u64,
    pub received: u64,
}

/// What a slot of a pool serves.
#[derive(Clone, Copy, Serialize)]
pub struct ShownSlot {
    pub generation: u64,
    pub failed: u64,
}

/// A pool. `fault` says what is wrong with its file.
#[derive(Drop, Serialize)]
pub struct ShownPool {
    pub name: String,
    pub generation: u64,
    pub fault: String,
    pub slots: Vec<ShownSlot>,
    pub backends: Vec<ShownBackend>,
}

/// A proxy.
#[derive(Drop, Serialize)]
pub struct Shown {
    pub live: u64,
    pub total: u64,
    pub requests: u64,
    pub unserved: u64,
    pub pools: Vec<ShownPool>,
}

impl Shown {
    /// Returns whether a pool has a ready backend.
    pub fn is_ready(&self) -> bool {
        self.pools
            .iter()
            .any(|pool| pool.backends.iter().any(|backend| backend.ready))
    }
}

/// Returns what the proxy is doing now.
pub fn shown_of<R: Wait, G: PoolGroup>(
    rt: &R,
    alloc: Global,
    proxy: &Proxy<G>,
) -> Result<Shown, Refusal> {
    let mut pools = Vec::new(alloc);
    for pool in proxy.pools.iter() {
        pools.push(shown_pool(rt, alloc, pool)?)?;
    }
    Ok(Shown {
        live: proxy.counts.live.load(Ordering::SeqCst),
        total: proxy.counts.total.load(Ordering::SeqCst),
        requests: proxy.counts.requests.load(Ordering::SeqCst),
        unserved: proxy.counts.unserved.load(Ordering::SeqCst),
        pools,
    })
}

// What a pool is doing.
fn shown_pool<R: Wait, G: PoolGroup>(
    rt: &R,
    alloc: Global,
    pool: &Pool<G>,
) -> Result<ShownPool, Refusal> {
    Ok(ShownPool {
        name: pool.name.clone()?,
        generation: pool.generation(rt),
        fault: pool.backends.fault(rt)?,
        slots: pool.slots(rt, alloc)?,
        backends: shown_backends(rt, alloc, pool)?,
    })
}

// The backends of a pool, in order.
fn shown_backends<R: Wait, G: PoolGroup>(
    rt: &R,
    alloc: Global,
    pool: &Pool<G>,
) -> Result<Vec<ShownBackend>, Refusal> {
    let members = pool.members(rt)?;
    let mut backends = Vec::new(alloc);
    for backend in members.iter() {
        backends.push(shown_backend(rt, alloc, pool, backend)?)?;
    }
    Ok(backends)
}

// A backend, and what it has carried.
fn shown_backend<R: Wait, G: PoolGroup>(
    rt: &R,
    alloc: Global,
    pool: &Pool<G>,
    backend: &Backend,
) -> Result<ShownBackend, Refusal> {
    let traffic = pool.traffic_of(rt, backend);
    Ok(ShownBackend {
        address: format!(in alloc; "{backend}")?,
        ready: pool.is_ready(rt, backend),
        live: traffic.live,
        total: traffic.total,
        requests: traffic.requests,
        refused: traffic.refused,
        sent: traffic.sent,
        received: traffic.received,
    })
}

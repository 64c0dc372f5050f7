//! What the loops of a proxy share: the pools, the listeners and the counts.

use crate::group::PoolGroup;
use crate::pool::Pool;
use lb_proxy::attempts::Attempts;
use lb_proxy::event_loop::settings::Settings;
use lb_proxy::event_loop::upstream::{Counted, Happened, Upstream};
use log::{Log, warn};
use pingora_load_balancing::Backend;
use std::alloc::Global;
use std::sync::atomic::{AtomicU64, Ordering};
use std::sync::{Arc, Wait};

/// Where the selections of a listener go: to its pool, by number, and its slot in the group of that pool.
#[derive(Clone, Copy)]
pub struct Listen {
    pub pool: usize,
    pub slot: usize,
}

/// Counts of all connections of clients.
#[derive(Drop)]
pub struct Counts {
    pub live: AtomicU64,
    pub total: AtomicU64,
    /// Requests of HTTP.
    pub requests: AtomicU64,
    /// Connections and requests that no backend took.
    pub unserved: AtomicU64,
}

/// What the loops share, over groups of type `G`.
#[derive(Drop)]
pub struct Proxy<G> {
    pub pools: Vec<Pool<G>>,
    pub listens: Vec<Listen>,
    pub settings: Arc<Settings>,
    pub counts: Counts,
    /// 0 while it runs; else no connection is taken any more.
    pub ends: AtomicU64,
}

impl<G> Proxy<G> {
    // The pool of a listener, and its slot there.
    fn slot_of(&self, listener: usize) -> Option<(&Pool<G>, usize)> {
        let listen = self.listens.get(listener)?;
        let pool = self.pools.get(listen.pool)?;
        Some((pool, listen.slot))
    }

    // Warns that the pool of a listener has no ready backend.
    fn warn_unserved<W: Log>(&self, rt: &W, listener: usize) {
        if let Some((pool, _)) = self.slot_of(listener) {
            let name = pool.name.as_str();
            warn!(rt; "pool {name}: no ready backend");
        }
    }
}

impl<G: PoolGroup> Upstream for Proxy<G> {
    fn select<W: Log + Wait>(
        &self,
        rt: &W,
        alloc: Global,
        listener: usize,
        key: &[u8],
        attempts: &Attempts,
    ) -> Option<Backend> {
        let (pool, slot) = self.slot_of(listener)?;
        pool.select(rt, alloc, slot, key, attempts)
    }

    fn note<W: Log + Wait>(
        &self,
        rt: &W,
        alloc: Global,
        listener: usize,
        backend: &Backend,
        happened: Happened,
    ) {
        if let Some((pool, _)) = self.slot_of(listener) {
            pool.note(rt, alloc, backend, happened);
        }
    }

    fn has<W: Log + Wait>(&self, rt: &W, listener: usize, backend: &Backend) -> bool {
        match self.slot_of(listener) {
            Some((pool, _)) => pool.has(rt, backend),
            None => false,
        }
    }

    fn reserve(&self) -> bool {
        let limit = self.settings.limits.max_connections;
        let has_room = self.counts.live.fetch_add(1, Ordering::SeqCst) < limit;
        if !has_room {
            self.counts.live.fetch_sub(1, Ordering::SeqCst);
        }
        has_room
    }

    fn count<W: Log>(&self, rt: &W, counted: Counted) {
        match counted {
            Counted::Connection => {
                self.counts.total.fetch_add(1, Ordering::SeqCst);
            }
            Counted::Freed => {
                self.counts.live.fetch_sub(1, Ordering::SeqCst);
            }
            Counted::Request => {
                self.counts.requests.fetch_add(1, Ordering::SeqCst);
            }
            Counted::Unserved { listener } => {
                self.counts.unserved.fetch_add(1, Ordering::SeqCst);
                self.warn_unserved(rt, listener);
            }
        }
    }

    fn ends(&self) -> bool {
        self.ends.load(Ordering::SeqCst) != 0
    }
}

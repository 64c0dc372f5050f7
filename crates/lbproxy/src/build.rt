//! Makes what the loops share from a configuration.

use crate::check::ProxyCheck;
use crate::group::{Group, group_of};
use crate::pool::{Common, Commons, Pool, Registry};
use crate::proxy::{Counts, Listen, Proxy};
use crate::source::PoolBackends;
use lb_proxy::config::{CheckConfig, Config, Limits, ListenConfig, PoolConfig, Selection};
use lb_proxy::event_loop::settings::{ListenSettings, Settings};
use log::Log;
use mio::net::TcpListener;
use pingora_load_balancing::health_check::{HealthCheck, keyed_by_identity};
use pingora_load_balancing::selection::Kind;
use pingora_load_balancing::{HealthRegistry, Refusal, SelectorRebuildGate};
use std::alloc::{AllocError, Global};
use std::net::{Net, TcpStream};
use std::sync::atomic::AtomicU64;
use std::sync::{Arc, Wait};
use std::time::Clock;
use std::{io, net};

/// Returns a listener for each of the configuration's.
pub fn bind<N: Net>(
    net: &N,
    alloc: Global,
    listens: &[ListenConfig],
) -> io::Result<Vec<net::TcpListener>> {
    let mut listeners = Vec::new(alloc);
    for listen in listens {
        let listener = TcpListener::bind(net, listen.address)?;
        listeners.push(net::TcpListener::from(listener))?;
    }
    Ok(listeners)
}

/// Returns another handle of each of these listeners, for a loop.
pub fn copies(alloc: Global, listeners: &[net::TcpListener]) -> io::Result<Vec<TcpListener>> {
    let mut copies = Vec::new(alloc);
    for listener in listeners {
        copies.push(TcpListener::from_std(listener.try_clone()?))?;
    }
    Ok(copies)
}

// The kind of selector of a listener.
fn kind_of(selection: Selection) -> Kind {
    match selection {
        Selection::RoundRobin => Kind::RoundRobin,
        Selection::Fnv => Kind::Fnv,
        Selection::Ketama => Kind::Ketama,
        Selection::Least => Kind::Least,
        Selection::Random => Kind::Random,
    }
}

// The kinds of the listeners on a pool, in order: one for each slot of its group.
fn kinds_of(
    alloc: Global,
    listens: &[ListenConfig],
    pool: usize,
) -> Result<Vec<Option<Kind>>, AllocError> {
    let mut kinds = Vec::new(alloc);
    for listen in listens {
        if listen.pool == pool {
            kinds.push(Some(kind_of(listen.selection)))?;
        }
    }
    Ok(kinds)
}

// Whether a slot goes by loads.
fn has_least(kinds: &[Option<Kind>]) -> bool {
    kinds.iter().any(|kind| *kind == Some(Kind::Least))
}

// How many of the listeners are on the pool.
fn count_on(listens: &[Listen], pool: usize) -> usize {
    listens.iter().filter(|listen| listen.pool == pool).count()
}

// The slots of the listeners: those on one pool are numbered in order.
fn slots_of(alloc: Global, listens: &[ListenConfig]) -> Result<Vec<Listen>, AllocError> {
    let mut numbered: Vec<Listen> = Vec::new(alloc);
    for listen in listens {
        let pool = listen.pool;
        let slot = count_on(numbered.as_slice(), pool);
        numbered.push(Listen { pool, slot })?;
    }
    Ok(numbered)
}

// What the loops go by.
fn settings_of(
    alloc: Global,
    limits: Limits,
    listens: Vec<ListenConfig>,
) -> Result<Arc<Settings>, AllocError> {
    let mut listed = Vec::new(alloc);
    for ListenConfig { mode, key, .. } in listens {
        listed.push(ListenSettings { mode, key })?;
    }
    let settings = Settings {
        limits,
        listens: listed,
    };
    Ok(Arc::new(alloc, settings)?)
}

/// Returns the registry of all pools with the configured check, one for each pool with a check of its own, and the gate of all.
pub fn commons<R: Wait, N: Net<Stream = TcpStream> + Clock + Copy + Drop>(
    rt: &R,
    net: N,
    alloc: Global,
    config: &Config,
) -> Result<Commons<ProxyCheck<N>>, Refusal> {
    let gate = Arc::new(alloc, SelectorRebuildGate::new(alloc)?)?;
    let shared = common(rt, net, alloc, &config.check, &gate)?;
    let own = own_commons(rt, net, alloc, config.pools.as_slice(), &gate)?;
    Ok(Commons { shared, own })
}

// For each pool, in order, what it has of its own: a registry where it has a check.
fn own_commons<R: Wait, N: Net<Stream = TcpStream> + Clock + Copy + Drop>(
    rt: &R,
    net: N,
    alloc: Global,
    pools: &[PoolConfig],
    gate: &Arc<SelectorRebuildGate>,
) -> Result<Vec<Option<Common<ProxyCheck<N>>>>, Refusal> {
    let mut own = Vec::new(alloc);
    for pool in pools {
        let common = match &pool.check {
            Some(_) => Some(common(rt, net, alloc, &pool.check, gate)?),
            None => None,
        };
        own.push(common)?;
    }
    Ok(own)
}

// A registry with this check, where there is one, and the gate.
fn common<R: Wait, N: Net<Stream = TcpStream> + Clock + Copy + Drop>(
    rt: &R,
    net: N,
    alloc: Global,
    check: &Option<CheckConfig>,
    gate: &Arc<SelectorRebuildGate>,
) -> Result<Common<ProxyCheck<N>>, Refusal> {
    let registry: Registry<ProxyCheck<N>> = HealthRegistry::over(alloc, keyed_by_identity(alloc))?;
    if let Some(check) = check {
        registry.set_health_check(rt, ProxyCheck::new(net, alloc, check)?)?;
    }
    Ok(Common {
        registry: Arc::new(alloc, registry)?,
        gate: Arc::try_clone(gate)?,
    })
}

// The pools, each with a slot for each listener on it.
fn pools_of<R: Log + Wait + Copy + Drop, C: HealthCheck + Drop>(
    rt: R,
    alloc: Global,
    pools: Vec<PoolConfig>,
    listens: &[ListenConfig],
    commons: &Commons<C>,
) -> Result<Vec<Pool<Group<R, C>>>, Refusal> {
    let mut made = Vec::new(alloc);
    for pool in pools {
        let number = made.len();
        let kinds = kinds_of(alloc, listens, number)?;
        made.push(pool_of(rt, alloc, pool, kinds, commons.of(number))?)?;
    }
    Ok(made)
}

// A pool with these slots.
fn pool_of<R: Log + Wait + Copy + Drop, C: HealthCheck + Drop>(
    rt: R,
    alloc: Global,
    pool: PoolConfig,
    kinds: Vec<Option<Kind>>,
    common: &Common<C>,
) -> Result<Pool<Group<R, C>>, Refusal> {
    let (name, source) = pool.into_parts();
    let backends = Arc::new(alloc, PoolBackends::new(alloc, source))?;
    let by_load = has_least(kinds.as_slice());
    let group = group_of(rt, alloc, Arc::try_clone(&backends)?, kinds, common)?;
    Ok(Pool::new(alloc, name, backends, group, by_load))
}

/// Returns what the loops share.
pub fn build<R: Log + Wait + Copy + Drop, C: HealthCheck + Drop>(
    rt: R,
    alloc: Global,
    config: Config,
    commons: &Commons<C>,
) -> Result<Proxy<Group<R, C>>, Refusal> {
    let Config {
        limits,
        pools,
        listens,
        ..
    } = config;
    let pools = pools_of(rt, alloc, pools, listens.as_slice(), commons)?;
    Ok(proxy_of(alloc, limits, listens, pools)?)
}

// A proxy over these pools.
fn proxy_of<G: Drop>(
    alloc: Global,
    limits: Limits,
    listens: Vec<ListenConfig>,
    pools: Vec<Pool<G>>,
) -> Result<Proxy<G>, AllocError> {
    Ok(Proxy {
        listens: slots_of(alloc, listens.as_slice())?,
        pools,
        settings: settings_of(alloc, limits, listens)?,
        counts: Counts {
            live: AtomicU64::new(0),
            total: AtomicU64::new(0),
            requests: AtomicU64::new(0),
            unserved: AtomicU64::new(0),
        },
        ends: AtomicU64::new(0),
    })
}

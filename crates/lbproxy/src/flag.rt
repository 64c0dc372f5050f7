//! Enables and disables backends, as requests to the status page ask.

use crate::group::PoolGroup;
use crate::pool::Pool;
use crate::proxy::Proxy;
use log::{Log, info};
use pingora_load_balancing::{Backend, Refusal};
use std::alloc::{AllocError, Global};
use std::sync::Wait;

// A backend by its pool and its address, and whether it is to be enabled.
#[derive(Clone, Copy)]
struct Flag<'t> {
    pool: &'t str,
    address: &'t str,
    enabled: bool,
}

// The flag that a target names: `/pools/NAME/backends/ADDRESS/enable` or `disable`.
fn flag_of(target: &str) -> Option<Flag<'_>> {
    let (pool, rest) = target.strip_prefix("/pools/")?.split_once("/backends/")?;
    let (address, word) = rest.rsplit_once('/')?;
    let enabled = match word {
        "enable" => true,
        "disable" => false,
        _ => return None,
    };
    Some(Flag {
        pool,
        address,
        enabled,
    })
}

/// Sets the flag that a target names. Returns whether there is such a backend; where there is none, nothing changes.
pub fn set_flag<R: Log + Wait, G: PoolGroup>(
    rt: &R,
    alloc: Global,
    proxy: &Proxy<G>,
    target: &str,
) -> Result<bool, Refusal> {
    let Some(flag) = flag_of(target) else {
        return Ok(false);
    };
    for pool in proxy.pools.iter() {
        if pool.name.as_str() == flag.pool {
            return set_in(rt, alloc, pool, &flag);
        }
    }
    Ok(false)
}

// Sets the flag of each backend of the pool with its address. Returns whether there is one.
fn set_in<R: Log + Wait, G: PoolGroup>(
    rt: &R,
    alloc: Global,
    pool: &Pool<G>,
    flag: &Flag<'_>,
) -> Result<bool, Refusal> {
    let members = pool.members(rt)?;
    let mut is_there = false;
    for backend in members.iter() {
        if is_at(alloc, backend, flag.address)? {
            pool.set_enabled(rt, backend, flag.enabled);
            is_there = true;
        }
    }
    if is_there {
        tell(rt, flag);
    }
    Ok(is_there)
}

// Whether this is how the address of the backend is written.
fn is_at(alloc: Global, backend: &Backend, address: &str) -> Result<bool, AllocError> {
    let addr = &backend.addr;
    let text = format!(in alloc; "{addr}")?;
    Ok(text.as_str() == address)
}

// Logs that the flag was set.
fn tell<R: Log>(rt: &R, flag: &Flag<'_>) {
    let (name, address) = (flag.pool, flag.address);
    let said = if flag.enabled { "enabled" } else { "disabled" };
    info!(rt; "pool {name}: {address} {said}");
}

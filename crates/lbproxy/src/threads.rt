//! The threads of a proxy: loops, the checks, and one that reads the files of pools again.

use crate::build::copies;
use crate::group::PoolGroup;
use crate::proxy::Proxy;
use crate::status::serve_page;
use lb_proxy::event_loop::engine::Engine;
use lb_proxy::event_loop::settings::Settings;
use lb_proxy::event_loop::upstream::Upstream;
use log::{Log, error};
use pingora_load_balancing::HealthCheckService;
use pingora_load_balancing::background::{RuntimeClock, ShutdownWatch};
use pingora_load_balancing::health_check::{HealthCheck, NoRule, Rule};
use std::alloc::Global;
use std::net::{Net, TcpListener};
use std::rt::Files;
use std::sync::{Arc, Wait};
use std::thread::{JoinHandle, Threads};
use std::time::{Clock, Duration};
use std::{io, thread};

// How often the files of pools are read again, in naps.
const LOOK: usize = 20;

// How long a thread sleeps before it looks whether the proxy ends, in milliseconds.
const NAP: u64 = 50;

/// A thread of the proxy.
pub type Thread = JoinHandle<()>;

/// The check of the pools on one registry.
pub type Service<C> = HealthCheckService<Rule<NoRule>, C>;

/// Starts a loop for this proxy, by these settings and over these listeners.
pub fn start_loop<R, U>(
    rt: R,
    alloc: Global,
    proxy: &Arc<U>,
    settings: &Arc<Settings>,
    listeners: &[TcpListener],
) -> io::Result<Thread>
where
    R: Log + Net + Threads + Wait + Clock + Copy + Drop + Send + Sync + 'static,
    R::Stream: Send + Sync + 'static,
    R::Listener: Send + Sync + 'static,
    U: Upstream + Drop + Send + Sync + 'static,
{
    let listeners = copies(alloc, listeners)?;
    let settings = Arc::try_clone(settings)?;
    let mut engine = Engine::new(rt, alloc, Arc::try_clone(proxy)?, settings, listeners)?;
    let started = thread::spawn(&rt, move || {
        if let Err(error) = engine.run() {
            error!(rt; "a loop ended: {error}");
        }
    });
    started.map_err(|_| io::ErrorKind::OutOfMemory.into())
}

/// Starts the checks of the pools on one registry.
pub fn start_checks<R, C>(
    rt: R,
    alloc: Global,
    service: Service<C>,
    watch: ShutdownWatch,
) -> io::Result<Thread>
where
    R: Log + Threads + Wait + Clock + Copy + Drop + Send + Sync + 'static,
    C: HealthCheck + Drop + Send + Sync + 'static,
{
    let started = thread::spawn(&rt, move || {
        service.run(&rt, alloc, &mut RuntimeClock::new(rt), &watch, None);
    });
    started.map_err(|_| io::ErrorKind::OutOfMemory.into())
}

/// Starts the thread that reads the files of pools again, each second.
pub fn start_looking<R, G>(
    rt: R,
    alloc: Global,
    proxy: Arc<Proxy<G>>,
    watch: ShutdownWatch,
) -> io::Result<Thread>
where
    R: Log + Files + Threads + Wait + Clock + AllocGlobal + Copy + Drop + Send + Sync + 'static,
    R::File: Send + Sync + 'static,
    R::Dir: Send + Sync + 'static,
    G: PoolGroup + Drop + Send + Sync + 'static,
{
    let started = thread::spawn(&rt, move || {
        for _ in rt.forever() {
            for _ in 0..LOOK {
                if watch.is_shut() {
                    return;
                }
                thread::sleep(&rt, Duration::from_millis(NAP));
            }
            look(&rt, alloc, &*proxy);
        }
    });
    started.map_err(|_| io::ErrorKind::OutOfMemory.into())
}

// Updates the pools whose files say something new.
fn look<R, G>(rt: &R, alloc: Global, proxy: &Proxy<G>)
where
    R: Log + Files + Wait + Clock + AllocGlobal + Copy + Drop,
    G: PoolGroup,
{
    for pool in proxy.pools.iter() {
        if pool.backends.look(rt, alloc) {
            pool.update(rt, alloc);
        }
    }
}

/// Starts the thread that answers at the status page.
pub fn start_page<R, G>(
    rt: R,
    alloc: Global,
    proxy: Arc<Proxy<G>>,
    watch: ShutdownWatch,
    page: TcpListener,
) -> io::Result<Thread>
where
    R: Log + Threads + Wait + Clock + Copy + Drop + Send + Sync + 'static,
    G: PoolGroup + Drop + Send + Sync + 'static,
{
    let started = thread::spawn(&rt, move || {
        for _ in rt.forever() {
            if watch.is_shut() {
                return;
            }
            match page.accept() {
                Ok((stream, peer)) => {
                    serve_page(&rt, alloc, &*proxy, stream, peer.ip().is_loopback())
                }
                Err(_) => thread::sleep(&rt, Duration::from_millis(NAP)),
            }
        }
    });
    started.map_err(|_| io::ErrorKind::OutOfMemory.into())
}

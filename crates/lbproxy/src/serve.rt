//! Starts a proxy and its threads, and ends them in order.

use crate::build::{bind, build};
use crate::group::{Group, PoolGroup};
use crate::pool::{Common, Commons};
use crate::proxy::Proxy;
use crate::threads::{Service, Thread, start_checks, start_looking, start_loop, start_page};
use lb_proxy::config::{CheckConfig, Config};
use lb_proxy::event_loop::settings::Settings;
use lb_proxy::event_loop::upstream::Upstream;
use log::{Log, error, info};
use pingora_load_balancing::background::{
    RuntimeClock, ShutdownSignal, ShutdownWatch, shutdown_pair,
};
use pingora_load_balancing::discovery::ServiceDiscovery;
use pingora_load_balancing::health_check::{HealthCheck, KeyRule};
use pingora_load_balancing::selection::BackendSelection;
use pingora_load_balancing::{HealthCheckService, LoadBalancerGroup, Refusal};
use std::alloc::Global;
use std::io::Read;
use std::net::{Net, TcpListener, TcpStream};
use std::rt::Files;
use std::sync::atomic::{AtomicU64, Ordering};
use std::sync::{Arc, Wait};
use std::thread::Threads;
use std::time::{Clock, Duration};
use std::{io, thread};

// How often the first selectors of a pool are looked for, and how long after each look, in milliseconds.
const LOOKS: usize = 200;

const PAUSE: u64 = 10;

/// Runs the proxy that is configured, over what its pools share. With `until_eof` it ends where standard input does, else it doesn't end.
pub fn serve<R, N, C>(
    rt: R,
    net: &N,
    commons: &Commons<C>,
    config: Config,
    until_eof: bool,
) -> Result<(), anyhow::Error>
where
    R: Log
        + Net
        + Files
        + Input
        + Threads
        + Wait
        + Clock
        + AllocGlobal
        + Copy
        + Drop
        + Send
        + Sync
        + 'static,
    R::Stream: Send + Sync + 'static,
    R::Listener: Send + Sync + 'static,
    R::File: Send + Sync + 'static,
    R::Dir: Send + Sync + 'static,
    N: Net<Listener = TcpListener, Stream = TcpStream>,
    C: HealthCheck + Drop + Send + Sync + 'static,
{
    let alloc = rt.alloc();
    let opened = open(net, alloc, commons, &config)?;
    let count = thread_count(&rt, config.limits.threads);
    let proxy = Arc::new(alloc, build(rt, alloc, config, commons)?)?;
    start_workers(&rt, alloc, &*proxy);
    run_groups(rt, alloc, opened, &proxy, count, until_eof)
}

// Starts the workers of all pools.
fn start_workers<R, C>(rt: &R, alloc: Global, proxy: &Proxy<Group<R, C>>)
where
    R: Log + Threads + Wait + Clock + Copy + Drop + Send + Sync + 'static,
    C: HealthCheck + Drop + Send + Sync + 'static,
{
    for pool in proxy.pools.iter() {
        let name = pool.name.as_str();
        if pool.group.start_workers(rt, alloc, RuntimeClock::new(*rt)) > 0 {
            error!(rt; "pool {name}: a worker couldn't be started");
        }
    }
}

// Runs a proxy over groups of these types. Only here are groups given for the type parameter of `run`: where the groups' own types are
// parameters, the checker compares their bounds alone.
fn run_groups<S, D, K, C, R>(
    rt: R,
    alloc: Global,
    opened: Opened<C>,
    proxy: &Arc<Proxy<LoadBalancerGroup<S, D, K, C>>>,
    count: u64,
    until_eof: bool,
) -> Result<(), anyhow::Error>
where
    S: BackendSelection + Send + Sync + 'static,
    S::Config: Send + Sync + 'static,
    S::Walk: Send + Sync + 'static,
    D: ServiceDiscovery + Drop + Send + Sync + 'static,
    K: KeyRule + Drop + Send + Sync + 'static,
    C: HealthCheck + Drop + Send + Sync + 'static,
    R: Log
        + Net
        + Files
        + Input
        + Threads
        + Wait
        + Clock
        + AllocGlobal
        + Copy
        + Drop
        + Send
        + Sync
        + 'static,
    R::Stream: Send + Sync + 'static,
    R::Listener: Send + Sync + 'static,
    R::File: Send + Sync + 'static,
    R::Dir: Send + Sync + 'static,
{
    run(rt, alloc, opened, proxy, count, until_eof)
}

// Runs a proxy to its end, with so many loops.
fn run<R, G, C>(
    rt: R,
    alloc: Global,
    opened: Opened<C>,
    proxy: &Arc<Proxy<G>>,
    count: u64,
    until_eof: bool,
) -> Result<(), anyhow::Error>
where
    R: Log
        + Net
        + Files
        + Input
        + Threads
        + Wait
        + Clock
        + AllocGlobal
        + Copy
        + Drop
        + Send
        + Sync
        + 'static,
    R::Stream: Send + Sync + 'static,
    R::Listener: Send + Sync + 'static,
    R::File: Send + Sync + 'static,
    R::Dir: Send + Sync + 'static,
    G: PoolGroup + Drop + Send + Sync + 'static,
    C: HealthCheck + Drop + Send + Sync + 'static,
{
    begin(&rt, alloc, &**proxy);
    let running = opened.start(rt, alloc, proxy, count)?;
    end(&rt, &proxy.ends, running, until_eof);
    Ok(())
}

// What is there before a thread is started: the listeners, the services of checks, and the listener of the status page.
struct Opened<C: HealthCheck + Drop> {
    listeners: Vec<TcpListener>,
    services: Vec<Service<C>>,
    page: Option<TcpListener>,
}

impl<C: HealthCheck + Drop> Drop for Opened<C> {
    fn drop(self) {
        let Opened {
            listeners: _,
            services: _,
            page: _,
        } = self;
    }
}

// The threads, and the signal that ends the helpers.
#[derive(Drop)]
struct Running {
    signal: ShutdownSignal,
    helpers: Vec<Thread>,
    loops: Vec<Thread>,
}

// Opens what the configuration names.
fn open<N, C>(
    net: &N,
    alloc: Global,
    commons: &Commons<C>,
    config: &Config,
) -> Result<Opened<C>, anyhow::Error>
where
    N: Net<Listener = TcpListener, Stream = TcpStream>,
    C: HealthCheck + Drop + Send + Sync,
{
    let listeners = bind(net, alloc, config.listens.as_slice())?;
    let services = services_of(alloc, commons, config)?;
    let page = page_of(net, config)?;
    Ok(Opened {
        listeners,
        services,
        page,
    })
}

impl<C: HealthCheck + Drop + Send + Sync + 'static> Opened<C> {
    // Starts the threads.
    fn start<R, G>(
        self,
        rt: R,
        alloc: Global,
        proxy: &Arc<Proxy<G>>,
        count: u64,
    ) -> Result<Running, anyhow::Error>
    where
        R: Log
            + Net
            + Files
            + Threads
            + Wait
            + Clock
            + AllocGlobal
            + Copy
            + Drop
            + Send
            + Sync
            + 'static,
        R::Stream: Send + Sync + 'static,
        R::Listener: Send + Sync + 'static,
        R::File: Send + Sync + 'static,
        R::Dir: Send + Sync + 'static,
        G: PoolGroup + Drop + Send + Sync + 'static,
    {
        let Opened {
            listeners,
            services,
            page,
        } = self;
        let (signal, watch) = shutdown_pair(alloc)?;
        let helpers = start_helpers(rt, alloc, proxy, &watch, services, page)?;
        let loops = start_loops(rt, alloc, proxy, &proxy.settings, listeners, count)?;
        Ok(Running {
            signal,
            helpers,
            loops,
        })
    }
}

// Waits for the end, which comes with that of standard input where that is asked for, and ends the threads in order. The loops look at
// `ends`.
fn end<R: Log + Input + Threads>(rt: &R, ends: &AtomicU64, running: Running, until_eof: bool) {
    let Running {
        mut signal,
        helpers,
        loops,
    } = running;
    if until_eof {
        wait_for_end(rt);
        info!(rt; "standard input ended: no more connections are taken");
        ends.store(1, Ordering::SeqCst);
    }
    join_all(rt, loops);
    signal.send(true);
    join_all(rt, helpers);
    info!(rt; "ended");
}

// Waits until the threads have ended.
fn join_all<R: Threads>(rt: &R, threads: Vec<Thread>) {
    for thread in threads {
        thread.join(rt);
    }
}

// Reads standard input to its end.
fn wait_for_end<R: Input>(rt: &R) {
    let mut reader = rt.reader();
    let mut buffer = [0u8; 1024];
    for _ in 0..u64::MAX {
        match reader.read(&mut buffer) {
            Ok(0) | Err(_) => return,
            Ok(_) => {}
        }
    }
}

// How many loops run: as many as processors, unless the configuration says otherwise.
fn thread_count<R: Threads>(rt: &R, configured: u64) -> u64 {
    if configured > 0 {
        return configured;
    }
    match thread::available_parallelism(rt) {
        Ok(count) => count.get() as u64,
        Err(_) => 1,
    }
}

// The services that check the backends: one for each registry that has a check.
fn services_of<C: HealthCheck + Drop + Send + Sync>(
    alloc: Global,
    commons: &Commons<C>,
    config: &Config,
) -> Result<Vec<Service<C>>, Refusal> {
    let mut services = Vec::new(alloc);
    if let Some(service) = service_of(&commons.shared, &config.check)? {
        services.push(service)?;
    }
    for (number, pool) in config.pools.iter().enumerate() {
        if let Some(service) = service_of(commons.of(number), &pool.check)? {
            services.push(service)?;
        }
    }
    Ok(services)
}

// The service of this registry, where this check is configured.
fn service_of<C: HealthCheck + Drop + Send + Sync>(
    common: &Common<C>,
    check: &Option<CheckConfig>,
) -> Result<Option<Service<C>>, Refusal> {
    let Some(check) = check else {
        return Ok(None);
    };
    let mut service = HealthCheckService::new(Arc::try_clone(&common.registry)?);
    service.health_check_frequency = Some(u128::from(check.every));
    service.parallel_health_check = check.parallel;
    Ok(Some(service))
}

// The listener of the status page, where one is configured.
fn page_of<N: Net<Listener = TcpListener, Stream = TcpStream>>(
    net: &N,
    config: &Config,
) -> io::Result<Option<TcpListener>> {
    let Some(address) = config.status else {
        return Ok(None);
    };
    let page = TcpListener::bind(net, address)?;
    page.set_nonblocking(true)?;
    Ok(Some(page))
}

// Updates all pools, and waits for their first selectors.
fn begin<R, G>(rt: &R, alloc: Global, proxy: &Proxy<G>)
where
    R: Log + Files + Threads + Wait + Clock + AllocGlobal + Copy + Drop,
    G: PoolGroup,
{
    for pool in proxy.pools.iter() {
        pool.backends.look(rt, alloc);
        pool.update(rt, alloc);
        for _ in 0..LOOKS {
            if pool.is_built(rt) {
                break;
            }
            thread::sleep(rt, Duration::from_millis(PAUSE));
        }
    }
}

// Starts the threads that check, read files and answer at the status page.
fn start_helpers<R, G, C>(
    rt: R,
    alloc: Global,
    proxy: &Arc<Proxy<G>>,
    watch: &ShutdownWatch,
    services: Vec<Service<C>>,
    page: Option<TcpListener>,
) -> Result<Vec<Thread>, anyhow::Error>
where
    R: Log + Files + Threads + Wait + Clock + AllocGlobal + Copy + Drop + Send + Sync + 'static,
    R::File: Send + Sync + 'static,
    R::Dir: Send + Sync + 'static,
    G: PoolGroup + Drop + Send + Sync + 'static,
    C: HealthCheck + Drop + Send + Sync + 'static,
{
    let mut threads = start_services(rt, alloc, watch, services)?;
    if let Some(page) = page {
        let shared = Arc::try_clone(proxy)?;
        threads.push(start_page(rt, alloc, shared, watch.try_clone()?, page)?)?;
    }
    let shared = Arc::try_clone(proxy)?;
    threads.push(start_looking(rt, alloc, shared, watch.try_clone()?)?)?;
    Ok(threads)
}

// Starts the threads that check.
fn start_services<R, C>(
    rt: R,
    alloc: Global,
    watch: &ShutdownWatch,
    services: Vec<Service<C>>,
) -> Result<Vec<Thread>, anyhow::Error>
where
    R: Log + Threads + Wait + Clock + Copy + Drop + Send + Sync + 'static,
    C: HealthCheck + Drop + Send + Sync + 'static,
{
    let mut threads = Vec::new(alloc);
    for service in services {
        threads.push(start_checks(rt, alloc, service, watch.try_clone()?)?)?;
    }
    Ok(threads)
}

// Starts so many loops for this proxy, by these settings and over these listeners.
fn start_loops<R, U>(
    rt: R,
    alloc: Global,
    proxy: &Arc<U>,
    settings: &Arc<Settings>,
    listeners: Vec<TcpListener>,
    count: u64,
) -> Result<Vec<Thread>, anyhow::Error>
where
    R: Log + Net + Threads + Wait + Clock + Copy + Drop + Send + Sync + 'static,
    R::Stream: Send + Sync + 'static,
    R::Listener: Send + Sync + 'static,
    U: Upstream + Drop + Send + Sync + 'static,
{
    let mut threads = Vec::new(alloc);
    for _ in 0..count {
        threads.push(start_loop(rt, alloc, proxy, settings, listeners.as_slice())?)?;
    }
    Ok(threads)
}

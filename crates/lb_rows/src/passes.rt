//! Two passes of a check over a view of one backend on the own loopback.
//! What a pass does with a check's word is proved; here the checks meet real servers, and closed ports.
use crate::server_tables::{By, Pass};
use crate::servers::{backend_at, backend_at_closed_port};
use lb_health_core::health_check::{HealthCheck, HealthObserve, IdentitySummary};
use lb_health_core::registry::RegistryCore;
use lb_health_http::{AcceptStatus, HttpHealthCheck, TcpHealthCheck};
use lb_health_view::passes::run_health_check;
use lb_health_view::view::{Settings, ViewCore};
use lb_select_base::backend::Backend;
use lb_select_base::refusal::Refusal;
use log::kv::Source;
use log::span::Spans;
use log::{Log, Metadata, Record};
use std::alloc::Global;
use std::collections::BTreeSet;
use std::fmt::Display;
use std::io::{self, Error, ErrorKind, Read, Write};
use std::net::{Net, TcpListener, TcpStream};
use std::rt::Clock;
use std::sync::atomic::{AtomicU64, Ordering};
use std::thread::{Threads, join};

// What comes of the flips of a row: reports to the observer, each of the right target and flag and before its line, lines of the log,
// and reports that are otherwise.
#[derive(Drop)]
struct Flips {
    reported: AtomicU64,
    logged: AtomicU64,
    astray: AtomicU64,
}

impl Flips {
    fn new() -> Flips {
        Flips {
            reported: AtomicU64::new(0),
            logged: AtomicU64::new(0),
            astray: AtomicU64::new(0),
        }
    }

    // Whether there were so many, each reported and then logged.
    fn are(&self, count: u64) -> bool {
        let reported = self.reported.load(Ordering::SeqCst);
        let logged = self.logged.load(Ordering::SeqCst);
        let astray = self.astray.load(Ordering::SeqCst);
        (reported, logged, astray) == (count, count, 0)
    }
}

impl Log for Flips {
    fn enabled(&self, _metadata: &Metadata<'_>) -> bool {
        true
    }

    fn log<D: Display, K: Source, S: Spans>(&self, _record: &Record<'_, D, K, S>) {
        self.logged.fetch_add(1, Ordering::SeqCst);
    }

    fn flush(&self) {}

    fn target(&self) -> &str {
        ""
    }
}

// The observer of a row whose backend begins healthy, or unhealthy. Each report is of the other health than the one before.
#[derive(Drop)]
struct Observer<'a> {
    flips: &'a Flips,
    backend: &'a Backend,
    starts_healthy: bool,
}

impl HealthObserve for Observer<'_> {
    fn observe(&self, target: &Backend, healthy: bool) {
        let flips = self.flips;
        let reported = flips.reported.load(Ordering::SeqCst);
        let is_first = reported == flips.logged.load(Ordering::SeqCst);
        let was_healthy = (reported % 2 == 0) == self.starts_healthy;
        if is_first && target == self.backend && healthy != was_healthy {
            flips.reported.fetch_add(1, Ordering::SeqCst);
        } else {
            flips.astray.fetch_add(1, Ordering::SeqCst);
        }
    }
}

/// Whether the backend begins as the row says, and both passes leave it and its observer so.
pub(crate) fn agrees<R>(rt: &R, row: &Pass) -> io::Result<bool>
where
    R: Net<Listener = TcpListener, Stream = TcpStream> + Threads + Clock + AllocGlobal,
{
    let flips = Flips::new();
    let ready = if row.listens {
        passes_where_served(rt, row, &flips)?
    } else {
        passes_where_closed(rt, row, &flips)?
    };
    let [once, twice] = row.is_ready;
    let wanted = [row.starts_healthy, once, twice];
    Ok(ready == Ok(wanted) && flips.are(row.flips))
}

// Passes over a port where nobody listens.
fn passes_where_closed<R>(
    rt: &R,
    row: &Pass,
    flips: &Flips,
) -> io::Result<Result<[bool; 3], Refusal>>
where
    R: Net<Listener = TcpListener, Stream = TcpStream> + Clock + AllocGlobal,
{
    let backend = backend_at_closed_port(rt)?;
    Ok(passes(rt, row, flips, &backend))
}

// Passes over a port where somebody listens, who gives the row's answers where there are requests. What owns the listener makes one
// call.
fn passes_where_served<R>(
    rt: &R,
    row: &Pass,
    flips: &Flips,
) -> io::Result<Result<[bool; 3], Refusal>>
where
    R: Net<Listener = TcpListener, Stream = TcpStream> + Threads + Clock + AllocGlobal,
{
    let listener = TcpListener::bind(rt, "127.0.0.1:0")?;
    passes_at(rt, row, flips, &listener)
}

// The same at the port of that listener.
fn passes_at<R>(
    rt: &R,
    row: &Pass,
    flips: &Flips,
    listener: &TcpListener,
) -> io::Result<Result<[bool; 3], Refusal>>
where
    R: Net<Listener = TcpListener, Stream = TcpStream> + Threads + Clock + AllocGlobal,
{
    let backend = backend_at(rt.alloc(), listener.local_addr()?.port())?;
    let (_served, ready) = join(
        rt,
        || serve(listener, row),
        || passes(rt, row, flips, &backend),
    );
    Ok(ready)
}

// Serves two connections with the row's answers; for a check that only connects, the system takes them.
fn serve(listener: &TcpListener, row: &Pass) -> io::Result<()> {
    if matches!(&row.by, By::Tcp) {
        return Ok(());
    }
    for answer in &row.answers {
        let (stream, _) = listener.accept()?;
        let mut stream = &stream;
        let mut request = [0u8; 512];
        let _ = stream.read(&mut request)?;
        stream.write_all(*answer)?;
    }
    Ok(())
}

// Runs both passes of the row's check.
fn passes<R: Net<Stream = TcpStream> + Clock + AllocGlobal>(
    rt: &R,
    row: &Pass,
    flips: &Flips,
    backend: &Backend,
) -> Result<[bool; 3], Refusal> {
    let alloc = rt.alloc();
    let observer = Observer {
        flips,
        backend,
        starts_healthy: row.starts_healthy,
    };
    match row.by {
        By::Tcp => {
            let check = TcpHealthCheck::new(rt).with_callbacks(Some(observer), IdentitySummary);
            passes_of(row.starts_healthy, flips, backend, &check, alloc)
        }
        By::Http | By::HttpMoved => {
            let check = HttpHealthCheck::new(alloc, rt, "h")?;
            let check = check.with_callbacks(None::<AcceptStatus>, Some(observer), IdentitySummary);
            passes_of(row.starts_healthy, flips, backend, &check, alloc)
        }
    }
}

// Runs both passes of the check over a view of that one backend. What owns the view makes one call.
fn passes_of<L: Log, C: HealthCheck>(
    starts_healthy: bool,
    log: &L,
    backend: &Backend,
    check: &C,
    alloc: Global,
) -> Result<[bool; 3], Refusal> {
    let mut registry = if starts_healthy {
        RegistryCore::new(alloc)
    } else {
        RegistryCore::new(alloc).start_unhealthy()
    };
    let mut view = ViewCore::register(alloc, &mut registry)?;
    run_passes(log, alloc, &mut registry, &mut view, backend, check)
}

// Updates the view and runs two passes; whether the backend is ready before them and after each.
fn run_passes<L: Log, C: HealthCheck>(
    log: &L,
    alloc: Global,
    registry: &mut RegistryCore,
    view: &mut ViewCore,
    backend: &Backend,
    check: &C,
) -> Result<[bool; 3], Refusal> {
    let mut set = BTreeSet::new(alloc);
    set.insert(backend.clone()?)?;
    let settings = Settings::new(alloc);
    view.update(
        alloc,
        registry,
        set,
        settings,
        |lent: &BTreeSet<Backend>| lent.len(),
    )?;
    let before = view.ready(registry, backend);
    run_health_check(log, alloc, registry, check)?;
    let once = view.ready(registry, backend);
    run_health_check(log, alloc, registry, check)?;
    Ok([before, once, view.ready(registry, backend)])
}

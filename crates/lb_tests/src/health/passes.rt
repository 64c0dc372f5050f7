//! Passes of a check over a view: a discovery that answers a fault, what a pass asks and tells the check, and what it writes to the log.
//! No contract sees these. One row after another borrows the view with its registry and its check.
use crate::asserted::{assert_row, assert_same};
use crate::selection::fixtures::set_of;
use crate::told::always;
use lb_health_core::error::CheckError;
use lb_health_core::health_check::{HealthCheck, identity_summary};
use lb_health_core::keys::{ByNumber, Number};
use lb_health_core::registry::RegistryCore;
use lb_health_view::discovery::{Discovered, DiscoverySource, ServiceDiscovery};
use lb_health_view::passes::run_health_check;
use lb_health_view::view::{Settings, ViewCore};
use lb_select_base::backend::{Backend, InetAddr, SocketAddr};
use lb_select_base::refusal::Refusal;
use log::sink::Memory;
use log::{Level, Log, Logged};
use std::alloc::Global;
use std::cell::Cell;
use std::collections::BTreeSet;
use std::process::Abort;
use std::rc::Rc;

/// How often a check was asked, and which reports it got, each as one more digit: 1 of a backend that became healthy, and 2 of one that
/// didn't; whether it finds 1.0.0.1:80/1 down, and whether discoveries answer a fault.
#[derive(Drop)]
struct Counts {
    asked: Cell<u64>,
    told: Cell<u64>,
    down: Cell<bool>,
    lost: Cell<bool>,
}

/// The discovery of 1.0.0.1:80/1 and 1.0.0.2:80/1, or of nothing.
#[derive(Drop)]
struct Pair {
    counts: Rc<Counts>,
}

impl ServiceDiscovery for Pair {
    fn discover(&self, alloc: Global) -> Result<Discovered, Refusal> {
        if self.counts.lost.get() {
            return Err(Refusal::NoSuch);
        }
        let set = set_of(alloc, &[("1.0.0.1:80", 1), ("1.0.0.2:80", 1)])?;
        Ok((set, Settings::new(alloc)))
    }
}

/// A check that counts its calls and reports. Two failures in a row flip a cell, or one success.
#[derive(Drop)]
struct Counting {
    counts: Rc<Counts>,
    silent: bool,
}

impl HealthCheck for Counting {
    ghost use Rattle.std.specs.Prelude.{cond};

    ghost threshold = { λ _ success. cond success 1 2 };

    fn check(&self, alloc: Global, target: &Backend) -> Result<(), CheckError> {
        let counts = &self.counts;
        counts.asked.set(counts.asked.get().wrapping_add(1));
        let text = identity_summary(alloc, target).map_err(|_| CheckError::OutOfMemory)?;
        if counts.down.get() && text.as_str() == "1.0.0.1:80/1" {
            return Err(CheckError::Status(503));
        }
        Ok(())
    }

    fn health_status_change(&self, _target: &Backend, healthy: bool) {
        let told = &self.counts.told;
        let digit = if healthy { 1 } else { 2 };
        told.set(told.get().wrapping_mul(10).wrapping_add(digit));
    }

    fn backend_summary(&self, alloc: Global, target: &Backend) -> Result<String, Refusal> {
        if self.silent {
            return Err(Refusal::OutOfMemory);
        }
        identity_summary(alloc, target)
    }

    fn health_threshold(&self, success: bool) -> usize {
        if success { 1 } else { 2 }
    }
}

fn new_counts(alloc: Global) -> Result<Rc<Counts>, Refusal> {
    let counts = Rc::new(
        alloc,
        Counts {
            asked: Cell::new(0),
            told: Cell::new(0),
            down: Cell::new(false),
            lost: Cell::new(true),
        },
    )?;
    Ok(counts)
}

// A check that counts there.
fn new_check(counts: &Rc<Counts>, silent: bool) -> Result<Counting, Refusal> {
    let counts = counts.clone()?;
    Ok(Counting { counts, silent })
}

/// Updates a view by what its discovery finds; how many members its callback was passed, or that it wasn't called.
pub(crate) fn update_by<D: ServiceDiscovery>(
    alloc: Global,
    source: &DiscoverySource<D>,
    registry: &mut RegistryCore,
    view: &mut ViewCore,
) -> Result<Option<usize>, Refusal> {
    let (backends, settings) = source.discover(alloc)?;
    let updated = view.update(
        alloc,
        registry,
        backends,
        settings,
        |lent: &BTreeSet<Backend>| lent.len(),
    )?;
    Ok(updated)
}

/// A view of one discovery in a registry of its own, and the check of its targets.
#[derive(Drop)]
struct Checked {
    source: DiscoverySource<Pair>,
    registry: RegistryCore,
    view: ViewCore,
    check: Counting,
}

impl Checked {
    // A view whose discovery and whose check count there.
    fn new(alloc: Global, counts: &Rc<Counts>, silent: bool) -> Result<Checked, Refusal> {
        let pair = Pair {
            counts: counts.clone()?,
        };
        let check = new_check(counts, silent)?;
        let mut registry = RegistryCore::new(alloc);
        let view = ViewCore::register(alloc, &mut registry)?;
        Ok(Checked {
            source: DiscoverySource::Boxed(pair),
            registry,
            view,
            check,
        })
    }

    // Updates the view; then its generation.
    fn update(&mut self, alloc: Global) -> (Result<Option<usize>, Refusal>, u64) {
        let updated = update_by(alloc, &self.source, &mut self.registry, &mut self.view);
        (updated, self.view.generation())
    }

    // Checks the targets once.
    fn run(&mut self, alloc: Global, log: &impl Log) -> Result<(), Refusal> {
        run_health_check(log, alloc, &mut self.registry, &self.check)
    }

    // How many targets there are, how many are listed, and how many members the newest generation has.
    fn count(&mut self, alloc: Global) -> Result<[usize; 3], Refusal> {
        let count = self.registry.target_count(alloc)?;
        let listed = self.registry.targets(alloc)?.len();
        Ok([count, listed, self.view.get_backend()?.len()])
    }

    // Whether 1.0.0.1:80/1 is ready.
    fn ready(&self, alloc: Global) -> Result<bool, Refusal> {
        let backend = Backend::new(alloc, "1.0.0.1:80")?;
        Ok(self.view.ready(&self.registry, &backend))
    }
}

// An update by a discovery that answers a fault is refused, and changes nothing: a pass asks nothing then. The next update is not refused.
fn fault_is_told(alloc: Global, checked: &mut Checked, counts: &Counts, rt: &(impl Abort + Log)) {
    let refused = checked.update(alloc);
    let counted = checked.count(alloc);
    let passed = (checked.run(alloc, rt), counts.asked.get());
    assert_same(
        rt,
        &(counted, passed),
        &(Ok([0, 0, 0]), (Ok(()), 0)),
        &"nothing is asked",
    );
    counts.lost.set(false);
    let then = checked.update(alloc);
    let wanted = ((Err(Refusal::Discovery), 0), (Ok(Some(2)), 1));
    assert_same(rt, &(refused, then), &wanted, &"a fault is told");
}

// Whether a pass finds the backend down; how often the check was asked and which reports it got then, and whether the backend is ready. The
// first pass finds it down for the first time, the second flips it, the third finds it up and flips it back; each pass checks each target
// once.
const PASSES: &[(bool, u64, u64, bool)] = &[
    (true, 2, 0, true),
    (true, 4, 2, false),
    (false, 6, 21, true),
];

fn passes<R: Abort, L: Log>(
    alloc: Global,
    checked: &mut Checked,
    counts: &Counts,
    rt: &R,
    log: &L,
) {
    for (down, asked, told, healthy) in PASSES {
        counts.down.set(*down);
        let passed = checked.run(alloc, log);
        let counted = (counts.asked.get(), counts.told.get());
        let found = (passed, checked.ready(alloc), counted);
        let wanted = (Ok(()), Ok(*healthy), (*asked, *told));
        assert_same(rt, &found, &wanted, asked);
    }
}

fn lines_are(lines: &[String], wanted: &[&str], rt: &impl Abort) {
    assert!(rt; lines.len() == wanted.len());
    for (line, text) in lines.iter().zip(wanted) {
        assert_row(rt, line.as_str() == *text, line);
    }
}

// The lines that the passes wrote to the log.
fn passes_are_logged<R: Abort + Log>(
    alloc: Global,
    checked: &mut Checked,
    counts: &Counts,
    wanted: &[&str],
    rt: &R,
) {
    let sink = Memory::new(alloc);
    passes(
        alloc,
        checked,
        counts,
        rt,
        &Logged::new(rt, Level::Debug, &sink),
    );
    lines_are(sink.into_lines().as_slice(), wanted, rt);
}

// The lines of the passes in the log.
const LINES: &[&str] = &[
    "[WARN  lb_health_view::passes] 1.0.0.1:80/1 becomes unhealthy, Status",
    "[INFO  lb_health_view::passes] 1.0.0.1:80/1 becomes healthy",
];

// Plays the rows, whose passes write these lines to the log.
fn plays<R: Abort + Log>(
    alloc: Global,
    checked: &mut Checked,
    counts: &Counts,
    lines: &[&str],
    rt: &R,
) {
    fault_is_told(alloc, checked, counts, rt);
    passes_are_logged(alloc, checked, counts, lines, rt);
}

// Plays the rows on a new view; the passes of a silent check, which names no backend, write nothing.
fn played<R: Abort + Log>(
    alloc: Global,
    silent: bool,
    lines: &[&str],
    rt: &R,
) -> Result<(), Refusal> {
    let counts = new_counts(alloc)?;
    let mut checked = Checked::new(alloc, &counts, silent)?;
    plays(alloc, &mut checked, &counts, lines, rt);
    Ok(())
}

#[test]
fn passes_of_checks(rt: HostRuntime) {
    let named = played(rt.alloc(), false, LINES, &rt);
    let silent = played(rt.alloc(), true, &[], &rt);
    assert_same(&rt, &(named, silent), &(Ok(()), Ok(())), &"played");
}

// A new view of one backend.
fn view_of(
    alloc: Global,
    registry: &mut RegistryCore,
    member: (&str, usize),
) -> Result<ViewCore, Refusal> {
    let mut view = ViewCore::register(alloc, registry)?;
    update_by(
        alloc,
        &always::<Pair>(alloc, &[member])?,
        registry,
        &mut view,
    )?;
    Ok(view)
}

/// Returns whether the first backend of a view is ready.
pub(crate) fn is_ready(registry: &RegistryCore, view: &ViewCore) -> bool {
    view.members()
        .first()
        .is_some_and(|backend| view.ready(registry, backend))
}

// How many targets two views of one number have, what a pass came to, and whether the backend of each is ready: before the first one is
// disabled, and after.
type Shared = (Result<usize, Refusal>, Result<(), Refusal>, [bool; 4]);

fn shared(
    alloc: Global,
    registry: &mut RegistryCore,
    check: &Counting,
    log: &impl Log,
) -> Result<Shared, Refusal> {
    let mut first = view_of(alloc, registry, ("1.0.0.1:80", 1))?;
    let second = view_of(alloc, registry, ("2.0.0.1:80", 2))?;
    seen(alloc, registry, &mut first, &second, check, log)
}

// The same of these views.
fn seen(
    alloc: Global,
    registry: &mut RegistryCore,
    first: &mut ViewCore,
    second: &ViewCore,
    check: &Counting,
    log: &impl Log,
) -> Result<Shared, Refusal> {
    let light = Backend::new(alloc, "1.0.0.1:80")?;
    let targets = registry.target_count(alloc);
    let passed = run_health_check(log, alloc, registry, check);
    let (one, other) = (is_ready(registry, first), is_ready(registry, second));
    first.set_enable(&light, false);
    let ready = [
        one,
        other,
        is_ready(registry, first),
        is_ready(registry, second),
    ];
    Ok((targets, passed, ready))
}

// The same with a check, and how often that was asked.
fn shared_and_asked(
    alloc: Global,
    registry: &mut RegistryCore,
    counts: &Rc<Counts>,
    log: &impl Log,
) -> Result<(Shared, u64), Refusal> {
    let check = new_check(counts, false)?;
    let shared = shared(alloc, registry, &check, log)?;
    Ok((shared, counts.asked.get()))
}

// The last byte of a backend's address.
fn last_byte(backend: &Backend) -> u64 {
    match &backend.addr {
        SocketAddr::Inet(InetAddr::V4([_, _, _, last], _)) => u64::from(*last),
        _ => 0,
    }
}

// Two views whose backends have one number, by a rule of the caller's, have one target, which is checked once. Each has flags of its own.
#[test]
fn views_share_by_number(rt: HostRuntime) {
    let alloc = rt.alloc();
    let counts = new_counts(alloc).expect(&rt, "refused");
    let number: Number = Box::new(alloc, |backend: &Backend| last_byte(backend)).expect(
        &rt, "refused",
    );
    let mut registry = RegistryCore::with_equivalence(alloc, ByNumber::new(number));
    let found = shared_and_asked(alloc, &mut registry, &counts, &rt);
    let wanted = ((Ok(1), Ok(()), [true, true, false, true]), 1);
    assert_same(&rt, &found, &Ok(wanted), &"views share by number");
}

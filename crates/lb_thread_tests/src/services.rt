//! Services that run, while another thread sends the end.
use crate::asserted::assert_same;
use crate::ends::{Ends, send_end};
use crate::service_fixtures::{Checked, ServiceBench, Ticks, counted, one_backend, registry_of};
use lb_background::ready::ReadyWatch;
use lb_background::shutdown::ShutdownSignal;
use lb_select_base::moments::MomentSource;
use lb_select_base::refusal::Refusal;
use lb_threads_core::clock::RuntimeClock;
use log::sink::Locked;
use log::{Level, Log, Logged};
use std::alloc::Global;
use std::collections::BTreeSet;
use std::process::Abort;
use std::sync::Wait;
use std::sync::atomic::AtomicU64;
use std::sync::atomic::Ordering::SeqCst;
use std::thread;
use std::thread::{Threads, join};
use std::time::{Clock, Duration};

// What happens while a service runs.
#[derive(Clone, Copy)]
enum Beside {
    Nothing,
    // The end is sent once so many checks were counted; a little later, where none has to be.
    Ends(u64),
    // The view's first target is published a little later.
    Publishes,
    // The same, once the service is ready; the end is sent once the target was checked.
    PublishesAndEnds,
    // The same, but before the end another view brings the target too, both views leave, and a new one brings it again.
    ComesBackAndEnds,
}

// What becomes of the signal before a service begins.
#[derive(Clone, Copy)]
enum Signal {
    Stays,
    SendsTheEnd,
    IsGone,
}

// Whether what happens while a service runs came; how many checks there were, counted up to three; whether the service said that it is
// ready; and whether the one target's cell is ready.
type Told = (bool, u64, bool, bool);

// A case: whether the registry has no target at first, whether it has a check, and whether each check waits until services are to end; the
// service's frequency, and whether its checks run in parallel; by how much its clock goes on at each reading, or that it is the machine's.
struct Row {
    name: &'static str,
    is_empty: bool,
    has_check: bool,
    waits: bool,
    frequency: Option<u128>,
    is_parallel: bool,
    step: u128,
    signal: Signal,
    beside: Beside,
    wanted: Told,
}

// In place of a step: the machine's own clock.
const OF_THE_MACHINE: u128 = 0;

const ROWS: &[Row] = &[
    // Without a frequency the one target is checked once, the service is ready, and it is done.
    Row {
        name: "one pass",
        is_empty: false,
        has_check: true,
        waits: false,
        frequency: None,
        is_parallel: false,
        step: 5,
        signal: Signal::Stays,
        beside: Beside::Nothing,
        wanted: (true, 1, true, false),
    },
    // With a frequency they are checked again, until services are to end.
    Row {
        name: "three passes",
        is_empty: false,
        has_check: true,
        waits: false,
        frequency: Some(10),
        is_parallel: true,
        step: 5,
        signal: Signal::Stays,
        beside: Beside::Ends(3),
        wanted: (true, 3, true, false),
    },
    // Where a pass takes longer than the frequency, the next one begins when it has ended.
    Row {
        name: "passes longer than their frequency",
        is_empty: false,
        has_check: true,
        waits: false,
        frequency: Some(10),
        is_parallel: false,
        step: 1000,
        signal: Signal::Stays,
        beside: Beside::Ends(3),
        wanted: (true, 3, true, false),
    },
    // A check that runs when services are to end goes on to its end: its verdict is kept, and then the service ends and isn't ready.
    Row {
        name: "a check ends, and then the service",
        is_empty: false,
        has_check: true,
        waits: true,
        frequency: Some(10),
        is_parallel: false,
        step: 5,
        signal: Signal::Stays,
        beside: Beside::Ends(1),
        wanted: (true, 1, false, false),
    },
    // A signal that is gone doesn't end a service that waits for targets; the first one wakes it, and an update to nothing doesn't.
    Row {
        name: "a target wakes it",
        is_empty: true,
        has_check: true,
        waits: false,
        frequency: None,
        is_parallel: false,
        step: 50_000_000,
        signal: Signal::IsGone,
        beside: Beside::Publishes,
        wanted: (true, 1, true, false),
    },
    // An hourly service is ready without a target; the first one wakes it, and is checked once.
    Row {
        name: "a target wakes an hourly one",
        is_empty: true,
        has_check: true,
        waits: false,
        frequency: Some(3_600_000_000_000),
        is_parallel: false,
        step: 50_000_000,
        signal: Signal::Stays,
        beside: Beside::PublishesAndEnds,
        wanted: (true, 1, true, false),
    },
    // A second view of its target is no reason for it to check that again; once all views have left, a new one of the target is.
    Row {
        name: "a new view wakes an hourly one",
        is_empty: true,
        has_check: true,
        waits: false,
        frequency: Some(3_600_000_000_000),
        is_parallel: false,
        step: OF_THE_MACHINE,
        signal: Signal::Stays,
        beside: Beside::ComesBackAndEnds,
        wanted: (true, 2, true, false),
    },
    // A service ends while it waits for targets, and one that has no check while it has nothing to do.
    Row {
        name: "ends while it waits for targets",
        is_empty: true,
        has_check: true,
        waits: false,
        frequency: None,
        is_parallel: false,
        step: 50_000_000,
        signal: Signal::Stays,
        beside: Beside::Ends(0),
        wanted: (true, 0, false, false),
    },
    Row {
        name: "ends without a check",
        is_empty: false,
        has_check: false,
        waits: false,
        frequency: None,
        is_parallel: false,
        step: 5,
        signal: Signal::Stays,
        beside: Beside::Ends(0),
        wanted: (true, 0, false, true),
    },
    // Whatever it does, a service that is to end before it begins does nothing.
    Row {
        name: "no pass",
        is_empty: false,
        has_check: true,
        waits: false,
        frequency: None,
        is_parallel: false,
        step: 5,
        signal: Signal::SendsTheEnd,
        beside: Beside::Nothing,
        wanted: (true, 0, false, true),
    },
];

// Does what happens while a service runs; whether it came.
fn happens<R: Abort + Wait + Clock + Drop>(
    rt: &R,
    alloc: Global,
    beside: Beside,
    checks: &AtomicU64,
    registry: &Checked<R>,
    signal: &mut Option<ShutdownSignal>,
    ready: &ReadyWatch,
) -> bool {
    match beside {
        Beside::Nothing => true,
        Beside::Ends(wanted) => {
            if wanted == 0 {
                thread::sleep(rt, Duration::from_millis(150));
            }
            let came = counted(rt, checks, wanted);
            send_end(signal);
            came
        }
        Beside::Publishes => publish_later(rt, alloc, registry).is_ok(),
        Beside::PublishesAndEnds | Beside::ComesBackAndEnds => {
            let is_ready = tells(rt, ready);
            let published = publish_later(rt, alloc, registry).is_ok();
            let checked = is_ready && published && counted(rt, checks, 1);
            let came = match beside {
                Beside::ComesBackAndEnds => checked && comes_back(rt, alloc, checks, registry),
                _ => checked,
            };
            send_end(signal);
            came
        }
    }
}

// Registers a view of the one target; its number.
fn one_more_view<R: Abort + Wait + Clock + Drop>(
    rt: &R,
    alloc: Global,
    registry: &Checked<R>,
) -> u64 {
    let id = registry.register_view(rt, alloc).expect(rt, "refused");
    registry
        .update_view(rt, alloc, id, one_backend(rt, alloc))
        .expect(rt, "refused");
    id
}

// A second view brings the target that was checked once; then both leave, and a third one brings it again. A service looks for targets each
// second: so long is each step, and more. Whether it was checked no second time before, and was then; and whether none was left between.
fn comes_back<R: Abort + Wait + Clock + Drop>(
    rt: &R,
    alloc: Global,
    checks: &AtomicU64,
    registry: &Checked<R>,
) -> bool {
    let second = one_more_view(rt, alloc, registry);
    thread::sleep(rt, Duration::from_millis(1500));
    let is_checked_once = checks.load(SeqCst) == 1;
    registry.remove_view(rt, 1);
    registry.remove_view(rt, second);
    let is_empty = registry.target_count(rt, alloc) == Ok(0);
    thread::sleep(rt, Duration::from_millis(2000));
    one_more_view(rt, alloc, registry);
    is_checked_once && is_empty && counted(rt, checks, 2)
}

// Waits, for ten seconds at most, until the service is ready; whether it is.
fn tells<R: Clock>(rt: &R, ready: &ReadyWatch) -> bool {
    for _ in 0..1000 {
        if ready.is_ready() {
            return true;
        }
        thread::sleep(rt, Duration::from_millis(10));
    }
    false
}

// Updates the view to nothing, and publishes its first target a little later.
fn publish_later<R: Abort + Wait + Clock + Drop>(
    rt: &R,
    alloc: Global,
    registry: &Checked<R>,
) -> Result<(), Refusal> {
    registry.update_view(rt, alloc, 1, BTreeSet::new(alloc))?;
    thread::sleep(rt, Duration::from_millis(100));
    registry.update_view(rt, alloc, 1, one_backend(rt, alloc))
}

// Sets up the service and its signal for a case.
fn begin<R: Abort + Wait + Clock + Copy + Send + Sync + Drop>(
    rt: &R,
    bench: &mut ServiceBench<R>,
    row: &Row,
) {
    bench.service.health_check_frequency = row.frequency;
    bench.service.parallel_health_check = row.is_parallel;
    match row.signal {
        Signal::Stays => {}
        Signal::SendsTheEnd => send_end(&mut bench.ends.signal),
        Signal::IsGone => bench.ends.signal = None,
    }
    if row.has_check {
        bench.set_check(rt, row.waits);
    }
}

// The clock of a row.
#[derive(Drop)]
struct RowClock<R: Clock> {
    ticks: Ticks,
    of_the_machine: RuntimeClock<R>,
}

impl<R: Clock> MomentSource for RowClock<R> {
    ghost use Rattle.std.specs.Prelude.{⊤};

    ghost reads = { λ s m t. ⊤ };

    fn now(&mut self) -> u128 {
        if self.ticks.step == OF_THE_MACHINE {
            self.of_the_machine.now()
        } else {
            self.ticks.now()
        }
    }
}

// Runs the service, and what happens meanwhile.
fn runs<R: Abort + Log + Threads + Wait + Clock + Copy + Send + Sync + Drop>(
    rt: &R,
    alloc: Global,
    bench: &mut ServiceBench<R>,
    row: &Row,
) -> Told {
    let mut clock = RowClock {
        ticks: Ticks {
            next: 0,
            step: row.step,
        },
        of_the_machine: RuntimeClock::new(*rt),
    };
    let (beside, notifier) = (row.beside, bench.ends.notifier.take());
    let (service, registry, checks) = (&bench.service, &*bench.registry, &*bench.checks);
    let (signal, watch, ready) = (&mut bench.ends.signal, &bench.ends.watch, &bench.ends.ready);
    let (came, ()) = join(
        rt,
        move || happens(rt, alloc, beside, checks, registry, signal, ready),
        move || service.run(rt, alloc, &mut clock, watch, notifier),
    );
    let count = checks.load(SeqCst).min(3);
    (came, count, ready.is_ready(), registry.cell_ready(rt, 0))
}

// A case, on a new service.
fn played<R: Abort + Log + Threads + Wait + Clock + Copy + Send + Sync + Drop>(
    rt: &R,
    alloc: Global,
    row: &Row,
) -> Told {
    let mut bench = ServiceBench::new(rt, alloc, registry_of(rt, alloc, row.is_empty));
    begin(rt, &mut bench, row);
    runs(rt, alloc, &mut bench, row)
}

#[test]
fn rows_of_services(rt: HostRuntime) {
    for row in ROWS {
        assert_same(&rt, &played(&rt, rt.alloc(), row), &row.wanted, &row.name);
    }
}

// Runs a service without a check, and again once its signal is gone.
fn run_without_check<R: Wait + Clock + Copy + Send + Sync + Drop, L: Log + Threads + Wait + Sync>(
    rt: &L,
    alloc: Global,
    bench: &mut ServiceBench<R>,
) {
    let mut clock = Ticks { next: 0, step: 5 };
    let ends: &mut Ends = &mut bench.ends;
    bench.service.run(rt, alloc, &mut clock, &ends.watch, None);
    ends.signal = None;
    let notifier = ends.notifier.take();
    bench
        .service
        .run(rt, alloc, &mut clock, &ends.watch, notifier);
}

// A service without a check logs an error, and ends where nobody can send the end any more; it isn't ready.
#[test]
fn service_wants_a_check(rt: HostRuntime) {
    let registry = registry_of(&rt, rt.alloc(), false);
    let mut bench = ServiceBench::new(&rt, rt.alloc(), registry);
    let sink = Locked::new(rt, Vec::new(rt.alloc()));
    run_without_check(
        &Logged::new(rt, Level::Debug, &sink),
        rt.alloc(),
        &mut bench,
    );
    let line =
        "[ERROR lb_background::service] HealthCheckService requires a configured HealthRegistry health check\n";
    let text = sink.into_inner();
    let is_said = text.as_slice().starts_with(line.as_bytes());
    let told = (text.len(), is_said, bench.ends.ready.is_ready());
    assert_eq!(rt; told, (2 * line.len(), true, false));
}

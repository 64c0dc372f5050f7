//! Balancers that run in the background, while another thread opens what they wait for or tells them to end.
use crate::asserted::assert_same;
use crate::balancer::fixtures::{Bench, FAULT, ROWS, waited};
use crate::ends::{Ends, send_end};
use crate::service_fixtures::Ticks;
use lb_background::ready::{ReadyWatch, ServiceReadyNotifier};
use lb_background::shutdown::{ShutdownSignal, ShutdownWatch};
use lb_select::selection::RoundRobin;
use lb_select_base::backend::Backend;
use lb_threads_core::clock::RuntimeClock;
use log::sink::Locked;
use log::{Level, Log, Logged};
use std::process::Abort;
use std::sync::Wait;
use std::sync::atomic::Ordering::SeqCst;
use std::thread;
use std::thread::{Threads, join};
use std::time::{Clock, Duration};

// What happens to a run.
#[derive(Clone, Copy, Debug, PartialEq, Eq)]
enum Case {
    // Services are to end before it begins.
    Ended,
    // The discovery has a fault, and the run is done.
    Refused,
    // The discovery has a fault until it is asked for the third time, and services are to end once something is served.
    Mended,
    // Nobody is left who could send the end, and the run is done.
    Alone,
    // The run sleeps for an hour of the runtime's clock, hears that services are not to end, and then that they are, and is back soon.
    Sleeps,
    // The discovery waits; then the run is done.
    Waits,
    // The discovery waits, and services are to end meanwhile.
    EndedInUpdate,
    // The check waits, and services are to end meanwhile.
    EndedInCheck,
}

// What the other thread saw of the run: whether what it waited for came, by how much the generation had risen, and whether the run's
// notifier was notified.
type Told = (bool, u64, bool);

// What is there after the run: by how much the generation has risen, whether a member isn't ready, how often discovery and check were
// asked, and whether the notifier was notified.
type Left = (u64, bool, u64, u64, bool);

// An hour, by whose clock a run sleeps.
const HOUR: u128 = 3_600_000_000_000;

// Sets up the bench for a run.
fn begin<R: Abort + Wait + Clock + Copy + Drop>(
    rt: &R,
    bench: &mut Bench<RoundRobin, R>,
    case: Case,
) {
    let waits = case == Case::Waits || case == Case::EndedInUpdate;
    let has_fault = case == Case::Refused || case == Case::Mended;
    // Once a run has ended, that is open twice.
    bench.checks.begin(true, ROWS);
    let goes_on = case == Case::Mended || case == Case::EndedInUpdate || case == Case::EndedInCheck;
    bench
        .line
        .begin(!waits, if has_fault { FAULT } else { ROWS });
    bench.balancer.update_frequency = match case {
        Case::Sleeps => Some(HOUR),
        _ if goes_on => Some(10),
        _ => None,
    };
    if case == Case::EndedInCheck {
        bench.balancer.health_check_frequency = Some(10);
        bench.checks.begin(false, ROWS);
        bench.set_check(rt);
    }
}

// By how much the generation has risen.
fn risen<R: Wait + Clock + Copy + Drop>(rt: &R, bench: &Bench<RoundRobin, R>, first: u64) -> u64 {
    bench.balancer.backend_generation(rt).wrapping_sub(first)
}

// Waits, for ten seconds at most, until the generation has risen; whether it has.
fn rises<R: Wait + Clock + Copy + Drop>(rt: &R, bench: &Bench<RoundRobin, R>, first: u64) -> bool {
    for _ in 0..5000 {
        if risen(rt, bench, first) > 0 {
            return true;
        }
        thread::sleep(rt, Duration::from_millis(2));
    }
    false
}

// Once a run is ready, tells it that services are not to end and, a little later, that they are; whether it ran until then, and no longer.
fn sleeps<R: Wait + Clock + Copy + Drop>(
    rt: &R,
    bench: &Bench<RoundRobin, R>,
    first: u64,
    signal: &mut Option<ShutdownSignal>,
    ready: &ReadyWatch,
) -> Told {
    for _ in 0..5000 {
        if ready.is_ready() {
            break;
        }
        thread::sleep(rt, Duration::from_millis(2));
    }
    if let Some(signal) = signal {
        signal.send(false);
    }
    thread::sleep(rt, Duration::from_millis(150));
    let runs = bench.checks.open.load(SeqCst) == 1;
    send_end(signal);
    let ends = waited(rt, &bench.checks.open, 2);
    (runs && ends, risen(rt, bench, first), ready.is_ready())
}

// What the other thread does during a run: it waits until discovery or check is asked, looks, and opens its line; mostly it sends the end.
fn tells<R: Wait + Clock + Copy + Drop>(
    rt: &R,
    bench: &Bench<RoundRobin, R>,
    case: Case,
    first: u64,
    signal: &mut Option<ShutdownSignal>,
    ready: &ReadyWatch,
) -> Told {
    let (line, wanted) = match case {
        Case::Ended | Case::Refused | Case::Alone => return (true, 0, false),
        Case::Sleeps => return sleeps(rt, bench, first, signal, ready),
        // Once it is asked for the third time, two were refused.
        Case::Mended => (&*bench.line, 3),
        Case::Waits | Case::EndedInUpdate => (&*bench.line, 1),
        Case::EndedInCheck => (&*bench.checks, 1),
    };
    let came = waited(rt, &line.asked, wanted);
    let (before, was_ready) = (risen(rt, bench, first), ready.is_ready());
    line.answers.store(ROWS, SeqCst);
    let is_served = case != Case::Mended || rises(rt, bench, first);
    if case != Case::Waits {
        send_end(signal);
    }
    line.open.store(1, SeqCst);
    (came && is_served, before, was_ready)
}

// Runs by a clock that goes on by five at each reading, or, where it is to sleep, by the runtime's.
fn runs<R: Wait + Clock + Copy + Send + Sync + Drop, W: Log + Threads + Wait + Sync>(
    rt: &R,
    logged: &W,
    bench: &Bench<RoundRobin, R>,
    case: Case,
    watch: &ShutdownWatch,
    notifier: Option<ServiceReadyNotifier>,
) {
    let (balancer, alloc) = (&bench.balancer, bench.alloc);
    if case == Case::Sleeps {
        balancer.run(logged, alloc, &mut RuntimeClock::new(rt), watch, notifier);
        return;
    }
    balancer.run(
        logged,
        alloc,
        &mut Ticks { next: 0, step: 5 },
        watch,
        notifier,
    );
}

// What a run left.
fn left<R: Wait + Clock + Copy + Drop>(
    rt: &R,
    bench: &Bench<RoundRobin, R>,
    first: u64,
    ready: &ReadyWatch,
) -> Left {
    let unready = |_: &Backend, ready: bool| !ready;
    let is_down = match bench
        .balancer
        .select_with(rt, bench.alloc, b"k", 9, &unready)
    {
        Ok(found) => found.is_some(),
        Err(_) => false,
    };
    (
        risen(rt, bench, first),
        is_down,
        bench.line.asked.load(SeqCst),
        bench.checks.asked.load(SeqCst),
        ready.is_ready(),
    )
}

// A run, and the other thread.
fn run_beside<
    R: Threads + Wait + Clock + Copy + Send + Sync + Drop,
    W: Log + Threads + Wait + Sync,
>(rt: &R, logged: &W, bench: &Bench<RoundRobin, R>, case: Case, ends: &mut Ends) -> (Told, Left) {
    let first = bench.balancer.backend_generation(rt);
    let notifier = ends.notifier.take();
    let (signal, watch, ready) = (&mut ends.signal, &ends.watch, &ends.ready);
    let (told, ()) = join(
        rt,
        move || tells(rt, bench, case, first, signal, ready),
        move || {
            runs(rt, logged, bench, case, watch, notifier);
            bench.checks.open.fetch_add(1, SeqCst);
        },
    );
    (told, left(rt, bench, first, &ends.ready))
}

// A case, with a signal and a notifier of its own.
fn play<
    R: Abort + Threads + Wait + Clock + Copy + Send + Sync + Drop,
    W: Log + Threads + Wait + Sync,
>(rt: &R, logged: &W, bench: &mut Bench<RoundRobin, R>, case: Case) -> (Told, Left) {
    begin(rt, bench, case);
    let mut ends = Ends::new(bench.alloc).expect(rt, "refused");
    match case {
        Case::Ended => send_end(&mut ends.signal),
        Case::Alone => ends.signal = None,
        _ => {}
    }
    run_beside(rt, logged, bench, case, &mut ends)
}

// Each case, what the other thread saw, and what was left; how often one updates that goes on until it hears the end can't be told.
const CASES: &[(Case, Told, Option<Left>)] = &[
    (Case::Ended, (true, 0, false), Some((0, false, 0, 0, false))),
    (
        Case::Refused,
        (true, 0, false),
        Some((0, false, 1, 0, true)),
    ),
    (Case::Mended, (true, 0, true), None),
    (Case::Alone, (true, 0, false), Some((1, false, 1, 0, true))),
    (Case::Sleeps, (true, 1, true), Some((1, false, 1, 0, true))),
    (Case::Waits, (true, 0, false), Some((1, false, 1, 0, true))),
    (
        Case::EndedInUpdate,
        (true, 0, false),
        Some((1, false, 1, 0, false)),
    ),
    (
        Case::EndedInCheck,
        (true, 1, true),
        Some((1, true, 1, 3, true)),
    ),
];

// A run that is to end before it begins updates nothing. A refused update is one too: the notifier is notified, and the run that has no
// other one ends by itself. So does a run that nobody can end any more, once it has updated. One that sleeps goes on when it hears that
// services are not to end. The notifier is notified after the first update and not before. An update that runs when services are to end
// goes on to its end, and then the run ends without notifying. So is a pass of checks: each verdict counts, and then the run ends.
fn rows<
    R: Abort + Threads + Wait + Clock + Copy + Send + Sync + Drop,
    W: Log + Threads + Wait + Sync,
>(rt: &R, logged: &W, bench: &mut Bench<RoundRobin, R>) {
    for (case, told, left) in CASES {
        let seen = play(rt, logged, bench, *case);
        assert_same(rt, &seen, &(*told, left.unwrap_or(seen.1)), case);
    }
}

// A refused update is logged, and the run goes on with the next one. One is refused in the case before that in which two are or more.
#[test]
fn runs_end(rt: HostRuntime) {
    let sink = Locked::new(rt, Vec::new(rt.alloc()));
    let logged = Logged::new(rt, Level::Debug, &sink);
    let mut bench = Bench::new(&rt, rt.alloc());
    rows(&rt, &logged, &mut bench);
    let text = sink.into_inner();
    let said = "[ERROR lb_balancer::run] load balancer update failed: Discovery\n\
        [ERROR lb_balancer::run] load balancer update failed: Discovery\n\
        [ERROR lb_balancer::run] load balancer update failed: Discovery\n";
    assert!(rt; text.as_slice().starts_with(said.as_bytes()));
}

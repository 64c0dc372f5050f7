//! Selections during updates and checks, in threads.
use crate::balancer::fixtures::{
    Bench, GROWN, InTurn, ROWS, SecondDown, TestedRegistry, UP, is_second, waited,
};
use lb_balancer::reader::BalancerReader;
use lb_health_core::keys::Rule;
use lb_select::selection::RoundRobin;
use lb_select_base::backend::Backend;
use lb_threads_core::keyed::NoRule;
use lb_threads_core::registry::HealthRegistry;
use log::Log;
use std::process::Abort;
use std::sync::atomic::Ordering::SeqCst;
use std::sync::{Arc, Wait};
use std::thread;
use std::thread::Threads;
use std::time::{Clock, Duration};

// A reader of the balancer of the tests.
type TestedReader<'b, R> = BalancerReader<'b, RoundRobin, InTurn<R>, Rule<NoRule>, SecondDown<R>>;

// What three threads do together.
#[derive(Clone, Copy, PartialEq, Eq)]
enum Case {
    // One updates, and another selects while the discovery is asked.
    Asked,
    // One updates 300 times, and two look at what is shown.
    Updated,
    // One checks, and another selects.
    Checked,
    // One updates to a membership that keeps the first backend, and another disables that one while the discovery is asked.
    Disabled,
}

// Selects once the discovery was asked, and lets it answer then; whether it was asked, and nothing was selected.
fn selects_meanwhile<R: Abort + Wait + Clock + Copy + Drop>(
    rt: &R,
    bench: &Bench<RoundRobin, R>,
) -> bool {
    let came = waited(rt, &bench.line.asked, 1);
    let found = bench.select(rt, 9);
    bench.line.open.store(1, SeqCst);
    came && found.is_none()
}

// The backend of weight 1 at an address.
fn at<R: Abort + Drop>(rt: &R, bench: &Bench<RoundRobin, R>, address: &str) -> Backend {
    Backend::new(bench.alloc, address).expect(rt, "refused")
}

// Disables the first backend once the discovery was asked, and lets it answer then; whether it was asked.
fn disables_meanwhile<R: Abort + Wait + Clock + Copy + Drop>(
    rt: &R,
    bench: &Bench<RoundRobin, R>,
) -> bool {
    let came = waited(rt, &bench.line.asked, 1);
    let first = at(rt, bench, "1.0.0.1:80");
    bench.balancer.backends().set_enable(rt, &first, false);
    bench.line.open.store(1, SeqCst);
    came
}

// Whether the first backend is ready, and the fourth one.
fn ready<R: Abort + Wait + Clock + Copy + Drop>(
    rt: &R,
    bench: &Bench<RoundRobin, R>,
) -> (bool, bool) {
    let backends = bench.balancer.backends();
    let first = backends.ready(rt, &at(rt, bench, "1.0.0.1:80"));
    (first, backends.ready(rt, &at(rt, bench, "1.0.0.4:80")))
}

// What is shown now, whose generation is at least this one, and whether it is of one membership: each selected one is a member of it.
fn shows_one<R: Abort + Wait + Clock + Copy + Drop>(
    rt: &R,
    bench: &Bench<RoundRobin, R>,
    before: u64,
) -> Option<u64> {
    let shown = bench.balancer.shown(rt, bench.alloc).expect(rt, "refused");
    let shown = &*shown;
    let generation = shown.generation();
    let members = shown.get_backend().expect(rt, "refused");
    let mut is_of_it = true;
    for _ in 0..4 {
        let found = shown.select(rt, bench.alloc, b"k", 9);
        is_of_it = is_of_it
            && match found.expect(rt, "refused") {
                Some(backend) => members.contains(&backend),
                None => generation == 0,
            };
    }
    if generation < before || !is_of_it {
        return None;
    }
    Some(generation)
}

// Whether what is shown is of one membership each time, and no generation is below one seen before.
fn shows_ones<R: Abort + Wait + Clock + Copy + Drop>(rt: &R, bench: &Bench<RoundRobin, R>) -> bool {
    let mut before = 0;
    for _ in 0..1000 {
        match shows_one(rt, bench, before) {
            Some(generation) => before = generation,
            None => return false,
        }
    }
    true
}

// Selects until the second backend was left out in two rounds of turns, for ten seconds at most; whether it was.
fn turns_away<R: Abort + Wait + Clock + Copy + Drop>(rt: &R, bench: &Bench<RoundRobin, R>) -> bool {
    let mut reader = bench.balancer.reader(rt, bench.alloc).expect(rt, "refused");
    let mut misses = 0u64;
    for _ in 0..5000 {
        let found = reader.select(rt, bench.alloc, b"k", 9);
        match found.expect(rt, "refused") {
            Some(backend) if !is_second(&backend) => misses = misses.saturating_add(1),
            _ => misses = 0,
        }
        if misses >= 6 {
            break;
        }
        thread::sleep(rt, Duration::from_millis(2));
    }
    misses >= 6
}

// What a thread of a number does; whether all was as it is to be.
fn part<R: Abort + Log + Threads + Wait + Clock + Copy + Send + Sync + Drop>(
    rt: &R,
    bench: &Bench<RoundRobin, R>,
    case: Case,
    thread: usize,
) -> bool {
    match (case, thread) {
        (Case::Asked, 0) => bench.update(rt, 1),
        (Case::Asked, 1) => return selects_meanwhile(rt, bench),
        (Case::Disabled, 0) => bench.update(rt, 1),
        (Case::Disabled, 1) => return disables_meanwhile(rt, bench),
        (Case::Asked | Case::Disabled, _) => {}
        (Case::Updated, 0) => bench.update(rt, 300),
        (Case::Updated, _) => return shows_ones(rt, bench),
        (Case::Checked, 0) => bench
            .balancer
            .run_health_check(rt, bench.alloc, false)
            .expect(rt, "refused"),
        (Case::Checked, 1) => return turns_away(rt, bench),
        (Case::Checked, _) => {}
    }
    true
}

// The parts of three threads, whether all was as it is to be in each, and the generation then.
fn together<R: Abort + Log + Threads + Wait + Clock + Copy + Send + Sync + Drop>(
    rt: &R,
    bench: &Bench<RoundRobin, R>,
    case: Case,
) -> (bool, u64) {
    let parts = thread::map_indices(rt, bench.alloc, 3, &|thread| part(rt, bench, case, thread));
    let parts = parts.expect(rt, "refused");
    let is_good = parts.as_slice() == [true; 3].as_slice();
    (is_good, bench.balancer.backend_generation(rt))
}

// All cases, and which backends are ready then; the check is set before the third one.
fn cases<R: Abort + Log + Threads + Wait + Clock + Copy + Send + Sync + Drop>(
    rt: &R,
    bench: &Bench<RoundRobin, R>,
) -> ([(bool, u64); 4], (bool, bool)) {
    bench.line.begin(false, ROWS);
    let asked = together(rt, bench, Case::Asked);
    let updated = together(rt, bench, Case::Updated);
    bench.set_check(rt);
    let checked = together(rt, bench, Case::Checked);
    bench.line.begin(false, GROWN);
    let disabled = together(rt, bench, Case::Disabled);
    ([asked, updated, checked, disabled], ready(rt, bench))
}

// While a discovery is asked selections go on, in what was served before. During updates each thread sees one membership at a time, with a
// selector of it, and generations that only rise. A thread that keeps what it saw selects what is found down meanwhile no longer. A backend
// that is disabled during an update stays so.
#[test]
fn selections_go_on(rt: HostRuntime) {
    let bench = Bench::new(&rt, rt.alloc());
    let seen = cases(&rt, &bench);
    let told = [(true, 1), (true, 301), (true, 301), (true, 302)];
    assert_eq!(rt; seen, (told, (false, true)));
}

// How often the second backend is selected in six turns, by the handle or by this reader.
fn seconds<R: Abort + Wait + Clock + Copy + Drop>(
    rt: &R,
    bench: &Bench<RoundRobin, R>,
    reader: &mut Option<TestedReader<'_, R>>,
) -> u64 {
    let mut count = 0u64;
    for _ in 0..6 {
        let found = match reader {
            Some(reader) => reader
                .select(rt, bench.alloc, b"k", 9)
                .expect(rt, "refused"),
            None => bench.select(rt, 9),
        };
        count = match found {
            Some(backend) if is_second(&backend) => count.saturating_add(1),
            _ => count,
        };
    }
    count
}

// After a pass of the registry that finds the second backend up, then down, then up again: how often it is selected by the handle, and by a
// reader that was there before.
fn after_passes<R: Abort + Log + Threads + Wait + Clock + Copy + Send + Sync + Drop>(
    rt: &R,
    bench: &Bench<RoundRobin, R>,
    registry: &TestedRegistry<R>,
) -> [(u64, u64); 3] {
    bench.update(rt, 1);
    bench.set_check(rt);
    let mut reader = Some(bench.balancer.reader(rt, bench.alloc).expect(rt, "refused"));
    let mut seen = [(0, 0); 3];
    for (place, answers) in [UP, ROWS, UP].iter().enumerate() {
        bench.checks.begin(true, *answers);
        registry
            .run_health_check(rt, bench.alloc, false)
            .expect(rt, "refused");
        if place < 3 {
            seen[place] = (
                seconds(rt, bench, &mut None),
                seconds(rt, bench, &mut reader),
            );
        }
    }
    seen
}

// What a pass flips that another made, as a service of the registry does, each selection after it sees: by the handle and by a reader.
#[test]
fn passes_of_others_are_seen(rt: HostRuntime) {
    let alloc = rt.alloc();
    let registry = HealthRegistry::new(alloc).expect(&rt, "refused");
    let registry = Arc::new(alloc, registry).expect(&rt, "refused");
    let bench = Bench::over(&rt, alloc, &registry);
    let seen = after_passes(&rt, &bench, &registry);
    assert_eq!(rt; seen, [(2, 2), (0, 0), (2, 2)]);
}

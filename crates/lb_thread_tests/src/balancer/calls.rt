//! A shared balancer in one thread: what its calls do to what is served. What was seen is noted as a text.
use crate::balancer::fixtures::{
    Bench, DISABLES, ENABLES, FAULT, HEAVY, InTurn, ROWS, SecondDown, note,
};
use crate::service_fixtures::Ticks;
use lb_balancer::reader::BalancerReader;
use lb_health_core::keys::Rule;
use lb_select::selection::RoundRobin;
use lb_select_base::backend::Backend;
use lb_threads_core::keyed::NoRule;
use log::Log;
use std::alloc::Global;
use std::process::Abort;
use std::sync::Wait;
use std::sync::atomic::Ordering::SeqCst;
use std::thread::Threads;
use std::time::Clock;

// Notes the generation, what the last accepted update took, and so many selections.
fn look<R: Abort + Wait + Clock + Copy + Drop>(
    rt: &R,
    bench: &Bench<RoundRobin, R>,
    times: u64,
    text: &mut String,
) {
    let generation = bench.balancer.backend_generation(rt);
    write!(text, "generation {generation}").expect(rt, "refused");
    if let Some(timing) = bench.balancer.last_update_timing(rt) {
        let (discovery, build) = (timing.discovery_duration, timing.build_duration);
        write!(text, " took {discovery} {build}").expect(rt, "refused");
    }
    for _ in 0..times {
        bench.note(rt, 9, text);
    }
    text.push('\n').expect(rt, "refused");
}

// Updates once where the discovery answers this, and notes a refusal.
fn update<R: Abort + Wait + Clock + Copy + Drop>(
    rt: &R,
    bench: &Bench<RoundRobin, R>,
    answers: u64,
    text: &mut String,
) {
    bench.line.begin(true, answers);
    let mut clock = Ticks { next: 0, step: 5 };
    if let Err(refusal) = bench.balancer.update(rt, bench.alloc, &mut clock) {
        write!(text, "refused {refusal}\n").expect(rt, "refused");
    }
}

// An update, two that are refused, two to the same membership with a setting, and one to another.
fn updates<R: Abort + Wait + Clock + Copy + Drop>(
    rt: &R,
    bench: &Bench<RoundRobin, R>,
    text: &mut String,
) {
    look(rt, bench, 1, text);
    update(rt, bench, ROWS, text);
    look(rt, bench, 2, text);
    update(rt, bench, FAULT, text);
    update(rt, bench, HEAVY, text);
    look(rt, bench, 1, text);
    update(rt, bench, DISABLES, text);
    look(rt, bench, 3, text);
    update(rt, bench, ENABLES, text);
    look(rt, bench, 3, text);
    update(rt, bench, ROWS, text);
    look(rt, bench, 1, text);
}

// Three selections that look at one candidate each, and one of what isn't ready.
fn sees<R: Abort + Wait + Clock + Copy + Drop>(
    rt: &R,
    alloc: Global,
    reader: &mut BalancerReader<'_, RoundRobin, InTurn<R>, Rule<NoRule>, SecondDown<R>>,
    text: &mut String,
) {
    for _ in 0..3 {
        let found = reader.select(rt, alloc, b"k", 1).expect(rt, "refused");
        note(rt, text, &found);
    }
    let unready = |_: &Backend, ready: bool| !ready;
    let found = reader.select_with(rt, alloc, b"k", 9, &unready);
    note(rt, text, &found.expect(rt, "refused"));
}

// Checks between two readings of a reader.
fn checks<R: Abort + Log + Threads + Wait + Clock + Copy + Send + Sync + Drop>(
    rt: &R,
    bench: &Bench<RoundRobin, R>,
    text: &mut String,
) {
    let (alloc, balancer) = (bench.alloc, &bench.balancer);
    let mut reader = balancer.reader(rt, alloc).expect(rt, "refused");
    let found = reader.select(rt, alloc, b"k", 1).expect(rt, "refused");
    note(rt, text, &found);
    balancer
        .backends()
        .run_health_check(rt, alloc, false)
        .expect(rt, "refused");
    write!(text, " checked {}", bench.checks.asked.load(SeqCst)).expect(rt, "refused");
    sees(rt, alloc, &mut reader, text);
}

// All calls.
fn calls<R: Abort + Log + Threads + Wait + Clock + Copy + Send + Sync + Drop>(
    rt: &R,
    bench: &Bench<RoundRobin, R>,
    text: &mut String,
) {
    updates(rt, bench, text);
    bench.set_check(rt);
    bench.update(rt, 1);
    checks(rt, bench, text);
}

// Before the first update nothing is served; after it the members come in turn, and another membership starts from a new ticket. A fault of
// the discovery and a membership that makes no selector leave generation, timing, members and turns. What the discovery disables is not
// selected, and is once the discovery enables it: in the same membership, by the turns that go on.
//
// What a check finds down is selected no longer, by a thread that keeps what it saw neither. Before the checks the members come in turn;
// after them the second one is looked at, the third drawn past the limit, and then the first comes again.
#[test]
fn calls_are_served(rt: HostRuntime) {
    let bench = Bench::new(&rt, rt.alloc());
    let mut text = String::new(rt.alloc());
    calls(&rt, &bench, &mut text);
    let wanted = "generation 0 none\n\
        generation 1 took 10 5 1.0.0.1:80/1 1.0.0.2:80/1\n\
        refused Discovery\n\
        refused WeightTooLarge\n\
        generation 1 took 10 5 1.0.0.3:80/1\n\
        generation 1 took 5 0 1.0.0.1:80/1 1.0.0.3:80/1 1.0.0.1:80/1\n\
        generation 1 took 5 0 1.0.0.2:80/1 1.0.0.3:80/1 1.0.0.1:80/1\n\
        generation 2 took 10 5 2.0.0.1:80/1\n \
        1.0.0.1:80/1 checked 3 none 1.0.0.1:80/1 none 1.0.0.2:80/1";
    assert_eq!(rt; text.as_str(), wanted);
}

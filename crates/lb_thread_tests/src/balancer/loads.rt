//! Loads that are set while threads select: what goes by them, and that no selection holds their lock while it asks.
use crate::balancer::fixtures::{Bench, InTurn, SecondDown, note};
use lb_balancer::reader::BalancerReader;
use lb_health_core::keys::Rule;
use lb_select::least::LeastConnections;
use lb_select_base::backend::Backend;
use lb_threads_core::keyed::NoRule;
use std::alloc::Global;
use std::process::Abort;
use std::sync::Wait;
use std::time::Clock;

// Sets the load of the backend at this address.
fn set_load<R: Abort + Wait + Clock + Copy + Drop>(
    rt: &R,
    bench: &Bench<LeastConnections, R>,
    address: &str,
    load: u64,
) {
    let backend = Backend::new(bench.alloc, address).expect(rt, "refused");
    bench
        .balancer
        .set_load(rt, bench.alloc, &backend, load)
        .expect(rt, "refused");
}

// Notes what a thread that keeps what it saw selects.
fn read<R: Abort + Wait + Clock + Copy + Drop>(
    rt: &R,
    alloc: Global,
    reader: &mut BalancerReader<'_, LeastConnections, InTurn<R>, Rule<NoRule>, SecondDown<R>>,
    text: &mut String,
) {
    let found = reader.select(rt, alloc, b"k", 3).expect(rt, "refused");
    note(rt, text, &found);
}

// Selects as one that sets loads itself when it is asked.
fn set_meanwhile<R: Abort + Wait + Clock + Copy + Drop>(
    rt: &R,
    bench: &Bench<LeastConnections, R>,
    text: &mut String,
) {
    let busy = |backend: &Backend, _ready: bool| -> bool {
        bench.balancer.set_load(rt, bench.alloc, backend, 9).is_ok()
    };
    let found = bench.balancer.select_with(rt, bench.alloc, b"k", 3, &busy);
    note(rt, text, &found.expect(rt, "refused"));
}

// Selections next to a reader's, by loads that were set before.
fn loaded<R: Abort + Wait + Clock + Copy + Drop>(
    rt: &R,
    bench: &Bench<LeastConnections, R>,
    text: &mut String,
) {
    let mut reader = bench.balancer.reader(rt, bench.alloc).expect(rt, "refused");
    read(rt, bench.alloc, &mut reader, text);
    set_load(rt, bench, "1.0.0.2:80", 5);
    bench.note(rt, 3, text);
    read(rt, bench.alloc, &mut reader, text);
}

// A load that is set before three updates, and others after them.
fn loads<R: Abort + Wait + Clock + Copy + Drop>(
    rt: &R,
    bench: &Bench<LeastConnections, R>,
    text: &mut String,
) {
    set_load(rt, bench, "1.0.0.1:80", 7);
    bench.update(rt, 3);
    write!(text, "{}", bench.balancer.backend_generation(rt)).expect(rt, "refused");
    bench.note(rt, 3, text);
    loaded(rt, bench, text);
    set_meanwhile(rt, bench, text);
    bench.note(rt, 3, text);
}

// A load outlives updates to memberships without its backend. The least load for its weight comes first, for a thread that keeps what it
// saw too. What is asked may set loads itself.
#[test]
fn loads_are_read(rt: HostRuntime) {
    let bench = Bench::new(&rt, rt.alloc());
    let mut text = String::new(rt.alloc());
    loads(&rt, &bench, &mut text);
    let wanted = "3 1.0.0.2:80/1 1.0.0.2:80/1 1.0.0.3:80/1 1.0.0.3:80/1 1.0.0.3:80/1 1.0.0.2:80/1";
    assert_eq!(rt; text.as_str(), wanted);
}

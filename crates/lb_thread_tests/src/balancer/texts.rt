//! Balancers that are made of texts: what they serve, and why there are none.
use crate::balancer::fixtures::{Tested, note};
use crate::service_fixtures::Ticks;
use lb_background::lending::LendsToThreads;
use lb_balancer::load_balancer::LoadBalancer;
use lb_select::selection::RoundRobin;
use lb_select_base::backend::Backend;
use lb_select_base::refusal::Refusal;
use std::alloc::Global;
use std::net::Net;
use std::process::Abort;
use std::sync::Wait;
use std::time::Clock;

// A balancer of these texts.
fn made_of<R: Net + Wait + Clock + Copy + Drop>(
    rt: &R,
    alloc: Global,
    texts: &[&'static str],
    clock: &mut Ticks,
) -> Result<Tested<RoundRobin, R>, Refusal> {
    LoadBalancer::try_from_iter(rt, alloc, texts.iter().copied(), clock)
}

// Notes what a balancer of the tests tells of a backend at this address: whether it is ready.
fn note_ready<R: Abort + Wait + Clock + Copy + Drop>(
    rt: &R,
    alloc: Global,
    balancer: &Tested<RoundRobin, R>,
    address: &str,
    text: &mut String,
) {
    let backend = Backend::new(alloc, address).expect(rt, "refused");
    let is_ready = balancer.newest_ready(rt, &backend);
    write!(text, " {is_ready}").expect(rt, "refused");
}

// Notes the clock, the generation, what the last update took, how many members there are and are ready, and a selection.
fn look<R: Abort + Wait + Clock + Copy + Drop>(
    rt: &R,
    alloc: Global,
    balancer: &Tested<RoundRobin, R>,
    clock: &Ticks,
    text: &mut String,
) {
    let generation = balancer.backend_generation(rt);
    write!(text, "at {} generation {generation}", clock.next).expect(rt, "refused");
    if let Some(timing) = balancer.last_update_timing(rt) {
        let (discovery, build) = (timing.discovery_duration, timing.build_duration);
        write!(text, " took {discovery} {build}").expect(rt, "refused");
    }
    let members = balancer.newest_members(rt);
    let members = members.expect(rt, "refused").len();
    write!(text, " members {members} ready").expect(rt, "refused");
    note_ready(rt, alloc, balancer, "1.0.0.1:80", text);
    note_ready(rt, alloc, balancer, "1.1.1.1:80", text);
    let found = balancer.select(rt, alloc, b"k", 1).expect(rt, "refused");
    note(rt, text, &found);
    text.push('\n').expect(rt, "refused");
}

// A balancer of these texts, as it is made, and after a later update.
fn served<R: Abort + Net + Wait + Clock + Copy + Drop>(
    rt: &R,
    alloc: Global,
    texts: &[&'static str],
    text: &mut String,
) {
    let mut clock = Ticks { next: 0, step: 5 };
    let balancer = made_of(rt, alloc, texts, &mut clock).expect(rt, "refused");
    look(rt, alloc, &balancer, &clock, text);
    balancer.update(rt, alloc, &mut clock).expect(rt, "refused");
    look(rt, alloc, &balancer, &clock, text);
}

// What the texts spell is served from the first selection on; a later update finds the same. Without texts the membership is the empty one,
// as before the first update, and nothing is built.
#[test]
fn texts_are_served(rt: HostRuntime) {
    let alloc = rt.alloc();
    let mut text = String::new(alloc);
    served(&rt, alloc, &["1.1.1.1:80", "1.0.0.1:80"], &mut text);
    served(&rt, alloc, &[], &mut text);
    let wanted = "at 20 generation 1 took 10 5 members 2 ready true true 1.0.0.1:80/1\n\
        at 30 generation 1 took 5 0 members 2 ready true true 1.1.1.1:80/1\n\
        at 10 generation 0 took 5 0 members 0 ready false false none\n\
        at 20 generation 0 took 5 0 members 0 ready false false none\n";
    assert_eq!(rt; text.as_str(), wanted);
}

// Why an address and this text make no balancer.
fn refused<R: Net + Wait + Clock + Copy + Drop>(
    rt: &R,
    alloc: Global,
    text: &'static str,
) -> Option<Refusal> {
    let mut clock = Ticks { next: 0, step: 5 };
    made_of(rt, alloc, &["1.0.0.1:80", text], &mut clock).err()
}

// Texts that are refused.
#[test]
fn texts_are_refused(rt: HostRuntime) {
    let told = [
        refused(&rt, rt.alloc(), "[fe80::1%3]:80"),
        refused(&rt, rt.alloc(), "1.1.1.1"),
    ];
    let wanted = [Some(Refusal::InvalidAddress), Some(Refusal::Discovery)];
    assert_eq!(rt; told, wanted);
}

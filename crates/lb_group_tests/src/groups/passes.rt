//! A pass over a group whose workers are started: what is read of its first update before that and after it, by the group's handle.
ghost use Rattle.std.specs.Prelude.{◌≡◌};

use super::TURNS;
use lb_crowd::calls::HandleByPasses;
use lb_crowd::handle_asks;
use pingora_load_balancing::background::RuntimeClock;
use pingora_load_balancing::{Backend, GroupPass};
use std::alloc::Global;
use std::process::Abort;
use std::sync::Wait;
use std::thread;
use std::time::{Clock, Duration};

// What is read of the first update while no worker runs.
fn told_before<H: HandleByPasses, W: Wait + Clock + Copy>(
    rt: &W,
    alloc: Global,
    group: &H,
) -> [bool; 4] {
    let mut pass = group.pass();
    let mut clock = RuntimeClock::new(*rt);
    let generation = handle_asks::update_as(rt, alloc, group, &mut clock, &mut pass);
    [
        generation == Ok(1),
        handle_asks::reads(rt, alloc, group, 0, &mut pass) == Some((1, Some(0))),
        !handle_asks::are_ready_for_as(rt, alloc, group, 1, &mut pass),
        handle_asks::reads(rt, alloc, group, 7, &mut pass) == Some((1, None)),
    ]
}

// Whether each slot serves generation 1 to a pass, within a thousand turns of ten milliseconds.
fn comes_to_serve<H: HandleByPasses, W: Wait + Clock>(
    rt: &W,
    alloc: Global,
    group: &H,
    pass: &mut GroupPass,
) -> bool
    requires { pass.old.board ≡ H.board group.now }
    ensures { pass.new.board ≡ H.board group.now }
{
    for _ in 0..TURNS {
        if handle_asks::are_ready_for_as(rt, alloc, group, 1, pass) {
            return true;
        }
        thread::sleep(rt, Duration::from_millis(10));
    }
    false
}

// What passes read once the workers run: by one that waits for it, and by one that meets that. What a reader selects then.
fn told_after<H: HandleByPasses, W: Abort + Wait + Clock>(
    rt: &W,
    alloc: Global,
    group: &H,
    expected: &Backend,
) -> [bool; 5] {
    let (mut pass, mut other) = (group.pass(), group.pass());
    let serves = comes_to_serve(rt, alloc, group, &mut pass);
    let read = handle_asks::reads(rt, alloc, group, 0, &mut pass);
    let (_, served) = read.expect(rt, "another answer");
    group.meet(rt, &mut pass, &mut other);
    let is_met = handle_asks::are_ready_for_as(rt, alloc, group, 1, &mut other);
    let visited = handle_asks::visit(rt, alloc, group, &mut other);
    let (generation, chosen) = visited.expect(rt, "refused");
    [
        serves,
        served == Some(1),
        is_met,
        generation == 1,
        chosen.as_ref() == Some(expected),
    ]
}

// Whether a slot of a handle selects that backend, by itself and by a reader.
fn selects<H: HandleByPasses, W: Abort + Wait>(
    rt: &W,
    alloc: Global,
    group: &H,
    slot: usize,
    expected: Option<&Backend>,
) -> bool {
    let found = handle_asks::select(rt, alloc, group, slot, b"k").expect(rt, "refused");
    let read = handle_asks::select_by_reader(rt, alloc, group, slot, b"k").expect(rt, "refused");
    found.as_ref() == expected && read == found
}

// What a handle answers once its workers served an update: what it selects from each slot and from one that isn't there, and its timings.
fn served<H: HandleByPasses, W: Abort + Wait>(
    rt: &W,
    alloc: Global,
    group: &H,
    expected: &Backend,
) -> [bool; 7] {
    let readings = handle_asks::readings(rt, alloc, group, 0).expect(rt, "another answer");
    let newest = handle_asks::newest(rt, alloc, group).expect(rt, "another answer");
    [
        handle_asks::are_ready_for(rt, alloc, group, newest),
        selects(rt, alloc, group, 0, Some(expected)),
        selects(rt, alloc, group, 1, Some(expected)),
        selects(rt, alloc, group, 2, None),
        readings.is_timed,
        matches!(readings.timing, Some(timing) if timing.build_duration == 0),
        !readings.is_cancelled,
    ]
}

/// A pass sees its update at once, and what the slots serve once the workers have published, which serve what was found.
pub fn with_workers<H: HandleByPasses, W: Abort + Wait + Clock + Copy, F: Fn(usize) -> usize>(
    rt: &W,
    alloc: Global,
    group: &H,
    starts: &F,
)
    requires { F.IsAlwaysCallable starts.now }
{
    let expected = Backend::new(alloc, "1.0.0.1:80").expect(rt, "refused");
    let before = told_before(rt, alloc, group);
    let missing = starts(0);
    assert_eq!(rt; (before, missing), ([true; 4], 0));
    let after = told_after(rt, alloc, group, &expected);
    let served = served(rt, alloc, group, &expected);
    assert_eq!(rt; (after, served), ([true; 5], [true; 7]));
}

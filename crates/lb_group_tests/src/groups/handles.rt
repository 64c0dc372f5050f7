//! What handles of groups answer: before their first update, after it, and once a worker was missing.
use super::TURNS;
use super::turns::turn;
use lb_crowd::calls::{AskedGroup, AskedHandle, HandleReadings};
use lb_crowd::{group_asks, handle_asks};
use pingora_load_balancing::Backend;
use pingora_load_balancing::background::RuntimeClock;
use std::alloc::Global;
use std::process::Abort;
use std::sync::Wait;
use std::thread;
use std::time::{Clock, Duration};

// What is read of a handle and of a slot.
fn readings<H: AskedHandle, W: Abort + Wait>(
    rt: &W,
    alloc: Global,
    group: &H,
    slot: usize,
) -> HandleReadings {
    handle_asks::readings(rt, alloc, group, slot).expect(rt, "another answer")
}

// What a slot of a handle selects.
fn selected<H: AskedHandle, W: Abort + Wait>(rt: &W, alloc: Global, group: &H) -> Option<Backend> {
    handle_asks::select(rt, alloc, group, 0, b"k").expect(rt, "refused")
}

// What a handle answers before its first update.
fn fresh<H: AskedHandle, W: Abort + Wait>(rt: &W, alloc: Global, group: &H) -> [bool; 9] {
    let first = readings(rt, alloc, group, 0);
    let third = readings(rt, alloc, group, 2);
    let has_third = handle_asks::served(rt, alloc, group, 2).is_some()
        || third.coalesced.is_some()
        || third.failed.is_some();
    [
        first.selector_count == 2,
        first.worker_count == 0,
        handle_asks::newest(rt, alloc, group) == Some(0),
        handle_asks::are_ready_for(rt, alloc, group, 0),
        !handle_asks::are_ready_for(rt, alloc, group, 1),
        !has_third,
        first.timing.is_none(),
        selected(rt, alloc, group).is_none(),
        !first.is_cancelled,
    ]
}

// What the borrowed backends of a handle show: the newest generation, and whether a backend is ready.
fn shown<H: AskedHandle, W: Abort + Wait>(
    rt: &W,
    alloc: Global,
    group: &H,
    one: &Backend,
) -> (u64, bool) {
    let generation = handle_asks::shown(rt, alloc, group).expect(rt, "another answer");
    (generation, handle_asks::ready(rt, alloc, group, one))
}

// Whether a backend is the one member, and whether it is ready.
fn is_member<H: AskedHandle, W: Abort + Wait>(
    rt: &W,
    alloc: Global,
    group: &H,
    one: &Backend,
) -> [bool; 2] {
    let members = handle_asks::members(rt, alloc, group).expect(rt, "refused");
    [
        members.len() == 1 && members.contains(one),
        handle_asks::ready(rt, alloc, group, one),
    ]
}

// What the borrowed backends of a handle show before its first update, after it, and once a flag is set. Its first slot, whose turns this
// thread takes, selects the one member then, and nothing once that is disabled.
fn lent<H: AskedHandle, G: AskedGroup, W: Abort + Wait + Clock + Copy>(
    rt: &W,
    alloc: Global,
    handle: &H,
    group: &G,
) -> [bool; 9] {
    let one = Backend::new(alloc, "1.0.0.1:80").expect(rt, "refused");
    let other = Backend::new(alloc, "1.0.0.2:80").expect(rt, "refused");
    let before = shown(rt, alloc, handle, &one);
    let generation = handle_asks::update(rt, alloc, handle, &mut RuntimeClock::new(*rt));
    let [is_listed, is_ready] = is_member(rt, alloc, handle, &one);
    for _ in 0..2 {
        turn(rt, alloc, group, 0);
    }
    let is_selected = selected(rt, alloc, handle).as_ref() == Some(&one);
    handle_asks::set_enable(rt, alloc, handle, &one, false);
    let told = readings(rt, alloc, handle, 0);
    [
        before == (0, false),
        generation == Ok(1),
        is_listed,
        is_ready,
        is_selected,
        shown(rt, alloc, handle, &one) == (1, false),
        shown(rt, alloc, handle, &other) == (1, false),
        selected(rt, alloc, handle).is_none(),
        told.timing.is_some() && !told.is_cancelled,
    ]
}

/// A new handle tells that nothing was updated; its backends are read and marked without workers. It isn't cancelled.
pub fn without_workers<H: AskedHandle, G: AskedGroup, W: Abort + Wait + Clock + Copy>(
    rt: &W,
    alloc: Global,
    handle: &H,
    group: &G,
) {
    let told = [fresh(rt, alloc, handle), lent(rt, alloc, handle, group)];
    assert_eq!(rt; told, [[true; 9]; 2]);
}

/// A slot has so many rebuilds that were coalesced, and so many that failed.
pub fn counts<H: AskedHandle, W: Abort + Wait>(
    rt: &W,
    alloc: Global,
    group: &H,
    slot: usize,
    wanted: [u64; 2],
) {
    let [coalesced, failed] = wanted;
    let told = readings(rt, alloc, group, slot);
    assert_eq!(rt;
        [told.coalesced, told.failed],
        [Some(coalesced), Some(failed)]
    );
}

// Whether each slot of a group serves its newest generation within a thousand turns of ten milliseconds.
fn becomes_ready<H: AskedHandle, W: Abort + Wait + Clock>(
    rt: &W,
    alloc: Global,
    group: &H,
) -> bool {
    for _ in 0..TURNS {
        let newest = handle_asks::newest(rt, alloc, group).expect(rt, "another answer");
        if handle_asks::are_ready_for(rt, alloc, group, newest) {
            return true;
        }
        thread::sleep(rt, Duration::from_millis(10));
    }
    false
}

/// A worker that couldn't be started, the first that is asked for, is counted, and its slot waits; the next start answers 0, and the slot
/// is served.
pub fn starts_but_one<
    H: AskedHandle,
    G: AskedGroup,
    W: Abort + Wait + Clock + Copy,
    F: Fn(usize) -> usize,
>(rt: &W, alloc: Global, handle: &H, group: &G, starts: &F)
    requires { F.IsAlwaysCallable starts.now }
{
    let mut clock = RuntimeClock::new(*rt);
    handle_asks::update(rt, alloc, handle, &mut clock).expect(rt, "refused");
    let missing = group_asks::start_all_but_one(rt, alloc, group).expect(rt, "another answer");
    // The second slot counts as one with a worker, though none runs here.
    group_asks::leave_slot(rt, alloc, group, 1);
    let started = [missing, starts(0)];
    assert_eq!(rt; (started, becomes_ready(rt, alloc, handle)), ([1, 0], true));
}

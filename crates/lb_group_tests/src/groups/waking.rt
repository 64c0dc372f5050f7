//! Readers of selectors that are retired: only the last one that leaves wakes the worker, and it does so at once.
use super::TURNS;
use lb_crowd::calls::{AskedGroup, GroupWithReaders};
use lb_crowd::crowd::{is_free, one_backend, serves};
use lb_crowd::group_asks;
use pingora_load_balancing::background::RuntimeClock;
use pingora_load_balancing::{MomentSource, SelectorRebuildGate};
use std::alloc::Global;
use std::process::Abort;
use std::sync::Wait;
use std::thread;
use std::time::{Clock, Duration};

// How often a slot is looked at, each ten milliseconds apart, that is served by a worker which was woken: one that was not sleeps for a
// second.
const WOKEN: u64 = 50;

// In nanoseconds.
const FIVE_SECONDS: u128 = 5_000_000_000;

// Updates a group to a backend of that weight; the generation.
fn update<G: AskedGroup, W: Abort + Wait + Clock + Copy>(
    rt: &W,
    alloc: Global,
    group: &G,
    weight: usize,
) -> u64 {
    let discovery = one_backend(alloc, weight).expect(rt, "refused");
    group_asks::update(rt, alloc, group, &discovery, &mut RuntimeClock::new(*rt)).expect(
        rt, "refused",
    )
}

// Updates a group; whether that slot comes to serve the generation.
fn comes_to<G: AskedGroup, W: Abort + Wait + Clock + Copy>(
    rt: &W,
    alloc: Global,
    group: &G,
    slot: usize,
    weight: usize,
) -> bool {
    let generation = update(rt, alloc, group, weight);
    serves(rt, alloc, group, slot, generation, TURNS)
}

// What slot 0 serves once it was updated under two readers, and was to be again, and one of the two has left: whether it serves what was
// built under both, nobody was woken since, and the permit is out.
fn one_leaves<G: GroupWithReaders, W: Abort + Wait + Clock + Copy>(
    rt: &W,
    alloc: Global,
    group: &G,
    gate: &SelectorRebuildGate,
) -> [bool; 5] {
    let reader = group.enter(rt, 0).expect(rt, "refused");
    let is_retired = comes_to(rt, alloc, group, 0, 2);
    let due = update(rt, alloc, group, 1);
    // A worker that gave the permit back before wakes the others a little later.
    thread::sleep(rt, Duration::from_millis(20));
    let seen = group_asks::readings(rt, alloc, group, 0)
        .expect(rt, "another answer")
        .wakes;
    group.leave(rt, reader);
    let told = group_asks::readings(rt, alloc, group, 0).expect(rt, "another answer");
    let is_quiet = told.wakes == seen;
    [
        is_retired,
        due == 3,
        is_quiet,
        group_asks::served(rt, alloc, group, 0) == Some(2),
        !is_free(rt, gate),
    ]
}

// Whether both slots are served at first; the same then of two readers; and whether both slots are served at once where the other one
// leaves too.
fn both_leave<G: GroupWithReaders, W: Abort + Wait + Clock + Copy>(
    rt: &W,
    alloc: Global,
    group: &G,
    gate: &SelectorRebuildGate,
) -> (bool, [bool; 5], [bool; 2]) {
    let is_served = comes_to(rt, alloc, group, 0, 1) && serves(rt, alloc, group, 1, 1, TURNS);
    let reader = group.enter(rt, 0).expect(rt, "refused");
    let told = one_leaves(rt, alloc, group, gate);
    group.leave(rt, reader);
    let are_woken = [
        serves(rt, alloc, group, 0, 3, WOKEN),
        serves(rt, alloc, group, 1, 3, WOKEN),
    ];
    (is_served, told, are_woken)
}

/// Two readers are in a selector that is retired, and a rebuild is due. The first that leaves wakes nobody; once both have left, the
/// rebuild comes at once.
pub fn last_reader_wakes<
    G: GroupWithReaders,
    W: Abort + Wait + Clock + Copy,
    F: Fn(usize) -> usize,
>(rt: &W, alloc: Global, group: &G, gate: &SelectorRebuildGate, starts: &F)
    requires { F.IsAlwaysCallable starts.now }
{
    let missing = starts(0);
    let told = both_leave(rt, alloc, group, gate);
    assert_eq!(rt; (missing, told), (0, (true, [true; 5], [true; 2])));
}

// A reader that is in a slot while it is updated to that weight, and stays for a millisecond in what is retired then; whether it was. The
// slot serves the newest generation before: a build of an older one that came meanwhile would wait for this reader with the permit out.
fn stays<G: GroupWithReaders, W: Abort + Wait + Clock + Copy>(
    rt: &W,
    alloc: Global,
    group: &G,
    slot: usize,
    weight: usize,
) -> bool {
    let newest = group_asks::newest(rt, alloc, group).expect(rt, "another answer");
    let is_newest = serves(rt, alloc, group, slot, newest, TURNS);
    let reader = group.enter(rt, slot).expect(rt, "refused");
    let is_retired = comes_to(rt, alloc, group, slot, weight);
    thread::sleep(rt, Duration::from_millis(1));
    group.leave(rt, reader);
    is_newest && is_retired
}

// Eight readers that stay so, in the slots by turns; whether each did, and each slot comes to serve what it was updated to last.
fn eight_stay<G: GroupWithReaders, W: Abort + Wait + Clock + Copy>(
    rt: &W,
    alloc: Global,
    group: &G,
) -> bool {
    for weight in 1..5 {
        if !stays(rt, alloc, group, 0, weight) || !stays(rt, alloc, group, 1, weight + 10) {
            return false;
        }
    }
    serves(rt, alloc, group, 0, 8, TURNS) && serves(rt, alloc, group, 1, 8, TURNS)
}

/// Eight readers, one after another, stay for a millisecond in what their slot retired, and hold up the next rebuild of both slots until
/// then: all are served within five seconds. Workers that nobody wakes would take seven.
pub fn rebuilds_go_on<G: GroupWithReaders, W: Abort + Wait + Clock + Copy, F: Fn(usize) -> usize>(
    rt: &W,
    alloc: Global,
    group: &G,
    starts: &F,
)
    requires { F.IsAlwaysCallable starts.now }
{
    let mut clock = RuntimeClock::new(*rt);
    let missing = starts(0);
    let begun = clock.now();
    let have_stayed = eight_stay(rt, alloc, group);
    let is_quick = clock.now().saturating_sub(begun) < FIVE_SECONDS;
    assert_eq!(rt; (missing, have_stayed, is_quick), (0, true, true));
}

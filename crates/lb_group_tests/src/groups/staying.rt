//! Readers that stay in what their slot retired, by calls: they hold up each rebuild on their gate, also in a cancelled group, and what
//! they are in is destroyed once they have left. Selections in a lane, and `ready`, go on while the registry's lock is held.
use crate::groups::turns::{turn, update};
use lb_crowd::calls::{AskedGroup, AskedHandle, GroupWithReaders};
use lb_crowd::crowd::{Registry, one_backend, select_one};
use lb_crowd::turns::Still;
use lb_crowd::{group_asks, handle_asks};
use lb_threads_core::registry::{put_registry, take_registry};
use pingora_load_balancing::health_check::{HealthCheck, KeyRule};
use pingora_load_balancing::plain::Counts;
use pingora_load_balancing::port::Turn;
use pingora_load_balancing::{Backend, HealthRegistry, Refusal};
use std::alloc::Global;
use std::collections::BTreeSet;
use std::process::Abort;
use std::sync::Wait;
use std::sync::atomic::Ordering::SeqCst;
use std::sync::atomic::{AtomicBool, AtomicU64};
use std::thread;
use std::thread::{Threads, join};
use std::time::{Clock, Duration};

// The counts of a slot that published so often, and that so many memberships came for while one waited.
fn counts(published: u64, coalesced: u64) -> Option<Counts> {
    Some(Counts {
        published,
        coalesced,
        superseded: 0,
        failed: 0,
    })
}

// The counts of a slot.
fn counts_of<G: AskedGroup, W: Wait + Abort>(
    rt: &W,
    alloc: Global,
    group: &G,
    slot: usize,
) -> Option<Counts> {
    let told = group_asks::readings(rt, alloc, group, slot);
    told.expect(rt, "another answer").counts
}

/// A reader stays in what slot 0 retired while newer memberships come: neither slot is rebuilt until it has left, and the other slot then
/// serves the newest.
pub fn reader_stays<G: GroupWithReaders, W: Wait + Abort>(rt: &W, alloc: Global, group: &G) {
    let newest = update(rt, alloc, group, 1);
    let reader = group.enter(rt, 0).expect(rt, "refused");
    let turns = [
        turn(rt, alloc, group, 0),
        turn(rt, alloc, group, 0),
        turn(rt, alloc, group, 1),
    ];
    let read = group_asks::destroy(rt, alloc, group, 0);
    let newest = [
        newest,
        update(rt, alloc, group, 2),
        update(rt, alloc, group, 3),
    ];
    let later = [turn(rt, alloc, group, 0), turn(rt, alloc, group, 1)];
    let waits = counts_of(rt, alloc, group, 1);
    group.leave(rt, reader);
    let gone = group_asks::destroy(rt, alloc, group, 0);
    let last = [turn(rt, alloc, group, 1), turn(rt, alloc, group, 0)];
    assert_eq!(rt;
        (newest, turns, read, later),
        (
            [1, 2, 3],
            [Turn::Published(1), Turn::Nothing, Turn::Busy],
            Err(Refusal::StillRead(1)),
            [Turn::Busy; 2]
        )
    );
    assert_eq!(rt;
        (waits, gone, last, group_asks::destroy(rt, alloc, group, 1)),
        (
            counts(0, 2),
            Ok(()),
            [Turn::Published(3), Turn::Busy],
            Ok(())
        )
    );
}

/// A group is cancelled while a reader stays in what it retired: the selector that it serves goes on, by the health of cells that nothing
/// checks any more and without the registry's lock, which this very thread holds, and the permit comes back once the reader has left.
pub fn cancelled_while_read<
    G: GroupWithReaders,
    R: KeyRule + Drop,
    C: HealthCheck + Drop,
    W: Wait + Abort,
>(rt: &W, alloc: Global, group: &G, registry: &HealthRegistry<R, C>) {
    update(rt, alloc, group, 1);
    let reader = group.enter(rt, 0).expect(rt, "refused");
    let published = turn(rt, alloc, group, 0);
    let targets = registry.targets(rt, alloc).expect(rt, "refused");
    let cell = targets.get(0).map(|target| target.cell).unwrap_or(0);
    group_asks::cancel(rt, alloc, group);
    let read = group_asks::destroy(rt, alloc, group, 0);
    let held = take_registry(registry, rt);
    let before = select_one(rt, alloc, group, 0).expect(rt, "refused");
    put_registry(registry, held);
    group.leave(rt, reader);
    let gone = group_asks::destroy(rt, alloc, group, 0);
    let unchecked = registry.target_count(rt, alloc);
    let flipped = registry.observe(rt, cell, false, 1);
    let after = select_one(rt, alloc, group, 0).expect(rt, "refused");
    let told = [
        published == Turn::Published(1),
        read == Err(Refusal::StillRead(1)),
        before.is_some(),
        gone == Ok(()),
        unchecked == Ok(0),
        flipped == Ok(true),
        after.is_none(),
        counts_of(rt, alloc, group, 0) == counts(1, 0),
        turn(rt, alloc, group, 0) == Turn::Cancelled,
    ];
    assert_eq!(rt; told, [true; 9]);
}

// Has slot 0 serve another generation; whether what it retires is still read.
fn is_retired_read<G: AskedGroup, W: Wait + Abort>(rt: &W, alloc: Global, group: &G) -> bool {
    update(rt, alloc, group, 2);
    let published = turn(rt, alloc, group, 0);
    let read = group_asks::destroy(rt, alloc, group, 0);
    published == Turn::Published(2) && read == Err(Refusal::StillRead(1))
}

/// A selection is in a lane while another generation is published: what it is in is retired and read until it has ended.
pub fn retired_while_selected<G: AskedGroup, W: Wait + Abort>(rt: &W, alloc: Global, group: &G) {
    update(rt, alloc, group, 1);
    let published = turn(rt, alloc, group, 0);
    let first = group_asks::destroy(rt, alloc, group, 0);
    let was_read = AtomicBool::new(false);
    let accept = |_backend: &Backend, _ready: bool| -> bool {
        was_read.store(is_retired_read(rt, alloc, group), SeqCst);
        true
    };
    let found = group.select_with(rt, alloc, 0, &accept);
    let found = found.expect(rt, "refused").map(|backend| backend.weight);
    let told = [
        published == Turn::Published(1),
        first == Ok(()),
        was_read.load(SeqCst),
        found == Some(1),
        group_asks::destroy(rt, alloc, group, 0) == Ok(()),
    ];
    assert_eq!(rt; told, [true; 5]);
}

// Whether two backends are ready in the newest membership, asked by a thread that holds the registry.
fn ready_as_the_holder<G: AskedGroup, R: KeyRule + Drop, C: HealthCheck + Drop, W: Wait>(
    rt: &W,
    alloc: Global,
    group: &G,
    registry: &HealthRegistry<R, C>,
    first: &Backend,
    second: &Backend,
) -> [bool; 2] {
    let held = take_registry(registry, rt);
    let ready = [
        group_asks::ready(rt, alloc, group, first),
        group_asks::ready(rt, alloc, group, second),
    ];
    put_registry(registry, held);
    ready
}

/// Readiness in the newest membership takes no lock while no slot serves that yet: of its member, also once its flag was set or its cell
/// flipped, and of a backend that it doesn't list. So it goes on while this very thread holds the registry.
pub fn ready_while_behind<G: AskedGroup, R: KeyRule + Drop, C: HealthCheck + Drop, W: Wait + Abort>(
    rt: &W,
    alloc: Global,
    group: &G,
    registry: &HealthRegistry<R, C>,
) {
    update(rt, alloc, group, 1);
    let members = group_asks::members(rt, alloc, group).expect(rt, "refused");
    let member = members.first().expect(rt, "none is listed");
    let other = Backend::new(alloc, "9.9.9.9:80").expect(rt, "refused");
    let listed = ready_as_the_holder(rt, alloc, group, registry, member, &other);
    group_asks::set_enable(rt, alloc, group, member, false);
    let disabled = ready_as_the_holder(rt, alloc, group, registry, member, &other);
    group_asks::set_enable(rt, alloc, group, member, true);
    let enabled = ready_as_the_holder(rt, alloc, group, registry, member, &other);
    let targets = registry.targets(rt, alloc).expect(rt, "refused");
    let cell = targets.get(0).map(|target| target.cell).unwrap_or(0);
    let down = registry.observe(rt, cell, false, 1);
    let flipped = ready_as_the_holder(rt, alloc, group, registry, member, &other);
    let up = registry.observe(rt, cell, true, 1);
    assert_eq!(rt; [down, up], [Ok(true), Ok(true)]);
    assert_eq!(rt;
        [listed, disabled, enabled, flipped],
        [[true, false], [false, false], [true, false], [false, false]]
    );
}

// How many selections a thread makes at least while another one holds the registry for a second. A machine that is slow and busy makes
// some ten thousand.
const SELECTIONS: u64 = 1000;

// What a word tells of a thread that holds the registry: it does, and it is about to let it go.
const HELD: u64 = 1;

const LET_GO: u64 = 2;

// Whether slot 0 of a group selects this backend, which is ready.
fn is_given<H: AskedHandle, W: Wait>(rt: &W, alloc: Global, group: &H, wanted: &Backend) -> bool {
    match handle_asks::select(rt, alloc, group, 0, b"k") {
        Ok(Some(found)) => found == *wanted && handle_asks::ready(rt, alloc, group, wanted),
        _ => false,
    }
}

// Selects until the registry is let go; how often while it was held, or 0 where one of the answers was another one.
fn goes_on<H: AskedHandle, W: Wait>(
    rt: &W,
    alloc: Global,
    group: &H,
    wanted: &Backend,
    word: &AtomicU64,
) -> u64 {
    let mut count: u64 = 0;
    for _ in 0..u64::MAX {
        let now = word.load(SeqCst);
        if now == LET_GO {
            break;
        }
        if !is_given(rt, alloc, group, wanted) {
            return 0;
        }
        if now == HELD {
            count = count.saturating_add(1);
        }
    }
    count
}

// Holds the registry for a second.
fn holds<R: KeyRule + Drop, C: HealthCheck + Drop, W: Wait + Clock>(
    rt: &W,
    registry: &HealthRegistry<R, C>,
    word: &AtomicU64,
) {
    let held = take_registry(registry, rt);
    word.store(HELD, SeqCst);
    thread::sleep(rt, Duration::from_secs(1));
    word.store(LET_GO, SeqCst);
    put_registry(registry, held);
}

// How often this thread selects by a group's handle while another one holds the registry for a second, or 0 where one of the answers was
// another one.
fn beside_a_holder<H: AskedHandle + Sync, W: Threads + Wait + Clock + Sync>(
    rt: &W,
    alloc: Global,
    group: &H,
    registry: &Registry,
    wanted: &Backend,
) -> u64 {
    let word = AtomicU64::new(0);
    let ((), count) = join(
        rt,
        || holds(rt, registry, &word),
        || goes_on(rt, alloc, group, wanted, &word),
    );
    count
}

// Whether this very thread selects by a group's handle while it holds the registry.
fn selects_as_the_holder<H: AskedHandle, R: KeyRule + Drop, C: HealthCheck + Drop, W: Wait>(
    rt: &W,
    alloc: Global,
    group: &H,
    registry: &HealthRegistry<R, C>,
    wanted: &Backend,
) -> bool {
    let held = take_registry(registry, rt);
    let selects = is_given(rt, alloc, group, wanted);
    put_registry(registry, held);
    selects
}

// Flips the cell of a backend that another view has for so long, and sets its flag in a group that doesn't list it. Whether it flipped.
fn changes_another<G: AskedGroup, R: KeyRule + Drop, C: HealthCheck + Drop, W: Wait + Abort>(
    rt: &W,
    alloc: Global,
    group: &G,
    registry: &HealthRegistry<R, C>,
) -> bool {
    let other = Backend::new(alloc, "9.9.9.9:80").expect(rt, "refused");
    group_asks::set_enable(rt, alloc, group, &other, false);
    let mut members = BTreeSet::new(alloc);
    members.insert(other).expect(rt, "refused");
    let view = registry.register_view(rt, alloc).expect(rt, "refused");
    let shown = registry.update_view(rt, alloc, view, members);
    let targets = registry.targets(rt, alloc).expect(rt, "refused");
    let cell = targets.get(1).map(|target| target.cell).unwrap_or(0);
    let flipped = registry.observe(rt, cell, false, 1);
    registry.remove_view(rt, view);
    [shown == Ok(()), flipped == Ok(true)] == [true; 2]
}

// Updates a group to one backend by a port, so that no call of the group's own follows the schedule; the generation.
fn schedule<G: AskedGroup, W: Wait + Abort>(rt: &W, alloc: Global, group: &G) -> u64 {
    let discovery = one_backend(alloc, 1).expect(rt, "refused");
    group_asks::schedule(rt, alloc, group, &discovery, &mut Still {}).expect(rt, "refused")
}

/// A selection takes no lock, nor does a reading of what is ready, once a schedule has ended, also after flips of the backend's cell and a
/// flag: they go on while this very thread holds the registry, and all the second that another thread does. A flip is seen by the next.
pub fn selects_while_the_registry_is_held<
    H: AskedHandle + Sync,
    G: AskedGroup,
    W: Abort + Threads + Wait + Clock + Sync,
>(rt: &W, alloc: Global, handle: &H, group: &G, registry: &Registry) {
    let newest = schedule(rt, alloc, group);
    let published = turn(rt, alloc, group, 0);
    let first = select_one(rt, alloc, group, 0).expect(rt, "refused");
    let first = first.expect(rt, "none is ready");
    let asked = group_asks::ready(rt, alloc, group, &first);
    let other = changes_another(rt, alloc, group, registry);
    let targets = registry.targets(rt, alloc).expect(rt, "refused");
    let cell = targets.get(0).map(|target| target.cell).unwrap_or(0);
    let down = registry.observe(rt, cell, false, 1);
    let up = registry.observe(rt, cell, true, 1);
    group_asks::set_enable(rt, alloc, group, &first, true);
    let again = selects_as_the_holder(rt, alloc, handle, registry, &first);
    let count = beside_a_holder(rt, alloc, handle, registry, &first);
    let flipped = registry.observe(rt, cell, false, 1);
    let third = select_one(rt, alloc, group, 0).expect(rt, "refused");
    let told = [
        (newest, published) == (1, Turn::Published(1)),
        [asked, again, group_asks::ready(rt, alloc, group, &first)] == [true, true, false],
        count >= SELECTIONS,
        other,
        [down == Ok(true), up == Ok(true), flipped == Ok(true)] == [true; 3],
        third.is_none(),
        group_asks::destroy(rt, alloc, group, 0) == Ok(()),
    ];
    assert_eq!(rt; told, [true; 7]);
}

//! Groups that threads share: a table of cases, each of which is played on two new groups of two slots on one gate, and groups of all forms
//! of selection at once.

mod builds;
mod forms;
mod handles;
mod moments;
mod passes;
mod runs;
mod staying;
mod tickets;
mod turns;
mod waking;

use crate::asserted::assert_same;
use crate::groups::moments::At;
use lb_crowd::calls::{GroupByPasses, GroupWithReaders, HandleByPasses};
use lb_crowd::counted::Counts;
use lb_crowd::crowd::{Crowd, Registry, Site};
use log::Log;
use pingora_load_balancing::background::RuntimeClock;
use pingora_load_balancing::discovery::ServiceDiscovery;
use pingora_load_balancing::health_check::{HealthCheck, KeyRule};
use pingora_load_balancing::selection::BackendSelection;
use pingora_load_balancing::{HealthRegistry, LoadBalancerGroup, SelectorRebuildGate, SharedGroup};
use std::alloc::Global;
use std::process::Abort;
use std::sync::{Arc, Wait};
use std::thread::Threads;
use std::time::Clock;

// How often the polls of these tests look, each ten milliseconds apart.
const TURNS: u64 = 1000;

// More cells than all cases together start: each update to another membership starts one.
const CELLS: u64 = 1000;

// The cases, each as the function of its name says it: of four threads that select from a pair of groups, or of calls.
#[derive(Clone, Copy, Debug)]
enum Row {
    Crowd(OfCrowd),
    Calls(ByCalls),
}

#[derive(Clone, Copy, Debug)]
enum OfCrowd {
    ServedInACrowd,
    AtTheLastMoment,
}

// Calls of the first group's handle, of a pair of groups with their handles, or of groups alone.
#[derive(Clone, Copy, Debug)]
enum ByCalls {
    OfHandle(OfHandle),
    OfPair(OfPair),
    OfGroups(OfGroups),
}

#[derive(Clone, Copy, Debug)]
enum OfHandle {
    WithoutWorkers,
    WithWorkers,
    StartsButOne,
    RefusedOnce,
    ReaderStays,
}

#[derive(Clone, Copy, Debug)]
enum OfPair {
    SelectsBesideABuild,
    CancelsABuild,
    LastReaderWakes,
    RebuildsGoOn,
    SelectsWhileTheRegistryIsHeld,
}

#[derive(Clone, Copy, Debug)]
enum OfGroups {
    TurnsOnOneGate,
    WorkerOfOneLetGo,
    ClockGoesBack,
    CancelledWhileRead,
    ReadyWhileBehind,
    RetiredWhileSelected,
    TicketsOfEach,
}

const ROWS: &[Row] = &[
    Row::Calls(ByCalls::OfHandle(OfHandle::WithoutWorkers)),
    Row::Calls(ByCalls::OfHandle(OfHandle::WithWorkers)),
    Row::Calls(ByCalls::OfHandle(OfHandle::StartsButOne)),
    Row::Calls(ByCalls::OfHandle(OfHandle::RefusedOnce)),
    Row::Calls(ByCalls::OfHandle(OfHandle::ReaderStays)),
    Row::Crowd(OfCrowd::ServedInACrowd),
    Row::Crowd(OfCrowd::AtTheLastMoment),
    Row::Calls(ByCalls::OfPair(OfPair::SelectsBesideABuild)),
    Row::Calls(ByCalls::OfPair(OfPair::CancelsABuild)),
    Row::Calls(ByCalls::OfPair(OfPair::LastReaderWakes)),
    Row::Calls(ByCalls::OfPair(OfPair::RebuildsGoOn)),
    Row::Calls(ByCalls::OfPair(OfPair::SelectsWhileTheRegistryIsHeld)),
    Row::Calls(ByCalls::OfGroups(OfGroups::TurnsOnOneGate)),
    Row::Calls(ByCalls::OfGroups(OfGroups::WorkerOfOneLetGo)),
    Row::Calls(ByCalls::OfGroups(OfGroups::ClockGoesBack)),
    Row::Calls(ByCalls::OfGroups(OfGroups::CancelledWhileRead)),
    Row::Calls(ByCalls::OfGroups(OfGroups::ReadyWhileBehind)),
    Row::Calls(ByCalls::OfGroups(OfGroups::RetiredWhileSelected)),
    Row::Calls(ByCalls::OfGroups(OfGroups::TicketsOfEach)),
];

// Two groups on one gate with their handles, and what they share.
#[derive(Drop)]
struct Pair<'p, H, G, W> {
    first: &'p H,
    second: &'p H,
    group: &'p Arc<G>,
    other: &'p Arc<G>,
    counts: &'p Counts<W>,
    gate: &'p SelectorRebuildGate,
    registry: &'p Registry,
}

// Plays a case of a handle, of whose group no worker was started before. `starts` starts those of a group by its place.
fn play_handle<
    H: HandleByPasses,
    G: GroupWithReaders,
    W: Abort + Wait + Clock + Copy + Drop,
    F: Fn(usize) -> usize,
>(rt: &W, alloc: Global, handle: &H, group: &G, starts: &F, case: OfHandle)
    requires { F.IsAlwaysCallable starts.now }
{
    match case {
        OfHandle::WithoutWorkers => handles::without_workers(rt, alloc, handle, group),
        OfHandle::WithWorkers => passes::with_workers(rt, alloc, handle, starts),
        OfHandle::StartsButOne => handles::starts_but_one(rt, alloc, handle, group, starts),
        OfHandle::RefusedOnce => {
            turns::refused_once(rt, alloc, group);
            handles::counts(rt, alloc, handle, 0, [0, 1]);
        }
        OfHandle::ReaderStays => {
            staying::reader_stays(rt, alloc, group);
            handles::counts(rt, alloc, handle, 1, [2, 0]);
        }
    }
}

// Plays a case of a pair, of which no worker was started before.
fn play_pair<
    H: HandleByPasses + Sync,
    G: GroupWithReaders,
    W: Abort + Threads + Wait + Clock + Copy + Send + Sync + 'static,
    F: Fn(usize) -> usize,
>(rt: &W, alloc: Global, pair: &Pair<'_, H, G, W>, starts: &F, case: OfPair)
    requires { F.IsAlwaysCallable starts.now }
{
    let (handle, group) = (pair.first, &**pair.group);
    match case {
        OfPair::SelectsBesideABuild => builds::selects_beside_a_build(rt, alloc, pair, starts),
        OfPair::CancelsABuild => builds::cancels_a_build(rt, alloc, pair, starts),
        OfPair::LastReaderWakes => {
            waking::last_reader_wakes(rt, alloc, group, pair.gate, starts)
        }
        OfPair::RebuildsGoOn => waking::rebuilds_go_on(rt, alloc, group, starts),
        OfPair::SelectsWhileTheRegistryIsHeld => {
            staying::selects_while_the_registry_is_held(rt, alloc, handle, group, pair.registry)
        }
    }
}

// Plays a case of two groups that have no workers.
fn play_groups<G: GroupWithReaders, W: Abort + Log + Wait>(
    rt: &W,
    alloc: Global,
    first: &G,
    second: &G,
    registry: &Registry,
    case: OfGroups,
) {
    match case {
        OfGroups::TurnsOnOneGate => turns::turns_on_one_gate(rt, alloc, first, second),
        OfGroups::WorkerOfOneLetGo => turns::worker_of_one_let_go(rt, alloc, first),
        OfGroups::ClockGoesBack => moments::clock_goes_back(rt, alloc, first),
        OfGroups::CancelledWhileRead => {
            staying::cancelled_while_read(rt, alloc, first, registry)
        }
        OfGroups::ReadyWhileBehind => staying::ready_while_behind(rt, alloc, first, registry),
        OfGroups::RetiredWhileSelected => staying::retired_while_selected(rt, alloc, first),
        OfGroups::TicketsOfEach => tickets::tickets_of_each(rt, alloc, first),
    }
}

// Plays a case by calls. No worker of the groups was started before.
fn play_calls<
    H: HandleByPasses + Sync,
    G: GroupWithReaders,
    W: Abort + Log + Threads + Wait + Clock + Copy + Send + Sync + Drop + 'static,
    F: Fn(usize) -> usize,
>(rt: &W, alloc: Global, pair: &Pair<'_, H, G, W>, starts: &F, case: ByCalls)
    requires { F.IsAlwaysCallable starts.now }
{
    let (group, other) = (&**pair.group, &**pair.other);
    match case {
        ByCalls::OfHandle(case) => play_handle(rt, alloc, pair.first, group, starts, case),
        ByCalls::OfPair(case) => play_pair(rt, alloc, pair, starts, case),
        ByCalls::OfGroups(case) => play_groups(rt, alloc, group, other, pair.registry, case),
    }
}

// Plays a case of a crowd of threads. No worker of the groups was started before.
fn play_crowd<
    H,
    G: GroupByPasses + Drop + Send + Sync + 'static,
    W: Abort + Threads + Wait + Clock + Copy + Send + 'static,
    F: Fn(usize) -> usize,
>(rt: &W, alloc: Global, pair: &Pair<'_, H, G, W>, starts: &F, case: OfCrowd)
    requires { F.IsAlwaysCallable starts.now }
{
    match case {
        OfCrowd::ServedInACrowd => builds::served_in_a_crowd(rt, alloc, pair, starts),
        OfCrowd::AtTheLastMoment => moments::at_the_last_moment(rt, alloc, pair, starts),
    }
}

// Plays a case of groups of these types.
fn play_groups_of<
    H: HandleByPasses + Sync,
    T: BackendSelection + Send + Sync + 'static,
    R: KeyRule + Drop + Send + Sync + 'static,
    C: HealthCheck + Drop + Send + Sync + 'static,
    W: Abort + Log + Threads + Wait + Clock + Copy + Send + Sync + Drop + 'static,
    F: Fn(usize) -> usize,
>(rt: &W, alloc: Global, pair: &Pair<'_, H, SharedGroup<T, R, C>, W>, starts: &F, row: Row)
where
    T::Config: Send + Sync + 'static,
    T::Walk: Send + Sync + 'static,
    requires { F.IsAlwaysCallable starts.now }
{
    match row {
        Row::Crowd(case) => play_crowd(rt, alloc, pair, starts, case),
        Row::Calls(case) => play_calls(rt, alloc, pair, starts, case),
    }
}

// Plays a case of two groups at a site, by their handles.
fn play_on<
    S: BackendSelection + Send + Sync + 'static,
    D: ServiceDiscovery + Drop + Send + Sync + 'static,
    R: KeyRule + Drop + Send + Sync + 'static,
    C: HealthCheck + Drop + Send + Sync + 'static,
    W: Abort + Log + Threads + Wait + Clock + Copy + Send + Sync + Drop + 'static,
    F: Fn(usize) -> usize,
>(
    rt: &W,
    alloc: Global,
    handles: [&LoadBalancerGroup<S, D, R, C>; 2],
    site: &Site<W>,
    starts: &F,
    row: Row,
)
where
    S::Config: Send + Sync + 'static,
    S::Walk: Send + Sync + 'static,
    requires { F.IsAlwaysCallable starts.now }
{
    let [first, second] = handles;
    let pair = Pair {
        first,
        second,
        group: first.shared(),
        other: second.shared(),
        counts: &*site.counts,
        gate: &*site.gate,
        registry: &*site.registry,
    };
    play_groups_of(rt, alloc, &pair, starts, row);
}

// How many cells are kept and healthy, of those that there can be.
fn kept<W: Wait>(rt: &W, registry: &Registry) -> u64 {
    let mut kept: u64 = 0;
    for cell in 0..CELLS {
        if registry.cell_ready(rt, cell) {
            kept = kept.saturating_add(1);
        }
    }
    kept
}

// Starts the workers of a group, by its place, with the clock that the row wants; how many couldn't be started.
fn started<W: Log + Threads + Wait + Clock + Copy + Send + Sync + Drop + 'static>(
    rt: &W,
    alloc: Global,
    crowd: &Crowd<W>,
    place: usize,
    row: Row,
) -> usize {
    let group = if place == 0 {
        &crowd.first
    } else {
        &crowd.second
    };
    match row {
        Row::Crowd(OfCrowd::AtTheLastMoment) => group.start_workers(rt, alloc, At::last()),
        _ => group.start_workers(rt, alloc, RuntimeClock::new(*rt)),
    }
}

// Plays a case of a crowd without workers.
fn play<W: Abort + Log + Threads + Wait + Clock + Copy + Send + Sync + Drop + 'static>(
    rt: &W,
    alloc: Global,
    crowd: &Crowd<W>,
    row: Row,
) {
    let starts = |place: usize| started(rt, alloc, crowd, place, row);
    let handles = [&crowd.first, &crowd.second];
    play_on(rt, alloc, handles, &crowd.site, &starts, row);
}

// Plays a case, drops both handles then, and looks at what the groups leave: the registry keeps no cell for them.
fn played<W: Abort + Log + Threads + Wait + Clock + Copy + Send + Sync + Drop + 'static>(
    rt: &W,
    alloc: Global,
    registry: &Arc<Registry>,
    row: Row,
) {
    let crowd = Crowd::new(*rt, alloc, registry).expect(rt, "refused");
    play(rt, alloc, &crowd, row);
    let left = crowd.leave(rt, alloc, TURNS).expect(rt, "refused");
    let told = (left, kept(rt, &**registry));
    assert_same(rt, &told, &([true; 6], 0), &row);
}

#[test]
fn rows_of_groups(rt: HostRuntime) {
    let alloc = rt.alloc();
    let registry = HealthRegistry::new(alloc).expect(&rt, "refused");
    let registry = Arc::new(alloc, registry).expect(&rt, "refused");
    for row in ROWS {
        played(&rt, alloc, &registry, *row);
    }
}

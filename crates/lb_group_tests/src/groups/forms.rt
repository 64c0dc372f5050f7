//! All forms of selection at once: five groups of a slot each, on one gate and over one registry, whose selectors are of five kinds.
//! Threads select from all of them while others update them, set flags and loads, and flip the health of their backends; one group is
//! cancelled while the others go on, and all are dropped then.
use super::TURNS;
use lb_crowd::calls::AskedHandle;
use lb_crowd::counted::{Counted, Counting};
use lb_crowd::crowd::{NoCheck, Registry, Site, ends, is_free, lives_none};
use lb_crowd::handle_asks;
use log::Log;
use pingora_load_balancing::background::RuntimeClock;
use pingora_load_balancing::discovery::{Discovered, DiscoverySource, ServiceDiscovery, Settings};
use pingora_load_balancing::health_check::{HealthCheck, KeyRule, NoRule, Rule};
use pingora_load_balancing::selection::{BackendSelection, Chosen, Kind};
use pingora_load_balancing::{
    Backend, Backends, Configured, Ext, HealthRegistry, InetAddr, LoadBalancerGroup, Refusal,
    SharedGroup, SocketAddr,
};
use std::alloc::Global;
use std::collections::BTreeSet;
use std::process::Abort;
use std::sync::atomic::Ordering::SeqCst;
use std::sync::atomic::{AtomicBool, AtomicU64};
use std::sync::{Arc, Wait};
use std::thread;
use std::thread::Threads;
use std::time::{Clock, Duration};

// A group for each.
const FORMS: &[Kind] = &[
    Kind::Fnv,
    Kind::RoundRobin,
    Kind::Ketama,
    Kind::Least,
    Kind::Random,
];

// The most selectors that live: one for each group's slot, and one more.
const MOST: u64 = 6;

// How many backends a generation has: their numbers are from four times the generation on, and their weights 1 to 4.
const MEMBERS: u32 = 4;

// How many updates each group has, and after how many of them one is cancelled.
const UPDATES: u64 = 30;

const CANCELLED_AFTER: u64 = 15;

// The place of the group that is cancelled.
const CANCELLED: usize = 2;

// How many threads there are: one updates, one sets flags and loads, one flips, and three select.
const THREADS: usize = 6;

// A backend of a generation, by its place below `MEMBERS`.
fn member_of(alloc: Global, generation: u64, place: u32) -> Backend {
    let number = ((generation % (1 << 32)) as u32)
        .wrapping_mul(MEMBERS)
        .wrapping_add(place);
    let [_, high, middle, low] = number.to_be_bytes();
    Backend {
        addr: SocketAddr::Inet(InetAddr::V4([10, high, middle, low], 80)),
        weight: place.wrapping_add(1) as usize,
        ext: Ext::new(alloc),
    }
}

// Whether a backend is a member of one of these generations; the first is 1.
fn is_member(alloc: Global, backend: &Backend, least: u64, most: u64) -> bool {
    match &backend.addr {
        SocketAddr::Inet(InetAddr::V4([_, high, middle, low], _)) => {
            let number = u32::from_be_bytes([0, *high, *middle, *low]);
            let generation = u64::from(number / MEMBERS);
            let is_given = 0 < generation && least <= generation && generation <= most;
            is_given && *backend == member_of(alloc, generation, number % MEMBERS)
        }
        _ => false,
    }
}

// Each call finds the members of the next generation, from 1.
#[derive(Drop)]
struct Generations {
    found: AtomicU64,
}

impl ServiceDiscovery for Generations {
    fn discover(&self, alloc: Global) -> Result<Discovered, Refusal> {
        let generation = self.found.fetch_add(1, SeqCst).wrapping_add(1);
        let mut set = BTreeSet::new(alloc);
        for place in 0..MEMBERS {
            set.insert(member_of(alloc, generation, place))?;
        }
        Ok((set, Settings::new(alloc)))
    }
}

// A group of one slot, whose selectors are counted.
type Group<W, S> = LoadBalancerGroup<Counted<W, S>, Generations, Rule<NoRule>, NoCheck>;

// A group at a site, without workers.
fn group_at<W: Abort + Wait + Clock + Drop, S: BackendSelection>(
    rt: &W,
    alloc: Global,
    site: &Site<W>,
    config: S::Config,
) -> Group<W, S> {
    let counts = Arc::try_clone(&site.counts).expect(rt, "refused");
    let config = Counting {
        config,
        counts: Some(counts),
    };
    let mut configs = Vec::new(alloc);
    configs.push(Some(config)).expect(rt, "refused");
    let found = DiscoverySource::Boxed(Generations {
        found: AtomicU64::new(0),
    });
    let registry = Arc::try_clone(&site.registry).expect(rt, "refused");
    let backends = Backends::new_with_health_registry(rt, alloc, found, registry);
    let backends = backends.expect(rt, "refused");
    let group = LoadBalancerGroup::from_backends_with_configs(rt, alloc, backends, configs);
    let mut group: Group<W, S> = group.expect(rt, "refused");
    let gate = Arc::try_clone(&site.gate).expect(rt, "refused");
    group
        .with_rebuild_gate(rt, alloc, gate)
        .expect(rt, "refused");
    group
}

// What the threads that select saw of a group: the newest generation that it served, and how many backends were selected.
#[derive(Drop)]
struct Seen {
    served: AtomicU64,
    selected: AtomicU64,
}

// What the threads share: whether the updates are over, what was seen of each group, and how many cells flipped.
#[derive(Drop)]
struct Tally {
    is_over: AtomicBool,
    seen: Vec<Seen>,
    flipped: AtomicU64,
}

impl Tally {
    // Whether some cell flipped, and some backend of each group was selected.
    fn is_used(&self) -> bool {
        for seen in &self.seen {
            if seen.selected.load(SeqCst) == 0 {
                return false;
            }
        }
        self.flipped.load(SeqCst) > 0
    }
}

// Selects from a group between two readings of what it serves; whether these aren't below an earlier one of any thread, and what was found
// is a member of a membership that was served since.
fn is_right<H: AskedHandle, W: Wait>(
    rt: &W,
    alloc: Global,
    group: &H,
    key: u64,
    seen: &Seen,
) -> bool {
    let least = seen.served.load(SeqCst);
    let before = handle_asks::served(rt, alloc, group, 0).unwrap_or(0);
    let found = handle_asks::select(rt, alloc, group, 0, &key.to_le_bytes());
    let after = handle_asks::served(rt, alloc, group, 0).unwrap_or(0);
    seen.served.fetch_max(after, SeqCst);
    let is_later = least <= before && before <= after;
    match found {
        Ok(Some(backend)) => {
            seen.selected.fetch_add(1, SeqCst);
            let newest = handle_asks::newest(rt, alloc, group).unwrap_or(0);
            is_later && is_member(alloc, &backend, before, newest)
        }
        Ok(None) => is_later,
        Err(_) => false,
    }
}

// Selects once from each group; whether all was right.
fn selects<H: AskedHandle, W: Wait>(
    rt: &W,
    alloc: Global,
    groups: &[H],
    turn: u64,
    all_seen: &[Seen],
) -> bool {
    for (group, seen) in groups.iter().zip(all_seen) {
        if !is_right(rt, alloc, group, turn, seen) {
            return false;
        }
    }
    true
}

// Sets a flag and a load of a backend of each group's newest membership; whether none was refused.
fn marks<H: AskedHandle, W: Wait>(rt: &W, alloc: Global, groups: &[H], turn: u64) -> bool {
    for group in groups {
        let newest = handle_asks::newest(rt, alloc, group).unwrap_or(0);
        let backend = member_of(alloc, newest, (turn % 4) as u32);
        handle_asks::set_enable(rt, alloc, group, &backend, turn % 3 != 0);
        if handle_asks::set_load(rt, alloc, group, &backend, turn).is_err() {
            return false;
        }
    }
    true
}

// Finds a third of a registry's targets down, and the others up; whether they could be told. One that is gone meanwhile has no verdict.
fn flips<R: KeyRule + Drop, C: HealthCheck + Drop, W: Wait>(
    rt: &W,
    alloc: Global,
    registry: &HealthRegistry<R, C>,
    turn: u64,
    flipped: &AtomicU64,
) -> bool {
    let Ok(targets) = registry.targets(rt, alloc) else {
        return false;
    };
    for target in &targets {
        let is_up = target.cell % 3 != turn % 3;
        if registry.observe(rt, target.cell, is_up, 1) == Ok(true) {
            flipped.fetch_add(1, SeqCst);
        }
    }
    true
}

// Whether a group comes to serve its last update within a thousand turns of ten milliseconds.
fn serves_last<H: AskedHandle, W: Wait + Clock>(rt: &W, alloc: Global, group: &H) -> bool {
    for _ in 0..TURNS {
        if handle_asks::served(rt, alloc, group, 0) == Some(UPDATES) {
            return true;
        }
        thread::sleep(rt, Duration::from_millis(10));
    }
    false
}

// Updates all groups, time after time, and cancels one in the midst; whether each update was the next generation, those of the cancelled
// group were refused, and the others came to serve the last generation.
fn updates<H: AskedHandle, W: Wait + Clock + Copy>(rt: &W, alloc: Global, groups: &[H]) -> bool {
    for time in 0..UPDATES {
        for (place, group) in groups.iter().enumerate() {
            let mut wanted = Ok(time + 1);
            if place == CANCELLED && time >= CANCELLED_AFTER {
                handle_asks::cancel(rt, alloc, group);
                wanted = Err(Refusal::GroupCancelled);
            }
            if handle_asks::update(rt, alloc, group, &mut RuntimeClock::new(*rt)) != wanted {
                return false;
            }
        }
        thread::sleep(rt, Duration::from_millis(10));
    }
    for (place, group) in groups.iter().enumerate() {
        if place != CANCELLED && !serves_last(rt, alloc, group) {
            return false;
        }
    }
    true
}

// Does the part of a thread of this number, turn by turn, until the updates are over; whether all was right.
fn goes_on<H: AskedHandle, R: KeyRule + Drop, C: HealthCheck + Drop, W: Wait + Clock>(
    rt: &W,
    alloc: Global,
    groups: &[H],
    registry: &HealthRegistry<R, C>,
    tally: &Tally,
    thread: usize,
) -> bool {
    for turn in 0..u64::MAX {
        if tally.is_over.load(SeqCst) {
            return true;
        }
        let is_right = match thread {
            1 => marks(rt, alloc, groups, turn),
            2 => flips(rt, alloc, registry, turn, &tally.flipped),
            _ => selects(rt, alloc, groups, turn, tally.seen.as_slice()),
        };
        if !is_right {
            return false;
        }
        thread::sleep(rt, Duration::from_millis(1));
    }
    false
}

// What a thread does; whether all was right. The first one updates, and ends the others.
fn part<H: AskedHandle, R: KeyRule + Drop, C: HealthCheck + Drop, W: Wait + Clock + Copy>(
    rt: &W,
    alloc: Global,
    groups: &[H],
    registry: &HealthRegistry<R, C>,
    tally: &Tally,
    thread: usize,
) -> bool {
    if thread > 0 {
        return goes_on(rt, alloc, groups, registry, tally, thread);
    }
    let is_right = updates(rt, alloc, groups);
    tally.is_over.store(true, SeqCst);
    is_right
}

// All threads do their parts; whether all was right in each.
fn are_right<
    H: AskedHandle + Sync,
    R: KeyRule + Drop + Send + Sync,
    C: HealthCheck + Drop + Send + Sync,
    W: Threads + Wait + Clock + Copy + Sync,
>(rt: &W, alloc: Global, groups: &[H], registry: &HealthRegistry<R, C>, tally: &Tally) -> bool {
    let parts = thread::map_indices(
        rt,
        alloc,
        THREADS,
        &move |thread| { part(rt, alloc, groups, registry, tally, thread) },
    );
    match parts {
        Ok(parts) => parts.as_slice() == [true; THREADS].as_slice(),
        Err(_) => false,
    }
}

// Starts the workers, and has all threads do their parts; whether no worker is missing, and all was right.
fn used<
    S: BackendSelection + Send + Sync + 'static,
    D: ServiceDiscovery + Drop + Send + Sync + 'static,
    R: KeyRule + Drop + Send + Sync + 'static,
    C: HealthCheck + Drop + Send + Sync + 'static,
    W: Log + Threads + Wait + Clock + Copy + Send + Sync + 'static,
>(
    rt: &W,
    alloc: Global,
    groups: &[LoadBalancerGroup<S, D, R, C>],
    registry: &HealthRegistry<R, C>,
    tally: &Tally,
) -> [bool; 2]
where
    S::Config: Send + Sync + 'static,
    S::Walk: Send + Sync + 'static,
{
    let mut started = true;
    for group in groups {
        started &= group.start_workers(rt, alloc, RuntimeClock::new(*rt)) == 0;
    }
    [started, are_right(rt, alloc, groups, registry, tally)]
}

// The groups at their site, and what the threads share.
struct Forms<W: Wait + Clock + Copy + Drop> {
    site: Site<W>,
    groups: Vec<Group<W, Chosen>>,
    tally: Tally,
}

impl<W: Wait + Clock + Copy + Drop> Drop for Forms<W> {
    fn drop(self) {
        let Forms {
            site: _,
            groups: _,
            tally: _,
        } = self;
    }
}

// The groups in this registry, without workers.
fn forms_in<W: Abort + Wait + Clock + Copy + Drop>(
    rt: &W,
    alloc: Global,
    registry: &Arc<Registry>,
) -> Forms<W> {
    let site = Site::new(*rt, alloc, registry).expect(rt, "refused");
    let (mut groups, mut all_seen) = (Vec::new(alloc), Vec::new(alloc));
    for kind in FORMS {
        let group = group_at(rt, alloc, &site, *kind);
        groups.push(group).expect(rt, "refused");
        let seen = Seen {
            served: AtomicU64::new(0),
            selected: AtomicU64::new(0),
        };
        all_seen.push(seen).expect(rt, "refused");
    }
    // Each group's slot has a selector now; those that were built to make the groups are gone.
    site.counts.most.store(MOST - 1, SeqCst);
    Forms {
        site,
        groups,
        tally: Tally {
            is_over: AtomicBool::new(false),
            seen: all_seen,
            flipped: AtomicU64::new(0),
        },
    }
}

// The groups themselves, which outlive their handles.
fn shared_of<
    S: BackendSelection,
    D: ServiceDiscovery + Drop,
    R: KeyRule + Drop,
    C: HealthCheck + Drop,
    W: Abort,
>(
    rt: &W,
    alloc: Global,
    groups: &[LoadBalancerGroup<S, D, R, C>],
) -> Vec<Arc<SharedGroup<Configured<S>, R, C>>> {
    let mut shared = Vec::new(alloc);
    for group in groups {
        let one = Arc::try_clone(group.shared()).expect(rt, "refused");
        shared.push(one).expect(rt, "refused");
    }
    shared
}

// Whether the workers of groups whose handles are gone end.
fn all_end<S: BackendSelection, R: KeyRule + Drop, C: HealthCheck + Drop, W: Clock>(
    rt: &W,
    groups: &[Arc<SharedGroup<S, R, C>>],
) -> bool {
    for group in groups {
        if !group.is_let_go() || !ends(rt, &**group, TURNS) {
            return false;
        }
    }
    true
}

// Drops the handles of groups; whether their workers end then.
fn dropped<
    S: BackendSelection,
    D: ServiceDiscovery + Drop,
    R: KeyRule + Drop,
    C: HealthCheck + Drop,
    W: Abort + Clock,
>(rt: &W, alloc: Global, groups: Vec<LoadBalancerGroup<S, D, R, C>>) -> bool {
    let shared = shared_of(rt, alloc, groups.as_slice());
    drop(groups);
    all_end(rt, shared.as_slice())
}

// What groups leave at their site whose workers have ended, or haven't.
fn left<W: Wait + Clock + Copy + Drop>(
    rt: &W,
    alloc: Global,
    site: &Site<W>,
    have_ended: bool,
) -> [bool; 5] {
    [
        have_ended,
        site.counts.most.load(SeqCst) <= MOST,
        is_free(rt, &site.gate),
        lives_none(&site.counts),
        site.registry.target_count(rt, alloc) == Ok(0),
    ]
}

impl<W: Abort + Wait + Clock + Copy + Drop> Forms<W> {
    // Drops the handles; whether the workers end, no more selectors than the slots and one ever lived, the permit is back, no selector
    // lives on, and the registry has no target left.
    fn leave(self, rt: &W, alloc: Global) -> [bool; 5] {
        let Forms {
            site,
            groups,
            tally: _,
        } = self;
        let have_ended = dropped(rt, alloc, groups);
        left(rt, alloc, &site, have_ended)
    }
}

// Has threads use the groups, and drops them; whether all was right, and something happened to each group.
fn played<W: Abort + Log + Threads + Wait + Clock + Copy + Send + Sync + Drop + 'static>(
    rt: &W,
    alloc: Global,
    registry: &Arc<Registry>,
) -> ([bool; 3], [bool; 5]) {
    let forms = forms_in(rt, alloc, registry);
    let (groups, registry) = (forms.groups.as_slice(), &*forms.site.registry);
    let [started, is_right] = used(rt, alloc, groups, registry, &forms.tally);
    let told = [started, is_right, forms.tally.is_used()];
    (told, forms.leave(rt, alloc))
}

// Each selected backend is a member of a membership that was given, no served generation is below an earlier one, and the groups leave
// nothing.
#[test]
fn all_forms_at_once(rt: HostRuntime) {
    let registry = HealthRegistry::new(rt.alloc()).expect(&rt, "refused");
    let registry = Arc::new(rt.alloc(), registry).expect(&rt, "refused");
    let told = played(&rt, rt.alloc(), &registry);
    assert_eq!(rt; told, ([true; 3], [true; 5]));
}

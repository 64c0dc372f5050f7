//! A thread of the soak: it selects from a group by its handle, by a reader and by passes, and looks at each answer.
ghost use Rattle.std.specs.Prelude.{◌≡◌};
ghost use Rattle.std.specs.Arc.{arc_value};

use crate::soak_groups::MEMBERS;
use lb_balancer_group::group::LoadBalancerGroup;
use lb_health_core::health_check::HealthCheck;
use lb_health_core::keys::KeyRule;
use lb_health_view::discovery::ServiceDiscovery;
use lb_rebuild::board::GroupPass;
use lb_select_base::backend::{Backend, InetAddr, SocketAddr};
use lb_select_base::refusal::Refusal;
use lb_select_base::walk::BackendSelection;
use std::alloc::Global;
use std::sync::atomic::Ordering::SeqCst;
use std::sync::atomic::{AtomicBool, AtomicU64};
use std::sync::{Arc, Wait};
use std::thread;
use std::thread::{JoinHandle, Threads};
use std::time::{Clock, Duration};

// As many candidates as a selection looks at.
const LIMIT: usize = 4;

// Each so many turns a reader stays for some milliseconds, so that what is retired meanwhile waits for it.
const STAYS_EACH: u64 = 32;

const STAYS_MILLIS: u64 = 3;

/// What the threads of a round share: whether they are to end, and how many turns they took.
#[derive(Drop)]
pub struct Tally {
    pub over: AtomicBool,
    pub turns: AtomicU64,
}

impl Tally {
    /// Returns that no turn was taken yet.
    pub fn new() -> Tally {
        Tally {
            over: AtomicBool::new(false),
            turns: AtomicU64::new(0),
        }
    }
}

// What was read of a group: its newest generation, and what each slot serves.
#[derive(Clone, Copy)]
struct Read {
    newest: u64,
    served: [u64; 2],
}

impl Read {
    // Notes what was read of a slot. Returns whether nothing is below what was read before.
    fn note(&mut self, slot: usize, newest: u64, served: u64) -> bool {
        let before = self.served.get(slot).copied().unwrap_or(0);
        let is_later = self.newest <= newest && before <= served && served <= newest;
        self.newest = newest;
        if let Some(place) = self.served.get_mut(slot) {
            *place = served;
        }
        is_later
    }
}

// The generation that a backend is of.
fn generation_of(backend: &Backend) -> u64 {
    match &backend.addr {
        SocketAddr::Inet(InetAddr::V4([_, high, middle, low], _)) => {
            let number = u32::from_be_bytes([0, *high, *middle, *low]);
            u64::from(number / MEMBERS)
        }
        _ => 0,
    }
}

// Whether a backend was found that is of one of these generations. None is found in generation 0, and where none is ready.
fn is_within(found: &Option<Backend>, least: u64, most: u64) -> bool {
    match found {
        Some(backend) => {
            let generation = generation_of(backend);
            least <= generation && generation <= most && generation > 0
        }
        None => true,
    }
}

// Reads a group by a pass, which has to be no earlier than what was read before.
fn reads<S: BackendSelection, D: ServiceDiscovery + Drop, R: KeyRule + Drop, C: HealthCheck + Drop>(
    group: &LoadBalancerGroup<S, D, R, C>,
    slot: usize,
    pass: &mut GroupPass,
    read: &mut Read,
) -> bool
    requires { pass.old.board ≡ (arc_value group.now.shared).board }
    ensures { pass.new.board ≡ (arc_value group.now.shared).board }
{
    let served = group.selector_generation_as(slot, pass).unwrap_or(0);
    let newest = group.backend_generation_as(pass);
    read.note(slot, newest, served)
}

// Selects by a reader of a slot, which stays for some milliseconds or doesn't. Returns whether what was found is of the reader's
// generation.
fn by_reader<
    S: BackendSelection,
    D: ServiceDiscovery + Drop,
    R: KeyRule + Drop,
    C: HealthCheck + Drop,
    W: Wait + Clock,
>(
    rt: &W,
    alloc: Global,
    group: &LoadBalancerGroup<S, D, R, C>,
    slot: usize,
    pass: &mut GroupPass,
    turn: u64,
) -> Result<bool, Refusal>
    requires { pass.old.board ≡ (arc_value group.now.shared).board }
    ensures { pass.new.board ≡ (arc_value group.now.shared).board }
{
    let reader = group.enter_as(rt, slot, pass)?;
    let generation = reader.generation();
    let any = |_backend: &Backend| true;
    let found = group.select_in(rt, alloc, &reader, &turn.to_le_bytes(), LIMIT, &any);
    if turn % STAYS_EACH == 0 {
        thread::sleep(rt, Duration::from_millis(STAYS_MILLIS));
    }
    group.leave(rt, reader);
    let found = found?;
    Ok(found.is_some() == (generation > 0) && is_within(&found, generation, generation))
}

// Selects by the handle, or every other time by a reader of it with a lane of its own.
fn selected<
    S: BackendSelection,
    D: ServiceDiscovery + Drop,
    R: KeyRule + Drop,
    C: HealthCheck + Drop,
    W: Wait,
>(
    rt: &W,
    alloc: Global,
    group: &LoadBalancerGroup<S, D, R, C>,
    slot: usize,
    turn: u64,
) -> Result<Option<Backend>, Refusal> {
    let key = turn.to_le_bytes();
    if turn / 2 % 2 == 0 {
        group.select(rt, alloc, slot, &key, LIMIT)
    } else {
        group.reader().select(rt, alloc, slot, &key, LIMIT)
    }
}

// A turn at a slot: a selection by the handle, between two readings, and one by a reader. Returns whether all was right.
fn is_right<
    S: BackendSelection,
    D: ServiceDiscovery + Drop,
    R: KeyRule + Drop,
    C: HealthCheck + Drop,
    W: Wait + Clock,
>(
    rt: &W,
    alloc: Global,
    group: &LoadBalancerGroup<S, D, R, C>,
    pass: &mut GroupPass,
    other: &mut GroupPass,
    read: &mut Read,
    turn: u64,
) -> Result<bool, Refusal>
    requires pass { pass.old.board ≡ (arc_value group.now.shared).board }
    requires other { other.old.board ≡ (arc_value group.now.shared).board }
    ensures pass { pass.new.board ≡ (arc_value group.now.shared).board }
    ensures other { other.new.board ≡ (arc_value group.now.shared).board }
{
    let slot = (turn % 2) as usize;
    let before = reads(group, slot, pass, read);
    let least = read.served.get(slot).copied().unwrap_or(0);
    let found = selected(rt, alloc, group, slot, turn)?;
    group.meet(rt, pass, other);
    let after = reads(group, slot, other, read);
    let by_handle = is_within(&found, least, read.newest);
    Ok(before && after && by_handle && by_reader(rt, alloc, group, slot, other, turn)?)
}

// Uses a group, a turn each millisecond, until the threads are to end. Returns whether each turn was right.
fn uses<
    S: BackendSelection,
    D: ServiceDiscovery + Drop,
    R: KeyRule + Drop,
    C: HealthCheck + Drop,
    W: Wait + Clock,
>(rt: &W, alloc: Global, group: &LoadBalancerGroup<S, D, R, C>, tally: &Tally) -> bool {
    let (mut pass, mut other) = (group.pass(), group.pass());
    let mut read = Read {
        newest: 0,
        served: [0; 2],
    };
    for turn in 0..u64::MAX {
        if tally.over.load(SeqCst) {
            return true;
        }
        let told = is_right(rt, alloc, group, &mut pass, &mut other, &mut read, turn);
        if told != Ok(true) {
            return false;
        }
        tally.turns.fetch_add(1, SeqCst);
        thread::sleep(rt, Duration::from_millis(1));
    }
    false
}

// Starts a thread that uses a group. It returns whether all was right. None where it can't be started.
fn start_user<
    S: BackendSelection + Send + Sync + 'static,
    D: ServiceDiscovery + Drop + Send + Sync + 'static,
    R: KeyRule + Drop + Send + Sync + 'static,
    C: HealthCheck + Drop + Send + Sync + 'static,
    W: Threads + Wait + Clock + Copy + Send + 'static,
>(
    rt: &W,
    alloc: Global,
    group: &Arc<LoadBalancerGroup<S, D, R, C>>,
    tally: &Arc<Tally>,
) -> Option<JoinHandle<bool>>
where
    S::Config: Send + Sync + 'static,
    S::Walk: Send + Sync + 'static,
{
    let (handle, tally) = (Arc::try_clone(group).ok()?, Arc::try_clone(tally).ok()?);
    let own = *rt;
    let started = thread::spawn(rt, move || {
        let group: &LoadBalancerGroup<S, D, R, C> = &*handle;
        uses(&own, alloc, group, &*tally)
    });
    started.ok()
}

/// Starts a thread for each group that uses it.
pub fn start_users<
    S: BackendSelection + Send + Sync + 'static,
    D: ServiceDiscovery + Drop + Send + Sync + 'static,
    R: KeyRule + Drop + Send + Sync + 'static,
    C: HealthCheck + Drop + Send + Sync + 'static,
    W: Threads + Wait + Clock + Copy + Send + 'static,
>(
    rt: &W,
    alloc: Global,
    groups: &[Arc<LoadBalancerGroup<S, D, R, C>>; 4],
    tally: &Arc<Tally>,
) -> [Option<JoinHandle<bool>>; 4]
where
    S::Config: Send + Sync + 'static,
    S::Walk: Send + Sync + 'static,
{
    let [first, second, third, last] = groups;
    [
        start_user(rt, alloc, first, tally),
        start_user(rt, alloc, second, tally),
        start_user(rt, alloc, third, tally),
        start_user(rt, alloc, last, tally),
    ]
}

// What a thread answered; `false` where none was started.
fn joined<W: Threads>(rt: &W, user: Option<JoinHandle<bool>>) -> bool {
    match user {
        Some(user) => user.join(rt),
        None => false,
    }
}

/// Returns whether each thread was started and answered that all was right.
pub fn all_right<W: Threads>(rt: &W, users: [Option<JoinHandle<bool>>; 4]) -> bool {
    let mut are_right = true;
    for user in users {
        are_right &= joined(rt, user);
    }
    are_right
}

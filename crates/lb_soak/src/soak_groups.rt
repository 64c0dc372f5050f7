//! The groups of the soak: four of two slots each, two on each of two gates and two over each of two registries. Their slots have selectors
//! of all five kinds.
use lb_background::lending::LendsToThreads;
use lb_balancer_core::configured::Configured;
use lb_balancer_group::gate_refusal::GateRefusal;
use lb_balancer_group::group::LoadBalancerGroup;
use lb_crowd::counted::{Counted, Counting, Counts};
use lb_crowd::crowd::{ends, is_free, lives_none};
use lb_crowd::members::member;
use lb_health_core::error::CheckError;
use lb_health_core::health_check::HealthCheck;
use lb_health_core::keys::{KeyRule, Rule};
use lb_health_view::discovery::{Discovered, DiscoverySource, ServiceDiscovery};
use lb_health_view::view::Settings;
use lb_script::kinds::{Chosen, Kind};
use lb_select_base::backend::Backend;
use lb_select_base::refusal::Refusal;
use lb_select_base::walk::BackendSelection;
use lb_threads_core::backends::Backends;
use lb_threads_core::clock::RuntimeClock;
use lb_threads_core::gate::SelectorRebuildGate;
use lb_threads_core::keyed::NoRule;
use lb_threads_core::registry::HealthRegistry;
use lb_threads_group::group::SharedGroup;
use log::Log;
use std::alloc::Global;
use std::collections::BTreeSet;
use std::sync::atomic::AtomicU64;
use std::sync::atomic::Ordering::SeqCst;
use std::sync::{Arc, Wait};
use std::thread;
use std::thread::Threads;
use std::time::{Clock, Duration};

/// How many backends a generation has: their numbers are from four times the generation on, and their weights 1 to 4.
pub const MEMBERS: u32 = 4;

// The most selectors that live on a gate: one for each of its four slots, and one more.
const MOST: u64 = 5;

// Within how many turns of ten milliseconds workers are to end: a minute.
const TURNS: u64 = 6000;

/// Each call finds the backends of the next generation, from 1.
#[derive(Drop)]
pub struct Generations {
    found: AtomicU64,
}

/// Returns a backend of a generation, by its place below `MEMBERS`.
pub fn member_of(alloc: Global, generation: u64, place: u32) -> Backend {
    let number = ((generation % (1 << 32)) as u32)
        .wrapping_mul(MEMBERS)
        .wrapping_add(place);
    member(alloc, 10, number, place.wrapping_add(1) as usize)
}

impl ServiceDiscovery for Generations {
    fn discover(&self, alloc: Global) -> Result<Discovered, Refusal> {
        let generation = self.found.fetch_add(1, SeqCst).wrapping_add(1);
        let mut set = BTreeSet::new(alloc);
        for place in 0..MEMBERS {
            set.insert(member_of(alloc, generation, place))?;
        }
        Ok((set, Settings::new(alloc)))
    }
}

/// A check that finds every third target down, in the order of its calls.
#[derive(Drop)]
pub struct Flips {
    pub asked: AtomicU64,
    pub flipped: Arc<AtomicU64>,
}

impl HealthCheck for Flips {
    ghost threshold = { λ _ _. 1 };

    fn check(&self, _alloc: Global, _target: &Backend) -> Result<(), CheckError> {
        if self.asked.fetch_add(1, SeqCst) % 3 == 0 {
            return Err(CheckError::Connect);
        }
        Ok(())
    }

    fn health_status_change(&self, _target: &Backend, _healthy: bool) {
        self.flipped.fetch_add(1, SeqCst);
    }

    fn health_threshold(&self, _success: bool) -> usize {
        1
    }
}

/// The handle of a group of the soak, whose slots have selectors of type `S`.
pub type Handle<W, S> = LoadBalancerGroup<Counted<W, S>, Generations, Rule<NoRule>, Flips>;

/// A registry of the soak. The caller makes it, since a function that made one would hide its boxed rule.
pub type Registry = HealthRegistry<Rule<NoRule>, Flips>;

/// Two gates and two registries, which stay while groups come and go, and how many cells have flipped.
#[derive(Drop)]
pub struct Site {
    pub gates: [Arc<SelectorRebuildGate>; 2],
    pub registries: [Arc<Registry>; 2],
    pub flipped: Arc<AtomicU64>,
}

// The configuration of a slot whose selectors are counted.
fn slot<W: Drop, C: Drop>(
    counts: &Arc<Counts<W>>,
    config: C,
) -> Result<Option<Counting<W, C>>, Refusal> {
    Ok(Some(Counting {
        config,
        counts: Some(Arc::try_clone(counts)?),
    }))
}

// A view over this registry, whose discovery begins at generation 1.
fn view_over<W: Wait>(
    rt: &W,
    alloc: Global,
    registry: &Arc<Registry>,
) -> Result<Backends<Generations, Rule<NoRule>, Flips>, Refusal> {
    let found = DiscoverySource::Boxed(Generations {
        found: AtomicU64::new(0),
    });
    Backends::new_with_health_registry(rt, alloc, found, Arc::try_clone(registry)?)
}

// The configurations of a group's two slots.
fn slots<W: Drop, C: Copy + Drop>(
    alloc: Global,
    counts: &Arc<Counts<W>>,
    configs: [C; 2],
) -> Result<Vec<Option<Counting<W, C>>>, Refusal> {
    let [first, second] = configs;
    let mut slots = Vec::new(alloc);
    slots.push(slot(counts, first)?)?;
    slots.push(slot(counts, second)?)?;
    Ok(slots)
}

// A group without workers on this gate and over these backends, with a slot for each configuration.
fn group_of<
    S: BackendSelection,
    D: ServiceDiscovery + Drop,
    R: KeyRule + Drop,
    C: HealthCheck + Drop,
    W: Wait,
>(
    rt: &W,
    alloc: Global,
    gate: &Arc<SelectorRebuildGate>,
    backends: Backends<D, R, C>,
    configs: Vec<Option<S::Config>>,
) -> Result<Arc<LoadBalancerGroup<S, D, R, C>>, Refusal> {
    let mut group: LoadBalancerGroup<S, D, R, C> = LoadBalancerGroup::from_backends_with_configs(
        rt, alloc, backends, configs,
    )?;
    match group.with_rebuild_gate(rt, alloc, Arc::try_clone(gate)?) {
        Ok(()) => Ok(Arc::new(alloc, group)?),
        Err(GateRefusal::NotMade(refusal)) => Err(refusal),
        Err(GateRefusal::WasUpdated) => Err(Refusal::NoSuch),
    }
}

// A group without workers on this gate and over this registry, whose two slots have these configurations.
fn group_on<W: Wait + Clock + Drop, S: BackendSelection>(
    rt: &W,
    alloc: Global,
    gate: &Arc<SelectorRebuildGate>,
    registry: &Arc<Registry>,
    counts: &Arc<Counts<W>>,
    configs: [S::Config; 2],
) -> Result<Arc<Handle<W, S>>, Refusal>
where
    S::Config: Copy,
{
    let configs = slots(alloc, counts, configs)?;
    let backends = view_over(rt, alloc, registry)?;
    group_of(rt, alloc, gate, backends, configs)
}

// The groups of a site, two on each gate and two over each registry, by the configurations of their slots.
fn groups_on<W: Wait + Clock + Drop, S: BackendSelection>(
    rt: &W,
    alloc: Global,
    site: &Site,
    counts: &[Arc<Counts<W>>; 2],
    configs: [[S::Config; 2]; 4],
) -> Result<[Arc<Handle<W, S>>; 4], Refusal>
where
    S::Config: Copy,
{
    let ([gate, other_gate], [registry, other]) = (&site.gates, &site.registries);
    let [one, two] = counts;
    let [first, second, third, last] = configs;
    Ok([
        group_on(rt, alloc, gate, registry, one, first)?,
        group_on(rt, alloc, gate, other, one, second)?,
        group_on(rt, alloc, other_gate, registry, two, third)?,
        group_on(rt, alloc, other_gate, other, two, last)?,
    ])
}

// The groups of these handles, which outlive them.
fn shared_of<
    S: BackendSelection,
    D: ServiceDiscovery + Drop,
    R: KeyRule + Drop,
    C: HealthCheck + Drop,
>(
    handles: &[Arc<LoadBalancerGroup<S, D, R, C>>; 4],
) -> Result<[Arc<SharedGroup<Configured<S>, R, C>>; 4], Refusal> {
    let [first, second, third, last] = handles;
    Ok([
        Arc::try_clone(first.shared())?,
        Arc::try_clone(second.shared())?,
        Arc::try_clone(third.shared())?,
        Arc::try_clone(last.shared())?,
    ])
}

// Whether the workers of groups end.
fn all_end<S: BackendSelection, R: KeyRule + Drop, C: HealthCheck + Drop, W: Wait + Clock>(
    rt: &W,
    groups: &[Arc<SharedGroup<S, R, C>>],
) -> bool {
    let mut have_ended = true;
    for group in groups {
        have_ended &= ends(rt, &**group, TURNS);
    }
    have_ended
}

// Drops the handles of groups. Returns whether their workers end.
fn dropped<
    S: BackendSelection,
    D: ServiceDiscovery + Drop,
    R: KeyRule + Drop,
    C: HealthCheck + Drop,
    W: Wait + Clock,
>(rt: &W, handles: [Arc<LoadBalancerGroup<S, D, R, C>>; 4]) -> Result<bool, Refusal> {
    let shared = shared_of(&handles);
    drop(handles);
    Ok(all_end(rt, &shared?))
}

/// The four groups, and the counts of the selectors on each gate.
#[derive(Drop)]
pub struct Groups<W: Wait + Clock + Copy + Drop> {
    counts: [Arc<Counts<W>>; 2],
    pub handles: [Arc<Handle<W, Chosen>>; 4],
}

// Counts of a gate's selectors.
fn counts_of<W: Drop>(rt: W, alloc: Global) -> Result<Arc<Counts<W>>, Refusal> {
    Ok(Arc::new(alloc, Counts::new(rt, false))?)
}

impl<W: Wait + Clock + Copy + Drop> Groups<W> {
    /// Makes the groups, without workers.
    pub fn new(rt: W, alloc: Global, site: &Site) -> Result<Groups<W>, Refusal> {
        let counts = [counts_of(rt, alloc)?, counts_of(rt, alloc)?];
        let configs = [
            [Kind::RoundRobin, Kind::Fnv],
            [Kind::Ketama, Kind::Least],
            [Kind::Least, Kind::RoundRobin],
            [Kind::Random, Kind::Random],
        ];
        let handles = groups_on(&rt, alloc, site, &counts, configs)?;
        // Each slot has a selector now; those that were built to make the groups are gone.
        let [one, two] = &counts;
        one.most.store(4, SeqCst);
        two.most.store(4, SeqCst);
        Ok(Groups { counts, handles })
    }

    /// Returns how many builds were begun.
    pub fn builds(&self) -> u64 {
        let [one, two] = &self.counts;
        one.begun
            .load(SeqCst)
            .saturating_add(two.begun.load(SeqCst))
    }

    /// Cancels one group on each gate.
    pub fn cancel_two(&self, rt: &W) {
        let [_, second, _, last] = &self.handles;
        second.cancel(rt);
        last.cancel(rt);
    }

    /// Drops the groups. Returns whether their workers end, no more selectors than the slots and one lived on a gate, none lives on, each
    /// permit is back, and the registries have nothing to check.
    pub fn leave(self, rt: &W, alloc: Global, site: &Site) -> Result<[bool; 5], Refusal> {
        let Groups { counts, handles } = self;
        let have_ended = dropped(rt, handles)?;
        Ok(left(rt, alloc, site, &counts, have_ended))
    }
}

// What groups leave whose workers have ended, or haven't.
fn left<W: Wait + Clock>(
    rt: &W,
    alloc: Global,
    site: &Site,
    counts: &[Arc<Counts<W>>; 2],
    have_ended: bool,
) -> [bool; 5] {
    let [one, two] = counts;
    let ([gate, other_gate], [registry, other]) = (&site.gates, &site.registries);
    let targets = [
        registry.target_count(rt, alloc),
        other.target_count(rt, alloc),
    ];
    [
        have_ended,
        one.most.load(SeqCst) <= MOST && two.most.load(SeqCst) <= MOST,
        lives_none(one) && lives_none(two),
        is_free(rt, gate) && is_free(rt, other_gate),
        targets == [Ok(0), Ok(0)],
    ]
}

/// Starts a group's workers. Returns whether each could be started.
pub fn starts<
    W: Log + Threads + Wait + Clock + Copy + Send + Sync + Drop + 'static,
    S: BackendSelection + Send + Sync + 'static,
>(rt: &W, alloc: Global, group: &Handle<W, S>) -> bool
where
    S::Config: Send + Sync + 'static,
    S::Walk: Send + Sync + 'static,
{
    group.start_workers(rt, alloc, RuntimeClock::new(*rt)) == 0
}

/// Updates a group, and sets a flag and a load of one of the new backends.
pub fn stir<
    S: BackendSelection,
    D: ServiceDiscovery + Drop,
    R: KeyRule + Drop,
    C: HealthCheck + Drop,
    W: Wait + Clock + Copy,
>(rt: &W, alloc: Global, group: &LoadBalancerGroup<S, D, R, C>, turn: u64) -> Result<(), Refusal> {
    let generation = group.update(rt, alloc, &mut RuntimeClock::new(*rt))?;
    let place = (turn % 4) as u32;
    let backend = member_of(alloc, generation, place);
    group.flag(rt, &backend, turn % 3 == 0);
    group.set_load(rt, alloc, &backend, turn)
}

/// Returns whether each slot of a group serves its newest generation within so many turns of ten milliseconds.
pub fn settles<W: Wait + Clock + Copy + Drop, S: BackendSelection>(
    rt: &W,
    group: &Handle<W, S>,
) -> bool {
    let newest = group.backend_generation(rt);
    for _ in 0..TURNS {
        if group.selectors_ready_for(rt, newest) {
            return true;
        }
        thread::sleep(rt, Duration::from_millis(10));
    }
    false
}

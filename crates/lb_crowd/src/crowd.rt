//! Two groups of two slots on one gate, whose selectors are counted, and threads that update them, select from them and read them.
ghost use Rattle.std.specs.Prelude.{◌≡◌};

use crate::calls::{AskedGroup, GroupByPasses, HasWorkers};
use crate::counted::{Counted, Counting, Counts};
use crate::group_asks;
use lb_balancer_core::configured::Configured;
use lb_balancer_group::gate_refusal::GateRefusal;
use lb_balancer_group::group::LoadBalancerGroup;
use lb_health_core::error::CheckError;
use lb_health_core::health_check::HealthCheck;
use lb_health_core::keys::{KeyRule, Rule};
use lb_health_view::discovery::{DiscoverySource, ServiceDiscovery, Static};
use lb_rebuild::board::GroupPass;
use lb_select_base::backend::Backend;
use lb_select_base::moments::MomentSource;
use lb_select_base::refusal::Refusal;
use lb_select_base::walk::BackendSelection;
use lb_threads_core::backends::Backends;
use lb_threads_core::gate::SelectorRebuildGate;
use lb_threads_core::keyed::NoRule;
use lb_threads_core::registry::HealthRegistry;
use lb_threads_group::group::SharedGroup;
use std::alloc::Global;
use std::collections::BTreeSet;
use std::sync::atomic::Ordering::SeqCst;
use std::sync::{Arc, Wait};
use std::thread;
use std::thread::{JoinHandle, Threads};
use std::time::{Clock, Duration};

/// A check that is never run.
#[derive(Drop)]
pub struct NoCheck {}

impl HealthCheck for NoCheck {
    ghost threshold = { λ _ _. 1 };

    fn check(&self, _alloc: Global, _target: &Backend) -> Result<(), CheckError> {
        Ok(())
    }

    fn health_threshold(&self, _success: bool) -> usize {
        1
    }
}

/// The handle of a group whose selectors are counted.
pub type Handle<W> = LoadBalancerGroup<Counted<W>, Static, Rule<NoRule>, NoCheck>;

/// The registry of such groups. The caller makes it, since a function that made one would hide its boxed rule.
pub type Registry = HealthRegistry<Rule<NoRule>, NoCheck>;

// What such a group is made over.
type Found = Backends<Static, Rule<NoRule>, NoCheck>;

/// What groups share: the counts of their selectors, a registry and a gate.
#[derive(Drop)]
pub struct Site<W> {
    pub counts: Arc<Counts<W>>,
    pub registry: Arc<Registry>,
    pub gate: Arc<SelectorRebuildGate>,
}

impl<W: Wait + Clock + Copy + Drop> Site<W> {
    /// Returns a site without groups, over this registry.
    pub fn new(rt: W, alloc: Global, registry: &Arc<Registry>) -> Result<Site<W>, Refusal> {
        Ok(Site {
            counts: Arc::new(alloc, Counts::new(rt, false))?,
            registry: Arc::try_clone(registry)?,
            gate: Arc::new(alloc, SelectorRebuildGate::new(alloc)?)?,
        })
    }

    /// Returns a group of two slots that serve selectors over no backends; its discovery finds one backend.
    pub fn group(&self, rt: &W, alloc: Global) -> Result<Handle<W>, Refusal> {
        let configs = self.configs(alloc)?;
        let backends = self.backends(rt, alloc)?;
        let gate = Arc::try_clone(&self.gate)?;
        let group = LoadBalancerGroup::from_backends_with_configs(rt, alloc, backends, configs)?;
        on_gate(rt, alloc, group, gate)
    }

    fn configs(&self, alloc: Global) -> Result<Vec<Option<Counting<W>>>, Refusal> {
        let mut configs = Vec::new(alloc);
        for _ in 0..2 {
            let counts = Some(Arc::try_clone(&self.counts)?);
            configs.push(Some(Counting { config: (), counts }))?;
        }
        Ok(configs)
    }

    fn backends(&self, rt: &W, alloc: Global) -> Result<Found, Refusal> {
        let registry = Arc::try_clone(&self.registry)?;
        let found = one_backend(alloc, 1)?;
        Backends::new_with_health_registry(rt, alloc, found, registry)
    }
}

// A new group on this gate.
fn on_gate<
    S: BackendSelection,
    D: ServiceDiscovery + Drop,
    R: KeyRule + Drop,
    C: HealthCheck + Drop,
    W: Wait,
>(
    rt: &W,
    alloc: Global,
    mut group: LoadBalancerGroup<S, D, R, C>,
    gate: Arc<SelectorRebuildGate>,
) -> Result<LoadBalancerGroup<S, D, R, C>, Refusal> {
    match group.with_rebuild_gate(rt, alloc, gate) {
        Ok(()) => Ok(group),
        Err(GateRefusal::NotMade(refusal)) => Err(refusal),
        Err(GateRefusal::WasUpdated) => Err(Refusal::NoSuch),
    }
}

/// Two groups on one gate.
#[derive(Drop)]
pub struct Crowd<W: Wait + Clock + Copy + Drop> {
    pub site: Site<W>,
    pub first: Handle<W>,
    pub second: Handle<W>,
}

impl<W: Wait + Clock + Copy + Drop> Crowd<W> {
    /// Makes two groups without workers over this registry.
    pub fn new(rt: W, alloc: Global, registry: &Arc<Registry>) -> Result<Crowd<W>, Refusal> {
        let site = Site::new(rt, alloc, registry)?;
        let first = site.group(&rt, alloc)?;
        let second = site.group(&rt, alloc)?;
        // Each of the four slots has a selector now; those that were built to make the groups are gone.
        site.counts.begun.store(4, SeqCst);
        site.counts.most.store(4, SeqCst);
        Ok(Crowd {
            site,
            first,
            second,
        })
    }

    /// Drops both handles, and tells what the groups leave: whether both are gone, their workers end within that many turns of ten
    /// milliseconds, no more selectors than the slots and one ever lived, the permit is back, no selector lives on, and the registry has
    /// no backend to check.
    ///
    /// # Errors
    ///
    /// `OutOfMemory`: the groups are dropped then too.
    pub fn leave(self, rt: &W, alloc: Global, turns: u64) -> Result<[bool; 6], Refusal> {
        let Crowd {
            site,
            first,
            second,
        } = self;
        let told = dropped(rt, [first, second], turns)?;
        Ok(left(rt, alloc, &site, told))
    }
}

// Whether two groups whose handles are gone know it, and whether their workers end. The groups are dropped then.
fn have_left<S: BackendSelection, R: KeyRule + Drop, C: HealthCheck + Drop, W: Wait + Clock>(
    rt: &W,
    shared: [Arc<SharedGroup<S, R, C>>; 2],
    turns: u64,
) -> [bool; 2] {
    let [one, other] = shared;
    [
        one.is_let_go() && other.is_let_go(),
        ends(rt, &*one, turns) && ends(rt, &*other, turns),
    ]
}

// The groups of two handles, which outlive them.
fn shared_of<
    S: BackendSelection,
    D: ServiceDiscovery + Drop,
    R: KeyRule + Drop,
    C: HealthCheck + Drop,
>(
    handles: &[LoadBalancerGroup<S, D, R, C>; 2],
) -> Result<[Arc<SharedGroup<Configured<S>, R, C>>; 2], Refusal> {
    let [first, second] = handles;
    Ok([
        Arc::try_clone(first.shared())?,
        Arc::try_clone(second.shared())?,
    ])
}

// Drops two handles; whether their groups know it, and whether their workers end.
fn dropped<
    S: BackendSelection,
    D: ServiceDiscovery + Drop,
    R: KeyRule + Drop,
    C: HealthCheck + Drop,
    W: Wait + Clock,
>(rt: &W, handles: [LoadBalancerGroup<S, D, R, C>; 2], turns: u64) -> Result<[bool; 2], Refusal> {
    let shared = shared_of(&handles)?;
    drop(handles);
    Ok(have_left(rt, shared, turns))
}

// What groups leave at their site whose handles are gone, and which told so much.
fn left<W: Wait + Clock + Copy + Drop>(
    rt: &W,
    alloc: Global,
    site: &Site<W>,
    told: [bool; 2],
) -> [bool; 6] {
    let [are_let_go, have_ended] = told;
    [
        are_let_go,
        have_ended,
        site.counts.most.load(SeqCst) <= 5,
        is_free(rt, &site.gate),
        lives_none(&site.counts),
        site.registry.target_count(rt, alloc) == Ok(0),
    ]
}

/// Whether no selector lives any more, within a thousand turns of ten milliseconds: a worker that ended drops its group a little later.
pub fn lives_none<W: Clock>(counts: &Counts<W>) -> bool {
    for _ in 0..1000 {
        if counts.live.load(SeqCst) == 0 {
            return true;
        }
        thread::sleep(&counts.rt, Duration::from_millis(10));
    }
    false
}

/// Returns a discovery that always finds the backend of this weight at 1.0.0.1:80.
pub fn one_backend(alloc: Global, weight: usize) -> Result<DiscoverySource<Static>, Refusal> {
    let mut backends = BTreeSet::new(alloc);
    backends.insert(Backend::new_with_weight(alloc, "1.0.0.1:80", weight)?)?;
    Ok(DiscoverySource::Static(Static::new(backends)))
}

// More readings than updates leave time for.
const READINGS: u64 = 1_000_000_000;

/// Updates a new group by a pass so many times, each time to another membership; whether each was the next generation.
pub fn update_often<G: GroupByPasses, W: Wait + Clock, K: MomentSource>(
    rt: &W,
    alloc: Global,
    group: &G,
    times: u64,
    clock: &mut K,
) -> Result<bool, Refusal> {
    let mut pass = group.pass();
    for time in 0..times {
        let weight = if time % 2 == 0 { 1 } else { 2 };
        let discovery = one_backend(alloc, weight)?;
        if group.update_as(rt, alloc, &discovery, clock, &mut pass)? != time + 1 {
            return Ok(false);
        }
        thread::sleep(rt, Duration::from_millis(2));
    }
    let (newest, _) = group.reads(0, &mut pass);
    Ok(newest == times)
}

// Selects from each of the two slots; whether neither was refused.
fn selects_both<G: AskedGroup, W: Wait>(rt: &W, alloc: Global, group: &G) -> bool {
    select_one(rt, alloc, group, 0).is_ok() && select_one(rt, alloc, group, 1).is_ok()
}

// The newest generation, and what slot 0 serves, as a pass reads them.
fn read<G: GroupByPasses>(group: &G, pass: &mut GroupPass) -> (u64, u64)
    requires { pass.old.board ≡ G.board group.now }
    ensures { pass.new.board ≡ G.board group.now }
{
    let (newest, served) = group.reads(0, pass);
    (newest, served.unwrap_or(0))
}

// Selects from each slot so many times, and reads meanwhile by a pass, and by another that met it, until slot 0 serves that generation:
// whether it came to that, no selection was refused, and no reading was below an earlier one of its pass or of the pass that it met.
fn selects_and_reads<G: GroupByPasses, W: Wait>(
    rt: &W,
    alloc: Global,
    group: &G,
    selections: u64,
    last: u64,
) -> bool {
    let (mut pass, mut other) = (group.pass(), group.pass());
    let (mut newest, mut served) = (0, 0);
    for turn in 0..READINGS {
        if turn < selections && !selects_both(rt, alloc, group) {
            return false;
        }
        let (newest_now, served_now) = read(group, &mut pass);
        group.meet(rt, &mut pass, &mut other);
        let (newest_after, served_after) = read(group, &mut other);
        let is_newest_kept = newest <= newest_now && newest_now <= newest_after;
        let is_served_kept = served <= served_now && served_now <= served_after;
        if !(is_newest_kept && is_served_kept) {
            return false;
        }
        newest = newest_now;
        served = served_now;
        if served == last && selections <= turn {
            return true;
        }
    }
    false
}

/// Selects one of the ready backends of a slot.
pub fn select_one<G: AskedGroup, W: Wait>(
    rt: &W,
    alloc: Global,
    group: &G,
    slot: usize,
) -> Result<Option<Backend>, Refusal> {
    group.select_with(rt, alloc, slot, &|_backend: &Backend, ready: bool| ready)
}

/// Grants the permit where it is there, and gives it back; whether it was there.
pub fn is_free<W: Wait>(rt: &W, gate: &SelectorRebuildGate) -> bool {
    match gate.grant(rt) {
        Some(permit) => {
            gate.give_back(rt, permit);
            true
        }
        None => false,
    }
}

/// Returns whether that many turns of ten milliseconds are enough until a group has no worker any more.
pub fn ends<G: HasWorkers, W: Clock>(rt: &W, group: &G, turns: u64) -> bool {
    for _ in 0..turns {
        if group.worker_count() == 0 {
            return true;
        }
        thread::sleep(rt, Duration::from_millis(10));
    }
    false
}

/// Returns whether a slot serves that generation within that many turns of ten milliseconds.
pub fn serves<G: AskedGroup, W: Wait + Clock>(
    rt: &W,
    alloc: Global,
    group: &G,
    slot: usize,
    generation: u64,
    turns: u64,
) -> bool {
    for _ in 0..turns {
        if group_asks::served(rt, alloc, group, slot) == Some(generation) {
            return true;
        }
        thread::sleep(rt, Duration::from_millis(10));
    }
    false
}

// Starts a thread that selects so many times, and reads until slot 0 serves that generation; it answers as `selects_and_reads`. None where
// it can't be started.
fn starts_reader<
    G: GroupByPasses + Drop + Send + Sync + 'static,
    W: Threads + Wait + Copy + Send + 'static,
>(rt: &W, alloc: Global, group: &Arc<G>, selections: u64, last: u64) -> Option<JoinHandle<bool>> {
    let shared = Arc::try_clone(group).ok()?;
    let own = *rt;
    let started = thread::spawn(
        rt,
        move || selects_and_reads(&own, alloc, &*shared, selections, last),
    );
    started.ok()
}

// What a thread answered; `false` where none was started.
fn joined<W: Threads>(rt: &W, reader: Option<JoinHandle<bool>>) -> bool {
    match reader {
        Some(reader) => reader.join(rt),
        None => false,
    }
}

/// Runs four threads that select from two new groups so many times each, and read them by passes until the last update is served, while the
/// caller's updates both so many times and their workers build; whether nothing was refused, each update was the next generation, and no
/// reading fell.
pub fn crowd_in<
    G: GroupByPasses + Drop + Send + Sync + 'static,
    W: Threads + Wait + Clock + Copy + Send + 'static,
    K: MomentSource,
>(
    rt: &W,
    alloc: Global,
    first: &Arc<G>,
    second: &Arc<G>,
    selections: u64,
    updates: u64,
    clock: &mut K,
) -> bool {
    let one = starts_reader(rt, alloc, first, selections, updates);
    let two = starts_reader(rt, alloc, second, selections, updates);
    let three = starts_reader(rt, alloc, first, selections, updates);
    let four = starts_reader(rt, alloc, second, selections, updates);
    let told = update_often(rt, alloc, &**first, updates, clock);
    let other = update_often(rt, alloc, &**second, updates, clock);
    let has_read = [
        joined(rt, one),
        joined(rt, two),
        joined(rt, three),
        joined(rt, four),
    ];
    told == Ok(true) && other == Ok(true) && has_read == [true; 4]
}

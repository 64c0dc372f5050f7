//! Calls of a plain balancer, a plain group and a registry that memory may be refused in: a call that was refused for it has to leave all
//! that can be read as it was, and is made again. What is read after each call is that of the call's row, whether it was made again or not.
ghost use Rattle.std.specs.Prelude.{◌≡◌, IfOk};
ghost use Rattle.lb_rebuild_core.specs.GroupStates.{SameSite};

use crate::refused::Again;
use lb_balancer_core::balancer_core::LoadBalancerCore;
use lb_balancer_core::group_core::LoadBalancerGroupCore;
use lb_balancer_core::timings::UpdateTimings;
use lb_health_core::registry::RegistryCore;
use lb_health_view::discovery::{Discovered, DiscoverySource, ServiceDiscovery};
use lb_health_view::view::Settings;
use lb_rebuild_core::answers::{Ask, Publication};
use lb_rebuild_core::end_source::FixedMoment;
use lb_rebuild_core::endings::{end_built, end_job};
use lb_rebuild_core::gate::GateCore;
use lb_rebuild_core::job::FailedBuild;
use lb_select::selection::FNVHash;
use lb_select_base::backend::Backend;
use lb_select_base::moments::MomentSource;
use lb_select_base::refusal::Refusal;
use rand_pcg::Pcg64;
use std::alloc::Global;
use std::cell::Cell;
use std::collections::BTreeSet;

// Backends by address and weight.
type Members = &'static [(&'static str, usize)];

const FIRST: Members = &[("1.0.0.1:80", 1), ("1.0.0.2:80", 2)];

const OTHER: Members = &[("1.0.0.2:80", 2), ("1.0.0.3:80", 3), ("unix:/s/1", 4)];

/// A discovery that answers one of these, each one enabled.
#[derive(Drop)]
struct Lists<'a> {
    other: &'a Cell<bool>,
}

impl ServiceDiscovery for Lists<'_> {
    fn discover(&self, alloc: Global) -> Result<Discovered, Refusal> {
        let members = if self.other.get() { OTHER } else { FIRST };
        let set = set_of(alloc, members)?;
        let mut settings = Settings::new(alloc);
        for backend in &set {
            settings.insert((backend.addr.clone()?, backend.weight), true)?;
        }
        Ok((set, settings))
    }
}

fn set_of(alloc: Global, members: Members) -> Result<BTreeSet<Backend>, Refusal> {
    let mut set = BTreeSet::new(alloc);
    for (address, weight) in members {
        set.insert(backend_of(alloc, address, *weight)?)?;
    }
    Ok(set)
}

fn backend_of(alloc: Global, address: &str, weight: usize) -> Result<Backend, Refusal> {
    match address.strip_prefix("unix:") {
        Some(path) => Backend::unix(alloc, path, weight),
        None => Backend::new_with_weight(alloc, address, weight),
    }
}

/// A clock that goes on by five at each reading.
#[derive(Drop)]
struct Ticks {
    next: u128,
}

impl MomentSource for Ticks {
    ghost reads = { λ s m t. m ≡ s.next };

    fn now(&mut self) -> u128 {
        let moment = self.next;
        self.next = moment.saturating_add(5);
        moment
    }
}

/// What can be read of a balancer or a group, and of its registry: the newest generation, what is served and selected of it, how long the
/// last update took, and the numbers that are left for cells.
#[derive(Clone, Copy, PartialEq, Eq)]
struct Seen {
    newest: u64,
    served: u64,
    selected: Option<usize>,
    timing: Option<UpdateTimings>,
    left: u64,
}

/// What was compared: whether all of it agreed, and what was given again, by the number of the call.
#[derive(Drop)]
struct Course {
    call: usize,
    agrees: bool,
    again: Again,
}

impl Course {
    fn new() -> Course {
        Course {
            call: 0,
            agrees: true,
            again: Again::Nothing,
        }
    }

    // A call that was refused for memory left what is read as it was.
    fn refused(&mut self, same: bool) {
        self.again = Again::Step(self.call.saturating_add(1));
        self.agrees &= same;
    }

    // A call is done.
    fn done(&mut self, agrees: bool) {
        self.call = self.call.saturating_add(1);
        self.agrees &= agrees;
    }

    fn told(&self) -> (bool, Again) {
        (self.agrees, self.again)
    }
}

// Whether memory was refused for a call.
fn is_for_memory<T>(answer: &Result<T, Refusal>) -> bool {
    matches!(answer, Err(Refusal::OutOfMemory))
}

// Whether the second list is discovered; and after that update the generation, the weight that is selected, what discovery and build took,
// and how many cells were given.
type Update = (bool, u64, usize, (u128, u128), u64);

const UPDATES: &[Update] = &[
    (false, 1, 2, (10, 5), 2),
    (false, 1, 2, (5, 0), 2),
    (true, 2, 4, (10, 5), 4),
    (false, 3, 2, (10, 5), 5),
];

// What is read where that generation is served.
fn served((_other, newest, weight, took, cells): Update) -> Seen {
    let (discovery_duration, build_duration) = took;
    Seen {
        newest,
        served: newest,
        selected: Some(weight),
        timing: Some(UpdateTimings {
            discovery_duration,
            build_duration,
        }),
        left: u64::MAX.saturating_sub(cells),
    }
}

type Balancer<'a> = LoadBalancerCore<FNVHash, Pcg64, Lists<'a>>;

// What is read of a balancer.
fn seen_of_balancer(
    alloc: Global,
    balancer: &mut Balancer<'_>,
    registry: &RegistryCore,
) -> Option<Seen> {
    let selected = match balancer.select(alloc, registry, b"k", 1) {
        Ok(selected) => selected,
        Err(_) => balancer.select(alloc, registry, b"k", 1).ok()?,
    };
    let newest = balancer.served.generation();
    Some(Seen {
        newest,
        served: newest,
        selected: selected.map(|backend| backend.weight),
        timing: balancer.last_update_timing(),
        left: registry.numbers_left(),
    })
}

// The updates of a balancer.
fn updates(
    alloc: Global,
    balancer: &mut Balancer<'_>,
    registry: &mut RegistryCore,
    other: &Cell<bool>,
    course: &mut Course,
) {
    let mut clock = Ticks { next: 10 };
    for row in UPDATES {
        let (is_other, _, _, _, _) = row;
        other.set(*is_other);
        let before = seen_of_balancer(alloc, balancer, registry);
        let mut updated = balancer.update(alloc, registry, &mut clock);
        if is_for_memory(&updated) {
            course.refused(seen_of_balancer(alloc, balancer, registry) == before);
            updated = balancer.update(alloc, registry, &mut clock);
        }
        course.done(
            updated.is_ok() && seen_of_balancer(alloc, balancer, registry) == Some(served(*row)),
        );
    }
}

fn new_balancer<'a>(
    alloc: Global,
    registry: &mut RegistryCore,
    other: &'a Cell<bool>,
) -> Result<Balancer<'a>, Refusal> {
    let source = DiscoverySource::Boxed(Lists { other });
    LoadBalancerCore::from_backends(alloc, registry, source, Pcg64::new(1, 2))
}

// Makes a balancer, and makes it again where memory was refused.
fn made_balancer<'a>(
    alloc: Global,
    registry: &mut RegistryCore,
    other: &'a Cell<bool>,
    course: &mut Course,
) -> Result<Balancer<'a>, Refusal> {
    match new_balancer(alloc, registry, other) {
        Err(Refusal::OutOfMemory) => {
            course.refused(!registry.has_view(1));
            new_balancer(alloc, registry, other)
        }
        made => made,
    }
}

/// Returns whether a balancer's calls agree, and which of them was given again.
pub(crate) fn balancer_agrees(alloc: Global) -> (bool, Again) {
    let other = Cell::new(false);
    let mut registry = RegistryCore::new(alloc);
    let mut course = Course::new();
    if let Ok(mut balancer) = made_balancer(alloc, &mut registry, &other, &mut course) {
        course.done(balancer.served.id() == 1);
        updates(alloc, &mut balancer, &mut registry, &other, &mut course);
    }
    course.told()
}

type Group<'a> = LoadBalancerGroupCore<FNVHash, Lists<'a>>;

// What is read of a group of one slot.
fn seen_of_group(alloc: Global, group: &mut Group<'_>, registry: &RegistryCore) -> Option<Seen>
    requires { registry.now.id ≡ group.old.group.registry }
    ensures { SameSite group.old.group group.new.group }
{
    let first = group.select(alloc, registry, 0, b"k", 1, &[]);
    let selected = match first.answer {
        Ok(selected) => selected,
        Err(_) => {
            let second = group.select(alloc, registry, 0, b"k", 1, &[]);
            second.answer.ok()?
        }
    };
    Some(Seen {
        newest: group.backend_generation(),
        served: group.selector_generation(0)?,
        selected: selected.map(|backend| backend.weight),
        timing: group.last_update_timing(),
        left: registry.numbers_left(),
    })
}

// The first update of a group: what is read without memory is compared, before anything is served.
fn first_update_of_group(
    alloc: Global,
    group: &mut Group<'_>,
    registry: &mut RegistryCore,
    course: &mut Course,
)
    requires { registry.old.id ≡ group.old.group.registry }
    ensures site { SameSite group.old.group group.new.group }
    ensures one_registry { registry.new.id ≡ registry.old.id }
{
    let mut clock = Ticks { next: 10 };
    let mut updated = group.update(alloc, registry, &mut clock);
    if is_for_memory(&updated) {
        let is_new = group.backend_generation() == 0 && group.last_update_timing().is_none();
        course.refused(is_new && registry.numbers_left() == u64::MAX);
        updated = group.update(alloc, registry, &mut clock);
    }
    course.done(updated.is_ok() && group.backend_generation() == 1);
}

// Updates a group as the row says. Its slot serves generation 1, or nothing.
fn update_of_group(
    alloc: Global,
    group: &mut Group<'_>,
    registry: &mut RegistryCore,
    other: &Cell<bool>,
    row: Update,
    is_served: bool,
    course: &mut Course,
)
    requires { registry.old.id ≡ group.old.group.registry }
    ensures site { SameSite group.old.group group.new.group }
    ensures one_registry { registry.new.id ≡ registry.old.id }
{
    let (is_other, newest, _, _, cells) = row;
    other.set(is_other);
    let mut clock = Ticks { next: 10 };
    let before = seen_of_group(alloc, group, registry);
    let mut updated = group.update(alloc, registry, &mut clock);
    if is_for_memory(&updated) {
        course.refused(seen_of_group(alloc, group, registry) == before);
        updated = group.update(alloc, registry, &mut clock);
    }
    let wanted = Seen {
        newest,
        served: u64::from(is_served),
        selected: if is_served { Some(2) } else { None },
        timing: Some(UpdateTimings {
            discovery_duration: 5,
            build_duration: 0,
        }),
        left: u64::MAX.saturating_sub(cells),
    };
    course.done(updated.is_ok() && seen_of_group(alloc, group, registry) == Some(wanted));
}

// Builds the newest generation in the slot and publishes it; whether it is served. A build that is refused is not given again here: steps
// of a world do that.
fn is_served(alloc: Global, group: &mut Group<'_>, gate: &mut GateCore) -> bool
    requires { gate.old.id ≡ group.old.group.group.gate }
    ensures { SameSite group.old.group group.new.group }
{
    let asked = match group.group.ask(0, gate, 20) {
        Ok(asked) => asked,
        Err(_) => return false,
    };
    let job = match asked {
        Ask::Cancelled | Ask::Building | Ask::Nothing | Ask::NotDue(_) | Ask::Busy => return false,
        Ask::Job(job) => job,
    };
    let built = match job.build(alloc, &mut FixedMoment { moment: 23 }) {
        Ok(built) => built,
        Err(FailedBuild { job, refusal: _ }) => {
            end_job(job);
            return false;
        }
    };
    match group.group.publish(built) {
        Ok(told) => told == Publication::Published(1),
        Err(built) => {
            end_built(built);
            false
        }
    }
}

// The updates of a group, the first of which is served; the next one finds the same.
fn updates_of_group(
    alloc: Global,
    group: &mut Group<'_>,
    registry: &mut RegistryCore,
    gate: &mut GateCore,
    other: &Cell<bool>,
    course: &mut Course,
)
    requires gate { gate.old.id ≡ group.old.group.group.gate }
    requires registry { registry.old.id ≡ group.old.group.registry }
{
    first_update_of_group(alloc, group, registry, course);
    let is_served = is_served(alloc, group, gate);
    for row in UPDATES {
        update_of_group(alloc, group, registry, other, *row, is_served, course);
    }
}

fn new_group<'a>(
    alloc: Global,
    registry: &mut RegistryCore,
    gate: &GateCore,
    other: &'a Cell<bool>,
) -> Result<Group<'a>, Refusal>
    ensures gate { IfOk result (λ b. b.group.group.gate ≡ gate.now.id) }
    ensures site { IfOk result (λ b. b.group.registry ≡ registry.old.id) }
    ensures one_registry { registry.new.id ≡ registry.old.id }
{
    let mut configs = Vec::new(alloc);
    configs.push(Some(()))?;
    let source = DiscoverySource::Boxed(Lists { other });
    LoadBalancerGroupCore::from_backends_with_configs(alloc, registry, gate, source, configs)
}

// Makes a group, and makes it again where memory was refused.
fn made_group<'a>(
    alloc: Global,
    registry: &mut RegistryCore,
    gate: &GateCore,
    other: &'a Cell<bool>,
    course: &mut Course,
) -> Result<Group<'a>, Refusal>
    ensures gate { IfOk result (λ b. b.group.group.gate ≡ gate.now.id) }
    ensures site { IfOk result (λ b. b.group.registry ≡ registry.old.id) }
    ensures one_registry { registry.new.id ≡ registry.old.id }
{
    match new_group(alloc, registry, gate, other) {
        Err(Refusal::OutOfMemory) => {
            course.refused(!registry.has_view(1));
            new_group(alloc, registry, gate, other)
        }
        made => made,
    }
}

// A group's calls on that gate.
fn group_agrees_on(alloc: Global, gate: &mut GateCore, course: &mut Course) {
    let other = Cell::new(false);
    let mut registry = RegistryCore::new(alloc);
    if let Ok(mut group) = made_group(alloc, &mut registry, gate, &other, course) {
        course.done(group.backend_generation() == 0);
        updates_of_group(alloc, &mut group, &mut registry, gate, &other, course);
    }
}

/// Returns whether a group's calls agree, and which of them was given again.
pub(crate) fn group_agrees(alloc: Global) -> (bool, Again) {
    let mut course = Course::new();
    let mut gate = GateCore::new(alloc);
    if is_for_memory(&gate) {
        course.refused(true);
        gate = GateCore::new(alloc);
    }
    if let Ok(gate) = &mut gate {
        course.done(true);
        group_agrees_on(alloc, gate, &mut course);
    }
    course.told()
}

/// A call of a registry.
#[derive(Clone, Copy)]
enum Call {
    Register,
    Update(u64, Members),
    /// Shows a view with these as a generation.
    Show(u64, u64, Members),
    CountTargets,
    ListTargets,
}

// What a call answers: a view's number, how many cells it has, or how many targets there are.
fn answer(alloc: Global, registry: &mut RegistryCore, call: Call) -> Result<u64, Refusal> {
    match call {
        Call::Register => registry.register_view(alloc),
        Call::Update(id, members) => {
            let set = set_of(alloc, members)?;
            registry.update_view(alloc, id, set)?;
            Ok(0)
        }
        Call::Show(id, generation, members) => {
            let set = set_of(alloc, members)?;
            let cells = registry.show_view(alloc, id, generation, set)?;
            Ok(cells.len() as u64)
        }
        Call::CountTargets => Ok(registry.target_count(alloc)? as u64),
        Call::ListTargets => Ok(registry.targets(alloc)?.len() as u64),
    }
}

// What is read of a registry, without memory: the numbers left for cells, the views, and the cells that are kept.
fn seen_of_registry(registry: &RegistryCore) -> (u64, [bool; 7]) {
    let kept = [
        registry.has_view(1),
        registry.has_view(2),
        registry.cell_ready(0),
        registry.cell_ready(1),
        registry.cell_ready(2),
        registry.cell_ready(3),
        registry.cell_ready(4),
    ];
    (registry.numbers_left(), kept)
}

// Calls with their answers, and how many cells were given after them.
const CALLS: &[(Call, u64, u64)] = &[
    (Call::Register, 1, 0),
    (Call::Update(1, FIRST), 0, 2),
    (Call::Register, 2, 2),
    (Call::Show(2, 1, OTHER), 3, 4),
    (Call::ListTargets, 4, 4),
    (Call::Update(1, OTHER), 0, 4),
    (Call::CountTargets, 3, 4),
    (Call::Show(2, 2, FIRST), 2, 5),
];

fn calls_of_registry(alloc: Global, registry: &mut RegistryCore, course: &mut Course) {
    for (call, wanted, cells) in CALLS {
        let before = seen_of_registry(registry);
        let mut answered = answer(alloc, registry, *call);
        if is_for_memory(&answered) {
            course.refused(seen_of_registry(registry) == before);
            answered = answer(alloc, registry, *call);
        }
        let left = u64::MAX.saturating_sub(*cells);
        course.done(answered == Ok(*wanted) && registry.numbers_left() == left);
    }
}

/// Returns whether a registry's calls agree, and which of them was given again.
pub(crate) fn registry_agrees(alloc: Global) -> (bool, Again) {
    let mut registry = RegistryCore::new(alloc);
    let mut course = Course::new();
    calls_of_registry(alloc, &mut registry, &mut course);
    course.told()
}

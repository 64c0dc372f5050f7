//! Health of a cell, and rows of a registry's calls. A row has a registry of its own, which its calls borrow.
use crate::asserted::assert_same;
use crate::selection::fixtures::set_of;
use crate::told::{Answer, DONE, Members, NO, Told, YES};
use lb_health_core::health::Health;
use lb_health_core::registry::RegistryCore;
use lb_health_core::targets::Target;
use lb_select_base::backend::Backend;
use lb_select_base::refusal::Refusal;
use std::alloc::Global;
use std::process::Abort;

/// A call of a registry.
#[derive(Clone, Copy)]
pub(crate) enum Call {
    /// Registers a view; its number.
    Register,
    /// Gives a view these members.
    Update(u64, Members),
    /// The same, once more where memory was refused.
    UpdateAtLast(u64, Members),
    /// Shows view 1 with these members as this generation; how many of them have a cell.
    Show(u64, Members),
    /// Lets view 1 go of a generation.
    Release(u64),
    Remove(u64),
    /// A verdict on a cell, and the threshold that it has to reach; whether it flipped the cell.
    Observe(u64, bool, usize),
    /// Whether a cell is kept and healthy.
    IsReady(u64),
    /// Whether these are the targets, each as its text, its cell and its health.
    Targets(&'static str),
    CountTargets,
    /// How many numbers are left for cells.
    NumbersLeft,
    /// Whether 1.0.0.1:80 with weight 9 has the key of the backend of weight 1 at that address.
    HasHeavyKey(&'static str),
    /// Whether a view has the key of the backend of that address and weight.
    HasKey(&'static str, usize),
}

/// Makes the call.
pub(crate) fn answer(alloc: Global, registry: &mut RegistryCore, call: Call) -> Answer {
    match call {
        Call::Register => Ok(Told::Number(registry.register_view(alloc)?)),
        Call::Update(id, members) => update(alloc, registry, id, members),
        Call::UpdateAtLast(id, members) => update_at_last(alloc, registry, id, members),
        Call::Show(generation, members) => show(alloc, registry, generation, members),
        Call::Release(generation) => {
            registry.release(1, generation);
            DONE
        }
        Call::Remove(id) => {
            registry.remove_view(id);
            DONE
        }
        Call::Observe(cell, verdict, threshold) => {
            Ok(Told::Flag(registry.observe(cell, verdict, threshold)?))
        }
        Call::Targets(text) => are_targets(alloc, registry, text),
        Call::CountTargets => Ok(Told::Length(registry.target_count(alloc)?)),
        Call::IsReady(_) | Call::NumbersLeft | Call::HasHeavyKey(_) | Call::HasKey(_, _) => {
            read(alloc, registry, call)
        }
    }
}

// Makes a call that changes nothing.
fn read(alloc: Global, registry: &RegistryCore, call: Call) -> Answer {
    match call {
        Call::IsReady(cell) => Ok(Told::Flag(registry.cell_ready(cell))),
        Call::NumbersLeft => Ok(Told::Number(registry.numbers_left())),
        Call::HasHeavyKey(other) => {
            let heavy = Backend::new_with_weight(alloc, "1.0.0.1:80", 9)?;
            Ok(Told::Flag(registry.same_key(&heavy, &Backend::new(alloc, other)?)))
        }
        Call::HasKey(address, weight) => {
            let backend = Backend::new_with_weight(alloc, address, weight)?;
            Ok(Told::Flag(registry.has_key(&backend)))
        }
        _ => DONE,
    }
}

fn update(alloc: Global, registry: &mut RegistryCore, id: u64, members: Members) -> Answer {
    let set = set_of(alloc, members)?;
    registry.update_view(alloc, id, set)?;
    DONE
}

// Where memory was refused, the first two cells are as they were.
fn update_at_last(alloc: Global, registry: &mut RegistryCore, id: u64, members: Members) -> Answer {
    let before = (registry.cell_ready(0), registry.cell_ready(1));
    if update(alloc, registry, id, members).is_ok() {
        return DONE;
    }
    if before != (registry.cell_ready(0), registry.cell_ready(1)) {
        return NO;
    }
    update(alloc, registry, id, members)
}

fn show(alloc: Global, registry: &mut RegistryCore, generation: u64, members: Members) -> Answer {
    let set = set_of(alloc, members)?;
    let cells = registry.show_view(alloc, 1, generation, set)?;
    Ok(Told::Length(cells.len()))
}

fn are_targets(alloc: Global, registry: &mut RegistryCore, wanted: &str) -> Answer {
    let targets = registry.targets(alloc)?;
    let text = targets_text(alloc, targets.as_slice())?;
    Ok(Told::Flag(text.as_str() == wanted))
}

// The targets, each as its text, its cell and its health.
fn targets_text(alloc: Global, targets: &[Target]) -> Result<String, Refusal> {
    let mut text = String::new(alloc);
    for target in targets {
        let backend = &target.backend;
        let cell = target.cell;
        let health = if target.healthy { "ok" } else { "bad" };
        let line = format!(in alloc; "{backend}={cell}:{health} ")?;
        text.push_str(line.as_str())?;
    }
    Ok(text)
}

/// How the registry of a row begins.
#[derive(Clone, Copy)]
enum Start {
    ByIdentity,
    ByAddress,
    Unhealthy,
}

/// Calls and what they answer.
type Calls = &'static [(Call, Answer)];

/// A row: how its registry begins, and two lists of calls, the second after the first.
struct Row {
    name: &'static str,
    start: Start,
    first: Calls,
    then: Calls,
}

const ONE: Members = &[("1.0.0.1:80", 1)];

const OTHER: Members = &[("1.0.0.2:80", 1)];

const BOTH: Members = &[("1.0.0.1:80", 1), ("1.0.0.2:80", 1)];

// View 1 has an address with weight 1, and view 2 has it with weight 2.
const TWO_VIEWS: Calls = &[
    (Call::Register, Ok(Told::Number(1))),
    (Call::Register, Ok(Told::Number(2))),
    (Call::Update(1, ONE), DONE),
    (Call::Update(2, &[("1.0.0.1:80", 2)]), DONE),
];

const ONE_VIEW: Calls = &[(Call::Register, Ok(Told::Number(1)))];

const ROWS: &[Row] = &[
    // Two views share the cell of one address, whatever the weights; the first view's backend is the target while it is there.
    Row {
        name: "views share a cell by address",
        start: Start::ByAddress,
        first: TWO_VIEWS,
        then: &[
            (Call::Targets("1.0.0.1:80/1=0:ok "), YES),
            (Call::Observe(0, false, 1), YES),
            (Call::Remove(1), DONE),
            (Call::Targets("1.0.0.1:80/2=0:bad "), YES),
        ],
    },
    // With its last view a key is no target, and its cell is gone.
    Row {
        name: "cells go with their views",
        start: Start::ByAddress,
        first: TWO_VIEWS,
        then: &[
            (Call::Remove(1), DONE),
            (Call::Remove(2), DONE),
            (Call::IsReady(0), YES),
            (Call::CountTargets, Ok(Told::Length(0))),
            (Call::Observe(0, true, 1), Err(Refusal::NoSuch)),
            (Call::IsReady(0), NO),
        ],
    },
    // A backend of any weight has the key of its address, until the last view that has it is marked; each cell took a number.
    Row {
        name: "keys and numbers are told",
        start: Start::ByAddress,
        first: TWO_VIEWS,
        then: &[
            (Call::NumbersLeft, Ok(Told::Number(18446744073709551614))),
            (Call::HasHeavyKey("1.0.0.1:80"), YES),
            (Call::HasHeavyKey("1.0.0.2:80"), NO),
            (Call::HasKey("1.0.0.2:80", 1), NO),
            (Call::Remove(1), DONE),
            (Call::HasKey("1.0.0.1:80", 9), YES),
            (Call::Remove(2), DONE),
            (Call::HasKey("1.0.0.1:80", 9), NO),
        ],
    },
    // A view that has a mark, or was never registered, is no view to update.
    Row {
        name: "marked views are not updated",
        start: Start::ByIdentity,
        first: ONE_VIEW,
        then: &[
            (Call::Remove(1), DONE),
            (Call::Update(1, ONE), Err(Refusal::NoSuch)),
            (Call::Update(7, &[]), Err(Refusal::NoSuch)),
        ],
    },
    // A key that stays a target keeps its cell, and one that returns gets the next number.
    Row {
        name: "returning keys get new cells",
        start: Start::ByIdentity,
        first: ONE_VIEW,
        then: &[
            (Call::Update(1, ONE), DONE),
            (Call::Update(1, BOTH), DONE),
            (Call::Update(1, OTHER), DONE),
            (Call::Update(1, BOTH), DONE),
            (Call::Targets("1.0.0.1:80/1=2:ok 1.0.0.2:80/1=1:ok "), YES),
        ],
    },
    // Cells that begin unhealthy flip at the second success in a row.
    Row {
        name: "cells start unhealthy",
        start: Start::Unhealthy,
        first: ONE_VIEW,
        then: &[
            (Call::Update(1, ONE), DONE),
            (Call::IsReady(0), NO),
            (Call::Observe(0, false, 1), NO),
            (Call::Observe(0, true, 2), NO),
            (Call::Observe(0, false, 1), NO),
            (Call::Observe(0, true, 2), NO),
            (Call::Observe(0, true, 2), YES),
            (Call::IsReady(0), YES),
        ],
    },
    // A backend that returns begins unhealthy again, with the next cell; a live snapshot keeps the first one until its release.
    Row {
        name: "returning cells start unhealthy",
        start: Start::Unhealthy,
        first: ONE_VIEW,
        then: &[
            (Call::Show(1, ONE), Ok(Told::Length(1))),
            (Call::Observe(0, true, 1), YES),
            (Call::Show(2, &[]), Ok(Told::Length(0))),
            (Call::IsReady(0), YES),
            (Call::Release(1), DONE),
            (Call::IsReady(0), NO),
            (Call::Update(1, ONE), DONE),
            (Call::Targets("1.0.0.1:80/1=1:bad "), YES),
        ],
    },
    // A call that is refused for memory leaves the registry as it was, and succeeds when it is given again.
    Row {
        name: "refused memory changes nothing",
        start: Start::ByAddress,
        first: TWO_VIEWS,
        then: &[
            (Call::Remove(2), DONE),
            (Call::IsReady(0), YES),
            (Call::IsReady(1), NO),
            (
                Call::UpdateAtLast(1, &[("1.0.0.1:80", 1), ("1.0.0.3:80", 1)]),
                DONE,
            ),
            (Call::IsReady(1), YES),
            (Call::Targets("1.0.0.1:80/1=0:ok 1.0.0.3:80/1=1:ok "), YES),
        ],
    },
];

fn plays(alloc: Global, registry: &mut RegistryCore, calls: Calls, name: &str, rt: &impl Abort) {
    for (call, wanted) in calls {
        assert_same(rt, &answer(alloc, registry, *call), wanted, &name);
    }
}

// Plays a row on the registry, which each of its lists borrows.
fn plays_row(alloc: Global, registry: &mut RegistryCore, row: &Row, rt: &impl Abort) {
    plays(alloc, registry, row.first, row.name, rt);
    plays(alloc, registry, row.then, row.name, rt);
}

fn started(alloc: Global, start: Start) -> RegistryCore {
    match start {
        Start::ByIdentity => RegistryCore::new(alloc),
        Start::ByAddress => RegistryCore::by_address(alloc),
        Start::Unhealthy => RegistryCore::new(alloc).start_unhealthy(),
    }
}

#[test]
fn rows_of_registries(rt: HostRuntime) {
    for row in ROWS {
        let mut registry = started(rt.alloc(), row.start);
        plays_row(rt.alloc(), &mut registry, row, &rt);
    }
}

// A verdict and its threshold; whether it flips the cell, and whether that is ready then. Failures count from two in a row on,
// successes at once.
const VERDICTS: &[(bool, usize, bool, bool)] = &[
    (false, 2, false, true),
    (true, 1, false, true),
    (false, 2, false, true),
    (false, 2, true, false),
    (true, 1, true, true),
];

#[test]
fn health_flips_at_its_thresholds(rt: HostRuntime) {
    let mut health = Health::default();
    for (at, (verdict, threshold, flipped, healthy)) in VERDICTS.iter().enumerate() {
        let told = health.observe_health(*verdict, *threshold);
        assert_same(&rt, &(told, health.ready()), &(*flipped, *healthy), &at);
    }
}

// A threshold of zero acts as one.
#[test]
fn unhealthy_cells_flip_at_once(rt: HostRuntime) {
    let mut unhealthy = Health::starting(false);
    let before = unhealthy.ready();
    let flipped = unhealthy.observe_health(true, 0);
    assert!(rt; !before && flipped && unhealthy.ready());
}

//! A slot whose worker is lost while it builds, by the calls of a plain group: the lost job keeps the permit until it fails, and a job that
//! fails in a group that was cancelled meanwhile is counted too.
ghost use Rattle.std.specs.Prelude.{◌≡◌};
ghost use Rattle.lb_rebuild_core.specs.GroupStates.{SameSite};

use crate::selection::fixtures::set_of;
use crate::told::one_slot;
use lb_health_core::registry::RegistryCore;
use lb_health_view::view::Settings;
use lb_rebuild_core::answers::{Ask, Counts};
use lb_rebuild_core::endings::end_job;
use lb_rebuild_core::gate::GateCore;
use lb_rebuild_core::group::GroupCore;
use lb_select::selection::RoundRobin;
use lb_select_base::refusal::Refusal;
use std::alloc::Global;
use std::process::Abort;

type Group = GroupCore<RoundRobin>;

/// What can be read of a slot: the newest generation, what is served, what is in flight, whether the slot waits, and its counts.
type Figures = (
    u64,
    Option<u64>,
    Option<Option<u64>>,
    Option<bool>,
    Option<Counts>,
);

fn figures(group: &Group) -> Figures {
    (
        group.newest(),
        group.served(0),
        group.flight(0),
        group.is_waiting(0),
        group.counts(0),
    )
}

// What is read of a slot that serves nothing and waits for that generation, after one membership came while it waited and so many builds
// failed.
fn waiting(newest: u64, failed: u64) -> Figures {
    let counts = Counts {
        published: 0,
        coalesced: 1,
        superseded: 0,
        failed,
    };
    (newest, Some(0), Some(None), Some(true), Some(counts))
}

// Updates a group to the backend at that address. Returns the newest generation.
fn update(
    alloc: Global,
    registry: &mut RegistryCore,
    group: &mut Group,
    address: &str,
    now: u128,
) -> Result<u64, Refusal>
    requires { registry.old.id ≡ group.old.registry }
    ensures site { SameSite group.old group.new }
    ensures one_registry { registry.new.id ≡ registry.old.id }
{
    let set = set_of(alloc, &[(address, 1)])?;
    let scheduled = group.schedule(alloc, registry, set, Settings::new(alloc), now)?;
    Ok(scheduled.generation)
}

// The worker of a granted build is lost, and another membership comes before its job fails. Returns what was built for, and the newest
// generation.
fn lost_then_failed(
    alloc: Global,
    registry: &mut RegistryCore,
    gate: &mut GateCore,
    group: &mut Group,
) -> Result<(u64, u64), Refusal>
    requires gate { gate.old.id ≡ group.old.group.gate }
    requires registry { registry.old.id ≡ group.old.registry }
    ensures site { SameSite group.old group.new }
    ensures gate { gate.new.id ≡ gate.old.id }
    ensures one_registry { registry.new.id ≡ registry.old.id }
{
    let job = match group.ask(0, gate, 0)? {
        Ask::Job(job) => job,
        Ask::Cancelled | Ask::Building | Ask::Nothing | Ask::NotDue(_) | Ask::Busy => {
            return Err(Refusal::NothingInFlight);
        }
    };
    let generation = job.generation();
    let lost = group.worker_lost(0);
    let newest = update(alloc, registry, group, "1.0.0.2:80", 1);
    match group.fail(job, registry, gate, 2) {
        Ok(()) => {
            lost?;
            Ok((generation, newest?))
        }
        Err(job) => {
            end_job(job);
            Err(Refusal::NothingInFlight)
        }
    }
}

// The group is cancelled while a granted build goes on, whose job fails then. Returns what was built for.
fn cancelled_then_failed(
    registry: &mut RegistryCore,
    gate: &mut GateCore,
    group: &mut Group,
) -> Result<u64, Refusal>
    requires gate { gate.old.id ≡ group.old.group.gate }
    requires registry { registry.old.id ≡ group.old.registry }
{
    let job = match group.ask(0, gate, 3)? {
        Ask::Job(job) => job,
        Ask::Cancelled | Ask::Building | Ask::Nothing | Ask::NotDue(_) | Ask::Busy => {
            return Err(Refusal::NothingInFlight);
        }
    };
    let generation = job.generation();
    group.cancel(registry);
    match group.fail(job, registry, gate, 4) {
        Ok(()) => Ok(generation),
        Err(job) => {
            end_job(job);
            Err(Refusal::NothingInFlight)
        }
    }
}

// What the calls tell: the generation of the first update; those of the lost job and of the update after it; that of the job in the
// cancelled group; and what is read of the slot after each job.
fn told(
    alloc: Global,
    registry: &mut RegistryCore,
    gate: &mut GateCore,
    group: &mut Group,
) -> Result<([u64; 4], [Figures; 2]), Refusal>
    requires gate { gate.old.id ≡ group.old.group.gate }
    requires registry { registry.old.id ≡ group.old.registry }
{
    let first = update(alloc, registry, group, "1.0.0.1:80", 0)?;
    let (lost, second) = lost_then_failed(alloc, registry, gate, group)?;
    let before = figures(group);
    let cancelled = cancelled_then_failed(registry, gate, group)?;
    Ok(([first, lost, second, cancelled], [before, figures(group)]))
}

// Makes the calls on a new group of one slot.
fn played(alloc: Global, rt: &impl Abort) -> ([u64; 4], [Figures; 2]) {
    let mut registry = RegistryCore::new(alloc);
    let mut gate = GateCore::new(alloc).expect(rt, "refused");
    let slot = one_slot(alloc).expect(rt, "refused");
    let group = GroupCore::new(alloc, &mut registry, &gate, slot);
    let mut group: Group = group.expect(rt, "refused");
    told(alloc, &mut registry, &mut gate, &mut group).expect(rt, "refused")
}

#[test]
fn losses_of_a_plain_group(rt: HostRuntime) {
    let wanted = ([1, 1, 2, 2], [waiting(2, 1), waiting(2, 2)]);
    assert!(rt; played(rt.alloc(), &rt) == wanted);
}

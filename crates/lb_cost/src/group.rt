//! What a group's calls cost at a size: `group BACKENDS SLOTS ROUNDS UNTIL [times]`. In each round another membership is scheduled, and one
//! slot goes through a failed build, a published one, a reader, and the report that its old selector is destroyed. `bench/group` prints the
//! times.
ghost use Rattle.std.specs.Prelude.{◌≡◌, IfOk, Some, slice_get};
ghost use Rattle.lb_rebuild_core.specs.Stands.{SameSite};
ghost use Rattle.lb_rebuild_core.specs.Values.{configs_of};

use crate::words::{number_at, print_line};
use anyhow::Error;
use lb_crowd::members::members;
use lb_rebuild_core::answers::Ask;
use lb_rebuild_core::end_source::FixedMoment;
use lb_rebuild_core::endings::{end_built, end_job, end_permit, end_reader};
use lb_rebuild_core::gate::GateCore;
use lb_rebuild_core::job::{FailedBuild, Job};
use lb_rebuild_core::slots::Slots;
use lb_select::least::LeastConnections;
use lb_select_base::backend::Backend;
use lb_select_base::moments::MomentSource;
use lb_select_base::refusal::Refusal;
use lb_threads_core::clock::RuntimeClock;
use std::alloc::Global;
use std::collections::BTreeSet;
use std::time::Clock;

// The step after which a round ends; a round that ends before `DESTROYED` leaves its slot busy.
const SCHEDULED: u32 = 0;

const FAILED: u32 = 1;

const BUILT: u32 = 2;

const PUBLISHED: u32 = 3;

const READ: u32 = 4;

const DESTROYED: u32 = 5;

// The calls that are measured, each by its place.
const CALLS: &[&str] = &[
    "clock",
    "schedule",
    "ask",
    "fail",
    "publish",
    "enter",
    "leave",
    "take_retired",
    "destroyed",
];

const CLOCK: usize = 0;

const SCHEDULE: usize = 1;

const ASK: usize = 2;

const FAIL: usize = 3;

const PUBLISH: usize = 4;

const ENTER: usize = 5;

const LEAVE: usize = 6;

const TAKE_RETIRED: usize = 7;

const REPORT: usize = 8;

// What a measurement is over.
#[derive(Clone, Copy)]
struct Plan {
    backends: u32,
    slots: u32,
    rounds: u32,
    until: u32,
}

// The least time of each call so far, in nanoseconds. The reading of the clock is in it.
#[derive(Clone, Copy)]
struct Costs<R> {
    clock: RuntimeClock<R>,
    least: [u128; 9],
}

impl<R: Clock> Costs<R> {
    // The moment at which a call begins.
    fn begin(&mut self) -> u128 {
        self.clock.now()
    }

    // Notes that a call has ended.
    fn end(&mut self, call: usize, start: u128) {
        let spent = self.clock.now().saturating_sub(start);
        if let Some(least) = self.least.get_mut(call) {
            *least = spent.min(*least);
        }
    }
}

// Asks a slot for a job; another answer is `NothingInFlight`.
fn asked<R: Clock>(
    group: &mut Slots<LeastConnections>,
    gate: &mut GateCore,
    slot: usize,
    now: u128,
    costs: &mut Costs<R>,
) -> Result<Job<LeastConnections>, Refusal>
    requires { gate.old.id ≡ group.old.gate }
    ensures gate { gate.new.id ≡ gate.old.id }
    ensures site { SameSite group.old group.new }
    ensures own { IfOk result (λ j. j.group ≡ group.new.id) }
    ensures permit { IfOk result (λ j. j.permit ≡ group.new.gate) }
    ensures config { IfOk result (λ j. slice_get (configs_of group.new) j.slot ≡ Some j.config) }
{
    let start = costs.begin();
    let answer = group.ask(slot, gate, now);
    costs.end(ASK, start);
    match answer? {
        Ask::Cancelled | Ask::Building | Ask::Nothing | Ask::NotDue(_) | Ask::Busy => Err(
            Refusal::NothingInFlight,
        ),
        Ask::Job(job) => Ok(job),
    }
}

// Gives a job back as failed.
fn failed<R: Clock>(
    group: &mut Slots<LeastConnections>,
    job: Job<LeastConnections>,
    gate: &mut GateCore,
    now: u128,
    costs: &mut Costs<R>,
)
    requires own { job.group ≡ group.old.id }
    requires permit { job.permit ≡ group.old.gate }
    requires config { slice_get (configs_of group.old) job.slot ≡ Some job.config }
    requires gate { gate.old.id ≡ group.old.gate }
    ensures gate { gate.new.id ≡ gate.old.id }
    ensures site { SameSite group.old group.new }
{
    let start = costs.begin();
    let answer = group.fail(job, gate, now);
    costs.end(FAIL, start);
    if let Err(job) = answer {
        end_job(job);
    }
}

// Builds a job and publishes the selector, or closes it.
fn published<R: Clock>(
    alloc: Global,
    group: &mut Slots<LeastConnections>,
    job: Job<LeastConnections>,
    until: u32,
    costs: &mut Costs<R>,
) -> Result<(), Refusal>
    requires own { job.group ≡ group.old.id }
    requires permit { job.permit ≡ group.old.gate }
    requires config { slice_get (configs_of group.old) job.slot ≡ Some job.config }
    ensures { SameSite group.old group.new }
{
    let built = match job.build(alloc, &mut FixedMoment { moment: 0 }) {
        Ok(built) => built,
        Err(FailedBuild { job, refusal }) => {
            end_job(job);
            return Err(refusal);
        }
    };
    if until == BUILT {
        end_built(built);
        return Ok(());
    }
    let start = costs.begin();
    let answer = group.publish(built);
    costs.end(PUBLISH, start);
    if let Err(built) = answer {
        end_built(built);
    }
    Ok(())
}

// Enters a slot and leaves it again.
fn read<R: Clock>(
    group: &mut Slots<LeastConnections>,
    slot: usize,
    costs: &mut Costs<R>,
) -> Result<(), Refusal>
    ensures { SameSite group.old group.new }
{
    let start = costs.begin();
    let entry = group.enter(slot);
    costs.end(ENTER, start);
    let reader = entry?;
    let start = costs.begin();
    let answer = group.leave(reader);
    costs.end(LEAVE, start);
    if let Err(reader) = answer {
        end_reader(reader);
    }
    Ok(())
}

// Takes the retired selector out of a slot, destroys it and reports it.
fn destroyed<R: Clock>(
    group: &mut Slots<LeastConnections>,
    gate: &mut GateCore,
    slot: usize,
    costs: &mut Costs<R>,
) -> Result<(), Refusal>
    requires { gate.old.id ≡ group.old.gate }
    ensures gate { gate.new.id ≡ gate.old.id }
    ensures site { SameSite group.old group.new }
{
    let start = costs.begin();
    let taken = group.take_retired(slot);
    costs.end(TAKE_RETIRED, start);
    let permit = taken?.destroy();
    let start = costs.begin();
    let answer = group.destroyed(slot, permit, gate);
    costs.end(REPORT, start);
    if let Err(permit) = answer {
        end_permit(permit);
    }
    Ok(())
}

// Schedules a membership.
fn schedule<R: Clock>(
    alloc: Global,
    group: &mut Slots<LeastConnections>,
    set: BTreeSet<Backend>,
    costs: &mut Costs<R>,
) -> Result<(), Refusal>
    ensures { SameSite group.old group.new }
{
    let start = costs.begin();
    costs.end(CLOCK, start);
    let start = costs.begin();
    let scheduled = group.schedule(alloc, set, 0)?;
    costs.end(SCHEDULE, start);
    let _turns = scheduled.turns;
    Ok(())
}

// Takes a slot through a failed build and a published one, until one of the steps above. The second ask comes after the retry's delay.
fn round<R: Clock>(
    alloc: Global,
    group: &mut Slots<LeastConnections>,
    gate: &mut GateCore,
    slot: usize,
    until: u32,
    costs: &mut Costs<R>,
) -> Result<(), Refusal>
    requires { gate.old.id ≡ group.old.gate }
    ensures gate { gate.new.id ≡ gate.old.id }
    ensures site { SameSite group.old group.new }
{
    if until == SCHEDULED {
        return Ok(());
    }
    let job = asked(group, gate, slot, 0, costs)?;
    failed(group, job, gate, 0, costs);
    if until == FAILED {
        return Ok(());
    }
    let job = asked(group, gate, slot, 1_000_000_000, costs)?;
    published(alloc, group, job, until, costs)?;
    if until <= PUBLISHED {
        return Ok(());
    }
    read(group, slot, costs)?;
    if until == READ {
        return Ok(());
    }
    destroyed(group, gate, slot, costs)
}

// All rounds.
fn rounds<R: Clock>(
    alloc: Global,
    group: &mut Slots<LeastConnections>,
    gate: &mut GateCore,
    plan: Plan,
    costs: &mut Costs<R>,
) -> Result<(), Refusal>
    requires { gate.old.id ≡ group.old.gate }
{
    for number in 0..plan.rounds {
        let first = if number % 2 == 0 { 10 } else { 11 };
        schedule(alloc, group, members(alloc, first, plan.backends)?, costs)?;
        let slot = number.checked_rem(plan.slots).unwrap_or(0) as usize;
        round(alloc, group, gate, slot, plan.until, costs)?;
    }
    Ok(())
}

// A group of so many slots with this gate goes through all rounds; its newest generation.
fn measured<R: Clock>(
    alloc: Global,
    gate: &mut GateCore,
    plan: Plan,
    costs: &mut Costs<R>,
) -> Result<u64, Refusal> {
    let mut configs = Vec::new(alloc);
    for _ in 0..plan.slots {
        configs.push(())?;
    }
    let mut group: Slots<LeastConnections> = Slots::new(alloc, gate, configs)?;
    rounds(alloc, &mut group, gate, plan, costs)?;
    Ok(group.newest())
}

/// Measures, and prints the newest generation; with a fifth word the least nanoseconds of each call too.
pub fn run<R: Clock + Print + Copy>(
    rt: &R,
    alloc: Global,
    numbers: &[String],
) -> Result<(), Error> {
    let plan = Plan {
        backends: number_at(numbers, 0, 10)?,
        slots: number_at(numbers, 1, 2)?,
        rounds: number_at(numbers, 2, 4)?,
        until: number_at(numbers, 3, DESTROYED)?,
    };
    let mut costs = Costs {
        clock: RuntimeClock::new(*rt),
        least: [u128::MAX; 9],
    };
    let mut gate = GateCore::new(alloc)?;
    let newest = measured(alloc, &mut gate, plan, &mut costs)?;
    print_line(rt, "generation", u128::from(newest))?;
    if numbers.len() > 4 {
        for (call, least) in CALLS.iter().zip(costs.least.iter()) {
            print_line(rt, *call, *least)?;
        }
    }
    Ok(())
}

//! The steps of the jobs of a slot: what is granted, built, lost, published or abandoned, and what is retired. What a slot's job has
//! become is in the slot's place from the ask on, so each of these finds there what the history says.
ghost use Rattle.std.specs.Prelude.{◌≡◌, ℕ, MatchResult};
ghost use Rattle.lb_rebuild_core.specs.SlotCalls.{ask_told};
ghost use Rattle.lb_world.specs.Meanings.{meaning_of};
ghost use Rattle.lb_world.specs.Steps as seen;
ghost use Rattle.lb_world.specs.Internal.Calls.{IsUngranted, number_of, told_as};
ghost use Rattle.lb_world.specs.Stands.{IsEntry, Performs, PerformsAtGate, PerformsAlone};

use super::Entry;
use crate::answer::Answer;
use crate::held::Work;
use crate::rule::WorldRegistry;
use lb_rebuild_core::answers::{Ask, Publication};
use lb_rebuild_core::end_source::FixedMoment;
use lb_rebuild_core::gate::GateCore;
use lb_rebuild_core::job::{FailedBuild, Job};
use lb_select_base::refusal::Refusal;
use lb_select_base::walk::BackendSelection;
use std::alloc::Global;

impl<S: BackendSelection> Entry<S> {
    // Asks the slot for its next build, and holds the job.
    pub(crate) fn ask(&mut self, slot: usize, gate: &mut GateCore, now: u128) -> Answer
        requires gate { gate.old.id ≡ self.old.core.group.gate }
        requires stands { IsEntry (meaning_of S.BackendSelection) self.old }
        ensures { PerformsAtGate (meaning_of S.BackendSelection) (λ (g : ℕ). seen.ask g slot now)
            self.old gate.old result self.new gate.new }
    {
        match self.core.ask(slot, gate, now) {
            Err(refusal) => Answer::Refused(refusal),
            Ok(ask) => match granted(ask) {
                Err(answer) => answer,
                Ok(job) => {
                    let generation = job.generation();
                    let place = &mut self.works[slot];
                    place.hold(Work::Building(job));
                    Answer::Build(generation)
                }
            },
        }
    }

    // Runs the build that is held for the slot; one that is refused gives its permit back.
    pub(crate) fn build(
        &mut self,
        alloc: Global,
        slot: usize,
        gate: &mut GateCore,
        registry: &mut WorldRegistry,
        now: u128,
    ) -> Answer
        requires gate { gate.old.id ≡ self.old.core.group.gate }
        requires registry { registry.old.id ≡ self.old.core.registry }
        requires stands { IsEntry (meaning_of S.BackendSelection) self.old }
        ensures { Performs (meaning_of S.BackendSelection) (λ (g : ℕ). seen.build g slot now)
            self.old gate.old registry.old result self.new gate.new registry.new }
    {
        if slot >= self.works.len() {
            return Answer::Refused(Refusal::NoSuch);
        }
        let place = &mut self.works[slot];
        let Some(job) = place.take_job() else {
            return Answer::Refused(Refusal::NothingInFlight);
        };
        let generation = job.generation();
        let mut clock = FixedMoment { moment: now };
        match job.build(alloc, &mut clock) {
            Ok(built) => {
                place.hold(Work::Built(built));
                Answer::Built(generation)
            }
            Err(FailedBuild { job, refusal }) => match self.core.fail(job, registry, gate, now) {
                Ok(()) => Answer::BuildFailed(generation, refusal),
                Err(_job) => unreachable!(),
            },
        }
    }

    // Ends the build that is held for the slot as failed.
    pub(crate) fn fail_build(
        &mut self,
        slot: usize,
        gate: &mut GateCore,
        registry: &mut WorldRegistry,
        now: u128,
    ) -> Answer
        requires gate { gate.old.id ≡ self.old.core.group.gate }
        requires registry { registry.old.id ≡ self.old.core.registry }
        requires stands { IsEntry (meaning_of S.BackendSelection) self.old }
        ensures { Performs (meaning_of S.BackendSelection) (λ (g : ℕ). seen.failbuild g slot now)
            self.old gate.old registry.old result self.new gate.new registry.new }
    {
        if slot >= self.works.len() {
            return Answer::Refused(Refusal::NoSuch);
        }
        let place = &mut self.works[slot];
        let Some(job) = place.take_job() else {
            return Answer::Refused(Refusal::NothingInFlight);
        };
        let generation = job.generation();
        match self.core.fail(job, registry, gate, now) {
            Ok(()) => Answer::Failed(generation),
            Err(_job) => unreachable!(),
        }
    }

    // Ends the slot's flight as lost; what is held of it stays.
    pub(crate) fn lost(&mut self, slot: usize) -> Answer
        ensures { PerformsAlone (meaning_of S.BackendSelection) (λ (g : ℕ). seen.lost g slot)
            self.old result self.new }
    {
        let flight = self.core.flight(slot);
        match self.core.worker_lost(slot) {
            Ok(()) => Answer::Lost(number_in(flight)),
            Err(refusal) => Answer::Refused(refusal),
        }
    }

    // Serves what is held built for the slot, or retires it unserved.
    pub(crate) fn publish(&mut self, slot: usize) -> Answer
        requires stands { IsEntry (meaning_of S.BackendSelection) self.old }
        ensures { PerformsAlone (meaning_of S.BackendSelection) (λ (g : ℕ). seen.publish g slot)
            self.old result self.new }
    {
        if slot >= self.works.len() {
            return Answer::Refused(Refusal::NoSuch);
        }
        let place = &mut self.works[slot];
        let Some(built) = place.take_built() else {
            return Answer::Refused(Refusal::NothingBuilt);
        };
        match self.core.publish(built) {
            Ok(told) => answer_to(told),
            Err(_built) => unreachable!(),
        }
    }

    // Retires what is held built for the slot, unserved.
    pub(crate) fn abandon(&mut self, slot: usize) -> Answer
        requires stands { IsEntry (meaning_of S.BackendSelection) self.old }
        ensures { PerformsAlone (meaning_of S.BackendSelection) (λ (g : ℕ). seen.abandon g slot)
            self.old result self.new }
    {
        if slot >= self.works.len() {
            return Answer::Refused(Refusal::NoSuch);
        }
        let place = &mut self.works[slot];
        let Some(built) = place.take_built() else {
            return Answer::Refused(Refusal::NothingBuilt);
        };
        let generation = built.generation();
        match self.core.abandon(built) {
            Ok(()) => Answer::Abandoned(generation),
            Err(_built) => unreachable!(),
        }
    }

    // Destroys what the slot retired, once no reader is left in it, and only then reports it.
    pub(crate) fn destroy(
        &mut self,
        slot: usize,
        gate: &mut GateCore,
        registry: &mut WorldRegistry,
    ) -> Answer
        requires gate { gate.old.id ≡ self.old.core.group.gate }
        requires registry { registry.old.id ≡ self.old.core.registry }
        requires stands { IsEntry (meaning_of S.BackendSelection) self.old }
        ensures { Performs (meaning_of S.BackendSelection) (λ (g : ℕ). seen.destroy g slot)
            self.old gate.old registry.old result self.new gate.new registry.new }
    {
        match self.core.take_retired(slot) {
            Err(refusal) => Answer::Refused(refusal),
            Ok(retired) => {
                let permit = retired.destroy();
                match self.core.destroyed(slot, permit, registry, gate) {
                    Ok(()) => Answer::Destroyed,
                    Err(_permit) => unreachable!(),
                }
            }
        }
    }
}

// The job that is granted, or the answer where none is.
fn granted<S: BackendSelection>(ask: Ask<S>) -> Result<Job<S>, Answer>
    ensures { MatchResult result (λ job. ask ≡ Ask.Job job) (λ a. IsUngranted (ask_told ask) a) }
{
    match ask {
        Ask::Cancelled => Err(Answer::Cancelled),
        Ask::Building => Err(Answer::Building),
        Ask::Nothing => Err(Answer::Idle),
        Ask::NotDue(moment) => Err(Answer::Wait(moment)),
        Ask::Busy => Err(Answer::Busy),
        Ask::Job(job) => Ok(job),
    }
}

// What became of a built selector, as an answer.
fn answer_to(told: Publication) -> Answer
    ensures { result ≡ told_as told }
{
    match told {
        Publication::Published(generation) => Answer::Published(generation),
        Publication::Abandoned(generation) => Answer::Abandoned(generation),
    }
}

// The number that is there.
fn number_in(flight: Option<Option<u64>>) -> u64
    ensures { result ≡ number_of flight }
{
    match flight {
        Some(Some(generation)) => generation,
        _ => 0,
    }
}

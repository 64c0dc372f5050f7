//! A group of a world: its core with the numbers of its registry and its gate, what is held for its slots, and its loads. Each call here
//! is a step at the group; its contract is stated by the world's history, with the group's number as a parameter.
ghost use Rattle.std.specs.Prelude.{◌≡◌, ℕ, Some, if◌then◌else◌};
ghost use Rattle.lb_rebuild_core.specs.SlotsCalls.{at_slot};
ghost use Rattle.lb_rebuild_core.specs.SlotsHistory.{past_of};
ghost use Rattle.lb_world.specs.Answers.{numbers_of};
ghost use Rattle.lb_world.specs.Meanings.{meaning_of};
ghost use Rattle.lb_world.specs.Steps as seen;
ghost use Rattle.lb_rebuild_core.specs.GroupHistory.{slot_events};
ghost use Rattle.lb_rebuild_core.specs.GroupStates.{After};
ghost use Rattle.lb_world.specs.Internal.GroupSteps.{group_step_seen, IsWhole};
ghost use Rattle.lb_world.specs.Stands.{IsEntry, Performs, PerformsAtRegistry, PerformsAlone};

mod listed;
mod membership;
mod readers;
mod tasks;

use crate::answer::{Answer, SlotCounts};
use crate::group_step::GroupStep;
use crate::held::InHand;
use crate::rule::WorldRegistry;
use lb_rebuild_core::gate::GateCore;
use lb_rebuild_core::group::GroupCore;
use lb_select_base::backend::Backend;
use lb_select_base::loads::Loads;
use lb_select_base::refusal::Refusal;
use lb_select_base::walk::BackendSelection;
use std::alloc::Global;
use std::marker::Model;

// A group with its registry, its gate, its works and its loads.
pub(crate) struct Entry<S: BackendSelection> {
    pub(crate) registry: usize,
    pub(crate) gate: usize,
    pub(crate) core: GroupCore<S>,
    pub(crate) works: Vec<InHand<S>>,
    pub(crate) loads: Loads,
}

impl<S: BackendSelection> Model for Entry<S> {
    ghost use Rattle.lb_world.specs.Views.{EntryValue};

    ghost Value = { EntryValue S.Config };

    ghost view = { λ e. record {
      registry = e.registry;
      gate = e.gate;
      core = e.core;
      works = e.works.items;
      loads = e.loads;
    } };
}

impl<S: BackendSelection> Entry<S> {
    // Ends the group with the world, and what is held for its slots.
    pub(crate) fn close(self) {
        let Entry {
            registry: _,
            gate: _,
            core: _,
            mut works,
            loads: _,
        } = self;
        while let Some(place) = works.pop() {
            place.close();
        }
        works.destroy_empty();
    }

    // The number of its gate.
    pub(crate) fn gate(&self) -> usize
        ensures { result ≡ self.now.gate }
    {
        self.gate
    }

    // The number of its registry.
    pub(crate) fn registry(&self) -> usize
        ensures { result ≡ self.now.registry }
    {
        self.registry
    }

    // Takes the step, and returns its answer.
    pub(crate) fn take(
        &mut self,
        alloc: Global,
        gate: &mut GateCore,
        registry: &mut WorldRegistry,
        local: GroupStep<'_>,
    ) -> Answer
        requires gate { gate.old.id ≡ self.old.core.group.gate }
        requires registry { registry.old.id ≡ self.old.core.registry }
        requires whole { IsWhole local }
        requires stands { IsEntry (meaning_of S.BackendSelection) self.old }
        ensures { Performs (meaning_of S.BackendSelection) (λ (g : ℕ). group_step_seen g local.entry)
            self.old gate.old registry.old result self.new gate.new registry.new }
    {
        match local {
            GroupStep::Update { now, listings } => self.update(alloc, registry, listings, now),
            GroupStep::Ask { slot, now } => self.ask(slot, gate, now),
            GroupStep::Build { slot, now } => self.build(alloc, slot, gate, registry, now),
            GroupStep::FailBuild { slot, now } => self.fail_build(slot, gate, registry, now),
            GroupStep::Lost { slot } => self.lost(slot),
            GroupStep::Publish { slot } => self.publish(slot),
            GroupStep::Abandon { slot } => self.abandon(slot),
            GroupStep::Destroy { slot } => self.destroy(slot, gate, registry),
            GroupStep::Enable { backend } => self.set_enable(backend, true),
            GroupStep::Disable { backend } => self.set_enable(backend, false),
            GroupStep::Cancel => self.cancel(registry),
            GroupStep::Counts { slot } => self.counts(slot),
            GroupStep::Timing { slot } => self.timing(slot),
            GroupStep::Load { backend, load } => self.load(alloc, backend, load),
        }
    }

    // The numbers of a slot.
    fn counts(&self, slot: usize) -> Answer
        ensures { PerformsAlone (meaning_of S.BackendSelection) (λ (g : ℕ). seen.counts g slot)
            self.now result self.now }
    {
        match self.numbers(slot) {
            Some(numbers) => Answer::Numbers(numbers),
            None => Answer::Refused(Refusal::NoSuch),
        }
    }

    // What the core counts at a slot, if it is there.
    fn numbers(&self, slot: usize) -> Option<SlotCounts>
        ensures { After self.now.core (λ made e. result ≡ at_slot made slot (numbers_of (past_of slot (slot_events e)))) }
    {
        let core = &self.core;
        Some(SlotCounts {
            newest: core.newest(),
            served: core.served(slot)?,
            flight: core.flight(slot)?,
            waiting: core.is_waiting(slot)?,
            counts: core.counts(slot)?,
        })
    }

    // The timing of a slot's last publication.
    fn timing(&self, slot: usize) -> Answer
        ensures { PerformsAlone (meaning_of S.BackendSelection) (λ (g : ℕ). seen.timing g slot)
            self.now result self.now }
    {
        match self.core.timing(slot) {
            Some(timing) => Answer::Timed(timing),
            None => Answer::Refused(Refusal::NoSuch),
        }
    }

    // Stops the rebuilds for good.
    fn cancel(&mut self, registry: &mut WorldRegistry) -> Answer
        requires registry { registry.old.id ≡ self.old.core.registry }
        ensures { PerformsAtRegistry (meaning_of S.BackendSelection) (λ (g : ℕ). seen.cancel g)
            self.old registry.old result self.new registry.new }
    {
        self.core.cancel(registry);
        Answer::Cancelled
    }

    // Enables or disables a backend.
    fn set_enable(&mut self, backend: &Backend, enabled: bool) -> Answer
        ensures { PerformsAlone (meaning_of S.BackendSelection)
            (λ (g : ℕ). if enabled then seen.enable g (Some backend.now) else seen.disable g (Some backend.now)) self.old result self.new }
    {
        self.core.set_enable(backend, enabled);
        Answer::Done
    }

    // Sets the load of a backend.
    fn load(&mut self, alloc: Global, backend: &Backend, load: u64) -> Answer
        ensures { PerformsAlone (meaning_of S.BackendSelection)
            (λ (g : ℕ). seen.load g (Some backend.now) load) self.old result self.new }
    {
        match self.loads.set(alloc, backend, load) {
            Ok(()) => Answer::Done,
            Err(refusal) => Answer::Refused(refusal),
        }
    }
}

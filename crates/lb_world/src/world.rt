//! The world: tables of registries, gates, groups and readers, and one method for all steps at a group. Its contract is over histories
//! alone; the contents of the tables are no part of it. That some history explains them is an invariant of the world, and a premise of the
//! tables' calls where a step needs it.
ghost use Rattle.std.specs.Prelude.{◌≡◌, ◌∷◌, [], map, IfOk, IfErr, vec_len};
ghost use Rattle.lb_world.specs.Answers.{IsRun};
ghost use Rattle.lb_world.specs.History.{History, after};
ghost use Rattle.lb_world.specs.Meanings.{meaning_of};
ghost use Rattle.lb_world.specs.Headline.{KeepsPromises};
ghost use Rattle.lb_world.specs.Refused.{unrefused};
ghost use Rattle.lb_world.specs.Steps as seen;
ghost use Rattle.lb_world.specs.Steps.{step_seen};
ghost use Rattle.lb_world.specs.Internal.GroupSteps.{group_step_seen, IsWhole};
ghost use Rattle.lb_world.specs.Works.{world_value};
ghost use Rattle.lb_world.specs.Stands.{IsFounded, Stands};

mod making;
mod readers;
mod registries;

use crate::answer::Answer;
use crate::entry::Entry;
use crate::group_step::{GroupStep, has_refused};
use crate::held::OpenReader;
use crate::rule::WorldRegistry;
use crate::step::{Listing, Step};
use lb_rebuild_core::gate::GateCore;
use lb_select_base::backend::Backend;
use lb_select_base::refusal::Refusal;
use lb_select_base::walk::BackendSelection;
use std::alloc::Global;
use std::marker::Model;

/// A world of registries, gates and groups over selectors of one type. It takes a step at a time.
///
/// Contracts see its tables; some history explains every world.
pub struct World<S: BackendSelection> {
    tables: Tables<S>,
}

// What a world is made of.
pub(crate) struct Tables<S: BackendSelection> {
    alloc: Global,
    registries: Vec<WorldRegistry>,
    gates: Vec<GateCore>,
    groups: Vec<Entry<S>>,
    readers: Vec<Option<OpenReader<S>>>,
}

impl<S: BackendSelection> Model for World<S> {
    ghost use Rattle.lb_world.specs.Views.{WorldValue};
    ghost use Rattle.lb_world.specs.Works.{world_value};
    ghost use Rattle.lb_world.specs.Stands.{IsFounded};
    ghost use Rattle.lb_world.specs.Meanings.{meaning_of};

    ghost Value = { WorldValue S.Config };

    ghost view = { λ w. world_value w.tables };

    ghost invariant = { λ w. IsFounded (meaning_of S.BackendSelection) (world_value w.tables) };
}

impl<S: BackendSelection> Drop for World<S> {
    fn drop(self) {
        let World { tables } = self;
        tables.close();
    }
}

impl<S: BackendSelection> World<S> {
    /// Returns a world without anything. It takes no memory.
    pub fn new(alloc: Global) -> Self
        ensures { Stands (meaning_of S.BackendSelection) result [] }
    {
        World {
            tables: Tables {
                alloc,
                registries: Vec::new(alloc),
                gates: Vec::new(alloc),
                groups: Vec::new(alloc),
                readers: Vec::new(alloc),
            },
        }
    }

    /// States that some history explains the world, for a caller that knows none.
    ///
    /// Only for the prover: it does nothing at run time.
    pub fn past(&self)
        ensures { IsFounded (meaning_of S.BackendSelection) self.now }
    {
        // For the prover alone: this shows it the world's invariant, and does nothing at run time.
        let _tables = &self.tables;
    }

    /// Takes one step, and returns the answer that the definitions give after any history that explains the world.
    ///
    /// A refused step leaves everything as it was, save that a selection refused for memory may have drawn tickets.
    pub fn step(&mut self, step: Step<S::Config>) -> Answer
        ensures { (h : History S.Config) → Stands (meaning_of S.BackendSelection) self.old h
            → Stands (meaning_of S.BackendSelection) self.new ((step_seen step, result) ∷ h) }
    {
        self.tables.step(step)
    }

    /// Takes the steps in their order, and returns their answers.
    ///
    /// Room for all answers is made before the first step is taken.
    ///
    /// # Errors
    ///
    /// `OutOfMemory` where the memory for the answers is refused; then no step was taken.
    pub fn run(&mut self, steps: Vec<Step<S::Config>>) -> Result<Vec<Answer>, Refusal>
        ensures stands { IfOk result (λ answers. (h : History S.Config) → Stands (meaning_of S.BackendSelection) self.old h
            → Stands (meaning_of S.BackendSelection) self.new (after h (map step_seen steps.items) answers.items)) }
        ensures run { IfOk result (λ answers. (h : History S.Config) → Stands (meaning_of S.BackendSelection) self.old h
            → IsRun (meaning_of S.BackendSelection) (after h (map step_seen steps.items) answers.items)) }
        ensures each { IfOk result (λ answers. vec_len answers ≡ vec_len steps) }

        // The headline and the other promises, of the whole history, whatever it was before.
        ensures promises { IfOk result (λ answers. (h : History S.Config) → Stands (meaning_of S.BackendSelection) self.old h
            → KeepsPromises (meaning_of S.BackendSelection) (after h (map step_seen steps.items) answers.items)) }

        // A refused step changed nothing: the history without the refused ones explains the world as well.
        ensures unrefused { IfOk result (λ answers. (h : History S.Config) → Stands (meaning_of S.BackendSelection) self.old h
            → Stands (meaning_of S.BackendSelection) self.new (unrefused (after h (map step_seen steps.items) answers.items))) }

        // Where the answers have no room, no step was taken.
        ensures err { IfErr result (λ r. (r ≡ Refusal.OutOfMemory) × (self.new ≡ self.old)) }
    {
        let mut answers = Vec::with_capacity(self.tables.alloc, steps.len())?;
        for step in steps {
            answers.push_reserved(self.step(step));
        }
        Ok(answers)
    }

    /// Takes a step that selects, and answers it as `step` does, with borrowed key and random words.
    ///
    /// It takes no memory for them.
    pub fn select(
        &mut self,
        group: u64,
        slot: usize,
        key: &[u8],
        limit: usize,
        words: &[u64],
    ) -> Answer
        ensures { (h : History S.Config) → Stands (meaning_of S.BackendSelection) self.old h
            → Stands (meaning_of S.BackendSelection) self.new
            ((seen.select group slot key.now limit words.now, result) ∷ h) }
    {
        self.tables.select(group, slot, key, limit, words)
    }
}

impl<S: BackendSelection> Tables<S> {
    // Ends everything with the world.
    fn close(self) {
        let Tables {
            alloc: _,
            registries: _,
            gates: _,
            mut groups,
            mut readers,
        } = self;
        while let Some(place) = readers.pop() {
            if let Some(held) = place {
                held.close();
            }
        }
        readers.destroy_empty();
        while let Some(entry) = groups.pop() {
            entry.close();
        }
        groups.destroy_empty();
    }

    fn step(&mut self, step: Step<S::Config>) -> Answer
        requires founded { IsFounded (meaning_of S.BackendSelection) (world_value self.old) }
        ensures { (h : History S.Config) → Stands (meaning_of S.BackendSelection) (world_value self.old) h
            → Stands (meaning_of S.BackendSelection) (world_value self.new) ((step_seen step, result) ∷ h) }
    {
        match step {
            Step::Registry { rule, healthy } => self.registry(rule, healthy),
            Step::Gate => self.gate(),
            Step::Group {
                registry,
                gate,
                configs,
            } => self.group(registry, gate, configs),
            Step::Update {
                group,
                now,
                listings,
            } => self.update(group, now, listings),
            Step::Ask { group, slot, now } => self.at_group(group, GroupStep::Ask { slot, now }),
            Step::Build { group, slot, now } => self.at_group(
                group,
                GroupStep::Build { slot, now },
            ),
            Step::FailBuild { group, slot, now } => {
                self.at_group(group, GroupStep::FailBuild { slot, now })
            }
            Step::Lost { group, slot } => self.at_group(group, GroupStep::Lost { slot }),
            Step::Publish { group, slot } => self.at_group(group, GroupStep::Publish { slot }),
            Step::Abandon { group, slot } => self.at_group(group, GroupStep::Abandon { slot }),
            Step::Enter { group, slot } => self.enter(group, slot),
            Step::Ready { reader, backend } => self.ready(reader, backend),
            Step::Leave { reader } => self.leave(reader),
            Step::Destroy { group, slot } => self.at_group(group, GroupStep::Destroy { slot }),
            Step::Select {
                group,
                slot,
                key,
                limit,
                words,
            } => self.select(group, slot, &key, limit, &words),
            Step::Verdict {
                registry,
                cell,
                ok,
                threshold,
            } => self.verdict(registry, cell, ok, threshold),
            Step::Enable { group, backend } => self.enable(group, backend),
            Step::Disable { group, backend } => self.disable(group, backend),
            Step::Cancel { group } => self.at_group(group, GroupStep::Cancel),
            Step::Targets { registry } => self.targets(registry),
            Step::Counts { group, slot } => self.at_group(group, GroupStep::Counts { slot }),
            Step::Timing { group, slot } => self.at_group(group, GroupStep::Timing { slot }),
            Step::Load {
                group,
                backend,
                load,
            } => self.load(group, backend, load),
        }
    }

    // Selects at a group. Most steps do, so that this is no step among the others at a group.
    fn select(&mut self, group: u64, slot: usize, key: &[u8], limit: usize, words: &[u64]) -> Answer
        requires founded { IsFounded (meaning_of S.BackendSelection) (world_value self.old) }
        ensures { (h : History S.Config) → Stands (meaning_of S.BackendSelection) (world_value self.old) h
            → Stands (meaning_of S.BackendSelection) (world_value self.new)
            ((seen.select group slot key.now limit words.now, result) ∷ h) }
    {
        if group as usize >= self.groups.len() {
            return Answer::Refused(Refusal::NoSuch);
        }
        let entry = &mut self.groups[group as usize];
        let registry = &self.registries[entry.registry()];
        entry.select(self.alloc, registry, slot, key, limit, words)
    }

    // Takes a step at a group, with the group's gate and registry.
    fn at_group(&mut self, group: u64, local: GroupStep<'_>) -> Answer
        requires whole { IsWhole local }
        requires founded { IsFounded (meaning_of S.BackendSelection) (world_value self.old) }
        ensures { (h : History S.Config) → Stands (meaning_of S.BackendSelection) (world_value self.old) h
            → Stands (meaning_of S.BackendSelection) (world_value self.new) ((group_step_seen group local.entry, result) ∷ h) }
    {
        if group as usize >= self.groups.len() {
            return Answer::Refused(Refusal::NoSuch);
        }
        let entry = &mut self.groups[group as usize];
        let gate = &mut self.gates[entry.gate()];
        let registry = &mut self.registries[entry.registry()];
        entry.take(self.alloc, gate, registry, local)
    }

    fn update(&mut self, group: u64, now: u128, listings: Vec<Listing>) -> Answer
        requires founded { IsFounded (meaning_of S.BackendSelection) (world_value self.old) }
        ensures { (h : History S.Config) → Stands (meaning_of S.BackendSelection) (world_value self.old) h
            → Stands (meaning_of S.BackendSelection) (world_value self.new)
            ((seen.update group now listings.items, result) ∷ h) }
    {
        if has_refused(&listings) {
            return Answer::Refused(Refusal::InvalidAddress);
        }
        self.at_group(group, GroupStep::Update { now, listings })
    }

    fn enable(&mut self, group: u64, backend: Option<Backend>) -> Answer
        requires founded { IsFounded (meaning_of S.BackendSelection) (world_value self.old) }
        ensures { (h : History S.Config) → Stands (meaning_of S.BackendSelection) (world_value self.old) h
            → Stands (meaning_of S.BackendSelection) (world_value self.new)
            ((seen.enable group backend, result) ∷ h) }
    {
        let Some(backend) = &backend else {
            return Answer::Refused(Refusal::InvalidAddress);
        };
        self.at_group(group, GroupStep::Enable { backend })
    }

    fn disable(&mut self, group: u64, backend: Option<Backend>) -> Answer
        requires founded { IsFounded (meaning_of S.BackendSelection) (world_value self.old) }
        ensures { (h : History S.Config) → Stands (meaning_of S.BackendSelection) (world_value self.old) h
            → Stands (meaning_of S.BackendSelection) (world_value self.new)
            ((seen.disable group backend, result) ∷ h) }
    {
        let Some(backend) = &backend else {
            return Answer::Refused(Refusal::InvalidAddress);
        };
        self.at_group(group, GroupStep::Disable { backend })
    }

    fn load(&mut self, group: u64, backend: Option<Backend>, load: u64) -> Answer
        requires founded { IsFounded (meaning_of S.BackendSelection) (world_value self.old) }
        ensures { (h : History S.Config) → Stands (meaning_of S.BackendSelection) (world_value self.old) h
            → Stands (meaning_of S.BackendSelection) (world_value self.new)
            ((seen.load group backend load, result) ∷ h) }
    {
        let Some(backend) = &backend else {
            return Answer::Refused(Refusal::InvalidAddress);
        };
        self.at_group(group, GroupStep::Load { backend, load })
    }
}

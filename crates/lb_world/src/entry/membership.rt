//! The steps of a group's membership and its selections: how a group is made and updated, and what its slots select. Every cause of
//! refusal is tested before memory is taken.
ghost use Rattle.std.specs.Prelude.{◌≡◌, ◌↔◌, ◌≤◌, ◌+◌, ◌^◌, ◌∷◌, ℕ, List, [], map, true, false, None, IfOk, IfErr, OnOk, OnErr, IsTrue};
ghost use Rattle.std.specs.Prelude.{vec_len, vec_capacity};
ghost use Rattle.lb_rebuild_core.specs.SlotsCalls.{is_change, schedule_refusal as refusal_after};
ghost use Rattle.lb_rebuild_core.specs.GroupHistory.{slot_events};
ghost use Rattle.lb_rebuild_core.specs.GroupStates.{After};
ghost use Rattle.lb_world.specs.Answers.{has_refused};
ghost use Rattle.lb_world.specs.History.{members_in};
ghost use Rattle.lb_world.specs.Meanings.{meaning_of};
ghost use Rattle.lb_world.specs.Steps as seen;
ghost use Rattle.lb_world.specs.Rules.{key_gives};
ghost use Rattle.lb_world.specs.Stands.{IsEntry, Performs, PerformsAtRegistry};
ghost use Rattle.lb_world.specs.Internal.Calls.{IsNewEntry, making_cause, or_memory, scheduled_as, selection_as};
ghost use Rattle.lb_rebuild_core.specs.Gate.{GateValue};
ghost use Rattle.lb_select_base.specs.Backends.{Member};
ghost use Rattle.lb_select_base.specs.Refusals.{least};
ghost use Rattle.lb_health_core.specs.Registry.{IsRegistryAfter};
ghost use Rattle.lb_health_core.specs.RegistryEvents.{Event, Registered, Applied, Updated, cells_given, has_view};
ghost use Rattle.lb_health_core.specs.RegistryEvents.{registered_after, views_after};

mod cells;

use self::cells::lacks_numbers;
use super::Entry;
use super::listed::{differs, members_from, settings_from};
use crate::answer::Answer;
use crate::held::{InHand, with_places};
use crate::rule::WorldRegistry;
use crate::step::Listing;
use lb_rebuild_core::answers::Selection;
use lb_rebuild_core::gate::GateCore;
use lb_rebuild_core::group::GroupCore;
use lb_rebuild_core::membership::Scheduled;
use lb_select_base::loads::Loads;
use lb_select_base::refusal::Refusal;
use lb_select_base::walk::BackendSelection;
use std::alloc::Global;

impl<S: BackendSelection> Entry<S> {
    // Makes a group over that registry and that gate by their numbers, with a slot for each configuration and `room` for what is
    // held of each. Refused for the least cause of its selectors, then where no number is left for a view, and else for memory; the
    // registry is then as before.
    pub(crate) fn new(
        alloc: Global,
        at: (usize, usize),
        registry: &mut WorldRegistry,
        gate: &GateCore,
        room: Vec<InHand<S>>,
        configs: Vec<S::Config>,
    ) -> Result<Entry<S>, Refusal>
        requires empty { room.items ≡ [] }
        requires fits { vec_len configs ≤ vec_capacity room }
        ensures site { IfOk result (λ e. e.core.registry ≡ registry.old.id) }
        ensures one_registry { registry.new.id ≡ registry.old.id }
        ensures made { IfOk result (λ e. (key_of : Member → Member) (events : List Event)
            → IsRegistryAfter key_gives key_of events registry.old
            → IsNewEntry at.0 at.1 gate.now.id configs.items (registered_after events + 1) e
            × IsRegistryAfter key_gives key_of (Applied ∷ Registered ∷ events) registry.new) }
        ensures uncaused { OnOk result ((key_of : Member → Member) (events : List Event)
            → IsRegistryAfter key_gives key_of events registry.old
            → making_cause (least (map (S.refusal []) configs.items)) (registered_after events) ≡ None) }
        ensures err { OnErr result ((key_of : Member → Member) (events : List Event)
            → IsRegistryAfter key_gives key_of events registry.old
            → IsRegistryAfter key_gives key_of events registry.new) }
        ensures refused { IfErr result (λ e. (key_of : Member → Member) (events : List Event)
            → IsRegistryAfter key_gives key_of events registry.old
            → e ≡ or_memory (making_cause (least (map (S.refusal []) configs.items)) (registered_after events))) }
    {
        let count = configs.len();
        match GroupCore::new(alloc, registry, gate, configs) {
            Ok(core) => Ok(Entry {
                registry: at.0,
                gate: at.1,
                core,
                works: with_places(room, count),
                loads: Loads::new(),
            }),
            Err(refusal) => {
                room.destroy_empty();
                Err(refusal)
            }
        }
    }

    // Makes the backends of these listings the newest membership, where it is another one, and sets the flags of the marked ones.
    pub(crate) fn update(
        &mut self,
        alloc: Global,
        registry: &mut WorldRegistry,
        listings: Vec<Listing>,
        now: u128,
    ) -> Answer
        requires registry { registry.old.id ≡ self.old.core.registry }
        requires whole { has_refused listings.items ≡ false }
        requires stands { IsEntry (meaning_of S.BackendSelection) self.old }
        ensures { PerformsAtRegistry (meaning_of S.BackendSelection)
            (λ (g : ℕ). seen.update g now listings.items) self.old registry.old result self.new registry.new }
    {
        if let Some(refusal) = self.refusal(&listings) {
            return Answer::Refused(refusal);
        }
        if self.lacks_numbers(registry, &listings) {
            return Answer::Refused(Refusal::NumbersExhausted);
        }
        let settings = settings_from(alloc, &listings);
        let (Ok(settings), Ok(members)) = (settings, members_from(alloc, listings)) else {
            return Answer::Refused(Refusal::OutOfMemory);
        };
        match self.core.schedule(alloc, registry, members, settings, now) {
            Err(refusal) => Answer::Refused(refusal),
            Ok(scheduled) => generation_of(&scheduled),
        }
    }

    // Selects from what the slot serves, among what is ready in the snapshot of the served generation.
    pub(crate) fn select(
        &mut self,
        alloc: Global,
        registry: &WorldRegistry,
        slot: usize,
        key: &[u8],
        limit: usize,
        words: &[u64],
    ) -> Answer
        requires registry { registry.now.id ≡ self.old.core.registry }
        ensures { (z : GateValue) → Performs (meaning_of S.BackendSelection)
            (λ (g : ℕ). seen.select g slot key.now limit words.now) self.old z registry.now result self.new z registry.now }
    {
        let loads = &self.loads;
        let selection = self
            .core
            .select(alloc, registry, slot, key, limit, words, loads);
        answer_of(selection)
    }

    // Why the group can't take these backends, memory and numbers of cells apart. It takes no memory.
    fn refusal(&self, listings: &[Listing]) -> Option<Refusal>
        ensures { After self.now.core (λ made e. result ≡ refusal_after (members_in listings.now) (slot_events e)) }
    {
        if self.core.newest() == u64::MAX && differs(listings, self.core.members()) {
            return Some(Refusal::GenerationsExhausted);
        }
        if self.core.is_cancelled() {
            return Some(Refusal::GroupCancelled);
        }
        None
    }

    // Whether these backends are another membership, for whose cells the numbers that are left aren't enough. It takes no memory.
    fn lacks_numbers(&self, registry: &WorldRegistry, listings: &[Listing]) -> bool
        ensures { (key_of : Member → Member) (events : List Event) → IsRegistryAfter key_gives key_of events registry.now
            → has_view self.now.core.view.id (views_after events) ≡ true
            → After self.now.core (λ made e. IsTrue result ↔ ((is_change (members_in listings.now) (slot_events e) ≡ true)
            × (2 ^ 64 ≤ cells_given key_of (Updated self.now.core.view.id (members_in listings.now) ∷ Applied ∷ events)))) }
    {
        lacks_numbers(registry, listings) && differs(listings, self.core.members())
    }
}

// The generation that is the newest now or still, as an answer.
fn generation_of(scheduled: &Scheduled) -> Answer
    ensures { result ≡ scheduled_as scheduled.now }
{
    if scheduled.changed {
        return Answer::Generation(scheduled.generation);
    }
    Answer::Same(scheduled.generation)
}

// A selection as an answer. One that was refused for memory may have moved the counter of tickets.
fn answer_of(selection: Selection) -> Answer
    ensures { result ≡ selection_as selection }
{
    let Selection {
        answer,
        drawn: _,
        tickets,
    } = selection;
    match answer {
        Ok(Some(backend)) => Answer::Backend(backend, tickets),
        Ok(None) => Answer::NoBackend(tickets),
        Err(Refusal::OutOfMemory) => Answer::NotSelected(tickets),
        Err(refusal) => Answer::Refused(refusal),
    }
}

//! The steps that make registries, gates and groups. A group's selectors are built once; a refusal for memory comes after every other.
ghost use Rattle.std.specs.Prelude.{◌≡◌, ◌∷◌, List, [], map, Option, Some, None};
ghost use Rattle.lb_select_base.specs.Backends.{Member};
ghost use Rattle.lb_select_base.specs.Refusals.{earlier as earlier_of, least};
ghost use Rattle.lb_health_core.specs.Registry.{IsRegistryAfter};
ghost use Rattle.lb_health_core.specs.RegistryEvents.{Event, registered_after};
ghost use Rattle.lb_world.specs.Internal.Calls.{in_tables, making_cause, or_memory};
ghost use Rattle.lb_world.specs.History.{History};
ghost use Rattle.lb_world.specs.Meanings.{meaning_of};
ghost use Rattle.lb_world.specs.Rules.{key_gives};
ghost use Rattle.lb_world.specs.Shared.{key_by, started};
ghost use Rattle.lb_world.specs.Stands.{Stands};
ghost use Rattle.lb_world.specs.Steps as seen;
ghost use Rattle.lb_world.specs.Works.{world_value};

use super::Tables;
use crate::answer::Answer;
use crate::entry::Entry;
use crate::rule::WorldRegistry;
use crate::step::CellKey;
use lb_health_core::keys::Rule;
use lb_health_core::registry::Registry;
use lb_rebuild_core::gate::GateCore;
use lb_select_base::causes::least_refusal;
use lb_select_base::refusal::Refusal;
use lb_select_base::walk::BackendSelection;
use std::alloc::Global;

impl<S: BackendSelection> Tables<S> {
    pub(super) fn registry(&mut self, rule: CellKey, healthy: bool) -> Answer
        ensures { (h : History S.Config) → Stands (meaning_of S.BackendSelection) (world_value self.old) h
            → Stands (meaning_of S.BackendSelection) (world_value self.new)
            ((seen.registry rule healthy, result) ∷ h) }
    {
        let number = self.registries.len() as u64;
        let registry = started_registry(self.alloc, rule, healthy);
        let Ok(()) = self.registries.push(registry) else {
            return Answer::Refused(Refusal::OutOfMemory);
        };
        Answer::Registry(number)
    }

    pub(super) fn gate(&mut self) -> Answer
        ensures { (h : History S.Config) → Stands (meaning_of S.BackendSelection) (world_value self.old) h
            → Stands (meaning_of S.BackendSelection) (world_value self.new) ((seen.gate, result) ∷ h) }
    {
        let number = self.gates.len() as u64;
        let Ok(gate) = GateCore::new(self.alloc) else {
            return Answer::Refused(Refusal::OutOfMemory);
        };
        let Ok(()) = self.gates.push(gate) else {
            return Answer::Refused(Refusal::OutOfMemory);
        };
        Answer::Gate(number)
    }

    // Whether the registry and the gate of these numbers are there.
    fn has(&self, registry: u64, gate: u64) -> bool
        ensures { result ≡ in_tables (world_value self.now) registry gate }
    {
        registry < self.registries.len() as u64 && gate < self.gates.len() as u64
    }

    pub(super) fn group(&mut self, registry: u64, gate: u64, configs: Vec<S::Config>) -> Answer
        ensures { (h : History S.Config) → Stands (meaning_of S.BackendSelection) (world_value self.old) h
            → Stands (meaning_of S.BackendSelection) (world_value self.new)
            ((seen.group registry gate configs.items, result) ∷ h) }
    {
        if !self.has(registry, gate) {
            return Answer::Refused(absent_cause(least_refusal::<S>(self.alloc, &configs)));
        }
        let at = (registry as usize, gate as usize);
        let registry = &mut self.registries[at.0];
        let Ok(()) = self.groups.reserve(1) else {
            return Answer::Refused(starved_cause::<S>(self.alloc, registry, &configs));
        };
        let Ok(room) = Vec::with_capacity(self.alloc, configs.len()) else {
            return Answer::Refused(starved_cause::<S>(self.alloc, registry, &configs));
        };
        let number = self.groups.len() as u64;
        match Entry::new(self.alloc, at, registry, &self.gates[at.1], room, configs) {
            Ok(entry) => {
                self.groups.push_reserved(entry);
                Answer::Group(number)
            }
            Err(refusal) => Answer::Refused(refusal),
        }
    }
}

// Why no group is made where the registry or the gate isn't there: that, or the cause of its selectors where its number is less.
fn absent_cause(cause: Option<Refusal>) -> Refusal
    ensures { Some result ≡ earlier_of (Some Refusal.NoSuch) cause }
{
    match cause {
        Some(refusal) if refusal.number() < Refusal::NoSuch.number() => refusal,
        _ => Refusal::NoSuch,
    }
}

// Why no group is made where memory has no room for it: memory goes after every other cause, for which its selectors are built and
// dropped.
fn starved_cause<S: BackendSelection>(
    alloc: Global,
    registry: &WorldRegistry,
    configs: &[S::Config],
) -> Refusal
    ensures { (key_of : Member → Member) (events : List Event) → IsRegistryAfter key_gives key_of events registry.now
        → result ≡ or_memory (making_cause (least (map (S.refusal []) configs.now)) (registered_after events)) }
{
    match least_refusal::<S>(alloc, configs) {
        Some(refusal) => refusal,
        None if registry.is_full() => Refusal::NumbersExhausted,
        None => Refusal::OutOfMemory,
    }
}

// A registry without views by that rule, whose cells start healthy or not.
fn started_registry(alloc: Global, rule: CellKey, healthy: bool) -> WorldRegistry
    ensures { IsRegistryAfter key_gives (key_by rule) (started healthy) result }
{
    let registry = new_registry(alloc, rule);
    if healthy {
        return registry;
    }
    registry.start_unhealthy()
}

// A registry without views by that rule, whose cells start healthy.
fn new_registry(alloc: Global, rule: CellKey) -> WorldRegistry
    ensures { IsRegistryAfter key_gives (key_by rule) [] result }
{
    match rule {
        CellKey::Identity => Registry::with_rule(alloc, Rule::Identity),
        CellKey::Address => Registry::with_rule(alloc, Rule::Address),
    }
}

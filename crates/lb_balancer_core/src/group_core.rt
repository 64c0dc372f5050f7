//! A discovery with a group of slots, each of which serves a selector of its own that is rebuilt apart from an update.
ghost use Rattle.std.specs.Prelude.{◌≡◌, ◌↔◌, ◌<◌, ◌≤◌, ◌+◌, ◌∷◌, [], ℕ, length, map, Ok, Err, Some, None};
ghost use Rattle.std.specs.Prelude.{IfOk, IfErr, IsTrue, OnErr};
ghost use Rattle.lb_select_base.specs.Backends.{Member};
ghost use Rattle.lb_select_base.specs.Loads.{IsLoadAnswer, load_in};
ghost use Rattle.lb_select_base.specs.Refusals.{least};
ghost use Rattle.lb_rebuild_core.specs.SlotsCalls.{at_slot};
ghost use Rattle.lb_rebuild_core.specs.SlotsHistory.{newest, past_of, served, coalesced, failed, timing as timing_after};
ghost use Rattle.lb_rebuild_core.specs.SlotsHistory.{Cancelled, is_cancelled};
ghost use Rattle.lb_health_core.specs.Registry.{Grows, KeepsHistory};
ghost use Rattle.lb_health_core.specs.RegistryEvents.{Marked};
ghost use Rattle.lb_rebuild_core.specs.GroupCalls.{AcceptsBy, IsGroupMade, IsMade, IsSelected, served_at};
ghost use Rattle.lb_rebuild_core.specs.GroupHistory.{in_group, slot_events};
ghost use Rattle.lb_rebuild_core.specs.GroupStates.{After, Becomes, SameSite, Stands};
ghost use Rattle.lb_balancer_core.specs.GroupUpdates.{IsGroupUpdated, IsGroupRefusal};
ghost use Rattle.lb_balancer_core.specs.SlotConfigs.{slot_configs};
ghost use Rattle.lb_balancer_core.specs.Timings.{last_timing};

use crate::configured::{Configured, SlotConfig};
use crate::lent::LentGroupBackends;
use crate::slot_configs::{configs_of, least_cause};
use crate::timings::{SelectorUpdateTimings, UpdateTimings};
use lb_health_core::keys::KeyRule;
use lb_health_core::registry::Registry;
use lb_health_view::discovery::{BoxedDiscovery, DiscoverySource, ServiceDiscovery};
use lb_rebuild_core::answers::Selection;
use lb_rebuild_core::gate::GateCore;
use lb_rebuild_core::group::GroupCore;
use lb_rebuild_core::membership::Scheduled;
use lb_select_base::backend::Backend;
use lb_select_base::loads::Loads;
use lb_select_base::moments::MomentSource;
use lb_select_base::refusal::Refusal;
use lb_select_base::walk::BackendSelection;
use std::alloc::Global;

/// A discovery, the group that its backends reach, the loads by which its slots select, and how long the last accepted update took. The
/// group's own calls build, publish and destroy the selectors of its slots.
#[derive(Drop)]
pub struct LoadBalancerGroupCore<S: BackendSelection, D = BoxedDiscovery> {
    pub discovery: DiscoverySource<D>,
    pub group: GroupCore<Configured<S>>,
    pub loads: Loads,
    pub timing: Option<UpdateTimings>,
}

impl<S: BackendSelection, D: ServiceDiscovery + Drop> LoadBalancerGroupCore<S, D> {
    /// Returns a group of one slot for each configuration, with a view of its own in the registry, at generation 0. A slot without a
    /// configuration has that of `S::build`.
    ///
    /// # Errors
    ///
    /// The least cause for which one of the configurations gives no selector over no backends; where there is none, `NumbersExhausted`
    /// exactly where no number is left for a view, and else `OutOfMemory` where memory is refused. The registry is then as before.
    pub fn from_backends_with_configs<R: KeyRule + Drop>(
        alloc: Global,
        registry: &mut Registry<R>,
        gate: &GateCore,
        discovery: DiscoverySource<D>,
        configs: Vec<Option<S::Config>>,
    ) -> Result<LoadBalancerGroupCore<S, D>, Refusal>
        ensures group { IfOk result (λ b. IsGroupMade (slot_configs S.default_config configs.items) gate.now.id registry.old.id b.group) }
        ensures parts { IfOk result (λ b. (b.discovery ≡ discovery) × (b.timing ≡ None) × ((m : Member) → load_in b.loads m ≡ 0)) }
        ensures made { IsMade R.gives (least (map (S.refusal []) (slot_configs S.default_config configs.items))) registry.old result
            (λ b. b.group.view.id) registry.new }
    {
        match least_cause::<S>(alloc, configs.as_slice()) {
            Some(refusal) => return Err(refusal),
            None if registry.is_full() => return Err(Refusal::NumbersExhausted),
            None => {}
        }
        let configs: Vec<SlotConfig<S>> = configs_of(alloc, configs)?;
        match GroupCore::new(alloc, registry, gate, configs) {
            Ok(group) => Ok(LoadBalancerGroupCore {
                discovery,
                group,
                loads: Loads::new(),
                timing: None,
            }),
            Err(refusal) => Err(refusal),
        }
    }

    /// Gives the group this gate for its rebuilds, which other groups may share, before its first update.
    ///
    /// It takes no memory. A group is at generation 0 (`backend_generation`) until it is updated.
    pub fn with_rebuild_gate(&mut self, gate: &GateCore)
        requires { After self.old.group (λ made e. newest (slot_events e) ≡ 0) }
        ensures stands { After self.old.group (λ made e. Stands (record made { gate = gate.now.id }) e self.new.group) }
        ensures kept { self.new ≡ record self.old {
          group = record self.old.group {
            group = record self.old.group.group { gate = gate.now.id };
          };
        } }
    {
        self.group.with_rebuild_gate(gate);
    }

    /// Discovers, and schedules what was discovered in the group.
    ///
    /// The clock is read at the start and after the discovery; the second moment is that of the membership.
    ///
    /// # Errors
    ///
    /// `Discovery` where the discovery fails; `OutOfMemory` where it is refused memory; and those of `GroupCore::schedule`. Group,
    /// registry and timing are then as before.
    pub fn update<R: KeyRule + Drop, K: MomentSource>(
        &mut self,
        alloc: Global,
        registry: &mut Registry<R>,
        clock: &mut K,
    ) -> Result<Scheduled, Refusal>
        requires registry { registry.old.id ≡ self.old.group.registry }
        ensures updated { IfOk result (λ s. IsGroupUpdated D.finds R.gives self.old.discovery self.old.group registry.old
            K.reads clock.old clock.new self.new.group registry.new self.new.timing s) }
        ensures err { OnErr result (After self.old.group (λ made e. Stands made e self.new.group)) }
        ensures registry_err { OnErr result (KeepsHistory R.gives registry.old registry.new) }
        ensures timing_err { OnErr result (self.new.timing ≡ self.old.timing) }
        ensures refused { IfErr result (IsGroupRefusal D.finds R.gives self.old.discovery self.old.group registry.old) }
        ensures discovery { self.new.discovery ≡ self.old.discovery }
        ensures loads { self.new.loads ≡ self.old.loads }
        ensures site { SameSite self.old.group self.new.group }
        ensures one_registry { registry.new.id ≡ registry.old.id }
    {
        let start = clock.now();
        let (members, settings) = self.discovery.discover(alloc)?;
        let moment = clock.now();
        let scheduled = self
            .group
            .schedule(alloc, registry, members, settings, moment)?;
        self.timing = Some(UpdateTimings::without_build(start, moment));
        Ok(scheduled)
    }

    /// Selects the first ready backend of what a slot serves, as `GroupCore::select` does.
    pub fn select<R: KeyRule + Drop>(
        &mut self,
        alloc: Global,
        registry: &Registry<R>,
        slot: usize,
        key: &[u8],
        max_iterations: usize,
        random: &[u64],
    ) -> Selection
        requires registry { registry.now.id ≡ self.old.group.registry }
        ensures selected { IsSelected R.gives S.may_draw_random S.walks (λ right. right) (load_in self.old.loads) self.old.group
            registry.now slot key.now max_iterations random.now result self.new.group }
        ensures kept { self.new ≡ record self.old { group = self.new.group } }
    {
        self.group.select(
            alloc,
            registry,
            slot,
            key,
            max_iterations,
            random,
            &self.loads,
        )
    }

    /// Selects the first backend that `accept` takes, as `select` does the first ready one.
    ///
    /// `accept` is asked with a backend and whether it is ready.
    pub fn select_with<R: KeyRule + Drop, F: Fn(&Backend, bool) -> bool>(
        &mut self,
        alloc: Global,
        registry: &Registry<R>,
        slot: usize,
        key: &[u8],
        max_iterations: usize,
        random: &[u64],
        accept: &F,
    ) -> Selection
        requires accept { F.IsAlwaysCallable accept.now }
        requires registry { registry.now.id ≡ self.old.group.registry }
        ensures selected { IsSelected R.gives S.may_draw_random S.walks (AcceptsBy F.Fn accept.now) (load_in self.old.loads)
            self.old.group registry.now slot key.now max_iterations random.now result self.new.group }
        ensures kept { self.new ≡ record self.old { group = self.new.group } }
    {
        self.group.select_with(
            alloc,
            registry,
            slot,
            key,
            max_iterations,
            random,
            &self.loads,
            accept,
        )
    }

    /// Sets the load of a backend's identity, for all slots whose selectors go by loads.
    ///
    /// Refused for memory alone, and then nothing is set.
    pub fn set_load(&mut self, alloc: Global, backend: &Backend, load: u64) -> Result<(), Refusal>
        ensures loads { IsLoadAnswer (load_in self.old.loads) backend.now load result (load_in self.new.loads) }
        ensures kept { self.new ≡ record self.old { loads = self.new.loads } }
    {
        self.loads.set(alloc, backend, load)
    }

    /// Stops the rebuilds for good, and marks the view for removal, as `GroupCore::cancel` does; selections and readings go on.
    pub fn cancel<R: KeyRule + Drop>(&mut self, registry: &mut Registry<R>)
        requires { registry.old.id ≡ self.old.group.registry }
        ensures stands { Becomes self.old.group (in_group (Cancelled ∷ [])) self.new.group }
        ensures kept { self.new ≡ record self.old { group = self.new.group } }
        ensures site { SameSite self.old.group self.new.group }
        ensures registry { Grows R.gives registry.old (λ events. Marked self.old.group.view.id ∷ events) registry.new }
        ensures one_registry { registry.new.id ≡ registry.old.id }
    {
        self.group.cancel(registry);
    }

    /// Returns whether the group is cancelled.
    pub fn is_cancelled(&self) -> bool
        ensures { After self.now.group (λ made e. result ≡ is_cancelled (slot_events e)) }
    {
        self.group.is_cancelled()
    }

    /// Returns how many slots there are.
    pub fn selector_count(&self) -> usize
        ensures { After self.now.group (λ made e. result ≡ length made.configs) }
    {
        for slot in 0..usize::MAX {
            if self.group.served(slot).is_none() {
                return slot;
            }
        }
        usize::MAX
    }

    /// Returns the newest generation of the backends; 0 before the first membership.
    pub fn backend_generation(&self) -> u64
        ensures { After self.now.group (λ made e. result ≡ newest (slot_events e)) }
    {
        self.group.newest()
    }

    /// Returns the generation that a slot serves, or `None` where no such slot is there.
    pub fn selector_generation(&self, slot: usize) -> Option<u64>
        ensures { After self.now.group (λ made e. result ≡ at_slot made slot (served (past_of slot (slot_events e)))) }
    {
        self.group.served(slot)
    }

    /// Returns whether each slot serves this generation or a newer one; true without slots.
    pub fn selectors_ready_for(&self, generation: u64) -> bool
        ensures { After self.now.group (λ made e. IsTrue result
            ↔ ((slot : ℕ) → slot < length made.configs → generation ≤ served_at slot e)) }
    {
        for slot in 0..usize::MAX {
            match self.group.served(slot) {
                None => return true,
                Some(served) if served < generation => return false,
                Some(_) => {}
            }
        }
        true
    }

    /// Returns the timing of a slot's last publication, or `None` before the first and where no such slot is there.
    pub fn selector_last_update_timing(&self, slot: usize) -> Option<SelectorUpdateTimings>
        ensures { After self.now.group (λ made e. result
            ≡ last_timing (at_slot made slot (timing_after (past_of slot (slot_events e))))) }
    {
        match self.group.timing(slot) {
            Some(Some(timing)) => Some(timing.into()),
            Some(None) | None => None,
        }
    }

    /// Returns how many memberships came while an earlier one waited in a slot, or `None` where no such slot is there.
    pub fn selector_coalesced_rebuilds(&self, slot: usize) -> Option<u64>
        ensures { After self.now.group (λ made e. result ≡ at_slot made slot (coalesced (past_of slot (slot_events e)))) }
    {
        let counts = self.group.counts(slot)?;
        Some(counts.coalesced)
    }

    /// Returns how many builds of a slot failed, up to 18446744073709551615, or `None` where no such slot is there.
    pub fn selector_failed_rebuilds(&self, slot: usize) -> Option<u64>
        ensures { After self.now.group (λ made e. result ≡ at_slot made slot (failed (past_of slot (slot_events e)))) }
    {
        let counts = self.group.counts(slot)?;
        Some(counts.failed)
    }

    /// Returns a borrow of the backends with the registry: readings, their flags and the checks.
    pub fn backends<'a, 'x, R: KeyRule + Drop>(
        &'a mut self,
        registry: &'x mut Registry<R>,
    ) -> LentGroupBackends<'a, 'x, S, D, R>
        requires registry { registry.old.id ≡ self.old.group.registry }
        ensures same_references { (result.balancer.ghost_name ≡ self.entry.ghost_name)
            × (result.registry.ghost_name ≡ registry.entry.ghost_name) }
        ensures same { (result.balancer.now ≡ self.old) × (result.registry.now ≡ registry.old) }
    {
        LentGroupBackends {
            balancer: self,
            registry,
        }
    }

    /// Returns how long the last accepted update took; `None` before the first.
    pub fn last_update_timing(&self) -> Option<UpdateTimings>
        ensures { result ≡ self.now.timing }
    {
        self.timing
    }
}

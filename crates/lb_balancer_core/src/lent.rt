//! The backends of a balancer, borrowed with their registry: readings, flags and checks, but no call that updates them.
ghost use Rattle.std.specs.Prelude.{◌≡◌, ◌↔◌, ◌∷◌, Err, IfOk, IsTrue, OnErr};
ghost use Rattle.std.specs.Arc.{arc_value};
ghost use Rattle.lb_health_core.specs.Registry.{HoldsOf};
ghost use Rattle.lb_rebuild_core.specs.SlotsHistory.{newest};
ghost use Rattle.lb_health_view.specs.Passes.{IsPassed};
ghost use Rattle.lb_health_view.specs.RegistrySide.{IsReady};
ghost use Rattle.lb_health_view.specs.ViewEvents.{generation_after};
ghost use Rattle.lb_rebuild_core.specs.GroupHistory as history;
ghost use Rattle.lb_rebuild_core.specs.GroupHistory.{slot_events};
ghost use Rattle.lb_rebuild_core.specs.GroupStates as group;
ghost use Rattle.lb_balancer_core.specs.Balancer.{After, Judges, Set, Stands, members_now, view_events};

use crate::balancer_core::LoadBalancerCore;
use crate::group_core::LoadBalancerGroupCore;
use lb_health_core::health_check::HealthCheck;
use lb_health_core::keys::{ByNumber, KeyRule, Rule};
use lb_health_core::registry::Registry;
use lb_health_view::discovery::BoxedDiscovery;
use lb_health_view::passes::run_health_check;
use lb_select_base::backend::Backend;
use lb_select_base::refusal::Refusal;
use lb_select_base::walk::BackendSelection;
use log::Log;
use rand_core::Rng;
use rand_pcg::Pcg64;
use std::alloc::Global;
use std::collections::BTreeSet;
use std::sync::Arc;

/// The backends of a balancer, borrowed from it with its registry.
#[derive(Drop)]
pub struct LentBackends<
    'a,
    'x,
    S: BackendSelection,
    G: Drop = Pcg64,
    D = BoxedDiscovery,
    R = Rule<ByNumber>,
> {
    pub(crate) balancer: &'a mut LoadBalancerCore<S, G, D>,
    pub(crate) registry: &'x mut Registry<R>,
}

impl<'a, 'x, S: BackendSelection, G: Rng + Drop, D, R: KeyRule + Drop> LentBackends<
    'a,
    'x,
    S,
    G,
    D,
    R,
> {
    /// Returns the newest generation; 0 before the first membership.
    pub fn generation(&self) -> u64
        ensures { After self.now.balancer.now.served (λ e. result ≡ generation_after (view_events e)) }
    {
        let balancer = &*self.balancer;
        balancer.served.generation()
    }

    /// Returns the newest membership.
    ///
    /// Refused `OutOfMemory` where std refuses one more owner.
    pub fn get_backend(&self) -> Result<Arc<BTreeSet<Backend>>, Refusal>
        ensures members { IfOk result (λ set. After self.now.balancer.now.served (λ e. (arc_value set).keys ≡ members_now e)) }
        ensures refused { OnErr result (result ≡ Err Refusal.OutOfMemory) }
    {
        let balancer = &*self.balancer;
        balancer.served.get_backend()
    }

    /// Returns whether a backend is ready in the newest membership, without taking memory.
    pub fn ready(&self, backend: &Backend) -> bool
        ensures { HoldsOf R.gives self.now.registry.now (λ key_of events. After self.now.balancer.now.served
            (λ e. Judges key_of events e backend.now result)) }
    {
        let balancer = &*self.balancer;
        let registry = &*self.registry;
        balancer.served.ready(registry, backend)
    }

    /// Enables or disables a backend that a living snapshot lists, by identity; another is left alone.
    ///
    /// It takes no memory.
    pub fn set_enable(&mut self, backend: &Backend, enabled: bool)
        ensures same_references { (self.new.balancer.ghost_name ≡ self.old.balancer.ghost_name)
            × (self.new.registry.ghost_name ≡ self.old.registry.ghost_name) }
        ensures stands { After self.old.balancer.now.served (λ e. Stands (Set backend.now enabled ∷ e) self.new.balancer.now.served) }
        ensures kept { self.new.balancer.now ≡ record self.old.balancer.now {
          served = record self.old.balancer.now.served { view = self.new.balancer.now.served.view };
        } }
        ensures registry { self.new.registry.now ≡ self.old.registry.now }
    {
        let balancer = &mut *self.balancer;
        balancer.served.set_enable(backend, enabled);
    }

    /// Checks the targets of the whole registry, one after another.
    ///
    /// # Errors
    ///
    /// `NumbersExhausted` exactly where no number is left for a cell, `OutOfMemory` where memory is refused; each before the first
    /// check.
    pub fn run_health_check<C: HealthCheck, L: Log>(
        &mut self,
        rt: &L,
        alloc: Global,
        check: &C,
    ) -> Result<(), Refusal>
        ensures same_references { (self.new.balancer.ghost_name ≡ self.old.balancer.ghost_name)
            × (self.new.registry.ghost_name ≡ self.old.registry.ghost_name) }
        ensures passed { IsPassed R.gives (C.answers check.now) (C.threshold check.now) self.old.registry.now result
            self.new.registry.now }
        ensures balancer { self.new.balancer.now ≡ self.old.balancer.now }
    {
        let registry = &mut *self.registry;
        run_health_check(rt, alloc, registry, check)
    }
}

/// The backends of a group balancer, borrowed from it with its registry.
#[derive(Drop)]
pub struct LentGroupBackends<'a, 'x, S: BackendSelection, D = BoxedDiscovery, R = Rule<ByNumber>> {
    pub(crate) balancer: &'a mut LoadBalancerGroupCore<S, D>,
    pub(crate) registry: &'x mut Registry<R>,
    ghost tied: { registry.now.id ≡ balancer.now.group.registry },
}

impl<'a, 'x, S: BackendSelection, D, R: KeyRule + Drop> LentGroupBackends<'a, 'x, S, D, R> {
    /// Returns the newest generation; 0 before the first membership.
    pub fn generation(&self) -> u64
        ensures { group.After self.now.balancer.now.group (λ made e. result ≡ newest (slot_events e)) }
    {
        let balancer = &*self.balancer;
        balancer.group.newest()
    }

    /// Returns the newest membership.
    ///
    /// Refused `OutOfMemory` where std refuses one more owner.
    pub fn get_backend(&self) -> Result<Arc<BTreeSet<Backend>>, Refusal>
        ensures members { IfOk result (λ set. group.After self.now.balancer.now.group
            (λ made e. (arc_value set).keys ≡ history.members_now e)) }
        ensures refused { OnErr result (result ≡ Err Refusal.OutOfMemory) }
    {
        let balancer = &*self.balancer;
        balancer.group.get_backend()
    }

    /// Returns whether a backend is ready in the newest membership, without taking memory.
    pub fn ready(&self, backend: &Backend) -> bool
        ensures { HoldsOf R.gives self.now.registry.now (λ key_of events. group.After self.now.balancer.now.group
            (λ made e. IsTrue result ↔ IsReady key_of (group.views_of made e) events (newest (slot_events e)) backend.now)) }
    {
        let balancer = &*self.balancer;
        let registry = &*self.registry;
        balancer.group.newest_ready(registry, backend)
    }

    /// Enables or disables a backend that a living snapshot lists, by identity; another is left alone.
    ///
    /// It takes no memory.
    pub fn set_enable(&mut self, backend: &Backend, enabled: bool)
        ensures same_references { (self.new.balancer.ghost_name ≡ self.old.balancer.ghost_name)
            × (self.new.registry.ghost_name ≡ self.old.registry.ghost_name) }
        ensures stands { group.After self.old.balancer.now.group
            (λ made e. group.Stands made (history.Set backend.now enabled ∷ e) self.new.balancer.now.group) }
        ensures site { group.SameSite self.old.balancer.now.group self.new.balancer.now.group }
        ensures kept { self.new.balancer.now ≡ record self.old.balancer.now { group = self.new.balancer.now.group } }
        ensures registry { self.new.registry.now ≡ self.old.registry.now }
    {
        let balancer = &mut *self.balancer;
        balancer.group.set_enable(backend, enabled);
    }

    /// Checks the targets of the whole registry, one after another.
    ///
    /// # Errors
    ///
    /// `NumbersExhausted` exactly where no number is left for a cell, `OutOfMemory` where memory is refused; each before the first
    /// check.
    pub fn run_health_check<C: HealthCheck, L: Log>(
        &mut self,
        rt: &L,
        alloc: Global,
        check: &C,
    ) -> Result<(), Refusal>
        ensures same_references { (self.new.balancer.ghost_name ≡ self.old.balancer.ghost_name)
            × (self.new.registry.ghost_name ≡ self.old.registry.ghost_name) }
        ensures passed { IsPassed R.gives (C.answers check.now) (C.threshold check.now) self.old.registry.now result
            self.new.registry.now }
        ensures balancer { self.new.balancer.now ≡ self.old.balancer.now }
    {
        let registry = &mut *self.registry;
        run_health_check(rt, alloc, registry, check)
    }
}

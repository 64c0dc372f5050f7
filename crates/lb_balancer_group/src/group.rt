//! `LoadBalancerGroup`: a group of slots as its users own it. Updates, selections and readings need a borrow only; workers build
//! meanwhile. Its drop takes no lock: its workers cancel it, and the registry's next call removes its view.
ghost use Rattle.std.specs.Prelude.{◌≡◌, ◌+◌, [], None, Err, false, map, length, IfErr, IfOk, OnErr, OnOk};
ghost use Rattle.std.specs.Arc.{arc_value};
ghost use Rattle.lb_select_base.specs.Refusals.{least};
ghost use Rattle.lb_rebuild_core.specs.GroupCalls.{IsMakingRefusal};
ghost use Rattle.lb_health_view.specs.Discoveries.{FoundBy};
ghost use Rattle.lb_balancer_core.specs.Looks.{Answers};
ghost use Rattle.lb_threads_core.specs.Registry.{SeenIn, UnderRegistry};
ghost use Rattle.lb_threads_core.specs.View.{HasNumber, HasRegistered, IsFull, IsMadeWithView};
ghost use Rattle.lb_threads_group.specs.Group.{UpdatedUnder};
ghost use Rattle.lb_threads_group.specs.Kept.{SelectedFrom};
ghost use Rattle.lb_balancer_core.specs.SlotConfigs.{slot_configs};
ghost use Rattle.lb_balancer_group.specs.Made.{IsGateRefusal, IsNewGroup};

use crate::gate_refusal::GateRefusal;
use crate::making::{first_cause, opened, own_gate};
use lb_balancer_core::configured::{Configured, SlotConfig};
use lb_balancer_core::slot_configs::configs_of;
use lb_health_core::health_check::{BoxedCheck, HealthCheck};
use lb_health_core::keys::{KeyRule, Rule};
use lb_health_view::discovery::{BoxedDiscovery, DiscoverySource, ServiceDiscovery};
use lb_rebuild_core::group::ready_ones;
use lb_select_base::backend::Backend;
use lb_select_base::causes::least_refusal;
use lb_select_base::moments::MomentSource;
use lb_select_base::refusal::Refusal;
use lb_select_base::walk::BackendSelection;
use lb_threads_core::backends::{Backends, BackendsParts};
use lb_threads_core::gate::SelectorRebuildGate;
use lb_threads_core::keyed::NoRule;
use lb_threads_core::owner::ViewOwner;
use lb_threads_core::registry::HealthRegistry;
use lb_threads_group::group::SharedGroup;
use std::alloc::Global;
use std::sync::{Arc, Wait};

/// A group of slots, each of which serves a selector of its own. Its frequencies are set before threads share it.
///
/// Its drop takes no lock and no memory: its workers cancel it at their next turn, let a build that runs end, destroy what their slots
/// retired and end; the next call of the registry marks its view for removal, so that its backends are checked no longer, and releases the
/// cells that the view keeps.
pub struct LoadBalancerGroup<
    S: BackendSelection,
    D: Drop = BoxedDiscovery,
    R: KeyRule + Drop = Rule<NoRule>,
    C: HealthCheck + Drop = BoxedCheck,
> {
    pub(crate) discovery: DiscoverySource<D>,
    pub(crate) registry: Arc<HealthRegistry<R, C>>,
    pub(crate) owns_checks: bool,
    // What the slots are built with.
    configs: Vec<SlotConfig<S>>,
    pub(crate) shared: Arc<SharedGroup<Configured<S>, R, C>>,
    view: ViewOwner,
    /// How often checks run, in nanoseconds; once where it is `None`.
    pub health_check_frequency: Option<u128>,
    /// How often backends are discovered, in nanoseconds; once where it is `None`.
    pub update_frequency: Option<u128>,
    /// Whether the checks of one pass run at the same time.
    pub parallel_health_check: bool,
}

impl<S: BackendSelection, D: Drop, R: KeyRule + Drop, C: HealthCheck + Drop> Drop
    for LoadBalancerGroup<S, D, R, C> {
    fn drop(self) {
        let LoadBalancerGroup {
            discovery: _,
            registry: _,
            owns_checks: _,
            configs: _,
            shared,
            view: _,
            health_check_frequency: _,
            update_frequency: _,
            parallel_health_check: _,
        } = self;
        shared.let_go();
    }
}

impl<
    S: BackendSelection,
    D: ServiceDiscovery + Drop,
    R: KeyRule + Drop,
    C: HealthCheck + Drop,
> LoadBalancerGroup<S, D, R, C> {
    /// Returns a group of one slot for each configuration, with a gate of its own. A slot without a configuration has that of `S::build`.
    /// No worker runs yet.
    ///
    /// It has a view of its own, at generation 0, in the registry of `backends`, whose own view leaves.
    ///
    /// # Errors
    ///
    /// The least cause for which one of the configurations gives no selector over no backends; where there is none,
    /// `NumbersExhausted` where no number is left for a view, and else `OutOfMemory` where memory is refused. The registry has no
    /// view of it then.
    pub fn from_backends_with_configs<W: Wait>(
        rt: &W,
        alloc: Global,
        backends: Backends<D, R, C>,
        configs: Vec<Option<S::Config>>,
    ) -> Result<LoadBalancerGroup<S, D, R, C>, Refusal>
        ensures made { IfOk result (λ g. IsNewGroup (slot_configs S.default_config configs.items) (arc_value g.shared).core) }
        ensures words { IfOk result (λ g. (arc_value g.shared).board.words ≡ length configs.items + 1) }
        ensures registry { IfOk result (λ g. (arc_value g.shared).registry ≡ backends.registry.start) }
        ensures view { IsMadeWithView R.gives backends.registry.start
            (least (map (S.refusal []) (slot_configs S.default_config configs.items))) result
            (λ g. (arc_value g.shared).core.view.id) }
        ensures parts { IfOk result (λ g. (g.discovery ≡ backends.discovery) × (g.owns_checks ≡ backends.owns_checks)
            × (arc_value g.registry ≡ backends.registry) × (g.configs.items ≡ slot_configs S.default_config configs.items)) }
        ensures settings { IfOk result (λ g. (g.health_check_frequency ≡ None) × (g.update_frequency ≡ None)
            × (g.parallel_health_check ≡ false)) }
        ensures refused { IsMakingRefusal (least (map (S.refusal []) (slot_configs S.default_config configs.items))) result }
    {
        let BackendsParts {
            discovery,
            registry,
            owns_checks,
        } = backends.into_parts();
        if let Some(refusal) = first_cause::<S, R, C, W>(
            rt,
            alloc,
            &*registry,
            configs.as_slice(),
        ) {
            return Err(refusal);
        }
        let configs: Vec<SlotConfig<S>> = configs_of(alloc, configs)?;
        let gate = own_gate(alloc)?;
        let (shared, view) = opened(rt, alloc, &registry, configs.as_slice(), gate)?;
        Ok(LoadBalancerGroup {
            discovery,
            registry,
            owns_checks,
            configs,
            shared,
            view,
            health_check_frequency: None,
            update_frequency: None,
            parallel_health_check: false,
        })
    }

    /// Gives the group this gate for its rebuilds, which other groups may share. It is for a group that no thread uses yet.
    ///
    /// The group is made again from its parts, with a new view of the registry, without loads, workers and timing; what was before ends
    /// as by a drop of the group.
    ///
    /// # Errors
    ///
    /// `WasUpdated` where the group is past generation 0; `NotMade` for the causes of `from_backends_with_configs`. The group is then as
    /// before, and the registry has no view more.
    pub fn with_rebuild_gate<W: Wait>(
        &mut self,
        rt: &W,
        alloc: Global,
        gate: Arc<SelectorRebuildGate>,
    ) -> Result<(), GateRefusal>
        ensures made { OnOk result (IsNewGroup self.old.configs.items (arc_value self.new.shared).core) }
        ensures gate { OnOk result ((arc_value self.new.shared).core.group.gate ≡ (arc_value gate).id) }
        ensures words { OnOk result ((arc_value self.new.shared).board.words ≡ length self.old.configs.items + 1) }
        ensures registry { OnOk result ((arc_value self.new.shared).registry ≡ (arc_value self.old.registry).start) }
        ensures registered { OnOk result (UnderRegistry R.gives (arc_value self.old.registry).start
            (HasRegistered R.gives (arc_value self.new.shared).core.view.id)) }
        ensures exhausted { result ≡ Err (GateRefusal.NotMade Refusal.NumbersExhausted)
            → least (map (S.refusal []) self.old.configs.items) ≡ None
            → SeenIn R.gives (arc_value self.old.registry).start (IsFull R.gives) }
        ensures left { result ≡ Err (GateRefusal.NotMade Refusal.OutOfMemory)
            → least (map (S.refusal []) self.old.configs.items) ≡ None
            → SeenIn R.gives (arc_value self.old.registry).start (HasNumber R.gives) }
        ensures parts { (self.new.discovery ≡ self.old.discovery) × (self.new.owns_checks ≡ self.old.owns_checks)
            × (self.new.registry ≡ self.old.registry) × (self.new.configs ≡ self.old.configs) }
        ensures settings { (self.new.health_check_frequency ≡ self.old.health_check_frequency)
            × (self.new.update_frequency ≡ self.old.update_frequency)
            × (self.new.parallel_health_check ≡ self.old.parallel_health_check) }
        ensures refused { IsGateRefusal (arc_value self.old.shared).core (least (map (S.refusal []) self.old.configs.items)) result }
        ensures refused_stays { OnErr result (self.new ≡ self.old) }
    {
        if self.backend_generation(rt) > 0 {
            return Err(GateRefusal::WasUpdated);
        }
        if let Some(refusal) = least_refusal::<Configured<S>>(alloc, self.configs.as_slice()) {
            return Err(GateRefusal::NotMade(refusal));
        }
        let (shared, view) = opened(rt, alloc, &self.registry, self.configs.as_slice(), gate)?;
        self.shared.let_go();
        self.shared = shared;
        self.view = view;
        Ok(())
    }

    /// Discovers, and makes what was discovered the newest membership. Returns the newest generation after it.
    ///
    /// One update runs at a time. The clock is read at the start and after the discovery. Workers build the selectors.
    ///
    /// # Errors
    ///
    /// Those of `SharedGroup::update`; the timing is then as before.
    pub fn update<W: Wait, K: MomentSource>(
        &self,
        rt: &W,
        alloc: Global,
        clock: &mut K,
    ) -> Result<u64, Refusal>
        ensures { UpdatedUnder R.gives K.reads (FoundBy D.finds) self.now.discovery clock.old (arc_value self.now.shared) result clock.new }
    {
        let shared: &SharedGroup<Configured<S>, R, C> = &*self.shared;
        shared.update(rt, alloc, &self.discovery, clock)
    }

    /// Returns the first ready backend among the distinct of the first `max_iterations` candidates of what the slot serves, or `None`.
    ///
    /// It is `None` too where no such slot is there.
    ///
    /// # Errors
    ///
    /// Those of `select_with`.
    pub fn select<W: Wait>(
        &self,
        rt: &W,
        alloc: Global,
        slot: usize,
        key: &[u8],
        max_iterations: usize,
    ) -> Result<Option<Backend>, Refusal>
        ensures { SelectedFrom R.gives (λ b ready a. a ≡ ready) max_iterations S.walks key.now (arc_value self.now.shared) slot
            result }
    {
        self.select_with(rt, alloc, slot, key, max_iterations, &ready_ones)
    }

    /// Returns the first backend that `accept` takes among the distinct candidates of what the slot serves, or `None`.
    ///
    /// `accept` is asked with a backend and whether it is ready, while no lock is held. Only the first `max_iterations` candidates are
    /// looked at. It is `None` too where no such slot is there.
    ///
    /// A reader enters the slot for it. Then it leaves, or a lane of the slot keeps it for the selections that follow, in a cancelled group
    /// too. They take a lock only where `SharedGroup::select_with` says so, which also says how lanes are filled and emptied.
    ///
    /// # Errors
    ///
    /// Those of `SharedGroup::select_with`.
    pub fn select_with<W: Wait, F: Fn(&Backend, bool) -> bool>(
        &self,
        rt: &W,
        alloc: Global,
        slot: usize,
        key: &[u8],
        max_iterations: usize,
        accept: &F,
    ) -> Result<Option<Backend>, Refusal>
        requires { F.IsAlwaysCallable accept.now }
        ensures { SelectedFrom R.gives (λ b ready a. Answers F.Fn accept.now b ready a) max_iterations S.walks key.now
            (arc_value self.now.shared) slot result }
    {
        let shared: &SharedGroup<Configured<S>, R, C> = &*self.shared;
        shared.select_with(rt, alloc, slot, key, max_iterations, accept)
    }

    /// Returns the group itself, for threads that hold it beyond a borrow or take its workers' turns.
    ///
    /// It is cancelled with this handle, and a backend whose cell no other view keeps isn't ready in it from then on.
    pub fn shared(&self) -> &Arc<SharedGroup<Configured<S>, R, C>>
        ensures { result.now ≡ self.now.shared }
    {
        &self.shared
    }

    /// Sets the check of the registry.
    ///
    /// Refused `HealthCheckSet` where one is set, which stays.
    pub fn set_health_check<W: Wait>(&self, rt: &W, check: C) -> Result<(), Refusal>
        ensures { IfErr result (λ e. e ≡ Refusal.HealthCheckSet) }
    {
        self.registry.set_health_check(rt, check)
    }

    /// Sets the load of a backend's identity, for all slots whose selectors go by loads.
    ///
    /// Refused `OutOfMemory` where memory is refused; nothing is set then.
    pub fn set_load<W: Wait>(
        &self,
        rt: &W,
        alloc: Global,
        backend: &Backend,
        load: u64,
    ) -> Result<(), Refusal>
        ensures { IfErr result (λ e. e ≡ Refusal.OutOfMemory) }
    {
        self.shared.set_load(rt, alloc, backend, load)
    }

    /// Stops the rebuilds for good, and marks the view for removal; selections and readings go on as before.
    pub fn cancel<W: Wait>(&self, rt: &W) {
        self.shared.cancel(rt);
    }
}

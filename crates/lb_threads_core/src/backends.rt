//! The backends of a discovery: its view in a registry that others may share, as a type that threads share. Locks are taken in the order
//! update, view, registry. Nothing is discovered under the last two, and a caller's function runs under neither.
ghost use Rattle.std.specs.Prelude.{◌≡◌, ◌+◌, ◌^◌, ◌≤◌, ◌∷◌, [], List, IfErr, IfOk, IsErrOf, IsTrue, OnErr, Err, true, false};
ghost use Rattle.std.specs.Arc.{arc_value};
ghost use Rattle.std.specs.BTreeSet.{BTreeSet};
ghost use Rattle.std.specs.Fn.{FnOnceReturnsAt};
ghost use Rattle.std.proofs.Common.{Global};
ghost use Rattle.lb_select_base.specs.Backends.{Member};
ghost use Rattle.lb_health_core.specs.Keys.{by_identity, rule_gives};
ghost use Rattle.lb_health_core.specs.Registry.{IsGrowthRefusal, IsRegistryAfter};
ghost use Rattle.lb_health_core.specs.RegistryEvents.{Applied, Registered};
ghost use Rattle.lb_health_view.specs.Discoveries.{MayFault};
ghost use Rattle.lb_health_view.specs.RegistrySide.{settings_of};
ghost use Rattle.lb_health_view.specs.Updates.{IsBackendsRefusal};
ghost use Rattle.lb_health_view.specs.ViewEvents.{ViewEvent, Set, generation_after, membership_after};
ghost use Rattle.lb_health_view.specs.Views.{IsFounded, IsViewAfter, IsViewRefusal};
ghost use Rattle.lb_threads_core.specs.Registry.{UnderRegistry};
ghost use Rattle.lb_threads_core.specs.View.{After, IsRegisteredAs, IsState, IsTakenIn, JudgedUnder, RefusedFor, Seen, Under, UpdatedUnder};

use crate::keyed::NoRule;
use crate::lock::{KeyedLock, TakenValue};
use crate::owner::ViewOwner;
use crate::registry::HealthRegistry;
use crate::rule::LockRule;
use lb_health_core::health_check::{BoxedCheck, HealthCheck};
use lb_health_core::keys::{KeyRule, Rule};
use lb_health_core::registry::Registry;
use lb_health_view::discovery::{BoxedDiscovery, DiscoverySource, ServiceDiscovery};
use lb_health_view::view::{Settings, ViewCore};
use lb_select_base::backend::Backend;
use lb_select_base::refusal::Refusal;
use log::Log;
use std::alloc::Global;
use std::collections::BTreeSet;
use std::marker::Model;
use std::sync::{Arc, Mutex, Wait};
use std::thread::Threads;

/// The view under the lock is the one that the lock was made with, after some history.
pub struct OfView {}

impl LockRule<ViewCore, u64> for OfView {
    ghost holds = { λ id view. IsState id view };
}

/// A discovery, and its view in a registry of health that others may share. Contracts see the discovery, the number of the view, the
/// registry as it was when it came under its lock, and whether a balancer or group of these backends runs the registry's checks.
///
/// Its drop takes no lock and no memory: the next call of the registry removes the view.
#[derive(Drop)]
pub struct Backends<D = BoxedDiscovery, R: KeyRule + Drop = Rule<NoRule>, C = BoxedCheck> {
    discovery: DiscoverySource<D>,
    registry: Arc<HealthRegistry<R, C>>,
    owner: ViewOwner,
    // Held by an update from its discovery to the end of the caller's function.
    updates: Mutex<()>,
    view: KeyedLock<ViewCore, u64, OfView>,
    owns_checks: bool,
}

/// The name of `Backends` where it is the view of a registry.
pub type BackendView<D = BoxedDiscovery, R = Rule<NoRule>, C = BoxedCheck> = Backends<D, R, C>;

impl<D, R: KeyRule + Drop, C> Model for Backends<D, R, C> {
    ghost use Rattle.std.specs.Arc.{arc_value};
    ghost use Rattle.lb_threads_core.specs.View.{ViewHandle};

    ghost Value = { ViewHandle D R };

    ghost view = { λ b. record {
      discovery = b.discovery;
      id = b.view.table.shared.key;
      registry = arc_value b.registry;
      lock = b.view.table.shared.table_id;
      owns_checks = b.owns_checks;
    } };
}

/// What backends are made of, but for their view.
#[derive(Drop)]
pub struct BackendsParts<D = BoxedDiscovery, R: KeyRule + Drop = Rule<NoRule>, C = BoxedCheck> {
    /// Where the backends come from.
    pub discovery: DiscoverySource<D>,
    /// The registry of health, which others may share.
    pub registry: Arc<HealthRegistry<R, C>>,
    /// Whether a balancer or group of these backends runs the checks of the registry.
    pub owns_checks: bool,
}

impl<D: ServiceDiscovery + Drop, N: KeyRule + Drop, C: HealthCheck + Drop> Backends<D, Rule<N>, C> {
    /// Returns a view of this discovery in a registry of its own, keyed by identity, without a check. Their balancer or group runs its
    /// checks.
    ///
    /// It is at generation 0, without backends.
    ///
    /// # Errors
    ///
    /// `OutOfMemory` where memory is refused.
    pub fn new<W: Wait>(
        rt: &W,
        alloc: Global,
        discovery: DiscoverySource<D>,
    ) -> Result<Backends<D, Rule<N>, C>, Refusal>
        ensures parts { IfOk result (λ b. (b.discovery ≡ discovery) × (b.owns_checks ≡ true) × (b.id ≡ 1)) }
        ensures registry { IfOk result (λ b. IsRegistryAfter (rule_gives N.gives) by_identity (Applied ∷ Registered ∷ [])
            b.registry.start) }
        ensures refused { IfErr result (λ e. e ≡ Refusal.OutOfMemory) }
    {
        let mut registry = Registry::with_rule(alloc, Rule::Identity);
        let view = ViewCore::register(alloc, &mut registry)?;
        let registry = HealthRegistry::over(alloc, registry)?;
        let registry = Arc::new(alloc, registry)?;
        Backends::behind(rt, alloc, discovery, registry, view, true)
    }
}

impl<D: ServiceDiscovery + Drop, R: KeyRule + Drop, C: HealthCheck + Drop> Backends<D, R, C> {
    /// Returns a view of this discovery, registered in the registry: generation 0, without backends. Their balancer or group doesn't run
    /// the registry's checks.
    ///
    /// No checks run before a caller or a service runs them.
    ///
    /// # Errors
    ///
    /// `NumbersExhausted` where no number is left for a view, whatever memory is left; `OutOfMemory` where memory is refused. The
    /// registry has no such view then, or removes it with its next call.
    pub fn new_with_health_registry<W: Wait>(
        rt: &W,
        alloc: Global,
        discovery: DiscoverySource<D>,
        registry: Arc<HealthRegistry<R, C>>,
    ) -> Result<Backends<D, R, C>, Refusal>
        ensures made { IfOk result (λ b. (b.discovery ≡ discovery) × (b.registry ≡ arc_value registry) × (b.owns_checks ≡ false)) }
        ensures registered { UnderRegistry R.gives (arc_value registry).start (IsRegisteredAs R.gives (λ b. b.id) result) }
        ensures refused { OnErr result (IsGrowthRefusal result) }
    {
        let view = registered_view(rt, alloc, &*registry)?;
        Backends::behind(rt, alloc, discovery, registry, view, false)
    }

    // The backends with this view of their registry.
    fn behind<W: Wait>(
        rt: &W,
        alloc: Global,
        discovery: DiscoverySource<D>,
        registry: Arc<HealthRegistry<R, C>>,
        view: ViewCore,
        owns_checks: bool,
    ) -> Result<Backends<D, R, C>, Refusal>
        requires { IsFounded view }
        ensures made { IfOk result (λ b. (b.discovery ≡ discovery) × (b.registry ≡ arc_value registry) × (b.owns_checks ≡ owns_checks)) }
        ensures id { IfOk result (λ b. b.id ≡ view.id) }
        ensures refused { IfErr result (λ e. e ≡ Refusal.OutOfMemory) }
    {
        let id = view.id();
        let owner = registry.own_view(rt, alloc, id)?;
        let view = KeyedLock::new(alloc, view, &id)?;
        Ok(Backends {
            discovery,
            registry,
            owner,
            updates: Mutex::new(()),
            view,
            owns_checks,
        })
    }

    /// Returns what the backends are made of, for what has a view of its own.
    ///
    /// The view ends, as by a drop: the next call of the registry removes it.
    pub fn into_parts(self) -> BackendsParts<D, R, C>
        ensures { (result.discovery ≡ self.discovery) × (arc_value result.registry ≡ self.registry)
            × (result.owns_checks ≡ self.owns_checks) }
    {
        let Backends {
            discovery,
            registry,
            owner: _,
            updates: _,
            view: _,
            owns_checks,
        } = self;
        BackendsParts {
            discovery,
            registry,
            owns_checks,
        }
    }

    /// Returns whether a balancer or group of these backends runs the checks of the registry.
    pub fn owns_checks(&self) -> bool
        ensures { result ≡ self.now.owns_checks }
    {
        self.owns_checks
    }

    /// Returns the newest generation; 0 before the first membership.
    pub fn generation<W: Wait>(&self, rt: &W) -> u64
        ensures { Seen self.now.id (λ v. After v (λ views. result ≡ generation_after views)) }
    {
        let held = self.view.take(rt);
        let generation = held.value.generation();
        self.view.put(held);
        generation
    }

    /// Returns the membership of the newest generation.
    ///
    /// Refused `OutOfMemory` where std refuses one more owner.
    pub fn get_backend<W: Wait>(&self, rt: &W) -> Result<Arc<BTreeSet<Backend>>, Refusal>
        ensures members { IfOk result (λ set. Seen self.now.id (λ v. After v (λ views. (arc_value set).keys ≡ membership_after views))) }
        ensures refused { OnErr result (result ≡ Err Refusal.OutOfMemory) }
    {
        let held = self.view.take(rt);
        let members = held.value.get_backend();
        self.view.put(held);
        members
    }

    /// Returns whether a backend is ready in the newest membership: listed, enabled, and its cell kept and healthy.
    ///
    /// It takes no memory.
    pub fn ready<W: Wait>(&self, rt: &W, backend: &Backend) -> bool
        ensures { JudgedUnder R.gives self.now backend.now result }
    {
        let registries: &HealthRegistry<R, C> = &*self.registry;
        let held = self.view.take(rt);
        let cells = registries.take(rt);
        let ready = held.value.ready(&cells.value, backend);
        registries.put(cells);
        self.view.put(held);
        ready
    }

    /// Enables or disables a backend of the newest membership, by identity; another is left alone.
    ///
    /// It takes no memory.
    pub fn set_enable<W: Wait>(&self, rt: &W, backend: &Backend, enabled: bool)
        ensures { Under self.now.id (λ v w. After v (λ views. IsViewAfter (Set backend.now enabled ∷ views) w)) }
    {
        let mut held = self.view.take(rt);
        held.value.set_enable(backend, enabled);
        self.view.put(held);
    }

    /// Sets the check of the registry.
    ///
    /// Refused `HealthCheckSet` where one is set, which stays.
    pub fn set_health_check<W: Wait>(&self, rt: &W, check: C) -> Result<(), Refusal>
        ensures { IfErr result (λ e. e ≡ Refusal.HealthCheckSet) }
    {
        self.registry.set_health_check(rt, check)
    }

    /// Discovers, and updates the view by it. Returns what `changed` returned, or `None` where the membership is the same.
    ///
    /// `changed` borrows a membership that is another one, once it is the newest. It runs under no lock but that of the view's updates:
    /// it may use the view, but not update it. One update runs at a time.
    ///
    /// # Errors
    ///
    /// `Discovery` where the discovery fails; `GenerationsExhausted` where the membership is another one and the newest generation is
    /// 18446744073709551615; `NoSuch` where the view was removed from the registry; `NumbersExhausted` where no number is left for a
    /// cell; `OutOfMemory` where memory is refused and no other cause applies. View, flags and registry are then as before.
    pub fn update<W: Wait, T, F: FnOnce(&BTreeSet<Backend>) -> T>(
        &self,
        rt: &W,
        alloc: Global,
        changed: F,
    ) -> Result<Option<T>, Refusal>
        requires { F.IsAlwaysCallable changed }
        ensures updated { IfOk result (λ answer. UpdatedUnder R.gives D.finds self.now
            (λ members t. (set : BTreeSet Member Global) × (set.keys ≡ members) × FnOnceReturnsAt F.FnOnce changed set t) answer) }
        ensures refused { OnErr result (IsBackendsRefusal result) }
        ensures fault { IsErrOf result Refusal.Discovery → MayFault D.finds self.now.discovery }
        ensures causes { IfErr result (RefusedFor R.gives D.finds self.now) }
    {
        let _turn = self.updates.lock(rt);
        let (members, settings) = self.discovery.discover(alloc)?;
        let mut held = self.view.take(rt);
        match self.take_in(rt, alloc, &mut held.value, members, settings) {
            Ok(true) => Ok(Some(self.show(held, changed))),
            Ok(false) => {
                self.view.put(held);
                Ok(None)
            }
            Err(refusal) => {
                self.view.put(held);
                Err(refusal)
            }
        }
    }

    // Takes what was discovered, and returns whether that is another membership.
    fn take_in<W: Wait>(
        &self,
        rt: &W,
        alloc: Global,
        view: &mut ViewCore,
        members: BTreeSet<Backend>,
        settings: Settings,
    ) -> Result<bool, Refusal>
        requires { IsState self.now.id view.old }
        ensures state { IsState self.now.id view.new }
        ensures taken { UnderRegistry R.gives self.now.registry.start (λ x y.
            IsTakenIn R.gives members.keys (settings_of settings.entries) view.old x result view.new y) }
        ensures newest { IfOk result (λ changed. IsTrue changed
            → (views : List ViewEvent) × IsViewAfter views view.new × (membership_after views ≡ members.keys)) }
        ensures refused { OnErr result (IsViewRefusal result) }
    {
        let registries: &HealthRegistry<R, C> = &*self.registry;
        let mut cells = registries.take(rt);
        let told = view.update(alloc, &mut cells.value, members, settings, |_members| ());
        registries.put(cells);
        match told {
            Ok(changed) => Ok(changed.is_some()),
            Err(refusal) => Err(refusal),
        }
    }

    // Puts the view back, and passes its newest membership to the caller's function. Only where std refuses one more owner of that
    // membership, the function runs before.
    fn show<T, F: FnOnce(&BTreeSet<Backend>) -> T>(
        &self,
        held: TakenValue<ViewCore, u64>,
        changed: F,
    ) -> T
        requires here { held.seat.table_id ≡ self.now.lock }
        requires fact { IsState self.now.id held.value }
        requires callable { F.IsAlwaysCallable changed }
        ensures { (set : BTreeSet Member Global) × After held.value (λ views. set.keys ≡ membership_after views)
            × FnOnceReturnsAt F.FnOnce changed set result }
    {
        match held.value.get_backend() {
            Ok(members) => {
                self.view.put(held);
                changed(&members)
            }
            Err(_) => {
                let answer = changed(held.value.members());
                self.view.put(held);
                answer
            }
        }
    }
}

impl<
    D: ServiceDiscovery + Drop,
    R: KeyRule + Drop + Send,
    C: HealthCheck + Drop + Send + Sync,
> Backends<D, R, C> {
    /// Checks the targets of the whole registry once, if a check is set: one after another, or with `parallel` at the same time.
    ///
    /// # Errors
    ///
    /// Those of `HealthRegistry::run_health_check`.
    pub fn run_health_check<W: Log + Threads + Wait + Sync>(
        &self,
        rt: &W,
        alloc: Global,
        parallel: bool,
    ) -> Result<(), Refusal>
        ensures { OnErr result (IsGrowthRefusal result) }
    {
        self.registry.run_health_check(rt, alloc, parallel)
    }
}

/// Registers a view without backends in a registry that threads share, and returns it.
///
/// The marks that wait in the registry are applied. It is for the crates of this library.
///
/// # Errors
///
/// `NumbersExhausted` where no number is left for a view, whatever memory is left; `OutOfMemory` where memory is refused. The registry
/// is as it was then.
pub fn registered_view<R: KeyRule + Drop, C: HealthCheck + Drop, W: Wait>(
    rt: &W,
    alloc: Global,
    registry: &HealthRegistry<R, C>,
) -> Result<ViewCore, Refusal>
    ensures made { IfOk result (λ v. IsViewAfter [] v) }
    ensures registered { UnderRegistry R.gives registry.now.start (IsRegisteredAs R.gives (λ v. v.id) result) }
    ensures refused { OnErr result (IsGrowthRefusal result) }
{
    let mut cells = registry.take(rt);
    let told = ViewCore::register(alloc, &mut cells.value);
    registry.put(cells);
    told
}

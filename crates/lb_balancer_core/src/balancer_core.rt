//! A discovery with one selector, which an update builds: what is served is always the newest generation.
ghost use Rattle.std.specs.Prelude.{◌≡◌, ◌+◌, ◌∷◌, ◌⊎◌, [], ℕ, List, Ok, Err, None, Some, unwrap_or, IfOk};
ghost use Rattle.std.specs.Prelude.{IfErr, OnOk, OnErr};
ghost use Rattle.std.specs.Borrow.{Bor};
ghost use Rattle.std.specs.Iterator.{Drains, IsFinite};
ghost use Rattle.lb_select_base.specs.Backends.{Member};
ghost use Rattle.lb_select_base.specs.Loads.{load_in};
ghost use Rattle.lb_health_core.specs.Registry.{IsRegistryAfter, HoldsOf, Grows};
ghost use Rattle.lb_health_core.specs.RegistryEvents.{Marked, registered_after};
ghost use Rattle.lb_health_view.specs.ViewEvents.{generation_after};
ghost use Rattle.lb_rebuild_core.specs.GroupCalls.{AcceptsBy, IsMade};
ghost use Rattle.lb_balancer_core.specs.Choices.{IsChosen};
ghost use Rattle.lb_balancer_core.specs.Balancer.{After, Judges, Stands, view_events};
ghost use Rattle.lb_balancer_core.specs.BalancerUpdates.{IsUpdated, IsRefusal};
ghost use Rattle.lb_balancer_core.specs.ServedUpdates.{IsLoadSet, KeepsServed};
ghost use Rattle.lb_balancer_core.specs.Texts.{IsOfTextsIn, IsTextsRefusal, one_more};

use crate::lent::LentBackends;
use crate::served::Served;
use crate::timings::UpdateTimings;
use lb_health_core::keys::KeyRule;
use lb_health_core::registry::Registry;
use lb_health_view::discovery::{BoxedDiscovery, DiscoverySource, ServiceDiscovery, Static};
use lb_select_base::backend::Backend;
use lb_select_base::moments::MomentSource;
use lb_select_base::refusal::Refusal;
use lb_select_base::walk::BackendSelection;
use lb_select_base::words::{CoreWords, WordSource};
use rand_core::Rng;
use rand_pcg::Pcg64;
use std::alloc::Global;
use std::net::Net;

/// A discovery, what is served of its backends, and how long the last accepted update took. Selections and readings are those of
/// what is served.
#[derive(Drop)]
pub struct LoadBalancerCore<S: BackendSelection, G: Drop = Pcg64, D = BoxedDiscovery> {
    pub discovery: DiscoverySource<D>,
    pub served: Served<S, G>,
    pub timing: Option<UpdateTimings>,
}

impl<S: BackendSelection, G: Rng + Drop, D: ServiceDiscovery + Drop> LoadBalancerCore<S, G, D> {
    /// Returns a balancer with a view of its own in the registry, at generation 0, whose selectors are built with the default
    /// configuration.
    ///
    /// # Errors
    ///
    /// Those of `from_backends_with_config`.
    pub fn from_backends<R: KeyRule + Drop>(
        alloc: Global,
        registry: &mut Registry<R>,
        discovery: DiscoverySource<D>,
        generator: G,
    ) -> Result<LoadBalancerCore<S, G, D>, Refusal>
        ensures stands { IfOk result (λ b. Stands [] b.served × (b.served.config ≡ S.default_config)
            × (b.served.words.generator ≡ generator) × ((m : Member) → load_in b.served.words.loads m ≡ 0)) }
        ensures parts { IfOk result (λ b. (b.discovery ≡ discovery) × (b.timing ≡ None)) }
        ensures made { IsMade R.gives (S.refusal [] S.default_config) registry.old result (λ b. b.served.view.id) registry.new }
    {
        LoadBalancerCore::from_backends_with_config(alloc, registry, discovery, None, generator)
    }

    /// Returns a balancer as `from_backends` does, whose selectors are built with this configuration, or with the default one for `None`.
    ///
    /// # Errors
    ///
    /// Those of `Served::new`; the registry is then as before.
    pub fn from_backends_with_config<R: KeyRule + Drop>(
        alloc: Global,
        registry: &mut Registry<R>,
        discovery: DiscoverySource<D>,
        config: Option<S::Config>,
        generator: G,
    ) -> Result<LoadBalancerCore<S, G, D>, Refusal>
        ensures stands { IfOk result (λ b. Stands [] b.served × (b.served.config ≡ unwrap_or config S.default_config)
            × (b.served.words.generator ≡ generator) × ((m : Member) → load_in b.served.words.loads m ≡ 0)) }
        ensures parts { IfOk result (λ b. (b.discovery ≡ discovery) × (b.timing ≡ None)) }
        ensures made { IsMade R.gives (S.refusal [] (unwrap_or config S.default_config)) registry.old result
            (λ b. b.served.view.id) registry.new }
    {
        match Served::new(alloc, registry, config, generator) {
            Ok(served) => Ok(LoadBalancerCore {
                discovery,
                served,
                timing: None,
            }),
            Err(refusal) => Err(refusal),
        }
    }

    /// Returns a balancer of the backends of weight 1 at the addresses of the texts, updated once, with a view of its own in the registry.
    ///
    /// Its discovery always finds these. A text that std reads as a socket address has that one; of another text, `host:port`, the network
    /// looks up the host.
    ///
    /// # Errors
    ///
    /// Those of `Static::try_from_iter`, `from_backends` and `update`. The registry is then as before, or has a mark for the view.
    pub fn try_from_iter<
        'a,
        R: KeyRule + Drop,
        T: Net,
        I: Iterator<Item = &'a str> + Drop,
        K: MomentSource,
    >(
        alloc: Global,
        registry: &mut Registry<R>,
        net: &T,
        texts: I,
        clock: &mut K,
        generator: G,
    ) -> Result<LoadBalancerCore<S, G, D>, Refusal>
        requires can { I.can_next texts }
        requires ends { IsFinite (I.remaining texts) }
        ensures made { IfOk result (λ b. (read : List (Bor (List ℕ))) × Drains I.next_gives texts read
            × IsOfTextsIn R.gives K.reads registry.old read clock.old clock.new b.discovery b.served registry.new b.timing) }
        ensures parts { IfOk result (λ b. (b.served.config ≡ S.default_config) × (b.served.words.generator ≡ generator)
            × ((m : Member) → load_in b.served.words.loads m ≡ 0)) }
        ensures id { IfOk result (λ b. HoldsOf R.gives registry.old (λ key_of events. b.served.view.id ≡ registered_after events + 1)) }
        ensures refused { IfErr result (λ r. (read : List (Bor (List ℕ))) × Drains I.next_gives texts read
            × IsTextsRefusal R.gives registry.old read (λ members. S.refusal members S.default_config) r) }
        ensures err { OnErr result (HoldsOf R.gives registry.old (λ key_of events. IsRegistryAfter R.gives key_of events registry.new
            ⊎ IsRegistryAfter R.gives key_of (Marked (registered_after events + 1) ∷ one_more events) registry.new)) }
        ensures one_registry { registry.new.id ≡ registry.old.id }
    {
        let found = Static::try_from_iter(alloc, net, texts)?;
        let discovery = DiscoverySource::Static(found);
        let mut balancer = LoadBalancerCore::from_backends(alloc, registry, discovery, generator)?;
        match balancer.update(alloc, registry, clock) {
            Ok(()) => Ok(balancer),
            Err(refusal) => {
                registry.remove_view(balancer.served.id());
                Err(refusal)
            }
        }
    }

    /// Discovers, and updates what is served as `Served::update` does.
    ///
    /// The clock is read at the start and at the end, and for another membership also before and after the build.
    ///
    /// # Errors
    ///
    /// `Discovery` where the discovery fails; `OutOfMemory` where it is refused memory; and those of `Served::update`. All but the clock
    /// is then as before.
    pub fn update<R: KeyRule + Drop, K: MomentSource>(
        &mut self,
        alloc: Global,
        registry: &mut Registry<R>,
        clock: &mut K,
    ) -> Result<(), Refusal>
        ensures updated { OnOk result (IsUpdated D.finds R.gives self.old.discovery self.old.served registry.old S.refusal K.reads clock.old
            clock.new self.new.served registry.new self.new.timing) }
        ensures kept { OnErr result (self.new ≡ record self.old { served = record self.old.served { view = self.new.served.view } }) }
        ensures refused { IfErr result (IsRefusal D.finds R.gives self.old.discovery self.old.served registry.old S.refusal) }
        ensures discovery { self.new.discovery ≡ self.old.discovery }
        ensures stays { KeepsServed R.gives self.old.served registry.old result self.new.served registry.new }
    {
        let start = clock.now();
        let (members, settings) = self.discovery.discover(alloc)?;
        let build = self
            .served
            .update(alloc, registry, members, settings, clock)?;
        let end = clock.now();
        let build_duration = build.unwrap_or(0);
        self.timing = Some(UpdateTimings::between(start, end, build_duration));
        Ok(())
    }

    /// Returns the first ready backend among the distinct of the first `max_iterations` candidates for `key`, as `Served::select` does.
    pub fn select<R: KeyRule + Drop>(
        &mut self,
        alloc: Global,
        registry: &Registry<R>,
        key: &[u8],
        max_iterations: usize,
    ) -> Result<Option<Backend>, Refusal>
        ensures chosen { IsChosen R.gives ⟦<CoreWords<G> as WordSource>⟧.gives S.walks
            Judges registry.now self.old.served key.now max_iterations result self.new.served }
        ensures kept { self.new ≡ record self.old { served = self.new.served } }
    {
        self.served.select(alloc, registry, key, max_iterations)
    }

    /// Returns the first backend that `accept` takes, as `select` does the first ready one.
    ///
    /// `accept` is asked with a backend and whether it is ready.
    pub fn select_with<R: KeyRule + Drop, F: Fn(&Backend, bool) -> bool>(
        &mut self,
        alloc: Global,
        registry: &Registry<R>,
        key: &[u8],
        max_iterations: usize,
        accept: &F,
    ) -> Result<Option<Backend>, Refusal>
        requires { F.IsAlwaysCallable accept.now }
        ensures chosen { IsChosen R.gives ⟦<CoreWords<G> as WordSource>⟧.gives S.walks
            (λ key_of events e. AcceptsBy F.Fn accept.now (Judges key_of events e))
            registry.now self.old.served key.now max_iterations result self.new.served }
        ensures kept { self.new ≡ record self.old { served = self.new.served } }
    {
        self.served
            .select_with(alloc, registry, key, max_iterations, accept)
    }

    /// Sets the load of a backend's identity, which outlives each update.
    ///
    /// Refused for memory alone, and then nothing is set.
    pub fn set_load(&mut self, alloc: Global, backend: &Backend, load: u64) -> Result<(), Refusal>
        ensures set { IsLoadSet self.old.served backend.now load result self.new.served }
        ensures kept { self.new ≡ record self.old { served = self.new.served } }
    {
        self.served.set_load(alloc, backend, load)
    }

    /// Marks the view for removal from the registry: its next call that applies marks removes it.
    ///
    /// Selections go on in what is served; another membership is refused `NoSuch`. It takes no memory.
    pub fn leave<R: KeyRule + Drop>(&self, registry: &mut Registry<R>)
        ensures registry { Grows R.gives registry.old (λ events. Marked self.now.served.view.id ∷ events) registry.new }
        ensures one_registry { registry.new.id ≡ registry.old.id }
    {
        registry.remove_view(self.served.id());
    }

    /// Returns a borrow of the backends with the registry: readings, their flags and the checks.
    pub fn backends<'a, 'x, R: KeyRule + Drop>(
        &'a mut self,
        registry: &'x mut Registry<R>,
    ) -> LentBackends<'a, 'x, S, G, D, R>
        ensures same_references { (result.balancer.ghost_name ≡ self.entry.ghost_name)
            × (result.registry.ghost_name ≡ registry.entry.ghost_name) }
        ensures same { (result.balancer.now ≡ self.old) × (result.registry.now ≡ registry.old) }
    {
        LentBackends {
            balancer: self,
            registry,
        }
    }

    /// Returns the newest generation, which is the served one; 0 before the first membership.
    pub fn backend_generation(&self) -> u64
        ensures { After self.now.served (λ e. result ≡ generation_after (view_events e)) }
    {
        self.served.generation()
    }

    /// Returns how long the last accepted update took; `None` before the first.
    pub fn last_update_timing(&self) -> Option<UpdateTimings>
        ensures { result ≡ self.now.timing }
    {
        self.timing
    }
}

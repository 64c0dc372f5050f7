//! A view with the selector that is built of its newest membership, and that selector's words: they change as one, or not at all.
ghost use Rattle.std.specs.Prelude.{◌≡◌, ◌+◌, ◌-◌, ◌∷◌, [], ℕ, None, MatchOption, true, false, unwrap_or};
ghost use Rattle.std.specs.Prelude.{IfOk, IfErr, OnErr};
ghost use Rattle.std.specs.Arc.{arc_value};
ghost use Rattle.std.specs.Option.{option_or};
ghost use Rattle.lb_select_base.specs.Backends.{Member};
ghost use Rattle.lb_select_base.specs.Refusals.{Refuses, memory_apart};
ghost use Rattle.lb_select_base.specs.Loads.{load_in};
ghost use Rattle.lb_select_base.specs.Memberships.{same_members};
ghost use Rattle.lb_health_core.specs.Registry.{IsRegistryAfter, HoldsOf};
ghost use Rattle.lb_health_view.specs.Views.{HoldsOfBoth};
ghost use Rattle.lb_health_view.specs.RegistrySide.{registry_updated, settings_of};
ghost use Rattle.lb_health_view.specs.ViewEvents.{generation_after};
ghost use Rattle.lb_rebuild_core.specs.GroupCalls.{AcceptsBy, IsMade};
ghost use Rattle.lb_balancer_core.specs.Choices.{IsChosen};
ghost use Rattle.lb_balancer_core.specs.Balancer.{After, History, IsJudged, Judges, Set, Stands, members_now, update_cause};
ghost use Rattle.lb_balancer_core.specs.Balancer.{updated, view_events};
ghost use Rattle.lb_health_view.specs.Causes.{view_cause};
ghost use Rattle.lb_balancer_core.specs.ServedUpdates.{IsLoadSet, KeepsServed};
ghost use Rattle.lb_balancer_core.specs.Timings.{Reads};

use crate::served_view::{ServedView, selector_of};
use lb_health_core::keys::KeyRule;
use lb_health_core::registry::Registry;
use lb_health_view::view::{Settings, ViewCore};
use lb_rebuild_core::group::ready_ones;
use lb_select_base::backend::Backend;
use lb_select_base::moments::MomentSource;
use lb_select_base::refusal::Refusal;
use lb_select_base::select::select;
use lb_select_base::walk::BackendSelection;
use lb_select_base::words::{CoreWords, WordSource};
use rand_core::Rng;
use rand_pcg::Pcg64;
use std::alloc::Global;
use std::collections::BTreeSet;
use std::marker::Model;
use std::sync::Arc;

/// What a `Served` is made of: a view with the selector of its newest membership, and the generator of random words.
#[derive(Drop)]
pub struct ServedParts<S: BackendSelection, G: Drop = Pcg64> {
    pub served: ServedView<S>,
    pub generator: G,
}

/// A view of a registry, and the selector that is served: one of the view's newest membership, with a source of words whose
/// counter of tickets began at 0 when it was built.
///
/// Contracts describe it by the history of its events; some history explains each.
pub struct Served<S: BackendSelection, G: Drop = Pcg64> {
    served: ServedView<S>,
    // None: that of `S::build`.
    config: Option<S::Config>,
    words: CoreWords<G>,
}

impl<S: BackendSelection, G: Drop> Drop for Served<S, G> {
    fn drop(self) {
        let Served {
            served: _,
            config: _,
            words: _,
        } = self;
    }
}

impl<S: BackendSelection, G: Drop> Model for Served<S, G> {
    ghost use Rattle.std.specs.Prelude.{◌≡◌, unwrap_or};
    ghost use Rattle.lb_balancer_core.specs.Balancer.{ServedValue, IsFounded};

    ghost Value = { ServedValue S.Config G };

    ghost view = { λ b. record {
      view = b.served.view;
      config = unwrap_or b.config S.default_config;
      members = b.served.members;
      words = b.words;
    } };

    ghost invariant = { λ b. (b.served.config ≡ unwrap_or b.config S.default_config) × IsFounded (record {
      view = b.served.view;
      config = unwrap_or b.config S.default_config;
      members = b.served.members;
      words = b.words;
    }) };
}

impl<S: BackendSelection, G: Rng + Drop> Served<S, G> {
    /// Returns a view in the registry, at generation 0, with a selector over no backends, built by this configuration or by the default
    /// one.
    ///
    /// # Errors
    ///
    /// The cause for which the configuration gives no selector over no backends; where there is none, `NumbersExhausted` exactly where
    /// no number is left for a view, and else `OutOfMemory` where memory is refused. The registry is then as before.
    pub fn new<R: KeyRule + Drop>(
        alloc: Global,
        registry: &mut Registry<R>,
        config: Option<S::Config>,
        generator: G,
    ) -> Result<Served<S, G>, Refusal>
        ensures stands { IfOk result (λ v. Stands [] v × (v.config ≡ unwrap_or config S.default_config)
            × (v.words.generator ≡ generator) × ((m : Member) → load_in v.words.loads m ≡ 0)) }
        ensures made { IsMade R.gives (S.refusal [] (unwrap_or config S.default_config)) registry.old result
            (λ v. v.view.id) registry.new }
    {
        let selector = match selector_of::<S>(alloc, &BTreeSet::new(alloc), &config) {
            Ok(selector) => selector,
            // Where no number is left for a view, that is the refusal, before one for memory.
            Err(Refusal::OutOfMemory) if registry.is_full() => {
                return Err(Refusal::NumbersExhausted);
            }
            Err(refusal) => return Err(refusal),
        };
        let view = ViewCore::register(alloc, registry)?;
        Ok(Served {
            served: ServedView::new(view, selector),
            config,
            words: CoreWords::new(generator),
        })
    }

    /// Takes what was discovered, and returns how long the build took, or `None` where the membership is the same.
    ///
    /// Another membership than the newest becomes the next generation, and a selector that is built of it is served from then on; the
    /// clock is read before and after the build. The same membership changes nothing but flags, and the clock is not read.
    ///
    /// # Errors
    ///
    /// For another membership: the cause for which its selector can't be built; where there is none, `GenerationsExhausted`,
    /// `NoSuch` where the registry has no such view, or `NumbersExhausted` where no number is left for a cell; and only then
    /// `OutOfMemory` where memory is refused. View, selector, words and registry are then as before.
    pub fn update<R: KeyRule + Drop, K: MomentSource>(
        &mut self,
        alloc: Global,
        registry: &mut Registry<R>,
        members: BTreeSet<Backend>,
        settings: Settings,
        clock: &mut K,
    ) -> Result<Option<u128>, Refusal>
        ensures updated { HoldsOf R.gives registry.old (λ key_of events. After self.old (λ e. Refuses (update_cause
            (S.refusal members.keys self.old.config) key_of self.old.view.id members.keys events e) (λ _. Stands
            (updated key_of self.old.view.id members.keys (settings_of settings.entries) events e) self.new
            × IsRegistryAfter R.gives key_of (registry_updated key_of self.old.view.id members.keys
            (view_events e) events) registry.new) result)) }
        ensures changed { IfOk result (λ build. After self.old (λ e. MatchOption build
            (same_members members.keys (members_now e) ≡ true) (λ d. same_members members.keys (members_now e) ≡ false))) }
        ensures readings { IfOk result (λ build. MatchOption build (clock.new ≡ clock.old) (λ d. (before : ℕ) × ((after : ℕ)
            × Reads K.reads clock.old (before ∷ after ∷ []) clock.new × (d ≡ after - before)))) }
        ensures kept { OnErr result (self.new ≡ record self.old { view = self.new.view }) }
        ensures stays { KeepsServed R.gives self.old registry.old result self.new registry.new }
    {
        if self.served.is_membership(&members) {
            self.served.keep(alloc, registry, members, settings);
            return Ok(None);
        }
        let before = clock.now();
        let selector = build::<S, R>(alloc, &self.served, registry, &members, &self.config)?;
        let after = clock.now();
        let (unserved, answer) = self
            .served
            .renew(alloc, registry, members, settings, selector);
        drop(unserved);
        match answer {
            Ok(_) => {
                self.words.tickets = 0;
                Ok(Some(after.saturating_sub(before)))
            }
            Err(refusal) => Err(refusal),
        }
    }

    /// States that some history explains what is served.
    ///
    /// Only for the prover: it does nothing at run time.
    pub fn past(&self)
        ensures { (e : History) × Stands e self.now }
    {
        // For the prover alone: this shows it the invariant, and does nothing at run time.
        let _served = &self.served;
    }

    /// Returns what it is made of, for what serves the same in another way. Configuration, loads and counter are let go.
    pub fn into_parts(self) -> ServedParts<S, G>
        ensures served { result.served ≡ record { view = self.view; members = self.members; config = self.config } }
        ensures generator { result.generator ≡ self.words.generator }
    {
        let Served {
            served,
            config: _,
            words,
        } = self;
        let CoreWords {
            tickets: _,
            generator,
            loads: _,
        } = words;
        ServedParts { served, generator }
    }

    /// Returns the number of the view in its registry.
    pub fn id(&self) -> u64
        ensures { result ≡ self.now.view.id }
    {
        self.served.view_id()
    }

    /// Returns the newest generation, which is the served one; 0 before the first membership.
    pub fn generation(&self) -> u64
        ensures { After self.now (λ e. result ≡ generation_after (view_events e)) }
    {
        self.served.generation()
    }

    /// Returns the newest membership.
    ///
    /// Refused `OutOfMemory` where std refuses one more owner.
    pub fn get_backend(&self) -> Result<Arc<BTreeSet<Backend>>, Refusal>
        ensures members { IfOk result (λ set. After self.now (λ e. (arc_value set).keys ≡ members_now e)) }
        ensures refused { OnErr result (result ≡ Err Refusal.OutOfMemory) }
    {
        self.served.get_backend()
    }

    /// Returns whether a backend is ready in the newest membership, without taking memory.
    pub fn ready<R: KeyRule + Drop>(&self, registry: &Registry<R>, backend: &Backend) -> bool
        ensures { HoldsOf R.gives registry.now (λ key_of events. After self.now (λ e. Judges key_of events e backend.now result)) }
    {
        self.served.ready(registry, backend)
    }

    /// Enables or disables a backend that a living snapshot lists, by identity; another is left alone.
    ///
    /// It takes no memory.
    pub fn set_enable(&mut self, backend: &Backend, enabled: bool)
        ensures stands { After self.old (λ e. Stands (Set backend.now enabled ∷ e) self.new) }
        ensures kept { self.new ≡ record self.old { view = self.new.view } }
        ensures id { self.new.view.id ≡ self.old.view.id }
    {
        self.served.set_enable(backend, enabled);
    }

    /// Sets the load of a backend's identity.
    ///
    /// Refused for memory alone, and then nothing is set; the words to come stay.
    pub fn set_load(&mut self, alloc: Global, backend: &Backend, load: u64) -> Result<(), Refusal>
        ensures { IsLoadSet self.old backend.now load result self.new }
    {
        self.words.set_load(alloc, backend, load)
    }

    /// Returns the first backend that `accept` takes among the distinct of the first `max_iterations` candidates for `key`, or `None`.
    ///
    /// `accept` is asked with a backend and whether it is ready. Selector and readiness are those of the newest generation. Refused for
    /// memory alone; the words that were drawn stay drawn.
    pub fn select_with<R: KeyRule + Drop, F: Fn(&Backend, bool) -> bool>(
        &mut self,
        alloc: Global,
        registry: &Registry<R>,
        key: &[u8],
        max_iterations: usize,
        accept: &F,
    ) -> Result<Option<Backend>, Refusal>
        requires { F.IsAlwaysCallable accept.now }
        ensures { IsChosen R.gives ⟦<CoreWords<G> as WordSource>⟧.gives S.walks
            (λ key_of events e. AcceptsBy F.Fn accept.now (Judges key_of events e))
            registry.now self.old key.now max_iterations result self.new }
    {
        let served = &self.served;
        let judged = |backend: &Backend| -> bool
            requires { F.IsAlwaysCallable accept.now }
            ensures { AcceptsBy F.Fn accept.entry.now (IsJudged R.gives served.entry.now.view registry.entry.now) backend.entry.now result }
        { accept(backend, served.ready(registry, backend)) };
        select(
            alloc,
            self.served.selector(),
            key,
            &mut self.words,
            max_iterations,
            &judged,
        )
    }

    /// Returns the first ready backend, as `select_with` finds it.
    pub fn select<R: KeyRule + Drop>(
        &mut self,
        alloc: Global,
        registry: &Registry<R>,
        key: &[u8],
        max_iterations: usize,
    ) -> Result<Option<Backend>, Refusal>
        ensures { IsChosen R.gives ⟦<CoreWords<G> as WordSource>⟧.gives S.walks
            Judges registry.now self.old key.now max_iterations result self.new }
    {
        self.select_with(alloc, registry, key, max_iterations, &ready_ones)
    }
}

// The selector of another membership; refused for the least cause that applies, and for memory only where there is none.
fn build<S: BackendSelection, R: KeyRule + Drop>(
    alloc: Global,
    served: &ServedView<S>,
    registry: &Registry<R>,
    members: &BTreeSet<Backend>,
    config: &Option<S::Config>,
) -> Result<Arc<S>, Refusal>
    ensures made { IfOk result (λ s. (memory_apart (S.refusal members.now.keys (unwrap_or config.now S.default_config)) ≡ None)
        × (S.members (arc_value s) ≡ members.now.keys) × (S.built_with (arc_value s) ≡ unwrap_or config.now S.default_config)) }
    ensures refused { IfErr result (λ r. HoldsOfBoth R.gives served.now.view registry.now (λ key_of views events. r
        ≡ unwrap_or (option_or (memory_apart (S.refusal members.now.keys (unwrap_or config.now S.default_config)))
        (view_cause key_of served.now.view.id members.now.keys events views)) Refusal.OutOfMemory)) }
{
    match selector_of::<S>(alloc, members, config) {
        Ok(selector) => Ok(selector),
        Err(Refusal::OutOfMemory) => Err(served.cause(registry, members)),
        Err(refusal) => Err(refusal),
    }
}

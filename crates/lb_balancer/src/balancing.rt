//! A balancer that threads share: an update discovers and builds under a lock of its own, and then what is served is exchanged. Locks are
//! taken in the order update, served, registry, shown; the last is held for a copy of a pointer. The lock of the loads is held for one
//! load, while no other but that of updates is. A selection takes the first four only where its lane doesn't have what is served (`kept`),
//! and that of the loads only for a load without a word.
ghost use Rattle.std.specs.Prelude.{◌≡◌, ◌⊎◌, ◌∷◌, [], ℕ, List, IfOk, IfErr, IfSome, IsErrOf, OnOk, Ok, Err};
ghost use Rattle.std.specs.Prelude.{All, Some, None, unwrap_or, false, MatchOption};
ghost use Rattle.std.specs.Arc.{arc_value};
ghost use Rattle.lb_select_base.specs.Backends.{Member, same_member};
ghost use Rattle.lb_select_base.specs.Refusals.{memory_apart};
ghost use Rattle.lb_select_base.specs.Memberships.{same_members};
ghost use Rattle.lb_rebuild_core.specs.GroupCalls.{AcceptsBy, IsMakingRefusal};
ghost use Rattle.lb_health_view.specs.RegistrySide.{settings_of};
ghost use Rattle.lb_balancer_core.specs.ServedViews.{SetsFlag, TakesIn};
ghost use Rattle.lb_balancer_core.specs.Timings.{Reads};
ghost use Rattle.lb_threads_core.specs.Registry.{IsRegistryOf, SeenIn};
ghost use Rattle.lb_threads_core.specs.View.{HasNumber, IsFull};
ghost use Rattle.lb_balancer.specs.History.{IsServedBy, IsServedGeneration, IsShownBy, MayGive};
ghost use Rattle.lb_balancer.specs.History.{UnderServing};
ghost use Rattle.lb_balancer.specs.Kept.{IsKept};
ghost use Rattle.lb_balancer.specs.Made.{IsBalancerMade};
ghost use Rattle.lb_balancer.specs.Shown.{ShownValue};
ghost use Rattle.lb_balancer.specs.SharedUpdates.{IsBuildRefusal, IsRoomRefusal, IsSharedRefusal, IsSharedUpdated, ReadsUpdate};

use crate::kept::KeptShown;
use crate::origin::{OfGeneration, OfServing, OfShown, Origin};
use crate::readiness::Readiness;
use crate::serving::{BuiltSelector, Serving, built_of};
use crate::shown::{Shown, Version};
use lb_balancer_core::timings::UpdateTimings;
use lb_health_core::health_check::HealthCheck;
use lb_health_core::keys::KeyRule;
use lb_health_core::registry::Registry;
use lb_health_view::discovery::ServiceDiscovery;
use lb_health_view::view::Settings;
use lb_select_base::backend::Backend;
use lb_select_base::moments::MomentSource;
use lb_select_base::refusal::Refusal;
use lb_select_base::walk::BackendSelection;
use lb_threads_core::backends::{Backends, BackendsParts, registered_view};
use lb_threads_core::generators::SharedGenerator;
use lb_threads_core::lanes::Lanes;
use lb_threads_core::loads::SharedLoads;
use lb_threads_core::lock::KeyedLock;
use lb_threads_core::numbers::KeyedNumbers;
use lb_threads_core::owner::ViewOwner;
use lb_threads_core::registry::{HealthRegistry, cell_words_of, put_registry, take_registry};
use std::alloc::Global;
use std::collections::BTreeSet;
use std::marker::Model;
use std::mem;
use std::snapshot::Snapshot;
use std::sync::atomic::Ordering::SeqCst;
use std::sync::atomic::{AtomicBool, AtomicU64};
use std::sync::{Arc, Mutex, Wait};

type ServingLock<S, D, R, C> = KeyedLock<Serving<S>, Snapshot<Origin<S, D, R, C>>, OfServing>;

type ShownLock<S, D, R, C> = KeyedLock<
    KeptShown<S, D, R, C>,
    Snapshot<Origin<S, D, R, C>>,
    OfShown,
>;

type GenerationNumber<S, D, R, C> = KeyedNumbers<Snapshot<Origin<S, D, R, C>>, OfGeneration>;

// The number of lanes, a power of two: half of them on each side, as many as threads that select at once may want.
const LANES: usize = 256;

// What a balancer has for its threads: the locks of what is served and of what is shown of it, the generation that is served, the lanes, a
// generator, and the loads.
struct Places<S: BackendSelection, D, R: KeyRule + Drop, C> {
    serving: ServingLock<S, D, R, C>,
    shown: ShownLock<S, D, R, C>,
    generation: GenerationNumber<S, D, R, C>,
    lanes: Lanes<KeptShown<S, D, R, C>>,
    generator: SharedGenerator,
    loads: Arc<SharedLoads>,
    alloc: Global,
}

/// A balancer with one selector. Contracts see what never changes: its discovery, what its selectors are built with, and which registry its
/// health is of. Other threads may change what it serves at any time, so a call is made at some state of it, which some of its own updates
/// left. Its drop takes no lock: the next call of the registry removes its view.
pub struct Balancing<S: BackendSelection, D, R: KeyRule + Drop, C> {
    pub(crate) origin: Origin<S, D, R, C>,
    view: ViewOwner,
    updates: Mutex<()>,
    pub(crate) serving: ServingLock<S, D, R, C>,
    pub(crate) shown: ShownLock<S, D, R, C>,
    // Noted while what is served is locked.
    generation: GenerationNumber<S, D, R, C>,
    pub(crate) lanes: Lanes<KeptShown<S, D, R, C>>,
    // Seeds the random words of lanes and readers.
    pub(crate) generator: SharedGenerator,
    timing: Mutex<Option<UpdateTimings>>,
    loads: Arc<SharedLoads>,
    // For what `get_backend` may have to show anew.
    alloc: Global,
    // Counts what may have changed what is ready, but for the registry's own changes.
    pub(crate) changes: AtomicU64,
    // Whether the view was removed from the registry.
    pub(crate) has_left: AtomicBool,
    seeds: AtomicU64,
}

impl<S: BackendSelection, D: Drop, R: KeyRule + Drop, C: Drop> Drop for Balancing<S, D, R, C> {
    fn drop(self) {
        let Balancing {
            origin: _,
            view: _,
            updates: _,
            serving: _,
            shown: _,
            generation: _,
            lanes: _,
            generator: _,
            timing: _,
            loads: _,
            alloc: _,
            changes: _,
            has_left: _,
            seeds: _,
        } = self;
    }
}

impl<S: BackendSelection, D, R: KeyRule + Drop, C> Model for Balancing<S, D, R, C> {
    ghost use Rattle.std.specs.Prelude.{◌≡◌, All};
    ghost use Rattle.lb_balancer.specs.History.{BalancerValue};

    ghost Value = { BalancerValue D S.Config R };

    ghost view = { λ b. b.origin };

    ghost invariant = { λ b. (b.serving.table.shared.key.value ≡ b.origin) × (b.shown.table.shared.key.value ≡ b.origin)
        × (b.generation.words.table.shared.key.value ≡ b.origin) × All (λ lane. lane.slot ≡ b.origin) b.lanes.lanes.items };
}

impl<
    S: BackendSelection,
    D: ServiceDiscovery + Drop,
    R: KeyRule + Drop,
    C: HealthCheck + Drop,
> Balancing<S, D, R, C> {
    /// Returns a balancer with a view of its own in the registry of `backends`, at generation 0, with a selector over no backends.
    ///
    /// The view of `backends` itself leaves the registry.
    ///
    /// # Errors
    ///
    /// The cause for which the configuration gives no selector over no backends; where there is none, `NumbersExhausted` where no
    /// number is left for a view, and else `OutOfMemory` where memory is refused.
    pub(crate) fn new<W: Wait>(
        rt: &W,
        alloc: Global,
        backends: Backends<D, R, C>,
        config: Option<S::Config>,
    ) -> Result<Balancing<S, D, R, C>, Refusal>
        ensures { IsBalancerMade R.gives (S.refusal []) backends.discovery backends.registry.start
            (unwrap_or config S.default_config) result (λ b. b) }
    {
        let BackendsParts {
            discovery,
            registry,
            owns_checks: _,
        } = backends.into_parts();
        let shared: &HealthRegistry<R, C> = &*registry;
        let built = first_built(rt, alloc, shared, &config)?;
        let view = registered_view(rt, alloc, shared)?;
        let view_id = view.id();
        let origin = Origin {
            discovery,
            config,
            first: 0,
            view_id,
            registry,
        };
        let made = Balancing::begun(rt, alloc, origin, Serving::new(view, built), None)?;
        Ok(made)
    }

    // A balancer that serves this at first.
    pub(crate) fn begun<W: Wait>(
        rt: &W,
        alloc: Global,
        origin: Origin<S, D, R, C>,
        serving: Serving<S>,
        timing: Option<UpdateTimings>,
    ) -> Result<Balancing<S, D, R, C>, Refusal>
        requires { IsServedBy origin serving.served }
        ensures made { IfOk result (λ b. b ≡ origin) }
        ensures refused { IfErr result (λ e. e ≡ Refusal.OutOfMemory) }
    {
        let registry = origin.registry();
        let owner = registry.own_view(rt, alloc, serving.served.view_id())?;
        let places = places_over(rt, alloc, serving, &origin)?;
        Ok(Balancing::behind(origin, owner, places, timing))
    }

    // The balancer over these places.
    fn behind(
        origin: Origin<S, D, R, C>,
        view: ViewOwner,
        places: Places<S, D, R, C>,
        timing: Option<UpdateTimings>,
    ) -> Balancing<S, D, R, C>
        requires { (places.serving.table.shared.key.value ≡ origin) × (places.shown.table.shared.key.value ≡ origin)
            × (places.generation.words.table.shared.key.value ≡ origin) × All (λ lane. lane.slot ≡ origin) places.lanes.lanes.items }
        ensures { result ≡ origin }
    {
        let Places {
            serving,
            shown,
            generation,
            lanes,
            generator,
            loads,
            alloc,
        } = places;
        Balancing {
            origin,
            view,
            updates: Mutex::new(()),
            serving,
            shown,
            generation,
            lanes,
            generator,
            timing: Mutex::new(timing),
            loads,
            alloc,
            changes: AtomicU64::new(0),
            has_left: AtomicBool::new(false),
            seeds: AtomicU64::new(1),
        }
    }

    /// Discovers, builds where the membership is another one, and then exchanges what is served.
    ///
    /// One update runs at a time; while it discovers and builds, selections go on in what was served before. The clock is read at the
    /// start and at the end, and for another membership also before and after the build.
    ///
    /// # Errors
    ///
    /// `Discovery` where the discovery answers a fault; the cause for which another membership makes no selector; where there is none,
    /// `GenerationsExhausted`, `NoSuch` where the registry has no such view, or `NumbersExhausted` where no number is left for a cell;
    /// and only then `OutOfMemory` where memory is refused. What is served is then as before.
    pub(crate) fn update<W: Wait, K: MomentSource>(
        &self,
        rt: &W,
        alloc: Global,
        clock: &mut K,
    ) -> Result<(), Refusal>
        ensures updated { OnOk result (IsSharedUpdated D.finds self.now) }
        ensures reads { OnOk result (ReadsUpdate K.reads clock.old clock.new) }
        ensures refused { IfErr result (IsSharedRefusal D.finds R.gives S.refusal self.now) }
    {
        let _turn = self.updates.lock(rt);
        let start = clock.now();
        let (members, settings) = self.origin.discovery().discover(alloc)?;
        let build_duration = self.take_in(rt, alloc, members, settings, clock)?;
        let end = clock.now();
        let timing = UpdateTimings::between(start, end, build_duration);
        *self.timing.lock(rt) = Some(timing);
        self.tidy_lanes(rt);
        Ok(())
    }

    // Takes what was discovered, and answers how long the build took; 0 where the membership is the same.
    fn take_in<W: Wait, K: MomentSource>(
        &self,
        rt: &W,
        alloc: Global,
        members: BTreeSet<Backend>,
        settings: Settings,
        clock: &mut K,
    ) -> Result<u128, Refusal>
        requires { MayGive self.now.discovery members.keys (settings_of settings.entries) }
        ensures taken { OnOk result (UnderServing self.now (TakesIn members.keys (settings_of settings.entries))) }
        ensures reads { OnOk result ((clock.new ≡ clock.old)
            ⊎ ((before : ℕ) × (after : ℕ) × Reads K.reads clock.old (before ∷ after ∷ []) clock.new)) }
        ensures refused { IfErr result (IsBuildRefusal R.gives self.now members.keys (S.refusal members.keys self.now.config)) }
    {
        let Some((members, settings)) = self.keep(rt, alloc, members, settings) else {
            return Ok(0);
        };
        let before = clock.now();
        let built = self.build(rt, alloc, &members)?;
        let after = clock.now();
        let ready = self.words_for(rt, alloc, &members);
        self.renew(rt, alloc, members, settings, built, ready)?;
        Ok(after.saturating_sub(before))
    }

    // Takes settings where the membership is the same; else returns what was discovered.
    fn keep<W: Wait>(
        &self,
        rt: &W,
        alloc: Global,
        members: BTreeSet<Backend>,
        settings: Settings,
    ) -> Option<(BTreeSet<Backend>, Settings)>
        requires { MayGive self.now.discovery members.keys (settings_of settings.entries) }
        ensures { MatchOption result (UnderServing self.now (TakesIn members.keys (settings_of settings.entries)))
            (λ found. found ≡ (members, settings)) }
    {
        // `_key` and `founded()` are for the prover alone: they show it the value's invariant, and do nothing at run time.
        let _key = &self.origin;
        let mut held = self.serving.take(rt);
        if !held.value.served.is_membership(&members) {
            self.serving.put(held);
            return Some((members, settings));
        }
        let has_settings = !settings.is_empty();
        let registries = self.origin.registry();
        let mut cells = take_registry(registries, rt);
        held.value
            .served
            .keep(alloc, &mut cells.value, members, settings);
        put_registry(registries, cells);
        self.note_settings(rt, &held.value, has_settings);
        self.serving.put(held);
        self.changes.fetch_add(1, SeqCst);
        None
    }

    // Builds the selector of another membership. Refused for the least cause that applies, and for memory only where there is none.
    fn build<W: Wait>(
        &self,
        rt: &W,
        alloc: Global,
        members: &BTreeSet<Backend>,
    ) -> Result<BuiltSelector<S>, Refusal>
        ensures made { IfOk result (λ b. (S.members (arc_value b.selector) ≡ members.now.keys)
            × (S.built_with (arc_value b.selector) ≡ self.now.config)) }
        ensures free { OnOk result (memory_apart (S.refusal members.now.keys self.now.config) ≡ None) }
        ensures refused { IfErr result (IsBuildRefusal R.gives self.now members.now.keys (S.refusal members.now.keys self.now.config)) }
    {
        let seed = self.seeds.fetch_add(1, SeqCst);
        match built_of(alloc, members, self.origin.config(), seed) {
            Ok(mut built) => {
                built.drawn.loads = self.loads.words(rt, alloc, seed, members);
                Ok(built)
            }
            Err(Refusal::OutOfMemory) => {
                let registries = self.origin.registry();
                let held = self.serving.take(rt);
                let cells = take_registry(registries, rt);
                let cause = held.value.served.cause(&cells.value, members);
                put_registry(registries, cells);
                self.serving.put(held);
                Err(cause)
            }
            Err(refusal) => Err(refusal),
        }
    }

    // Words for the members of the next generation; none where memory is refused. The caller has the lock of updates, so that it is the
    // generation after the newest one.
    fn words_for<W: Wait>(
        &self,
        rt: &W,
        alloc: Global,
        members: &BTreeSet<Backend>,
    ) -> Option<Arc<Readiness<S, D, R, C>>>
        ensures { IfSome result (λ r. (arc_value r).balancer ≡ self.now) }
    {
        let next = self.generation(rt).checked_add(1)?;
        let origin = &self.origin;
        let cells = cell_words_of(origin.registry(), rt, alloc, members.len()).ok()?;
        let ready = Readiness::new(alloc, origin, next, members, cells).ok()?;
        Arc::new(alloc, ready).ok()
    }

    // Serves the selector of another membership from now on, and answers whether it does. What isn't served then is dropped outside the
    // locks.
    fn renew<W: Wait>(
        &self,
        rt: &W,
        alloc: Global,
        members: BTreeSet<Backend>,
        settings: Settings,
        built: BuiltSelector<S>,
        ready: Option<Arc<Readiness<S, D, R, C>>>,
    ) -> Result<bool, Refusal>
        requires members { S.members (arc_value built.selector) ≡ members.keys }
        requires config { S.built_with (arc_value built.selector) ≡ self.now.config }
        requires discovered { MayGive self.now.discovery members.keys (settings_of settings.entries) }
        requires ready { IfSome ready (λ r. (arc_value r).balancer ≡ self.now) }
        ensures taken { OnOk result (UnderServing self.now (TakesIn members.keys (settings_of settings.entries))) }
        ensures refused { IfErr result (IsRoomRefusal R.gives self.now members.keys) }
    {
        let _key = &self.origin;
        let mut held = self.serving.take(rt);
        held.value.served.founded();
        let registries = self.origin.registry();
        let mut cells = take_registry(registries, rt);
        let (unserved, answer) = held
            .value
            .renew(alloc, &mut cells.value, members, settings, built);
        put_registry(registries, cells);
        let unshown = match answer {
            Ok(_) => self.exchange(rt, alloc, &held.value, ready),
            Err(_) => None,
        };
        self.serving.put(held);
        drop((unserved, unshown));
        answer
    }

    // What is served now, with these words, to be shown once the change is counted. `None` where memory is refused.
    fn kept_of<W: Wait>(
        &self,
        rt: &W,
        alloc: Global,
        serving: &Serving<S>,
        ready: Option<Arc<Readiness<S, D, R, C>>>,
    ) -> Option<KeptShown<S, D, R, C>>
        requires served { IsServedBy self.now serving.now.served }
        requires ready { IfSome ready (λ r. (arc_value r).balancer ≡ self.now) }
        ensures { IfSome result (λ k. IsKept R.gives self.now k.shown k.ready) }
    {
        let version = Version {
            balancer: self.changes.load(SeqCst).wrapping_add(1),
            registry: self.origin.registry().changes(),
        };
        match self.kept_at(rt, alloc, serving, version, ready) {
            Ok(kept) => Some(kept),
            Err(_) => None,
        }
    }

    // What is served, at this version of it, with these words.
    fn kept_at<W: Wait>(
        &self,
        rt: &W,
        alloc: Global,
        serving: &Serving<S>,
        version: Version,
        ready: Option<Arc<Readiness<S, D, R, C>>>,
    ) -> Result<KeptShown<S, D, R, C>, Refusal>
        requires served { IsServedBy self.now serving.now.served }
        requires ready { IfSome ready (λ r. (arc_value r).balancer ≡ self.now) }
        ensures kept { IfOk result (λ k. IsKept R.gives self.now k.shown k.ready) }
        ensures refused { IfErr result (λ e. e ≡ Refusal.OutOfMemory) }
    {
        let registries = self.origin.registry();
        let cells = take_registry(registries, rt);
        let told = shown_of(
            alloc,
            serving,
            &cells.value,
            &self.loads,
            version,
            &self.origin,
        );
        put_registry(registries, cells);
        Ok(KeptShown::new(told?, ready))
    }

    // Shows what is served now, with these words: they say all first, and the lanes that readers don't use have it. Then it counts the
    // change, and notes the generation, so that a selection after its reading is of no earlier one. Returns what was shown before. Where
    // memory is refused, the next selection shows it. The caller has the lock of what is served.
    fn exchange<W: Wait>(
        &self,
        rt: &W,
        alloc: Global,
        serving: &Serving<S>,
        ready: Option<Arc<Readiness<S, D, R, C>>>,
    ) -> Option<KeptShown<S, D, R, C>>
        requires served { IsServedBy self.now serving.now.served }
        requires ready { IfSome ready (λ r. (arc_value r).balancer ≡ self.now) }
    {
        let kept = self.kept_of(rt, alloc, serving, ready);
        self.lanes.begin_filling();
        let is_filled = kept.is_some();
        let gone = match kept {
            Some(kept) => {
                self.note_members(rt, &kept, serving);
                self.spread(&kept);
                Some(self.swap(rt, kept))
            }
            None => None,
        };
        self.changes.fetch_add(1, SeqCst);
        self.note_generation(serving);
        self.lanes.end_filling(is_filled);
        gone
    }

    // Notes the generation that is served.
    fn note_generation(&self, serving: &Serving<S>)
        requires { IsServedBy self.now serving.now.served }
    {
        let _key = &self.origin;
        self.generation.note(0, serving.served.generation());
    }

    // Shows this from now on. Returns what was shown before.
    fn swap<W: Wait>(&self, rt: &W, kept: KeptShown<S, D, R, C>) -> KeptShown<S, D, R, C>
        requires { IsKept R.gives self.now kept.shown kept.ready }
    {
        let _key = &self.origin;
        let mut held = self.shown.take(rt);
        let gone = mem::replace(&mut held.value, kept);
        self.shown.put(held);
        gone
    }

    // Whether this generation is served, by one load.
    #[inline]
    pub(crate) fn is_served(&self, generation: u64) -> bool {
        self.generation.get(0) == Some(generation)
    }

    // How often balancer and registry have changed.
    pub(crate) fn version(&self) -> Version {
        Version {
            balancer: self.changes.load(SeqCst),
            registry: self.origin.registry().changes(),
        }
    }

    /// Returns what is served now.
    ///
    /// Selections in it are all in one generation, with the readiness of one moment. Refused for memory alone.
    pub(crate) fn shown<W: Wait>(&self, rt: &W, alloc: Global) -> Result<Arc<Shown<S>>, Refusal>
        ensures shown { IfOk result (λ s. IsShownBy R.gives self.now (arc_value s)) }
        ensures refused { IfErr result (λ e. e ≡ Refusal.OutOfMemory) }
    {
        let latest = self.latest(rt)?;
        if (*latest.shown).version() == self.version() {
            return Ok(latest.shown);
        }
        let kept = self.show_now(rt, alloc)?;
        Ok(kept.shown)
    }

    // What was shown of the generation that is served, with the words of it.
    pub(crate) fn current<W: Wait>(
        &self,
        rt: &W,
        alloc: Global,
    ) -> Result<KeptShown<S, D, R, C>, Refusal>
        ensures kept { IfOk result (λ k. IsKept R.gives self.now k.shown k.ready) }
        ensures refused { IfErr result (λ e. e ≡ Refusal.OutOfMemory) }
    {
        let latest = self.latest(rt)?;
        if latest.generation() == self.generation(rt) {
            return Ok(latest);
        }
        self.show_now(rt, alloc)
    }

    // Shows what is served, as it is now.
    fn show_now<W: Wait>(&self, rt: &W, alloc: Global) -> Result<KeptShown<S, D, R, C>, Refusal>
        ensures kept { IfOk result (λ k. IsKept R.gives self.now k.shown k.ready) }
        ensures refused { IfErr result (λ e. e ≡ Refusal.OutOfMemory) }
    {
        let _key = &self.origin;
        let held = self.serving.take(rt);
        let answer = self.show_again(rt, alloc, &held.value);
        self.serving.put(held);
        let (kept, gone) = answer?;
        drop(gone);
        Ok(kept)
    }

    /// Returns the newest generation; 0 before the first membership.
    ///
    /// It is one load, but for the first reading before the first update, which takes the lock of what is served.
    pub(crate) fn generation<W: Wait>(&self, rt: &W) -> u64
        ensures { IsServedGeneration self.now result }
    {
        let _key = &self.origin;
        match self.generation.get(0) {
            Some(generation) => generation,
            None => self.generation_under_lock(rt),
        }
    }

    // The newest generation, by the lock of what is served.
    fn generation_under_lock<W: Wait>(&self, rt: &W) -> u64
        ensures { IsServedGeneration self.now result }
    {
        let _key = &self.origin;
        let held = self.serving.take(rt);
        self.note_generation(&held.value);
        let generation = held.value.served.generation();
        self.serving.put(held);
        generation
    }

    /// Returns the newest membership.
    ///
    /// Refused `OutOfMemory` where memory is refused.
    pub(crate) fn get_backend<W: Wait>(&self, rt: &W) -> Result<Arc<BTreeSet<Backend>>, Refusal>
        ensures members { IfOk result (λ set. (s : ShownValue S.Config) × IsShownBy R.gives self.now s
            × ((arc_value set).keys ≡ s.members)) }
        ensures refused { IfErr result (λ e. e ≡ Refusal.OutOfMemory) }
    {
        let kept = self.current(rt, self.alloc)?;
        (*kept.shown).get_backend()
    }

    /// Enables or disables a backend of the newest membership, by identity; another is left alone.
    ///
    /// Selections that begin after it go by it. It takes no memory.
    pub(crate) fn set_enable<W: Wait>(&self, rt: &W, backend: &Backend, enabled: bool)
        ensures { UnderServing self.now (SetsFlag backend.now enabled) }
    {
        let _key = &self.origin;
        let mut held = self.serving.take(rt);
        held.value.served.set_enable(backend, enabled);
        self.note_flags(rt, &held.value, Some(backend));
        self.serving.put(held);
        self.changes.fetch_add(1, SeqCst);
    }

    /// Sets the load of a backend's identity, which outlives each update.
    ///
    /// Refused `OutOfMemory` where memory is refused; nothing is set then.
    pub(crate) fn set_load<W: Wait>(
        &self,
        rt: &W,
        alloc: Global,
        backend: &Backend,
        load: u64,
    ) -> Result<(), Refusal>
        ensures { IfErr result (λ e. e ≡ Refusal.OutOfMemory) }
    {
        let _key = &self.origin;
        self.loads.set(rt, alloc, backend, load)
    }

    /// Marks the view for removal from the registry, and releases its cells.
    ///
    /// From the next call on that applies marks its backends are no targets, a backend whose cell no other view keeps isn't ready, and
    /// another membership is refused `NoSuch`. It takes no memory.
    pub(crate) fn leave<W: Wait>(&self, rt: &W) {
        let _key = &self.origin;
        let registries = self.origin.registry();
        let held = self.serving.take(rt);
        held.value.served.founded();
        let mut cells = take_registry(registries, rt);
        held.value.leave(&mut cells.value);
        put_registry(registries, cells);
        self.serving.put(held);
        self.changes.fetch_add(1, SeqCst);
        self.has_left.store(true, SeqCst);
    }

    /// Sets the check of the registry.
    ///
    /// Refused `HealthCheckSet` where one is set, which stays.
    pub(crate) fn set_health_check<W: Wait>(&self, rt: &W, check: C) -> Result<(), Refusal>
        ensures { IfErr result (λ e. e ≡ Refusal.HealthCheckSet) }
    {
        self.origin.registry().set_health_check(rt, check)
    }

    // The registry of health.
    pub(crate) fn health_registry(&self) -> &HealthRegistry<R, C> {
        self.origin.registry()
    }

    /// Returns how long the last accepted update took; `None` before the first.
    pub(crate) fn last_update_timing<W: Wait>(&self, rt: &W) -> Option<UpdateTimings> {
        *self.timing.lock(rt)
    }

    // What was shown last.
    pub(crate) fn latest<W: Wait>(&self, rt: &W) -> Result<KeptShown<S, D, R, C>, Refusal>
        ensures kept { IfOk result (λ k. IsKept R.gives self.now k.shown k.ready) }
        ensures refused { IfErr result (λ e. e ≡ Refusal.OutOfMemory) }
    {
        let _key = &self.origin;
        let held = self.shown.take(rt);
        let kept = held.value.try_clone();
        self.shown.put(held);
        let kept = kept?;
        Ok(kept)
    }

    // Shows what is served where it isn't shown yet; and what was shown before.
    fn show_again<W: Wait>(
        &self,
        rt: &W,
        alloc: Global,
        serving: &Serving<S>,
    ) -> Result<(KeptShown<S, D, R, C>, KeptShown<S, D, R, C>), Refusal>
        requires { IsServedBy self.now serving.now.served }
        ensures kept { IfOk result (λ k. IsKept R.gives self.now k.0.shown k.0.ready) }
        ensures refused { IfErr result (λ e. e ≡ Refusal.OutOfMemory) }
    {
        let version = self.version();
        let latest = self.latest(rt)?;
        if (*latest.shown).version() == version {
            let again = latest.try_clone()?;
            return Ok((again, latest));
        }
        let kept = self.kept_at(rt, alloc, serving, version, latest.ready)?;
        let again = kept.try_clone()?;
        Ok((again, self.swap(rt, kept)))
    }
}

// The selector over no backends. Where no number is left for a view, that is the refusal, before one for memory.
fn first_built<S: BackendSelection, R: KeyRule + Drop, C: HealthCheck + Drop, W: Wait>(
    rt: &W,
    alloc: Global,
    registry: &HealthRegistry<R, C>,
    config: &Option<S::Config>,
) -> Result<BuiltSelector<S>, Refusal>
    ensures made { IfOk result (λ b. (S.members (arc_value b.selector) ≡ [])
        × (S.built_with (arc_value b.selector) ≡ unwrap_or config.now S.default_config)) }
    ensures refused { IsMakingRefusal (S.refusal [] (unwrap_or config.now S.default_config)) result }
    ensures exhausted { memory_apart (S.refusal [] (unwrap_or config.now S.default_config)) ≡ None → IsErrOf result Refusal.NumbersExhausted
        → SeenIn R.gives registry.now.start (IsFull R.gives) }
    ensures left { memory_apart (S.refusal [] (unwrap_or config.now S.default_config)) ≡ None → IsErrOf result Refusal.OutOfMemory
        → SeenIn R.gives registry.now.start (HasNumber R.gives) }
{
    match built_of(alloc, &BTreeSet::new(alloc), config, 0) {
        Ok(built) => Ok(built),
        Err(Refusal::OutOfMemory) if registry.is_full(rt) => Err(Refusal::NumbersExhausted),
        // An arm of its own, so that the prover knows that a number was left.
        Err(Refusal::OutOfMemory) => Err(Refusal::OutOfMemory),
        Err(refusal) => Err(refusal),
    }
}

// What is served, with the readiness that the registry gives.
fn shown_of<S: BackendSelection, D, R: KeyRule + Drop, C>(
    alloc: Global,
    serving: &Serving<S>,
    registry: &Registry<R>,
    loads: &Arc<SharedLoads>,
    version: Version,
    origin: &Origin<S, D, R, C>,
) -> Result<Arc<Shown<S>>, Refusal>
    requires served { IsServedBy origin.now serving.now.served }
    requires registry { IsRegistryOf R.gives origin.now.registry registry.now }
    ensures shown { IfOk result (λ s. IsShownBy R.gives origin.now (arc_value s)) }
    ensures refused { IfErr result (λ e. e ≡ Refusal.OutOfMemory) }
{
    // For the prover alone: the caller's `requires` speaks of it.
    let _ = origin;
    let shown = serving.show(alloc, registry, loads, version)?;
    let shared = Arc::new(alloc, shown)?;
    Ok(shared)
}

// The locks of what is served first, and of what is shown of it, empty lanes, and the loads, which are all 0.
fn places_over<S: BackendSelection, D, R: KeyRule + Drop, C: HealthCheck + Drop, W: Wait>(
    rt: &W,
    alloc: Global,
    serving: Serving<S>,
    origin: &Origin<S, D, R, C>,
) -> Result<Places<S, D, R, C>, Refusal>
    requires { IsServedBy origin.now serving.served }
    ensures made { IfOk result (λ p. (p.serving.table.shared.key.value ≡ origin.now) × (p.shown.table.shared.key.value ≡ origin.now)
        × (p.generation.words.table.shared.key.value ≡ origin.now) × All (λ lane. lane.slot ≡ origin.now) p.lanes.lanes.items) }
    ensures refused { IfErr result (λ e. e ≡ Refusal.OutOfMemory) }
{
    let registry = origin.registry();
    let version = Version {
        balancer: 0,
        registry: registry.changes(),
    };
    let loads = Arc::new(alloc, SharedLoads::new(alloc))?;
    let mut serving = serving;
    serving.take_loads(rt, alloc, &*loads, 0);
    let generator = SharedGenerator::new(0);
    let lanes = Lanes::new(alloc, LANES, origin, &generator)?;
    let cells = take_registry(registry, rt);
    let told = shown_of(alloc, &serving, &cells.value, &loads, version, origin);
    put_registry(registry, cells);
    let kept = KeptShown::new(told?, None);
    let key = Snapshot::of(origin);
    Ok(Places {
        serving: KeyedLock::new(alloc, serving, &key)?,
        shown: KeyedLock::new(alloc, kept, &key)?,
        generation: KeyedNumbers::new(alloc, 1, &key)?,
        lanes,
        generator,
        loads,
        alloc,
    })
}

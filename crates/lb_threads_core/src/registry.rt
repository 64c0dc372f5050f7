//! A registry of health that threads share, and the passes that check its targets, one after another or at the same time. No check runs
//! under the registry's lock: a pass copies its targets, and each verdict takes the lock for one call.
ghost use Rattle.std.specs.Prelude.{◌≡◌, ◌↔◌, ◌≤◌, ◌+◌, ◌^◌, ◌∷◌, ℕ, All, Bool, IsTrue, false, length, Result, Err, IfErr, IfOk, OnErr};
ghost use Rattle.std.specs.Arc.{arc_value};
ghost use Rattle.lb_health_core.specs.declared.error.CheckError.{CheckError};
ghost use Rattle.lb_health_core.specs.Registry.{Grows, HoldsOf, IsGrowthRefusal, IsUpdateRefusal, targets_after};
ghost use Rattle.lb_health_core.specs.RegistryEvents.{Marked, registered_after, views_after};
ghost use Rattle.lb_health_core.specs.RegistryCalls.{IsApplied, IsCellReady, IsObserved, IsRegistered, IsUpdated};
ghost use Rattle.lb_health_core.specs.Targets.{target_keys};
ghost use Rattle.lb_health_core.specs.Verdicts.{Verdict};
ghost use Rattle.lb_health_core.specs.RegistryEvents.{Configured};
ghost use Rattle.lb_health_view.specs.Passes.{verdict_of};
ghost use Rattle.lb_select_base.specs.declared.refusal.Refusal.{Refusal};
ghost use Rattle.lb_threads_core.specs.Internal.Leaving.{EndsSnapshots, HaveLeft, IsNoteOf};
ghost use Rattle.lb_threads_core.specs.CellWords.{WasHealthy};
ghost use Rattle.lb_threads_core.specs.Registry.{IsRegistryOf, SeenIn, UnderRegistry};

use crate::cell_tables::CellTables;
use crate::cell_words::CellWords;
use crate::keyed::NoRule;
use crate::lock::{KeyedLock, TakenValue};
use crate::owner::{ViewNote, ViewOwner, take_gone};
use crate::rule::LockRule;
use lb_health_core::health_check::{BoxedCheck, HealthCheck};
use lb_health_core::keys::{KeyRule, Rule};
use lb_health_core::registry::Registry;
use lb_health_core::targets::Target;
use lb_health_view::passes::{ask_check, report_flip};
use lb_select_base::backend::Backend;
use lb_select_base::refusal::Refusal;
use log::Log;
use std::alloc::{AllocError, Global};
use std::collections::BTreeSet;
use std::marker::Model;
use std::snapshot::Snapshot;
use std::sync::atomic::Ordering::SeqCst;
use std::sync::atomic::{AtomicBool, AtomicU64};
use std::sync::{Arc, Mutex, OnceLock, Wait};
use std::thread;
use std::thread::Threads;

/// The registry under the lock is the one that the lock was made with, after what calls have made of it since.
pub struct OfRegistry {}

impl<R: KeyRule> LockRule<Registry<R>, Snapshot<Registry<R>>> for OfRegistry {
    ghost use Rattle.std.specs.Prelude.{◌≡◌};
    ghost use Rattle.lb_threads_core.specs.Registry.{IsRegistryOf};

    ghost holds = { λ key registry. IsRegistryOf R.gives key.value registry × (registry.id ≡ key.value.id) };
}

/// The lock of a registry.
pub type RegistryLock<R> = KeyedLock<Registry<R>, Snapshot<Registry<R>>, OfRegistry>;

/// A registry that was taken from its lock.
pub type HeldRegistry<R> = TakenValue<Registry<R>, Snapshot<Registry<R>>>;

/// A registry of health behind a lock, and the check of its targets, which is set once. Contracts see the registry as it was when it
/// came under the lock, and which lock.
///
/// `new` and `by_address` make one by its rule of keys; `over` makes one of a plain registry.
pub struct HealthRegistry<R: KeyRule + Drop = Rule<NoRule>, C = BoxedCheck> {
    lock: RegistryLock<R>,
    check: OnceLock<C>,
    // Counts the verdicts that flipped a cell.
    changes: AtomicU64,
    // Words that say which cells are healthy.
    tables: CellTables<R>,
    // The notes of the views that have owners.
    notes: Mutex<Vec<Arc<ViewNote>>>,
    // Whether an owner was dropped since the notes were looked through.
    some_gone: Arc<AtomicBool>,
}

impl<R: KeyRule + Drop, C: Drop> Drop for HealthRegistry<R, C> {
    fn drop(self) {
        let HealthRegistry {
            lock: _,
            check: _,
            changes: _,
            tables: _,
            notes: _,
            some_gone: _,
        } = self;
    }
}

impl<R: KeyRule + Drop, C> Model for HealthRegistry<R, C> {
    ghost use Rattle.lb_threads_core.specs.Registry.{RegistryHandle};

    ghost Value = { RegistryHandle R };

    ghost view = { λ h. record { start = h.lock.table.shared.key.value; lock = h.lock.table.shared.table_id } };

    ghost use Rattle.std.specs.Prelude.{◌≡◌};

    ghost invariant = { λ h. h.tables ≡ h.lock.table.shared.key.value };
}

impl<R: KeyRule + Drop, C: HealthCheck + Drop> HealthRegistry<R, C> {
    /// Returns this registry behind a lock, without a check.
    ///
    /// Refused `OutOfMemory` where memory for the lock is refused.
    pub fn over(alloc: Global, registry: Registry<R>) -> Result<HealthRegistry<R, C>, Refusal>
        ensures made { IfOk result (λ h. h.start ≡ registry) }
        ensures refused { IfErr result (λ e. e ≡ Refusal.OutOfMemory) }
    {
        let key = Snapshot::of(&registry);
        let lock = KeyedLock::new(alloc, registry, &key)?;
        let some_gone = Arc::new(alloc, AtomicBool::new(false))?;
        let tables = CellTables::new(alloc, &key)?;
        Ok(HealthRegistry {
            lock,
            check: OnceLock::new(),
            changes: AtomicU64::new(0),
            tables,
            notes: Mutex::new(Vec::new(alloc)),
            some_gone,
        })
    }

    /// Returns the registry with cells that begin unhealthy from now on; those that are there stay as they are. It takes no memory.
    pub fn start_unhealthy<W: Wait>(self, rt: &W) -> HealthRegistry<R, C>
        ensures same { (result.start ≡ self.start) × (result.lock ≡ self.lock) }
        ensures configured { UnderRegistry R.gives self.start (λ x y. Grows R.gives x (λ events. Configured false ∷ events) y) }
    {
        self.configure(rt);
        self
    }

    // Has cells begin unhealthy from now on.
    fn configure<W: Wait>(&self, rt: &W)
        ensures { UnderRegistry R.gives self.now.start (λ x y. Grows R.gives x (λ events. Configured false ∷ events) y) }
    {
        let TakenValue { value, seat } = self.take(rt);
        let value = value.start_unhealthy();
        self.put(TakenValue { value, seat });
    }

    // The registry itself out of its lock, for one call of a view or a group; `put` ends it. Views whose owners are gone are marked for
    // removal first.
    pub(crate) fn take<W: Wait>(&self, rt: &W) -> HeldRegistry<R>
        ensures registry { IsRegistryOf R.gives self.now.start result.value }
        ensures one { result.value.id ≡ self.now.start.id }
        ensures here { result.seat.table_id ≡ self.now.lock }
    {
        let mut held = self.taken(rt);
        self.look_for_gone(rt, &mut held.value);
        held
    }

    // The registry, as the last call left it.
    fn taken<W: Wait>(&self, rt: &W) -> HeldRegistry<R>
        ensures registry { IsRegistryOf R.gives self.now.start result.value }
        ensures one { result.value.id ≡ self.now.start.id }
        ensures here { result.seat.table_id ≡ self.now.lock }
    {
        self.lock.take(rt)
    }

    // Marks the views for removal whose owners were dropped since the last look.
    fn look_for_gone<W: Wait>(&self, rt: &W, registry: &mut Registry<R>)
        ensures registry { IsRegistryOf R.gives registry.old registry.new }
        ensures one { registry.new.id ≡ registry.old.id }
    {
        if !self.some_gone.swap(false, SeqCst) {
            return;
        }
        let mut notes = self.notes.lock(rt);
        remove_gone(registry, &mut notes);
    }

    /// Returns the owner of a view of this registry, whose drop is noted without a lock.
    ///
    /// After that drop the next call of the registry marks the view for removal, and releases the cells of each of its snapshots.
    ///
    /// # Errors
    ///
    /// `OutOfMemory` where memory is refused; the view is marked for removal then.
    pub fn own_view<W: Wait>(&self, rt: &W, alloc: Global, id: u64) -> Result<ViewOwner, Refusal>
        ensures { IfErr result (λ e. e ≡ Refusal.OutOfMemory) }
    {
        let owner = self.owner_of(rt, alloc, id);
        if owner.is_err() {
            self.remove_view(rt, id);
        }
        owner
    }

    // The owner of a view, if there is memory for one.
    fn owner_of<W: Wait>(&self, rt: &W, alloc: Global, id: u64) -> Result<ViewOwner, Refusal>
        ensures { IfErr result (λ e. e ≡ Refusal.OutOfMemory) }
    {
        let note = Arc::new(
            alloc,
            ViewNote {
                id,
                is_gone: AtomicBool::new(false),
            },
        )?;
        let some_gone = Arc::try_clone(&self.some_gone)?;
        self.notes.lock(rt).push(Arc::try_clone(&note)?)?;
        Ok(ViewOwner { note, some_gone })
    }

    // Puts this registry back under its lock.
    pub(crate) fn put(&self, held: HeldRegistry<R>)
        requires registry { IsRegistryOf R.gives self.now.start held.value }
        requires one { held.value.id ≡ self.now.start.id }
        requires here { held.seat.table_id ≡ self.now.lock }
    {
        self.lock.put(held);
    }

    /// Sets the check.
    ///
    /// Refused `HealthCheckSet` where one is set, which stays; the new one is dropped then.
    pub fn set_health_check<W: Wait>(&self, rt: &W, check: C) -> Result<(), Refusal>
        ensures { IfErr result (λ e. e ≡ Refusal.HealthCheckSet) }
    {
        match self.check.set(rt, check) {
            Ok(_token) => Ok(()),
            Err(_unused) => Err(Refusal::HealthCheckSet),
        }
    }

    /// Returns whether a check is set, without taking memory.
    pub fn has_health_check(&self) -> bool {
        self.check.get().is_some()
    }

    /// Returns how many targets there are, after the marks that wait are applied.
    ///
    /// # Errors
    ///
    /// `NumbersExhausted` where no number is left for a cell; `OutOfMemory` where memory is refused.
    pub fn target_count<W: Wait>(&self, rt: &W, alloc: Global) -> Result<usize, Refusal>
        ensures counted { UnderRegistry R.gives self.now.start (λ x y. IsApplied R.gives
            (λ key_of events count. count ≡ length (target_keys key_of (views_after events))) x result y) }
        ensures refused { OnErr result (IsGrowthRefusal result) }
    {
        let mut held = self.take(rt);
        let told = held.value.target_count(alloc);
        self.put(held);
        told
    }

    /// Returns the targets with their cells, by identity and then by view, after the marks that wait are applied.
    ///
    /// # Errors
    ///
    /// Those of `target_count`.
    pub fn targets<W: Wait>(&self, rt: &W, alloc: Global) -> Result<Vec<Target>, Refusal>
        ensures told { UnderRegistry R.gives self.now.start (λ x y. IsApplied R.gives
            (λ key_of events targets. targets.items ≡ targets_after key_of events) x result y) }
        ensures refused { OnErr result (IsGrowthRefusal result) }
    {
        let mut held = self.take(rt);
        let told = held.value.targets(alloc);
        self.put(held);
        told
    }

    /// Gives a verdict to a cell, and returns whether its health flipped.
    ///
    /// Refused `NoSuch` where the cell is kept no longer. It takes no memory.
    pub fn observe<W: Wait>(
        &self,
        rt: &W,
        cell: u64,
        verdict: bool,
        threshold: usize,
    ) -> Result<bool, Refusal>
        ensures observed { UnderRegistry R.gives self.now.start (λ x y. IsObserved R.gives x cell
            (record { ok = verdict; threshold = threshold }) result y) }
        ensures refused { OnErr result (result ≡ Err Refusal.NoSuch) }
    {
        let answer = self.hand_over(rt, cell, verdict, threshold);
        if let Ok(true) = answer {
            self.changes.fetch_add(1, SeqCst);
        }
        answer
    }

    // Gives a verdict to a cell, and notes what it flipped, which is all that the lock is taken for.
    fn hand_over<W: Wait>(
        &self,
        rt: &W,
        cell: u64,
        verdict: bool,
        threshold: usize,
    ) -> Result<bool, Refusal>
        ensures observed { UnderRegistry R.gives self.now.start (λ x y. IsObserved R.gives x cell
            (record { ok = verdict; threshold = threshold }) result y) }
        ensures refused { OnErr result (result ≡ Err Refusal.NoSuch) }
    {
        let mut held = self.take(rt);
        let answer = held.value.observe(cell, verdict, threshold);
        self.note_flip(rt, &held.value, cell, &answer);
        self.put(held);
        answer
    }

    // Writes the words of a cell, where a verdict flipped it. The caller has the registry.
    fn note_flip<W: Wait>(
        &self,
        rt: &W,
        registry: &Registry<R>,
        cell: u64,
        answer: &Result<bool, Refusal>,
    )
        requires { IsRegistryOf R.gives self.now.start registry.now }
    {
        let Ok(true) = answer else {
            return;
        };
        self.tables.note(rt, cell, registry.cell_ready(cell));
    }

    /// Returns how many verdicts flipped a cell. Where the number is another one, what is ready may be another set.
    ///
    /// It takes no lock.
    pub fn changes(&self) -> u64 {
        self.changes.load(SeqCst)
    }

    /// Returns whether no number is left for one more view, without taking memory.
    pub fn is_full<W: Wait>(&self, rt: &W) -> bool
        ensures { SeenIn R.gives self.now.start (λ x. HoldsOf R.gives x (λ _ events. IsTrue result
            ↔ (2 ^ 64 ≤ registered_after events + 1))) }
    {
        let held = self.take(rt);
        let is_full = held.value.is_full();
        self.put(held);
        is_full
    }

    /// Returns whether a cell is kept and healthy, without taking memory.
    pub fn cell_ready<W: Wait>(&self, rt: &W, cell: u64) -> bool
        ensures { SeenIn R.gives self.now.start (λ x. IsCellReady R.gives x cell result) }
    {
        let held = self.take(rt);
        let told = held.value.cell_ready(cell);
        self.put(held);
        told
    }

    /// Registers a view without backends, and returns its number: 1 for the first, and so on.
    ///
    /// The marks that wait are applied.
    ///
    /// # Errors
    ///
    /// `NumbersExhausted` where 18446744073709551615 views were registered, whatever memory is left; `OutOfMemory` where memory
    /// is refused. The registry is as it was then.
    pub fn register_view<W: Wait>(&self, rt: &W, alloc: Global) -> Result<u64, Refusal>
        ensures registered { UnderRegistry R.gives self.now.start (λ x y. IsRegistered R.gives x result y) }
        ensures refused { OnErr result (IsGrowthRefusal result) }
    {
        let mut held = self.take(rt);
        let told = held.value.register_view(alloc);
        self.put(held);
        told
    }

    /// Gives a view another membership, as `Registry::update_view` does, after the marks that wait are applied.
    ///
    /// # Errors
    ///
    /// `NoSuch` where no view has this number, or its removal waits; `NumbersExhausted` where no number is left for a cell;
    /// `OutOfMemory` where memory is refused.
    pub fn update_view<W: Wait>(
        &self,
        rt: &W,
        alloc: Global,
        id: u64,
        members: BTreeSet<Backend>,
    ) -> Result<(), Refusal>
        ensures updated { UnderRegistry R.gives self.now.start (λ x y. IsUpdated R.gives x id members.keys result y) }
        ensures refused { OnErr result (IsUpdateRefusal result) }
    {
        let mut held = self.take(rt);
        let told = held.value.update_view(alloc, id, members);
        self.put(held);
        told
    }

    /// Marks a view for removal: the next call that applies marks removes it. It takes no memory.
    pub fn remove_view<W: Wait>(&self, rt: &W, id: u64)
        ensures { UnderRegistry R.gives self.now.start (λ x y. Grows R.gives x (λ events. Marked id ∷ events) y) }
    {
        let mut held = self.take(rt);
        held.value.remove_view(id);
        self.put(held);
    }
}

/// Takes the registry itself out of its lock, for one call of a view or a group; `put_registry` ends it.
///
/// The thread sleeps while another one has it. Views whose owners are gone are marked for removal first. A verdict goes through
/// `observe`, which writes the words of a cell that it flips, and counts it. It is for the crates of this library: the crate that users
/// take doesn't pass it on.
pub fn take_registry<W: Wait, R: KeyRule + Drop, C: HealthCheck + Drop>(
    registry: &HealthRegistry<R, C>,
    rt: &W,
) -> HeldRegistry<R>
    ensures registry { IsRegistryOf R.gives registry.now.start result.value }
    ensures one { result.value.id ≡ registry.now.start.id }
    ensures here { result.seat.table_id ≡ registry.now.lock }
{
    registry.take(rt)
}

/// Puts this registry back under its lock.
pub fn put_registry<R: KeyRule + Drop, C: HealthCheck + Drop>(
    registry: &HealthRegistry<R, C>,
    held: HeldRegistry<R>,
)
    requires registry { IsRegistryOf R.gives registry.now.start held.value }
    requires one { held.value.id ≡ registry.now.start.id }
    requires here { held.seat.table_id ≡ registry.now.lock }
{
    registry.put(held);
}

/// Returns words that say which cells of a registry are healthy, with room for those of so many backends.
///
/// A flip writes them from now on. They say nothing yet of a cell for which none asked. It takes no lock that a request takes. It is for
/// the crates of this library: the crate that users take doesn't pass it on.
///
/// # Errors
///
/// `AllocError` where memory is refused.
pub fn cell_words_of<W: Wait, R: KeyRule + Drop, C: HealthCheck + Drop>(
    registry: &HealthRegistry<R, C>,
    rt: &W,
    alloc: Global,
    backends: usize,
) -> Result<Arc<CellWords<R>>, AllocError>
    ensures { IfOk result (λ c. arc_value c ≡ registry.now.start) }
{
    registry.tables.words(rt, alloc, &registry.lock, backends)
}

// Marks the views whose owners are gone for removal, and releases their cells.
fn remove_gone<R: KeyRule + Drop>(registry: &mut Registry<R>, notes: &mut Vec<Arc<ViewNote>>)
    ensures { (is_of : ℕ → Bool) → All (λ n. IsNoteOf is_of (arc_value n)) notes.old.items
        → HaveLeft R.gives is_of registry.old registry.new }
{
    for _ in 0..notes.len() {
        let Some(view) = take_gone(notes) else {
            return;
        };
        let id = view.id;
        registry.remove_view(id);
        release_all(registry, id);
    }
}

// Releases each live snapshot of a view, so that the view keeps no cell for itself any more.
fn release_all<R: KeyRule + Drop>(registry: &mut Registry<R>, id: u64)
    ensures { EndsSnapshots R.gives id registry.old registry.new }
{
    for _ in 0..u64::MAX {
        let Some(generation) = registry.held_generation(id) else {
            return;
        };
        registry.release(id, generation);
    }
}

impl<R: KeyRule + Drop + Send, C: HealthCheck + Drop + Send + Sync> HealthRegistry<R, C> {
    /// Applies the marks that wait, and then checks each target once, if a check is set.
    ///
    /// With `parallel` each check runs on a thread of its own, and those for which none can be started run on the caller's. Each verdict
    /// reaches the cell of its target, if that is still kept.
    ///
    /// # Errors
    ///
    /// Those of `target_count`, before the first check.
    pub fn run_health_check<W: Log + Threads + Wait + Sync>(
        &self,
        rt: &W,
        alloc: Global,
        parallel: bool,
    ) -> Result<(), Refusal>
        ensures { OnErr result (IsGrowthRefusal result) }
    {
        let targets = self.targets(rt, alloc)?;
        let Some(check) = self.check.get() else {
            return Ok(());
        };
        if parallel {
            self.check_beside(rt, alloc, check, targets.as_slice());
        } else {
            for target in targets.as_slice() {
                self.check_one(rt, alloc, check, target);
            }
        }
        Ok(())
    }

    // Checks each target on a thread of its own where one can be started.
    fn check_beside<W: Log + Threads + Wait + Sync>(
        &self,
        rt: &W,
        alloc: Global,
        check: &C,
        targets: &[Target],
    ) {
        thread::scope(thread::scope_env(), rt, |scope| {
            for target in targets {
                if scope
                    .spawn(move || self.check_one(rt, alloc, check, target))
                    .is_err()
                {
                    self.check_one(rt, alloc, check, target);
                }
            }
        });
    }

    // Checks a target, gives the verdict of the check's answer to its cell, and reports a flip outside the lock.
    fn check_one<W: Log + Wait>(&self, rt: &W, alloc: Global, check: &C, target: &Target)
        ensures { (answer : Result Unit CheckError) × C.answers check.now target.now.backend answer
            × ((told : Result Bool Refusal) × UnderRegistry R.gives self.now.start (λ x y.
            IsObserved R.gives x target.now.cell (verdict_of (C.threshold check.now) answer) told y)) }
    {
        let answer = ask_check(alloc, check, target);
        let flipped = self.observe(rt, target.cell, answer.healthy, answer.threshold);
        report_flip(rt, alloc, check, target, answer, flipped);
    }
}

//! The view of a registry: a membership in numbered generations, the snapshots that live, and the flags of their backends. Contracts
//! describe it by the list of its events, newest first.
ghost use Rattle.std.specs.Prelude.{◌≡◌, ◌⊎◌, ◌+◌, ◌<◌, ◌^◌, ◌∷◌, [], All, IfOk, OnOk, OnErr, unwrap_or};
ghost use Rattle.std.specs.Prelude.{IfSome, IsSome, IsTrue, MatchOption, Err, List, ℕ, true, false, ◌↔◌, ◌≤◌};
ghost use Rattle.std.specs.Result.{result_map_both};
ghost use Rattle.std.specs.List.{list_any, list_all};
ghost use Rattle.std.specs.Arc.{arc_value};
ghost use Rattle.std.specs.Fn.{FnOnceReturnsAt};
ghost use Rattle.std.specs.BTreeSet.{BTreeSet};
ghost use Rattle.std.proofs.Common.{Global};
ghost use Rattle.lb_select_base.specs.Backends.{Member, same_member};
ghost use Rattle.lb_select_base.specs.Memberships.{same_members};
ghost use Rattle.lb_health_view.specs.Causes.{IsRegistryRefusal, view_cause};
ghost use Rattle.lb_health_view.specs.Snapshots.{held_less, at_generation, living, flags_listed, value_at, snapshot_of, IfHead};
ghost use Rattle.lb_health_view.specs.ViewEvents.{ViewEvent, Shown, Held, Released, Set, generation_after, membership_after, listed};
ghost use Rattle.lb_health_view.specs.ViewEvents.{flag_after};
ghost use Rattle.lb_health_view.specs.Updates.{IsViewUpdated, ViewRefuses};
ghost use Rattle.lb_health_view.specs.Views.{IsViewAfter, Flags, HoldsOfBoth};
ghost use Rattle.lb_health_view.specs.RegistrySide.{lives, registry_released, settings_of, after_settings, view_changed, registry_changed};
ghost use Rattle.lb_health_view.specs.RegistrySide.{HasCell, HasCellIn, IsHealthyIn, IsReadyIn, IsReady};
ghost use Rattle.lb_health_core.specs.Registry.{HasOwnCells, IsRegistryAfter, IsGrowthRefusal, HoldsOf};
ghost use Rattle.lb_health_core.specs.RegistryCalls.{IsRegistered};
ghost use Rattle.lb_health_core.specs.RegistryEvents.{Updated, Applied, has_view, views_after, cells_given};

use crate::cells::Cells;
use crate::snapshot::{ViewSnapshot, have_room, is_among, lists, place_of};
use lb_health_core::keys::KeyRule;
use lb_health_core::registry::Registry;
use lb_select_base::backend::{Backend, Ext, SocketAddr};
use lb_select_base::refusal::Refusal;
use std::alloc::Global;
use std::collections::{BTreeMap, BTreeSet};
use std::marker::Model;
use std::mem;
use std::sync::Arc;

/// Which backends a discovery enables (true) or disables, by identity: the address and the weight.
pub type Settings = BTreeMap<(SocketAddr, usize), bool>;

/// A view: its membership in numbered generations from 0, which is empty. A snapshot of a generation lives while it is the
/// current one or held, and a backend has a flag while a living snapshot lists it.
#[derive(Drop)]
pub struct ViewCore {
    id: u64,
    current: ViewSnapshot,
    // Those that are held, the oldest first.
    earlier: Vec<ViewSnapshot>,
    flags: BTreeMap<Backend, bool>,
    // Whether a flag may be disabled: while none was, no flag is looked up.
    disabled: bool,
}

impl Model for ViewCore {
    ghost use Rattle.std.specs.Prelude.{map, ◌∷◌};
    ghost use Rattle.lb_health_view.specs.Snapshots.{ViewValue, snapshot_of};

    ghost Value = { ViewValue };

    ghost view = { λ v. record {
      id = v.id;
      generation = v.current.generation;
      snapshots = snapshot_of v.current ∷ map snapshot_of v.earlier.items;
      flags = v.flags.entries;
    } };

    ghost use Rattle.lb_health_view.specs.Internal.ViewInvariants.{AreFlagsOf, HaveOwnCells};

    ghost invariant = { λ v. AreFlagsOf v.disabled v.flags.entries
        × HaveOwnCells (snapshot_of v.current ∷ map snapshot_of v.earlier.items) };
}

impl ViewCore {
    /// Returns the view of this number, at generation 0.
    ///
    /// Refused `OutOfMemory` where there is no room for it.
    pub fn new(alloc: Global, id: u64) -> Result<ViewCore, Refusal>
        ensures made { IfOk result (λ v. IsViewAfter [] v × (v.id ≡ id)) }
        ensures refused { OnErr result (result ≡ Err Refusal.OutOfMemory) }
    {
        let members = Arc::new(alloc, BTreeSet::new(alloc))?;
        Ok(ViewCore {
            id,
            current: ViewSnapshot {
                generation: 0,
                members,
                cells: Cells::new(alloc, BTreeMap::new(alloc)),
                holds: 0,
            },
            earlier: Vec::new(alloc),
            flags: BTreeMap::new(alloc),
            disabled: false,
        })
    }

    /// Returns a view that is registered in the registry, at generation 0.
    ///
    /// The marks that wait there are applied.
    ///
    /// # Errors
    ///
    /// `NumbersExhausted` where no number is left for a view, whatever memory is left; `OutOfMemory` where memory is refused. The
    /// registry is then as before.
    pub fn register<R: KeyRule + Drop>(
        alloc: Global,
        registry: &mut Registry<R>,
    ) -> Result<ViewCore, Refusal>
        ensures made { IfOk result (λ v. IsViewAfter [] v) }
        ensures registered { IsRegistered R.gives registry.old (result_map_both (λ v. v.id) (λ refusal. refusal) result) registry.new }
        ensures refused { OnErr result (IsGrowthRefusal result) }
        ensures one_registry { registry.new.id ≡ registry.old.id }
    {
        if registry.is_full() {
            return Err(Refusal::NumbersExhausted);
        }
        let mut view = ViewCore::new(alloc, 0)?;
        view.id = registry.register_view(alloc)?;
        Ok(view)
    }

    /// Returns the number of the view in its registry.
    pub fn id(&self) -> u64
        ensures { result ≡ self.now.id }
    {
        self.id
    }

    /// Returns the newest generation; 0 before the first membership.
    pub fn generation(&self) -> u64
        ensures { (views : List ViewEvent) → IsViewAfter views self.now → result ≡ generation_after views }
    {
        self.current.generation
    }

    /// Returns a borrow of the membership of the newest generation.
    pub fn members(&self) -> &BTreeSet<Backend>
        ensures { (views : List ViewEvent) → IsViewAfter views self.now → result.now.keys ≡ membership_after views }
    {
        &self.current.members
    }

    /// Returns the membership of the newest generation.
    ///
    /// Refused `OutOfMemory` where std refuses one more owner.
    pub fn get_backend(&self) -> Result<Arc<BTreeSet<Backend>>, Refusal>
        ensures members { IfOk result (λ set. (views : List ViewEvent) → IsViewAfter views self.now
            → (arc_value set).keys ≡ membership_after views) }
        ensures refused { OnErr result (result ≡ Err Refusal.OutOfMemory) }
    {
        let members = Arc::try_clone(&self.current.members)?;
        Ok(members)
    }

    /// Returns whether the flag of a backend that a living snapshot lists is set to enabled. It takes no memory.
    pub fn is_enabled(&self, backend: &Backend) -> bool
        ensures { (views : List ViewEvent) → IsViewAfter views self.now → listed views backend.now ≡ true
            → result ≡ flag_after views backend.now }
    {
        if !self.disabled {
            return true;
        }
        self.flags.get(backend).copied().unwrap_or(true)
    }

    /// Enables or disables a backend that a living snapshot lists, by identity; another is left alone.
    ///
    /// It takes no memory.
    pub fn set_enable(&mut self, backend: &Backend, enabled: bool)
        ensures after { (views : List ViewEvent) → IsViewAfter views self.old → IsViewAfter (Set backend.now enabled ∷ views) self.new }
        ensures id { self.new.id ≡ self.old.id }
        ensures generation { self.new.generation ≡ self.old.generation }
        ensures snapshots { self.new.snapshots ≡ self.old.snapshots }
    {
        if lists(&self.current, self.earlier.as_slice(), backend) {
            if let Some(flag) = self.flags.get_mut(backend) {
                *flag = enabled;
                self.disabled = self.disabled | !enabled;
            }
        }
    }

    /// Returns whether the snapshot of this generation may be held once more.
    ///
    /// It may while it is held fewer than 18446744073709551615 times, or none lives. It takes no memory.
    pub fn can_hold(&self, generation: u64) -> bool
        ensures { IsTrue result ↔ All (λ s. s.generation ≡ generation → s.holds + 1 < 2 ^ 64) self.now.snapshots }
    {
        have_room(&self.current, self.earlier.as_slice(), generation)
    }

    /// Holds the snapshot of this generation once more; where none lives, nothing changes.
    ///
    /// The caller keeps the count below 18446744073709551615, as `can_hold` says. It takes no memory.
    pub fn hold(&mut self, generation: u64)
        requires { All (λ s. s.generation ≡ generation → s.holds + 1 < 2 ^ 64) self.old.snapshots }
        ensures after { (views : List ViewEvent) → IsViewAfter views self.old → IsViewAfter (Held generation ∷ views) self.new }
        ensures id { self.new.id ≡ self.old.id }
    {
        if self.current.generation == generation {
            self.current.holds += 1;
        } else if let Some(place) = place_of(self.earlier.as_slice(), generation) {
            self.earlier[place].holds += 1;
        }
    }

    // Takes back one hold of the snapshot of this generation, and leaves the snapshot where it is.
    fn hold_less(&mut self, generation: u64)
        ensures { self.new ≡ record self.old { snapshots = at_generation generation held_less self.old.snapshots } }
    {
        if self.current.generation == generation {
            self.current.holds = self.current.holds.saturating_sub(1);
        } else if let Some(place) = place_of(self.earlier.as_slice(), generation) {
            let snapshot = &mut self.earlier[place];
            snapshot.holds = snapshot.holds.saturating_sub(1);
        }
    }

    // Takes out the snapshots that no longer live, and then the flags of the backends that none lists.
    fn prune(&mut self)
        ensures id { self.new.id ≡ self.old.id }
        ensures generation { self.new.generation ≡ self.old.generation }
        ensures snapshots { self.new.snapshots ≡ living self.old.generation self.old.snapshots }
        ensures flags { self.new.flags ≡ flags_listed self.new.snapshots self.old.flags }
    {
        let newest = self.current.generation;
        self.earlier.retain(|snapshot| snapshot.generation == newest || snapshot.holds > 0);
        let current = &self.current;
        let earlier = self.earlier.as_slice();
        self.flags
            .retain(|backend, _| lists(current, earlier, backend));
    }

    // Whether the snapshot of this generation lives.
    fn lives(&self, generation: u64) -> bool
        ensures { result ≡ lives generation self.now.snapshots }
    {
        self.current.generation == generation || is_among(self.earlier.as_slice(), generation)
    }

    /// Takes back one hold of the snapshot of this generation.
    ///
    /// Where it was the last of a snapshot that isn't the current one, the snapshot ends: its cells are kept no longer by it, and flags of
    /// backends that none lists any more are forgotten. It takes no memory.
    pub fn release<R: KeyRule + Drop>(&mut self, registry: &mut Registry<R>, generation: u64)
        ensures view { (views : List ViewEvent) → IsViewAfter views self.old → IsViewAfter (Released generation ∷ views) self.new }
        ensures registry { HoldsOfBoth R.gives self.old registry.old (λ key_of views events. IsRegistryAfter R.gives key_of
            (registry_released self.old.id generation views events) registry.new) }
        ensures id { self.new.id ≡ self.old.id }
        ensures one_registry { registry.new.id ≡ registry.old.id }
    {
        self.hold_less(generation);
        self.prune();
        if !self.lives(generation) {
            registry.release(self.id, generation);
        }
    }

    /// Returns why the registry refuses the view another membership: `NoSuch` where it has no such view, `NumbersExhausted` where no number
    /// is left for a cell, and else `OutOfMemory`.
    ///
    /// It takes no memory.
    pub fn registry_cause<R: KeyRule + Drop>(
        &self,
        registry: &Registry<R>,
        members: &BTreeSet<Backend>,
    ) -> Refusal
        ensures kind { IsRegistryRefusal result }
        ensures unknown { HoldsOf R.gives registry.now (λ key_of events. result ≡ Refusal.NoSuch
            ↔ (has_view self.now.id (views_after events) ≡ false)) }
        ensures numbers { HoldsOf R.gives registry.now (λ key_of events. has_view self.now.id (views_after events) ≡ true
            → (result ≡ Refusal.NumbersExhausted
            ↔ (2 ^ 64 ≤ cells_given key_of (Updated self.now.id members.now.keys ∷ Applied ∷ events)))) }
    {
        if !registry.has_view(self.id) {
            return Refusal::NoSuch;
        }
        if registry.lacks_numbers(members) {
            return Refusal::NumbersExhausted;
        }
        Refusal::OutOfMemory
    }

    /// Returns why view and registry refuse another membership: `GenerationsExhausted` where the newest generation is
    /// 18446744073709551615, and else as `registry_cause`.
    ///
    /// It takes no memory.
    pub fn cause<R: KeyRule + Drop>(
        &self,
        registry: &Registry<R>,
        members: &BTreeSet<Backend>,
    ) -> Refusal
        ensures kind { (result ≡ Refusal.GenerationsExhausted) ⊎ IsRegistryRefusal result }
        ensures least { HoldsOfBoth R.gives self.now registry.now (λ key_of views events. result
            ≡ unwrap_or (view_cause key_of self.now.id members.now.keys events views) Refusal.OutOfMemory) }
    {
        if self.generation() == u64::MAX {
            return Refusal::GenerationsExhausted;
        }
        self.registry_cause(registry, members)
    }

    /// Returns whether a backend is ready in the newest membership: listed, enabled, and its cell kept and healthy.
    ///
    /// It takes no memory.
    pub fn ready<R: KeyRule + Drop>(&self, registry: &Registry<R>, backend: &Backend) -> bool
        ensures { HoldsOfBoth R.gives self.now registry.now (λ key_of views events. IsTrue result
            ↔ IsReady key_of views events (generation_after views) backend.now) }
    {
        self.ready_in(registry, self.current.generation, backend)
    }

    /// Returns whether a backend is ready in the snapshot of this generation, by the cells of that snapshot.
    ///
    /// It isn't where no such snapshot lives. It takes no memory.
    pub fn ready_in<R: KeyRule + Drop>(
        &self,
        registry: &Registry<R>,
        generation: u64,
        backend: &Backend,
    ) -> bool
        ensures { HoldsOfBoth R.gives self.now registry.now (λ key_of views events. IsTrue result
            ↔ IsReady key_of views events generation backend.now) }
    {
        if self.current.generation == generation {
            return self.is_ready(registry, &self.current, backend);
        }
        match place_of(self.earlier.as_slice(), generation) {
            Some(place) => self.is_ready(registry, &self.earlier[place], backend),
            None => false,
        }
    }

    /// Returns the number of the cell that a backend has in the snapshot of this generation, and whether the backend is enabled.
    ///
    /// `None` where no such snapshot lives, or it doesn't list the backend. The backend is ready there while it is enabled and that cell
    /// is kept and healthy. It takes no memory.
    pub fn cell_and_flag(&self, generation: u64, backend: &Backend) -> Option<(u64, bool)>
        ensures { (views : List ViewEvent) → IsViewAfter views self.now
            → IfSome result (λ r. HasCellIn views generation backend.now r.0 r.1) }
    {
        if self.current.generation == generation {
            return self.cell_of(&self.current, backend);
        }
        match place_of(self.earlier.as_slice(), generation) {
            Some(place) => self.cell_of(&self.earlier[place], backend),
            None => None,
        }
    }

    // The cell that one of the snapshots has for a backend, and whether the backend is enabled.
    fn cell_of(&self, snapshot: &ViewSnapshot, backend: &Backend) -> Option<(u64, bool)>
        ensures { (views : List ViewEvent) → IsViewAfter views self.now → HasOwnCells (snapshot_of snapshot.now).members
            (snapshot_of snapshot.now).cells → (list_any (same_member backend.now) (snapshot_of snapshot.now).members ≡ true
            → listed views backend.now ≡ true)
            → IfSome result (λ r. HasCell views backend.now r.0 r.1 (snapshot_of snapshot.now)) }
    {
        // The cells are those of members alone, so one search finds both.
        match snapshot.cells.get(backend) {
            Some(cell) => Some((cell, self.is_enabled(backend))),
            None => None,
        }
    }

    // Whether a backend is ready in one of the snapshots.
    fn is_ready<R: KeyRule + Drop>(
        &self,
        registry: &Registry<R>,
        snapshot: &ViewSnapshot,
        backend: &Backend,
    ) -> bool
        ensures { HoldsOfBoth R.gives self.now registry.now (λ key_of views events. HasOwnCells (snapshot_of snapshot.now).members
            (snapshot_of snapshot.now).cells → (list_any (same_member backend.now) (snapshot_of snapshot.now).members ≡ true
            → listed views backend.now ≡ true) → (IsTrue result ↔ IsReadyIn key_of views events backend.now (snapshot_of snapshot.now))) }
    {
        // The cells are those of members alone, so one search finds both.
        if !is_healthy(registry, snapshot, backend) {
            return false;
        }
        self.is_enabled(backend)
    }

    /// Takes what was discovered. Returns what `changed` returned, or `None` where the membership is the same.
    ///
    /// A set whose identities differ from the newest membership becomes the next generation, and then `changed` borrows it; otherwise
    /// nothing changes but flags. Then the settings reach the members of the newest membership.
    ///
    /// # Errors
    ///
    /// `GenerationsExhausted` where the membership is another one and the newest generation is 18446744073709551615; `NoSuch` where the
    /// registry has no such view; `NumbersExhausted` where no number is left for a cell; `OutOfMemory` where memory is refused and no
    /// other cause applies. View, flags and registry are then as before.
    pub fn update<R: KeyRule + Drop, T, F: FnOnce(&BTreeSet<Backend>) -> T>(
        &mut self,
        alloc: Global,
        registry: &mut Registry<R>,
        discovered: BTreeSet<Backend>,
        settings: Settings,
        changed: F,
    ) -> Result<Option<T>, Refusal>
        requires { F.IsAlwaysCallable changed }
        ensures updated { IsViewUpdated R.gives discovered.keys (settings_of settings.entries) self.old registry.old result self.new
            registry.new }
        ensures called { IfOk result (λ answer. (views : List ViewEvent) → IsViewAfter views self.old
            → MatchOption answer (same_members discovered.keys (membership_after views) ≡ true)
            (λ t. (same_members discovered.keys (membership_after views) ≡ false)
            × ((set : BTreeSet Member Global) × (set.keys ≡ discovered.keys) × FnOnceReturnsAt F.FnOnce changed set t))) }
        ensures told { IfOk result (λ answer. MatchOption answer (self.new.generation ≡ self.old.generation)
            (λ t. (self.new.generation ≡ self.old.generation + 1) × IfHead self.new.snapshots (λ s. (set : BTreeSet Member Global)
            × (set.keys ≡ s.members) × FnOnceReturnsAt F.FnOnce changed set t))) }
    {
        if self.is_membership(&discovered) {
            self.set_members(alloc, settings);
            return Ok(None);
        }
        self.change(alloc, registry, discovered)?;
        let answer = changed(&self.current.members);
        self.set_members(alloc, settings);
        Ok(Some(answer))
    }

    // Makes another membership the newest. It takes memory first, and changes nothing that a contract sees before it has all.
    fn change<R: KeyRule + Drop>(
        &mut self,
        alloc: Global,
        registry: &mut Registry<R>,
        members: BTreeSet<Backend>,
    ) -> Result<(), Refusal>
        ensures view { OnOk result (HoldsOfBoth R.gives self.old registry.old (λ key_of views events. IsViewAfter
            (view_changed key_of self.old.id members.keys events views) self.new)) }
        ensures registry { OnOk result (HoldsOfBoth R.gives self.old registry.old (λ key_of views events. IsRegistryAfter R.gives key_of
            (registry_changed key_of self.old.id members.keys views events) registry.new)) }
        ensures shown { OnOk result (IfHead self.new.snapshots (λ s. s.members ≡ members.keys)) }
        ensures some { OnOk result ((cells : List (Member × ℕ)) × ((views : List ViewEvent) → IsViewAfter views self.old
            → IsViewAfter (Shown members.keys cells ∷ views) self.new)) }
        ensures next { OnOk result (self.new.generation ≡ self.old.generation + 1) }
        ensures refusals { ViewRefuses R.gives (λ Holds. Holds) members.keys self.old registry.old result self.new registry.new }
    {
        let last = self.current.generation;
        let Some(next) = last.checked_add(1) else {
            return Err(Refusal::GenerationsExhausted);
        };
        if !registry.has_view(self.id) {
            return Err(Refusal::NoSuch);
        }
        if registry.lacks_numbers(&members) {
            return Err(Refusal::NumbersExhausted);
        }
        self.earlier.reserve(1)?;
        let (members, copy) = prepared(alloc, &mut self.flags, members)?;
        // The last that may be refused.
        let cells = registry.show_view(alloc, self.id, next, copy)?;
        let hinted = Cells::new(alloc, cells);
        let snapshot = ViewSnapshot {
            generation: next,
            members,
            cells: hinted,
            holds: 0,
        };
        self.earlier
            .push_reserved(mem::replace(&mut self.current, snapshot));
        self.prune();
        if !self.lives(last) {
            registry.release(self.id, last);
        }
        Ok(())
    }

    // Settings of backends of the newest membership; others do nothing. It takes no memory.
    fn set_members(&mut self, alloc: Global, settings: Settings)
        ensures after { (views : List ViewEvent) → IsViewAfter views self.old
            → IsViewAfter (after_settings (settings_of settings.entries) views) self.new }
        ensures id { self.new.id ≡ self.old.id }
        ensures generation { self.new.generation ≡ self.old.generation }
        ensures snapshots { self.new.snapshots ≡ self.old.snapshots }
    {
        for ((addr, weight), enabled) in settings {
            let backend = Backend {
                addr,
                weight,
                ext: Ext::new(alloc),
            };
            if self.is_member(&backend) {
                self.set_enable(&backend, enabled);
            }
        }
    }

    // Whether the newest membership has the backend, by identity.
    fn is_member(&self, backend: &Backend) -> bool
        ensures { (views : List ViewEvent) → IsViewAfter views self.now
            → result ≡ list_any (same_member backend.now) (membership_after views) }
    {
        self.current.members.contains(backend)
    }

    /// Returns whether the newest membership is this one, by identity, without taking memory.
    pub fn is_membership(&self, members: &BTreeSet<Backend>) -> bool
        ensures { (views : List ViewEvent) → IsViewAfter views self.now
            → result ≡ same_members members.now.keys (membership_after views) }
    {
        is_same(members, &self.current.members)
    }
}

// Whether two memberships have the same identities.
fn is_same(members: &BTreeSet<Backend>, others: &BTreeSet<Backend>) -> bool
    ensures { result ≡ same_members members.now.keys others.now.keys }
{
    is_within(members, others) && is_within(others, members)
}

// Whether each backend is one of the others, by identity.
fn is_within(members: &BTreeSet<Backend>, others: &BTreeSet<Backend>) -> bool
    ensures { result ≡ list_all (λ b. list_any (same_member b) others.now.keys) members.now.keys }
{
    members.iter().all(|backend| others.contains(backend))
}

// Gives each backend that has no flag the flag enabled.
fn flag_all(flags: &mut BTreeMap<Backend, bool>, members: &BTreeSet<Backend>) -> Result<(), Refusal>
    ensures flags { (q : Member) → Flags flags.old.entries flags.new.entries q }
    ensures all { OnOk result ((q : Member) → list_any (same_member q) members.now.keys ≡ true → IsSome (value_at flags.new.entries q)) }
    ensures refused { OnErr result (result ≡ Err Refusal.OutOfMemory) }
{
    for backend in members {
        if !flags.contains_key(backend) {
            flags.insert(backend.clone()?, true)?;
        }
    }
    Ok(())
}

// The same members once more.
fn copied(members: &BTreeSet<Backend>) -> Result<BTreeSet<Backend>, Refusal>
    ensures ok { IfOk result (λ copy. copy.keys ≡ members.now.keys) }
    ensures refused { OnErr result (result ≡ Err Refusal.OutOfMemory) }
{
    let copy = members.clone()?;
    Ok(copy)
}

// Gives each member a flag. Returns the membership, shared, and the same members once more.
fn prepared(
    alloc: Global,
    flags: &mut BTreeMap<Backend, bool>,
    members: BTreeSet<Backend>,
) -> Result<(Arc<BTreeSet<Backend>>, BTreeSet<Backend>), Refusal>
    ensures flags { (q : Member) → Flags flags.old.entries flags.new.entries q }
    ensures all { OnOk result ((q : Member) → list_any (same_member q) members.keys ≡ true → IsSome (value_at flags.new.entries q)) }
    ensures ok { IfOk result (λ both. ((arc_value both.0).keys ≡ members.keys) × (both.1.keys ≡ members.keys)) }
    ensures refused { OnErr result (result ≡ Err Refusal.OutOfMemory) }
{
    flag_all(flags, &members)?;
    let copy = copied(&members)?;
    let shared = Arc::new(alloc, members)?;
    Ok((shared, copy))
}

// Whether the cell that a snapshot has for a backend is kept and healthy.
fn is_healthy<R: KeyRule + Drop>(
    registry: &Registry<R>,
    snapshot: &ViewSnapshot,
    backend: &Backend,
) -> bool
    ensures { HoldsOf R.gives registry.now (λ key_of events. IsTrue result
        ↔ IsHealthyIn key_of events backend.now (snapshot_of snapshot.now)) }
{
    match snapshot.cells.get(backend) {
        Some(cell) => registry.cell_ready(cell),
        None => false,
    }
}

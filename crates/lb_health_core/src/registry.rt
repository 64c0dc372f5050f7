//! The registry of health: its views, and the cells that their targets share by health key. Contracts describe it by the history of its
//! calls, newest first; a refused call leaves each history as it was, and applies no mark.
ghost use Rattle.std.specs.Prelude.{◌≡◌, ◌↔◌, ◌+◌, ◌<◌, ◌≤◌, ◌^◌, ℕ, List, [], ◌∷◌, length, true, false, IsTrue, IfOk};
ghost use Rattle.std.specs.Prelude.{OnOk, OnErr, IsErrOf, Err, ◌++◌, ◌==◌, vec_len, vec_capacity};
ghost use Rattle.std.specs.List.{filter_map, find};
ghost use Rattle.std.specs.Option.{option_map};
ghost use Rattle.lb_select_base.specs.Backends.{Member, member_cmp, same_member};
ghost use Rattle.lb_health_core.specs.Fresh.{has_key};
ghost use Rattle.lb_health_core.specs.Keys.{by_identity, by_address, IsRuleOf};
ghost use Rattle.lb_health_core.specs.Registry.{HasOwnCells, IsRegistryAfter, target_at, targets_after};
ghost use Rattle.lb_health_core.specs.Registry.{IsGrowthRefusal, HoldsOf, Grows, KeepsHistory};
ghost use Rattle.lb_health_core.specs.Registry.{IsUpdateRefusal};
ghost use Rattle.lb_health_core.specs.RegistryCalls.{IsApplied, IsCellReady, IsObserved, IsRegistered, IsUpdated};
ghost use Rattle.lb_health_core.specs.RegistryEvents.{Event, Applied, Updated, Marked, Released, Configured};
ghost use Rattle.lb_health_core.specs.RegistryEvents.{has_view, registered_after, views_after, after_show};
ghost use Rattle.lb_health_core.specs.RegistryEvents.{shown_cells, cells_given, cell_events};
ghost use Rattle.lb_health_core.specs.Table.{table_value, IsTableAfter, IsPruned};
ghost use Rattle.lb_health_core.specs.Targets.{live, target_keys};

use crate::change::{apply, is_same, place_of, replace};
use crate::fresh::{is_taken, lacks_numbers};
use crate::keys::{ByNumber, KeyRule, Rule};
use crate::table::{CellTable, Held};
use crate::targets::{Target, TargetPlace, View, live_order};
use lb_select_base::backend::Backend;
use lb_select_base::refusal::Refusal;
use std::alloc::Global;
use std::collections::{BTreeMap, BTreeSet};
use std::marker::Model;
use std::snapshot::Snapshot;

/// Which registry it is. Only contracts see it: a call that borrows a registry can require the one that it was made with.
///
/// Nothing is known of it but that no call changes it, so no two registries can be shown to be the same one. Nothing reads the number.
#[derive(Drop)]
pub struct RegistryId {
    number: u64,
}

impl Model for RegistryId {
    ghost use Rattle.std.specs.Prelude.{ℕ};

    ghost Value = { ℕ };

    ghost view = { λ i. i.number };
}

/// A registry whose backends share cells by a rule: its views with their memberships, and the cells of their targets.
///
/// Contracts see plain lists: the views, and what is stored of the cells. They are stated by the history of the registry's calls.
#[derive(Drop)]
pub struct Registry<R = Rule<ByNumber>> {
    id: RegistryId,
    rule: R,
    views: Vec<View>,
    registered: u64,
    table: CellTable<Backend>,
}

impl<R> Model for Registry<R> {
    ghost use Rattle.std.specs.Prelude.{map};
    ghost use Rattle.lb_health_core.specs.Registry.{RegistryValue};
    ghost use Rattle.lb_health_core.specs.Table.{table_value};
    ghost use Rattle.lb_health_core.specs.Targets.{view_value};

    ghost Value = { RegistryValue R };

    ghost view = { λ r. record {
      id = r.id;
      rule = r.rule;
      views = map view_value r.views.items;
      registered = r.registered;
      table = table_value r.table;
    } };
}

/// The registry of health: keyed by identity, by address, or by a caller's rule.
pub type RegistryCore = Registry<Rule<ByNumber>>;

impl Registry<Rule<ByNumber>> {
    /// Returns a registry without views that is keyed by identity: backends share a cell where their address and weight are the same.
    pub fn new(alloc: Global) -> RegistryCore
        ensures { IsRegistryAfter ⟦<Rule<ByNumber> as KeyRule>⟧.gives by_identity [] result }
    {
        Registry::with_rule(alloc, Rule::Identity)
    }

    /// Returns a registry without views that is keyed by address: backends share a cell where their address is the same.
    pub fn by_address(alloc: Global) -> RegistryCore
        ensures { IsRegistryAfter ⟦<Rule<ByNumber> as KeyRule>⟧.gives by_address [] result }
    {
        Registry::with_rule(alloc, Rule::Address)
    }

    /// Returns a registry without views that is keyed by the caller's rule: backends share a cell where it gives them the same number.
    pub fn with_equivalence(alloc: Global, rule: ByNumber) -> RegistryCore
        ensures { (key_of : Member → Member) → IsRuleOf ⟦<ByNumber as KeyRule>⟧.gives rule key_of
            → IsRegistryAfter ⟦<Rule<ByNumber> as KeyRule>⟧.gives key_of [] result }
    {
        Registry::with_rule(alloc, Rule::Equivalence(rule))
    }
}

impl<R: KeyRule + Drop> Registry<R> {
    /// Returns a registry without views, whose backends share cells by this rule. Cells begin healthy.
    pub fn with_rule(alloc: Global, rule: R) -> Registry<R>
        ensures { (key_of : Member → Member) → IsRuleOf R.gives rule key_of → IsRegistryAfter R.gives key_of [] result }
    {
        Registry {
            id: RegistryId { number: 0 },
            rule,
            views: Vec::new(alloc),
            registered: 0,
            table: CellTable::new(alloc),
        }
    }

    /// Returns which registry this is, for contracts alone: what is returned has no bytes.
    pub fn id(&self) -> Snapshot<RegistryId>
        ensures { result.value ≡ self.now.id }
    {
        Snapshot::of(&self.id)
    }

    /// Returns the registry with cells that begin unhealthy from now on; those that are there stay. It takes no memory.
    pub fn start_unhealthy(mut self) -> Registry<R>
        ensures after { Grows R.gives self (λ events. Configured false ∷ events) result }
        ensures one { result.id ≡ self.id }
    {
        self.table.configure(false);
        self
    }

    /// Registers a view without backends, and returns its number: 1 for the first, and so on.
    ///
    /// The marks that wait are applied.
    ///
    /// # Errors
    ///
    /// `NumbersExhausted` where 18446744073709551615 views were registered, whatever memory is left; `OutOfMemory` where memory
    /// is refused.
    pub fn register_view(&mut self, alloc: Global) -> Result<u64, Refusal>
        ensures registered { IsRegistered R.gives self.old result self.new }
        ensures refused { OnErr result (IsGrowthRefusal result) }
        ensures one { self.new.id ≡ self.old.id }
    {
        let Some(id) = self.registered.checked_add(1) else {
            return Err(Refusal::NumbersExhausted);
        };
        let view = View {
            id,
            marked: false,
            members: BTreeSet::new(alloc),
        };
        self.views.push(view)?;
        match apply(alloc, &self.rule, &mut self.views, &mut self.table) {
            Ok(()) => {
                self.registered = id;
                Ok(id)
            }
            Err(refusal) => {
                self.views.pop();
                Err(refusal)
            }
        }
    }

    /// Returns whether no number is left for one more view: 18446744073709551615 were registered.
    ///
    /// It takes no memory.
    pub fn is_full(&self) -> bool
        ensures { HoldsOf R.gives self.now (λ key_of events. IsTrue result ↔ (2 ^ 64 ≤ registered_after events + 1)) }
    {
        self.registered == u64::MAX
    }

    /// Returns whether fewer numbers are left than a view's update to this membership starts cells.
    ///
    /// It takes no memory.
    pub fn lacks_numbers(&self, members: &BTreeSet<Backend>) -> bool
        ensures { HoldsOf R.gives self.now (λ key_of events. (id : ℕ) → has_view id (views_after events) ≡ true → (IsTrue result
            ↔ (2 ^ 64 ≤ cells_given key_of (Updated id members.now.keys ∷ Applied ∷ events)))) }
    {
        lacks_numbers(&self.rule, &self.views, members, self.table.numbering.next)
    }

    /// Returns how many numbers are left for cells, without taking memory.
    pub fn numbers_left(&self) -> u64
        ensures { HoldsOf R.gives self.now (λ key_of events. result + cells_given key_of events + 1 ≡ 2 ^ 64) }
    {
        u64::MAX - self.table.numbering.next
    }

    /// Returns whether a backend of a view whose removal doesn't wait has the key of this one, which so starts no cell.
    ///
    /// It takes no memory.
    pub fn has_key(&self, backend: &Backend) -> bool
        ensures { HoldsOf R.gives self.now (λ key_of events. result ≡ has_key key_of (live (views_after events)) (key_of backend.now)) }
    {
        is_taken(&self.rule, &self.views, backend)
    }

    /// Returns whether two backends have one key, by which they share a cell.
    ///
    /// It takes no memory.
    pub fn same_key(&self, backend: &Backend, other: &Backend) -> bool
        ensures { HoldsOf R.gives self.now (λ key_of events. result ≡ same_member (key_of backend.now) (key_of other.now)) }
    {
        self.rule.same(backend, other)
    }

    /// Returns whether there is a view of this number whose removal doesn't wait.
    ///
    /// It takes no memory.
    pub fn has_view(&self, id: u64) -> bool
        ensures { HoldsOf R.gives self.now (λ key_of events. result ≡ has_view id (views_after events)) }
    {
        match place_of(&self.views, id) {
            Some(_) => true,
            None => false,
        }
    }

    /// Gives a view another membership, after the marks that wait are applied.
    ///
    /// The same membership, by identity, changes nothing and applies no mark.
    ///
    /// # Errors
    ///
    /// `NoSuch` where no view has this number, or its removal waits; `NumbersExhausted` where no number is left for a cell;
    /// `OutOfMemory` where memory is refused.
    pub fn update_view(
        &mut self,
        alloc: Global,
        id: u64,
        members: BTreeSet<Backend>,
    ) -> Result<(), Refusal>
        ensures updated { IsUpdated R.gives self.old id members.keys result self.new }
        ensures refused { OnErr result (IsUpdateRefusal result) }
        ensures one { self.new.id ≡ self.old.id }
    {
        let Some(place) = place_of(&self.views, id) else {
            return Err(Refusal::NoSuch);
        };
        if is_same(&members, &self.views[place].members) {
            return Ok(());
        }
        if lacks_numbers(&self.rule, &self.views, &members, self.table.numbering.next) {
            return Err(Refusal::NumbersExhausted);
        }
        replace(
            alloc,
            &self.rule,
            &mut self.views,
            place,
            members,
            &mut self.table,
        )?;
        Ok(())
    }

    /// Gives a view another membership, as `update_view` does, and returns the cell of each backend.
    ///
    /// The same membership counts as another one too. It lives as the snapshot of this generation: its cells are kept until it is
    /// released.
    ///
    /// # Errors
    ///
    /// Those of `update_view`.
    pub fn show_view(
        &mut self,
        alloc: Global,
        id: u64,
        generation: u64,
        members: BTreeSet<Backend>,
    ) -> Result<BTreeMap<Backend, u64>, Refusal>
        ensures ok { OnOk result (Grows R.gives self.old (λ events. after_show id generation members.keys events) self.new) }
        ensures cells { IfOk result (λ cells. HoldsOf R.gives self.old (λ key_of events. cells.entries
            ≡ shown_cells key_of id members.keys events)) }
        ensures own { IfOk result (λ cells. HasOwnCells members.keys cells.entries) }
        ensures err { OnErr result (KeepsHistory R.gives self.old self.new) }
        ensures unknown { HoldsOf R.gives self.old (λ key_of events. IsErrOf result Refusal.NoSuch
            ↔ (has_view id (views_after events) ≡ false)) }
        ensures exhausted { HoldsOf R.gives self.old (λ key_of events. has_view id (views_after events) ≡ true
            → (IsErrOf result Refusal.NumbersExhausted ↔ (2 ^ 64 ≤ cells_given key_of (Updated id members.keys ∷ Applied ∷ events)))) }
        ensures refused { OnErr result (IsUpdateRefusal result) }
        ensures one { self.new.id ≡ self.old.id }
    {
        let Some(place) = place_of(&self.views, id) else {
            return Err(Refusal::NoSuch);
        };
        if lacks_numbers(&self.rule, &self.views, &members, self.table.numbering.next) {
            return Err(Refusal::NumbersExhausted);
        }
        self.table.held.reserve(1)?;
        let shown = replace(
            alloc,
            &self.rule,
            &mut self.views,
            place,
            members,
            &mut self.table,
        )?;
        self.table.hold(Held {
            view: id,
            generation,
            cells: shown.numbers,
        });
        Ok(shown.by_backend)
    }

    /// Ends the life of a view's snapshot of a generation. It takes no memory.
    pub fn release(&mut self, id: u64, generation: u64)
        ensures after { Grows R.gives self.old (λ events. Released id generation ∷ events) self.new }
        ensures one { self.new.id ≡ self.old.id }
    {
        self.table.release(id, generation);
    }

    /// Returns the generation of a view's oldest live snapshot, or `None` where it has none: once each is released, the view keeps no cell
    /// but those of its targets.
    ///
    /// It takes no memory.
    pub fn held_generation(&self, id: u64) -> Option<u64>
        ensures { result ≡ option_map (λ h. h.generation) (find (λ h. h.view == id) self.now.table.held) }
    {
        self.table.held_generation(id)
    }

    /// Marks a view for removal: the next call that applies marks removes it.
    ///
    /// A view that isn't there or has a mark stays so. It takes no memory.
    pub fn remove_view(&mut self, id: u64)
        ensures after { Grows R.gives self.old (λ events. Marked id ∷ events) self.new }
        ensures one { self.new.id ≡ self.old.id }
    {
        if let Some(place) = place_of(&self.views, id) {
            self.views[place].marked = true;
        }
    }

    /// Takes a verdict of a check for a cell, and returns whether the cell's health flipped.
    ///
    /// The threshold is the one that holds for this verdict; 0 acts as 1. It takes no memory.
    ///
    /// # Errors
    ///
    /// `NoSuch` where the cell isn't kept.
    pub fn observe(&mut self, cell: u64, verdict: bool, threshold: usize) -> Result<bool, Refusal>
        ensures observed { IsObserved R.gives self.old cell (record { ok = verdict; threshold = threshold }) result self.new }
        ensures refused { OnErr result (result ≡ Err Refusal.NoSuch) }
        ensures one { self.new.id ≡ self.old.id }
    {
        self.table.observe(cell, verdict, threshold)
    }

    /// Returns whether a cell is kept and healthy, without taking memory.
    pub fn cell_ready(&self, cell: u64) -> bool
        ensures { IsCellReady R.gives self.now cell result }
    {
        self.table.cell_ready(cell)
    }

    /// Returns how many targets there are, after the marks that wait are applied.
    ///
    /// Where none waits, it takes no memory, and its time does not grow with the targets.
    ///
    /// # Errors
    ///
    /// `OutOfMemory` where memory is refused. Marks that are applied start no cell, so a number is always left.
    pub fn target_count(&mut self, alloc: Global) -> Result<usize, Refusal>
        ensures counted { IsApplied R.gives (λ key_of events count. count ≡ length (target_keys key_of (views_after events)))
            self.old result self.new }
        ensures refused { OnErr result (IsGrowthRefusal result) }
        ensures one { self.new.id ≡ self.old.id }
    {
        apply(alloc, &self.rule, &mut self.views, &mut self.table)?;
        Ok(self.table.numbering.by_key.len())
    }

    /// Returns the targets with their cells, by identity and then by view, after the marks that wait are applied.
    ///
    /// # Errors
    ///
    /// Those of `target_count`.
    pub fn targets(&mut self, alloc: Global) -> Result<Vec<Target>, Refusal>
        ensures listed { IsApplied R.gives (λ key_of events targets. targets.items ≡ targets_after key_of events)
            self.old result self.new }
        ensures refused { OnErr result (IsGrowthRefusal result) }
        ensures one { self.new.id ≡ self.old.id }
    {
        let order = live_order(alloc, &self.rule, &self.views)?;
        let mut targets = Vec::new(alloc);
        targets.reserve(order.len())?;
        apply(alloc, &self.rule, &mut self.views, &mut self.table)?;
        Ok(with_targets(&self.table, order, targets))
    }
}

// Puts the targets of this order into a list that has room for them, with what the table says of their cells.
fn with_targets(
    table: &CellTable<Backend>,
    order: BTreeMap<TargetPlace, Backend>,
    mut targets: Vec<Target>,
) -> Vec<Target>
    requires { vec_len targets + length order.entries ≤ vec_capacity targets }
    ensures { (key_of : Member → Member) (events : List Event) → IsTableAfter member_cmp (cell_events key_of events) (table_value table.now)
        → IsPruned member_cmp (cell_events key_of events) (table_value table.now)
        → result.items ≡ targets.items ++ filter_map (target_at key_of events) order.entries }
{
    for (place, key) in order {
        if let Some(cell) = table.numbering.by_key.get(&key).copied() {
            targets.push_reserved(Target {
                backend: place.backend,
                cell,
                healthy: table.cell_ready(cell),
            });
        }
    }
    targets
}

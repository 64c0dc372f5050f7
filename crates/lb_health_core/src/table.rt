//! The table of cells: the health of each cell that is kept, the numbers of the targets' cells, and the live snapshots that
//! keep cells of targets that are gone.
ghost use Rattle.std.specs.Prelude.{◌≡◌, ◌≢◌, ◌↔◌, ◌<◌, ◌≤◌, ◌^◌, ◌==◌, ℕ, List, [], ◌∷◌, Bool, true, IsTrue, IfOk, OnOk, OnErr, IsOk};
ghost use Rattle.std.specs.Prelude.{IsErrOf, IsSome, Err, MatchOption, map, vec_len, vec_capacity};
ghost use Rattle.std.specs.Ordering.{eq_by_cmp, nat_cmp};
ghost use Rattle.std.specs.List.{find, list_any};
ghost use Rattle.std.specs.Option.{option_map};
ghost use Rattle.lb_health_core.specs.CellEvents.{CellEvent, Changed, Observed, Held as HeldNow, Released, Configured, verdicts_of};
ghost use Rattle.lb_health_core.specs.CellEvents.{start_of, health_of, given_after, IsKept};
ghost use Rattle.lb_health_core.specs.Internal.Changing.{left_of, IsStarted, is_cell, keeps_cell};
ghost use Rattle.lb_health_core.specs.Registry.{IsGrowthRefusal};
ghost use Rattle.lb_health_core.specs.Starts.{value_at};
ghost use Rattle.lb_health_core.specs.Table.{hold_of, table_value, IsTableAfter, IsPruned};
ghost use Rattle.lb_health_core.specs.Verdicts.{Verdict, IsHealthAfter};

use crate::health::Health;
use crate::keys::HealthKey;
use crate::numbering::{Numbering, renumbered};
use crate::stored::StoredCells;
use lb_select_base::refusal::Refusal;
use std::alloc::Global;
use std::collections::{BTreeMap, BTreeSet};

/// A cell: the health key that it was given to, and its health.
#[derive(Drop)]
pub struct Cell<K> {
    pub(crate) key: K,
    pub(crate) health: Health,
}

/// A live snapshot: its view, its generation, and its cells.
#[derive(Drop)]
pub struct Held {
    pub(crate) view: u64,
    pub(crate) generation: u64,
    pub(crate) cells: BTreeSet<u64>,
}

/// The cells of a registry, by number.
#[derive(Drop)]
pub struct CellTable<K: Ord + Drop> {
    pub(crate) numbering: Numbering<K>,
    pub(crate) cells: StoredCells<K>,
    pub(crate) held: Vec<Held>,
    pub(crate) start: bool,
}

// Whether a live snapshot has the cell.
fn has_cell(held: &[Held], cell: u64) -> bool
    ensures { result ≡ list_any (λ h. list_any (eq_by_cmp nat_cmp cell) h.cells.keys) held.now }
{
    held.iter().any(|snapshot| snapshot.cells.contains(&cell))
}

// The generation of a view's oldest snapshot.
fn oldest_of(held: &[Held], view: u64) -> Option<u64>
    ensures { result ≡ option_map (λ h. h.generation) (find (λ h. h.view == view) held.now) }
{
    let oldest = held.iter().find(|snapshot| snapshot.view == view);
    oldest.map(|snapshot| snapshot.generation)
}

// Whether it is this number.
fn is_number(now: Option<u64>, cell: u64) -> bool
    ensures { result ≡ is_cell cell now }
{
    match now {
        Some(now) => now == cell,
        None => false,
    }
}

// Whether a cell that is stored with this key is kept: the target of the key has it, or a live snapshot.
#[tactic(auto, using(crate::proofs::TableLemmas::any_holds))]
pub(crate) fn keeps<K: HealthKey>(
    numbering: &Numbering<K>,
    held: &[Held],
    cell: u64,
    key: &K,
) -> bool
    ensures { result ≡ keeps_cell K.cmp numbering.now.by_key.entries (map hold_of held.now) cell key.now }
{
    let now = numbering.by_key.get(key).copied();
    if is_number(now, cell) {
        return true;
    }
    has_cell(held, cell)
}

impl<K: HealthKey> CellTable<K> {
    // A table without cells, whose cells begin healthy.
    pub(crate) fn new(alloc: Global) -> CellTable<K>
        ensures after { IsTableAfter K.cmp [] (table_value result) }
        ensures pruned { IsPruned K.cmp [] (table_value result) }
    {
        CellTable {
            numbering: Numbering {
                by_key: BTreeMap::new(alloc),
                next: 0,
            },
            cells: StoredCells::new(alloc),
            held: Vec::new(alloc),
            start: true,
        }
    }

    // Cells that start from now on begin so.
    pub(crate) fn configure(&mut self, healthy: bool)
        ensures after { (events : List (CellEvent K)) → IsTableAfter K.cmp events (table_value self.old)
            → IsTableAfter K.cmp (Configured healthy ∷ events) (table_value self.new) }
        ensures pruned { (events : List (CellEvent K)) → IsPruned K.cmp events (table_value self.old)
            → IsPruned K.cmp (Configured healthy ∷ events) (table_value self.new) }
    {
        self.start = healthy;
    }

    // The health of a cell, where it is kept: what isn't kept isn't stored.
    fn kept(&self, cell: u64) -> Option<Health>
        ensures kept { (events : List (CellEvent K)) → IsTableAfter K.cmp events (table_value self.now)
            → IsPruned K.cmp events (table_value self.now) → MatchOption result (¬ IsKept K.cmp events cell)
            (λ h. IsKept K.cmp events cell × IsHealthAfter (start_of (eq_by_cmp K.cmp) cell events) (verdicts_of cell events) h) }
        ensures stored { IsSome result → IsSome (value_at nat_cmp (table_value self.now).cells cell) }
    {
        let stored = self.cells.get(cell)?;
        Some(stored.health)
    }

    // Whether the cell is kept and healthy.
    pub(crate) fn cell_ready(&self, cell: u64) -> bool
        ensures { (events : List (CellEvent K)) → IsTableAfter K.cmp events (table_value self.now)
            → IsPruned K.cmp events (table_value self.now)
            → (IsTrue result ↔ (IsKept K.cmp events cell × (health_of (eq_by_cmp K.cmp) cell events ≡ true))) }
    {
        self.cells.is_healthy(cell).unwrap_or(false)
    }

    // Takes a verdict for a cell; whether its health flipped. Refused `NoSuch` where the cell isn't kept. It takes no memory.
    pub(crate) fn observe(
        &mut self,
        cell: u64,
        verdict: bool,
        threshold: usize,
    ) -> Result<bool, Refusal>
        ensures after { OnOk result ((events : List (CellEvent K)) → IsTableAfter K.cmp events (table_value self.old)
            → IsPruned K.cmp events (table_value self.old)
            → IsTableAfter K.cmp (Observed cell (record { ok = verdict; threshold = threshold }) ∷ events) (table_value self.new)) }
        ensures flipped { IfOk result (λ flipped. (events : List (CellEvent K)) → IsTableAfter K.cmp events (table_value self.old)
            → IsPruned K.cmp events (table_value self.old)
            → (IsTrue flipped ↔ (health_of (eq_by_cmp K.cmp) cell (Observed cell (record { ok = verdict; threshold = threshold }) ∷ events)
            ≢ health_of (eq_by_cmp K.cmp) cell events))) }
        ensures kept { (events : List (CellEvent K)) → IsTableAfter K.cmp events (table_value self.old)
            → IsPruned K.cmp events (table_value self.old) → (IsOk result ↔ IsKept K.cmp events cell) }
        ensures pruned { OnOk result ((events : List (CellEvent K)) → IsPruned K.cmp events (table_value self.old)
            → IsPruned K.cmp (Observed cell (record { ok = verdict; threshold = threshold }) ∷ events) (table_value self.new)) }
        ensures refused { OnErr result ((result ≡ Err Refusal.NoSuch) × (self.new ≡ self.old)) }
    {
        let Some(mut health) = self.kept(cell) else {
            return Err(Refusal::NoSuch);
        };
        let flipped = health.observe_health(verdict, threshold);
        self.cells.set_health(cell, health);
        Ok(flipped)
    }

    // A change to targets of these keys. Refused, all is as before.
    pub(crate) fn change(&mut self, alloc: Global, keys: &[K]) -> Result<(), Refusal>
        ensures ok { OnOk result ((events : List (CellEvent K)) → IsTableAfter K.cmp events (table_value self.old)
            → IsTableAfter K.cmp (Changed keys.now ∷ events) (table_value self.new)) }
        ensures err { OnErr result ((events : List (CellEvent K)) → IsTableAfter K.cmp events (table_value self.old)
            → IsTableAfter K.cmp events (table_value self.new)) }
        ensures exhausted { (events : List (CellEvent K)) → IsTableAfter K.cmp events (table_value self.old)
            → (IsErrOf result Refusal.NumbersExhausted ↔ (2 ^ 64 ≤ given_after (eq_by_cmp K.cmp) (Changed keys.now ∷ events))) }
        ensures pruned { OnOk result ((events : List (CellEvent K)) → IsTableAfter K.cmp events (table_value self.old)
            → IsPruned K.cmp (Changed keys.now ∷ events) (table_value self.new)) }
        ensures pruned_err { OnErr result ((events : List (CellEvent K)) → IsTableAfter K.cmp events (table_value self.old)
            → IsPruned K.cmp events (table_value self.new)) }
        ensures refused { OnErr result (IsGrowthRefusal result) }
    {
        match renumbered(alloc, &self.numbering, keys, self.start, &mut self.cells) {
            Ok(numbering) => {
                self.commit(numbering);
                Ok(())
            }
            Err(refusal) => {
                self.prune();
                Err(refusal)
            }
        }
    }

    // The numbering after two changes, to `first`, or where that is `None` to what the change before left, and then to `second`;
    // the cells that start are stored already. The table stays as it was for all who see it until the numbering is committed.
    pub(crate) fn started(
        &mut self,
        alloc: Global,
        first: Option<&[K]>,
        second: &[K],
    ) -> Result<Numbering<K>, Refusal>
        ensures ok { IfOk result (λ after. (events : List (CellEvent K)) → IsTableAfter K.cmp events (table_value self.old)
            → IsStarted K.cmp events (Changed second.now ∷ Changed (left_of first.entry events) ∷ events) (table_value self.new)
            after.by_key.entries after.next) }
        ensures err { OnErr result ((events : List (CellEvent K)) → IsTableAfter K.cmp events (table_value self.old)
            → IsTableAfter K.cmp events (table_value self.new)) }
        ensures exhausted { (events : List (CellEvent K)) → IsTableAfter K.cmp events (table_value self.old)
            → IsErrOf result Refusal.NumbersExhausted
            → 2 ^ 64 ≤ given_after (eq_by_cmp K.cmp) (Changed second.now ∷ Changed (left_of first.entry events) ∷ events) }
        ensures refused { OnErr result (IsGrowthRefusal result) }
        ensures held { self.new.held ≡ self.old.held }
    {
        let Some(first) = first else {
            let after = renumbered(alloc, &self.numbering, second, self.start, &mut self.cells)?;
            return Ok(after);
        };
        let between = renumbered(alloc, &self.numbering, first, self.start, &mut self.cells)?;
        let after = renumbered(alloc, &between, second, self.start, &mut self.cells)?;
        Ok(after)
    }

    // Makes a numbering the table's. It takes no memory.
    pub(crate) fn commit(&mut self, numbering: Numbering<K>)
        ensures after { (events later : List (CellEvent K))
            → IsStarted K.cmp events later (table_value self.old) numbering.by_key.entries numbering.next
            → IsTableAfter K.cmp later (table_value self.new) }
        ensures pruned { (events later : List (CellEvent K))
            → IsStarted K.cmp events later (table_value self.old) numbering.by_key.entries numbering.next
            → IsPruned K.cmp later (table_value self.new) }
        ensures held { self.new.held ≡ self.old.held }
    {
        self.numbering = numbering;
        self.prune();
    }

    // Lets a snapshot live: its cells are kept from now on, whatever becomes of their targets. It takes no memory.
    pub(crate) fn hold(&mut self, held: Held)
        requires { vec_len self.old.held < vec_capacity self.old.held }
        ensures after { (events : List (CellEvent K)) → IsTableAfter K.cmp events (table_value self.old)
            → ((c : ℕ) → list_any (eq_by_cmp nat_cmp c) held.cells.keys ≡ true → IsKept K.cmp events c)
            → IsTableAfter K.cmp (HeldNow held.view held.generation held.cells.keys ∷ events) (table_value self.new) }
        ensures pruned { (events : List (CellEvent K)) → IsPruned K.cmp events (table_value self.old)
            → IsPruned K.cmp (HeldNow held.view held.generation held.cells.keys ∷ events) (table_value self.new) }
    {
        self.held.push_reserved(held);
    }

    // Ends the life of a view's snapshot of a generation. It takes no memory.
    pub(crate) fn release(&mut self, view: u64, generation: u64)
        ensures after { (events : List (CellEvent K)) → IsTableAfter K.cmp events (table_value self.old)
            → IsTableAfter K.cmp (Released view generation ∷ events) (table_value self.new) }
        ensures pruned { (events : List (CellEvent K)) → IsTableAfter K.cmp events (table_value self.old)
            → IsPruned K.cmp (Released view generation ∷ events) (table_value self.new) }
    {
        self.held.retain(|held| !(held.view == view && held.generation == generation));
        self.prune();
    }

    // The generation of a view's oldest live snapshot, where it has one.
    pub(crate) fn held_generation(&self, view: u64) -> Option<u64>
        ensures { result ≡ option_map (λ h. h.generation) (find (λ h. h.view == view) (table_value self.now).held) }
    {
        oldest_of(&self.held, view)
    }

    // Forgets the cells that aren't kept. It takes no memory.
    pub(crate) fn prune(&mut self)
        ensures after { (events : List (CellEvent K)) → IsTableAfter K.cmp events (table_value self.old)
            → IsTableAfter K.cmp events (table_value self.new) }
        ensures pruned { (events : List (CellEvent K)) → IsTableAfter K.cmp events (table_value self.old)
            → IsPruned K.cmp events (table_value self.new) }
        ensures held { self.new.held ≡ self.old.held }
    {
        self.cells.retain(&self.numbering, &self.held);
    }
}

//! The cells that a registry stores, by number, and a row that knows which of most of them are healthy. Contracts see the cells in the
//! order of their numbers.
ghost use Rattle.std.specs.Prelude.{◌≡◌, ◌≢◌, ℕ, [], map, filter, cond, OnOk, OnErr, Err, Some, None};
ghost use Rattle.std.specs.BTreeMap.{is_at};
ghost use Rattle.std.specs.Option.{option_copied};
ghost use Rattle.std.specs.Ordering.{nat_cmp};
ghost use Rattle.std.specs.List.Sorted.{IsStrictlySortedBy};
ghost use Rattle.std.specs.Map.{keys_of};
ghost use Rattle.lb_health_core.specs.declared.table.Cell.{Cell};
ghost use Rattle.lb_health_core.specs.Internal.Changing.{keeps_cell};
ghost use Rattle.lb_health_core.specs.Internal.Row.{Tells, stored_health};
ghost use Rattle.lb_health_core.specs.Starts.{value_at};
ghost use Rattle.lb_health_core.specs.Table.{hold_of};

use crate::health::Health;
use crate::keys::HealthKey;
use crate::numbering::Numbering;
use crate::row::Row;
use crate::table::{Cell, Held, keeps};
use lb_select_base::refusal::Refusal;
use std::alloc::Global;
use std::collections::BTreeMap;
use std::marker::Model;

/// The cells that are stored, by their numbers.
#[derive(Drop)]
pub(crate) struct StoredCells<K: Ord + Drop> {
    alloc: Global,
    by_number: BTreeMap<u64, Cell<K>>,
    row: Row,
}

impl<K: Ord + Drop> Model for StoredCells<K> {
    ghost use Rattle.std.specs.Prelude.{List, ℕ};
    ghost use Rattle.lb_health_core.specs.declared.table.Cell.{Cell};
    ghost use Rattle.lb_health_core.specs.Internal.Row.{Tells, stored_health};

    ghost Value = { List (ℕ × Cell K) };

    ghost view = { λ s. s.by_number.entries };

    ghost invariant = { λ s. Tells (stored_health s.by_number.entries) s.row };
}

impl<K: HealthKey> StoredCells<K> {
    /// Returns a store without cells.
    pub(crate) fn new(alloc: Global) -> StoredCells<K>
        ensures { result ≡ [] }
    {
        StoredCells {
            alloc,
            by_number: BTreeMap::new(alloc),
            row: Row::new(alloc),
        }
    }

    /// Returns the cell of this number.
    pub(crate) fn get(&self, cell: u64) -> Option<&Cell<K>>
        ensures value { option_copied result ≡ value_at nat_cmp self.now cell }
    {
        self.by_number.get(&cell)
    }

    /// Returns whether the cell of this number is healthy, where it is stored.
    pub(crate) fn is_healthy(&self, cell: u64) -> Option<bool>
        ensures { result ≡ stored_health self.now cell }
    {
        if let Some(healthy) = self.row.get(cell) {
            return Some(healthy);
        }
        let stored = self.by_number.get(&cell)?;
        Some(stored.health.ready())
    }

    /// Changes the health of a cell, where it is stored.
    pub(crate) fn set_health(&mut self, cell: u64, health: Health)
        ensures changed { (x : Cell K) → value_at nat_cmp self.old cell ≡ Some x → (d : ℕ) → value_at nat_cmp self.new d
            ≡ cond (is_at (nat_cmp cell) d) (Some (record { key = x.key; health = health })) (value_at nat_cmp self.old d) }
        ensures none { value_at nat_cmp self.old cell ≡ None → self.new ≡ self.old }
    {
        if let Some(stored) = self.by_number.get_mut(&cell) {
            stored.health = health;
            self.row.set(cell, health.ready());
        }
    }

    /// Stores a cell under this number.
    ///
    /// Refused for memory alone; then all is as before.
    pub(crate) fn insert(&mut self, cell: u64, stored: Cell<K>) -> Result<(), Refusal>
        ensures stored { OnOk result (value_at nat_cmp self.new cell ≡ Some stored) }
        ensures others { (d : ℕ) → d ≢ cell → value_at nat_cmp self.new d ≡ value_at nat_cmp self.old d }
        ensures refused { OnErr result (result ≡ Err Refusal.OutOfMemory) }
        ensures stays { OnErr result (self.new ≡ self.old) }
    {
        let healthy = stored.health.ready();
        self.by_number.insert(cell, stored)?;
        self.row.set(cell, healthy);
        if self.row.len() < self.by_number.len() {
            self.row
                .grow(self.alloc, self.by_number.len().saturating_mul(2));
            retell(&mut self.row, &self.by_number);
        }
        Ok(())
    }

    /// Forgets the cells that aren't kept. It takes no memory.
    pub(crate) fn retain(&mut self, numbering: &Numbering<K>, held: &[Held])
        ensures ordered { IsStrictlySortedBy nat_cmp (keys_of self.old) }
        ensures left { self.new
            ≡ filter (λ e. keeps_cell K.cmp numbering.now.by_key.entries (map hold_of held.now) e.0 e.1.key) self.old }
    {
        self.by_number.retain(
            |cell, stored|
                ensures value { result ≡ keeps_cell K.cmp numbering.entry.now.by_key.entries (map hold_of held.entry.now)
                    cell.now stored.old.key }
                ensures same { stored.new ≡ stored.old }
                ensures numbering_stays { numbering.exit ≡ numbering.entry }
                ensures held_stays { held.exit ≡ held.entry }
            { keeps(numbering, held, *cell, &stored.key) },
        );
        retell(&mut self.row, &self.by_number);
    }
}

// Notes anew which of the cells are healthy, from the first one on. It takes no memory.
fn retell<K: HealthKey>(row: &mut Row, cells: &BTreeMap<u64, Cell<K>>)
    ensures { Tells (stored_health cells.now.entries) row.new }
{
    let first = match cells.first_key_value() {
        Some((cell, _)) => *cell,
        None => 0,
    };
    row.begin(first);
    for (cell, stored) in cells.iter() {
        row.set(*cell, stored.health.ready());
    }
}

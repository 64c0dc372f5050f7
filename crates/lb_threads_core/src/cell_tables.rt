//! The words that say which cells of a registry are healthy: a table for each size that was asked for. Who flips a cell takes their lock
//! while it has the registry's.
ghost use Rattle.std.specs.Prelude.{◌≡◌, All, IfOk, IfSome};
ghost use Rattle.std.specs.Arc.{arc_value};
ghost use Rattle.lb_threads_core.specs.CellWords.{WasHealthy};

use crate::cell_words::CellWords;
use crate::lock::{KeyedLock, TakenValue};
use crate::registry::RegistryLock;
use crate::rule::LockRule;
use lb_health_core::keys::KeyRule;
use lb_health_core::registry::Registry;
use std::alloc::{AllocError, Global};
use std::marker::Model;
use std::snapshot::Snapshot;
use std::sync::{Arc, Wait};

/// The words under the lock are of the registry of its key.
pub struct OfTables {}

impl<R: KeyRule + Drop> LockRule<Vec<Arc<CellWords<R>>>, Snapshot<Registry<R>>> for OfTables {
    ghost use Rattle.std.specs.Prelude.{◌≡◌, All};
    ghost use Rattle.std.specs.Arc.{arc_value};

    ghost holds = { λ key tables. All (λ t. arc_value t ≡ key.value) tables.items };
}

/// The tables of words of a registry. Contracts see the registry, as it was when it came under its lock.
#[derive(Drop)]
pub struct CellTables<R: KeyRule + Drop> {
    lock: KeyedLock<Vec<Arc<CellWords<R>>>, Snapshot<Registry<R>>, OfTables>,
}

impl<R: KeyRule + Drop> Model for CellTables<R> {
    ghost use Rattle.lb_health_core.specs.Registry.{RegistryValue};

    ghost Value = { RegistryValue R };

    ghost view = { λ t. t.lock.table.shared.key.value };
}

impl<R: KeyRule + Drop> CellTables<R> {
    // No tables yet, of this registry.
    pub(crate) fn new(
        alloc: Global,
        registry: &Snapshot<Registry<R>>,
    ) -> Result<CellTables<R>, AllocError>
        ensures { IfOk result (λ t. t ≡ registry.now.value) }
    {
        let lock = KeyedLock::new(alloc, Vec::new(alloc), registry)?;
        Ok(CellTables { lock })
    }

    // Writes the words of a cell, in each table that has one. The caller has the registry.
    pub(crate) fn note<W: Wait>(&self, rt: &W, cell: u64, healthy: bool)
        requires { WasHealthy R.gives self.now cell healthy }
    {
        let held = self.lock.take(rt);
        self.note_in_each(held.value.as_slice(), cell, healthy);
        self.lock.put(held);
    }

    // Writes the word of a cell in each of these tables that has one.
    fn note_in_each(&self, tables: &[Arc<CellWords<R>>], cell: u64, healthy: bool)
        requires of { All (λ t. arc_value t ≡ self.now) tables.now }
        requires was { WasHealthy R.gives self.now cell healthy }
    {
        for place in 0..tables.len() {
            if let Some(words) = self.table_at(tables, place) {
                words.note_again(cell, healthy);
            }
        }
    }

    // The table at a place, which is of this registry as all are.
    fn table_at<'t>(
        &self,
        tables: &'t [Arc<CellWords<R>>],
        place: usize,
    ) -> Option<&'t CellWords<R>>
        requires { All (λ t. arc_value t ≡ self.now) tables.now }
        ensures { IfSome result (λ w. w.now ≡ self.now) }
    {
        match tables.get(place) {
            Some(words) => Some(&**words),
            None => None,
        }
    }

    // Words with room for the cells of so many backends, of the registry with this lock. What takes memory is made without a lock, so two
    // threads may make two tables of one size.
    pub(crate) fn words<W: Wait>(
        &self,
        rt: &W,
        alloc: Global,
        registry: &RegistryLock<R>,
        backends: usize,
    ) -> Result<Arc<CellWords<R>>, AllocError>
        requires { registry.now.table.shared.key.value ≡ self.now }
        ensures { IfOk result (λ c. arc_value c ≡ self.now) }
    {
        let sets = sets_for(backends);
        if let Some(words) = self.table_of(rt, sets)? {
            return Ok(words);
        }
        let words = Arc::new(alloc, CellWords::new(alloc, sets, registry)?)?;
        let shared = Arc::try_clone(&words)?;
        self.add(rt, shared)?;
        Ok(words)
    }

    // A table of so many sets or more, if there is one.
    fn table_of<W: Wait>(
        &self,
        rt: &W,
        sets: usize,
    ) -> Result<Option<Arc<CellWords<R>>>, AllocError>
        ensures { IfOk result (λ o. IfSome o (λ c. arc_value c ≡ self.now)) }
    {
        let held = self.lock.take(rt);
        let words = match held.value.iter().find(|words| words.sets() >= sets) {
            Some(words) => Arc::try_clone(words).map(Some),
            None => Ok(None),
        };
        self.lock.put(held);
        words
    }

    // Has flips write this table too.
    fn add<W: Wait>(&self, rt: &W, words: Arc<CellWords<R>>) -> Result<(), AllocError>
        requires { arc_value words ≡ self.now }
    {
        let TakenValue { mut value, seat } = self.lock.take(rt);
        let added = value.push(words);
        self.lock.put(TakenValue { value, seat });
        added?;
        Ok(())
    }
}

// The fewest sets of words that a table has, which is enough for as many cells.
const LEAST_SETS: usize = 512;

// How many sets of words there are for so many backends: one for each or more, a power of two.
fn sets_for(backends: usize) -> usize {
    let mut sets = LEAST_SETS;
    for _ in 0..usize::BITS / 3 {
        if sets >= backends {
            return sets;
        }
        sets = sets.saturating_mul(8);
    }
    sets
}

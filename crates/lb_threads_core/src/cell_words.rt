//! Which cells of a registry are healthy, as words that requests load without the registry's lock. A word names the cell that it speaks of,
//! and lies in one of eight places for it, which share a line of memory. Who flips a cell writes its word while it has the registry's lock,
//! and so does who asks for a cell that has no word.
ghost use Rattle.std.specs.Prelude.{◌≡◌, ◌<◌, ◌/◌, ◌%◌, IfOk, IfSome};
ghost use Rattle.lb_threads_core.specs.CellWords.{SaysOfCell, WasHealthy, told_as};

use crate::registry::RegistryLock;
use crate::word_rule::WordRule;
use crate::words::KeyedWords;
use lb_health_core::keys::KeyRule;
use std::alloc::{AllocError, Global};
use std::marker::Model;
use std::snapshot::Snapshot;

// How many places a cell may have.
const WAYS: usize = 8;

// What a word says of a cell that is kept and healthy, and of one that isn't.
const IS_HEALTHY: u64 = 3;

const IS_UNHEALTHY: u64 = 2;

// A cell of this number and above has no word.
const CELLS: u64 = 0x4000_0000_0000_0000;

/// Each word says of the cell that it names whether it is kept and healthy.
pub struct OfCells {}

impl<R: KeyRule + Drop> WordRule<Snapshot<RegistryLock<R>>> for OfCells {
    ghost use Rattle.lb_threads_core.specs.CellWords.{SaysOfCell};

    ghost holds = { λ key i w. SaysOfCell R.gives key.value.table.shared.key.value w };
}

/// Which cells of a registry are healthy, as words. Contracts see the registry, as it was when it came under its lock.
#[derive(Drop)]
pub struct CellWords<R: KeyRule + Drop> {
    words: KeyedWords<Snapshot<RegistryLock<R>>, OfCells>,
    sets: usize,
}

impl<R: KeyRule + Drop> Model for CellWords<R> {
    ghost use Rattle.lb_health_core.specs.Registry.{RegistryValue};

    ghost Value = { RegistryValue R };

    ghost view = { λ c. c.words.table.shared.key.value.table.shared.key.value };
}

impl<R: KeyRule + Drop> CellWords<R> {
    // Words of the registry with this lock, eight for each of so many sets, which say nothing yet.
    pub(crate) fn new(
        alloc: Global,
        sets: usize,
        registry: &RegistryLock<R>,
    ) -> Result<CellWords<R>, AllocError>
        ensures { IfOk result (λ c. c ≡ registry.now.table.shared.key.value) }
    {
        let none: Vec<u64> = vec![in alloc; 0; sets.saturating_mul(WAYS)]?;
        let words = KeyedWords::new(alloc, &none, &Snapshot::of(registry))?;
        Ok(CellWords { words, sets })
    }

    // How many sets there are.
    pub(crate) fn sets(&self) -> usize {
        self.sets
    }

    // The first place that a cell may have.
    fn first_place(&self, cell: u64) -> usize {
        (cell as usize & self.sets.wrapping_sub(1)).wrapping_mul(WAYS)
    }

    /// Returns whether a cell is kept and healthy, or `None` where no word says it.
    ///
    /// It is as it was at some moment since the call began, for cells that are kept.
    #[inline]
    pub fn said(&self, cell: u64) -> Option<bool>
        ensures { IfSome result (WasHealthy R.gives self.now cell) }
    {
        let first = self.first_place(cell);
        match self.said_at(first, cell) {
            Some(healthy) => Some(healthy),
            None => self.said_after(first, cell),
        }
    }

    // What the words after the first place of a cell say of it.
    #[cold]
    #[inline(never)]
    fn said_after(&self, first: usize, cell: u64) -> Option<bool>
        ensures { IfSome result (WasHealthy R.gives self.now cell) }
    {
        for way in 1..WAYS {
            if let Some(healthy) = self.said_at(first.wrapping_add(way), cell) {
                return Some(healthy);
            }
        }
        None
    }

    // What the word at a place says of a cell, where it names that one.
    #[inline]
    fn said_at(&self, place: usize, cell: u64) -> Option<bool>
        ensures { IfSome result (WasHealthy R.gives self.now cell) }
    {
        let word = self.words.load(place)?;
        if word / 4 == cell {
            said_by(word)
        } else {
            None
        }
    }

    /// Notes whether a cell is kept and healthy.
    ///
    /// The caller has the registry's lock, so that a later flip is noted later.
    pub fn note(&self, cell: u64, healthy: bool)
        requires { WasHealthy R.gives self.now cell healthy }
    {
        let first = self.first_place(cell);
        let place = self
            .place_naming(first, cell)
            .or(self.free_place(first))
            .unwrap_or(first);
        self.put(place, cell, healthy);
    }

    // Notes whether a cell is kept and healthy, where a word names it. The caller has the registry's lock.
    pub(crate) fn note_again(&self, cell: u64, healthy: bool)
        requires { WasHealthy R.gives self.now cell healthy }
    {
        if let Some(place) = self.place_naming(self.first_place(cell), cell) {
            self.put(place, cell, healthy);
        }
    }

    // Writes the word that says so at a place.
    fn put(&self, place: usize, cell: u64, healthy: bool)
        requires { WasHealthy R.gives self.now cell healthy }
    {
        if cell < CELLS {
            self.words.store(place, word_of(cell, healthy));
        }
    }

    // Which of the places from the first one of a cell has a word that names it.
    fn place_naming(&self, first: usize, cell: u64) -> Option<usize> {
        for way in 0..WAYS {
            let place = first.wrapping_add(way);
            match self.words.load(place) {
                Some(word) if word > 0 && word / 4 == cell => return Some(place),
                _ => {}
            }
        }
        None
    }

    // The first of these places that has no word.
    fn free_place(&self, first: usize) -> Option<usize> {
        for way in 0..WAYS {
            let place = first.wrapping_add(way);
            if let Some(0) = self.words.load(place) {
                return Some(place);
            }
        }
        None
    }
}

// What a word says.
#[inline]
fn said_by(word: u64) -> Option<bool>
    ensures { IfSome result (λ healthy. word % 4 ≡ told_as healthy) }
{
    match word % 4 {
        IS_HEALTHY => Some(true),
        IS_UNHEALTHY => Some(false),
        _ => None,
    }
}

// The word that says so of a cell.
fn word_of(cell: u64, healthy: bool) -> u64
    requires { cell < 0x4000_0000_0000_0000 }
    ensures { (result % 4 ≡ told_as healthy) × (result / 4 ≡ cell) }
{
    if healthy {
        cell * 4 + IS_HEALTHY
    } else {
        cell * 4 + IS_UNHEALTHY
    }
}

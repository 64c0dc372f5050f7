//! A row that says of cells by their numbers whether they are healthy, so that most are found without a search. What the row doesn't know
//! is searched for by its owner.
ghost use Rattle.std.specs.Prelude.{◌≡◌, ◌≢◌, ℕ, Bool, Option, Some, IfSome};
ghost use Rattle.lb_health_core.specs.Internal.Row.{Tells, TellsFrom};

use std::alloc::Global;

/// What is known of the cells from a first number on, one place for each number.
#[derive(Drop)]
pub(crate) struct Row {
    pub(crate) first: u64,
    pub(crate) told: Vec<Option<bool>>,
}

impl Row {
    /// Returns a row that knows nothing, without taking memory.
    pub(crate) fn new(alloc: Global) -> Row
        ensures { (f : ℕ → Option Bool) → Tells f result }
    {
        Row {
            first: 0,
            told: Vec::new(alloc),
        }
    }

    /// Returns how many cells it can know of.
    pub(crate) fn len(&self) -> usize {
        self.told.len()
    }

    /// Returns whether the cell is healthy, where the row knows it.
    #[inline]
    pub(crate) fn get(&self, cell: u64) -> Option<bool>
        ensures { (f : ℕ → Option Bool) → Tells f self.now → IfSome result (λ healthy. f cell ≡ Some healthy) }
    {
        let place = cell.checked_sub(self.first)?;
        *self.told.get(place as usize)?
    }

    /// Notes that a cell is healthy or that it isn't, where the row has a place for its number.
    pub(crate) fn set(&mut self, cell: u64, healthy: bool)
        ensures { (f g : ℕ → Option Bool) → Tells f self.old → ((d : ℕ) → d ≢ cell → g d ≡ f d) → g cell ≡ Some healthy → Tells g self.new }
    {
        let Some(place) = cell.checked_sub(self.first) else {
            return;
        };
        if (place as usize) < self.told.len() {
            self.told[place as usize] = Some(healthy);
        }
    }

    /// Forgets all. From now on it is for the cells from `first` on. It takes no memory.
    pub(crate) fn begin(&mut self, first: u64)
        ensures { (f : ℕ → Option Bool) → Tells f self.new }
    {
        self.first = first;
        self.told.fill(None);
    }

    /// Forgets all, and makes places for so many cells; none where memory is refused.
    pub(crate) fn grow(&mut self, alloc: Global, count: usize)
        ensures { (f : ℕ → Option Bool) → Tells f self.new }
    {
        self.told = unknown(alloc, count);
    }
}

// So many places that know nothing; none where memory is refused.
fn unknown(alloc: Global, count: usize) -> Vec<Option<bool>>
    ensures { (f : ℕ → Option Bool) (first : ℕ) → TellsFrom f first result.items }
{
    let mut places = Vec::new(alloc);
    match places.resize(count, None) {
        Ok(()) => places,
        Err(_) => Vec::new(alloc),
    }
}

//! Numbers of cells: a key that stays a target keeps its cell, and one that becomes a target gets the next number.
//! A number is never used again.
ghost use Rattle.std.specs.Prelude.{◌≡◌, ◌↔◌, ◌<◌, ◌≤◌, ◌+◌, ◌^◌, ℕ, List, ◌∷◌, length, count_by, not, IfOk, OnErr, IsErrOf, IsTrue};
ghost use Rattle.std.specs.Option.{is_some};
ghost use Rattle.std.specs.Ordering.{eq_by_cmp, nat_cmp};
ghost use Rattle.std.specs.BTreeMap as tree;
ghost use Rattle.lb_health_core.specs.Internal.Changing.{AreStored};
ghost use Rattle.lb_health_core.specs.Registry.{IsGrowthRefusal};
ghost use Rattle.lb_health_core.specs.Starts.{starts, value_at, IsNumbered};

use crate::health::Health;
use crate::keys::HealthKey;
use crate::stored::StoredCells;
use crate::table::Cell;
use lb_select_base::refusal::Refusal;
use std::alloc::Global;
use std::collections::BTreeMap;

/// The cell of each target, by its key, and the number of the next cell.
#[derive(Drop)]
pub struct Numbering<K: Ord + Drop> {
    pub(crate) by_key: BTreeMap<K, u64>,
    pub(crate) next: u64,
}

// How many of the keys start: they have no number. It takes no memory.
fn starting_count<K: HealthKey>(before: &Numbering<K>, keys: &[K]) -> usize
    ensures { result ≡ count_by (λ k. not (is_some (tree.get K.cmp before.now.by_key k))) keys.now }
{
    keys.iter()
        .filter(|key| !before.by_key.contains_key(*key))
        .count()
}

// Whether more of the keys start than numbers are left; they are counted only where that can be. It takes no memory.
fn are_too_many<K: HealthKey>(before: &Numbering<K>, keys: &[K]) -> bool
    ensures { IsTrue result ↔ (2 ^ 64 ≤ count_by (λ k. not (is_some (tree.get K.cmp before.now.by_key k))) keys.now + before.now.next) }
{
    let left = u64::MAX - before.next;
    keys.len() as u64 > left && starting_count(before, keys) as u64 > left
}

// Numbers the keys one by one. A key with a number keeps it, another one gets the next, and its cell is stored.
fn numbered<K: HealthKey>(
    alloc: Global,
    before: &Numbering<K>,
    keys: &[K],
    start: bool,
    cells: &mut StoredCells<K>,
) -> Result<Numbering<K>, Refusal>
    ensures ok { IfOk result (λ after. (all : List (List K)) → IsNumbered K.cmp all before.now.by_key.entries before.now.next
        → IsNumbered K.cmp (keys.now ∷ all) after.by_key.entries after.next) }
    ensures stored { IfOk result (λ after. (all : List (List K)) (first : ℕ)
        → IsNumbered K.cmp all before.now.by_key.entries before.now.next
        → AreStored K.cmp first start all cells.old → AreStored K.cmp first start (keys.now ∷ all) cells.new) }
    ensures others { (c : ℕ) → c < before.now.next → value_at nat_cmp cells.new c ≡ value_at nat_cmp cells.old c }
    ensures fits { IfOk result (λ after. after.next < 2 ^ 64) }
    ensures exhausted { IsErrOf result Refusal.NumbersExhausted
        → (all : List (List K)) → IsNumbered K.cmp all before.now.by_key.entries before.now.next
        → 2 ^ 64 ≤ length (starts (eq_by_cmp K.cmp) (keys.now ∷ all)) }
    ensures refused { OnErr result (IsGrowthRefusal result) }
{
    let mut by_key = BTreeMap::new(alloc);
    let mut next = before.next;
    for key in keys {
        let had = before.by_key.get(key).copied();
        match had {
            Some(cell) => {
                by_key.insert(key.clone()?, cell)?;
            }
            None => {
                let Some(after) = next.checked_add(1) else {
                    return Err(Refusal::NumbersExhausted);
                };
                let cell = Cell {
                    key: key.clone()?,
                    health: Health::starting(start),
                };
                cells.insert(next, cell)?;
                by_key.insert(key.clone()?, next)?;
                next = after;
            }
        }
    }
    Ok(Numbering { by_key, next })
}

// The numbering after a change to these keys, where the cells that start are stored with the rest. Refused
// `NumbersExhausted` exactly where more cells start than there are numbers, whatever memory is left.
pub(crate) fn renumbered<K: HealthKey>(
    alloc: Global,
    before: &Numbering<K>,
    keys: &[K],
    start: bool,
    cells: &mut StoredCells<K>,
) -> Result<Numbering<K>, Refusal>
    ensures ok { IfOk result (λ after. (all : List (List K)) → IsNumbered K.cmp all before.now.by_key.entries before.now.next
        → IsNumbered K.cmp (keys.now ∷ all) after.by_key.entries after.next) }
    ensures stored { IfOk result (λ after. (all : List (List K)) (first : ℕ)
        → IsNumbered K.cmp all before.now.by_key.entries before.now.next
        → AreStored K.cmp first start all cells.old → AreStored K.cmp first start (keys.now ∷ all) cells.new) }
    ensures others { (c : ℕ) → c < before.now.next → value_at nat_cmp cells.new c ≡ value_at nat_cmp cells.old c }
    ensures exhausted { (all : List (List K)) → IsNumbered K.cmp all before.now.by_key.entries before.now.next
        → (IsErrOf result Refusal.NumbersExhausted ↔ (2 ^ 64 ≤ length (starts (eq_by_cmp K.cmp) (keys.now ∷ all)))) }
    ensures refused { OnErr result (IsGrowthRefusal result) }
{
    if are_too_many(before, keys) {
        return Err(Refusal::NumbersExhausted);
    }
    numbered(alloc, before, keys, start, cells)
}

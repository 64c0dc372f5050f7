//! Laws of the registry's definitions, for every history: each is what its function ensures.
//! There is no code here.
ghost use Rattle.std.specs.Prelude.{◌≡◌, ◌≢◌, ◌≤◌, ◌<◌, ◌^◌, ◌↔◌, ℕ, List, ◌∷◌, ◌++◌, length, true, false, Some, IsSome};
ghost use Rattle.std.specs.List.{list_any};
ghost use Rattle.std.specs.Ordering.{eq_by_cmp, nat_cmp};
ghost use Rattle.lb_select_base.specs.Backends.{Member, same_member};
ghost use Rattle.lb_health_core.specs.Registry.{IsRegistryAfter, targets_after, HoldsOf};
ghost use Rattle.lb_health_core.specs.RegistryEvents.{Event, Applied, Observed, Held, views_after, cell_health, cells_given};
ghost use Rattle.lb_health_core.specs.RegistryEvents.{held_cells, holds_cell, is_released, IsCellKept};
ghost use Rattle.lb_health_core.specs.Starts.{is_target, starts, cell_now, value_at};
ghost use Rattle.lb_health_core.specs.Targets.{target_keys};
ghost use Rattle.lb_health_core.specs.Verdicts.{Verdict};

use crate::keys::KeyRule;
use crate::registry::Registry;

/// Verdicts for different cells leave the same registry and the same health of each cell, in either order.
pub fn verdicts_commute<R: KeyRule>(registry: &Registry<R>)
    ensures state { (key_of : Member → Member) (events : List Event) (c d : ℕ) (v w : Verdict) → c ≢ d
        → IsRegistryAfter R.gives key_of (Observed c v ∷ Observed d w ∷ events) registry.now
        → IsRegistryAfter R.gives key_of (Observed d w ∷ Observed c v ∷ events) registry.now }
    ensures health { (key_of : Member → Member) (events : List Event) (c d e : ℕ) (v w : Verdict) → c ≢ d
        → cell_health key_of e (Observed c v ∷ Observed d w ∷ events) ≡ cell_health key_of e (Observed d w ∷ Observed c v ∷ events) }
{}

/// A key that stays a target keeps its cell.
pub fn targets_keep_their_cells()
    ensures { (all : List (List Member)) (keys : List Member) (k : Member)
        → is_target same_member all k ≡ true → is_target same_member (keys ∷ all) k ≡ true
        → cell_now same_member (keys ∷ all) k ≡ cell_now same_member all k }
{}

/// A number is never used again: a key that becomes a target gets one past all that were given.
pub fn numbers_are_never_used_again()
    ensures { (all : List (List Member)) (keys : List Member) (k : Member) (c : ℕ)
        → is_target same_member all k ≡ false → cell_now same_member (keys ∷ all) k ≡ Some c
        → length (starts same_member all) ≤ c }
{}

/// A cell that has its number is kept later only if it was kept all along.
///
/// So what is kept no longer never comes back, and its number is used for no other start.
pub fn cells_never_come_back()
    ensures { (key_of : Member → Member) (events later : List Event) (c : ℕ) → c < cells_given key_of events
        → IsCellKept key_of c (later ++ events) → IsCellKept key_of c events }
{}

/// A live snapshot keeps its cells until it is released, whatever becomes of their targets and of its view.
pub fn live_snapshots_keep_their_cells()
    ensures held { (key_of : Member → Member) (events later : List Event) (id generation c : ℕ)
        → list_any (eq_by_cmp nat_cmp c) (held_cells key_of id events) ≡ true → is_released id generation later ≡ false
        → holds_cell key_of id generation c (later ++ Held id generation ∷ events) ≡ true }
    ensures kept { (key_of : Member → Member) (events : List Event) (id generation c : ℕ)
        → holds_cell key_of id generation c events ≡ true → IsCellKept key_of c events }
{}

/// A registry stores those cells that are kept, and no other: those of targets and of live snapshots.
///
/// So what no view and no live snapshot needs is gone after each call.
pub fn kept_cells_alone_are_stored<R: KeyRule>(registry: &Registry<R>)
    ensures { (key_of : Member → Member) (events : List Event) (c : ℕ) → IsRegistryAfter R.gives key_of events registry.now
        → (IsSome (value_at nat_cmp registry.now.table.cells c) ↔ IsCellKept key_of c events) }
{}

/// Marks that are applied start no cell, and fewer than 18446744073709551616 numbers of cells are given.
///
/// So neither a list of targets nor a registration is ever refused for a cell's number.
pub fn marks_start_no_cell<R: KeyRule>(registry: &Registry<R>)
    ensures { HoldsOf R.gives registry.now (λ key_of events. (cells_given key_of (Applied ∷ events) ≡ cells_given key_of events)
        × (cells_given key_of events < 2 ^ 64)) }
{}

/// Each target has a cell, so that the list of targets leaves none out.
pub fn targets_have_cells()
    ensures { (key_of : Member → Member) (events : List Event)
        → length (targets_after key_of (Applied ∷ events)) ≡ length (target_keys key_of (views_after (Applied ∷ events))) }
{}

//! Changes of a registry's views, and of its table with them: all that may be refused comes first, so that a refused change
//! applies no mark and leaves views and table as they were for all who see them.
ghost use Rattle.std.specs.Prelude.{◌≡◌, ◌<◌, ◌≤◌, ◌^◌, ℕ, List, [], ◌∷◌, length, map, position, Some, IfOk, OnOk, OnErr};
ghost use Rattle.std.specs.Prelude.{IsErrOf, Err, MatchOption, false, slice_get, vec_len};
ghost use Rattle.std.specs.List.{list_all, list_any};
ghost use Rattle.std.specs.List.Sorted.{IsStrictlySortedBy};
ghost use Rattle.std.specs.Option.{IsSomeAnd};
ghost use Rattle.lb_select_base.specs.Backends.{Member, member_cmp, same_member};
ghost use Rattle.lb_select_base.specs.Memberships.{same_members};
ghost use Rattle.lb_health_core.specs.CellEvents.{CellEvent, Changed, given_after};
ghost use Rattle.lb_health_core.specs.Internal.Changing.{left_of};
ghost use Rattle.lb_health_core.specs.Internal.Replacing.{IsPrepared, IsReplaced};
ghost use Rattle.lb_health_core.specs.Keys.{IsRuleOf};
ghost use Rattle.lb_health_core.specs.Registry.{HasOwnCells, IsStateAfter, IsGrowthRefusal};
ghost use Rattle.lb_health_core.specs.RegistryEvents.{Event, Applied, Updated, is_view, cells_by, cells_in, cells_given};
ghost use Rattle.lb_health_core.specs.Starts.{IsNumbered};
ghost use Rattle.lb_health_core.specs.Table.{table_value, IsTableAfter};
ghost use Rattle.lb_health_core.specs.Targets.{view_value, live, target_keys};

use crate::keys::KeyRule;
use crate::numbering::Numbering;
use crate::table::CellTable;
use crate::targets::{View, live_keys};
use lb_select_base::backend::Backend;
use lb_select_base::refusal::Refusal;
use std::alloc::Global;
use std::collections::{BTreeMap, BTreeSet};
use std::mem;

/// The cells of a view's membership: by backend, and their numbers alone.
#[derive(Drop)]
pub(crate) struct ViewCells {
    pub(crate) by_backend: BTreeMap<Backend, u64>,
    pub(crate) numbers: BTreeSet<u64>,
}

// The place of the view of this number, unless its removal waits.
pub(crate) fn place_of(views: &[View], id: u64) -> Option<usize>
    ensures { result ≡ position (λ v. is_view id (view_value v)) views.now }
{
    views.iter().position(|view| view.id == id && !view.marked)
}

// Whether each of these backends is among the others, by identity.
fn is_among(members: &BTreeSet<Backend>, others: &BTreeSet<Backend>) -> bool
    ensures { result ≡ list_all (λ x. list_any (same_member x) others.now.keys) members.now.keys }
{
    members.iter().all(|backend| others.contains(backend))
}

// Whether two memberships list the same backends, by identity.
pub(crate) fn is_same(members: &BTreeSet<Backend>, others: &BTreeSet<Backend>) -> bool
    ensures { result ≡ same_members members.now.keys others.now.keys }
{
    is_among(members, others) && is_among(others, members)
}

// Applies the marks that wait. Where none does, it takes no memory.
pub(crate) fn apply<R: KeyRule>(
    alloc: Global,
    rule: &R,
    views: &mut Vec<View>,
    table: &mut CellTable<Backend>,
) -> Result<(), Refusal>
    ensures ok { OnOk result ((key_of : Member → Member) (events : List Event) → IsRuleOf R.gives rule.now key_of
        → IsStateAfter key_of events (map view_value views.old.items) (table_value table.old)
        → IsStateAfter key_of (Applied ∷ events) (map view_value views.new.items) (table_value table.new)) }
    ensures err { OnErr result ((key_of : Member → Member) (events : List Event) → IsRuleOf R.gives rule.now key_of
        → IsStateAfter key_of events (map view_value views.old.items) (table_value table.old)
        → IsStateAfter key_of events (map view_value views.new.items) (table_value table.new)) }
    ensures exhausted { (key_of : Member → Member) (events : List Event) → IsRuleOf R.gives rule.now key_of
        → IsStateAfter key_of events (map view_value views.old.items) (table_value table.old)
        → IsErrOf result Refusal.NumbersExhausted → 2 ^ 64 ≤ cells_given key_of (Applied ∷ events) }
    ensures refused { OnErr result (IsGrowthRefusal result) }
    ensures views_err { OnErr result (views.new ≡ views.old) }
{
    if !has_marks(views) {
        return Ok(());
    }
    let keys = live_keys(alloc, rule, views)?;
    table.change(alloc, &keys)?;
    views.retain(|view| !view.marked);
    Ok(())
}

// The cell of each backend, by backend, where these entries give the cells by key.
fn cells_of<R: KeyRule>(
    alloc: Global,
    rule: &R,
    members: &BTreeSet<Backend>,
    numbering: &Numbering<Backend>,
) -> Result<BTreeMap<Backend, u64>, Refusal>
    ensures ok { IfOk result (λ cells. (key_of : Member → Member) (all : List (List Member)) → IsRuleOf R.gives rule.now key_of
        → IsNumbered member_cmp all numbering.now.by_key.entries numbering.now.next
        → cells.entries ≡ cells_by key_of all members.now.keys) }
    ensures own { IfOk result (λ cells. HasOwnCells members.now.keys cells.entries) }
    ensures refused { OnErr result (result ≡ Err Refusal.OutOfMemory) }
{
    let mut cells = BTreeMap::new(alloc);
    for backend in members {
        let key = rule.key(alloc, backend)?;
        if let Some(cell) = numbering.by_key.get(&key).copied() {
            cells.insert(backend.clone()?, cell)?;
        }
    }
    Ok(cells)
}

// The numbers of these cells.
fn numbers_of(alloc: Global, cells: &BTreeMap<Backend, u64>) -> Result<BTreeSet<u64>, Refusal>
    ensures ok { IfOk result (λ numbers. numbers.keys ≡ cells_in cells.now.entries) }
    ensures refused { OnErr result (result ≡ Err Refusal.OutOfMemory) }
{
    let mut numbers = BTreeSet::new(alloc);
    for cell in cells.values() {
        numbers.insert(*cell)?;
    }
    Ok(numbers)
}

// Whether a mark waits.
fn has_marks(views: &[View]) -> bool
    ensures { result ≡ list_any (λ v. v.marked) views.now }
{
    views.iter().any(|view| view.marked)
}

// The keys of the targets, where a mark waits.
fn marked_keys<R: KeyRule>(
    alloc: Global,
    rule: &R,
    views: &[View],
) -> Result<Option<Vec<Backend>>, Refusal>
    ensures ok { IfOk result (λ keys. MatchOption keys (list_any (λ v. v.marked) views.now ≡ false)
        (λ v. (key_of : Member → Member) → IsRuleOf R.gives rule.now key_of
        → v.items ≡ target_keys key_of (live (map view_value views.now)))) }
    ensures refused { OnErr result (result ≡ Err Refusal.OutOfMemory) }
{
    if has_marks(views) {
        Ok(Some(live_keys(alloc, rule, views)?))
    } else {
        Ok(None)
    }
}

// All of a view's update that may be refused: the numbering after the marks, whose keys are given where one waits, and after the
// membership.
fn prepare<R: KeyRule>(
    alloc: Global,
    rule: &R,
    views: &[View],
    place: usize,
    marked: Option<&[Backend]>,
    table: &mut CellTable<Backend>,
) -> Result<(Numbering<Backend>, ViewCells), Refusal>
    requires { place < length views.now }
    ensures ok { IfOk result (λ given. (key_of : Member → Member) (events : List (CellEvent Member)) (members : List Member)
        → IsRuleOf R.gives rule.now key_of → IsSomeAnd (slice_get views.now place) (λ v. v.members.keys ≡ members)
        → IsTableAfter member_cmp events (table_value table.old)
        → IsPrepared key_of events
        (Changed (target_keys key_of (live (map view_value views.now))) ∷ Changed (left_of marked.entry events) ∷ events)
        members given.0 given.1 (table_value table.new)) }
    ensures own { IfOk result (λ given. (members : List Member)
        → IsSomeAnd (slice_get views.now place) (λ v. v.members.keys ≡ members)
        → HasOwnCells members given.1.by_backend.entries) }
    ensures err { OnErr result ((events : List (CellEvent Member)) → IsTableAfter member_cmp events (table_value table.old)
        → IsTableAfter member_cmp events (table_value table.new)) }
    ensures exhausted { (key_of : Member → Member) (events : List (CellEvent Member)) → IsRuleOf R.gives rule.now key_of
        → IsTableAfter member_cmp events (table_value table.old) → IsErrOf result Refusal.NumbersExhausted
        → 2 ^ 64 ≤ given_after same_member
        (Changed (target_keys key_of (live (map view_value views.now))) ∷ Changed (left_of marked.entry events) ∷ events) }
    ensures refused { OnErr result (IsGrowthRefusal result) }
    ensures held { table.new.held ≡ table.old.held }
{
    let keys = live_keys(alloc, rule, views)?;
    let numbering = table.started(alloc, marked, &keys)?;
    let by_backend = cells_of(alloc, rule, &views[place].members, &numbering)?;
    let numbers = numbers_of(alloc, &by_backend)?;
    let shown = ViewCells {
        by_backend,
        numbers,
    };
    Ok((numbering, shown))
}

// Applies the marks that wait and gives the view at this place another membership.
pub(crate) fn replace<R: KeyRule>(
    alloc: Global,
    rule: &R,
    views: &mut Vec<View>,
    place: usize,
    mut members: BTreeSet<Backend>,
    table: &mut CellTable<Backend>,
) -> Result<ViewCells, Refusal>
    requires { place < vec_len views.old }
    ensures ok { IfOk result (λ shown. (key_of : Member → Member) (events : List Event) (id : ℕ) → IsRuleOf R.gives rule.now key_of
        → position (λ v. is_view id (view_value v)) views.old.items ≡ Some place
        → IsStrictlySortedBy member_cmp members.keys → cells_given key_of (Updated id members.keys ∷ Applied ∷ events) < 2 ^ 64
        → IsStateAfter key_of events (map view_value views.old.items) (table_value table.old)
        → IsReplaced key_of (Updated id members.keys ∷ Applied ∷ events) members.keys shown
        (map view_value views.new.items) (table_value table.new)) }
    ensures own { IfOk result (λ shown. HasOwnCells members.keys shown.by_backend.entries) }
    ensures err { OnErr result ((key_of : Member → Member) (events : List Event)
        → IsStateAfter key_of events (map view_value views.old.items) (table_value table.old)
        → IsStateAfter key_of events (map view_value views.new.items) (table_value table.new)) }
    ensures exhausted { (key_of : Member → Member) (events : List Event) (id : ℕ) → IsRuleOf R.gives rule.now key_of
        → position (λ v. is_view id (view_value v)) views.old.items ≡ Some place
        → IsStateAfter key_of events (map view_value views.old.items) (table_value table.old)
        → IsErrOf result Refusal.NumbersExhausted → 2 ^ 64 ≤ cells_given key_of (Updated id members.keys ∷ Applied ∷ events) }
    ensures refused { OnErr result (IsGrowthRefusal result) }
    ensures held { table.new.held ≡ table.old.held }
{
    let marked = marked_keys(alloc, rule, views)?;
    mem::swap(&mut views[place].members, &mut members);
    match prepare(alloc, rule, views, place, marked.as_deref(), table) {
        Ok((numbering, shown)) => {
            table.commit(numbering);
            views.retain(|view| !view.marked);
            Ok(shown)
        }
        Err(refusal) => {
            mem::swap(&mut views[place].members, &mut members);
            table.prune();
            Err(refusal)
        }
    }
}

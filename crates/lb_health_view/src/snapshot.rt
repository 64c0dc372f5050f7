//! Snapshots of a view: a generation with its members and their cells.
//! A snapshot lives while it is the current one of its view or held.
ghost use Rattle.std.specs.Prelude.{◌≡◌, map, ◌==◌, ◌∷◌};
ghost use Rattle.std.specs.List.{list_all, list_any, position};
ghost use Rattle.lb_select_base.specs.Backends.{same_member};
ghost use Rattle.lb_health_view.specs.Snapshots.{snapshot_of, can_hold, lists_in};

use crate::cells::Cells;
use lb_select_base::backend::Backend;
use std::collections::BTreeSet;
use std::sync::Arc;

/// A generation of a view, with its members and the cells of their keys when the membership was shown.
#[derive(Drop)]
pub(crate) struct ViewSnapshot {
    pub(crate) generation: u64,
    pub(crate) members: Arc<BTreeSet<Backend>>,
    pub(crate) cells: Cells,
    pub(crate) holds: u64,
}

// Whether the current snapshot or one of the others lists the backend.
pub(crate) fn lists(current: &ViewSnapshot, others: &[ViewSnapshot], backend: &Backend) -> bool
    ensures { result ≡ lists_in backend.now (snapshot_of current.now ∷ map snapshot_of others.now) }
{
    if current.members.contains(backend) {
        return true;
    }
    for snapshot in others {
        if snapshot.members.contains(backend) {
            return true;
        }
    }
    false
}

// Whether the snapshot is of another generation or can be held once more.
fn has_room(snapshot: &ViewSnapshot, generation: u64) -> bool
    ensures { result ≡ can_hold generation (snapshot_of snapshot.now) }
{
    snapshot.generation != generation || snapshot.holds < u64::MAX
}

// Whether the current snapshot and the others each are.
pub(crate) fn have_room(current: &ViewSnapshot, others: &[ViewSnapshot], generation: u64) -> bool
    ensures { result ≡ list_all (can_hold generation) (snapshot_of current.now ∷ map snapshot_of others.now) }
{
    if !has_room(current, generation) {
        return false;
    }
    others_have_room(others, generation)
}

// Whether each of these is.
fn others_have_room(others: &[ViewSnapshot], generation: u64) -> bool
    ensures { result ≡ list_all (λ s. can_hold generation (snapshot_of s)) others.now }
{
    others.iter().all(|snapshot| has_room(snapshot, generation))
}

// The place of the snapshot of this generation, or `None` where none is there.
pub(crate) fn place_of(snapshots: &[ViewSnapshot], generation: u64) -> Option<usize>
    ensures { result ≡ position (λ s. s.generation == generation) snapshots.now }
{
    snapshots
        .iter()
        .position(|snapshot| snapshot.generation == generation)
}

// Whether one of the snapshots is of this generation.
pub(crate) fn is_among(snapshots: &[ViewSnapshot], generation: u64) -> bool
    ensures { result ≡ list_any (λ s. s.generation == generation) snapshots.now }
{
    snapshots
        .iter()
        .any(|snapshot| snapshot.generation == generation)
}

//! Which backends of a set have points on the ring, and which points these are.
//! Of the backends of one address the heaviest alone adds points: those of the others are among its own.
ghost use Rattle.std.specs.Prelude.{◌≡◌, ◌+◌, ◌*◌, ◌^◌, ◌<◌, ◌≤◌, ◌↔◌, ℕ, [], length, IfOk, IsTrue, MatchOption, slice_get, Some};
ghost use Rattle.std.specs.List.Sorted.{IsStrictlySortedBy};
ghost use Rattle.lb_select_base.specs.Backends.{Member, member_cmp};
ghost use Rattle.lb_select.specs.Choices.{points_per_weight, ring_weight, StandsFor};
ghost use Rattle.lb_select.specs.Placed.{IsMarked};

use crate::chain::text_state;
use lb_select_base::backend::{Backend, SocketAddr};
use std::alloc::{AllocError, Global};
use std::cmp::Ordering;
use std::collections::BTreeSet;

// How many points a backend has for each unit of its weight.
pub(crate) const POINTS_PER_WEIGHT: usize = 160;

// The greatest weight that internet backends may have together: 160 times one more is above 4294967295.
const MOST_WEIGHT: usize = 26_843_545;

/// Indexes of backends that have points, upwards, and the chain of points of each: the state of a CRC that was fed its address, and
/// how many points it has.
#[derive(Drop)]
pub(crate) struct Marks {
    pub owners: Vec<usize>,
    pub chains: Vec<(u32, usize)>,
}

// The weight of all internet backends, unless their points are more than 4294967295.
pub(crate) fn weight_on_ring(backends: &BTreeSet<Backend>) -> Option<usize>
    ensures { MatchOption result (2 ^ 32 ≤ points_per_weight * ring_weight backends.now.keys)
        (λ w. (w ≡ ring_weight backends.now.keys) × (points_per_weight * w < 2 ^ 32)) }
{
    let mut left = MOST_WEIGHT;
    for backend in backends {
        if let SocketAddr::Inet(_) = &backend.addr {
            left = left.checked_sub(backend.weight)?;
        }
    }
    Some(MOST_WEIGHT - left)
}

// The backends of a set in order.
pub(crate) fn members_of(
    alloc: Global,
    backends: &BTreeSet<Backend>,
) -> Result<Vec<Backend>, AllocError>
    ensures { IfOk result (λ v. (v.items ≡ backends.now.keys) × IsStrictlySortedBy member_cmp v.items) }
{
    let mut list = Vec::with_capacity(alloc, backends.len())?;
    for backend in backends {
        list.push(backend.clone()?)?;
    }
    Ok(list)
}

// Whether no heavier backend has the address of this one: in order, the next one has another address.
fn stands(list: &[Backend], index: usize) -> bool
    requires ordered { IsStrictlySortedBy member_cmp list.now }
    requires inside { index < length list.now }
    ensures { (m : Member) → slice_get list.now index ≡ Some m → (IsTrue result ↔ StandsFor list.now m.address m) }
{
    let this = &list[index];
    match list.get(index + 1) {
        Some(next) => this.addr.cmp(&next.addr) != Ordering::Equal,
        None => true,
    }
}

// Adds the chain of one backend, if it has points.
fn add_backend(
    alloc: Global,
    list: &[Backend],
    index: usize,
    marks: &mut Marks,
) -> Result<(), AllocError>
    requires ordered { IsStrictlySortedBy member_cmp list.now }
    requires light { points_per_weight * ring_weight list.now < 2 ^ 32 }
    requires inside { index < length list.now }
    requires marked { IsMarked list.now index marks.old.owners.items marks.old.chains.items }
    ensures { IfOk result (λ _. IsMarked list.now (index + 1) marks.new.owners.items marks.new.chains.items) }
{
    let backend = &list[index];
    if let SocketAddr::Inet(inet) = &backend.addr {
        if backend.weight > 0 && stands(list, index) {
            let state = text_state(alloc, inet)?;
            marks.owners.push(index)?;
            marks
                .chains
                .push((state, POINTS_PER_WEIGHT * backend.weight))?;
        }
    }
    Ok(())
}

// The chains of all backends.
pub(crate) fn marks_of(alloc: Global, list: &[Backend]) -> Result<Marks, AllocError>
    requires ordered { IsStrictlySortedBy member_cmp list.now }
    requires light { points_per_weight * ring_weight list.now < 2 ^ 32 }
    ensures { IfOk result (λ r. IsMarked list.now (length list.now) r.owners.items r.chains.items) }
{
    let mut marks = Marks {
        owners: Vec::new(alloc),
        chains: Vec::new(alloc),
    };
    for index in 0..list.len() {
        add_backend(alloc, list, index, &mut marks)?;
    }
    Ok(marks)
}

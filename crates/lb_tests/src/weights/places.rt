//! The search of partial sums at worked places, counted out over the list that the sums mean: each backend as often as it weighs.
use crate::asserted::assert_same;
use crate::selection::fixtures::set_of_weights;
use lb_select::selection::RoundRobin;
use lb_select_base::refusal::Refusal;
use lb_select_base::walk::BackendSelection;
use std::alloc::Global;

// The backend at a place below the total, if that takes at most so many probes.
fn located(selector: &RoundRobin, place: u64, probes: u32) -> Option<(usize, bool)> {
    if place >= selector.total() {
        return None;
    }
    let found = selector.locate(place);
    Some((found.index, found.probes <= probes))
}

// The same over backends of these weights.
fn found(
    alloc: Global,
    weights: &[usize],
    place: u64,
    probes: u32,
) -> Result<Option<(usize, bool)>, Refusal> {
    let set = set_of_weights(alloc, weights)?;
    let selector = RoundRobin::build(alloc, &set)?;
    Ok(located(&selector, place, probes))
}

// The weights, how many probes a search may take, which is the number of binary digits of their count, a place, and the backend there.
const PLACES: &[(&[usize], u32, u64, Option<usize>)] = &[
    (&[1, 0, 5], 2, 0, Some(0)),
    (&[1, 0, 5], 2, 1, Some(2)),
    (&[1, 0, 5], 2, 5, Some(2)),
    (&[1, 0, 5], 2, 6, None),
    (&[], 0, 0, None),
    (&[0], 1, 0, None),
    (&[3], 1, 0, Some(0)),
    (&[3], 1, 2, Some(0)),
    (&[3], 1, 3, None),
    (&[0, 0, 2, 0], 3, 0, Some(2)),
    (&[0, 0, 2, 0], 3, 1, Some(2)),
    (&[0, 0, 2, 0], 3, 2, None),
    (&[2, 99, 0, 3, 1], 3, 1, Some(0)),
    (&[2, 99, 0, 3, 1], 3, 2, Some(1)),
    (&[2, 99, 0, 3, 1], 3, 100, Some(1)),
    (&[2, 99, 0, 3, 1], 3, 101, Some(3)),
    (&[2, 99, 0, 3, 1], 3, 103, Some(3)),
    (&[2, 99, 0, 3, 1], 3, 104, Some(4)),
    (&[2, 99, 0, 3, 1], 3, 105, None),
    (&[1, 1, 1, 1, 1, 1, 1], 3, 0, Some(0)),
    (&[1, 1, 1, 1, 1, 1, 1], 3, 3, Some(3)),
    (&[1, 1, 1, 1, 1, 1, 1], 3, 6, Some(6)),
    (&[1, usize::MAX - 1], 2, 0, Some(0)),
    (&[1, usize::MAX - 1], 2, 1, Some(1)),
    (&[1, usize::MAX - 1], 2, u64::MAX - 1, Some(1)),
    (&[1, usize::MAX - 1], 2, u64::MAX, None),
];

#[test]
fn places_of_partial_sums(rt: HostRuntime) {
    for (at, (weights, probes, place, wanted)) in PLACES.iter().enumerate() {
        let found = found(rt.alloc(), weights, *place, *probes);
        let wanted = wanted.map(|index| (index, true));
        assert_same(&rt, &found, &Ok(wanted), &at);
    }
}

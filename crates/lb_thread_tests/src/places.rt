//! Places of words: a backend without one is asked for under locks by each selection.
use lb_select_base::backend::{Backend, Ext, InetAddr, SocketAddr};
use lb_select_base::refusal::Refusal;
use lb_threads_core::marks::{marks_of, place_of};
use std::alloc::Global;
use std::collections::BTreeSet;

// So many backends at addresses of a generator (D. Knuth, MMIX).
fn scattered(alloc: Global, count: usize) -> Result<BTreeSet<Backend>, Refusal> {
    let mut backends = BTreeSet::new(alloc);
    let mut state: u64 = 3;
    for _ in 0..count {
        state = state
            .wrapping_mul(6_364_136_223_846_793_005)
            .wrapping_add(1_442_695_040_888_963_407);
        let octets = ((state >> 32) as u32).to_be_bytes();
        backends.insert(Backend {
            addr: SocketAddr::Inet(InetAddr::V4(octets, 80)),
            weight: 1,
            ext: Ext::new(alloc),
        })?;
    }
    Ok(backends)
}

// How many backends there are, and how many of them have a place.
fn placed(alloc: Global, count: usize) -> Result<(usize, usize), Refusal> {
    let backends = scattered(alloc, count)?;
    let marks = marks_of(alloc, &backends)?;
    let mut places: usize = 0;
    for backend in &backends {
        if place_of(marks.as_slice(), backend).is_some() {
            places = places.saturating_add(1);
        }
    }
    Ok((backends.len(), places))
}

// Each of 3,000 backends has a place, wherever its address lies.
#[test]
fn each_backend_has_a_place(rt: HostRuntime) {
    assert_eq!(rt; placed(rt.alloc(), 3000), Ok((3000, 3000)));
}

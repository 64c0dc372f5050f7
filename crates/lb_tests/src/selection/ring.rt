//! The check value of the CRC, and the owners of places of a ring.
use crate::asserted::assert_row;
use crate::selection::fixtures::is_text;
use lb_select::crc::crc32;
use lb_select::ring::Ring;
use lb_select_base::backend::{Backend, SocketAddr};
use lb_select_base::refusal::Refusal;
use std::alloc::Global;

fn address(alloc: Global, text: &str) -> Result<SocketAddr, Refusal> {
    let Backend { addr, .. } = Backend::new(alloc, text)?;
    Ok(addr)
}

// A ring of these points.
fn ring_of(alloc: Global, points: &[(u32, &str)]) -> Result<Ring, Refusal> {
    let mut placed = Vec::new(alloc);
    for (place, text) in points {
        placed.push((*place, address(alloc, text)?))?;
    }
    Ring::of_points(placed)
}

// The owner of the point that comes `j` after a place on the ring of these points; an empty text where there is none.
fn owner(alloc: Global, points: &[(u32, &str)], place: u32, j: u64) -> Result<String, Refusal> {
    let ring = ring_of(alloc, points)?;
    match ring.owner(place, j) {
        Some(addr) => Ok(format!(in alloc; "{addr}")?),
        None => Ok(String::new(alloc)),
    }
}

const POINTS: &[(u32, &str)] = &[(5, "1.0.0.2:80"), (5, "1.0.0.1:80"), (9, "1.0.0.2:80")];

// Points on both halves of the circle: those are what an index of so few tells apart.
const HALVES: &[(u32, &str)] = &[
    (3_000_000_000, "1.0.0.3:80"),
    (9, "1.0.0.2:80"),
    (5, "1.0.0.1:80"),
];

// The points of a ring, a place, how many points further, and the owner of that point.
const OWNERS: &[(&[(u32, &str)], u32, u64, &str)] = &[
    (POINTS, 5, 0, "1.0.0.1:80"),
    (POINTS, 6, 0, "1.0.0.2:80"),
    (POINTS, 6, 1, "1.0.0.1:80"),
    (POINTS, 6, 2, "1.0.0.2:80"),
    (POINTS, 10, 0, "1.0.0.1:80"),
    (POINTS, u32::MAX, 1, "1.0.0.2:80"),
    (HALVES, 10, 0, "1.0.0.3:80"),
    (HALVES, 2_147_483_648, 0, "1.0.0.3:80"),
    (HALVES, 3_000_000_000, 2, "1.0.0.2:80"),
    (HALVES, 3_000_000_001, 0, "1.0.0.1:80"),
    (&[], 1, 1, ""),
];

#[test]
fn owners(rt: HostRuntime) {
    assert!(rt; crc32(b"123456789") == 0xcbf43926);
    for (points, place, j, wanted) in OWNERS {
        let found = owner(rt.alloc(), points, *place, *j);
        assert_row(&rt, is_text(&found, wanted), &(*place, *j));
    }
}

//! Places of backends, so that each is found by few looks: which place a backend has is tried by a number of its identity.
ghost use Rattle.std.specs.Prelude.{◌≡◌, IfSome, IsTrue, Some, slice_get, true};
ghost use Rattle.lb_select_base.specs.Backends.{Member, ipv4, same_member};
ghost use Rattle.lb_select_base.specs.Seen.{address_seen};

use lb_select_base::backend::{Backend, Ext, InetAddr, SocketAddr};
use std::alloc::{AllocError, Global};
use std::collections::BTreeSet;

/// Spreads numbers that follow one another: 2^64 divided by the golden ratio.
pub(crate) const SPREAD: u64 = 0x9E37_79B9_7F4A_7C15;

// How many places a backend may have. Of random addresses, 50,000 at once, each had one of the first 35.
const LOOKS: usize = 64;

/// The backend of each place; half of the places and more are empty.
pub type Marks = Vec<Option<Backend>>;

// A number of an address, by which few differ from the others in a group.
fn number_of(address: &SocketAddr) -> u64 {
    match address {
        SocketAddr::Inet(InetAddr::V4(octets, port)) => {
            u64::from(*port) << 32 | u64::from(u32::from_be_bytes(*octets))
        }
        SocketAddr::Inet(InetAddr::V6(octets, port)) => {
            let wide = u128::from_be_bytes(*octets);
            (wide >> 64) as u64 ^ (wide & 0xFFFF_FFFF_FFFF_FFFF) as u64 ^ u64::from(*port) << 32
        }
        SocketAddr::Unix(path) => {
            let mut number = 0u64;
            for byte in path.as_bytes() {
                number = number.wrapping_mul(SPREAD) ^ u64::from(*byte);
            }
            number
        }
    }
}

/// Returns a number of a backend's identity, whose high bits few others have: its place goes by it.
#[inline]
pub fn spread_of(backend: &Backend) -> u64 {
    let (address, weight) = backend.identity();
    let number = number_of(address).wrapping_add((weight as u64) << 48);
    number.wrapping_mul(SPREAD)
}

// The first place of a backend whose identity has this number, among so many: one that all others which it may have follow.
fn first_place(spread: u64, count: usize) -> usize {
    let firsts = count.saturating_sub(LOOKS) as u64;
    ((spread >> 32).wrapping_mul(firsts) >> 32) as usize
}

// The octets and the port of an IPv4 address.
#[inline]
fn ipv4_of(address: &SocketAddr) -> Option<(&[u8; 4], u16)>
    ensures { IfSome result (λ p. address_seen address.now ≡ ipv4 p.0.now p.1) }
{
    match address {
        SocketAddr::Inet(InetAddr::V4(octets, port)) => Some((octets, *port)),
        _ => None,
    }
}

// Whether two backends have one identity; of IPv4 addresses it takes three comparisons.
#[inline]
fn is_same(backend: &Backend, mark: &Backend) -> bool
    ensures { IsTrue result → same_member backend.now mark.now ≡ true }
{
    let Some((octets, port)) = ipv4_of(&backend.addr) else {
        return backend == mark;
    };
    let Some((others, other_port)) = ipv4_of(&mark.addr) else {
        return false;
    };
    if octets != others || port != other_port {
        return false;
    }
    backend.weight == mark.weight
}

/// Returns the place that a backend of this identity has.
#[inline]
pub fn place_of(marks: &[Option<Backend>], backend: &Backend) -> Option<usize>
    ensures { IfSome result (λ i. (m : Member) × (slice_get marks.now i ≡ Some (Some m)) × (same_member backend.now m ≡ true)) }
{
    place_by(marks, backend, spread_of(backend))
}

/// Returns what `place_of` returns of a backend whose identity has this number.
#[inline]
pub fn place_by(marks: &[Option<Backend>], backend: &Backend, spread: u64) -> Option<usize>
    ensures { IfSome result (λ i. (m : Member) × (slice_get marks.now i ≡ Some (Some m)) × (same_member backend.now m ≡ true)) }
{
    let first = first_place(spread, marks.len());
    for step in 0..LOOKS {
        let place = first.wrapping_add(step);
        let Some(Some(mark)) = marks.get(place) else {
            return None;
        };
        if is_same(backend, mark) {
            return Some(place);
        }
    }
    None
}

// An empty place for a backend.
fn free_place(marks: &[Option<Backend>], backend: &Backend) -> Option<usize> {
    let first = first_place(spread_of(backend), marks.len());
    for step in 0..LOOKS {
        let place = first.wrapping_add(step);
        match marks.get(place) {
            Some(Some(_)) => {}
            Some(None) => return Some(place),
            None => return None,
        }
    }
    None
}

/// Returns places of these backends. One for which none is left among those that it may have has no place.
///
/// Refused where memory is refused.
pub fn marks_of(alloc: Global, backends: &BTreeSet<Backend>) -> Result<Marks, AllocError> {
    let count = backends.len().saturating_mul(2).saturating_add(LOOKS);
    let mut marks = empty(alloc, count)?;
    for backend in backends {
        if let Some(place) = free_place(&marks, backend) {
            if place < marks.len() {
                marks[place] = Some(bare(alloc, backend)?);
            }
        }
    }
    Ok(marks)
}

// A backend of the same identity, with nothing attached.
fn bare(alloc: Global, backend: &Backend) -> Result<Backend, AllocError> {
    Ok(Backend {
        addr: backend.addr.clone()?,
        weight: backend.weight,
        ext: Ext::new(alloc),
    })
}

// So many places without a backend.
fn empty(alloc: Global, count: usize) -> Result<Marks, AllocError> {
    let mut marks = Vec::with_capacity(alloc, count)?;
    for _ in 0..count {
        marks.push(None)?;
    }
    Ok(marks)
}

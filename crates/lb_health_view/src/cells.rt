//! The cells of a snapshot, by backend, and hints by which most of them are found without a search. A hint is for one backend at an IPv4
//! address; a cell without a hint is searched for.
ghost use Rattle.std.specs.Prelude.{◌≡◌, ℕ, List, IfSome, Some};
ghost use Rattle.lb_select_base.specs.AddressText.{bare_member};
ghost use Rattle.lb_select_base.specs.Backends.{Member, ipv4};
ghost use Rattle.lb_health_view.specs.Internal.Hints.{AreHints};
ghost use Rattle.lb_health_view.specs.Snapshots.{value_at};

use lb_select_base::backend::{Backend, InetAddr, SocketAddr};
use std::alloc::Global;
use std::collections::BTreeMap;
use std::marker::Model;

// Spreads numbers that follow one another: 2^64 divided by the golden ratio.
const SPREAD: u64 = 0x9E37_79B9_7F4A_7C15;

// The cell of the backend of this address and weight.
#[derive(Clone, Copy)]
struct Hint {
    octets: [u8; 4],
    port: u16,
    weight: usize,
    cell: u64,
}

/// The cell of each backend of a snapshot. Contracts see the backends in their order, each with its cell.
#[derive(Drop)]
pub(crate) struct Cells {
    by_backend: BTreeMap<Backend, u64>,
    // two places or more for each backend, or none where there was no memory for them
    hints: Vec<Option<Hint>>,
}

impl Model for Cells {
    ghost use Rattle.std.specs.Prelude.{List, ℕ};
    ghost use Rattle.lb_select_base.specs.Backends.{Member};
    ghost use Rattle.lb_health_view.specs.Internal.Hints.{AreHints};

    ghost Value = { List (Member × ℕ) };

    ghost view = { λ c. c.by_backend.entries };

    ghost invariant = { λ c. AreHints c.by_backend.entries c.hints.items };
}

impl Cells {
    /// Returns these cells, with hints. Where memory is refused for the hints, there are none.
    pub(crate) fn new(alloc: Global, by_backend: BTreeMap<Backend, u64>) -> Cells
        ensures { result ≡ by_backend.entries }
    {
        let hints = hints_of(alloc, &by_backend);
        Cells { by_backend, hints }
    }

    /// Returns the cell of a backend, by identity, without taking memory.
    pub(crate) fn get(&self, backend: &Backend) -> Option<u64>
        ensures { result ≡ value_at self.now backend.now }
    {
        match self.hinted(backend) {
            Some(cell) => Some(cell),
            None => self.by_backend.get(backend).copied(),
        }
    }

    // The cell of a backend, where a hint says it.
    #[inline]
    fn hinted(&self, backend: &Backend) -> Option<u64>
        ensures { IfSome result (λ cell. value_at self.now backend.now ≡ Some cell) }
    {
        let (address, weight) = backend.identity();
        let SocketAddr::Inet(InetAddr::V4(octets, port)) = address else {
            return None;
        };
        let hints = self.hints.as_slice();
        let place = place_of(octets, *port, hints.len());
        match told(hints, place, octets, *port, weight) {
            Some(cell) => Some(cell),
            None => told(hints, place.wrapping_add(1), octets, *port, weight),
        }
    }
}

// The cell of the backend of this address and weight, where the hint at the place says it.
#[inline]
fn told(
    hints: &[Option<Hint>],
    place: usize,
    octets: &[u8; 4],
    port: u16,
    weight: usize,
) -> Option<u64>
    ensures { (entries : List (Member × ℕ)) → AreHints entries hints.now
        → IfSome result (λ cell. value_at entries (bare_member weight (ipv4 octets.now port)) ≡ Some cell) }
{
    let hint = (*hints.get(place)?)?;
    if hint.octets == *octets && hint.port == port && hint.weight == weight {
        Some(hint.cell)
    } else {
        None
    }
}

// The place of the hint of an IPv4 address among so many: any place would do, but addresses that follow one another are spread.
#[inline]
fn place_of(octets: &[u8; 4], port: u16, count: usize) -> usize {
    let number = u64::from(port) << 32 | u64::from(u32::from_be_bytes(*octets));
    let spread = number.wrapping_mul(SPREAD);
    ((spread >> 32).wrapping_mul(count as u64) >> 32) as usize
}

// So many places without a hint; none where memory is refused.
fn empty_places(alloc: Global, count: usize) -> Vec<Option<Hint>>
    ensures { (entries : List (Member × ℕ)) → AreHints entries result.items }
{
    let mut places = Vec::new(alloc);
    match places.resize(count, None) {
        Ok(()) => places,
        Err(_) => Vec::new(alloc),
    }
}

// Hints of these cells, as many as fit; none where memory is refused.
fn hints_of(alloc: Global, by_backend: &BTreeMap<Backend, u64>) -> Vec<Option<Hint>>
    ensures { AreHints by_backend.now.entries result.items }
{
    let mut hints = empty_places(alloc, by_backend.len().saturating_mul(2));
    for (backend, cell) in by_backend.iter() {
        note(&mut hints, backend, *cell);
    }
    hints
}

// Notes the cell of a backend, where its address is of IPv4 and one of its places is left.
fn note(hints: &mut Vec<Option<Hint>>, backend: &Backend, cell: u64)
    ensures { (entries : List (Member × ℕ)) → AreHints entries hints.old.items → value_at entries backend.now ≡ Some cell
        → AreHints entries hints.new.items }
{
    let (address, weight) = backend.identity();
    let SocketAddr::Inet(InetAddr::V4(octets, port)) = address else {
        return;
    };
    let hint = Hint {
        octets: *octets,
        port: *port,
        weight,
        cell,
    };
    let place = free_place(hints, place_of(octets, *port, hints.len()));
    if place < hints.len() {
        hints[place] = Some(hint);
    }
}

// The place, where it has no hint, or else the one after it.
fn free_place(hints: &[Option<Hint>], place: usize) -> usize {
    match hints.get(place) {
        Some(Some(_)) => place.wrapping_add(1),
        _ => place,
    }
}

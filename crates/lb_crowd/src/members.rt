//! Memberships by number.
use lb_select_base::backend::{Backend, Ext, InetAddr, SocketAddr};
use lb_select_base::refusal::Refusal;
use std::alloc::Global;
use std::collections::BTreeSet;

/// Returns the backend of a number below 16,777,216, at an address of this first byte.
pub fn member(alloc: Global, first: u8, number: u32, weight: usize) -> Backend {
    let [_, high, middle, low] = number.to_be_bytes();
    Backend {
        addr: SocketAddr::Inet(InetAddr::V4([first, high, middle, low], 80)),
        weight,
        ext: Ext::new(alloc),
    }
}

/// Returns so many backends of weight 1, at addresses of this first byte.
pub fn members(alloc: Global, first: u8, count: u32) -> Result<BTreeSet<Backend>, Refusal> {
    let mut set = BTreeSet::new(alloc);
    for number in 0..count {
        set.insert(member(alloc, first, number, 1))?;
    }
    Ok(set)
}

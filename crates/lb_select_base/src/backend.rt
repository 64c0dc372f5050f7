//! Backends: an address, a weight, and what a user attaches to them.
//! A backend is compared, ordered and hashed by address and weight alone: that pair is its identity.
ghost use Rattle.std.specs.Prelude.{◌≡◌, IfOk, Some, None, option_map};
ghost use Rattle.std.specs.Cmp.{partial_order_from_own_ties};
ghost use Rattle.std.specs.Cmp.Rules.{comparing};
ghost use Rattle.std.specs.Cmp.Lexicographic.{slice_cmp};
ghost use Rattle.std.specs.Ordering.{as_partial_cmp, nat_cmp, ordering_then};
ghost use Rattle.std.proofs.Common.{rules};
ghost use Rattle.lb_select_base.specs.AddressText.{address_of_text, address_refusal, bare_member, internet_backend, IsSpelledBy};
ghost use Rattle.lb_select_base.specs.AddressText.{path_of_text, path_refusal, member_text, GivesSocket};
ghost use Rattle.lb_select_base.specs.Backends.{unix, Member, address_cmp, member_cmp, same_member, member_hash, identity_of};
ghost use Rattle.lb_select_base.specs.Refusals.{Refuses};
ghost use Rattle.lb_select_base.specs.Seen.{address_seen, entries_seen};
ghost use Rattle.lb_select_base.specs.Identity.{hash_alike};

use crate::refusal::Refusal;
use std::alloc::{AllocError, Global};
use std::cmp::Ordering;
use std::collections::BTreeMap;
use std::hash::{Hash, Hasher};
use std::marker::Model;
use std::{fmt, iter, net};

/// An internet address with its port: four or sixteen octets, the most significant first. IPv4 comes before IPv6, then the
/// octets decide, then the port.
#[derive(Clone, Copy, Debug, PartialEq, Eq, PartialOrd, Ord, Hash)]
pub enum InetAddr {
    V4([u8; 4], u16),
    V6([u8; 16], u16),
}

/// Where a backend is reached: an internet address or the path of a Unix socket. Internet addresses come first; paths order
/// by their bytes.
#[derive(Debug, Drop, PartialEq, Eq, PartialOrd, Ord, Hash)]
pub enum SocketAddr {
    Inet(InetAddr),
    Unix(String),
}

/// What a user attaches to a backend, by name. It has no part in a backend's identity.
pub type Ext = BTreeMap<String, Vec<u8>>;

/// A backend: its address, its weight (0 or more; a share of the traffic against the sum of all weights), and what a user
/// attached to it.
#[derive(Debug, Drop)]
pub struct Backend {
    pub addr: SocketAddr,
    pub weight: usize,
    pub ext: Ext,
}

impl Model for Backend {
    ghost use Rattle.lb_select_base.specs.Backends.{Member};

    ghost Value = { Member };

    ghost use Rattle.lb_select_base.specs.Seen.{member_seen};

    ghost view = { member_seen };
}

impl Backend {
    /// Returns a backend of weight 1 at an internet address, with nothing attached.
    ///
    /// Refused as `new_with_weight` is.
    pub fn new(alloc: Global, addr: &str) -> Result<Backend, Refusal>
        ensures made { result ≡ internet_backend 1 addr.now }
        ensures spelled { IsSpelledBy addr.now result }
    {
        Backend::new_with_weight(alloc, addr, 1)
    }

    /// Returns a backend of this weight at an internet address, with nothing attached.
    ///
    /// The text is read as a `std::net::SocketAddr`. Refused `InvalidAddress` where std refuses it or its scope id is not 0; no memory is
    /// taken.
    pub fn new_with_weight(alloc: Global, addr: &str, weight: usize) -> Result<Backend, Refusal>
        ensures made { result ≡ internet_backend weight addr.now }
        ensures spelled { IsSpelledBy addr.now result }
    {
        let inet = addr.parse::<InetAddr>()?;
        Ok(Backend::bare(alloc, SocketAddr::Inet(inet), weight))
    }

    /// Returns a backend of this weight at the Unix socket of this path, with nothing attached.
    ///
    /// Refused `InvalidAddress` for the empty path, and `OutOfMemory` where there is no room for a path.
    pub fn unix(alloc: Global, path: &str, weight: usize) -> Result<Backend, Refusal>
        ensures { Refuses (path_refusal path.now) (λ b. b ≡ bare_member weight (unix path.now)) result }
    {
        if path.is_empty() {
            return Err(Refusal::InvalidAddress);
        }
        let path = path.to_string(alloc)?;
        Ok(Backend::bare(alloc, SocketAddr::Unix(path), weight))
    }

    /// Returns a backend of this weight at the address that the text spells, with nothing attached.
    ///
    /// A text is `unix:` and a path of one byte or more, or a text for `new`. Refused `InvalidAddress` where it spells no address, and
    /// `OutOfMemory` where there is no room for a path.
    pub fn from_text(alloc: Global, text: &str, weight: usize) -> Result<Backend, Refusal>
        ensures made { Refuses (address_refusal (address_of_text text.now))
            (λ b. option_map (bare_member weight) (address_of_text text.now) ≡ Some b) result }
        ensures internet { path_of_text text.now ≡ None → result ≡ internet_backend weight text.now }
    {
        match text.strip_prefix("unix:") {
            Some(path) if !path.is_empty() => Backend::unix(alloc, path, weight),
            _ => Backend::new_with_weight(alloc, text, weight),
        }
    }

    // A backend with nothing attached.
    fn bare(alloc: Global, addr: SocketAddr, weight: usize) -> Backend
        ensures { result ≡ bare_member weight (address_seen addr) }
    {
        Backend {
            addr,
            weight,
            ext: Ext::new(alloc),
        }
    }

    // A backend of the same identity, with nothing attached.
    pub(crate) fn clone_identity(&self, alloc: Global) -> Result<Backend, AllocError>
        ensures { IfOk result (λ c. c ≡ bare_member self.now.weight self.now.address) }
    {
        let addr = self.addr.clone()?;
        Ok(Backend::bare(alloc, addr, self.weight))
    }

    /// Returns a copy of the backend. Where nothing is attached, no map is cloned.
    pub fn copied(&self, alloc: Global) -> Result<Backend, AllocError>
        ensures { IfOk result (λ c. c ≡ self.now) }
    {
        match &self.addr {
            SocketAddr::Inet(inet) if self.ext.is_empty() => Ok(Backend {
                addr: SocketAddr::Inet(*inet),
                weight: self.weight,
                ext: Ext::new(alloc),
            }),
            _ => self.copied_by_parts(alloc),
        }
    }

    // The copy of any backend. It is a function of its own, so that the copy of an internet address with nothing attached is short.
    #[cold]
    #[inline(never)]
    fn copied_by_parts(&self, alloc: Global) -> Result<Backend, AllocError>
        ensures { IfOk result (λ c. c ≡ self.now) }
    {
        if self.ext.is_empty() {
            self.clone_identity(alloc)
        } else {
            self.clone()
        }
    }

    /// Returns what makes two backends the same: the address and the weight.
    pub fn identity(&self) -> (&SocketAddr, usize)
        ensures { (address_seen result.0.now, result.1) ≡ identity_of self.now }
    {
        (&self.addr, self.weight)
    }

    /// Returns the one socket address of an internet address; nothing is looked up.
    ///
    /// Refused `InvalidAddress` for a Unix address.
    pub fn to_socket_addrs<N: net::Net>(
        &self,
        _net: &N,
    ) -> Result<iter::Once<net::SocketAddr>, Refusal>
        ensures { GivesSocket self.now.address result }
    {
        match &self.addr {
            SocketAddr::Inet(inet) => Ok(iter::once(net::SocketAddr::from(*inet))),
            SocketAddr::Unix(_) => Err(Refusal::InvalidAddress),
        }
    }
}

impl fmt::Display for Backend {
    ghost output = { λ b. Some (member_text b) };

    fn fmt<W: fmt::Write>(&self, f: &mut fmt::Formatter<W>) -> fmt::Result {
        let addr = &self.addr;
        let weight = self.weight;
        write!(f, "{addr}/{weight}")
    }
}

// How two IPv4 addresses with their ports compare, each as one number.
fn compared_v4(octets: &[u8; 4], port: u16, others: &[u8; 4], other_port: u16) -> Ordering
    ensures { result ≡ ordering_then (slice_cmp nat_cmp octets.now others.now) (nat_cmp port other_port) }
{
    let number = u64::from(u32::from_be_bytes(*octets)) * 0x1_0000 + u64::from(port);
    let other = u64::from(u32::from_be_bytes(*others)) * 0x1_0000 + u64::from(other_port);
    number.cmp(&other)
}

// How the octets of two IPv6 addresses compare, as one number each.
fn compared_sixteen(octets: &[u8; 16], others: &[u8; 16]) -> Ordering
    ensures { result ≡ slice_cmp nat_cmp octets.now others.now }
{
    u128::from_be_bytes(*octets).cmp(&u128::from_be_bytes(*others))
}

// How two addresses compare: what `Ord` answers, but octets are compared as numbers.
fn compared(addr: &SocketAddr, other: &SocketAddr) -> Ordering
    ensures { result ≡ address_cmp (address_seen addr.now) (address_seen other.now) }
{
    match (addr, other) {
        (
            SocketAddr::Inet(InetAddr::V4(octets, port)),
            SocketAddr::Inet(InetAddr::V4(others, other_port)),
        ) => compared_v4(octets, *port, others, *other_port),
        (
            SocketAddr::Inet(InetAddr::V6(octets, port)),
            SocketAddr::Inet(InetAddr::V6(others, other_port)),
        ) => compared_sixteen(octets, others).then(port.cmp(other_port)),
        _ => addr.cmp(other),
    }
}

impl Clone for SocketAddr {
    ghost is_clone = { λ a b. address_seen b ≡ address_seen a };

    fn clone(&self) -> Result<SocketAddr, AllocError> {
        match self {
            SocketAddr::Inet(inet) => Ok(SocketAddr::Inet(*inet)),
            SocketAddr::Unix(path) => Ok(SocketAddr::Unix(path.clone()?)),
        }
    }
}

// A map's clone has the same entries, each with a clone of its value.
fn clone_ext(ext: &Ext) -> Result<Ext, AllocError>
    ensures { IfOk result (λ r. entries_seen r.entries ≡ entries_seen ext.now.entries) }
{
    let copy = ext.clone()?;
    Ok(copy)
}

impl Clone for Backend {
    ghost is_clone = { λ b c. c ≡ b };

    fn clone(&self) -> Result<Backend, AllocError> {
        let addr = self.addr.clone()?;
        let ext = clone_ext(&self.ext)?;
        Ok(Backend {
            addr,
            weight: self.weight,
            ext,
        })
    }
}

impl PartialEq for Backend {
    ghost eq = { same_member };

    ghost laws = { Prim.search (comparing, rules) depth 9 };

    fn eq(&self, other: &Backend) -> bool {
        self.cmp(other) == Ordering::Equal
    }
}

impl Eq for Backend {
    ghost laws = { Prim.search (comparing, rules) depth 9 };
}

impl PartialOrd for Backend {
    ghost partial_cmp = { as_partial_cmp member_cmp };

    ghost laws = { partial_order_from_own_ties (Prim.search (comparing, rules) depth 9) (Prim.search (comparing, rules) depth 9) };

    fn partial_cmp(&self, other: &Backend) -> Option<Ordering> {
        Some(self.cmp(other))
    }
}

impl Ord for Backend {
    ghost cmp = { member_cmp };

    ghost total = { Prim.search (comparing, rules) depth 9 };

    ghost matches_partial_cmp = { Prim.search (comparing, rules) depth 9 };

    ghost matches_eq = { Prim.search (comparing, rules) depth 9 };

    fn cmp(&self, other: &Backend) -> Ordering {
        match compared(&self.addr, &other.addr) {
            Ordering::Equal => self.weight.cmp(&other.weight),
            order => order,
        }
    }
}

impl Hash for Backend {
    ghost hash_input = { member_hash };

    ghost respects_eq = { hash_alike };

    fn hash<H: Hasher>(&self, state: &mut H) {
        match &self.addr {
            SocketAddr::Inet(InetAddr::V4(octets, port)) => {
                state.write_u8(4);
                state.write(octets);
                state.write_u16(*port);
            }
            SocketAddr::Inet(InetAddr::V6(octets, port)) => {
                state.write_u8(6);
                state.write(octets);
                state.write_u16(*port);
            }
            SocketAddr::Unix(path) => {
                state.write_u8(0);
                state.write(path.as_bytes());
            }
        }
        state.write_usize(self.weight);
    }
}

//! Addresses as texts: what is written for an address, and the internet address that a text spells.
//! Both are Rust's texts of std::net::SocketAddr; a Unix socket is written as `unix:` and its path.
ghost use Rattle.std.specs.Prelude.{◌≡◌, Some, option_map};
ghost use Rattle.std.specs.Option.{ok_or};
ghost use Rattle.std.specs.Result.{result_map_both};
ghost use Rattle.std.specs.Net.Addr.{ipv6_octets};
ghost use Rattle.std.specs.Net.Socket.{socket_flowinfo};
ghost use Rattle.lb_select_base.specs.AddressText.{address_text, internet_of_text, socket_seen};
ghost use Rattle.lb_select_base.specs.declared.refusal.Refusal.TheVariants.{InvalidAddress};
ghost use Rattle.lb_select_base.specs.Seen.{address_seen, inet_seen};

use crate::backend::{InetAddr, SocketAddr};
use crate::refusal::Refusal;
use std::str::FromStr;
use std::{fmt, net};

// An address of std, unless it has a scope.
fn inet_of(addr: net::SocketAddr) -> Option<InetAddr>
    ensures { option_map inet_seen result ≡ socket_seen addr }
{
    match addr {
        net::SocketAddr::V4(v4) => Some(InetAddr::V4(v4.ip().octets(), v4.port())),
        net::SocketAddr::V6(v6) => {
            if v6.scope_id() == 0 {
                Some(InetAddr::V6(v6.ip().octets(), v6.port()))
            } else {
                None
            }
        }
    }
}

/// Reads what std reads as a `std::net::SocketAddr`. Refused `InvalidAddress` where std refuses the text, and where its scope
/// id is not 0. No text has flow information.
impl FromStr for InetAddr {
    type Err = Refusal;

    ghost from_str_gives = { λ text r. result_map_both inet_seen (λ e. e) r ≡ ok_or (internet_of_text text) InvalidAddress };

    fn from_str(text: &str) -> Result<InetAddr, Refusal> {
        match text.parse::<net::SocketAddr>() {
            Ok(addr) => inet_of(addr).ok_or(Refusal::InvalidAddress),
            Err(_) => Err(Refusal::InvalidAddress),
        }
    }
}

// An IPv6 address by its octets.
fn ipv6_of(octets: &[u8; 16]) -> net::Ipv6Addr
    ensures { ipv6_octets result ≡ octets.now }
{
    net::Ipv6Addr::from_octets(*octets)
}

/// Returns the same address, without flow information or a scope.
impl From<InetAddr> for net::SocketAddr {
    ghost from_gives = { λ inet s. (socket_seen s ≡ Some (inet_seen inet)) × (socket_flowinfo s ≡ 0) };

    fn from(inet: InetAddr) -> net::SocketAddr {
        match inet {
            InetAddr::V4(octets, port) => {
                net::SocketAddr::V4(net::SocketAddrV4::new(
                    net::Ipv4Addr::from_octets(octets),
                    port,
                ))
            }
            InetAddr::V6(octets, port) => net::SocketAddr::V6(net::SocketAddrV6::new(
                ipv6_of(&octets),
                port,
                0,
                0,
            )),
        }
    }
}

impl InetAddr {
    /// Returns the same address as std has it, without flow information or a scope.
    pub fn to_std(&self) -> net::SocketAddr
        ensures { (socket_seen result ≡ Some (inet_seen self.now)) × (socket_flowinfo result ≡ 0) }
    {
        net::SocketAddr::from(*self)
    }
}

impl fmt::Display for InetAddr {
    ghost output = { λ a. Some (address_text (inet_seen a)) };

    fn fmt<W: fmt::Write>(&self, f: &mut fmt::Formatter<W>) -> fmt::Result {
        match self {
            InetAddr::V4(octets, port) => {
                let ip = net::Ipv4Addr::from_octets(*octets);
                write!(f, "{ip}:{port}")
            }
            InetAddr::V6(octets, port) => {
                let ip = net::Ipv6Addr::from_octets(*octets);
                write!(f, "[{ip}]:{port}")
            }
        }
    }
}

impl fmt::Display for SocketAddr {
    ghost output = { λ a. Some (address_text (address_seen a)) };

    fn fmt<W: fmt::Write>(&self, f: &mut fmt::Formatter<W>) -> fmt::Result {
        match self {
            SocketAddr::Inet(inet) => write!(f, "{inet}"),
            SocketAddr::Unix(path) => write!(f, "unix:{path}"),
        }
    }
}

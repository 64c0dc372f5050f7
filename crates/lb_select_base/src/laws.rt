//! Laws of the definitions here, and of what is derived. Each function here does nothing at run time, and its contract holds for every
//! backend, every address and every walk.
ghost use Rattle.std.specs.Prelude.{◌≡◌, ◌↔◌, IsTrue, [], length, Some};
ghost use Rattle.lb_select_base.specs.AddressText.{address_of_text, address_text, internet_of_text};
ghost use Rattle.lb_select_base.specs.Backends.{ipv4, ipv6, unix, Member, address_cmp, same_member, identity_of};
ghost use Rattle.lb_select_base.specs.Seen.{address_seen, inet_seen};
ghost use Rattle.lb_select_base.specs.UniqueLaws.{TurnsAreDistinct, LimitStaysMet, EndStaysMet};

use crate::backend::{InetAddr, SocketAddr};
use crate::walk::BackendIter;
use crate::words::WordSource;

/// Addresses are ordered as is stated: IPv4 before IPv6 before Unix, then by octets or path, then by port.
pub fn address_order_law()
    ensures { (a b : SocketAddr) → ⟦<SocketAddr as Ord>⟧.cmp a b ≡ address_cmp (address_seen a) (address_seen b) }
{}

/// Backends are equal exactly where their identities are.
pub fn equal_by_identity_law()
    ensures { (a b : Member) → IsTrue (same_member a b) ↔ (identity_of a ≡ identity_of b) }
{}

/// The text of an internet address spells it.
pub fn internet_text_law(inet: &InetAddr)
    ensures { internet_of_text (address_text (inet_seen inet.now)) ≡ Some (inet_seen inet.now) }
{
    match inet {
        InetAddr::V4(octets, port) => ipv4_text_law(octets, *port),
        InetAddr::V6(octets, port) => ipv6_text_law(octets, *port),
    }
}

/// The text of an address spells that address, and an internet address is not spelled as a path is.
///
/// The empty path has no such text.
pub fn address_text_law(addr: &SocketAddr)
    requires { ¬ (address_seen addr.now ≡ unix []) }
    ensures { address_of_text (address_text (address_seen addr.now)) ≡ Some (address_seen addr.now) }
{
    if let SocketAddr::Inet(inet) = addr {
        internet_text_law(inet);
    }
}

fn ipv4_text_law(octets: &[u8], port: u16)
    requires { length octets.now ≡ 4 }
    ensures { internet_of_text (address_text (ipv4 octets.now port)) ≡ Some (ipv4 octets.now port) }
{}

fn ipv6_text_law(octets: &[u8], port: u16)
    requires { length octets.now ≡ 16 }
    ensures { internet_of_text (address_text (ipv6 octets.now port)) ≡ Some (ipv6 octets.now port) }
{}

/// Each backend that a turn of a unique walk finds is one distinct candidate more, and the other candidates that it went past
/// are none.
pub fn distinct_turns_law<I: BackendIter, W: WordSource>()
    ensures { TurnsAreDistinct W.gives I.walk }
{}

/// Once a unique walk has met its limit every turn gives none, and it stays so.
pub fn limit_law<I: BackendIter, W: WordSource>()
    ensures { LimitStaysMet W.gives I.walk }
{}

/// Once the walk under a unique walk has ended every turn gives none, and it stays so.
pub fn end_law<I: BackendIter, W: WordSource>()
    ensures { EndStaysMet W.gives I.walk }
{}

//! What a network answers for a text, and how it becomes backends.
ghost use Rattle.std.specs.Prelude.{◌≡◌, List, OnErr, map};
ghost use Rattle.std.specs.declared.option.Option.{Option};
ghost use Rattle.std.specs.Option.{option_map};
ghost use Rattle.std.specs.Net.ToAddrs.{host_addrs};
ghost use Rattle.lb_select_base.specs.AddressText.{socket_seen};
ghost use Rattle.lb_select_base.specs.Backends.{Member};
ghost use Rattle.lb_select_base.specs.Refusals.{Refuses};
ghost use Rattle.lb_select_base.specs.declared.refusal.Refusal.{Refusal};
ghost use Rattle.lb_select_base.specs.Seen.{inet_seen};
ghost use Rattle.lb_health_view.specs.Discoveries.{IsDiscoveryRefusal};
ghost use Rattle.lb_health_view.specs.Lookups.{Answer, AreAnswers, FindsSpelled, Gathers, cause_of, cause_after};
ghost use Rattle.lb_health_view.specs.Lookups.{socket_answer, with_answer, with_answers};

use lb_select_base::backend::{Backend, Ext, InetAddr, SocketAddr};
use lb_select_base::causes::earlier;
use lb_select_base::refusal::Refusal;
use std::alloc::Global;
use std::collections::BTreeSet;
use std::io::ErrorKind;
use std::net::{self, HostAddrs, Net, ToSocketAddrs};

// Puts the backends at the addresses that the network answers for the text into the set. It answers the least cause for which
// that is refused, or the earlier one.
pub(crate) fn gather<N: Net>(
    alloc: Global,
    net: &N,
    text: &str,
    backends: &mut BTreeSet<Backend>,
    earlier_cause: Option<Refusal>,
) -> Option<Refusal>
    ensures { (answers : List Answer) × AreAnswers text.now answers × ((c : Option Refusal) (members : List Member)
        → Gathers c members earlier_cause backends.old.keys
        → Gathers (cause_after c answers) (with_answers members answers) result backends.new.keys) }
{
    match look_up(net, text) {
        Ok(addresses) => insert_all(alloc, backends, addresses, earlier_cause),
        Err(refusal) => earlier(earlier_cause, Some(refusal)),
    }
}

// The addresses of a text. That std can neither read it nor look it up is a fault.
fn look_up<N: Net>(net: &N, text: &str) -> Result<HostAddrs, Refusal>
    ensures spelled { FindsSpelled text.now result }
    ensures refused { OnErr result (IsDiscoveryRefusal result) }
{
    match text.to_socket_addrs(net) {
        Ok(addresses) => Ok(addresses),
        Err(fault) if fault.kind() == ErrorKind::OutOfMemory => Err(Refusal::OutOfMemory),
        Err(_) => Err(Refusal::Discovery),
    }
}

// Puts the backends at these addresses into the set, and answers the least cause for which that is refused, or the earlier one.
fn insert_all(
    alloc: Global,
    backends: &mut BTreeSet<Backend>,
    addresses: HostAddrs,
    earlier_cause: Option<Refusal>,
) -> Option<Refusal>
    ensures { (c : Option Refusal) (members : List Member) → Gathers c members earlier_cause backends.old.keys
        → Gathers (cause_after c (map socket_answer (host_addrs addresses)))
        (with_answers members (map socket_answer (host_addrs addresses))) result backends.new.keys }
{
    let mut cause = earlier_cause;
    for address in addresses {
        cause = earlier(cause, insert(alloc, backends, address).err());
    }
    cause
}

// Puts the backend of weight 1 at this address into the set, unless it has a scope.
fn insert(
    alloc: Global,
    backends: &mut BTreeSet<Backend>,
    address: net::SocketAddr,
) -> Result<(), Refusal>
    ensures { Refuses (cause_of (socket_answer address))
        (λ _. backends.new.keys ≡ with_answer backends.old.keys (socket_answer address)) result }
{
    let Some(inet) = inet_of(address) else {
        return Err(Refusal::InvalidAddress);
    };
    backends.insert(Backend {
        addr: SocketAddr::Inet(inet),
        weight: 1,
        ext: Ext::new(alloc),
    })?;
    Ok(())
}

// The address of std, where it has no scope.
fn inet_of(addr: net::SocketAddr) -> Option<InetAddr>
    ensures { option_map inet_seen result ≡ socket_seen addr }
{
    match addr {
        net::SocketAddr::V4(v4) => Some(InetAddr::V4(v4.ip().octets(), v4.port())),
        net::SocketAddr::V6(v6) => {
            if v6.scope_id() == 0 {
                Some(InetAddr::V6(v6.ip().octets(), v6.port()))
            } else {
                None
            }
        }
    }
}

//! The chain of points of an internet address: each is the CRC of the address's text and of the point before it.
//! The text is fed once, and its state is used for each point.
ghost use Rattle.std.specs.Prelude.{◌≡◌, IfOk};
ghost use Rattle.lb_select_base.specs.Seen.{inet_seen};
ghost use Rattle.lb_select.specs.Chains.{hashed_text, point_after};
ghost use Rattle.lb_select.specs.Crc.{crc_fed};

use crate::crc::{START, crc_of_state, state_after, state_after_word};
use lb_select_base::backend::InetAddr;
use std::alloc::{AllocError, Global};
use std::net::{Ipv4Addr, Ipv6Addr};

// The state of a CRC that was fed the text of an address: the IP address, a zero byte, the port in decimal.
pub(crate) fn text_state(alloc: Global, addr: &InetAddr) -> Result<u32, AllocError>
    ensures { IfOk result (λ s. s ≡ crc_fed 0xFFFFFFFF (hashed_text (inet_seen addr.now))) }
{
    let text = match addr {
        InetAddr::V4(octets, port) => {
            let ip = Ipv4Addr::from(*octets);
            format!(in alloc; "{ip}\0{port}")?
        }
        InetAddr::V6(octets, port) => {
            let ip = Ipv6Addr::from(*octets);
            format!(in alloc; "{ip}\0{port}")?
        }
    };
    Ok(state_after(START, text.as_bytes()))
}

// The point after a point.
pub(crate) fn point_after(state: u32, point: u32) -> u32
    ensures { result ≡ point_after state point }
{
    crc_of_state(state_after_word(state, point))
}

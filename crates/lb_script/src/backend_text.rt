//! The text of a backend as bytes, written from its end to its front.
//! Most answers are a backend at an IPv4 address: that text takes no formatter, and is copied once.
ghost use Rattle.std.specs.Prelude.{◌≡◌, ◌+◌, ◌<◌, ◌≤◌, ◌∷◌, ◌++◌, codes, decimal, drop, length, OnErr, OnOk};
ghost use Rattle.lb_select_base.specs.AddressText.{address_text, member_text};
ghost use Rattle.lb_select_base.specs.Backends.{ipv4};

use itoa::write_digits;
use lb_select_base::backend::{Backend, InetAddr, SocketAddr};
use std::alloc::{AllocError, Global};

/// How many bytes a text that grows at its front may have: six numbers, five bytes between them, a name, a line feed and some.
pub const CAPACITY: usize = 144;

/// Appends the text of a backend: its address, a slash and its weight.
pub fn push_backend(alloc: Global, text: &mut Vec<u8>, backend: &Backend) -> Result<(), AllocError>
    ensures { OnOk result (text.new.items ≡ text.old.items ++ member_text backend.now) }
{
    let (address, weight) = backend.identity();
    match address {
        SocketAddr::Inet(InetAddr::V4(octets, port)) => {
            let mut bytes = [0; CAPACITY];
            let start = put_ipv4(&mut bytes, CAPACITY, octets, *port, weight as u64);
            text.extend_from_slice(&bytes[start..])
        }
        _ => {
            let spelled = format!(in alloc; "{backend}")?;
            text.extend_from_slice(spelled.as_bytes())
        }
    }
}

/// Appends the answer that is a backend and a line feed, or nothing where memory is refused.
///
/// Most answers are this one: it is spelled in `bytes`, whose content has no meaning before or after, and copied once.
pub fn push_backend_line(
    alloc: Global,
    text: &mut Vec<u8>,
    bytes: &mut [u8; CAPACITY],
    backend: &Backend,
) -> Result<(), AllocError>
    ensures ok { OnOk result (text.new.items ≡ text.old.items ++ (codes "backend " ++ member_text backend.now ++ codes "\n")) }
    ensures none { OnErr result (text.new.items ≡ text.old.items) }
{
    let (address, weight) = backend.identity();
    match address {
        SocketAddr::Inet(InetAddr::V4(octets, port)) => {
            let end = put_byte(bytes, CAPACITY, b'\n');
            let address = put_ipv4(bytes, end, octets, *port, weight as u64);
            let start = put_name(bytes, address);
            text.extend_from_slice(&bytes[start..])
        }
        _ => {
            let spelled = format!(in alloc; "backend {backend}\n")?;
            text.extend_from_slice(spelled.as_bytes())
        }
    }
}

// Puts a byte before the text that begins at `start`, and returns where the longer text begins. A place that is not a field next to the
// bytes stays in a register.
fn put_byte(bytes: &mut [u8; CAPACITY], start: usize, byte: u8) -> usize
    requires { (0 < start) × (start ≤ 144) }
    ensures text { drop result bytes.new ≡ byte ∷ drop start bytes.old }
    ensures place { result + 1 ≡ start }
{
    bytes[start - 1] = byte;
    start - 1
}

// Puts a number before the text that begins at `start`, and answers where the longer text begins.
fn put_number(bytes: &mut [u8; CAPACITY], start: usize, n: u64) -> usize
    requires { (20 ≤ start) × (start ≤ 144) }
    ensures text { drop result bytes.new ≡ decimal n ++ drop start bytes.old }
    ensures place { (result ≤ start) × (start ≤ result + 20) }
{
    write_digits(n, bytes, start)
}

// Puts the name of the answer before the text that begins at `start`, and answers where the longer text begins.
fn put_name(bytes: &mut [u8; CAPACITY], start: usize) -> usize
    requires { (8 ≤ start) × (start ≤ 144) }
    ensures text { drop result bytes.new ≡ codes "backend " ++ drop start bytes.old }
    ensures place { result + 8 ≡ start }
{
    let mut at = put_byte(bytes, start, b' ');
    at = put_byte(bytes, at, b'd');
    at = put_byte(bytes, at, b'n');
    at = put_byte(bytes, at, b'e');
    at = put_byte(bytes, at, b'k');
    at = put_byte(bytes, at, b'c');
    at = put_byte(bytes, at, b'a');
    put_byte(bytes, at, b'b')
}

// Puts an IPv4 address, its port and a weight before the text that begins at `start`, and answers where the longer text begins.
fn put_ipv4(
    bytes: &mut [u8; CAPACITY],
    start: usize,
    octets: &[u8],
    port: u16,
    weight: u64,
) -> usize
    requires { (length octets.now ≡ 4) × ((125 ≤ start) × (start ≤ 144)) }
    ensures text { drop result bytes.new ≡ (address_text (ipv4 octets.now port) ++ codes "/" ++ decimal weight) ++ drop start bytes.old }
    ensures place { (result ≤ start) × (start ≤ result + 125) }
{
    let mut at = put_number(bytes, start, weight);
    at = put_byte(bytes, at, b'/');
    at = put_number(bytes, at, u64::from(port));
    at = put_byte(bytes, at, b':');
    at = put_number(bytes, at, u64::from(octets[3]));
    at = put_byte(bytes, at, b'.');
    at = put_number(bytes, at, u64::from(octets[2]));
    at = put_byte(bytes, at, b'.');
    at = put_number(bytes, at, u64::from(octets[1]));
    at = put_byte(bytes, at, b'.');
    put_number(bytes, at, u64::from(octets[0]))
}

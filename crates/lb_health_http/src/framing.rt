//! How the body of an answer is framed, by its head. Fields that contradict each other frame nothing: a repeated length, a length together
//! with a transfer coding, an unknown coding.
ghost use Rattle.std.specs.Prelude.{◌≡◌, ◌∷◌, []};
ghost use Rattle.lb_health_http.specs.Framing.{Finds, framing_of, length_value};

use http::header::{CONTENT_LENGTH, TRANSFER_ENCODING};
use http::response::Parts;
use http_header::{GetAll, HeaderValue};

/// How a body ends.
#[derive(Clone, Copy, Debug, PartialEq, Eq)]
pub(crate) enum Framing {
    /// There is no body.
    Nothing,
    /// After so many bytes.
    Sized(u64),
    /// After the last chunk and the trailers.
    Chunked,
    /// At the end of the stream.
    ToEnd,
}

// The values under one name.
#[derive(Drop)]
enum Found<'a> {
    Absent,
    One(&'a HeaderValue),
    Many,
}

fn find_one(values: GetAll<'_, HeaderValue>) -> Found<'_>
    ensures { Finds values.entry result }
{
    let mut all = values.iter();
    match (all.next(), all.next()) {
        (None, _) => Found::Absent,
        (Some(value), None) => Found::One(value),
        (Some(_), Some(_)) => Found::Many,
    }
}

// The number that 1 to 19 decimal digits write.
fn length_of(digits: &[u8]) -> Option<u64>
    ensures { result ≡ length_value digits.now }
{
    if digits.is_empty() || digits.len() > 19 {
        return None;
    }
    let mut value: u64 = 0;
    for digit in digits {
        if !digit.is_ascii_digit() {
            return None;
        }
        value = value * 10 + (*digit - b'0') as u64;
    }
    Some(value)
}

/// Returns how the head frames its body, or `None` where it contradicts itself.
///
/// `minor` is the minor number of the version, and `is_head` says that the request asked for the head alone.
pub(crate) fn frame(is_head: bool, minor: u8, head: &Parts) -> Option<Framing>
    ensures { result ≡ framing_of is_head minor head.now }
{
    let status = head.status.as_u16();
    if is_head || status == 204 || status == 304 {
        return Some(Framing::Nothing);
    }
    let lengths = find_one(head.headers.get_all(CONTENT_LENGTH));
    match find_one(head.headers.get_all(TRANSFER_ENCODING)) {
        Found::Absent => match lengths {
            Found::Absent => Some(Framing::ToEnd),
            Found::One(value) => length_of(value.as_bytes()).map(Framing::Sized),
            Found::Many => None,
        },
        Found::One(value) => match lengths {
            Found::Absent if minor != 0 && value.as_bytes().eq_ignore_ascii_case(b"chunked") => {
                Some(Framing::Chunked)
            }
            _ => None,
        },
        Found::Many => None,
    }
}

//! How a body ends, by the fields of its head: there is exactly one statement of it, or none.
ghost use Rattle.std.specs.Prelude.{◌≡◌};
ghost use Rattle.lb_proxy.specs.Http.Framing.{length_value, statement_of, stated_length, stated_coding};

use crate::http::field::{Field, Found, find_one, same_name};

/// How a body ends.
#[derive(Clone, Copy)]
pub enum Framing {
    /// There is no body.
    Nothing,
    /// After so many bytes.
    Sized(u64),
    /// After the last chunk and the trailers.
    Chunked,
    /// At the end of the stream; answers alone.
    UntilClose,
}

/// A version of HTTP.
#[derive(Clone, Copy, PartialEq, Eq)]
pub enum Version {
    Http10,
    Http11,
}

/// What the fields of a head state of its body.
#[derive(Clone, Copy)]
pub(crate) enum Stated {
    /// Nothing.
    Silent,
    /// Its length.
    Length(u64),
    /// That it is in chunks.
    Chunks,
    /// A transfer coding other than chunked.
    Coded,
    /// More than one thing, or what is no length.
    Ambiguous,
}

// The number that 1 to 19 decimal digits write.
fn length_of(digits: &[u8]) -> Option<u64>
    ensures { result ≡ length_value digits.now }
{
    if digits.is_empty() || digits.len() > 19 {
        return None;
    }
    let mut value: u64 = 0;
    for digit in digits {
        if !digit.is_ascii_digit() {
            return None;
        }
        value = value * 10 + (*digit - b'0') as u64;
    }
    Some(value)
}

// What the value of a length states.
fn stated_length(value: &[u8]) -> Stated
    ensures { result ≡ stated_length (length_value value.now) }
{
    match length_of(value) {
        Some(length) => Stated::Length(length),
        None => Stated::Ambiguous,
    }
}

// What the value of a transfer coding states.
fn stated_coding(version: Version, value: &[u8]) -> Stated
    ensures { result ≡ stated_coding version value.now }
{
    match version {
        Version::Http10 => Stated::Ambiguous,
        Version::Http11 if same_name(value, b"chunked") => Stated::Chunks,
        Version::Http11 => Stated::Coded,
    }
}

/// Returns what the fields state of the body.
#[tactic(auto, unfolding(crate::specs::Http::Framing::statement_of))]
pub(crate) fn statement_of(version: Version, fields: &[Field<'_>]) -> Stated
    ensures { result ≡ statement_of version fields.now }
{
    let lengths = find_one(fields, b"content-length");
    match find_one(fields, b"transfer-encoding") {
        Found::Absent => match lengths {
            Found::Absent => Stated::Silent,
            Found::One(value) => stated_length(value),
            Found::Many => Stated::Ambiguous,
        },
        Found::One(value) => match lengths {
            Found::Absent => stated_coding(version, value),
            Found::One(_) | Found::Many => Stated::Ambiguous,
        },
        Found::Many => Stated::Ambiguous,
    }
}

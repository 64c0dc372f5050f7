//! The line before a chunk, read by code of this crate: 1 to 16 hexadecimal digits, any number of spaces and tabs, perhaps `;`
//! and a text that is not looked at, and then CR LF.
ghost use Rattle.std.specs.Prelude.{◌≡◌, ◌≤◌, true, length, MatchBool, MatchOption};
ghost use Rattle.std.specs.List.{prefix_len};
ghost use Rattle.std.specs.Char.{is_ascii_hexdigit, digit_value};
ghost use Rattle.std.specs.Str.Parse.{digits_value};
ghost use Rattle.httparse.specs.Grammar.{AllPass};
ghost use Rattle.lb_health_http.specs.Chunked.{IsLineText, IsNoChunkLine};
ghost use Rattle.lb_health_http.specs.Internal.Steps.{IsChunkLineOf};
ghost use Rattle.lb_health_http.specs.ChunkLines.{class_has, EndsChunkLine};

use crate::line::is_end;

// The most digits that a size may have: the number that they write fits 64 bits.
const DIGIT_LIMIT: usize = 16;

// A class of the bytes that a chunk line is made of.
#[derive(Clone, Copy)]
enum Class {
    Digit,
    Pad,
    Extension,
}

impl Class {
    // Whether the byte is of that class.
    fn has(self, byte: u8) -> bool
        ensures { result ≡ class_has self byte }
    {
        match self {
            Class::Digit => byte.is_ascii_hexdigit(),
            Class::Pad => byte == b' ' || byte == b'\t',
            Class::Extension => byte != b'\r' && byte != b'\n',
        }
    }
}

// How many bytes of that class the text begins with.
fn count_of(class: Class, text: &[u8]) -> usize
    ensures reached { result ≡ prefix_len (class_has class) text.now }
    ensures within { result ≤ length text.now }
{
    for (index, byte) in text.iter().enumerate() {
        if !class.has(*byte) {
            return index;
        }
    }
    text.len()
}

// The number that a hexadecimal digit writes.
fn digit_of(byte: u8) -> u8
    requires { is_ascii_hexdigit byte ≡ true }
    ensures { result ≡ digit_value byte }
{
    match byte {
        b'0'..=b'9' => byte - b'0',
        b'A'..=b'F' => byte - b'A' + 10,
        _ => byte - b'a' + 10,
    }
}

// The number that so many hexadecimal digits write.
fn number_of(digits: &[u8]) -> u64
    requires hexadecimal { AllPass is_ascii_hexdigit digits.now }
    requires few { length digits.now ≤ DIGIT_LIMIT }
    ensures { result ≡ digits_value 16 digits.now }
{
    let mut number: u64 = 0;
    for digit in digits {
        number = number * 16 + digit_of(*digit) as u64;
    }
    number
}

// Whether what follows the digits and the spaces of a line ends it: `;` and a text, or nothing, and then CR LF.
fn ends_line(rest: &[u8]) -> bool
    requires { IsLineText rest.now }
    ensures { MatchBool result (EndsChunkLine rest.now) (¬ (EndsChunkLine rest.now)) }
{
    if rest[0] != b';' {
        return is_end(rest);
    }
    let text = &rest[1..];
    let (_, end) = text.split_at(count_of(Class::Extension, text));
    is_end(end)
}

/// Returns the size that a chunk line writes, or `None` where the line is no chunk line.
pub(crate) fn size_of(line: &[u8]) -> Option<u64>
    requires { IsLineText line.now }
    ensures { MatchOption result (IsNoChunkLine line.now) (IsChunkLineOf line.now) }
{
    let (digits, rest) = line.split_at(count_of(Class::Digit, line));
    let (_, rest) = rest.split_at(count_of(Class::Pad, rest));
    if digits.is_empty() || digits.len() > DIGIT_LIMIT || !ends_line(rest) {
        return None;
    }
    Some(number_of(digits))
}

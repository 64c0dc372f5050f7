//! Whether a request line names another version than the proxy speaks: RFC 9112 section 2.3.
ghost use Rattle.std.specs.Prelude.{◌≡◌};
ghost use Rattle.lb_proxy.specs.Http.Refusals.{passes, begins, behind, behind_space, behind_word, is_other_version, names_other_version};

use httparse::{is_method_token, is_uri_token};

/// The bytes of a part of a request line.
#[derive(Clone, Copy)]
pub(crate) enum Class {
    /// Of the end of a line.
    Newline,
    /// Of a method.
    Token,
    /// Of a target.
    Target,
    /// What ends a method or a target.
    Space,
}

// Whether the byte is of that class.
fn passes(class: Class, byte: u8) -> bool
    ensures { result ≡ passes class byte }
{
    match class {
        Class::Newline => byte == b'\r' || byte == b'\n',
        Class::Token => is_method_token(byte),
        Class::Target => is_uri_token(byte),
        Class::Space => byte == b' ',
    }
}

// Whether a byte of that class comes first.
fn begins(class: Class, bytes: &[u8]) -> bool
    ensures { result ≡ begins class bytes.now }
{
    match bytes.first() {
        Some(byte) => passes(class, *byte),
        None => false,
    }
}

// What is behind the bytes of that class at the front.
fn behind(class: Class, bytes: &[u8]) -> &[u8]
    ensures { result.now ≡ behind class bytes.now }
{
    for (index, byte) in bytes.iter().enumerate() {
        if !passes(class, *byte) {
            return &bytes[index..];
        }
    }
    &bytes[bytes.len()..]
}

// What is behind a space at the front; nothing where there is none.
fn behind_space(bytes: &[u8]) -> &[u8]
    ensures { result.now ≡ behind_space bytes.now }
{
    if begins(Class::Space, bytes) {
        &bytes[1..]
    } else {
        &bytes[..0]
    }
}

// What is behind one or more bytes of that class and a space; nothing where they aren't there.
fn behind_word(class: Class, bytes: &[u8]) -> &[u8]
    ensures { result.now ≡ behind_word class bytes.now }
{
    if begins(class, bytes) {
        behind_space(behind(class, bytes))
    } else {
        &bytes[..0]
    }
}

// Whether the text is a version other than HTTP/1.0 and HTTP/1.1, and the end of its line.
#[tactic(auto, unfolding(crate::specs::Http::Refusals::is_other_version))]
fn is_other_version(text: &[u8]) -> bool
    ensures { result ≡ is_other_version text.now }
{
    text.len() > 8
        && &text[..5] == b"HTTP/".as_slice()
        && text[5].is_ascii_digit()
        && text[6] == b'.'
        && text[7].is_ascii_digit()
        && passes(Class::Newline, text[8])
        && !(text[5] == b'1' && (text[7] == b'0' || text[7] == b'1'))
}

/// Returns whether a request line is at the front, behind line ends, whose version is another one than HTTP/1.0 and HTTP/1.1.
pub(crate) fn names_other_version(bytes: &[u8]) -> bool
    ensures { result ≡ names_other_version bytes.now }
{
    let line = behind(Class::Newline, bytes);
    let target = behind_word(Class::Token, line);
    is_other_version(behind_word(Class::Target, target))
}

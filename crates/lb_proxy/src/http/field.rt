//! The fields of a head, and which of them are for this connection alone.
ghost use Rattle.std.specs.Prelude.{◌≡◌, ◌≤◌, ◌<◌, ◌++◌, length, map, slice_range, OnOk, OnErr, IfOk};
ghost use Rattle.std.specs.List.{list_any};
ghost use Rattle.httparse.specs.Grammar.{trim_ows};
ghost use Rattle.lb_proxy.specs.Http.Fields.{same_name, has_name, options_in, options_of, values_of, Finds, is_option, is_guarded};
ghost use Rattle.lb_proxy.specs.Http.Fields.{is_about_connection, is_about_coding, is_hop_by_hop};
ghost use Rattle.lb_proxy.specs.Http.Write.{is_end_to_end};

use httparse::is_space_or_tab;
use std::alloc::{AllocError, Global};

/// A field: its name as it was spelled, and its value without the white space around it.
#[derive(Clone, Copy)]
pub struct Field<'a> {
    pub name: &'a [u8],
    pub value: &'a [u8],
}

impl Field<'_> {
    /// Returns whether the field has that name, in whatever case.
    pub fn is(&self, name: &[u8]) -> bool
        ensures { result ≡ has_name name.now self.now }
    {
        same_name(self.name, name)
    }
}

/// Returns whether the names are the same but for the case of letters.
pub(crate) fn same_name(name: &[u8], other: &[u8]) -> bool
    ensures { result ≡ same_name name.now other.now }
{
    name.eq_ignore_ascii_case(other)
}

/// The values under one name.
#[derive(Clone, Copy)]
pub(crate) enum Found<'a> {
    Absent,
    One(&'a [u8]),
    Many,
}

/// Returns what the fields have under that name.
pub(crate) fn find_one<'a>(fields: &[Field<'a>], name: &[u8]) -> Found<'a>
    ensures { Finds (values_of name.now fields.now) result }
{
    let mut found = Found::Absent;
    for field in fields {
        if field.is(name) {
            match found {
                Found::Absent => found = Found::One(field.value),
                Found::One(_) | Found::Many => return Found::Many,
            }
        }
    }
    found
}

// The part of a value without the spaces and tabs around it.
fn trim(value: &[u8], mut start: usize, mut end: usize) -> &[u8]
    requires ordered { start ≤ end }
    requires within { end ≤ length value.now }
    ensures { result.now ≡ trim_ows (slice_range value.now start end) }
{
    while start < end && is_space_or_tab(value[start]) {
        start += 1;
    }
    while start < end && is_space_or_tab(value[end - 1]) {
        end -= 1;
    }
    &value[start..end]
}

// Appends the options that a value lists.
fn push_options<'a>(options: &mut Vec<&'a [u8]>, value: &'a [u8]) -> Result<(), AllocError>
    ensures { OnOk result (map (λ o. o.now) options.new.items ≡ map (λ o. o.now) options.old.items ++ options_in value.now) }
{
    let mut start = 0;
    for (index, byte) in value.iter().enumerate() {
        if *byte == b',' {
            options.push(trim(value, start, index))?;
            start = index + 1;
        }
    }
    options.push(trim(value, start, value.len()))?;
    Ok(())
}

/// Returns the options of the `Connection` fields, in order.
pub(crate) fn connection_options<'a>(
    alloc: Global,
    fields: &[Field<'a>],
) -> Result<Vec<&'a [u8]>, AllocError>
    ensures listed { IfOk result (λ options. map (λ o. o.now) options.items ≡ options_of fields.now) }
    ensures memory { OnErr result (0 < length fields.now) }
{
    let mut options: Vec<&'a [u8]> = Vec::new(alloc);
    for field in fields {
        if field.is(b"connection") {
            push_options(&mut options, field.value)?;
        }
    }
    Ok(options)
}

/// Returns whether the name is among the options, in whatever case.
pub(crate) fn is_option(options: &[&[u8]], name: &[u8]) -> bool
    ensures { result ≡ is_option name.now options.now }
{
    options.iter().any(|option| same_name(option, name))
}

/// Returns whether an option names a field that no connection has for itself.
pub(crate) fn names_guarded(options: &[&[u8]]) -> bool
    ensures { result ≡ list_any (λ option. is_guarded option.now) options.now }
{
    options.iter().any(|option| is_guarded(option))
}

// Whether a field of that name says how the message is framed, where it goes or where it comes from.
#[tactic(auto, unfolding(crate::specs::Http::Fields::is_guarded))]
fn is_guarded(name: &[u8]) -> bool
    ensures { result ≡ is_guarded name.now }
{
    same_name(name, b"content-length")
        || same_name(name, b"host")
        || same_name(name, b"transfer-encoding")
        || same_name(name, b"via")
        || same_name(name, b"x-forwarded-for")
}

// Whether a field of that name says what becomes of a connection.
#[tactic(auto, unfolding(crate::specs::Http::Fields::is_about_connection))]
fn is_about_connection(name: &[u8]) -> bool
    ensures { result ≡ is_about_connection name.now }
{
    same_name(name, b"connection")
        || same_name(name, b"keep-alive")
        || same_name(name, b"proxy-connection")
        || same_name(name, b"upgrade")
}

// Whether a field of that name says how a body is coded on one connection.
#[tactic(auto, unfolding(crate::specs::Http::Fields::is_about_coding))]
fn is_about_coding(name: &[u8]) -> bool
    ensures { result ≡ is_about_coding name.now }
{
    same_name(name, b"te") || same_name(name, b"trailer") || same_name(name, b"transfer-encoding")
}

/// Returns whether a field of that name is for one connection in any message.
pub(crate) fn is_hop_by_hop(name: &[u8]) -> bool
    ensures { result ≡ is_hop_by_hop name.now }
{
    is_about_connection(name) || is_about_coding(name)
}

/// Returns whether the field goes on to the other side: it is for no single connection, and no option names it.
#[tactic(auto, unfolding(crate::specs::Http::Write::is_end_to_end))]
pub(crate) fn is_end_to_end(options: &[&[u8]], field: &Field<'_>) -> bool
    ensures { result ≡ is_end_to_end options.now field.now }
{
    !is_hop_by_hop(field.name) && !is_option(options, field.name)
}

//! Where in a configuration's text a fault is.
ghost use Rattle.std.specs.Prelude.{◌≡◌, ◌≤◌, ◌<◌, ◌+◌, ◌==◌, ◌||◌, slice_index, length, IfOk, IfErr, IfSome, IfNone};
ghost use Rattle.toml.specs.View.{table_view};
ghost use Rattle.lb_proxy.specs.Config.{said};
ghost use Rattle.lb_proxy.specs.Position.{shows, shown_by, BeginsAt, IsNowhere, IsUnread, IsUnreadIn, line_at, IsColumn};

use crate::config_fault::{Cause, Fault, Place};
use crate::section::Section;
use std::alloc::Global;
use std::str;
use toml::Table;

/// Why nothing is known of a text's first lines.
#[derive(Clone, Copy)]
pub enum Unread {
    /// They aren't UTF-8.
    NotText,
    /// Memory was refused.
    OutOfMemory,
}

/// Returns where the line begins that makes a fault, as a place in the text.
///
/// That is the line after which the lines so far show the fault's field, or, where the field is missing, its part. A statement of more
/// lines than one is shown where it begins. `None` where no first lines show it.
pub fn position_of(alloc: Global, text: &[u8], fault: &Fault<'_>) -> Result<Option<usize>, Unread>
    ensures found { IfOk result (λ place. IfSome place (BeginsAt text.now (said fault.now))) }
    ensures none { IfOk result (λ place. IfNone place (IsNowhere text.now (said fault.now))) }
    ensures unread { IfErr result (IsUnreadIn text.now) }
{
    let mut start = 0;
    for place in 0..text.len() {
        if is_end(text, place) {
            match shown(alloc, &text[..place + 1], fault)? {
                Some(true) => return Ok(Some(start)),
                Some(false) => start = place + 1,
                None => {}
            }
        }
    }
    Ok(None)
}

// Whether the text has what the fault is about; `None` where it is no document.
fn shown(alloc: Global, text: &[u8], fault: &Fault<'_>) -> Result<Option<bool>, Unread>
    ensures shown { IfOk result (λ shown. shown ≡ shown_by text.now (said fault.now)) }
    ensures unread { IfErr result (IsUnread text.now) }
{
    let Ok(text) = str::from_utf8(text) else {
        return Err(Unread::NotText);
    };
    match toml::table_from_str(alloc, text) {
        Ok(table) => Ok(Some(is_shown(&table, fault))),
        Err(error) if error.is_memory() => Err(Unread::OutOfMemory),
        Err(_) => Ok(None),
    }
}

/// Returns the number of the line at this place of the text; the first line is 1.
pub fn line_at(text: &[u8], place: usize) -> usize
    requires { place ≤ length text.now }
    ensures { result ≡ line_at text.now place }
{
    let mut line = 1;
    for earlier in 0..place {
        if text[earlier] == b'\n' {
            line += 1;
        }
    }
    line
}

/// Returns the column of the first byte from this place on that is no blank; the first column is 1.
pub fn column_at(text: &[u8], place: usize) -> usize
    requires { place ≤ length text.now }
    ensures { IsColumn text.now place result }
{
    let line = &text[place..];
    1 + (line.len() - line.trim_ascii_start().len())
}

// Whether a line ends with this byte: a line feed, or the text's last one.
fn is_end(text: &[u8], place: usize) -> bool
    requires { place < length text.now }
    ensures { result ≡ (slice_index text.now place == 10) || (place + 1 == length text.now) }
{
    text[place] == b'\n' || place + 1 == text.len()
}

// Whether the table has what the fault is about: its field, or, where that is missing, its part.
fn is_shown(table: &Table, fault: &Fault<'_>) -> bool
    ensures { result ≡ shows (table_view table.now) (said fault.now) }
{
    let top = Section::new(table, Place::Top);
    match top.part_at(fault.place) {
        Some(part) => fault.cause == Cause::Missing || part.has(fault.field),
        None => false,
    }
}

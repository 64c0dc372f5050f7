//! The text of a pool's file: a line for each backend, `ADDRESS` or `ADDRESS/WEIGHT`.
//! `!` before an address disables the backend, `#` starts a comment, and blank lines pass.
ghost use Rattle.std.specs.Prelude.{◌≡◌, ◌==◌, ◌∷◌, slice_index, filter_map, option_map, IfOk, IfErr, OnOk};
ghost use Rattle.std.specs.List.{AllByRecursion};
ghost use Rattle.std.specs.Result.{result_map_both};
ghost use Rattle.lb_proxy.specs.PoolFile.{lines_of, lines_left, content_of, mark_of, divided, weight_of, is_path, spelled};
ghost use Rattle.lb_proxy.specs.PoolFile.{line_of, entry_of, IsRight, Gives, IsFaultOf};
ghost use Rattle.lb_proxy.specs.declared.pool_file.PoolError.TheVariants.{OutOfMemory};

use lb_select_base::backend::Backend;
use lb_select_base::refusal::Refusal;
use std::alloc::{AllocFailed, Global};
use thiserror::Error;

/// What is wrong with a line.
#[derive(Clone, Copy, Debug, PartialEq, Eq, Error)]
pub enum PoolCause {
    /// What the line spells before the weight is no address.
    #[error("no address: write IP:PORT, [IPV6]:PORT or unix:PATH, and after it perhaps a slash and a weight")]
    Address,
    /// What the line spells after the slash is no weight.
    #[error("no weight: write a number from 0 to 18446744073709551615 after the slash")]
    Weight,
}

/// A line that is wrong, and what is wrong with it.
#[derive(Clone, Copy, Debug, Error)]
#[error("line {line}: {cause}")]
pub struct PoolFault {
    /// The number of the line; the first line is 1.
    pub line: usize,
    pub cause: PoolCause,
}

/// Why a text gives no backends.
#[derive(Clone, Copy, Debug, Error)]
pub enum PoolError {
    #[error("{0}")]
    Fault(PoolFault),
    #[error("out of memory")]
    OutOfMemory,
}

impl<T: Drop> From<AllocFailed<T>> for PoolError {
    ghost from_gives = { λ _ e. e ≡ OutOfMemory };

    fn from(_failed: AllocFailed<T>) -> PoolError {
        PoolError::OutOfMemory
    }
}

/// A backend of a pool, and whether it is enabled.
#[derive(Drop)]
pub struct PoolBackend {
    pub backend: Backend,
    pub enabled: bool,
}

// Why a line gives no backend.
#[derive(Drop)]
enum LineError {
    Wrong(PoolCause),
    NoMemory,
}

/// Returns the backends that the text spells, in its order, or the first line that is wrong.
pub fn read_pool(alloc: Global, text: &str) -> Result<Vec<PoolBackend>, PoolError>
    ensures backends { IfOk result (λ backends. backends.items ≡ filter_map entry_of (lines_of text.now)) }
    ensures right { OnOk result (AllByRecursion IsRight (lines_of text.now)) }
    ensures fault { IfErr result (IsFaultOf (lines_of text.now)) }
{
    let mut backends = Vec::new(alloc);
    let mut number = 0;
    let mut rest = Some(text);
    while let Some(unread) = rest {
        let (line, more) = cut_line(unread);
        number += 1;
        match read_line(alloc, line) {
            Ok(Some(backend)) => backends.push(backend)?,
            Ok(None) => {}
            Err(LineError::Wrong(cause)) => {
                return Err(PoolError::Fault(PoolFault {
                    line: number,
                    cause,
                }));
            }
            Err(LineError::NoMemory) => return Err(PoolError::OutOfMemory),
        }
        rest = more;
    }
    Ok(backends)
}

// The first line, and what is left after its line feed.
fn cut_line(text: &str) -> (&str, Option<&str>)
    ensures { lines_of text.now ≡ result.0.now ∷ lines_left result.1 }
{
    match text.split_once('\n') {
        Some((line, rest)) => (line, Some(rest)),
        None => (text, None),
    }
}

// The backend of a line, `None` where the line has no content. Memory is taken for a path.
fn read_line(alloc: Global, line: &str) -> Result<Option<PoolBackend>, LineError>
    ensures { Gives result (line_of line.now) }
{
    let content = content(line);
    if content.is_empty() {
        return Ok(None);
    }
    let (enabled, word) = strip_mark(content);
    match spelled(word) {
        Ok((address, weight)) => match Backend::from_text(alloc, address, weight) {
            Ok(backend) => Ok(Some(PoolBackend { backend, enabled })),
            Err(Refusal::OutOfMemory) => Err(LineError::NoMemory),
            Err(_) => Err(LineError::Wrong(PoolCause::Address)),
        },
        Err(cause) => Err(LineError::Wrong(cause)),
    }
}

// A line without its comment and the white space around what is left.
fn content(line: &str) -> &str
    ensures { result.now ≡ content_of line.now }
{
    match line.split_once('#') {
        Some((before, _)) => before.trim(),
        None => line.trim(),
    }
}

// Whether the backend is enabled, and the word after the mark.
fn strip_mark(content: &str) -> (bool, &str)
    ensures { (result.0, result.1.now) ≡ mark_of content.now }
{
    match content.strip_prefix('!') {
        Some(word) => (false, word),
        None => (true, content),
    }
}

// The address and the weight that a word spells. The last part of a path is a weight only where it is a number.
fn spelled(word: &str) -> Result<(&str, usize), PoolCause>
    ensures { result_map_both (λ p. (p.0.now, p.1)) (λ cause. cause) result ≡ spelled word.now }
{
    let Some((address, digits)) = divide(word) else {
        return Ok((word, 1));
    };
    match weight_of(digits) {
        Some(weight) => Ok((address, weight)),
        None if is_path(word) => Ok((word, 1)),
        None => Err(PoolCause::Weight),
    }
}

// The word before its last slash, and after it.
fn divide(word: &str) -> Option<(&str, &str)>
    ensures { option_map (λ p. (p.0.now, p.1.now)) result ≡ divided word.now }
{
    match word.rsplit_once('/') {
        Some((address, digits)) => Some((address, digits)),
        None => None,
    }
}

// Whether the word names a path.
fn is_path(word: &str) -> bool
    ensures { result ≡ is_path word.now }
{
    word.as_bytes().starts_with(b"unix:")
}

// The number that a word spells, if it spells one, as a weight is written. A sign is refused.
pub(crate) fn weight_of(word: &str) -> Option<usize>
    ensures { result ≡ weight_of word.now }
{
    if has_plus(word) {
        None
    } else {
        word.parse::<usize>().ok()
    }
}

// Whether the word has a plus in front, which `parse` would pass.
fn has_plus(word: &str) -> bool
    ensures { result ≡ (slice_index word.now 0 == 43) }
{
    match word.as_bytes() {
        [b'+', ..] => true,
        _ => false,
    }
}

//! Backends as a script spells them: an address, a slash and a weight, and in an update a mark before these. An address that can't be one
//! differs from a word that no backend is spelled as.
ghost use Rattle.std.specs.Prelude.{◌≡◌, option_map};
ghost use Rattle.lb_script.specs.StepLines.{Reads, backend_of, mark_of, listing_of, listings_of, address_and_weight};

use crate::error::ScriptError;
use crate::numbers::number;
use crate::words::Words;
use lb_select_base::backend::Backend;
use lb_select_base::refusal::Refusal;
use lb_world::step::Listing;
use std::alloc::Global;

/// Returns the backends of an update that the words spell, each `None` where its address is refused. It takes memory.
pub fn listings(alloc: Global, words: Words<'_>) -> Result<Vec<Listing>, ScriptError>
    ensures { Reads (λ listed. listed.items) (listings_of words.entry) result }
{
    let mut listed = Vec::new(alloc);
    for word in words {
        listed.push(listing(alloc, word)?)?;
    }
    Ok(listed)
}

// A backend, marked or not. Memory is taken for a path.
fn listing(alloc: Global, word: &str) -> Result<Listing, ScriptError>
    ensures { Reads (λ listing. listing) (listing_of word.now) result }
{
    let (mark, word) = strip_mark(word);
    let backend = backend(alloc, word)?;
    Ok(Listing { backend, mark })
}

// What the mark says, and the word after it.
fn strip_mark(word: &str) -> (Option<bool>, &str)
    ensures { (result.0, result.1.now) ≡ mark_of word.now }
{
    if let Some(rest) = word.strip_prefix('!') {
        return (Some(false), rest);
    }
    match word.strip_prefix('+') {
        Some(rest) => (Some(true), rest),
        None => (None, word),
    }
}

/// Returns a backend with nothing attached, or `None` where its address is refused.
///
/// Memory is taken for a path.
pub fn backend(alloc: Global, word: &str) -> Result<Option<Backend>, ScriptError>
    ensures { Reads (λ found. found) (backend_of word.now) result }
{
    let Some((address, weight)) = divide(word) else {
        return Err(ScriptError::BadLine);
    };
    let Some(weight) = number(weight) else {
        return Err(ScriptError::BadLine);
    };
    match Backend::from_text(alloc, address, weight as usize) {
        Ok(backend) => Ok(Some(backend)),
        Err(Refusal::OutOfMemory) => Err(ScriptError::OutOfMemory),
        Err(_) => Ok(None),
    }
}

// The word before its last slash, and after it.
fn divide(word: &str) -> Option<(&str, &str)>
    ensures { option_map (λ p. (p.0.now, p.1.now)) result ≡ address_and_weight word.now }
{
    match word.rsplit_once('/') {
        Some((address, weight)) => Some((address, weight)),
        None => None,
    }
}

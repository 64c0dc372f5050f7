//! The words of the command line, and the lines that are printed.
use std::io;
use thiserror::Error;

/// Why there is nothing to measure.
#[derive(Clone, Copy, Debug, PartialEq, Eq, Error)]
pub enum Usage {
    #[error("usage: lb_cost [board | group | groups | health | rebuilds | selects | shared] [WORD ..]")]
    UnknownWord,
    #[error("a selector that threads share is: fnv | rr")]
    UnknownKind,
    #[error("a line of a run is: fnv | rr | ketama | least, BACKENDS, WEIGHT, SELECTIONS")]
    UnknownRun,
    #[error("a word that is to be a number, from 0 to 4294967295, is none")]
    NoNumber,
}

/// Returns the number at a place, and this one where there is no word. Refused `NoNumber` where the word is no number.
pub fn number_at(numbers: &[String], place: usize, default: u32) -> Result<u32, Usage> {
    match numbers.get(place) {
        Some(text) => text.as_str().parse().map_err(|_| Usage::NoNumber),
        None => Ok(default),
    }
}

/// Returns the word at a place, and this one where there is none.
pub fn word_at<'w>(words: &'w [String], place: usize, default: &'w str) -> &'w str {
    match words.get(place) {
        Some(word) => word.as_str(),
        None => default,
    }
}

/// Prints what was found, and how much of it.
pub fn print_line<R: Print>(rt: &R, what: &str, number: u128) -> io::Result<()> {
    println!(rt; "{what} {number}")
}

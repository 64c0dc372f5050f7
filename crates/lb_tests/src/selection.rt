//! Selectors, their walks and selections at worked values, and the order of a destruction.
mod counts;
mod destruction;
pub(crate) mod fixtures;
mod list_iterator;
mod names;
mod noting;
mod ring;
mod unique_walk;
mod walks;
mod words;

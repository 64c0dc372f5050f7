//! Selectors: by weight, by load, and consistent by a Ketama ring, with the laws of their shares and of removal. It re-exports
//! `lb_select_base`: backends, words, the traits of selection, the unique walk, and `select`.
#![tactic(auto)]

mod chain;
pub mod crc;
mod divisor;
mod fill;
mod guide;
mod index;
pub mod ketama;
pub mod least;
mod points;
mod reading;
pub mod ring;
pub mod ring_laws;
pub mod selection;
mod spread;
mod sums;
pub mod unique_laws;
pub mod weight_laws;
pub mod weighted;

pub use lb_select_base::{
    algorithms, backend, causes, iter, laws, loads, moments, refusal, seen, select, unique, walk,
    words,
};

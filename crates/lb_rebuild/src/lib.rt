//! The board of a group: its newest generation and what each slot serves, as words that are read in single loads, without a lock. It
//! re-exports the gate, the slots and the group of `lb_rebuild_core`.
#![tactic(auto)]

pub mod board;
pub mod board_rule;
pub mod watched;

pub use lb_rebuild_core::{
    answers, end_source, gate, group, identity, job, laws, membership, retired, snapshot_laws,
};

//! A group: slots whose selectors are rebuilt one at a time, with the view that they are built from, and the gate whose one permit lets at
//! most one extra selector exist at a time. A snapshot of the view lives while some slot serves, builds or still has to destroy its
//! generation. Contracts describe slots, group, view and registry by their histories; threads and locks are in crates above.
#![tactic(auto)]

pub mod answers;
pub mod end_source;
pub mod endings;
pub mod gate;
mod gate_rule;
pub mod group;
pub mod identity;
pub mod job;
pub mod laws;
pub mod membership;
mod place;
pub mod retired;
mod retry;
mod slot;
pub mod slots;
pub mod snapshot_laws;
mod words;

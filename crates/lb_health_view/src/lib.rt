//! Views of backends and their health: discovery, memberships in numbered generations, flags, readiness, and passes of checks. Contracts
//! describe a view by the history of its events, and a registry of cells by its own; a call says what it adds to each.
#![tactic(auto)]

mod cells;
pub mod discovery;
pub mod laws;
mod lookup;
pub mod passes;
mod snapshot;
pub mod view;

//! Groups that threads share: the plain states of the crates below, each behind a lock that keeps which one it is, and the workers of a
//! group. A thread that waits for a lock sleeps; a lock is held for one call of the plain state.
#![tactic(auto)]

mod backends;
mod filling;
pub mod found;
pub mod group;
pub mod kept;
pub mod newest;
mod noting;
pub mod numbers;
pub mod passes;
pub mod port;
mod reading;
mod selecting;
pub mod workers;

//! What the tests of threads, the soak and the measuring program share: groups whose selectors are counted, traits of a group's calls,
//! threads that use groups, turns of slots, and memberships by number.
#![tactic(auto)]

pub mod calls;
pub mod counted;
pub mod crowd;
pub mod group_asks;
mod group_calls;
pub mod handle_asks;
mod handle_calls;
pub mod members;
pub mod turns;

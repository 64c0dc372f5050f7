//! Tests of a balancer that threads share: what it serves during updates, checks and flags, and what its run does, which no contract says
//! of running threads.
mod beside;
mod calls;
pub(crate) mod fixtures;
mod leaving;
mod loads;
mod runs;
mod texts;

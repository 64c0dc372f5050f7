//! A group of slots with its workers: each builds for one slot on a thread of its own. Its users own it by a handle whose drop cancels
//! it.
#![tactic(auto)]

pub mod backends;
pub mod gate_refusal;
pub mod group;
mod making;
mod passes;
pub mod reader;
mod readings;
mod running;
pub mod start;

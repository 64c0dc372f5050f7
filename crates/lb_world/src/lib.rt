//! A world of registries, gates and groups: its steps and answers as types, and `World`, which takes them.
//! What has to be answered is defined over the list of steps alone; the contracts of `World` cite that.
#![tactic(auto)]

pub mod answer;
mod entry;
mod group_step;
pub mod headline;
mod held;
pub mod laws;
pub mod rule;
pub mod step;
pub mod world;

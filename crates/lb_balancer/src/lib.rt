//! A balancer with one selector that threads share. An update builds with no lock held but its own; a selection goes on in what was
//! served when it began.
#![tactic(auto)]

pub mod backends;
pub mod balancing;
pub mod judging;
pub mod kept;
pub mod load_balancer;
pub mod making;
pub mod origin;
pub mod reader;
pub mod readiness;
pub mod run;
pub mod serving;
pub mod shown;
mod words;

//! Balancers as plain values: a discovery and the selector, or the group of slots, that is built from what it finds. It has the calls of a
//! group as a trait too (`GroupPort`), with an update, a selection and a worker's turn over any such port. The registry, the gate and the
//! clock are borrowed by the calls; threads and locks are in crates above.
#![tactic(auto)]

pub mod balancer_core;
pub mod build;
pub mod configured;
pub mod group_core;
pub mod lent;
pub mod plain;
mod plain_calls;
pub mod port;
pub mod select;
pub mod served;
pub mod served_view;
pub mod slot_configs;
pub mod timings;
pub mod turn;
pub mod update;
mod words;

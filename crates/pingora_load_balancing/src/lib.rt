//! Load balancing: backends, selection, health, and groups of selectors that worker threads rebuild while requests go on.
//!
//! The types at the root and in `prelude` are the ones that threads share. The plain states behind them, for callers that have
//! one thread or locks of their own, are in `plain`. Modules have the upstream crate's names where it has them.
#![tactic(auto)]

pub mod background;
pub mod discovery;
pub mod health_check;
pub mod plain;
pub mod port;
pub mod prelude;
pub mod schedule;
pub mod selection;
pub mod simulation;

pub use background::HealthCheckService;
pub use lb_background::lending::{LendsToThreads, SharedBackends};
pub use lb_balancer::load_balancer::LoadBalancer;
pub use lb_balancer::reader::BalancerReader;
pub use lb_balancer::shown::Shown;
pub use lb_balancer_core::configured::{Configured, SlotConfig};
pub use lb_balancer_core::timings::{SelectorUpdateTimings, UpdateTimings};
pub use lb_balancer_group::gate_refusal::GateRefusal;
pub use lb_balancer_group::group::LoadBalancerGroup;
pub use lb_balancer_group::reader::GroupReader;
pub use lb_rebuild::board::GroupPass;
pub use lb_select::backend::{Backend, Ext, InetAddr, SocketAddr};
pub use lb_select::loads::Loads;
pub use lb_select::moments::MomentSource;
pub use lb_select::refusal::Refusal;
pub use lb_select::words::{CoreWords, HandedWords, LentWords, SharedWords, WordSource};
pub use lb_threads_core::backends::{BackendView, Backends, BackendsParts};
pub use lb_threads_core::gate::SelectorRebuildGate;
pub use lb_threads_core::owner::ViewOwner;
pub use lb_threads_core::registry::HealthRegistry;
pub use lb_threads_group::group::SharedGroup;
pub use rand_core::Rng;
pub use rand_pcg::Pcg64;

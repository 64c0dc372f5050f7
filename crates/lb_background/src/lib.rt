//! What runs in the background: when the tasks of a balancer, a group or a service are due, the signal that ends a run, the notifier that
//! a service is ready, and the service that checks the targets of a registry. Schedules and runs have no clock and no threads: moments are
//! passed in, in nanoseconds. And the view of their backends that balancers and groups lend to threads (`lending`).
#![tactic(auto)]

pub mod background;
pub mod balancer_run;
pub mod drive;
pub mod event;
pub mod group_run;
pub mod laws;
pub mod lending;
mod line_rule;
pub mod machine;
pub mod port;
pub mod ready;
pub mod service;
pub mod service_run;
pub mod shutdown;
mod turns;

//! A trait of a group's calls, and an update, a worker's turn and a selection over any port of that trait. `PlainPort` is the port of a
//! plain group, `LockedPort` that of a group that threads share. The port of a run has the calls that its machine asks for.
pub use lb_background::port::RunPort;
pub use lb_balancer_core::build::{RefusedJob, build};
pub use lb_balancer_core::plain::PlainPort;
pub use lb_balancer_core::port::{
    GroupPort, SchedulePort, SelectPort, TakesBuilds, TakesReaders, WorkPort,
};
pub use lb_balancer_core::select::select_through;
pub use lb_balancer_core::turn::{Turn, worker_turn};
pub use lb_balancer_core::update::update_through;
pub use lb_threads_group::port::LockedPort;

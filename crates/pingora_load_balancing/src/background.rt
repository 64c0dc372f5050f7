//! What runs on threads of its own: the service that checks a registry's targets, the workers that build a group's selectors, the signal
//! that ends them, and the notifier that they are ready. `drive` runs a machine of `schedule` over a port.
pub use lb_background::drive::drive;
pub use lb_background::ready::{ReadyWatch, ServiceReadyNotifier, ready_pair};
pub use lb_background::service::HealthCheckService;
pub use lb_background::shutdown::{ShutdownSignal, ShutdownWatch, shutdown_pair};
pub use lb_balancer_group::start::{start_workers, start_workers_by};
pub use lb_threads_core::clock::RuntimeClock;
pub use lb_threads_core::wakes::Wakes;
pub use lb_threads_group::workers::work;

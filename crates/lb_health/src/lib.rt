//! Health of backends: what a check is, the checks over TCP and HTTP, the registry of cells, views with their discovery, and passes. Each
//! part is a crate of its own (`lb_health_core`, `lb_health_http`, `lb_health_view`); this one re-exports them.
#![tactic(auto)]

pub use lb_health_core::error::CheckError;
pub use lb_health_core::health::Health;
pub use lb_health_core::health_check::{
    BackendSummary, BoxedCheck, HealthCheck, HealthObserve, HealthObserveCallback, IdentitySummary,
    identity_summary,
};
pub use lb_health_core::keys::{ByNumber, KeyRule, Number, Rule};
pub use lb_health_core::laws as registry_laws;
pub use lb_health_core::registry::{Registry, RegistryCore, RegistryId};
pub use lb_health_core::targets::Target;
pub use lb_health_http::{
    AcceptStatus, BasicPeer, HttpHealthCheck, HttpPeer, MAX_BODY_BYTES, NoObserver, TcpHealthCheck,
    Validate, check_over, request_for,
};
pub use lb_health_view::discovery::{
    BoxedDiscovery, Discovered, DiscoverySource, ServiceDiscovery, Static,
};
pub use lb_health_view::laws as view_laws;
pub use lb_health_view::passes::run_health_check;
pub use lb_health_view::view::{Settings, ViewCore};

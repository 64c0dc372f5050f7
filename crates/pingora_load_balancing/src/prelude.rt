//! What most users want, under the upstream crate's names. The names fit together: a service checks the registry that balancers share.
pub use crate::health_check::TcpHealthCheck;
pub use crate::selection::RoundRobin;
pub use crate::{
    BackendView, Backends, HealthCheckService, HealthRegistry, LoadBalancer, LoadBalancerGroup,
    SelectorRebuildGate,
};

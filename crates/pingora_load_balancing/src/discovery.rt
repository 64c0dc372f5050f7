//! Discovery of backends, under the upstream crate's names. A view discovers by a fixed set or by the caller's discovery, which returns
//! settings by address and weight.
pub use lb_health::{
    BoxedDiscovery, Discovered, DiscoverySource, ServiceDiscovery, Settings, Static,
};

//! The plain states behind what threads share, for callers that have one thread or locks of their own: each call takes `&mut self`, and
//! its contract is stated by the history of calls. Laws of these histories are in the modules of laws. Jobs, built selectors, readers,
//! retired selectors and permits are values that have to be given back.
pub use lb_balancer_core::balancer_core::LoadBalancerCore;
pub use lb_balancer_core::group_core::LoadBalancerGroupCore;
pub use lb_balancer_core::lent::{LentBackends, LentGroupBackends};
pub use lb_balancer_core::served::{Served, ServedParts};
pub use lb_balancer_core::served_view::ServedView;
pub use lb_health::{
    Health, Registry, RegistryCore, RegistryId, Target, ViewCore, registry_laws, run_health_check,
    view_laws,
};
pub use lb_rebuild::answers::{Ask, Counts, Publication, Selection, Timing};
pub use lb_rebuild::board::{Board, WritingPass};
pub use lb_rebuild::end_source::{EndSource, FixedMoment};
pub use lb_rebuild::gate::{GateCore, Permit};
pub use lb_rebuild::group::GroupCore;
pub use lb_rebuild::job::{Built, FailedBuild, Job};
pub use lb_rebuild::membership::{Scheduled, SlotTurn};
pub use lb_rebuild::retired::{OwedPermit, Reader, Retired};
pub use lb_rebuild::watched::Watched;
pub use lb_rebuild::{laws as group_laws, snapshot_laws};

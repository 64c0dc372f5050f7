//! Selection of backends, under the upstream crate's names. A weighted selector takes its words from an algorithm, a consistent one uses a
//! ring. `Chosen` is a selector whose kind is its configuration, for callers that learn the kind at run time.
pub mod consistent;
pub mod laws;

pub use lb_script::kinds::{Chosen, ChosenWalk, Kind};
pub use lb_select::ketama::Consistent;
pub use lb_select::least::{LeastConnections, LeastWalk};
pub use lb_select::seen::SeenBackends;
pub use lb_select::select::select;
pub use lb_select::selection::{
    BackendIter, BackendSelection, FNVHash, FVNHash, Iter, Random, RoundRobin, SelectionAlgorithm,
    UniqueIterator,
};
pub use lb_select::{algorithms, weighted};

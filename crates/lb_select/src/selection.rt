//! Selection under the upstream crate's names: its traits, its modules, and the weighted selectors by algorithm.
//! Only names are defined here.
pub use crate::weighted;
use crate::weighted::Weighted;
pub use lb_select_base::algorithms;
pub use lb_select_base::iter::Iter;
pub use lb_select_base::unique::UniqueIterator;
pub use lb_select_base::walk::{BackendIter, BackendSelection, SelectionAlgorithm};

/// Selection by the hash of the key: one key always goes the same way.
pub type FNVHash = Weighted<algorithms::FnvHasher>;

/// Another spelling of `FNVHash`, which the upstream crate has kept.
pub type FVNHash = Weighted<algorithms::FnvHasher>;

/// Selection at random.
pub type Random = Weighted<algorithms::Random>;

/// Selection in turn: each walk starts one place after the walk before it.
pub type RoundRobin = Weighted<algorithms::RoundRobin>;

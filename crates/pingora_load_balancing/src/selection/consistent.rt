//! Consistent selection by a Ketama ring, under the upstream crate's names.
//! `Ring` is this project's own: a ring of points that are given.
pub use lb_select::ketama::{KetamaConfig, KetamaHashing, OwnedNodeIterator, RingWalk};
pub use lb_select::ring::Ring;

//! Tests of a discovery with one selector: what an update does and tells, and what is ready and selected then.
pub(crate) mod balancers;
mod cores;
mod lent;

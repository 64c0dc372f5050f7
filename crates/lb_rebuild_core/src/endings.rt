//! What ends a value for good without giving its permit or its place back. It is for the crates of this library, whose own values end so
//! where a group or a world ends: the crate that users take passes none of it on.

use crate::job::{Built, Job};
use crate::retired::{OwedPermit, Reader};
use lb_select_base::walk::BackendSelection;

/// Ends a job for good: its slot keeps the permit, and the gate never grants again.
pub fn end_job<S: BackendSelection>(job: Job<S>) {
    job.end();
}

/// Ends what was built for good: its slot keeps the permit, and the gate never grants again.
pub fn end_built<S: BackendSelection>(built: Built<S>) {
    built.end();
}

/// Ends a reader for good: the selector that it is in can't be destroyed from then on.
pub fn end_reader<S: BackendSelection>(reader: Reader<S>) {
    reader.end();
}

/// Ends the report of a destroyed selector for good: its slot keeps the permit, and the gate never grants again.
pub fn end_permit(permit: OwedPermit) {
    permit.end();
}

//! Builds of the jobs that a port gave out. One that is refused leaves a value that nothing else makes, and by it alone a job fails.
ghost use Rattle.std.specs.Prelude.{◌≡◌, None, IfOk, IfErr, OnErr};
ghost use Rattle.lb_balancer_core.specs.Builds.{IsCauseOf};

use lb_rebuild_core::end_source::EndSource;
use lb_rebuild_core::job::{Built, FailedBuild, Job};
use lb_select_base::refusal::Refusal;
use lb_select_base::walk::BackendSelection;
use std::alloc::Global;
use std::marker::Model;

/// A job whose build was tried and refused, with the refusal. It goes back to its port, and cannot be dropped.
///
/// Contracts see both. The refusal is the cause that the job's members and configuration give, or `OutOfMemory` where there is none.
pub struct RefusedJob<S: BackendSelection> {
    job: Job<S>,
    refusal: Refusal,
}

impl<S: BackendSelection> Model for RefusedJob<S> {
    ghost use Rattle.lb_balancer_core.specs.Builds.{RefusedValue, IsCauseOf, refused_build};

    ghost Value = { RefusedValue S.Config };

    ghost view = { λ r. refused_build r.job r.refusal };

    ghost invariant = { λ r. IsCauseOf S.refusal r.job r.refusal };
}

impl<S: BackendSelection> RefusedJob<S> {
    /// Returns why the build was refused.
    pub fn refusal(&self) -> Refusal
        ensures refusal { result ≡ self.now.refusal }
        ensures cause { IsCauseOf S.refusal self.now.task result }
    {
        self.refusal
    }

    /// Returns the generation that was to be built.
    pub fn generation(&self) -> u64
        ensures { result ≡ self.now.task.generation }
    {
        self.job.generation()
    }

    /// Returns the job, for the group that it is of.
    pub fn into_job(self) -> Job<S>
        ensures { result ≡ self.task }
    {
        let RefusedJob { job, refusal: _ } = self;
        job
    }
}

/// Builds the selector of a job, and then reads the clock once.
///
/// It runs outside all locks, and may take long.
///
/// # Errors
///
/// The job with the cause for which its selector cannot be built, or with `OutOfMemory`. The clock isn't read then.
pub fn build<S: BackendSelection, K: EndSource<S>>(
    alloc: Global,
    job: Job<S>,
    clock: &mut K,
) -> Result<Built<S>, RefusedJob<S>>
    ensures built { IfOk result (λ b. (S.refusal job.members job.config ≡ None) × (b.task ≡ job) × K.ends clock.old b.ended clock.new) }
    ensures refused { IfErr result (λ r. (r.task ≡ job) × IsCauseOf S.refusal job r.refusal) }
    ensures unread { OnErr result (clock.new ≡ clock.old) }
{
    match job.build(alloc, clock) {
        Ok(built) => Ok(built),
        Err(FailedBuild { job, refusal }) => Err(RefusedJob { job, refusal }),
    }
}

//! A worker's turn at one slot: a retired selector is destroyed, and the build that is due runs, outside all locks.
ghost use Rattle.lb_balancer_core.specs.Through.{Turned};

use crate::build::build;
use crate::port::WorkPort;
use lb_rebuild_core::answers::{Ask, Publication};
use lb_rebuild_core::end_source::EndSource;
use lb_select_base::moments::MomentSource;
use lb_select_base::refusal::Refusal;
use lb_select_base::walk::BackendSelection;
use std::alloc::Global;

/// What a worker's turn came to.
#[derive(Clone, Copy, Debug, PartialEq, Eq)]
pub enum Turn {
    /// A selector of this generation was built, and is served.
    Published(u64),
    /// A selector of this generation was built, and is retired unserved.
    Abandoned(u64),
    /// A build of this generation failed, for this cause.
    Failed(u64, Refusal),
    /// The group is cancelled.
    Cancelled,
    /// A build of the slot is in flight elsewhere.
    Building,
    /// The slot serves the newest generation.
    Nothing,
    /// The next build is due at this moment.
    NotDue(u128),
    /// The gate's permit is out, or the slot has a lost flight or a selector that is not reported destroyed.
    Busy,
}

/// Takes a worker's turn at a slot: destroys what it retired, asks for the next build, and publishes what was built.
///
/// A retired selector is destroyed and reported where it could be taken. Where a build was refused, its job fails at the moment after. The
/// clock is read once before the ask, and once after a build.
///
/// # Errors
///
/// What the port refuses; but that no retired selector is there, or that it is still read, is passed over.
pub fn worker_turn<S: BackendSelection, P: WorkPort<S>, K: MomentSource + EndSource<S>>(
    alloc: Global,
    port: &mut P,
    slot: usize,
    clock: &mut K,
) -> Result<Turn, Refusal>
    ensures { Turned S.refusal K.reads K.ends P.taken P.reported P.asked P.published P.failed slot port.old clock.old
        result port.new clock.new }
{
    match port.take_retired(slot) {
        Ok(retired) => {
            let permit = retired.destroy();
            port.destroyed(slot, permit);
        }
        Err(Refusal::StillRead(_) | Refusal::NothingRetired) => {}
        Err(refusal) => return Err(refusal),
    }
    let now = clock.now();
    match port.ask(slot, now)? {
        Ask::Cancelled => Ok(Turn::Cancelled),
        Ask::Building => Ok(Turn::Building),
        Ask::Nothing => Ok(Turn::Nothing),
        Ask::NotDue(moment) => Ok(Turn::NotDue(moment)),
        Ask::Busy => Ok(Turn::Busy),
        Ask::Job(job) => match build(alloc, job, clock) {
            Ok(built) => match port.publish(built) {
                Publication::Published(generation) => Ok(Turn::Published(generation)),
                Publication::Abandoned(generation) => Ok(Turn::Abandoned(generation)),
            },
            Err(refused) => {
                let end = clock.now();
                let failed = Turn::Failed(refused.generation(), refused.refusal());
                port.fail(refused, end);
                Ok(failed)
            }
        },
    }
}

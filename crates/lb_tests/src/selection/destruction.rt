//! The order of a destruction: the selector is gone first, then that is reported, and only then does the gate grant again.
//! Selectors count in `Noting` when they are gone.
ghost use Rattle.std.specs.Prelude.{◌≡◌};
ghost use Rattle.lb_rebuild_core.specs.Stands.{SameSite};

use crate::selection::fixtures::set_of;
use crate::selection::noting::{Gone, Noting};
use lb_rebuild_core::answers::Ask;
use lb_rebuild_core::end_source::FixedMoment;
use lb_rebuild_core::endings::{end_built, end_job, end_permit};
use lb_rebuild_core::gate::GateCore;
use lb_rebuild_core::job::FailedBuild;
use lb_rebuild_core::slots::Slots;
use lb_select_base::refusal::Refusal;
use std::alloc::Global;
use std::sync::Arc;
use std::sync::atomic::{AtomicU64, Ordering};

// Builds and publishes what slot 0 needs next; whether the gate granted it.
fn granted(alloc: Global, group: &mut Slots<Noting>, gate: &mut GateCore) -> Result<bool, Refusal>
    requires { gate.old.id ≡ group.old.gate }
    ensures gate { gate.new.id ≡ gate.old.id }
    ensures site { SameSite group.old group.new }
{
    let job = match group.ask(0, gate, 0)? {
        Ask::Cancelled | Ask::Building | Ask::Nothing | Ask::NotDue(_) | Ask::Busy => {
            return Ok(false);
        }
        Ask::Job(job) => job,
    };
    let built = match job.build(alloc, &mut FixedMoment { moment: 0 }) {
        Ok(built) => built,
        Err(FailedBuild { job, refusal }) => {
            end_job(job);
            return Err(refusal);
        }
    };
    match group.publish(built) {
        Ok(_) => Ok(true),
        Err(built) => {
            end_built(built);
            Ok(false)
        }
    }
}

// In this order: whether the first build was granted, how many selectors were gone before the destruction and after it, whether a build
// was granted before the report, whether the report was taken, and whether one was granted then and how many were gone.
type Course = ([bool; 4], [u64; 3]);

const WANTED: Course = ([true, false, true, true], [0, 1, 1]);

// Lends the group, since each way out of the function that owns it drops it.
fn retires_in_order(
    alloc: Global,
    group: &mut Slots<Noting>,
    gate: &mut GateCore,
    gone: &AtomicU64,
) -> Result<Course, Refusal>
    requires { gate.old.id ≡ group.old.gate }
{
    // A new group builds a selector of each configuration to see whether it can, and may drop some.
    gone.store(0, Ordering::SeqCst);
    group.schedule(alloc, set_of(alloc, &[("1.0.0.1:80", 1)])?, 0)?;
    let first = granted(alloc, group, gate)?;
    group.schedule(alloc, set_of(alloc, &[("1.0.0.2:80", 1)])?, 0)?;
    let retired = group.take_retired(0)?;
    let before = gone.load(Ordering::SeqCst);
    let permit = retired.destroy();
    let after = gone.load(Ordering::SeqCst);
    let early = granted(alloc, group, gate);
    let reported = match group.destroyed(0, permit, gate) {
        Ok(()) => true,
        Err(permit) => {
            end_permit(permit);
            false
        }
    };
    let last = granted(alloc, group, gate)?;
    let now = gone.load(Ordering::SeqCst);
    Ok(([first, early?, reported, last], [before, after, now]))
}

// The same of a new group whose selectors count there.
fn course_of_new(alloc: Global, gone: &Arc<AtomicU64>) -> Result<Course, Refusal> {
    let mut configs = Vec::new(alloc);
    configs.push(Gone(Some(gone.clone()?)))?;
    let mut gate = GateCore::new(alloc)?;
    let mut group: Slots<Noting> = Slots::new(alloc, &gate, configs)?;
    retires_in_order(alloc, &mut group, &mut gate, gone)
}

#[test]
fn gone_before_the_report(rt: HostRuntime) {
    let gone = Arc::new(rt.alloc(), AtomicU64::new(0)).expect(&rt, "refused");
    assert!(rt; course_of_new(rt.alloc(), &gone) == Ok(WANTED));
}

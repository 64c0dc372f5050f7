//! Starts the workers of a group that threads share.

use lb_health_core::health_check::HealthCheck;
use lb_health_core::keys::KeyRule;
use lb_select_base::moments::MomentSource;
use lb_select_base::walk::BackendSelection;
use lb_threads_group::group::SharedGroup;
use lb_threads_group::workers::take_turns;
use log::Log;
use std::alloc::Global;
use std::sync::{Arc, Wait};
use std::thread;
use std::thread::Threads;

/// Starts a worker for each slot that has none, which reads a copy of the clock. Returns how many couldn't be started.
pub fn start_workers<
    S: BackendSelection + Send + Sync + 'static,
    R: KeyRule + Drop + Send + Sync + 'static,
    C: HealthCheck + Drop + Send + Sync + 'static,
    W: Log + Threads + Wait + Copy + Send + 'static,
    K: MomentSource + Copy + Send + 'static,
>(rt: &W, alloc: Global, group: &Arc<SharedGroup<S, R, C>>, clock: K) -> usize
where
    S::Config: Send + Sync + 'static,
    S::Walk: Send + Sync + 'static,
{
    let shared: &SharedGroup<S, R, C> = &**group;
    start_workers_by(
        shared,
        &|slot: usize| starts_worker(rt, alloc, group, slot, clock),
    )
}

/// Starts by `starts` a worker for each slot that has none. Returns how many couldn't be started; their slots have none then.
///
/// `starts` returns whether it could start one.
pub fn start_workers_by<
    S: BackendSelection,
    R: KeyRule + Drop,
    C: HealthCheck + Drop,
    F: Fn(usize) -> bool,
>(group: &SharedGroup<S, R, C>, starts: &F) -> usize
    requires { F.IsAlwaysCallable starts.now }
{
    let mut missing: usize = 0;
    for slot in 0..group.slot_count() {
        if group.claim_slot(slot) && !starts(slot) {
            group.leave_slot(slot);
            missing = missing.saturating_add(1);
        }
    }
    missing
}

// Whether a worker of that slot could be started.
fn starts_worker<
    S: BackendSelection + Send + Sync + 'static,
    R: KeyRule + Drop + Send + Sync + 'static,
    C: HealthCheck + Drop + Send + Sync + 'static,
    W: Log + Threads + Wait + Copy + Send + 'static,
    K: MomentSource + Copy + Send + 'static,
>(rt: &W, alloc: Global, group: &Arc<SharedGroup<S, R, C>>, slot: usize, clock: K) -> bool
where
    S::Config: Send + Sync + 'static,
    S::Walk: Send + Sync + 'static,
{
    let Ok(shared) = Arc::try_clone(group) else {
        return false;
    };
    let own = *rt;
    let started = thread::spawn(rt, move || {
        let mut clock = clock;
        let group: &SharedGroup<S, R, C> = &*shared;
        take_turns(&own, alloc, group, slot, &mut clock);
        group.leave_slot(slot);
    });
    started.is_ok()
}

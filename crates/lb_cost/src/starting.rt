//! Threads that select from a group that they share.
use crate::groups::selected;
use crate::rebuilds::stayed;
use lb_health_core::health_check::HealthCheck;
use lb_health_core::keys::KeyRule;
use lb_select_base::walk::BackendSelection;
use lb_threads_group::group::SharedGroup;
use std::alloc::Global;
use std::sync::{Arc, Wait};
use std::thread;
use std::thread::{JoinHandle, Threads};
use std::time::Clock;

// What a thread does with the group.
#[derive(Clone, Copy)]
pub(crate) enum Work {
    // Selects for so many seconds by keys of its own, through this lane or by the key.
    Selects {
        worker: u64,
        lane: u64,
        seconds: u64,
    },
    // Selects at a slot, where its candidate is looked at for a millisecond, until the group is let go.
    Stays {
        slot: usize,
    },
}

// Does the work; how often it selected.
fn done<S: BackendSelection, R: KeyRule + Drop, C: HealthCheck + Drop, W: Wait + Clock>(
    rt: &W,
    alloc: Global,
    group: &SharedGroup<S, R, C>,
    work: Work,
) -> u64 {
    match work {
        Work::Selects {
            worker,
            lane,
            seconds,
        } => selected(rt, alloc, group, worker, lane, seconds),
        Work::Stays { slot } => stayed(rt, alloc, group, slot),
    }
}

// Starts a thread that does so; `None` where it can't be started.
pub(crate) fn starts<
    S: BackendSelection + Send + Sync + 'static,
    R: KeyRule + Drop + Send + Sync + 'static,
    C: HealthCheck + Drop + Send + Sync + 'static,
    W: Threads + Wait + Clock + Copy + Send + 'static,
>(rt: &W, alloc: Global, group: &Arc<SharedGroup<S, R, C>>, work: Work) -> Option<JoinHandle<u64>>
where
    S::Config: Send + Sync + 'static,
    S::Walk: Send + Sync + 'static,
{
    let shared = Arc::try_clone(group).ok()?;
    let own = *rt;
    let started = thread::spawn(rt, move || {
        let group: &SharedGroup<S, R, C> = &*shared;
        done(&own, alloc, group, work)
    });
    started.ok()
}

// How often those that were started selected, once each has ended.
pub(crate) fn joined<W: Threads + Wait>(rt: &W, handles: Vec<Option<JoinHandle<u64>>>) -> u64 {
    let mut count = 0u64;
    for handle in handles {
        if let Some(handle) = handle {
            count = count.wrapping_add(handle.join(rt));
        }
    }
    count
}

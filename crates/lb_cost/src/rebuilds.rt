//! How long it takes from an update of a group until all its slots serve it, while each slot has a reader that stays for a millisecond:
//! `rebuilds SLOTS UPDATES`. The slots share one gate, and each has a worker. It prints the longest time and the mean, in microseconds.
use crate::groups::{Group, awaited, made};
use crate::starting::{Work, joined, starts};
use crate::words::number_at;
use anyhow::Error;
use lb_health_core::health_check::HealthCheck;
use lb_health_core::keys::KeyRule;
use lb_select::selection::FNVHash;
use lb_select_base::backend::Backend;
use lb_select_base::moments::MomentSource;
use lb_select_base::refusal::Refusal;
use lb_select_base::walk::BackendSelection;
use lb_threads_core::clock::RuntimeClock;
use lb_threads_group::group::SharedGroup;
use log::Log;
use std::alloc::Global;
use std::sync::Wait;
use std::thread;
use std::thread::Threads;
use std::time::{Clock, Duration};

// How many backends the group has; every other update leaves one out.
const BACKENDS: u32 = 100;

// How long updates took until all slots served them, in nanoseconds, and how many selections were made meanwhile.
#[derive(Clone, Copy)]
struct Spent {
    longest: u128,
    sum: u128,
    selections: u64,
}

// Selects at a slot, where the candidate is looked at for a millisecond, until the group is let go; how often. A refusal ends it.
pub(crate) fn stayed<
    S: BackendSelection,
    R: KeyRule + Drop,
    C: HealthCheck + Drop,
    W: Wait + Clock,
>(rt: &W, alloc: Global, group: &SharedGroup<S, R, C>, slot: usize) -> u64 {
    let accept = |_backend: &Backend, ready: bool| {
        thread::sleep(rt, Duration::from_millis(1));
        ready
    };
    let mut count = 0u64;
    for _ in rt.forever() {
        match group.select_with(rt, alloc, slot, b"key", 1, &accept) {
            Ok(_) => count = count.wrapping_add(1),
            Err(_) => return count,
        }
        if group.is_let_go() {
            break;
        }
    }
    count
}

// Updates so often, each time until all slots serve it.
fn updated<S: BackendSelection, R: Wait + Clock + Copy>(
    rt: &R,
    alloc: Global,
    group: &Group<S>,
    updates: u32,
) -> Result<Spent, Refusal> {
    let mut clock = RuntimeClock::new(*rt);
    let mut spent = Spent {
        longest: 0,
        sum: 0,
        selections: 0,
    };
    for _ in 0..updates {
        let begun = clock.now();
        group.update(rt, alloc, &mut clock)?;
        awaited(rt, group);
        let took = clock.now().saturating_sub(begun);
        spent.longest = spent.longest.max(took);
        spent.sum = spent.sum.saturating_add(took);
    }
    Ok(spent)
}

// Updates a new group while each slot has its reader.
fn measured<
    S: BackendSelection + Send + Sync + 'static,
    R: Log + Threads + Wait + Clock + Copy + Send + Sync + 'static,
>(rt: &R, alloc: Global, slots: u32, updates: u32) -> Result<Spent, Refusal>
where
    S::Config: Send + Sync + 'static,
    S::Walk: Send + Sync + 'static,
{
    let group: Group<S> = made(rt, alloc, BACKENDS, slots)?;
    let mut handles = Vec::new(alloc);
    for slot in 0..slots {
        let work = Work::Stays {
            slot: slot as usize,
        };
        handles.push(starts(rt, alloc, group.shared(), work))?;
    }
    let told = updated(rt, alloc, &group, updates);
    group.shared().let_go();
    let selections = joined(rt, handles);
    let mut spent = told?;
    spent.selections = selections;
    Ok(spent)
}

/// Measures, and prints the longest time and the mean; of one update, that it was served while each reader selected.
pub fn run<R: Log + Threads + Wait + Clock + Print + Copy + Send + Sync + 'static>(
    rt: &R,
    alloc: Global,
    words: &[String],
) -> Result<(), Error> {
    let (slots, updates) = (number_at(words, 0, 2)?, number_at(words, 1, 1)?);
    let spent = measured::<FNVHash, R>(rt, alloc, slots, updates)?;
    if updates == 1 {
        let is_each = spent.selections >= u64::from(slots);
        println!(rt; "rebuilds of {slots} slots: served, while each had a reader: {is_each}")?;
    } else {
        let mean = spent.sum / u128::from(updates).max(1);
        println!(rt; "longest {} mean {}", spent.longest / 1_000, mean / 1_000)?;
    }
    Ok(())
}

//! Selections a second from one group by threads that share its handle: `groups KIND BACKENDS THREADS SECONDS HOW`. Meanwhile another
//! thread updates it each 10 milliseconds, where every other update leaves one backend out, and flips the health of a backend each 100.
//! The kind is `fnv`, `ketama`, `least`, `random` or `rr`; `group` or `reader` says how they select. The group has one slot and its worker.
//! `bench/groups` prints them with a plain program's.
use crate::shared::{BATCH, Halves, LIMIT, PAUSE, next_key};
use crate::starting::{Work, joined, starts};
use crate::words::{Usage, number_at, word_at};
use anyhow::Error;
use lb_background::lending::LendsToThreads;
use lb_balancer_group::group::LoadBalancerGroup;
use lb_health_core::error::CheckError;
use lb_health_core::health_check::HealthCheck;
use lb_health_core::keys::{KeyRule, Rule};
use lb_health_view::discovery::DiscoverySource;
use lb_select::ketama::Consistent;
use lb_select::least::LeastConnections;
use lb_select::selection::{FNVHash, Random, RoundRobin};
use lb_select_base::backend::Backend;
use lb_select_base::moments::MomentSource;
use lb_select_base::refusal::Refusal;
use lb_select_base::walk::BackendSelection;
use lb_threads_core::backends::Backends;
use lb_threads_core::clock::RuntimeClock;
use lb_threads_core::keyed::NoRule;
use lb_threads_group::group::SharedGroup;
use log::Log;
use std::alloc::Global;
use std::sync::Wait;
use std::sync::atomic::AtomicU64;
use std::sync::atomic::Ordering::SeqCst;
use std::thread;
use std::thread::Threads;
use std::time::{Clock, Duration};

// How many updates there are for each pass of checks.
const UPDATES: u64 = 10;

// The lane of a thread that has none of its own.
const BY_KEY: u64 = u64::MAX;

// How a measurement goes.
#[derive(Clone, Copy)]
struct Plan {
    backends: u32,
    threads: u32,
    seconds: u64,
    has_lanes: bool,
}

// A check that fails once in so many calls: one backend's, in about each second pass.
#[derive(Drop)]
pub(crate) struct Flipping {
    calls: AtomicU64,
    period: u64,
}

impl HealthCheck for Flipping {
    ghost threshold = { λ _ _. 1 };

    fn check(&self, _alloc: Global, _target: &Backend) -> Result<(), CheckError> {
        if self.calls.fetch_add(1, SeqCst).checked_rem(self.period) == Some(0) {
            return Err(CheckError::Connect);
        }
        Ok(())
    }

    fn health_threshold(&self, _success: bool) -> usize {
        1
    }
}

// The group that is measured.
pub(crate) type Group<S> = LoadBalancerGroup<S, Halves, Rule<NoRule>, Flipping>;

// Whether a backend is selected.
fn is_ready(_backend: &Backend, ready: bool) -> bool {
    ready
}

// How many seconds have passed since that reading of the clock.
fn seconds_since<W: Clock>(rt: &W, begun: Duration) -> u64 {
    let now = rt.monotonic().unwrap_or(begun);
    now.saturating_sub(begun).as_secs()
}

// Selects once, by this lane or by the key; whether a backend was found.
fn select_once<S: BackendSelection, R: KeyRule + Drop, C: HealthCheck + Drop, W: Wait>(
    rt: &W,
    alloc: Global,
    group: &SharedGroup<S, R, C>,
    lane: u64,
    key: u64,
) -> Result<bool, Refusal> {
    let bytes = key.to_le_bytes();
    let found = if lane == BY_KEY {
        group.select_with(rt, alloc, 0, &bytes, LIMIT, &is_ready)?
    } else {
        group.select_at(rt, alloc, 0, lane, &bytes, LIMIT, &is_ready)?
    };
    Ok(found.is_some())
}

// Selects for so many seconds by keys of this thread's own; how often. A refusal ends it.
pub(crate) fn selected<
    S: BackendSelection,
    R: KeyRule + Drop,
    C: HealthCheck + Drop,
    W: Wait + Clock,
>(
    rt: &W,
    alloc: Global,
    group: &SharedGroup<S, R, C>,
    worker: u64,
    lane: u64,
    seconds: u64,
) -> u64 {
    let begun = rt.monotonic().unwrap_or(Duration::from_secs(0));
    let mut key = worker;
    let mut count = 0u64;
    for _ in rt.forever() {
        for _ in 0..BATCH {
            key = next_key(key);
            match select_once(rt, alloc, group, lane, key) {
                Ok(is_found) => count = count.wrapping_add(u64::from(is_found)),
                Err(_) => return count,
            }
        }
        if seconds_since(rt, begun) >= seconds {
            break;
        }
    }
    count
}

// Updates each 10 milliseconds for so many seconds, and checks with every tenth update.
fn updated<S: BackendSelection, R: Log + Threads + Wait + Clock + Copy + Sync>(
    rt: &R,
    alloc: Global,
    group: &Group<S>,
    seconds: u64,
) -> Result<(), Refusal> {
    let mut clock = RuntimeClock::new(*rt);
    let begun = rt.monotonic().unwrap_or(Duration::from_secs(0));
    for turn in 1..u64::MAX {
        if seconds_since(rt, begun) >= seconds {
            break;
        }
        thread::sleep(rt, Duration::from_millis(PAUSE));
        changed(rt, alloc, group, &mut clock, turn)?;
    }
    Ok(())
}

// One update, and in every tenth turn a pass of checks.
fn changed<S: BackendSelection, R: Log + Threads + Wait + Clock + Copy + Sync>(
    rt: &R,
    alloc: Global,
    group: &Group<S>,
    clock: &mut RuntimeClock<R>,
    turn: u64,
) -> Result<(), Refusal> {
    group.update(rt, alloc, clock)?;
    if turn % UPDATES == 0 {
        group.health_registry().run_health_check(rt, alloc, false)?;
    }
    Ok(())
}

/// Waits until all slots serve the newest generation, a minute at most.
pub(crate) fn awaited<S: BackendSelection, R: Wait + Clock>(rt: &R, group: &Group<S>) {
    for _ in 0..600_000 {
        if group.selectors_ready_for(rt, group.backend_generation(rt)) {
            return;
        }
        thread::sleep(rt, Duration::from_micros(100));
    }
}

/// Returns a group of so many slots over so many backends, whose workers run; it is updated once, and served.
pub(crate) fn made<
    S: BackendSelection + Send + Sync + 'static,
    R: Log + Threads + Wait + Clock + Copy + Send + Sync + 'static,
>(rt: &R, alloc: Global, backends: u32, slots: u32) -> Result<Group<S>, Refusal>
where
    S::Config: Send + Sync + 'static,
    S::Walk: Send + Sync + 'static,
{
    let discovery = Halves {
        backends,
        turn: AtomicU64::new(0),
    };
    let found = Backends::new(rt, alloc, DiscoverySource::Boxed(discovery))?;
    let mut configs = Vec::new(alloc);
    for _ in 0..slots {
        configs.push(None)?;
    }
    let group: Group<S> = LoadBalancerGroup::from_backends_with_configs(rt, alloc, found, configs)?;
    group.set_health_check(
        rt,
        Flipping {
            calls: AtomicU64::new(0),
            period: u64::from(backends).saturating_mul(2).max(1),
        },
    )?;
    let mut clock = RuntimeClock::new(*rt);
    let _ = group.start_workers(rt, alloc, clock);
    group.update(rt, alloc, &mut clock)?;
    awaited(rt, &group);
    Ok(group)
}

// A lane of the thread's own, or that of each key.
fn lane_of<S: BackendSelection>(group: &Group<S>, is_own: bool) -> u64 {
    if is_own {
        group.shared().own_lane()
    } else {
        BY_KEY
    }
}

// Selections of so many threads from a new group, while this thread updates it; how many.
fn all_selected<
    S: BackendSelection + Send + Sync + 'static,
    R: Log + Threads + Wait + Clock + Copy + Send + Sync + 'static,
>(rt: &R, alloc: Global, plan: Plan) -> Result<u64, Refusal>
where
    S::Config: Send + Sync + 'static,
    S::Walk: Send + Sync + 'static,
{
    let group: Group<S> = made(rt, alloc, plan.backends, 1)?;
    let mut handles = Vec::new(alloc);
    for worker in 0..plan.threads {
        let work = Work::Selects {
            worker: u64::from(worker),
            lane: lane_of(&group, plan.has_lanes),
            seconds: plan.seconds,
        };
        handles.push(starts(rt, alloc, group.shared(), work))?;
    }
    let told = updated(rt, alloc, &group, plan.seconds);
    let count = joined(rt, handles);
    told?;
    Ok(count)
}

/// Measures, and prints selections a second; in no seconds, that there were some.
pub fn run<R: Log + Threads + Wait + Clock + Print + Copy + Send + Sync + 'static>(
    rt: &R,
    alloc: Global,
    words: &[String],
) -> Result<(), Error> {
    let plan = Plan {
        backends: number_at(words, 1, 10)?,
        threads: number_at(words, 2, 1)?,
        seconds: u64::from(number_at(words, 3, 0)?),
        has_lanes: word_at(words, 4, "group") == "reader",
    };
    let count = match word_at(words, 0, "fnv") {
        "fnv" => all_selected::<FNVHash, R>(rt, alloc, plan)?,
        "ketama" => all_selected::<Consistent, R>(rt, alloc, plan)?,
        "least" => all_selected::<LeastConnections, R>(rt, alloc, plan)?,
        "random" => all_selected::<Random, R>(rt, alloc, plan)?,
        "rr" => all_selected::<RoundRobin, R>(rt, alloc, plan)?,
        _ => return Err(Usage::UnknownKind)?,
    };
    if plan.seconds == 0 {
        let (backends, threads, is_many) = (plan.backends, plan.threads, count >= 1000);
        println!(rt;
            "a group, {backends} backends, {threads} threads: at least 1000 selections: {is_many}"
        )?;
    } else {
        println!(rt; "{}", count / plan.seconds)?;
    }
    Ok(())
}

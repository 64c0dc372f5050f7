//! Passes of checks over a shared registry, while memory is refused. A pass that was refused for it has checked nothing and left each cell
//! as it was, and is made again; where a thread can't be started for a check, the check runs on the caller's.
use crate::passes::pass;
use crate::refused::{Course, OTHER, set_of};
use lb_health_core::error::CheckError;
use lb_health_core::health_check::HealthCheck;
use lb_health_core::keys::Rule;
use lb_select_base::backend::Backend;
use lb_select_base::refusal::Refusal;
use lb_threads_core::keyed::NoRule;
use lb_threads_core::registry::HealthRegistry;
use log::Log;
use std::alloc::Global;
use std::sync::atomic::Ordering::SeqCst;
use std::sync::atomic::{AtomicBool, AtomicU64};
use std::sync::{Arc, Wait};
use std::thread::Threads;

/// What a check finds, and how often it was asked.
#[derive(Drop)]
struct Found {
    // Whether the backends of odd weight fail, in place of those of even weight.
    odd_fail: AtomicBool,
    asked: AtomicU64,
}

/// A check that backends fail by their weight.
#[derive(Drop)]
struct ByWeight {
    found: Arc<Found>,
}

impl HealthCheck for ByWeight {
    ghost threshold = { λ _ _. 1 };

    fn check(&self, _alloc: Global, target: &Backend) -> Result<(), CheckError> {
        self.found.asked.fetch_add(1, SeqCst);
        let is_odd = target.weight % 2 == 1;
        if is_odd == self.found.odd_fail.load(SeqCst) {
            return Err(CheckError::Connect);
        }
        Ok(())
    }

    fn health_threshold(&self, _success: bool) -> usize {
        1
    }
}

type Registry = HealthRegistry<Rule<NoRule>, ByWeight>;

/// What can be read: which of the first three cells are ready, how many verdicts have flipped one, how often the check was asked, and how
/// many targets there are.
#[derive(Clone, Copy, PartialEq, Eq)]
struct Seen {
    ready: [bool; 3],
    flips: u64,
    asked: u64,
    targets: usize,
}

// Reads what can be read; once more, where that is refused.
fn look_at<W: Wait>(rt: &W, alloc: Global, registry: &Registry, found: &Found) -> Option<Seen> {
    let targets = match registry.target_count(rt, alloc) {
        Ok(count) => count,
        Err(_) => registry.target_count(rt, alloc).ok()?,
    };
    Some(Seen {
        ready: [
            registry.cell_ready(rt, 0),
            registry.cell_ready(rt, 1),
            registry.cell_ready(rt, 2),
        ],
        flips: registry.changes(),
        asked: found.asked.load(SeqCst),
        targets,
    })
}

/// A pass: whether its checks run side by side, and whether those of odd weight fail; then which cells are ready after it, and how many
/// verdicts have flipped one.
type Row = (bool, bool, [bool; 3], u64);

// The weights are 2, 3 and 4.
const ROWS: &[Row] = &[
    (false, false, [false, true, false], 2),
    (true, false, [false, true, false], 2),
    (true, true, [true, false, true], 5),
    (false, false, [false, true, false], 8),
];

// Makes the passes, each again where memory was refused for it.
fn play<W: Log + Threads + Wait + Copy + Sync + Drop>(
    rt: &W,
    alloc: Global,
    registry: &Registry,
    found: &Found,
    course: &mut Course,
) {
    let mut number: usize = 0;
    for (is_parallel, odd_fail, ready, flips) in ROWS {
        number = number.saturating_add(1);
        found.odd_fail.store(*odd_fail, SeqCst);
        let before = look_at(rt, alloc, registry, found);
        let mut passed = pass(rt, alloc, registry, *is_parallel);
        if passed == Err(Refusal::OutOfMemory) {
            course.refused(number, look_at(rt, alloc, registry, found) == before);
            passed = pass(rt, alloc, registry, *is_parallel);
        }
        let wanted = Seen {
            ready: *ready,
            flips: *flips,
            asked: (number as u64).saturating_mul(3),
            targets: 3,
        };
        course.done(passed.is_ok() && look_at(rt, alloc, registry, found) == Some(wanted));
    }
}

// Gives the registry a check, and a view of three backends.
fn fill<W: Wait>(
    rt: &W,
    alloc: Global,
    registry: &Registry,
    found: &Arc<Found>,
) -> Result<(), Refusal> {
    let found = Arc::try_clone(found)?;
    let id = registry.register_view(rt, alloc)?;
    registry.update_view(rt, alloc, id, set_of(alloc, OTHER)?)?;
    registry.set_health_check(rt, ByWeight { found })
}

/// Makes passes over a registry of its own. Returns what came of them; what makes the registry isn't made again.
///
/// # Errors
///
/// `OutOfMemory` where it is refused for the registry.
pub fn passes<W: Log + Threads + Wait + Copy + Sync + Drop>(
    rt: &W,
    alloc: Global,
) -> Result<Course, Refusal> {
    let found = Found {
        odd_fail: AtomicBool::new(false),
        asked: AtomicU64::new(0),
    };
    let found = Arc::new(alloc, found)?;
    let registry: Registry = HealthRegistry::new(alloc)?;
    fill(rt, alloc, &registry, &found)?;
    let mut course = Course::new(true);
    play(rt, alloc, &registry, &*found, &mut course);
    Ok(course)
}

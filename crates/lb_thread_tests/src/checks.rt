//! Passes of checks over a registry that threads share.
use crate::asserted::assert_same;
use lb_health_core::error::CheckError;
use lb_health_core::health_check::HealthCheck;
use lb_health_core::keys::Rule;
use lb_select_base::backend::Backend;
use lb_select_base::refusal::Refusal;
use lb_threads_core::keyed::{KeyedRegistry, NoRule, keyed_by_identity};
use lb_threads_core::registry::HealthRegistry;
use log::Log;
use std::alloc::Global;
use std::collections::BTreeSet;
use std::process::Abort;
use std::sync::atomic::AtomicU64;
use std::sync::atomic::Ordering::SeqCst;
use std::sync::{Arc, Wait};
use std::thread;
use std::thread::{Threads, join};
use std::time::{Clock, Duration};

// How many checks there were, how many run, and the most that ran at once; whether that of weight 1 has begun, how many have answered, and
// whether one had when that of weight 1 went on.
#[derive(Drop)]
struct Seen {
    checks: AtomicU64,
    inside: AtomicU64,
    most: AtomicU64,
    begun: AtomicU64,
    answered: AtomicU64,
    before: AtomicU64,
}

impl Seen {
    // Nothing was checked yet.
    fn new() -> Seen {
        Seen {
            checks: AtomicU64::new(0),
            inside: AtomicU64::new(0),
            most: AtomicU64::new(0),
            begun: AtomicU64::new(0),
            answered: AtomicU64::new(0),
            before: AtomicU64::new(0),
        }
    }
}

// A check of which that of weight 1 waits until another has answered, and the others until that one has begun; for so many turns of ten
// milliseconds at most. A backend of weight 2 is down.
#[derive(Drop)]
struct Meeting<R> {
    rt: R,
    turns: usize,
    seen: Arc<Seen>,
}

impl<R: Clock> Meeting<R> {
    // Waits until the word isn't 0.
    fn wait(&self, word: &AtomicU64) {
        for _ in 0..self.turns {
            if word.load(SeqCst) > 0 {
                break;
            }
            thread::sleep(&self.rt, Duration::from_millis(10));
        }
    }
}

impl<R: Clock> HealthCheck for Meeting<R> {
    ghost threshold = { λ _ _. 1 };

    fn check(&self, _alloc: Global, target: &Backend) -> Result<(), CheckError> {
        let seen = &*self.seen;
        seen.checks.fetch_add(1, SeqCst);
        let inside = seen.inside.fetch_add(1, SeqCst).wrapping_add(1);
        seen.most.fetch_max(inside, SeqCst);
        if target.weight == 1 {
            seen.begun.store(1, SeqCst);
            self.wait(&seen.answered);
            seen.before.store(seen.answered.load(SeqCst).min(1), SeqCst);
        } else {
            self.wait(&seen.begun);
        }
        seen.inside.fetch_sub(1, SeqCst);
        seen.answered.fetch_add(1, SeqCst);
        if target.weight == 2 {
            return Err(CheckError::Connect);
        }
        Ok(())
    }

    fn health_threshold(&self, _success: bool) -> usize {
        1
    }
}

// Backends of this weight to 3.
fn backends_from<R: Abort>(rt: &R, alloc: Global, least: usize) -> BTreeSet<Backend> {
    let mut set = BTreeSet::new(alloc);
    for weight in least..4 {
        let backend = Backend::new_with_weight(alloc, "1.0.0.1:80", weight).expect(rt, "refused");
        set.insert(backend).expect(rt, "refused");
    }
    set
}

// A registry with a check of this type.
type Registry<R> = HealthRegistry<Rule<NoRule>, Meeting<R>>;

// A registry, and what its checks count.
struct Bench<R: Drop> {
    seen: Arc<Seen>,
    registry: Registry<R>,
}

impl<R: Drop> Drop for Bench<R> {
    fn drop(self) {
        let Bench {
            seen: _,
            registry: _,
        } = self;
    }
}

// A plain registry with a view of three backends, of weights 1 to 3.
fn three_targets<R: Abort>(rt: &R, alloc: Global) -> KeyedRegistry {
    let mut registry = keyed_by_identity(alloc);
    let id = registry.register_view(alloc).expect(rt, "refused");
    let set = backends_from(rt, alloc, 1);
    registry.update_view(alloc, id, set).expect(rt, "refused");
    registry
}

impl<R: Abort + Wait + Clock + Copy + Drop> Bench<R> {
    // A registry of three targets, whose check waits for so many turns.
    fn new(rt: &R, alloc: Global, turns: usize) -> Bench<R> {
        let registry = HealthRegistry::over(alloc, three_targets(rt, alloc));
        let bench = Bench {
            seen: Arc::new(alloc, Seen::new()).expect(rt, "refused"),
            registry: registry.expect(rt, "refused"),
        };
        bench.set(rt, turns).expect(rt, "refused");
        bench
    }

    // Sets a check that waits for so many turns.
    fn set(&self, rt: &R, turns: usize) -> Result<(), Refusal> {
        let check = Meeting {
            rt: *rt,
            turns,
            seen: Arc::try_clone(&self.seen).expect(rt, "refused"),
        };
        self.registry.set_health_check(rt, check)
    }
}

// What a pass came to: whether a second check was refused before it, how many checks there were, how many of them ran at the same time
// (one, or two and more) and whether one had answered when that of weight 1 went on, how many targets there are, and which cells are
// healthy.
type Told = (bool, u64, [u64; 2], usize, [bool; 3]);

// A pass with its checks at the same time or not, once a second check was set.
fn passed<R: Abort + Log + Threads + Wait + Clock + Copy + Send + Sync + Drop>(
    rt: &R,
    alloc: Global,
    bench: &Bench<R>,
    parallel: bool,
) -> Told {
    let (seen, registry) = (&*bench.seen, &bench.registry);
    let is_refused = bench.set(rt, 0) == Err(Refusal::HealthCheckSet);
    registry
        .run_health_check(rt, alloc, parallel)
        .expect(rt, "refused");
    let healthy = [
        registry.cell_ready(rt, 0),
        registry.cell_ready(rt, 1),
        registry.cell_ready(rt, 2),
    ];
    let most = [seen.most.load(SeqCst).min(2), seen.before.load(SeqCst)];
    let targets = registry.target_count(rt, alloc).expect(rt, "refused");
    (is_refused, seen.checks.load(SeqCst), most, targets, healthy)
}

// With `parallel` a check that is held goes on once another has answered, within a thousand turns of ten milliseconds; without it, no two
// run at once. Each target is checked once, and each verdict reaches its cell. A second check is refused, and the first stays.
#[test]
fn passes_of_checks(rt: HostRuntime) {
    for (parallel, turns, most) in &[(true, 1000, [2, 1]), (false, 5, [1, 0])] {
        let bench = Bench::new(&rt, rt.alloc(), *turns);
        let told = passed(&rt, rt.alloc(), &bench, *parallel);
        let wanted = (true, 3, *most, 3, [true, false, true]);
        assert_same(&rt, &told, &wanted, parallel);
    }
}

// Removes all targets but the last while the first is checked, and lets the checks go on then; whether it could.
fn removes<R: Abort + Wait + Clock + Drop>(
    rt: &R,
    alloc: Global,
    registry: &Registry<R>,
    seen: &Seen,
) -> bool {
    for _ in 0..10_000 {
        if seen.checks.load(SeqCst) > 0 {
            break;
        }
        thread::sleep(rt, Duration::from_millis(1));
    }
    let removed = registry.update_view(rt, alloc, 1, backends_from(rt, alloc, 3));
    let is_checked = seen.checks.load(SeqCst) == 1;
    seen.answered.store(1, SeqCst);
    removed == Ok(()) && is_checked
}

// A pass meanwhile: whether all was removed in its first check; how many checks and how many targets there were in the end; and which cells
// are healthy once the backends are back.
fn passed_meanwhile<R: Abort + Log + Threads + Wait + Clock + Copy + Send + Sync + Drop>(
    rt: &R,
    alloc: Global,
    bench: &Bench<R>,
) -> (bool, u64, usize, [bool; 5]) {
    let (seen, registry) = (&*bench.seen, &bench.registry);
    let (removed, passed) = join(
        rt,
        || removes(rt, alloc, registry, seen),
        || registry.run_health_check(rt, alloc, false),
    );
    let targets = registry.target_count(rt, alloc).expect(rt, "refused");
    let back = registry.update_view(rt, alloc, 1, backends_from(rt, alloc, 1));
    let healthy = [
        registry.cell_ready(rt, 0),
        registry.cell_ready(rt, 1),
        registry.cell_ready(rt, 2),
        registry.cell_ready(rt, 3),
        registry.cell_ready(rt, 4),
    ];
    let is_done = removed && passed == Ok(()) && back == Ok(());
    (is_done, seen.checks.load(SeqCst), targets, healthy)
}

// The verdicts of backends that were removed while they were checked go nowhere, that of the one that stays reaches its cell; those that
// come back have new cells.
#[test]
fn removed_while_checked(rt: HostRuntime) {
    let bench = Bench::new(&rt, rt.alloc(), 1000);
    assert_eq!(rt;
        passed_meanwhile(&rt, rt.alloc(), &bench),
        (true, 3, 1, [false, false, true, true, true])
    );
}

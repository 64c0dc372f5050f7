//! Runs of a group in the background. Some are shut down in the middle of an update, of a check, and of a build: what is under way goes on
//! to its end, and what it did is kept. One updates again and again, and is shut down once its slots serve what was found; and one has
//! nobody who could shut it down.
use super::TURNS;
use crate::asserted::assert_same;
use crate::noted::Noted;
use lb_crowd::calls::AskedHandle;
use lb_crowd::counted::{Counted, Counting, Counts};
use lb_crowd::handle_asks;
use log::{Level, Log, Logged};
use pingora_load_balancing::background::{
    ReadyWatch, RuntimeClock, ServiceReadyNotifier, ShutdownSignal, ShutdownWatch, ready_pair,
    shutdown_pair,
};
use pingora_load_balancing::discovery::{Discovered, DiscoverySource, ServiceDiscovery, Settings};
use pingora_load_balancing::health_check::{CheckError, HealthCheck, NoRule, Rule};
use pingora_load_balancing::selection::BackendSelection;
use pingora_load_balancing::{
    Backend, Backends, GateRefusal, LoadBalancerGroup, Refusal, SelectorRebuildGate,
};
use std::alloc::Global;
use std::collections::BTreeSet;
use std::process::Abort;
use std::sync::atomic::AtomicU64;
use std::sync::atomic::Ordering::SeqCst;
use std::sync::{Arc, Wait};
use std::thread;
use std::thread::{Threads, join};
use std::time::{Clock, Duration};

// How many discoveries and how many checks there were.
#[derive(Drop)]
struct Calls {
    updates: AtomicU64,
    checks: AtomicU64,
}

// A discovery of one backend, whose weight is 2 from the fourth call on, and a check that finds it down. The first call of each waits, for
// ten seconds at most, until the watch tells that runs are to end. The fifth discovery is refused.
#[derive(Drop)]
struct Slow<W> {
    rt: W,
    calls: Arc<Calls>,
    watch: ShutdownWatch,
}

impl<W: Clock> Slow<W> {
    // Counts a call. Returns how many came before it.
    fn count(&self, calls: &AtomicU64) -> u64 {
        let before = calls.fetch_add(1, SeqCst);
        if before != 0 {
            return before;
        }
        for _ in 0..10_000 {
            if self.watch.is_shut() {
                break;
            }
            thread::sleep(&self.rt, Duration::from_millis(1));
        }
        before
    }
}

impl<W: Clock> ServiceDiscovery for Slow<W> {
    fn discover(&self, alloc: Global) -> Result<Discovered, Refusal> {
        let calls: &Calls = &*self.calls;
        let before = self.count(&calls.updates);
        if before == 4 {
            return Err(Refusal::Discovery);
        }
        let mut backends = BTreeSet::new(alloc);
        let weight = if before < 3 { 1 } else { 2 };
        backends.insert(Backend::new_with_weight(alloc, "1.0.0.1:80", weight)?)?;
        Ok((backends, Settings::new(alloc)))
    }
}

impl<W: Clock> HealthCheck for Slow<W> {
    ghost threshold = { λ _ _. 1 };

    fn check(&self, _alloc: Global, _target: &Backend) -> Result<(), CheckError> {
        let calls: &Calls = &*self.calls;
        self.count(&calls.checks);
        Err(CheckError::Connect)
    }

    fn health_threshold(&self, _success: bool) -> usize {
        1
    }
}

type Group<W> = LoadBalancerGroup<Counted<W>, Slow<W>, Rule<NoRule>, Slow<W>>;

// A group of two slots, the counts of the first one's selectors and of the group's calls, and what tells its runs to end.
#[derive(Drop)]
struct Bench<W: Wait + Clock + Copy + Drop> {
    counts: Arc<Counts<W>>,
    calls: Arc<Calls>,
    signal: ShutdownSignal,
    watch: ShutdownWatch,
    group: Group<W>,
}

impl<W: Abort + Wait + Clock + Copy + Drop> Bench<W> {
    // With a registry of its own. The first build for an update is held.
    fn new(rt: W, alloc: Global) -> Bench<W> {
        let (signal, watch) = shutdown_pair(alloc).expect(&rt, "refused");
        let counts = Arc::new(alloc, Counts::new(rt, false)).expect(&rt, "refused");
        let calls = Calls {
            updates: AtomicU64::new(0),
            checks: AtomicU64::new(0),
        };
        let calls = Arc::new(alloc, calls).expect(&rt, "refused");
        let group = group_of(rt, alloc, &counts, &calls, &watch);
        // The slot has a selector now.
        counts.begun.store(1, SeqCst);
        counts.hold(true);
        Bench {
            counts,
            calls,
            signal,
            watch,
            group,
        }
    }

    // The notifier of a new run, which is not yet to end, and its other half. A run whose notifier is to be notified updates each
    // millisecond; before it the build goes on, and comes to be served.
    fn begin(
        &mut self,
        rt: &W,
        alloc: Global,
        wanted: Wanted,
    ) -> (ServiceReadyNotifier, ReadyWatch) {
        self.signal.send(false);
        if wanted.is_told {
            self.group.update_frequency = Some(1_000_000);
            self.counts.hold(false);
            assert!(rt; comes_to_serve(rt, alloc, &self.group));
            assert!(rt; self.refuses_a_gate(rt, alloc));
        }
        ready_pair(alloc).expect(rt, "refused")
    }

    // Whether the group, which was updated, refuses another gate.
    fn refuses_a_gate(&mut self, rt: &W, alloc: Global) -> bool {
        let gate = SelectorRebuildGate::new(alloc).expect(rt, "refused");
        let gate = Arc::new(alloc, gate).expect(rt, "refused");
        let answer = self.group.with_rebuild_gate(rt, alloc, gate);
        answer == Err(GateRefusal::WasUpdated)
    }

    // What the last run left. A run that updates again and again discovers more often than it has to.
    fn left(&self, rt: &W, alloc: Global, ready: &ReadyWatch, wanted: Wanted) -> Left {
        let (generation, served, is_ready) = read_of(rt, alloc, &self.group);
        let updates = self.calls.updates.load(SeqCst);
        Left {
            updates: if wanted.is_told {
                updates.min(wanted.updates)
            } else {
                updates
            },
            checks: self.calls.checks.load(SeqCst),
            generation,
            served,
            is_ready,
            is_told: ready.is_ready(),
        }
    }
}

// How many discoveries and checks there were, what the group's generation and its slot's is, whether the backend is ready, and whether the
// notifier was notified.
#[derive(Clone, Copy, Debug, PartialEq, Eq)]
struct Left {
    updates: u64,
    checks: u64,
    generation: Option<u64>,
    served: Option<u64>,
    is_ready: bool,
    is_told: bool,
}

// The generation of a group, that of its first slot, and whether its backend is ready.
fn read_of<H: AskedHandle, W: Abort + Wait>(
    rt: &W,
    alloc: Global,
    group: &H,
) -> (Option<u64>, Option<u64>, bool) {
    let backend = Backend::new(alloc, "1.0.0.1:80").expect(rt, "refused");
    (
        handle_asks::newest(rt, alloc, group),
        handle_asks::served(rt, alloc, group, 0),
        handle_asks::ready(rt, alloc, group, &backend),
    )
}

// Whether both slots of a group come to serve its first update within a thousand turns of ten milliseconds.
fn comes_to_serve<H: AskedHandle, W: Wait + Clock>(rt: &W, alloc: Global, group: &H) -> bool {
    for _ in 0..TURNS {
        let served = handle_asks::served(rt, alloc, group, 0);
        if served == Some(1) && handle_asks::served(rt, alloc, group, 1) == served {
            return true;
        }
        thread::sleep(rt, Duration::from_millis(10));
    }
    false
}

// A group with a registry of its own and that check, whose slots have these configurations.
fn made<S: BackendSelection, D: ServiceDiscovery + Drop, C: HealthCheck + Drop, W: Abort + Wait>(
    rt: &W,
    alloc: Global,
    found: DiscoverySource<D>,
    check: C,
    configs: Vec<Option<S::Config>>,
) -> LoadBalancerGroup<S, D, Rule<NoRule>, C> {
    let backends = Backends::new(rt, alloc, found).expect(rt, "refused");
    let group = LoadBalancerGroup::from_backends_with_configs(rt, alloc, backends, configs);
    let group = group.expect(rt, "refused");
    group.set_health_check(rt, check).expect(rt, "refused");
    group
}

fn group_of<W: Abort + Wait + Clock + Copy + Drop>(
    rt: W,
    alloc: Global,
    counts: &Arc<Counts<W>>,
    calls: &Arc<Calls>,
    watch: &ShutdownWatch,
) -> Group<W> {
    let counting = Counting {
        config: (),
        counts: Some(Arc::try_clone(counts).expect(&rt, "refused")),
    };
    let mut configs = Vec::new(alloc);
    configs.push(Some(counting)).expect(&rt, "refused");
    configs.push(None).expect(&rt, "refused");
    let found = DiscoverySource::Boxed(slow_for(rt, calls, watch));
    let check = slow_for(rt, calls, watch);
    made(&rt, alloc, found, check, configs)
}

fn slow_for<W: Abort + Copy + Drop>(rt: W, calls: &Arc<Calls>, watch: &ShutdownWatch) -> Slow<W> {
    Slow {
        rt,
        calls: Arc::try_clone(calls).expect(&rt, "refused"),
        watch: watch.try_clone().expect(&rt, "refused"),
    }
}

// How many discoveries, checks and builds there are to be before a run is shut down, and whether its notifier is to be notified before.
#[derive(Clone, Copy, Debug)]
struct Wanted {
    updates: u64,
    checks: u64,
    builds: u64,
    is_told: bool,
}

impl Wanted {
    // What such a run leaves.
    fn leaves(&self) -> Left {
        let generation = if self.is_told { 2 } else { 1 };
        Left {
            updates: self.updates,
            checks: self.checks,
            generation: Some(generation),
            served: Some(if self.is_told { 2 } else { 0 }),
            is_ready: self.updates == 1,
            is_told: self.is_told,
        }
    }
}

const RUNS: &[Wanted] = &[
    Wanted {
        updates: 1,
        checks: 0,
        builds: 1,
        is_told: false,
    },
    Wanted {
        updates: 2,
        checks: 1,
        builds: 1,
        is_told: false,
    },
    Wanted {
        updates: 3,
        checks: 2,
        builds: 2,
        is_told: false,
    },
    Wanted {
        updates: 6,
        checks: 3,
        builds: 2,
        is_told: true,
    },
];

// Sends the end once so much was counted, within ten seconds; whether it was.
fn end_after<W: Clock>(
    counts: &Counts<W>,
    calls: &Calls,
    ready: &ReadyWatch,
    wanted: Wanted,
    signal: &mut ShutdownSignal,
) -> bool {
    let mut came = false;
    for _ in 0..10_000 {
        came = calls.updates.load(SeqCst) >= wanted.updates
            && calls.checks.load(SeqCst) >= wanted.checks
            && counts.begun.load(SeqCst) >= wanted.builds
            && (ready.is_ready() || !wanted.is_told);
        if came {
            break;
        }
        thread::sleep(&counts.rt, Duration::from_millis(1));
    }
    signal.send(true);
    came
}

// Runs the group without frequencies once nobody can send its run's end any more; whether it has updated once more and its notifier was
// notified when it ended.
fn runs_alone<
    W: Abort + Wait + Clock + Copy + Send + Sync + Drop + 'static,
    L: Log + Threads + Wait + Copy + Send + Sync + 'static,
>(rt: &W, logged: &L, alloc: Global, bench: &Bench<W>) -> bool {
    let (signal, watch) = shutdown_pair(alloc).expect(rt, "refused");
    let (notifier, ready) = ready_pair(alloc).expect(rt, "refused");
    drop(signal);
    let before = bench.calls.updates.load(SeqCst);
    let mut clock = RuntimeClock::new(*rt);
    bench
        .group
        .run(logged, alloc, &mut clock, &watch, Some(notifier));
    let updates = bench.calls.updates.load(SeqCst).wrapping_sub(before);
    updates == 1 && ready.is_ready()
}

// Runs the group, and ends that once so much was counted; whether it was, and what the run left.
fn ended<
    W: Abort + Threads + Wait + Clock + Copy + Send + Sync + Drop + 'static,
    L: Log + Threads + Wait + Copy + Send + Sync + 'static,
>(rt: &W, logged: &L, alloc: Global, bench: &mut Bench<W>, wanted: Wanted) -> (bool, Left) {
    let (notifier, ready) = bench.begin(rt, alloc, wanted);
    let (counts, calls, signal) = (&*bench.counts, &*bench.calls, &mut bench.signal);
    let (group, watch, mut clock) = (&bench.group, &bench.watch, RuntimeClock::new(*rt));
    let (came, _) = join(
        rt,
        || end_after(counts, calls, &ready, wanted, signal),
        move || group.run(logged, alloc, &mut clock, watch, Some(notifier)),
    );
    (came, bench.left(rt, alloc, &ready, wanted))
}

// Runs that are shut down in their update, in their check, and while they wait for a build that is held. An update goes on to its end,
// and its membership is kept. So does a check, and its verdict is kept. A build doesn't hold up the end; it is ended, and served. No
// notifier is notified. Then a run that updates again and again: its notifier is notified once what it found is served, and an update
// that is refused is logged and doesn't end it. At last one that nobody can shut down: it updates and notifies, and ends by itself.
#[test]
fn what_is_under_way_is_let_end(rt: HostRuntime) {
    let alloc = rt.alloc();
    let noted = Noted::new(rt, alloc);
    let logged = Logged::new(rt, Level::Error, noted);
    let mut bench = Bench::new(rt, alloc);
    for wanted in RUNS {
        let told = ended(&rt, &logged, alloc, &mut bench, *wanted);
        assert_same(&rt, &told, &(true, wanted.leaves()), wanted);
    }
    bench.group.update_frequency = None;
    assert!(rt; runs_alone(&rt, &logged, alloc, &bench));
    let said = "[ERROR lb_balancer_group::running] load balancer group update failed: Discovery\n";
    assert!(rt; noted.said(said));
}

//! Selections a second of one balancer by threads, while another thread updates it each 10 milliseconds; every other update leaves one
//! backend out: `shared KIND BACKENDS THREADS SECONDS HOW`. The kind is `fnv`, `ketama`, `least`, `random` or `rr`; `reader`
//! or `balancer` says how they select. `bench/groups` prints them with a plain program's.
use crate::words::{Usage, number_at, word_at};
use anyhow::Error;
use lb_balancer::load_balancer::LoadBalancer;
use lb_crowd::members::members;
use lb_health_core::error::CheckError;
use lb_health_core::health_check::HealthCheck;
use lb_health_core::keys::Rule;
use lb_health_view::discovery::{Discovered, DiscoverySource, ServiceDiscovery};
use lb_health_view::view::Settings;
use lb_select::ketama::Consistent;
use lb_select::least::LeastConnections;
use lb_select::selection::{FNVHash, Random, RoundRobin};
use lb_select_base::backend::Backend;
use lb_select_base::moments::MomentSource;
use lb_select_base::refusal::Refusal;
use lb_select_base::walk::BackendSelection;
use lb_threads_core::backends::Backends;
use lb_threads_core::clock::RuntimeClock;
use lb_threads_core::keyed::NoRule;
use std::alloc::Global;
use std::sync::Wait;
use std::sync::atomic::AtomicU64;
use std::sync::atomic::Ordering::SeqCst;
use std::thread;
use std::thread::{Threads, join};
use std::time::{Clock, Duration};

// As many candidates as a selection looks at; the first is accepted, since nothing is ever down.
pub(crate) const LIMIT: usize = 16;

// How many selections a thread makes before it looks whether the measurement is over.
pub(crate) const BATCH: u32 = 1000;

// How long the updating thread sleeps between two updates, in milliseconds.
pub(crate) const PAUSE: u64 = 10;

// How a measurement goes.
#[derive(Clone, Copy)]
struct Plan {
    backends: u32,
    threads: u32,
    seconds: u32,
    has_reader: bool,
}

// So many backends of weight 1, in every other turn one less.
#[derive(Drop)]
pub(crate) struct Halves {
    pub(crate) backends: u32,
    pub(crate) turn: AtomicU64,
}

impl ServiceDiscovery for Halves {
    fn discover(&self, alloc: Global) -> Result<Discovered, Refusal> {
        let less = (self.turn.fetch_add(1, SeqCst) % 2) as u32;
        let set = members(alloc, 10, self.backends.saturating_sub(less))?;
        Ok((set, Settings::new(alloc)))
    }
}

// A check that is never set.
#[derive(Drop)]
struct Unchecked {}

impl HealthCheck for Unchecked {
    ghost threshold = { λ _ _. 1 };

    fn check(&self, _alloc: Global, _target: &Backend) -> Result<(), CheckError> {
        Ok(())
    }

    fn health_threshold(&self, _success: bool) -> usize {
        1
    }
}

// The balancer that is measured.
type Balancer<S> = LoadBalancer<S, Halves, Rule<NoRule>, Unchecked>;

// The key after this one.
pub(crate) fn next_key(key: u64) -> u64 {
    key.wrapping_mul(6364136223846793005)
        .wrapping_add(1442695040888963407)
}

// Selects through a reader of its own until the measurement is over; how often.
fn by_reader<S: BackendSelection, R: Wait>(
    rt: &R,
    alloc: Global,
    balancer: &Balancer<S>,
    over: &AtomicU64,
    worker: u64,
) -> Result<u64, Refusal> {
    let mut reader = balancer.reader(rt, alloc)?;
    let mut key = worker;
    let mut count = 0u64;
    for _ in rt.forever() {
        for _ in 0..BATCH {
            key = next_key(key);
            let found = reader.select(rt, alloc, &key.to_le_bytes(), LIMIT)?;
            count = count.wrapping_add(u64::from(found.is_some()));
        }
        if over.load(SeqCst) > 0 {
            break;
        }
    }
    Ok(count)
}

// Selects through the balancer itself until the measurement is over; how often.
fn by_balancer<S: BackendSelection, R: Wait>(
    rt: &R,
    alloc: Global,
    balancer: &Balancer<S>,
    over: &AtomicU64,
    worker: u64,
) -> Result<u64, Refusal> {
    let mut key = worker;
    let mut count = 0u64;
    for _ in rt.forever() {
        for _ in 0..BATCH {
            key = next_key(key);
            let found = balancer.select(rt, alloc, &key.to_le_bytes(), LIMIT)?;
            count = count.wrapping_add(u64::from(found.is_some()));
        }
        if over.load(SeqCst) > 0 {
            break;
        }
    }
    Ok(count)
}

// Updates once, and then each 10 milliseconds for so many seconds; how long that was, in nanoseconds. The measurement is over then.
fn updated<S: BackendSelection, R: Wait + Clock + Copy>(
    rt: &R,
    alloc: Global,
    balancer: &Balancer<S>,
    over: &AtomicU64,
    seconds: u32,
) -> Result<u128, Refusal> {
    let mut clock = RuntimeClock::new(*rt);
    let start = clock.now();
    let mut answer = Ok(());
    let mut spent = 0;
    for _ in rt.forever() {
        answer = balancer.update(rt, alloc, &mut clock);
        spent = clock.now().saturating_sub(start);
        if answer.is_err() || spent >= u128::from(seconds) * 1_000_000_000 {
            break;
        }
        thread::sleep(rt, Duration::from_millis(PAUSE));
    }
    over.store(1, SeqCst);
    answer?;
    Ok(spent)
}

// A balancer over so many backends, updated once.
fn made<S: BackendSelection, R: Wait + Clock + Copy>(
    rt: &R,
    alloc: Global,
    plan: Plan,
) -> Result<Balancer<S>, Refusal> {
    let discovery = Halves {
        backends: plan.backends,
        turn: AtomicU64::new(0),
    };
    let backends = Backends::new(rt, alloc, DiscoverySource::Boxed(discovery))?;
    let balancer = LoadBalancer::from_backends(rt, alloc, backends)?;
    updated(rt, alloc, &balancer, &AtomicU64::new(0), 0)?;
    Ok(balancer)
}

// Selections of a thread until the measurement is over, by keys of its own; how many.
fn selected<S: BackendSelection, R: Wait>(
    rt: &R,
    alloc: Global,
    balancer: &Balancer<S>,
    over: &AtomicU64,
    plan: Plan,
    worker: u64,
) -> Result<u64, Refusal> {
    if plan.has_reader {
        by_reader(rt, alloc, balancer, over, worker)
    } else {
        by_balancer(rt, alloc, balancer, over, worker)
    }
}

fn sum(counts: Vec<Result<u64, Refusal>>) -> Result<u64, Refusal> {
    let mut sum = 0u64;
    for count in counts {
        sum = sum.wrapping_add(count?);
    }
    Ok(sum)
}

// Selections of all threads; how many.
fn all_selected<S: BackendSelection + Send + Sync, R: Threads + Wait + Sync>(
    rt: &R,
    alloc: Global,
    balancer: &Balancer<S>,
    over: &AtomicU64,
    plan: Plan,
) -> Result<u64, Refusal>
where
    S::Config: Send + Sync,
    S::Walk: Send + Sync,
{
    let selects = |worker: usize| selected(rt, alloc, balancer, over, plan, worker as u64);
    let counts = thread::map_indices(rt, alloc, plan.threads as usize, &selects)?;
    sum(counts)
}

// Selections of all threads from a new balancer that another thread updates meanwhile; how many, and how long that took, in nanoseconds.
fn measured<S: BackendSelection + Send + Sync, R: Threads + Wait + Clock + Copy + Sync>(
    rt: &R,
    alloc: Global,
    plan: Plan,
) -> Result<(u64, u128), Refusal>
where
    S::Config: Send + Sync,
    S::Walk: Send + Sync,
{
    let balancer: Balancer<S> = made(rt, alloc, plan)?;
    let over = AtomicU64::new(0);
    let (count, spent) = join(
        rt,
        || all_selected(rt, alloc, &balancer, &over, plan),
        || updated(rt, alloc, &balancer, &over, plan.seconds),
    );
    Ok((count?, spent?))
}

/// Measures, and prints selections a second; in no seconds, that there were some.
pub fn run<R: Threads + Wait + Clock + Print + Copy + Sync>(
    rt: &R,
    alloc: Global,
    words: &[String],
) -> Result<(), Error> {
    let plan = Plan {
        backends: number_at(words, 1, 10)?,
        threads: number_at(words, 2, 1)?,
        seconds: number_at(words, 3, 0)?,
        has_reader: word_at(words, 4, "reader") != "balancer",
    };
    let (count, spent) = match word_at(words, 0, "fnv") {
        "fnv" => measured::<FNVHash, R>(rt, alloc, plan)?,
        "ketama" => measured::<Consistent, R>(rt, alloc, plan)?,
        "least" => measured::<LeastConnections, R>(rt, alloc, plan)?,
        "random" => measured::<Random, R>(rt, alloc, plan)?,
        "rr" => measured::<RoundRobin, R>(rt, alloc, plan)?,
        _ => return Err(Usage::UnknownKind)?,
    };
    if plan.seconds == 0 {
        let (backends, threads, is_many) = (plan.backends, plan.threads, count >= 1000);
        println!(rt;
            "{backends} backends, {threads} threads: at least 1000 selections: {is_many}"
        )?;
    } else {
        println!(rt; "{}", u128::from(count) * 1_000_000_000 / spent.max(1))?;
    }
    Ok(())
}

//! A discovery, a check and a bench for the tests of shared balancers.
use crate::service_fixtures::Ticks;
use lb_balancer::load_balancer::LoadBalancer;
use lb_health_core::error::CheckError;
use lb_health_core::health_check::HealthCheck;
use lb_health_core::keys::Rule;
use lb_health_view::discovery::{Discovered, DiscoverySource, ServiceDiscovery};
use lb_health_view::view::Settings;
use lb_select_base::backend::{Backend, InetAddr, SocketAddr};
use lb_select_base::refusal::Refusal;
use lb_select_base::walk::BackendSelection;
use lb_threads_core::backends::Backends;
use lb_threads_core::keyed::NoRule;
use lb_threads_core::registry::HealthRegistry;
use std::alloc::Global;
use std::collections::BTreeSet;
use std::process::Abort;
use std::sync::atomic::AtomicU64;
use std::sync::atomic::Ordering::SeqCst;
use std::sync::{Arc, Wait};
use std::thread;
use std::time::{Clock, Duration};

/// The word by which a discovery answers its rows in turn.
pub const ROWS: u64 = 0;

/// The word by which it answers a fault.
pub const FAULT: u64 = 1;

/// The word by which it answers a membership of too much weight.
pub const HEAVY: u64 = 2;

/// The word by which it answers its first row, and one more.
pub const GROWN: u64 = 3;

/// The word by which a check finds the second backend up.
pub const UP: u64 = 4;

/// The word by which a discovery answers its first row, and disables the second backend of it.
pub const DISABLES: u64 = 5;

/// The word by which it answers its first row, and enables the second backend of it.
pub const ENABLES: u64 = 6;

/// A line between the test and what a balancer calls: how often that was called, whether it may answer, and what.
#[derive(Drop)]
pub struct Line {
    pub asked: AtomicU64,
    pub open: AtomicU64,
    pub answers: AtomicU64,
}

impl Line {
    /// Returns an open line that answers rows.
    pub fn new() -> Line {
        Line {
            asked: AtomicU64::new(0),
            open: AtomicU64::new(1),
            answers: AtomicU64::new(ROWS),
        }
    }

    /// Counts from 0 again; it is open or isn't, and answers this.
    pub fn begin(&self, is_open: bool, answers: u64) {
        self.asked.store(0, SeqCst);
        self.open.store(u64::from(is_open), SeqCst);
        self.answers.store(answers, SeqCst);
    }

    // Counts a call, and waits until the line is open, for ten seconds at most.
    fn call<R: Clock>(&self, rt: &R) {
        self.asked.fetch_add(1, SeqCst);
        let _ = waited(rt, &self.open, 1);
    }
}

/// Waits, for ten seconds at most, until the word is so much; whether it is.
pub fn waited<R: Clock>(rt: &R, word: &AtomicU64, wanted: u64) -> bool {
    for _ in 0..5000 {
        if word.load(SeqCst) >= wanted {
            return true;
        }
        thread::sleep(rt, Duration::from_millis(2));
    }
    false
}

/// A discovery that answers the backends 1.0.0.1:80 to 1.0.0.3:80 and 2.0.0.1:80 to 2.0.0.3:80 in turn, or what its line says.
#[derive(Drop)]
pub struct InTurn<R> {
    rt: R,
    line: Arc<Line>,
    turn: AtomicU64,
}

const FIRST: &[&str] = &["1.0.0.1:80", "1.0.0.2:80", "1.0.0.3:80"];

const MORE: &[&str] = &["1.0.0.1:80", "1.0.0.2:80", "1.0.0.3:80", "1.0.0.4:80"];

const SECOND: &[&str] = &["2.0.0.1:80", "2.0.0.2:80", "2.0.0.3:80"];

/// Returns backends of weight 1 at these addresses.
pub fn listed(alloc: Global, texts: &[&str]) -> Result<BTreeSet<Backend>, Refusal> {
    let mut set = BTreeSet::new(alloc);
    for text in texts {
        set.insert(Backend::new(alloc, *text)?)?;
    }
    Ok(set)
}

/// Returns the discovery in turn, with this line.
pub fn in_turn<R: Abort + Clock + Copy + Drop>(
    rt: &R,
    line: &Arc<Line>,
) -> DiscoverySource<InTurn<R>> {
    DiscoverySource::Boxed(InTurn {
        rt: *rt,
        line: Arc::try_clone(line).expect(rt, "refused"),
        turn: AtomicU64::new(0),
    })
}

// Two backends whose weights are more than 64 bits hold.
fn heavy(alloc: Global) -> Result<BTreeSet<Backend>, Refusal> {
    let mut set = listed(alloc, &["3.0.0.2:80"])?;
    set.insert(Backend::new_with_weight(alloc, "3.0.0.1:80", usize::MAX)?)?;
    Ok(set)
}

// The setting of the second backend by which a line's answer enables or disables it, if it does.
fn setting(alloc: Global, answers: u64) -> Result<Settings, Refusal> {
    let mut settings = Settings::new(alloc);
    if answers == DISABLES || answers == ENABLES {
        let second = Backend::new(alloc, "1.0.0.2:80")?;
        settings.insert((second.addr.clone()?, 1), answers == ENABLES)?;
    }
    Ok(settings)
}

impl<R: Clock> ServiceDiscovery for InTurn<R> {
    fn discover(&self, alloc: Global) -> Result<Discovered, Refusal> {
        let turn = self.turn.fetch_add(1, SeqCst);
        self.line.call(&self.rt);
        let answers = self.line.answers.load(SeqCst);
        let set = match answers {
            FAULT => return Err(Refusal::Discovery),
            HEAVY => heavy(alloc)?,
            GROWN => listed(alloc, MORE)?,
            DISABLES | ENABLES => listed(alloc, FIRST)?,
            _ if turn % 2 == 0 => listed(alloc, FIRST)?,
            _ => listed(alloc, SECOND)?,
        };
        Ok((set, setting(alloc, answers)?))
    }
}

/// Returns whether a backend is the second of what is found in turn.
pub fn is_second(backend: &Backend) -> bool {
    match &backend.addr {
        SocketAddr::Inet(InetAddr::V4([_, 0, 0, 2], 80)) => true,
        _ => false,
    }
}

/// A check that finds the second backend down, but for what its line says.
#[derive(Drop)]
pub struct SecondDown<R> {
    rt: R,
    line: Arc<Line>,
}

impl<R: Clock> HealthCheck for SecondDown<R> {
    ghost threshold = { λ _ _. 1 };

    fn check(&self, _alloc: Global, target: &Backend) -> Result<(), CheckError> {
        self.line.call(&self.rt);
        if is_second(target) && self.line.answers.load(SeqCst) != UP {
            return Err(CheckError::Connect);
        }
        Ok(())
    }

    fn health_threshold(&self, _success: bool) -> usize {
        1
    }
}

/// Returns that check, with this line.
pub fn second_down<R: Abort + Copy>(rt: &R, line: &Arc<Line>) -> SecondDown<R> {
    SecondDown {
        rt: *rt,
        line: Arc::try_clone(line).expect(rt, "refused"),
    }
}

/// The balancer of the tests.
pub type Tested<S, R> = LoadBalancer<S, InTurn<R>, Rule<NoRule>, SecondDown<R>>;

/// The registry that such balancers may share.
pub type TestedRegistry<R> = HealthRegistry<Rule<NoRule>, SecondDown<R>>;

/// A balancer, and the lines to its discovery and to its check, once that is set.
pub struct Bench<S: BackendSelection, R: Drop> {
    pub alloc: Global,
    pub line: Arc<Line>,
    pub checks: Arc<Line>,
    pub balancer: Tested<S, R>,
}

impl<S: BackendSelection, R: Drop> Drop for Bench<S, R> {
    fn drop(self) {
        let Bench {
            alloc: _,
            line: _,
            checks: _,
            balancer: _,
        } = self;
    }
}

impl<S: BackendSelection, R: Abort + Wait + Clock + Copy + Drop> Bench<S, R> {
    /// Returns a balancer over the discovery in turn; nothing is found yet, and both lines are open.
    pub fn new(rt: &R, alloc: Global) -> Bench<S, R> {
        let line = Arc::new(alloc, Line::new()).expect(rt, "refused");
        let backends = Backends::new(rt, alloc, in_turn(rt, &line)).expect(rt, "refused");
        Bench::of(rt, alloc, line, backends)
    }

    /// Returns the same, but in this registry.
    pub fn over(rt: &R, alloc: Global, registry: &Arc<TestedRegistry<R>>) -> Bench<S, R> {
        let line = Arc::new(alloc, Line::new()).expect(rt, "refused");
        let shared = Arc::try_clone(registry).expect(rt, "refused");
        let backends = Backends::new_with_health_registry(rt, alloc, in_turn(rt, &line), shared);
        Bench::of(rt, alloc, line, backends.expect(rt, "refused"))
    }

    // The bench of these backends.
    fn of(
        rt: &R,
        alloc: Global,
        line: Arc<Line>,
        backends: Backends<InTurn<R>, Rule<NoRule>, SecondDown<R>>,
    ) -> Bench<S, R> {
        Bench {
            alloc,
            line,
            checks: Arc::new(alloc, Line::new()).expect(rt, "refused"),
            balancer: LoadBalancer::from_backends(rt, alloc, backends).expect(rt, "refused"),
        }
    }

    /// Sets the check.
    pub fn set_check(&self, rt: &R) {
        self.balancer
            .set_health_check(rt, second_down(rt, &self.checks))
            .expect(rt, "refused");
    }

    /// Updates so many times, by a clock whose first reading is 0.
    pub fn update(&self, rt: &R, times: u64) {
        let mut clock = Ticks { next: 0, step: 5 };
        for _ in 0..times {
            self.balancer
                .update(rt, self.alloc, &mut clock)
                .expect(rt, "refused");
        }
    }

    /// Selects of so many candidates.
    pub fn select(&self, rt: &R, limit: usize) -> Option<Backend> {
        self.balancer
            .select(rt, self.alloc, b"k", limit)
            .expect(rt, "refused")
    }

    /// Notes what is selected of so many candidates.
    pub fn note(&self, rt: &R, limit: usize, text: &mut String) {
        note(rt, text, &self.select(rt, limit));
    }
}

/// Notes a selected backend.
pub fn note<R: Abort>(rt: &R, text: &mut String, found: &Option<Backend>) {
    match found {
        Some(backend) => write!(text, " {backend}").expect(rt, "refused"),
        None => text.push_str(" none").expect(rt, "refused"),
    }
}

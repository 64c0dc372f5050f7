//! A discovery and a check for the tests of slots and of boxes, which go by words that the test sets.
use pingora_load_balancing::discovery::{Discovered, ServiceDiscovery, Settings};
use pingora_load_balancing::health_check::{CheckError, HealthCheck};
use pingora_load_balancing::{Backend, InetAddr, Refusal, SocketAddr};
use std::alloc::Global;
use std::collections::BTreeSet;
use std::process::Abort;
use std::sync::Arc;
use std::sync::atomic::Ordering::SeqCst;
use std::sync::atomic::{AtomicBool, AtomicU64};

/// The word by which a discovery answers its rows in turn.
pub const ROWS: u64 = 0;

/// The word by which it answers its first row, and disables the second backend of it.
pub const DISABLES: u64 = 1;

/// The word by which it answers its first row, and enables the second backend of it.
pub const ENABLES: u64 = 2;

/// What a discovery answers; whether the second backend is down, how many checks there were, and what was reported: 1 for each time that
/// it came to be down, 10 for each other report.
#[derive(Drop)]
pub struct Words {
    pub answers: AtomicU64,
    pub is_down: AtomicBool,
    pub checks: AtomicU64,
    pub told: AtomicU64,
}

/// Returns words of rows, with a second backend that is down or up, of which nothing was reported.
pub fn new_words<W: Abort>(rt: &W, alloc: Global, is_down: bool) -> Arc<Words> {
    let words = Words {
        answers: AtomicU64::new(ROWS),
        is_down: AtomicBool::new(is_down),
        checks: AtomicU64::new(0),
        told: AtomicU64::new(0),
    };
    Arc::new(alloc, words).expect(rt, "refused")
}

/// The backends of the first row.
pub const FIRST: &[&str] = &["1.0.0.1:80", "1.0.0.2:80", "1.0.0.3:80"];

const SECOND: &[&str] = &["2.0.0.1:80", "2.0.0.2:80", "2.0.0.3:80"];

/// Returns backends of weight 1 at these addresses.
pub fn listed(alloc: Global, texts: &[&str]) -> Result<BTreeSet<Backend>, Refusal> {
    let mut set = BTreeSet::new(alloc);
    for text in texts {
        set.insert(Backend::new(alloc, *text)?)?;
    }
    Ok(set)
}

/// A discovery that answers two rows of backends in turn, or what its words say.
#[derive(Drop)]
pub struct InTurn {
    pub words: Arc<Words>,
    pub turn: AtomicU64,
}

impl ServiceDiscovery for InTurn {
    fn discover(&self, alloc: Global) -> Result<Discovered, Refusal> {
        let turn = self.turn.fetch_add(1, SeqCst);
        let answers = self.words.answers.load(SeqCst);
        let mut settings = Settings::new(alloc);
        if answers == ROWS {
            let row = if turn % 2 == 0 { FIRST } else { SECOND };
            return Ok((listed(alloc, row)?, settings));
        }
        let second = SocketAddr::Inet(InetAddr::V4([1, 0, 0, 2], 80));
        settings.insert((second, 1), answers == ENABLES)?;
        Ok((listed(alloc, FIRST)?, settings))
    }
}

/// A check that finds the second backend down where its words say so, and counts there.
#[derive(Drop)]
pub struct Reports {
    pub words: Arc<Words>,
}

// Whether a backend is the second of its row.
fn is_second(backend: &Backend) -> bool {
    matches!(
        &backend.addr,
        SocketAddr::Inet(InetAddr::V4([_, 0, 0, 2], 80))
    )
}

impl HealthCheck for Reports {
    ghost threshold = { λ _ _. 1 };

    fn check(&self, _alloc: Global, target: &Backend) -> Result<(), CheckError> {
        self.words.checks.fetch_add(1, SeqCst);
        if is_second(target) && self.words.is_down.load(SeqCst) {
            return Err(CheckError::Connect);
        }
        Ok(())
    }

    fn health_status_change(&self, target: &Backend, healthy: bool) {
        let is_down = is_second(target) && !healthy;
        self.words
            .told
            .fetch_add(if is_down { 1 } else { 10 }, SeqCst);
    }

    fn health_threshold(&self, _success: bool) -> usize {
        1
    }
}

/// Returns that check, with these words.
pub fn new_check<W: Abort>(rt: &W, words: &Arc<Words>) -> Reports {
    Reports {
        words: Arc::try_clone(words).expect(rt, "refused"),
    }
}

/// Notes a selected backend.
pub fn note<W: Abort>(rt: &W, text: &mut String, found: &Option<Backend>) {
    match found {
        Some(backend) => write!(text, " {backend}").expect(rt, "refused"),
        None => text.push_str(" none").expect(rt, "refused"),
    }
}

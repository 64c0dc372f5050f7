//! A balancer, by the types' defaults alone: its discovery and its check are a caller's, each in a box.
use crate::balancer::fixtures::{is_second, listed, note};
use crate::service_fixtures::Ticks;
use lb_background::shutdown::shutdown_pair;
use lb_balancer::load_balancer::LoadBalancer;
use lb_health_core::error::CheckError;
use lb_health_core::health_check::{BoxedCheck, HealthCheck};
use lb_health_view::discovery::{BoxedDiscovery, Discovered, DiscoverySource, ServiceDiscovery};
use lb_health_view::view::Settings;
use lb_select::selection::RoundRobin;
use lb_select_base::backend::{Backend, InetAddr, SocketAddr};
use lb_select_base::refusal::Refusal;
use lb_threads_core::backends::Backends;
use log::Log;
use std::alloc::Global;
use std::process::Abort;
use std::sync::atomic::Ordering::SeqCst;
use std::sync::atomic::{AtomicBool, AtomicU64};
use std::sync::{Arc, Wait};
use std::thread::Threads;

// Finds three backends, and disables the third.
#[derive(Drop)]
struct TwoOfThree {}

impl ServiceDiscovery for TwoOfThree {
    fn discover(&self, alloc: Global) -> Result<Discovered, Refusal> {
        let set = listed(alloc, &["1.0.0.1:80", "1.0.0.2:80", "1.0.0.3:80"])?;
        let mut settings = Settings::new(alloc);
        let third = SocketAddr::Inet(InetAddr::V4([1, 0, 0, 3], 80));
        settings.insert((third, 1), false)?;
        Ok((set, settings))
    }
}

// Whether the second backend is down, and what was reported: 1 for each time that it came to be down, 10 for each other report.
#[derive(Drop)]
struct Words {
    is_down: AtomicBool,
    told: AtomicU64,
}

// A check that reads and tells them.
#[derive(Drop)]
struct Reports {
    words: Arc<Words>,
}

impl HealthCheck for Reports {
    ghost threshold = { λ _ _. 1 };

    fn check(&self, _alloc: Global, target: &Backend) -> Result<(), CheckError> {
        if is_second(target) && self.words.is_down.load(SeqCst) {
            return Err(CheckError::Connect);
        }
        Ok(())
    }

    fn health_status_change(&self, target: &Backend, healthy: bool) {
        let is_down = is_second(target) && !healthy;
        self.words
            .told
            .fetch_add(if is_down { 1 } else { 10 }, SeqCst);
    }

    fn health_threshold(&self, _success: bool) -> usize {
        1
    }
}

// Words of a second backend that is up, of which nothing was reported.
fn new_words<W: Abort>(rt: &W, alloc: Global) -> Arc<Words> {
    let words = Words {
        is_down: AtomicBool::new(false),
        told: AtomicU64::new(0),
    };
    Arc::new(alloc, words).expect(rt, "refused")
}

// Notes three selections.
fn turns<W: Abort + Wait>(
    rt: &W,
    alloc: Global,
    balancer: &LoadBalancer<RoundRobin>,
    text: &mut String,
) {
    for _ in 0..3 {
        let found = balancer.select(rt, alloc, b"k", 9).expect(rt, "refused");
        note(rt, text, &found);
    }
}

// Notes selections after an update, after a pass that finds the second backend down, after one in threads that finds it up, and after a run
// of one update and one pass that finds it down again.
fn served<W: Abort + Log + Threads + Wait + Sync>(
    rt: &W,
    alloc: Global,
    balancer: &LoadBalancer<RoundRobin>,
    words: &Words,
    text: &mut String,
) {
    let mut clock = Ticks { next: 0, step: 5 };
    balancer.update(rt, alloc, &mut clock).expect(rt, "refused");
    turns(rt, alloc, balancer, text);
    for (is_down, parallel) in &[(true, false), (false, true)] {
        words.is_down.store(*is_down, SeqCst);
        balancer
            .run_health_check(rt, alloc, *parallel)
            .expect(rt, "refused");
        turns(rt, alloc, balancer, text);
    }
    words.is_down.store(true, SeqCst);
    let (_signal, watch) = shutdown_pair(alloc).expect(rt, "refused");
    balancer.run(rt, alloc, &mut clock, &watch, None);
    turns(rt, alloc, balancer, text);
}

// A balancer selects in turn what its discovery found, but for what that disables and what its check finds down.
#[test]
fn boxes_of_a_balancer(rt: HostRuntime) {
    let alloc = rt.alloc();
    let words = new_words(&rt, alloc);
    let check = Reports {
        words: Arc::try_clone(&words).expect(&rt, "refused"),
    };
    let check: BoxedCheck = Box::new(alloc, check).expect(&rt, "refused");
    let found: BoxedDiscovery = Box::new(alloc, TwoOfThree {}).expect(&rt, "refused");
    let backends = Backends::new(&rt, alloc, DiscoverySource::Boxed(found));
    let backends: Backends = backends.expect(&rt, "refused");
    let balancer = LoadBalancer::from_backends(&rt, alloc, backends);
    let mut balancer: LoadBalancer<RoundRobin> = balancer.expect(&rt, "refused");
    balancer.parallel_health_check = true;
    balancer.set_health_check(&rt, check).expect(&rt, "refused");
    let mut text = String::new(alloc);
    served(&rt, alloc, &balancer, &words, &mut text);
    let wanted = " 1.0.0.1:80/1 1.0.0.2:80/1 1.0.0.1:80/1 1.0.0.1:80/1 1.0.0.1:80/1 1.0.0.1:80/1\
        \x201.0.0.2:80/1 1.0.0.1:80/1 1.0.0.2:80/1 1.0.0.1:80/1 1.0.0.1:80/1 1.0.0.1:80/1";
    assert_eq!(rt; (text.as_str(), words.told.load(SeqCst)), (wanted, 12));
}

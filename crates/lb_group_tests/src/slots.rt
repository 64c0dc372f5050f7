//! A group of two slots of two kinds, whose turns the test takes, and then workers: what each slot selects, by loads, by the flags of its
//! discovery and of its caller, and by a pass of checks; and that it leaves while its registry is held.
use crate::fixtures::{
    DISABLES, ENABLES, InTurn, ROWS, Reports, Words, new_check, new_words, note,
};
use lb_crowd::calls::AskedHandle;
use lb_crowd::crowd::ends;
use lb_crowd::handle_asks;
use lb_crowd::turns::{Still, turn};
use lb_threads_core::registry::{put_registry, take_registry};
use log::Log;
use pingora_load_balancing::background::RuntimeClock;
use pingora_load_balancing::discovery::{DiscoverySource, ServiceDiscovery};
use pingora_load_balancing::health_check::{KeyRule, NoRule, Rule};
use pingora_load_balancing::selection::{BackendSelection, Chosen, Kind};
use pingora_load_balancing::{Backend, Backends, HealthRegistry, LoadBalancerGroup};
use std::alloc::Global;
use std::process::Abort;
use std::sync::atomic::AtomicU64;
use std::sync::atomic::Ordering::SeqCst;
use std::sync::{Arc, Wait};
use std::thread;
use std::thread::Threads;
use std::time::{Clock, Duration};

// A group whose first slot goes by loads, and whose second one is a ring.
type Group = LoadBalancerGroup<Chosen, InTurn, Rule<NoRule>, Reports>;

type Registry = HealthRegistry<Rule<NoRule>, Reports>;

// The group, and the words to its discovery and to its check, by which the second backend is down.
#[derive(Drop)]
struct Bench<G> {
    alloc: Global,
    words: Arc<Words>,
    group: G,
}

impl Bench<Group> {
    // With a view in this registry, before its first update.
    fn new<W: Abort + Wait>(rt: &W, alloc: Global, registry: &Arc<Registry>) -> Bench<Group> {
        let words = new_words(rt, alloc, true);
        let found = DiscoverySource::Boxed(InTurn {
            words: Arc::try_clone(&words).expect(rt, "refused"),
            turn: AtomicU64::new(0),
        });
        let shared = Arc::try_clone(registry).expect(rt, "refused");
        let backends = Backends::new_with_health_registry(rt, alloc, found, shared);
        let backends = backends.expect(rt, "refused");
        let mut configs = Vec::new(alloc);
        for kind in &[Kind::Least, Kind::Ketama] {
            configs.push(Some(*kind)).expect(rt, "refused");
        }
        let group = LoadBalancerGroup::from_backends_with_configs(rt, alloc, backends, configs);
        Bench {
            alloc,
            words,
            group: group.expect(rt, "refused"),
        }
    }
}

// What needs the group itself.
#[derive(Clone, Copy)]
enum Deed {
    // Takes a turn for a slot.
    Turn(usize),
    // Sets the check, and makes a pass.
    Check,
    // Starts the workers.
    StartWorkers,
}

impl<G: AskedHandle> Bench<G> {
    // The backend of weight 1 at an address.
    fn at<W: Abort>(&self, rt: &W, address: &str) -> Backend {
        Backend::new(self.alloc, address).expect(rt, "refused")
    }

    // Notes what each slot selects, by a key whose first four points on the ring aren't all the second backend's.
    fn note<W: Abort + Wait>(&self, rt: &W, text: &mut String) {
        for slot in 0..2 {
            let found = handle_asks::select(rt, self.alloc, &self.group, slot, b"h");
            note(rt, text, &found.expect(rt, "refused"));
        }
        text.push('\n').expect(rt, "refused");
    }

    // Updates where the discovery answers this, rebuilds both slots, and notes what each selects. A slot's second turn destroys what its
    // first one retired.
    fn update<W: Abort + Wait, F: Fn(Deed) -> usize>(
        &self,
        rt: &W,
        does: &F,
        answers: u64,
        text: &mut String,
    )
        requires { F.IsAlwaysCallable does.now }
    {
        self.words.answers.store(answers, SeqCst);
        let updated = handle_asks::update(rt, self.alloc, &self.group, &mut Still {});
        updated.expect(rt, "refused");
        for slot in &[0, 0, 1, 1] {
            does(Deed::Turn(*slot));
        }
        self.note(rt, text);
    }

    // Enables or disables the second backend, and notes what each slot selects.
    fn enable<W: Abort + Wait>(&self, rt: &W, enabled: bool, text: &mut String) {
        let second = self.at(rt, "1.0.0.2:80");
        handle_asks::set_enable(rt, self.alloc, &self.group, &second, enabled);
        self.note(rt, text);
    }
}

// Sets the load of the backend at this address; what each slot selects then.
fn load<G: AskedHandle, W: Abort + Wait>(
    rt: &W,
    bench: &Bench<G>,
    address: &str,
    load: u64,
    text: &mut String,
) {
    let backend = bench.at(rt, address);
    handle_asks::set_load(rt, bench.alloc, &bench.group, &backend, load).expect(rt, "refused");
    bench.note(rt, text);
}

// Loads before the first rebuild, after it, and after rebuilds to a membership without their backends and back.
fn loads<G: AskedHandle, W: Abort + Wait, F: Fn(Deed) -> usize>(
    rt: &W,
    bench: &Bench<G>,
    does: &F,
    text: &mut String,
)
    requires { F.IsAlwaysCallable does.now }
{
    load(rt, bench, "1.0.0.1:80", 7, text);
    bench.update(rt, does, ROWS, text);
    load(rt, bench, "1.0.0.2:80", 9, text);
    bench.update(rt, does, ROWS, text);
    bench.update(rt, does, ROWS, text);
    load(rt, bench, "1.0.0.2:80", 0, text);
}

// Updates, and waits until workers have rebuilt both slots, for ten seconds at most; what each selects then.
fn rebuilt<G: AskedHandle, W: Abort + Wait + Clock + Copy>(
    rt: &W,
    bench: &Bench<G>,
    text: &mut String,
) {
    bench.words.answers.store(ROWS, SeqCst);
    let mut clock = RuntimeClock::new(*rt);
    let updated = handle_asks::update(rt, bench.alloc, &bench.group, &mut clock);
    let newest = updated.expect(rt, "refused");
    for _ in 0..1000 {
        if handle_asks::are_ready_for(rt, bench.alloc, &bench.group, newest) {
            break;
        }
        thread::sleep(rt, Duration::from_millis(10));
    }
    bench.note(rt, text);
}

// Loads that are set while workers run count at once, and still after the workers rebuilt to a membership without their backends and back.
fn loads_beside_workers<G: AskedHandle, W: Abort + Wait + Clock + Copy>(
    rt: &W,
    bench: &Bench<G>,
    text: &mut String,
) {
    for (address, number) in &[("1.0.0.1:80", 9), ("1.0.0.2:80", 8), ("1.0.0.3:80", 7)] {
        load(rt, bench, *address, *number, text);
    }
    rebuilt(rt, bench, text);
    rebuilt(rt, bench, text);
}

// The second backend is disabled by the discovery and enabled by it, and disabled by a caller; a pass of checks finds it down, and then the
// caller enables it.
fn flags<G: AskedHandle, W: Abort + Wait, F: Fn(Deed) -> usize>(
    rt: &W,
    bench: &Bench<G>,
    does: &F,
    text: &mut String,
)
    requires { F.IsAlwaysCallable does.now }
{
    bench.update(rt, does, DISABLES, text);
    bench.update(rt, does, ENABLES, text);
    bench.enable(rt, false, text);
    does(Deed::Check);
    write!(text, "{}", bench.words.checks.load(SeqCst)).expect(rt, "refused");
    bench.enable(rt, true, text);
}

// All that is done with the group. `does` does what needs the group itself.
fn play<G: AskedHandle, W: Abort + Wait + Clock + Copy, F: Fn(Deed) -> usize>(
    rt: &W,
    bench: &Bench<G>,
    does: &F,
    text: &mut String,
)
    requires { F.IsAlwaysCallable does.now }
{
    loads(rt, bench, does, text);
    flags(rt, bench, does, text);
    write!(text, "{}", does(Deed::StartWorkers)).expect(rt, "refused");
    loads_beside_workers(rt, bench, text);
}

// Does what needs the group itself; how many workers couldn't be started.
fn act<
    S: BackendSelection + Send + Sync + 'static,
    D: ServiceDiscovery + Drop,
    R: KeyRule + Drop + Send + Sync + 'static,
    W: Abort + Log + Threads + Wait + Clock + Copy + Send + Sync + 'static,
>(rt: &W, bench: &Bench<LoadBalancerGroup<S, D, R, Reports>>, deed: Deed) -> usize
where
    S::Config: Send + Sync + 'static,
    S::Walk: Send + Sync + 'static,
{
    let (alloc, group) = (bench.alloc, &bench.group);
    match deed {
        Deed::Turn(slot) => {
            turn(rt, alloc, &**group.shared(), slot).expect(rt, "refused");
            0
        }
        Deed::Check => {
            group
                .set_health_check(rt, new_check(rt, &bench.words))
                .expect(rt, "refused");
            group.run_health_check(rt, alloc).expect(rt, "refused");
            0
        }
        Deed::StartWorkers => group.start_workers(rt, alloc, RuntimeClock::new(*rt)),
    }
}

// Notes what the group selects, whatever is done with it.
fn played<W: Abort + Log + Threads + Wait + Clock + Copy + Send + Sync + 'static>(
    rt: &W,
    bench: &Bench<Group>,
    text: &mut String,
) {
    let does = |deed: Deed| act(rt, bench, deed);
    play(rt, bench, &does, text);
}

// Drops the group while its registry is out of its lock; how many targets there are before and after.
fn leaves<G: Drop, W: Abort + Wait>(
    rt: &W,
    bench: Bench<G>,
    registry: &Registry,
    text: &mut String,
) {
    let alloc = bench.alloc;
    let before = registry.target_count(rt, alloc).expect(rt, "refused");
    let held = take_registry(registry, rt);
    drop(bench);
    put_registry(registry, held);
    let after = registry.target_count(rt, alloc).expect(rt, "refused");
    write!(text, "{before} {after}").expect(rt, "refused");
}

// What the group selects, and what it leaves: its targets, and whether its workers end.
fn told<W: Abort + Log + Threads + Wait + Clock + Copy + Send + Sync + 'static>(
    rt: &W,
    alloc: Global,
    registry: &Arc<Registry>,
) -> String {
    let mut text = String::new(alloc);
    let bench = Bench::new(rt, alloc, registry);
    played(rt, &bench, &mut text);
    let shared = Arc::try_clone(bench.group.shared()).expect(rt, "refused");
    leaves(rt, bench, &**registry, &mut text);
    write!(text, " {}", ends(rt, &*shared, 1000)).expect(rt, "refused");
    text
}

// Each slot goes by its own kind: by loads, which outlive rebuilds to a membership without their backends, or by the ring's points. Both
// avoid what the discovery, a caller or a check puts out; each backend is checked once for both. So do slots that workers rebuild.
#[test]
fn slots_of_two_kinds(rt: HostRuntime) {
    let registry = HealthRegistry::new(rt.alloc()).expect(&rt, "refused");
    let registry = Arc::new(rt.alloc(), registry).expect(&rt, "refused");
    let text = told(&rt, rt.alloc(), &registry);
    let wanted = " none none\n \
        1.0.0.2:80/1 1.0.0.2:80/1\n \
        1.0.0.3:80/1 1.0.0.2:80/1\n \
        2.0.0.1:80/1 2.0.0.1:80/1\n \
        1.0.0.3:80/1 1.0.0.2:80/1\n \
        1.0.0.2:80/1 1.0.0.2:80/1\n \
        1.0.0.3:80/1 1.0.0.1:80/1\n \
        1.0.0.2:80/1 1.0.0.2:80/1\n \
        1.0.0.3:80/1 1.0.0.1:80/1\n\
        3 1.0.0.3:80/1 1.0.0.1:80/1\n\
        0 1.0.0.3:80/1 1.0.0.1:80/1\n \
        1.0.0.3:80/1 1.0.0.1:80/1\n \
        1.0.0.3:80/1 1.0.0.1:80/1\n \
        2.0.0.1:80/1 2.0.0.1:80/1\n \
        1.0.0.3:80/1 1.0.0.2:80/1\n\
        3 0 true";
    assert_eq!(rt; text.as_str(), wanted);
}

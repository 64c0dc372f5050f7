//! Views that share a registry: whose health they share, whose flags they don't, what an update passes to its caller, and how they leave.
use crate::asserted::assert_same;
use lb_health_core::error::CheckError;
use lb_health_core::health_check::HealthCheck;
use lb_health_core::keys::Rule;
use lb_health_view::discovery::{Discovered, DiscoverySource, ServiceDiscovery};
use lb_health_view::view::Settings;
use lb_select_base::backend::{Backend, InetAddr, SocketAddr};
use lb_select_base::refusal::Refusal;
use lb_threads_core::backends::{BackendView, Backends};
use lb_threads_core::keyed::NoRule;
use lb_threads_core::registry::{HealthRegistry, put_registry, take_registry};
use log::Log;
use std::alloc::Global;
use std::collections::BTreeSet;
use std::process::Abort;
use std::sync::atomic::Ordering::SeqCst;
use std::sync::atomic::{AtomicBool, AtomicUsize};
use std::sync::{Arc, Wait};
use std::thread;
use std::thread::Threads;
use std::time::{Clock, Duration};

// The backends that a discovery may find.
const ADDRESSES: [&str; 3] = ["1.0.0.1:80", "1.0.0.2:80", "1.0.0.3:80"];

// Which of them it finds, a bit for each, and whether it disables the first one; it leaves other flags alone.
#[derive(Drop)]
struct Found {
    members: AtomicUsize,
    disables: AtomicBool,
}

// Finds backends of this weight.
#[derive(Drop)]
struct Finds {
    found: Arc<Found>,
    weight: usize,
}

// Those of these members, at this weight.
fn listed(alloc: Global, members: usize, weight: usize) -> Result<BTreeSet<Backend>, Refusal> {
    let mut set = BTreeSet::new(alloc);
    for (place, address) in ADDRESSES.iter().enumerate() {
        if members & (1 << place) != 0 {
            set.insert(Backend::new_with_weight(alloc, *address, weight)?)?;
        }
    }
    Ok(set)
}

impl ServiceDiscovery for Finds {
    fn discover(&self, alloc: Global) -> Result<Discovered, Refusal> {
        let set = listed(alloc, self.found.members.load(SeqCst), self.weight)?;
        let mut settings = Settings::new(alloc);
        if self.found.disables.load(SeqCst) {
            let first = SocketAddr::Inet(InetAddr::V4([1, 0, 0, 1], 80));
            settings.insert((first, self.weight), false)?;
        }
        Ok((set, settings))
    }
}

// Counts its checks, and finds the first address down.
#[derive(Drop)]
struct FirstDown {
    checks: Arc<AtomicUsize>,
}

impl HealthCheck for FirstDown {
    ghost threshold = { λ _ _. 1 };

    fn check(&self, _alloc: Global, target: &Backend) -> Result<(), CheckError> {
        self.checks.fetch_add(1, SeqCst);
        match &target.addr {
            SocketAddr::Inet(InetAddr::V4([1, 0, 0, 1], _)) => Err(CheckError::Connect),
            _ => Ok(()),
        }
    }

    fn health_threshold(&self, _success: bool) -> usize {
        1
    }
}

type Registry = HealthRegistry<Rule<NoRule>, FirstDown>;

type View = BackendView<Finds, Rule<NoRule>, FirstDown>;

// A registry with its check, whose calls are counted.
struct Shared {
    checks: Arc<AtomicUsize>,
    registry: Arc<Registry>,
}

impl Drop for Shared {
    fn drop(self) {
        let Shared {
            checks: _,
            registry: _,
        } = self;
    }
}

impl Shared {
    // By address, backends of two weights have one cell; else they have two.
    fn new<W: Abort + Wait>(rt: &W, alloc: Global, is_by_address: bool) -> Arc<Shared> {
        let checks = Arc::new(alloc, AtomicUsize::new(0)).expect(rt, "refused");
        let check = FirstDown {
            checks: Arc::try_clone(&checks).expect(rt, "refused"),
        };
        let registry = if is_by_address {
            HealthRegistry::by_address(alloc)
        } else {
            HealthRegistry::new(alloc)
        };
        let registry = Arc::new(alloc, registry.expect(rt, "refused")).expect(rt, "refused");
        registry.set_health_check(rt, check).expect(rt, "refused");
        Arc::new(alloc, Shared { checks, registry }).expect(rt, "refused")
    }
}

// What is done with a view.
#[derive(Clone, Copy)]
enum Call {
    // It is updated to these members.
    Update(usize),
    // From now on its discovery disables the first backend, or leaves its flag alone.
    Disables(bool),
    // It makes a pass of checks, for all views of its registry.
    Check,
    // It disables the second backend.
    Disable,
}

// A view in a registry, and what its discovery finds.
struct Bench {
    alloc: Global,
    weight: usize,
    found: Arc<Found>,
    shared: Arc<Shared>,
    view: View,
}

impl Drop for Bench {
    fn drop(self) {
        let Bench {
            alloc: _,
            weight: _,
            found: _,
            shared: _,
            view: _,
        } = self;
    }
}

impl Bench {
    // A view of no members in this registry, whose discovery finds backends of this weight.
    fn new<W: Abort + Wait>(rt: &W, alloc: Global, shared: &Arc<Shared>, weight: usize) -> Bench {
        let found = Found {
            members: AtomicUsize::new(0),
            disables: AtomicBool::new(false),
        };
        let found = Arc::new(alloc, found).expect(rt, "refused");
        let finds = DiscoverySource::Boxed(Finds {
            found: Arc::try_clone(&found).expect(rt, "refused"),
            weight,
        });
        let shared = Arc::try_clone(shared).expect(rt, "refused");
        let registry = Arc::try_clone(&shared.registry).expect(rt, "refused");
        let view = Backends::new_with_health_registry(rt, alloc, finds, registry);
        Bench {
            alloc,
            weight,
            found,
            shared,
            view: view.expect(rt, "refused"),
        }
    }

    // Updates to these members, and notes how many the caller's function borrowed, where it ran.
    fn update<W: Abort + Wait>(&self, rt: &W, members: usize, text: &mut String) {
        self.found.members.store(members, SeqCst);
        let told = self.view.update(rt, self.alloc, |set| set.len());
        match told.expect(rt, "refused") {
            Some(count) => write!(text, " told {count}").expect(rt, "refused"),
            None => text.push_str(" same").expect(rt, "refused"),
        }
    }

    // The backend of this place.
    fn backend<W: Abort>(&self, rt: &W, place: usize) -> Backend {
        let address = ADDRESSES[place % 3];
        Backend::new_with_weight(self.alloc, address, self.weight).expect(rt, "refused")
    }

    // Notes how many targets the registry has and how many checks there were, and which backends are ready.
    fn note<W: Abort + Wait>(&self, rt: &W, text: &mut String) {
        let targets = self.shared.registry.target_count(rt, self.alloc);
        let targets = targets.expect(rt, "refused");
        write!(text, " {targets}/{}", self.shared.checks.load(SeqCst)).expect(rt, "refused");
        for place in 0..3 {
            let is_ready = self.view.ready(rt, &self.backend(rt, place));
            let mark = if is_ready { " yes" } else { " no" };
            text.push_str(mark).expect(rt, "refused");
        }
    }

    // Does this, and notes what an update tells.
    fn call<W: Abort + Log + Threads + Wait + Sync>(&self, rt: &W, call: Call, text: &mut String) {
        match call {
            Call::Update(members) => self.update(rt, members, text),
            Call::Disables(disables) => self.found.disables.store(disables, SeqCst),
            Call::Check => self
                .view
                .run_health_check(rt, self.alloc, false)
                .expect(rt, "refused"),
            Call::Disable => self.view.set_enable(rt, &self.backend(rt, 1), false),
        }
    }
}

// Where the second of two views is.
#[derive(Clone, Copy)]
enum Second {
    // In the registry of the first one.
    Beside,
    // In that registry, by address, with backends of weight 2.
    Heavier,
    // In a registry of its own.
    Apart,
}

// Two views.
struct Pair {
    first: Bench,
    second: Bench,
}

impl Drop for Pair {
    fn drop(self) {
        let Pair {
            first: _,
            second: _,
        } = self;
    }
}

impl Pair {
    // Before their first updates.
    fn new<W: Abort + Wait>(rt: &W, alloc: Global, second: Second) -> Pair {
        let (is_by_address, weight) = match second {
            Second::Heavier => (true, 2),
            Second::Beside | Second::Apart => (false, 1),
        };
        let shared = Shared::new(rt, alloc, is_by_address);
        let other = match second {
            Second::Apart => Shared::new(rt, alloc, false),
            Second::Beside | Second::Heavier => Arc::try_clone(&shared).expect(rt, "refused"),
        };
        Pair {
            first: Bench::new(rt, alloc, &shared, 1),
            second: Bench::new(rt, alloc, &other, weight),
        }
    }
}

// What is done with two views.
#[derive(Clone, Copy)]
enum Step {
    First(Call),
    Second(Call),
    // What is seen of each is noted.
    Note,
}

// A case: where the second view is, what is done, and what is noted.
struct Row {
    name: &'static str,
    second: Second,
    steps: &'static [Step],
    wanted: &'static str,
}

const ROWS: &[Row] = &[
    // Each view judges its own members by the checks of all. As its members go, so do the targets.
    Row {
        name: "shared checks",
        second: Second::Beside,
        steps: &[
            Step::First(Call::Update(0b011)),
            Step::Second(Call::Update(0b101)),
            Step::First(Call::Check),
            Step::Note,
            Step::First(Call::Update(0)),
            Step::First(Call::Check),
            Step::Note,
            Step::Second(Call::Update(0)),
            Step::First(Call::Check),
            Step::Note,
        ],
        wanted: " told 2 told 2 3/3 no yes no 3/3 no no yes\
            \x20told 0 2/5 no no no 2/5 no no yes told 0 0/5 no no no 0/5 no no no",
    },
    // By address, backends of two weights have one cell and one check; the flag of one view doesn't touch the other.
    Row {
        name: "shared addresses",
        second: Second::Heavier,
        steps: &[
            Step::First(Call::Update(0b010)),
            Step::Second(Call::Update(0b010)),
            Step::Second(Call::Check),
            Step::Note,
            Step::First(Call::Disable),
            Step::Note,
        ],
        wanted: " told 1 told 1 1/1 no yes no 1/1 no yes no 1/1 no no no 1/1 no yes no",
    },
    // A discovery's settings touch the flags of its own view alone. A flag stays where a later discovery omits the backend.
    Row {
        name: "flags",
        second: Second::Beside,
        steps: &[
            Step::First(Call::Disables(true)),
            Step::First(Call::Update(0b001)),
            Step::Second(Call::Update(0b001)),
            Step::Note,
            Step::First(Call::Disables(false)),
            Step::First(Call::Update(0b011)),
            Step::Note,
        ],
        wanted: " told 1 told 1 1/0 no no no 1/0 yes no no told 2 2/0 no yes no 2/0 yes no no",
    },
    // A pass over one registry checks no target of another, and what it finds down is ready there.
    Row {
        name: "registries apart",
        second: Second::Apart,
        steps: &[
            Step::First(Call::Update(0b001)),
            Step::Second(Call::Update(0b001)),
            Step::First(Call::Check),
            Step::Note,
        ],
        wanted: " told 1 told 1 1/1 no no no 1/0 yes no no",
    },
    // A caller's function runs once for another membership and never for the same one; the members of an old one are ready no longer.
    Row {
        name: "changes are told",
        second: Second::Apart,
        steps: &[
            Step::First(Call::Update(0)),
            Step::First(Call::Update(0b011)),
            Step::First(Call::Update(0b011)),
            Step::Note,
            Step::First(Call::Update(0b100)),
            Step::Note,
        ],
        wanted: " same told 2 same 2/0 yes yes no 0/0 no no no told 1 1/0 no no yes 0/0 no no no",
    },
];

// Does these steps. Returns what was noted.
fn noted<W: Abort + Log + Threads + Wait + Sync>(
    rt: &W,
    alloc: Global,
    pair: &Pair,
    steps: &[Step],
) -> String {
    let mut text = String::new(alloc);
    for step in steps {
        match step {
            Step::First(call) => pair.first.call(rt, *call, &mut text),
            Step::Second(call) => pair.second.call(rt, *call, &mut text),
            Step::Note => {
                pair.first.note(rt, &mut text);
                pair.second.note(rt, &mut text);
            }
        }
    }
    text
}

// Views over one registry share its cells and its checks, and nothing else.
#[test]
fn views_of_one_registry(rt: HostRuntime) {
    for row in ROWS {
        let pair = Pair::new(&rt, rt.alloc(), row.second);
        let text = noted(&rt, rt.alloc(), &pair, row.steps);
        assert_same(&rt, &text.as_str(), &row.wanted, &row.name);
    }
}

// An old membership stays readable beside the new one, and its members are ready no longer.
fn keep<W: Abort + Wait>(rt: &W, bench: &Bench, text: &mut String) {
    bench.update(rt, 0b011, text);
    let old = bench.view.get_backend(rt).expect(rt, "refused");
    bench.update(rt, 0b100, text);
    let new = bench.view.get_backend(rt).expect(rt, "refused");
    bench.note(rt, text);
    let (old, new) = (old.len(), new.len());
    let generation = bench.view.generation(rt);
    write!(text, " old {old} new {new} generation {generation}").expect(rt, "refused");
}

// A view is dropped while its registry is out of its lock. The registry's next call removes it, and releases its cells.
fn leave<W: Abort + Wait>(rt: &W, leaves: Bench, stays: &Bench, text: &mut String) {
    let registry = &stays.shared.registry;
    leaves.update(rt, 0b011, text);
    stays.update(rt, 0b001, text);
    stays.note(rt, text);
    let was_kept = registry.cell_ready(rt, 1);
    let held = take_registry(registry, rt);
    drop(leaves);
    put_registry(registry, held);
    stays.note(rt, text);
    let is_kept = registry.cell_ready(rt, 1);
    write!(text, " kept {was_kept} {is_kept}").expect(rt, "refused");
}

// Waits until the flag is set, for ten seconds at most. Returns whether it is.
fn waited<W: Clock>(rt: &W, flag: &AtomicBool) -> bool {
    for _ in 0..5000 {
        if flag.load(SeqCst) {
            return true;
        }
        thread::sleep(rt, Duration::from_millis(2));
    }
    false
}

// What a thread does: one updates, and its function waits for the other, which disables a new member meanwhile.
fn part<W: Abort + Wait + Clock>(
    rt: &W,
    bench: &Bench,
    words: &[AtomicBool; 2],
    thread: usize,
) -> bool {
    if thread == 0 {
        let told = bench.view.update(rt, bench.alloc, |_| {
            words[0].store(true, SeqCst);
            waited(rt, &words[1])
        });
        return told.expect(rt, "refused") == Some(true);
    }
    let came = waited(rt, &words[0]);
    bench.view.set_enable(rt, &bench.backend(rt, 1), false);
    words[1].store(true, SeqCst);
    came
}

// While a caller's function runs, other threads use the view, and what they set stays.
fn go_on<W: Abort + Threads + Wait + Clock + Sync>(rt: &W, bench: &Bench, text: &mut String) {
    bench.found.members.store(0b110, SeqCst);
    let words = [AtomicBool::new(false), AtomicBool::new(false)];
    let parts = thread::map_indices(
        rt,
        bench.alloc,
        2,
        &|thread| { part(rt, bench, &words, thread) },
    );
    let is_good = parts.expect(rt, "refused").as_slice() == [true; 2].as_slice();
    write!(text, " good {is_good}").expect(rt, "refused");
    bench.note(rt, text);
}

// What a view does beside another one of its registry, that no case above shows.
#[test]
fn views_beside_a_view(rt: HostRuntime) {
    let alloc = rt.alloc();
    let mut text = String::new(alloc);
    let shared = Shared::new(&rt, alloc, false);
    let bench = Bench::new(&rt, alloc, &shared, 1);
    leave(&rt, Bench::new(&rt, alloc, &shared, 1), &bench, &mut text);
    keep(&rt, &bench, &mut text);
    go_on(&rt, &bench, &mut text);
    let wanted = " told 2 told 1 2/0 yes no no 1/0 yes no no kept true false\
        \x20told 2 told 1 1/0 no no yes old 2 new 1 generation 3 good true 2/0 no no yes";
    assert_eq!(rt; text.as_str(), wanted);
}

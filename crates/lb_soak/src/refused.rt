//! Calls of shared types in which memory may be refused: `refused`. A call that was refused for it has to leave all that can be read as it
//! was, and is made again. Each call has to answer what its row says, whether it was made again or not.
use crate::refused_passes::passes;
use crate::refused_subjects::{Alone, Balancer, Calls, Group, Made, View, Way};
use anyhow::Error;
use lb_balancer_core::timings::UpdateTimings;
use lb_health_view::discovery::{Discovered, ServiceDiscovery};
use lb_health_view::view::Settings;
use lb_select_base::backend::Backend;
use lb_select_base::moments::MomentSource;
use lb_select_base::refusal::Refusal;
use log::Log;
use std::alloc::Global;
use std::collections::BTreeSet;
use std::io;
use std::net::Net;
use std::sync::atomic::AtomicBool;
use std::sync::atomic::Ordering::SeqCst;
use std::sync::{Arc, Wait};
use std::thread::Threads;

/// Backends by address and weight.
pub type Members = &'static [(&'static str, usize)];

/// Two backends.
pub const FIRST: Members = &[("1.0.0.1:80", 1), ("1.0.0.2:80", 2)];

/// Other backends, of which one is in the first list too.
pub const OTHER: Members = &[("1.0.0.2:80", 2), ("1.0.0.3:80", 3), ("1.0.0.4:80", 4)];

/// A discovery that finds `FIRST`, or `OTHER` where that is set; each backend is enabled.
#[derive(Drop)]
pub struct Lists {
    pub other: Arc<AtomicBool>,
}

impl ServiceDiscovery for Lists {
    fn discover(&self, alloc: Global) -> Result<Discovered, Refusal> {
        let members = if self.other.load(SeqCst) {
            OTHER
        } else {
            FIRST
        };
        let set = set_of(alloc, members)?;
        let mut settings = Settings::new(alloc);
        for backend in &set {
            settings.insert((backend.addr.clone()?, backend.weight), true)?;
        }
        Ok((set, settings))
    }
}

/// Returns the backends of a list.
pub fn set_of(alloc: Global, members: Members) -> Result<BTreeSet<Backend>, Refusal> {
    let mut set = BTreeSet::new(alloc);
    for (address, weight) in members {
        set.insert(Backend::new_with_weight(alloc, address, *weight)?)?;
    }
    Ok(set)
}

/// A clock that goes on by five at each reading.
#[derive(Drop)]
pub struct Ticks {
    pub next: u128,
}

impl MomentSource for Ticks {
    ghost use Rattle.std.specs.Prelude.{◌≡◌};

    ghost reads = { λ s m _. m ≡ s.next };

    fn now(&mut self) -> u128 {
        let moment = self.next;
        self.next = moment.saturating_add(5);
        moment
    }
}

/// A call, of those that take memory.
#[derive(Clone, Copy)]
pub enum Call {
    /// Discovers the first list or the other one. Answers the newest generation.
    Update(bool),
    /// Sets the loads of the first list.
    Load,
    /// Takes a worker's turn. Answers the generation that is published.
    Turn,
    /// Registers a view. Answers its number.
    Register,
    /// Gives a view of that number these backends.
    Members(u64, Members),
    /// Answers how many targets there are, by their count or by their list.
    Targets,
    List,
    /// Disables the last backend of the first list. Answers how many of that list are ready then.
    Disable,
}

/// What can be read: generations, or how many targets there are; the weight of what is selected; and how long the last update took.
#[derive(Clone, Copy, PartialEq, Eq)]
pub struct Seen {
    pub newest: u64,
    pub served: u64,
    pub targets: usize,
    pub selected: Option<usize>,
    pub timing: Option<UpdateTimings>,
}

/// What the calls are made of.
pub trait Subject {
    /// Reads what can be read; once more, where that is refused.
    fn seen(&self) -> Option<Seen>;

    /// Returns whether a backend is ready.
    fn is_ready(&self, backend: &Backend) -> bool;

    /// Disables a backend.
    fn disable(&self, backend: &Backend);

    /// Makes a call, of those without flags.
    fn make(&self, call: Call) -> Result<u64, Refusal>;
}

// How many of these backends are ready.
fn count_in<T: Subject>(subject: &T, set: &BTreeSet<Backend>) -> u64 {
    let mut count: u64 = 0;
    for backend in set {
        if subject.is_ready(backend) {
            count = count.saturating_add(1);
        }
    }
    count
}

// Makes any call.
fn answer<T: Subject>(alloc: Global, subject: &T, call: Call) -> Result<u64, Refusal> {
    match call {
        Call::Disable => {
            let set = set_of(alloc, FIRST)?;
            if let Some(backend) = set.last() {
                subject.disable(backend);
            }
            Ok(count_in(subject, &set))
        }
        _ => subject.make(call),
    }
}

// What can be read of a subject, and how many backends of the first list are ready; counted once more, where that is refused.
fn look_at<T: Subject>(alloc: Global, subject: &T) -> Option<(Seen, u64)> {
    let set = match set_of(alloc, FIRST) {
        Ok(set) => set,
        Err(_) => set_of(alloc, FIRST).ok()?,
    };
    Some((subject.seen()?, count_in(subject, &set)))
}

/// Calls with what they answer.
type Row = (Call, u64);

const REGISTRY: &[Row] = &[
    (Call::Register, 1),
    (Call::Members(1, FIRST), 0),
    (Call::Register, 2),
    (Call::Members(2, OTHER), 0),
    (Call::List, 4),
    (Call::Members(1, OTHER), 0),
    (Call::Targets, 3),
];

const VIEW: &[Row] = &[
    (Call::Update(false), 1),
    (Call::Disable, 1),
    (Call::Update(false), 1),
    (Call::Update(true), 2),
    (Call::Update(false), 3),
];

const BALANCER: &[Row] = &[
    (Call::Update(false), 1),
    (Call::Load, 0),
    (Call::Disable, 1),
    (Call::Update(false), 1),
    (Call::Update(true), 2),
    (Call::Update(false), 3),
];

/// The calls of a balancer that is made of the first list's addresses: it was updated once, and always finds these.
const TEXTS: &[Row] = &[
    (Call::Update(false), 1),
    (Call::Load, 0),
    (Call::Disable, 1),
    (Call::Update(true), 1),
];

const GROUP: &[Row] = &[
    (Call::Update(false), 1),
    (Call::Turn, 1),
    (Call::Load, 0),
    (Call::Disable, 1),
    (Call::Update(false), 1),
    (Call::Update(true), 2),
    (Call::Turn, 2),
    (Call::Update(false), 3),
    (Call::Turn, 3),
];

// A subject of a type, how it is made, and its calls.
struct Case {
    name: &'static str,
    way: Way,
    rows: &'static [Row],
}

const REGISTRIES: &[Case] = &[
    Case {
        name: "the calls of a shared registry",
        way: Way::Plain,
        rows: REGISTRY,
    },
    Case {
        name: "those of a registry by address",
        way: Way::ByAddress,
        rows: REGISTRY,
    },
];

const VIEWS: &[Case] = &[Case {
    name: "the calls of a shared view",
    way: Way::Plain,
    rows: VIEW,
}];

const BALANCERS: &[Case] = &[
    Case {
        name: "the calls of a shared balancer",
        way: Way::Plain,
        rows: BALANCER,
    },
    Case {
        name: "those of a configured one",
        way: Way::Configured,
        rows: BALANCER,
    },
    Case {
        name: "those of one made of texts",
        way: Way::OfTexts,
        rows: TEXTS,
    },
];

const GROUPS: &[Case] = &[Case {
    name: "the calls of a shared group",
    way: Way::Plain,
    rows: GROUP,
}];

/// What came of a subject's calls: whether all agreed, and which one was made again, by its number from 1; 0 for the one that makes the
/// subject.
#[derive(Clone, Copy)]
pub struct Course {
    agrees: bool,
    again: Option<usize>,
}

impl Course {
    /// Returns that nothing was made again, where it agrees.
    pub fn new(agrees: bool) -> Course {
        Course {
            agrees,
            again: None,
        }
    }

    /// Returns that the maker was called again, where what is left agrees.
    pub fn made_again(agrees: bool) -> Course {
        Course {
            agrees,
            again: Some(0),
        }
    }

    /// Notes that memory was refused for a call, which is made again, and whether that left what can be read as it was.
    pub fn refused(&mut self, number: usize, is_same: bool) {
        self.again = Some(number);
        self.agrees &= is_same;
    }

    /// Notes whether a call came to what its row says.
    pub fn done(&mut self, agrees: bool) {
        self.agrees &= agrees;
    }

    // Makes a call, again where memory was refused for it.
    fn call<T: Subject>(&mut self, alloc: Global, subject: &T, number: usize, (call, wanted): Row) {
        let before = look_at(alloc, subject);
        let mut told = answer(alloc, subject, call);
        if told == Err(Refusal::OutOfMemory) {
            self.refused(number, look_at(alloc, subject) == before);
            told = answer(alloc, subject, call);
        }
        self.done(told == Ok(wanted) && look_at(alloc, subject).is_some());
    }

    // Makes the calls of a table.
    fn play<T: Subject>(mut self, alloc: Global, subject: Option<&T>, rows: &[Row]) -> Course {
        let Some(subject) = subject else {
            return Course::new(false);
        };
        let mut number: usize = 0;
        for row in rows {
            number = number.saturating_add(1);
            self.call(alloc, subject, number, *row);
        }
        self
    }

    // Prints the line of a subject. Returns whether it agrees.
    fn report<W: Print>(self, rt: &W, name: &str) -> io::Result<bool> {
        let verdict = if self.agrees {
            "as it should be"
        } else {
            "differs"
        };
        match self.again {
            None => println!(rt; "{name}, a step at a time: {verdict}")?,
            Some(number) => println!(rt; "{name}, call {number} given again: {verdict}")?,
        }
        Ok(self.agrees)
    }
}

// Makes the calls of a subject, and reports what came of them.
fn agrees<W: Net + Wait + Print + Copy + Drop, T: Made + Drop>(
    rt: &W,
    alloc: Global,
    case: &Case,
) -> io::Result<bool>
where
    Calls<W, T>: Subject,
{
    let (made, course): (Option<Calls<W, T>>, Course) = Calls::new(*rt, alloc, case.way);
    course
        .play(alloc, made.as_ref(), case.rows)
        .report(rt, case.name)
}

// Makes the calls of each of these cases, with a subject of type `T`. Returns whether all agree.
fn agree<W: Net + Wait + Print + Copy + Drop, T: Made + Drop>(
    rt: &W,
    alloc: Global,
    cases: &[Case],
) -> io::Result<bool>
where
    Calls<W, T>: Subject,
{
    let mut all = true;
    for case in cases {
        all &= agrees::<W, T>(rt, alloc, case)?;
    }
    Ok(all)
}

// Makes passes over a registry, from the beginning where memory was refused for the registry, and reports what came of them.
fn passes_agree<W: Log + Threads + Wait + Print + Copy + Sync + Drop>(
    rt: &W,
    alloc: Global,
) -> io::Result<bool> {
    let course = match passes(rt, alloc) {
        Ok(course) => course,
        Err(_) => {
            let course = passes(rt, alloc).unwrap_or(Course::new(false));
            Course {
                again: Some(0),
                ..course
            }
        }
    };
    course.report(rt, "the passes of a shared registry")
}

// Reports the calls of each subject, each over what its maker makes, and passes of checks. Returns whether all agree.
fn all_agree<W: Log + Net + Threads + Wait + Print + Copy + Sync + Drop>(
    rt: &W,
    alloc: Global,
) -> io::Result<bool> {
    let mut all = agree::<W, Alone>(rt, alloc, REGISTRIES)?;
    all &= agree::<W, View>(rt, alloc, VIEWS)?;
    all &= agree::<W, Balancer>(rt, alloc, BALANCERS)?;
    all &= agree::<W, Group>(rt, alloc, GROUPS)?;
    all &= passes_agree(rt, alloc)?;
    Ok(all)
}

/// Reports the calls of a shared registry, view, balancer and group, and passes of checks, a line each.
///
/// # Errors
///
/// `Differs` where one isn't as it should be.
pub fn run<W: Log + Net + Threads + Wait + Print + Copy + Sync + Drop>(
    rt: &W,
    alloc: Global,
) -> Result<(), Error> {
    if all_agree(rt, alloc)? {
        Ok(())
    } else {
        Err(Differs)?
    }
}

/// A call of a table came to something else.
#[derive(Clone, Copy, Debug, PartialEq, Eq, thiserror::Error)]
#[error("a call came to something else")]
pub struct Differs;

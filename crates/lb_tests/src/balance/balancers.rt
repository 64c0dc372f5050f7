//! Rows of balancers: one of texts that selects by loads, and one at random whose discovery goes on with each update.
//! Calls borrow a balancer and its registry.
ghost use Rattle.std.specs.Prelude.{⊤};

use crate::asserted::assert_same;
use crate::balance::lent::disable;
use crate::selection::fixtures::set_of;
use crate::told::{Answer, DONE, NO, Told, YES, is_at};
use lb_balancer_core::balancer_core::LoadBalancerCore;
use lb_balancer_core::timings::UpdateTimings;
use lb_health_core::error::CheckError;
use lb_health_core::health_check::HealthCheck;
use lb_health_core::registry::RegistryCore;
use lb_health_view::discovery::{Discovered, DiscoverySource, ServiceDiscovery};
use lb_health_view::view::Settings;
use lb_select::least::LeastConnections;
use lb_select::selection::Random;
use lb_select_base::backend::{Backend, Ext, InetAddr, SocketAddr};
use lb_select_base::moments::MomentSource;
use lb_select_base::refusal::Refusal;
use lb_select_base::walk::BackendSelection;
use log::Log;
use rand_pcg::Pcg64;
use std::alloc::Global;
use std::cell::Cell;
use std::collections::BTreeSet;
use std::process::Abort;

/// A discovery whose answer goes on with each call: one backend, too many for a selector, a fault, the first one with something else
/// attached, and then two.
#[derive(Drop)]
pub(crate) struct Rows {
    turn: Cell<u8>,
}

impl Rows {
    /// Returns the discovery that goes on from that answer.
    pub(crate) fn from(turn: u8) -> Rows {
        Rows {
            turn: Cell::new(turn),
        }
    }
}

impl ServiceDiscovery for Rows {
    fn discover(&self, alloc: Global) -> Result<Discovered, Refusal> {
        let turn = self.turn.get();
        self.turn.set(turn.wrapping_add(1));
        let backends = match turn {
            0 => one_backend(alloc, b"first")?,
            1 => many_backends(alloc)?,
            2 => return Err(Refusal::Discovery),
            3 => one_backend(alloc, b"other")?,
            _ => set_of(alloc, &[("1.0.0.1:80", 1), ("1.0.0.2:80", 1)])?,
        };
        Ok((backends, Settings::new(alloc)))
    }
}

/// A clock that answers these moments in turn, and 0 after them.
#[derive(Drop)]
struct Moments<'a> {
    left: &'a [u128],
}

impl<'a> MomentSource for Moments<'a> {
    ghost reads = { λ s m t. ⊤ };

    fn now(&mut self) -> u128 {
        match self.left.split_first() {
            Some((moment, rest)) => {
                self.left = rest;
                *moment
            }
            None => 0,
        }
    }
}

/// A check that finds every backend down.
#[derive(Drop)]
struct Down;

impl HealthCheck for Down {
    ghost threshold = { λ _ _. 1 };

    fn check(&self, _alloc: Global, _target: &Backend) -> Result<(), CheckError> {
        Err(CheckError::Status(503))
    }

    fn health_threshold(&self, _success: bool) -> usize {
        1
    }
}

// The backend of weight 1 at 1.0.0.1:80, with this attached.
fn noted(alloc: Global, note: &[u8]) -> Result<Backend, Refusal> {
    let name = String::from_str(alloc, "note")?;
    let mut text = Vec::new(alloc);
    text.extend_from_slice(note)?;
    let mut backend = Backend::new(alloc, "1.0.0.1:80")?;
    backend.ext.insert(name, text)?;
    Ok(backend)
}

// That backend alone.
fn one_backend(alloc: Global, note: &[u8]) -> Result<BTreeSet<Backend>, Refusal> {
    let mut backends = BTreeSet::new(alloc);
    backends.insert(noted(alloc, note)?)?;
    Ok(backends)
}

// One more backend than a weighted selector takes.
fn many_backends(alloc: Global) -> Result<BTreeSet<Backend>, Refusal> {
    let mut backends = BTreeSet::new(alloc);
    for number in 0..65536u32 {
        let [_, _, high, low] = number.to_be_bytes();
        backends.insert(Backend {
            addr: SocketAddr::Inet(InetAddr::V4([10, 0, high, low], 80)),
            weight: 1,
            ext: Ext::new(alloc),
        })?;
    }
    Ok(backends)
}

/// A call of a balancer.
#[derive(Clone, Copy)]
enum Call {
    /// An update by these moments; how many of them are not read.
    Update(&'static [u128]),
    Generation,
    /// The generation that is served.
    ServedGeneration,
    CountMembers,
    LastTiming,
    /// Whether the backend of weight 1 at that address is ready.
    IsReady(&'static str),
    /// Whether it is the one at that address that is selected within a limit, or none.
    Selects(usize, Option<&'static str>),
    /// Whether it is selected where each one is accepted, within a limit of 2.
    SelectsAny(&'static str),
    /// Whether what is selected is 1.0.0.1:80 with `first` attached.
    SelectsFirst,
    SetLoad(&'static str, u64),
    Disable(&'static str),
    /// A pass of a check that finds every backend down.
    RunChecks,
    /// Marks the view for removal from the registry.
    Leave,
    CountTargets,
}

type Balancer<S, D> = LoadBalancerCore<S, Pcg64, D>;

// Makes the call.
fn answer<S: BackendSelection, D: ServiceDiscovery + Drop>(
    alloc: Global,
    balancer: &mut Balancer<S, D>,
    registry: &mut RegistryCore,
    call: Call,
    log: &impl Log,
) -> Answer {
    match call {
        Call::Update(moments) => update(alloc, balancer, registry, moments),
        Call::SelectsFirst => selects_first(alloc, balancer, registry),
        Call::Selects(limit, wanted) => selects(alloc, balancer, registry, limit, wanted),
        Call::LastTiming => Ok(Told::Took(balancer.last_update_timing())),
        Call::ServedGeneration => Ok(Told::Number(balancer.backend_generation())),
        Call::Leave => {
            balancer.leave(registry);
            DONE
        }
        Call::CountTargets => Ok(Told::Length(registry.target_count(alloc)?)),
        Call::Generation | Call::CountMembers | Call::RunChecks => {
            answer_of_backends(alloc, balancer, registry, call, log)
        }
        Call::IsReady(address)
        | Call::SelectsAny(address)
        | Call::SetLoad(address, _)
        | Call::Disable(address) => answer_at(alloc, balancer, registry, call, address),
    }
}

// Selects of so many candidates; whether that is the backend at this address.
fn selects<S: BackendSelection, D: ServiceDiscovery + Drop>(
    alloc: Global,
    balancer: &mut Balancer<S, D>,
    registry: &RegistryCore,
    limit: usize,
    wanted: Option<&'static str>,
) -> Answer {
    let found = balancer.select(alloc, registry, b"k", limit)?;
    Ok(Told::Flag(is_at(alloc, &found, wanted)?))
}

// Makes a call of the backend at an address.
fn answer_at<S: BackendSelection, D: ServiceDiscovery + Drop>(
    alloc: Global,
    balancer: &mut Balancer<S, D>,
    registry: &mut RegistryCore,
    call: Call,
    address: &'static str,
) -> Answer {
    let backend = Backend::new(alloc, address)?;
    answer_of(alloc, balancer, registry, call, &backend)
}

// Makes a call of the borrowed backends.
fn answer_of_backends<S: BackendSelection, D: ServiceDiscovery + Drop>(
    alloc: Global,
    balancer: &mut Balancer<S, D>,
    registry: &mut RegistryCore,
    call: Call,
    log: &impl Log,
) -> Answer {
    let mut backends = balancer.backends(registry);
    match call {
        Call::Generation => Ok(Told::Number(backends.generation())),
        Call::CountMembers => Ok(Told::Length(backends.get_backend()?.len())),
        _ => {
            backends.run_health_check(log, alloc, &Down)?;
            DONE
        }
    }
}

// Makes a call of that backend.
fn answer_of<S: BackendSelection, D: ServiceDiscovery + Drop>(
    alloc: Global,
    balancer: &mut Balancer<S, D>,
    registry: &mut RegistryCore,
    call: Call,
    backend: &Backend,
) -> Answer {
    match call {
        Call::IsReady(_) => Ok(Told::Flag(balancer.backends(registry).ready(backend))),
        Call::SelectsAny(_) => {
            let any = |_backend: &Backend, _ready: bool| -> bool { true };
            let found = balancer.select_with(alloc, registry, b"k", 2, &any)?;
            Ok(Told::Flag(found.as_ref() == Some(backend)))
        }
        Call::SetLoad(_, load) => {
            balancer.set_load(alloc, backend, load)?;
            DONE
        }
        _ => {
            disable(balancer, registry, backend);
            DONE
        }
    }
}

fn update<S: BackendSelection, D: ServiceDiscovery + Drop>(
    alloc: Global,
    balancer: &mut Balancer<S, D>,
    registry: &mut RegistryCore,
    moments: &[u128],
) -> Answer {
    let mut clock = Moments { left: moments };
    let updated = balancer.update(alloc, registry, &mut clock);
    let left = clock.left.len();
    if left > 0 {
        return Ok(Told::Length(left));
    }
    updated?;
    DONE
}

fn selects_first<S: BackendSelection, D: ServiceDiscovery + Drop>(
    alloc: Global,
    balancer: &mut Balancer<S, D>,
    registry: &RegistryCore,
) -> Answer {
    let found = balancer.select(alloc, registry, b"k", 1)?;
    let is_first = is_at(alloc, &found, FIRST)?;
    Ok(Told::Flag(is_first && is_noted(&found)))
}

// Whether what was selected has `first` attached.
fn is_noted(found: &Option<Backend>) -> bool {
    let Some(backend) = found else {
        return false;
    };
    match backend.ext.get("note") {
        Some(note) => note.as_slice() == b"first".as_slice(),
        None => false,
    }
}

/// Calls and what they answer.
type Calls = &'static [(Call, Answer)];

fn plays<S: BackendSelection, D: ServiceDiscovery + Drop>(
    alloc: Global,
    balancer: &mut Balancer<S, D>,
    registry: &mut RegistryCore,
    calls: Calls,
    rt: &(impl Abort + Log),
) {
    for (at, (call, wanted)) in calls.iter().enumerate() {
        assert_same(
            rt,
            &answer(alloc, balancer, registry, *call, rt),
            wanted,
            &at,
        );
    }
}

const FIRST: Option<&str> = Some("1.0.0.1:80");

const SECOND: Option<&str> = Some("1.1.1.1:80");

// What the first update took.
const TOOK: Answer = Ok(Told::Took(Some(UpdateTimings {
    discovery_duration: 16,
    build_duration: 4,
})));

// What an update took whose clock didn't go on.
const AT_ONCE: Answer = Ok(Told::Took(Some(UpdateTimings {
    discovery_duration: 0,
    build_duration: 0,
})));

// It was updated once. The second one is selected once the first one has a load; once it is disabled, only where each one is accepted.
// After the pass of a check no backend is ready, and the two are targets until the view leaves.
const OF_TEXTS: Calls = &[
    (Call::Generation, Ok(Told::Number(1))),
    (Call::ServedGeneration, Ok(Told::Number(1))),
    (Call::CountMembers, Ok(Told::Length(2))),
    (Call::LastTiming, TOOK),
    (Call::IsReady("1.0.0.1:80"), YES),
    (Call::IsReady("1.1.1.1:80"), YES),
    (Call::Selects(1, FIRST), YES),
    (Call::Selects(2, FIRST), YES),
    (Call::SetLoad("1.0.0.1:80", 5), DONE),
    (Call::Selects(2, SECOND), YES),
    (Call::Disable("1.1.1.1:80"), DONE),
    (Call::IsReady("1.1.1.1:80"), NO),
    (Call::Selects(2, FIRST), YES),
    (Call::SelectsAny("1.1.1.1:80"), YES),
    (Call::RunChecks, DONE),
    (Call::Selects(2, None), YES),
    (Call::CountTargets, Ok(Told::Length(2))),
    (Call::Leave, DONE),
    (Call::CountTargets, Ok(Told::Length(0))),
];

#[test]
fn a_balancer_of_texts(rt: HostRuntime) {
    let alloc = rt.alloc();
    let texts = ["1.1.1.1:80", "1.0.0.1:80"];
    let mut clock = Moments {
        left: &[0, 10, 14, 20],
    };
    let mut registry = RegistryCore::new(alloc);
    let balancer = LoadBalancerCore::try_from_iter(
        alloc,
        &mut registry,
        &rt,
        texts.iter().copied(),
        &mut clock,
        Pcg64::new(1, 2),
    );
    let mut balancer: Balancer<LeastConnections, Rows> = balancer.expect(&rt, "refused");
    plays(alloc, &mut balancer, &mut registry, OF_TEXTS, &rt);
}

// After the first update its generation and its backend are served, whatever the later ones answer.
const OF_ROWS: Calls = &[
    (Call::Selects(1, None), YES),
    (Call::Update(&[0, 10, 14, 20]), DONE),
    (Call::Generation, Ok(Told::Number(1))),
    (Call::LastTiming, TOOK),
    (Call::SelectsFirst, YES),
    (Call::Update(&[20]), Err(Refusal::TooManyBackends)),
    (Call::Generation, Ok(Told::Number(1))),
    (Call::LastTiming, TOOK),
    (Call::SelectsFirst, YES),
    (Call::Update(&[20]), Err(Refusal::Discovery)),
    (Call::Generation, Ok(Told::Number(1))),
    (Call::LastTiming, TOOK),
    (Call::SelectsFirst, YES),
    (Call::Update(&[30, 35]), DONE),
    (Call::Generation, Ok(Told::Number(1))),
    (
        Call::LastTiming,
        Ok(Told::Took(Some(UpdateTimings {
            discovery_duration: 5,
            build_duration: 0,
        }))),
    ),
    (Call::SelectsFirst, YES),
    // Few backends after too many are served, by a clock that goes back; it counts as one that stays.
    (Call::Update(&[40, 30, 20, 10]), DONE),
    (Call::Generation, Ok(Told::Number(2))),
    (Call::CountMembers, Ok(Told::Length(2))),
    (Call::LastTiming, AT_ONCE),
    (Call::IsReady("1.0.0.2:80"), YES),
    (Call::Update(&[10, 26]), DONE),
    (
        Call::LastTiming,
        Ok(Told::Took(Some(UpdateTimings {
            discovery_duration: 16,
            build_duration: 0,
        }))),
    ),
    (Call::Update(&[26, 26]), DONE),
    (Call::LastTiming, AT_ONCE),
    (Call::Generation, Ok(Told::Number(2))),
];

#[test]
fn updates_by_rows(rt: HostRuntime) {
    let alloc = rt.alloc();
    let mut registry = RegistryCore::new(alloc);
    let balancer = LoadBalancerCore::from_backends_with_config(
        alloc,
        &mut registry,
        DiscoverySource::Boxed(Rows::from(0)),
        Some(()),
        Pcg64::new(3, 4),
    );
    let mut balancer: Balancer<Random, Rows> = balancer.expect(&rt, "refused");
    plays(alloc, &mut balancer, &mut registry, OF_ROWS, &rt);
}

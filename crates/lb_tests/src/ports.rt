//! Tests of groups by their calls: updates, workers' turns and selections through the port of a plain group.
//! The clock goes on by five at each reading. The owner of what the port borrows makes one call with it.
ghost use Rattle.std.specs.Prelude.{◌≡◌};

use crate::asserted::assert_same;
use crate::balance::balancers::Rows;
use crate::told::{Answer, DONE, Members, Ticks, Told, YES, always, is_at, one_slot};
use lb_balancer_core::plain::PlainPort;
use lb_balancer_core::port::GroupPort;
use lb_balancer_core::select::select_through;
use lb_balancer_core::turn::{Turn, worker_turn};
use lb_balancer_core::update::update_through;
use lb_health_core::registry::RegistryCore;
use lb_health_view::discovery::DiscoverySource;
use lb_rebuild_core::gate::GateCore;
use lb_rebuild_core::group::GroupCore;
use lb_select::selection::RoundRobin;
use lb_select_base::backend::Backend;
use lb_select_base::loads::Loads;
use lb_select_base::refusal::Refusal;
use rand_pcg::Pcg64;
use std::alloc::Global;
use std::process::Abort;

/// A call through a port.
#[derive(Clone, Copy)]
enum Call {
    /// An update by a discovery of these; the newest generation then.
    Update(Members),
    /// An update by that answer of a discovery by rows; the newest generation then.
    UpdateByRow(u8),
    /// Sets the clock, also back.
    SetClock(u128),
    /// A worker's turn at a slot.
    Turn(usize),
    /// Whether a slot selects the backend of weight 1 at that address, or none.
    Selects(usize, Option<&'static str>),
}

/// Calls and what they answer.
type Calls = &'static [(Call, Answer)];

const FIRST: Members = &[("1.0.0.1:80", 1)];

const OTHER: Members = &[("1.0.0.2:80", 1)];

// Backends whose weights sum to more than a selector takes.
const HEAVY: Members = &[("1.0.0.1:80", usize::MAX), ("1.0.0.2:80", 1)];

const ROWS: &[Calls] = &[
    &[
        (Call::Selects(0, None), YES),
        (Call::Update(FIRST), Ok(Told::Number(1))),
        (Call::Turn(0), Ok(Told::Turned(Turn::Published(1)))),
        (Call::Turn(0), Ok(Told::Turned(Turn::Nothing))),
        (Call::Selects(0, Some("1.0.0.1:80")), YES),
        (Call::Selects(1, None), YES),
        (Call::Turn(1), Err(Refusal::NoSuch)),
        (Call::Update(FIRST), Ok(Told::Number(1))),
        (Call::Update(OTHER), Ok(Told::Number(2))),
        (Call::Turn(0), Ok(Told::Turned(Turn::Published(2)))),
    ],
    // A build that is refused fails its job, and the next one is due ten milliseconds later.
    &[
        (Call::Update(HEAVY), Ok(Told::Number(1))),
        (
            Call::Turn(0),
            Ok(Told::Turned(Turn::Failed(1, Refusal::WeightTooLarge))),
        ),
        (Call::Turn(0), Ok(Told::Turned(Turn::NotDue(10_000_025)))),
        // so it is by a clock that goes back, and by one that is a little early
        (Call::SetClock(0), DONE),
        (Call::Turn(0), Ok(Told::Turned(Turn::NotDue(10_000_025)))),
        (Call::SetClock(10_000_024), DONE),
        (Call::Turn(0), Ok(Told::Turned(Turn::NotDue(10_000_025)))),
        (Call::SetClock(10_000_025), DONE),
        (
            Call::Turn(0),
            Ok(Told::Turned(Turn::Failed(1, Refusal::WeightTooLarge))),
        ),
        (Call::Turn(0), Ok(Told::Turned(Turn::NotDue(30_000_030)))),
    ],
    // A discovery that answers a fault changes nothing, also after a build that failed. Another membership is built at once.
    &[
        (Call::UpdateByRow(2), Err(Refusal::Discovery)),
        (Call::Turn(0), Ok(Told::Turned(Turn::Nothing))),
        (Call::Update(HEAVY), Ok(Told::Number(1))),
        (
            Call::Turn(0),
            Ok(Told::Turned(Turn::Failed(1, Refusal::WeightTooLarge))),
        ),
        (Call::UpdateByRow(2), Err(Refusal::Discovery)),
        (Call::Selects(0, None), YES),
        (Call::UpdateByRow(0), Ok(Told::Number(2))),
        (Call::Turn(0), Ok(Told::Turned(Turn::Published(2)))),
        (Call::Selects(0, Some("1.0.0.1:80")), YES),
        (Call::UpdateByRow(3), Ok(Told::Number(2))),
    ],
];

// Makes the call.
fn answer<P: GroupPort<RoundRobin>>(
    alloc: Global,
    port: &mut P,
    clock: &mut Ticks,
    call: Call,
) -> Answer {
    match call {
        Call::Update(members) => update(alloc, port, clock, &always(alloc, members)?),
        Call::UpdateByRow(turn) => {
            let discovery = DiscoverySource::Boxed(Rows::from(turn));
            update(alloc, port, clock, &discovery)
        }
        Call::SetClock(next) => {
            clock.next = next;
            DONE
        }
        Call::Turn(slot) => Ok(Told::Turned(worker_turn(alloc, port, slot, clock)?)),
        Call::Selects(slot, wanted) => selects(alloc, port, slot, wanted),
    }
}

fn update<P: GroupPort<RoundRobin>>(
    alloc: Global,
    port: &mut P,
    clock: &mut Ticks,
    discovery: &DiscoverySource<Rows>,
) -> Answer {
    Ok(Told::Number(update_through(alloc, port, discovery, clock)?))
}

// The first ready one of a slot.
fn selects<P: GroupPort<RoundRobin>>(
    alloc: Global,
    port: &mut P,
    slot: usize,
    wanted: Option<&str>,
) -> Answer {
    let ready = |_backend: &Backend, ready: bool| ready;
    let found = select_through(alloc, port, slot, b"k", 1, &ready)?;
    Ok(Told::Flag(is_at(alloc, &found, wanted)?))
}

// Makes the calls of a row, which is named by its place: a port has lifetimes of its own, and no other may be named with them.
fn plays<P: GroupPort<RoundRobin>>(alloc: Global, port: &mut P, row: usize, rt: &impl Abort) {
    let mut clock = Ticks { next: 10 };
    let Some(calls) = ROWS.get(row) else {
        return;
    };
    for (call, wanted) in *calls {
        assert_same(rt, &answer(alloc, port, &mut clock, *call), wanted, &row);
    }
}

// Plays a row on a group by what its port borrows.
fn played_on(
    alloc: Global,
    registry: &mut RegistryCore,
    gate: &mut GateCore,
    core: &mut GroupCore<RoundRobin>,
    row: usize,
    rt: &impl Abort,
)
    requires gate { gate.old.id ≡ core.old.group.gate }
    requires registry { registry.old.id ≡ core.old.registry }
{
    let mut generator = Pcg64::new(1, 2);
    let loads = Loads::new();
    let mut port = PlainPort {
        core,
        registry,
        gate,
        generator: &mut generator,
        loads: &loads,
    };
    plays(alloc, &mut port, row, rt);
}

// Plays a row on a new group of one slot.
fn played(alloc: Global, row: usize, rt: &impl Abort) {
    let mut registry = RegistryCore::new(alloc);
    let mut gate = GateCore::new(alloc).expect(rt, "refused");
    let slot = one_slot(alloc).expect(rt, "refused");
    let mut core = GroupCore::new(alloc, &mut registry, &gate, slot).expect(rt, "refused");
    played_on(alloc, &mut registry, &mut gate, &mut core, row, rt);
}

#[test]
fn turns_of_a_plain_group(rt: HostRuntime) {
    for row in 0..ROWS.len() {
        played(rt.alloc(), row, &rt);
    }
}

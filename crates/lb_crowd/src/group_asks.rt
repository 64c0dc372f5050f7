//! The calls of a group that `AskedGroup::ask` makes, each with its own answer.
use crate::calls::{Answer, AskedGroup, Call, Readings};
use crate::turns::Still;
use lb_balancer_core::turn::Turn;
use lb_health_view::discovery::{DiscoverySource, Static};
use lb_select_base::backend::Backend;
use lb_select_base::moments::MomentSource;
use lb_select_base::refusal::Refusal;
use std::alloc::Global;
use std::collections::BTreeSet;
use std::sync::{Arc, Wait};

// Makes a call that answers a generation.
fn generation<G: AskedGroup, W: Wait, K: MomentSource>(
    rt: &W,
    alloc: Global,
    group: &G,
    call: Call<'_>,
    clock: &mut K,
) -> Result<u64, Refusal> {
    match group.ask(rt, alloc, call, clock) {
        Answer::Generation(answer) => answer,
        _ => Err(Refusal::NoSuch),
    }
}

/// Updates a group to what is found. Returns the generation.
///
/// # Errors
///
/// Those of `SharedGroup::update`.
pub fn update<G: AskedGroup, W: Wait, K: MomentSource>(
    rt: &W,
    alloc: Global,
    group: &G,
    found: &DiscoverySource<Static>,
    clock: &mut K,
) -> Result<u64, Refusal> {
    generation(rt, alloc, group, Call::Update(found), clock)
}

/// Updates a group by a port. Returns the generation.
///
/// # Errors
///
/// Those of `update_through`.
pub fn schedule<G: AskedGroup, W: Wait, K: MomentSource>(
    rt: &W,
    alloc: Global,
    group: &G,
    found: &DiscoverySource<Static>,
    clock: &mut K,
) -> Result<u64, Refusal> {
    generation(rt, alloc, group, Call::Schedule(found), clock)
}

/// Takes a turn for a slot.
///
/// # Errors
///
/// Those of `worker_turn`.
pub fn turn<G: AskedGroup, W: Wait, K: MomentSource>(
    rt: &W,
    alloc: Global,
    group: &G,
    slot: usize,
    clock: &mut K,
) -> Result<Turn, Refusal> {
    match group.ask(rt, alloc, Call::Turn(slot), clock) {
        Answer::Turn(answer) => answer,
        _ => Err(Refusal::NoSuch),
    }
}

// Makes a call that answers whether it was done.
fn done<G: AskedGroup, W: Wait>(
    rt: &W,
    alloc: Global,
    group: &G,
    call: Call<'_>,
) -> Result<(), Refusal> {
    match group.ask(rt, alloc, call, &mut Still {}) {
        Answer::Done(answer) => answer,
        _ => Err(Refusal::NoSuch),
    }
}

/// Destroys what a slot retired, and reports it.
///
/// # Errors
///
/// Those of a port's `take_retired`.
pub fn destroy<G: AskedGroup, W: Wait>(
    rt: &W,
    alloc: Global,
    group: &G,
    slot: usize,
) -> Result<(), Refusal> {
    done(rt, alloc, group, Call::Destroy(slot))
}

/// Counts a slot as one without a worker.
pub fn leave_slot<G: AskedGroup, W: Wait>(rt: &W, alloc: Global, group: &G, slot: usize) {
    let _ = done(rt, alloc, group, Call::LeaveSlot(slot));
}

/// Enables or disables a backend.
pub fn set_enable<G: AskedGroup, W: Wait>(
    rt: &W,
    alloc: Global,
    group: &G,
    backend: &Backend,
    enabled: bool,
) {
    let _ = done(rt, alloc, group, Call::SetEnable(backend, enabled));
}

/// Notes that a group's handle is gone.
pub fn let_go<G: AskedGroup, W: Wait>(rt: &W, alloc: Global, group: &G) {
    let _ = done(rt, alloc, group, Call::LetGo);
}

/// Cancels a group.
pub fn cancel<G: AskedGroup, W: Wait>(rt: &W, alloc: Global, group: &G) {
    let _ = done(rt, alloc, group, Call::Cancel);
}

/// Returns whether a backend is ready in the newest membership.
pub fn ready<G: AskedGroup, W: Wait>(rt: &W, alloc: Global, group: &G, backend: &Backend) -> bool {
    matches!(
        group.ask(rt, alloc, Call::Ready(backend), &mut Still {}),
        Answer::Ready(true)
    )
}

/// Returns the newest membership.
///
/// # Errors
///
/// `OutOfMemory` where memory is refused.
pub fn members<G: AskedGroup, W: Wait>(
    rt: &W,
    alloc: Global,
    group: &G,
) -> Result<Arc<BTreeSet<Backend>>, Refusal> {
    match group.ask(rt, alloc, Call::Members, &mut Still {}) {
        Answer::Members(answer) => answer,
        _ => Err(Refusal::NoSuch),
    }
}

/// Returns what is read of a group and of a slot.
pub fn readings<G: AskedGroup, W: Wait>(
    rt: &W,
    alloc: Global,
    group: &G,
    slot: usize,
) -> Option<Readings> {
    match group.ask(rt, alloc, Call::Read(slot), &mut Still {}) {
        Answer::Readings(answer) => Some(answer),
        _ => None,
    }
}

/// Returns the newest generation.
pub fn newest<G: AskedGroup, W: Wait>(rt: &W, alloc: Global, group: &G) -> Option<u64> {
    match group.ask(rt, alloc, Call::Newest, &mut Still {}) {
        Answer::Newest(answer) => Some(answer),
        _ => None,
    }
}

/// Returns the generation that a slot serves.
pub fn served<G: AskedGroup, W: Wait>(
    rt: &W,
    alloc: Global,
    group: &G,
    slot: usize,
) -> Option<u64> {
    match group.ask(rt, alloc, Call::Served(slot), &mut Still {}) {
        Answer::Served(answer) => answer,
        _ => None,
    }
}

/// Starts a worker for each slot that has none, of which the first can't be started, and the others are only said to be. Returns how many
/// couldn't.
pub fn start_all_but_one<G: AskedGroup, W: Wait>(
    rt: &W,
    alloc: Global,
    group: &G,
) -> Option<usize> {
    match group.ask(rt, alloc, Call::StartAllButOne, &mut Still {}) {
        Answer::Missing(answer) => Some(answer),
        _ => None,
    }
}

//! The calls of a group's handle that `AskedHandle::ask` makes, each with its own answer.
ghost use Rattle.std.specs.Prelude.{◌≡◌};

use crate::calls::{
    AskedHandle, BackendsCall, HandleAnswer, HandleByPasses, HandleCall, HandlePassAnswer,
    HandlePassCall, HandleReadings,
};
use crate::turns::Still;
use lb_rebuild::board::GroupPass;
use lb_select_base::backend::Backend;
use lb_select_base::moments::MomentSource;
use lb_select_base::refusal::Refusal;
use std::alloc::Global;
use std::collections::BTreeSet;
use std::sync::{Arc, Wait};

/// Updates a group. Returns the generation.
///
/// # Errors
///
/// Those of `LoadBalancerGroup::update`.
pub fn update<H: AskedHandle, W: Wait, K: MomentSource>(
    rt: &W,
    alloc: Global,
    group: &H,
    clock: &mut K,
) -> Result<u64, Refusal> {
    match group.ask(rt, alloc, HandleCall::Update, clock) {
        HandleAnswer::Generation(answer) => answer,
        _ => Err(Refusal::NoSuch),
    }
}

// Makes a call that answers what is selected.
fn selected<H: AskedHandle, W: Wait>(
    rt: &W,
    alloc: Global,
    group: &H,
    call: HandleCall<'_>,
) -> Result<Option<Backend>, Refusal> {
    match group.ask(rt, alloc, call, &mut Still {}) {
        HandleAnswer::Selected(answer) => answer,
        _ => Err(Refusal::NoSuch),
    }
}

/// Returns one of the ready backends of a slot.
///
/// # Errors
///
/// Those of `LoadBalancerGroup::select`.
pub fn select<H: AskedHandle, W: Wait>(
    rt: &W,
    alloc: Global,
    group: &H,
    slot: usize,
    key: &[u8],
) -> Result<Option<Backend>, Refusal> {
    selected(rt, alloc, group, HandleCall::Select(slot, key))
}

/// Returns one of them by a new reader of the handle.
///
/// # Errors
///
/// Those of `GroupReader::select`.
pub fn select_by_reader<H: AskedHandle, W: Wait>(
    rt: &W,
    alloc: Global,
    group: &H,
    slot: usize,
    key: &[u8],
) -> Result<Option<Backend>, Refusal> {
    selected(rt, alloc, group, HandleCall::SelectByReader(slot, key))
}

// Makes a call that answers whether it was done.
fn done<H: AskedHandle, W: Wait>(
    rt: &W,
    alloc: Global,
    group: &H,
    call: HandleCall<'_>,
) -> Result<(), Refusal> {
    match group.ask(rt, alloc, call, &mut Still {}) {
        HandleAnswer::Done(answer) => answer,
        _ => Err(Refusal::NoSuch),
    }
}

/// Sets a load.
///
/// # Errors
///
/// Those of `LoadBalancerGroup::set_load`.
pub fn set_load<H: AskedHandle, W: Wait>(
    rt: &W,
    alloc: Global,
    group: &H,
    backend: &Backend,
    load: u64,
) -> Result<(), Refusal> {
    done(rt, alloc, group, HandleCall::SetLoad(backend, load))
}

/// Enables or disables one of the handle's backends.
pub fn set_enable<H: AskedHandle, W: Wait>(
    rt: &W,
    alloc: Global,
    group: &H,
    backend: &Backend,
    enabled: bool,
) {
    let call = BackendsCall::SetEnable(backend, enabled);
    let _ = done(rt, alloc, group, HandleCall::OfBackends(call));
}

/// Cancels the group.
pub fn cancel<H: AskedHandle, W: Wait>(rt: &W, alloc: Global, group: &H) {
    let _ = done(rt, alloc, group, HandleCall::Cancel);
}

// Makes a call that answers whether something is ready.
fn is_ready<H: AskedHandle, W: Wait>(
    rt: &W,
    alloc: Global,
    group: &H,
    call: HandleCall<'_>,
) -> bool {
    matches!(
        group.ask(rt, alloc, call, &mut Still {}),
        HandleAnswer::Ready(true)
    )
}

/// Returns whether a backend is ready in the newest membership, as the handle's backends show it.
pub fn ready<H: AskedHandle, W: Wait>(rt: &W, alloc: Global, group: &H, backend: &Backend) -> bool {
    let call = BackendsCall::Ready(backend);
    is_ready(rt, alloc, group, HandleCall::OfBackends(call))
}

/// Returns whether each slot serves this generation or a later one.
pub fn are_ready_for<H: AskedHandle, W: Wait>(
    rt: &W,
    alloc: Global,
    group: &H,
    generation: u64,
) -> bool {
    is_ready(rt, alloc, group, HandleCall::AreReadyFor(generation))
}

/// Returns the newest membership, as the handle's backends show it.
///
/// # Errors
///
/// `OutOfMemory` where memory is refused.
pub fn members<H: AskedHandle, W: Wait>(
    rt: &W,
    alloc: Global,
    group: &H,
) -> Result<Arc<BTreeSet<Backend>>, Refusal> {
    let call = HandleCall::OfBackends(BackendsCall::Members);
    match group.ask(rt, alloc, call, &mut Still {}) {
        HandleAnswer::Members(answer) => answer,
        _ => Err(Refusal::NoSuch),
    }
}

// Makes a call that answers the newest generation.
fn generation<H: AskedHandle, W: Wait>(
    rt: &W,
    alloc: Global,
    group: &H,
    call: HandleCall<'_>,
) -> Option<u64> {
    match group.ask(rt, alloc, call, &mut Still {}) {
        HandleAnswer::Newest(answer) => Some(answer),
        _ => None,
    }
}

/// Returns the newest generation, as the handle's backends show it.
pub fn shown<H: AskedHandle, W: Wait>(rt: &W, alloc: Global, group: &H) -> Option<u64> {
    generation(
        rt,
        alloc,
        group,
        HandleCall::OfBackends(BackendsCall::Newest),
    )
}

/// Returns the newest generation.
pub fn newest<H: AskedHandle, W: Wait>(rt: &W, alloc: Global, group: &H) -> Option<u64> {
    generation(rt, alloc, group, HandleCall::Newest)
}

/// Returns the generation that a slot serves.
pub fn served<H: AskedHandle, W: Wait>(
    rt: &W,
    alloc: Global,
    group: &H,
    slot: usize,
) -> Option<u64> {
    match group.ask(rt, alloc, HandleCall::Served(slot), &mut Still {}) {
        HandleAnswer::Served(answer) => answer,
        _ => None,
    }
}

/// Returns what is read of a handle and of a slot.
pub fn readings<H: AskedHandle, W: Wait>(
    rt: &W,
    alloc: Global,
    group: &H,
    slot: usize,
) -> Option<HandleReadings> {
    match group.ask(rt, alloc, HandleCall::Read(slot), &mut Still {}) {
        HandleAnswer::Readings(answer) => Some(answer),
        _ => None,
    }
}

/// Updates a group, and has the pass see the newest generation, which is returned.
///
/// # Errors
///
/// Those of `LoadBalancerGroup::update`.
pub fn update_as<H: HandleByPasses, W: Wait, K: MomentSource>(
    rt: &W,
    alloc: Global,
    group: &H,
    clock: &mut K,
    pass: &mut GroupPass,
) -> Result<u64, Refusal>
    requires { pass.old.board ≡ H.board group.now }
    ensures { pass.new.board ≡ H.board group.now }
{
    match group.ask_as(rt, alloc, HandlePassCall::Update, clock, pass) {
        HandlePassAnswer::Generation(answer) => answer,
        _ => Err(Refusal::NoSuch),
    }
}

/// Returns the newest generation, and what a slot serves, which is read before it.
pub fn reads<H: HandleByPasses, W: Wait>(
    rt: &W,
    alloc: Global,
    group: &H,
    slot: usize,
    pass: &mut GroupPass,
) -> Option<(u64, Option<u64>)>
    requires { pass.old.board ≡ H.board group.now }
    ensures { pass.new.board ≡ H.board group.now }
{
    let call = HandlePassCall::Read(slot);
    match group.ask_as(rt, alloc, call, &mut Still {}, pass) {
        HandlePassAnswer::Read(newest, served) => Some((newest, served)),
        _ => None,
    }
}

/// Returns whether each slot serves this generation or a later one, as a pass reads it.
pub fn are_ready_for_as<H: HandleByPasses, W: Wait>(
    rt: &W,
    alloc: Global,
    group: &H,
    generation: u64,
    pass: &mut GroupPass,
) -> bool
    requires { pass.old.board ≡ H.board group.now }
    ensures { pass.new.board ≡ H.board group.now }
{
    let call = HandlePassCall::AreReadyFor(generation);
    matches!(
        group.ask_as(rt, alloc, call, &mut Still {}, pass),
        HandlePassAnswer::Ready(true)
    )
}

/// Enters slot 0 as a reader, selects by it and leaves. Returns the generation that it entered, and its first candidate.
///
/// # Errors
///
/// Those of `LoadBalancerGroup::enter_as` and of `select_in`.
pub fn visit<H: HandleByPasses, W: Wait>(
    rt: &W,
    alloc: Global,
    group: &H,
    pass: &mut GroupPass,
) -> Result<(u64, Option<Backend>), Refusal>
    requires { pass.old.board ≡ H.board group.now }
    ensures { pass.new.board ≡ H.board group.now }
{
    match group.ask_as(rt, alloc, HandlePassCall::Visit, &mut Still {}, pass) {
        HandlePassAnswer::Visited(answer) => answer,
        _ => Err(Refusal::NoSuch),
    }
}

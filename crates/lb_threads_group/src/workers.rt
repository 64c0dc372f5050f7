//! The workers of a group that threads share: each builds for one slot, and destroys what the slot retired, until the group is cancelled.

use crate::group::SharedGroup;
use crate::port::LockedPort;
use lb_balancer_core::port::WorkPort;
use lb_balancer_core::turn::{Turn, worker_turn};
use lb_health_core::health_check::HealthCheck;
use lb_health_core::keys::KeyRule;
use lb_select_base::moments::MomentSource;
use lb_select_base::refusal::Refusal;
use lb_select_base::walk::BackendSelection;
use lb_threads_core::wakes::LONGEST;
use log::{Log, error};
use std::alloc::Global;
use std::sync::Wait;

// What a worker does after a turn.
enum Next {
    // Another turn at once.
    Turn,
    // Another turn after so many nanoseconds, a second at most, or once it is woken.
    Sleep(u128),
    // No more turns.
    End,
}

/// Makes the caller's thread the worker of a slot, unless the slot has one. Returns whether it was the slot's worker.
///
/// It takes turns until the group is cancelled, no build of the slot is under way, and what the slot retired is destroyed and reported.
/// Between turns with nothing to do the thread sleeps: until a retry is due, or until it is woken.
pub fn work<
    S: BackendSelection,
    R: KeyRule + Drop,
    C: HealthCheck + Drop,
    W: Log + Wait,
    K: MomentSource,
>(rt: &W, alloc: Global, group: &SharedGroup<S, R, C>, slot: usize, clock: &mut K) -> bool {
    if !group.claim_slot(slot) {
        return false;
    }
    take_turns(rt, alloc, group, slot, clock);
    group.leave_slot(slot);
    true
}

/// Does what `work` does between `claim_slot` and `leave_slot`, for a caller that calls these itself.
pub fn take_turns<
    S: BackendSelection,
    R: KeyRule + Drop,
    C: HealthCheck + Drop,
    W: Log + Wait,
    K: MomentSource,
>(rt: &W, alloc: Global, group: &SharedGroup<S, R, C>, slot: usize, clock: &mut K) {
    for _ in rt.forever() {
        // A wake from here on ends the sleep below.
        let seen = group.wakes().seen();
        if group.is_let_go() && !group.is_cancelled(rt) {
            // It wakes all, this thread too, so it is done once.
            group.cancel(rt);
        }
        match turn_of(rt, alloc, group, slot, clock) {
            Next::Turn => {}
            Next::Sleep(nanos) => group.wakes().sleep(rt, seen, nanos),
            Next::End => return,
        }
    }
}

fn turn_of<
    S: BackendSelection,
    R: KeyRule + Drop,
    C: HealthCheck + Drop,
    W: Log + Wait,
    K: MomentSource,
>(rt: &W, alloc: Global, group: &SharedGroup<S, R, C>, slot: usize, clock: &mut K) -> Next {
    let mut port = LockedPort {
        group,
        rt,
        found: group.no_words(),
        generator: &group.generator,
    };
    turn_on(alloc, &mut port, slot, clock)
}

// Takes a turn, and returns what comes after it. A build that failed is logged.
fn turn_on<
    'g,
    'r,
    'f,
    S: BackendSelection,
    R: KeyRule + Drop,
    C: HealthCheck + Drop,
    W: Log + Wait,
    K: MomentSource,
>(
    alloc: Global,
    port: &mut LockedPort<'g, 'r, 'f, S, W, R, C>,
    slot: usize,
    clock: &mut K,
) -> Next {
    match worker_turn(alloc, port, slot, clock) {
        Ok(Turn::Published(_) | Turn::Abandoned(_)) => Next::Turn,
        Ok(Turn::Failed(generation, refusal)) => {
            error!(port.rt; "load-balancing selector rebuild failed for generation {generation}: {refusal}");
            Next::Turn
        }
        Ok(Turn::NotDue(moment)) => Next::Sleep(moment.saturating_sub(clock.now())),
        Ok(Turn::Building | Turn::Nothing | Turn::Busy) => Next::Sleep(LONGEST),
        Ok(Turn::Cancelled) => last_turn(port, slot),
        // There is no such slot.
        Err(_) => Next::End,
    }
}

// In a cancelled group: what the slot retired is destroyed and reported once it is no longer read, and then the worker ends, unless
// a build of the slot is still under way.
fn last_turn<'g, 'r, 'f, S: BackendSelection, R: KeyRule + Drop, C: HealthCheck + Drop, W: Wait>(
    port: &mut LockedPort<'g, 'r, 'f, S, W, R, C>,
    slot: usize,
) -> Next {
    // In this order: a build that ends after the look leaves its selector to the thread that built it, and none begins any more.
    let is_building = port.group.is_building(port.rt, slot);
    match port.take_retired(slot) {
        Ok(retired) => {
            let permit = retired.destroy();
            port.destroyed(slot, permit);
            Next::Turn
        }
        Err(Refusal::StillRead(_)) => Next::Sleep(LONGEST),
        Err(_) if is_building => Next::Sleep(LONGEST),
        Err(_) => Next::End,
    }
}

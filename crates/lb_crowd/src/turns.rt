//! Turns that the caller's thread takes for slots of a group.
ghost use Rattle.std.specs.Prelude.{◌≡◌};

use lb_balancer_core::turn::{Turn, worker_turn};
use lb_health_core::health_check::HealthCheck;
use lb_health_core::keys::KeyRule;
use lb_select_base::moments::MomentSource;
use lb_select_base::refusal::Refusal;
use lb_select_base::walk::BackendSelection;
use lb_threads_group::group::SharedGroup;
use lb_threads_group::port::LockedPort;
use std::alloc::Global;
use std::sync::Wait;

/// A clock that always reads the same.
#[derive(Drop)]
pub struct Still {}

impl MomentSource for Still {
    ghost reads = { λ _ m _. m ≡ 10 };

    fn now(&mut self) -> u128 {
        10
    }
}

/// Takes a turn for a slot, by this clock.
///
/// # Errors
///
/// Those of `worker_turn`.
pub fn turn_by<
    S: BackendSelection,
    R: KeyRule + Drop,
    C: HealthCheck + Drop,
    W: Wait,
    K: MomentSource,
>(
    rt: &W,
    alloc: Global,
    group: &SharedGroup<S, R, C>,
    slot: usize,
    clock: &mut K,
) -> Result<Turn, Refusal> {
    let mut port = LockedPort::new(group, rt);
    worker_turn(alloc, &mut port, slot, clock)
}

/// Takes a turn for a slot, by a clock that always reads the same.
///
/// # Errors
///
/// Those of `worker_turn`.
pub fn turn<S: BackendSelection, R: KeyRule + Drop, C: HealthCheck + Drop, W: Wait>(
    rt: &W,
    alloc: Global,
    group: &SharedGroup<S, R, C>,
    slot: usize,
) -> Result<Turn, Refusal> {
    turn_by(rt, alloc, group, slot, &mut Still {})
}

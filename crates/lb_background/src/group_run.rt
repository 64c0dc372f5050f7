//! The run of a group of slots in the background, as a state machine: as that of a balancer, but its notifier waits until each slot serves
//! what was updated last. The caller does what a step returns, and gives what came of it to the next step.
ghost use Rattle.std.specs.Prelude.{◌≡◌, []};
ghost use Rattle.lb_background.specs.History.{IsAfter};
ghost use Rattle.lb_background.specs.Runs.{group_plan};
ghost use Rattle.lb_background.specs.Turns.{fresh};

use crate::event::{Action, Event};
use crate::machine::Machine;
use crate::turns::Turns;
use std::marker::Model;

/// The run of a group. Contracts see how it was made, and what its history says.
///
/// A step is given the least generation that a slot serves then, and 18446744073709551615 where there is no slot.
#[derive(Drop)]
pub struct GroupRun {
    turns: Turns,
}

impl Model for GroupRun {
    ghost use Rattle.lb_background.specs.Turns.{RunValue};

    ghost Value = { RunValue };

    ghost view = { λ r. r.turns };
}

impl GroupRun {
    /// Returns a run that has taken no event.
    ///
    /// Updates and health checks are one-time where their frequency is `None`, in nanoseconds; there are health checks where the group
    /// owns them.
    pub fn new(
        update_frequency: Option<u128>,
        health_check_frequency: Option<u128>,
        owns_checks: bool,
        has_notifier: bool,
    ) -> GroupRun
        ensures made { result ≡ fresh (group_plan update_frequency health_check_frequency owns_checks has_notifier) }
        ensures history { IsAfter result [] }
    {
        let check = if owns_checks {
            Some(health_check_frequency)
        } else {
            None
        };
        GroupRun {
            turns: Turns::new(true, update_frequency, check, has_notifier),
        }
    }
}

impl Machine for GroupRun {
    ghost use Rattle.lb_background.specs.Driven.{is_turn};
    ghost use Rattle.lb_background.specs.History.{IsAfter, IsRun};
    ghost use Rattle.lb_background.specs.Turns.{Plan};

    ghost Plan = { Plan };

    ghost plan = { λ r. r.plan };

    ghost is_run = { IsRun };

    ghost is_after = { IsAfter };

    ghost asks = { is_turn };

    ghost is_right = { λ r h after. after.run };

    fn step(&mut self, now: u128, event: Event, reading: u64) -> Action {
        self.turns.step(now, reading, event)
    }
}

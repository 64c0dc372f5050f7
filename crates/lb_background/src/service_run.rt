//! The run of a service that only checks the health of targets, as a state machine. The caller does what a step returns, and gives what
//! came of it to the next step.
ghost use Rattle.std.specs.Prelude.{◌≡◌, []};
ghost use Rattle.lb_background.specs.Runs.{service_plan};
ghost use Rattle.lb_background.specs.Services.{IsServiceAfter, fresh_service, is_hold, is_waiting, opening, rest_until};
ghost use Rattle.lb_background.specs.Services.{service_answer, service_noted, with_answer};

use crate::background::BackgroundSchedule;
use crate::event::{Action, Event};
use crate::machine::Machine;
use crate::turns::{is_check, is_ready, is_sleep};
use std::marker::Model;

/// The run of a health check service. Contracts see how it was made, and what its history says.
///
/// A step is given the count of targets then.
#[derive(Drop)]
pub struct ServiceRun {
    check: Option<Option<u128>>,
    has_notifier: bool,
    is_begun: bool,
    is_told: bool,
    is_checked: bool,
    schedule: BackgroundSchedule,
    last: Action,
}

impl Model for ServiceRun {
    ghost use Rattle.lb_background.specs.Services.{ServiceValue};

    ghost Value = { ServiceValue };

    ghost view = { λ r. record {
      plan = record { check = r.check; notifier = r.has_notifier };
      begun = r.is_begun;
      told = r.is_told;
      checked = r.is_checked;
      schedule = r.schedule;
      last = r.last;
    } };
}

impl ServiceRun {
    /// Returns a run that has taken no event.
    ///
    /// Where a check is set it is one-time if `frequency`, in nanoseconds, is `None`.
    pub fn new(frequency: Option<u128>, has_check: bool, has_notifier: bool) -> ServiceRun
        ensures made { result ≡ fresh_service (service_plan frequency has_check has_notifier) }
        ensures history { IsServiceAfter result [] }
    {
        ServiceRun {
            check: if has_check { Some(frequency) } else { None },
            has_notifier,
            is_begun: false,
            is_told: false,
            is_checked: false,
            schedule: BackgroundSchedule::new(None, None, 0),
            last: Action::Hold,
        }
    }
}

impl Machine for ServiceRun {
    ghost use Rattle.lb_background.specs.ServiceDriven.{is_asked};
    ghost use Rattle.lb_background.specs.Services.{IsServiceAfter, IsServiceRun, ServicePlan};

    ghost Plan = { ServicePlan };

    ghost plan = { λ r. r.plan };

    ghost is_run = { IsServiceRun };

    ghost is_after = { IsServiceAfter };

    ghost asks = { is_asked };

    ghost is_right = { λ r h after. after.run };

    fn step(&mut self, now: u128, event: Event, reading: u64) -> Action {
        self.take(now, reading, event)
    }
}

impl ServiceRun {
    fn take(&mut self, now: u128, count: u64, event: Event) -> Action
        ensures state { self.new ≡ with_answer (service_noted self.old now event) result }
        ensures action { result ≡ service_answer (service_noted self.old now event) self.old.begun count event }
    {
        let was_begun = self.is_begun;
        self.note(now, &event);
        let action = self.answer(was_begun, count, &event);
        self.last = action;
        action
    }

    // Notes what the event says.
    fn note(&mut self, now: u128, event: &Event)
        ensures { self.new ≡ service_noted self.old now event.now }
    {
        match event {
            Event::Start if !self.is_begun => {
                self.is_begun = true;
                self.is_checked = false;
                self.schedule = BackgroundSchedule::new(None, self.check, now);
            }
            Event::Checked if is_check(&self.last) => {
                self.is_checked = true;
                self.schedule.health_check_finished_at(now);
            }
            Event::Told if is_ready(&self.last) => self.is_told = true,
            Event::Shutdown => self.is_begun = true,
            _ => {}
        }
    }

    // The action after an event that is noted.
    fn answer(&self, was_begun: bool, count: u64, event: &Event) -> Action
        ensures { result ≡ service_answer self.now was_begun count event.now }
    {
        match event {
            Event::Shutdown => Action::Return,
            Event::Start if !was_begun => self.opening(count),
            Event::Checked if is_check(&self.last) => {
                if self.has_notifier && !self.is_told {
                    Action::Ready
                } else {
                    self.rest(count)
                }
            }
            Event::Told if is_ready(&self.last) => self.rest(count),
            Event::Woke if is_sleep(&self.last) => Action::Check,
            Event::Targets if is_waiting(&self.last) => Action::Check,
            Event::ViewRemoved
                if self.is_checked && (is_sleep(&self.last) || is_waiting(&self.last)) => self.rest(
                count,
            ),
            Event::Closed if was_begun && is_hold(&self.last) => Action::Return,
            _ => self.last,
        }
    }

    // What is done at the start.
    fn opening(&self, count: u64) -> Action
        ensures { result ≡ opening self.now.plan.check self.now.plan.notifier count }
    {
        match self.check {
            None if self.has_notifier => Action::Hold,
            None => Action::Return,
            Some(None) if count == 0 => Action::WaitTargets,
            Some(_) => Action::Check,
        }
    }

    // What is done after a check.
    fn rest(&self, count: u64) -> Action
        ensures { result ≡ rest_until self.now.schedule.check_next count }
    {
        match self.schedule.next_health_check() {
            None => Action::Return,
            Some(_) if count == 0 => Action::WaitTargets,
            Some(moment) => Action::SleepUntil(moment),
        }
    }
}

fn is_waiting(action: &Action) -> bool
    ensures { result ≡ is_waiting action.now }
{
    match action {
        Action::WaitTargets => true,
        _ => false,
    }
}

fn is_hold(action: &Action) -> bool
    ensures { result ≡ is_hold action.now }
{
    match action {
        Action::Hold => true,
        _ => false,
    }
}

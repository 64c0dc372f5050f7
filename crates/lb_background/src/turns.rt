//! The turns of a run: an update, the notifier, the health checks and the sleep until the next turn, in this order.
//! The runs of a balancer and of a group differ in what the notifier and the end of a run wait for.
ghost use Rattle.std.specs.Prelude.{◌≡◌};
ghost use Rattle.lb_background.specs.Turns.{action_at, at_check, at_rest, at_tell, at_turn, awaits, has_reached, noted, stage as stage_of};
ghost use Rattle.lb_background.specs.Turns.{is_check, is_ready, is_sleep, is_update, fresh, with_last};

use crate::background::BackgroundSchedule;
use crate::event::{Action, Event};
use std::marker::Model;

// Where a turn goes on after an event: at the first begin, at a later one, the notifier, the check, or the sleep; or the run is over,
// or nothing changes.
#[derive(Clone, Copy, Debug, PartialEq, Eq)]
pub(crate) enum TurnStage {
    Begin,
    Turn,
    Tell,
    Check,
    Rest,
    Over,
    Stay,
}

// A run by turns. `is_begun` is true from its start or its shutdown on; `target` is the generation of the last update.
#[derive(Drop)]
pub(crate) struct Turns {
    of_group: bool,
    update: Option<u128>,
    check: Option<Option<u128>>,
    has_notifier: bool,
    is_begun: bool,
    is_told: bool,
    base: u128,
    target: Option<u64>,
    schedule: BackgroundSchedule,
    last: Action,
}

impl Model for Turns {
    ghost use Rattle.lb_background.specs.Turns.{RunValue};

    ghost Value = { RunValue };

    ghost view = { λ r. record {
      plan = record { of_group = r.of_group; update = r.update; check = r.check; notifier = r.has_notifier };
      begun = r.is_begun;
      told = r.is_told;
      base = r.base;
      target = r.target;
      schedule = r.schedule;
      last = r.last;
    } };
}

impl Turns {
    pub(crate) fn new(
        of_group: bool,
        update: Option<u128>,
        check: Option<Option<u128>>,
        has_notifier: bool,
    ) -> Turns
        ensures { result ≡ fresh (record { of_group = of_group; update = update; check = check; notifier = has_notifier }) }
    {
        Turns {
            of_group,
            update,
            check,
            has_notifier,
            is_begun: false,
            is_told: false,
            base: 0,
            target: None,
            schedule: BackgroundSchedule::new(None, None, 0),
            last: Action::Hold,
        }
    }

    // Takes one event, and returns what is to be done.
    pub(crate) fn step(&mut self, now: u128, given: u64, event: Event) -> Action
        ensures state { self.new ≡ with_last (noted self.old now event) result }
        ensures action { result ≡ action_at (noted self.old now event) (stage_of self.old event) given }
    {
        let stage = self.stage(&event);
        self.note(now, event, stage);
        let action = match stage {
            TurnStage::Begin | TurnStage::Turn => self.at_turn(given),
            TurnStage::Tell => self.at_tell(given),
            TurnStage::Check => self.at_check(),
            TurnStage::Rest => self.at_rest(),
            TurnStage::Over => Action::Return,
            TurnStage::Stay => self.last,
        };
        self.last = action;
        action
    }

    // Where the turn goes on after the event.
    fn stage(&self, event: &Event) -> TurnStage
        ensures { result ≡ stage_of self.now event.now }
    {
        match event {
            Event::Shutdown => TurnStage::Over,
            Event::Start if !self.is_begun => TurnStage::Begin,
            Event::Updated(_) if is_update(&self.last) => TurnStage::Tell,
            Event::Told if is_ready(&self.last) => TurnStage::Check,
            Event::Checked if is_check(&self.last) => TurnStage::Rest,
            Event::Woke if is_sleep(&self.last) => TurnStage::Turn,
            Event::Rebuilt if is_sleep(&self.last) && self.awaits_slots() => TurnStage::Turn,
            _ => TurnStage::Stay,
        }
    }

    // Whether the notifier of a group waits for the slots.
    fn awaits_slots(&self) -> bool
        ensures { result ≡ awaits self.now }
    {
        self.of_group && self.has_notifier && !self.is_told
    }

    // Notes what the event says.
    fn note(&mut self, now: u128, event: Event, stage: TurnStage)
        requires { stage ≡ stage_of self.old event }
        ensures { self.new ≡ noted self.old now event }
    {
        match stage {
            TurnStage::Begin => {
                self.is_begun = true;
                self.base = now;
                self.schedule = BackgroundSchedule::new(Some(self.update), self.check, now);
            }
            TurnStage::Turn => self.base = now,
            TurnStage::Tell => {
                self.schedule.update_finished_at(self.base);
                if let Event::Updated(Ok(generation)) = event {
                    self.target = Some(generation);
                }
            }
            TurnStage::Check => self.is_told = true,
            TurnStage::Rest => self.schedule.health_check_finished_at(self.base),
            TurnStage::Over => self.is_begun = true,
            TurnStage::Stay => {}
        }
    }

    fn at_turn(&self, given: u64) -> Action
        ensures { result ≡ at_turn self.now given }
    {
        if self.schedule.update_is_due(self.base) {
            Action::Update
        } else {
            self.at_tell(given)
        }
    }

    fn at_tell(&self, given: u64) -> Action
        ensures { result ≡ at_tell self.now given }
    {
        if self.has_notifier && !self.is_told && self.has_reached(given) {
            Action::Ready
        } else {
            self.at_check()
        }
    }

    fn at_check(&self) -> Action
        ensures { result ≡ at_check self.now }
    {
        if self.schedule.health_check_is_due(self.base) {
            Action::Check
        } else {
            self.at_rest()
        }
    }

    fn at_rest(&self) -> Action
        ensures { result ≡ at_rest self.now }
    {
        if !self.awaits_slots() && self.schedule.is_idle() {
            Action::Return
        } else {
            Action::SleepUntil(self.schedule.next(self.base))
        }
    }

    // Whether each slot of a group serves what was updated last.
    fn has_reached(&self, least: u64) -> bool
        ensures { result ≡ has_reached self.now least }
    {
        if !self.of_group {
            return true;
        }
        match self.target {
            Some(generation) => generation <= least,
            None => false,
        }
    }
}

fn is_update(action: &Action) -> bool
    ensures { result ≡ is_update action.now }
{
    match action {
        Action::Update => true,
        _ => false,
    }
}

pub(crate) fn is_ready(action: &Action) -> bool
    ensures { result ≡ is_ready action.now }
{
    match action {
        Action::Ready => true,
        _ => false,
    }
}

pub(crate) fn is_check(action: &Action) -> bool
    ensures { result ≡ is_check action.now }
{
    match action {
        Action::Check => true,
        _ => false,
    }
}

pub(crate) fn is_sleep(action: &Action) -> bool
    ensures { result ≡ is_sleep action.now }
{
    match action {
        Action::SleepUntil(_) => true,
        _ => false,
    }
}

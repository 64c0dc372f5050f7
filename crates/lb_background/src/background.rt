//! The schedule of a balancer that runs in the background: its updates and its health checks, each absent, one-time or repeated.
//! A moment is a number of nanoseconds of 128 bits; one that would lie past the last of them is the last of them.
ghost use Rattle.std.specs.Prelude.{◌≡◌, []};
ghost use Rattle.lb_background.specs.Schedule.{after_finish, due, is_idle, is_once, least_moment, next_moment, next_of, schedule_after};
ghost use Rattle.lb_background.specs.Schedule.{update_finished, check_finished};

use std::marker::Model;

// How long a schedule without a next moment sleeps: as many seconds as 32 bits hold, 136 years.
const NEVER: u128 = 4294967295000000000;

/// When updates and health checks are next. Each task is absent, one-time, or has a frequency.
#[derive(Drop)]
pub struct BackgroundSchedule {
    update: Option<Option<u128>>,
    update_next: Option<u128>,
    check: Option<Option<u128>>,
    check_next: Option<u128>,
}

impl Model for BackgroundSchedule {
    ghost use Rattle.lb_background.specs.Schedule.{ScheduleValue};

    ghost Value = { ScheduleValue };

    ghost use Rattle.lb_background.specs.Schedule.{schedule_value};

    ghost view = { λ s. schedule_value s.update s.update_next s.check s.check_next };
}

impl BackgroundSchedule {
    /// Returns a schedule made at `now`: each task that is there is next at that moment.
    ///
    /// `None` is a task that is absent, `Some(None)` one that is done once, `Some(Some(f))` one that is done again `f` after each time.
    pub fn new(
        update: Option<Option<u128>>,
        check: Option<Option<u128>>,
        now: u128,
    ) -> BackgroundSchedule
        ensures { result ≡ schedule_after update check now [] [] }
    {
        BackgroundSchedule {
            update,
            update_next: first_moment(update, now),
            check,
            check_next: first_moment(check, now),
        }
    }

    /// Returns whether an update is due at `now`: its next moment is `now` or earlier.
    pub fn update_is_due(&self, now: u128) -> bool
        ensures { result ≡ due self.now.update_next now }
    {
        is_due(self.update_next, now)
    }

    /// Returns whether a health check is due at `now`: its next moment is `now` or earlier.
    pub fn health_check_is_due(&self, now: u128) -> bool
        ensures { result ≡ due self.now.check_next now }
    {
        is_due(self.check_next, now)
    }

    /// Notes that the update is done, in a turn of that base: it is next by its frequency after the base, or never where it is one-time.
    ///
    /// Of an absent task nothing changes.
    pub fn update_finished_at(&mut self, base: u128)
        ensures { self.new ≡ update_finished self.old base }
    {
        self.update_next = next_after(self.update, base);
    }

    /// Notes that the health check is done, in a turn of that base: it is next by its frequency after the base, or never where it is
    /// one-time.
    ///
    /// Of an absent task nothing changes.
    pub fn health_check_finished_at(&mut self, base: u128)
        ensures { self.new ≡ check_finished self.old base }
    {
        self.check_next = next_after(self.check, base);
    }

    /// Returns the least next moment; 4294967295 seconds after `now` where no task has one.
    pub fn next(&self, now: u128) -> u128
        ensures { result ≡ next_moment self.now now }
    {
        match self.next_scheduled() {
            Some(moment) => moment,
            None => now.saturating_add(NEVER),
        }
    }

    /// Returns the next moment of the health check.
    pub fn next_health_check(&self) -> Option<u128>
        ensures { result ≡ self.now.check_next }
    {
        self.check_next
    }

    /// Returns whether there is a health check, and it is one-time.
    pub fn health_check_is_once(&self) -> bool
        ensures { result ≡ is_once self.now.check }
    {
        match self.check {
            Some(None) => true,
            _ => false,
        }
    }

    /// Returns whether no task has a next moment.
    pub fn is_idle(&self) -> bool
        ensures { result ≡ is_idle self.now }
    {
        self.next_scheduled().is_none()
    }

    // The least next moment, where there is one.
    fn next_scheduled(&self) -> Option<u128>
        ensures { result ≡ least_moment self.now.update_next self.now.check_next }
    {
        match (self.update_next, self.check_next) {
            (Some(update), Some(check)) => Some(update.min(check)),
            (Some(update), None) => Some(update),
            (None, check) => check,
        }
    }
}

// When a task is next that was made then and is not yet done.
fn first_moment(task: Option<Option<u128>>, made: u128) -> Option<u128>
    ensures { result ≡ next_of task made [] }
{
    match task {
        Some(_) => Some(made),
        None => None,
    }
}

// When a task is next that was done in a turn of that base.
fn next_after(task: Option<Option<u128>>, base: u128) -> Option<u128>
    ensures { result ≡ after_finish task base }
{
    match task {
        Some(Some(frequency)) => Some(base.saturating_add(frequency)),
        _ => None,
    }
}

fn is_due(next: Option<u128>, now: u128) -> bool
    ensures { result ≡ due next now }
{
    match next {
        Some(moment) => moment <= now,
        None => false,
    }
}

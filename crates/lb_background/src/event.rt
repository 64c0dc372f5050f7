//! The events that a run takes, and the actions that it returns. The caller does what was returned, and gives the run what came of it with
//! the moment at which it came.

use lb_select_base::refusal::Refusal;

/// An event that a run takes.
#[derive(Clone, Copy, Debug, PartialEq, Eq)]
pub enum Event {
    /// The run begins.
    Start,
    /// An update is done: the newest generation, or why there is none.
    Updated(Result<u64, Refusal>),
    /// The notifier was notified that the balancer is ready.
    Told,
    /// The health checks are done.
    Checked,
    /// The moment came until which to sleep.
    Woke,
    /// A slot serves another generation.
    Rebuilt,
    /// There are targets of health checks.
    Targets,
    /// A view was removed.
    ViewRemoved,
    /// The run is to end.
    Shutdown,
    /// No signal of the end can come any more.
    Closed,
}

/// What is to be done next.
#[derive(Clone, Copy, Debug, PartialEq, Eq)]
pub enum Action {
    /// To update the backends.
    Update,
    /// To run the health checks.
    Check,
    /// To notify the notifier that the balancer is ready.
    Ready,
    /// To wait until this moment, or for an event.
    SleepUntil(u128),
    /// To wait for targets.
    WaitTargets,
    /// To wait for an event.
    Hold,
    /// To end.
    Return,
}

/// What a run waits for, besides its end.
#[derive(Clone, Copy, Debug, PartialEq, Eq)]
pub enum Awaited {
    /// That this moment comes, or what the run depends on changes.
    Moment(u128),
    /// That there are targets of health checks.
    Targets,
    /// The end alone.
    End,
}

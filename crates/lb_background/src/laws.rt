//! What holds of schedules over every list of moments at which their tasks were done, and of runs over every list of events.
//! Each function is a law: it does nothing, and its contract is the law.
ghost use Rattle.lb_background.specs.Laws.{FinishesGiveNext, NoReadyWithoutCheck, ReadyAfterUpdate, ReadyWhereServed};
ghost use Rattle.lb_background.specs.Laws.{ShutRunsReturn, ShutServicesReturn};

/// However often the tasks of a schedule were done, each is next by its frequency after the base at which it was done last, or at the
/// moment at which the schedule was made where it was never done; a one-time task that was done is never next.
pub fn finishes_law()
    ensures { FinishesGiveNext }
{}

/// A run of a balancer or a group that was shut down answers `Return`, at once and ever after.
pub fn shut_runs_return_law()
    ensures { ShutRunsReturn }
{}

/// A run of a balancer or a group is never ready before an update was answered, be it with an error.
pub fn ready_after_update_law()
    ensures { ReadyAfterUpdate }
{}

/// A group's `Ready` that doesn't repeat the last answer comes only where each slot serves a generation that isn't below the one of
/// the last update that succeeded.
pub fn ready_where_served_law()
    ensures { ReadyWhereServed }
{}

/// A health check service that was shut down answers `Return`, at once and ever after.
pub fn shut_services_return_law()
    ensures { ShutServicesReturn }
{}

/// A health check service without a check is never ready.
pub fn no_ready_without_check_law()
    ensures { NoReadyWithoutCheck }
{}

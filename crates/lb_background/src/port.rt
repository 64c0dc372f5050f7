//! The port of a run: its clock, what it reads, its updates and checks, its notifier, and its waits.
ghost use Rattle.std.specs.Prelude.{ℕ, Bool, Result};
ghost use Rattle.lb_background.specs.declared.event.Action.TheVariants.{Check, Ready, Update};
ghost use Rattle.lb_background.specs.Driven.{to_await};

use crate::event::{Awaited, Event};
use lb_select_base::refusal::Refusal;

/// The calls by which a run is driven. For each a relation says what it returns, and what it leaves.
///
/// `can_do` says when a call may be made. A call that no run of the port asks for is refused, or ends the run.
pub trait RunPort {
    ghost use Rattle.lb_background.specs.declared.event.Action.{Action};
    ghost use Rattle.lb_background.specs.declared.event.Awaited.{Awaited};
    ghost use Rattle.lb_background.specs.declared.event.Event.{Event};
    ghost use Rattle.lb_select_base.specs.declared.refusal.Refusal.{Refusal};

    ghost moments: { Self → ℕ → Self → Type 0 };

    ghost readings: { Self → ℕ → Self → Type 0 };

    ghost looks: { Self → Bool → Self → Type 0 };

    // When an action may be asked for.
    ghost can_do: { Action → Type 0 };

    ghost updates: { Self → Result ℕ Refusal → Self → Type 0 };

    ghost checks: { Self → Self → Type 0 };

    ghost tells: { Self → Self → Type 0 };

    ghost waits: { Self → Awaited → Event → Self → Type 0 };

    /// Returns the moment now, in nanoseconds.
    fn now(&mut self) -> u128
        ensures { moments self.old result self.new };

    /// Returns what the run is given with each event: for a service how many targets there are, for a group the least generation that a
    /// slot serves, 18446744073709551615 where there is no slot, and for a balancer nothing that counts.
    fn reading(&mut self) -> u64
        ensures { readings self.old result self.new };

    /// Returns whether the run is to end.
    fn is_shut(&mut self) -> bool
        ensures { looks self.old result self.new };

    /// Updates the backends, and returns the newest generation after it, or why there is no update.
    fn update(&mut self) -> Result<u64, Refusal>
        requires { can_do Update }
        ensures { updates self.old result self.new };

    /// Checks each target once.
    fn check(&mut self)
        requires { can_do Check }
        ensures { checks self.old self.new };

    /// Notifies that what runs is ready.
    fn tell_ready(&mut self)
        requires { can_do Ready }
        ensures { tells self.old self.new };

    /// Waits until what is waited for has come or the run is to end, and returns which event it was.
    ///
    /// At a moment that is `Woke`, or the event of what changed before it; at targets `Targets`; and the end is `Shutdown`, or where a run
    /// waits for it alone `Closed`, once no signal of it can come any more.
    fn wait(&mut self, awaited: Awaited) -> Event
        requires { can_do (to_await awaited) }
        ensures { waits self.old awaited result self.new };
}

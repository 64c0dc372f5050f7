//! What the runs in the background have in common: each is a machine that takes events and answers what is to be done.
ghost use Rattle.std.specs.Prelude.{◌≡◌, ◌≢◌, true, List, ◌∷◌};
ghost use Rattle.lb_background.specs.declared.event.Action.TheVariants.{Return};
ghost use Rattle.lb_background.specs.History.{Heard, begun, heard};

use crate::event::{Action, Event};

/// A run as a state machine: the caller does what a step returns, and gives what came of it to the next step.
pub trait Machine {
    ghost use Rattle.std.specs.Prelude.{Bool, List};
    ghost use Rattle.lb_background.specs.declared.event.Action.{Action};
    ghost use Rattle.lb_background.specs.History.{Heard};

    // How runs are made, and how this one is.
    ghost Plan: { Type 0 };

    ghost plan: { Self → Plan };

    // Whether each answer was right in a run that is made so.
    ghost is_run: { Plan → List Heard → Type 0 };

    // Whether the run has this history.
    ghost is_after: { Self → List Heard → Type 0 };

    // What is asked for by a run that began, but for the end.
    ghost asks: { Action → Bool };

    ghost is_right: { (run : Self) (h : List Heard) → is_after run h → is_run (plan run) h };

    /// Takes an event with its moment and what was read then, and returns what is to be done: what is right after the run's history.
    ///
    /// For an event that doesn't fit what was returned last, that is returned again. It takes no memory.
    fn step(&mut self, now: u128, event: Event, reading: u64) -> Action
        ensures history { (h : List Heard) → is_after self.old h → is_after self.new (heard now reading event result ∷ h) }
        ensures asked { (h : List Heard) → is_after self.old h → begun (heard now reading event result ∷ h) ≡ true → result ≢ Return
            → asks result ≡ true }
        ensures plan { plan self.new ≡ plan self.old };
}

//! Laws of every history of a group that is joined with its view, over definitions alone: each is a function that does nothing at run time
//! and whose contract is the law.
ghost use Rattle.std.specs.Prelude.{◌≡◌, ◌⊎◌, ◌<◌, ◌∷◌, ℕ};
ghost use Rattle.lb_rebuild_core.specs.SlotsHistory.{IsSlotsHistory, past_of, newest, readers};
ghost use Rattle.lb_rebuild_core.specs.GroupHistory.{History, slot_events};
ghost use Rattle.lb_rebuild_core.specs.GroupLaws.{IsInSomeSlot, IsInUse, IsLive, IsShown};

/// The view is at the group's newest generation, and has its membership.
pub fn views_follow()
    ensures { (k : ℕ) (e : History) → IsShown k e }
{}

/// The snapshot of a generation lives while it is the newest, or some slot serves it, has it in a flight or a lost flight, or has a
/// retired selector of it that is not yet reported destroyed; and it lives no longer.
pub fn snapshots_live()
    ensures used { (k slot n : ℕ) (e : History) → IsSlotsHistory (slot_events e) → slot < k → IsInUse slot n e → IsLive k n e }
    ensures newest { (k : ℕ) (e : History) → IsSlotsHistory (slot_events e) → IsLive k (newest (slot_events e)) e }
    ensures read { (k slot n : ℕ) (e : History) → IsSlotsHistory (slot_events e) → slot < k
        → 0 < readers n (past_of slot (slot_events e)) → IsLive k n e }
    ensures ends { (k n : ℕ) (e : History) → IsSlotsHistory (slot_events e) → IsLive k n e
        → (n ≡ newest (slot_events e)) ⊎ IsInSomeSlot k n e }
{}

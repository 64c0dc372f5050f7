//! Laws of every history of a group, over definitions alone: each is a function that does nothing at run time and whose contract is the
//! law. Callers cite them to learn more of an answer than its clause says.
ghost use Rattle.std.specs.Prelude.{◌≡◌, ◌∷◌, Bool, ℕ, slice_get};
ghost use Rattle.lb_rebuild_core.specs.SlotsCalls.{IsJob};
ghost use Rattle.lb_rebuild_core.specs.SlotsHistory.{At, Granted, SlotsEvent, History, IsPast, IsFaithful, IsSlotsHistory, ask_answer};
ghost use Rattle.lb_rebuild_core.specs.Laws.{Accounted, Balanced, Bounded, FlightFits, GetsJob, HasMembers, IsWithin, RisesAt};
ghost use Rattle.lb_rebuild_core.specs.Laws.{ServesNewest};
ghost use Rattle.lb_rebuild_core.specs.Laws.{SlotsAccount, Tells};
ghost use Rattle.lb_rebuild_core.specs.Stands.{Made, StandsFor, permit_in};
ghost use Rattle.lb_rebuild_core.specs.Tasks.{IsTaskOf, TakesBack};
ghost use Rattle.lb_rebuild_core.specs.Values.{SlotsValue, SlotValue, Task};

use lb_select_base::walk::BackendSelection;

/// The ledger balances: each generation was published, coalesced or superseded, waits, or is in flight.
pub fn generations_balance()
    ensures { (h : History) → IsPast h → Balanced h }
{}

/// Each job that was granted has failed, was destroyed as a retired selector, or is the one extra of its slot.
pub fn extras_are_accounted()
    ensures { (h : History) → IsPast h → Accounted h }
{}

/// Over the slots of a group, what was granted and has not ended is what the slots have as extras.
pub fn slots_account()
    ensures { (n : ℕ) (h : History) → IsSlotsHistory h → IsWithin n h → SlotsAccount n h }
{}

/// A flight or a lost flight is above what its slot serves and not past the newest; what stands in a slot beside what it serves has a
/// permit of the group's gate.
pub fn slots_keep<S: BackendSelection>()
    ensures flights { (h : History) → IsPast h → FlightFits h }
    ensures permits { (made : Made S.Config) (h : History) (v : SlotsValue S.Config) (i : ℕ) (x : SlotValue S.Config) → StandsFor made h v
        → slice_get v.slots i ≡ Some x → x.permit ≡ permit_in v.gate x.extra }
{}

/// What a slot serves is never past the newest generation; it never falls, and each publication raises it.
pub fn served_rises()
    ensures bounded { (h : History) → Bounded h }
    ensures rises { (e : SlotsEvent) (h : History) → IsPast (e ∷ h) → RisesAt e h }
{}

/// A slot that neither builds nor waits serves the newest generation.
pub fn idle_serves_newest()
    ensures { (h : History) → ServesNewest h }
{}

/// What an answer to an ask says of the slot; a slot that waits, is due and has no extra gets a job at a free gate.
pub fn answers_tell()
    ensures tells { (h : History) (out : Bool) (now : ℕ) → Tells h (ask_answer h out now) }
    ensures grants { (h : History) (now : ℕ) → GetsJob h now }
{}

/// Where all that came back had the members of its job, jobs and selectors have the members of their generation.
pub fn faithful_members()
    ensures { (h : History) → IsFaithful h → HasMembers h }
{}

/// A job is its slot's flight from its grant on, and stays the flight or the lost flight until it comes back.
pub fn tasks_stay<S: BackendSelection>()
    ensures goes { (made : Made S.Config) (h : History) (slot now : ℕ) (j : Task S.Config) → IsJob made h slot j
        → IsTaskOf made (At slot (Granted now) ∷ h) j }
    ensures stays { (made : Made S.Config) (h : History) (j : Task S.Config) (e : SlotsEvent) → IsSlotsHistory (e ∷ h)
        → IsTaskOf made h j → ¬ TakesBack j.slot e → IsTaskOf made (e ∷ h) j }
{}

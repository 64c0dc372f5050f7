//! Laws of every run of a world: each is what its function ensures, over histories alone.
//! There is no code here and no world: whatever answers as a run does keeps them.
ghost use Rattle.std.specs.Prelude.{◌≡◌, ◌<◌, ◌∷◌, ℕ, length, None};
ghost use Rattle.lb_health_core.specs.RegistryEvents.{registered_after};
ghost use Rattle.lb_rebuild_core.specs.SlotsHistory.{IsPast};
ghost use Rattle.lb_world.specs.Answers.{IsRun};
ghost use Rattle.lb_world.specs.History.{History, registries, made, over, made_at, past};
ghost use Rattle.lb_world.specs.GroupEvents.{JoinsAlike, SchedulesAlike};
ghost use Rattle.lb_world.specs.Headline.{KeepsPromises};
ghost use Rattle.lb_world.specs.Meanings.{meaning_of};
ghost use Rattle.lb_world.specs.Promises.{PermitsOut, SharesAlike, OthersStay, Untouched, IsRegistered};
ghost use Rattle.lb_world.specs.Refused.{TellsAlike, unrefused};
ghost use Rattle.lb_world.specs.declared.answer.Answer.{Answer};
ghost use Rattle.lb_world.specs.Shared.{registry_events};
ghost use Rattle.lb_world.specs.Steps.{Step};

use lb_select_base::walk::BackendSelection;

/// What happens to each slot is a past that can happen, so every law of the crate of groups holds of it.
pub fn pasts_can_happen<S: BackendSelection>()
    ensures { (h : History S.Config) → IsRun (meaning_of S.BackendSelection) h → (g s : ℕ) → IsPast (past g s h) }
{}

/// To a group that isn't there nothing has happened, and nothing is held of its jobs.
pub fn absent_groups<S: BackendSelection>()
    ensures { (h : History S.Config) → IsRun (meaning_of S.BackendSelection) h → (g : ℕ) → made_at g h ≡ None → Untouched g h }
{}

/// A step at one group changes no other's events, neither of its slots nor of its view, and those of no other registry.
pub fn others_stay<S: BackendSelection>()
    ensures { (h : History S.Config) (st : Step S.Config) (a : Answer) → OthersStay h st a }
{}

/// A registry has registered as many views as groups were made over it, so the number of a group's view is its number there.
pub fn views_are_numbered<S: BackendSelection>()
    ensures { (h : History S.Config) → IsRun (meaning_of S.BackendSelection) h → (r : ℕ) → r < length (registries h)
        → registered_after (registry_events r h) ≡ over r (made h) }
{}

/// The view of a group that is not cancelled is registered in the group's registry, and no mark waits for it.
pub fn views_stay_registered<S: BackendSelection>()
    ensures { (h : History S.Config) → IsRun (meaning_of S.BackendSelection) h → (g : ℕ) → IsRegistered g h }
{}

/// What happens to a group is what happens to a group that is joined with its view: the joined events tell the group's own, whatever the
/// cells, and those of an update are what the call does that gives the group its membership.
pub fn groups_stand_on_views<S: BackendSelection>()
    ensures now { (h : History S.Config) → IsRun (meaning_of S.BackendSelection) h → (g : ℕ) → JoinsAlike g h }
    ensures updates { (h : History S.Config) (st : Step S.Config) (a : Answer) → IsRun (meaning_of S.BackendSelection) ((st, a) ∷ h)
        → SchedulesAlike h st a }
{}

/// What a step does to a registry is what the calls of a view do to theirs: an update, and the end of a hold.
pub fn registries_follow_views<S: BackendSelection>()
    ensures { (h : History S.Config) (st : Step S.Config) (a : Answer) → IsRun (meaning_of S.BackendSelection) ((st, a) ∷ h)
        → SharesAlike h st a }
{}

/// A run without all its refused steps is a run, and says the same.
pub fn refused_steps_change_nothing<S: BackendSelection>()
    ensures { (h : History S.Config) → IsRun (meaning_of S.BackendSelection) h
        → IsRun (meaning_of S.BackendSelection) (unrefused h) × TellsAlike h (unrefused h) }
{}

/// The permit of a gate is out where one of its slots has an extra, and nowhere else.
pub fn permits_are_extras<S: BackendSelection>()
    ensures { (h : History S.Config) → IsRun (meaning_of S.BackendSelection) h → PermitsOut h }
{}

/// Every run keeps the headline and the other promises, of each of its steps and after each.
pub fn promises<S: BackendSelection>()
    ensures { (h : History S.Config) → IsRun (meaning_of S.BackendSelection) h → KeepsPromises (meaning_of S.BackendSelection) h }
{}

//! A list of steps from the first one on, with all that is promised of it over plain data: steps, answers, and lists of both.
//! No world is seen in this contract, so it needs nothing of how a world is kept.
ghost use Rattle.std.specs.Prelude.{◌≡◌, [], map, IfOk, IfErr, vec_len};
ghost use Rattle.lb_world.specs.Answers.{IsRun};
ghost use Rattle.lb_world.specs.Headline.{Headline, KeepsPromises};
ghost use Rattle.lb_world.specs.History.{after};
ghost use Rattle.lb_world.specs.Meanings.{meaning_of};
ghost use Rattle.lb_world.specs.Steps.{step_seen};

use crate::answer::Answer;
use crate::step::Step;
use crate::world::World;
use lb_select_base::refusal::Refusal;
use lb_select_base::walk::BackendSelection;
use std::alloc::Global;

/// Takes the steps in their order in a new world, and answers each.
///
/// For every list of steps, a selection answers the first accepted backend among the distinct of its slot's served generation's first
/// `max_iterations` candidates, judged by that generation's live cells, or `None`; an uncancelled slot neither building nor waiting
/// serves the newest; served generations never fall; free gates grant due requests; and beyond last published selectors each gate
/// has at most one building, unpublished or undestroyed.
///
/// # Errors
///
/// `OutOfMemory` where the memory for the answers is refused.
pub fn simulate<S: BackendSelection>(
    alloc: Global,
    steps: Vec<Step<S::Config>>,
) -> Result<Vec<Answer>, Refusal>
    ensures each { IfOk result (λ answers. vec_len answers ≡ vec_len steps) }
    ensures headline { let M = meaning_of S.BackendSelection in
        IfOk result (λ answers. Headline M (after [] (map step_seen steps.items) answers.items)) }
    ensures promises { let M = meaning_of S.BackendSelection in
        IfOk result (λ answers. KeepsPromises M (after [] (map step_seen steps.items) answers.items)) }

    // Every answer is the right one after the steps before it, or `OutOfMemory` where the step takes memory.
    ensures run { let M = meaning_of S.BackendSelection in
        IfOk result (λ answers. IsRun M (after [] (map step_seen steps.items) answers.items)) }
    ensures err { IfErr result (λ r. r ≡ Refusal.OutOfMemory) }
{
    let mut world: World<S> = World::new(alloc);
    world.run(steps)
}

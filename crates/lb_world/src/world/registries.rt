//! The steps at a registry: verdicts of checks, and its targets. A verdict reaches a cell that is kept; the targets are those after the
//! marks that wait.
ghost use Rattle.std.specs.Prelude.{◌≡◌, ◌∷◌};
ghost use Rattle.lb_world.specs.History.{History};
ghost use Rattle.lb_world.specs.Meanings.{meaning_of};
ghost use Rattle.lb_world.specs.Steps as seen;
ghost use Rattle.lb_world.specs.Works.{world_value};
ghost use Rattle.lb_world.specs.Stands.{Stands};

use super::Tables;
use crate::answer::{Answer, TargetList};
use lb_select_base::refusal::Refusal;
use lb_select_base::walk::BackendSelection;

impl<S: BackendSelection> Tables<S> {
    pub(super) fn verdict(&mut self, registry: u64, cell: u64, ok: bool, threshold: usize) -> Answer
        ensures { (h : History S.Config) → Stands (meaning_of S.BackendSelection) (world_value self.old) h
            → Stands (meaning_of S.BackendSelection) (world_value self.new)
            ((seen.verdict registry cell ok threshold, result) ∷ h) }
    {
        if registry as usize >= self.registries.len() {
            return Answer::Refused(Refusal::NoSuch);
        }
        let at = &mut self.registries[registry as usize];
        match at.observe(cell, ok, threshold) {
            Ok(flipped) => Answer::Flipped(flipped),
            Err(refusal) => Answer::Refused(refusal),
        }
    }

    pub(super) fn targets(&mut self, registry: u64) -> Answer
        ensures { (h : History S.Config) → Stands (meaning_of S.BackendSelection) (world_value self.old) h
            → Stands (meaning_of S.BackendSelection) (world_value self.new) ((seen.targets registry, result) ∷ h) }
    {
        if registry as usize >= self.registries.len() {
            return Answer::Refused(Refusal::NoSuch);
        }
        let at = &mut self.registries[registry as usize];
        match at.targets(self.alloc) {
            Ok(targets) => Answer::Targets(TargetList { targets }),
            Err(refusal) => Answer::Refused(refusal),
        }
    }
}

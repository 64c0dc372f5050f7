//! The steps of readers. A reader has a number of its own for good; a number that was never given, or has left, is refused.
ghost use Rattle.std.specs.Prelude.{◌≡◌, ◌∷◌};
ghost use Rattle.lb_world.specs.History.{History};
ghost use Rattle.lb_world.specs.Meanings.{meaning_of};
ghost use Rattle.lb_world.specs.Steps as seen;
ghost use Rattle.lb_world.specs.Works.{world_value};
ghost use Rattle.lb_world.specs.Stands.{IsFounded, Stands};

use super::Tables;
use crate::answer::Answer;
use crate::held::OpenReader;
use lb_select_base::backend::Backend;
use lb_select_base::refusal::Refusal;
use lb_select_base::walk::BackendSelection;
use std::mem;

impl<S: BackendSelection> Tables<S> {
    pub(super) fn enter(&mut self, group: u64, slot: usize) -> Answer
        requires founded { IsFounded (meaning_of S.BackendSelection) (world_value self.old) }
        ensures { (h : History S.Config) → Stands (meaning_of S.BackendSelection) (world_value self.old) h
            → Stands (meaning_of S.BackendSelection) (world_value self.new) ((seen.enter group slot, result) ∷ h) }
    {
        let number = self.readers.len() as u64;
        if group as usize >= self.groups.len() {
            return Answer::Refused(Refusal::NoSuch);
        }
        let entry = &mut self.groups[group as usize];
        let Some(readers) = entry.readers(slot) else {
            return Answer::Refused(Refusal::NoSuch);
        };
        if number == u64::MAX || readers == u64::MAX {
            return Answer::Refused(Refusal::NumbersExhausted);
        }
        let Ok(()) = self.readers.reserve(1) else {
            return Answer::Refused(Refusal::OutOfMemory);
        };
        match entry.enter(slot) {
            Ok(reader) => {
                let generation = reader.generation();
                let held = OpenReader {
                    group: group as usize,
                    reader,
                };
                self.readers.push_reserved(Some(held));
                Answer::Reader(number, generation)
            }
            Err(refusal) => Answer::Refused(refusal),
        }
    }

    pub(super) fn leave(&mut self, reader: u64) -> Answer
        requires founded { IsFounded (meaning_of S.BackendSelection) (world_value self.old) }
        ensures { (h : History S.Config) → Stands (meaning_of S.BackendSelection) (world_value self.old) h
            → Stands (meaning_of S.BackendSelection) (world_value self.new) ((seen.leave reader, result) ∷ h) }
    {
        if reader as usize >= self.readers.len() {
            return Answer::Refused(Refusal::NoSuchReader);
        }
        let place = &mut self.readers[reader as usize];
        let Some(OpenReader { group, reader }) = mem::replace(place, None) else {
            return Answer::Refused(Refusal::NoSuchReader);
        };
        let generation = reader.generation();
        let entry = &mut self.groups[group];
        entry.leave(reader);
        Answer::Left(generation)
    }

    pub(super) fn ready(&mut self, reader: u64, backend: Option<Backend>) -> Answer
        requires founded { IsFounded (meaning_of S.BackendSelection) (world_value self.old) }
        ensures { (h : History S.Config) → Stands (meaning_of S.BackendSelection) (world_value self.old) h
            → Stands (meaning_of S.BackendSelection) (world_value self.new)
            ((seen.ready reader backend, result) ∷ h) }
    {
        let Some(backend) = backend else {
            return Answer::Refused(Refusal::InvalidAddress);
        };
        if reader as usize >= self.readers.len() {
            return Answer::Refused(Refusal::NoSuchReader);
        }
        let Some(held) = &self.readers[reader as usize] else {
            return Answer::Refused(Refusal::NoSuchReader);
        };
        let entry = &self.groups[held.group()];
        let registry = &self.registries[entry.registry()];
        Answer::Ready(entry.ready(held.reader(), registry, &backend))
    }
}

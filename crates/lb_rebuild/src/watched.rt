//! A group with the pass that writes its board, as one value under the group's lock. A membership that is another one and a publication
//! raise one word each, inside the call that makes them; no other call does.
ghost use Rattle.std.specs.Prelude.{◌≡◌, ◌+◌, ◌∷◌, [], None, Ok, Err};
ghost use Rattle.std.specs.Prelude.{IfOk, IfErr, slice_get, length, replicate};
ghost use Rattle.std.specs.Arc.{arc_value};
ghost use Rattle.lb_rebuild_core.specs.Values.{configs_of};
ghost use Rattle.lb_health_view.specs.RegistrySide.{settings_of};
ghost use Rattle.lb_rebuild_core.specs.GroupCalls.{IsScheduled, IsCancelled, IsAsked, IsFailed, IsPublished, IsAbandoned};
ghost use Rattle.lb_rebuild_core.specs.GroupCalls.{IsWorkerLost, IsEntered, IsTicketDrawn, IsLeft, IsTaken, IsReported};
ghost use Rattle.lb_rebuild_core.specs.GroupHistory.{Set};
ghost use Rattle.lb_rebuild_core.specs.GroupStates.{Becomes, IsFounded, SameSite};
ghost use Rattle.lb_rebuild.specs.Watched.{words_of, schedule_steps, publish_steps};

use crate::board::{Board, WritingPass};
use lb_health_core::keys::KeyRule;
use lb_health_core::registry::Registry;
use lb_health_view::view::Settings;
use lb_rebuild_core::answers::{Ask, Publication};
use lb_rebuild_core::gate::GateCore;
use lb_rebuild_core::group::GroupCore;
use lb_rebuild_core::job::{Built, Job};
use lb_rebuild_core::membership::Scheduled;
use lb_rebuild_core::retired::{OwedPermit, Reader, Retired};
use lb_select_base::backend::Backend;
use lb_select_base::refusal::Refusal;
use lb_select_base::walk::BackendSelection;
use std::alloc::Global;
use std::collections::BTreeSet;
use std::marker::Model;
use std::sync::Arc;

/// A group that is joined with its view, and the board of its generations. The words of the board are the group's newest generation and
/// what each slot serves, after every call.
///
/// Contracts see the board, the group, and what was written on the board.
pub struct Watched<S: BackendSelection> {
    core: GroupCore<S>,
    writer: WritingPass,
    board: Arc<Board>,
}

impl<S: BackendSelection> Drop for Watched<S> {
    fn drop(self) {
        let Watched {
            core: _,
            writer: _,
            board: _,
        } = self;
    }
}

impl<S: BackendSelection> Model for Watched<S> {
    ghost use Rattle.std.specs.Prelude.{◌≡◌, length};
    ghost use Rattle.std.specs.Arc.{arc_value};
    ghost use Rattle.lb_rebuild.specs.Watched.{WatchedValue, words_of};

    ghost Value = { WatchedValue S.Config };

    ghost view = { λ w. record {
      board = arc_value w.board;
      core = w.core;
      written = w.writer.words;
      steps = w.writer.steps;
    } };

    ghost invariant = { λ w. (w.writer.board ≡ arc_value w.board) × (w.writer.words ≡ words_of w.core.group)
        × ((arc_value w.board).words ≡ length w.writer.words) };
}

impl<S: BackendSelection> Watched<S> {
    /// Returns the group as it is, on a board of its own, and that board.
    ///
    /// # Errors
    ///
    /// `OutOfMemory` where memory is refused; the group is dropped then.
    pub fn new(alloc: Global, core: GroupCore<S>) -> Result<(Watched<S>, Arc<Board>), Refusal>
        ensures board { IfOk result (λ w. w.0.board ≡ arc_value w.1) }
        ensures words { IfOk result (λ w. w.0.board.words ≡ length core.group.slots + 1) }
        ensures core { IfOk result (λ w. w.0.core ≡ core) }
        ensures refused { IfErr result (λ e. e ≡ Refusal.OutOfMemory) }
    {
        let slots = slot_count(&core);
        let (board, mut writer) = Board::new(alloc, slots)?;
        show_all(&core, &board, &mut writer, slots);
        let board = Arc::new(alloc, board)?;
        let other = Arc::try_clone(&board)?;
        Ok((
            Watched {
                core,
                writer,
                board,
            },
            other,
        ))
    }

    /// Returns the group itself, for the calls that only read.
    pub fn core(&self) -> &GroupCore<S>
        ensures { result.now ≡ self.now.core }
    {
        &self.core
    }

    /// States that some history explains the group, so that what holds after each of its histories holds after one.
    ///
    /// Only for the prover: it does nothing at run time.
    pub fn founded(&self)
        ensures { IsFounded self.now.core }
    {
        // `founded()`, `past()` and `_core` are for the prover alone: they show it the group's invariant, and do nothing at run time.
        self.core.founded();
    }

    /// States that what was written on the board is the group's newest generation and what its slots serve.
    ///
    /// Only for the prover: it does nothing at run time.
    pub fn agrees(&self)
        ensures { self.now.written ≡ words_of self.now.core.group }
    {
        let _core = &self.core;
    }

    /// Makes what was discovered the newest membership where it has other backends than the newest one, at the moment `now`: the view
    /// shows it, and each slot gets an order for it.
    ///
    /// Then the settings reach the backends of the newest membership, that of before or this one.
    ///
    /// # Errors
    ///
    /// `GenerationsExhausted` where the membership is another one and the newest generation is 18446744073709551615;
    /// `GroupCancelled` in a cancelled group; where neither holds and the membership is another one, `NoSuch` where the registry
    /// has no such view, `NumbersExhausted` where no number is left for a cell, and only then `OutOfMemory` where memory is refused.
    /// Group, view and registry are then as before.
    pub fn schedule<R: KeyRule + Drop>(
        &mut self,
        alloc: Global,
        registry: &mut Registry<R>,
        discovered: BTreeSet<Backend>,
        settings: Settings,
        now: u128,
    ) -> Result<Scheduled, Refusal>
        requires registry { registry.old.id ≡ self.old.core.registry }
        ensures scheduled { IsScheduled R.gives self.old.core registry.old discovered.keys (settings_of settings.entries) now result
            self.new.core registry.new }
        ensures board { self.new.board ≡ self.old.board }
        ensures steps { self.new.steps ≡ self.old.steps + schedule_steps result }
    {
        self.core.past();
        let scheduled = self
            .core
            .schedule(alloc, registry, discovered, settings, now)?;
        if scheduled.changed {
            let _words = self.board.word_count();
            self.board.raise(&mut self.writer, 0, scheduled.generation);
            return Ok(scheduled);
        }
        Ok(scheduled)
    }

    /// Stops the rebuilds for good, and marks the view for removal: the registry forgets it at the next call that applies marks.
    ///
    /// Selections and readers go on, and what is under way can still come back. It takes no memory.
    pub fn cancel<R: KeyRule + Drop>(&mut self, registry: &mut Registry<R>)
        requires registry { registry.old.id ≡ self.old.core.registry }
        ensures cancelled { IsCancelled R.gives self.old.core registry.old self.new.core registry.new }
        ensures board { self.new.board ≡ self.old.board }
        ensures steps { self.new.steps ≡ self.old.steps }
    {
        self.core.past();
        self.core.cancel(registry);
    }

    /// Asks for the build that a slot needs next; a job holds the newest snapshot.
    ///
    /// It takes no memory.
    ///
    /// # Errors
    ///
    /// `NoSuch` where no such slot is there.
    pub fn ask(&mut self, slot: usize, gate: &mut GateCore, now: u128) -> Result<Ask<S>, Refusal>
        requires { gate.old.id ≡ self.old.core.group.gate }
        ensures asked { IsAsked self.old.core gate.old slot now result self.new.core gate.new }
        ensures board { self.new.board ≡ self.old.board }
        ensures steps { self.new.steps ≡ self.old.steps }
    {
        self.core.past();
        self.core.ask(slot, gate, now)
    }

    /// Ends the flight or the lost flight of a job that failed, gives its permit back, and releases its snapshot.
    ///
    /// A slot whose job was of the newest generation waits again. It takes no memory.
    ///
    /// # Errors
    ///
    /// The job, where its slot has no flight and no lost flight of its generation. Nothing changes then.
    pub fn fail<R: KeyRule + Drop>(
        &mut self,
        job: Job<S>,
        registry: &mut Registry<R>,
        gate: &mut GateCore,
        now: u128,
    ) -> Result<(), Job<S>>
        requires own { job.group ≡ self.old.core.group.id }
        requires permit { job.permit ≡ self.old.core.group.gate }
        requires config { slice_get (configs_of self.old.core.group) job.slot ≡ Some job.config }
        requires gate { gate.old.id ≡ self.old.core.group.gate }
        requires registry { registry.old.id ≡ self.old.core.registry }
        ensures failed { IsFailed R.gives self.old.core registry.old gate.old job now result self.new.core registry.new gate.new }
        ensures board { self.new.board ≡ self.old.board }
        ensures steps { self.new.steps ≡ self.old.steps }
    {
        self.core.past();
        self.core.fail(job, registry, gate, now)
    }

    /// Serves the selector of a flight, and retires what its slot served before with its readers.
    ///
    /// In a cancelled group, and for a lost flight, the selector is retired unserved, as by `abandon`. It takes no memory.
    ///
    /// # Errors
    ///
    /// The selector, where its slot has no flight and no lost flight of its generation. Nothing changes then.
    pub fn publish(&mut self, built: Built<S>) -> Result<Publication, Built<S>>
        requires own { built.task.group ≡ self.old.core.group.id }
        requires permit { built.task.permit ≡ self.old.core.group.gate }
        requires config { slice_get (configs_of self.old.core.group) built.task.slot ≡ Some built.task.config }
        ensures published { IsPublished self.old.core built result self.new.core }
        ensures board { self.new.board ≡ self.old.board }
        ensures steps { self.new.steps ≡ self.old.steps + publish_steps result }
    {
        self.core.past();
        let _words = self.board.word_count();
        let slot = built.slot();
        let generation = built.generation();
        match self.core.publish(built) {
            Ok(Publication::Published(told)) => {
                self.board.raise(&mut self.writer, slot + 1, generation);
                Ok(Publication::Published(told))
            }
            Ok(Publication::Abandoned(told)) => Ok(Publication::Abandoned(told)),
            Err(built) => Err(built),
        }
    }

    /// Retires the selector of a flight or of a lost flight unserved.
    ///
    /// A slot whose selector was of the newest generation waits again. It takes no memory.
    ///
    /// # Errors
    ///
    /// The selector, where its slot has no flight and no lost flight of its generation. Nothing changes then.
    pub fn abandon(&mut self, built: Built<S>) -> Result<(), Built<S>>
        requires own { built.task.group ≡ self.old.core.group.id }
        requires permit { built.task.permit ≡ self.old.core.group.gate }
        requires config { slice_get (configs_of self.old.core.group) built.task.slot ≡ Some built.task.config }
        ensures abandoned { IsAbandoned self.old.core built result self.new.core }
        ensures board { self.new.board ≡ self.old.board }
        ensures steps { self.new.steps ≡ self.old.steps }
    {
        self.core.past();
        self.core.abandon(built)
    }

    /// Ends a slot's flight as lost: its job or its selector goes on, and the slot keeps the permit, but it is not served any more.
    ///
    /// It takes no memory.
    ///
    /// # Errors
    ///
    /// `NoSuch` where no such slot is there, and `NothingInFlight` where it has no flight.
    pub fn worker_lost(&mut self, slot: usize) -> Result<(), Refusal>
        ensures lost { IsWorkerLost self.old.core slot result self.new.core }
        ensures board { self.new.board ≡ self.old.board }
        ensures steps { self.new.steps ≡ self.old.steps }
    {
        self.core.past();
        self.core.worker_lost(slot)
    }

    /// Enters the selector that a slot serves.
    ///
    /// # Errors
    ///
    /// `NoSuch` where no such slot is there; `NumbersExhausted` where its readers are at 18446744073709551615; `OutOfMemory`
    /// where neither holds and memory is refused. Nothing changes then.
    pub fn enter(&mut self, slot: usize) -> Result<Reader<S>, Refusal>
        ensures entered { IsEntered self.old.core slot result self.new.core }
        ensures board { self.new.board ≡ self.old.board }
        ensures steps { self.new.steps ≡ self.old.steps }
    {
        self.core.past();
        self.core.enter(slot)
    }

    /// Returns the next ticket of the selector that a reader is in, as a group without a view does: each selector has a counter of its
    /// own, which its readers go on in while it is retired. It takes no memory.
    pub fn ticket(&mut self, reader: &Reader<S>) -> u64
        ensures drawn { IsTicketDrawn self.old.core reader.now result self.new.core }
        ensures board { self.new.board ≡ self.old.board }
        ensures steps { self.new.steps ≡ self.old.steps }
    {
        self.core.past();
        self.core.ticket(reader)
    }

    /// Gives an entry back to its slot.
    ///
    /// It takes no memory.
    ///
    /// # Errors
    ///
    /// The reader, where its slot counts no reader of its generation. Nothing changes then.
    pub fn leave(&mut self, reader: Reader<S>) -> Result<(), Reader<S>>
        requires { reader.group ≡ self.old.core.group.id }
        ensures left { IsLeft self.old.core reader result self.new.core }
        ensures board { self.new.board ≡ self.old.board }
        ensures steps { self.new.steps ≡ self.old.steps }
    {
        self.core.past();
        self.core.leave(reader)
    }

    /// Takes a retired selector out of its slot, to be destroyed and then reported.
    ///
    /// It takes no memory.
    ///
    /// # Errors
    ///
    /// `NoSuch` where no such slot is there; `StillRead` with the number of readers that are left in it; `NothingRetired`
    /// where no retired selector is there. Nothing changes then.
    pub fn take_retired(&mut self, slot: usize) -> Result<Retired<S>, Refusal>
        ensures taken { IsTaken self.old.core slot result self.new.core }
        ensures board { self.new.board ≡ self.old.board }
        ensures steps { self.new.steps ≡ self.old.steps }
    {
        self.core.past();
        self.core.take_retired(slot)
    }

    /// Takes the report that the selector which was taken out of that slot is destroyed.
    ///
    /// Its permit goes back to the gate, and its snapshot is released. It takes no memory.
    ///
    /// # Errors
    ///
    /// The permit, where no selector of the slot was taken out. Nothing changes then.
    pub fn destroyed<R: KeyRule + Drop>(
        &mut self,
        slot: usize,
        permit: OwedPermit,
        registry: &mut Registry<R>,
        gate: &mut GateCore,
    ) -> Result<(), OwedPermit>
        requires own { (permit.group ≡ self.old.core.group.id) × (permit.slot ≡ slot) }
        requires permit { permit.gate ≡ self.old.core.group.gate }
        requires gate { gate.old.id ≡ self.old.core.group.gate }
        requires registry { registry.old.id ≡ self.old.core.registry }
        ensures reported { IsReported R.gives self.old.core registry.old gate.old slot permit result self.new.core registry.new
            gate.new }
        ensures board { self.new.board ≡ self.old.board }
        ensures steps { self.new.steps ≡ self.old.steps }
    {
        self.core.past();
        self.core.destroyed(slot, permit, registry, gate)
    }

    /// Enables or disables a backend that a living snapshot lists, by identity; another is left alone.
    ///
    /// It takes no memory.
    pub fn set_enable(&mut self, backend: &Backend, enabled: bool)
        ensures stands { Becomes self.old.core (Set backend.now enabled ∷ []) self.new.core }
        ensures site { SameSite self.old.core self.new.core }
        ensures board { self.new.board ≡ self.old.board }
        ensures steps { self.new.steps ≡ self.old.steps }
    {
        self.core.past();
        self.core.set_enable(backend, enabled);
    }
}

// How many slots a group has.
fn slot_count<S: BackendSelection>(core: &GroupCore<S>) -> usize
    ensures { result ≡ length core.now.group.slots }
{
    core.past();
    for slot in 0..usize::MAX {
        match core.served(slot) {
            Some(_served) => {}
            None => return slot,
        }
    }
    usize::MAX
}

// Writes the generations of a group on a board whose words are 0.
fn show_all<S: BackendSelection>(
    core: &GroupCore<S>,
    board: &Board,
    writer: &mut WritingPass,
    slots: usize,
)
    requires slots { slots ≡ length core.now.group.slots }
    requires board { (writer.old.board ≡ board.now) × (board.now.words ≡ slots + 1) }
    requires words { writer.old.words ≡ replicate (slots + 1) 0 }
    ensures board { writer.new.board ≡ board.now }
    ensures words { writer.new.words ≡ words_of core.now.group }
{
    core.past();
    let newest = core.newest();
    board.raise(writer, 0, newest);
    for slot in 0..slots {
        let Some(served) = core.served(slot) else {
            unreachable!()
        };
        board.raise(writer, slot + 1, served);
    }
}

//! Readings by passes of a group that threads share, and the updates, entries and selections that go with a pass. Readings load a word and
//! take no lock. An entry loads its slot's word under the group's lock, and a selection takes none but those of its words.
ghost use Rattle.std.specs.Prelude.{◌≡◌, ◌≤◌, ◌+◌, ◌⊎◌, ⊤, Ok, IfOk, IfErr, IfSome};
ghost use Rattle.std.specs.Arc.{arc_value};
ghost use Rattle.std.specs.Fn.{FnReturnsAt};
ghost use Rattle.lb_rebuild.specs.Pass.{IsLoad, IsLater, IsReadinessSeen, IsServedSeen, HaveMet, newest_of};
ghost use Rattle.lb_rebuild_core.specs.GroupStates.{IsFounded};
ghost use Rattle.lb_rebuild_core.specs.GroupCalls.{IsEntered};
ghost use Rattle.lb_threads_group.specs.Group.{LeftUnder};
ghost use Rattle.lb_threads_group.specs.Passes.{IsEntryAt, IsUpdateAt};
ghost use Rattle.lb_threads_group.specs.Shared.{IsSame, SelectsByAny};

use crate::found::Found;
use crate::group::SharedGroup;
use crate::port::LockedPort;
use lb_balancer_core::port::TakesReaders;
use lb_health_core::health_check::HealthCheck;
use lb_health_core::keys::KeyRule;
use lb_health_view::discovery::ServiceDiscovery;
use lb_rebuild::board::GroupPass;
use lb_rebuild::watched::Watched;
use lb_rebuild_core::retired::Reader;
use lb_select_base::backend::Backend;
use lb_select_base::moments::MomentSource;
use lb_select_base::refusal::Refusal;
use lb_select_base::walk::BackendSelection;
use lb_select_base::words::WordSource;
use std::alloc::Global;
use std::sync::{Arc, Wait};

impl<S: BackendSelection, R: KeyRule + Drop, C: HealthCheck + Drop> SharedGroup<S, R, C> {
    /// Returns a new pass over the group's generations, without a lock or memory.
    pub fn pass(&self) -> GroupPass
        ensures { result.board ≡ self.now.board }
    {
        self.board.pass()
    }

    /// Returns the newest generation, by one load.
    ///
    /// It never waits, and takes no lock and no memory.
    pub fn backend_generation_as(&self, pass: &mut GroupPass) -> u64
        requires { pass.old.board ≡ self.now.board }
        ensures { IsLoad pass.old 0 result pass.new }
    {
        // `_board` is for the prover alone: it shows it the group's invariant, and does nothing at run time.
        let _board = &self.board;
        self.board.backend_generation_as(pass)
    }

    /// Returns the generation that a slot serves, by one load, or `None` without a load where no such slot is there.
    ///
    /// It never waits, and takes no lock and no memory.
    pub fn selector_generation_as(&self, slot: usize, pass: &mut GroupPass) -> Option<u64>
        requires { pass.old.board ≡ self.now.board }
        ensures { IsServedSeen self.now.board slot pass.old result pass.new }
    {
        let _board = &self.board;
        self.board.selector_generation_as(slot, pass)
    }

    /// Returns whether each slot serves this generation or a later one; true where there is no slot.
    ///
    /// It never waits, and takes no lock and no memory.
    pub fn selectors_ready_for_as(&self, generation: u64, pass: &mut GroupPass) -> bool
        requires { pass.old.board ≡ self.now.board }
        ensures { IsReadinessSeen self.now.board generation pass.old result pass.new }
    {
        let _board = &self.board;
        self.board.selectors_ready_for_as(generation, pass)
    }

    /// Joins what two passes have seen: afterwards neither is below what either was, in any word.
    pub fn meet<W: Wait>(&self, rt: &W, pass: &mut GroupPass, other: &mut GroupPass)
        requires { (pass.old.board ≡ self.now.board) × (other.old.board ≡ self.now.board) }
        ensures { HaveMet self.now.board pass.old other.old pass.new other.new }
    {
        let _board = &self.board;
        self.board.meet(rt, pass, other);
    }

    /// Has a pass see a generation that an update of this group returned: it loads the newest one until it is there.
    pub fn catch_up<W: Wait>(&self, rt: &W, generation: u64, pass: &mut GroupPass)
        requires { pass.old.board ≡ self.now.board }
        ensures seen { generation ≤ newest_of pass.new }
        ensures later { IsLater pass.old pass.new }
    {
        let _board = &self.board;
        let _words = self.board.word_count();
        self.board.catch_up(rt, 0, generation, pass);
    }

    /// Updates the group as `update` does, and has the pass see the newest generation, which is returned.
    ///
    /// The generation that is returned is not past what the pass has seen.
    ///
    /// # Errors
    ///
    /// Those of `update`.
    pub fn update_as<W: Wait, D: ServiceDiscovery, K: MomentSource>(
        &self,
        rt: &W,
        alloc: Global,
        discovery: &D,
        clock: &mut K,
        pass: &mut GroupPass,
    ) -> Result<u64, Refusal>
        requires { pass.old.board ≡ self.now.board }
        ensures { IsUpdateAt R.gives K.reads D.finds discovery.now clock.old self.now pass.old result clock.new pass.new }
    {
        let told = self.update(rt, alloc, discovery, clock);
        if let Ok(generation) = told {
            self.catch_up(rt, generation, pass);
        }
        told
    }

    /// Enters the selector that a slot serves, in the generation that the pass saw last.
    ///
    /// The slot's word is loaded under the lock. Where the load and the group differ, the lock is taken again.
    ///
    /// # Errors
    ///
    /// `NoSuch` exactly where no such slot is there; `NumbersExhausted` where its readers are at 18446744073709551615; `OutOfMemory` where
    /// memory is refused. No reader has entered then.
    pub fn enter_as<W: Wait>(
        &self,
        rt: &W,
        slot: usize,
        pass: &mut GroupPass,
    ) -> Result<Reader<S>, Refusal>
        requires { pass.old.board ≡ self.now.board }
        ensures { IsEntryAt self.now slot pass.old result pass.new }
    {
        let _board = &self.board;
        for _ in rt.forever() {
            let mut held = self.lock.take(rt);
            let Some(found) = self.board.selector_generation_as(slot, pass) else {
                self.lock.put(held);
                return Err(Refusal::NoSuch);
            };
            let entered = enter_at(&mut held.value, slot, found);
            self.lock.put(held);
            match entered {
                Ok(Some(reader)) => return Ok(reader),
                Ok(None) => {}
                Err(refusal) => return Err(refusal),
            }
        }
        unreachable!()
    }

    /// Returns the first accepted backend of the selector that a reader is in, or `None`.
    ///
    /// `accept` is asked once of each of the distinct backends among the first `max_iterations` candidates for `key`, in their order,
    /// until it returns true, while no lock is held.
    ///
    /// # Errors
    ///
    /// `OutOfMemory` where memory is refused.
    pub fn select_in<W: Wait, F: Fn(&Backend) -> bool>(
        &self,
        rt: &W,
        alloc: Global,
        reader: &Reader<S>,
        key: &[u8],
        max_iterations: usize,
        accept: &F,
    ) -> Result<Option<Backend>, Refusal>
        requires { F.IsAlwaysCallable accept.now }
        ensures { SelectsByAny (λ b r. FnReturnsAt F.Fn accept.now b r) max_iterations
            (S.walks reader.now.members reader.now.config key.now) result }
    {
        let mut words = ReaderDraws {
            group: self,
            rt,
            slot: reader.slot(),
            found: self.found_for(rt, reader.slot(), reader.generation()),
        };
        reader.select(alloc, key, &mut words, max_iterations, accept)
    }

    /// Gives an entry of this group back to its slot.
    pub fn leave<W: Wait>(&self, rt: &W, reader: Reader<S>)
        requires { reader.group ≡ self.now.core.group.id }
        ensures { LeftUnder self.now.core reader }
    {
        let mut port = LockedPort {
            group: self,
            rt,
            found: self.no_words(),
            generator: &self.generator,
        };
        port.leave(reader);
    }
}

// The words of a reader's walk. Other walks draw from them too, so a draw may give any word.
#[derive(Drop)]
struct ReaderDraws<'g, 'r, S: BackendSelection, R: KeyRule + Drop, C, W> {
    group: &'g SharedGroup<S, R, C>,
    rt: &'r W,
    slot: usize,
    found: Option<Arc<Found<S, R, C>>>,
}

impl<'g, 'r, S: BackendSelection, R: KeyRule + Drop, C: HealthCheck + Drop, W: Wait> WordSource
    for ReaderDraws<'g, 'r, S, R, C, W> {
    ghost gives = { λ _ _ _. ⊤ };

    fn ticket(&mut self) -> u64 {
        match &self.found {
            Some(found) => found.ticket(),
            None => self.group.ticket(self.slot),
        }
    }

    fn random(&mut self) -> u64 {
        let group = self.group;
        group.generator.random()
    }

    fn load(&self, backend: &Backend) -> u64 {
        let words = match &self.found {
            Some(found) => found.loads(),
            None => None,
        };
        let group = self.group;
        group.loads.get(self.rt, words, backend)
    }
}

// Enters a slot that serves what was found on the board, or enters nothing where it serves another generation.
fn enter_at<S: BackendSelection>(
    watched: &mut Watched<S>,
    slot: usize,
    found: u64,
) -> Result<Option<Reader<S>>, Refusal>
    ensures found { IfOk result (λ o. IfSome o (λ r. (r.slot ≡ slot) × (r.generation ≡ found)
        × (r.group ≡ watched.old.core.group.id))) }
    ensures entered { IfOk result (λ o. IfSome o (λ r. IsFounded watched.old.core
        × IsEntered watched.old.core slot (Ok r) watched.new.core)) }
    ensures refused { IfErr result (λ e. (e ≡ Refusal.NumbersExhausted) ⊎ (e ≡ Refusal.OutOfMemory)) }
    ensures same { IsSame watched.old watched.new }
{
    let core = watched.core();
    core.past();
    let Some(served) = core.served(slot) else {
        return Ok(None);
    };
    if served != found {
        return Ok(None);
    }
    let reader = watched.enter(slot)?;
    Ok(Some(reader))
}

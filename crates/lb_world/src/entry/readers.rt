//! The steps of the readers of a group. A reader comes back to the group that it entered.
ghost use Rattle.std.specs.Prelude.{◌≡◌, Ok};
ghost use Rattle.lb_rebuild_core.specs.SlotsCalls.{at_slot};
ghost use Rattle.lb_rebuild_core.specs.SlotsHistory.{past_of, readers as readers_after, served};
ghost use Rattle.lb_rebuild_core.specs.GroupCalls.{IsEntered, IsLeft, IsReadyFor};
ghost use Rattle.lb_rebuild_core.specs.GroupHistory.{slot_events};
ghost use Rattle.lb_rebuild_core.specs.GroupStates.{After};
ghost use Rattle.lb_world.specs.Rules.{key_gives};
ghost use Rattle.lb_world.specs.Views.{IsOwnReader};
ghost use Rattle.lb_world.specs.Internal.Calls.{with_core, IsCounted};

use super::Entry;
use crate::rule::WorldRegistry;
use lb_rebuild_core::retired::Reader;
use lb_select_base::backend::Backend;
use lb_select_base::refusal::Refusal;
use lb_select_base::walk::BackendSelection;

impl<S: BackendSelection> Entry<S> {
    // How many readers are in what the slot serves, or `None` where no such slot is there.
    pub(crate) fn readers(&self, slot: usize) -> Option<u64>
        ensures { After self.now.core (λ made e.
            result ≡ at_slot made slot (readers_after (served (past_of slot (slot_events e))) (past_of slot (slot_events e)))) }
    {
        self.core.readers(slot)
    }

    // Lets a reader enter what the slot serves.
    pub(crate) fn enter(&mut self, slot: usize) -> Result<Reader<S>, Refusal>
        ensures entered { IsEntered self.old.core slot result self.new.core }
        ensures rest { self.new ≡ with_core self.new.core self.old }
    {
        self.core.enter(slot)
    }

    // Takes back a reader that the slot counts.
    pub(crate) fn leave(&mut self, reader: Reader<S>)
        requires own { IsOwnReader self.old.core reader }
        requires counted { IsCounted self.old.core reader.slot reader.generation }
        ensures left { IsLeft self.old.core reader (Ok tt) self.new.core }
        ensures rest { self.new ≡ with_core self.new.core self.old }
    {
        match self.core.leave(reader) {
            Ok(()) => {}
            Err(_reader) => unreachable!(),
        }
    }

    // Whether a backend is ready in the generation that a reader reads.
    pub(crate) fn ready(
        &self,
        reader: &Reader<S>,
        registry: &WorldRegistry,
        backend: &Backend,
    ) -> bool
        requires own { IsOwnReader self.now.core reader.now }
        requires registry { registry.now.id ≡ self.now.core.registry }
        ensures { IsReadyFor key_gives self.now.core registry.now reader.now backend.now result }
    {
        self.core.ready(reader, registry, backend)
    }
}

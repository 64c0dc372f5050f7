//! Readings by passes of a group that its users own, and the updates, entries and selections that go with a pass. A reading loads words of
//! the group's board: it takes no lock and never waits.
ghost use Rattle.std.specs.Prelude.{◌≡◌};
ghost use Rattle.std.specs.Arc.{arc_value};
ghost use Rattle.std.specs.Fn.{FnReturnsAt};
ghost use Rattle.lb_rebuild.specs.Pass.{IsLoad, IsReadinessSeen, IsServedSeen, HaveMet};
ghost use Rattle.lb_health_view.specs.Discoveries.{FoundBy};
ghost use Rattle.lb_threads_group.specs.Group.{LeftUnder};
ghost use Rattle.lb_threads_group.specs.Passes.{IsEntryAt, IsUpdateAt};
ghost use Rattle.lb_threads_group.specs.Shared.{SelectsByAny};

use crate::group::LoadBalancerGroup;
use lb_balancer_core::configured::Configured;
use lb_health_core::health_check::HealthCheck;
use lb_health_core::keys::KeyRule;
use lb_health_view::discovery::ServiceDiscovery;
use lb_rebuild::board::GroupPass;
use lb_rebuild_core::retired::Reader;
use lb_select_base::backend::Backend;
use lb_select_base::moments::MomentSource;
use lb_select_base::refusal::Refusal;
use lb_select_base::walk::BackendSelection;
use lb_threads_group::group::SharedGroup;
use std::alloc::Global;
use std::sync::Wait;

impl<
    S: BackendSelection,
    D: ServiceDiscovery + Drop,
    R: KeyRule + Drop,
    C: HealthCheck + Drop,
> LoadBalancerGroup<S, D, R, C> {
    /// Returns a new pass over the group's generations, without a lock or memory.
    pub fn pass(&self) -> GroupPass
        ensures { result.board ≡ (arc_value self.now.shared).board }
    {
        let shared: &SharedGroup<Configured<S>, R, C> = &*self.shared;
        shared.pass()
    }

    /// Returns the newest generation, by one load.
    ///
    /// It never waits, and takes no lock and no memory.
    pub fn backend_generation_as(&self, pass: &mut GroupPass) -> u64
        requires { pass.old.board ≡ (arc_value self.now.shared).board }
        ensures { IsLoad pass.old 0 result pass.new }
    {
        let shared: &SharedGroup<Configured<S>, R, C> = &*self.shared;
        shared.backend_generation_as(pass)
    }

    /// Returns the generation that a slot serves, by one load, or `None` without a load where no such slot is there.
    ///
    /// It never waits, and takes no lock and no memory.
    pub fn selector_generation_as(&self, slot: usize, pass: &mut GroupPass) -> Option<u64>
        requires { pass.old.board ≡ (arc_value self.now.shared).board }
        ensures { IsServedSeen (arc_value self.now.shared).board slot pass.old result pass.new }
    {
        let shared: &SharedGroup<Configured<S>, R, C> = &*self.shared;
        shared.selector_generation_as(slot, pass)
    }

    /// Returns whether each slot serves this generation or a later one; true where there is no slot.
    ///
    /// It never waits, and takes no lock and no memory.
    pub fn selectors_ready_for_as(&self, generation: u64, pass: &mut GroupPass) -> bool
        requires { pass.old.board ≡ (arc_value self.now.shared).board }
        ensures { IsReadinessSeen (arc_value self.now.shared).board generation pass.old result pass.new }
    {
        let shared: &SharedGroup<Configured<S>, R, C> = &*self.shared;
        shared.selectors_ready_for_as(generation, pass)
    }

    /// Joins what two passes have seen: afterwards neither is below what either was, in any word.
    pub fn meet<W: Wait>(&self, rt: &W, pass: &mut GroupPass, other: &mut GroupPass)
        requires pass { pass.old.board ≡ (arc_value self.now.shared).board }
        requires other { other.old.board ≡ (arc_value self.now.shared).board }
        ensures { HaveMet (arc_value self.now.shared).board pass.old other.old pass.new other.new }
    {
        let shared: &SharedGroup<Configured<S>, R, C> = &*self.shared;
        shared.meet(rt, pass, other);
    }

    /// Updates the group as `update` does, and has the pass see the newest generation, which is returned.
    ///
    /// The generation that is returned is not past what the pass has seen.
    ///
    /// # Errors
    ///
    /// Those of `update`.
    pub fn update_as<W: Wait, K: MomentSource>(
        &self,
        rt: &W,
        alloc: Global,
        clock: &mut K,
        pass: &mut GroupPass,
    ) -> Result<u64, Refusal>
        requires { pass.old.board ≡ (arc_value self.now.shared).board }
        ensures { IsUpdateAt R.gives K.reads (FoundBy D.finds) self.now.discovery clock.old (arc_value self.now.shared) pass.old result
            clock.new pass.new }
    {
        let told = self.update(rt, alloc, clock);
        if let Ok(generation) = told {
            let shared: &SharedGroup<Configured<S>, R, C> = &*self.shared;
            shared.catch_up(rt, generation, pass);
        }
        told
    }

    /// Enters the selector that a slot serves, in the generation that the pass saw last.
    ///
    /// The slot's word is loaded under the group's lock.
    ///
    /// # Errors
    ///
    /// Those of `SharedGroup::enter_as`. No reader has entered then.
    pub fn enter_as<W: Wait>(
        &self,
        rt: &W,
        slot: usize,
        pass: &mut GroupPass,
    ) -> Result<Reader<Configured<S>>, Refusal>
        requires { pass.old.board ≡ (arc_value self.now.shared).board }
        ensures { IsEntryAt (arc_value self.now.shared) slot pass.old result pass.new }
    {
        let shared: &SharedGroup<Configured<S>, R, C> = &*self.shared;
        shared.enter_as(rt, slot, pass)
    }

    /// Returns the first accepted backend of the selector that a reader is in, or `None`.
    ///
    /// `accept` is asked once of each of the distinct backends among the first `max_iterations` candidates for `key`, in their order,
    /// until it returns true, while no lock is held.
    ///
    /// # Errors
    ///
    /// `OutOfMemory` where memory is refused.
    pub fn select_in<W: Wait, F: Fn(&Backend) -> bool>(
        &self,
        rt: &W,
        alloc: Global,
        reader: &Reader<Configured<S>>,
        key: &[u8],
        max_iterations: usize,
        accept: &F,
    ) -> Result<Option<Backend>, Refusal>
        requires { F.IsAlwaysCallable accept.now }
        ensures { SelectsByAny (λ b r. FnReturnsAt F.Fn accept.now b r) max_iterations
            (S.walks reader.now.members reader.now.config key.now) result }
    {
        let shared: &SharedGroup<Configured<S>, R, C> = &*self.shared;
        shared.select_in(rt, alloc, reader, key, max_iterations, accept)
    }

    /// Gives an entry of this group back to its slot.
    pub fn leave<W: Wait>(&self, rt: &W, reader: Reader<Configured<S>>)
        requires { reader.group ≡ (arc_value self.now.shared).core.group.id }
        ensures { LeftUnder (arc_value self.now.shared).core reader }
    {
        let shared: &SharedGroup<Configured<S>, R, C> = &*self.shared;
        shared.leave(rt, reader);
    }
}

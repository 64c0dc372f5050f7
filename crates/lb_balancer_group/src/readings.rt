//! Readings of a group that its users own. Generations and counts of slots are single loads, once they were changed or read.
ghost use Rattle.std.specs.Prelude.{◌≡◌, ◌+◌, MatchBool};
ghost use Rattle.std.specs.Arc.{arc_value};
ghost use Rattle.lb_rebuild_core.specs.SlotsCalls.{at_slot};
ghost use Rattle.lb_rebuild_core.specs.SlotsHistory.{past_of, is_cancelled, coalesced, failed, served, timing as timing_after};
ghost use Rattle.lb_rebuild_core.specs.GroupHistory.{slot_events};
ghost use Rattle.lb_rebuild_core.specs.GroupStates.{After};
ghost use Rattle.lb_threads_group.specs.Group.{Seen};
ghost use Rattle.lb_threads_group.specs.Numbers.{SawNewest, SawOfSlot};
ghost use Rattle.lb_balancer_core.specs.Timings.{last_timing};
ghost use Rattle.lb_balancer_group.specs.Readiness.{AllServe, OneLags};

use crate::group::LoadBalancerGroup;
use lb_balancer_core::configured::Configured;
use lb_balancer_core::timings::{SelectorUpdateTimings, UpdateTimings};
use lb_health_core::health_check::HealthCheck;
use lb_health_core::keys::KeyRule;
use lb_health_view::discovery::ServiceDiscovery;
use lb_select_base::walk::BackendSelection;
use lb_threads_group::group::SharedGroup;
use std::sync::Wait;

impl<
    S: BackendSelection,
    D: ServiceDiscovery + Drop,
    R: KeyRule + Drop,
    C: HealthCheck + Drop,
> LoadBalancerGroup<S, D, R, C> {
    /// Returns how many slots there are.
    ///
    /// The board has a word for each, and one more for the newest generation.
    pub fn selector_count(&self) -> usize
        ensures { (arc_value self.now.shared).board.words ≡ result + 1 }
    {
        let shared: &SharedGroup<Configured<S>, R, C> = &*self.shared;
        shared.slot_count()
    }

    /// Returns how many slots have a worker now.
    pub fn worker_count(&self) -> usize {
        self.shared.worker_count()
    }

    /// Returns the newest generation of the backends; 0 before the first membership.
    pub fn backend_generation<W: Wait>(&self, rt: &W) -> u64
        ensures { SawNewest (arc_value self.now.shared).core result }
    {
        let shared: &SharedGroup<Configured<S>, R, C> = &*self.shared;
        shared.backend_generation(rt)
    }

    /// Returns whether the group is cancelled.
    pub fn is_cancelled<W: Wait>(&self, rt: &W) -> bool
        ensures { Seen (arc_value self.now.shared).core (λ v. After v (λ made e. result ≡ is_cancelled (slot_events e))) }
    {
        let shared: &SharedGroup<Configured<S>, R, C> = &*self.shared;
        shared.is_cancelled(rt)
    }

    /// Returns the generation that a slot serves, or `None` where no such slot is there.
    pub fn selector_generation<W: Wait>(&self, rt: &W, slot: usize) -> Option<u64>
        ensures { SawOfSlot served (arc_value self.now.shared).core slot result }
    {
        let shared: &SharedGroup<Configured<S>, R, C> = &*self.shared;
        shared.selector_generation(rt, slot)
    }

    /// Returns whether each slot serves this generation or a newer one; true without slots.
    ///
    /// The slots are read one after another.
    pub fn selectors_ready_for<W: Wait>(&self, rt: &W, generation: u64) -> bool
        ensures { MatchBool result (AllServe (arc_value self.now.shared).core generation)
            (OneLags (arc_value self.now.shared).core generation) }
    {
        for slot in 0..usize::MAX {
            match self.selector_generation(rt, slot) {
                None => return true,
                Some(served) if served < generation => return false,
                Some(_) => {}
            }
        }
        true
    }

    // The least generation that a slot serves, read one after another; 18446744073709551615 without slots.
    pub(crate) fn least_served<W: Wait>(&self, rt: &W) -> u64 {
        let mut least = u64::MAX;
        for slot in 0..self.shared.slot_count() {
            if let Some(served) = self.selector_generation(rt, slot) {
                least = least.min(served);
            }
        }
        least
    }

    /// Returns the timing of a slot's last publication, or `None` before the first and where no such slot is there.
    pub fn selector_last_update_timing<W: Wait>(
        &self,
        rt: &W,
        slot: usize,
    ) -> Option<SelectorUpdateTimings>
        ensures { Seen (arc_value self.now.shared).core (λ v. After v (λ made e. result
            ≡ last_timing (at_slot made slot (timing_after (past_of slot (slot_events e)))))) }
    {
        let shared: &SharedGroup<Configured<S>, R, C> = &*self.shared;
        match shared.selector_timing(rt, slot) {
            Some(Some(timing)) => Some(timing.into()),
            Some(None) | None => None,
        }
    }

    /// Returns how many memberships came while an earlier one waited in a slot, or `None` where no such slot is there.
    pub fn selector_coalesced_rebuilds<W: Wait>(&self, rt: &W, slot: usize) -> Option<u64>
        ensures { SawOfSlot coalesced (arc_value self.now.shared).core slot result }
    {
        let shared: &SharedGroup<Configured<S>, R, C> = &*self.shared;
        shared.selector_coalesced(rt, slot)
    }

    /// Returns how many builds of a slot failed, up to 18446744073709551615, or `None` where no such slot is there.
    pub fn selector_failed_rebuilds<W: Wait>(&self, rt: &W, slot: usize) -> Option<u64>
        ensures { SawOfSlot failed (arc_value self.now.shared).core slot result }
    {
        let shared: &SharedGroup<Configured<S>, R, C> = &*self.shared;
        shared.selector_failed(rt, slot)
    }

    /// Returns how long the last accepted update took, whether it was this handle's or that of `shared`; `None` before the first.
    pub fn last_update_timing<W: Wait>(&self, rt: &W) -> Option<UpdateTimings> {
        let shared: &SharedGroup<Configured<S>, R, C> = &*self.shared;
        shared.last_update_timing(rt)
    }
}

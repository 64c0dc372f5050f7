//! Readings of a group that threads share. Each call takes the group's lock once, and returns what was true then; those that take none
//! are in `numbers`.
ghost use Rattle.std.specs.Prelude.{◌≡◌};
ghost use Rattle.lb_rebuild_core.specs.SlotsCalls.{at_slot};
ghost use Rattle.lb_rebuild_core.specs.SlotsHistory.{past_of, is_cancelled, timing as timing_after};
ghost use Rattle.lb_rebuild_core.specs.Stands.{counts_after};
ghost use Rattle.lb_rebuild_core.specs.GroupHistory.{slot_events};
ghost use Rattle.lb_rebuild_core.specs.GroupStates.{After};
ghost use Rattle.lb_threads_group.specs.Group.{Seen};

use crate::group::SharedGroup;
use lb_health_core::health_check::HealthCheck;
use lb_health_core::keys::KeyRule;
use lb_rebuild_core::answers::{Counts, Timing};
use lb_select_base::walk::BackendSelection;
use std::sync::Wait;

impl<S: BackendSelection, R: KeyRule + Drop, C: HealthCheck + Drop> SharedGroup<S, R, C> {
    /// Returns whether the group is cancelled.
    pub fn is_cancelled<W: Wait>(&self, rt: &W) -> bool
        ensures { Seen self.now.core (λ v. After v (λ made e. result ≡ is_cancelled (slot_events e))) }
    {
        // `_gate` and `founded()` are for the prover alone: they show it the group's invariant, and do nothing at run time.
        let _gate = &self.gate;
        let held = self.lock.take(rt);
        let group = held.value.core();
        group.founded();
        let told = group.is_cancelled();
        self.lock.put(held);
        told
    }

    /// Returns the counts of a slot, or `None` where no such slot is there.
    pub fn selector_counts<W: Wait>(&self, rt: &W, slot: usize) -> Option<Counts>
        ensures { Seen self.now.core (λ v. After v (λ made e. result ≡ at_slot made slot (counts_after (past_of slot (slot_events e))))) }
    {
        let _gate = &self.gate;
        let held = self.lock.take(rt);
        self.note_slot(&held.value, slot);
        let group = held.value.core();
        group.founded();
        let counts = group.counts(slot);
        self.lock.put(held);
        counts
    }

    /// Returns the timing of a slot's last publication: `None` where no such slot is there, and none in it before the first.
    pub fn selector_timing<W: Wait>(&self, rt: &W, slot: usize) -> Option<Option<Timing>>
        ensures { Seen self.now.core (λ v. After v (λ made e. result ≡ at_slot made slot (timing_after (past_of slot (slot_events e))))) }
    {
        let _gate = &self.gate;
        let held = self.lock.take(rt);
        let group = held.value.core();
        group.founded();
        let timing = group.timing(slot);
        self.lock.put(held);
        timing
    }
}

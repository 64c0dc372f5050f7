//! What publications do to the lanes of a slot: a reader enters for each lane of the side that requests don't use, and then requests are
//! turned to it. The caller of each has the group's lock.
ghost use Rattle.std.specs.Prelude.{◌≡◌, All};
ghost use Rattle.lb_rebuild_core.specs.GroupStates.{SameSite};
ghost use Rattle.lb_threads_group.specs.Kept.{IsFoundOf};
ghost use Rattle.lb_threads_group.specs.Shared.{IsSame};

use crate::found::{Found, again};
use crate::group::SharedGroup;
use crate::kept::{Entry, SlotLanes};
use lb_health_core::health_check::HealthCheck;
use lb_health_core::keys::KeyRule;
use lb_rebuild::watched::Watched;
use lb_rebuild_core::endings::end_reader;
use lb_rebuild_core::retired::Reader;
use lb_select_base::walk::BackendSelection;
use lb_threads_core::lanes::Side;
use std::sync::Arc;

impl<S: BackendSelection, R: KeyRule + Drop, C: HealthCheck + Drop> SharedGroup<S, R, C> {
    // Has requests that find nothing in the lanes of a slot look again, until `fill_lanes`.
    pub(crate) fn begin_filling(&self, slot: usize) {
        if let Some(lanes) = self.lanes.get(slot) {
            lanes.begin_filling();
        }
    }

    // Where the slot serves this generation, which was just published, turns requests to lanes whose readers are in it and have these
    // words, so that none has to enter, and empties the others.
    pub(crate) fn fill_lanes(
        &self,
        group: &mut Watched<S>,
        slot: usize,
        generation: u64,
        found: &Option<Arc<Found<S, R, C>>>,
    )
        requires site { SameSite self.now.core group.old.core }
        requires found { IsFoundOf self.now found.now }
        ensures { IsSame group.old group.new }
    {
        let Some(lanes) = self.lanes_of(slot) else {
            return;
        };
        let before = lanes.side();
        let is_served = group.core().served(slot) == Some(generation);
        let is_filled = is_served && found.is_some();
        if is_filled {
            for lane in 0..lanes.count() {
                self.fill_lane(group, before.other(), slot, lane as u64, found);
            }
        }
        lanes.end_filling(is_filled);
        if is_served {
            for lane in 0..lanes.count() {
                self.clear_in(group, lanes, before, lane as u64);
            }
        }
    }

    // Has a reader with these words enter for a lane of a slot.
    fn fill_lane(
        &self,
        group: &mut Watched<S>,
        side: Side,
        slot: usize,
        lane: u64,
        found: &Option<Arc<Found<S, R, C>>>,
    )
        requires site { SameSite self.now.core group.old.core }
        requires found { IsFoundOf self.now found.now }
        ensures { IsSame group.old group.new }
    {
        let Some(lanes) = self.lanes_of(slot) else {
            return;
        };
        let found = again(found);
        if found.is_none() {
            return;
        }
        group.founded();
        let Ok(reader) = group.enter(slot) else {
            return;
        };
        let entry = Entry {
            slot,
            reader,
            found,
        };
        if let Some(unneeded) = lanes.renew(side, lane, entry, &self.site) {
            self.leave_in(group, unneeded.into_reader());
        }
    }

    // Empties a lane, and has its reader leave. Where it is read, `sweep_lanes` does once it isn't.
    fn clear_in(&self, group: &mut Watched<S>, lanes: &SlotLanes<S, R, C>, side: Side, lane: u64)
        requires site { SameSite self.now.core group.old.core }
        requires lanes { All (λ lane. lane.slot ≡ self.now) lanes.now.lanes.items }
        ensures { IsSame group.old group.new }
    {
        if let Some(entry) = lanes.clear(side, lane, &self.site) {
            self.leave_in(group, entry.into_reader());
        }
    }

    // Empties the lanes of a slot that are marked and aren't read any more, and has their readers leave.
    pub(crate) fn sweep_lanes(&self, group: &mut Watched<S>, slot: usize)
        requires site { SameSite self.now.core group.old.core }
        ensures { IsSame group.old group.new }
    {
        let Some(lanes) = self.lanes_of(slot) else {
            return;
        };
        let side = lanes.side();
        for lane in 0..lanes.count() {
            self.sweep_in(group, lanes, side, lane as u64);
            self.sweep_in(group, lanes, side.other(), lane as u64);
        }
    }

    // Empties a lane that is marked and isn't read any more, and has its reader leave.
    fn sweep_in(&self, group: &mut Watched<S>, lanes: &SlotLanes<S, R, C>, side: Side, lane: u64)
        requires site { SameSite self.now.core group.old.core }
        requires lanes { All (λ lane. lane.slot ≡ self.now) lanes.now.lanes.items }
        ensures { IsSame group.old group.new }
    {
        if let Some(entry) = lanes.sweep(side, lane, &self.site) {
            self.leave_in(group, entry.into_reader());
        }
    }

    // Has a reader leave, and wakes the workers where one waits for that.
    fn leave_in(&self, group: &mut Watched<S>, reader: Reader<S>)
        requires { reader.group ≡ group.old.core.group.id }
        ensures { IsSame group.old group.new }
    {
        let slot = reader.slot();
        let generation = reader.generation();
        let served = group.core().served(slot);
        let told = group.leave(reader);
        self.wake_if(self.has_last_left(slot, served != Some(generation), told.is_ok()));
        match told {
            Ok(()) => {}
            Err(reader) => end_reader(reader),
        }
    }
}

//! What a slot's lanes have: a reader that entered by the group's lock, and the words that say which backends are ready for it.
//! Selections go on in it without a lock.
ghost use Rattle.std.specs.Prelude.{◌≡◌, All, Err, IfErr, IfOk, IfSome};
ghost use Rattle.lb_threads_group.specs.Group.{EnteredUnder, LeftUnder};
ghost use Rattle.lb_threads_group.specs.Kept.{IsEntry, IsFoundOf, IsLeftOrKept};
ghost use Rattle.lb_threads_group.specs.Shared.{SharedValue};

use crate::found::Found;
use crate::group::SharedGroup;
use crate::port::LockedPort;
use counted_slot::Fits;
use lb_balancer_core::port::SelectPort;
use lb_health_core::health_check::HealthCheck;
use lb_health_core::keys::KeyRule;
use lb_rebuild::watched::Watched;
use lb_rebuild_core::endings::end_reader;
use lb_rebuild_core::retired::Reader;
use lb_select_base::refusal::Refusal;
use lb_select_base::walk::BackendSelection;
use lb_threads_core::lane::Seen;
use lb_threads_core::lanes::{Lanes, Side};
use lb_threads_core::registry::HealthRegistry;
use std::marker::Model;
use std::snapshot::Snapshot;
use std::sync::{Arc, Wait};

// How often a request looks while lanes are filled.
pub(crate) const LOOKS: u32 = 200;

/// Which group and which registry the readers of lanes are of. It has no bytes.
///
/// Contracts see them as they were made, as those of `SharedGroup` do.
#[derive(Drop)]
pub struct Site<S: BackendSelection, R: KeyRule + Drop, C> {
    group: Snapshot<Watched<S>>,
    registry: Snapshot<HealthRegistry<R, C>>,
}

impl<S: BackendSelection, R: KeyRule + Drop, C> Model for Site<S, R, C> {
    ghost use Rattle.lb_threads_group.specs.Shared.{SharedValue};

    ghost Value = { SharedValue S.Config R };

    ghost view = { λ s. record { board = s.group.value.board; core = s.group.value.core; registry = s.registry.value.start } };
}

impl<S: BackendSelection, R: KeyRule + Drop, C> Site<S, R, C> {
    // This group over this registry, as both are.
    pub(crate) fn of(group: &Watched<S>, registry: &HealthRegistry<R, C>) -> Site<S, R, C>
        ensures { result ≡ record { board = group.now.board; core = group.now.core; registry = registry.now.start } }
    {
        Site {
            group: Snapshot::of(group),
            registry: Snapshot::of(registry),
        }
    }
}

/// The lanes of a slot.
pub type SlotLanes<S, R, C> = Lanes<Entry<S, R, C>>;

/// A reader that entered a slot, with the words of its generation, where they are there.
pub struct Entry<S: BackendSelection, R: KeyRule + Drop, C> {
    pub(crate) slot: usize,
    pub(crate) reader: Reader<S>,
    pub(crate) found: Option<Arc<Found<S, R, C>>>,
}

impl<S: BackendSelection, R: KeyRule + Drop, C> Fits for Entry<S, R, C> {
    ghost use Rattle.lb_threads_group.specs.Kept.{IsEntry};

    type Tag = Site<S, R, C>;

    ghost fits = { λ site e. IsEntry site e.slot e.reader e.found };
}

impl<S: BackendSelection, R: KeyRule + Drop, C> Entry<S, R, C> {
    // Its reader.
    pub(crate) fn into_reader(self) -> Reader<S>
        ensures { result ≡ self.reader }
    {
        let Self {
            slot: _,
            reader,
            found: _,
        } = self;
        reader
    }

    // Its words.
    pub(crate) fn words(&self) -> Option<&Found<S, R, C>>
        ensures { (site : SharedValue S.Config R) → IsFoundOf site self.now.found → IfSome result (λ f. f.now.site ≡ site) }
    {
        match &self.found {
            Some(found) => Some(&**found),
            None => None,
        }
    }
}

// A reader that is still in at the end of its group stays in for good.
impl<S: BackendSelection, R: KeyRule + Drop, C> Drop for Entry<S, R, C> {
    fn drop(self) {
        let Self {
            slot: _,
            reader,
            found: _,
        } = self;
        end_reader(reader);
    }
}

impl<S: BackendSelection, R: KeyRule + Drop, C: HealthCheck + Drop> SharedGroup<S, R, C> {
    // The lanes of a slot.
    pub(crate) fn lanes_of(&self, slot: usize) -> Option<&SlotLanes<S, R, C>>
        ensures { IfSome result (λ l. All (λ lane. lane.slot ≡ self.now) l.now.lanes.items) }
    {
        let _site = &self.site;
        self.lanes.get(slot)
    }

    // Whether an entry is of what the slot serves now.
    fn is_present(&self, entry: &Entry<S, R, C>, slot: usize) -> bool {
        let _board = &self.board;
        let mut pass = self.board.pass();
        self.board.selector_generation_as(slot, &mut pass) == Some(entry.reader.generation())
            && self.is_open()
    }

    // Reads what the hint's lane of a slot has, if it is of what the slot serves now.
    #[inline(always)]
    pub(crate) fn seen_in_lane<'g>(
        &'g self,
        slot: usize,
        hint: u64,
    ) -> Option<Seen<'g, Entry<S, R, C>>>
        ensures { IfSome result (λ s. s.hand.tag ≡ self.now) }
    {
        let lanes = self.lanes_of(slot)?;
        let side = lanes.side();
        match self.seen_on(lanes, side, slot, hint) {
            Some(seen) => Some(seen),
            None => self.seen_later(lanes, side, slot, hint),
        }
    }

    // Reads what the hint's lane of a side has, if it is of what the slot serves now.
    #[inline(always)]
    fn seen_on<'g>(
        &'g self,
        lanes: &'g SlotLanes<S, R, C>,
        side: Side,
        slot: usize,
        hint: u64,
    ) -> Option<Seen<'g, Entry<S, R, C>>>
        requires { All (λ lane. lane.slot ≡ self.now) lanes.now.lanes.items }
        ensures { IfSome result (λ s. s.hand.tag ≡ self.now) }
    {
        let _site = &self.site;
        let seen = lanes.read(side, hint, &self.site)?;
        let is_present = match seen.value() {
            Some(entry) => entry.slot == slot && self.is_present(entry, slot),
            None => false,
        };
        if is_present {
            return Some(seen);
        }
        self.end_reading(seen);
        None
    }

    // Reads what the hint's lane has once requests were turned to it, or another one while a publication fills them, which takes some
    // microseconds.
    #[cold]
    #[inline(never)]
    fn seen_later<'g>(
        &'g self,
        lanes: &'g SlotLanes<S, R, C>,
        before: Side,
        slot: usize,
        hint: u64,
    ) -> Option<Seen<'g, Entry<S, R, C>>>
        requires { All (λ lane. lane.slot ≡ self.now) lanes.now.lanes.items }
        ensures { IfSome result (λ s. s.hand.tag ≡ self.now) }
    {
        let mut side = before;
        for _ in 0..LOOKS {
            let (next, lane) = lanes.look_again(side, hint)?;
            if let Some(seen) = self.seen_on(lanes, next, slot, lane) {
                return Some(seen);
            }
            side = next;
        }
        None
    }

    // Ends the reading of a lane. The last reader of one that was marked wakes the workers, one of which empties it.
    pub(crate) fn end_reading(&self, seen: Seen<'_, Entry<S, R, C>>) {
        if seen.end() {
            self.wakes().wake();
        }
    }

    // Leaves the selector that was entered.
    pub(crate) fn leave_entry<W: Wait>(&self, rt: &W, entry: Entry<S, R, C>)
        requires { entry.reader.group ≡ self.now.core.group.id }
        ensures { LeftUnder self.now.core entry.reader }
    {
        self.leave(rt, entry.into_reader());
    }

    // Enters a slot, and takes the words of the reader's generation.
    pub(crate) fn enter_lane<W: Wait>(&self, rt: &W, slot: usize) -> Result<Entry<S, R, C>, Refusal>
        ensures entry { IfOk result (λ e. (e.slot ≡ slot) × IsEntry self.now e.slot e.reader e.found) }
        ensures refused { IfErr result (λ e. EnteredUnder self.now.core slot (Err e)) }
    {
        let mut port = LockedPort {
            group: self,
            rt,
            found: self.no_words(),
            generator: &self.generator,
        };
        let reader = match port.enter(slot) {
            Ok(reader) => reader,
            Err(refusal) => return Err(refusal),
        };
        let found = self.found_for(rt, slot, reader.generation());
        Ok(Entry {
            slot,
            reader,
            found,
        })
    }

    // Puts an entry into the hint's lane of its slot, if it has words: they come with the publication. Where something changed meanwhile,
    // the lane is emptied, so that none has for long what isn't served.
    pub(crate) fn keep<W: Wait>(&self, rt: &W, hint: u64, entry: Entry<S, R, C>)
        requires { IsEntry self.now entry.slot entry.reader entry.found }
        ensures { IsLeftOrKept self.now entry.slot entry.reader }
    {
        let slot = entry.slot;
        let generation = entry.reader.generation();
        let Some(lanes) = self.lanes_of(slot) else {
            self.leave_entry(rt, entry);
            return;
        };
        if entry.found.is_none() {
            self.leave_entry(rt, entry);
            return;
        }
        let side = lanes.side();
        if let Some(unneeded) = lanes.renew(side, hint, entry, &self.site) {
            self.leave_entry(rt, unneeded);
        }
        let mut pass = self.board.pass();
        if self.board.selector_generation_as(slot, &mut pass) != Some(generation)
            || !self.is_open()
        {
            self.clear_lane(rt, lanes, side, hint);
        }
    }

    // Empties a lane, and leaves the selector that its reader was in; where it is read, a worker does once it isn't.
    fn clear_lane<W: Wait>(&self, rt: &W, lanes: &SlotLanes<S, R, C>, side: Side, hint: u64)
        requires { All (λ lane. lane.slot ≡ self.now) lanes.now.lanes.items }
    {
        if let Some(entry) = lanes.clear(side, hint, &self.site) {
            self.leave_entry(rt, entry);
        }
    }
}

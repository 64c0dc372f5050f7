//! Numbers of a group that threads read by one load, without its lock: the newest generation, what each slot serves, and two of its counts.
//! The call that changes one notes it before it gives the group's lock back. The first reading of a number that no call changed notes it.
ghost use Rattle.std.specs.Prelude.{◌≡◌, ◌+◌, ◌*◌, IfErr, IfOk, IfSome, Some};
ghost use Rattle.lb_rebuild_core.specs.GroupStates.{SameSite};
ghost use Rattle.lb_rebuild_core.specs.SlotsHistory.{coalesced, failed, served};
ghost use Rattle.lb_threads_group.specs.Numbers.{SawNewest, SawOfSlot};

use crate::group::SharedGroup;
use lb_health_core::health_check::HealthCheck;
use lb_health_core::keys::KeyRule;
use lb_rebuild::watched::Watched;
use lb_select_base::refusal::Refusal;
use lb_select_base::walk::BackendSelection;
use lb_threads_core::numbers::KeyedNumbers;
use lb_threads_core::word_rule::WordRule;
use std::alloc::Global;
use std::snapshot::Snapshot;
use std::sync::Wait;

/// The number is the one of its place, at some state of the group.
pub struct OfNumbers {}

impl<S: BackendSelection> WordRule<Snapshot<Watched<S>>> for OfNumbers {
    ghost use Rattle.lb_threads_group.specs.Numbers.{IsNumber};

    ghost holds = { λ key place n. IsNumber key.value.core place n };
}

/// The numbers of a group: the newest generation, and then three of each slot.
pub type GroupNumbers<S> = KeyedNumbers<Snapshot<Watched<S>>, OfNumbers>;

// Places for the numbers of so many slots, of which none is noted.
pub(crate) fn numbers_of<S: BackendSelection>(
    alloc: Global,
    slots: usize,
    group: &Snapshot<Watched<S>>,
) -> Result<GroupNumbers<S>, Refusal>
    ensures keyed { IfOk result (λ n. n.words.table.shared.key ≡ group.now) }
    ensures refused { IfErr result (λ e. e ≡ Refusal.OutOfMemory) }
{
    let Some(count) = place_of(slots, 1) else {
        return Err(Refusal::OutOfMemory);
    };
    let numbers = KeyedNumbers::new(alloc, count, group)?;
    Ok(numbers)
}

// The place of a slot's number, if there can be one.
fn place_of(slot: usize, number: usize) -> Option<usize>
    ensures { IfSome result (λ place. place ≡ 3 * slot + number) }
{
    slot.checked_mul(3)?.checked_add(number)
}

impl<S: BackendSelection, R: KeyRule + Drop, C> SharedGroup<S, R, C> {
    // The newest generation, if it was noted.
    pub(crate) fn noted_newest(&self) -> Option<u64>
        ensures { IfSome result (SawNewest self.now.core) }
    {
        let _board = &self.board;
        self.numbers.get(0)
    }

    // What a slot serves, if it was noted.
    fn noted_served(&self, slot: usize) -> Option<u64>
        ensures { IfSome result (λ n. SawOfSlot served self.now.core slot (Some n)) }
    {
        let _board = &self.board;
        let place = place_of(slot, 1)?;
        self.numbers.get(place)
    }

    // How many memberships of a slot were coalesced, if it was noted.
    fn noted_coalesced(&self, slot: usize) -> Option<u64>
        ensures { IfSome result (λ n. SawOfSlot coalesced self.now.core slot (Some n)) }
    {
        let _board = &self.board;
        let place = place_of(slot, 2)?;
        self.numbers.get(place)
    }

    // How many builds of a slot failed, if it was noted.
    fn noted_failed(&self, slot: usize) -> Option<u64>
        ensures { IfSome result (λ n. SawOfSlot failed self.now.core slot (Some n)) }
    {
        let _board = &self.board;
        let place = place_of(slot, 3)?;
        self.numbers.get(place)
    }

    // Notes what a slot serves.
    fn note_served(&self, slot: usize, generation: u64)
        requires { SawOfSlot served self.now.core slot (Some generation) }
    {
        let _board = &self.board;
        if let Some(place) = place_of(slot, 1) {
            self.numbers.note(place, generation);
        }
    }

    // Notes how many memberships of a slot were coalesced.
    fn note_coalesced(&self, slot: usize, count: u64)
        requires { SawOfSlot coalesced self.now.core slot (Some count) }
    {
        let _board = &self.board;
        if let Some(place) = place_of(slot, 2) {
            self.numbers.note(place, count);
        }
    }

    // Notes how many builds of a slot failed.
    fn note_failed(&self, slot: usize, count: u64)
        requires { SawOfSlot failed self.now.core slot (Some count) }
    {
        let _board = &self.board;
        if let Some(place) = place_of(slot, 3) {
            self.numbers.note(place, count);
        }
    }

    // Notes the newest generation.
    fn note_newest(&self, generation: u64)
        requires { SawNewest self.now.core generation }
    {
        let _board = &self.board;
        self.numbers.note(0, generation);
    }

    // Notes the numbers of a slot. The caller holds the group's lock.
    pub(crate) fn note_slot(&self, group: &Watched<S>, slot: usize)
        requires { SameSite self.now.core group.now.core }
    {
        // `_board` and `founded()` are for the prover alone: they show it the group's invariant, and do nothing at run time.
        let _board = &self.board;
        group.founded();
        let core = group.core();
        if let Some(served) = core.served(slot) {
            self.note_served(slot, served);
        }
        if let Some(counts) = core.counts(slot) {
            self.note_coalesced(slot, counts.coalesced);
            self.note_failed(slot, counts.failed);
        }
    }

    // Notes the newest generation, and the numbers of each slot. The caller holds the group's lock.
    pub(crate) fn note_all(&self, group: &Watched<S>)
        requires { SameSite self.now.core group.now.core }
    {
        let _board = &self.board;
        group.founded();
        self.note_newest(group.core().newest());
        for slot in 0..self.words.len() {
            self.note_slot(group, slot);
        }
    }
}

impl<S: BackendSelection, R: KeyRule + Drop, C: HealthCheck + Drop> SharedGroup<S, R, C> {
    /// Returns the newest generation of the backends; 0 before the first membership.
    ///
    /// It is one load, but for the first reading before the first membership, which takes the group's lock.
    pub fn backend_generation<W: Wait>(&self, rt: &W) -> u64
        ensures { SawNewest self.now.core result }
    {
        match self.noted_newest() {
            Some(generation) => generation,
            None => self.newest_under_lock(rt),
        }
    }

    // The newest generation, by the group's lock.
    fn newest_under_lock<W: Wait>(&self, rt: &W) -> u64
        ensures { SawNewest self.now.core result }
    {
        let _board = &self.board;
        let held = self.lock.take(rt);
        self.note_all(&held.value);
        let group = held.value.core();
        group.founded();
        let generation = group.newest();
        self.lock.put(held);
        generation
    }

    /// Returns the generation that a slot serves, or `None` where no such slot is there.
    ///
    /// It is one load, but for the first reading before the first publication, and where no such slot is there: these take the group's
    /// lock.
    pub fn selector_generation<W: Wait>(&self, rt: &W, slot: usize) -> Option<u64>
        ensures { SawOfSlot served self.now.core slot result }
    {
        match self.noted_served(slot) {
            Some(generation) => Some(generation),
            None => self.served_under_lock(rt, slot),
        }
    }

    // The generation that a slot serves, by the group's lock.
    fn served_under_lock<W: Wait>(&self, rt: &W, slot: usize) -> Option<u64>
        ensures { SawOfSlot served self.now.core slot result }
    {
        let _board = &self.board;
        let held = self.lock.take(rt);
        self.note_slot(&held.value, slot);
        let group = held.value.core();
        group.founded();
        let generation = group.served(slot);
        self.lock.put(held);
        generation
    }

    /// Returns how many memberships came while an earlier one waited in a slot, or `None` where no such slot is there.
    ///
    /// It takes the group's lock where `selector_generation` does.
    pub fn selector_coalesced<W: Wait>(&self, rt: &W, slot: usize) -> Option<u64>
        ensures { SawOfSlot coalesced self.now.core slot result }
    {
        match self.noted_coalesced(slot) {
            Some(count) => Some(count),
            None => Some(self.selector_counts(rt, slot)?.coalesced),
        }
    }

    /// Returns how many builds of a slot failed, up to 18446744073709551615, or `None` where no such slot is there.
    ///
    /// It takes the group's lock where `selector_generation` does.
    pub fn selector_failed<W: Wait>(&self, rt: &W, slot: usize) -> Option<u64>
        ensures { SawOfSlot failed self.now.core slot result }
    {
        match self.noted_failed(slot) {
            Some(count) => Some(count),
            None => Some(self.selector_counts(rt, slot)?.failed),
        }
    }
}

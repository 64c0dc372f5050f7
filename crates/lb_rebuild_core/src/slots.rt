//! A group: a membership of backends in numbered generations, and slots that each serve one selector built from it.
//! A call tests all that it can refuse for before it changes anything; builds run elsewhere, between `ask` and `publish`.
ghost use Rattle.std.specs.Prelude.{◌≡◌, ◌≢◌, ◌<◌, ◌++◌, ◌∷◌, [], true, map, length, IfOk, slice_get};
ghost use Rattle.std.specs.Arc.{arc_value};
ghost use Rattle.std.specs.Fn.{FnReturnsAt};
ghost use Rattle.lb_select_base.specs.Loads.{load_in};
ghost use Rattle.lb_select_base.specs.Refusals.{Refuses, least};
ghost use Rattle.lb_rebuild_core.specs.SlotsHistory.{History, Scheduled as ScheduledEvent, Cancelled, WorkerLost, Entered, Left, TakenOut};
ghost use Rattle.lb_rebuild_core.specs.SlotsHistory.{Destroyed, past_of, newest as newest_after, served as served_after, is_cancelled};
ghost use Rattle.lb_rebuild_core.specs.SlotsHistory.{members_of};
ghost use Rattle.lb_rebuild_core.specs.SlotsHistory.{waits as waits_after, readers as readers_after};
ghost use Rattle.lb_rebuild_core.specs.SlotsHistory.{flight_after, extra, is_extra};
ghost use Rattle.lb_rebuild_core.specs.SlotsHistory.{timing as timing_after};
ghost use Rattle.lb_rebuild_core.specs.Internal.Fresh.{fresh_slot};
ghost use Rattle.lb_rebuild_core.specs.SlotSeen.{slot_value};
ghost use Rattle.lb_rebuild_core.specs.Values.{configs_of};
ghost use Rattle.lb_rebuild_core.specs.Stands.{Made, StandsFor, SameSite, After, Becomes, counts_after};
ghost use Rattle.lb_rebuild_core.specs.SlotsCalls.{Schedules, schedule_events, Prepares, Fits, FitsIfThere, IsCommitted, IsOwnJob, Asks};
ghost use Rattle.lb_rebuild_core.specs.SlotsCalls.{ask_events, gate_after, Fails, fail_events, gate_back, Publishes, publish_events};
ghost use Rattle.lb_rebuild_core.specs.SlotsCalls.{Abandons};
ghost use Rattle.lb_rebuild_core.specs.SlotsCalls.{abandon_events, Unless, lose_refusal, done_at, Enters, Leaves, Takes, Reports, at_slot};
ghost use Rattle.lb_rebuild_core.specs.SlotsCalls.{IsTicket, ticket_events, taken_out_at, SelectsIn, select_events};

use crate::answers::{Ask, Counts, Publication, Selection, Timing};
use crate::gate::GateCore;
use crate::identity::Identity;
use crate::job::{Built, Job};
use crate::membership::{
    Prepared, Scheduled, hand_out, orders_for, same_members, shared, turns_of,
};
use crate::place::SlotPlace;
use crate::retired::{OwedPermit, Reader, Retired};
use crate::slot::Slot;
use lb_select_base::backend::Backend;
use lb_select_base::causes::{earlier, memory_apart};
use lb_select_base::loads::Loads;
use lb_select_base::refusal::Refusal;
use lb_select_base::walk::BackendSelection;
use std::alloc::Global;
use std::collections::BTreeSet;
use std::marker::Model;
use std::snapshot::Snapshot;
use std::sync::Arc;

/// A group of slots, each of which serves one selector, and gets the next one by way of a job, a build and a publication.
///
/// Contracts see a record that is a function of the group's history; some history explains every group. A group that is dropped with
/// anything beside what its slots serve keeps the gate's permit for good.
#[derive(Drop)]
pub struct Slots<S: BackendSelection> {
    identity: Identity,
    gate: Snapshot<GateCore>,
    newest: u64,
    current: Arc<BTreeSet<Backend>>,
    scheduled: u128,
    cancelled: bool,
    slots: Vec<Slot<S>>,
}

impl<S: BackendSelection> Model for Slots<S> {
    ghost use Rattle.std.specs.Prelude.{map};
    ghost use Rattle.std.specs.Arc.{arc_value};
    ghost use Rattle.lb_rebuild_core.specs.Values.{SlotsValue};

    ghost Value = { SlotsValue S.Config };

    ghost use Rattle.lb_rebuild_core.specs.SlotSeen.{slot_value};
    ghost use Rattle.lb_rebuild_core.specs.Stands.{IsFounded};

    ghost view = { λ g. record {
      id = g.identity;
      gate = g.gate.value.id;
      newest = g.newest;
      current = (arc_value g.current).keys;
      scheduled = g.scheduled;
      cancelled = g.cancelled;
      slots = map slot_value g.slots.items;
    } };

    ghost invariant = { λ g. IsFounded (record {
      id = g.identity;
      gate = g.gate.value.id;
      newest = g.newest;
      current = (arc_value g.current).keys;
      scheduled = g.scheduled;
      cancelled = g.cancelled;
      slots = map slot_value g.slots.items;
    }) };
}

impl<S: BackendSelection> Slots<S> {
    /// Returns a group of one slot for each configuration, whose extra selectors `gate` allows one at a time.
    ///
    /// Each slot serves a selector over no backends.
    ///
    /// # Errors
    ///
    /// The least cause for which one of the configurations gives no selector over no backends; `OutOfMemory` where there is
    /// none and memory is refused.
    pub fn new(alloc: Global, gate: &GateCore, configs: Vec<S::Config>) -> Result<Slots<S>, Refusal>
        ensures stands { Refuses (least (map (S.refusal []) configs.items))
            (λ g. StandsFor (record { id = g.id; gate = gate.now.id; configs = configs.items }) [] g) result }
        ensures gate { IfOk result (λ g. g.gate ≡ gate.now.id) }
    {
        let slots = fresh_slots(alloc, configs)?;
        let identity = Identity::new(alloc)?;
        Ok(Slots {
            identity,
            gate: Snapshot::of(gate),
            newest: 0,
            current: Arc::new(alloc, BTreeSet::new(alloc))?,
            scheduled: 0,
            cancelled: false,
            slots,
        })
    }

    /// Gives the group this gate for its extra selectors, before its first membership. It takes no memory.
    pub fn with_rebuild_gate(&mut self, gate: &GateCore)
        requires { After self.old (λ made h. newest_after h ≡ 0) }
        ensures stands { After self.old (λ made h. StandsFor (record made { gate = gate.now.id }) h self.new) }
        ensures same { self.new ≡ record self.old { gate = gate.now.id } }
    {
        self.gate = Snapshot::of(gate);
    }

    /// Shows that the gate's permit is out where anything stands in a slot beside what it serves: a flight, a lost flight, or a
    /// selector that is retired or taken out. It takes no memory and changes nothing.
    pub fn extra_is_out(&mut self, slot: usize, gate: &mut GateCore)
        requires { gate.old.id ≡ self.old.gate }
        ensures out { After self.old (λ made h. slot < length made.configs → is_extra (extra (past_of slot h)) ≡ true
            → gate.old.out ≡ true) }
        ensures same { (self.new ≡ self.old) × (gate.new ≡ gate.old) }
    {
        if slot >= self.slots.len() {
            return;
        }
        self.slots[slot].extra_is_out(gate);
    }

    /// Shows that two groups are not the same one. It takes no memory and changes neither.
    pub fn apart<T: BackendSelection>(a: &mut Slots<S>, b: &mut Slots<T>)
        ensures apart { a.old.id ≢ b.old.id }
        ensures same { (a.new ≡ a.old) × (b.new ≡ b.old) }
    {
        Identity::apart(&mut a.identity, &mut b.identity);
    }

    /// States that some history of calls explains this group.
    ///
    /// Only for the prover: it does nothing at run time.
    pub fn past(&self)
        ensures { (made : Made S.Config) × ((h : History) × StandsFor made h self.now) }
    {
        // For the prover alone: this shows it the group's invariant, and does nothing at run time.
        let _newest = self.newest;
    }

    /// Makes this membership the newest where it has other backends than the newest one, at the moment `now`, and gives each slot an order
    /// for it.
    ///
    /// The same membership changes nothing: the attachments of the backends stay those of the first.
    ///
    /// # Errors
    ///
    /// `GenerationsExhausted` where the membership is another one and the newest generation is 18446744073709551615;
    /// `GroupCancelled` in a cancelled group; `OutOfMemory` where the membership is another one, neither holds and memory is
    /// refused. Nothing changes then.
    pub fn schedule(
        &mut self,
        alloc: Global,
        discovered: BTreeSet<Backend>,
        now: u128,
    ) -> Result<Scheduled, Refusal>
        ensures answers { After self.old (λ made h. Schedules made h discovered.keys result) }
        ensures stands { Becomes self.old (schedule_events discovered.keys now result) self.new }
        ensures site { SameSite self.old self.new }
    {
        match self.prepare(alloc, &discovered)? {
            None => Ok(Scheduled {
                generation: self.newest,
                changed: false,
                turns: Vec::new(alloc),
            }),
            Some(prepared) => Ok(self.commit(prepared, now)),
        }
    }

    /// Gets at hand all the memory that this membership takes, where it has other backends than the newest one; `None` where it has the
    /// same.
    ///
    /// Nothing changes yet, so a caller can do more that may be refused before it commits.
    ///
    /// # Errors
    ///
    /// Those of `schedule`.
    pub fn prepare(
        &self,
        alloc: Global,
        discovered: &BTreeSet<Backend>,
    ) -> Result<Option<Prepared<S::Config>>, Refusal>
        ensures answers { After self.now (λ made h. Prepares made h discovered.now.keys result) }
        ensures fits { IfOk result (λ prepared. FitsIfThere self.now prepared) }
    {
        if same_members(discovered, &self.current) {
            if self.cancelled {
                return Err(Refusal::GroupCancelled);
            }
            return Ok(None);
        }
        let newest = self.newest;
        let Some(generation) = newest.checked_add(1) else {
            return Err(Refusal::GenerationsExhausted);
        };
        if self.cancelled {
            return Err(Refusal::GroupCancelled);
        }
        let members = shared(alloc, discovered)?;
        let turns = turns_of(alloc, &self.slots, newest)?;
        let orders = orders_for(alloc, &self.slots, generation, &members)?;
        Ok(Some(Prepared {
            generation,
            members,
            turns,
            orders,
        }))
    }

    /// Makes a membership the newest at the moment `now`, for which this group has just got the memory.
    ///
    /// It takes no memory.
    pub fn commit(&mut self, prepared: Prepared<S::Config>, now: u128) -> Scheduled
        requires { Fits self.old prepared }
        ensures answers { IsCommitted prepared result }
        ensures stands { Becomes self.old (ScheduledEvent prepared.members now ∷ []) self.new }
        ensures site { SameSite self.old self.new }
    {
        let Prepared {
            generation,
            members,
            turns,
            orders,
        } = prepared;
        hand_out(&mut self.slots, self.newest, orders);
        self.newest = generation;
        self.current = members;
        self.scheduled = now;
        Scheduled {
            generation,
            changed: true,
            turns,
        }
    }

    /// Stops the rebuilds for good.
    ///
    /// Selections and readers go on, and what is under way can still come back.
    pub fn cancel(&mut self)
        ensures stands { Becomes self.old (Cancelled ∷ []) self.new }
        ensures site { SameSite self.old self.new }
    {
        self.cancelled = true;
    }

    /// Asks for the build that a slot needs next.
    ///
    /// It takes no memory.
    ///
    /// # Errors
    ///
    /// `NoSuch` where no such slot is there.
    pub fn ask(&mut self, slot: usize, gate: &mut GateCore, now: u128) -> Result<Ask<S>, Refusal>
        requires { gate.old.id ≡ self.old.gate }
        ensures answers { After self.old (λ made h. Asks made h slot gate.old.out now result) }
        ensures stands { Becomes self.old (ask_events slot now result) self.new }
        ensures site { SameSite self.old self.new }
        ensures own { IfOk result (λ a. IsOwnJob self.new a) }
        ensures gate { gate.new ≡ gate_after result gate.old }
        ensures one_gate { gate.new.id ≡ gate.old.id }
    {
        if slot >= self.slots.len() {
            return Err(Refusal::NoSuch);
        }
        let newest = self.newest;
        let scheduled = self.scheduled;
        let cancelled = self.cancelled;
        let place = self.place(slot);
        Ok(self.slots[slot].ask(place, newest, scheduled, cancelled, gate, now))
    }

    /// Ends the flight or the lost flight of a job that failed, and gives its permit back.
    ///
    /// A slot whose job was of the newest generation waits again. It takes no memory.
    ///
    /// # Errors
    ///
    /// The job, where its slot has no flight and no lost flight of its generation. Nothing changes then.
    pub fn fail(&mut self, job: Job<S>, gate: &mut GateCore, now: u128) -> Result<(), Job<S>>
        requires own { job.group ≡ self.old.id }
        requires permit { job.permit ≡ self.old.gate }
        requires config { slice_get (configs_of self.old) job.slot ≡ Some job.config }
        requires gate { gate.old.id ≡ self.old.gate }
        ensures answers { After self.old (λ made h. Fails h job result) }
        ensures stands { Becomes self.old (fail_events job now result) self.new }
        ensures site { SameSite self.old self.new }
        ensures gate { gate.new ≡ gate_back result gate.old }
        ensures one_gate { gate.new.id ≡ gate.old.id }
    {
        let newest = self.newest;
        let slot = job.slot();
        let permit = match self.slots[slot].fail(newest, job, now) {
            Ok(permit) => permit,
            Err(job) => return Err(job),
        };
        gate.give_back(permit);
        Ok(())
    }

    /// Serves the selector of a flight, and retires what its slot served before with its readers.
    ///
    /// In a cancelled group, and for a lost flight, the selector is retired unserved, as by `abandon`. It takes no memory.
    ///
    /// # Errors
    ///
    /// The selector, where its slot has no flight and no lost flight of its generation. Nothing changes then.
    pub fn publish(&mut self, built: Built<S>) -> Result<Publication, Built<S>>
        requires own { built.task.group ≡ self.old.id }
        requires permit { built.task.permit ≡ self.old.gate }
        requires config { slice_get (configs_of self.old) built.task.slot ≡ Some built.task.config }
        ensures answers { After self.old (λ made h. Publishes h built result) }
        ensures stands { Becomes self.old (publish_events built result) self.new }
        ensures site { SameSite self.old self.new }
    {
        let newest = self.newest;
        let cancelled = self.cancelled;
        let slot = built.slot();
        self.slots[slot].publish(newest, cancelled, built)
    }

    /// Retires the selector of a flight or of a lost flight unserved.
    ///
    /// A slot whose selector was of the newest generation waits again. It takes no memory.
    ///
    /// # Errors
    ///
    /// The selector, where its slot has no flight and no lost flight of its generation. Nothing changes then.
    pub fn abandon(&mut self, built: Built<S>) -> Result<(), Built<S>>
        requires own { built.task.group ≡ self.old.id }
        requires permit { built.task.permit ≡ self.old.gate }
        requires config { slice_get (configs_of self.old) built.task.slot ≡ Some built.task.config }
        ensures answers { After self.old (λ made h. Abandons h built result) }
        ensures stands { Becomes self.old (abandon_events built result) self.new }
        ensures site { SameSite self.old self.new }
    {
        let newest = self.newest;
        let slot = built.slot();
        self.slots[slot].abandon(newest, built)
    }

    /// Ends a slot's flight as lost: its job or its selector goes on, and the slot keeps the permit, but it is not served any more.
    ///
    /// It takes no memory.
    ///
    /// # Errors
    ///
    /// `NoSuch` where no such slot is there, and `NothingInFlight` where it has no flight.
    pub fn worker_lost(&mut self, slot: usize) -> Result<(), Refusal>
        ensures answers { After self.old (λ made h. Unless (lose_refusal made slot h) result) }
        ensures stands { Becomes self.old (done_at slot WorkerLost result) self.new }
        ensures site { SameSite self.old self.new }
    {
        if slot >= self.slots.len() {
            return Err(Refusal::NoSuch);
        }
        let newest = self.newest;
        self.slots[slot].lose(newest)
    }

    /// Enters the selector that a slot serves.
    ///
    /// # Errors
    ///
    /// `NoSuch` where no such slot is there; `NumbersExhausted` where its readers are at 18446744073709551615; `OutOfMemory`
    /// where neither holds and memory is refused. Nothing changes then.
    pub fn enter(&mut self, slot: usize) -> Result<Reader<S>, Refusal>
        ensures answers { After self.old (λ made h. Enters made h slot result) }
        ensures stands { Becomes self.old (done_at slot Entered result) self.new }
        ensures site { SameSite self.old self.new }
        ensures own { IfOk result (λ r. r.group ≡ self.new.id) }
    {
        if slot >= self.slots.len() {
            return Err(Refusal::NoSuch);
        }
        let place = self.place(slot);
        self.slots[slot].enter(place)
    }

    /// Returns the next ticket of the selector that a reader is in, in its slot and of its generation.
    ///
    /// Each selector has a counter of its own: a reader of a retired one goes on in that one's, whatever is drawn of its successor. A slot
    /// that neither serves nor has retired a selector of that generation gives 0. It takes no memory.
    pub fn ticket(&mut self, reader: &Reader<S>) -> u64
        ensures answers { After self.old (λ made h. IsTicket made h reader.now.slot reader.now.generation result) }
        ensures stands { After self.old (λ made h. StandsFor made
            (ticket_events made reader.now.slot reader.now.generation result h ++ h) self.new) }
        ensures site { SameSite self.old self.new }
    {
        let slot = reader.slot();
        if slot >= self.slots.len() {
            return 0;
        }
        self.slots[slot].ticket(reader.generation())
    }

    /// Gives an entry back to its slot.
    ///
    /// It takes no memory.
    ///
    /// # Errors
    ///
    /// The reader, where its slot counts no reader of its generation. Nothing changes then.
    pub fn leave(&mut self, reader: Reader<S>) -> Result<(), Reader<S>>
        requires { reader.group ≡ self.old.id }
        ensures answers { After self.old (λ made h. Leaves made h reader result) }
        ensures stands { Becomes self.old (done_at reader.slot (Left reader.generation) result) self.new }
        ensures site { SameSite self.old self.new }
    {
        let slot = reader.slot();
        if slot >= self.slots.len() {
            return Err(reader);
        }
        self.slots[slot].leave(reader)
    }

    /// Takes a retired selector out of its slot, to be destroyed and then reported.
    ///
    /// It takes no memory.
    ///
    /// # Errors
    ///
    /// `NoSuch` where no such slot is there; `StillRead` with the number of readers that are left in it; `NothingRetired`
    /// where no retired selector is there. Nothing changes then.
    pub fn take_retired(&mut self, slot: usize) -> Result<Retired<S>, Refusal>
        ensures answers { After self.old (λ made h. Takes made h slot result) }
        ensures stands { Becomes self.old (done_at slot TakenOut result) self.new }
        ensures site { SameSite self.old self.new }
        ensures own { IfOk result (λ r. (r.group ≡ self.new.id) × (r.slot ≡ slot) × (r.permit ≡ self.new.gate)) }
    {
        if slot >= self.slots.len() {
            return Err(Refusal::NoSuch);
        }
        let place = self.place(slot);
        self.slots[slot].take_retired(place)
    }

    /// Takes the report that the selector which was taken out of that slot is destroyed; its permit goes back to the gate.
    ///
    /// It takes no memory.
    ///
    /// # Errors
    ///
    /// The permit, where no selector of the slot was taken out. Nothing changes then.
    pub fn destroyed(
        &mut self,
        slot: usize,
        permit: OwedPermit,
        gate: &mut GateCore,
    ) -> Result<(), OwedPermit>
        requires own { (permit.group ≡ self.old.id) × (permit.slot ≡ slot) }
        requires permit { permit.gate ≡ self.old.gate }
        requires gate { gate.old.id ≡ self.old.gate }
        ensures answers { After self.old (λ made h. Reports made h slot permit result) }
        ensures stands { Becomes self.old (done_at slot Destroyed result) self.new }
        ensures site { SameSite self.old self.new }
        ensures gate { gate.new ≡ gate_back result gate.old }
        ensures one_gate { gate.new.id ≡ gate.old.id }
    {
        if slot >= self.slots.len() {
            return Err(permit);
        }
        let kept = match self.slots[slot].report() {
            Some(kept) => kept,
            None => return Err(permit),
        };
        permit.end();
        gate.give_back(kept);
        Ok(())
    }

    /// Selects the first backend that `accept` takes among the distinct of the first `limit` candidates of what a slot serves.
    ///
    /// Tickets go on from those that earlier selections drew; random words and loads are the given ones. A slot that is not there selects
    /// nothing.
    ///
    /// The selection is refused `NotEnoughWords` where walks over the selector may draw random words and at most `limit` of them are
    /// given, and then no word is drawn; or `OutOfMemory`. The answer says how many words were drawn, refused or not.
    pub fn select_with<F: Fn(&Backend) -> bool>(
        &mut self,
        alloc: Global,
        slot: usize,
        key: &[u8],
        limit: usize,
        random: &[u64],
        loads: &Loads,
        accept: &F,
    ) -> Selection
        requires { F.IsAlwaysCallable accept.now }
        ensures answers { After self.old (λ made h. SelectsIn S.may_draw_random S.walks (λ b a. FnReturnsAt F.Fn accept.now b a)
            (load_in loads.now) made h slot key.now limit random.now result) }
        ensures stands { After self.old (λ made h. StandsFor made (select_events made slot result ++ h) self.new) }
        ensures site { SameSite self.old self.new }
    {
        if slot >= self.slots.len() {
            return Selection {
                answer: Ok(None),
                drawn: 0,
                tickets: 0,
            };
        }
        self.slots[slot].select(alloc, key, limit, random, loads, accept)
    }

    /// Returns the newest generation; 0 before the first membership.
    pub fn newest(&self) -> u64
        ensures { After self.now (λ made h. result ≡ newest_after h) }
    {
        self.newest
    }

    /// Returns whether the group is cancelled.
    pub fn is_cancelled(&self) -> bool
        ensures { After self.now (λ made h. result ≡ is_cancelled h) }
    {
        self.cancelled
    }

    /// Returns the generation that a slot serves, or `None` where no such slot is there.
    pub fn served(&self, slot: usize) -> Option<u64>
        ensures { After self.now (λ made h. result ≡ at_slot made slot (served_after (past_of slot h))) }
    {
        if slot >= self.slots.len() {
            return None;
        }
        let serving = &self.slots[slot].serving;
        Some(serving.generation)
    }

    /// Returns the generation of the selector that was taken out of a slot and is not yet reported destroyed, or `None` where there is
    /// none.
    pub fn taken_out(&self, slot: usize) -> Option<u64>
        ensures { After self.now (λ made h. result ≡ taken_out_at made slot h) }
    {
        if slot >= self.slots.len() {
            return None;
        }
        self.slots[slot].taken_out()
    }

    /// Returns the generation of a slot's flight, or none: `None` where no such slot is there.
    pub fn flight(&self, slot: usize) -> Option<Option<u64>>
        ensures { After self.now (λ made h. result ≡ at_slot made slot (flight_after (past_of slot h))) }
    {
        if slot >= self.slots.len() {
            return None;
        }
        Some(self.slots[slot].flight())
    }

    /// Returns whether a slot waits for a job or a publication of the newest generation: `None` where no such slot is there.
    pub fn is_waiting(&self, slot: usize) -> Option<bool>
        ensures { After self.now (λ made h. result ≡ at_slot made slot (waits_after (past_of slot h))) }
    {
        if slot >= self.slots.len() {
            return None;
        }
        Some(self.slots[slot].waits(self.newest))
    }

    /// Returns how many readers are in what a slot serves: `None` where no such slot is there.
    pub fn readers(&self, slot: usize) -> Option<u64>
        ensures { After self.now (λ made h.
            result ≡ at_slot made slot (readers_after (served_after (past_of slot h)) (past_of slot h))) }
    {
        if slot >= self.slots.len() {
            return None;
        }
        Some(self.slots[slot].readers)
    }

    /// Returns a borrow of the membership of the newest generation.
    pub fn members(&self) -> &BTreeSet<Backend>
        ensures { After self.now (λ made h. result.now.keys ≡ members_of (newest_after h) h) }
    {
        &self.current
    }

    /// Returns the counts of a slot, or `None` where no such slot is there.
    pub fn counts(&self, slot: usize) -> Option<Counts>
        ensures { After self.now (λ made h. result ≡ at_slot made slot (counts_after (past_of slot h))) }
    {
        if slot >= self.slots.len() {
            return None;
        }
        Some(self.slots[slot].counts)
    }

    /// Returns the timing of a slot's last publication: `None` where no such slot is there, and none in it before the first.
    pub fn timing(&self, slot: usize) -> Option<Option<Timing>>
        ensures { After self.now (λ made h. result ≡ at_slot made slot (timing_after (past_of slot h))) }
    {
        if slot >= self.slots.len() {
            return None;
        }
        Some(self.slots[slot].timing)
    }

    // Where what goes out of a slot belongs.
    fn place(&self, slot: usize) -> SlotPlace
        ensures { result ≡ record { group = self.now.id; slot = slot } }
    {
        SlotPlace {
            group: Snapshot::of(&self.identity),
            slot,
        }
    }
}

// A slot over no backends for each configuration. Each selector is built once; after a refusal the others are built to find the
// least cause.
fn fresh_slots<S: BackendSelection>(
    alloc: Global,
    configs: Vec<S::Config>,
) -> Result<Vec<Slot<S>>, Refusal>
    ensures { Refuses (least (map (S.refusal []) configs.items))
        (λ slots. map slot_value slots.items ≡ map fresh_slot configs.items) result }
{
    let empty = BTreeSet::new(alloc);
    let mut slots = Vec::new(alloc);
    let mut cause = None;
    let mut is_whole = true;
    for config in configs {
        match Slot::fresh(alloc, &empty, config) {
            Ok(slot) => is_whole = slots.push(slot).is_ok() && is_whole,
            Err(refusal) => {
                is_whole = false;
                cause = earlier(cause, memory_apart(refusal));
            }
        }
    }
    match cause {
        Some(refusal) => Err(refusal),
        None if is_whole => Ok(slots),
        None => Err(Refusal::OutOfMemory),
    }
}

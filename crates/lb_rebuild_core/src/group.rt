//! A group joined with its view: a membership reaches both or neither, and each slot holds the snapshots that it has in use.
//! A call tests all that it can refuse for before it changes anything; builds run elsewhere, between `ask` and `publish`.
ghost use Rattle.std.specs.Prelude.{◌≡◌, ◌≢◌, ◌↔◌, ◌<◌, ◌+◌, ◌∷◌, [], true, map, replicate, None, Ok, Err};
ghost use Rattle.std.specs.Prelude.{length, IfOk, IfErr, IfSome, IsTrue, OnErr, slice_get};
ghost use Rattle.std.specs.Arc.{arc_value};
ghost use Rattle.lb_select_base.specs.Loads.{load_in};
ghost use Rattle.lb_select_base.specs.Refusals.{least};
ghost use Rattle.lb_rebuild_core.specs.SlotsHistory.{past_of, newest as newest_after};
ghost use Rattle.lb_rebuild_core.specs.SlotsHistory.{served as served_after, is_cancelled, timing as timing_after};
ghost use Rattle.lb_rebuild_core.specs.SlotsHistory.{waits as waits_after, readers as readers_after};
ghost use Rattle.lb_rebuild_core.specs.SlotsHistory.{extra, flight_after, is_extra};
ghost use Rattle.lb_rebuild_core.specs.Values.{configs_of};
ghost use Rattle.lb_rebuild_core.specs.Stands.{Made, After as AfterGroup, counts_after};
ghost use Rattle.lb_rebuild_core.specs.SlotsCalls.{schedule_refusal, Prepares, FitsIfThere, at_slot};
ghost use Rattle.lb_health_view.specs.RegistrySide.{HasCellIn, IsReady, settings_of};
ghost use Rattle.lb_health_view.specs.Updates.{RegistryRefuses};
ghost use Rattle.lb_health_view.specs.ViewEvents.{Held};
ghost use Rattle.lb_health_view.specs.Views.{IsViewAfter};
ghost use Rattle.lb_health_core.specs.Registry.{HoldsOf};
ghost use Rattle.lb_rebuild_core.specs.GroupCalls.{IsRefusedFor, IsJudged, IsSelected, AcceptsBy};
ghost use Rattle.lb_rebuild_core.specs.GroupCalls.{IsGroupMade, IsMade, IsScheduled, IsCancelled, IsAsked, IsFailed, IsPublished};
ghost use Rattle.lb_rebuild_core.specs.GroupCalls.{IsAbandoned, IsWorkerLost, IsEntered, IsReadyFor, IsTicketDrawn, IsLeft, IsTaken};
ghost use Rattle.lb_rebuild_core.specs.GroupCalls.{IsReported};
ghost use Rattle.lb_rebuild_core.specs.GroupHistory.{History, Set, slot_events, members_now};
ghost use Rattle.lb_rebuild_core.specs.GroupStates.{Stands, IsFounded, After, Becomes, SameSite, views_of};

use crate::answers::{Ask, Counts, Publication, Selection, Timing};
use crate::gate::GateCore;
use crate::job::{Built, Job};
use crate::membership::{Prepared, Scheduled};
use crate::retired::{OwedPermit, Reader, Retired};
use crate::slots;
use lb_health_core::keys::KeyRule;
use lb_health_core::registry::{Registry, RegistryId};
use lb_health_view::view::{Settings, ViewCore};
use lb_select_base::backend::Backend;
use lb_select_base::loads::Loads;
use lb_select_base::refusal::Refusal;
use lb_select_base::walk::BackendSelection;
use std::alloc::Global;
use std::collections::BTreeSet;
use std::marker::Model;
use std::snapshot::Snapshot;
use std::sync::Arc;

/// A group of slots with the view of a registry: each slot serves one selector, built from one of the view's memberships, and the
/// view keeps the snapshots of the generations that a slot serves, builds, or still has to destroy.
///
/// Contracts see the group and the view, and describe both by one history; some history explains every joined group. A registry, a gate,
/// jobs, built selectors, readers and permits that its calls take are its own: each call requires the registry and the gate with which the
/// group was made.
#[derive(Drop)]
pub struct GroupCore<S: BackendSelection> {
    group: slots::Slots<S>,
    view: ViewCore,
    registry: Snapshot<RegistryId>,
}

impl<S: BackendSelection> Model for GroupCore<S> {
    ghost use Rattle.lb_rebuild_core.specs.GroupStates.{GroupValue, IsFounded};

    ghost Value = { GroupValue S.Config };

    ghost view = { λ g. record { group = g.group; view = g.view; registry = g.registry.value } };

    ghost invariant = { λ g. IsFounded (record { group = g.group; view = g.view; registry = g.registry.value }) };
}

impl<S: BackendSelection> GroupCore<S> {
    /// Returns a group of one slot for each configuration, with a view of its own in the registry.
    ///
    /// Each slot serves a selector over no backends, and `gate` allows its extra selectors one at a time.
    ///
    /// # Errors
    ///
    /// The least cause for which one of the configurations gives no selector over no backends; where there is none,
    /// `NumbersExhausted` exactly where no number is left for a view, and else `OutOfMemory` where memory is refused. The registry
    /// is then as before.
    pub fn new<R: KeyRule + Drop>(
        alloc: Global,
        registry: &mut Registry<R>,
        gate: &GateCore,
        configs: Vec<S::Config>,
    ) -> Result<GroupCore<S>, Refusal>
        ensures group { IfOk result (IsGroupMade configs.items gate.now.id registry.old.id) }
        ensures made { IsMade R.gives (least (map (S.refusal []) configs.items)) registry.old result (λ g. g.view.id) registry.new }
    {
        let slots = configs.len();
        let group = match slots::Slots::new(alloc, gate, configs) {
            Ok(group) => group,
            // Where no number is left for a view, that is the refusal, before one for memory.
            Err(Refusal::OutOfMemory) if registry.is_full() => {
                return Err(Refusal::NumbersExhausted);
            }
            Err(refusal) => return Err(refusal),
        };
        let mut view = ViewCore::register(alloc, registry)?;
        hold_first(&mut view, slots);
        Ok(GroupCore {
            group,
            view,
            registry: registry.id(),
        })
    }

    /// Gives the group this gate for its extra selectors, before its first membership. It takes no memory.
    pub fn with_rebuild_gate(&mut self, gate: &GateCore)
        requires { After self.old (λ made e. newest_after (slot_events e) ≡ 0) }
        ensures stands { After self.old (λ made e. Stands (record made { gate = gate.now.id }) e self.new) }
        ensures same { self.new ≡ record self.old { group = record self.old.group { gate = gate.now.id } } }
    {
        self.group.with_rebuild_gate(gate);
    }

    /// Shows that two groups are not the same one. It takes no memory and changes neither.
    pub fn apart<T: BackendSelection>(a: &mut GroupCore<S>, b: &mut GroupCore<T>)
        ensures apart { a.old.group.id ≢ b.old.group.id }
        ensures same { (a.new ≡ a.old) × (b.new ≡ b.old) }
    {
        slots::Slots::apart(&mut a.group, &mut b.group);
    }

    /// Shows that the gate's permit is out where anything stands in a slot beside what it serves: a flight, a lost flight, or a
    /// selector that is retired or taken out. It takes no memory and changes nothing.
    pub fn extra_is_out(&mut self, slot: usize, gate: &mut GateCore)
        requires { gate.old.id ≡ self.old.group.gate }
        ensures out { After self.old (λ made e. slot < length made.configs → is_extra (extra (past_of slot (slot_events e))) ≡ true
            → gate.old.out ≡ true) }
        ensures same { (self.new ≡ self.old) × (gate.new ≡ gate.old) }
    {
        self.group.extra_is_out(slot, gate);
    }

    /// States that some history of calls explains the group and its view.
    ///
    /// Only for the prover: it does nothing at run time.
    pub fn past(&self)
        ensures { (made : Made S.Config) × ((e : History) × Stands made e self.now) }
    {
        // For the prover alone: this shows it the view's invariant, and does nothing at run time.
        let _view = &self.view;
    }

    /// Returns the number of the group's view in its registry.
    pub fn id(&self) -> u64
        ensures { result ≡ self.now.view.id }
    {
        self.view.id()
    }

    /// Makes what was discovered the newest membership where it has other backends than the newest one, at the moment `now`: the view
    /// shows it, and each slot gets an order for it.
    ///
    /// Then the settings reach the backends of the newest membership, that of before or this one.
    ///
    /// # Errors
    ///
    /// `GenerationsExhausted` where the membership is another one and the newest generation is 18446744073709551615;
    /// `GroupCancelled` in a cancelled group; where neither holds and the membership is another one, `NoSuch` where the registry
    /// has no such view, `NumbersExhausted` where no number is left for a cell, and only then `OutOfMemory` where memory is refused.
    /// Group, view and registry are then as before.
    pub fn schedule<R: KeyRule + Drop>(
        &mut self,
        alloc: Global,
        registry: &mut Registry<R>,
        discovered: BTreeSet<Backend>,
        settings: Settings,
        now: u128,
    ) -> Result<Scheduled, Refusal>
        requires registry { registry.old.id ≡ self.old.registry }
        ensures { IsScheduled R.gives self.old registry.old discovered.keys (settings_of settings.entries) now result self.new
            registry.new }
    {
        let prepared = prepared(alloc, &self.group, &self.view, registry, &discovered)?;
        self.view
            .update(alloc, registry, discovered, settings, |_members| ())?;
        match prepared {
            None => Ok(Scheduled {
                generation: self.group.newest(),
                changed: false,
                turns: Vec::new(alloc),
            }),
            Some(prepared) => Ok(self.group.commit(prepared, now)),
        }
    }

    /// Stops the rebuilds for good, and marks the view for removal: the registry forgets it at the next call that applies marks.
    ///
    /// Selections and readers go on, and what is under way can still come back. It takes no memory.
    pub fn cancel<R: KeyRule + Drop>(&mut self, registry: &mut Registry<R>)
        requires registry { registry.old.id ≡ self.old.registry }
        ensures { IsCancelled R.gives self.old registry.old self.new registry.new }
    {
        self.group.cancel();
        registry.remove_view(self.view.id());
    }

    /// Asks for the build that a slot needs next; a job holds the newest snapshot.
    ///
    /// It takes no memory.
    ///
    /// # Errors
    ///
    /// `NoSuch` where no such slot is there.
    pub fn ask(&mut self, slot: usize, gate: &mut GateCore, now: u128) -> Result<Ask<S>, Refusal>
        requires { gate.old.id ≡ self.old.group.gate }
        ensures { IsAsked self.old gate.old slot now result self.new gate.new }
    {
        let answer = self.group.ask(slot, gate, now)?;
        if let Ask::Job(_job) = &answer {
            self.view.hold(self.group.newest());
        }
        Ok(answer)
    }

    /// Ends the flight or the lost flight of a job that failed, gives its permit back, and releases its snapshot.
    ///
    /// A slot whose job was of the newest generation waits again. It takes no memory.
    ///
    /// # Errors
    ///
    /// The job, where its slot has no flight and no lost flight of its generation. Nothing changes then.
    pub fn fail<R: KeyRule + Drop>(
        &mut self,
        job: Job<S>,
        registry: &mut Registry<R>,
        gate: &mut GateCore,
        now: u128,
    ) -> Result<(), Job<S>>
        requires own { job.group ≡ self.old.group.id }
        requires permit { job.permit ≡ self.old.group.gate }
        requires config { slice_get (configs_of self.old.group) job.slot ≡ Some job.config }
        requires gate { gate.old.id ≡ self.old.group.gate }
        requires registry { registry.old.id ≡ self.old.registry }
        ensures { IsFailed R.gives self.old registry.old gate.old job now result self.new registry.new gate.new }
    {
        let generation = job.generation();
        match self.group.fail(job, gate, now) {
            Ok(()) => {}
            Err(job) => return Err(job),
        }
        self.view.release(registry, generation);
        Ok(())
    }

    /// Serves the selector of a flight, and retires what its slot served before with its readers.
    ///
    /// In a cancelled group, and for a lost flight, the selector is retired unserved, as by `abandon`. It takes no memory.
    ///
    /// # Errors
    ///
    /// The selector, where its slot has no flight and no lost flight of its generation. Nothing changes then.
    pub fn publish(&mut self, built: Built<S>) -> Result<Publication, Built<S>>
        requires own { built.task.group ≡ self.old.group.id }
        requires permit { built.task.permit ≡ self.old.group.gate }
        requires config { slice_get (configs_of self.old.group) built.task.slot ≡ Some built.task.config }
        ensures { IsPublished self.old built result self.new }
    {
        self.group.publish(built)
    }

    /// Retires the selector of a flight or of a lost flight unserved.
    ///
    /// A slot whose selector was of the newest generation waits again. It takes no memory.
    ///
    /// # Errors
    ///
    /// The selector, where its slot has no flight and no lost flight of its generation. Nothing changes then.
    pub fn abandon(&mut self, built: Built<S>) -> Result<(), Built<S>>
        requires own { built.task.group ≡ self.old.group.id }
        requires permit { built.task.permit ≡ self.old.group.gate }
        requires config { slice_get (configs_of self.old.group) built.task.slot ≡ Some built.task.config }
        ensures { IsAbandoned self.old built result self.new }
    {
        self.group.abandon(built)
    }

    /// Ends a slot's flight as lost: its job or its selector goes on, and the slot keeps the permit, but it is not served any more.
    ///
    /// It takes no memory.
    ///
    /// # Errors
    ///
    /// `NoSuch` where no such slot is there, and `NothingInFlight` where it has no flight.
    pub fn worker_lost(&mut self, slot: usize) -> Result<(), Refusal>
        ensures { IsWorkerLost self.old slot result self.new }
    {
        self.group.worker_lost(slot)
    }

    /// Enters the selector that a slot serves.
    ///
    /// # Errors
    ///
    /// `NoSuch` where no such slot is there; `NumbersExhausted` where its readers are at 18446744073709551615; `OutOfMemory`
    /// where neither holds and memory is refused. Nothing changes then.
    pub fn enter(&mut self, slot: usize) -> Result<Reader<S>, Refusal>
        ensures { IsEntered self.old slot result self.new }
    {
        self.group.enter(slot)
    }

    /// Returns whether a backend is ready in the snapshot of the generation that a reader entered.
    ///
    /// It is where it is listed in it, enabled, and the cell that it has there is kept and healthy. It takes no memory.
    pub fn ready<R: KeyRule + Drop>(
        &self,
        reader: &Reader<S>,
        registry: &Registry<R>,
        backend: &Backend,
    ) -> bool
        requires own { reader.now.group ≡ self.now.group.id }
        requires registry { registry.now.id ≡ self.now.registry }
        ensures { IsReadyFor R.gives self.now registry.now reader.now backend.now result }
    {
        self.view.ready_in(registry, reader.generation(), backend)
    }

    /// Returns the number of the cell that a backend has in the snapshot of a generation, and whether the backend is enabled.
    ///
    /// `None` where no such snapshot lives, or it doesn't list the backend. It takes no memory.
    pub fn cell_and_flag(&self, generation: u64, backend: &Backend) -> Option<(u64, bool)>
        ensures { After self.now (λ made e. IfSome result (λ r. HasCellIn (views_of made e) generation backend.now r.0 r.1)) }
    {
        self.view.cell_and_flag(generation, backend)
    }

    /// Returns the next ticket of the selector that a reader is in, as a group without a view does: each selector has a counter of its
    /// own, which its readers go on in while it is retired. It takes no memory.
    pub fn ticket(&mut self, reader: &Reader<S>) -> u64
        ensures { IsTicketDrawn self.old reader.now result self.new }
    {
        self.group.ticket(reader)
    }

    /// Gives an entry back to its slot.
    ///
    /// It takes no memory.
    ///
    /// # Errors
    ///
    /// The reader, where its slot counts no reader of its generation. Nothing changes then.
    pub fn leave(&mut self, reader: Reader<S>) -> Result<(), Reader<S>>
        requires { reader.group ≡ self.old.group.id }
        ensures { IsLeft self.old reader result self.new }
    {
        self.group.leave(reader)
    }

    /// Takes a retired selector out of its slot, to be destroyed and then reported.
    ///
    /// It takes no memory.
    ///
    /// # Errors
    ///
    /// `NoSuch` where no such slot is there; `StillRead` with the number of readers that are left in it; `NothingRetired`
    /// where no retired selector is there. Nothing changes then.
    pub fn take_retired(&mut self, slot: usize) -> Result<Retired<S>, Refusal>
        ensures { IsTaken self.old slot result self.new }
    {
        self.group.take_retired(slot)
    }

    /// Takes the report that the selector which was taken out of that slot is destroyed.
    ///
    /// Its permit goes back to the gate, and its snapshot is released. It takes no memory.
    ///
    /// # Errors
    ///
    /// The permit, where no selector of the slot was taken out. Nothing changes then.
    pub fn destroyed<R: KeyRule + Drop>(
        &mut self,
        slot: usize,
        permit: OwedPermit,
        registry: &mut Registry<R>,
        gate: &mut GateCore,
    ) -> Result<(), OwedPermit>
        requires own { (permit.group ≡ self.old.group.id) × (permit.slot ≡ slot) }
        requires permit { permit.gate ≡ self.old.group.gate }
        requires gate { gate.old.id ≡ self.old.group.gate }
        requires registry { registry.old.id ≡ self.old.registry }
        ensures { IsReported R.gives self.old registry.old gate.old slot permit result self.new registry.new gate.new }
    {
        let Some(generation) = self.group.taken_out(slot) else {
            return Err(permit);
        };
        match self.group.destroyed(slot, permit, gate) {
            Ok(()) => {}
            Err(permit) => return Err(permit),
        }
        self.view.release(registry, generation);
        Ok(())
    }

    /// Selects the first ready backend among the distinct of the first `limit` candidates of what a slot serves.
    ///
    /// Readiness is that in the snapshot of the generation that is served. Tickets, random words, loads, refusals and a slot that is not
    /// there are as in a group without a view. For readiness it takes no memory.
    pub fn select<R: KeyRule + Drop>(
        &mut self,
        alloc: Global,
        registry: &Registry<R>,
        slot: usize,
        key: &[u8],
        limit: usize,
        random: &[u64],
        loads: &Loads,
    ) -> Selection
        requires registry { registry.now.id ≡ self.old.registry }
        ensures { IsSelected R.gives S.may_draw_random S.walks (λ right. right) (load_in loads.now) self.old registry.now slot key.now limit
            random.now result self.new }
    {
        self.select_with(
            alloc,
            registry,
            slot,
            key,
            limit,
            random,
            loads,
            &ready_ones,
        )
    }

    /// Selects the first backend that `accept` takes, as `select` does the first ready one.
    ///
    /// `accept` is asked with a backend and whether it is ready.
    pub fn select_with<R: KeyRule + Drop, F: Fn(&Backend, bool) -> bool>(
        &mut self,
        alloc: Global,
        registry: &Registry<R>,
        slot: usize,
        key: &[u8],
        limit: usize,
        random: &[u64],
        loads: &Loads,
        accept: &F,
    ) -> Selection
        requires accept { F.IsAlwaysCallable accept.now }
        requires registry { registry.now.id ≡ self.old.registry }
        ensures { IsSelected R.gives S.may_draw_random S.walks (AcceptsBy F.Fn accept.now) (load_in loads.now) self.old registry.now slot
            key.now limit random.now result self.new }
    {
        let served = self.group.served(slot).unwrap_or(0);
        let view = &self.view;
        let judged = |backend: &Backend| -> bool
            requires { F.IsAlwaysCallable accept.now }
            ensures { AcceptsBy F.Fn accept.entry.now (IsJudged R.gives view.entry.now registry.entry.now served) backend.entry.now result }
        { accept(backend, view.ready_in(registry, served, backend)) };
        self.group
            .select_with(alloc, slot, key, limit, random, loads, &judged)
    }

    /// States that some history explains this group, so that what holds after each of its histories holds after one.
    ///
    /// Only for the prover: it does nothing at run time.
    pub fn founded(&self)
        ensures { IsFounded self.now }
    {
        let _ = &self.group;
    }

    /// Returns whether a backend is ready in the newest membership, without taking memory.
    pub fn newest_ready<R: KeyRule + Drop>(&self, registry: &Registry<R>, backend: &Backend) -> bool
        requires registry { registry.now.id ≡ self.now.registry }
        ensures { HoldsOf R.gives registry.now (λ key_of events. After self.now (λ made e. IsTrue result
            ↔ IsReady key_of (views_of made e) events (newest_after (slot_events e)) backend.now)) }
    {
        let newest = self.group.newest();
        self.view.ready_in(registry, newest, backend)
    }

    /// Enables or disables a backend that a living snapshot lists, by identity; another is left alone.
    ///
    /// It takes no memory.
    pub fn set_enable(&mut self, backend: &Backend, enabled: bool)
        ensures stands { Becomes self.old (Set backend.now enabled ∷ []) self.new }
        ensures site { SameSite self.old self.new }
    {
        self.view.set_enable(backend, enabled);
    }

    /// Returns the membership of the newest generation.
    ///
    /// Refused `OutOfMemory` where std refuses one more owner.
    pub fn get_backend(&self) -> Result<Arc<BTreeSet<Backend>>, Refusal>
        ensures members { IfOk result (λ set. After self.now (λ made e. (arc_value set).keys ≡ members_now e)) }
        ensures refused { OnErr result (result ≡ Err Refusal.OutOfMemory) }
    {
        self.view.get_backend()
    }

    /// Returns the newest generation; 0 before the first membership.
    pub fn newest(&self) -> u64
        ensures { After self.now (λ made e. result ≡ newest_after (slot_events e)) }
    {
        self.group.newest()
    }

    /// Returns whether the group is cancelled.
    pub fn is_cancelled(&self) -> bool
        ensures { After self.now (λ made e. result ≡ is_cancelled (slot_events e)) }
    {
        self.group.is_cancelled()
    }

    /// Returns the generation that a slot serves, or `None` where no such slot is there.
    pub fn served(&self, slot: usize) -> Option<u64>
        ensures { After self.now (λ made e. result ≡ at_slot made slot (served_after (past_of slot (slot_events e)))) }
    {
        self.group.served(slot)
    }

    /// Returns the generation of a slot's flight, or none: `None` where no such slot is there.
    pub fn flight(&self, slot: usize) -> Option<Option<u64>>
        ensures { After self.now (λ made e. result ≡ at_slot made slot (flight_after (past_of slot (slot_events e)))) }
    {
        self.group.flight(slot)
    }

    /// Returns whether a slot waits for a job or a publication of the newest generation: `None` where no such slot is there.
    pub fn is_waiting(&self, slot: usize) -> Option<bool>
        ensures { After self.now (λ made e. result ≡ at_slot made slot (waits_after (past_of slot (slot_events e)))) }
    {
        self.group.is_waiting(slot)
    }

    /// Returns how many readers are in what a slot serves: `None` where no such slot is there.
    pub fn readers(&self, slot: usize) -> Option<u64>
        ensures { After self.now (λ made e. result
            ≡ at_slot made slot (readers_after (served_after (past_of slot (slot_events e))) (past_of slot (slot_events e)))) }
    {
        self.group.readers(slot)
    }

    /// Returns a borrow of the membership of the newest generation.
    pub fn members(&self) -> &BTreeSet<Backend>
        ensures { After self.now (λ made e. result.now.keys ≡ members_now e) }
    {
        self.group.members()
    }

    /// Returns the counts of a slot, or `None` where no such slot is there.
    pub fn counts(&self, slot: usize) -> Option<Counts>
        ensures { After self.now (λ made e. result ≡ at_slot made slot (counts_after (past_of slot (slot_events e)))) }
    {
        self.group.counts(slot)
    }

    /// Returns the timing of a slot's last publication: `None` where no such slot is there, and none in it before the first.
    pub fn timing(&self, slot: usize) -> Option<Option<Timing>>
        ensures { After self.now (λ made e. result ≡ at_slot made slot (timing_after (past_of slot (slot_events e)))) }
    {
        self.group.timing(slot)
    }
}

// Gets at hand what the group takes for a membership; refused for memory only where no other cause applies.
fn prepared<S: BackendSelection, R: KeyRule + Drop>(
    alloc: Global,
    group: &slots::Slots<S>,
    view: &ViewCore,
    registry: &Registry<R>,
    discovered: &BTreeSet<Backend>,
) -> Result<Option<Prepared<S::Config>>, Refusal>
    ensures answers { IfOk result (λ p. AfterGroup group.now (λ made h. Prepares made h discovered.now.keys (Ok p))) }
    ensures fits { IfOk result (λ p. FitsIfThere group.now p) }
    ensures refused { IfErr result (λ e. AfterGroup group.now (λ made h. IsRefusedFor h discovered.now.keys e)) }
    ensures refusals { IfErr result (λ e. AfterGroup group.now (λ made h. RegistryRefuses R.gives (λ refusal. e ≡ refusal)
        (λ Holds. schedule_refusal discovered.now.keys h ≡ None → Holds) discovered.now.keys view.now registry.now)) }
{
    match group.prepare(alloc, discovered) {
        Ok(prepared) => Ok(prepared),
        Err(Refusal::OutOfMemory) => Err(view.registry_cause(registry, discovered)),
        Err(refusal) => Err(refusal),
    }
}

// Holds the snapshot of generation 0 of a new view once for each slot.
fn hold_first(view: &mut ViewCore, slots: usize)
    requires { IsViewAfter [] view.old }
    ensures held { IsViewAfter (replicate slots (Held 0)) view.new }
    ensures id { view.new.id ≡ view.old.id }
{
    for _ in 0..slots {
        view.hold(0);
    }
}

/// Returns whether a backend is ready: what `select_with` accepts where the ready ones are wanted.
pub fn ready_ones(_backend: &Backend, ready: bool) -> bool
    ensures { result ≡ ready }
{
    ready
}

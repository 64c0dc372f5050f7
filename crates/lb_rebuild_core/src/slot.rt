//! A slot of a group: the selector that it serves to its readers, the order that waits, and at most one extra selector. Its calls say
//! exactly what they do to the slot; the group above describes them by its history.
ghost use Rattle.std.specs.Prelude.{◌≡◌, ◌&&◌, not, Bool, true, [], ◌<◌, ◌⊎◌, ℕ, Some, None, IfOk, IfErr, IfSome, OnErr, nat_lt};
ghost use Rattle.std.specs.Prelude.{if◌then◌else◌};
ghost use Rattle.std.specs.Fn.{FnReturnsAt};
ghost use Rattle.lb_select_base.specs.Refusals.{Refuses};
ghost use Rattle.lb_select_base.specs.Loads.{load_in};
ghost use Rattle.lb_rebuild_core.specs.SlotSeen.{extra_of, permit_of};
ghost use Rattle.lb_rebuild_core.specs.SlotsHistory.{is_flight, is_under_way, is_retired_of, is_extra, taken_out_number};
ghost use Rattle.lb_rebuild_core.specs.SlotsHistory.{flight_number};

use crate::answers::{Ask, Counts, Publication, Selection, Timing};
use crate::gate::{GateCore, Permit};
use crate::job::{Built, Job, Order};
use crate::membership::SlotTurn;
use crate::place::SlotPlace;
use crate::retired::{Reader, Retired, ServedSelector};
use crate::retry::due;
use crate::words::DrawnWords;
use lb_select_base::backend::Backend;
use lb_select_base::loads::Loads;
use lb_select_base::refusal::Refusal;
use lb_select_base::select::select;
use lb_select_base::walk::BackendSelection;
use std::alloc::Global;
use std::collections::BTreeSet;
use std::mem;
use std::snapshot::Snapshot;
use std::sync::Arc;

// What a slot has apart from what it serves, each with its generation and with the gate's permit, which stays in the slot until it goes
// back. A flight goes from the slot's job to its failure or publication; it is lost with its worker. What was taken out is on its way to
// the report of its destruction.
pub(crate) enum SlotStage<S: BackendSelection> {
    Free,
    Flight(u64, Permit),
    Lost(u64, Permit),
    Retired(ServedSelector<S>, Permit),
    TakenOut(u64, Permit),
}

// A slot: what it is configured with, what it serves and to how many readers, the order that waits for a permit, and what else it has,
// with the readers left in it where it is retired. The moments are those of the last job's ask, of the membership that it was for, and of
// the last failure of the newest generation.
pub(crate) struct Slot<S: BackendSelection> {
    pub(crate) config: Arc<S::Config>,
    pub(crate) serving: ServedSelector<S>,
    pub(crate) readers: u64,
    pub(crate) waiting: Option<Order<S::Config>>,
    pub(crate) stage: SlotStage<S>,
    pub(crate) left_in: u64,
    pub(crate) asked: u128,
    pub(crate) scheduled: u128,
    pub(crate) failures: u64,
    pub(crate) failed_at: u128,
    pub(crate) counts: Counts,
    pub(crate) timing: Option<Timing>,
}

impl<S: BackendSelection> Slot<S> {
    ghost use Rattle.lb_rebuild_core.specs.Internal.Fresh.{fresh_slot, turn_of};
    ghost use Rattle.lb_rebuild_core.specs.SlotSeen.{slot_value};
    ghost use Rattle.lb_rebuild_core.specs.SlotCalls.{slot_waits, slot_answer, ask_told, asked_slot, asked_gate, IsJobOf, ordered_slot};
    ghost use Rattle.lb_rebuild_core.specs.SlotCalls.{failed_slot, published_slot, abandoned_slot, lost_slot, entered_slot, reader_of};
    ghost use Rattle.lb_rebuild_core.specs.SlotCalls.{readers_at, left_slot, TakesAt, ReportsAt, drawn_slot, superseded_more};
    ghost use Rattle.lb_rebuild_core.specs.SlotCalls.{SelectsFrom};
    ghost use Rattle.lb_rebuild_core.specs.SlotCalls.{TicketAt, FailsAt, PublishesAt, AbandonsAt, LosesAt, LeavesAt};

    // A slot that serves a selector of generation 0 over these backends, of which there are none.
    pub(crate) fn fresh(
        alloc: Global,
        backends: &BTreeSet<Backend>,
        config: S::Config,
    ) -> Result<Slot<S>, Refusal>
        ensures { Refuses (S.refusal backends.now.keys config)
            (λ x. (backends.now.keys ≡ []) → slot_value x ≡ fresh_slot config) result }
    {
        let selector = S::build_with_config(alloc, backends, &config)?;
        Ok(Slot {
            config: Arc::new(alloc, config)?,
            serving: ServedSelector {
                generation: 0,
                selector: Arc::new(alloc, selector)?,
                tickets: 0,
            },
            readers: 0,
            waiting: None,
            stage: SlotStage::Free,
            left_in: 0,
            asked: 0,
            scheduled: 0,
            failures: 0,
            failed_at: 0,
            counts: Counts {
                published: 0,
                coalesced: 0,
                superseded: 0,
                failed: 0,
            },
            timing: None,
        })
    }

    // Whether neither what it serves nor what is in flight is of the newest generation.
    pub(crate) fn waits(&self, newest: u64) -> bool
        ensures { result ≡ slot_waits newest (slot_value self.now) }
    {
        let flight = match &self.stage {
            SlotStage::Flight(generation, _) => *generation,
            SlotStage::Free
            | SlotStage::Lost(..)
            | SlotStage::Retired(..)
            | SlotStage::TakenOut(..) => 0,
        };
        let serving = &self.serving;
        serving.generation.max(flight) < newest
    }

    fn has_flight(&self) -> bool
        ensures { result ≡ is_flight (extra_of self.now.stage) }
    {
        match &self.stage {
            SlotStage::Flight(..) => true,
            SlotStage::Free
            | SlotStage::Lost(..)
            | SlotStage::Retired(..)
            | SlotStage::TakenOut(..) => false,
        }
    }

    // Whether its flight or lost flight is of that generation.
    fn awaits(&self, generation: u64) -> bool
        ensures { result ≡ is_under_way generation (extra_of self.now.stage) }
    {
        match &self.stage {
            SlotStage::Flight(flight, _) | SlotStage::Lost(flight, _) => *flight == generation,
            SlotStage::Free | SlotStage::Retired(..) | SlotStage::TakenOut(..) => false,
        }
    }

    // Whether it had a flight or waited before a membership that comes now.
    pub(crate) fn turn(&self, newest: u64) -> SlotTurn
        ensures { result ≡ turn_of newest (slot_value self.now) }
    {
        if self.has_flight() || self.waits(newest) {
            SlotTurn::Running
        } else {
            SlotTurn::Start
        }
    }

    // Lets an order of the next generation wait, in the place of an earlier one.
    pub(crate) fn order(&mut self, newest: u64, order: Order<S::Config>)
        ensures { slot_value self.new ≡ ordered_slot newest order (slot_value self.old) }
    {
        if self.waits(newest) {
            self.counts.coalesced = self.counts.coalesced.saturating_add(1);
        }
        self.waiting = Some(order);
        self.failures = 0;
        self.failed_at = 0;
    }

    // Asks for the build that the slot needs next; `place` is its own, and `scheduled` is the moment of the newest membership.
    pub(crate) fn ask(
        &mut self,
        place: SlotPlace,
        newest: u64,
        scheduled: u128,
        cancelled: bool,
        gate: &mut GateCore,
        now: u128,
    ) -> Ask<S>
        ensures told { ask_told result ≡ slot_answer newest cancelled gate.old.out now (slot_value self.old) }
        ensures slot { slot_value self.new ≡ asked_slot (ask_told result) gate.old.id newest scheduled now (slot_value self.old) }
        ensures gate { gate.new ≡ asked_gate (ask_told result) gate.old }
        ensures job { IsJobOf place gate.old.id (slot_value self.old) result }
    {
        if cancelled {
            return Ask::Cancelled;
        }
        if self.has_flight() {
            return Ask::Building;
        }
        if !self.waits(newest) {
            return Ask::Nothing;
        }
        let due = due(self.failures, self.failed_at);
        if now < due {
            return Ask::NotDue(due);
        }
        let SlotStage::Free = &self.stage else {
            return Ask::Busy;
        };
        if self.waiting.is_none() {
            return Ask::Busy;
        }
        let Some(permit) = gate.grant() else {
            return Ask::Busy;
        };
        let Some(order) = self.waiting.take() else {
            unreachable!();
        };
        let mark = Snapshot::of(&permit);
        fill(&mut self.stage, SlotStage::Flight(newest, permit));
        self.asked = now;
        self.scheduled = scheduled;
        Ask::Job(Job {
            place,
            order,
            permit: mark,
        })
    }

    // Counts a flight that ends unpublished, where a newer membership has come.
    fn count_superseded(&mut self, newest: u64)
        ensures { self.new ≡ record self.old {
          counts = record self.old.counts { superseded = superseded_more newest (slot_value self.old) };
        } }
    {
        if let SlotStage::Flight(flight, _) = &self.stage {
            if *flight < newest {
                self.counts.superseded = self.counts.superseded.saturating_add(1);
            }
        }
    }

    // Ends the flight or the lost flight of a job that failed, and gives its permit; a job that is not awaited is returned.
    pub(crate) fn fail(&mut self, newest: u64, job: Job<S>, now: u128) -> Result<Permit, Job<S>>
        ensures { FailsAt newest now job (slot_value self.old) result (slot_value self.new) }
    {
        if !self.awaits(job.generation()) {
            return Err(job);
        }
        Ok(self.take_back(newest, job.into_order(), now))
    }

    // Ends the flight or the lost flight of an order that failed, and gives its permit; the order waits again where it is of the newest
    // generation.
    fn take_back(&mut self, newest: u64, order: Order<S::Config>, now: u128) -> Permit
        requires { is_under_way order.generation (extra_of self.old.stage) ≡ true }
        ensures permit { permit_of self.old.stage ≡ Some result }
        ensures slot { slot_value self.new ≡ failed_slot newest now order (slot_value self.old) }
    {
        self.count_superseded(newest);
        self.counts.failed = self.counts.failed.saturating_add(1);
        let permit = release(&mut self.stage);
        if order.generation == newest {
            self.failures = self.failures.saturating_add(1);
            self.failed_at = now;
            self.waiting = Some(order);
        }
        permit
    }

    // Serves the selector of its flight, and retires that of a lost flight or of a cancelled group unserved. A selector that is not
    // awaited is returned.
    pub(crate) fn publish(
        &mut self,
        newest: u64,
        cancelled: bool,
        built: Built<S>,
    ) -> Result<Publication, Built<S>>
        ensures { PublishesAt newest cancelled built (slot_value self.old) result (slot_value self.new) }
    {
        if !self.awaits(built.generation()) {
            return Err(built);
        }
        if self.has_flight() && !cancelled {
            return Ok(Publication::Published(self.serve(built)));
        }
        Ok(Publication::Abandoned(self.retire(newest, built)))
    }

    // Retires the selector of its flight or lost flight unserved; one that is not awaited is returned.
    pub(crate) fn abandon(&mut self, newest: u64, built: Built<S>) -> Result<(), Built<S>>
        ensures { AbandonsAt newest built (slot_value self.old) result (slot_value self.new) }
    {
        if !self.awaits(built.generation()) {
            return Err(built);
        }
        self.retire(newest, built);
        Ok(())
    }

    // Serves the selector of its flight, and retires what it served before with its readers.
    fn serve(&mut self, built: Built<S>) -> u64
        requires { is_under_way built.task.generation (extra_of self.old.stage) ≡ true }
        ensures generation { result ≡ built.task.generation }
        ensures slot { slot_value self.new ≡ published_slot built (slot_value self.old) }
    {
        let Built {
            place: _,
            order,
            permit: _,
            selector,
            ended,
        } = built;
        let generation = order.generation;
        let serving = ServedSelector {
            generation,
            selector,
            tickets: 0,
        };
        let before = mem::replace(&mut self.serving, serving);
        self.left_in = mem::replace(&mut self.readers, 0);
        let permit = release(&mut self.stage);
        fill(&mut self.stage, SlotStage::Retired(before, permit));
        self.counts.published = self.counts.published.saturating_add(1);
        self.timing = Some(Timing {
            generation,
            queue: self.asked.saturating_sub(self.scheduled),
            build: ended.saturating_sub(self.asked),
        });
        generation
    }

    // Retires the selector of its flight or lost flight unserved; its order waits again where it is of the newest generation.
    fn retire(&mut self, newest: u64, built: Built<S>) -> u64
        requires { is_under_way built.task.generation (extra_of self.old.stage) ≡ true }
        ensures generation { result ≡ built.task.generation }
        ensures slot { slot_value self.new ≡ abandoned_slot newest built (slot_value self.old) }
    {
        self.count_superseded(newest);
        let Built {
            place: _,
            order,
            permit: _,
            selector,
            ended: _,
        } = built;
        let generation = order.generation;
        let serving = ServedSelector {
            generation,
            selector,
            tickets: 0,
        };
        self.left_in = 0;
        let permit = release(&mut self.stage);
        fill(&mut self.stage, SlotStage::Retired(serving, permit));
        if generation == newest {
            self.waiting = Some(order);
        }
        generation
    }

    // Ends the flight as lost, where there is one.
    pub(crate) fn lose(&mut self, newest: u64) -> Result<(), Refusal>
        ensures { LosesAt newest (slot_value self.old) result (slot_value self.new) }
    {
        let SlotStage::Flight(flight, _) = &self.stage else {
            return Err(Refusal::NothingInFlight);
        };
        let flight = *flight;
        self.count_superseded(newest);
        let permit = release(&mut self.stage);
        fill(&mut self.stage, SlotStage::Lost(flight, permit));
        Ok(())
    }

    // One reader more of the selector that is served; `place` is the slot's own.
    pub(crate) fn enter(&mut self, place: SlotPlace) -> Result<Reader<S>, Refusal>
        ensures ok { IfOk result (λ r. (slot_value self.old).readers < 18446744073709551615
            × (r ≡ reader_of place (slot_value self.old))
            × (slot_value self.new ≡ entered_slot (slot_value self.old))) }
        ensures err { IfErr result (λ e. ((slot_value self.old).readers ≡ 18446744073709551615 × (e ≡ Refusal.NumbersExhausted))
            ⊎ ((slot_value self.old).readers < 18446744073709551615 × (e ≡ Refusal.OutOfMemory))) }
        ensures same { OnErr result (slot_value self.new ≡ slot_value self.old) }
    {
        if self.readers == u64::MAX {
            return Err(Refusal::NumbersExhausted);
        }
        let serving = &self.serving;
        let selector = Arc::try_clone(&serving.selector)?;
        let generation = serving.generation;
        self.readers += 1;
        Ok(Reader {
            place,
            generation,
            selector,
        })
    }

    // One reader less of its generation; a reader that it does not count is returned.
    pub(crate) fn leave(&mut self, reader: Reader<S>) -> Result<(), Reader<S>>
        ensures { LeavesAt reader (slot_value self.old) result (slot_value self.new) }
    {
        let generation = reader.generation();
        if !self.is_read(generation) {
            return Err(reader);
        }
        reader.end();
        self.count_left(generation);
        Ok(())
    }

    // Whether readers of that generation are in it.
    fn is_read(&self, generation: u64) -> bool
        ensures { result ≡ nat_lt 0 (readers_at generation (slot_value self.now)) }
    {
        let serving = &self.serving;
        if serving.generation == generation {
            return self.readers > 0;
        }
        self.is_retired(generation) && self.left_in > 0
    }

    fn is_retired(&self, generation: u64) -> bool
        ensures { result ≡ is_retired_of generation (extra_of self.now.stage) }
    {
        match &self.stage {
            SlotStage::Retired(serving, _) => serving.generation == generation,
            SlotStage::Free
            | SlotStage::Flight(..)
            | SlotStage::Lost(..)
            | SlotStage::TakenOut(..) => false,
        }
    }

    // One reader less of that generation.
    fn count_left(&mut self, generation: u64)
        requires { 0 < readers_at generation (slot_value self.old) }
        ensures { slot_value self.new ≡ left_slot generation (slot_value self.old) }
    {
        let serving = &self.serving;
        if serving.generation == generation {
            self.readers -= 1;
        } else {
            self.left_in -= 1;
        }
    }

    // The next ticket of the selector of that generation, served or retired, from its own counter; 0 where there is none.
    pub(crate) fn ticket(&mut self, generation: u64) -> u64
        ensures { TicketAt generation (slot_value self.old) result (slot_value self.new) }
    {
        let serving = &mut self.serving;
        if serving.generation == generation {
            return serving.draw();
        }
        match &mut self.stage {
            SlotStage::Retired(serving, _) if serving.generation == generation => serving.draw(),
            SlotStage::Free
            | SlotStage::Flight(..)
            | SlotStage::Lost(..)
            | SlotStage::Retired(..)
            | SlotStage::TakenOut(..) => 0,
        }
    }

    // Takes the retired selector out, once no reader is left in it; `place` is the slot's own.
    pub(crate) fn take_retired(&mut self, place: SlotPlace) -> Result<Retired<S>, Refusal>
        ensures { TakesAt place (slot_value self.old) result (slot_value self.new) }
    {
        let SlotStage::Retired(..) = &self.stage else {
            return Err(Refusal::NothingRetired);
        };
        if self.left_in > 0 {
            return Err(Refusal::StillRead(self.left_in));
        }
        match mem::replace(&mut self.stage, SlotStage::Free) {
            SlotStage::Retired(serving, permit) => {
                let mark = Snapshot::of(&permit);
                fill(
                    &mut self.stage,
                    SlotStage::TakenOut(serving.generation, permit),
                );
                Ok(Retired {
                    place,
                    serving,
                    permit: mark,
                })
            }
            SlotStage::Free
            | SlotStage::Flight(..)
            | SlotStage::Lost(..)
            | SlotStage::TakenOut(..) => unreachable!(),
        }
    }

    // The generation of its flight.
    pub(crate) fn flight(&self) -> Option<u64>
        ensures { result ≡ (if is_flight (extra_of self.now.stage) then Some (flight_number (extra_of self.now.stage)) else None) }
    {
        match &self.stage {
            SlotStage::Flight(generation, _) => Some(*generation),
            SlotStage::Free
            | SlotStage::Lost(..)
            | SlotStage::Retired(..)
            | SlotStage::TakenOut(..) => None,
        }
    }

    // The generation of the selector that was taken out, where one was.
    pub(crate) fn taken_out(&self) -> Option<u64>
        ensures { result ≡ taken_out_number (extra_of self.now.stage) }
    {
        match &self.stage {
            SlotStage::TakenOut(generation, _) => Some(*generation),
            SlotStage::Free
            | SlotStage::Flight(..)
            | SlotStage::Lost(..)
            | SlotStage::Retired(..) => None,
        }
    }

    // The selector that was taken out is destroyed, where one was: gives its permit.
    pub(crate) fn report(&mut self) -> Option<Permit>
        ensures { ReportsAt (slot_value self.old) result (slot_value self.new) }
    {
        let SlotStage::TakenOut(..) = &self.stage else {
            return None;
        };
        Some(release(&mut self.stage))
    }

    // Shows that the gate's permit is out where anything stands in the slot. It changes nothing.
    pub(crate) fn extra_is_out(&mut self, gate: &mut GateCore)
        requires { IfSome (permit_of self.old.stage) (λ p. p ≡ gate.old.id) }
        ensures out { is_extra (extra_of self.old.stage) ≡ true → gate.old.out ≡ true }
        ensures slot { slot_value self.new ≡ slot_value self.old }
        ensures gate { gate.new ≡ gate.old }
    {
        match &mut self.stage {
            SlotStage::Free => {}
            SlotStage::Flight(_, permit) => gate.is_out(permit),
            SlotStage::Lost(_, permit) => gate.is_out(permit),
            SlotStage::Retired(_, permit) => gate.is_out(permit),
            SlotStage::TakenOut(_, permit) => gate.is_out(permit),
        }
    }

    // Selects from what is served the first that `accept` accepts.
    pub(crate) fn select<F: Fn(&Backend) -> bool>(
        &mut self,
        alloc: Global,
        key: &[u8],
        limit: usize,
        random: &[u64],
        loads: &Loads,
        accept: &F,
    ) -> Selection
        requires { F.IsAlwaysCallable accept.now }
        ensures selected { SelectsFrom S.may_draw_random S.walks (λ b a. FnReturnsAt F.Fn accept.now b a) (load_in loads.now) key.now limit
            random.now (slot_value self.old).serving.members (slot_value self.old).serving.config (slot_value self.old).serving.tickets
            result }
        ensures slot { slot_value self.new ≡ drawn_slot result.tickets (slot_value self.old) }
    {
        let serving = &mut self.serving;
        if serving.selector.draws_random() && random.len() <= limit {
            return Selection {
                answer: Err(Refusal::NotEnoughWords),
                drawn: 0,
                tickets: serving.tickets,
            };
        }
        let mut words = DrawnWords::new(serving.tickets, random, loads);
        let answer = select(alloc, &serving.selector, key, &mut words, limit, accept);
        serving.tickets = words.tickets();
        Selection {
            answer,
            drawn: words.drawn(),
            tickets: serving.tickets,
        }
    }
}

impl<S: BackendSelection> Drop for Slot<S> {
    // The gate of a permit that is dropped here never grants again.
    fn drop(self) {
        let Slot {
            config: _,
            serving: _,
            readers: _,
            waiting: _,
            stage,
            left_in: _,
            asked: _,
            scheduled: _,
            failures: _,
            failed_at: _,
            counts: _,
            timing: _,
        } = self;
        match stage {
            SlotStage::Free => {}
            SlotStage::Flight(_, permit)
            | SlotStage::Lost(_, permit)
            | SlotStage::TakenOut(_, permit) => permit.end(),
            SlotStage::Retired(_serving, permit) => permit.end(),
        }
    }
}

// Puts something where nothing is.
fn fill<S: BackendSelection>(stage: &mut SlotStage<S>, next: SlotStage<S>)
    requires { stage.old ≡ SlotStage.Free }
    ensures { stage.new ≡ next }
{
    let before = mem::replace(stage, next);
    let SlotStage::Free = before else {
        unreachable!();
    };
}

// Ends what stands in a slot, and gives its permit.
fn release<S: BackendSelection>(stage: &mut SlotStage<S>) -> Permit
    requires { is_extra (extra_of stage.old) ≡ true }
    ensures stage { stage.new ≡ SlotStage.Free }
    ensures permit { permit_of stage.old ≡ Some result }
{
    match mem::replace(stage, SlotStage::Free) {
        SlotStage::Free => unreachable!(),
        SlotStage::Flight(_, permit)
        | SlotStage::Lost(_, permit)
        | SlotStage::TakenOut(_, permit) => permit,
        SlotStage::Retired(_serving, permit) => permit,
    }
}

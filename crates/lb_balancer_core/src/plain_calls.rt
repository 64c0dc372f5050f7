//! Implements `GroupPort` over a plain group: its calls are the group's own, on the registry and the gate that it borrows. And a worker's
//! turn over it, at a slot that is due.
ghost use Rattle.std.specs.Prelude.{◌≡◌, ◌<◌, true, length, Ok};
ghost use Rattle.lb_select_base.specs.Loads.{load_in};
ghost use Rattle.lb_balancer_core.specs.Plain.{OwnsJob, OwnsReader, OwnsPermit, IsDrawn};
ghost use Rattle.lb_balancer_core.specs.Lent.{SameLent};
ghost use Rattle.std.proofs.Common.{subst, sym};
ghost use Rattle.lb_rebuild_core.specs.GroupCalls.{IsScheduled, IsAsked, IsFailed, IsPublished, IsEntered, IsReadyFor, IsLeft};
ghost use Rattle.lb_rebuild_core.specs.GroupCalls.{IsTaken, IsReported};
ghost use Rattle.lb_rebuild_core.specs.GroupHistory.{slot_events};
ghost use Rattle.lb_rebuild_core.specs.GroupStates.{After};
ghost use Rattle.lb_rebuild_core.specs.SlotsHistory.{extra, is_extra, past_of};
ghost use Rattle.lb_balancer_core.specs.Due.{EndsDue, IsClear, IsDue};
ghost use Rattle.lb_balancer_core.specs.Internal.PlainLaws.{drawn_keeps};

use crate::build::RefusedJob;
use crate::plain::PlainPort;
use crate::port::{GroupPort, SchedulePort, SelectPort, TakesBuilds, TakesReaders, WorkPort};
use crate::turn::{Turn, worker_turn};
use lb_health_core::keys::KeyRule;
use lb_health_view::view::Settings;
use lb_rebuild_core::answers::{Ask, Publication};
use lb_rebuild_core::end_source::EndSource;
use lb_rebuild_core::job::Built;
use lb_rebuild_core::membership::Scheduled;
use lb_rebuild_core::retired::{OwedPermit, Reader, Retired};
use lb_select_base::backend::Backend;
use lb_select_base::moments::MomentSource;
use lb_select_base::refusal::Refusal;
use lb_select_base::walk::BackendSelection;
use rand_core::Rng;
use std::alloc::Global;
use std::collections::BTreeSet;

impl<'c, 'x, 'g, 'w, 'l, S: BackendSelection, R: KeyRule + Drop, G: Rng> PlainPort<
    'c,
    'x,
    'g,
    'w,
    'l,
    S,
    R,
    G,
> {
    /// Takes a worker's turn at a slot that waits, of a group that is not cancelled. The gate is free, or its permit is that of the
    /// slot's own retired selector, in which no reader is left: that is destroyed then.
    ///
    /// It ends with the newest generation served, or with one failed build more. Where the moment that it reads is before the slot's
    /// next build is due, it answers when that is.
    pub fn due_turn<K: MomentSource + EndSource<S>>(
        &mut self,
        alloc: Global,
        slot: usize,
        clock: &mut K,
    ) -> Result<Turn, Refusal>
        requires { After self.old.core.now (λ made e. IsDue made e slot × IsClear self.old.gate.now e slot) }
        ensures { After self.old.core.now (λ made e. EndsDue K.reads clock.old made e slot result self.new.core.now) }
    {
        self.extra_is_out(slot);
        worker_turn(alloc, self, slot, clock)
    }

    // Shows that the gate's permit is out where a slot has an extra. It changes nothing.
    fn extra_is_out(&mut self, slot: usize)
        ensures out { After self.old.core.now (λ made e. slot < length made.configs
            → is_extra (extra (past_of slot (slot_events e))) ≡ true → self.old.gate.now.out ≡ true) }
        ensures same { (self.new.core.now ≡ self.old.core.now) × (self.new.gate.now ≡ self.old.gate.now) }
    {
        self.core.extra_is_out(slot, self.gate);
    }
}

impl<'c, 'x, 'g, 'w, 'l, S: BackendSelection, R: KeyRule + Drop, G: Rng> SchedulePort
    for PlainPort<'c, 'x, 'g, 'w, 'l, S, R, G> {
    ghost scheduled = { λ p ms settings now r q. IsScheduled R.gives p.core.now p.registry.now ms settings now r q.core.now q.registry.now
        × (q.gate.now ≡ p.gate.now)
        × (q.generator.now ≡ p.generator.now) × SameLent p q };

    fn schedule(
        &mut self,
        alloc: Global,
        discovered: BTreeSet<Backend>,
        settings: Settings,
        now: u128,
    ) -> Result<Scheduled, Refusal> {
        self.core
            .schedule(alloc, self.registry, discovered, settings, now)
    }
}

impl<'c, 'x, 'g, 'w, 'l, S: BackendSelection, R: KeyRule + Drop, G: Rng> TakesReaders<Reader<S>>
    for PlainPort<'c, 'x, 'g, 'w, 'l, S, R, G> {
    ghost owns_reader = { λ p r. OwnsReader p.core.now r };

    ghost left = { λ p r q. IsLeft p.core.now r (Ok tt) q.core.now
        × (q.registry.now ≡ p.registry.now) × (q.gate.now ≡ p.gate.now)
        × (q.generator.now ≡ p.generator.now) × SameLent p q };

    fn leave(&mut self, reader: Reader<S>) {
        match self.core.leave(reader) {
            Ok(()) => {}
            Err(_reader) => unreachable!(),
        }
    }
}

impl<'c, 'x, 'g, 'w, 'l, S: BackendSelection, R: KeyRule + Drop, G: Rng> SelectPort<S>
    for PlainPort<'c, 'x, 'g, 'w, 'l, S, R, G> {
    ghost entered = { λ p slot r q. IsEntered p.core.now slot r q.core.now
        × (q.registry.now ≡ p.registry.now) × (q.gate.now ≡ p.gate.now)
        × (q.generator.now ≡ p.generator.now) × SameLent p q };

    ghost readies = { λ p r b a q. IsReadyFor R.gives p.core.now p.registry.now r b a × (q.core.now ≡ p.core.now)
        × (q.registry.now ≡ p.registry.now) × (q.gate.now ≡ p.gate.now)
        × (q.generator.now ≡ p.generator.now) × SameLent p q };

    ghost draws = { λ p r d q. IsDrawn p.core.now (G.stream p.generator.now) (load_in p.loads.now) r d q.core.now (G.stream q.generator.now)
        × (q.registry.now ≡ p.registry.now) × (q.gate.now ≡ p.gate.now) × SameLent p q };

    fn enter(&mut self, slot: usize) -> Result<Reader<S>, Refusal> {
        self.core.past();
        self.core.enter(slot)
    }

    fn ready(&mut self, reader: &Reader<S>, backend: &Backend) -> bool {
        self.core.ready(reader, self.registry, backend)
    }

    fn ticket(&mut self, reader: &Reader<S>) -> u64 {
        self.core.ticket(reader)
    }

    fn random(&mut self, _reader: &Reader<S>) -> u64 {
        self.generator.next_u64()
    }

    fn load(&self, _reader: &Reader<S>, backend: &Backend) -> u64 {
        self.loads.get(backend)
    }

    ghost draws_keep = { λ p r d q drawn own. drawn_keeps p.core.now q.core.now (G.stream p.generator.now) (G.stream q.generator.now)
        (load_in p.loads.now) r d drawn.0 own };

    ghost readies_keep = { λ p r b a q told own. subst (λ v. OwnsReader v r) (sym told.1) own };
}

impl<'c, 'x, 'g, 'w, 'l, S: BackendSelection, R: KeyRule + Drop, G: Rng> TakesBuilds<
    RefusedJob<S>,
    Built<S>,
> for PlainPort<'c, 'x, 'g, 'w, 'l, S, R, G> {
    ghost owns_refused = { λ p r. OwnsJob p.core.now r.task };

    ghost owns_built = { λ p b. OwnsJob p.core.now b.task };

    ghost failed = { λ p r now q. IsFailed R.gives p.core.now p.registry.now p.gate.now r.task now (Ok tt) q.core.now q.registry.now
        q.gate.now
        × (q.generator.now ≡ p.generator.now) × SameLent p q };

    ghost published = { λ p b t q. IsPublished p.core.now b (Ok t) q.core.now
        × (q.registry.now ≡ p.registry.now) × (q.gate.now ≡ p.gate.now)
        × (q.generator.now ≡ p.generator.now) × SameLent p q };

    fn fail(&mut self, refused: RefusedJob<S>, now: u128) {
        match self
            .core
            .fail(refused.into_job(), self.registry, self.gate, now)
        {
            Ok(()) => {}
            Err(_job) => unreachable!(),
        }
    }

    fn publish(&mut self, built: Built<S>) -> Publication {
        match self.core.publish(built) {
            Ok(told) => told,
            Err(_built) => unreachable!(),
        }
    }
}

impl<'c, 'x, 'g, 'w, 'l, S: BackendSelection, R: KeyRule + Drop, G: Rng> WorkPort<S>
    for PlainPort<'c, 'x, 'g, 'w, 'l, S, R, G> {
    ghost owns_job = { λ p t. OwnsJob p.core.now t };

    ghost asked = { λ p slot now r q. IsAsked p.core.now p.gate.now slot now r q.core.now q.gate.now
        × (q.registry.now ≡ p.registry.now)
        × (q.generator.now ≡ p.generator.now) × SameLent p q };

    ghost taken = { λ p slot r q. IsTaken p.core.now slot r q.core.now
        × (q.registry.now ≡ p.registry.now) × (q.gate.now ≡ p.gate.now)
        × (q.generator.now ≡ p.generator.now) × SameLent p q };

    ghost reported = { λ p slot permit q. IsReported R.gives p.core.now p.registry.now p.gate.now slot permit (Ok tt) q.core.now
        q.registry.now q.gate.now
        × (q.generator.now ≡ p.generator.now) × SameLent p q };

    ghost owns_permit = { λ p slot permit. OwnsPermit p.core.now slot permit };

    fn ask(&mut self, slot: usize, now: u128) -> Result<Ask<S>, Refusal> {
        // `past()` is for the prover alone: it shows it that some history explains the group, and does nothing at run time.
        self.core.past();
        self.core.ask(slot, self.gate, now)
    }

    fn take_retired(&mut self, slot: usize) -> Result<Retired<S>, Refusal> {
        self.core.past();
        self.core.take_retired(slot)
    }

    fn destroyed(&mut self, slot: usize, permit: OwedPermit) {
        match self.core.destroyed(slot, permit, self.registry, self.gate) {
            Ok(()) => {}
            Err(_permit) => unreachable!(),
        }
    }

    ghost built_of = { λ p t ended own. own };

    ghost refused_of = { λ p t e own. own };
}

impl<'c, 'x, 'g, 'w, 'l, S: BackendSelection, R: KeyRule + Drop, G: Rng> GroupPort<S>
    for PlainPort<'c, 'x, 'g, 'w, 'l, S, R, G> {}

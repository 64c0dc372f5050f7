//! Implements `GroupPort` over a group that threads share: each call takes the group's lock, and the registry's and the gate's where it
//! needs them. No build and no destruction runs under a lock.
ghost use Rattle.std.specs.Prelude.{◌≡◌};
ghost use Rattle.std.specs.Option.{ForSome};
ghost use Rattle.std.proofs.Common.{subst, sym};
ghost use Rattle.lb_threads_group.specs.Group.{OwnsJob, OwnsPermit, AskedUnder, EnteredUnder, TakenUnder, LeftUnder, PublishedUnder};
ghost use Rattle.lb_threads_group.specs.Group.{FailedUnder, ReportedUnder, ReadyUnder, ScheduledUnder};

use crate::found::Found;
use crate::group::SharedGroup;
use lb_balancer_core::build::RefusedJob;
use lb_balancer_core::port::{
    GroupPort, SchedulePort, SelectPort, TakesBuilds, TakesReaders, WorkPort,
};
use lb_health_core::health_check::{BoxedCheck, HealthCheck};
use lb_health_core::keys::{KeyRule, Rule};
use lb_health_view::view::Settings;
use lb_rebuild_core::answers::{Ask, Publication};
use lb_rebuild_core::endings::{end_built, end_job, end_permit, end_reader};
use lb_rebuild_core::job::Built;
use lb_rebuild_core::membership::Scheduled;
use lb_rebuild_core::retired::{OwedPermit, Reader, Retired};
use lb_select_base::backend::Backend;
use lb_select_base::refusal::Refusal;
use lb_select_base::walk::BackendSelection;
use lb_threads_core::gate::{SelectorRebuildGate, put_gate, take_gate};
use lb_threads_core::generators::SharedGenerator;
use lb_threads_core::keyed::NoRule;
use lb_threads_core::registry::{HealthRegistry, put_registry, take_registry};
use std::alloc::Global;
use std::collections::BTreeSet;
use std::sync::Wait;

/// One thread's port of a group that threads share.
#[derive(Drop)]
pub struct LockedPort<
    'g,
    'r,
    'f,
    S: BackendSelection,
    W,
    R: KeyRule + Drop = Rule<NoRule>,
    C = BoxedCheck,
> {
    pub group: &'g SharedGroup<S, R, C>,
    pub rt: &'r W,
    // Words of the group, which are loaded before a lock is taken.
    pub(crate) found: Option<&'f Found<S, R, C>>,
    pub(crate) generator: &'f SharedGenerator,
    ghost own: { ForSome found (λ f. f.now.site ≡ group.now) },
}

impl<'g, 'r, S: BackendSelection, R: KeyRule + Drop, C, W> LockedPort<'g, 'r, 'g, S, W, R, C> {
    /// Returns a port of this group, for the thread that `rt` is of.
    pub fn new(group: &'g SharedGroup<S, R, C>, rt: &'r W) -> LockedPort<'g, 'r, 'g, S, W, R, C>
        ensures { result.group.now ≡ group.now }
    {
        LockedPort {
            group,
            rt,
            found: group.no_words(),
            generator: &group.generator,
        }
    }
}

impl<
    'g,
    'r,
    'f,
    S: BackendSelection,
    R: KeyRule + Drop,
    C: HealthCheck + Drop,
    W: Wait,
> SchedulePort for LockedPort<'g, 'r, 'f, S, W, R, C> {
    ghost scheduled = { λ p ms settings now r q. ScheduledUnder R.gives p.group.now ms settings now r × (q.group.now ≡ p.group.now) };

    fn schedule(
        &mut self,
        alloc: Global,
        discovered: BTreeSet<Backend>,
        settings: Settings,
        now: u128,
    ) -> Result<Scheduled, Refusal> {
        let group = self.group;
        let registries: &HealthRegistry<R, C> = &*group.registry;
        let _gate = &group.gate;
        let has_settings = !settings.is_empty();
        let mut held = group.lock.take(self.rt);
        held.value.founded();
        let mut cells = take_registry(registries, self.rt);
        let told = held
            .value
            .schedule(alloc, &mut cells.value, discovered, settings, now);
        put_registry(registries, cells);
        held.value.founded();
        if told.is_ok() {
            group.show_newest(self.rt, &held.value);
        }
        group.note_all(&held.value);
        if has_settings {
            group.note_flags(self.rt, &held.value, None);
        }
        group.lock.put(held);
        group.wake_if(brings_orders(&told));
        told
    }
}

impl<
    'g,
    'r,
    'f,
    S: BackendSelection,
    R: KeyRule + Drop,
    C: HealthCheck + Drop,
    W: Wait,
> TakesReaders<Reader<S>> for LockedPort<'g, 'r, 'f, S, W, R, C> {
    ghost owns_reader = { λ p r. r.group ≡ p.group.now.core.group.id };

    ghost left = { λ p r q. LeftUnder p.group.now.core r × (q.group.now ≡ p.group.now) };

    fn leave(&mut self, reader: Reader<S>) {
        let group = self.group;
        let _gate = &group.gate;
        let slot = reader.slot();
        let generation = reader.generation();
        let mut held = group.lock.take(self.rt);
        held.value.founded();
        let served = held.value.core().served(slot);
        let told = held.value.leave(reader);
        let is_last = group.has_last_left(slot, served != Some(generation), told.is_ok());
        group.lock.put(held);
        group.wake_if(is_last);
        match told {
            Ok(()) => {}
            Err(reader) => end_reader(reader),
        }
    }
}

impl<'g, 'r, 'f, S: BackendSelection, R: KeyRule + Drop, C: HealthCheck + Drop, W: Wait> SelectPort<
    S,
> for LockedPort<'g, 'r, 'f, S, W, R, C> {
    ghost entered = { λ p slot r q. EnteredUnder p.group.now.core slot r × (q.group.now ≡ p.group.now) };

    ghost readies = { λ p r b a q. ReadyUnder R.gives p.group.now r b a × (q.group.now ≡ p.group.now) };

    // Nothing is said of the words that other threads' draws leave.
    ghost draws = { λ p r d q. q.group.now ≡ p.group.now };

    fn enter(&mut self, slot: usize) -> Result<Reader<S>, Refusal> {
        let group = self.group;
        let _gate = &group.gate;
        let mut held = group.lock.take(self.rt);
        held.value.founded();
        let told = held.value.enter(slot);
        group.lock.put(held);
        told
    }

    fn ready(&mut self, reader: &Reader<S>, backend: &Backend) -> bool {
        let group = self.group;
        match self.found {
            Some(found) if found.generation() == reader.generation() => {
                group.judge(self.rt, found, reader, backend)
            }
            _ => group.ask_ready(self.rt, reader, backend),
        }
    }

    fn ticket(&mut self, reader: &Reader<S>) -> u64 {
        match self.found {
            Some(found) if found.generation() == reader.generation() => found.ticket(),
            _ => self.group.ticket(reader.slot()),
        }
    }

    fn random(&mut self, _reader: &Reader<S>) -> u64 {
        self.generator.random()
    }

    fn load(&self, _reader: &Reader<S>, backend: &Backend) -> u64 {
        let words = match self.found {
            Some(found) => found.loads(),
            None => None,
        };
        let group = self.group;
        group.loads.get(self.rt, words, backend)
    }

    ghost draws_keep = { λ p r d q same own. subst (λ v. r.group ≡ v.core.group.id) (sym same) own };

    ghost readies_keep = { λ p r b a q told own. subst (λ v. r.group ≡ v.core.group.id) (sym told.1) own };
}

impl<
    'g,
    'r,
    'f,
    S: BackendSelection,
    R: KeyRule + Drop,
    C: HealthCheck + Drop,
    W: Wait,
> TakesBuilds<RefusedJob<S>, Built<S>> for LockedPort<'g, 'r, 'f, S, W, R, C> {
    ghost owns_refused = { λ p r. OwnsJob p.group.now.core r.task };

    ghost owns_built = { λ p b. OwnsJob p.group.now.core b.task };

    ghost failed = { λ p r now q. FailedUnder R.gives p.group.now r.task now × (q.group.now ≡ p.group.now) };

    ghost published = { λ p b t q. PublishedUnder p.group.now.core b t × (q.group.now ≡ p.group.now) };

    fn fail(&mut self, refused: RefusedJob<S>, now: u128) {
        let group = self.group;
        let registries: &HealthRegistry<R, C> = &*group.registry;
        let job = refused.into_job();
        let slot = job.slot();
        let gates: &SelectorRebuildGate = &*group.gate;
        let mut held = group.lock.take(self.rt);
        // `_gate` and `founded()` are for the prover alone: they show it the group's invariant, and do nothing at run time.
        held.value.founded();
        let mut cells = take_registry(registries, self.rt);
        let mut gate = take_gate(gates, self.rt);
        let told = held.value.fail(job, &mut cells.value, &mut gate.value, now);
        group.note_slot(&held.value, slot);
        put_gate(gates, gate);
        put_registry(registries, cells);
        group.lock.put(held);
        gates.wakes().wake();
        match told {
            Ok(()) => {}
            Err(job) => end_job(job),
        }
    }

    fn publish(&mut self, built: Built<S>) -> Publication {
        let group = self.group;
        let _gate = &group.gate;
        let slot = built.slot();
        let generation = built.generation();
        let found = group.note_built(self.rt, slot, generation);
        let mut held = group.lock.take(self.rt);
        held.value.founded();
        group.begin_filling(slot);
        let told = held.value.publish(built);
        group.note_slot(&held.value, slot);
        group.fill_lanes(&mut held.value, slot, generation, &found);
        group.lock.put(held);
        match told {
            Ok(told) => told,
            Err(built) => {
                end_built(built);
                Publication::Abandoned(generation)
            }
        }
    }
}

impl<'g, 'r, 'f, S: BackendSelection, R: KeyRule + Drop, C: HealthCheck + Drop, W: Wait> WorkPort<S>
    for LockedPort<'g, 'r, 'f, S, W, R, C> {
    ghost owns_job = { λ p t. OwnsJob p.group.now.core t };

    ghost asked = { λ p slot now r q. AskedUnder p.group.now.core slot now r × (q.group.now ≡ p.group.now) };

    ghost taken = { λ p slot r q. TakenUnder p.group.now.core slot r × (q.group.now ≡ p.group.now) };

    ghost reported = { λ p slot permit q. ReportedUnder R.gives p.group.now slot permit × (q.group.now ≡ p.group.now) };

    ghost owns_permit = { λ p slot permit. OwnsPermit p.group.now.core slot permit };

    fn ask(&mut self, slot: usize, now: u128) -> Result<Ask<S>, Refusal> {
        let group = self.group;
        let gates: &SelectorRebuildGate = &*group.gate;
        let mut held = group.lock.take(self.rt);
        held.value.founded();
        let mut gate = take_gate(gates, self.rt);
        let told = held.value.ask(slot, &mut gate.value, now);
        put_gate(gates, gate);
        group.lock.put(held);
        if let Ok(Ask::Job(job)) = &told {
            group.expect(self.rt, slot, job.generation());
        }
        told
    }

    fn take_retired(&mut self, slot: usize) -> Result<Retired<S>, Refusal> {
        let group = self.group;
        let _gate = &group.gate;
        let mut held = group.lock.take(self.rt);
        group.sweep_lanes(&mut held.value, slot);
        held.value.founded();
        let told = held.value.take_retired(slot);
        group.await_readers(slot, readers_left(&told));
        group.lock.put(held);
        told
    }

    fn destroyed(&mut self, slot: usize, permit: OwedPermit) {
        let group = self.group;
        let registries: &HealthRegistry<R, C> = &*group.registry;
        let gates: &SelectorRebuildGate = &*group.gate;
        let mut held = group.lock.take(self.rt);
        held.value.founded();
        let mut cells = take_registry(registries, self.rt);
        let mut gate = take_gate(gates, self.rt);
        let told = held
            .value
            .destroyed(slot, permit, &mut cells.value, &mut gate.value);
        put_gate(gates, gate);
        put_registry(registries, cells);
        group.lock.put(held);
        gates.wakes().wake();
        match told {
            Ok(()) => {}
            Err(permit) => end_permit(permit),
        }
    }

    ghost built_of = { λ p t ended own. own };

    ghost refused_of = { λ p t e own. own };
}

impl<'g, 'r, 'f, S: BackendSelection, R: KeyRule + Drop, C: HealthCheck + Drop, W: Wait> GroupPort<
    S,
> for LockedPort<'g, 'r, 'f, S, W, R, C> {}

// Whether a membership gave the slots orders.
fn brings_orders(told: &Result<Scheduled, Refusal>) -> bool {
    match told {
        Ok(scheduled) => scheduled.changed,
        Err(_) => false,
    }
}

// How many readers a retired selector has that could not be taken out.
fn readers_left<S: BackendSelection>(told: &Result<Retired<S>, Refusal>) -> u64 {
    match told {
        Err(Refusal::StillRead(readers)) => *readers,
        Ok(_) | Err(_) => 0,
    }
}

//! The calls of a group that threads share.
ghost use Rattle.std.specs.Prelude.{◌≡◌};

use crate::calls::{
    Answer, AskedGroup, ByPasses, Call, GroupByPasses, GroupWithReaders, HasWorkers, Readings,
};
use crate::turns::turn_by;
use lb_balancer_core::port::WorkPort;
use lb_balancer_core::turn::Turn;
use lb_balancer_core::update::update_through;
use lb_balancer_group::start::start_workers_by;
use lb_health_core::health_check::HealthCheck;
use lb_health_core::keys::KeyRule;
use lb_health_view::discovery::{DiscoverySource, Static};
use lb_rebuild::board::GroupPass;
use lb_rebuild_core::retired::Reader;
use lb_select_base::backend::Backend;
use lb_select_base::moments::MomentSource;
use lb_select_base::refusal::Refusal;
use lb_select_base::walk::BackendSelection;
use lb_threads_group::group::SharedGroup;
use lb_threads_group::port::LockedPort;
use lb_threads_group::workers::work;
use log::Log;
use std::alloc::Global;
use std::sync::Wait;
use std::sync::atomic::AtomicU64;
use std::sync::atomic::Ordering::SeqCst;

impl<S: BackendSelection, R: KeyRule + Drop, C: HealthCheck + Drop> ByPasses
    for SharedGroup<S, R, C> {
    ghost board = { λ g. g.board };

    fn pass(&self) -> GroupPass {
        SharedGroup::pass(self)
    }

    fn meet<W: Wait>(&self, rt: &W, pass: &mut GroupPass, other: &mut GroupPass) {
        SharedGroup::meet(self, rt, pass, other);
    }
}

impl<S: BackendSelection, R: KeyRule + Drop, C: HealthCheck + Drop> GroupByPasses
    for SharedGroup<S, R, C> {
    fn reads(&self, slot: usize, pass: &mut GroupPass) -> (u64, Option<u64>) {
        let served = self.selector_generation_as(slot, pass);
        let newest = self.backend_generation_as(pass);
        (newest, served)
    }

    fn update_as<W: Wait, K: MomentSource>(
        &self,
        rt: &W,
        alloc: Global,
        found: &DiscoverySource<Static>,
        clock: &mut K,
        pass: &mut GroupPass,
    ) -> Result<u64, Refusal> {
        SharedGroup::update_as(self, rt, alloc, found, clock, pass)
    }
}

impl<S: BackendSelection, R: KeyRule + Drop, C: HealthCheck + Drop> GroupWithReaders
    for SharedGroup<S, R, C> {
    type Reader = Reader<S>;

    ghost owns = { λ g r. r.group ≡ g.core.group.id };

    fn enter<W: Wait>(&self, rt: &W, slot: usize) -> Result<Reader<S>, Refusal> {
        let mut pass = SharedGroup::pass(self);
        self.enter_as(rt, slot, &mut pass)
    }

    fn select_in<W: Wait>(
        &self,
        rt: &W,
        alloc: Global,
        reader: &Reader<S>,
        key: &[u8],
        max_iterations: usize,
    ) -> Result<Option<Backend>, Refusal> {
        let any = |_backend: &Backend| true;
        SharedGroup::select_in(self, rt, alloc, reader, key, max_iterations, &any)
    }

    fn leave<W: Wait>(&self, rt: &W, reader: Reader<S>) {
        SharedGroup::leave(self, rt, reader);
    }
}

impl<S: BackendSelection, R: KeyRule + Drop, C: HealthCheck + Drop> HasWorkers
    for SharedGroup<S, R, C> {
    fn worker_count(&self) -> usize {
        SharedGroup::worker_count(self)
    }
}

// Destroys what a slot retired, and reports it.
fn destroyed<S: BackendSelection, R: KeyRule + Drop, C: HealthCheck + Drop, W: Wait>(
    rt: &W,
    group: &SharedGroup<S, R, C>,
    slot: usize,
) -> Result<(), Refusal> {
    let mut port = LockedPort::new(group, rt);
    let retired = port.take_retired(slot)?;
    let permit = retired.destroy();
    port.destroyed(slot, permit);
    Ok(())
}

// Updates a group by a port.
fn scheduled<
    S: BackendSelection,
    R: KeyRule + Drop,
    C: HealthCheck + Drop,
    W: Wait,
    K: MomentSource,
>(
    rt: &W,
    alloc: Global,
    group: &SharedGroup<S, R, C>,
    found: &DiscoverySource<Static>,
    clock: &mut K,
) -> Result<u64, Refusal> {
    let mut port = LockedPort::new(group, rt);
    update_through(alloc, &mut port, found, clock)
}

// What is read of a group and of a slot.
fn readings_of<S: BackendSelection, R: KeyRule + Drop, C: HealthCheck + Drop, W: Wait>(
    rt: &W,
    group: &SharedGroup<S, R, C>,
    slot: usize,
) -> Readings {
    Readings {
        is_cancelled: group.is_cancelled(rt),
        is_let_go: group.is_let_go(),
        counts: group.selector_counts(rt, slot),
        timing: group.selector_timing(rt, slot),
        wakes: group.wakes().seen(),
    }
}

// Says of all workers but the first that is asked for that they were started; how many weren't.
fn start_all_but_one<S: BackendSelection, R: KeyRule + Drop, C: HealthCheck + Drop>(
    group: &SharedGroup<S, R, C>,
) -> usize {
    let asked = AtomicU64::new(0);
    start_workers_by(group, &|_slot: usize| asked.fetch_add(1, SeqCst) != 0)
}

impl<S: BackendSelection, R: KeyRule + Drop, C: HealthCheck + Drop> AskedGroup
    for SharedGroup<S, R, C> {
    fn ask<W: Wait, K: MomentSource>(
        &self,
        rt: &W,
        alloc: Global,
        call: Call<'_>,
        clock: &mut K,
    ) -> Answer {
        match call {
            Call::Update(found) => Answer::Generation(self.update(rt, alloc, found, clock)),
            Call::Schedule(found) => Answer::Generation(scheduled(rt, alloc, self, found, clock)),
            Call::Turn(slot) => Answer::Turn(turn_by(rt, alloc, self, slot, clock)),
            Call::Destroy(slot) => Answer::Done(destroyed(rt, self, slot)),
            Call::LeaveSlot(slot) => {
                self.leave_slot(slot);
                Answer::Done(Ok(()))
            }
            Call::Ready(backend) => Answer::Ready(self.ready(rt, backend)),
            Call::SetEnable(backend, enabled) => {
                self.set_enable(rt, backend, enabled);
                Answer::Done(Ok(()))
            }
            Call::Members => Answer::Members(self.get_backend(rt)),
            Call::Newest => Answer::Newest(self.backend_generation(rt)),
            Call::Served(slot) => Answer::Served(self.selector_generation(rt, slot)),
            Call::Read(slot) => Answer::Readings(readings_of(rt, self, slot)),
            Call::StartAllButOne => Answer::Missing(start_all_but_one(self)),
            Call::LetGo => {
                self.let_go();
                Answer::Done(Ok(()))
            }
            Call::Cancel => {
                self.cancel(rt);
                Answer::Done(Ok(()))
            }
        }
    }

    fn work<W: Log + Wait, K: MomentSource>(
        &self,
        rt: &W,
        alloc: Global,
        slot: usize,
        clock: &mut K,
    ) -> bool {
        work(rt, alloc, self, slot, clock)
    }

    fn select_with<W: Wait, F: Fn(&Backend, bool) -> bool>(
        &self,
        rt: &W,
        alloc: Global,
        slot: usize,
        accept: &F,
    ) -> Result<Option<Backend>, Refusal> {
        SharedGroup::select_with(self, rt, alloc, slot, b"k", 4, accept)
    }
}

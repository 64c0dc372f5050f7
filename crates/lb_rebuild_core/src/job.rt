//! Orders for selectors, and the values that carry one out: a job that is to be built, and the selector that was built.
//! A job and a built selector cannot be dropped: the gate's permit stays in their slot until they come back. Building runs outside all
//! locks.
ghost use Rattle.std.specs.Prelude.{◌≡◌, ◌⊎◌, IfOk, IfErr, OnErr};
ghost use Rattle.std.specs.Arc.{arc_value};
ghost use Rattle.lb_rebuild_core.specs.Values.{order_of};

use crate::end_source::EndSource;
use crate::gate::Permit;
use crate::place::SlotPlace;
use lb_select_base::backend::Backend;
use lb_select_base::refusal::Refusal;
use lb_select_base::walk::BackendSelection;
use std::alloc::Global;
use std::collections::BTreeSet;
use std::marker::Model;
use std::snapshot::Snapshot;
use std::sync::Arc;

/// A slot's share of one membership and of its own configuration. It is made when the membership becomes the newest, so that
/// a job takes no memory.
#[derive(Drop)]
pub(crate) struct Order<C: Drop> {
    pub(crate) generation: u64,
    pub(crate) members: Arc<BTreeSet<Backend>>,
    pub(crate) config: Arc<C>,
}

impl<C: Drop> Model for Order<C> {
    ghost use Rattle.std.specs.Arc.{arc_value};
    ghost use Rattle.lb_rebuild_core.specs.Values.{OrderValue};

    ghost Value = { OrderValue C };

    ghost view = { λ o. record { generation = o.generation; members = (arc_value o.members).keys; config = arc_value o.config } };
}

/// The right and the order to build the selector of one slot for one generation.
///
/// Contracts see its group, its slot, the generation, the members, the configuration, and of which gate the permit is that its slot has.
pub struct Job<S: BackendSelection> {
    pub(crate) place: SlotPlace,
    pub(crate) order: Order<S::Config>,
    pub(crate) permit: Snapshot<Permit>,
}

impl<S: BackendSelection> Model for Job<S> {
    ghost use Rattle.lb_rebuild_core.specs.Values.{Task, task_of};

    ghost Value = { Task S.Config };

    ghost view = { λ j. task_of j.place j.order j.permit.value };
}

/// A selector that was built and is not yet published. Contracts see of it what they saw of its job, and when the build ended.
pub struct Built<S: BackendSelection> {
    pub(crate) place: SlotPlace,
    pub(crate) order: Order<S::Config>,
    pub(crate) permit: Snapshot<Permit>,
    pub(crate) selector: Arc<S>,
    pub(crate) ended: u128,
}

impl<S: BackendSelection> Model for Built<S> {
    ghost use Rattle.std.specs.Prelude.{◌≡◌};
    ghost use Rattle.std.specs.Arc.{arc_value};
    ghost use Rattle.lb_rebuild_core.specs.Values.{BuiltValue, task_of};

    ghost Value = { BuiltValue S.Config };

    ghost view = { λ b. record {
      task = task_of b.place b.order b.permit.value;
      ended = b.ended;
    } };

    ghost invariant = { λ b. (S.members (arc_value b.selector) ≡ b.order.members)
        × (S.built_with (arc_value b.selector) ≡ b.order.config) };
}

impl<S: BackendSelection> Job<S> {
    /// Returns the slot that it is for.
    pub fn slot(&self) -> usize
        ensures { result ≡ self.now.slot }
    {
        let place = &self.place;
        place.slot
    }

    /// Returns the generation that it is to build.
    pub fn generation(&self) -> u64
        ensures { result ≡ self.now.generation }
    {
        self.order.generation
    }

    /// Builds the selector, and then reads the clock once: no reading can be made before, as it borrows the selector.
    ///
    /// It runs outside all locks, and may take long.
    ///
    /// # Errors
    ///
    /// The job and the cause for which its selector cannot be built, or the job and `OutOfMemory`. The clock isn't read then.
    pub fn build<K: EndSource<S>>(
        self,
        alloc: Global,
        clock: &mut K,
    ) -> Result<Built<S>, FailedBuild<S>>
        ensures built { IfOk result (λ b. (S.refusal self.members self.config ≡ None) × (b.task ≡ self)
            × K.ends clock.old b.ended clock.new) }
        ensures failed { IfErr result (λ f. (f.job ≡ self)
            × ((S.refusal self.members self.config ≡ Some f.refusal)
            ⊎ ((S.refusal self.members self.config ≡ None) × (f.refusal ≡ Refusal.OutOfMemory)))) }
        ensures unread { OnErr result (clock.new ≡ clock.old) }
    {
        let order = &self.order;
        match S::build_with_config(alloc, &order.members, &order.config) {
            Ok(selector) => match Arc::new(alloc, selector) {
                Ok(selector) => {
                    let ended = clock.end_of(&*selector);
                    Ok(self.built(selector, ended))
                }
                Err(_refused) => Err(FailedBuild {
                    job: self,
                    refusal: Refusal::OutOfMemory,
                }),
            },
            Err(refusal) => Err(FailedBuild { job: self, refusal }),
        }
    }

    fn built(self, selector: Arc<S>, ended: u128) -> Built<S>
        requires { (S.members (arc_value selector) ≡ self.members) × (S.built_with (arc_value selector) ≡ self.config) }
        ensures { result ≡ record { task = self; ended = ended } }
    {
        let Job {
            place,
            order,
            permit,
        } = self;
        Built {
            place,
            order,
            permit,
            selector,
            ended,
        }
    }

    // The order that comes back with the job.
    pub(crate) fn into_order(self) -> Order<S::Config>
        ensures { result ≡ order_of self }
    {
        let Job {
            place: _,
            order,
            permit: _,
        } = self;
        order
    }

    // Ends the job for good.
    pub(crate) fn end(self) {
        let Job {
            place: _,
            order: _,
            permit: _,
        } = self;
    }
}

impl<S: BackendSelection> Built<S> {
    /// Returns the slot that it is for.
    pub fn slot(&self) -> usize
        ensures { result ≡ self.now.task.slot }
    {
        let place = &self.place;
        place.slot
    }

    /// Returns the generation that was built.
    pub fn generation(&self) -> u64
        ensures { result ≡ self.now.task.generation }
    {
        self.order.generation
    }

    // Ends the selector for good.
    pub(crate) fn end(self) {
        let Built {
            place: _,
            order: _,
            permit: _,
            selector: _,
            ended: _,
        } = self;
    }
}

/// A job whose build was refused, and the refusal. The job goes back to its group as failed.
pub struct FailedBuild<S: BackendSelection> {
    pub job: Job<S>,
    pub refusal: Refusal,
}

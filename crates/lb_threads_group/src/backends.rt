//! Calls on the newest backends of a group that threads share: which they are, whether one is ready, and the flags that callers set. Each
//! call takes the group's lock once, but for `ready`, which mostly takes none.
ghost use Rattle.std.specs.Prelude.{◌≡◌, Err, IfOk, OnErr};
ghost use Rattle.std.specs.Arc.{arc_value};
ghost use Rattle.lb_rebuild_core.specs.GroupHistory.{members_now};
ghost use Rattle.lb_rebuild_core.specs.GroupStates.{After};
ghost use Rattle.lb_threads_group.specs.Group.{FlaggedUnder, NewestReadyUnder, Seen};

use crate::group::SharedGroup;
use lb_health_core::health_check::HealthCheck;
use lb_health_core::keys::KeyRule;
use lb_select_base::backend::Backend;
use lb_select_base::refusal::Refusal;
use lb_select_base::walk::BackendSelection;
use lb_threads_core::registry::{HealthRegistry, put_registry, take_registry};
use std::collections::BTreeSet;
use std::sync::{Arc, Wait};

impl<S: BackendSelection, R: KeyRule + Drop, C: HealthCheck + Drop> SharedGroup<S, R, C> {
    /// Returns the membership of the newest generation.
    ///
    /// Refused `OutOfMemory` where std refuses one more owner.
    pub fn get_backend<W: Wait>(&self, rt: &W) -> Result<Arc<BTreeSet<Backend>>, Refusal>
        ensures members { IfOk result (λ set. Seen self.now.core (λ v. After v (λ made e. (arc_value set).keys ≡ members_now e))) }
        ensures refused { OnErr result (result ≡ Err Refusal.OutOfMemory) }
    {
        // `_gate` and `founded()` are for the prover alone: they show it the group's invariant, and do nothing at run time.
        let _gate = &self.gate;
        let held = self.lock.take(rt);
        let group = held.value.core();
        group.founded();
        let members = group.get_backend();
        self.lock.put(held);
        members
    }

    /// Returns whether a backend is ready in the newest membership, without taking memory.
    ///
    /// It takes no lock but before the first update has ended, where memory for words was refused, where other threads keep all four lanes
    /// busy that it tries, and once `let_go` was called.
    pub fn ready<W: Wait>(&self, rt: &W, backend: &Backend) -> bool
        ensures { NewestReadyUnder R.gives self.now backend.now result }
    {
        match self.ready_by_words(backend) {
            Some(ready) => ready,
            None => self.ready_under_locks(rt, backend),
        }
    }

    // Whether a backend is ready in the newest membership, as group and registry say.
    #[cold]
    #[inline(never)]
    fn ready_under_locks<W: Wait>(&self, rt: &W, backend: &Backend) -> bool
        ensures { NewestReadyUnder R.gives self.now backend.now result }
    {
        let _gate = &self.gate;
        let registries: &HealthRegistry<R, C> = &*self.registry;
        let held = self.lock.take(rt);
        held.value.founded();
        let registry = take_registry(registries, rt);
        let told = held.value.core().newest_ready(&registry.value, backend);
        put_registry(registries, registry);
        self.lock.put(held);
        told
    }

    /// Enables or disables a backend that a living snapshot lists, by identity; another is left alone.
    ///
    /// Selections that begin after it go by it. It takes no memory.
    pub fn set_enable<W: Wait>(&self, rt: &W, backend: &Backend, enabled: bool)
        ensures { FlaggedUnder self.now.core backend.now enabled }
    {
        let _gate = &self.gate;
        let mut held = self.lock.take(rt);
        held.value.founded();
        held.value.set_enable(backend, enabled);
        held.value.founded();
        self.note_flags(rt, &held.value, Some(backend));
        self.lock.put(held);
    }
}

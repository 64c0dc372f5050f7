//! The backends of a balancer or a group that threads share, borrowed: readings, flags and checks, but no call that updates them.
ghost use Rattle.std.specs.Prelude.{◌≡◌, ℕ, Bool, List, IfErr, IfOk, OnErr};
ghost use Rattle.std.specs.Arc.{arc_value};
ghost use Rattle.lb_select_base.specs.Backends.{Member};
ghost use Rattle.lb_health_core.specs.Registry.{IsGrowthRefusal};

use lb_health_core::health_check::HealthCheck;
use lb_health_core::keys::KeyRule;
use lb_select_base::backend::Backend;
use lb_select_base::refusal::Refusal;
use lb_threads_core::registry::HealthRegistry;
use log::Log;
use std::alloc::Global;
use std::collections::BTreeSet;
use std::sync::{Arc, Wait};
use std::thread::Threads;

/// What lends its backends to threads: the calls on its newest membership, and its registry of health. Other threads may change the
/// membership at any time, so a call is made at some state of it.
///
/// No call of it starts threads: an implementation can't, whose rule and check are type parameters.
pub trait LendsToThreads {
    /// The rule of the registry's keys.
    type Rule: KeyRule + Drop;
    /// The check of the registry's targets.
    type Check: HealthCheck + Drop;

    // What the newest generation may be, what it may list, and whether a member of it may be ready.
    ghost is_newest: { Self → ℕ → Type 0 };

    ghost lists: { Self → List Member → Type 0 };

    ghost judges: { Self → Member → Bool → Type 0 };

    // That a backend was enabled or disabled.
    ghost flags: { Self → Member → Bool → Type 0 };

    /// Returns the newest generation; 0 before the first membership.
    fn newest_generation<W: Wait>(&self, rt: &W) -> u64
        ensures { is_newest self.now result };

    /// Returns the newest membership.
    ///
    /// Refused `OutOfMemory` where memory is refused.
    fn newest_members<W: Wait>(&self, rt: &W) -> Result<Arc<BTreeSet<Backend>>, Refusal>
        ensures members { IfOk result (λ set. lists self.now (arc_value set).keys) }
        ensures refused { IfErr result (λ e. e ≡ Refusal.OutOfMemory) };

    /// Returns whether a backend is ready in the newest membership, without taking memory.
    fn newest_ready<W: Wait>(&self, rt: &W, backend: &Backend) -> bool
        ensures { judges self.now backend.now result };

    /// Enables or disables a backend, by identity, without taking memory.
    fn flag<W: Wait>(&self, rt: &W, backend: &Backend, enabled: bool)
        ensures { flags self.now backend.now enabled };

    /// Returns the registry whose targets are checked.
    fn health_registry(&self) -> &HealthRegistry<Self::Rule, Self::Check>;

    /// Judges again what a pass of checks may have changed.
    fn note_checks<W: Wait>(&self, rt: &W);
}

/// The backends of a balancer or a group, borrowed from it.
#[derive(Drop)]
pub struct SharedBackends<'b, B> {
    lender: &'b B,
}

/// Returns the backends of a balancer or a group, borrowed from it: what its `backends` answers.
pub fn lend<'b, B>(lender: &'b B) -> SharedBackends<'b, B>
    ensures { result.lender.now ≡ lender.now }
{
    SharedBackends { lender }
}

impl<'b, B: LendsToThreads> SharedBackends<'b, B> {
    /// Returns the newest generation; 0 before the first membership.
    pub fn generation<W: Wait>(&self, rt: &W) -> u64
        ensures { B.is_newest self.now.lender.now result }
    {
        self.lender.newest_generation(rt)
    }

    /// Returns the newest membership.
    ///
    /// Refused `OutOfMemory` where memory is refused.
    pub fn get_backend<W: Wait>(&self, rt: &W) -> Result<Arc<BTreeSet<Backend>>, Refusal>
        ensures members { IfOk result (λ set. B.lists self.now.lender.now (arc_value set).keys) }
        ensures refused { IfErr result (λ e. e ≡ Refusal.OutOfMemory) }
    {
        self.lender.newest_members(rt)
    }

    /// Returns whether a backend is ready in the newest membership, without taking memory.
    ///
    /// It takes no lock but before the first update has ended, where memory for words was refused, where other threads keep all four lanes
    /// busy that it tries, and once a group's handle was dropped or a balancer left its registry. A balancer's also takes some where the
    /// thread that updates is stopped while it fills lanes.
    pub fn ready<W: Wait>(&self, rt: &W, backend: &Backend) -> bool
        ensures { B.judges self.now.lender.now backend.now result }
    {
        self.lender.newest_ready(rt, backend)
    }

    /// Enables or disables a backend by identity: one of the newest membership, or of a living snapshot of a group. Another is left alone.
    ///
    /// It takes no memory.
    pub fn set_enable<W: Wait>(&self, rt: &W, backend: &Backend, enabled: bool)
        ensures { B.flags self.now.lender.now backend.now enabled }
    {
        self.lender.flag(rt, backend, enabled);
    }
}

impl<'b, B: LendsToThreads> SharedBackends<'b, B>
where
    B::Rule: Send,
    B::Check: Send + Sync,
{
    /// Checks each target of the whole registry once, if a check is set, after it applied the marks that wait in the registry.
    ///
    /// With `parallel` the checks run at the same time.
    ///
    /// # Errors
    ///
    /// `NumbersExhausted` where no number is left for a cell, `OutOfMemory` where memory is refused; each before the first check.
    pub fn run_health_check<W: Log + Threads + Wait + Sync>(
        &self,
        rt: &W,
        alloc: Global,
        parallel: bool,
    ) -> Result<(), Refusal>
        ensures { OnErr result (IsGrowthRefusal result) }
    {
        let registry = self.lender.health_registry();
        let result = registry.run_health_check(rt, alloc, parallel);
        self.lender.note_checks(rt);
        result
    }
}

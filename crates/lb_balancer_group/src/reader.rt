//! A group for one thread that selects all the time: its selections have a lane of their own in each slot.
ghost use Rattle.std.specs.Prelude.{◌≡◌};
ghost use Rattle.std.specs.Arc.{arc_value};
ghost use Rattle.lb_balancer_core.specs.Looks.{Answers};
ghost use Rattle.lb_threads_group.specs.Kept.{SelectedFrom};

use crate::group::LoadBalancerGroup;
use lb_balancer_core::configured::Configured;
use lb_health_core::health_check::{BoxedCheck, HealthCheck};
use lb_health_core::keys::{KeyRule, Rule};
use lb_health_view::discovery::ServiceDiscovery;
use lb_rebuild_core::group::ready_ones;
use lb_select_base::backend::Backend;
use lb_select_base::refusal::Refusal;
use lb_select_base::walk::BackendSelection;
use lb_threads_core::keyed::NoRule;
use lb_threads_group::group::SharedGroup;
use std::alloc::Global;
use std::sync::Wait;

/// A group with a lane of its own. Selections of threads that have a reader each write nothing that another thread reads, but what
/// selectors draw. Selections by the group's own `select` go to lanes by their keys, so that threads meet in them.
///
/// It keeps no selector: what a slot retires waits for the selections that run in it alone. 64 readers have lanes of their own; those
/// past them share them.
#[derive(Drop)]
pub struct GroupReader<
    'g,
    S: BackendSelection,
    R: KeyRule + Drop = Rule<NoRule>,
    C: HealthCheck + Drop = BoxedCheck,
> {
    shared: &'g SharedGroup<Configured<S>, R, C>,
    lane: u64,
}

impl<
    S: BackendSelection,
    D: ServiceDiscovery + Drop,
    R: KeyRule + Drop,
    C: HealthCheck + Drop,
> LoadBalancerGroup<S, D, R, C> {
    /// Returns a reader of the group, for one thread.
    pub fn reader(&self) -> GroupReader<'_, S, R, C>
        ensures { result.shared.now ≡ arc_value self.now.shared }
    {
        let shared: &SharedGroup<Configured<S>, R, C> = &*self.shared;
        let lane = shared.own_lane();
        GroupReader { shared, lane }
    }
}

impl<'g, S: BackendSelection, R: KeyRule + Drop, C: HealthCheck + Drop> GroupReader<'g, S, R, C> {
    /// Returns the first ready backend among the candidates of a slot, as `LoadBalancerGroup::select` does.
    ///
    /// # Errors
    ///
    /// Those of `LoadBalancerGroup::select_with`.
    pub fn select<W: Wait>(
        &self,
        rt: &W,
        alloc: Global,
        slot: usize,
        key: &[u8],
        max_iterations: usize,
    ) -> Result<Option<Backend>, Refusal>
        ensures { SelectedFrom R.gives (λ b ready a. a ≡ ready) max_iterations S.walks key.now self.now.shared.now slot result }
    {
        self.select_with(rt, alloc, slot, key, max_iterations, &ready_ones)
    }

    /// Returns the first backend that `accept` takes among the candidates of a slot, as `LoadBalancerGroup::select_with` does.
    ///
    /// # Errors
    ///
    /// Those of `LoadBalancerGroup::select_with`.
    pub fn select_with<W: Wait, F: Fn(&Backend, bool) -> bool>(
        &self,
        rt: &W,
        alloc: Global,
        slot: usize,
        key: &[u8],
        max_iterations: usize,
        accept: &F,
    ) -> Result<Option<Backend>, Refusal>
        requires { F.IsAlwaysCallable accept.now }
        ensures { SelectedFrom R.gives (λ b ready a. Answers F.Fn accept.now b ready a) max_iterations S.walks key.now
            self.now.shared.now slot result }
    {
        self.shared
            .select_at(rt, alloc, slot, self.lane, key, max_iterations, accept)
    }
}

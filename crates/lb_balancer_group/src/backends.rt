//! The backends of a group, as it lends them to threads. Each call takes the group's lock once, but for `generation` and `ready`, which
//! mostly take none.
ghost use Rattle.std.specs.Prelude.{◌≡◌};
ghost use Rattle.std.specs.Arc.{arc_value};
ghost use Rattle.lb_rebuild_core.specs.GroupHistory.{members_now};
ghost use Rattle.lb_rebuild_core.specs.GroupStates.{After};
ghost use Rattle.lb_threads_group.specs.Group.{FlaggedUnder, NewestReadyUnder, Seen};
ghost use Rattle.lb_threads_group.specs.Numbers.{SawNewest};

use crate::group::LoadBalancerGroup;
use lb_background::lending::{LendsToThreads, SharedBackends, lend};
use lb_balancer_core::configured::Configured;
use lb_health_core::health_check::HealthCheck;
use lb_health_core::keys::KeyRule;
use lb_health_view::discovery::ServiceDiscovery;
use lb_select_base::backend::Backend;
use lb_select_base::refusal::Refusal;
use lb_select_base::walk::BackendSelection;
use lb_threads_core::registry::HealthRegistry;
use lb_threads_group::group::SharedGroup;
use std::collections::BTreeSet;
use std::sync::{Arc, Wait};

impl<
    S: BackendSelection,
    D: ServiceDiscovery + Drop,
    R: KeyRule + Drop,
    C: HealthCheck + Drop,
> LoadBalancerGroup<S, D, R, C> {
    /// Returns a borrow of the backends: readings, their flags and the checks.
    pub fn backends<'g>(&'g self) -> SharedBackends<'g, LoadBalancerGroup<S, D, R, C>>
        ensures { result.lender.now ≡ self.now }
    {
        lend(self)
    }
}

impl<
    S: BackendSelection,
    D: ServiceDiscovery + Drop,
    R: KeyRule + Drop,
    C: HealthCheck + Drop,
> LendsToThreads for LoadBalancerGroup<S, D, R, C> {
    type Rule = R;

    type Check = C;

    ghost is_newest = { λ g generation. SawNewest (arc_value g.shared).core generation };

    ghost lists = { λ g members. Seen (arc_value g.shared).core (λ v. After v (λ made e. members ≡ members_now e)) };

    ghost judges = { λ g m ready. NewestReadyUnder R.gives (arc_value g.shared) m ready };

    ghost flags = { λ g m enabled. FlaggedUnder (arc_value g.shared).core m enabled };

    fn newest_generation<W: Wait>(&self, rt: &W) -> u64 {
        self.backend_generation(rt)
    }

    fn newest_members<W: Wait>(&self, rt: &W) -> Result<Arc<BTreeSet<Backend>>, Refusal> {
        let shared: &SharedGroup<Configured<S>, R, C> = &*self.shared;
        shared.get_backend(rt)
    }

    fn newest_ready<W: Wait>(&self, rt: &W, backend: &Backend) -> bool {
        let shared: &SharedGroup<Configured<S>, R, C> = &*self.shared;
        shared.ready(rt, backend)
    }

    fn flag<W: Wait>(&self, rt: &W, backend: &Backend, enabled: bool) {
        let shared: &SharedGroup<Configured<S>, R, C> = &*self.shared;
        shared.set_enable(rt, backend, enabled);
    }

    fn health_registry(&self) -> &HealthRegistry<R, C> {
        &*self.registry
    }

    // A group's words are judged when a selection asks.
    fn note_checks<W: Wait>(&self, _rt: &W) {}
}

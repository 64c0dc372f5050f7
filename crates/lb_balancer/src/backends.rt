//! The backends of a balancer, as it lends them to threads.
ghost use Rattle.std.specs.Prelude.{◌≡◌};
ghost use Rattle.lb_balancer_core.specs.ServedViews.{SetsFlag};
ghost use Rattle.lb_balancer.specs.History.{IsServedGeneration, IsShownBy, JudgedBy, UnderServing};
ghost use Rattle.lb_balancer.specs.Shown.{ShownValue};

use crate::load_balancer::LoadBalancer;
use lb_background::lending::{LendsToThreads, SharedBackends, lend};
use lb_health_core::health_check::HealthCheck;
use lb_health_core::keys::KeyRule;
use lb_health_view::discovery::ServiceDiscovery;
use lb_select_base::backend::Backend;
use lb_select_base::refusal::Refusal;
use lb_select_base::walk::BackendSelection;
use lb_threads_core::registry::HealthRegistry;
use std::collections::BTreeSet;
use std::sync::{Arc, Wait};

impl<
    S: BackendSelection,
    D: ServiceDiscovery + Drop,
    R: KeyRule + Drop,
    C: HealthCheck + Drop,
> LoadBalancer<S, D, R, C> {
    /// Returns a borrow of the backends: readings, their flags and the checks.
    pub fn backends<'b>(&'b self) -> SharedBackends<'b, LoadBalancer<S, D, R, C>>
        ensures { result.lender.now ≡ self.now }
    {
        lend(self)
    }
}

impl<
    S: BackendSelection,
    D: ServiceDiscovery + Drop,
    R: KeyRule + Drop,
    C: HealthCheck + Drop,
> LendsToThreads for LoadBalancer<S, D, R, C> {
    type Rule = R;

    type Check = C;

    ghost is_newest = { λ b generation. IsServedGeneration b.shared generation };

    ghost lists = { λ b members. (s : ShownValue S.Config) × IsShownBy R.gives b.shared s × (members ≡ s.members) };

    ghost judges = { λ b m ready. JudgedBy R.gives b.shared m ready };

    ghost flags = { λ b m enabled. UnderServing b.shared (SetsFlag m enabled) };

    fn newest_generation<W: Wait>(&self, rt: &W) -> u64 {
        self.shared.generation(rt)
    }

    fn newest_members<W: Wait>(&self, rt: &W) -> Result<Arc<BTreeSet<Backend>>, Refusal> {
        self.shared.get_backend(rt)
    }

    fn newest_ready<W: Wait>(&self, rt: &W, backend: &Backend) -> bool {
        self.shared.ready(rt, backend)
    }

    fn flag<W: Wait>(&self, rt: &W, backend: &Backend, enabled: bool) {
        self.shared.set_enable(rt, backend, enabled);
    }

    fn health_registry(&self) -> &HealthRegistry<R, C> {
        self.shared.health_registry()
    }

    fn note_checks<W: Wait>(&self, rt: &W) {
        self.shared.judge_all(rt);
    }
}

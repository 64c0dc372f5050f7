//! A caller of borrowed backends: its contract says that what is set through them reaches the balancer.
ghost use Rattle.std.specs.Prelude.{◌≡◌, ◌∷◌, false};
ghost use Rattle.lb_balancer_core.specs.Balancer.{After, Set, Stands};

use lb_balancer_core::balancer_core::LoadBalancerCore;
use lb_health_core::keys::KeyRule;
use lb_health_core::registry::Registry;
use lb_health_view::discovery::ServiceDiscovery;
use lb_select_base::backend::Backend;
use lb_select_base::walk::BackendSelection;
use rand_pcg::Pcg64;

/// Disables a backend of the balancer.
pub(crate) fn disable<S: BackendSelection, D: ServiceDiscovery + Drop, R: KeyRule + Drop>(
    balancer: &mut LoadBalancerCore<S, Pcg64, D>,
    registry: &mut Registry<R>,
    backend: &Backend,
)
    ensures stands { After balancer.old.served (λ e. Stands (Set backend.now false ∷ e) balancer.new.served) }
    ensures registry { registry.new ≡ registry.old }
{
    let mut lent = balancer.backends(registry);
    lent.set_enable(backend, false);
}

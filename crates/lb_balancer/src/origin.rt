//! What a balancer is made of, which never changes, but for what threads do in its registry. Its locks and lanes keep facts by it about
//! what they hold.
ghost use Rattle.std.specs.Prelude.{◌≡◌, unwrap_or};
ghost use Rattle.std.specs.Arc.{arc_value};

use crate::kept::KeptShown;
use crate::serving::Serving;
use lb_health_core::keys::KeyRule;
use lb_health_view::discovery::DiscoverySource;
use lb_select_base::walk::BackendSelection;
use lb_threads_core::registry::HealthRegistry;
use lb_threads_core::rule::LockRule;
use lb_threads_core::word_rule::WordRule;
use std::marker::Model;
use std::snapshot::Snapshot;
use std::sync::Arc;

/// The discovery, the configuration of the selectors, the generation at which the balancer was made, the number of its view, and the
/// registry that the view is in, which others may share. Contracts see the registry as it was when it came under its lock.
#[derive(Drop)]
pub struct Origin<S: BackendSelection, D, R: KeyRule + Drop, C> {
    pub(crate) discovery: DiscoverySource<D>,
    pub(crate) config: Option<S::Config>,
    pub(crate) first: u64,
    pub(crate) view_id: u64,
    pub(crate) registry: Arc<HealthRegistry<R, C>>,
}

impl<S: BackendSelection, D, R: KeyRule + Drop, C> Model for Origin<S, D, R, C> {
    ghost use Rattle.std.specs.Prelude.{unwrap_or};
    ghost use Rattle.std.specs.Arc.{arc_value};
    ghost use Rattle.lb_balancer.specs.History.{BalancerValue};

    ghost Value = { BalancerValue D S.Config R };

    ghost view = { λ o. record {
      discovery = o.discovery;
      config = unwrap_or o.config S.default_config;
      first = o.first;
      view_id = o.view_id;
      registry = (arc_value o.registry).start;
    } };
}

impl<S: BackendSelection, D, R: KeyRule + Drop, C> Origin<S, D, R, C> {
    // The discovery.
    pub(crate) fn discovery(&self) -> &DiscoverySource<D>
        ensures { result.now ≡ self.now.discovery }
    {
        &self.discovery
    }

    // The configuration; `None` for the default one.
    pub(crate) fn config(&self) -> &Option<S::Config>
        ensures { unwrap_or result.now S.default_config ≡ self.now.config }
    {
        &self.config
    }

    // The registry of health.
    #[inline]
    pub(crate) fn registry(&self) -> &HealthRegistry<R, C>
        ensures { result.now.start ≡ self.now.registry }
    {
        &*self.registry
    }
}

/// What is served is what the balancer's own updates left.
pub struct OfServing {}

impl<S: BackendSelection, D, R: KeyRule + Drop, C> LockRule<
    Serving<S>,
    Snapshot<Origin<S, D, R, C>>,
> for OfServing {
    ghost use Rattle.lb_balancer.specs.History.{IsServedBy};

    ghost holds = { λ key s. IsServedBy key.value s.served };
}

/// The number is a generation that the balancer served, at some moment.
pub struct OfGeneration {}

impl<S: BackendSelection, D, R: KeyRule + Drop, C> WordRule<Snapshot<Origin<S, D, R, C>>>
    for OfGeneration {
    ghost use Rattle.lb_balancer.specs.History.{IsServedGeneration};

    ghost holds = { λ key _ n. IsServedGeneration key.value n };
}

/// What is shown is what the balancer's own updates left.
pub struct OfShown {}

impl<S: BackendSelection, D, R: KeyRule + Drop, C> LockRule<
    KeptShown<S, D, R, C>,
    Snapshot<Origin<S, D, R, C>>,
> for OfShown {
    ghost use Rattle.lb_balancer.specs.Kept.{IsKept};

    ghost holds = { λ key kept. IsKept R.gives key.value kept.shown kept.ready };
}

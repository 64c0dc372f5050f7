//! Makes a balancer from texts. It serves its backends before threads share it, so its refusals are stated exactly.
ghost use Rattle.std.specs.Prelude.{◌≡◌, ℕ, List, true, IfOk, IfErr};
ghost use Rattle.std.specs.Borrow.{Bor};
ghost use Rattle.std.specs.Iterator.{Drains, IsFinite};
ghost use Rattle.lb_health_core.specs.Keys.{rule_gives};
ghost use Rattle.lb_balancer_core.specs.Texts.{IsTextsRefusal};
ghost use Rattle.lb_health_view.specs.ViewEvents.{ViewEvent, generation_after, membership_after};
ghost use Rattle.lb_health_view.specs.Views.{IsViewAfter};
ghost use Rattle.lb_balancer.specs.History.{AreDiscovered};
ghost use Rattle.lb_balancer.specs.Made.{IsNotSetYet};
ghost use Rattle.lb_balancer.specs.Texts.{IsOfTexts, OfNew};

use crate::balancing::Balancing;
use crate::load_balancer::LoadBalancer;
use crate::origin::Origin;
use crate::serving::Serving;
use lb_balancer_core::balancer_core::LoadBalancerCore;
use lb_balancer_core::served::ServedParts;
use lb_health_core::health_check::HealthCheck;
use lb_health_core::keys::{KeyRule, Rule};
use lb_health_core::registry::Registry;
use lb_health_view::discovery::ServiceDiscovery;
use lb_select_base::moments::MomentSource;
use lb_select_base::refusal::Refusal;
use lb_select_base::walk::BackendSelection;
use lb_threads_core::registry::HealthRegistry;
use rand_pcg::Pcg64;
use std::alloc::Global;
use std::net::Net;
use std::sync::{Arc, Wait};

impl<
    S: BackendSelection,
    D: ServiceDiscovery + Drop,
    N: KeyRule + Drop,
    C: HealthCheck + Drop,
> LoadBalancer<S, D, Rule<N>, C> {
    /// Returns a balancer of the backends of weight 1 at the addresses of the texts, updated once.
    ///
    /// Its discovery always finds these. A text that std reads as a socket address has that one; of another text, `host:port`, the network
    /// looks up the host. The registry is its own. The clock is read at the start and at the end, and where there are backends also before
    /// and after the build.
    ///
    /// # Errors
    ///
    /// Those of `Static::try_from_iter`; then the cause for which no backends, or those that were found, make no selector; and
    /// `OutOfMemory` where memory is refused.
    pub fn try_from_iter<'a, W: Wait + Net, I: Iterator<Item = &'a str> + Drop, K: MomentSource>(
        rt: &W,
        alloc: Global,
        texts: I,
        clock: &mut K,
    ) -> Result<LoadBalancer<S, D, Rule<N>, C>, Refusal>
        requires can { I.can_next texts }
        requires ends { IsFinite (I.remaining texts) }
        ensures made { IfOk result (λ b. (read : List (Bor (List ℕ))) × Drains I.next_gives texts read
            × IsOfTexts K.reads (rule_gives N.gives) read clock.old clock.new b.shared.discovery b.shared.first b.shared.registry) }
        ensures parts { IfOk result (λ b. (b.shared.config ≡ S.default_config) × (b.shared.view_id ≡ 1)) }
        ensures settings { IfOk result (λ b. IsNotSetYet true b.owns_checks b.health_check_frequency b.update_frequency
            b.parallel_health_check) }
        ensures refused { IfErr result (λ r. (read : List (Bor (List ℕ))) × Drains I.next_gives texts read
            × OfNew (rule_gives N.gives) (λ registry.
            IsTextsRefusal (rule_gives N.gives) registry read (λ members. S.refusal members S.default_config) r)) }
    {
        let mut registry = Registry::with_rule(alloc, Rule::Identity);
        let generator = Pcg64::new(1, 1);
        let made: LoadBalancerCore<S, Pcg64, D> = LoadBalancerCore::try_from_iter(
            alloc,
            &mut registry,
            rt,
            texts,
            clock,
            generator,
        )?;
        let shared = shared_of(rt, alloc, made, registry)?;
        Ok(LoadBalancer {
            shared,
            owns_checks: true,
            health_check_frequency: None,
            update_frequency: None,
            parallel_health_check: false,
        })
    }
}

// What threads share of a balancer that one thread made in this registry.
fn shared_of<
    S: BackendSelection,
    D: ServiceDiscovery + Drop,
    N: KeyRule + Drop,
    C: HealthCheck + Drop,
    W: Wait,
>(
    rt: &W,
    alloc: Global,
    made: LoadBalancerCore<S, Pcg64, D>,
    registry: Registry<Rule<N>>,
) -> Result<Balancing<S, D, Rule<N>, C>, Refusal>
    requires config { made.served.config ≡ S.default_config }
    requires view { (views : List ViewEvent) × IsViewAfter views made.served.view
        × AreDiscovered made.discovery (generation_after views) (membership_after views) }
    ensures made { IfOk result (λ b. (b.discovery ≡ made.discovery) × (b.config ≡ S.default_config)
        × (b.view_id ≡ made.served.view.id) × (b.registry ≡ registry)) }
    ensures first { (views : List ViewEvent) → IsViewAfter views made.served.view
        → IfOk result (λ b. b.first ≡ generation_after views) }
    ensures refused { IfErr result (λ e. e ≡ Refusal.OutOfMemory) }
{
    let LoadBalancerCore {
        discovery,
        served,
        timing,
    } = made;
    let ServedParts { served, generator } = served.into_parts();
    let serving = Serving::with_words(alloc, served, generator)?;
    let origin = Origin {
        discovery,
        config: None,
        first: serving.served.generation(),
        view_id: serving.served.view_id(),
        registry: Arc::new(alloc, HealthRegistry::over(alloc, registry)?)?,
    };
    let shared = Balancing::begun(rt, alloc, origin, serving, timing)?;
    Ok(shared)
}

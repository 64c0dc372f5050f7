//! `LoadBalancer`: a balancer that threads share. Selections, updates, checks and readings need a borrow only.
ghost use Rattle.std.specs.Prelude.{◌≡◌, [], IfOk, IfErr, OnOk, OnErr, unwrap_or};
ghost use Rattle.std.specs.Arc.{arc_value};
ghost use Rattle.lb_rebuild_core.specs.GroupCalls.{AcceptsBy};
ghost use Rattle.lb_health_core.specs.Registry.{IsGrowthRefusal};
ghost use Rattle.lb_balancer.specs.History.{IsServedGeneration, IsShownBy};
ghost use Rattle.lb_balancer.specs.Made.{IsBalancerMade, IsNotSetYet};
ghost use Rattle.lb_balancer.specs.Selections.{SelectsFrom};
ghost use Rattle.lb_balancer.specs.Shown.{ShownValue};
ghost use Rattle.lb_balancer.specs.SharedUpdates.{IsSharedRefusal, IsSharedUpdated, ReadsUpdate};

use crate::balancing::Balancing;
use crate::shown::Shown;
use lb_balancer_core::timings::UpdateTimings;
use lb_health_core::health_check::{BoxedCheck, HealthCheck};
use lb_health_core::keys::{KeyRule, Rule};
use lb_health_view::discovery::{BoxedDiscovery, ServiceDiscovery};
use lb_rebuild_core::group::ready_ones;
use lb_select_base::backend::Backend;
use lb_select_base::moments::MomentSource;
use lb_select_base::refusal::Refusal;
use lb_select_base::walk::BackendSelection;
use lb_threads_core::backends::Backends;
use lb_threads_core::keyed::NoRule;
use lb_threads_core::lanes::hint_of;
use log::Log;
use std::alloc::Global;
use std::sync::{Arc, Wait};
use std::thread::Threads;

/// A balancer with one selector that threads share. Its frequencies are set before it is shared.
///
/// A selection goes on in what was served when it began: one generation, its selector, and which of its members were ready. Its drop
/// takes no lock and no memory: the next call of the registry marks its view for removal, so that its backends are checked no longer.
#[derive(Drop)]
pub struct LoadBalancer<
    S: BackendSelection,
    D = BoxedDiscovery,
    R: KeyRule + Drop = Rule<NoRule>,
    C = BoxedCheck,
> {
    pub(crate) shared: Balancing<S, D, R, C>,
    pub(crate) owns_checks: bool,
    /// How often checks run, in nanoseconds; once where it is `None`.
    pub health_check_frequency: Option<u128>,
    /// How often backends are discovered, in nanoseconds; once where it is `None`.
    pub update_frequency: Option<u128>,
    /// Whether the checks of one pass run at the same time.
    pub parallel_health_check: bool,
}

impl<
    S: BackendSelection,
    D: ServiceDiscovery + Drop,
    R: KeyRule + Drop,
    C: HealthCheck + Drop,
> LoadBalancer<S, D, R, C> {
    /// Returns a balancer over these backends, whose selectors are built with the default configuration.
    ///
    /// It has a view of its own, at generation 0, in the registry of `backends`, whose own view leaves.
    ///
    /// # Errors
    ///
    /// Those of `from_backends_with_config`.
    pub fn from_backends<W: Wait>(
        rt: &W,
        alloc: Global,
        backends: Backends<D, R, C>,
    ) -> Result<LoadBalancer<S, D, R, C>, Refusal>
        ensures made { IsBalancerMade R.gives (S.refusal []) backends.discovery backends.registry.start S.default_config result
            (λ b. b.shared) }
        ensures settings { IfOk result (λ b. IsNotSetYet backends.owns_checks b.owns_checks b.health_check_frequency b.update_frequency
            b.parallel_health_check) }
    {
        LoadBalancer::from_backends_with_config(rt, alloc, backends, None)
    }

    /// Returns a balancer over these backends, whose selectors are built with this configuration, or with the default one for `None`.
    ///
    /// It has a view of its own, at generation 0, in the registry of `backends`, whose own view leaves.
    ///
    /// # Errors
    ///
    /// The cause for which the configuration gives no selector over no backends; where there is none, `NumbersExhausted` where no
    /// number is left for a view, and else `OutOfMemory` where memory is refused. The registry has no view of it then.
    pub fn from_backends_with_config<W: Wait>(
        rt: &W,
        alloc: Global,
        backends: Backends<D, R, C>,
        config: Option<S::Config>,
    ) -> Result<LoadBalancer<S, D, R, C>, Refusal>
        ensures made { IsBalancerMade R.gives (S.refusal []) backends.discovery backends.registry.start
            (unwrap_or config S.default_config) result (λ b. b.shared) }
        ensures settings { IfOk result (λ b. IsNotSetYet backends.owns_checks b.owns_checks b.health_check_frequency b.update_frequency
            b.parallel_health_check) }
    {
        let owns_checks = backends.owns_checks();
        let shared = Balancing::new(rt, alloc, backends, config)?;
        Ok(LoadBalancer {
            shared,
            owns_checks,
            health_check_frequency: None,
            update_frequency: None,
            parallel_health_check: false,
        })
    }

    /// Discovers, builds where the membership is another one, and then exchanges what is served.
    ///
    /// One update runs at a time; while it discovers and builds, selections go on in what was served before. The clock is read at the
    /// start and at the end, and for another membership also before and after the build.
    ///
    /// # Errors
    ///
    /// `Discovery` where the discovery answers a fault; the cause for which another membership makes no selector; where there is none,
    /// `GenerationsExhausted`, `NoSuch` where the registry has no such view, or `NumbersExhausted` where no number is left for a cell;
    /// and only then `OutOfMemory` where memory is refused. What is served is then as before.
    pub fn update<W: Wait, K: MomentSource>(
        &self,
        rt: &W,
        alloc: Global,
        clock: &mut K,
    ) -> Result<(), Refusal>
        ensures updated { OnOk result (IsSharedUpdated D.finds self.now.shared) }
        ensures reads { OnOk result (ReadsUpdate K.reads clock.old clock.new) }
        ensures refused { IfErr result (IsSharedRefusal D.finds R.gives S.refusal self.now.shared) }
    {
        self.shared.update(rt, alloc, clock)
    }

    /// Returns what is served now, for several selections at one moment.
    ///
    /// All selections in it are in one generation, with the readiness of one moment. Refused for memory alone.
    pub fn shown<W: Wait>(&self, rt: &W, alloc: Global) -> Result<Arc<Shown<S>>, Refusal>
        ensures shown { IfOk result (λ s. IsShownBy R.gives self.now.shared (arc_value s)) }
        ensures refused { IfErr result (λ e. e ≡ Refusal.OutOfMemory) }
    {
        self.shared.shown(rt, alloc)
    }

    /// Returns the first ready backend among the distinct of the first `max_iterations` candidates for `key`, or `None`.
    ///
    /// The candidates are those of what is served now, and each is judged when it is looked at. Refused for memory alone.
    pub fn select<W: Wait>(
        &self,
        rt: &W,
        alloc: Global,
        key: &[u8],
        max_iterations: usize,
    ) -> Result<Option<Backend>, Refusal>
        ensures answers { OnOk result ((s : ShownValue S.Config) × IsShownBy R.gives self.now.shared s
            × SelectsFrom R.gives self.now.shared (λ is_ready. is_ready) max_iterations S.walks key.now s result) }
        ensures refused { IfErr result (λ e. e ≡ Refusal.OutOfMemory) }
    {
        self.select_with(rt, alloc, key, max_iterations, &ready_ones)
    }

    /// Returns the first backend that `accept` takes among the distinct of the first `max_iterations` candidates for `key`, or `None`.
    ///
    /// `accept` is asked with a backend and whether it is ready, while no lock is held. Refused for memory alone.
    pub fn select_with<W: Wait, F: Fn(&Backend, bool) -> bool>(
        &self,
        rt: &W,
        alloc: Global,
        key: &[u8],
        max_iterations: usize,
        accept: &F,
    ) -> Result<Option<Backend>, Refusal>
        requires { F.IsAlwaysCallable accept.now }
        ensures answers { OnOk result ((s : ShownValue S.Config) × IsShownBy R.gives self.now.shared s
            × SelectsFrom R.gives self.now.shared (AcceptsBy F.Fn accept.now) max_iterations S.walks key.now s result) }
        ensures refused { IfErr result (λ e. e ≡ Refusal.OutOfMemory) }
    {
        let hint = hint_of(key);
        let found = self
            .shared
            .select_in_lane(rt, alloc, hint, key, max_iterations, accept);
        if let Some(answer) = found {
            return answer;
        }
        let shared = &self.shared;
        let kept = shared.current(rt, alloc)?;
        let answer = shared.select_kept(rt, alloc, &kept, None, key, max_iterations, accept);
        shared.refill(hint, kept);
        answer
    }

    /// Sets the load of a backend's identity, for selectors that go by loads.
    ///
    /// It outlives each update. Refused `OutOfMemory` where memory is refused; nothing is set then.
    pub fn set_load<W: Wait>(
        &self,
        rt: &W,
        alloc: Global,
        backend: &Backend,
        load: u64,
    ) -> Result<(), Refusal>
        ensures { IfErr result (λ e. e ≡ Refusal.OutOfMemory) }
    {
        self.shared.set_load(rt, alloc, backend, load)
    }

    /// Leaves the registry, which others may share: the view is marked for removal, and its cells are released.
    ///
    /// A balancer that is dropped leaves it too, at the registry's next call.
    pub fn leave<W: Wait>(&self, rt: &W) {
        self.shared.leave(rt);
    }

    /// Sets the check of the registry.
    ///
    /// Refused `HealthCheckSet` where one is set, which stays.
    pub fn set_health_check<W: Wait>(&self, rt: &W, check: C) -> Result<(), Refusal>
        ensures { IfErr result (λ e. e ≡ Refusal.HealthCheckSet) }
    {
        self.shared.set_health_check(rt, check)
    }

    /// Returns the newest generation, which is the served one; 0 before the first membership.
    pub fn backend_generation<W: Wait>(&self, rt: &W) -> u64
        ensures { IsServedGeneration self.now.shared result }
    {
        self.shared.generation(rt)
    }

    /// Returns how long the last accepted update took; `None` before the first.
    pub fn last_update_timing<W: Wait>(&self, rt: &W) -> Option<UpdateTimings> {
        self.shared.last_update_timing(rt)
    }
}

impl<
    S: BackendSelection,
    D: ServiceDiscovery + Drop,
    R: KeyRule + Drop + Send,
    C: HealthCheck + Drop + Send + Sync,
> LoadBalancer<S, D, R, C> {
    /// Checks the targets of the whole registry once, if a check is set: one after another, or with `parallel` each on a thread of its
    /// own where one can be started.
    ///
    /// # Errors
    ///
    /// `NumbersExhausted` where no number is left for a cell, and `OutOfMemory` where memory is refused, before the first check.
    pub fn run_health_check<W: Log + Threads + Wait + Sync>(
        &self,
        rt: &W,
        alloc: Global,
        parallel: bool,
    ) -> Result<(), Refusal>
        ensures { OnErr result (IsGrowthRefusal result) }
    {
        self.backends().run_health_check(rt, alloc, parallel)
    }
}

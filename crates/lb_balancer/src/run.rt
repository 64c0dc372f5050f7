//! Runs a balancer in the background: it updates and checks by its frequencies, while threads select from it.
ghost use Rattle.std.specs.Prelude.{◌≡◌, []};
ghost use Rattle.lb_background.specs.History.{IsAfter};

use crate::balancing::Balancing;
use crate::load_balancer::LoadBalancer;
use lb_background::balancer_run::LoadBalancerRun;
use lb_background::drive::drive;
use lb_background::event::{Awaited, Event};
use lb_background::port::RunPort;
use lb_background::ready::ServiceReadyNotifier;
use lb_background::shutdown::ShutdownWatch;
use lb_health_core::health_check::HealthCheck;
use lb_health_core::keys::KeyRule;
use lb_health_view::discovery::ServiceDiscovery;
use lb_select_base::moments::MomentSource;
use lb_select_base::refusal::Refusal;
use lb_select_base::walk::BackendSelection;
use log::{Log, error};
use std::alloc::Global;
use std::sync::Wait;
use std::thread::Threads;

impl<
    S: BackendSelection,
    D: ServiceDiscovery + Drop,
    R: KeyRule + Drop + Send,
    C: HealthCheck + Drop + Send + Sync,
> LoadBalancer<S, D, R, C> {
    /// Updates, and checks where the balancer owns its checks, each once or by its frequency.
    ///
    /// It returns when all was done, or when the watch says that services are to end; an update or a pass of checks that is under way then
    /// goes on to its end. The notifier is called after the first update, even if that was refused. A refused update is logged and changes
    /// nothing that is served; a refused pass counts as one.
    pub fn run<W: Log + Threads + Wait + Sync, K: MomentSource>(
        &self,
        rt: &W,
        alloc: Global,
        clock: &mut K,
        watch: &ShutdownWatch,
        notifier: Option<ServiceReadyNotifier>,
    ) {
        let run = LoadBalancerRun::new(
            self.update_frequency,
            self.health_check_frequency,
            self.owns_checks,
            notifier.is_some(),
        );
        let balancing = &self.shared;
        let parallel = self.parallel_health_check;
        let pass = || {
            let _ = self.run_health_check(rt, alloc, parallel);
        };
        run_over(balancing, &pass, rt, alloc, clock, watch, notifier, run);
    }
}

// Drives a run over the balancer, with this pass of checks.
fn run_over<
    F: Fn(),
    S: BackendSelection,
    D: ServiceDiscovery + Drop,
    R: KeyRule + Drop,
    C: HealthCheck + Drop,
    W: Log + Wait,
    K: MomentSource,
>(
    balancing: &Balancing<S, D, R, C>,
    pass: &F,
    rt: &W,
    alloc: Global,
    clock: &mut K,
    watch: &ShutdownWatch,
    notifier: Option<ServiceReadyNotifier>,
    run: LoadBalancerRun,
)
    requires fresh { IsAfter run [] }
    requires passes { (pass : F) → F.IsAlwaysCallable pass }
{
    let mut port = SharedPort {
        balancing,
        pass,
        rt,
        alloc,
        clock,
        watch,
        notifier,
    };
    drive(rt, run, &mut port);
}

// A balancer that runs, as the port that drives it. A pass of checks is a closure, since it starts threads.
#[derive(Drop)]
struct SharedPort<'b, 'p, 'r, 'c, 'w, F, S: BackendSelection, D, R: KeyRule + Drop, C, W, K> {
    balancing: &'b Balancing<S, D, R, C>,
    pass: &'p F,
    rt: &'r W,
    alloc: Global,
    clock: &'c mut K,
    watch: &'w ShutdownWatch,
    notifier: Option<ServiceReadyNotifier>,
}

// Nothing is said of what other threads change: what is served, and what the watch says.
impl<
    'b,
    'p,
    'r,
    'c,
    'w,
    F: Fn(),
    S: BackendSelection,
    D: ServiceDiscovery + Drop,
    R: KeyRule + Drop,
    C: HealthCheck + Drop,
    W: Log + Wait,
    K: MomentSource,
> RunPort for SharedPort<'b, 'p, 'r, 'c, 'w, F, S, D, R, C, W, K> {
    ghost use Rattle.std.specs.Prelude.{◌≡◌, None, IfErr, IfOk, OnOk};
    ghost use Rattle.lb_background.specs.Driven.{Sleeps};
    ghost use Rattle.lb_balancer.specs.History.{IsServedGeneration};
    ghost use Rattle.lb_balancer.specs.SharedUpdates.{EndsSleep, IsSharedRefusal, IsSharedUpdated, ReadsUpdate};

    ghost moments = { λ p moment q. K.reads p.clock.now moment q.clock.now };

    ghost readings = { λ p number q. (number ≡ 0) × (q ≡ p) };

    ghost looks = { λ p _ q. q.clock.now ≡ p.clock.now };

    ghost can_do = { λ _. (pass : F) → F.IsAlwaysCallable pass };

    ghost updates = { λ p r q. OnOk r (IsSharedUpdated D.finds p.balancing.now × ReadsUpdate K.reads p.clock.now q.clock.now)
        × IfOk r (λ n. IsServedGeneration p.balancing.now n)
        × IfErr r (λ e. IsSharedRefusal D.finds R.gives S.refusal p.balancing.now e) };

    ghost checks = { λ p q. q.clock.now ≡ p.clock.now };

    ghost tells = { λ p q. (q.clock.now ≡ p.clock.now) × (q.notifier ≡ None) };

    ghost waits = { Sleeps (λ _ moment e q. EndsSleep K.reads moment e q.clock.now) };

    fn now(&mut self) -> u128 {
        self.clock.now()
    }

    fn reading(&mut self) -> u64 {
        0
    }

    fn is_shut(&mut self) -> bool {
        self.watch.is_shut()
    }

    fn update(&mut self) -> Result<u64, Refusal> {
        match self.balancing.update(self.rt, self.alloc, self.clock) {
            Ok(()) => Ok(self.balancing.generation(self.rt)),
            Err(refusal) => {
                error!(self.rt; "load balancer update failed: {refusal}");
                Err(refusal)
            }
        }
    }

    fn check(&mut self) {
        (self.pass)();
    }

    fn tell_ready(&mut self) {
        if let Some(notifier) = self.notifier.take() {
            notifier.notify_ready();
        }
    }

    // No run of a balancer waits for targets, or for the end alone: it would end.
    fn wait(&mut self, awaited: Awaited) -> Event {
        let Awaited::Moment(moment) = awaited else {
            return Event::Shutdown;
        };
        for _ in self.rt.forever() {
            let heard = self.watch.event();
            if let Some(Event::Shutdown) = heard {
                return Event::Shutdown;
            }
            if moment <= self.clock.now() {
                return Event::Woke;
            }
            self.watch.wait_until(self.rt, self.clock, moment, heard);
        }
        unreachable!()
    }
}

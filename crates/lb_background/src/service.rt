//! The service that checks the targets of a registry in the background, while other threads use the registry. Each verdict takes the
//! registry's own lock.
ghost use Rattle.std.specs.Prelude.{◌≡◌, None, false, []};
ghost use Rattle.lb_background.specs.declared.event.Awaited.TheVariants as until;
ghost use Rattle.lb_background.specs.ServiceDriven.{EndsWait};
ghost use Rattle.lb_background.specs.Services.{IsServiceAfter};

use crate::drive::drive;
use crate::event::{Awaited, Event};
use crate::port::RunPort;
use crate::ready::ServiceReadyNotifier;
use crate::service_run::ServiceRun;
use crate::shutdown::ShutdownWatch;
use lb_health_core::health_check::{BoxedCheck, HealthCheck};
use lb_health_core::keys::{KeyRule, Rule};
use lb_select_base::moments::MomentSource;
use lb_select_base::refusal::Refusal;
use lb_threads_core::keyed::NoRule;
use lb_threads_core::registry::HealthRegistry;
use log::{Log, error};
use std::alloc::Global;
use std::sync::{Arc, Wait};
use std::thread::Threads;

// How long a service sleeps at most before it looks for targets again, in nanoseconds: where it has some, and where it has none.
const WITH_TARGETS: u128 = 1_000_000_000;

const WITHOUT_TARGETS: u128 = 100_000_000;

/// A service that checks the targets of one registry, for all the views that share it.
#[derive(Drop)]
pub struct HealthCheckService<R: KeyRule + Drop = Rule<NoRule>, C = BoxedCheck> {
    registry: Arc<HealthRegistry<R, C>>,
    /// How long after a pass of checks the next one begins, in nanoseconds. Without it the targets are checked once, as soon as there
    /// are some.
    pub health_check_frequency: Option<u128>,
    /// Whether the checks of a pass run at the same time.
    pub parallel_health_check: bool,
}

impl<R: KeyRule + Drop + Send, C: HealthCheck + Drop + Send + Sync> HealthCheckService<R, C> {
    /// Returns a service of this registry that checks once, one target after another.
    ///
    /// The registry's check is to be set before `run`.
    pub fn new(registry: Arc<HealthRegistry<R, C>>) -> HealthCheckService<R, C>
        ensures frequency { result.health_check_frequency ≡ None }
        ensures parallel { result.parallel_health_check ≡ false }
    {
        HealthCheckService {
            registry,
            health_check_frequency: None,
            parallel_health_check: false,
        }
    }

    /// Checks the targets, once or by the frequency, and returns when all was done or the watch says that services are to end.
    ///
    /// A pass that is under way then goes on to its end. The notifier is called after the first pass. Without a check of the registry an
    /// error is logged, the notifier isn't called, and with a notifier the service stays until it is to end.
    pub fn run<W: Log + Threads + Wait + Sync, K: MomentSource>(
        &self,
        rt: &W,
        alloc: Global,
        clock: &mut K,
        watch: &ShutdownWatch,
        notifier: Option<ServiceReadyNotifier>,
    ) {
        let has_check = self.registry.has_health_check();
        if !has_check {
            error!(rt; "HealthCheckService requires a configured HealthRegistry health check");
        }
        let run = ServiceRun::new(self.health_check_frequency, has_check, notifier.is_some());
        let registry = &*self.registry;
        let parallel = self.parallel_health_check;
        // A pass that is refused counts as one.
        let pass = || {
            let _ = registry.run_health_check(rt, alloc, parallel);
        };
        run_over(registry, &pass, rt, alloc, clock, watch, notifier, run);
    }
}

// Drives the run of a service over the registry, with this pass of checks.
fn run_over<F: Fn(), R: KeyRule + Drop, C: HealthCheck + Drop, W: Wait, K: MomentSource>(
    registry: &HealthRegistry<R, C>,
    pass: &F,
    rt: &W,
    alloc: Global,
    clock: &mut K,
    watch: &ShutdownWatch,
    notifier: Option<ServiceReadyNotifier>,
    run: ServiceRun,
)
    requires fresh { IsServiceAfter run [] }
    requires passes { (pass : F) → F.IsAlwaysCallable pass }
{
    let mut port = LockedService {
        registry,
        pass,
        rt,
        alloc,
        clock,
        watch,
        notifier,
    };
    drive(rt, run, &mut port);
}

// A service that runs, as the port that drives it. A pass of checks is a closure, since it starts threads.
#[derive(Drop)]
struct LockedService<'g, 'p, 'r, 'c, 'w, F, R: KeyRule + Drop, C, W, K> {
    registry: &'g HealthRegistry<R, C>,
    pass: &'p F,
    rt: &'r W,
    alloc: Global,
    clock: &'c mut K,
    watch: &'w ShutdownWatch,
    notifier: Option<ServiceReadyNotifier>,
}

// Nothing is said of what other threads change: the registry, and what the watch says.
impl<
    'g,
    'p,
    'r,
    'c,
    'w,
    F: Fn(),
    R: KeyRule + Drop,
    C: HealthCheck + Drop,
    W: Wait,
    K: MomentSource,
> RunPort for LockedService<'g, 'p, 'r, 'c, 'w, F, R, C, W, K> {
    ghost use Rattle.std.specs.Prelude.{◌≡◌, Err, None};
    ghost use Rattle.lb_select_base.specs.declared.refusal.Refusal.TheVariants.{NoSuch};
    ghost use Rattle.lb_background.specs.ServiceDriven.{EndsWait};

    ghost moments = { λ p moment q. K.reads p.clock.now moment q.clock.now };

    ghost readings = { λ p _ q. q.clock.now ≡ p.clock.now };

    ghost looks = { λ p _ q. q.clock.now ≡ p.clock.now };

    ghost can_do = { λ _. (pass : F) → F.IsAlwaysCallable pass };

    ghost updates = { λ p r q. (r ≡ Err NoSuch) × (q ≡ p) };

    ghost checks = { λ p q. q.clock.now ≡ p.clock.now };

    ghost tells = { λ p q. (q.clock.now ≡ p.clock.now) × (q.notifier ≡ None) };

    ghost waits = { λ _ awaited e _. EndsWait awaited e };

    fn now(&mut self) -> u128 {
        self.clock.now()
    }

    // A count that is refused is no target.
    fn reading(&mut self) -> u64 {
        match self.registry.target_count(self.rt, self.alloc) {
            Ok(count) => count as u64,
            Err(_) => 0,
        }
    }

    fn is_shut(&mut self) -> bool {
        self.watch.is_shut()
    }

    // No run of a service asks for this.
    fn update(&mut self) -> Result<u64, Refusal> {
        Err(Refusal::NoSuch)
    }

    fn check(&mut self) {
        (self.pass)();
    }

    fn tell_ready(&mut self) {
        if let Some(notifier) = self.notifier.take() {
            notifier.notify_ready();
        }
    }

    fn wait(&mut self, awaited: Awaited) -> Event {
        match awaited {
            Awaited::Moment(moment) => self.sleep_until(moment),
            Awaited::Targets => self.await_targets(),
            Awaited::End => self.hold(),
        }
    }
}

impl<
    'g,
    'p,
    'r,
    'c,
    'w,
    F: Fn(),
    R: KeyRule + Drop,
    C: HealthCheck + Drop,
    W: Wait,
    K: MomentSource,
> LockedService<'g, 'p, 'r, 'c, 'w, F, R, C, W, K> {
    // Waits until the moment has come, no target is left, or the service is to end.
    fn sleep_until(&mut self, moment: u128) -> Event
        ensures { EndsWait (until.Moment moment) result }
    {
        for _ in self.rt.forever() {
            let heard = self.watch.event();
            if let Some(Event::Shutdown) = heard {
                return Event::Shutdown;
            }
            let now = self.clock.now();
            if moment <= now {
                return Event::Woke;
            }
            if self.reading() == 0 {
                return Event::ViewRemoved;
            }
            let look = moment.min(now.saturating_add(WITH_TARGETS));
            self.watch.wait_until(self.rt, self.clock, look, heard);
        }
        unreachable!()
    }

    // Waits until there are targets, or the service is to end.
    fn await_targets(&mut self) -> Event
        ensures { EndsWait until.Targets result }
    {
        for _ in self.rt.forever() {
            let heard = self.watch.event();
            if let Some(Event::Shutdown) = heard {
                return Event::Shutdown;
            }
            if self.reading() > 0 {
                return Event::Targets;
            }
            let look = self.clock.now().saturating_add(WITHOUT_TARGETS);
            self.watch.wait_until(self.rt, self.clock, look, heard);
        }
        unreachable!()
    }

    // Waits until the service is to end, or no signal of that can come any more.
    fn hold(&mut self) -> Event
        ensures { EndsWait until.End result }
    {
        for _ in self.rt.forever() {
            if let Some(event) = self.watch.event() {
                return event;
            }
            let look = self.clock.now().saturating_add(WITH_TARGETS);
            self.watch.wait_until(self.rt, self.clock, look, None);
        }
        unreachable!()
    }
}

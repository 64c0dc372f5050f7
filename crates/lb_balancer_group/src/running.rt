//! Runs a group in the background: its workers, its updates on their schedule, its checks where it owns them, and its notifier.
ghost use Rattle.std.specs.Prelude.{[], OnErr};
ghost use Rattle.lb_health_core.specs.Registry.{IsGrowthRefusal};
ghost use Rattle.lb_background.specs.History.{IsAfter};

use crate::group::LoadBalancerGroup;
use crate::start::start_workers;
use lb_background::drive::drive;
use lb_background::event::{Awaited, Event};
use lb_background::group_run::GroupRun;
use lb_background::port::RunPort;
use lb_background::ready::ServiceReadyNotifier;
use lb_background::shutdown::ShutdownWatch;
use lb_health_core::health_check::HealthCheck;
use lb_health_core::keys::KeyRule;
use lb_health_view::discovery::ServiceDiscovery;
use lb_select_base::moments::MomentSource;
use lb_select_base::refusal::Refusal;
use lb_select_base::walk::BackendSelection;
use log::{Log, error};
use std::alloc::Global;
use std::sync::Wait;
use std::thread::Threads;

// How long a run sleeps at most before it looks at the watch and the slots again, in nanoseconds: while its notifier waits for the slots,
// and otherwise.
const WITH_NOTIFIER: u128 = 100_000_000;

const WITHOUT_NOTIFIER: u128 = 1_000_000_000;

impl<
    S: BackendSelection + Send + Sync + 'static,
    D: ServiceDiscovery + Drop,
    R: KeyRule + Drop + Send + Sync + 'static,
    C: HealthCheck + Drop + Send + Sync + 'static,
> LoadBalancerGroup<S, D, R, C>
where
    S::Config: Send + Sync + 'static,
    S::Walk: Send + Sync + 'static,
{
    /// Starts a worker for each slot that has none. Returns how many couldn't be started; their slots wait for the next call.
    ///
    /// Each worker reads a copy of the clock, and ends once the group is cancelled and what its slot retired is destroyed and reported.
    pub fn start_workers<
        W: Log + Threads + Wait + Copy + Send + 'static,
        K: MomentSource + Copy + Send + 'static,
    >(&self, rt: &W, alloc: Global, clock: K) -> usize {
        start_workers(rt, alloc, &self.shared, clock)
    }
}

impl<
    S: BackendSelection + Send + Sync + 'static,
    D: ServiceDiscovery + Drop,
    R: KeyRule + Drop + Send + Sync + 'static,
    C: HealthCheck + Drop + Send + Sync + 'static,
> LoadBalancerGroup<S, D, R, C>
where
    S::Config: Send + Sync + 'static,
    S::Walk: Send + Sync + 'static,
{
    /// Checks each target of the registry once, if a check is set, after it applied the marks that wait in the registry.
    ///
    /// The checks run at the same time where `parallel_health_check` says so.
    ///
    /// # Errors
    ///
    /// Those of `HealthRegistry::run_health_check`, before the first check.
    pub fn run_health_check<W: Log + Threads + Wait + Sync>(
        &self,
        rt: &W,
        alloc: Global,
    ) -> Result<(), Refusal>
        ensures { OnErr result (IsGrowthRefusal result) }
    {
        self.registry
            .run_health_check(rt, alloc, self.parallel_health_check)
    }

    /// Updates the group and, where it owns them, runs the checks of its registry, each on its schedule.
    ///
    /// It returns when all was done, or when the watch says that the run is to end; an update, a check or a build that is under way then
    /// goes on to its end. At each turn the missing workers are started. The notifier is called once each slot serves what was updated
    /// last. An update that is refused is logged, and a pass of checks that is refused counts as one.
    pub fn run<
        W: Log + Threads + Wait + Copy + Send + Sync + 'static,
        K: MomentSource + Copy + Send + 'static,
    >(
        &self,
        rt: &W,
        alloc: Global,
        clock: &mut K,
        watch: &ShutdownWatch,
        notifier: Option<ServiceReadyNotifier>,
    ) {
        let run = GroupRun::new(
            self.update_frequency,
            self.health_check_frequency,
            self.owns_checks,
            notifier.is_some(),
        );
        let own = *clock;
        let starts = |what: Starts| match what {
            Starts::Workers => {
                let _ = self.start_workers(rt, alloc, own);
            }
            Starts::Checks => {
                let _ = self.run_health_check(rt, alloc);
            }
        };
        run_over(rt, self, &starts, alloc, clock, watch, notifier, run);
    }
}

// The calls of a group that its run makes. The port of the run knows no more of the group, so the checker compares the group's type for
// these two alone.
pub(crate) trait RunningGroup<W, K> {
    ghost use Rattle.std.specs.Prelude.{ℕ, Result};
    ghost use Rattle.lb_select_base.specs.declared.refusal.Refusal.{Refusal};

    // Group, clock before, answer, clock after.
    ghost updates: { Self → K → Result ℕ Refusal → K → Type 0 };

    // Updates the group, as `LoadBalancerGroup::update` does.
    fn update_by(&self, rt: &W, alloc: Global, clock: &mut K) -> Result<u64, Refusal>
        ensures { updates self.now clock.old result clock.new };

    // The least generation that a slot serves.
    fn least_generation(&self, rt: &W) -> u64;
}

impl<
    S: BackendSelection,
    D: ServiceDiscovery + Drop,
    R: KeyRule + Drop,
    C: HealthCheck + Drop,
    W: Wait,
    K: MomentSource,
> RunningGroup<W, K> for LoadBalancerGroup<S, D, R, C> {
    ghost use Rattle.std.specs.Arc.{arc_value};
    ghost use Rattle.lb_threads_group.specs.Group.{UpdatedUnder};
    ghost use Rattle.lb_health_view.specs.Discoveries.{FoundBy};

    ghost updates = { λ g before r after. UpdatedUnder R.gives K.reads (FoundBy D.finds) g.discovery before (arc_value g.shared) r after };

    fn update_by(&self, rt: &W, alloc: Global, clock: &mut K) -> Result<u64, Refusal> {
        self.update(rt, alloc, clock)
    }

    fn least_generation(&self, rt: &W) -> u64 {
        self.least_served(rt)
    }
}

// What a run starts threads for. One closure does both: for each the checker compares the group's whole type several times.
enum Starts {
    // The workers that are missing.
    Workers,
    // A pass of checks.
    Checks,
}

// Drives the run of a group with this start of threads. `run_on` does it without the group's type.
fn run_over<
    F: Fn(Starts),
    S: BackendSelection,
    W: Log + Wait,
    D: ServiceDiscovery + Drop,
    R: KeyRule + Drop,
    C: HealthCheck + Drop,
    K: MomentSource,
>(
    rt: &W,
    group: &LoadBalancerGroup<S, D, R, C>,
    starts: &F,
    alloc: Global,
    clock: &mut K,
    watch: &ShutdownWatch,
    notifier: Option<ServiceReadyNotifier>,
    run: GroupRun,
)
    requires fresh { IsAfter run [] }
    requires starts { (starts : F) → F.IsAlwaysCallable starts }
{
    run_on(rt, group, starts, alloc, clock, watch, notifier, run);
}

fn run_on<F: Fn(Starts), U: RunningGroup<W, K>, W: Log + Wait, K: MomentSource>(
    rt: &W,
    group: &U,
    starts: &F,
    alloc: Global,
    clock: &mut K,
    watch: &ShutdownWatch,
    notifier: Option<ServiceReadyNotifier>,
    run: GroupRun,
)
    requires fresh { IsAfter run [] }
    requires starts { (starts : F) → F.IsAlwaysCallable starts }
{
    starts(Starts::Workers);
    let mut port = LockedRun {
        rt,
        group,
        starts,
        alloc,
        clock,
        watch,
        notifier,
        told: 0,
    };
    drive(rt, run, &mut port);
}

// A group that runs, as the port that drives it. The start of workers and a pass of checks are a closure, since they start threads.
#[derive(Drop)]
struct LockedRun<'r, 'g, 's, 'c, 'w, F, U, W, K> {
    rt: &'r W,
    group: &'g U,
    starts: &'s F,
    alloc: Global,
    clock: &'c mut K,
    watch: &'w ShutdownWatch,
    notifier: Option<ServiceReadyNotifier>,
    // The least generation that the run was given last.
    told: u64,
}

// Nothing is said of what other threads change: what the slots serve, the registry, and what the watch says.
impl<
    'r,
    'g,
    's,
    'c,
    'w,
    F: Fn(Starts),
    U: RunningGroup<W, K>,
    W: Log + Wait,
    K: MomentSource,
> RunPort for LockedRun<'r, 'g, 's, 'c, 'w, F, U, W, K> {
    ghost use Rattle.std.specs.Prelude.{◌≡◌, None};
    ghost use Rattle.lb_background.specs.Driven.{Sleeps};
    ghost use Rattle.lb_balancer_group.specs.Readiness.{EndsSleep};

    ghost moments = { λ p moment q. K.reads p.clock.now moment q.clock.now };

    ghost readings = { λ p least q. (q.clock.now ≡ p.clock.now) × (q.told ≡ least) };

    ghost looks = { λ p _ q. q.clock.now ≡ p.clock.now };

    ghost can_do = { λ _. (starts : F) → F.IsAlwaysCallable starts };

    ghost updates = { λ p r q. U.updates p.group.now p.clock.now r q.clock.now };

    ghost checks = { λ p q. q.clock.now ≡ p.clock.now };

    ghost tells = { λ p q. (q.clock.now ≡ p.clock.now) × (q.notifier ≡ None) };

    ghost waits = { Sleeps (λ _ _ e _. EndsSleep e) };

    fn now(&mut self) -> u128 {
        self.clock.now()
    }

    fn reading(&mut self) -> u64 {
        self.told = self.group.least_generation(self.rt);
        self.told
    }

    fn is_shut(&mut self) -> bool {
        self.watch.is_shut()
    }

    fn update(&mut self) -> Result<u64, Refusal> {
        let told = self.group.update_by(self.rt, self.alloc, self.clock);
        if let Err(refusal) = told {
            error!(self.rt; "load balancer group update failed: {refusal}");
        }
        told
    }

    fn check(&mut self) {
        (self.starts)(Starts::Checks);
    }

    fn tell_ready(&mut self) {
        if let Some(notifier) = self.notifier.take() {
            notifier.notify_ready();
        }
    }

    // No run of a group waits for targets, or for the end alone: it would end.
    fn wait(&mut self, awaited: Awaited) -> Event {
        let Awaited::Moment(moment) = awaited else {
            return Event::Shutdown;
        };
        for _ in self.rt.forever() {
            let heard = self.watch.event();
            if let Some(Event::Shutdown) = heard {
                return Event::Shutdown;
            }
            let now = self.clock.now();
            let has_come = moment <= now;
            if has_come
                || (self.notifier.is_some() && self.group.least_generation(self.rt) != self.told)
            {
                (self.starts)(Starts::Workers);
                return if has_come {
                    Event::Woke
                } else {
                    Event::Rebuilt
                };
            }
            let longest = if self.notifier.is_some() {
                WITH_NOTIFIER
            } else {
                WITHOUT_NOTIFIER
            };
            let look = moment.min(now.saturating_add(longest));
            self.watch.wait_until(self.rt, self.clock, look, heard);
        }
        unreachable!()
    }
}

//! A balancer for one thread that selects all the time: it keeps what was served at its last selection.
ghost use Rattle.std.specs.Prelude.{◌≡◌, ◌≤◌, IfErr, IfOk, OnOk};
ghost use Rattle.lb_rebuild_core.specs.GroupCalls.{AcceptsBy};
ghost use Rattle.lb_balancer.specs.History.{IsShownBy};
ghost use Rattle.lb_balancer.specs.Selections.{SelectsFrom};

use crate::balancing::Balancing;
use crate::kept::KeptShown;
use crate::load_balancer::LoadBalancer;
use lb_health_core::health_check::{BoxedCheck, HealthCheck};
use lb_health_core::keys::{KeyRule, Rule};
use lb_health_view::discovery::{BoxedDiscovery, ServiceDiscovery};
use lb_rebuild_core::group::ready_ones;
use lb_select_base::backend::Backend;
use lb_select_base::refusal::Refusal;
use lb_select_base::walk::BackendSelection;
use lb_threads_core::generators::SharedGenerator;
use lb_threads_core::keyed::NoRule;
use std::alloc::Global;
use std::marker::Model;
use std::sync::Wait;

/// A balancer with what it served last, and with random words of its own. While that is still served a selection takes no lock that another
/// thread takes, and writes nothing that another thread reads but the tickets it draws: except for a candidate that none asked for yet.
/// What is served no longer is kept until the next selection.
pub struct BalancerReader<
    'b,
    S: BackendSelection,
    D = BoxedDiscovery,
    R: KeyRule + Drop = Rule<NoRule>,
    C = BoxedCheck,
> {
    balancing: &'b Balancing<S, D, R, C>,
    seen: KeptShown<S, D, R, C>,
    generator: SharedGenerator,
}

impl<'b, S: BackendSelection, D, R: KeyRule + Drop, C> Drop for BalancerReader<'b, S, D, R, C> {
    fn drop(self) {
        let BalancerReader {
            balancing: _,
            seen: _,
            generator: _,
        } = self;
    }
}

// What a reader saw its balancer showed.
impl<'b, S: BackendSelection, D, R: KeyRule + Drop, C> Model for BalancerReader<'b, S, D, R, C> {
    ghost use Rattle.std.specs.Arc.{arc_value};
    ghost use Rattle.lb_balancer.specs.Kept.{IsKept};
    ghost use Rattle.lb_balancer.specs.Selections.{ReaderValue};

    ghost Value = { ReaderValue D S.Config R };

    ghost view = { λ r. record { balancing = r.balancing.now; seen = arc_value r.seen.shown } };

    ghost invariant = { λ r. IsKept R.gives r.balancing.now r.seen.shown r.seen.ready };
}

impl<
    S: BackendSelection,
    D: ServiceDiscovery + Drop,
    R: KeyRule + Drop,
    C: HealthCheck + Drop,
> LoadBalancer<S, D, R, C> {
    /// Returns a reader of the balancer, for one thread.
    ///
    /// Refused for memory alone.
    pub fn reader<'b, W: Wait>(
        &'b self,
        rt: &W,
        alloc: Global,
    ) -> Result<BalancerReader<'b, S, D, R, C>, Refusal>
        ensures same { IfOk result (λ r. r.balancing ≡ self.entry.now.shared) }
        ensures refused { IfErr result (λ e. e ≡ Refusal.OutOfMemory) }
    {
        let balancing = &self.shared;
        let seen = balancing.current(rt, alloc)?;
        Ok(BalancerReader {
            balancing,
            seen,
            generator: balancing.generator.seeded(),
        })
    }
}

impl<
    'b,
    S: BackendSelection,
    D: ServiceDiscovery + Drop,
    R: KeyRule + Drop,
    C: HealthCheck + Drop,
> BalancerReader<'b, S, D, R, C> {
    // Looks whether another generation is served, and takes what is served now, which is no older than what was seen.
    fn look<W: Wait>(&mut self, rt: &W, alloc: Global) -> Result<(), Refusal>
        ensures same { self.new.balancing ≡ self.old.balancing }
        ensures later { self.old.seen.generation ≤ self.new.seen.generation }
        ensures shown { IsShownBy R.gives self.old.balancing self.new.seen }
        ensures refused { IfErr result (λ e. e ≡ Refusal.OutOfMemory) }
    {
        if self.balancing.is_served(self.seen.generation()) {
            return Ok(());
        }
        let kept = self.balancing.current(rt, alloc)?;
        // Generations never fall, but no contract says so: callers know it by this look.
        if self.seen.generation() <= kept.generation() {
            self.seen = kept;
        }
        Ok(())
    }

    /// Returns the generation that the reader saw last. What it selects from later is of that generation or a newer one.
    pub fn generation(&self) -> u64
        ensures { result ≡ self.now.seen.generation }
    {
        self.seen.generation()
    }

    /// Returns the first ready backend, as `LoadBalancer::select` does. What it is selected from is of no earlier generation than the
    /// reader saw before.
    pub fn select<W: Wait>(
        &mut self,
        rt: &W,
        alloc: Global,
        key: &[u8],
        max_iterations: usize,
    ) -> Result<Option<Backend>, Refusal>
        ensures answers { OnOk result
            (SelectsFrom R.gives self.old.balancing (λ is_ready. is_ready) max_iterations S.walks key.now self.new.seen result) }
        ensures later { self.old.seen.generation ≤ self.new.seen.generation }
        ensures shown { IsShownBy R.gives self.old.balancing self.new.seen }
        ensures refused { IfErr result (λ e. e ≡ Refusal.OutOfMemory) }
        ensures same { self.new.balancing ≡ self.old.balancing }
    {
        self.select_with(rt, alloc, key, max_iterations, &ready_ones)
    }

    /// Returns the first backend that `accept` takes, as `LoadBalancer::select_with` does.
    pub fn select_with<W: Wait, F: Fn(&Backend, bool) -> bool>(
        &mut self,
        rt: &W,
        alloc: Global,
        key: &[u8],
        max_iterations: usize,
        accept: &F,
    ) -> Result<Option<Backend>, Refusal>
        requires { F.IsAlwaysCallable accept.now }
        ensures answers { OnOk result
            (SelectsFrom R.gives self.old.balancing (AcceptsBy F.Fn accept.now) max_iterations S.walks key.now self.new.seen result) }
        ensures later { self.old.seen.generation ≤ self.new.seen.generation }
        ensures shown { IsShownBy R.gives self.old.balancing self.new.seen }
        ensures refused { IfErr result (λ e. e ≡ Refusal.OutOfMemory) }
        ensures same { self.new.balancing ≡ self.old.balancing }
    {
        self.look(rt, alloc)?;
        let generator = Some(&self.generator);
        self.balancing.select_kept(
            rt,
            alloc,
            &self.seen,
            generator,
            key,
            max_iterations,
            accept,
        )
    }
}

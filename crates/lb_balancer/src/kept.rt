//! What a balancer keeps in its lanes, and selections in it without a lock. A selection finds out by one load whether its lane has the
//! generation that is served now, and by two whether a backend is ready: those of its word and of its cell's word.
ghost use Rattle.std.specs.Prelude.{◌≡◌, ◌⊎◌, Err, IfErr, IfOk, IfSome, Ok, OnOk, Some};
ghost use Rattle.lb_select_base.specs.Backends.{Member};
ghost use Rattle.std.specs.Arc.{arc_value};
ghost use Rattle.lb_rebuild_core.specs.GroupCalls.{AcceptsBy};
ghost use Rattle.lb_balancer.specs.History.{BalancerValue, FlaggedIn, IsShownBy, JudgedBy, JudgedIn};
ghost use Rattle.lb_balancer.specs.Kept.{IsKept};
ghost use Rattle.lb_balancer.specs.Selections.{SelectsFrom, WasReady};
ghost use Rattle.lb_balancer.specs.Shown.{ShownValue};
ghost use Rattle.lb_threads_core.specs.CellWords.{WasHealthy};

use crate::balancing::Balancing;
use crate::origin::Origin;
use crate::readiness::Readiness;
use crate::shown::Shown;
use counted_slot::Fits;
use lb_health_core::health_check::HealthCheck;
use lb_health_core::keys::KeyRule;
use lb_health_view::discovery::ServiceDiscovery;
use lb_select_base::backend::Backend;
use lb_select_base::refusal::Refusal;
use lb_select_base::walk::BackendSelection;
use lb_threads_core::flag_words::Flagged;
use lb_threads_core::lane::Seen;
use lb_threads_core::lanes::Side;
use lb_threads_core::marks::spread_of;
use std::alloc::{AllocError, Global};
use std::sync::{Arc, Wait};

// How often a request looks while readers are turned to the other side.
const LOOKS: u32 = 200;

/// What is shown, with words that say which of its members are ready now; without, where memory was refused for them.
#[derive(Drop)]
pub struct KeptShown<S: BackendSelection, D, R: KeyRule + Drop, C> {
    pub(crate) shown: Arc<Shown<S>>,
    pub(crate) ready: Option<Arc<Readiness<S, D, R, C>>>,
}

impl<S: BackendSelection, D, R: KeyRule + Drop, C> Fits for KeptShown<S, D, R, C> {
    ghost use Rattle.lb_balancer.specs.Kept.{IsKept};

    type Tag = Origin<S, D, R, C>;

    ghost fits = { λ origin kept. IsKept R.gives origin kept.shown kept.ready };
}

impl<S: BackendSelection, D, R: KeyRule + Drop, C> KeptShown<S, D, R, C> {
    // What is shown, with these words where they are of its generation.
    pub(crate) fn new(
        shown: Arc<Shown<S>>,
        ready: Option<Arc<Readiness<S, D, R, C>>>,
    ) -> KeptShown<S, D, R, C>
        ensures { (b : BalancerValue D S.Config R) → IsShownBy R.gives b (arc_value shown)
            → IfSome ready (λ r. (arc_value r).balancer ≡ b) → IsKept R.gives b result.shown result.ready }
    {
        let generation = (*shown).generation();
        let is_of_it = match &ready {
            Some(ready) => (**ready).generation() == generation,
            None => false,
        };
        if is_of_it {
            KeptShown { shown, ready }
        } else {
            KeptShown { shown, ready: None }
        }
    }

    // The same once more.
    pub(crate) fn try_clone(&self) -> Result<KeptShown<S, D, R, C>, AllocError>
        ensures { (b : BalancerValue D S.Config R) → IsKept R.gives b self.now.shown self.now.ready
            → IfOk result (λ k. IsKept R.gives b k.shown k.ready) }
    {
        let shown = Arc::try_clone(&self.shown)?;
        let ready = match &self.ready {
            Some(ready) => Some(Arc::try_clone(ready)?),
            None => None,
        };
        Ok(KeptShown { shown, ready })
    }

    // The generation of what is shown.
    pub(crate) fn generation(&self) -> u64
        ensures { result ≡ (arc_value self.now.shown).generation }
    {
        (*self.shown).generation()
    }

    // Whether a backend whose identity has this number is ready, as the words say.
    #[inline]
    pub(crate) fn said(&self, backend: &Backend, spread: u64) -> Option<bool>
        ensures { (b : BalancerValue D S.Config R) → IsKept R.gives b self.now.shown self.now.ready
            → IfSome result (JudgedIn R.gives b (arc_value self.now.shown).generation backend.now) }
    {
        match &self.ready {
            Some(ready) => (**ready).said(backend, spread),
            None => None,
        }
    }

    // Notes the cell and the flag of a backend, for others.
    pub(crate) fn note_flag(&self, backend: &Backend, flagged: Flagged)
        requires { IfSome self.now.ready (λ r. FlaggedIn (arc_value r).balancer (arc_value r).number backend.now flagged.cell
            flagged.is_enabled) }
    {
        if let Some(ready) = &self.ready {
            (**ready).note_flag(backend, flagged);
        }
    }

    // Notes whether a cell is kept and healthy, for others.
    pub(crate) fn note_health(&self, cell: u64, healthy: bool)
        requires { IfSome self.now.ready (λ r. WasHealthy R.gives (arc_value r).balancer.registry cell healthy) }
    {
        if let Some(ready) = &self.ready {
            (**ready).note_health(cell, healthy);
        }
    }

    // Whether a backend was ready when this was shown.
    pub(crate) fn was_ready(&self, backend: &Backend) -> bool
        ensures { WasReady (arc_value self.now.shown) backend.now result }
    {
        (*self.shown).was_ready(backend)
    }

    // The members that have a word.
    pub(crate) fn marks(&self) -> &[Option<Backend>] {
        match &self.ready {
            Some(ready) => (**ready).marks(),
            None => &[],
        }
    }
}

impl<
    S: BackendSelection,
    D: ServiceDiscovery + Drop,
    R: KeyRule + Drop,
    C: HealthCheck + Drop,
> Balancing<S, D, R, C> {
    // Reads what the hint's lane has, where that is of the generation that is served now.
    #[inline(always)]
    fn seen_in_lane(&self, hint: u64) -> Option<Seen<'_, KeptShown<S, D, R, C>>>
        ensures { IfSome result (λ s. s.hand.tag ≡ self.now) }
    {
        let side = self.lanes.side();
        match self.seen_on(side, hint) {
            Some(seen) => Some(seen),
            None => self.seen_later(side, hint),
        }
    }

    // Reads what the hint's lane of a side has, where that is of the generation that is served now.
    #[inline(always)]
    fn seen_on(&self, side: Side, hint: u64) -> Option<Seen<'_, KeptShown<S, D, R, C>>>
        ensures { IfSome result (λ s. s.hand.tag ≡ self.now) }
    {
        let _key = &self.origin;
        let seen = self.lanes.read(side, hint, &self.origin)?;
        let is_served = match seen.value() {
            Some(kept) => self.is_served(kept.generation()),
            None => false,
        };
        if is_served { Some(seen) } else { None }
    }

    // Reads what a lane has while readers are turned to the other side.
    #[cold]
    #[inline(never)]
    fn seen_later(&self, before: Side, hint: u64) -> Option<Seen<'_, KeptShown<S, D, R, C>>>
        ensures { IfSome result (λ s. s.hand.tag ≡ self.now) }
    {
        let mut side = before;
        for _ in 0..LOOKS {
            let (next, lane) = self.lanes.look_again(side, hint)?;
            if let Some(seen) = self.seen_on(next, lane) {
                return Some(seen);
            }
            side = next;
        }
        None
    }

    // Selects in what the hint's lane has, where that is of the generation that is served now.
    pub(crate) fn select_in_lane<W: Wait, F: Fn(&Backend, bool) -> bool>(
        &self,
        rt: &W,
        alloc: Global,
        hint: u64,
        key: &[u8],
        max_iterations: usize,
        accept: &F,
    ) -> Option<Result<Option<Backend>, Refusal>>
        requires { F.IsAlwaysCallable accept.now }
        ensures answers { IfSome result (λ r. OnOk r ((s : ShownValue S.Config) × IsShownBy R.gives self.now s
            × SelectsFrom R.gives self.now (AcceptsBy F.Fn accept.now) max_iterations S.walks key.now s r)) }
        ensures refused { IfSome result (λ r. IfErr r (λ e. e ≡ Refusal.OutOfMemory)) }
    {
        let seen = self.seen_in_lane(hint)?;
        let kept = seen.value()?;
        let generator = Some(seen.generator());
        match self.find_kept(rt, alloc, kept, generator, key, max_iterations, accept) {
            Ok(Some(found)) => {
                // The step that ends the reading waits until the copy is written, so that is moved after it.
                let copy = found.copied(alloc);
                drop(seen);
                Some(answer_of(copy))
            }
            Ok(None) => Some(Ok(None)),
            Err(refusal) => Some(Err(refusal)),
        }
    }

    // Whether a backend is ready in the newest membership, as its words say, or since that doesn't list it, where the second lane has what
    // is served. The first one lies next to what other threads read.
    pub(crate) fn ready_in_lane(&self, backend: &Backend) -> Option<bool>
        ensures { IfSome result (JudgedBy R.gives self.now backend.now) }
    {
        let seen = self.seen_in_lane(1)?;
        let kept = seen.value()?;
        if !self.is_registered() {
            return None;
        }
        self.ready_in(kept, backend)
    }

    // Whether a backend is ready in what is kept, as its words say, or since that doesn't list it.
    fn ready_in(&self, kept: &KeptShown<S, D, R, C>, backend: &Backend) -> Option<bool>
        requires { IsKept R.gives self.now kept.now.shown kept.now.ready }
        ensures { IfSome result (JudgedBy R.gives self.now backend.now) }
    {
        if let Some(ready) = kept.said(backend, spread_of(backend)) {
            return Some(ready);
        }
        if (*kept.shown).lists(backend) {
            return None;
        }
        Some(false)
    }

    // Gives the hint's lane what is kept. Where another generation is served meanwhile, the lane is emptied, so that none has for long
    // what isn't served.
    pub(crate) fn refill(&self, hint: u64, kept: KeptShown<S, D, R, C>)
        requires { IsKept R.gives self.now kept.shown kept.ready }
    {
        let generation = kept.generation();
        let side = self.lanes.side();
        drop(self.lanes.renew(side, hint, kept, &self.origin));
        if !self.is_served(generation) {
            drop(self.lanes.clear(side, hint, &self.origin));
        }
    }

    // Gives each lane of the side that readers don't use what is to be served.
    pub(crate) fn spread(&self, kept: &KeptShown<S, D, R, C>)
        requires { IsKept R.gives self.now kept.now.shown kept.now.ready }
    {
        let _key = &self.origin;
        let side = self.lanes.side().other();
        for lane in 0..self.lanes.count() {
            if let Ok(kept) = kept.try_clone() {
                drop(self.lanes.renew(side, lane as u64, kept, &self.origin));
            }
        }
    }

    // Empties the lanes of the side that readers don't use, and gives each free one of theirs what was shown last. It is for the thread
    // that updates.
    pub(crate) fn tidy_lanes<W: Wait>(&self, rt: &W) {
        let _key = &self.origin;
        let side = self.lanes.side();
        for lane in 0..self.lanes.count() {
            drop(self.lanes.clear(side.other(), lane as u64, &self.origin));
            if self.lanes.is_free(side, lane as u64) {
                self.give_latest(rt, lane as u64);
            }
        }
    }

    // Gives a lane what was shown last.
    fn give_latest<W: Wait>(&self, rt: &W, lane: u64) {
        if let Ok(kept) = self.latest(rt) {
            self.refill(lane, kept);
        }
    }
}

// What is answered where this copy was made of what was found.
fn answer_of(copy: Result<Backend, AllocError>) -> Result<Option<Backend>, Refusal>
    ensures { (b : Member) → IfOk copy (λ c. c ≡ b) → (result ≡ Ok (Some b)) ⊎ (result ≡ Err Refusal.OutOfMemory) }
{
    Ok(Some(copy?))
}

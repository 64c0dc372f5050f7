//! Readiness at the moment when a selection asks for it: the words of its candidate and of the candidate's cell say it, and where they
//! don't, view and registry do, under their locks. Who sets a flag writes its word.
ghost use Rattle.std.specs.Prelude.{◌≡◌, IfErr, IfSome, OnOk};
ghost use Rattle.std.specs.Arc.{arc_value};
ghost use Rattle.lb_rebuild_core.specs.GroupCalls.{AcceptsBy};
ghost use Rattle.lb_balancer.specs.History.{IsServedBy, JudgedBy, JudgedIn};
ghost use Rattle.lb_balancer.specs.Kept.{IsKept};
ghost use Rattle.lb_balancer.specs.Selections.{IsReadyIn, SelectsFrom};
ghost use Rattle.lb_select_base.specs.Copies.{AsCopied};

use crate::balancing::Balancing;
use crate::kept::KeptShown;
use crate::serving::Serving;
use crate::shown::Shown;
use lb_health_core::health_check::HealthCheck;
use lb_health_core::keys::KeyRule;
use lb_health_view::discovery::ServiceDiscovery;
use lb_select_base::backend::Backend;
use lb_select_base::refusal::Refusal;
use lb_select_base::select::copied_answer;
use lb_select_base::walk::BackendSelection;
use lb_threads_core::flag_words::Flagged;
use lb_threads_core::generators::SharedGenerator;
use lb_threads_core::marks::spread_of;
use lb_threads_core::registry::{put_registry, take_registry};
use std::alloc::Global;
use std::sync::Wait;
use std::sync::atomic::Ordering::SeqCst;

impl<
    S: BackendSelection,
    D: ServiceDiscovery + Drop,
    R: KeyRule + Drop,
    C: HealthCheck + Drop,
> Balancing<S, D, R, C> {
    // Whether words are used. They aren't once the balancer left its registry, since others' calls may then remove its cells.
    #[inline]
    pub(crate) fn is_registered(&self) -> bool {
        !self.has_left.load(SeqCst)
    }

    // Has the words of what is served say whether a backend is enabled, or each one for `None`. The caller has the lock of what is served,
    // so that a later flag is noted later.
    pub(crate) fn note_flags<W: Wait>(
        &self,
        rt: &W,
        serving: &Serving<S>,
        backend: Option<&Backend>,
    )
        requires { IsServedBy self.now serving.now.served }
    {
        let _key = &self.origin;
        let held = self.shown.take(rt);
        self.note_flags_in(&held.value, serving, backend);
        self.shown.put(held);
    }

    // Has each word of what is served say whether its backend is enabled, where settings came. The caller has the lock of what is served.
    pub(crate) fn note_settings<W: Wait>(&self, rt: &W, serving: &Serving<S>, has_settings: bool)
        requires { IsServedBy self.now serving.now.served }
    {
        if has_settings {
            self.note_flags(rt, serving, None);
        }
    }

    // Has the words that are kept say whether a backend is enabled, or each one for `None`.
    fn note_flags_in(
        &self,
        kept: &KeptShown<S, D, R, C>,
        serving: &Serving<S>,
        backend: Option<&Backend>,
    )
        requires kept { IsKept R.gives self.now kept.now.shown kept.now.ready }
        requires served { IsServedBy self.now serving.now.served }
    {
        if let Some(backend) = backend {
            self.note_flag(kept, serving, backend);
            return;
        }
        for mark in kept.marks() {
            if let Some(backend) = mark {
                self.note_flag(kept, serving, backend);
            }
        }
    }

    // Has the word of a backend say which cell it has, and whether it is enabled, where what is kept is served. Returns the cell.
    fn note_flag(
        &self,
        kept: &KeptShown<S, D, R, C>,
        serving: &Serving<S>,
        backend: &Backend,
    ) -> Option<u64>
        requires kept { IsKept R.gives self.now kept.now.shown kept.now.ready }
        requires served { IsServedBy self.now serving.now.served }
    {
        let generation = kept.generation();
        if serving.served.generation() != generation {
            return None;
        }
        let (cell, is_enabled) = serving.served.cell_and_flag(backend)?;
        let flagged = Flagged {
            cell,
            is_enabled,
            is_newest: true,
        };
        kept.note_flag(backend, flagged);
        Some(cell)
    }

    // Has the words that are kept say of each member whether it is enabled, and whether its cell is healthy. It is for the thread that
    // serves them then, so that requests needn't ask. The caller has the lock of what is served.
    pub(crate) fn note_members<W: Wait>(
        &self,
        rt: &W,
        kept: &KeptShown<S, D, R, C>,
        serving: &Serving<S>,
    )
        requires kept { IsKept R.gives self.now kept.now.shown kept.now.ready }
        requires served { IsServedBy self.now serving.now.served }
    {
        for mark in kept.marks() {
            if let Some(backend) = mark {
                self.note_member(rt, kept, serving, backend);
            }
        }
    }

    // Has the words that are kept say it of one member.
    fn note_member<W: Wait>(
        &self,
        rt: &W,
        kept: &KeptShown<S, D, R, C>,
        serving: &Serving<S>,
        backend: &Backend,
    )
        requires kept { IsKept R.gives self.now kept.now.shown kept.now.ready }
        requires served { IsServedBy self.now serving.now.served }
    {
        let registries = self.origin.registry();
        let cells = take_registry(registries, rt);
        if let Some(cell) = self.note_flag(kept, serving, backend) {
            kept.note_health(cell, cells.value.cell_ready(cell));
        }
        put_registry(registries, cells);
    }

    // Whether a backend is ready for selections in what is kept, by its words. Where it has none, and another generation is served
    // meanwhile, whose view doesn't say it any more, it is as it was found last.
    pub(crate) fn judge<W: Wait>(
        &self,
        rt: &W,
        kept: &KeptShown<S, D, R, C>,
        backend: &Backend,
    ) -> bool
        requires { IsKept R.gives self.now kept.now.shown kept.now.ready }
        ensures { IsReadyIn R.gives self.now (arc_value kept.now.shown) backend.now result }
    {
        let spread = spread_of(backend);
        let judged = kept.said(backend, spread);
        match judged {
            Some(ready) if self.is_registered() => ready,
            _ => self.judge_again(rt, kept, backend, judged),
        }
    }

    // Asks for a backend; or returns what its words say.
    #[cold]
    #[inline(never)]
    fn judge_again<W: Wait>(
        &self,
        rt: &W,
        kept: &KeptShown<S, D, R, C>,
        backend: &Backend,
        judged: Option<bool>,
    ) -> bool
        requires kept { IsKept R.gives self.now kept.now.shown kept.now.ready }
        requires judged { IfSome judged (JudgedIn R.gives self.now (arc_value kept.now.shown).generation backend.now) }
        ensures { IsReadyIn R.gives self.now (arc_value kept.now.shown) backend.now result }
    {
        if let Some(ready) = self.ask(rt, kept, backend) {
            return ready;
        }
        match judged {
            Some(ready) => ready,
            None => kept.was_ready(backend),
        }
    }

    // Whether view and registry say that a backend is ready, where the kept generation is served; its words say it from now on.
    fn ask<W: Wait>(&self, rt: &W, kept: &KeptShown<S, D, R, C>, backend: &Backend) -> Option<bool>
        requires { IsKept R.gives self.now kept.now.shown kept.now.ready }
        ensures { IfSome result (JudgedIn R.gives self.now (arc_value kept.now.shown).generation backend.now) }
    {
        let _key = &self.origin;
        let generation = kept.generation();
        let held = self.serving.take(rt);
        if held.value.served.generation() != generation {
            self.serving.put(held);
            return None;
        }
        let registries = self.origin.registry();
        let cells = take_registry(registries, rt);
        let ready = held.value.served.ready(&cells.value, backend);
        if let Some(cell) = self.note_flag(kept, &held.value, backend) {
            kept.note_health(cell, cells.value.cell_ready(cell));
        }
        put_registry(registries, cells);
        self.serving.put(held);
        Some(ready)
    }

    // Judges each member that has no word. It is for the thread that checks, so that requests seldom have to ask.
    pub(crate) fn judge_all<W: Wait>(&self, rt: &W) {
        let Ok(kept) = self.latest(rt) else {
            return;
        };
        for mark in kept.marks() {
            if let Some(backend) = mark {
                self.judge(rt, &kept, backend);
            }
        }
    }

    /// Returns whether a backend is ready in the newest membership, without taking memory.
    ///
    /// It takes no lock but before the first update, where memory for words was refused, where other threads keep all four lanes busy that
    /// it tries, where the thread that updates is stopped while it fills lanes, and once the balancer left its registry.
    pub(crate) fn ready<W: Wait>(&self, rt: &W, backend: &Backend) -> bool
        ensures { JudgedBy R.gives self.now backend.now result }
    {
        if let Some(ready) = self.ready_in_lane(backend) {
            return ready;
        }
        let _key = &self.origin;
        let registries = self.origin.registry();
        let held = self.serving.take(rt);
        let _generation = held.value.served.generation();
        let cells = take_registry(registries, rt);
        let ready = held.value.served.ready(&cells.value, backend);
        put_registry(registries, cells);
        self.serving.put(held);
        ready
    }

    // Selects in what is kept, with random words of this generator, or of the selector's own for `None`.
    pub(crate) fn select_kept<W: Wait, F: Fn(&Backend, bool) -> bool>(
        &self,
        rt: &W,
        alloc: Global,
        kept: &KeptShown<S, D, R, C>,
        generator: Option<&SharedGenerator>,
        key: &[u8],
        max_iterations: usize,
        accept: &F,
    ) -> Result<Option<Backend>, Refusal>
        requires accept { F.IsAlwaysCallable accept.now }
        requires kept { IsKept R.gives self.now kept.now.shown kept.now.ready }
        ensures answers { SelectsFrom R.gives self.now (AcceptsBy F.Fn accept.now) max_iterations S.walks key.now
            (arc_value kept.now.shown) result }
    {
        let found = self.find_kept(rt, alloc, kept, generator, key, max_iterations, accept);
        copied_answer(alloc, found)
    }

    // Selects in what is kept, as `select_kept` does, and gives what was found in place.
    pub(crate) fn find_kept<'k, W: Wait, F: Fn(&Backend, bool) -> bool>(
        &self,
        rt: &W,
        alloc: Global,
        kept: &'k KeptShown<S, D, R, C>,
        generator: Option<&SharedGenerator>,
        key: &[u8],
        max_iterations: usize,
        accept: &F,
    ) -> Result<Option<&'k Backend>, Refusal>
        requires accept { F.IsAlwaysCallable accept.now }
        requires kept { IsKept R.gives self.now kept.now.shown kept.now.ready }
        ensures answers { AsCopied (SelectsFrom R.gives self.now (AcceptsBy F.Fn accept.now) max_iterations S.walks key.now
            (arc_value kept.now.shown)) result }
    {
        let balancing = self;
        let judged = |backend: &Backend| -> bool
            requires accept { F.IsAlwaysCallable accept.now }
            requires kept { IsKept R.gives balancing.now kept.now.shown kept.now.ready }
            ensures { AcceptsBy F.Fn accept.entry.now (IsReadyIn R.gives balancing.entry.now (arc_value kept.entry.now.shown))
                backend.entry.now result }
        { accept(backend, balancing.judge(rt, kept, backend)) };
        let shown: &'k Shown<S> = &*kept.shown;
        shown.find_drawing(rt, alloc, generator, key, max_iterations, &judged)
    }
}

//! What a balancer served at one moment. A selection goes on in it, whatever updates and checks change meanwhile.
ghost use Rattle.std.specs.Prelude.{◌≡◌, ℕ, Bool, List, IfOk, IfErr, OnErr, Err, not};
ghost use Rattle.std.specs.Arc.{arc_value};
ghost use Rattle.std.specs.Fn.{FnReturnsAt};
ghost use Rattle.std.specs.List.{list_any};
ghost use Rattle.lb_select_base.specs.Backends.{Member, same_member};
ghost use Rattle.lb_select_base.specs.Copies.{AsCopied};
ghost use Rattle.lb_rebuild_core.specs.GroupCalls.{AcceptsBy};
ghost use Rattle.lb_balancer.specs.Shown.{SelectsOf, is_ready, is_up};

use crate::words::LoadedWords;
use lb_rebuild_core::group::ready_ones;
use lb_select_base::backend::Backend;
use lb_select_base::refusal::Refusal;
use lb_select_base::select::{copied_answer, find};
use lb_select_base::walk::BackendSelection;
use lb_select_base::words::SharedWords;
use lb_threads_core::generators::SharedGenerator;
use lb_threads_core::loads::{LoadWords, SharedLoads};
use std::alloc::Global;
use std::collections::BTreeSet;
use std::marker::Model;
use std::sync::{Arc, Wait};

/// How often balancer and registry had changed.
#[derive(Clone, Copy, PartialEq, Eq)]
pub struct Version {
    pub balancer: u64,
    pub registry: u64,
}

/// A generation with its members, the selector that is built of them, and which of them were not ready then.
///
/// Contracts see all but the selector's words, which other threads draw too, and the loads of the balancer, which they set.
pub struct Shown<S: BackendSelection> {
    pub(crate) generation: u64,
    pub(crate) members: Arc<BTreeSet<Backend>>,
    pub(crate) selector: Arc<S>,
    pub(crate) words: Arc<SharedWords>,
    pub(crate) loads: Arc<SharedLoads>,
    pub(crate) load_words: Option<Arc<LoadWords>>,
    pub(crate) unready: BTreeSet<Backend>,
    pub(crate) version: Version,
}

impl<S: BackendSelection> Drop for Shown<S> {
    fn drop(self) {
        let Shown {
            generation: _,
            members: _,
            selector: _,
            words: _,
            loads: _,
            load_words: _,
            unready: _,
            version: _,
        } = self;
    }
}

impl<S: BackendSelection> Model for Shown<S> {
    ghost use Rattle.std.specs.Prelude.{◌≡◌};
    ghost use Rattle.std.specs.Arc.{arc_value};
    ghost use Rattle.lb_balancer.specs.Shown.{ShownValue};

    ghost Value = { ShownValue S.Config };

    ghost view = { λ s. record {
      generation = s.generation;
      members = (arc_value s.members).keys;
      config = S.built_with (arc_value s.selector);
      unready = s.unready.keys;
    } };

    ghost invariant = { λ s. S.members (arc_value s.selector) ≡ (arc_value s.members).keys };
}

impl<S: BackendSelection> Shown<S> {
    /// Returns the generation.
    pub fn generation(&self) -> u64
        ensures { result ≡ self.now.generation }
    {
        self.generation
    }

    /// Returns the members.
    ///
    /// Refused `OutOfMemory` where std refuses one more owner.
    pub fn get_backend(&self) -> Result<Arc<BTreeSet<Backend>>, Refusal>
        ensures members { IfOk result (λ set. (arc_value set).keys ≡ self.now.members) }
        ensures refused { OnErr result (result ≡ Err Refusal.OutOfMemory) }
    {
        let members = Arc::try_clone(&self.members)?;
        Ok(members)
    }

    /// Returns whether a backend is a member that was ready, without taking memory.
    pub fn ready(&self, backend: &Backend) -> bool
        ensures { result ≡ is_ready self.now backend.now }
    {
        self.members.contains(backend) && !self.unready.contains(backend)
    }

    // Whether a backend is a member.
    pub(crate) fn lists(&self, backend: &Backend) -> bool
        ensures { result ≡ list_any (same_member backend.now) self.now.members }
    {
        self.members.contains(backend)
    }

    // The words for the loads of the members.
    #[inline]
    fn load_words(&self) -> Option<&LoadWords> {
        match &self.load_words {
            Some(words) => Some(&**words),
            None => None,
        }
    }

    /// Returns how often balancer and registry had changed.
    pub(crate) fn version(&self) -> Version {
        self.version
    }

    // Whether a backend was ready, as a selection asks it: of members it is whether they were.
    #[inline]
    pub(crate) fn was_ready(&self, backend: &Backend) -> bool
        ensures { result ≡ is_up self.now.unready backend.now }
    {
        !self.unready.contains(backend)
    }

    /// Returns the first backend that `accept` takes among the distinct of the first `max_iterations` candidates for `key`, or `None`.
    ///
    /// `accept` is asked with a backend and whether it was ready, while no lock is held. Refused for memory alone.
    pub fn select_with<W: Wait, F: Fn(&Backend, bool) -> bool>(
        &self,
        rt: &W,
        alloc: Global,
        key: &[u8],
        max_iterations: usize,
        accept: &F,
    ) -> Result<Option<Backend>, Refusal>
        requires { F.IsAlwaysCallable accept.now }
        ensures answers { SelectsOf same_member (AcceptsBy F.Fn accept.now (λ b ready. ready ≡ is_up self.now.unready b)) max_iterations
            (S.walks self.now.members self.now.config key.now) result }
    {
        let shown = self;
        let judged = |backend: &Backend| -> bool
            requires { F.IsAlwaysCallable accept.now }
            ensures { AcceptsBy F.Fn accept.entry.now (λ b ready. ready ≡ is_up shown.entry.now.unready b) backend.entry.now result }
        { accept(backend, shown.was_ready(backend)) };
        let found = self.find_drawing(rt, alloc, None, key, max_iterations, &judged);
        copied_answer(alloc, found)
    }

    // Returns in place the first backend that `accept` takes, with random words of this generator, or of the selector's own for `None`.
    #[inline]
    pub(crate) fn find_drawing<'s, W: Wait, F: Fn(&Backend) -> bool>(
        &'s self,
        rt: &W,
        alloc: Global,
        generator: Option<&SharedGenerator>,
        key: &[u8],
        max_iterations: usize,
        accept: &F,
    ) -> Result<Option<&'s Backend>, Refusal>
        requires { F.IsAlwaysCallable accept.now }
        ensures answers { AsCopied (SelectsOf same_member (λ b a. FnReturnsAt F.Fn accept.now b a) max_iterations
            (S.walks self.now.members self.now.config key.now)) result }
    {
        let shared: &SharedWords = &*self.words;
        let mut words = LoadedWords {
            words: shared.lend(rt),
            generator,
            loads: &*self.loads,
            load_words: self.load_words(),
            rt,
        };
        let selector: &'s S = &*self.selector;
        find(alloc, selector, key, &mut words, max_iterations, accept)
    }

    /// Returns the first backend that was ready, as `select_with` finds it.
    ///
    /// Refused for memory alone.
    pub fn select<W: Wait>(
        &self,
        rt: &W,
        alloc: Global,
        key: &[u8],
        max_iterations: usize,
    ) -> Result<Option<Backend>, Refusal>
        ensures answers { SelectsOf same_member (λ b ready. ready ≡ is_up self.now.unready b) max_iterations
            (S.walks self.now.members self.now.config key.now) result }
    {
        self.select_with(rt, alloc, key, max_iterations, &ready_ones)
    }
}

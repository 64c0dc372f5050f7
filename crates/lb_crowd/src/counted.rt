//! A selector that is counted while it lives, and whose build can be held. It is built and walks as the selector in it does.
use lb_select::selection::RoundRobin;
use lb_select_base::backend::Backend;
use lb_select_base::refusal::Refusal;
use lb_select_base::walk::BackendSelection;
use lb_select_base::words::WordSource;
use std::alloc::Global;
use std::collections::BTreeSet;
use std::marker::Model;
use std::sync::Arc;
use std::sync::atomic::Ordering::SeqCst;
use std::sync::atomic::{AtomicBool, AtomicU64};
use std::thread;
use std::time::{Clock, Duration};

/// How many selectors live, and the most that lived at once; and whether builds are held.
#[derive(Drop)]
pub struct Counts<W> {
    pub rt: W,
    pub live: AtomicU64,
    pub most: AtomicU64,
    /// How many builds have begun.
    pub begun: AtomicU64,
    pub held: AtomicBool,
}

impl<W> Counts<W> {
    /// None lives, and builds are held or not.
    pub fn new(rt: W, held: bool) -> Counts<W> {
        Counts {
            rt,
            live: AtomicU64::new(0),
            most: AtomicU64::new(0),
            begun: AtomicU64::new(0),
            held: AtomicBool::new(held),
        }
    }

    /// Holds the builds that begin from here on, or lets all go on.
    pub fn hold(&self, held: bool) {
        self.held.store(held, SeqCst);
    }
}

/// What a counted selector is built with, and where it is counted; `None` counts nothing. Contracts see what it is built with.
#[derive(Drop)]
pub struct Counting<W, C = ()> {
    pub config: C,
    pub counts: Option<Arc<Counts<W>>>,
}

impl<W, C> Model for Counting<W, C> {
    ghost Value = { C };

    ghost view = { λ c. c.config };
}

/// A selector that is counted from its build to its drop.
pub struct Counted<W: Clock + Drop, S: BackendSelection = RoundRobin> {
    selector: S,
    counts: Option<Arc<Counts<W>>>,
}

impl<W: Clock + Drop, S: BackendSelection> Drop for Counted<W, S> {
    fn drop(self) {
        let Counted {
            selector: _,
            counts,
        } = self;
        if let Some(counts) = &counts {
            counts.live.fetch_sub(1, SeqCst);
        }
    }
}

// Counts a selector that is to be built, and waits while builds are held: for 1000 turns of 10 milliseconds at most.
fn begin<W: Clock>(counts: &Counts<W>) {
    let live = counts.live.fetch_add(1, SeqCst).wrapping_add(1);
    counts.most.fetch_max(live, SeqCst);
    counts.begun.fetch_add(1, SeqCst);
    for _ in 0..1000 {
        if !counts.held.load(SeqCst) {
            return;
        }
        thread::sleep(&counts.rt, Duration::from_millis(10));
    }
}

impl<W: Clock + Drop, S: BackendSelection> BackendSelection for Counted<W, S> {
    type Config = Counting<W, S::Config>;

    type Walk = S::Walk;

    ghost walks = { S.walks };

    ghost members = { λ s. S.members s.selector };

    ghost built_with = { λ s. S.built_with s.selector };

    ghost refusal = { S.refusal };

    ghost default_config = { S.default_config };

    ghost may_draw_random = { S.may_draw_random };

    ghost fits = { λ s w. S.fits s.selector w };

    ghost rest = { λ s w. S.rest s.selector w };

    ghost undrawn = { S.undrawn };

    ghost few_words = { S.few_words };

    ghost rest_starts = { λ s w. S.rest_starts s.selector w };

    ghost rest_ends = { λ s w. S.rest_ends s.selector w };

    fn build(alloc: Global, backends: &BTreeSet<Backend>) -> Result<Counted<W, S>, Refusal> {
        let selector = S::build(alloc, backends)?;
        Ok(Counted {
            selector,
            counts: None,
        })
    }

    fn build_with_config(
        alloc: Global,
        backends: &BTreeSet<Backend>,
        counting: &Counting<W, S::Config>,
    ) -> Result<Counted<W, S>, Refusal> {
        let selector = S::build_with_config(alloc, backends, &counting.config)?;
        let counts = match &counting.counts {
            Some(counts) => Some(counts.clone()?),
            None => None,
        };
        if let Some(counts) = &counts {
            begin(&**counts);
        }
        Ok(Counted { selector, counts })
    }

    fn start<W2: WordSource>(&self, key: &[u8], words: &mut W2) -> Result<S::Walk, Refusal> {
        self.selector.start(key, words)
    }

    fn step<'s, W2: WordSource>(
        &'s self,
        walk: &mut S::Walk,
        words: &mut W2,
    ) -> Option<&'s Backend> {
        self.selector.step(walk, words)
    }

    fn draws_random(&self) -> bool {
        self.selector.draws_random()
    }
}

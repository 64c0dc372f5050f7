//! A selector that notes when it is gone, in the order of a destruction: it is gone before that is reported to the gate.
//! It walks as a selector in turn does.
ghost use Rattle.std.specs.Prelude.{◌∷◌, false, ⊤};
ghost use Rattle.lb_select_base.specs.AlgorithmLaws.{ticket_drawn, one_ticket};
ghost use Rattle.lb_select_base.specs.Algorithms.{ticket_word};
ghost use Rattle.lb_select_base.specs.Draws.{IsNotRandom};
ghost use Rattle.lb_select.specs.WeightLaws.{Each-words, few_words, rest_none, rest_ends};
ghost use Rattle.lb_select.specs.Weights.{weighted_refusal, IsWeightedRest, IsWeightedWalk};

use lb_select::selection::RoundRobin;
use lb_select::weighted::WeightedWalk;
use lb_select_base::backend::Backend;
use lb_select_base::refusal::Refusal;
use lb_select_base::walk::BackendSelection;
use lb_select_base::words::WordSource;
use std::alloc::Global;
use std::collections::BTreeSet;
use std::marker::Model;
use std::sync::Arc;
use std::sync::atomic::{AtomicU64, Ordering};

/// Where selectors count that they are gone; `None` counts nothing. Contracts see nothing of it.
#[derive(Drop)]
pub(crate) struct Gone(pub(crate) Option<Arc<AtomicU64>>);

impl Model for Gone {
    ghost Value = { Unit {0} };

    ghost view = { λ _. tt };
}

/// A selector in turn that counts once, when it is dropped.
pub(crate) struct Noting {
    selector: RoundRobin,
    gone: Gone,
}

impl Drop for Noting {
    fn drop(self) {
        let Noting { selector: _, gone } = self;
        if let Some(count) = &gone.0 {
            count.fetch_add(1, Ordering::SeqCst);
        }
    }
}

impl BackendSelection for Noting {
    type Config = Gone;

    type Walk = WeightedWalk;

    ghost walks = { λ ms gone. IsWeightedWalk ticket_word ms };

    ghost members = { λ s. s.selector };

    ghost built_with = { λ s. tt };

    ghost refusal = { λ ms gone. weighted_refusal ms };

    ghost default_config = { tt };

    ghost may_draw_random = { λ ms gone. false };

    ghost fits = { λ s w. ⊤ };

    ghost rest = { λ s w. IsWeightedRest ticket_word w.first s.selector w.word };

    ghost undrawn = { λ ms gone never key ds cs e h.
        Each-words ticket_word IsNotRandom (λ key ds w h. ticket_drawn w ds h) key (h.word ∷ h.later) ds h.drawn };

    ghost few_words = { λ ms gone key ds cs e h.
        few_words ticket_word (λ key ds w h. one_ticket w ds h) ms key ds cs e h };

    ghost rest_starts = { λ s w. rest_none ticket_word w.first s.selector w.word };

    ghost rest_ends = { λ s w. rest_ends ticket_word w.first s.selector w.word };

    fn build(alloc: Global, backends: &BTreeSet<Backend>) -> Result<Noting, Refusal> {
        Noting::build_with_config(alloc, backends, &Gone(None))
    }

    fn build_with_config(
        alloc: Global,
        backends: &BTreeSet<Backend>,
        gone: &Gone,
    ) -> Result<Noting, Refusal> {
        let selector = RoundRobin::build(alloc, backends)?;
        let count = match &gone.0 {
            Some(count) => Some(count.clone()?),
            None => None,
        };
        Ok(Noting {
            selector,
            gone: Gone(count),
        })
    }

    fn start<W: WordSource>(&self, key: &[u8], words: &mut W) -> Result<WeightedWalk, Refusal> {
        self.selector.start(key, words)
    }

    fn step<'s, W: WordSource>(
        &'s self,
        walk: &mut WeightedWalk,
        words: &mut W,
    ) -> Option<&'s Backend> {
        self.selector.step(walk, words)
    }

    fn draws_random(&self) -> bool {
        false
    }
}

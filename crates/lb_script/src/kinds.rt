//! The kinds of selectors, and one selector over them.
//! A kind is the configuration of a slot; a set, a kind and the words that are drawn determine every walk. No script names `Random`.
ghost use Rattle.std.specs.Prelude.{◌≡◌, List, ℕ, Bool};
ghost use Rattle.lb_select_base.specs.Backends.{Member};
ghost use Rattle.lb_select_base.specs.Draws.{Draw};
ghost use Rattle.lb_select.specs.Weights.{weighted_refusal};
ghost use Rattle.lb_script.specs.Kinds.{kind_walks, kind_refusal, kind_is_random, kind_undrawn, kind_few_words};
ghost use Rattle.lb_script.specs.Chosen.{members_chosen, kind_chosen};
ghost use Rattle.lb_script.specs.Lent.{chosen_fits, chosen_rest, chosen_rest_starts, chosen_rest_ends};

use lb_select::ketama::{KetamaHashing, RingWalk};
use lb_select::least::{LeastConnections, LeastWalk};
use lb_select::selection::{FNVHash, Random, RoundRobin};
use lb_select::weighted::WeightedWalk;
use lb_select_base::backend::Backend;
use lb_select_base::refusal::Refusal;
use lb_select_base::walk::BackendSelection;
use lb_select_base::words::WordSource;
use std::alloc::Global;
use std::collections::BTreeSet;

/// The kind of selector that a slot builds.
#[derive(Clone, Copy, Debug, PartialEq, Eq)]
pub enum Kind {
    /// Weighted, by the FNV hash of the key.
    Fnv,
    /// Weighted, in turn.
    RoundRobin,
    /// By the points of a Ketama ring.
    Ketama,
    /// By the least load for each unit of weight.
    Least,
    /// Weighted, at random.
    Random,
}

/// A selector of one of the kinds.
#[derive(Drop)]
pub enum Chosen {
    Fnv(FNVHash),
    RoundRobin(RoundRobin),
    Ketama(KetamaHashing),
    Least(LeastConnections),
    Random(Random),
}

/// What a walk over a selector of one of the kinds keeps. The three weighted kinds keep the same.
#[derive(Drop)]
pub enum ChosenWalk {
    Weighted(WeightedWalk),
    Ketama(RingWalk),
    Least(LeastWalk),
}

impl BackendSelection for Chosen {
    type Config = Kind;

    type Walk = ChosenWalk;

    ghost use Rattle.lb_script.specs.declared.kinds.Kind.TheVariants.{Fnv};

    ghost walks = { kind_walks };

    ghost members = { members_chosen };

    ghost built_with = { kind_chosen };

    ghost refusal = { kind_refusal };

    ghost default_config = { Fnv };

    ghost may_draw_random = { λ ms. kind_is_random };

    ghost fits = { chosen_fits };

    ghost rest = { chosen_rest };

    ghost undrawn = { kind_undrawn };

    ghost few_words = { kind_few_words };

    ghost rest_starts = { chosen_rest_starts };

    ghost rest_ends = { chosen_rest_ends };

    fn build(alloc: Global, backends: &BTreeSet<Backend>) -> Result<Chosen, Refusal> {
        Chosen::build_with_config(alloc, backends, &Kind::Fnv)
    }

    fn build_with_config(
        alloc: Global,
        backends: &BTreeSet<Backend>,
        kind: &Kind,
    ) -> Result<Chosen, Refusal> {
        match kind {
            Kind::Fnv => Ok(Chosen::Fnv(FNVHash::build(alloc, backends)?)),
            Kind::RoundRobin => Ok(Chosen::RoundRobin(RoundRobin::build(alloc, backends)?)),
            Kind::Ketama => Ok(Chosen::Ketama(KetamaHashing::build(alloc, backends)?)),
            Kind::Least => Ok(Chosen::Least(LeastConnections::build(alloc, backends)?)),
            Kind::Random => Ok(Chosen::Random(Random::build(alloc, backends)?)),
        }
    }

    fn start<W: WordSource>(&self, key: &[u8], words: &mut W) -> Result<ChosenWalk, Refusal> {
        match self {
            Chosen::Fnv(selector) => {
                let walk = selector.start(key, words)?;
                Ok(ChosenWalk::Weighted(walk))
            }
            Chosen::RoundRobin(selector) => {
                let walk = selector.start(key, words)?;
                Ok(ChosenWalk::Weighted(walk))
            }
            Chosen::Ketama(selector) => {
                let walk = selector.start(key, words)?;
                Ok(ChosenWalk::Ketama(walk))
            }
            Chosen::Least(selector) => {
                let walk = selector.start(key, words)?;
                Ok(ChosenWalk::Least(walk))
            }
            Chosen::Random(selector) => {
                let walk = selector.start(key, words)?;
                Ok(ChosenWalk::Weighted(walk))
            }
        }
    }

    fn step<'s, W: WordSource>(
        &'s self,
        walk: &mut ChosenWalk,
        words: &mut W,
    ) -> Option<&'s Backend> {
        match (self, walk) {
            (Chosen::Fnv(selector), ChosenWalk::Weighted(walk)) => selector.step(walk, words),
            (Chosen::RoundRobin(selector), ChosenWalk::Weighted(walk)) => selector.step(
                walk, words,
            ),
            (Chosen::Ketama(selector), ChosenWalk::Ketama(walk)) => selector.step(walk, words),
            (Chosen::Least(selector), ChosenWalk::Least(walk)) => selector.step(walk, words),
            (Chosen::Random(selector), ChosenWalk::Weighted(walk)) => selector.step(walk, words),
            // No walk of another kind fits.
            _ => None,
        }
    }

    fn draws_random(&self) -> bool {
        matches!(self, Chosen::Random(_))
    }
}

//! Weighted selection: each backend gets a share of the first choices that is its weight against the sum of all weights.
//! A word chooses by the partial sums of the weights; fallbacks disregard weights.
ghost use Rattle.std.specs.Prelude.{◌≡◌, ℕ, ◌<◌, ◌≤◌, ◌^◌, ◌++◌, ◌∷◌, [], ◌+◌, ◌-◌, ◌%◌, List, length, Some, IfOk, MatchOption, ⊤};
ghost use Rattle.std.specs.Option.{option_and_then, option_copied};
ghost use Rattle.std.specs.List.{slice_get};
ghost use Rattle.std.specs.Arc.{arc_value};
ghost use Rattle.lb_select_base.specs.Backends.{Member};
ghost use Rattle.lb_select_base.specs.Draws.{Draw, Gives, IsNotRandom};
ghost use Rattle.lb_select_base.specs.Refusals.{Refuses};
ghost use Rattle.lb_select_base.specs.Walks.{IsStep};
ghost use Rattle.lb_select.specs.WeightLaws.{Each-words, few_words, rest_none, rest_ends};
ghost use Rattle.lb_select.specs.Sums.{AreSums, HasBinaryDigits};
ghost use Rattle.lb_select.specs.Weights.{total_weight, weighted_refusal, HoldsPlace, IsFirstChoice, IsFallback};
ghost use Rattle.lb_select.specs.Weights.{IsWeightedWalk, IsWeightedRest};

use crate::divisor::Divisor;
use crate::guide::Guide;
use crate::sums::{Sums, index_of_place};
use lb_select_base::algorithms::FnvHasher;
use lb_select_base::backend::Backend;
use lb_select_base::iter::Iter;
use lb_select_base::refusal::Refusal;
use lb_select_base::walk::{BackendSelection, SelectionAlgorithm};
use lb_select_base::words::WordSource;
use std::alloc::{AllocError, Global};
use std::collections::BTreeSet;
use std::marker::Model;
use std::sync::Arc;

// More backends are refused.
const MAX_BACKENDS: usize = 65535;

/// A weighted selector over a set of backends, by the algorithm `H`. Its first choice for a word is the backend whose
/// interval of partial weight sums holds the word modulo the total weight; each later candidate is the one at the next
/// word modulo the number of backends, in the order of the set.
#[derive(Drop)]
pub struct Weighted<H = FnvHasher> {
    backends: Vec<Backend>,
    // for each backend the sum of the weights up to it, its own among them
    sums: Sums,
    // where a search among them may begin
    guide: Guide,
    total: Divisor,
    algorithm: H,
}

impl<H> Model for Weighted<H> {
    ghost use Rattle.std.specs.Prelude.{List};
    ghost use Rattle.lb_select_base.specs.Backends.{Member};
    ghost use Rattle.lb_select.specs.Sums.{IsSummed};

    ghost Value = { List Member };

    ghost view = { λ w. w.backends.items };

    ghost invariant = { λ w. IsSummed w.backends.items w.sums w.total };
}

/// What a walk over a weighted selector keeps from candidate to candidate.
#[derive(Drop)]
pub struct WeightedWalk {
    // the word that was drawn last
    word: u64,
    // whether the first choice is still to come
    first: bool,
}

/// A walk over the candidates of a weighted selector, which it holds. It never ends where the total weight is above 0, and is
/// over at once where it is 0.
pub type WeightedIterator<H = FnvHasher> = Iter<Weighted<H>>;

/// Where the interval of a place is, and what it took to find it.
#[derive(Clone, Copy, Debug, PartialEq, Eq)]
pub struct Located {
    /// The index of its backend in the set's order.
    pub index: usize,
    /// How many partial sums the search read.
    pub probes: u32,
}

// The sum of all weights, or none where it needs more than 64 bits.
fn sum_of_weights(backends: &BTreeSet<Backend>) -> Option<u64>
    ensures { MatchOption result (2 ^ 64 ≤ total_weight backends.now.keys) (λ t. t ≡ total_weight backends.now.keys) }
{
    let mut total = 0u64;
    for backend in backends {
        total = total.checked_add(backend.weight as u64)?;
    }
    Some(total)
}

// Adds a backend at the end, and the sum of the weights up to it.
#[tactic(auto, using(crate::proofs::Summing::sums_more))]
fn add_member(
    list: &mut Vec<Backend>,
    sums: &mut Sums,
    sum: u64,
    backend: &Backend,
) -> Result<(), AllocError>
    requires so_far { AreSums list.old.items sums.old }
    requires sum { sum ≡ total_weight list.old.items + backend.now.weight }
    ensures list { IfOk result (λ _. list.new.items ≡ list.old.items ++ backend.now ∷ []) }
    ensures sums { IfOk result (λ _. AreSums list.new.items sums.new) }
{
    list.push(backend.clone()?)?;
    sums.push(sum)?;
    Ok(())
}

impl<H: SelectionAlgorithm> Weighted<H> {
    // The selector of a set. What else can refuse is tested before any memory is taken.
    #[tactic(auto, using(crate::proofs::Summing::total_more, crate::proofs::Summing::part_weighs))]
    fn of_set(alloc: Global, backends: &BTreeSet<Backend>) -> Result<Self, Refusal>
        ensures { Refuses (weighted_refusal backends.now.keys) (λ s. s ≡ backends.now.keys) result }
    {
        if backends.len() > MAX_BACKENDS {
            return Err(Refusal::TooManyBackends);
        }
        let total = sum_of_weights(backends).ok_or(Refusal::WeightTooLarge)?;
        let mut list = Vec::with_capacity(alloc, backends.len())?;
        let mut sums = Sums::with_capacity(alloc, backends.len())?;
        let mut guide = Guide::new(alloc, total, backends.len())?;
        let mut sum = 0u64;
        for backend in backends {
            sum += backend.weight as u64;
            guide.cover(list.len(), sum)?;
            add_member(&mut list, &mut sums, sum, backend)?;
        }
        Ok(Weighted {
            backends: list,
            sums,
            guide,
            total: Divisor::new(total),
            algorithm: H::new(),
        })
    }

    /// Returns the sum of all weights.
    pub fn total(&self) -> u64
        ensures { result ≡ total_weight self.now }
    {
        self.total.number()
    }

    /// Returns the index of the backend whose interval of partial sums contains a place below the total, and how many sums the search
    /// read.
    ///
    /// It reads as many as the last index has binary digits, whatever the place and the weights: each read is by halves of what is left.
    pub fn locate(&self, place: u64) -> Located
        requires { place < total_weight self.now }
        ensures index { HoldsPlace self.now place result.index }
        ensures inside { result.index < length self.now }
        ensures probes { HasBinaryDigits (length self.now - 1) result.probes }
        ensures few { (k : ℕ) → HasBinaryDigits (length self.now) k → result.probes ≤ k }
    {
        let mut reader = self.sums.reader();
        let index = index_of_place(&mut reader, self.sums.len(), place);
        Located {
            index,
            probes: reader.reads(),
        }
    }

    // The index of the backend whose interval of partial sums contains a place: the one that the guide names or the next one, or else what
    // the search finds.
    #[inline]
    #[tactic(auto, using(crate::proofs::Summing::place_held))]
    fn index_of(&self, place: u64) -> usize
        requires { place < total_weight self.now }
        ensures index { HoldsPlace self.now place result }
        ensures inside { result < length self.now }
    {
        let start = self.guide.start(place);
        if self.sums.is_at(start, place) {
            return start;
        }
        let next = start.saturating_add(1);
        if self.sums.is_at(next, place) {
            return next;
        }
        self.locate(place).index
    }

    // Draws the word of a key.
    fn draw<W: WordSource>(&self, words: &mut W, key: &[u8]) -> u64
        ensures { (ds : List Draw) × Gives W.gives words.old ds words.new × H.gives_word key.now ds result }
    {
        self.algorithm.next(words, key)
    }

    // The backend at an index.
    fn get(&self, index: Option<usize>) -> Option<&Backend>
        ensures { option_copied result ≡ option_and_then (slice_get self.now) index }
    {
        self.backends.as_slice().get(index?)
    }

    // The place of a word.
    fn place_of(&self, word: u64) -> u64
        requires { 0 < total_weight self.now }
        ensures { result ≡ word % total_weight self.now }
    {
        self.total.rest_of(word)
    }

    // The index of the first choice for a word.
    fn first_choice(&self, word: u64) -> usize
        requires { 0 < total_weight self.now }
        ensures { (m : Member) × (slice_get self.now result ≡ Some m) × IsFirstChoice self.now word m }
    {
        self.index_of(self.place_of(word))
    }

    // The index of the fallback for a word.
    fn fallback(&self, word: u64) -> usize
        requires { 0 < total_weight self.now }
        ensures index { result ≡ word % length self.now }
        ensures member { (m : Member) × (slice_get self.now result ≡ Some m) × IsFallback self.now word m }
    {
        let list = self.backends.as_slice();
        word as usize % list.len()
    }

    // The index of the next candidate in the set's order, or none where no backend has a weight.
    fn advance<W: WordSource>(&self, walk: &mut WeightedWalk, words: &mut W) -> Option<usize>
        ensures { IsStep W.gives (λ w. IsWeightedRest H.gives_word w.first self.now w.word)
            walk.old words.old (option_and_then (slice_get self.now) result) walk.new words.new }
    {
        if self.total() == 0 {
            return None;
        }
        if walk.first {
            walk.first = false;
            return Some(self.first_choice(walk.word));
        }
        walk.word = self.draw(words, &walk.word.to_le_bytes());
        Some(self.fallback(walk.word))
    }
}

impl<H: SelectionAlgorithm> BackendSelection for Weighted<H> {
    type Config = ();

    type Walk = WeightedWalk;

    ghost walks = { λ ms config. IsWeightedWalk H.gives_word ms };

    ghost members = { λ w. w };

    ghost built_with = { λ w. tt };

    ghost refusal = { λ ms config. weighted_refusal ms };

    ghost default_config = { tt };

    ghost may_draw_random = { λ ms config. H.may_draw_random };

    ghost fits = { λ s w. ⊤ };

    ghost rest = { λ s w. IsWeightedRest H.gives_word w.first s w.word };

    ghost undrawn = { λ ms config never key ds cs e h.
        Each-words H.gives_word IsNotRandom (H.undrawn never) key (h.word ∷ h.later) ds h.drawn };

    ghost few_words = { λ ms config key ds cs e h. few_words H.gives_word H.one_word ms key ds cs e h };

    ghost rest_starts = { λ s w. rest_none _ w.first s w.word };

    ghost rest_ends = { λ s w ds cs e over h. rest_ends _ w.first s w.word ds cs e over h };

    fn build(alloc: Global, backends: &BTreeSet<Backend>) -> Result<Self, Refusal> {
        Weighted::of_set(alloc, backends)
    }

    fn build_with_config(
        alloc: Global,
        backends: &BTreeSet<Backend>,
        _config: &(),
    ) -> Result<Self, Refusal> {
        Self::build(alloc, backends)
    }

    fn start<W: WordSource>(&self, key: &[u8], words: &mut W) -> Result<WeightedWalk, Refusal> {
        let word = self.draw(words, key);
        Ok(WeightedWalk { word, first: true })
    }

    fn step<'s, W: WordSource>(
        &'s self,
        walk: &mut WeightedWalk,
        words: &mut W,
    ) -> Option<&'s Backend> {
        let index = self.advance(walk, words);
        self.get(index)
    }

    fn draws_random(&self) -> bool {
        self.algorithm.draws_random()
    }
}

//! The traits of selection: an algorithm that draws words, an iterator over candidates, and a selector that is built from a set. Each
//! states its meaning by one relation, so that the unique walk and the selection are proved once for every selector.
ghost use Rattle.std.specs.Prelude.{◌≡◌, ◌≤◌, ℕ, max, Bool, true, false, List, [], Option, IfOk, length};
ghost use Rattle.std.specs.List.{AllByRecursion as Each};
ghost use Rattle.std.specs.Option.{option_copied};
ghost use Rattle.std.specs.Borrow.{sem};
ghost use Rattle.lb_select_base.specs.Backends.{Member};
ghost use Rattle.lb_select_base.specs.Draws.{Draw, Gives, IsNotRandom, words_in};
ghost use Rattle.lb_select_base.specs.Refusals.{Refuses};
ghost use Rattle.lb_select_base.specs.Walks.{Leaves, IsStep, Begins};
ghost use Rattle.lb_select_base.specs.declared.refusal.Refusal.{Refusal};

use crate::backend::Backend;
use crate::refusal::Refusal;
use crate::words::WordSource;
use std::alloc::Global;
use std::collections::BTreeSet;

/// How a walk gets its words: from the key alone, from a counter, or at random.
pub trait SelectionAlgorithm: Drop {
    // Which word belongs to a key after which draws: key, draws, word.
    ghost gives_word: { List ℕ → List Draw → ℕ → Type 0 };

    /// Returns the algorithm; it has no state.
    fn new() -> Self;

    /// Returns the word that belongs to `key`.
    fn next<W: WordSource>(&self, words: &mut W, key: &[u8]) -> u64
        ensures { (ds : List Draw) × Gives W.gives words.old ds words.new × gives_word key.now ds result };

    // Whether one of its draws can be a random word.
    ghost may_draw_random: { Bool };

    /// Returns whether words are drawn at random.
    fn draws_random(&self) -> bool
        ensures { result ≡ may_draw_random };

    // Where it says that it draws no random word, it draws none.
    ghost undrawn: { may_draw_random ≡ false
        → (key : List ℕ) (ds : List Draw) (w : ℕ) → gives_word key ds w → Each IsNotRandom ds };

    // A word takes at most one draw from the source.
    ghost one_word: { (key : List ℕ) (ds : List Draw) (w : ℕ) → gives_word key ds w → words_in ds ≤ 1 };
}

/// A walk over the candidates of one selection.
pub trait BackendIter: Drop {
    // What the rest of the walk may be: the draws made from here on, the first candidates that come, whether the walk then ended.
    ghost walk: { Self → List Draw → List Member → Bool → Type 0 };

    /// Returns the next candidate; `None` once the walk has ended, and from then on.
    fn next<W: WordSource>(&mut self, words: &mut W) -> Option<&Backend>
        ensures* after { sem 𝓛 (Leaves Self.row self.entry
            (λ n. IsStep W.gives walk self.old words.old (option_copied result) n words.new)) };

    // Before anything is drawn the rest of the walk is there, with no candidate yet.
    ghost starts: { (s : Self) → walk s [] [] false };

    // A walk that has ended draws nothing more and gives nothing more.
    ghost ends: { (s : Self) (ds : List Draw) (cs : List Member) (e : Bool) → walk s [] [] true → walk s ds cs e → (ds ≡ []) × (cs ≡ []) };
}

/// A selector: it is built from a set of backends, and gives walks over candidates.
pub trait BackendSelection: Drop {
    /// What a selector is built with, apart from its set.
    type Config: Drop;

    /// What a walk keeps from candidate to candidate. The selector itself is no part of it.
    type Walk: Drop;

    // The walks over a set: set, configuration and key, then the draws, the first candidates, whether the walk then ended.
    ghost walks: { List Member → Self.Config → List ℕ → List Draw → List Member → Bool → Type 0 };

    // The set that a selector was built of, in its order.
    ghost members: { Self → List Member };

    // The configuration that a selector was built with.
    ghost built_with: { Self → Self.Config };

    // The least cause to refuse a build of a set with a configuration, memory apart.
    ghost refusal: { List Member → Self.Config → Option Refusal };

    // The configuration of `build`.
    ghost default_config: { Self.Config };

    // Whether a walk over a set with a configuration can draw a random word.
    ghost may_draw_random: { List Member → Self.Config → Bool };

    /// Returns a selector over `backends` with the default configuration.
    ///
    /// Refused for the least cause that applies, and for memory only where there is none.
    fn build(alloc: Global, backends: &BTreeSet<Backend>) -> Result<Self, Refusal>
        ensures { Refuses (refusal backends.now.keys default_config)
            (λ s. (members s ≡ backends.now.keys) × (built_with s ≡ default_config)) result };

    /// Returns a selector over `backends` with this configuration.
    ///
    /// Refused as `build` is.
    fn build_with_config(
        alloc: Global,
        backends: &BTreeSet<Backend>,
        config: &Self::Config,
    ) -> Result<Self, Refusal>
        ensures { Refuses (refusal backends.now.keys config.now)
            (λ s. (members s ≡ backends.now.keys) × (built_with s ≡ config.now)) result };

    // Whether a walk was begun over this selector, or over one with the same meaning.
    ghost fits: { Self → Self.Walk → Type 0 };

    // What the rest of a walk may be: the draws made from here on, the first candidates that come, whether the walk then ended.
    ghost rest: { Self → Self.Walk → List Draw → List Member → Bool → Type 0 };

    /// Returns a walk for `key` over this selector, which is borrowed at each step.
    ///
    /// Refused for memory alone, and then before any word is drawn.
    fn start<W: WordSource>(&self, key: &[u8], words: &mut W) -> Result<Self::Walk, Refusal>
        ensures begins { Begins W.gives (rest self.now)
            (walks (members self.now) (built_with self.now) key.now) words.old result words.new }
        ensures fitting { IfOk result (λ w. fits self.now w) };

    /// Returns the next candidate of such a walk, which stays readable while the walk goes on; `None` once it has ended, and from then on.
    fn step<'s, W: WordSource>(
        &'s self,
        walk: &mut Self::Walk,
        words: &mut W,
    ) -> Option<&'s Backend>
        requires { fits self.now walk.old }
        ensures step { IsStep W.gives (rest self.now) walk.old words.old (option_copied result) walk.new words.new }
        ensures fitting { fits self.now walk.new };

    /// Returns whether its walks may draw random words.
    fn draws_random(&self) -> bool
        ensures { result ≡ may_draw_random (members self.now) (built_with self.now) };

    // Where it says that no random word can be drawn, none is.
    ghost undrawn: { (ms : List Member) (config : Self.Config) → may_draw_random ms config ≡ false
        → (key : List ℕ) (ds : List Draw) (cs : List Member) (e : Bool) → walks ms config key ds cs e → Each IsNotRandom ds };

    // A walk draws at most one word for each candidate, and one where no candidate comes; loads are no words.
    ghost few_words: { (ms : List Member) (config : Self.Config) (key : List ℕ) (ds : List Draw) (cs : List Member) (e : Bool)
        → walks ms config key ds cs e → words_in ds ≤ max 1 (length cs) };

    // Before anything is drawn the rest of a walk is there, with no candidate yet.
    ghost rest_starts: { (s : Self) (w : Self.Walk) → rest s w [] [] false };

    // A walk that has ended draws nothing more and gives nothing more.
    ghost rest_ends: { (s : Self) (w : Self.Walk) (ds : List Draw) (cs : List Member) (e : Bool)
        → rest s w [] [] true → rest s w ds cs e → (ds ≡ []) × (cs ≡ []) };
}

//! What words keep true between any two steps, and the steps that there are: one that finds a word, and one that writes it.
ghost use Rattle.std.specs.Prelude.{◌≡◌, ℕ};
ghost use Rattle.lb_threads_core.specs.Words.{AreKept};

use atomic_table::{Play, TableRule};
use std::marker::PhantomData;

/// What each word keeps, by the key of all of them and its place.
pub trait WordRule<K> {
    /// The fact about key, place and word: a thread that finds the word may use it, and one that writes a word has to prove it.
    ghost holds: { K → ℕ → ℕ → Type 0 };
}

/// The rule of the words' table: each word keeps its fact.
pub struct Ruled<I> {
    of: PhantomData<I>,
}

impl<K, I: WordRule<K>> TableRule<(), K, K> for Ruled<I> {
    ghost holds = { λ key s. AreKept (I.holds key) s.words };

    ghost first = { λ key. key };
}

/// The step that finds a word. A seat's view is the key.
pub struct Finds<I> {
    of: PhantomData<I>,
}

impl<K, I: WordRule<K>> Play<(), K> for Finds<I> {
    ghost then = { λ step me n _. I.holds me.0 step.word n };
}

/// The step that writes a word.
pub struct Writes {}

impl<K> Play<(), K> for Writes {
    ghost then = { λ _ _ _ _. Unit {0} };
}

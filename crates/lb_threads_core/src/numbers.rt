//! Numbers that threads read by one load, without a lock. Each keeps a fact by its place and by a key that stays, once it was noted.
ghost use Rattle.std.specs.Prelude.{◌≡◌, ◌+◌, ℕ, IfOk, IfSome};

use crate::word_rule::WordRule;
use crate::words::KeyedWords;
use std::alloc::{AllocError, Global};
use std::marker::PhantomData;

/// The rule of the words behind numbers: 0 where none was noted, and else one more than the number, which keeps its fact.
pub struct NotedBy<I> {
    of: PhantomData<I>,
}

impl<K, I: WordRule<K>> WordRule<K> for NotedBy<I> {
    ghost use Rattle.std.specs.Prelude.{◌≡◌, ◌+◌, ℕ};

    ghost holds = { λ key place w. (n : ℕ) → w ≡ n + 1 → I.holds key place n };
}

/// Numbers that threads share, and a key that stays. Contracts name the key as `words.table.shared.key`.
///
/// Who notes a number holds the lock of what it is a number of, so that the last one noted is the last one there was.
#[derive(Drop)]
pub struct KeyedNumbers<K, I: WordRule<K>> {
    pub words: KeyedWords<K, NotedBy<I>>,
}

impl<K, I: WordRule<K>> KeyedNumbers<K, I> {
    /// Returns places for so many numbers with this key, of which none is noted.
    ///
    /// # Errors
    ///
    /// `AllocError` where memory is refused.
    pub fn new(alloc: Global, count: usize, key: &K) -> Result<KeyedNumbers<K, I>, AllocError>
        ensures { IfOk result (λ n. n.words.table.shared.key ≡ key.now) }
    {
        let none: Vec<u64> = vec![in alloc; 0; count]?;
        let words = KeyedWords::new(alloc, &none, key)?;
        Ok(KeyedNumbers { words })
    }

    /// Returns the number that was noted last at a place, by one load, or `None` where none was.
    pub fn get(&self, place: usize) -> Option<u64>
        ensures { IfSome result (λ n. I.holds self.now.words.table.shared.key place n) }
    {
        self.words.load(place)?.checked_sub(1)
    }

    /// Notes a number at a place by one step, or does nothing where there is no such place. 18446744073709551615 is noted as none.
    pub fn note(&self, place: usize, number: u64)
        requires { I.holds self.now.words.table.shared.key place number }
    {
        self.words.store(place, number.wrapping_add(1));
    }
}

//! Words that threads read and write by single steps, without a lock. Each keeps a fact by its place and by a key that stays.
ghost use Rattle.std.specs.Prelude.{◌≡◌, ◌<◌, IfOk, IfSome, length};
ghost use Rattle.lb_threads_core.specs.Words.{AreKept};

use crate::word_rule::{Finds, Ruled, WordRule, Writes};
use atomic_table::Table;
use std::alloc::{AllocError, Global};

/// Words that threads share, and a key that stays. Contracts name the key as `table.shared.key`.
#[derive(Drop)]
pub struct KeyedWords<K, I: WordRule<K>> {
    pub table: Table<(), K, K, Ruled<I>, Global>,
    count: usize,
    ghost counted: { table.shared.table_id.words ≡ count },
}

impl<K, I: WordRule<K>> KeyedWords<K, I> {
    /// Returns these words with this key.
    ///
    /// # Errors
    ///
    /// `AllocError` where memory is refused.
    pub fn new(alloc: Global, words: &[u64], key: &K) -> Result<KeyedWords<K, I>, AllocError>
        requires { AreKept (I.holds key.now) words.now }
        ensures { IfOk result (λ w. w.table.shared.key ≡ key.now) }
    {
        let count = words.len();
        let (table, _seat) = Table::of_words(alloc, words, key)?;
        Ok(KeyedWords { table, count })
    }

    /// Returns the word at a place by one load, or `None` where no word is there.
    pub fn load(&self, place: usize) -> Option<u64>
        ensures { IfSome result (λ n. I.holds self.now.table.shared.key place n) }
    {
        if place >= self.count {
            return None;
        }
        let (found, _seat) = self.table.shared.load_new_seat::<Finds<I>>(place);
        Some(found)
    }

    /// Writes the word at a place by one step, or does nothing where no word is there.
    pub fn store(&self, place: usize, word: u64)
        requires { I.holds self.now.table.shared.key place word }
    {
        if place < self.count {
            self.table.shared.swap_new_seat::<Writes>(place, word);
        }
    }
}

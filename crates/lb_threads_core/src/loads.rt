//! Loads of backends that threads share. All that were set lie in a table under a lock; those of a membership that is served are words
//! too, which a selection reads without a lock.
ghost use Rattle.std.specs.Prelude.{◌≡◌, IfErr};

use crate::marks::{Marks, marks_of, place_of};
use lb_select_base::backend::Backend;
use lb_select_base::loads::Loads;
use lb_select_base::refusal::Refusal;
use std::alloc::{AllocError, Global};
use std::collections::BTreeSet;
use std::sync::atomic::Ordering::SeqCst;
use std::sync::atomic::{AtomicBool, AtomicU64};
use std::sync::{Arc, Mutex, Wait};

/// The loads of one membership, as words.
pub struct LoadWords {
    // The number that they are found by.
    number: u64,
    marks: Marks,
    words: Vec<AtomicU64>,
    // Whether each word has the load that was set before the words were there.
    is_filled: AtomicBool,
}

impl Drop for LoadWords {
    fn drop(self) {
        let LoadWords {
            number: _,
            marks: _,
            words: _,
            is_filled: _,
        } = self;
    }
}

impl LoadWords {
    // Words that are 0.
    fn new(
        alloc: Global,
        number: u64,
        members: &BTreeSet<Backend>,
    ) -> Result<LoadWords, AllocError> {
        let marks = marks_of(alloc, members)?;
        let mut words = Vec::with_capacity(alloc, marks.len())?;
        for _ in 0..marks.len() {
            words.push(AtomicU64::new(0))?;
        }
        Ok(LoadWords {
            number,
            marks,
            words,
            is_filled: AtomicBool::new(false),
        })
    }

    // The word of a backend.
    #[inline]
    fn word(&self, backend: &Backend) -> Option<&AtomicU64> {
        let place = place_of(self.marks.as_slice(), backend)?;
        self.words.get(place)
    }
}

// All loads that were set, and the words that are in use.
#[derive(Drop)]
struct Kept {
    loads: Loads,
    words: Vec<Arc<LoadWords>>,
}

impl Kept {
    // The words of this number.
    fn find(&self, number: u64) -> Option<Arc<LoadWords>> {
        for words in self.words.as_slice() {
            if words.number == number {
                return Arc::try_clone(words).ok();
            }
        }
        None
    }

    // Words that nothing else uses, which aren't kept any more.
    fn take_unused(&mut self) -> Option<Arc<LoadWords>> {
        for place in 0..self.words.len() {
            if place < self.words.len() && Arc::strong_count(&self.words[place]) == 1 {
                return Some(self.words.swap_remove(place));
            }
        }
        None
    }

    // Keeps words, or those of the same number that were there before. `None` where memory is refused.
    fn keep(&mut self, made: LoadWords, alloc: Global) -> Option<Arc<LoadWords>> {
        if let Some(words) = self.find(made.number) {
            return Some(words);
        }
        let words = Arc::new(alloc, made).ok()?;
        let again = Arc::try_clone(&words).ok()?;
        self.words.push(words).ok()?;
        Some(again)
    }

    // Sets a load, in each of the words too.
    fn set(&mut self, alloc: Global, backend: &Backend, load: u64) -> Result<(), Refusal>
        ensures { IfErr result (λ e. e ≡ Refusal.OutOfMemory) }
    {
        self.loads.set(alloc, backend, load)?;
        for words in self.words.as_slice() {
            if let Some(word) = words.word(backend) {
                word.store(load, SeqCst);
            }
        }
        Ok(())
    }

    // Writes the word at a place, by what was set for the backend that has it.
    fn fill(&self, words: &LoadWords, place: usize) {
        if let (Some(Some(backend)), Some(word)) = (
            words.marks.get(place),
            words.words.get(place),
        ) {
            word.store(self.loads.get(backend), SeqCst);
        }
    }
}

/// Loads by identity: that of a backend is the one that was set for its identity last, and 0 where none was.
#[derive(Drop)]
pub struct SharedLoads {
    kept: Mutex<Kept>,
}

impl SharedLoads {
    /// Returns loads that are all 0, without taking memory.
    pub fn new(alloc: Global) -> SharedLoads {
        SharedLoads {
            kept: Mutex::new(Kept {
                loads: Loads::new(),
                words: Vec::new(alloc),
            }),
        }
    }

    /// Sets the load of a backend's identity.
    ///
    /// Refused `OutOfMemory` where memory is refused; nothing is set then.
    pub fn set<W: Wait>(
        &self,
        rt: &W,
        alloc: Global,
        backend: &Backend,
        load: u64,
    ) -> Result<(), Refusal>
        ensures { IfErr result (λ e. e ≡ Refusal.OutOfMemory) }
    {
        self.kept.lock(rt).set(alloc, backend, load)
    }

    /// Returns the load of a backend's identity: by its word among these, if it has one there, and else by the lock.
    #[inline]
    pub fn get<W: Wait>(&self, rt: &W, words: Option<&LoadWords>, backend: &Backend) -> u64 {
        if let Some(words) = words {
            if let Some(word) = words.word(backend) {
                return word.load(SeqCst);
            }
        }
        self.kept.lock(rt).loads.get(backend)
    }

    /// Returns words for the loads of these members, which `set` writes as long as they are used; for one number they are made once.
    /// `None` where memory is refused.
    ///
    /// It is for the thread that builds: it takes the lock for each load, so that no other thread waits long.
    pub fn words<W: Wait>(
        &self,
        rt: &W,
        alloc: Global,
        number: u64,
        members: &BTreeSet<Backend>,
    ) -> Option<Arc<LoadWords>> {
        self.drop_unused(rt);
        let found = self.kept.lock(rt).find(number);
        let words = match found {
            Some(words) => words,
            None => {
                let made = LoadWords::new(alloc, number, members).ok()?;
                self.kept.lock(rt).keep(made, alloc)?
            }
        };
        self.fill(rt, &*words);
        Some(words)
    }

    // Drops the words that nothing else uses, outside the lock.
    fn drop_unused<W: Wait>(&self, rt: &W) {
        for _ in rt.forever() {
            let unused = self.kept.lock(rt).take_unused();
            if unused.is_none() {
                return;
            }
        }
    }

    // Writes each word by what was set before.
    fn fill<W: Wait>(&self, rt: &W, words: &LoadWords) {
        if words.is_filled.load(SeqCst) {
            return;
        }
        for place in 0..words.words.len() {
            self.kept.lock(rt).fill(words, place);
        }
        words.is_filled.store(true, SeqCst);
    }
}

//! Sources of the words that walks draw: tickets of a counter; random words of a generator, or given ones. What a source may give is one
//! relation over draws, so that a walk is described by the list of its draws.
ghost use Rattle.std.specs.Prelude.{◌≡◌, ℕ, ⊤};
ghost use Rattle.lb_select_base.specs.Backends.{Member};
ghost use Rattle.lb_select_base.specs.Draws.{Draw, ticket, random, load, CoreGives, HandedGives};
ghost use Rattle.lb_select_base.specs.Loads.{load_in, IsLoadAnswer};

use crate::backend::Backend;
use crate::loads::Loads;
use crate::refusal::Refusal;
use rand_core::Rng;
use rand_pcg::Pcg64;
use std::alloc::Global;
use std::marker::Model;
use std::sync::atomic::{AtomicU64, Ordering};
use std::sync::{Mutex, Wait};

/// A source of words for walks over one selector.
pub trait WordSource {
    // Which draw can be made of a source, and which source it leaves.
    ghost gives: { Self → Draw → Self → Type 0 };

    /// Returns the next ticket: a number of a counter that all walks over the selector share.
    fn ticket(&mut self) -> u64
        ensures { gives self.old (ticket result) self.new };

    /// Returns the next random word.
    fn random(&mut self) -> u64
        ensures { gives self.old (random result) self.new };

    /// Returns the load of a backend: how busy the source says it is.
    fn load(&self, backend: &Backend) -> u64
        ensures { gives self.now (load backend.now result) self.now };
}

/// A counter from 0 that wraps at 2^64, and a generator. Its words are exactly those to come: the tickets 0, 1, 2 and so
/// on, and what the generator answers. The load of an identity is the one that was set for it last, or 0; no draw changes it.
#[derive(Drop)]
pub struct CoreWords<R: Drop = Pcg64> {
    pub tickets: u64,
    pub generator: R,
    pub loads: Loads,
}

impl<R: Rng + Drop> CoreWords<R> {
    /// Returns a source whose counter is at 0, whose random words are the generator's, and whose loads are all 0.
    pub fn new(generator: R) -> Self
        ensures tickets { result.tickets ≡ 0 }
        ensures generator { result.generator ≡ generator }
        ensures loads { (m : Member) → load_in result.loads m ≡ 0 }
    {
        CoreWords {
            tickets: 0,
            generator,
            loads: Loads::new(),
        }
    }

    /// Sets the load of a backend's identity.
    ///
    /// Refused for memory alone, and then nothing is set; the words to come stay.
    pub fn set_load(&mut self, alloc: Global, backend: &Backend, load: u64) -> Result<(), Refusal>
        ensures loads { IsLoadAnswer (load_in self.old.loads) backend.now load result (load_in self.new.loads) }
        ensures tickets { self.new.tickets ≡ self.old.tickets }
        ensures generator { self.new.generator ≡ self.old.generator }
    {
        self.loads.set(alloc, backend, load)
    }
}

impl<R: Rng + Drop> WordSource for CoreWords<R> {
    ghost gives = { CoreGives (λ w. w.tickets) (λ w. R.stream w.generator) (λ w. load_in w.loads) };

    fn ticket(&mut self) -> u64 {
        let ticket = self.tickets;
        self.tickets = ticket.wrapping_add(1);
        ticket
    }

    fn random(&mut self) -> u64 {
        self.generator.next_u64()
    }

    fn load(&self, backend: &Backend) -> u64 {
        self.loads.get(backend)
    }
}

impl<W: WordSource> WordSource for &mut W {
    ghost gives = { λ a d b. W.gives a.now d b.now };

    fn ticket(&mut self) -> u64 {
        (**self).ticket()
    }

    fn random(&mut self) -> u64 {
        (**self).random()
    }

    fn load(&self, backend: &Backend) -> u64 {
        (**self).load(backend)
    }
}

/// Words that are given: a counter that wraps at 2^64, and random words that the caller drew before.
///
/// Contracts see the next ticket and the random words that are left.
#[derive(Drop)]
pub struct HandedWords<'a> {
    tickets: u64,
    rest: &'a [u64],
}

impl<'a> Model for HandedWords<'a> {
    ghost use Rattle.lb_select_base.specs.Draws.{HandedValue};

    ghost Value = { HandedValue };

    ghost view = { λ h. record { tickets = h.tickets; words = h.rest.now } };
}

impl<'a> HandedWords<'a> {
    /// Returns a source whose next ticket is `tickets`, whose random words are these in their order, and 0 after them, and whose loads are
    /// all 0.
    pub fn new(tickets: u64, random: &'a [u64]) -> Self
        ensures { result ≡ record { tickets = tickets; words = random.now } }
    {
        HandedWords {
            tickets,
            rest: random,
        }
    }

    /// Returns the next ticket.
    pub fn tickets(&self) -> u64
        ensures { result ≡ self.now.tickets }
    {
        self.tickets
    }
}

impl<'a> WordSource for HandedWords<'a> {
    ghost gives = { HandedGives };

    fn ticket(&mut self) -> u64 {
        let ticket = self.tickets;
        self.tickets = ticket.wrapping_add(1);
        ticket
    }

    fn random(&mut self) -> u64 {
        match self.rest.split_first() {
            Some((word, rest)) => {
                self.rest = rest;
                *word
            }
            None => 0,
        }
    }

    // No load is given.
    fn load(&self, _backend: &Backend) -> u64 {
        0
    }
}

/// Words for walks on many threads: a counter from 0 that wraps at 2^64, of which each ticket takes one number, and a generator behind a
/// lock. Which walk gets which word depends on how the threads run.
#[derive(Drop)]
pub struct SharedWords {
    tickets: AtomicU64,
    generator: Mutex<Pcg64>,
}

impl SharedWords {
    /// Returns a source whose counter is at 0 and whose random words are the generator's.
    pub fn new(generator: Pcg64) -> Self {
        SharedWords {
            tickets: AtomicU64::new(0),
            generator: Mutex::new(generator),
        }
    }

    /// Borrows the source for one walk.
    ///
    /// A random word may wait, through `rt`, for a walk that draws at the same time.
    pub fn lend<'a, R>(&'a self, rt: &'a R) -> LentWords<'a, R>
        ensures words { result.words ≡ self.entry }
        ensures runtime { result.rt ≡ rt.entry }
    {
        LentWords { words: self, rt }
    }
}

/// Shared words, borrowed for one walk. Other walks draw from them too, so a draw may give any word.
#[derive(Drop)]
pub struct LentWords<'a, R> {
    words: &'a SharedWords,
    rt: &'a R,
}

impl<'a, R: Wait> WordSource for LentWords<'a, R> {
    ghost gives = { λ _ _ _. ⊤ };

    fn ticket(&mut self) -> u64 {
        self.words.tickets.fetch_add(1, Ordering::SeqCst)
    }

    fn random(&mut self) -> u64 {
        self.words.generator.lock(self.rt).next_u64()
    }

    // No load is set here.
    fn load(&self, _backend: &Backend) -> u64 {
        0
    }
}

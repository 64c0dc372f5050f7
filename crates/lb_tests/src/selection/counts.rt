//! What no clause sees, since it leaves no trace: which loads a walk reads, and of which candidates a selection asks.
//! Each is noted by the backend's weight, as one more digit of a number.
use crate::asserted::assert_same;
use crate::selection::fixtures::{selector_of, set_of_weights, words_from, words_with};
use lb_select::least::LeastConnections;
use lb_select::selection::RoundRobin;
use lb_select_base::backend::Backend;
use lb_select_base::iter::Iter;
use lb_select_base::refusal::Refusal;
use lb_select_base::select::select;
use lb_select_base::walk::BackendIter;
use lb_select_base::words::{CoreWords, WordSource};
use rand_pcg::Pcg64;
use std::alloc::Global;
use std::cell::Cell;
use std::ops::Range;
use std::sync::Arc;

/// A source of words that notes each load that is read of it.
#[derive(Drop)]
struct NotingWords {
    words: CoreWords<Pcg64>,
    read: Cell<u64>,
}

impl WordSource for NotingWords {
    ghost use Rattle.std.specs.Prelude.{⊤};

    ghost gives = { λ _ _ _. ⊤ };

    fn ticket(&mut self) -> u64 {
        self.words.ticket()
    }

    fn random(&mut self) -> u64 {
        self.words.random()
    }

    fn load(&self, backend: &Backend) -> u64 {
        note(&self.read, backend);
        self.words.load(backend)
    }
}

// Adds the weight of a backend to what was noted.
fn note(noted: &Cell<u64>, backend: &Backend) {
    let digit = backend.weight as u64;
    noted.set(noted.get().wrapping_mul(10).wrapping_add(digit));
}

// Weights with their loads, and the weights of the backends whose loads are read.
const READS: &[(&[usize], &[u64], u64)] = &[
    (&[1], &[7], 1),
    (&[2, 1], &[], 21),
    // a load that is the least, and one of a backend of weight 0
    (&[3, 0, 2], &[9, 0, 1], 32),
    (&[5, 0, 4, 0, 6], &[1, 1, 9, 9, 0], 546),
];

// What was read when a walk began, and what after more turns than it has candidates.
fn read_by_walk(
    selector: &Arc<LeastConnections>,
    words: &mut NotingWords,
) -> Result<(u64, u64), Refusal> {
    words.read.set(0);
    let mut walk = Iter::new(selector, b"k", words)?;
    let begun = words.read.get();
    for _ in 0..9u32 {
        walk.next(words);
    }
    Ok((begun, words.read.get()))
}

// What was read by a selection that accepts no candidate.
fn read_by_selection(
    alloc: Global,
    selector: &Arc<LeastConnections>,
    words: &mut NotingWords,
) -> Result<u64, Refusal> {
    words.read.set(0);
    select(alloc, selector, b"k", words, 9, &|_: &Backend| false)?;
    Ok(words.read.get())
}

// What was read by a walk and a selection over these weights with these loads; then how many tickets were drawn, which are none.
fn reads(alloc: Global, weights: &[usize], loads: &[u64]) -> Result<[u64; 4], Refusal> {
    let set = set_of_weights(alloc, weights)?;
    let selector: Arc<LeastConnections> = selector_of(alloc, &set)?;
    let mut words = NotingWords {
        words: words_with(alloc, &set, loads)?,
        read: Cell::new(0),
    };
    let (begun, walked) = read_by_walk(&selector, &mut words)?;
    let selected = read_by_selection(alloc, &selector, &mut words)?;
    Ok([begun, walked, selected, words.words.tickets])
}

#[test]
fn each_load_is_read_once_as_a_walk_begins(rt: HostRuntime) {
    for (weights, loads, wanted) in READS {
        let found = reads(rt.alloc(), weights, loads);
        assert_same(&rt, &found, &Ok([*wanted, *wanted, *wanted, 0]), loads);
    }
}

// The first ticket, the limit, the weights that are accepted, and the weights of those that are asked about. The candidates of
// ticket 0 are of weights 1, 2, 3, 1 and so on, those of ticket 4 of 3, 3, 1, 2 and so on.
const ASKS: &[(u64, usize, Range<usize>, u64)] = &[
    // none after the one that is accepted
    (0, 9, 0..9, 1),
    (0, 9, 2..3, 12),
    (4, 9, 1..2, 31),
    // repeats are not asked about
    (0, 9, 0..0, 123),
    (4, 4, 0..0, 312),
    // nor is the candidate past the limit, which is drawn
    (0, 2, 0..0, 12),
    (4, 3, 0..0, 31),
    (4, 1, 0..0, 3),
    (0, 0, 0..9, 0),
];

// Of which weights a selection asks.
fn asked(
    alloc: Global,
    selector: &Arc<RoundRobin>,
    ticket: u64,
    limit: usize,
    accepted: &Range<usize>,
) -> Result<u64, Refusal> {
    let asked = Cell::new(0);
    let accept = |backend: &Backend| -> bool {
        note(&asked, backend);
        accepted.contains(&backend.weight)
    };
    select(
        alloc,
        selector,
        b"k",
        &mut words_from(ticket),
        limit,
        &accept,
    )?;
    Ok(asked.get())
}

// A selector in turn over weights 1, 2 and 3.
fn three_weights(alloc: Global) -> Result<Arc<RoundRobin>, Refusal> {
    let set = set_of_weights(alloc, &[1, 2, 3])?;
    selector_of(alloc, &set)
}

#[test]
fn each_candidate_is_asked_about_once(rt: HostRuntime) {
    let selector = three_weights(rt.alloc()).expect(&rt, "refused");
    for (ticket, limit, accepted, wanted) in ASKS {
        let found = asked(rt.alloc(), &selector, *ticket, *limit, accepted);
        assert_same(&rt, &found, &Ok(*wanted), &(*ticket, *limit));
    }
}

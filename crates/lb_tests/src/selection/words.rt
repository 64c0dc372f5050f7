//! Random words that select, and the words that threads share, as one thread draws them.
use crate::selection::fixtures::{selector_of, set_of, words_from};
use lb_select::selection::Random;
use lb_select_base::backend::Backend;
use lb_select_base::iter::Iter;
use lb_select_base::refusal::Refusal;
use lb_select_base::select::select;
use lb_select_base::walk::BackendIter;
use lb_select_base::words::{CoreWords, SharedWords, WordSource};
use rand_pcg::Pcg64;
use std::alloc::Global;
use std::sync::Arc;

// A selector at random over three backends of one weight.
fn random_selector(alloc: Global) -> Result<Arc<Random>, Refusal> {
    let set = set_of(
        alloc,
        &[("1.1.1.1:80", 1), ("1.0.0.1:80", 1), ("1.0.0.255:80", 1)],
    )?;
    selector_of(alloc, &set)
}

// Whether these backends of weight 1 are selected one after another.
fn select_all<W: WordSource>(alloc: Global, words: &mut W, all: &[&str]) -> Result<bool, Refusal> {
    let selector = random_selector(alloc)?;
    let mut right = true;
    for wanted in all {
        right = right && selects(alloc, &selector, words, wanted)?;
    }
    Ok(right)
}

// Whether the backend of weight 1 at that address is selected.
fn selects<W: WordSource>(
    alloc: Global,
    selector: &Arc<Random>,
    words: &mut W,
    wanted: &str,
) -> Result<bool, Refusal> {
    let wanted = Backend::new(alloc, wanted)?;
    let found = select(alloc, selector, b"k", words, 3, &|_: &Backend| true)?;
    Ok(found.is_some_and(|backend| backend == wanted))
}

// How many of ten thousand walks begin at the backend of weight 8, which stands between two of weight 1.
fn heavy_ones<W: WordSource>(alloc: Global, words: &mut W) -> Result<u32, Refusal> {
    let set = set_of(
        alloc,
        &[("1.1.1.1:80", 1), ("1.0.0.1:80", 8), ("1.0.0.255:80", 1)],
    )?;
    let selector: Arc<Random> = selector_of(alloc, &set)?;
    let mut heavy = 0u32;
    for _ in 0..10_000u32 {
        let mut walk = Iter::new(&selector, b"test", words)?;
        if walk.next(words).is_some_and(|backend| backend.weight == 8) {
            heavy = heavy.wrapping_add(1);
        }
    }
    Ok(heavy)
}

// The words are those of the generator's published algorithm, by their rest modulo 3: 0 2 2 0, and 2 1 1 0.
// Of ten thousand a backend gets about its share of the weights.
#[test]
fn random_words_select(rt: HostRuntime) {
    let alloc = rt.alloc();
    let shared = SharedWords::new(Pcg64::new(3, 4));
    let first = ["1.0.0.1:80", "1.1.1.1:80", "1.1.1.1:80", "1.0.0.1:80"];
    let second = ["1.1.1.1:80", "1.0.0.255:80", "1.0.0.255:80", "1.0.0.1:80"];
    let told = [
        select_all(alloc, &mut words_from(0), &first) == Ok(true),
        select_all(alloc, &mut shared.lend(&rt), &second) == Ok(true),
        heavy_ones(alloc, &mut shared.lend(&rt)).is_ok_and(|heavy| (7000..=9000).contains(&heavy)),
    ];
    assert_eq!(rt; told, [true; 3]);
}

// No contract tells what a lock and a shared counter contain; of one thread alone they are the counter and the generator.
#[test]
fn shared_words_are_the_core_words_of_one_thread(rt: HostRuntime) {
    let shared = SharedWords::new(Pcg64::new(3, 4));
    let mut core = CoreWords::new(Pcg64::new(3, 4));
    let mut same = true;
    for _ in 0..3u32 {
        let mut lent = shared.lend(&rt);
        let words = [lent.ticket(), lent.random(), lent.random()];
        same &= words == [core.ticket(), core.random(), core.random()];
    }
    assert_eq!(rt; (same, shared.lend(&rt).ticket()), (true, 3));
}

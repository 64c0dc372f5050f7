//! The unique walk over candidates with repeats: a repeat is a step too, and the candidate past the limit is drawn, not given.
//! The lists are given, so the answers are counted out by hand.
use crate::asserted::assert_row;
use crate::selection::fixtures::{is_text, push_address, selector_of, set_of, words_from};
use crate::selection::list_iterator::ListIterator;
use lb_select::selection::RoundRobin;
use lb_select_base::backend::Backend;
use lb_select_base::iter::Iter;
use lb_select_base::refusal::Refusal;
use lb_select_base::unique::UniqueIterator;
use lb_select_base::walk::BackendIter;
use lb_select_base::words::CoreWords;
use rand_pcg::Pcg64;
use std::alloc::Global;
use std::sync::Arc;

const B1: &str = "1.1.1.1:80";

const B2: &str = "1.0.0.1:80";

const B3: &str = "1.0.0.255:80";

// The addresses of a list, the limit, the number of turns, and the turns that are wanted.
const LISTS: &[(&[&str], usize, usize, &str)] = &[
    (&[B1, B1, B2, B2, B2, B3], 4, 3, "1.1.1.1:80 1.0.0.1:80 - "),
    (&[B1, B2, B3], 1, 2, "1.1.1.1:80 - "),
    (&[B1, B1, B2], 9, 4, "1.1.1.1:80 1.0.0.1:80 - - "),
];

// The addresses of the first `count` turns of a unique walk, with a space after each and `-` for none.
fn turns<I: BackendIter>(
    alloc: Global,
    walk: I,
    words: &mut CoreWords<Pcg64>,
    limit: usize,
    count: usize,
) -> Result<String, Refusal> {
    let mut unique = UniqueIterator::new(alloc, walk, limit);
    let mut text = String::new(alloc);
    push_turns(alloc, &mut text, &mut unique, words, count)?;
    Ok(text)
}

fn push_turns<I: BackendIter>(
    alloc: Global,
    text: &mut String,
    unique: &mut UniqueIterator<I>,
    words: &mut CoreWords<Pcg64>,
    count: usize,
) -> Result<(), Refusal> {
    for _ in 0..count {
        let found = unique.get_next(words)?;
        push_address(alloc, text, found.as_ref())?;
    }
    Ok(())
}

// A walk over the backends at these addresses.
fn list(alloc: Global, addresses: &[&str]) -> Result<ListIterator, Refusal> {
    let mut backends = Vec::new(alloc);
    for addr in addresses {
        backends.push(Backend::new(alloc, addr)?)?;
    }
    Ok(ListIterator::new(backends))
}

// The turns over the backends at these addresses.
fn list_turns(
    alloc: Global,
    addresses: &[&str],
    limit: usize,
    count: usize,
) -> Result<String, Refusal> {
    let walk = list(alloc, addresses)?;
    turns(alloc, walk, &mut words_from(0), limit, count)
}

// The turns over a selector in turn, of which every second candidate repeats.
fn repeated_turns(alloc: Global) -> Result<String, Refusal> {
    let set = set_of(alloc, &[("1.0.0.1:80", 5), ("1.0.0.2:80", 1)])?;
    let selector: Arc<RoundRobin> = selector_of(alloc, &set)?;
    let mut words = words_from(0);
    let walk = Iter::new(&selector, b"", &mut words)?;
    turns(alloc, walk, &mut words, 4, 3)
}

#[test]
fn unique_walks(rt: HostRuntime) {
    let alloc = rt.alloc();
    for (addresses, limit, count, wanted) in LISTS {
        let text = list_turns(alloc, addresses, *limit, *count);
        assert_row(&rt, is_text(&text, wanted), wanted);
    }
    assert!(rt; is_text(&repeated_turns(alloc), "1.0.0.1:80 1.0.0.2:80 - "));
}

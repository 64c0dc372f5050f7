//! A walk by least connections while loads change. Which order loads give is shown by scripts.
use crate::selection::fixtures::{
    is_text, numbered, push_walk, selector_of, set_of_weights, words_with,
};
use lb_select::least::LeastConnections;
use lb_select_base::iter::Iter;
use lb_select_base::refusal::Refusal;
use lb_select_base::words::CoreWords;
use rand_pcg::Pcg64;
use std::alloc::Global;
use std::sync::Arc;

// A walk over weights 1, 2 and 3 with loads that change after its first candidate.
fn walk_as_loads_change(alloc: Global) -> Result<String, Refusal> {
    let set = set_of_weights(alloc, &[1, 2, 3])?;
    let selector: Arc<LeastConnections> = selector_of(alloc, &set)?;
    let mut words = words_with(alloc, &set, &[9, 0, 0])?;
    let mut text = String::new(alloc);
    push_as_loads_change(alloc, &mut text, &selector, &mut words)?;
    Ok(text)
}

// The first candidate; then, with other loads, the others, two more turns, and a walk of its own.
fn push_as_loads_change(
    alloc: Global,
    text: &mut String,
    selector: &Arc<LeastConnections>,
    words: &mut CoreWords<Pcg64>,
) -> Result<(), Refusal> {
    let mut walk = Iter::new(selector, b"", words)?;
    push_walk(alloc, text, &mut walk, words, 1)?;
    words.set_load(alloc, &numbered(alloc, 2, 3), u64::MAX)?;
    words.set_load(alloc, &numbered(alloc, 0, 1), 0)?;
    push_walk(alloc, text, &mut walk, words, 4)?;
    let mut walk = Iter::new(selector, b"k", words)?;
    push_walk(alloc, text, &mut walk, words, 3)
}

// A walk keeps to the loads at its beginning, and after the last candidate it is over for good.
#[test]
fn loads_are_read_once(rt: HostRuntime) {
    assert!(rt;
        is_text(
            &walk_as_loads_change(rt.alloc()),
            "0.0.0.1:80 0.0.0.2:80 0.0.0.0:80 - - 0.0.0.0:80 0.0.0.1:80 0.0.0.2:80 "
        )
    );
}

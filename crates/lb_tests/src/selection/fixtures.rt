//! What the tests make again and again: sets of backends, sources of words, and what walks and selections give.
use lb_select_base::backend::{Backend, InetAddr, SocketAddr};
use lb_select_base::iter::Iter;
use lb_select_base::refusal::Refusal;
use lb_select_base::walk::{BackendIter, BackendSelection};
use lb_select_base::words::{CoreWords, WordSource};
use rand_pcg::Pcg64;
use std::alloc::Global;
use std::collections::{BTreeMap, BTreeSet};
use std::sync::Arc;

/// The set of these addresses with their weights.
pub(crate) fn set_of(
    alloc: Global,
    members: &[(&str, usize)],
) -> Result<BTreeSet<Backend>, Refusal> {
    let mut set = BTreeSet::new(alloc);
    for (addr, weight) in members {
        set.insert(Backend::new_with_weight(alloc, addr, *weight)?)?;
    }
    Ok(set)
}

/// The backend of this number, so that numbers and identities have one order.
pub(crate) fn numbered(alloc: Global, number: u32, weight: usize) -> Backend {
    Backend {
        addr: SocketAddr::Inet(InetAddr::V4(number.to_be_bytes(), 80)),
        weight,
        ext: BTreeMap::new(alloc),
    }
}

/// The set of backends of these weights, numbered from 0 on.
pub(crate) fn set_of_weights(
    alloc: Global,
    weights: &[usize],
) -> Result<BTreeSet<Backend>, Refusal> {
    let mut set = BTreeSet::new(alloc);
    let mut number = 0u32;
    for weight in weights {
        set.insert(numbered(alloc, number, *weight))?;
        number = number.wrapping_add(1);
    }
    Ok(set)
}

/// A source of words whose first ticket is this one.
pub(crate) fn words_from(ticket: u64) -> CoreWords<Pcg64> {
    let mut words = CoreWords::new(Pcg64::new(1, 2));
    words.tickets = ticket;
    words
}

/// A source of words that tells these loads of a set's backends, in their order.
pub(crate) fn words_with(
    alloc: Global,
    set: &BTreeSet<Backend>,
    loads: &[u64],
) -> Result<CoreWords<Pcg64>, Refusal> {
    let mut words = words_from(0);
    for (backend, load) in set.iter().zip(loads) {
        words.set_load(alloc, backend, *load)?;
    }
    Ok(words)
}

/// A selector of a set.
pub(crate) fn selector_of<S: BackendSelection>(
    alloc: Global,
    set: &BTreeSet<Backend>,
) -> Result<Arc<S>, Refusal> {
    let selector = S::build(alloc, set)?;
    Ok(Arc::new(alloc, selector)?)
}

/// The addresses of the first candidates of walks that come one after another, as many of each walk as its count says, with a
/// space after each and `-` for what doesn't come.
pub(crate) fn walked<S: BackendSelection>(
    alloc: Global,
    set: &BTreeSet<Backend>,
    words: &mut CoreWords<Pcg64>,
    key: &[u8],
    counts: &[usize],
) -> Result<String, Refusal> {
    let selector: Arc<S> = selector_of(alloc, set)?;
    let mut text = String::new(alloc);
    push_walks(alloc, &mut text, &selector, words, key, counts)?;
    Ok(text)
}

fn push_walks<S: BackendSelection>(
    alloc: Global,
    text: &mut String,
    selector: &Arc<S>,
    words: &mut CoreWords<Pcg64>,
    key: &[u8],
    counts: &[usize],
) -> Result<(), Refusal> {
    for count in counts {
        let mut walk = Iter::new(selector, key, words)?;
        push_walk(alloc, text, &mut walk, words, *count)?;
    }
    Ok(())
}

/// Appends the addresses of the next `count` candidates of a walk.
pub(crate) fn push_walk<I: BackendIter, W: WordSource>(
    alloc: Global,
    text: &mut String,
    walk: &mut I,
    words: &mut W,
    count: usize,
) -> Result<(), Refusal> {
    for _ in 0..count {
        push_address(alloc, text, walk.next(words))?;
    }
    Ok(())
}

/// Appends the address of a backend and a space, or `- ` for none.
pub(crate) fn push_address(
    alloc: Global,
    text: &mut String,
    backend: Option<&Backend>,
) -> Result<(), Refusal> {
    match backend {
        Some(backend) => {
            let addr = &backend.addr;
            let name = format!(in alloc; "{addr} ")?;
            text.push_str(name.as_str())?;
        }
        None => text.push_str("- ")?,
    }
    Ok(())
}

/// Whether this text came.
pub(crate) fn is_text(found: &Result<String, Refusal>, wanted: &str) -> bool {
    match found {
        Ok(text) => text.as_str() == wanted,
        Err(_) => false,
    }
}

//! One selection: the first backend of a walk that is accepted, each looked at once, up to a limit of candidates.
//! It holds for every selector, every source of words and every function that accepts.
ghost use Rattle.std.specs.Fn.{FnReturnsAt};
ghost use Rattle.std.specs.Arc.{arc_value};
ghost use Rattle.lb_select_base.specs.Backends.{same_member};
ghost use Rattle.lb_select_base.specs.Copies.{AsCopied, IsCopied};
ghost use Rattle.lb_select_base.specs.Selections.{Selects, walks_of};

use crate::backend::Backend;
use crate::refusal::Refusal;
use crate::seen::SeenBackends;
use crate::walk::BackendSelection;
use crate::words::WordSource;
use std::alloc::Global;
use std::sync::Arc;

/// Returns the first accepted of the distinct backends among the first `limit` candidates for `key`, or `None`.
///
/// The candidates are those of the selector's walk. `accept` is asked once of each, in their order, until it returns true. Refused for
/// memory alone.
pub fn select<S: BackendSelection, W: WordSource, F: Fn(&Backend) -> bool>(
    alloc: Global,
    selector: &Arc<S>,
    key: &[u8],
    words: &mut W,
    limit: usize,
    accept: &F,
) -> Result<Option<Backend>, Refusal>
    requires { F.IsAlwaysCallable accept.now }
    ensures { Selects same_member (λ b r. FnReturnsAt F.Fn accept.now b r) limit W.gives
        (walks_of S.BackendSelection (arc_value selector.now) key.now) words.old result words.new }
{
    let of: &S = &**selector;
    let found = find(alloc, of, key, words, limit, accept);
    copied_answer(alloc, found)
}

/// Returns what `select` returns, in place: `copied_answer` gives the copy.
///
/// Refused for memory alone.
pub fn find<'s, S: BackendSelection, W: WordSource, F: Fn(&Backend) -> bool>(
    alloc: Global,
    selector: &'s S,
    key: &[u8],
    words: &mut W,
    limit: usize,
    accept: &F,
) -> Result<Option<&'s Backend>, Refusal>
    requires { F.IsAlwaysCallable accept.now }
    ensures { AsCopied (λ a. Selects same_member (λ b r. FnReturnsAt F.Fn accept.now b r) limit W.gives
        (walks_of S.BackendSelection selector.now key.now) words.old a words.new) result }
{
    // The walk borrows the selector: to count its `Arc` would be a write to a word that all threads share.
    let mut walk = selector.start(key, words)?;
    let mut seen = SeenBackends::new(alloc);
    for _ in 0..limit {
        let Some(candidate) = selector.step(&mut walk, words) else {
            return Ok(None);
        };
        if !seen.is_empty() && seen.contains(candidate) {
            continue;
        }
        if accept(candidate) {
            return Ok(Some(candidate));
        }
        seen.remember(candidate)?;
    }
    // The candidate past the limit is drawn too, and not looked at.
    let _past = selector.step(&mut walk, words);
    Ok(None)
}

/// Returns a copy of what a selection found in place.
///
/// # Errors
///
/// Those of the selection, and `OutOfMemory` where memory for the copy is refused.
#[inline]
pub fn copied_answer(
    alloc: Global,
    found: Result<Option<&Backend>, Refusal>,
) -> Result<Option<Backend>, Refusal>
    ensures { IsCopied found.entry result }
{
    match found {
        Ok(Some(backend)) => Ok(Some(backend.copied(alloc)?)),
        Ok(None) => Ok(None),
        Err(refusal) => Err(refusal),
    }
}

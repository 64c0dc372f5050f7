//! The unique walk: the candidates of a walk without repeats, up to a limit on how many candidates are looked at. Repeats are found by
//! backend identity, and count as steps all the same.
ghost use Rattle.std.specs.Prelude.{◌≡◌, false};
ghost use Rattle.lb_select_base.specs.Backends.{Member};
ghost use Rattle.lb_select_base.specs.Unique.{has_seen, IsTurn};

use crate::backend::Backend;
use crate::refusal::Refusal;
use crate::seen::SeenBackends;
use crate::walk::BackendIter;
use crate::words::WordSource;
use std::alloc::Global;

/// A walk whose candidates come once each: those of an identity that came before are skipped. It looks at no more than
/// `max_iterations` candidates, skipped ones counted.
#[derive(Drop)]
pub struct UniqueIterator<I> {
    iter: I,
    max_iterations: usize,
    steps: usize,
    seen: SeenBackends,
}

impl<I: BackendIter> UniqueIterator<I> {
    /// Returns the unique walk over `iter` that looks at no more than `max_iterations` candidates. It takes no memory yet.
    pub fn new(alloc: Global, iter: I, max_iterations: usize) -> Self
        ensures iter { result.iter ≡ iter }
        ensures limit { result.max_iterations ≡ max_iterations }
        ensures steps { result.steps ≡ 0 }
        ensures seen { (q : Member) → has_seen result q ≡ false }
    {
        UniqueIterator {
            iter,
            max_iterations,
            steps: 0,
            seen: SeenBackends::new(alloc),
        }
    }

    /// Returns the next candidate of an identity that did not come before, or `None` where the walk ended or the limit is met.
    ///
    /// The candidate that would pass the limit is drawn too, and not looked at. Refused for memory alone: what was drawn and looked at
    /// then stays counted, nothing else changes, and the next call goes on from there.
    pub fn get_next<W: WordSource>(&mut self, words: &mut W) -> Result<Option<Backend>, Refusal>
        ensures { IsTurn W.gives I.walk self.old words.old result self.new words.new }
    {
        loop {
            let Some(candidate) = self.iter.next(words) else {
                return Ok(None);
            };
            if self.steps >= self.max_iterations {
                return Ok(None);
            }
            self.steps += 1;
            if !self.seen.contains(candidate) {
                let found = candidate.clone()?;
                self.seen.remember(candidate)?;
                return Ok(Some(found));
            }
        }
    }
}

//! A walk that holds its selector, for callers that keep it while others renew or drop theirs.
ghost use Rattle.std.specs.Arc.{arc_value};
ghost use Rattle.lb_select_base.specs.Held.{Held};
ghost use Rattle.lb_select_base.specs.Selections.{walks_of};
ghost use Rattle.lb_select_base.specs.Walks.{Begins};

use crate::backend::Backend;
use crate::refusal::Refusal;
use crate::walk::{BackendIter, BackendSelection};
use crate::words::WordSource;
use std::marker::Model;
use std::sync::Arc;

/// A walk over the candidates for a key, which holds its selector.
#[derive(Drop)]
pub struct Iter<S: BackendSelection> {
    selector: Arc<S>,
    walk: S::Walk,
}

impl<S: BackendSelection> Model for Iter<S> {
    ghost use Rattle.std.specs.Arc.{arc_value};
    ghost use Rattle.lb_select_base.specs.Held.{Held};

    ghost Value = { Held S S.Walk };

    ghost view = { λ i. record { selector = arc_value i.selector; walk = i.walk } };

    ghost invariant = { λ i. S.fits (arc_value i.selector) i.walk };
}

impl<S: BackendSelection> Iter<S> {
    /// Returns a walk over this selector's candidates for `key`; it is one more owner of the selector.
    ///
    /// Refused for memory alone, and then before any word is drawn.
    pub fn new<W: WordSource>(of: &Arc<S>, key: &[u8], words: &mut W) -> Result<Iter<S>, Refusal>
        ensures { Begins W.gives (λ i. S.rest i.selector i.walk)
            (walks_of S.BackendSelection (arc_value of.now) key.now) words.old result words.new }
    {
        let selector = of.clone()?;
        let walk = selector.start(key, words)?;
        Ok(Iter { selector, walk })
    }
}

impl<S: BackendSelection> BackendIter for Iter<S> {
    ghost walk = { λ i. S.rest i.selector i.walk };

    ghost starts = { λ i. S.rest_starts i.selector i.walk };

    ghost ends = { λ i. S.rest_ends i.selector i.walk };

    fn next<W: WordSource>(&mut self, words: &mut W) -> Option<&Backend> {
        self.selector.step(&mut self.walk, words)
    }
}

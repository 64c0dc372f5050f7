//! Laws of a unique walk from its beginning to its end, over the definitions alone. Each function does nothing at run time; its contract
//! is the law.
ghost use Rattle.std.specs.Prelude.{ℕ, List};
ghost use Rattle.lb_select_base.specs.Selections.{walks_of};
ghost use Rattle.lb_select.specs.UniqueWalks.{TurnsAreOneWalk};

use lb_select_base::iter::Iter;
use lb_select_base::walk::{BackendIter, BackendSelection};
use lb_select_base::words::WordSource;

/// The turns of a new `UniqueIterator` up to the first `None`, none of them refused, find the distinct of the first `max_iterations`
/// candidates of the walk that it was given, and draw nothing else.
pub fn unique_walk_law<I: BackendIter, W: WordSource>()
    ensures { (i : I) → TurnsAreOneWalk W.gives I.walk (I.walk i) }
{}

/// Such turns over the walk that a selector gave for a key find the distinct of the first `max_iterations` candidates of one of the
/// selector's walks, and what `Iter::new` and the turns drew are that walk's draws.
pub fn unique_selection_law<S: BackendSelection, W: WordSource>()
    ensures { (s : S) (key : List ℕ) → TurnsAreOneWalk W.gives ⟦<Iter<S> as BackendIter>⟧.walk
        (walks_of S.BackendSelection s key) }
{}

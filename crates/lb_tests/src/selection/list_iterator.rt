//! A walk over a list of backends that is given, for walks with repeats at chosen places.
//! It draws nothing, and ends after the last.
ghost use Rattle.std.specs.Prelude.{◌≡◌, drop, option_and_then, slice_get};
ghost use Rattle.std.specs.Option.{option_copied};
ghost use Rattle.lb_tests.specs.ListWalks.{IsListWalk, IsListStep, list_starts, list_ends};

use lb_select_base::backend::Backend;
use lb_select_base::walk::BackendIter;
use lb_select_base::words::WordSource;

/// What is left of a list of backends.
#[derive(Drop)]
pub(crate) struct ListIterator {
    backends: Vec<Backend>,
    at: usize,
}

impl ListIterator {
    pub(crate) fn new(backends: Vec<Backend>) -> ListIterator {
        ListIterator { backends, at: 0 }
    }

    // Goes one backend on: the index of that backend, or `None` after the last.
    fn advance(&mut self) -> Option<usize>
        ensures step { IsListStep self.old.backends.items self.old.at
            (option_and_then (slice_get self.old.backends.items) result) self.new.at }
        ensures backends { self.new.backends ≡ self.old.backends }
    {
        let index = self.at;
        if index >= self.backends.as_slice().len() {
            return None;
        }
        self.at = index + 1;
        Some(index)
    }

    // The backend of that index.
    fn get(&self, index: Option<usize>) -> Option<&Backend>
        ensures { option_copied result ≡ option_and_then (slice_get self.now.backends.items) index }
    {
        self.backends.get(index?)
    }
}

impl BackendIter for ListIterator {
    ghost walk = { λ i. IsListWalk (drop i.at i.backends.items) };

    ghost starts = { λ i. list_starts (drop i.at i.backends.items) };

    ghost ends = { λ i. list_ends (drop i.at i.backends.items) };

    fn next<W: WordSource>(&mut self, _words: &mut W) -> Option<&Backend> {
        let index = self.advance();
        self.get(index)
    }
}

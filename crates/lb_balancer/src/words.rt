//! The words of one walk in a balancer that threads share: those of its selector, with the loads that are set at the balancer.
use lb_select_base::backend::Backend;
use lb_select_base::words::{LentWords, WordSource};
use lb_threads_core::generators::SharedGenerator;
use lb_threads_core::loads::{LoadWords, SharedLoads};
use std::sync::Wait;

// The words of a selector with the loads of its balancer, borrowed for one walk. Other threads draw and set them too.
#[derive(Drop)]
pub(crate) struct LoadedWords<'a, R> {
    pub(crate) words: LentWords<'a, R>,
    // Where random words are from, if not from the selector's words.
    pub(crate) generator: Option<&'a SharedGenerator>,
    pub(crate) loads: &'a SharedLoads,
    // The words for the loads of the members.
    pub(crate) load_words: Option<&'a LoadWords>,
    pub(crate) rt: &'a R,
}

impl<'a, R: Wait> WordSource for LoadedWords<'a, R> {
    ghost use Rattle.std.specs.Prelude.{⊤};

    ghost gives = { λ _ _ _. ⊤ };

    fn ticket(&mut self) -> u64 {
        self.words.ticket()
    }

    fn random(&mut self) -> u64 {
        match self.generator {
            Some(generator) => generator.random(),
            None => self.words.random(),
        }
    }

    fn load(&self, backend: &Backend) -> u64 {
        self.loads.get(self.rt, self.load_words, backend)
    }
}

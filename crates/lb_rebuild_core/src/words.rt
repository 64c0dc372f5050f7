//! Words that are given for one selection, with a count of how many of them were drawn, and the loads that it borrows. A slot keeps the
//! counter of tickets between selections; the count begins anew.
ghost use Rattle.std.specs.Prelude.{◌≡◌};

use lb_select_base::backend::Backend;
use lb_select_base::loads::Loads;
use lb_select_base::words::{HandedWords, WordSource};
use std::marker::Model;

// Given words, how many were drawn, and loads.
#[derive(Drop)]
pub(crate) struct DrawnWords<'a> {
    words: HandedWords<'a>,
    drawn: u64,
    loads: &'a Loads,
}

impl<'a> Model for DrawnWords<'a> {
    ghost use Rattle.lb_rebuild_core.specs.Drawn.{LentValue};

    ghost Value = { LentValue };

    ghost view = { λ d. record { source = record { words = d.words; drawn = d.drawn }; loads = d.loads.now } };
}

impl<'a> DrawnWords<'a> {
    // A source from which no word was drawn, whose next ticket is `tickets`, and whose random words and loads are these.
    pub(crate) fn new(tickets: u64, random: &'a [u64], loads: &'a Loads) -> Self
        ensures { result ≡ record {
          source = record { words = record { tickets = tickets; words = random.now }; drawn = 0 };
          loads = loads.now;
        } }
    {
        DrawnWords {
            words: HandedWords::new(tickets, random),
            drawn: 0,
            loads,
        }
    }

    // The next ticket.
    pub(crate) fn tickets(&self) -> u64
        ensures { result ≡ self.now.source.words.tickets }
    {
        self.words.tickets()
    }

    // How many words were drawn, up to 18446744073709551615.
    pub(crate) fn drawn(&self) -> u64
        ensures { result ≡ self.now.source.drawn }
    {
        self.drawn
    }
}

impl<'a> WordSource for DrawnWords<'a> {
    ghost use Rattle.lb_rebuild_core.specs.Drawn.{LentGives};

    ghost gives = { LentGives };

    fn ticket(&mut self) -> u64 {
        self.drawn = self.drawn.saturating_add(1);
        self.words.ticket()
    }

    fn random(&mut self) -> u64 {
        self.drawn = self.drawn.saturating_add(1);
        self.words.random()
    }

    fn load(&self, backend: &Backend) -> u64 {
        self.loads.get(backend)
    }
}

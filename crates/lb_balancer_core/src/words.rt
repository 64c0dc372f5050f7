//! The words of one reader: what a walk draws is drawn through the port, for the reader.
ghost use Rattle.std.specs.Prelude.{◌≡◌};

use crate::port::SelectPort;
use lb_rebuild_core::retired::Reader;
use lb_select_base::backend::Backend;
use lb_select_base::walk::BackendSelection;
use lb_select_base::words::WordSource;

// A port, borrowed for one reader.
#[derive(Drop)]
pub(crate) struct ReaderWords<'p, 'r, S: BackendSelection, P> {
    pub(crate) port: &'p mut P,
    pub(crate) reader: &'r Reader<S>,
}

impl<'p, 'r, S: BackendSelection, P: SelectPort<S>> WordSource for ReaderWords<'p, 'r, S, P> {
    // The reader stays the same, and so does the place where the port is.
    ghost gives = { λ a d b. (b.reader.now ≡ a.reader.now) × (b.port.ghost_name ≡ a.port.ghost_name)
        × P.draws a.port.now a.reader.now d b.port.now };

    fn ticket(&mut self) -> u64 {
        self.port.ticket(self.reader)
    }

    fn random(&mut self) -> u64 {
        self.port.random(self.reader)
    }

    fn load(&self, backend: &Backend) -> u64 {
        self.port.load(self.reader, backend)
    }
}

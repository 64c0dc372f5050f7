//! The runtime's own clock as a source of moments.

use lb_select_base::moments::MomentSource;
use std::time::Clock;

/// The runtime's monotonic clock. A reading that fails returns the last moment that was read.
#[derive(Clone, Copy)]
pub struct RuntimeClock<W> {
    rt: W,
    last: u128,
}

impl<W: Clock> RuntimeClock<W> {
    /// Returns the clock of this runtime.
    pub fn new(rt: W) -> RuntimeClock<W> {
        RuntimeClock { rt, last: 0 }
    }
}

impl<W: Clock> MomentSource for RuntimeClock<W> {
    ghost reads = { λ _ _ _. Unit {0} };

    fn now(&mut self) -> u128 {
        if let Ok(since) = self.rt.monotonic() {
            self.last = since.as_nanos();
        }
        self.last
    }
}

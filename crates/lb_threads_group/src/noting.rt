//! A clock that notes its first and its last reading.
ghost use Rattle.std.specs.Prelude.{◌≡◌};

use lb_balancer_core::timings::UpdateTimings;
use lb_select_base::moments::MomentSource;

/// A clock that is borrowed, and what was read of it. Contracts of its user see the borrowed clock.
#[derive(Drop)]
pub(crate) struct Noting<'c, K> {
    pub(crate) clock: &'c mut K,
    pub(crate) first: Option<u128>,
    pub(crate) last: u128,
}

impl<'c, K> Noting<'c, K> {
    // The timings of an update from the first reading to the last one; 0 before the first.
    pub(crate) fn timings(&self) -> UpdateTimings {
        let first = self.first.unwrap_or(self.last);
        UpdateTimings::without_build(first, self.last)
    }
}

impl<'c, K: MomentSource> MomentSource for Noting<'c, K> {
    ghost use Rattle.std.specs.Prelude.{◌≡◌};

    ghost reads = { λ a m b. K.reads a.clock.now m b.clock.now × (b.clock.ghost_name ≡ a.clock.ghost_name) };

    fn now(&mut self) -> u128 {
        let moment = self.clock.now();
        if self.first.is_none() {
            self.first = Some(moment);
        }
        self.last = moment;
        moment
    }
}

//! Clocks that are read at the end of a build.
ghost use Rattle.std.specs.Prelude.{ℕ};

use lb_select_base::moments::MomentSource;

/// A clock that says when something was built. A reading borrows what was built, so none can be made before.
pub trait EndSource<S> {
    // Which moment a reading may return, and which clock it leaves.
    ghost ends: { Self → ℕ → Self → Type 0 };

    /// Returns the moment now, in nanoseconds, at which this is built.
    fn end_of(&mut self, built: &S) -> u128
        ensures { ends self.old result self.new };
}

impl<S, K: MomentSource> EndSource<S> for K {
    ghost ends = { K.reads };

    fn end_of(&mut self, _built: &S) -> u128 {
        self.now()
    }
}

/// A clock that always returns this moment.
#[derive(Clone, Copy, Debug, PartialEq, Eq)]
pub struct FixedMoment {
    pub moment: u128,
}

impl MomentSource for FixedMoment {
    ghost use Rattle.std.specs.Prelude.{◌≡◌};

    ghost reads = { λ clock moment after. (moment ≡ clock.moment) × (after ≡ clock) };

    fn now(&mut self) -> u128 {
        self.moment
    }
}

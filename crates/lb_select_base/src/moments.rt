//! Sources of moments: a clock is any type that returns a moment at each reading.
ghost use Rattle.std.specs.Prelude.{ℕ};

/// A clock that is read by a call. What it may return is one relation over readings.
pub trait MomentSource {
    // Which moment a reading may return, and which clock it leaves.
    ghost reads: { Self → ℕ → Self → Type 0 };

    /// Returns the moment now, in nanoseconds.
    fn now(&mut self) -> u128
        ensures { reads self.old result self.new };
}

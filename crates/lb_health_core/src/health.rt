//! The health of one cell: a state, and a counter of the verdicts in a row that were against it.
//! Which verdicts reach it, and with which threshold, is the caller's.
ghost use Rattle.std.specs.Prelude.{◌≡◌, ◌≢◌, ◌↔◌, List, [], ◌∷◌, Bool, true, IsTrue};
ghost use Rattle.lb_health_core.specs.Verdicts.{Verdict, IsHealthAfter};

use std::marker::Model;

/// Whether a backend is healthy, and how many verdicts in a row said otherwise.
#[derive(Clone, Copy, Debug)]
pub struct Health {
    healthy: bool,
    against: usize,
}

impl Model for Health {
    ghost use Rattle.std.specs.Prelude.{◌+◌, ◌<◌, ◌^◌};
    ghost use Rattle.lb_health_core.specs.Verdicts.{HealthValue};

    ghost Value = { HealthValue };

    ghost view = { λ h. record { healthy = h.healthy; against = h.against } };

    ghost invariant = { λ h. h.against + 1 < 2 ^ 64 };

    ghost inverse = { λ v. record { healthy = v.healthy; against = v.against } };
}

impl Default for Health {
    ghost use Rattle.std.specs.Prelude.{[], true};
    ghost use Rattle.lb_health_core.specs.Verdicts.{IsHealthAfter};

    ghost is_default = { IsHealthAfter true [] };

    fn default() -> Health {
        Health::starting(true)
    }
}

impl Health {
    /// Returns a health that begins so, with no verdict against it. It takes no memory.
    pub fn starting(healthy: bool) -> Health
        ensures { IsHealthAfter healthy [] result }
    {
        Health {
            healthy,
            against: 0,
        }
    }

    /// Returns whether the backend is healthy.
    pub fn ready(&self) -> bool
        ensures { result ≡ self.now.healthy }
    {
        self.healthy
    }

    /// Takes a verdict of a check, and returns whether the state flipped.
    ///
    /// It flips where this verdict, with those just before it that said the same, are as many as the threshold; 0 acts as 1.
    pub fn observe_health(&mut self, verdict: bool, threshold: usize) -> bool
        ensures after { (start : Bool) (earlier : List Verdict) → IsHealthAfter start earlier self.old
            → IsHealthAfter start (record { ok = verdict; threshold = threshold } ∷ earlier) self.new }
        ensures flipped { IsTrue result ↔ (self.new.healthy ≢ self.old.healthy) }
    {
        if verdict == self.healthy {
            self.against = 0;
            return false;
        }
        if self.against + 1 < threshold {
            self.against += 1;
            return false;
        }
        self.healthy = verdict;
        self.against = 0;
        true
    }
}

//! Why a group takes no other gate.
ghost use Rattle.std.specs.Prelude.{◌≡◌};

use lb_select_base::refusal::Refusal;
use thiserror::Error;

/// Why a group didn't take a gate. It is as before then.
#[derive(Clone, Copy, Debug, PartialEq, Eq, Error)]
pub enum GateRefusal {
    /// The group was updated already: a gate is given before the first update.
    #[error("WasUpdated")]
    WasUpdated,
    /// The group couldn't be made with that gate, for this cause.
    #[error("{0}")]
    NotMade(Refusal),
}

impl From<Refusal> for GateRefusal {
    ghost use Rattle.std.specs.Prelude.{◌≡◌};
    ghost use Rattle.lb_balancer_group.specs.declared.gate_refusal.GateRefusal.TheVariants.{NotMade};

    ghost from_gives = { λ refusal e. e ≡ NotMade refusal };

    fn from(refusal: Refusal) -> GateRefusal {
        GateRefusal::NotMade(refusal)
    }
}

//! The trait of a check of backends, its observers and its summaries. A check over the network contains the network that it uses, its
//! observer and its summary as type parameters of its own.
ghost use Rattle.std.specs.Prelude.{◌≡◌, ℕ, ⊤, Bool, Result, IfOk, OnErr, Err, string_bytes};
ghost use Rattle.lb_health_core.specs.declared.error.CheckError.{CheckError};
ghost use Rattle.lb_select_base.specs.AddressText.{member_text};
ghost use Rattle.lb_select_base.specs.Backends.{Member};
ghost use Rattle.lb_select_base.specs.declared.refusal.Refusal.{Refusal};
ghost use Rattle.lb_select_base.specs.declared.refusal.Refusal.TheVariants.{OutOfMemory};

use crate::error::CheckError;
use lb_select_base::backend::Backend;
use lb_select_base::refusal::Refusal;
use std::alloc::Global;

/// A check of backends. A pass over the targets of a registry calls `check` once for each target, and
/// `health_status_change` and then `backend_summary` where that flipped the health of its cell.
pub trait HealthCheck {
    /// The threshold of each verdict.
    ghost threshold: { Self → Bool → ℕ };

    /// What the check may answer about a backend: anything, for a check that doesn't say.
    ghost answers: { Self → Member → Result Unit CheckError → Type 0 } = { λ _ _ _. ⊤ };

    /// Checks the backend: `Ok` where it is healthy, and otherwise why it is not.
    fn check(&self, alloc: Global, target: &Backend) -> Result<(), CheckError>
        ensures { answers self.now target.now result };

    /// Reports that the backend became healthy, or unhealthy. By default it does nothing.
    fn health_status_change(&self, _target: &Backend, _healthy: bool) {}

    /// Returns how log lines name the backend: by default its address, a slash and its weight.
    ///
    /// Where it is refused, the line is left out.
    fn backend_summary(&self, alloc: Global, target: &Backend) -> Result<String, Refusal> {
        identity_summary(alloc, target)
    }

    /// Returns how many verdicts of this kind in a row change the health of a backend; 0 acts as 1.
    fn health_threshold(&self, success: bool) -> usize
        ensures { result ≡ threshold self.now success };
}

/// A check behind a box, for a registry that is to take any.
pub type BoxedCheck = Box<dyn HealthCheck + Send + Sync + Drop>;

impl HealthCheck for BoxedCheck {
    ghost threshold = { λ b success. (HealthCheck-box b).threshold b.value success };

    ghost answers = { λ b target answer. (HealthCheck-box b).answers b.value target answer };

    fn check(&self, alloc: Global, target: &Backend) -> Result<(), CheckError> {
        (**self).check(alloc, target)
    }

    fn health_status_change(&self, target: &Backend, healthy: bool) {
        (**self).health_status_change(target, healthy);
    }

    fn backend_summary(&self, alloc: Global, target: &Backend) -> Result<String, Refusal> {
        (**self).backend_summary(alloc, target)
    }

    fn health_threshold(&self, success: bool) -> usize {
        (**self).health_threshold(success)
    }
}

/// An observer of changes of health.
pub trait HealthObserve {
    /// Takes the report that the backend became healthy, or unhealthy.
    fn observe(&self, target: &Backend, healthy: bool);
}

/// An observer behind a box, for a check that is to take any.
pub type HealthObserveCallback = Box<dyn HealthObserve + Send + Sync + Drop>;

impl HealthObserve for HealthObserveCallback {
    fn observe(&self, target: &Backend, healthy: bool) {
        (**self).observe(target, healthy);
    }
}

/// How a check names a backend in log lines.
pub trait BackendSummary {
    /// Returns the text for the backend.
    ///
    /// Refused `OutOfMemory` where there is no room for it.
    fn summary(&self, alloc: Global, target: &Backend) -> Result<String, Refusal>;
}

/// The summary of a check that was given none: the address, a slash and the weight.
#[derive(Clone, Copy, Debug)]
pub struct IdentitySummary;

impl BackendSummary for IdentitySummary {
    fn summary(&self, alloc: Global, target: &Backend) -> Result<String, Refusal>
        ensures text { IfOk result (λ text. string_bytes text ≡ member_text target.now) }
        ensures refused { OnErr result (result ≡ Err OutOfMemory) }
    {
        identity_summary(alloc, target)
    }
}

/// Returns an address, a slash and a weight: the backend's identity as text.
///
/// Refused `OutOfMemory` where there is no room for it.
pub fn identity_summary(alloc: Global, target: &Backend) -> Result<String, Refusal>
    ensures text { IfOk result (λ text. string_bytes text ≡ member_text target.now) }
    ensures refused { OnErr result (result ≡ Err OutOfMemory) }
{
    let text = format!(in alloc; "{target}")?;
    Ok(text)
}

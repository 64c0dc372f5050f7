//! What a check accepts: a validator's word on the head of an answer, and without one the status 200.
//! A validator is a function of the head: the same head gets the same word.
ghost use Rattle.http.specs.declared.response.Parts.{Parts};
ghost use Rattle.std.specs.Prelude.{◌≡◌, Bool, ◌==◌};
ghost use Rattle.lb_health_http.specs.Check.{Judges};

use http::StatusCode;
use http::response::Parts;
use lb_health_core::error::CheckError;

/// A rule by which a check accepts the head of an answer. Names of fields are in lower case, and values without the white
/// space around them.
pub trait Validate {
    ghost accepts: { Self → Parts → Bool };

    /// Returns whether the head is accepted.
    fn validate(&self, head: &Parts) -> bool
        ensures { result ≡ accepts self.now head.now };
}

/// The rule that accepts one status and no other.
#[derive(Clone, Copy, Debug)]
pub struct AcceptStatus(pub StatusCode);

impl Validate for AcceptStatus {
    ghost accepts = { λ v p. p.status == v.0 };

    fn validate(&self, head: &Parts) -> bool {
        head.status.as_u16() == self.0.as_u16()
    }
}

/// Judges the head: `Interim` for a status below 200, then `Status` where there is no validator and the status isn't 200, and
/// `Rejected` where the validator refuses.
pub(crate) fn judge<V: Validate>(validator: &Option<V>, head: &Parts) -> Result<(), CheckError>
    ensures { Judges V.accepts validator.now head.now result }
{
    let status = head.status.as_u16();
    if status < 200 {
        return Err(CheckError::Interim);
    }
    match validator {
        Some(validator) if validator.validate(head) => Ok(()),
        Some(_) => Err(CheckError::Rejected),
        None if status == 200 => Ok(()),
        None => Err(CheckError::Status(status)),
    }
}

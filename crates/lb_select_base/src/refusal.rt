//! The refusals of all layers, by name and number.
//! A call that refuses leaves everything as it was, save words that a walk has drawn already.
ghost use Rattle.std.specs.Prelude.{◌≡◌};
ghost use Rattle.lb_select_base.specs.Refusals.{refusal_number, refusal_name};

use std::alloc::{AllocError, AllocFailed};
use thiserror::Error;

/// Why a call was refused. Where several causes apply, the one of the least number is returned, and `OutOfMemory` only where no other
/// cause applies. The text is the name alone.
#[derive(Clone, Copy, Debug, PartialEq, Eq, Error)]
pub enum Refusal {
    /// 1: the text is no socket address, its scope id is not 0, or a Unix address is given for an internet one.
    #[error("InvalidAddress")]
    InvalidAddress,
    /// 2: the discovery, or the lookup of a name, failed.
    #[error("Discovery")]
    Discovery,
    /// 3: more than 65535 backends in a weighted selector.
    #[error("TooManyBackends")]
    TooManyBackends,
    /// 4: the weights of a weighted selector sum to more than 18446744073709551615.
    #[error("WeightTooLarge")]
    WeightTooLarge,
    /// 5: more than 4294967295 points on a ring.
    #[error("TooManyPoints")]
    TooManyPoints,
    /// 6: a health check is set already.
    #[error("HealthCheckSet")]
    HealthCheckSet,
    /// 7: a changed membership after generation 18446744073709551615.
    #[error("GenerationsExhausted")]
    GenerationsExhausted,
    /// 8: an update of a cancelled group.
    #[error("GroupCancelled")]
    GroupCancelled,
    /// 9: no registry, view, gate, group, slot or kept cell of that number.
    #[error("NoSuch")]
    NoSuch,
    /// 10: a request for memory was refused.
    #[error("OutOfMemory")]
    OutOfMemory,
    /// 11: that many readers, more than 0, are in the retired selector.
    #[error("StillRead {0}")]
    StillRead(u64),
    /// 12: no job of the slot is building.
    #[error("NothingInFlight")]
    NothingInFlight,
    /// 13: nothing of the slot is built.
    #[error("NothingBuilt")]
    NothingBuilt,
    /// 14: no retired selector is there to take.
    #[error("NothingRetired")]
    NothingRetired,
    /// 15: that reader's number was never given, or has left.
    #[error("NoSuchReader")]
    NoSuchReader,
    /// 16: a selection by random words was given too few of them.
    #[error("NotEnoughWords")]
    NotEnoughWords,
    /// 17: a number that is never used again is at 18446744073709551615.
    #[error("NumbersExhausted")]
    NumbersExhausted,
}

impl Refusal {
    /// Returns the number of the refusal, 1 to 17.
    pub fn number(&self) -> u64
        ensures { result ≡ refusal_number self.now }
    {
        match self {
            Refusal::InvalidAddress => 1,
            Refusal::Discovery => 2,
            Refusal::TooManyBackends => 3,
            Refusal::WeightTooLarge => 4,
            Refusal::TooManyPoints => 5,
            Refusal::HealthCheckSet => 6,
            Refusal::GenerationsExhausted => 7,
            Refusal::GroupCancelled => 8,
            Refusal::NoSuch => 9,
            Refusal::OutOfMemory => 10,
            Refusal::StillRead(_) => 11,
            Refusal::NothingInFlight => 12,
            Refusal::NothingBuilt => 13,
            Refusal::NothingRetired => 14,
            Refusal::NoSuchReader => 15,
            Refusal::NotEnoughWords => 16,
            Refusal::NumbersExhausted => 17,
        }
    }

    /// Returns the name of the refusal, without what it carries.
    pub fn name(&self) -> &'static str
        ensures { result.now ≡ refusal_name self.now }
    {
        match self {
            Refusal::InvalidAddress => "InvalidAddress",
            Refusal::Discovery => "Discovery",
            Refusal::TooManyBackends => "TooManyBackends",
            Refusal::WeightTooLarge => "WeightTooLarge",
            Refusal::TooManyPoints => "TooManyPoints",
            Refusal::HealthCheckSet => "HealthCheckSet",
            Refusal::GenerationsExhausted => "GenerationsExhausted",
            Refusal::GroupCancelled => "GroupCancelled",
            Refusal::NoSuch => "NoSuch",
            Refusal::OutOfMemory => "OutOfMemory",
            Refusal::StillRead(_) => "StillRead",
            Refusal::NothingInFlight => "NothingInFlight",
            Refusal::NothingBuilt => "NothingBuilt",
            Refusal::NothingRetired => "NothingRetired",
            Refusal::NoSuchReader => "NoSuchReader",
            Refusal::NotEnoughWords => "NotEnoughWords",
            Refusal::NumbersExhausted => "NumbersExhausted",
        }
    }
}

impl From<AllocError> for Refusal {
    ghost use Rattle.std.specs.Prelude.{◌≡◌};
    ghost use Rattle.lb_select_base.specs.declared.refusal.Refusal.TheVariants.{OutOfMemory};

    ghost from_gives = { λ _ e. e ≡ OutOfMemory };

    fn from(_refused: AllocError) -> Refusal {
        Refusal::OutOfMemory
    }
}

impl<T: Drop> From<AllocFailed<T>> for Refusal {
    ghost use Rattle.std.specs.Prelude.{◌≡◌};
    ghost use Rattle.lb_select_base.specs.declared.refusal.Refusal.TheVariants.{OutOfMemory};

    ghost from_gives = { λ _ e. e ≡ OutOfMemory };

    fn from(_refused: AllocFailed<T>) -> Refusal {
        Refusal::OutOfMemory
    }
}

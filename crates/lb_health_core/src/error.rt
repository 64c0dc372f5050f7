//! Why a check failed, by name and number. The log line of a backend that becomes unhealthy has the name alone.
ghost use Rattle.std.specs.Prelude.{◌≡◌};
ghost use Rattle.lb_health_core.specs.Faults.{fault_number, fault_name};

use std::alloc::{AllocError, AllocFailed};
use thiserror::Error;

/// Why a check failed. `Connect`, `Write` and `Read` come of the device, `OutOfMemory` of a refused growth, and each of the
/// others of what was read.
#[derive(Clone, Copy, Debug, PartialEq, Eq, Error)]
pub enum CheckError {
    /// 1: connecting failed.
    #[error("Connect")]
    Connect,
    /// 2: a write failed.
    #[error("Write")]
    Write,
    /// 3: a read failed.
    #[error("Read")]
    Read,
    /// 4: no head of an answer, one of more than 64 fields, or a status below 100.
    #[error("BadHead")]
    BadHead,
    /// 5: 65536 bytes were read and the head is not whole.
    #[error("HeadTooLarge")]
    HeadTooLarge,
    /// 6: a status from 100 to 199.
    #[error("Interim")]
    Interim,
    /// 7: this status is not 200, and there is no validator to accept it.
    #[error("Status {0}")]
    Status(u16),
    /// 8: the validator refused the head.
    #[error("Rejected")]
    Rejected,
    /// 9: the fields that say where the body ends contradict each other, or the body is not framed as they say.
    #[error("BadFraming")]
    BadFraming,
    /// 10: the stream ended before the message did.
    #[error("EndInMessage")]
    EndInMessage,
    /// 11: the body has, or its length names, more bytes than the limit.
    #[error("BodyTooLarge")]
    BodyTooLarge,
    /// 12: a request for memory was refused.
    #[error("OutOfMemory")]
    OutOfMemory,
}

impl CheckError {
    /// Returns the number of the fault, 1 to 12.
    pub fn number(&self) -> u64
        ensures { result ≡ fault_number self.now }
    {
        match self {
            CheckError::Connect => 1,
            CheckError::Write => 2,
            CheckError::Read => 3,
            CheckError::BadHead => 4,
            CheckError::HeadTooLarge => 5,
            CheckError::Interim => 6,
            CheckError::Status(_) => 7,
            CheckError::Rejected => 8,
            CheckError::BadFraming => 9,
            CheckError::EndInMessage => 10,
            CheckError::BodyTooLarge => 11,
            CheckError::OutOfMemory => 12,
        }
    }

    /// Returns the name of the fault, without what it carries.
    pub fn name(&self) -> &'static str
        ensures { result.now ≡ fault_name self.now }
    {
        match self {
            CheckError::Connect => "Connect",
            CheckError::Write => "Write",
            CheckError::Read => "Read",
            CheckError::BadHead => "BadHead",
            CheckError::HeadTooLarge => "HeadTooLarge",
            CheckError::Interim => "Interim",
            CheckError::Status(_) => "Status",
            CheckError::Rejected => "Rejected",
            CheckError::BadFraming => "BadFraming",
            CheckError::EndInMessage => "EndInMessage",
            CheckError::BodyTooLarge => "BodyTooLarge",
            CheckError::OutOfMemory => "OutOfMemory",
        }
    }
}

impl From<AllocError> for CheckError {
    ghost use Rattle.std.specs.Prelude.{◌≡◌};
    ghost use Rattle.lb_health_core.specs.declared.error.CheckError.TheVariants.{OutOfMemory};

    ghost from_gives = { λ _ e. e ≡ OutOfMemory };

    fn from(_refused: AllocError) -> CheckError {
        CheckError::OutOfMemory
    }
}

impl<T: Drop> From<AllocFailed<T>> for CheckError {
    ghost use Rattle.std.specs.Prelude.{◌≡◌};
    ghost use Rattle.lb_health_core.specs.declared.error.CheckError.TheVariants.{OutOfMemory};

    ghost from_gives = { λ _ e. e ≡ OutOfMemory };

    fn from(_refused: AllocFailed<T>) -> CheckError {
        CheckError::OutOfMemory
    }
}

//! The line that says what a check came to, and the exit status with it.
ghost use Rattle.std.specs.Prelude.{◌≡◌, Some};
ghost use Rattle.lbcheck.specs.Lines.{fault_text, meaning_text, check_text, replay_text, outcome_status};

use lb_health_core::error::CheckError;
use std::fmt;

/// A fault by its name, with the status that `Status` carries.
#[derive(Clone, Copy)]
pub(crate) struct Fault(pub CheckError);

impl fmt::Display for Fault {
    ghost output = { λ f. Some (fault_text f.0) };

    fn fmt<W: fmt::Write>(&self, f: &mut fmt::Formatter<W>) -> fmt::Result {
        match self.0 {
            CheckError::Status(code) => write!(f, "Status {code}"),
            fault => f.write_str(fault.name()),
        }
    }
}

// What a fault means, in a sentence.
fn meaning(fault: CheckError) -> &'static str
    ensures { result.now ≡ meaning_text fault }
{
    match fault {
        CheckError::Connect => "no connection could be made within the limit",
        CheckError::Write => "the request could not be sent within the limit",
        CheckError::Read => "nothing more could be read within the limit",
        CheckError::BadHead => "what came is no head of an answer, or has more than 64 fields",
        CheckError::HeadTooLarge => "65536 bytes came and the head of the answer was not whole",
        CheckError::Interim => "the status is below 200, so another answer is to follow",
        CheckError::Status(_) => "the status is not 200",
        CheckError::Rejected => "the status is not the one that is accepted",
        CheckError::BadFraming => "where the body ends is told wrongly, or two ways",
        CheckError::EndInMessage => "the stream ended before the answer did",
        CheckError::BodyTooLarge => "the body is larger than the limit",
        CheckError::OutOfMemory => "there was no memory for the check",
    }
}

/// The line of a check: `ok`, or the fault and what it means.
#[derive(Clone, Copy)]
pub(crate) struct CheckLine(pub Result<(), CheckError>);

impl fmt::Display for CheckLine {
    ghost output = { λ l. Some (check_text l.0) };

    fn fmt<W: fmt::Write>(&self, f: &mut fmt::Formatter<W>) -> fmt::Result {
        match self.0 {
            Ok(()) => f.write_str("ok"),
            Err(fault) => write!(f, "{}: {}", Fault(fault), meaning(fault)),
        }
    }
}

/// The line of a check of bytes that lie somewhere: `ok` or the fault, and how many bytes were not read.
#[derive(Clone, Copy)]
pub(crate) struct ReplayLine(pub Result<(), CheckError>, pub u64);

impl fmt::Display for ReplayLine {
    ghost output = { λ l. Some (replay_text l.0 l.1) };

    fn fmt<W: fmt::Write>(&self, f: &mut fmt::Formatter<W>) -> fmt::Result {
        let unread = self.1;
        match self.0 {
            Ok(()) => write!(f, "ok unread {unread}"),
            Err(fault) => write!(f, "{} unread {unread}", Fault(fault)),
        }
    }
}

/// Returns the exit status: 0 where the check passed, else 1.
pub(crate) fn exit_status(outcome: Result<(), CheckError>) -> u8
    ensures { result ≡ outcome_status outcome }
{
    if outcome.is_ok() { 0 } else { 1 }
}

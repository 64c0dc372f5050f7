//! Why a script ends before its last line.
//! Each reason has a name, which the script's last answer carries.
ghost use Rattle.std.specs.Prelude.{◌≡◌};
ghost use Rattle.lb_script.specs.Texts.{script_error_name};

use std::alloc::{AllocError, AllocFailed};

/// Why a script ended before its last line was answered.
#[derive(Clone, Copy, Debug, PartialEq, Eq)]
pub enum ScriptError {
    /// The line is none that a script may have there.
    BadLine,
    /// The line has more than 16777216 bytes, its line feed not counted.
    LineTooLong,
    /// A read failed.
    Read,
    /// A request for memory was refused.
    OutOfMemory,
}

impl ScriptError {
    /// Returns the name of the error.
    pub fn name(&self) -> &'static str
        ensures { result.now ≡ script_error_name self.now }
    {
        match self {
            ScriptError::BadLine => "BadLine",
            ScriptError::LineTooLong => "LineTooLong",
            ScriptError::Read => "Read",
            ScriptError::OutOfMemory => "OutOfMemory",
        }
    }
}

impl From<AllocError> for ScriptError {
    ghost use Rattle.std.specs.Prelude.{◌≡◌};
    ghost use Rattle.lb_script.specs.declared.error.ScriptError.TheVariants.{OutOfMemory};

    ghost from_gives = { λ _ e. e ≡ OutOfMemory };

    fn from(_refused: AllocError) -> ScriptError {
        ScriptError::OutOfMemory
    }
}

impl<T: Drop> From<AllocFailed<T>> for ScriptError {
    ghost use Rattle.std.specs.Prelude.{◌≡◌};
    ghost use Rattle.lb_script.specs.declared.error.ScriptError.TheVariants.{OutOfMemory};

    ghost from_gives = { λ _ e. e ≡ OutOfMemory };

    fn from(_refused: AllocFailed<T>) -> ScriptError {
        ScriptError::OutOfMemory
    }
}

//! Why a script is not run to its end.

ghost use Rattle.std.specs.Prelude.{◌≡◌};
ghost use Rattle.script_run.specs.declared.fault.ScriptFault.TheVariants.{NoMemory};

use std::alloc::{AllocError, AllocFailed};
use thiserror::Error;

/// Why a script was not run to its end.
#[derive(Clone, Copy, Debug, PartialEq, Eq, Error)]
pub enum ScriptFault {
    /// The script could not be read. Nothing was written.
    #[error("read fault")]
    Read,
    /// The script is longer than 1,048,576 bytes. Nothing was written.
    #[error("script too long")]
    TooLong,
    /// An answer could not be written. What was written is a front of the answers.
    #[error("write fault")]
    Write,
    /// There is no memory for the runner's own tables. The answers of the lines before were written.
    #[error("out of memory")]
    NoMemory,
}

impl From<AllocError> for ScriptFault {
    ghost from_gives = { λ _ e. e ≡ NoMemory };

    fn from(_error: AllocError) -> ScriptFault {
        ScriptFault::NoMemory
    }
}

impl<T: Drop> From<AllocFailed<T>> for ScriptFault {
    ghost from_gives = { λ _ e. e ≡ NoMemory };

    fn from(_error: AllocFailed<T>) -> ScriptFault {
        ScriptFault::NoMemory
    }
}

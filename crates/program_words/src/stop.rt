//! Why a program ends early, and the status that it ends with.

ghost use Rattle.std.specs.Prelude.{◌≡◌};
ghost use Rattle.std.specs.Process.{exit_status};
ghost use Rattle.program_words.specs.Statuses.{status_by, stop_status, words_status};

use crate::fault::WordsFault;
use std::alloc::AllocError;
use std::fmt::Display;
use std::process::ExitCode;

/// Why a program ends early.
#[derive(Drop)]
pub enum Stop<F> {
    /// Its command line asks for nothing that it does.
    Usage,
    /// A fault of its run.
    Fault(F),
}

impl<F: From<AllocError>> From<WordsFault> for Stop<F> {
    ghost from_gives = { λ fault stop. stop_status stop ≡ words_status fault };

    fn from(fault: WordsFault) -> Stop<F> {
        match fault {
            WordsFault::Usage => Stop::Usage,
            WordsFault::NoMemory => Stop::Fault(F::from(AllocError)),
        }
    }
}

/// The status of a program that ended so: 0, or 1 for a fault, which is named on standard error, or 2 for its command line.
pub fn status_of<F: Display + Drop>(
    rt: &impl Eprint,
    program: &str,
    ended: Result<(), Stop<F>>,
) -> ExitCode
    ensures { exit_status result ≡ status_by ended }
{
    match ended {
        Ok(()) => ExitCode::SUCCESS,
        Err(Stop::Usage) => ExitCode::from(2),
        Err(Stop::Fault(fault)) => {
            let _ = eprintln!(rt; "{program}: {fault}");
            ExitCode::from(1)
        }
    }
}

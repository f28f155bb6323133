//! Why the program ends early.

use bench_figures::WrongTotal;
use cold_flow::Refusal;
use flow_script::ScriptFault;
use std::alloc::{AllocError, AllocFailed};
use std::io;
use thiserror::Error;

/// Why the program ends early. The name is that of a scenario.
#[derive(Clone, Copy, Debug, Error)]
pub enum Fault {
    /// What arrived isn't what was sent.
    #[error("wrong total at {0}")]
    WrongTotal(&'static str),
    /// A call was refused.
    #[error("refused {0}")]
    Refused(u8),
    /// The script was not answered to its end.
    #[error("{0}")]
    Script(ScriptFault),
    #[error("out of memory")]
    NoMemory,
    /// The clock can't be read, or a line can't be written.
    #[error("no clock or no output")]
    Host,
}

impl From<WrongTotal> for Fault {
    fn from(wrong: WrongTotal) -> Fault {
        Fault::WrongTotal(wrong.scenario)
    }
}

impl From<AllocError> for Fault {
    fn from(_error: AllocError) -> Fault {
        Fault::NoMemory
    }
}

impl<T: Drop> From<AllocFailed<T>> for Fault {
    fn from(_error: AllocFailed<T>) -> Fault {
        Fault::NoMemory
    }
}

impl From<io::Error> for Fault {
    fn from(_error: io::Error) -> Fault {
        Fault::Host
    }
}

impl From<Refusal> for Fault {
    fn from(refusal: Refusal) -> Fault {
        Fault::Refused(refusal.number())
    }
}

impl From<ScriptFault> for Fault {
    fn from(fault: ScriptFault) -> Fault {
        Fault::Script(fault)
    }
}

//! Why the program ends early.

use cold_flow::Refusal;
use std::alloc::AllocError;
use std::io;
use thiserror::Error;

/// Why the program ends early. It is small, since what is timed hands it on.
#[derive(Clone, Copy, Debug, Error)]
pub enum Fault {
    /// A call was refused.
    #[error("refused {}", .0.number())]
    Refused(#[from] Refusal),
    /// A flow ended otherwise than by its end.
    #[error("ended early")]
    Ended,
    /// A call was answered otherwise than a case needs it.
    #[error("answered otherwise")]
    Otherwise,
    #[error("out of memory")]
    NoMemory(#[from(alloc)] AllocError),
    /// A line can't be written.
    #[error("no output")]
    Host,
}

impl From<io::Error> for Fault {
    fn from(_error: io::Error) -> Fault {
        Fault::Host
    }
}

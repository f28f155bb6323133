//! Why the program ends early.

use flow_script::ScriptFault;
use std::alloc::AllocError;
use std::io;
use thiserror::Error;

/// Why the program ends early.
#[derive(Debug, Drop, Error)]
pub enum Fault {
    /// A script was not run to its end.
    #[error("{0}")]
    Script(#[from] ScriptFault),
    #[error("out of memory")]
    NoMemory(#[from(alloc)] AllocError),
    /// A line can't be written.
    #[error("no output")]
    Host(#[from] io::Error),
}

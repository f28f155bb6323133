//! Why the program ends early.

use shared_core::Refusal;
use std::alloc::AllocError;
use std::io;
use thiserror::Error;

/// Why the program ends early.
#[derive(Debug, Drop, Error)]
pub enum Fault {
    /// The receipts of one emitter, or what one party received, didn't rise; or a value was dropped under a policy that
    /// drops none.
    #[error("a value was out of order")]
    OutOfOrder,
    #[error("a number was told twice")]
    ToldTwice,
    #[error("a value was in another place")]
    InAnotherPlace,
    #[error("a value was lost")]
    Lost,
    /// A call was refused.
    #[error("refused {}", .0.number())]
    Refused(#[from] Refusal),
    #[error("out of memory")]
    NoMemory(#[from(alloc)] AllocError),
    /// The clock can't be read, or a line can't be written.
    #[error("no clock or no output")]
    Host(#[from] io::Error),
}

//! What an answer says, as far as a picture shows it.

use script_commands::{Answer, Reason};

/// What an answer says, as far as a picture shows it.
#[derive(Clone, Copy)]
pub(crate) enum Reply {
    /// `ok`.
    Ok,
    /// `true`.
    True,
    Accepted,
    Dropped,
    Full,
    Waiting,
    /// An emission is done.
    Done,
    Removed,
    Left,
    /// An emission had been finished before.
    Gone,
    Pending,
    Value(u64),
    /// A source is being collected.
    On,
    /// A source has failed.
    Failed,
    /// The line is a bad command, for this reason.
    Bad(Reason),
    /// Something else.
    Other,
}

impl Reply {
    /// What an answer says.
    pub(crate) fn of(answer: &Answer) -> Reply {
        match answer {
            Answer::Ok => Reply::Ok,
            Answer::Truth(true) => Reply::True,
            Answer::Accepted => Reply::Accepted,
            Answer::Dropped => Reply::Dropped,
            Answer::Full => Reply::Full,
            Answer::Waiting => Reply::Waiting,
            Answer::Done => Reply::Done,
            Answer::Removed => Reply::Removed,
            Answer::Left => Reply::Left,
            Answer::Gone => Reply::Gone,
            Answer::Pending => Reply::Pending,
            Answer::Value(value) => Reply::Value(*value),
            Answer::On => Reply::On,
            Answer::Failed(_) => Reply::Failed,
            Answer::BadCommand { reason, .. } => Reply::Bad(*reason),
            _ => Reply::Other,
        }
    }
}

//! What a line of a script is answered with.

ghost use Rattle.std.specs.Prelude.{◌≡◌, ◌++◌, Some, OnOk};
ghost use Rattle.script_commands.specs.Answers.{text_of, word_of};
ghost use Rattle.script_commands.specs.declared.answer.Answer.TheVariants.{Collected};

mod replies;

use crate::decimals::{add_counted, add_decimal};
use crate::listing::Listing;
use crate::reason::Reason;
use cold_flow::Refusal;
use std::alloc::AllocError;
use std::fmt;

/// What a command answers, and what a bad line is answered with.
#[derive(Drop)]
pub enum Answer {
    /// The call was made.
    Ok,
    /// The call was refused, and nothing changed.
    Refused(Refusal),
    Accepted,
    Dropped,
    Full,
    /// An emission waits, or is pending still.
    Waiting,
    /// An emission is pending for no subscription any more.
    Done,
    /// An emission was taken back before it was accepted.
    Removed,
    /// An emission stays with its subscribers.
    Left,
    /// An emission is known no more.
    Gone,
    Value(u64),
    Pending,
    Closed,
    /// A buffer took a value.
    Took,
    /// A buffer took a value in the place of the oldest one that it held.
    Overwrote,
    /// A buffer's source has ended.
    Ended,
    /// All that a buffer gives was taken, and its source finished.
    Finished,
    /// All that a buffer gives was taken, and its source failed by this fault; or a source that is shared has failed by it.
    Failed(u64),
    /// A source is being collected.
    On,
    /// A source is not being collected.
    Off,
    Number(u64),
    /// Whether a value was as it was expected to be.
    Truth(bool),
    Values(Listing),
    /// What a pipe gave, and the fault by which it failed, if it did.
    Collected { values: Listing, fault: Option<u64> },
    /// A stage of a pipe gave more than 10,000 values.
    TooMany,
    /// The line with this number is no command, for this reason, which the text doesn't tell.
    BadCommand { line: u64, reason: Reason },
}

impl Answer {
    /// The word that is the whole answer, or nothing where the answer says more.
    fn word(&self) -> &'static str
        ensures { result.now ≡ word_of self.now }
    {
        match self {
            Answer::Ok => "ok",
            Answer::Accepted => "accepted",
            Answer::Dropped => "dropped",
            Answer::Full => "full",
            Answer::Waiting => "waiting",
            Answer::Done => "done",
            Answer::Removed => "removed",
            Answer::Left => "left",
            Answer::Gone => "gone",
            Answer::Pending => "pending",
            Answer::Closed => "closed",
            Answer::Took => "took",
            Answer::Overwrote => "overwrote",
            Answer::Ended => "ended",
            Answer::Finished => "finished",
            Answer::On => "on",
            Answer::Off => "off",
            Answer::TooMany => "too many",
            _ => "",
        }
    }

    /// Adds its text to another, in one go: what its `Display` writes.
    pub fn add_to(&self, text: &mut Vec<u8>) -> Result<(), AllocError>
        ensures { OnOk result (text.new.items ≡ text.old.items ++ text_of self.now) }
    {
        match self {
            Answer::Refused(refusal) => add_counted(text, b"refused ", u64::from(refusal.number())),
            Answer::Value(value) => add_counted(text, b"value ", *value),
            Answer::Failed(fault) => add_counted(text, b"failed ", *fault),
            Answer::Number(number) => add_decimal(text, *number),
            Answer::Truth(true) => text.extend_from_slice(b"true"),
            Answer::Truth(false) => text.extend_from_slice(b"false"),
            Answer::Values(values) => values.add_to(text),
            Answer::Collected { values, fault } => add_collected(text, values, *fault),
            Answer::BadCommand { line, .. } => {
                add_counted(text, b"line ", *line)?;
                text.extend_from_slice(b": bad command")
            }
            _ => text.extend_from_slice(self.word().as_bytes()),
        }
    }
}

/// Adds what a pipe gave, and how it ended.
fn add_collected(text: &mut Vec<u8>, values: &Listing, fault: Option<u64>) -> Result<(), AllocError>
    ensures { OnOk result (text.new.items ≡ text.old.items ++ text_of (Collected values.now fault)) }
{
    values.add_to(text)?;
    match fault {
        None => text.extend_from_slice(b" finished"),
        Some(fault) => add_counted(text, b" failed ", fault),
    }
}

impl fmt::Display for Answer {
    ghost output = { λ answer. Some (text_of answer) };

    fn fmt<W: fmt::Write>(&self, f: &mut fmt::Formatter<W>) -> fmt::Result {
        match self {
            Answer::Refused(refusal) => write!(f, "refused {}", refusal.number()),
            Answer::Value(value) => write!(f, "value {value}"),
            Answer::Failed(fault) => write!(f, "failed {fault}"),
            Answer::Number(number) => write!(f, "{number}"),
            Answer::Truth(truth) => write!(f, "{truth}"),
            Answer::Values(values) => write!(f, "{values}"),
            Answer::Collected {
                values,
                fault: None,
            } => write!(f, "{values} finished"),
            Answer::Collected {
                values,
                fault: Some(fault),
            } => write!(f, "{values} failed {fault}"),
            Answer::BadCommand { line, .. } => write!(f, "line {line}: bad command"),
            _ => f.write_str(self.word()),
        }
    }
}

//! The commands of scripts, what they are answered with, what their names stand for, and the pipes of cold flows that they run.
//!
//! `Command::parse` reads a line's words, and `Pipe::answer` runs a pipe whole.
#![tactic(auto)]

mod actions;
mod answer;
mod command;
mod decimals;
mod gathered;
mod gathered_flow;
mod inner;
mod items;
mod list_run;
mod listing;
mod making;
mod name_hash;
mod object;
mod part;
mod pipe;
mod reason;
mod request;
mod source;
mod source_flow;
mod stage;

pub use answer::Answer;
pub use command::Command;
pub use items::{Item, Items};
pub use listing::Listing;
pub use making::Making;
pub use name_hash::{NameHash, NameHasher};
pub use object::ScriptObject;
pub use part::Part;
pub use pipe::Pipe;
pub use reason::Reason;
pub use request::{Joiner, Request};
pub use source::Source;
pub use source_flow::{SourceFlow, SourceRun};

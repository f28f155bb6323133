//! Runs scripts of commands: a script is read, and each of its lines is answered, whatever flows and states stand behind its names.
//!
//! [`run_script`] does it whole, over any reader and any writer. [`answers_of`] gives the answers as values, and [`read_script`] only
//! reads a script, for what shows scripts.
//!
//! What a name may stand for is an [`Object`]: a shared flow, a state with its collectors, a buffer, or a flow or a state that shares a
//! source; each answers the commands that it knows. Which flows and states these are isn't said here: they are known by the calls of
//! `script_calls` alone. The runner knows less: to it an object is a `ScriptObject` of `script_commands`.
#![tactic(auto)]

mod binding;
mod buffer;
mod fault;
mod flows;
mod input;
mod line_answer;
mod names;
mod object;
mod output;
mod reasons;
mod run;
mod runner;
mod script;
mod sourced;
mod sources;
mod states;
mod subscriptions;

pub use buffer::ScriptBuffer;
pub use fault::ScriptFault;
pub use input::read_script;
pub use line_answer::LineAnswer;
pub use object::Object;
pub use script::{answers_of, run_script};
pub use sourced::Sourced;

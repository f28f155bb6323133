//! Scripts of commands on flows: a script is read, and each of its lines is answered.
//!
//! `run_script` does it whole, over any reader and any writer; `answers_of` gives the answers as values, and `read_script` only reads
//! a script, for what shows scripts. The shared flows of a script stand on one of two engines.
#![tactic(auto)]

mod engine_flow;
mod making;
mod object;
mod script;

pub use engine_flow::EngineFlow;
pub use object::{CoreObject, EngineObject, LaneObject};
pub use script::{answers_of, run_script};
pub use script_run::{LineAnswer, ScriptFault, read_script};
pub use script_words::Engine;

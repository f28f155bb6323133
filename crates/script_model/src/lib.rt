//! What a script answers is a function of its bytes.
//!
//! With the engine `core` each line's answer is what a model says: the one of shared flows (`shared_core`), a state as the list of its
//! values (`script_engines`), and pipes as the lists that they come to. Beside the bytes it takes only for which lines memory was
//! refused; for a buffer also where its source was pending, and for what shares a source what that answered.
#![tactic(auto)]

ghost use Rattle.script_model.specs.Running.{GivesAnswers, RunsByModel};
ghost use Rattle.script_run.specs.Input.{TakesAtMost};

use flow_script::{Engine, LineAnswer, ScriptFault};
use std::alloc::AllocGlobal;
use std::io::{Read, Write};
use std::random::RandomSource;
use std::sync::Wait;

/// Runs a script whose shared flows stand on one thread, and gives its answers: those that the model says, each with the number of its
/// line.
///
/// A script of more than 1,048,576 bytes is `TooLong`, and isn't run. Where there is no memory for the answers or for the
/// runner's own tables, it is `NoMemory`.
pub fn answers_of<'r, H: Wait + RandomSource + AllocGlobal>(
    rt: &'r H,
    script: &[u8],
) -> Result<Vec<LineAnswer>, ScriptFault>
    ensures { GivesAnswers script.now result }
{
    flow_script::answers_of(rt, Engine::Core, script)
}

/// Reads a script whole, runs it with its shared flows on one thread, and writes the text that the model says.
///
/// The faults are those of `flow_script::run_script`.
pub fn run_script<'r, H: Wait + RandomSource + AllocGlobal, R: Read, W: Write>(
    rt: &'r H,
    reader: &mut R,
    writer: &mut W,
) -> Result<(), ScriptFault>
    ensures runs { RunsByModel (R.remaining reader.old) (R.remaining reader.new) (W.contents writer.old) (W.contents writer.new) result }
    ensures within { TakesAtMost (R.remaining reader.old) (R.remaining reader.new) 1048577 }
{
    flow_script::run_script(rt, reader, writer, Engine::Core)
}

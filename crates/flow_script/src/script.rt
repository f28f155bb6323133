//! Runs a script whole, on one of the engines.

ghost use Rattle.std.specs.Prelude.{OnErr};
ghost use Rattle.script_run.specs.Input.{TakesAtMost};
ghost use Rattle.script_run.specs.Scripts.{ReadsToEnd, Gives};
ghost use Rattle.flow_script.specs.Running.{On};

use crate::object::{CoreObject, LaneObject};
use script_commands::ScriptObject;
use script_run::{LineAnswer, ScriptFault};
use script_words::Engine;
use std::alloc::AllocGlobal;
use std::io::{Read, Write};
use std::random::RandomSource;
use std::sync::Wait;

/// Reads a script whole, and writes what it answers, command by command. Its shared flows stand on this engine.
///
/// At most 1,048,577 bytes are read. A script of more than 1,048,576 bytes is `TooLong`; then, and where a read fails
/// (`Interrupted` too), nothing is written. Where a write fails or takes no byte, or the flush at the end fails, a front of
/// the answers was written. Where the runner's own tables find no memory, the answers of the lines before were. That
/// the number of reads is bounded isn't claimed, since a reader may give nothing new for ever.
///
/// It may wait for the lock of a flow for threads, which nobody else has.
pub fn run_script<'r, H: Wait + RandomSource + AllocGlobal, R: Read, W: Write>(
    rt: &'r H,
    reader: &mut R,
    writer: &mut W,
    engine: Engine,
) -> Result<(), ScriptFault>
    ensures runs { On engine
        (ReadsToEnd ⟦<CoreObject<'r, 'r, H> as ScriptObject<'r>>⟧.makes
        ⟦<CoreObject<'r, 'r, H> as ScriptObject<'r>>⟧.asks
        ⟦<CoreObject<'r, 'r, H> as ScriptObject<'r>>⟧.joins
        (R.remaining reader.old) (R.remaining reader.new) (W.contents writer.old) (W.contents writer.new) result)
        (ReadsToEnd ⟦<LaneObject<'r, 'r, H> as ScriptObject<'r>>⟧.makes
        ⟦<LaneObject<'r, 'r, H> as ScriptObject<'r>>⟧.asks
        ⟦<LaneObject<'r, 'r, H> as ScriptObject<'r>>⟧.joins
        (R.remaining reader.old) (R.remaining reader.new) (W.contents writer.old) (W.contents writer.new) result) }
    ensures within { TakesAtMost (R.remaining reader.old) (R.remaining reader.new) 1048577 }
{
    let mut script = Vec::new(rt.alloc());
    match engine {
        Engine::Core => {
            script_run::run_script::<R, W, CoreObject<'_, '_, H>>(
                rt,
                &rt,
                &mut script,
                reader,
                writer,
            )
        }
        Engine::Lane => {
            script_run::run_script::<R, W, LaneObject<'_, '_, H>>(
                rt,
                &rt,
                &mut script,
                reader,
                writer,
            )
        }
    }
}

/// Runs a script, and gives its answers, each with the number of its line. Its shared flows stand on this engine.
///
/// A script of more than 1,048,576 bytes is `TooLong`, and isn't run. Where there is no memory for the answers or for the
/// runner's own tables, it is `NoMemory`.
///
/// It may wait for the lock of a flow for threads, which nobody else has.
pub fn answers_of<'r, H: Wait + RandomSource + AllocGlobal>(
    rt: &'r H,
    engine: Engine,
    script: &[u8],
) -> Result<Vec<LineAnswer>, ScriptFault>
    ensures { On engine
        (Gives ⟦<CoreObject<'r, 'r, H> as ScriptObject<'r>>⟧.makes
        ⟦<CoreObject<'r, 'r, H> as ScriptObject<'r>>⟧.asks
        ⟦<CoreObject<'r, 'r, H> as ScriptObject<'r>>⟧.joins
        script.now result)
        (Gives ⟦<LaneObject<'r, 'r, H> as ScriptObject<'r>>⟧.makes
        ⟦<LaneObject<'r, 'r, H> as ScriptObject<'r>>⟧.asks
        ⟦<LaneObject<'r, 'r, H> as ScriptObject<'r>>⟧.joins
        script.now result) }
{
    match engine {
        Engine::Core => script_run::answers_of::<CoreObject<'_, '_, H>>(rt, &rt, script),
        Engine::Lane => script_run::answers_of::<LaneObject<'_, '_, H>>(rt, &rt, script),
    }
}

//! Runs a script whole.

ghost use Rattle.std.specs.Prelude.{◌≡◌, ◌≤◌, ◌+◌, length, IfErr, OnOk};
ghost use Rattle.script_commands.specs.Answers.{line_of};
ghost use Rattle.script_run.specs.Input.{TakesAtMost};
ghost use Rattle.script_run.specs.declared.fault.ScriptFault.TheVariants.{NoMemory};
ghost use Rattle.script_run.specs.Standings.{IsFresh, standing};
ghost use Rattle.script_run.specs.Replying.{run_state, first_state};
ghost use Rattle.script_run.specs.Scripts.{Writes, WritesAnswer, Gives, ReadsToEnd};

use crate::fault::ScriptFault;
use crate::input::{MOST_BYTES, read_script};
use crate::line_answer::LineAnswer;
use crate::output::write_whole;
use crate::run::ScriptRun;
use futures::task::{Doorbell, Solo};
use script_commands::{Answer, NameHash, ScriptObject};
use std::alloc::{AllocError, AllocGlobal, Global};
use std::io::{Read, Write};
use std::random::RandomSource;

/// Puts the line that shows an answer in the place of a text.
fn show(text: &mut Vec<u8>, answer: Answer) -> Result<(), AllocError>
    ensures { OnOk result (text.new.items ≡ line_of answer) }
{
    text.clear();
    answer.add_to(text)?;
    text.push(b'\n')?;
    Ok(())
}

/// Writes an answer as a line. The text is a place to put it together.
fn write_answer<W: Write>(
    writer: &mut W,
    text: &mut Vec<u8>,
    answer: Answer,
) -> Result<(), ScriptFault>
    ensures { WritesAnswer (W.contents writer.old) (W.contents writer.new) answer result }
{
    show(text, answer)?;
    write_whole(writer, text.as_slice())
}

/// Writes the answers of a script, one by one.
fn write_answers<'s, W: Write, O: ScriptObject<'s>>(
    alloc: Global,
    run: &mut ScriptRun<'s, '_, O>,
    writer: &mut W,
    script: &[u8],
) -> Result<(), ScriptFault>
    requires short { length script.now ≤ 1048576 }
    requires fresh { IsFresh (standing run.old.runner) }
    requires first { run_state run.old ≡ first_state script.now (standing run.old.runner) }
    ensures { Writes O.makes O.asks O.joins (W.contents writer.old) (W.contents writer.new) script.now result }
{
    let mut text = Vec::new(alloc);
    'answers: while let Some(answered) = run.next(alloc)? {
        write_answer(writer, &mut text, answered.answer)?;
    }
    match writer.flush() {
        Ok(()) => Ok(()),
        Err(_) => Err(ScriptFault::Write),
    }
}

/// Runs a script that was read. Its names are hashed so.
fn write_script<'s, W: Write, O: ScriptObject<'s>>(
    alloc: Global,
    hash: NameHash,
    task: &Solo,
    maker: &O::Maker,
    script: &'s [u8],
    writer: &mut W,
) -> Result<(), ScriptFault>
    requires { length script.now ≤ 1048576 }
    ensures { Writes O.makes O.asks O.joins (W.contents writer.old) (W.contents writer.new) script.now result }
{
    let mut run = ScriptRun::<O>::new(alloc, hash, task, maker, script);
    let written = write_answers(alloc, &mut run, writer, script);
    // What must be spent is spent whatever ended the script.
    let _closed = run.close();
    written
}

/// Keeps the answers of a script, one by one.
fn keep_answers<'s, O: ScriptObject<'s>>(
    alloc: Global,
    run: &mut ScriptRun<'s, '_, O>,
    script: &[u8],
) -> Result<Vec<LineAnswer>, ScriptFault>
    requires short { length script.now ≤ 1048576 }
    requires fresh { IsFresh (standing run.old.runner) }
    requires first { run_state run.old ≡ first_state script.now (standing run.old.runner) }
    ensures { Gives O.makes O.asks O.joins script.now result }
{
    let mut answers = Vec::new(alloc);
    'answers: while let Some(answered) = run.next(alloc)? {
        answers.push(answered)?;
    }
    Ok(answers)
}

/// The task in whose name the flows of a script are polled.
fn own_task(rt: &(impl RandomSource + AllocGlobal)) -> Result<Solo, ScriptFault>
    ensures { IfErr result (λ fault. fault ≡ NoMemory) }
{
    match Solo::new(rt, Doorbell::spinning()) {
        Ok(task) => Ok(task),
        Err(_) => Err(ScriptFault::NoMemory),
    }
}

/// Runs a script, and gives its answers, each with the number of its line. What its names stand for is an `O` of this maker.
///
/// A script of more than 1,048,576 bytes is `TooLong`, and isn't run. Where there is no memory for the answers or for the
/// runner's own tables, it is `NoMemory`. Whatever ends the script, all that it made is closed.
pub fn answers_of<'s, O: ScriptObject<'s>>(
    rt: &(impl RandomSource + AllocGlobal),
    maker: &O::Maker,
    script: &'s [u8],
) -> Result<Vec<LineAnswer>, ScriptFault>
    ensures { Gives O.makes O.asks O.joins script.now result }
{
    if script.len() > MOST_BYTES {
        return Err(ScriptFault::TooLong);
    }
    let alloc = rt.alloc();
    let task = own_task(rt)?;
    let hash = NameHash::new(rt);
    let mut run = ScriptRun::<O>::new(alloc, hash, &task, maker, script);
    let answers = keep_answers(alloc, &mut run, script);
    // What must be spent is spent whatever ended the script.
    let _closed = run.close();
    answers
}

/// Reads a script whole, and writes what it answers, command by command. What its names stand for is an `O` of this maker, and
/// may hold parts of the script: so the script is read into the place of `script`, which the caller has.
///
/// At most 1,048,577 bytes are read. A script of more than 1,048,576 bytes is `TooLong`; then, and where a read fails
/// (`Interrupted` too), nothing is written. Where a write fails or takes no byte, or the flush at the end fails, a front of
/// the answers was written. Where the runner's own tables find no memory, the answers of the lines before were. That
/// the number of reads is bounded isn't claimed, since a reader may give nothing new for ever. Whatever ends the script, all
/// that it made is closed.
pub fn run_script<'s, R: Read, W: Write, O: ScriptObject<'s>>(
    rt: &(impl RandomSource + AllocGlobal),
    maker: &O::Maker,
    script: &'s mut Vec<u8>,
    reader: &mut R,
    writer: &mut W,
) -> Result<(), ScriptFault>
    ensures runs { ReadsToEnd O.makes O.asks O.joins (R.remaining reader.old) (R.remaining reader.new) (W.contents writer.old) (W.contents writer.new) result }
    ensures within { TakesAtMost (R.remaining reader.old) (R.remaining reader.new) 1048577 }
{
    let alloc = rt.alloc();
    *script = read_script(alloc, reader)?;
    let task = own_task(rt)?;
    let hash = NameHash::new(rt);
    write_script::<W, O>(alloc, hash, &task, maker, script.as_slice(), writer)
}

//! A script on its way, line by line.

ghost use Rattle.std.specs.Prelude.{◌≡◌, ◌≤◌, ◌<◌, ◌+◌, length, IfOk, OnSome};
ghost use Rattle.script_run.specs.Standings.{IsFresh, standing};
ghost use Rattle.script_run.specs.Replying.{GoesOn, run_state, first_state};

use crate::line_answer::LineAnswer;
use crate::runner::Runner;
use futures::task::Solo;
use script_commands::{NameHash, ScriptObject};
use script_words::Lines;
use std::alloc::{AllocError, Global};

/// A script that was read, and is run as far as its answers are taken. It must be spent, by [`close`](ScriptRun::close), since what
/// it made must be.
pub struct ScriptRun<'s, 't, O: ScriptObject<'s>> {
    runner: Runner<'s, 't, O>,
    // The lines that are left.
    lines: Lines<'s>,
    // How many lines there were before them.
    number: u64,
}

impl<'s, 't, O: ScriptObject<'s>> ScriptRun<'s, 't, O> {
    /// Before the first line of a script, whose names will be hashed so.
    pub fn new(
        alloc: Global,
        hash: NameHash,
        task: &'t Solo,
        maker: &'t O::Maker,
        script: &'s [u8],
    ) -> ScriptRun<'s, 't, O>
        ensures fresh { IsFresh (standing result.runner) }
        ensures first { run_state result ≡ first_state script.now (standing result.runner) }
    {
        ScriptRun {
            runner: Runner::new(alloc, hash, task, maker),
            lines: Lines::new(script),
            number: 0,
        }
    }

    /// Runs the lines up to the next one that has an answer, and gives that answer; nothing where no such line is left.
    pub fn next(&mut self, alloc: Global) -> Result<Option<LineAnswer>, AllocError>
        requires { self.old.number + length self.old.lines.rest.now ≤ 1048576 }
        ensures goes_on { IfOk result (λ answered. GoesOn O.makes O.asks O.joins (run_state self.old) answered (run_state self.new)) }
        ensures room { self.new.number + length self.new.lines.rest.now ≤ 1048576 }
        ensures shorter { IfOk result (λ answered. OnSome answered (length self.new.lines.rest.now < length self.old.lines.rest.now)) }
    {
        'lines: loop {
            // The last step leaves the lines as they are.
            let mut lines = self.lines;
            let Some(line) = lines.next() else {
                return Ok(None);
            };
            self.lines = lines;
            self.number += 1;
            if let Some(answer) = self.runner.reply(alloc, self.number, line)? {
                let line = self.number;
                return Ok(Some(LineAnswer { line, answer }));
            }
        }
    }

    /// Closes all that the script made, and says how much that was.
    pub fn close(self) -> usize
        ensures { result ≡ length self.entry.runner.objects.items }
    {
        let ScriptRun {
            runner,
            lines: _,
            number: _,
        } = self;
        runner.close()
    }
}

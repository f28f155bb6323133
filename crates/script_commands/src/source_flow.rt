//! The flow that a source of a script says.

ghost use Rattle.std.specs.Prelude.{◌≡◌, is_some};
ghost use Rattle.script_commands.specs.Sourced.{source_of, source_may, run_may, run_ended, run_polls};

use crate::source::Source;
use cold_flow::{
    Cause, EndingRun, Event, Finite, Flow, Numbers, Refusal, Run, Stepped, range, scripted,
};
use futures::task::{Context, Poll};
use std::alloc::Global;

/// What a source gives, and then its end. A list is read from the script again at each start.
#[derive(Drop)]
pub struct SourceFlow<'a> {
    source: Source<'a>,
    alloc: Global,
}

impl<'a> SourceFlow<'a> {
    /// Nothing is read before a start.
    pub fn new(alloc: Global, source: Source<'a>) -> SourceFlow<'a>
        ensures { source_of result ≡ source.entry }
    {
        SourceFlow { source, alloc }
    }
}

impl<'a> Flow for SourceFlow<'a> {
    ghost use Rattle.script_commands.specs.Sourced.{source_uncancelled};

    type Item = u64;

    type Fault = u64;

    type Running = SourceRun;

    ghost may = { λ f. source_may f.source };

    fn start(&self) -> Result<SourceRun, Refusal> {
        match self.source {
            Source::Of { items } => {
                let run = scripted(items.steps(self.alloc, None)?).start()?;
                Ok(SourceRun::Items(run))
            }
            Source::Range { from, to } => {
                let run = range::<u64>(from, to).start()?;
                Ok(SourceRun::Numbers(run))
            }
            Source::Fail { fault, items } => {
                let run = scripted(items.steps(self.alloc, Some(fault))?).start()?;
                Ok(SourceRun::Items(run))
            }
        }
    }

    ghost uncancelled = { λ f. source_uncancelled f.source };
}

/// The run of a source, by what it is.
#[derive(Drop)]
pub enum SourceRun {
    /// Of a list, or of a list that fails after it.
    Items(EndingRun<Stepped<u64, u64>, u64>),
    /// Of a range.
    Numbers(EndingRun<Numbers<u64>, u64>),
}

impl Run for SourceRun {
    ghost use Rattle.cold_flow.specs.Laws.{some-stops};
    ghost use Rattle.script_commands.specs.Sourced.{run_begins, run_over};

    type Item = u64;

    type Fault = u64;

    ghost may = { λ r. run_may r };

    ghost ended = { λ r. run_ended r };

    ghost stopped = { λ r. is_some (run_ended r) };

    ghost polls = { λ r. run_polls r };

    fn poll_next(&mut self, cx: &mut Context<'_>) -> Poll<Event<u64, u64>> {
        match self {
            SourceRun::Items(run) => run.poll_next(cx),
            SourceRun::Numbers(run) => run.poll_next(cx),
        }
    }

    fn end(&self) -> Option<Cause<u64>> {
        match self {
            SourceRun::Items(run) => run.end(),
            SourceRun::Numbers(run) => run.end(),
        }
    }

    fn cancel(&mut self) {
        match self {
            SourceRun::Items(run) => run.cancel(),
            SourceRun::Numbers(run) => run.cancel(),
        }
    }

    ghost halts = { λ r. some-stops (run_ended r) };

    ghost begins = { λ r. run_begins r };

    ghost over = { λ r. run_over r };
}

impl Finite for SourceRun {
    ghost use Rattle.script_commands.specs.Sourced.{run_finite};

    ghost is_finite = { λ r. run_finite r };
}

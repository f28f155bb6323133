//! The buffers of a script.

ghost use Rattle.flow_buffer.specs.Capacity.{refused_capacity};
ghost use Rattle.script_run.specs.Buffers.{begun, filled, taken};
ghost use Rattle.script_run.specs.Buffered.{ShowsBuffer, FollowsBuffer, AsksBuffer, MadeUnless};
ghost use Rattle.script_commands.specs.Sources.{origin_in};

use cold_flow::{Event, Flow, Run};
use flow_buffer::{Buffered, Fill, buffer};
use flow_terms::{Policy, Refusal};
use futures::task::{Context, Poll};
use script_commands::{Answer, Part, Request, Source, SourceFlow, SourceRun};
use std::alloc::Global;

/// A buffer of a script, behind a source.
#[derive(Drop)]
pub struct ScriptBuffer {
    run: Buffered<SourceRun>,
}

impl ScriptBuffer {
    /// Makes a buffer behind a source, and starts it.
    ///
    /// Refused, in this order, with `Refusal::TooLarge` for a capacity over 65,536, `Refusal::NotPositive` for 0, and
    /// `Refusal::NoMemory`.
    pub fn new(
        alloc: Global,
        source: Source<'_>,
        capacity: u64,
        policy: Policy,
    ) -> Result<ScriptBuffer, Refusal>
        ensures { MadeUnless (refused_capacity capacity) result (λ made. ShowsBuffer made (begun capacity policy (origin_in source.entry))) }
    {
        let flow = buffer(alloc, SourceFlow::new(alloc, source), capacity, policy)?;
        let run = flow.start()?;
        Ok(ScriptBuffer { run })
    }

    /// Fills the buffer once.
    fn fill(&mut self, cx: &mut Context<'_>) -> Fill
        ensures { FollowsBuffer filled self.old result self.new }
    {
        self.run.poll_fill(cx)
    }

    /// Takes the oldest held value, or what the source gives where none is held.
    fn take(&mut self, cx: &mut Context<'_>) -> Poll<Event<u64, u64>>
        ensures { FollowsBuffer taken self.old result self.new }
    {
        self.run.poll_next(cx)
    }

    /// Answers a command, or nothing where it is none for this part of a buffer.
    pub fn ask(&mut self, part: Part, request: Request, cx: &mut Context<'_>) -> Option<Answer>
        ensures { AsksBuffer part request self.old result self.new }
    {
        match (part, request) {
            (Part::Whole, Request::Fill) => Some(Answer::from(self.fill(cx))),
            (Part::Whole, Request::Next) => Some(Answer::from(self.take(cx))),
            _ => None,
        }
    }
}

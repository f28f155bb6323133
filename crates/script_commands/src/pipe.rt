//! Pipes: a source, and the stages that its values go through.

ghost use Rattle.std.specs.Prelude.{◌≡◌, Bool};
ghost use Rattle.std.specs.List.{list_all};
ghost use Rattle.std.specs.Option.{option_map};
ghost use Rattle.script_words.specs.Lines.{words_of};
ghost use Rattle.script_commands.specs.Pipes.{pipe_in, pipe_of};
ghost use Rattle.script_commands.specs.Piping.{outcome_of, pipe_answer, Comes};
ghost use Rattle.script_words.specs.Segments.{segments_left};
ghost use Rattle.script_commands.specs.Stages.{is_stage};

use crate::answer::Answer;
use crate::gathered::{Gathered, Stop};
use crate::listing::Listing;
use crate::source::Source;
use crate::stage::Stage;
use futures::task::Context;
use script_words::{Segments, Words};
use std::alloc::Global;

/// A pipe as a line says it. Its stages are read where they are run, so that it takes no memory.
#[derive(Clone, Copy)]
pub struct Pipe<'a> {
    source: Source<'a>,
    // Each of these segments is a stage.
    stages: Segments<'a>,
}

/// Whether each of these segments is a stage.
fn are_stages(mut segments: Segments<'_>) -> bool
    ensures { result ≡ list_all is_stage (segments_left segments.entry) }
{
    while let Some(words) = segments.next() {
        if Stage::parse(words).is_none() {
            return false;
        }
    }
    true
}

impl<'a> Pipe<'a> {
    /// The pipe that all of these words say.
    pub fn parse(words: Words<'a>) -> Option<Pipe<'a>>
        ensures { option_map pipe_in result ≡ pipe_of (words_of words.entry.rest.now) }
    {
        let mut stages = Segments::new(words);
        let source = Source::parse(stages.next()?)?;
        if are_stages(stages) {
            Some(Pipe { source, stages })
        } else {
            None
        }
    }

    /// What the pipe comes to: each stage runs over what the one before it gave.
    fn run(self, alloc: Global, cx: &mut Context<'_>) -> Result<Gathered, Stop>
        ensures { Comes (outcome_of (pipe_in self.entry)) result }
    {
        let mut gathered = self.source.run(alloc, cx)?;
        let mut stages = self.stages;
        while let Some(words) = stages.next() {
            if let Some(stage) = Stage::parse(words) {
                gathered = stage.run(alloc, &gathered, cx)?;
            }
        }
        Ok(gathered)
    }

    /// What the pipe answers: its values and how they end, or why it stopped. The first stage that is refused or gives too
    /// many values, the source included, decides.
    pub fn answer(self, alloc: Global, cx: &mut Context<'_>) -> Answer
        ensures { (refused : Bool) × (result ≡ pipe_answer refused (pipe_in self.entry)) }
    {
        match self.run(alloc, cx) {
            Ok(Gathered { mut values, fault }) => {
                // An answer may be kept, so it gives back room of which less than half is used.
                if values.len() < values.capacity() / 2 {
                    values.shrink_to_fit();
                }
                Answer::Collected {
                    values: Listing::new(values),
                    fault,
                }
            }
            Err(Stop::Refused(refusal)) => Answer::Refused(refusal),
            Err(Stop::TooMany) => Answer::TooMany,
        }
    }
}

//! Sources of a script: where the values of a flow come from.

ghost use Rattle.std.specs.Prelude.{◌≡◌};
ghost use Rattle.std.specs.Option.{option_map};
ghost use Rattle.script_commands.specs.Items.{written};
ghost use Rattle.script_words.specs.Lines.{words_of};
ghost use Rattle.script_commands.specs.Piping.{bounded, Comes};
ghost use Rattle.script_commands.specs.Sources.{origin_in, given, origin_of, last_list, of_of, range_of, fail_of};

use crate::gathered::{Gathered, Stop};
use crate::items::Items;
use crate::source_flow::SourceFlow;
use cold_flow::range as range_flow;
use futures::task::Context;
use script_words::Words;
use std::alloc::Global;

/// A source as a line says it.
#[derive(Clone, Copy)]
pub enum Source<'a> {
    /// The values of a list, or none: `of`, `of L`.
    Of { items: Items<'a> },
    /// The numbers from `from` up to below `to`: `range A B`.
    Range { from: u64, to: u64 },
    /// The values of a list, or none, and then a failure: `fail E`, `fail E L`.
    Fail { fault: u64, items: Items<'a> },
}

/// The list that the last word is, or no items where no word is left.
fn last_list<'a>(words: &mut Words<'a>) -> Option<Items<'a>>
    ensures { option_map written result ≡ last_list (words_of words.old.rest.now) }
{
    let Some(word) = words.next() else {
        return Some(Items::none());
    };
    let items = Items::of(word)?;
    words.end()?;
    Some(items)
}

#[tactic(auto, unfolding(crate::specs::Sources::of_of))]
fn of<'a>(words: &mut Words<'a>) -> Option<Source<'a>>
    ensures { option_map origin_in result ≡ of_of (words_of words.old.rest.now) }
{
    let items = last_list(words)?;
    Some(Source::Of { items })
}

#[tactic(auto, unfolding(crate::specs::Sources::range_of))]
fn range<'a>(words: &mut Words<'a>) -> Option<Source<'a>>
    ensures { option_map origin_in result ≡ range_of (words_of words.old.rest.now) }
{
    let from = words.number()?;
    let to = words.number()?;
    words.end()?;
    Some(Source::Range { from, to })
}

#[tactic(auto, unfolding(crate::specs::Sources::fail_of))]
fn fail<'a>(words: &mut Words<'a>) -> Option<Source<'a>>
    ensures { option_map origin_in result ≡ fail_of (words_of words.old.rest.now) }
{
    let fault = words.number()?;
    let items = last_list(words)?;
    Some(Source::Fail { fault, items })
}

impl<'a> Source<'a> {
    /// The source that all of these words say.
    pub fn parse(mut words: Words<'a>) -> Option<Source<'a>>
        ensures { option_map origin_in result ≡ origin_of (words_of words.entry.rest.now) }
    {
        let first = words.next()?;
        if first == b"of".as_slice() {
            of(&mut words)
        } else if first == b"range".as_slice() {
            range(&mut words)
        } else if first == b"fail".as_slice() {
            fail(&mut words)
        } else {
            None
        }
    }

    /// What the source gives, pending answers left out. A range is polled as itself, not as one of several sources.
    /// It is refused with `Refusal::NoMemory` alone.
    pub(crate) fn run(self, alloc: Global, cx: &mut Context<'_>) -> Result<Gathered, Stop>
        ensures { Comes (bounded (given (origin_in self.entry))) result }
    {
        match self {
            Source::Range { from, to } => {
                let room = to.saturating_sub(from) as usize;
                Gathered::of(alloc, range_flow::<u64>(from, to), room, cx)
            }
            Source::Of { .. } | Source::Fail { .. } => {
                Gathered::of(alloc, SourceFlow::new(alloc, self), 0, cx)
            }
        }
    }
}

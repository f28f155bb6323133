//! What a line asks for.

ghost use Rattle.std.specs.Prelude.{◌≡◌};
ghost use Rattle.std.specs.Option.{option_map};
ghost use Rattle.script_words.specs.Lines.{words_of};
ghost use Rattle.script_commands.specs.declared.request.Request.TheVariants.{Try, Set, CompareAndSet, Tick};
ghost use Rattle.script_commands.specs.Commands.{order_of, asks, asks_with, asks_with_two, joins, joins_with, collector, emission, joining_in, subscribes, subscribing, cold_of, command_of};

mod keywords;

use crate::making::Making;
use crate::pipe::Pipe;
use crate::request::{Joiner, Request};
use script_words::{Numbers, Words};

/// What a line asks for. Names are parts of the script.
#[derive(Clone, Copy)]
pub enum Command<'a> {
    /// Something is made, and the name stands for it.
    Make {
        name: &'a [u8],
        making: Making<'a>,
    },
    /// A party joins what the host's name stands for, under a name of its own.
    Join {
        host: &'a [u8],
        name: &'a [u8],
        joiner: Joiner<'a>,
    },
    /// What a name stands for is asked something.
    Ask {
        name: &'a [u8],
        request: Request,
    },
    /// A pipe is collected whole.
    Cold {
        pipe: Pipe<'a>,
    },
}

/// A name, and nothing after it.
#[tactic(auto, unfolding(crate::specs::Commands::asks))]
fn ask<'a>(mut words: Words<'a>, request: Request) -> Option<Command<'a>>
    ensures { option_map order_of result ≡ asks request (words_of words.entry.rest.now) }
{
    let name = words.name()?;
    words.end()?;
    Some(Command::Ask { name, request })
}

#[tactic(auto, unfolding(crate::specs::Commands::asks_with))]
fn try_emit<'a>(mut words: Words<'a>) -> Option<Command<'a>>
    ensures { option_map order_of result ≡ asks_with Try (words_of words.entry.rest.now) }
{
    let name = words.name()?;
    let request = Request::Try(words.number()?);
    words.end()?;
    Some(Command::Ask { name, request })
}

#[tactic(auto, unfolding(crate::specs::Commands::asks_with))]
fn set<'a>(mut words: Words<'a>) -> Option<Command<'a>>
    ensures { option_map order_of result ≡ asks_with Set (words_of words.entry.rest.now) }
{
    let name = words.name()?;
    let request = Request::Set(words.number()?);
    words.end()?;
    Some(Command::Ask { name, request })
}

#[tactic(auto, unfolding(crate::specs::Commands::asks_with))]
fn tick<'a>(mut words: Words<'a>) -> Option<Command<'a>>
    ensures { option_map order_of result ≡ asks_with Tick (words_of words.entry.rest.now) }
{
    let name = words.name()?;
    let request = Request::Tick(words.number()?);
    words.end()?;
    Some(Command::Ask { name, request })
}

#[tactic(auto, unfolding(crate::specs::Commands::asks_with_two))]
fn compare_and_set<'a>(mut words: Words<'a>) -> Option<Command<'a>>
    ensures { option_map order_of result ≡ asks_with_two CompareAndSet (words_of words.entry.rest.now) }
{
    let name = words.name()?;
    let expect = words.number()?;
    let update = words.number()?;
    words.end()?;
    let request = Request::CompareAndSet(expect, update);
    Some(Command::Ask { name, request })
}

#[tactic(auto, unfolding(crate::specs::Commands::joins))]
fn collect<'a>(mut words: Words<'a>) -> Option<Command<'a>>
    ensures { option_map order_of result ≡ joins collector (words_of words.entry.rest.now) }
{
    let host = words.name()?;
    let name = words.name()?;
    words.end()?;
    let joiner = Joiner::Collector;
    Some(Command::Join { host, name, joiner })
}

/// A subscription, by the words after its name: none, or `with` and the numbers of its prelude.
#[tactic(auto, unfolding(crate::specs::Commands::subscribing))]
fn subscription<'a>(mut words: Words<'a>) -> Option<Joiner<'a>>
    ensures { option_map joining_in result ≡ subscribing (words_of words.entry.rest.now) }
{
    let Some(word) = words.next() else {
        return Some(Joiner::Subscription(Numbers::none()));
    };
    if word != b"with".as_slice() {
        return None;
    }
    let numbers = Numbers::take(&mut words)?;
    words.end()?;
    Some(Joiner::Subscription(numbers))
}

#[tactic(auto, unfolding(crate::specs::Commands::subscribes))]
fn subscribe<'a>(mut words: Words<'a>) -> Option<Command<'a>>
    ensures { option_map order_of result ≡ subscribes (words_of words.entry.rest.now) }
{
    let host = words.name()?;
    let name = words.name()?;
    let joiner = subscription(words)?;
    Some(Command::Join { host, name, joiner })
}

#[tactic(auto, unfolding(crate::specs::Commands::joins_with))]
fn emit<'a>(mut words: Words<'a>) -> Option<Command<'a>>
    ensures { option_map order_of result ≡ joins_with emission (words_of words.entry.rest.now) }
{
    let host = words.name()?;
    let name = words.name()?;
    let joiner = Joiner::Emission(words.number()?);
    words.end()?;
    Some(Command::Join { host, name, joiner })
}

#[tactic(auto, unfolding(crate::specs::Commands::cold_of))]
fn cold<'a>(words: Words<'a>) -> Option<Command<'a>>
    ensures { option_map order_of result ≡ cold_of (words_of words.entry.rest.now) }
{
    let pipe = Pipe::parse(words)?;
    Some(Command::Cold { pipe })
}

impl<'a> Command<'a> {
    /// The command that the words of a line say.
    pub fn parse(first: &[u8], words: Words<'a>) -> Option<Command<'a>>
        ensures { option_map order_of result ≡ command_of first.now (words_of words.entry.rest.now) }
    {
        let letters = first.len();
        if letters == 3 {
            keywords::of_three(first, words)
        } else if letters == 4 {
            keywords::of_four(first, words)
        } else if letters == 5 {
            keywords::of_five(first, words)
        } else if letters == 6 {
            keywords::of_six(first, words)
        } else if letters == 7 {
            keywords::of_seven(first, words)
        } else if letters == 8 {
            keywords::of_eight(first, words)
        } else {
            None
        }
    }
}

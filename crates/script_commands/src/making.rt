//! What a line makes.

ghost use Rattle.std.specs.Prelude.{◌≡◌};
ghost use Rattle.std.specs.Option.{option_map};
ghost use Rattle.script_words.specs.Lines.{words_of};
ghost use Rattle.script_commands.specs.Commands.{order_of, shared_of, state_of, buffer_of, share_of, stated_of};

use crate::command::Command;
use crate::source::Source;
use flow_terms::Policy;
use script_words::{Start, Words};

/// What a line makes, for a name to stand for.
#[derive(Clone, Copy)]
pub enum Making<'a> {
    /// A shared flow: `shared`.
    Shared {
        replay: u64,
        extra: u64,
        policy: Policy,
    },
    /// A state with this value: `state`.
    State {
        value: u64,
    },
    /// A buffer behind a source: `buffer`.
    Buffer {
        capacity: u64,
        policy: Policy,
        source: Source<'a>,
    },
    /// A shared flow that shares a source: `share`.
    Share {
        replay: u64,
        extra: u64,
        policy: Policy,
        start: Start<'a>,
        source: Source<'a>,
    },
    /// A state that is set from a source: `stated`.
    Stated {
        value: u64,
        start: Start<'a>,
        source: Source<'a>,
    },
}

#[tactic(auto, unfolding(crate::specs::Commands::shared_of))]
pub(crate) fn shared<'a>(mut words: Words<'a>) -> Option<Command<'a>>
    ensures { option_map order_of result ≡ shared_of (words_of words.entry.rest.now) }
{
    let name = words.name()?;
    let replay = words.number()?;
    let extra = words.number()?;
    let policy = words.policy()?;
    words.end()?;
    let making = Making::Shared {
        replay,
        extra,
        policy,
    };
    Some(Command::Make { name, making })
}

#[tactic(auto, unfolding(crate::specs::Commands::state_of))]
pub(crate) fn state<'a>(mut words: Words<'a>) -> Option<Command<'a>>
    ensures { option_map order_of result ≡ state_of (words_of words.entry.rest.now) }
{
    let name = words.name()?;
    let value = words.number()?;
    words.end()?;
    let making = Making::State { value };
    Some(Command::Make { name, making })
}

#[tactic(auto, unfolding(crate::specs::Commands::buffer_of))]
pub(crate) fn buffer<'a>(mut words: Words<'a>) -> Option<Command<'a>>
    ensures { option_map order_of result ≡ buffer_of (words_of words.entry.rest.now) }
{
    let name = words.name()?;
    let capacity = words.number()?;
    let policy = words.policy()?;
    let source = Source::parse(words)?;
    let making = Making::Buffer {
        capacity,
        policy,
        source,
    };
    Some(Command::Make { name, making })
}

#[tactic(auto, unfolding(crate::specs::Commands::share_of))]
pub(crate) fn share<'a>(mut words: Words<'a>) -> Option<Command<'a>>
    ensures { option_map order_of result ≡ share_of (words_of words.entry.rest.now) }
{
    let name = words.name()?;
    let replay = words.number()?;
    let extra = words.number()?;
    let policy = words.policy()?;
    let start = Start::take(&mut words)?;
    let source = Source::parse(words)?;
    let making = Making::Share {
        replay,
        extra,
        policy,
        start,
        source,
    };
    Some(Command::Make { name, making })
}

#[tactic(auto, unfolding(crate::specs::Commands::stated_of))]
pub(crate) fn stated<'a>(mut words: Words<'a>) -> Option<Command<'a>>
    ensures { option_map order_of result ≡ stated_of (words_of words.entry.rest.now) }
{
    let name = words.name()?;
    let value = words.number()?;
    let start = Start::take(&mut words)?;
    let source = Source::parse(words)?;
    let making = Making::Stated {
        value,
        start,
        source,
    };
    Some(Command::Make { name, making })
}

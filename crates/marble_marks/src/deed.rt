//! What a line does to values, as far as more is told by it than by its own answer.

ghost use Rattle.std.specs.Prelude.{◌≡◌, IfOk, map};
ghost use Rattle.std.specs.Option.{option_map};
ghost use Rattle.script_commands.specs.Commands.{order_of, made_in, joining_in};
ghost use Rattle.marble_marks.specs.AnsweredLines.{asked_in};
ghost use Rattle.marble_marks.specs.Deeds.{doing_in, emitting, withdrawing, making, joining, asking, doing_of, done_in, done_by};

use crate::answered::AnsweredLine;
use crate::reply::Reply;
use script_commands::{Command, Joiner, Making, Request};
use std::alloc::{AllocError, Global};

/// What a line does.
#[derive(Clone, Copy)]
pub(crate) enum Deed<'a> {
    /// A shared flow begins, with so many values for newcomers, and so many more that may be pending.
    Opens {
        host: &'a [u8],
        replay: u64,
        extra: u64,
    },
    /// A flow accepts a value at once.
    Accepts {
        host: &'a [u8],
        value: u64,
    },
    /// An emission of a value has to wait.
    Waits {
        host: &'a [u8],
        ticket: &'a [u8],
        value: u64,
    },
    /// An emission that had to wait is taken back.
    Removes {
        ticket: &'a [u8],
    },
    /// A state begins with a value.
    Begins {
        host: &'a [u8],
        value: u64,
    },
    /// A state is set to a value.
    Sets {
        host: &'a [u8],
        value: u64,
    },
    /// A subscription or a collector begins, with a prelude of so many values.
    Joins {
        host: &'a [u8],
        guest: &'a [u8],
        prelude: usize,
    },
    /// A subscription or a collector receives a value.
    Takes {
        guest: &'a [u8],
    },
    /// A subscription or a collector ends.
    Ends {
        guest: &'a [u8],
    },
    /// A flow's replay cache is emptied.
    Empties {
        host: &'a [u8],
    },
    Nothing,
}

/// What a line does, and in which column that is shown.
#[derive(Clone, Copy)]
pub(crate) struct Act<'a> {
    pub(crate) column: usize,
    pub(crate) deed: Deed<'a>,
}

/// What an emission does.
fn emitting<'a>(host: &'a [u8], ticket: &'a [u8], value: u64, reply: Reply) -> Deed<'a>
    ensures { doing_in result ≡ emitting host.now ticket.now value reply }
{
    match reply {
        Reply::Accepted => Deed::Accepts { host, value },
        Reply::Waiting => Deed::Waits {
            host,
            ticket,
            value,
        },
        _ => Deed::Nothing,
    }
}

/// What a `withdraw` does.
fn withdrawing<'a>(ticket: &'a [u8], reply: Reply) -> Deed<'a>
    ensures { doing_in result ≡ withdrawing ticket.now reply }
{
    match reply {
        Reply::Removed => Deed::Removes { ticket },
        _ => Deed::Nothing,
    }
}

/// What it does to make something.
fn making<'a>(name: &'a [u8], made: Making<'a>, reply: Reply) -> Deed<'a>
    ensures { doing_in result ≡ making name.now (made_in made.entry) reply }
{
    match made {
        Making::Shared { replay, extra, .. } => match reply {
            Reply::Ok => Deed::Opens {
                host: name,
                replay,
                extra,
            },
            _ => Deed::Nothing,
        },
        Making::State { value } => match reply {
            Reply::Ok => Deed::Begins { host: name, value },
            _ => Deed::Nothing,
        },
        _ => Deed::Nothing,
    }
}

/// What it does to join something.
fn joining<'a>(host: &'a [u8], name: &'a [u8], joiner: Joiner<'a>, reply: Reply) -> Deed<'a>
    ensures { doing_in result ≡ joining host.now name.now (joining_in joiner.entry) reply }
{
    match joiner {
        Joiner::Subscription(prelude) => match reply {
            Reply::Ok => Deed::Joins {
                host,
                guest: name,
                prelude: prelude.count(),
            },
            _ => Deed::Nothing,
        },
        Joiner::Collector => match reply {
            Reply::Ok => Deed::Joins {
                host,
                guest: name,
                prelude: 0,
            },
            _ => Deed::Nothing,
        },
        Joiner::Emission(value) => emitting(host, name, value, reply),
    }
}

/// What a request does.
fn asking<'a>(name: &'a [u8], request: Request, reply: Reply) -> Deed<'a>
    ensures { doing_in result ≡ asking name.now request reply }
{
    match request {
        Request::Try(value) => match reply {
            Reply::Accepted => Deed::Accepts { host: name, value },
            _ => Deed::Nothing,
        },
        Request::Set(value) => match reply {
            Reply::Ok => Deed::Sets { host: name, value },
            _ => Deed::Nothing,
        },
        Request::CompareAndSet(_, value) => match reply {
            Reply::True => Deed::Sets { host: name, value },
            _ => Deed::Nothing,
        },
        Request::Next => match reply {
            Reply::Value(_) => Deed::Takes { guest: name },
            _ => Deed::Nothing,
        },
        Request::Cancel => match reply {
            Reply::Ok => Deed::Ends { guest: name },
            _ => Deed::Nothing,
        },
        Request::Reset => match reply {
            Reply::Ok => Deed::Empties { host: name },
            _ => Deed::Nothing,
        },
        Request::Withdraw => withdrawing(name, reply),
        _ => Deed::Nothing,
    }
}

/// What a command with this reply does.
fn deed_of<'a>(command: Option<Command<'a>>, reply: Reply) -> Deed<'a>
    ensures { doing_in result ≡ doing_of (option_map order_of command.entry) reply }
{
    match command {
        Some(Command::Make { name, making: made }) => making(name, made, reply),
        Some(Command::Join { host, name, joiner }) => joining(host, name, joiner, reply),
        Some(Command::Ask { name, request }) => asking(name, request, reply),
        Some(Command::Cold { .. }) | None => Deed::Nothing,
    }
}

/// What these lines do.
pub(crate) fn acts<'a>(
    alloc: Global,
    answered_lines: &[AnsweredLine<'a>],
) -> Result<Vec<Act<'a>>, AllocError>
    ensures { IfOk result (λ acts. map done_in acts.items ≡ map done_by (map asked_in answered_lines.now)) }
{
    let mut acts = Vec::new(alloc);
    for answered in answered_lines {
        acts.push(Act {
            column: answered.column,
            deed: deed_of(answered.command, Reply::of(answered.answer)),
        })?;
    }
    Ok(acts)
}

//! What a command and its answer show, and for whom.

use crate::start::reply::Reply;
use marble_marks::{Kind, Row};
use script_commands::{Command, Joiner, Making, Request};

/// What happened to what a name stands for.
#[derive(Clone, Copy)]
pub(crate) struct Happening<'a> {
    pub(crate) name: &'a [u8],
    pub(crate) kind: Kind,
}

/// What row something that is made has.
fn row_made(making: Making<'_>) -> Row {
    match making {
        Making::Shared { .. } | Making::Share { .. } => Row::Flow,
        Making::State { value } | Making::Stated { value, .. } => Row::State(value),
        Making::Buffer { .. } => Row::Buffer,
    }
}

/// What happened when a party joined.
fn joins<'a>(
    host: &'a [u8],
    name: &'a [u8],
    joiner: Joiner<'a>,
    reply: Reply,
) -> Option<Happening<'a>> {
    match joiner {
        Joiner::Subscription(_) => match reply {
            Reply::Ok => Some(Happening {
                name,
                kind: Kind::Begun(Row::Subscription),
            }),
            _ => None,
        },
        Joiner::Collector => match reply {
            Reply::Ok => Some(Happening {
                name,
                kind: Kind::Begun(Row::Collector),
            }),
            _ => None,
        },
        Joiner::Emission(value) => match reply {
            Reply::Accepted => Some(Happening {
                name: host,
                kind: Kind::Accepted(value),
            }),
            Reply::Dropped => Some(Happening {
                name: host,
                kind: Kind::Dropped(value),
            }),
            Reply::Waiting => Some(Happening {
                name,
                kind: Kind::Begun(Row::Ticket(value)),
            }),
            _ => None,
        },
    }
}

/// Another answer than those that are shown by a kind of their own. A bad line shows nothing on a row.
fn said(reply: Reply) -> Option<Kind> {
    match reply {
        Reply::Bad(_) => None,
        _ => Some(Kind::Said),
    }
}

/// What a `next` shows.
fn next_kind(reply: Reply) -> Option<Kind> {
    match reply {
        Reply::Value(value) => Some(Kind::Received(value)),
        Reply::Pending => Some(Kind::Nothing),
        _ => said(reply),
    }
}

/// What a `poll` or a `withdraw` shows.
fn ticket_kind(reply: Reply) -> Option<Kind> {
    match reply {
        Reply::Waiting => Some(Kind::Waiting),
        Reply::Done => Some(Kind::Done),
        Reply::Removed => Some(Kind::Removed),
        Reply::Left => Some(Kind::Left),
        Reply::Gone => Some(Kind::Gone),
        _ => None,
    }
}

/// What a `value` shows.
fn value_kind(reply: Reply) -> Option<Kind> {
    match reply {
        Reply::Value(value) => Some(Kind::Holds(value)),
        _ => said(reply),
    }
}

/// What a `try` of this value shows.
fn try_kind(value: u64, reply: Reply) -> Option<Kind> {
    match reply {
        Reply::Accepted => Some(Kind::Accepted(value)),
        Reply::Dropped => Some(Kind::Dropped(value)),
        Reply::Full => Some(Kind::Full(value)),
        _ => said(reply),
    }
}

/// What a tick shows. One that is answered `off` takes nothing.
fn tick_kind(reply: Reply) -> Option<Kind> {
    match reply {
        Reply::On | Reply::Failed => Some(Kind::Ticked),
        _ => said(reply),
    }
}

/// What a request shows.
fn asks(request: Request, reply: Reply) -> Option<Kind> {
    match request {
        Request::Next => next_kind(reply),
        Request::Poll | Request::Withdraw => ticket_kind(reply),
        Request::Value => value_kind(reply),
        Request::Try(value) => try_kind(value, reply),
        Request::Tick(_) => tick_kind(reply),
        Request::Cancel => match reply {
            Reply::Ok => Some(Kind::Cancelled),
            _ => said(reply),
        },
        Request::Set(value) => match reply {
            Reply::Ok => Some(Kind::Set(value)),
            _ => said(reply),
        },
        Request::CompareAndSet(_, value) => match reply {
            Reply::True => Some(Kind::Set(value)),
            _ => said(reply),
        },
        _ => said(reply),
    }
}

/// What a command with this reply shows.
pub(crate) fn happening_of<'a>(command: Command<'a>, reply: Reply) -> Option<Happening<'a>> {
    match command {
        Command::Make { name, making } => match reply {
            Reply::Ok => Some(Happening {
                name,
                kind: Kind::Begun(row_made(making)),
            }),
            _ => None,
        },
        Command::Join { host, name, joiner } => joins(host, name, joiner, reply),
        Command::Ask { name, request } => {
            let kind = asks(request, reply)?;
            Some(Happening { name, kind })
        }
        Command::Cold { .. } => None,
    }
}

//! What shares a source of a script, and is told the time.

ghost use Rattle.std.specs.Prelude.{IfOk};
ghost use Rattle.script_run.specs.Sources.{AsksShare, AsksStated};

use crate::sourced::Sourced;
use crate::states::ask_read;
use crate::subscriptions::ask_shared;
use futures::task::Context;
use script_calls::{Shared, SharedSource, State};
use script_commands::{Answer, Part, Request};
use std::alloc::{AllocError, Global};

/// Answers a command to a part of a shared flow that shares a source, or nothing.
pub(crate) fn ask_share<L: Shared, H: SharedSource>(
    share: &mut Sourced<L, H>,
    alloc: Global,
    part: Part,
    request: Request,
    cx: &mut Context<'_>,
) -> Result<Option<Answer>, AllocError>
    ensures { IfOk result (λ answer. AsksShare L.receipts H.turns part request share.old answer share.new) }
{
    match (part, request) {
        (Part::Whole, Request::Tick(now)) => Ok(Some(Answer::from(share.source.tick(now, cx)))),
        _ => ask_shared(&mut share.shown, alloc, part, request, cx),
    }
}

/// Answers a command to a part of a state that is set from a source, or nothing: only the source sets it.
pub(crate) fn ask_stated<S: State, K: SharedSource>(
    stated: &mut Sourced<S, K>,
    part: Part,
    request: Request,
    cx: &mut Context<'_>,
) -> Option<Answer>
    ensures { AsksStated S.readings K.turns part request stated.old result stated.new }
{
    match (part, request) {
        (Part::Whole, Request::Tick(now)) => Some(Answer::from(stated.source.tick(now, cx))),
        _ => ask_read(&mut stated.shown, part, request),
    }
}

//! Shared flows of a script into which it emits.

ghost use Rattle.std.specs.Prelude.{IfOk};
ghost use Rattle.script_commands.specs.Commands.{joining_in};
ghost use Rattle.script_run.specs.Flows.{AsksFlow, JoinsFlow};

use crate::subscriptions::{ask_shared, join_shared};
use futures::task::Context;
use script_calls::MutableShared;
use script_commands::{Answer, Joiner, Part, Request};
use std::alloc::{AllocError, Global};

/// Answers a command to a part of a shared flow, or nothing.
pub(crate) fn ask_flow<F: MutableShared>(
    flow: &mut F,
    alloc: Global,
    part: Part,
    request: Request,
    cx: &mut Context<'_>,
) -> Result<Option<Answer>, AllocError>
    ensures { IfOk result (λ answer. AsksFlow F.receipts F.emissions part request flow.old answer flow.new) }
{
    let answer = match (part, request) {
        (Part::Whole, Request::Try(value)) => Answer::from(flow.try_emit(value)),
        (Part::Whole, Request::Reset) => {
            flow.reset();
            Answer::Ok
        }
        (Part::InFlight(ticket), Request::Poll) => Answer::from(flow.poll_emit(ticket, cx)),
        (Part::InFlight(ticket), Request::Withdraw) => Answer::from(flow.withdraw(ticket)),
        (Part::Finished, Request::Poll | Request::Withdraw) => Answer::Gone,
        _ => return ask_shared(flow, alloc, part, request, cx),
    };
    Ok(Some(answer))
}

/// Lets a party join a shared flow, and says what its name is, if anything was made; nothing where a part takes no such party.
pub(crate) fn join_flow<F: MutableShared>(
    flow: &mut F,
    part: Part,
    joiner: Joiner<'_>,
) -> Option<(Answer, Option<Part>)>
    ensures { JoinsFlow F.receipts F.emissions part (joining_in joiner.entry) flow.old result flow.new }
{
    match (part, joiner) {
        (Part::Whole, Joiner::Emission(value)) => {
            let begun = flow.start_emit(value);
            Some((Answer::from(begun), Part::of_emission(begun)))
        }
        _ => join_shared(flow, part, joiner),
    }
}

//! Subscriptions of a script's shared flows.

ghost use Rattle.std.specs.Prelude.{◌≡◌, ◌≤◌, length, take, IfOk};
ghost use Rattle.script_commands.specs.Commands.{joining_in};
ghost use Rattle.script_run.specs.Flows.{AsksShared, JoinsShared, SubscribesUnless};
ghost use Rattle.script_run.specs.Preludes.{prelude_refusal};
ghost use Rattle.script_words.specs.Numbers.{written};

use flow_terms::{Refusal, SubId};
use futures::task::Context;
use script_calls::Shared;
use script_commands::{Answer, Joiner, Part, Request};
use script_words::Numbers;
use std::alloc::{AllocError, Global};

/// More numbers make no prelude.
const MOST_NUMBERS: usize = 16;

/// These numbers, and zeros after them.
fn numbers_in(numbers: Numbers<'_>) -> [u64; MOST_NUMBERS]
    requires { length (written numbers) ≤ 16 }
    ensures places { length result ≡ 16 }
    ensures read { take (length (written numbers.entry)) result ≡ written numbers.entry }
{
    let mut values = [0; MOST_NUMBERS];
    for index in 0..numbers.count() {
        values[index] = numbers.at(index).unwrap_or(0);
    }
    values
}

/// A new subscription with a prelude of these numbers. Refused with 10 where they are over 16, and then as the flow does.
fn subscribe<F: Shared>(flow: &mut F, numbers: Numbers<'_>) -> Result<SubId, Refusal>
    ensures { SubscribesUnless F.receipts (prelude_refusal (written numbers.entry)) (written numbers.entry) flow.old result flow.new }
{
    let count = numbers.count();
    if count > MOST_NUMBERS {
        return Err(Refusal::PreludeTooLong);
    }
    let values = numbers_in(numbers);
    flow.subscribe(&values[..count])
}

/// Answers a command to a part of a shared flow that any such flow knows, or nothing.
pub(crate) fn ask_shared<F: Shared>(
    flow: &mut F,
    alloc: Global,
    part: Part,
    request: Request,
    cx: &mut Context<'_>,
) -> Result<Option<Answer>, AllocError>
    ensures { IfOk result (λ answer. AsksShared F.receipts part request flow.old answer flow.new) }
{
    let answer = match (part, request) {
        (Part::Whole, Request::Cache) => Answer::from(flow.cache(alloc)?),
        (Part::Whole, Request::Count) => Answer::Number(u64::from(flow.count())),
        (Part::Subscription(id), Request::Next) => Answer::from(flow.next(id, cx)),
        (Part::Subscription(id), Request::Cancel) => Answer::to_cancel(flow.cancel(id)),
        _ => return Ok(None),
    };
    Ok(Some(answer))
}

/// Lets a subscription join a shared flow, and says what its name is, if one was made; nothing where a part takes no such party.
pub(crate) fn join_shared<F: Shared>(
    flow: &mut F,
    part: Part,
    joiner: Joiner<'_>,
) -> Option<(Answer, Option<Part>)>
    ensures { JoinsShared F.receipts part (joining_in joiner.entry) flow.old result flow.new }
{
    match (part, joiner) {
        (Part::Whole, Joiner::Subscription(numbers)) => {
            let subscribed = subscribe(flow, numbers);
            Some((Answer::from(subscribed), Part::of_subscription(subscribed)))
        }
        _ => None,
    }
}

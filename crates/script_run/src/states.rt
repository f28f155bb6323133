//! States of a script.

ghost use Rattle.script_commands.specs.Commands.{joining_in};
ghost use Rattle.script_run.specs.States.{AsksRead, AsksState, JoinsState};

use script_calls::{MutableState, State};
use script_commands::{Answer, Joiner, Part, Request};

/// Answers a command to a part of a state that any state knows, or nothing.
pub(crate) fn ask_read<S: State>(state: &mut S, part: Part, request: Request) -> Option<Answer>
    ensures { AsksRead S.readings part request state.old result state.new }
{
    match (part, request) {
        (Part::Whole, Request::Value) => Some(Answer::Value(state.value())),
        (Part::Whole, Request::Count) => Some(Answer::Number(u64::from(state.count()))),
        (Part::Subscription(id), Request::Next) => Some(Answer::from(state.next(id))),
        (Part::Subscription(id), Request::Cancel) => Some(Answer::to_cancel(state.cancel(id))),
        _ => None,
    }
}

/// Answers a command to a part of a state that a script sets, or nothing.
pub(crate) fn ask_state<S: MutableState>(
    state: &mut S,
    part: Part,
    request: Request,
) -> Option<Answer>
    ensures { AsksState S.readings S.settings part request state.old result state.new }
{
    match (part, request) {
        (Part::Whole, Request::Set(value)) => {
            state.set(value);
            Some(Answer::Ok)
        }
        (Part::Whole, Request::CompareAndSet(expect, update)) => {
            Some(Answer::Truth(state.compare_and_set(expect, update)))
        }
        _ => ask_read(state, part, request),
    }
}

/// Lets a collector join a state, and says what its name is, if one was made; nothing where a part takes no such party.
pub(crate) fn join_state<S: State>(
    state: &mut S,
    part: Part,
    joiner: Joiner<'_>,
) -> Option<(Answer, Option<Part>)>
    ensures { JoinsState S.readings part (joining_in joiner.entry) state.old result state.new }
{
    match (part, joiner) {
        (Part::Whole, Joiner::Collector) => {
            let collected = state.collect();
            Some((Answer::from(collected), Part::of_subscription(collected)))
        }
        _ => None,
    }
}

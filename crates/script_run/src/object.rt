//! What the names of a script stand for: one kind of object, which answers the commands that it knows.

ghost use Rattle.std.specs.Prelude.{IfOk};
ghost use Rattle.script_commands.specs.Commands.{joining_in};
ghost use Rattle.script_run.specs.Objects.{AsksObject, JoinsObject};

use crate::buffer::ScriptBuffer;
use crate::flows::{ask_flow, join_flow};
use crate::sourced::Sourced;
use crate::sources::{ask_share, ask_stated};
use crate::states::{ask_state, join_state};
use crate::subscriptions::join_shared;
use futures::task::Context;
use script_calls::{MutableShared, MutableState, Shared, SharedSource};
use script_commands::{Answer, Joiner, Part, Request};
use std::alloc::{AllocError, Global};

/// What a name of a script may stand for. It must be spent, by [`close`](Object::close).
pub enum Object<F, S, L, H, K> {
    /// A shared flow.
    Flow(F),
    /// A state with its collectors.
    State(S),
    /// A shared flow that shares a source.
    Share(Sourced<L, H>),
    /// A state that is set from a source.
    Stated(Sourced<S, K>),
    /// A buffer behind a source.
    Buffer(ScriptBuffer),
}

impl<F: MutableShared, S: MutableState, L: Shared, H: SharedSource, K: SharedSource> Object<
    F,
    S,
    L,
    H,
    K,
> {
    /// Answers a command to the part that a name is of it, or nothing where it is none for that part. Without memory for what the
    /// answer lists, there is no answer.
    pub fn ask(
        &mut self,
        alloc: Global,
        part: Part,
        request: Request,
        cx: &mut Context<'_>,
    ) -> Result<Option<Answer>, AllocError>
        ensures { IfOk result (λ answer. AsksObject F.receipts F.emissions S.readings S.settings L.receipts H.turns K.turns
            part request self.old answer self.new) }
    {
        match self {
            Object::Flow(flow) => Ok(ask_flow(flow, alloc, part, request, cx)?),
            Object::State(state) => Ok(ask_state(state, part, request)),
            Object::Share(share) => Ok(ask_share(share, alloc, part, request, cx)?),
            Object::Stated(stated) => Ok(ask_stated(stated, part, request, cx)),
            Object::Buffer(buffer) => Ok(buffer.ask(part, request, cx)),
        }
    }

    /// Lets a party join the part that a name is of it, and says what the party's name is, if anything was made; nothing where that
    /// part takes no such party.
    pub fn join(&mut self, part: Part, joiner: Joiner<'_>) -> Option<(Answer, Option<Part>)>
        ensures { JoinsObject F.receipts F.emissions S.readings L.receipts
            part (joining_in joiner.entry) self.old result self.new }
    {
        match self {
            Object::Flow(flow) => join_flow(flow, part, joiner),
            Object::State(state) => join_state(state, part, joiner),
            Object::Share(share) => join_shared(&mut share.shown, part, joiner),
            Object::Stated(stated) => join_state(&mut stated.shown, part, joiner),
            Object::Buffer(_) => None,
        }
    }

    /// Ends what was made of it, and lets it go.
    pub fn close(self) {
        match self {
            Object::Flow(flow) => flow.close(),
            Object::State(state) => state.close(),
            Object::Share(Sourced { shown, source }) => {
                source.close();
                shown.close();
            }
            Object::Stated(Sourced { shown, source }) => {
                source.close();
                shown.close();
            }
            Object::Buffer(_) => {}
        }
    }
}

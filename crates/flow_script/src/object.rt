//! What a name of a script stands for, with either engine.

ghost use Rattle.script_commands.specs.Commands.{made_in};
ghost use Rattle.flow_script.specs.Makers.{MakesWith};

use crate::engine_flow::EngineFlow;
use crate::making::{Kinds, config_of, share, stated};
use flow_terms::Refusal;
use futures::task::Context;
use script_calls::{MutableShared, MutableState, Shared, SharedSource, State};
use script_commands::{Answer, Joiner, Making, Part, Request, ScriptObject, SourceFlow};
use script_engines::{ForThreads, OneThread, Subscriptions, Watched};
use script_run::{Object, ScriptBuffer};
use script_sharings::{ScriptSharing, Stated};
use std::alloc::{AllocError, Global};
use std::sync::Wait;

/// What a name stands for where shared flows are an engine's. What shares a source is a flow for threads with each of them.
pub struct EngineObject<'s, 'r, W, F> {
    object: Kinds<'s, 'r, W, F>,
}

/// What a name stands for where shared flows are flows on one thread.
pub type CoreObject<'s, 'r, W> = EngineObject<'s, 'r, W, OneThread>;

/// What a name stands for where shared flows are flows for threads, on a lane.
pub type LaneObject<'s, 'r, W> = EngineObject<'s, 'r, W, ForThreads<'r, W>>;

/// Makes what a line says. Refused for the plan of its start, then for what it is made with, and then by `NoMemory`.
fn made<'s, 'r, W: Wait, F: EngineFlow<'r, W>>(
    rt: &'r W,
    alloc: Global,
    making: Making<'s>,
) -> Result<Kinds<'s, 'r, W, F>, Refusal>
    ensures { MakesWith F.makes (made_in making.entry) result }
{
    match making {
        Making::Shared {
            replay,
            extra,
            policy,
        } => Ok(Object::Flow(F::make(rt, alloc, replay, extra, policy)?)),
        Making::State { value } => Ok(Object::State(Watched::new(alloc, value)?)),
        Making::Buffer {
            capacity,
            policy,
            source,
        } => Ok(Object::Buffer(ScriptBuffer::new(alloc, source, capacity, policy)?)),
        Making::Share {
            replay,
            extra,
            policy,
            start,
            source,
        } => Ok(Object::Share(share(rt, alloc, config_of(replay, extra, policy), start, source)?)),
        Making::Stated {
            value,
            start,
            source,
        } => Ok(Object::Stated(stated(alloc, value, start, source)?)),
    }
}

impl<'s, 'r, W: Wait, F: EngineFlow<'r, W>> ScriptObject<'s> for EngineObject<'s, 'r, W, F> {
    ghost use Rattle.script_run.specs.Objects.{AsksObject, JoinsObject};
    ghost use Rattle.flow_script.specs.Makers.{MakesWith, made_as};

    type Maker = &'r W;

    ghost makes = { λ made result. MakesWith F.makes made (made_as (λ it. it.object) result) };

    ghost asks = { λ part request old answer new. AsksObject
        F.receipts F.emissions
        ⟦<Watched as State>⟧.readings ⟦<Watched as MutableState>⟧.settings
        ⟦<Subscriptions<'r, W> as Shared>⟧.receipts ⟦<ScriptSharing<'r, W, SourceFlow<'s>> as SharedSource>⟧.turns
        ⟦<Stated<SourceFlow<'s>> as SharedSource>⟧.turns
        part request old.object answer new.object };

    ghost joins = { λ part joining old joined new. JoinsObject
        F.receipts F.emissions
        ⟦<Watched as State>⟧.readings
        ⟦<Subscriptions<'r, W> as Shared>⟧.receipts
        part joining old.object joined new.object };

    fn make(
        maker: &&'r W,
        alloc: Global,
        making: Making<'s>,
    ) -> Result<EngineObject<'s, 'r, W, F>, Refusal> {
        let object = made(*maker, alloc, making)?;
        Ok(EngineObject { object })
    }

    fn ask(
        &mut self,
        alloc: Global,
        part: Part,
        request: Request,
        cx: &mut Context<'_>,
    ) -> Result<Option<Answer>, AllocError> {
        self.object.ask(alloc, part, request, cx)
    }

    fn join(&mut self, part: Part, joiner: Joiner<'_>) -> Option<(Answer, Option<Part>)> {
        self.object.join(part, joiner)
    }

    fn close(self) {
        let EngineObject { object } = self;
        object.close();
    }
}

//! What a name of a script stands for, as the runner of scripts knows it.

ghost use Rattle.std.specs.Prelude.{IfOk, Option, Result};
ghost use Rattle.flow_terms.specs.declared.refusal.Refusal.{Refusal};
ghost use Rattle.script_commands.specs.Commands.{Made, Joining, made_in, joining_in};
ghost use Rattle.script_commands.specs.declared.answer.Answer.{Answer};
ghost use Rattle.script_commands.specs.declared.part.Part.{Part};
ghost use Rattle.script_commands.specs.declared.request.Request.{Request};

use crate::answer::Answer;
use crate::making::Making;
use crate::part::Part;
use crate::request::{Joiner, Request};
use flow_terms::Refusal;
use futures::task::Context;
use std::alloc::{AllocError, Global};

/// What a name of a script stands for: it is made by a line, and answers the commands that it knows. It must be spent, by
/// [`close`](ScriptObject::close).
pub trait ScriptObject<'a> {
    /// Who makes it.
    type Maker;

    // What making does, by what is made.
    ghost makes: { Made → Result Self Refusal → Type 0 };

    // What a command to a part does: how the object stood, the answer, and how it stands; no answer where it is none for that part.
    ghost asks: { Part → Request → Self → Option Answer → Self → Type 0 };

    // What a party's joining a part does: the answer, and what the party's name is of the object, if anything was made.
    ghost joins: { Part → Joining → Self → Option (Answer × Option Part) → Self → Type 0 };

    /// Makes what a line says.
    fn make(maker: &Self::Maker, alloc: Global, making: Making<'a>) -> Result<Self, Refusal>
        ensures { makes (made_in making.entry) result };

    /// Answers a command to the part that a name is of it, or nothing where it is none for that part. Without memory for what the
    /// answer lists, there is no answer.
    fn ask(
        &mut self,
        alloc: Global,
        part: Part,
        request: Request,
        cx: &mut Context<'_>,
    ) -> Result<Option<Answer>, AllocError>
        ensures { IfOk result (λ answer. asks part request self.old answer self.new) };

    /// Lets a party join the part that a name is of it, and says what the party's name is, if anything was made; nothing where that
    /// part takes no such party.
    fn join(&mut self, part: Part, joiner: Joiner<'_>) -> Option<(Answer, Option<Part>)>
        ensures { joins part (joining_in joiner.entry) self.old result self.new };

    /// Ends what was made of it, and lets it go.
    fn close(self);
}

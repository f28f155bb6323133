//! What the names of a script stand for, and what its lines do.

ghost use Rattle.std.specs.Prelude.{◌≡◌, Some, length, IfOk};
ghost use Rattle.script_commands.specs.Commands.{order_of, made_in, joining_in, make, join, ask};
ghost use Rattle.script_commands.specs.declared.answer.Answer.TheVariants.{BadCommand};
ghost use Rattle.script_words.specs.Lines.{starts_with_hash};
ghost use Rattle.script_run.specs.Standings.{IsFresh, standing};
ghost use Rattle.script_run.specs.Executing.{Executes, reason_of};
ghost use Rattle.script_run.specs.Replying.{ObeysOrder, Replies};

use crate::binding::Binding;
use crate::names::Names;
use crate::reasons::{against_asking, against_joining};
use futures::task::{Context, Solo};
use script_commands::{
    Answer, Command, Joiner, Making, NameHash, Part, Reason, Request, ScriptObject,
};
use script_words::Words;
use std::alloc::{AllocError, Global};

/// The most bytes of a line without its end.
const MOST_LINE_BYTES: usize = 1024;

/// Whether a line that begins with this word has no answer.
fn is_comment(word: &[u8]) -> bool
    ensures { result ≡ starts_with_hash word.now }
{
    match word {
        [first, ..] => *first == b'#',
        [] => false,
    }
}

/// What a bad line with this number is answered.
fn bad(line: u64, reason: Reason) -> Answer
    ensures { result ≡ BadCommand line reason }
{
    Answer::BadCommand { line, reason }
}

/// What a script has made so far. It must be spent, by [`close`](Runner::close), since its objects must be.
pub struct Runner<'s, 't, O: ScriptObject<'s>> {
    names: Names<'s>,
    // In the order in which they were made.
    objects: Vec<O>,
    // Who makes them.
    maker: &'t O::Maker,
    // In whose name flows are polled. It lasts as long as the script, since nothing that a line does waits for a wake.
    cx: Context<'t>,
}

impl<'s, 't, O: ScriptObject<'s>> Runner<'s, 't, O> {
    /// Nothing is made yet. Names will be hashed so.
    pub fn new(
        alloc: Global,
        hash: NameHash,
        task: &'t Solo,
        maker: &'t O::Maker,
    ) -> Runner<'s, 't, O>
        ensures { IsFresh (standing result) }
    {
        Runner {
            names: Names::new(alloc, hash),
            objects: Vec::new(alloc),
            maker,
            cx: task.begin(),
        }
    }

    /// Makes an object and binds its name.
    fn make(
        &mut self,
        alloc: Global,
        name: &'s [u8],
        making: Making<'s>,
    ) -> Result<Option<Answer>, AllocError>
        ensures { IfOk result (λ answer. Executes O.makes O.asks O.joins (make name.entry.now (made_in making.entry)) (standing self.old) answer (standing self.new)) }
    {
        if self.names.get(name).is_some() {
            return Ok(None);
        }
        self.names.reserve()?;
        self.objects.reserve(1)?;
        match O::make(self.maker, alloc, making) {
            Ok(object) => {
                let binding = Binding {
                    object_index: self.objects.len(),
                    part: Part::Whole,
                };
                self.names.bind(name, binding);
                self.objects.push_reserved(object);
                Ok(Some(Answer::Ok))
            }
            Err(refusal) => Ok(Some(Answer::Refused(refusal))),
        }
    }

    /// Lets a party join what the host's name stands for, and binds its name.
    fn join(
        &mut self,
        host: &[u8],
        name: &'s [u8],
        joiner: Joiner<'_>,
    ) -> Result<Option<Answer>, AllocError>
        ensures { IfOk result (λ answer. Executes O.makes O.asks O.joins (join host.now name.entry.now (joining_in joiner.entry)) (standing self.old) answer (standing self.new)) }
    {
        let Some(binding) = self.names.get(host) else {
            return Ok(None);
        };
        if self.names.get(name).is_some() {
            return Ok(None);
        }
        self.names.reserve()?;
        let Some(object) = self.objects.get_mut(binding.object_index) else {
            return Ok(None);
        };
        let Some((answer, joined)) = object.join(binding.part, joiner) else {
            return Ok(None);
        };
        if let Some(part) = joined {
            self.names.bind(name, Binding { part, ..binding });
        }
        Ok(Some(answer))
    }

    /// Asks what a name stands for something.
    fn ask(
        &mut self,
        alloc: Global,
        name: &[u8],
        request: Request,
    ) -> Result<Option<Answer>, AllocError>
        ensures { IfOk result (λ answer. Executes O.makes O.asks O.joins (ask name.now request) (standing self.old) answer (standing self.new)) }
    {
        let Some(binding) = self.names.get(name) else {
            return Ok(None);
        };
        let Some(object) = self.objects.get_mut(binding.object_index) else {
            return Ok(None);
        };
        object.ask(alloc, binding.part, request, &mut self.cx)
    }

    /// What a command answers, or nothing where a name stands in its way or stands for what doesn't know it.
    fn execute(
        &mut self,
        alloc: Global,
        command: &Command<'s>,
    ) -> Result<Option<Answer>, AllocError>
        ensures { IfOk result (λ answer. Executes O.makes O.asks O.joins (order_of command.now) (standing self.old) answer (standing self.new)) }
    {
        match *command {
            Command::Make { name, making } => self.make(alloc, name, making),
            Command::Join { host, name, joiner } => self.join(host, name, joiner),
            Command::Ask { name, request } => self.ask(alloc, name, request),
            Command::Cold { pipe } => Ok(Some(pipe.answer(alloc, &mut self.cx))),
        }
    }

    /// Why a command has no answer, where it has none. Then nothing changed, so names stand for what they stood for.
    fn reason(&self, command: &Command<'s>) -> Reason
        ensures { result ≡ reason_of (order_of command.now) (standing self.now).bound }
    {
        match *command {
            Command::Make { .. } => Reason::Bound,
            Command::Join { host, name, .. } => {
                against_joining(self.names.get(host), self.names.get(name))
            }
            Command::Ask { name, .. } => against_asking(self.names.get(name)),
            Command::Cold { .. } => Reason::OtherKind,
        }
    }

    // What `execute` answered is handed on whole: taken apart and put together again it goes through memory, which costs a line a tenth.
    /// What a line answers of which this command comes.
    fn obey(
        &mut self,
        alloc: Global,
        number: u64,
        command: &Command<'s>,
    ) -> Result<Option<Answer>, AllocError>
        ensures { IfOk result (λ answer. ObeysOrder O.makes O.asks O.joins number (order_of command.now) (standing self.old) answer (standing self.new)) }
    {
        match self.execute(alloc, command) {
            Ok(None) => {
                let reason = self.reason(command);
                Ok(Some(bad(number, reason)))
            }
            answered => answered,
        }
    }

    /// What a line answers, if anything. Its number counts from 1.
    #[tactic(auto, unfolding(crate::specs::Replying::Replies))]
    pub fn reply(
        &mut self,
        alloc: Global,
        number: u64,
        line: &'s [u8],
    ) -> Result<Option<Answer>, AllocError>
        ensures { IfOk result (λ answer. Replies O.makes O.asks O.joins number line.now (standing self.old) answer (standing self.new)) }
    {
        let mut words = Words::new(line);
        let Some(first) = words.next() else {
            return Ok(None);
        };
        if is_comment(first) {
            return Ok(None);
        }
        if line.len() > MOST_LINE_BYTES {
            return Ok(Some(bad(number, Reason::TooLong)));
        }
        match Command::parse(first, words) {
            Some(command) => self.obey(alloc, number, &command),
            None => Ok(Some(bad(number, Reason::of_words(first)))),
        }
    }

    /// Closes every object, and says how many there were.
    pub fn close(self) -> usize
        ensures { result ≡ length self.entry.objects.items }
    {
        let Runner {
            names: _,
            mut objects,
            maker: _,
            cx,
        } = self;
        let mut closed = 0;
        while let Some(object) = objects.pop() {
            object.close();
            closed += 1;
        }
        objects.destroy_empty();
        cx.cancel();
        closed
    }
}

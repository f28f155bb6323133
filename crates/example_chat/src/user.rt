//! One user of the chat, on a thread of its own.
ghost use Rattle.std.specs.Prelude.{◌≡◌, None};

use crate::Runtime;
use crate::room::Room;
use crate::script::Script;
use flow_stopping::{Received, StoppableParker, Stopper};
use shared_core::Tried;
use shared_flow::{Emitter, Refusal, SharedFlow, Subscription};
use std::thread;
use std::time::Duration;

/// For how many milliseconds one waits until all have come.
const PATIENCE: u32 = 10_000;

/// A user, with an owner of the chat, which its thread subscribes and emits by. A `Vec` of users is let go like any other: it has no
/// subscription, which would have to be cancelled.
#[derive(Drop)]
pub(crate) struct User {
    pub(crate) id: u32,
    chat: SharedFlow<u64>,
    parker: StoppableParker,
    /// The places of the lines that it heard.
    pub(crate) heard: Vec<u64>,
    /// What its thread came to: whether all came and were heard.
    pub(crate) outcome: Result<bool, Refusal>,
}

impl User {
    /// A user, and who lets its thread go. Made before the thread starts, since it may be refused.
    pub(crate) fn new(
        rt: &impl Runtime,
        chat: &mut SharedFlow<u64>,
        id: u32,
    ) -> Result<(User, Stopper), Refusal> {
        let chat = chat.dup()?;
        let (parker, stopper) = StoppableParker::new(rt)?;
        let user = User {
            id,
            chat,
            parker,
            heard: Vec::new(rt.alloc()),
            outcome: Ok(false),
        };
        Ok((user, stopper))
    }

    /// The user's thread. Where it gives up it lets all others go, who would wait for what it says.
    pub(crate) fn take_part(&mut self, rt: &impl Runtime, script: &Script, room: &Room) {
        let outcome = self.join(rt, script, room);
        if !matches!(outcome, Ok(true)) {
            room.stop();
        }
        self.outcome = outcome;
    }

    /// Joins, takes part, and leaves: emitter and subscription are ended on each path.
    fn join(&mut self, rt: &impl Runtime, script: &Script, room: &Room) -> Result<bool, Refusal> {
        let mut reader = self.chat.subscribe(rt)?;
        let outcome = match self.chat.emitter(self.id) {
            Ok(mut emitter) => {
                let outcome = self.talk(rt, script, room, &mut emitter, &mut reader);
                emitter.close(rt);
                outcome
            }
            Err(refusal) => Err(refusal),
        };
        reader.cancel(rt);
        outcome
    }

    /// Waits until all have come, says its lines, and listens until it is let go. Whether all came.
    fn talk(
        &mut self,
        rt: &impl Runtime,
        script: &Script,
        room: &Room,
        emitter: &mut Emitter<u64>,
        reader: &mut Subscription<u64>,
    ) -> Result<bool, Refusal>
        requires { emitter.old.ticket ≡ None }
    {
        if !self.finds_all(rt, room) {
            return Ok(false);
        }
        self.say_all(rt, script, emitter, reader)?;
        room.has_spoken();
        self.listen(rt, reader)?;
        Ok(true)
    }

    /// Whether all come in time, so that nobody misses a line. Where the system has no thread for one, it is called only when another
    /// one's call is over, and doesn't come.
    fn finds_all(&mut self, rt: &impl Runtime, room: &Room) -> bool {
        for _ in 0..PATIENCE {
            if self.chat.subscription_count(rt) as usize == room.users() {
                return true;
            }
            if self.parker.is_stopped() {
                return false;
            }
            thread::sleep(rt, Duration::from_millis(1));
        }
        false
    }

    /// Says each of its lines.
    fn say_all(
        &mut self,
        rt: &impl Runtime,
        script: &Script,
        emitter: &mut Emitter<u64>,
        reader: &mut Subscription<u64>,
    ) -> Result<(), Refusal>
        requires { emitter.old.ticket ≡ None }
    {
        for place in 0..script.count() {
            if script.is_of(place, self.id as usize) {
                self.say(rt, place, emitter, reader)?;
            }
        }
        Ok(())
    }

    /// Says one line. Where there is no room it hears a line, and tries again. By `emit` it would sleep until there is room, maybe for
    /// ever: what has to be received first may be its own.
    fn say(
        &mut self,
        rt: &impl Runtime,
        place: u64,
        emitter: &mut Emitter<u64>,
        reader: &mut Subscription<u64>,
    ) -> Result<(), Refusal>
        requires { emitter.old.ticket ≡ None }
        ensures { emitter.new.ticket ≡ None }
    {
        for _ in rt.forever() {
            if self.is_said(rt, place, emitter)? {
                break;
            }
            match reader.next_now(rt) {
                Some(heard) => self.heard.push(heard)?,
                None => thread::yield_now(),
            }
        }
        Ok(())
    }

    /// Tries to say a line. Also where it was let go there is nothing more to try.
    fn is_said(
        &self,
        rt: &impl Runtime,
        place: u64,
        emitter: &mut Emitter<u64>,
    ) -> Result<bool, Refusal>
        requires { emitter.old.ticket ≡ None }
        ensures { emitter.new.ticket ≡ None }
    {
        match emitter.try_emit(rt, place)? {
            Tried::Accepted(_) | Tried::Dropped => Ok(true),
            Tried::Full => Ok(self.parker.is_stopped()),
        }
    }

    /// Listens, and sleeps while nobody speaks, until it is let go. What was said before is still there then, and is heard, too.
    fn listen(&mut self, rt: &impl Runtime, reader: &mut Subscription<u64>) -> Result<(), Refusal> {
        for _ in rt.forever() {
            match self.parker.next(rt, reader)? {
                Received::Value(heard) => self.heard.push(heard)?,
                Received::Stopped => break,
            }
        }
        for _ in rt.forever() {
            match reader.next_now(rt) {
                Some(heard) => self.heard.push(heard)?,
                None => break,
            }
        }
        Ok(())
    }
}

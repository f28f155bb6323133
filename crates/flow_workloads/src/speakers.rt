//! Emitters of a shared flow on threads of their own.

ghost use Rattle.std.specs.Prelude.{◌≡◌, None};

use crate::acting::Acts;
use crate::course::Course;
use crate::ending::Ends;
use crate::fault::Fault;
use crate::tally::Tally;
use shared_core::Refusal;
use shared_flow::{Emitter, Parker, SharedFlow};
use std::alloc::AllocGlobal;
use std::random::RandomSource;
use std::sync::Wait;
use workload_inputs::Random;

/// What an emitter says: so many numbers that follow from a seed.
#[derive(Clone, Copy)]
pub(crate) struct Speech {
    pub(crate) seed: u64,
    pub(crate) values: u64,
}

/// An emitter that has nothing in flight, with what its thread sleeps by. It must be ended.
pub(crate) struct Speaker {
    emitter: Emitter<u64>,
    parker: Parker,
    speech: Speech,
    /// The numbers of what was accepted.
    said: Course,
    /// Why it said no more.
    refused: Option<Refusal>,
    // Between two speakers in a list, so that those of two threads share no cache line.
    _apart: [u64; 16],
    ghost idle: { emitter.ticket ≡ None },
}

impl Speaker {
    fn new<R>(rt: &R, flow: &mut SharedFlow<u64>, id: u32, speech: Speech) -> Result<Speaker, Fault>
    where
        R: AllocGlobal + RandomSource,
    {
        let parker = Parker::new(rt)?;
        let emitter = flow.emitter(id)?;
        Ok(Speaker {
            emitter,
            parker,
            speech,
            said: Course::new(),
            refused: None,
            _apart: [0; 16],
        })
    }
}

impl Ends for Speaker {
    fn end<R: Wait>(self, rt: &R, tally: &mut Tally) {
        let Speaker {
            emitter,
            parker: _,
            speech: _,
            said: _,
            refused,
            _apart: _,
        } = self;
        if let Some(refusal) = refused {
            tally.note(Fault::Refused(refusal));
        }
        tally.closed(emitter.close(rt));
    }
}

impl Acts for Speaker {
    fn act<R: Wait>(&mut self, rt: &R) {
        let (said, refused) = speak(rt, &mut self.emitter, &mut self.parker, self.speech);
        self.said = said;
        self.refused = refused;
    }
}

/// Emits what is to be said, and sleeps where there is no room. It gives the numbers of what was accepted, and a refusal.
#[inline(never)]
fn speak(
    rt: &impl Wait,
    emitter: &mut Emitter<u64>,
    parker: &mut Parker,
    speech: Speech,
) -> (Course, Option<Refusal>)
    requires { emitter.old.ticket ≡ None }
    ensures { emitter.new.ticket ≡ None }
{
    let mut random = Random::new(speech.seed);
    let mut numbers = Course::new();
    for _ in 0..speech.values {
        match emitter.emit(rt, parker, random.next()) {
            Ok(Some(receipt)) => numbers.number(receipt.number()),
            Ok(None) => {}
            Err(refusal) => return (numbers, Some(refusal)),
        }
    }
    (numbers, None)
}

/// So many speakers, or fewer where one is refused: the first with this speech, each later one with that of the next seed.
pub(crate) fn hire<R>(
    rt: &R,
    flow: &mut SharedFlow<u64>,
    count: u32,
    speech: Speech,
    tally: &mut Tally,
) -> Vec<Speaker>
where
    R: AllocGlobal + RandomSource + Wait,
{
    let mut speakers = Vec::new(rt.alloc());
    for id in 0..count {
        let seed = speech.seed.wrapping_add(u64::from(id));
        let Some(speaker) = tally.noted(Speaker::new(rt, flow, id, Speech { seed, ..speech }))
        else {
            break;
        };
        if let Err(refused) = speakers.push(speaker) {
            refused.value.end(rt, tally);
        }
    }
    speakers
}

/// What the first and the second of these said.
pub(crate) fn said_by(speakers: &[Speaker]) -> (Course, Course) {
    match speakers {
        [] => (Course::new(), Course::new()),
        [one] => (one.said, Course::new()),
        [one, other, ..] => (one.said, other.said),
    }
}

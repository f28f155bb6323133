//! A reader of a lane as a run.

ghost use Rattle.std.specs.Prelude.{◌≡◌, None};
ghost use Rattle.shared_lane.specs.Readers.{IsReaderOf};
ghost use Rattle.hot_sources.specs.Ended.{Lasting, is_over};
ghost use Rattle.hot_sources.specs.Reading.{Read};

use crate::sources::ended::Ended;
use cold_flow::{Cause, Event, Run};
use futures::task::{Context, Poll};
use shared_lane::{Lane, Reader, Taken};
use std::alloc::Allocator;

/// A run that takes the words of a lane. It has a reader for as long as it is there, and never ends of itself.
#[derive(Drop)]
pub struct ReadingRun<'a, A: Allocator, E> {
    reader: &'a mut Reader,
    lane: &'a Lane<A>,
    ended: Ended<E>,
    ghost fits: { IsReaderOf lane.now reader.now },
}

/// What `reader` takes from now on, as a run.
///
/// Each poll is a [`Reader::try_next`]: it takes no lock. On a lane nobody wakes a task, so a poll that finds no word, or whose word was
/// overtaken, yields: it asks to be polled again. `cancel` ends the run alone: the reader is as it was, and its cursor stays open.
pub fn reading<'a, E: Copy, A: Allocator>(
    reader: &'a mut Reader,
    lane: &'a Lane<A>,
) -> ReadingRun<'a, A, E>
    requires { IsReaderOf lane.now reader.old }
    ensures same_reference { result.reader.ghost_name ≡ reader.entry.ghost_name }
    ensures reader { result.reader.now ≡ reader.old }
    ensures lane { result.lane.now ≡ lane.now }
    ensures fresh { result.ended.cause ≡ None }
{
    ReadingRun {
        reader,
        lane,
        ended: Ended::not_yet(),
    }
}

impl<'a, A: Allocator, E: Copy> Run for ReadingRun<'a, A, E> {
    ghost use Rattle.hot_sources.specs.Ended.{over_halts, lasting_begins, lasting_over};

    type Item = u64;

    type Fault = E;

    ghost may = { λ r. Lasting r.ended };

    ghost ended = { λ r. r.ended.cause };

    ghost stopped = { λ r. is_over r.ended };

    // It is the same reader of the same lane, and the answer is what that took.
    ghost polled = { λ old answer new. (new.reader.ghost_name ≡ old.reader.ghost_name)
        × Read old.reader.now answer new.reader.now };

    ghost cancelled = { λ old new. new.reader ≡ old.reader };

    fn poll_next(&mut self, cx: &mut Context<'_>) -> Poll<Event<u64, E>> {
        if let Some(cause) = self.ended.cause() {
            return Poll::Ready(Event::End(cause));
        }
        match self.reader.try_next(self.lane) {
            Taken::Value(word) => Poll::Ready(Event::Value(word)),
            Taken::Nothing | Taken::Overtaken => cx.yield_now(),
        }
    }

    fn end(&self) -> Option<Cause<E>> {
        self.ended.cause()
    }

    fn cancel(&mut self) {
        self.ended.cancel();
    }

    ghost halts = { λ r. over_halts r.ended };

    ghost begins = { λ r. lasting_begins _ r.ended };

    ghost over = { λ r. lasting_over r.ended };
}

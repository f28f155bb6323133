//! Subscriptions, and what they receive.

use super::{ListBody, NUMBER_LIMIT, Place};
use cold_flow::Refusal;
use shared_core::{Next, Prelude, SubId};
use std::alloc::AllocError;

impl Place {
    /// Its next value: of its prelude first.
    fn next(&mut self) -> Next<u64> {
        if self.given < self.prelude.len() {
            let value = self.prelude.at(self.given);
            self.given = self.given.saturating_add(1);
            return Next::Value(value);
        }
        match self.pending.pop() {
            Some(value) => Next::Value(value),
            None => Next::Nothing,
        }
    }
}

impl ListBody {
    /// A new subscription gets its prelude and a copy of the replay cache.
    pub(crate) fn subscribe(
        &mut self,
        prelude: Prelude<u64>,
    ) -> Result<Result<SubId, Refusal>, AllocError> {
        let number = self.config.first.saturating_add(self.subscribed);
        if number == NUMBER_LIMIT {
            return Ok(Err(Refusal::Spent));
        }
        if self.live.len() >= self.config.subscribers as usize {
            return Ok(Err(Refusal::SubscribersFull));
        }
        self.live.push(Place {
            number,
            prelude,
            given: 0,
            pending: self.cache,
        })?;
        self.subscribed = self.subscribed.saturating_add(1);
        Ok(Ok(SubId(number)))
    }

    /// Where a subscription has received a value, there may be room for an emission that waits.
    pub(crate) fn next(&mut self, number: u64) -> Result<Next<u64>, AllocError> {
        let next = next_of(&mut self.live, number);
        if matches!(next, Next::Value(_)) {
            self.settle()?;
        }
        Ok(next)
    }

    /// Receives one value after another, at most so many, and adds them to `out`. Answers how many, and as `next` where none came.
    pub(crate) fn next_each(
        &mut self,
        number: u64,
        most: usize,
        out: &mut Vec<u64>,
    ) -> Result<Next<u64>, AllocError> {
        let mut taken: u64 = 0;
        for _ in 0..most {
            match self.next(number)? {
                Next::Value(value) => out.push(value)?,
                none if taken == 0 => return Ok(none),
                _ => break,
            }
            taken = taken.saturating_add(1);
        }
        Ok(Next::Value(taken))
    }

    pub(crate) fn cancel(&mut self, number: u64) -> Result<bool, AllocError> {
        let before = self.live.len();
        self.live.retain(|place| place.number != number);
        self.settle()?;
        Ok(self.live.len() < before)
    }
}

/// What the subscription with this number receives.
fn next_of(live: &mut [Place], number: u64) -> Next<u64> {
    for place in live {
        if place.number == number {
            return place.next();
        }
    }
    Next::Closed
}

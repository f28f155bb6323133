//! Emissions, and their tickets.

use super::{ListBody, NUMBER_LIMIT};
use crate::body_rows::list_body::tickets::{Accepted, Waiting, forget, index_of, is_waiting};
use cold_flow::{Policy, Refusal};
use shared_core::{Begun, Emit, Ticket, Tried, Withdrawn};
use std::alloc::AllocError;

/// What an emission comes to, before it is asked whether it may wait.
#[derive(Clone, Copy)]
enum Fate {
    Enters,
    PushesIn,
    HandedOver,
    Dropped,
    HeldUp,
}

impl ListBody {
    /// Whether each live subscription has a place left.
    fn has_room(&self) -> bool {
        let limit = self.limit();
        for place in &self.live {
            if place.pending.len() >= limit {
                return false;
            }
        }
        true
    }

    /// Whether the numbers are used up, with one for each emission that waits.
    fn is_spent(&self) -> bool {
        self.next_number.saturating_add(self.waiting.len() as u64) == NUMBER_LIMIT
    }

    fn fate(&self) -> Fate {
        if self.live.is_empty() {
            return Fate::Enters;
        }
        if self.capacity() == 0 {
            if self.waiting.len() > 0 || !self.has_room() {
                return Fate::HeldUp;
            }
            return Fate::HandedOver;
        }
        if self.has_room() {
            return Fate::Enters;
        }
        match self.config.policy {
            Policy::Suspend => Fate::HeldUp,
            Policy::DropLatest => Fate::Dropped,
            Policy::DropOldest => Fate::PushesIn,
        }
    }

    /// The value joins the list of each live subscription, and the cache. Answers its number.
    fn accept(&mut self, value: u64) -> u64 {
        let number = self.next_number;
        for place in self.live.iter_mut() {
            place.pending.push(value);
        }
        self.cache.push(value);
        if self.cache.len() as u64 > self.config.replay {
            let _oldest = self.cache.pop();
        }
        self.next_number = number.saturating_add(1);
        number
    }

    /// Accepts the value, after each subscription with all its places taken lost its oldest one.
    fn push_in(&mut self, value: u64) -> u64 {
        let limit = self.limit();
        for place in self.live.iter_mut() {
            if place.pending.len() == limit {
                let _lost = place.pending.pop();
            }
        }
        self.accept(value)
    }

    /// Whether each ticket is out.
    fn is_full(&self) -> bool {
        self.accepted.len().saturating_add(self.waiting.len()) >= self.config.emits as usize
    }

    fn next_ticket(&mut self) -> u64 {
        let ticket = self.config.first.saturating_add(self.given);
        self.given = self.given.saturating_add(1);
        ticket
    }

    /// Accepts the emission that waits longest, where there is room. Answers whether it did.
    fn accept_first(&mut self) -> Result<bool, AllocError> {
        if self.waiting.is_empty() {
            return Ok(false);
        }
        if !self.has_room() {
            return Ok(false);
        }
        let oldest = self.waiting.remove(0);
        let index = self.next_number.saturating_sub(self.config.first);
        let _number = self.accept(oldest.value);
        self.accepted.push(Accepted {
            ticket: oldest.ticket,
            index,
        })?;
        Ok(true)
    }

    /// Accepts waiting emissions, the oldest first, while there is room.
    pub(crate) fn settle(&mut self) -> Result<(), AllocError> {
        for _ in 0..self.waiting.len() {
            if !self.accept_first()? {
                return Ok(());
            }
        }
        Ok(())
    }

    pub(crate) fn try_emit(&mut self, value: u64) -> Result<Tried<u64>, Refusal> {
        if self.is_spent() {
            return Err(Refusal::Spent);
        }
        Ok(match self.fate() {
            Fate::Enters => Tried::Accepted(self.accept(value)),
            Fate::PushesIn => Tried::Accepted(self.push_in(value)),
            Fate::Dropped => Tried::Dropped,
            Fate::HandedOver | Fate::HeldUp => Tried::Full,
        })
    }

    /// Tries these values, one after another, up to the first that isn't accepted. Answers how many were.
    pub(crate) fn try_each(&mut self, values: &[u64]) -> Result<u64, Refusal> {
        let mut accepted: u64 = 0;
        for value in values {
            match self.try_emit(*value) {
                Ok(Tried::Accepted(_)) => accepted = accepted.saturating_add(1),
                Err(refusal) if accepted == 0 => return Err(refusal),
                _ => return Ok(accepted),
            }
        }
        Ok(accepted)
    }

    pub(crate) fn start_emit(
        &mut self,
        value: u64,
    ) -> Result<Result<Begun<u64, Ticket>, Refusal>, AllocError> {
        if self.is_spent() || self.config.first.saturating_add(self.given) == NUMBER_LIMIT {
            return Ok(Err(Refusal::Spent));
        }
        let fate = self.fate();
        if matches!(fate, Fate::HandedOver | Fate::HeldUp) && self.is_full() {
            return Ok(Err(Refusal::EmitsFull));
        }
        Ok(Ok(match fate {
            Fate::Enters => Begun::Accepted(self.accept(value)),
            Fate::PushesIn => Begun::Accepted(self.push_in(value)),
            Fate::Dropped => Begun::Dropped,
            Fate::HandedOver => Begun::Waiting(self.hand_over(value)?),
            Fate::HeldUp => Begun::Waiting(self.keep_waiting(value)?),
        }))
    }

    fn hand_over(&mut self, value: u64) -> Result<Ticket, AllocError> {
        let index = self.accept(value).saturating_sub(self.config.first);
        let ticket = self.next_ticket();
        self.accepted.push(Accepted { ticket, index })?;
        Ok(Ticket(ticket))
    }

    fn keep_waiting(&mut self, value: u64) -> Result<Ticket, AllocError> {
        let ticket = self.next_ticket();
        self.waiting.push(Waiting { ticket, value })?;
        Ok(Ticket(ticket))
    }

    /// Whether the accepted emission is pending for nobody, in a flow without places.
    fn is_finished(&self, index: u64) -> bool {
        if self.capacity() > 0 {
            return true;
        }
        let later = self
            .next_number
            .saturating_sub(self.config.first)
            .saturating_sub(index);
        for place in &self.live {
            if place.pending.len() as u64 >= later {
                return false;
            }
        }
        true
    }

    pub(crate) fn poll_emit(&mut self, ticket: u64) -> Emit {
        let Some(index) = index_of(&self.accepted, ticket) else {
            return if is_waiting(&self.waiting, ticket) {
                Emit::Waiting
            } else {
                Emit::Gone
            };
        };
        if !self.is_finished(index) {
            return Emit::Waiting;
        }
        forget(&mut self.accepted, ticket);
        Emit::Done(self.config.first.saturating_add(index))
    }

    pub(crate) fn cancel_emit(&mut self, ticket: u64) -> Withdrawn<u64> {
        if let Some(index) = index_of(&self.accepted, ticket) {
            forget(&mut self.accepted, ticket);
            return Withdrawn::Left(self.config.first.saturating_add(index));
        }
        if !is_waiting(&self.waiting, ticket) {
            return Withdrawn::Gone;
        }
        self.waiting.retain(|held| held.ticket != ticket);
        Withdrawn::Removed
    }
}

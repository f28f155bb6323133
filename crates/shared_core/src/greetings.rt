//! The preludes that live subscriptions are still being given.

ghost use Rattle.std.specs.Prelude.{◌≡◌, ◌==◌, ◌<◌, ◌≤◌, [], false, length, take, IfOk, IfSome, IfNone, slice_get};
ghost use Rattle.std.specs.List.{list_any};
ghost use Rattle.shared_core.specs.Preludes.{prelude_values, begun_with, Greets, EndsGreeting};
ghost use Rattle.shared_core.specs.Shown.{rest_of};

use crate::prelude::Prelude;
use crate::rest::Rest;
use std::alloc::{AllocError, Global};
use std::marker::Model;

/// A live subscription that wasn't given all of its prelude.
#[derive(Drop)]
pub struct Greeting<T: Copy> {
    /// The number of the subscription.
    pub number: u64,
    /// What is left of its prelude.
    pub rest: Rest<T>,
}

/// The greetings, in memory that was reserved at making. Where no prelude was handed in, there is none, and to look for one
/// is a look at their number.
#[derive(Drop)]
pub struct Greetings<T: Copy> {
    /// By rising numbers.
    items: Vec<Greeting<T>>,
    /// How many there may be.
    limit: usize,
}

impl<T: Copy> Model for Greetings<T> {
    ghost use Rattle.std.specs.Prelude.{◌≤◌, ℕ, List, map, vec_capacity};
    ghost use Rattle.std.specs.List.{All};
    ghost use Rattle.shared_core.specs.Queues.{Queued};
    ghost use Rattle.shared_core.specs.Greetings.{shown_greeting, IsLeft};

    ghost Value = { Queued (ℕ × List T) };

    ghost view = { λ g. record { values = map shown_greeting g.items.items; limit = g.limit } };

    ghost invariant = { λ g. All IsLeft g.items.items × (g.limit ≤ vec_capacity g.items) };
}

/// Where the greeting of the subscription with this number stands.
fn greeting_of<T: Copy>(greetings: &[Greeting<T>], number: u64) -> Option<usize>
    ensures found { IfSome result (λ i. (g : _) × (slice_get greetings.now i ≡ Some g) × (g.number ≡ number)
        × (list_any (λ g. g.number == number) (take i greetings.now) ≡ false)) }
    ensures none { IfNone result (list_any (λ g. g.number == number) greetings.now ≡ false) }
{
    for (i, greeting) in greetings.iter().enumerate() {
        if greeting.number == number {
            return Some(i);
        }
    }
    None
}

impl<T: Copy> Greetings<T> {
    /// None, with memory for so many.
    pub fn new(alloc: Global, limit: usize) -> Result<Greetings<T>, AllocError>
        ensures { IfOk result (λ g. g ≡ record { values = []; limit = limit }) }
    {
        let items = Vec::with_capacity(alloc, limit)?;
        Ok(Greetings { items, limit })
    }

    /// The subscription with this number is to be given this prelude, where that has values.
    ///
    /// There is memory for as many as there are subscriptions, so the limit is never met.
    pub fn begin(&mut self, number: u64, prelude: Prelude<T>)
        ensures begun { length self.old.values < self.old.limit → self.new.values ≡ begun_with number (prelude_values prelude) self.old.values }
        ensures limit { self.new.limit ≡ self.old.limit }
    {
        let rest = Rest::of(prelude);
        if rest.is_empty() {
            return;
        }
        if self.items.len() >= self.limit {
            return;
        }
        self.items.push_reserved(Greeting { number, rest });
    }

    /// Gives the subscription with this number the next value of its prelude, if one is left.
    pub fn greet(&mut self, number: u64) -> Option<T>
        ensures greeted { Greets number self.old.values result self.new.values }
        ensures limit { self.new.limit ≡ self.old.limit }
    {
        // So that a receipt where no prelude was handed in costs no call.
        if self.items.len() == 0 {
            return None;
        }
        self.greet_listed(number)
    }

    // Not inlined, so that a receipt without a prelude keeps its registers.
    #[inline(never)]
    fn greet_listed(&mut self, number: u64) -> Option<T>
        ensures greeted { Greets number self.old.values result self.new.values }
        ensures limit { self.new.limit ≡ self.old.limit }
    {
        let at = greeting_of(&self.items, number)?;
        let rest = &mut self.items[at].rest;
        let value = rest.give();
        if rest.is_empty() {
            let _greeting = self.items.remove(at);
        }
        value
    }

    /// The subscription with this number gives up what is left of its prelude.
    pub fn end(&mut self, number: u64)
        ensures ended { EndsGreeting number self.old.values self.new.values }
        ensures limit { self.new.limit ≡ self.old.limit }
    {
        let Some(at) = greeting_of(&self.items, number) else {
            return;
        };
        let _greeting = self.items.remove(at);
    }

    /// How many values of its prelude are left for the subscription with this number.
    pub fn left(&self, number: u64) -> u64
        ensures count { result ≡ length (rest_of number self.now.values) }
        ensures bound { result ≤ 16 }
    {
        match greeting_of(&self.items, number) {
            None => 0,
            Some(at) => self.items[at].rest.len() as u64,
        }
    }
}

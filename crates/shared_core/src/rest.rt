//! What is left of a prelude.

ghost use Rattle.std.specs.Prelude.{◌≡◌, ◌↔◌, ◌-◌, ◌≤◌, ◌∷◌, ◌++◌, List, [], true, length, vec_capacity, IfSome, IfNone};
ghost use Rattle.shared_core.specs.Preludes.{prelude_values, GivesFirst, GivesSome};

use crate::prelude::Prelude;
use std::alloc::Allocator;
use std::marker::Model;

/// The values of a prelude that its subscription wasn't given yet. Contracts see these values, and those that were given, in order.
///
/// It takes no memory.
#[derive(Drop)]
pub struct Rest<T: Copy> {
    prelude: Prelude<T>,
    // How many of its values were given.
    given: u32,
    // How many it has. Where there are none, a receipt compares two zeros and goes on.
    count: u32,
}

impl<T: Copy> Model for Rest<T> {
    ghost use Rattle.std.specs.Prelude.{◌≡◌, ◌≤◌, take, drop, length};
    ghost use Rattle.shared_core.specs.Preludes.{prelude_values, RestSeen};

    ghost Value = { RestSeen T };

    ghost view = { λ r. record { given = take r.given (prelude_values r.prelude); left = drop r.given (prelude_values r.prelude) } };

    ghost invariant = { λ r. (r.count ≡ length (prelude_values r.prelude)) × (r.given ≤ r.count) };
}

impl<T: Copy> Rest<T> {
    /// All of this prelude. Never refused.
    pub fn of(prelude: Prelude<T>) -> Rest<T>
        ensures { result ≡ record { given = []; left = prelude_values prelude } }
    {
        let count = prelude.len();
        Rest {
            prelude,
            given: 0,
            count,
        }
    }

    /// Whether nothing is left.
    pub fn is_empty(&self) -> bool
        ensures { (result ≡ true) ↔ (self.now.left ≡ []) }
    {
        self.given == self.count
    }

    /// How many values are left, 16 at most.
    pub fn len(&self) -> u32
        ensures count { result ≡ length self.now.left }
        ensures bound { result ≤ 16 }
    {
        self.count - self.given
    }

    /// Appends the values that are left, as many as `out` has room for, and returns how many. Never refused: it takes no memory.
    pub fn give_into<B: Allocator>(&mut self, out: &mut Vec<T, B>) -> u64
        ensures given { (values : List T) × (out.new.items ≡ out.old.items ++ values) × (result ≡ length values)
            × GivesSome self.old.left (vec_capacity out.old - length out.old.items) values self.new.left × (self.new.given ≡ self.old.given ++ values) }
        ensures capacity { vec_capacity out.new ≡ vec_capacity out.old }
    {
        let mut count = 0;
        while out.len() < out.capacity() {
            let Some(value) = self.give() else {
                return count;
            };
            out.push_reserved(value);
            count += 1;
        }
        count
    }

    /// Gives the first value that is left, if one is.
    pub fn give(&mut self) -> Option<T>
        ensures left { GivesFirst self.old.left result self.new.left }
        ensures given { IfSome result (λ v. self.new.given ≡ self.old.given ++ v ∷ []) }
        ensures nothing { IfNone result (self.new ≡ self.old) }
    {
        if self.given == self.count {
            return None;
        }
        let value = self.prelude.at(self.given);
        self.given += 1;
        Some(value)
    }
}

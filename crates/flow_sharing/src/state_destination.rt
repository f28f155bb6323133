//! A state as the place where the values of a sharing go.

ghost use Rattle.std.specs.Prelude.{◌≡◌};
ghost use Rattle.std.specs.Borrow.{GName};
ghost use Rattle.atomic_table.specs.Seated.{TableId};
ghost use Rattle.state_flow.specs.declared.view.View.{View};
ghost use Rattle.flow_sharing.specs.StateDestinations.{setting};

use cold_flow::Word;
use futures::task::Context;
use sharing_upstream::{Destination, Offer};
use state_flow::StateSeat;
use std::alloc::Allocator;

/// A state that is set, for the time of one poll.
#[derive(Drop)]
pub(crate) struct StateDestination<'a, T: Word, A: Allocator> {
    pub(crate) seat: &'a mut StateSeat<T, A>,
    // What a reset sets. Behind a reference: beside a value of a type parameter, the seat's loan isn't followed to its end.
    pub(crate) initial: &'a T,
}

impl<'a, T: Word, A: Allocator> Destination<T> for StateDestination<'a, T, A> {
    ghost Kept = { GName × TableId × T };

    ghost kept = { λ d. (d.seat.ghost_name, d.seat.now.flow, d.initial.now) };

    ghost Seen = { View T };

    ghost seen = { λ d. d.seat.now.view };

    ghost steps = { λ kept. setting kept.2 };

    ghost free = { λ _. Unit {0} };

    fn count(&mut self) -> u32 {
        self.seat.collectors()
    }

    fn still_waits(&mut self, _cx: &mut Context<'_>) -> bool {
        false
    }

    fn offer(&mut self, value: T) -> Offer {
        self.seat.set(value);
        Offer::Accepted
    }

    fn withdraw(&mut self) {}

    fn reset(&mut self) {
        self.seat.set(*self.initial);
    }
}

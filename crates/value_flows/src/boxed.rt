//! A ring in a box, as it lies under the lock.
ghost use Rattle.std.specs.Prelude.{◌≡◌, ◌+◌, ◌-◌, ◌<◌, ◌≤◌, length, slice_get, Some, IfOk, is_none};
ghost use Rattle.std.specs.List.{position};
ghost use Rattle.value_flows.specs.Making.{places};
ghost use Rattle.value_flows.specs.Does.{IsFirst, Does, IsMadeWith, Enters, Stands, moved, cache_start, oldest_of, with_value};

use crate::config::Config;
use crate::ring::{Entrance, Ring, Standing};
use crate::round::Round;
use round_lock::Called;
use std::alloc::{AllocError, Global};
use std::marker::Model;

/// A ring, in a box: who takes the lock, and gives it up, moves no more than a pointer. Contracts see the ring.
#[derive(Drop)]
pub(crate) struct BoxedRing<T> {
    ring: Box<Ring<T>>,
}

impl<T> Model for BoxedRing<T> {
    ghost use Rattle.value_flows.specs.declared.ring.Ring.{Ring};

    ghost Value = { Ring T };

    ghost view = { λ b. b.ring.value };
}

impl<T> Called<Round> for BoxedRing<T> {
    ghost first = { IsFirst };

    ghost step = { Does };
}

impl<T: Drop> BoxedRing<T> {
    /// An empty ring, with memory for all that it will hold.
    pub(crate) fn new(alloc: Global, config: &Config) -> Result<BoxedRing<T>, AllocError>
        requires few { places config.now ≤ 65536 }
        ensures { IfOk result (IsMadeWith config.now) }
    {
        let ring = Box::new(alloc, Ring::new(alloc, config)?)?;
        Ok(BoxedRing { ring })
    }

    /// The number of the next emission: how many were accepted.
    pub(crate) fn next(&self) -> u64
        ensures { result ≡ self.now.next }
    {
        self.ring.next
    }

    /// As [`Ring::oldest`] says.
    pub(crate) fn oldest(&self) -> u64
        requires { length self.now.values.items ≤ self.now.next }
        ensures { result ≡ oldest_of self.now }
    {
        self.ring.oldest()
    }

    /// As [`Ring::cache_start`] says.
    pub(crate) fn cache_start(&self) -> u64
        ensures { result ≡ cache_start self.now }
    {
        self.ring.cache_start()
    }

    /// As [`Ring::standing`] says.
    pub(crate) fn standing(&self, number: u64) -> Standing
        requires { length self.now.values.items ≤ self.now.next }
        ensures { Stands self.now number result }
    {
        self.ring.standing(number)
    }

    /// As [`Ring::value`] says.
    pub(crate) fn value(&self, number: u64) -> &T
        requires count { length self.now.values.items ≤ self.now.next }
        requires kept { (oldest_of self.now ≤ number) × (number < self.now.next) }
        ensures { slice_get self.now.values.items (number - oldest_of self.now) ≡ Some result.now }
    {
        self.ring.value(number)
    }

    /// As [`Ring::entrance`] says.
    pub(crate) fn entrance(&self) -> Entrance
        ensures { Enters self.now result }
    {
        self.ring.entrance()
    }

    /// As [`Ring::free_place`] says.
    pub(crate) fn free_place(&self) -> Option<usize>
        ensures { result ≡ position is_none self.now.cursors }
    {
        self.ring.free_place()
    }

    /// As [`Ring::move_to`] says.
    pub(crate) fn move_to(&mut self, place: usize, cursor: Option<u64>)
        ensures { self.new ≡ moved place cursor self.old }
    {
        self.ring.move_to(place, cursor);
    }

    /// As [`Ring::accept`] says.
    pub(crate) fn accept(&mut self, value: T, next: u64) -> Option<T>
        requires { next ≡ self.old.next + 1 }
        ensures { self.new ≡ with_value value self.old }
    {
        self.ring.accept(value, next)
    }

    /// As [`Ring::forget`] says.
    pub(crate) fn forget(&mut self)
        ensures { self.new ≡ record self.old { forgotten = self.old.next } }
    {
        self.ring.forget();
    }
}

//! A seat is taken out of an object, begins to collect, and ends it.
ghost use Rattle.hillgauze_c.specs.StateCalls.{IsTakenOut, BeginsIn, EndsIn};

use super::Object;
use crate::parties::{Collecting, Seating};
use std::mem::replace;

impl Object {
    /// Takes the seat out, where it is one.
    pub fn take_seat(&mut self) -> Option<Seating>
        ensures { IsTakenOut self.old result self.new }
    {
        match replace(self, Object::Vacant) {
            Object::Seat(seating) => Some(seating),
            other => {
                *self = other;
                None
            }
        }
    }

    /// A seat becomes a collector. Says whether it was a seat.
    pub fn collect(&mut self) -> bool
        ensures { BeginsIn self.old result self.new }
    {
        match replace(self, Object::Vacant) {
            Object::Seat(seating) => {
                let collector = seating.seat.collect();
                *self = Object::Collector(Collecting { collector });
                true
            }
            other => {
                *self = other;
                false
            }
        }
    }

    /// A collector becomes a seat. Says whether it was a collector.
    pub fn cancel(&mut self) -> bool
        ensures { EndsIn self.old result self.new }
    {
        match replace(self, Object::Vacant) {
            Object::Collector(collecting) => {
                *self = Object::Seat(collecting.cancel());
                true
            }
            other => {
                *self = other;
                false
            }
        }
    }
}

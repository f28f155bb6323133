//! What tells a reader that an emission was accepted.
ghost use Rattle.std.specs.Prelude.{◌≡◌, []};
ghost use Rattle.shared_lane.specs.Views.{receipt_of};
ghost use Rattle.shared_lane.specs.Readers.{IsReceiptOf};

use crate::lane::Lane;
use crate::rule::LaneSeat;
use std::alloc::Allocator;
use std::marker::Model;

/// That an emission was accepted: whose it was, its number, and, for the proofs, all that was accepted up to it. It can go to
/// another thread, whose reader is then [told](crate::Reader::told) it. Kotlin's `emit` returns nothing that can be shown.
///
/// Contracts see its emitter, its number, and the accepted emissions up to it.
pub struct Receipt {
    // A token of no bytes, with what the proofs know of the seat.
    seat: LaneSeat,
    emitter: u32,
    number: u64,
}

impl Model for Receipt {
    ghost use Rattle.std.specs.Prelude.{◌≡◌, []};
    ghost use Rattle.shared_lane.specs.Views.{ReceiptSeen, receipt_of};

    ghost Value = { ReceiptSeen };

    ghost view = { λ r. receipt_of r.seat r.emitter r.number };

    ghost invariant = { λ r. r.seat.me.1 ≡ [] };
}

// By hand: who lets one go proves this call alone, and nothing of what it is made of.
impl Drop for Receipt {
    fn drop(self) {
        let Receipt {
            seat,
            emitter: _,
            number: _,
        } = self;
        drop(seat);
    }
}

impl Receipt {
    pub(crate) fn of(seat: LaneSeat, emitter: u32, number: u64) -> Receipt
        requires { seat.me.1 ≡ [] }
        ensures { result ≡ receipt_of seat emitter number }
    {
        Receipt {
            seat,
            emitter,
            number,
        }
    }

    /// A seat that has seen what the receipt holds.
    pub(crate) fn copied<A: Allocator>(&mut self, lane: &Lane<A>) -> LaneSeat
        requires { IsReceiptOf lane.now self.old }
        ensures receipt { self.new ≡ self.old }
        ensures copy { (result.table_id ≡ lane.now.table) × (result.me.0.seen ≡ self.old.seen) × (result.me.1 ≡ []) }
    {
        lane.words().copy_all(&mut self.seat)
    }

    /// Whose emission it is for.
    pub fn emitter(&self) -> u32
        ensures { result ≡ self.now.emitter }
    {
        self.emitter
    }

    /// The emission's number, counted from the flow's `first`.
    pub fn number(&self) -> u64
        ensures { result ≡ self.now.number }
    {
        self.number
    }
}

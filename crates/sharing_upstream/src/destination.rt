//! Where the values of a sharing go.

ghost use Rattle.std.specs.Prelude.{◌≡◌, ℕ, false, Bool, IsTrue};
ghost use Rattle.futures.specs.Task.{IsArmed, Keeps};
ghost use Rattle.sharing_upstream.specs.declared.destination.Offer.TheVariants.{Accepted};
ghost use Rattle.sharing_upstream.specs.Destinations.{Steps, Offered};

use cold_flow::Refusal;
use futures::task::Context;

/// Where the values of a sharing go: into a shared flow, or onto a state.
pub trait Destination<T> {
    // What no step changes.
    ghost Kept: { Type 0 };

    ghost kept: { Self → Self.Kept };

    // What contracts see of it.
    ghost Seen: { Type 0 };

    ghost seen: { Self → Self.Seen };

    // What each step does to that.
    ghost steps: { Self.Kept → Steps T Self.Seen };

    // No value waits.
    ghost free: { Self.Seen → Type 0 };

    /// How many listen to it.
    fn count(&mut self) -> u32
        ensures kept { kept self.new ≡ kept self.old }
        ensures counts { (steps (kept self.old)).Counts (seen self.old) result (seen self.new) };

    /// Asks whether the value that waits, if one does, waits still.
    fn still_waits(&mut self, cx: &mut Context<'_>) -> bool
        ensures kept { kept self.new ≡ kept self.old }
        ensures asks { (steps (kept self.old)).Asks (seen self.old) result (seen self.new) }
        ensures free { result ≡ false → free (seen self.new) }
        ensures armed { IsTrue result → IsArmed cx.new }
        ensures wakes { Keeps cx.old cx.new };

    /// Offers it a value.
    fn offer(&mut self, value: T) -> Offer
        requires free { free (seen self.old) }
        ensures kept { kept self.new ≡ kept self.old }
        ensures offered { Offered (steps (kept self.old)) (seen self.old) value result (seen self.new) }
        ensures free { result ≡ Accepted → free (seen self.new) };

    /// Withdraws the value that waits.
    fn withdraw(&mut self)
        ensures kept { kept self.new ≡ kept self.old }
        ensures withdraws { (steps (kept self.old)).Withdraws (seen self.old) (seen self.new) };

    /// Resets what is shared.
    fn reset(&mut self)
        ensures kept { kept self.new ≡ kept self.old }
        ensures resets { (steps (kept self.old)).Resets (seen self.old) (seen self.new) };
}

/// What becomes of a value that is offered to a destination.
pub enum Offer {
    /// It was taken, or dropped, and doesn't wait.
    Accepted,
    /// It waits.
    Waiting,
    /// It was refused, and doesn't wait.
    Refused(Refusal),
}

//! What an operator holds that gives more than one value for a value of its source.

ghost use Rattle.std.specs.Prelude.{◌≡◌};
ghost use Rattle.flow_terms.specs.Few.{split};
ghost use Rattle.cold_flow.specs.Closing.{cancelled};
ghost use Rattle.more_operators.specs.Held.{first_event, left_held, left_closing};

use cold_flow::{Closing, Event, Few};

/// What is still to be given, and how the operator stands to its source.
#[derive(Drop)]
pub struct Holding<U, E> {
    pub held: Few<U>,
    /// Where it is `Closing::Last`, `Cause::Finished` comes once nothing is held any more.
    pub closing: Closing<E>,
}

impl<U: Copy, E: Copy> Holding<U, E> {
    /// What is given without a question to the source, if anything: the first value that is held, or the end.
    pub fn settle(&mut self) -> Option<Event<U, E>>
        ensures event { result ≡ first_event self.old.closing (split self.old.held) }
        ensures held { self.new.held ≡ left_held self.old.closing self.old.held (split self.old.held) }
        ensures closing { self.new.closing ≡ left_closing self.old.closing (split self.old.held) }
    {
        if let Some(cause) = self.closing.given() {
            return Some(Event::End(cause));
        }
        if let Some((value, rest)) = self.held.split_first() {
            self.held = rest;
            return Some(Event::Value(value));
        }
        match self.closing.answer() {
            Some(cause) => Some(Event::End(cause)),
            None => None,
        }
    }

    /// Gives up what is held, and ends by `Cause::Cancelled`, unless it has ended.
    pub fn cancel(&mut self)
        ensures { self.new.closing ≡ cancelled self.old.closing }
    {
        self.held = Few::Zero;
        self.closing.cancel();
    }
}

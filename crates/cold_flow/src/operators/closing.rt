//! How an operator stands to its source.

ghost use Rattle.std.specs.Prelude.{◌≡◌, Some, IfNone, ⊤};
ghost use Rattle.cold_flow.specs.declared.operators.closing.Closing.TheVariants.{Open, Over};
ghost use Rattle.cold_flow.specs.Closing.{answer, answered, cancelled, given_cause};

use crate::cause::Cause;
use std::alloc::AllocError;

/// Whether an operator still follows its source, or ends by a cause of its own.
#[derive(Copy)]
pub enum Closing<E> {
    /// It follows its source.
    Open,
    /// The last value was given, and `Cause::Finished` comes next.
    Last,
    /// It has ended.
    Over(Cause<E>),
}

impl<E: Copy> Clone for Closing<E> {
    ghost is_clone = { λ value copy. copy ≡ value };

    ghost is_infallible = { λ _. ⊤ };

    fn clone(&self) -> Result<Self, AllocError> {
        Ok(*self)
    }
}

impl<E: Copy> Closing<E> {
    /// The cause that a poll gives without asking the source.
    pub fn answer(&mut self) -> Option<Cause<E>>
        ensures cause { result ≡ answer self.old }
        ensures closed { self.new ≡ answered self.old }
        ensures going { IfNone result (self.old ≡ Open) }
    {
        match *self {
            Closing::Open => None,
            Closing::Last => {
                *self = Closing::Over(Cause::Finished);
                Some(Cause::Finished)
            }
            Closing::Over(cause) => Some(cause),
        }
    }

    /// The cause by which it has ended.
    pub fn given(&self) -> Option<Cause<E>>
        ensures { result ≡ given_cause self.now }
    {
        match *self {
            Closing::Over(cause) => Some(cause),
            _ => None,
        }
    }

    /// Ends it by `Cause::Cancelled`, unless it has ended.
    pub fn cancel(&mut self)
        ensures { self.new ≡ cancelled self.old }
    {
        match *self {
            Closing::Over(_) => {}
            _ => *self = Closing::Over(Cause::Cancelled),
        }
    }
}

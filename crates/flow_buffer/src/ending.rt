//! How far a buffer in one task is from its end.

ghost use Rattle.std.specs.Prelude.{◌≡◌, ⊤};
ghost use Rattle.flow_buffer.specs.Endings.{is_going, given, seen, given_now};

use cold_flow::Cause;
use std::alloc::AllocError;

/// How far a buffer is from its end.
#[derive(Copy)]
pub enum Ending<E> {
    /// Its source may give more.
    Going,
    /// The source's end was seen, and is kept until none is held.
    Kept(Cause<E>),
    /// The end was given, or the buffer was cancelled. Every later poll gives it again.
    Given(Cause<E>),
}

impl<E: Copy> Clone for Ending<E> {
    ghost is_clone = { λ ending copy. copy ≡ ending };

    ghost is_infallible = { λ _. ⊤ };

    fn clone(&self) -> Result<Self, AllocError> {
        Ok(*self)
    }
}

impl<E: Copy> Ending<E> {
    // May the source be asked?
    pub(crate) fn is_going(&self) -> bool
        ensures { result ≡ is_going self.now }
    {
        matches!(self, Ending::Going)
    }

    // The end that every poll gives.
    pub(crate) fn given(&self) -> Option<Cause<E>>
        ensures { result ≡ given self.now }
    {
        match *self {
            Ending::Given(cause) => Some(cause),
            _ => None,
        }
    }

    // Gives the end that was seen, if one was.
    pub(crate) fn give(&mut self) -> Option<Cause<E>>
        ensures cause { result ≡ seen self.old }
        ensures given { self.new ≡ given_now self.old }
    {
        match *self {
            Ending::Going => None,
            Ending::Kept(cause) => {
                *self = Ending::Given(cause);
                Some(cause)
            }
            Ending::Given(cause) => Some(cause),
        }
    }
}

//! Whether a run over a hot flow was cancelled.

ghost use Rattle.std.specs.Prelude.{◌≡◌, Some, None};
ghost use Rattle.cold_flow.specs.Poll.{after_cancel};

use cold_flow::Cause;

/// How a run stands that never ends of itself: it goes on, or it was cancelled.
#[derive(Drop)]
pub struct Ended<E> {
    cause: Option<Cause<E>>,
}

impl<E: Copy> Ended<E> {
    /// Of a run that goes on.
    pub fn not_yet() -> Ended<E>
        ensures { result.cause ≡ None }
    {
        Ended { cause: None }
    }

    /// The cause that every poll gives from now on, if any.
    pub fn cause(&self) -> Option<Cause<E>>
        ensures { result ≡ self.now.cause }
    {
        self.cause
    }

    /// Ends the run by this cause.
    pub fn end(&mut self, cause: Cause<E>)
        ensures { self.new.cause ≡ Some cause }
    {
        self.cause = Some(cause);
    }

    /// Ends the run by `Cause::Cancelled`, unless it has ended.
    pub fn cancel(&mut self)
        ensures { self.new.cause ≡ Some (after_cancel self.old.cause) }
    {
        if self.cause.is_none() {
            self.cause = Some(Cause::Cancelled);
        }
    }
}

//! A shared flow, as a script's subscriptions know it.

ghost use Rattle.std.specs.Prelude.{IfOk};
ghost use Rattle.script_calls.specs.Calls.{Receipts, listed};

use flow_terms::{Next, Refusal, SubId};
use futures::task::Context;
use std::alloc::{AllocError, Global};

/// A shared flow with its subscriptions, as a script calls it: Kotlin's `SharedFlow`. It must be spent, by
/// [`close`](Shared::close).
pub trait Shared {
    // What each of these calls does.
    ghost receipts: { Receipts Self };

    /// A new subscription, which is given these values first. Refused with 10, 4, 7 or 5.
    fn subscribe(&mut self, prelude: &[u64]) -> Result<SubId, Refusal>
        ensures { receipts.Subscribes self.old prelude.now result self.new };

    /// The next value of a subscription.
    fn next(&mut self, id: SubId, cx: &mut Context<'_>) -> Next<u64>
        ensures { receipts.Nexts self.old id result self.new };

    /// Ends a subscription, and says whether it was live.
    fn cancel(&mut self, id: SubId) -> bool
        ensures { receipts.Cancels self.old id result self.new };

    /// The values of the replay cache, the oldest first, or a refusal with 4. Without memory for the list itself there is no reply.
    fn cache(&mut self, alloc: Global) -> Result<Result<Vec<u64>, Refusal>, AllocError>
        ensures { IfOk result (λ found. receipts.Caches self.old (listed found) self.new) };

    /// How many subscriptions are live.
    fn count(&mut self) -> u32
        ensures { receipts.Counts self.old result self.new };

    /// Ends the subscriptions, and lets the flow go.
    fn close(self);
}

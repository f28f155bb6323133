//! Subscriptions, and what they receive.

ghost use Rattle.std.specs.Prelude.{◌≡◌, length};
ghost use Rattle.shared_core.specs.Flow.{live_count};
ghost use Rattle.shared_core.specs.Calls as calls;
ghost use Rattle.shared_core.specs.Preludes.{prelude_values, IsWithout};
ghost use Rattle.shared_core.specs.Shown.{Follows, Reads, CountsPending};

use crate::config::NUMBER_LIMIT;
use crate::prelude::Prelude;
use crate::state::SharedState;
use flow_terms::{Next, Refusal, SubId};

impl<T: Copy> SharedState<T> {
    /// A new subscription, which starts at the oldest value of the replay cache: Kotlin's `collect`, as it begins.
    ///
    /// Refused as `Spent` where the numbers below 2^62 are used up, and then as `SubscribersFull` where `subscribers` are live.
    pub fn subscribe(&mut self) -> Result<SubId, Refusal>
        ensures { Follows calls.subscribe self.old result self.new }
    {
        self.subscribe_with(Prelude::empty())
    }

    /// A new subscription, which receives the values of its prelude first: Kotlin's `onSubscription`, with values that are
    /// known when it subscribes. Refused as `subscribe`.
    pub fn subscribe_with(&mut self, prelude: Prelude<T>) -> Result<SubId, Refusal>
        ensures { Follows (calls.subscribe_with (prelude_values prelude)) self.old result self.new }
    {
        let number = self.config.first + self.subscribed;
        if number == NUMBER_LIMIT {
            return Err(Refusal::Spent);
        }
        if self.ring.live_len() == self.config.subscribers as usize {
            return Err(Refusal::SubscribersFull);
        }
        self.ring.open(number);
        self.greetings.begin(number, prelude);
        self.subscribed += 1;
        Ok(SubId(number))
    }

    // Inlined wherever it is called, so that the answer needn't go through memory.
    /// Receives the oldest value that the subscription has pending: Kotlin's `collect`, for one value. Those of its prelude
    /// come first.
    ///
    /// `Nothing` where none is pending, and `Closed` where the subscription isn't live. After a value that isn't of the prelude,
    /// emissions that wait are accepted while there is room.
    #[inline(always)]
    pub fn next(&mut self, id: SubId) -> Next<T>
        ensures { Follows (calls.next_value id.0) self.old result self.new }
    {
        if let Some(value) = self.greetings.greet(id.0) {
            return Next::Value(value);
        }
        self.next_accepted(id)
    }

    /// The next value of a subscription of whose prelude nothing is left.
    #[inline(always)]
    fn next_accepted(&mut self, id: SubId) -> Next<T>
        ensures { IsWithout id.0 self.old.rests → Follows (calls.next_value id.0) self.old result self.new }
    {
        let Some(at) = self.ring.find(id.0) else {
            return Next::Closed;
        };
        let Some(value) = self.ring.receive(at) else {
            return Next::Nothing;
        };
        self.settle();
        Next::Value(value)
    }

    /// Ends a subscription and gives up what it has pending: Kotlin's `collect`, cancelled. Answers whether it was live.
    ///
    /// Emissions that wait are then accepted while there is room.
    pub fn cancel(&mut self, id: SubId) -> bool
        ensures { Follows (calls.cancel id.0) self.old result self.new }
    {
        let Some(at) = self.ring.find(id.0) else {
            return false;
        };
        self.ring.close(at);
        self.greetings.end(id.0);
        self.settle();
        true
    }

    /// How many values the subscription has pending, what is left of its prelude counted in, and 0 where it isn't live.
    pub fn pending(&self, id: SubId) -> u64
        ensures count { CountsPending id.0 self.now result }
        ensures shows { Reads (calls.pending_count id.0) self.now result }
    {
        match self.ring.place_of(id.0) {
            None => 0,
            Some(at) => self.greetings.left(id.0) + self.ring.pending_at(at),
        }
    }

    /// How many subscriptions are live: Kotlin's `subscriptionCount`, as a plain number.
    pub fn subscription_count(&self) -> u32
        ensures count { result ≡ length self.now.live }
        ensures shows { Reads live_count self.now result }
    {
        self.ring.live_len() as u32
    }
}

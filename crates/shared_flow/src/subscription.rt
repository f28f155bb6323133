//! One that receives the values of a shared flow.
ghost use Rattle.std.specs.Prelude.{◌≡◌, ◌≢◌, ◌⊎◌, ◌+◌, ◌++◌, List, ℕ, [], None, Some, IfOk, IfErr, IfSome, IfNone};
ghost use Rattle.futures.specs.Poll.{IfReady, OnPending};
ghost use Rattle.futures.specs.Task.{IsArmed, Keeps};
ghost use Rattle.flow_terms.specs.Lists.{IsPrefix, some_of};
ghost use Rattle.shared_lane.specs.Readers.{IsReaderOf, IsReceiptOf, IsSameReader, at, received_count, lost_count};
ghost use Rattle.shared_lane.specs.Places.{IsOfSubscription};
ghost use Rattle.shared_rounds.specs.declared.round.Round.TheVariants as round;
ghost use Rattle.shared_rounds.specs.Reach.{Party, party_of};
ghost use Rattle.shared_rounds.specs.Entering.{Made};
ghost use Rattle.shared_flow.specs.Parties.{Subscribed, OfFlow, IsSamePrelude, received, ok_of, ready_of, taken_of};
ghost use Rattle.shared_flow.specs.Looks.{Took, Gave, GaveIn, Missed, MissedTwice, MissedSome, MissedBoth, MissedUnder, OnlyLooked, OnlyNext, Waited, WasEnded, IsEndOf};
ghost use Rattle.shared_flow.specs.Looks.{MadeRoom, MadeRoomIn, HasMadeRoom, WasMadeWithin};
ghost use Rattle.shared_core.specs.Preludes.{prelude_values};
ghost use Rattle.shared_flow.specs.Preludes.{IsGreeted, IsPast, GreetedOr, TookFirst};
ghost use Rattle.shared_flow.specs.Received.{IsComplete, KnowsReceived, PreludeFirst, ReceivesAllButDropped};
ghost use Rattle.shared_lane.specs.Headline.{StartsAtCache};
ghost use Rattle.flow_terms.specs.declared.refusal.Refusal.TheVariants.{NoMemory};
ghost use Rattle.shared_rounds.specs.Meeting.{HasMet, OnlyMet};
ghost use Rattle.shared_rounds.specs.Names.{IsFlagOf};
ghost use Rattle.shared_flow.specs.Owners.{HasHeard};

use crate::parker::Parker;
use flow_terms::{Refusal, Word};
use futures::task::{Context, Poll};
use shared_core::{Prelude, Rest};
use shared_lane::{Met, Reader, Receipt, Taken};
use shared_rounds::{Access, LOOKS, Looker, Round, Shared, WaitKey, pause};
use std::marker::{Model, PhantomData};
use std::sync::Wait;

mod blocks;

/// A subscription of a shared flow: what runs inside Kotlin's `collect`. It never completes.
///
/// It has no `Drop` and must be spent, by `cancel`: until then it takes a place, and under `Suspend` it holds up emitters. Lend it
/// to a thread by `&mut`, and spend it after the join. Contracts see its flow, the rounds that it made under the lock, the one list of
/// rounds as far as it has seen it, its number, what it was given of its prelude and what is left, its reader, and its looks at the
/// flag. The first clause of each call, `has`, says what it has `received` since it began.
pub struct Subscription<T: Word> {
    access: Access,
    // Given first, and by nobody but this subscription: no lock, and no word of the lane.
    rest: Rest<T>,
    reader: Reader,
    // Looks at the flag, after a receipt.
    looker: Looker,
    // Under which it sleeps.
    number: u64,
    // Where it slept last.
    wait_key: WaitKey,
    marker: PhantomData<T>,
}

/// What is left of a subscription that was ended: its owner of the flow's lock, and what was counted.
pub(crate) struct Ended {
    pub(crate) access: Access,
    pub(crate) met: Met,
}

impl<T: Word> Model for Subscription<T> {
    ghost use Rattle.std.specs.Prelude.{◌≡◌, None};
    ghost use Rattle.shared_lane.specs.Readers.{IsReaderOf};
    ghost use Rattle.shared_lane.specs.Places.{IsOfSubscription};
    ghost use Rattle.shared_rounds.specs.Reach.{party_of};
    ghost use Rattle.shared_rounds.specs.Names.{IsFlagOf};
    ghost use Rattle.shared_flow.specs.Parties.{Subscribed, OfFlow};
    ghost use Rattle.shared_flow.specs.Received.{KnowsReceived, PreludeFirst};

    ghost Value = { Subscribed T };

    ghost view = { λ s. record { party = party_of s.access; number = s.number; given = s.rest.given; rest = s.rest.left; reader = s.reader; looks = s.looker.looks } };

    ghost invariant = { λ s. (s.access.held ≡ None) × OfFlow (party_of s.access) (λ name. IsReaderOf name.lane s.reader) × IsFlagOf (party_of s.access).flow s.looker.table × IsOfSubscription s.number s.reader × KnowsReceived s.reader × PreludeFirst s.rest s.reader };
}

impl<T: Word> Subscription<T> {
    pub(crate) fn new(
        access: Access,
        number: u64,
        prelude: Prelude<T>,
        reader: Reader,
        looker: Looker,
    ) -> Subscription<T>
        requires { (access.held ≡ None) × OfFlow (party_of access) (λ name. IsReaderOf name.lane reader) × IsFlagOf (party_of access).flow looker.table × IsOfSubscription number reader × ((cache : List ℕ) × StartsAtCache cache reader) }
        ensures { result ≡ record { party = party_of access; number = number; given = []; rest = prelude_values prelude; reader = reader; looks = looker.looks } }
    {
        Subscription {
            access,
            rest: Rest::of(prelude),
            reader,
            looker,
            number,
            wait_key: WaitKey::new(),
            marker: PhantomData,
        }
    }

    /// Takes the next value, without a lock: that of its prelude, while one is left. Kotlin has no such call: there `collect`
    /// suspends where this answers `Nothing`.
    ///
    /// `Nothing` where no accepted emission that it has seen, or was [told](Subscription::told), lies at or past its position;
    /// `Overtaken` where the value was dropped just then, so that its position rose, on a flow that drops the oldest values alone.
    ///
    /// It wakes nobody. An emission that waits for room is accepted by the next call that takes the lock, whoever makes it: where all
    /// subscriptions take their values by this call alone, who emits has to poll its emitter again by itself.
    pub fn try_next(&mut self) -> Taken<T>
        ensures has { received T.read_as self.new ≡ received T.read_as self.old ++ taken_of result }
        ensures prelude { IsSamePrelude self.old self.new }
        ensures same { (self.new.party ≡ self.old.party) × (self.new.number ≡ self.old.number) }
        ensures taken { TookFirst T.read_as self.old result self.new }
    {
        match self.greet() {
            Some(value) => Taken::Value(value),
            None => self.try_accepted(),
        }
    }

    // The next value of the prelude, if one is left. It makes no step on the lane, and takes no lock. Without one it makes no call.
    #[inline(always)]
    fn greet(&mut self) -> Option<T>
        ensures has { received T.read_as self.new ≡ received T.read_as self.old ++ some_of result }
        ensures prelude { IsSamePrelude self.old self.new }
        ensures same { (self.new.party ≡ self.old.party) × (self.new.number ≡ self.old.number) × (self.new.reader ≡ self.old.reader) × (self.new.looks ≡ self.old.looks) }
        ensures greeted { IfSome result (λ v. IsGreeted self.old v self.new) }
        ensures past { IfNone result (IsPast self.old self.new) }
        ensures kept { IfNone result (self.new.given ≡ self.old.given) }
    {
        if self.rest.is_empty() {
            return None;
        }
        self.rest.give()
    }

    // The next value that was accepted, without a lock.
    fn try_accepted(&mut self) -> Taken<T>
        requires past { self.old.rest ≡ [] }
        ensures has { received T.read_as self.new ≡ received T.read_as self.old ++ taken_of result }
        ensures prelude { IsSamePrelude self.old self.new }
        ensures same { (self.new.party ≡ self.old.party) × (self.new.number ≡ self.old.number) × (self.new.rest ≡ self.old.rest) }
        ensures taken { Took T.read_as self.old.reader result self.new.reader }
    {
        match self.reader.try_next(self.access.lane()) {
            Taken::Value(word) => Taken::Value(T::from_word(word)),
            Taken::Nothing => Taken::Nothing,
            Taken::Overtaken => Taken::Overtaken,
        }
    }

    /// Receives the oldest value that is pending, where one is there: the look that [`next`](Subscription::next) begins with. Those
    /// of the prelude come first. Kotlin has no such call: there `collect` suspends where this answers nothing.
    ///
    /// It never sleeps for a value. It takes the lock where an emission waits that the receipt may help, which is the difference
    /// from [`try_next`](Subscription::try_next), and only then. Nothing says whether the position rose, as `Overtaken` does there.
    pub fn next_now(&mut self, rt: &impl Wait) -> Option<T>
        ensures has { received T.read_as self.new ≡ received T.read_as self.old ++ some_of result }
        ensures prelude { IsSamePrelude self.old self.new }
        ensures rounds { (self.new.party ≡ self.old.party) ⊎ Made (round.Next self.old.number) self.old.party self.new.party }
        ensures same { self.new.number ≡ self.old.number }
        ensures given { IfSome result (λ v. GreetedOr self.old v self.new (Gave T.read_as self.old.reader v self.new.reader)) }
        ensures room { IfSome result (λ v. IsGreeted self.old v self.new ⊎ MadeRoom self.old self.new) }
        ensures missed { IfNone result (IsPast self.old self.new × OnlyLooked self.old self.new × Missed self.old.reader self.new.reader) }
    {
        match self.greet() {
            Some(value) => Some(value),
            None => self.look(rt),
        }
    }

    /// Receives the oldest value that is pending, where one comes within some microseconds: it pauses and looks, a few times, as
    /// [`next`](Subscription::next) does before its thread sleeps. For one who looked by [`next_now`](Subscription::next_now), and
    /// would sleep by means of its own. Those of the prelude come first, at once. Kotlin has no such call.
    ///
    /// It never sleeps for a value, and takes the lock as `next_now` does.
    pub fn next_soon(&mut self, rt: &impl Wait) -> Option<T>
        ensures has { received T.read_as self.new ≡ received T.read_as self.old ++ some_of result }
        ensures prelude { IsSamePrelude self.old self.new }
        ensures rounds { (self.new.party ≡ self.old.party) ⊎ Made (round.Next self.old.number) self.old.party self.new.party }
        ensures same { self.new.number ≡ self.old.number }
        ensures given { IfSome result (λ v. GreetedOr self.old v self.new (Waited T.read_as self.old.reader v self.new.reader)) }
        ensures room { IfSome result (λ v. IsGreeted self.old v self.new ⊎ MadeRoom self.old self.new) }
        ensures missed { IfNone result (IsPast self.old self.new × OnlyLooked self.old self.new × MissedSome self.old.reader self.new.reader) }
    {
        if let Some(value) = self.greet() {
            return Some(value);
        }
        // A value that another thread is about to accept is there sooner than a thread that sleeps has been woken for it.
        for _turn in 0..LOOKS {
            pause();
            if let Some(value) = self.look(rt) {
                return Some(value);
            }
        }
        None
    }

    /// Receives the oldest value that is pending: one turn of Kotlin's `collect`. Those of the prelude come first. Pending where
    /// there is none, and then the task sleeps until a value is accepted. That the wake arrives isn't claimed.
    ///
    /// It looks twice: first without the lock, and where that gives no value once more with it. A value that is there costs no lock,
    /// unless an emission waits that the receipt may help.
    pub fn poll_next(&mut self, rt: &impl Wait, cx: &mut Context<'_>) -> Poll<T>
        ensures has { received T.read_as self.new ≡ received T.read_as self.old ++ ready_of result }
        ensures prelude { IsSamePrelude self.old self.new }
        ensures round { OnPending result (Made (round.Pending self.old.number) self.old.party self.new.party) }
        ensures rounds { IfReady result (λ v. (self.new.party ≡ self.old.party) ⊎ Made (round.Next self.old.number) self.old.party self.new.party) }
        ensures same { self.new.number ≡ self.old.number }
        ensures ready { IfReady result (λ v. GreetedOr self.old v self.new (GaveIn T.read_as self.old.reader v self.new.reader)) }
        ensures room { IfReady result (λ v. IsGreeted self.old v self.new ⊎ MadeRoomIn self.old self.new) }
        ensures pending { OnPending result (IsPast self.old self.new × MissedTwice self.old.reader self.new.reader) }
        ensures nothing { OnPending result (MissedBoth self.old self.new) }
        ensures armed { OnPending result (IsArmed cx.new) }
        ensures kept { Keeps cx.old cx.new }
    {
        match self.next_now(rt) {
            Some(value) => Poll::Ready(value),
            None => self.look_again(rt, cx),
        }
    }

    /// Receives the oldest value that is pending, and waits for one where there is none: one turn of Kotlin's `collect`. Those of
    /// the prelude come first.
    ///
    /// The thread sleeps while no value is there. That the wake arrives isn't claimed. Refused as `NoMemory` where no value is there
    /// and the parker finds no memory to wait by; nothing is received then.
    pub fn next(&mut self, rt: &impl Wait, parker: &mut Parker) -> Result<T, Refusal>
        ensures has { received T.read_as self.new ≡ received T.read_as self.old ++ ok_of result }
        ensures prelude { IsSamePrelude self.old self.new }
        ensures same { self.new.number ≡ self.old.number }
        ensures rounds { OnlyNext self.old.number self.old.party self.new.party }
        ensures value { IfOk result (λ v. GreetedOr self.old v self.new (Waited T.read_as self.old.reader v self.new.reader)) }
        ensures room { IfOk result (λ v. IsGreeted self.old v self.new ⊎ HasMadeRoom self.old self.new) }
        ensures nothing { IfErr result (λ refusal. (refusal ≡ NoMemory) × IsPast self.old self.new × Missed self.old.reader self.new.reader) }
    {
        match self.next_now(rt) {
            Some(value) => Ok(value),
            None => self.wait_for_next(rt, parker),
        }
    }

    // Waits for the next value that is accepted, where a look found nothing. It looks on for a little while before the thread sleeps.
    #[inline(never)]
    fn wait_for_next(&mut self, rt: &impl Wait, parker: &mut Parker) -> Result<T, Refusal>
        requires past { self.old.rest ≡ [] }
        ensures has { received T.read_as self.new ≡ received T.read_as self.old ++ ok_of result }
        ensures prelude { IsSamePrelude self.old self.new }
        ensures same { (self.new.number ≡ self.old.number) × (self.new.rest ≡ self.old.rest) }
        ensures rounds { OnlyNext self.old.number self.old.party self.new.party }
        ensures value { IfOk result (λ v. Waited T.read_as self.old.reader v self.new.reader) }
        ensures room { IfOk result (λ v. HasMadeRoom self.old self.new) }
        ensures nothing { IfErr result (λ refusal. (refusal ≡ NoMemory) × (self.new ≡ self.old)) }
    {
        parker.begin()?;
        if let Some(value) = self.next_soon(rt) {
            return Ok(value);
        }
        for _ in rt.forever() {
            let Some(mut cx) = parker.turn(rt) else {
                continue;
            };
            let polled = self.poll_next(rt, &mut cx);
            cx.end(&polled);
            if let Poll::Ready(value) = polled {
                return Ok(value);
            }
        }
        unreachable!()
    }

    // Looks for a value without the lock: each look for one value that comes before a subscription sleeps is made here. It takes
    // the lock where an emission waits that the receipt may help, which nobody else may ever do.
    fn look(&mut self, rt: &impl Wait) -> Option<T>
        requires past { self.old.rest ≡ [] }
        ensures has { received T.read_as self.new ≡ received T.read_as self.old ++ some_of result }
        ensures prelude { IsSamePrelude self.old self.new }
        ensures rounds { (self.new.party ≡ self.old.party) ⊎ Made (round.Next self.old.number) self.old.party self.new.party }
        ensures same { (self.new.number ≡ self.old.number) × (self.new.rest ≡ self.old.rest) }
        ensures given { IfSome result (λ v. Gave T.read_as self.old.reader v self.new.reader) }
        ensures room { IfSome result (λ v. MadeRoom self.old self.new) }
        ensures missed { IfNone result (OnlyLooked self.old self.new × Missed self.old.reader self.new.reader) }
    {
        let access = &self.access;
        let track = access.track();
        let Taken::Value(word) = self.reader.try_next(track.lane()) else {
            return None;
        };
        let waits = access.has_unfinished(track, &mut self.looker, &self.reader);
        if waits {
            self.accept_waiting(rt);
        }
        Some(T::from_word(word))
    }

    // Accepts what waits, after a value was received without the lock. Not inlined, nor is the second look: a
    // receipt that takes no lock then saves no registers for them.
    #[inline(never)]
    fn accept_waiting(&mut self, rt: &impl Wait)
        ensures made { Made (round.Next self.old.number) self.old.party self.new.party }
        ensures same { self.new ≡ record self.old { party = self.new.party } }
    {
        let mut inside = self.access.enter(rt);
        inside.shared.accept_waiting(self.number);
        self.access.leave(inside, Round::Next(self.number));
    }

    // Looks for a value with the lock held. Without one the task sleeps.
    #[inline(never)]
    fn look_again(&mut self, rt: &impl Wait, cx: &mut Context<'_>) -> Poll<T>
        requires past { self.old.rest ≡ [] }
        ensures has { received T.read_as self.new ≡ received T.read_as self.old ++ ready_of result }
        ensures prelude { IsSamePrelude self.old self.new }
        ensures same { (self.new.number ≡ self.old.number) × (self.new.rest ≡ self.old.rest) × (self.new.looks ≡ self.old.looks) }
        ensures round { OnPending result (Made (round.Pending self.old.number) self.old.party self.new.party) }
        ensures within { IfReady result (λ v. WasMadeWithin self.old.number self.old.party self.new.party) }
        ensures ready { IfReady result (λ v. Gave T.read_as self.old.reader v self.new.reader) }
        ensures pending { OnPending result (Missed self.old.reader self.new.reader) }
        ensures nothing { OnPending result (MissedUnder self.old.number self.old.reader self.new.reader self.old.party self.new.party) }
        ensures armed { OnPending result (IsArmed cx.new) }
        ensures kept { Keeps cx.old cx.new }
    {
        let mut inside = self.access.enter(rt);
        match inside.shared.look(self.number, &mut self.reader) {
            Taken::Value(word) => {
                self.access.leave(inside, Round::Next(self.number));
                Poll::Ready(T::from_word(word))
            }
            Taken::Nothing => {
                inside
                    .shared
                    .sleep_subscription(self.number, &mut self.wait_key, cx);
                self.access.leave(inside, Round::Pending(self.number));
                Poll::Pending
            }
            // Nobody moves a cursor but under the lock, so that this doesn't come: it asks to be polled again.
            Taken::Overtaken => {
                self.access.leave(inside, Round::Pending(self.number));
                let _again: Poll<()> = cx.yield_now();
                Poll::Pending
            }
        }
    }

    /// The subscription hears of an accepted emission, without a lock: from then on it has seen all that was accepted up to it.
    pub fn told(&mut self, receipt: &mut Receipt)
        requires { OfFlow self.old.party (λ name. IsReceiptOf name.lane receipt.old) }
        ensures has { received T.read_as self.new ≡ received T.read_as self.old }
        ensures prelude { IsSamePrelude self.old self.new }
        ensures same { (self.new.party ≡ self.old.party) × (self.new.number ≡ self.old.number) }
        ensures rest { self.new.rest ≡ self.old.rest }
        ensures reader { IsSameReader self.old.reader self.new.reader × (self.new.reader.story ≡ self.old.reader.story) }
        ensures receipt { receipt.new ≡ receipt.old }
        ensures told { IsPrefix receipt.old.seen self.new.reader.seen }
    {
        self.reader.told(self.access.lane(), receipt);
    }

    /// A law, with nothing to run. Of any subscription, between any two of its calls: what it received, then what is left of its prelude
    /// and what is pending for it, is its prelude, the replay cache at its start and all later accepted emissions, in order and once,
    /// less just those that its policy dropped; of the emissions, as far as it has seen them. After an owner's
    /// [`meet`](crate::SharedFlow::meet), and as [`cancel`](Subscription::cancel) ends it, it has seen all.
    pub fn receives_all_but_dropped(&self)
        ensures { ReceivesAllButDropped T.read_as self.now }
    {
        let _number = self.number;
    }

    /// The number at which it began: that of the oldest value of the replay cache, as it was then.
    pub fn start(&self) -> u64
        ensures { result ≡ self.now.reader.start }
    {
        self.reader.start()
    }

    /// How many values of the flow it received. Those of its prelude aren't counted.
    pub fn received(&self) -> u64
        ensures { result ≡ received_count self.now.reader }
    {
        self.reader.received()
    }

    /// How many values were dropped for it, as far as it has seen.
    pub fn dropped(&self) -> u64
        ensures lost { result ≡ lost_count self.now.reader }
        ensures sum { self.now.reader.start + received_count self.now.reader + result ≡ at self.now.reader }
    {
        self.reader.dropped()
    }

    /// Learns from one who holds the lock what was accepted, and what was dropped for it.
    pub(crate) fn meet(&mut self, shared: &mut Shared) -> Met
        requires { self.old.party.flow ≡ Some shared.old.name }
        ensures has { received T.read_as self.new ≡ received T.read_as self.old }
        ensures prelude { IsSamePrelude self.old self.new }
        ensures same { (self.new.party ≡ self.old.party) × (self.new.number ≡ self.old.number) }
        ensures rest { self.new.rest ≡ self.old.rest }
        ensures shared { OnlyMet shared.old shared.new }
        ensures met { HasMet shared.new.sequencer self.old.reader self.new.reader result }
    {
        shared.meet(&mut self.reader)
    }

    /// Hears of all rounds so far, from one who has the lock.
    pub(crate) fn hear(&mut self, owner: &mut Access)
        requires held { owner.old.held ≢ None }
        requires lock { self.old.party.lock ≡ owner.old.lock }
        ensures owner { owner.new ≡ owner.old }
        ensures heard { HasHeard owner.old.seen self.old.party self.new.party }
        ensures same { self.new ≡ record self.old { party = self.new.party } }
    {
        owner.meet(&mut self.access);
    }

    /// Ends the subscription, and gives up what it has pending, of its prelude too: Kotlin's `collect`, cancelled. Emissions that
    /// wait are then accepted while there is room.
    ///
    /// Says what had become of the emissions from its start on, as an owner's [`meet`](crate::SharedFlow::meet) does:
    /// `accepted - received - dropped` were pending, and are given up. Those of its prelude aren't counted. Its list is complete then:
    /// it received no more, and has seen all that was accepted.
    pub fn cancel(self, rt: &impl Wait) -> Met
        ensures has { IsComplete T.read_as self result }
        ensures last { (complete : IsComplete T.read_as self result) × IsEndOf self result complete.last }
        ensures ended { (left : Party) × WasEnded self.number self.reader result self.party left }
    {
        let Ended { access, met } = self.end(rt);
        drop(access);
        met
    }

    /// Ends it as `cancel` does, and gives what it has of the flow's lock besides, for an owner that takes it in.
    #[inline(always)]
    pub(crate) fn end(self, rt: &impl Wait) -> Ended
        ensures has { IsComplete T.read_as self result.met }
        ensures last { (complete : IsComplete T.read_as self result.met) × IsEndOf self result.met complete.last × (complete.last.party ≡ party_of result.access) }
        ensures ended { WasEnded self.number self.reader result.met self.party (party_of result.access) }
        ensures free { result.access.held ≡ None }
    {
        let Subscription {
            mut access,
            rest: _,
            reader,
            looker: _,
            number,
            wait_key: _,
            marker: _,
        } = self;
        let mut inside = access.enter(rt);
        let met = inside.shared.cancel(number, reader);
        access.leave(inside, Round::Cancel(number));
        Ended { access, met }
    }
}

//! One that emits into a shared flow.
ghost use Rattle.std.specs.Prelude.{◌≡◌, ◌≢◌, ◌⊎◌, [], ◌∷◌, ◌++◌, Some, None, IfErr, Result, is_some};
ghost use Rattle.flow_terms.specs.declared.refusal.Refusal.TheVariants.{NoMemory, Spent, EmitsFull};
ghost use Rattle.flow_terms.specs.declared.answers.Emit.TheVariants as emit;
ghost use Rattle.flow_terms.specs.declared.answers.Withdrawn.TheVariants as withdrawn;
ghost use Rattle.futures.specs.Poll.{IfReady, OnPending};
ghost use Rattle.futures.specs.Task.{IsArmed, Keeps};
ghost use Rattle.shared_rounds.specs.declared.round.Round.TheVariants as round;
ghost use Rattle.shared_rounds.specs.Reach.{party_of};
ghost use Rattle.shared_rounds.specs.Entering.{Made};
ghost use Rattle.shared_rounds.specs.Rounds.{IsAfter, numbers_tried, poll_round, withdraw_round};
ghost use Rattle.shared_flow.specs.Emitters.{emission_by, after_try, WasStarted, WasFinished, Waits, WasLeft, WasGivenUp};
ghost use Rattle.shared_flow.specs.Emitters.{Emits, EndsAs, EndedWith, IfEmitted, Waited, begun_with};
ghost use Rattle.shared_flow.specs.Emitted.{emitted, outcome_of_try, outcome_of_start, outcome_of_emit};
ghost use Rattle.shared_flow.specs.Emitted.{settled, accepted, after_poll, after_cancel, IsLeftOf};
ghost use Rattle.shared_rounds.specs.Tries.{IfTried, IfBegun, TriedUnder, BegunUnder, last_of_try, last_of_start};
ghost use Rattle.shared_flow.specs.Parties.{IsSameEmitter, Emitting, IsItsReceipt, IsOwnReceipt, OfFlow, IfLeft, without_receipt};
ghost use Rattle.shared_flow.specs.Owners.{HasHeard};
ghost use Rattle.shared_flow.specs.Emitted.{AreItsPart};

use crate::parker::Parker;
use flow_terms::{Refusal, Word};
use futures::task::{Context, Poll};
use shared_core::{Begun, Emit, Ticket, Tried, Withdrawn};
use shared_lane::Receipt;
use shared_rounds::{Access, Emission, Polled, Released, Round, WaitKey, begun_ticket, pause};
use std::marker::{Model, PhantomData};
use std::sync::Wait;

mod blocks;

pub use blocks::CutShort;

/// One that emits into a shared flow, one emission after another: a coroutine that calls Kotlin's `emit` and `tryEmit`.
///
/// It has no `Drop` and must be spent, by `close`. Lend it to a thread by `&mut`, and spend it after the join. Contracts see its
/// flow, the rounds that it made under the lock, the one list of rounds as far as it has seen it, its id, the ticket of its emission
/// in flight, and the number of its last receipt. The first clause of each call, `has`, says what it has `emitted`, and what became
/// of each word.
pub struct Emitter<T: Word> {
    access: Access,
    id: u32,
    // The ticket of the emission in flight.
    ticket: Option<Ticket>,
    // The number of its last receipt.
    last: Option<u64>,
    // Where the emission in flight slept last.
    wait_key: WaitKey,
    marker: PhantomData<T>,
}

impl<T: Word> Model for Emitter<T> {
    ghost use Rattle.std.specs.Prelude.{◌≡◌, None};
    ghost use Rattle.shared_rounds.specs.Reach.{party_of};
    ghost use Rattle.std.specs.List.{AllByRecursion};
    ghost use Rattle.shared_flow.specs.Parties.{Emitting, WasAnswered};
    ghost use Rattle.shared_flow.specs.Emitted.{IsOwn};

    ghost Value = { Emitting };

    ghost view = { λ e. record { party = party_of e.access; id = e.id; ticket = e.ticket; last = e.last } };

    ghost invariant = { λ e. (e.access.held ≡ None) × WasAnswered e.last e.access.rounds × AllByRecursion (IsOwn e.id) e.access.rounds };
}

impl<T: Word> Emitter<T> {
    pub(crate) fn new(access: Access, id: u32) -> Emitter<T>
        requires { (access.held ≡ None) × (access.rounds ≡ []) }
        ensures { result ≡ record { party = party_of access; id = id; ticket = None; last = None } }
    {
        Emitter {
            access,
            id,
            ticket: None,
            last: None,
            wait_key: WaitKey::new(),
            marker: PhantomData,
        }
    }

    /// Emits a value where that can be done at once: Kotlin's `tryEmit`, which answers true for `Accepted` and `Dropped`.
    ///
    /// `Full` where the emission would have to wait. Refused as `Spent` where the numbers below 2^62 are used up.
    pub fn try_emit(&mut self, rt: &impl Wait, value: T) -> Result<Tried<Receipt>, Refusal>
        requires idle { self.old.ticket ≡ None }
        ensures has { emitted self.new ≡ emitted self.old ++ (T.word value, outcome_of_try result) ∷ [] }
        ensures round { self.new ≡ after_try self.old (emission_by self.old (T.word value)) result self.new.party.seen }
        ensures made { Made (round.Try (emission_by self.old (T.word value)) (numbers_tried result)) self.old.party self.new.party }
        ensures receipt { IfTried result (IsItsReceipt self.old.party (emission_by self.old (T.word value))) }
        ensures rises { IfTried result (λ receipt. IsAfter self.old.last receipt.number) }
        ensures refused { IfErr result (λ refusal. refusal ≡ Spent) }
        ensures policy { OfFlow self.old.party (λ name. TriedUnder name.config.policy result) }
    {
        let emission = Emission {
            emitter: self.id,
            word: value.to_word(),
        };
        let mut inside = self.access.enter(rt);
        let answer = inside.shared.try_emit(emission);
        let tried = inside.shared.tried_with_receipt(emission, answer);
        self.last = last_tried(self.last, &answer);
        self.access.leave(inside, Round::Try(emission, answer));
        tried
    }

    /// Whether an emission is in flight: in Kotlin, whether the coroutine is suspended in `emit`. From a `start_emit` that answered
    /// `Waiting` up to a `poll_emit` that is ready, or a `cancel_emit`.
    pub fn in_flight(&self) -> bool
        ensures { result ≡ is_some self.now.ticket }
    {
        self.ticket.is_some()
    }

    /// Begins an emission: Kotlin's `emit`, up to where it suspends. `Waiting` where it isn't finished: it is in flight then.
    ///
    /// Refused as `Spent` where the numbers below 2^62 are used up, then as `EmitsFull` where the emission would be in flight
    /// and `emits` others are.
    pub fn start_emit(&mut self, rt: &impl Wait, value: T) -> Result<Begun<Receipt, ()>, Refusal>
        requires idle { self.old.ticket ≡ None }
        ensures has { emitted self.new ≡ emitted self.old ++ (T.word value, outcome_of_start result) ∷ [] }
        ensures round { WasStarted self.old (emission_by self.old (T.word value)) result self.new }
        ensures receipt { IfBegun result (IsItsReceipt self.old.party (emission_by self.old (T.word value))) }
        ensures rises { IfBegun result (λ receipt. IsAfter self.old.last receipt.number) }
        ensures refused { IfErr result (λ refusal. (refusal ≡ Spent) ⊎ (refusal ≡ EmitsFull)) }
        ensures policy { OfFlow self.old.party (λ name. BegunUnder name.config.policy result) }
    {
        let emission = Emission {
            emitter: self.id,
            word: value.to_word(),
        };
        let mut inside = self.access.enter(rt);
        let answer = inside.shared.start_emit(emission);
        let begun = inside.shared.begun_with_receipt(emission, answer);
        self.last = last_begun(self.last, &answer);
        self.ticket = begun_ticket(&answer);
        self.access.leave(inside, Round::Start(emission, answer));
        begun
    }

    /// Asks whether the emission in flight is finished: Kotlin's `emit`, where it resumes. Pending where it isn't, and then the
    /// task sleeps until a receipt or a cancellation finishes it. That the wake arrives isn't claimed.
    pub fn poll_emit(&mut self, rt: &impl Wait, cx: &mut Context<'_>) -> Poll<Receipt>
        requires in_flight { self.old.ticket ≢ None }
        ensures has { emitted self.new ≡ after_poll result (emitted self.old) }
        ensures ready { IfReady result (λ receipt. WasFinished self.old receipt self.new) }
        ensures receipt { IfReady result (IsOwnReceipt self.old.party self.old.id) }
        ensures rises { IfReady result (λ receipt. IsAfter self.old.last receipt.number) }
        ensures pending { OnPending result (Waits self.old self.new) }
        ensures armed { OnPending result (IsArmed cx.new) }
        ensures kept { Keeps cx.old cx.new }
    {
        let Some(ticket) = self.ticket else {
            unreachable!()
        };
        let mut inside = self.access.enter(rt);
        let Polled { emit, receipt } = inside.shared.poll_emit(ticket, self.id, self.last);
        let Some(receipt) = receipt else {
            inside
                .shared
                .sleep_emission(ticket, emit, &mut self.wait_key, cx);
            let round = polled_without_receipt(ticket, self.id, self.last, emit);
            self.access.leave(inside, round);
            return Poll::Pending;
        };
        self.ticket = None;
        self.last = Some(receipt.number());
        self.access.leave(inside, Round::Poll(ticket, emit));
        Poll::Ready(receipt)
    }

    /// Emits a value, and waits until that is finished: Kotlin's `emit`. Nothing where the policy dropped the value.
    ///
    /// The thread sleeps while the emission is in flight. That the wake arrives isn't claimed. Refused as [`start_emit`](Emitter::start_emit)
    /// is, and as `NoMemory` where the parker finds none to wait by: the emission was withdrawn then, and was never accepted.
    pub fn emit(
        &mut self,
        rt: &impl Wait,
        parker: &mut Parker,
        value: T,
    ) -> Result<Option<Receipt>, Refusal>
        requires idle { self.old.ticket ≡ None }
        ensures has { emitted self.new ≡ emitted self.old ++ (T.word value, outcome_of_emit result) ∷ [] }
        ensures ends { (self.new.ticket ≡ None) × IsSameEmitter self.old self.new }
        ensures emits { Emits self.old (emission_by self.old (T.word value)) result self.new }
        ensures receipt { IfEmitted result (IsOwnReceipt self.old.party self.old.id) }
        ensures rises { IfEmitted result (λ receipt. IsAfter self.old.last receipt.number) }
        ensures refused { IfErr result (λ refusal. (refusal ≡ NoMemory) ⊎ ((refusal ≡ Spent) ⊎ (refusal ≡ EmitsFull))) }
        ensures policy { OfFlow self.old.party (λ name. BegunUnder name.config.policy (begun_with result)) }
    {
        match self.start_emit(rt, value)? {
            Begun::Accepted(receipt) => Ok(Some(receipt)),
            Begun::Dropped => Ok(None),
            Begun::Waiting(()) => self.finish(rt, parker),
        }
    }

    // Waits until the emission in flight is finished, or gives it up.
    fn finish(&mut self, rt: &impl Wait, parker: &mut Parker) -> Result<Option<Receipt>, Refusal>
        requires in_flight { self.old.ticket ≢ None }
        ensures has { emitted self.new ≡ settled (outcome_of_emit result) (emitted self.old) }
        ensures ends { (self.new.ticket ≡ None) × IsSameEmitter self.old self.new }
        ensures answers { EndsAs self.old result self.new }
        ensures receipt { IfEmitted result (IsOwnReceipt self.old.party self.old.id) }
        ensures rises { IfEmitted result (λ receipt. IsAfter self.old.last receipt.number) }
    {
        match parker.begin() {
            Ok(()) => Ok(Some(self.finished(rt, parker))),
            Err(_) => match self.cancel_emit(rt) {
                Withdrawn::Left(receipt) => Ok(Some(receipt)),
                Withdrawn::Removed => Err(Refusal::NoMemory),
                // Its ticket wasn't out, which no run of an emitter shows. A poll of it would be pending for ever, too.
                Withdrawn::Gone => {
                    for _ in rt.forever() {
                        pause();
                    }
                    unreachable!()
                }
            },
        }
    }

    // Waits until the emission in flight is finished. It looks on for a little while before the thread sleeps.
    fn finished(&mut self, rt: &impl Wait, parker: &mut Parker) -> Receipt
        requires in_flight { self.old.ticket ≢ None }
        ensures has { emitted self.new ≡ settled (accepted result.number) (emitted self.old) }
        ensures ends { (self.new.ticket ≡ None) × IsSameEmitter self.old self.new }
        ensures finished { (m : Emitting) × Waited self.old m × WasFinished m result self.new }
        ensures receipt { IsOwnReceipt self.old.party self.old.id result }
        ensures rises { IsAfter self.old.last result.number }
    {
        self.access.watch_unfinished();
        for _ in rt.forever() {
            let Some(mut cx) = parker.turn(rt) else {
                continue;
            };
            let polled = self.poll_emit(rt, &mut cx);
            cx.end(&polled);
            if let Poll::Ready(receipt) = polled {
                return receipt;
            }
        }
        unreachable!()
    }

    /// A law, with nothing to run. In each list of rounds of which its own are its part, as an owner tells it, and in which nobody else emits
    /// by its id, what was emitted by this id is its `emitted`, less what was dropped, full or refused: accepted, waiting or withdrawn, in
    /// its own order.
    pub fn emissions_are_its_part(&self)
        ensures { AreItsPart self.now }
    {
        let _id = self.id;
    }

    /// Looks on for some microseconds, without the lock, up to where no emission may wait any more, as [`emit`](Emitter::emit) does
    /// before its thread sleeps. It changes nothing. For one who would sleep by means of its own until the emission in flight is
    /// finished. Kotlin has no such call.
    pub fn look_on(&self) {
        self.access.watch_unfinished();
    }

    /// Gives the emission in flight up: Kotlin's `emit`, cancelled while it is suspended.
    ///
    /// `Removed` where it waited: it was never accepted. `Left` where it was accepted: its value stays with its subscriptions.
    /// `Gone` where none is in flight.
    pub fn cancel_emit(&mut self, rt: &impl Wait) -> Withdrawn<Receipt>
        ensures has { emitted self.new ≡ after_cancel result (emitted self.old) }
        ensures ends { (self.new.ticket ≡ None) × IsSameEmitter self.old self.new }
        ensures idle { self.old.ticket ≡ None → (result ≡ withdrawn.Gone) × (self.new ≡ self.old) }
        ensures left { IfLeft result (λ receipt. WasLeft self.old receipt self.new) }
        ensures removed { WasGivenUp self.old result self.new }
        ensures receipt { IfLeft result (IsOwnReceipt self.old.party self.old.id) }
        ensures rises { IfLeft result (λ receipt. IsAfter self.old.last receipt.number) }
    {
        let Some(ticket) = self.ticket else {
            return Withdrawn::Gone;
        };
        let mut inside = self.access.enter(rt);
        let Released { withdrawn, receipt } = inside.shared.cancel_emit(ticket, self.id, self.last);
        self.ticket = None;
        let Some(receipt) = receipt else {
            let round = withdrawn_without_receipt(ticket, self.id, self.last, withdrawn);
            self.access.leave(inside, round);
            return unless_left(withdrawn);
        };
        self.last = Some(receipt.number());
        self.access
            .leave(inside, Round::Withdraw(ticket, withdrawn));
        Withdrawn::Left(receipt)
    }

    /// Hears of all rounds so far, from one who has the lock.
    pub(crate) fn hear(&mut self, owner: &mut Access)
        requires held { owner.old.held ≢ None }
        requires lock { self.old.party.lock ≡ owner.old.lock }
        ensures owner { owner.new ≡ owner.old }
        ensures heard { HasHeard owner.old.seen self.old.party self.new.party }
        ensures same { self.new ≡ record self.old { party = self.new.party } }
    {
        owner.meet(&mut self.access);
    }

    /// Ends the emitter, and gives the emission in flight up as `cancel_emit` does: in Kotlin, the end of the coroutine. Its list is
    /// complete then: of the emitter that is left nothing is in flight.
    pub fn close(self, rt: &impl Wait) -> Withdrawn<Receipt>
        ensures has { (f : Emitting) × IsLeftOf self result f × (emitted f ≡ after_cancel result (emitted self)) }
        ensures idle { self.ticket ≡ None → result ≡ withdrawn.Gone }
        ensures ended { EndedWith self result }
        ensures receipt { IfLeft result (IsOwnReceipt self.party self.id) }
        ensures rises { IfLeft result (λ receipt. IsAfter self.last receipt.number) }
    {
        let mut emitter = self;
        let withdrawn = emitter.cancel_emit(rt);
        let Emitter {
            access,
            id: _,
            ticket: _,
            last: _,
            wait_key: _,
            marker: _,
        } = emitter;
        drop(access);
        withdrawn
    }

    /// What it has of the flow's lock, for an owner that takes it in.
    pub(crate) fn into_access(self) -> Access
        ensures { (party_of result ≡ self.party) × (result.held ≡ None) }
    {
        let Emitter {
            access,
            id: _,
            ticket: _,
            last: _,
            wait_key: _,
            marker: _,
        } = self;
        access
    }
}

// The last number that an emitter was answered, after a try.
fn last_tried(last: Option<u64>, answer: &Result<Tried<u64>, Refusal>) -> Option<u64>
    ensures { result ≡ last_of_try last answer.now }
{
    match answer {
        Ok(Tried::Accepted(number)) => Some(*number),
        Ok(Tried::Dropped) => last,
        Ok(Tried::Full) => last,
        Err(_) => last,
    }
}

// The last number that an emitter was answered, after a start.
fn last_begun(last: Option<u64>, answer: &Result<Begun<u64, Ticket>, Refusal>) -> Option<u64>
    ensures { result ≡ last_of_start last answer.now }
{
    match answer {
        Ok(Begun::Accepted(number)) => Some(*number),
        Ok(Begun::Dropped) => last,
        Ok(Begun::Waiting(_)) => last,
        Err(_) => last,
    }
}

// The round of a withdrawal that has no receipt for its answer.
fn withdrawn_without_receipt(
    ticket: Ticket,
    id: u32,
    last: Option<u64>,
    withdrawn: Withdrawn<u64>,
) -> Round
    ensures { result ≡ withdraw_round ticket id last withdrawn None }
{
    match withdrawn {
        Withdrawn::Left(number) => Round::StrayWithdraw(ticket, id, last, number),
        Withdrawn::Removed => Round::Withdraw(ticket, Withdrawn::Removed),
        Withdrawn::Gone => Round::Withdraw(ticket, Withdrawn::Gone),
    }
}

// What a caller is told of a withdrawal without a receipt.
fn unless_left(withdrawn: Withdrawn<u64>) -> Withdrawn<Receipt>
    ensures { result ≡ without_receipt withdrawn }
{
    match withdrawn {
        Withdrawn::Removed => Withdrawn::Removed,
        Withdrawn::Left(_) => Withdrawn::Gone,
        Withdrawn::Gone => Withdrawn::Gone,
    }
}

// The round of a poll that has no receipt for its answer.
fn polled_without_receipt(ticket: Ticket, id: u32, last: Option<u64>, emit: Emit) -> Round
    ensures { result ≡ poll_round ticket id last emit None }
{
    match emit {
        Emit::Done(number) => Round::StrayPoll(ticket, id, last, number),
        Emit::Waiting => Round::Poll(ticket, Emit::Waiting),
        Emit::Gone => Round::Poll(ticket, Emit::Gone),
    }
}

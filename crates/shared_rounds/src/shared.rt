//! What lies under the lock, and what all parties share without it: the lane, and a flag beside it.
ghost use Rattle.std.specs.Prelude.{◌≡◌, ◌≤◌, ◌<◌, ◌≢◌, Some, MatchOption, IfOk, IfSome, IfNone, IsOkUnless, ◌⊎◌, ℕ, IfErr, true, false, [], ◌++◌, Ok, Err, length, map};
ghost use Rattle.std.specs.Prelude.{slice_get, OnOk, OnErr};
ghost use Rattle.shared_core.specs.Kept.{making_refusal};
ghost use Rattle.shared_lane.specs.Sequencers.{IsFresh, IsSameSequencer, IsSequencerOf, OnlyLoaded, next, seen};
ghost use Rattle.shared_rounds.specs.Flags.{number_of};
ghost use Rattle.shared_rounds.specs.Names.{HasRoom, IsNew, IsTrackOf};
ghost use Rattle.shared_rounds.specs.Rounds.{Does, Comes, MakesAfterScan, RaisedFor, AcceptsFor, IsAfter, IsNotAfter, IsReceiptAfter, HasSeenUpTo, HasReceipt};
ghost use Rattle.shared_rounds.specs.Rounds.{IsLastAccepted, IsReceiptFor, IsReceiptOfOne, numbers_tried, poll_round, withdraw_round, number_done as the_number_done};
ghost use Rattle.shared_rounds.specs.Rounds.{number_left as the_number_left, FreesAfter, HasClosed, IsAtLimit, IsAdmitted, look_round};
ghost use Rattle.shared_rounds.specs.Sleeping.{NobodySleeps, OnlyThese, Parks, HasAsMuchRoom, HasRoomFor, SleepsAt, StayBut};
ghost use Rattle.shared_lane.specs.Ordering.{IsOut};
ghost use Rattle.shared_rounds.specs.Waking.{AreOutBut, Helps, IsTied, WakesEmissions, SleepOn};
ghost use Rattle.flow_terms.specs.declared.refusal.Refusal.TheVariants.{Spent, EmitsFull, NoMemory};
ghost use Rattle.futures.specs.Task.{IsArmed, Keeps};
ghost use Rattle.shared_lane.specs.Places.{IsAccepted, IsOfSubscription};
ghost use Rattle.shared_lane.specs.Polls.{IsOutFor, IsNotOut, PolledOn, WithdrawnFrom};
ghost use Rattle.shared_rounds.specs.Tries.{IfTried, IfBegun, TriedUnder, BegunUnder};
ghost use Rattle.std.specs.Arc.{arc_value};
ghost use Rattle.shared_lane.specs.Readers.{IsReaderOf, at};
ghost use Rattle.shared_lane.specs.declared.reader.Taken.TheVariants.{Nothing};
ghost use Rattle.shared_lane.specs.Caches.{IsLastOf};
ghost use Rattle.shared_rounds.specs.Meeting.{Looked, HasMet, OnlyMet};
ghost use Rattle.flow_terms.specs.declared.answers.Emit.TheVariants as emit;
ghost use Rattle.flow_terms.specs.declared.answers.Withdrawn.TheVariants as withdrawn;
ghost use Rattle.shared_rounds.specs.declared.round.Round.TheVariants as round;

use crate::flag::{Another, FlagRule, FlagView, Keeper, Loads, Looker, Raises, Sets};
use crate::round::{Emission, Round, begun_ticket};
use crate::wait_list::{SleepingEmissions, WaitKey, WaitList, WakeList};
use atomic_table::{Seat, Table};
use flow_terms::{Policy, Refusal, Word};
use futures::task::{Context, Poll};
use round_lock::Called;
use shared_core::{Begun, Config, Emit, Ticket, Tried, Withdrawn};
use shared_lane::{Lane, Met, Reader, Receipt, Sequencer, Taken, look, meet};
use std::alloc::{AllocError, Global};
use std::marker::{Brand, Model};
use std::sync::Arc;

mod blocks;

/// The sequencer of a flow, an owner of its lane, and those that sleep until something changes. Contracts see which flow it is, the
/// sequencer, the flag, and who sleeps.
#[derive(Drop)]
pub struct Shared {
    config: Config,
    track: Arc<Track, Global>,
    sequencer: Sequencer<Global>,
    /// Of the flag that says whether an emission may have to wait.
    keeper: Keeper,
    /// The subscriptions that sleep.
    subscriptions: WaitList,
    /// The emissions that sleep.
    emissions: SleepingEmissions,
}

impl Model for Shared {
    ghost use Rattle.std.specs.Arc.{arc_value};
    ghost use Rattle.std.specs.Prelude.{◌≡◌};
    ghost use Rattle.shared_rounds.specs.Names.{SharedSeen, HaveRoomForAll, IsGuarded, MayWait};

    ghost Value = { SharedSeen };

    ghost view = { λ s. record { name = record { config = s.config; lane = (arc_value s.track).lane; flag = (arc_value s.track).flag }; sequencer = s.sequencer; flag = s.keeper.flag; raised = s.keeper.raised; subscriptions = s.subscriptions.sleeping; emissions = s.emissions } };

    ghost invariant = { λ s. IsGuarded s.config (arc_value s.track).lane s.sequencer × (s.keeper.table ≡ (arc_value s.track).flag) × ((arc_value s.track).config ≡ s.config) × MayWait (arc_value s.track) × HaveRoomForAll s.config s.subscriptions.sleeping s.emissions };
}

/// What lies under the lock while nobody holds it: in a box, so that a call moves a pointer, and beside it the number that the next
/// emission has, so that who takes the lock finds it there. Contracts see what lies in the box.
#[derive(Drop)]
pub(crate) struct Unheld {
    pub(crate) shared: Box<Shared>,
    pub(crate) before: u64,
}

impl Model for Unheld {
    ghost use Rattle.std.specs.Prelude.{◌≡◌};
    ghost use Rattle.shared_lane.specs.Sequencers.{next};
    ghost use Rattle.shared_rounds.specs.Names.{SharedSeen};

    ghost Value = { SharedSeen };

    ghost view = { λ s. s.shared.value };

    ghost invariant = { λ s. s.before ≡ next s.shared.value.sequencer };
}

impl Called<Round> for Unheld {
    ghost first = { IsNew };

    ghost step = { Does };
}

impl Unheld {
    /// What a call leaves there.
    pub fn of(shared: Box<Shared>) -> Unheld
        ensures { result ≡ shared.value }
    {
        let before = shared.next_number();
        Unheld { shared, before }
    }
}

impl Shared {
    /// A flow where nobody sleeps. Refused as `Lane::new` is. All memory is reserved, also for those that will sleep.
    pub fn new(alloc: Global, config: Config) -> Result<Shared, Refusal>
        ensures refused { IfSome (making_refusal config) (λ refusal. result ≡ Err refusal) }
        ensures made { IfNone (making_refusal config) (IsOkUnless result Refusal.NoMemory) }
        ensures fresh { IfOk result (λ made. (made.name.config ≡ config) × IsNew made × HasRoom made) }
    {
        let (lane, sequencer) = Lane::new(alloc, config)?;
        Ok(Shared::on_lane(alloc, config, lane, sequencer)?)
    }

    // With this lane and its sequencer.
    fn on_lane(
        alloc: Global,
        config: Config,
        lane: Lane<Global>,
        sequencer: Sequencer<Global>,
    ) -> Result<Shared, AllocError>
        requires { IsSequencerOf lane sequencer × IsFresh config sequencer }
        ensures { IfOk result (λ made. (made.name.config ≡ config) × IsNew made × HasRoom made) }
    {
        let may_wait = matches!(config.policy, Policy::Suspend);
        let (track, keeper) = Track::new(alloc, config, lane, may_wait)?;
        let track = Arc::new(alloc, track)?;
        let subscriptions = WaitList::new(alloc, config.subscribers as usize)?;
        let emissions = SleepingEmissions::new(alloc, config.emits as usize)?;
        Ok(Shared {
            config,
            track,
            sequencer,
            keeper,
            subscriptions,
            emissions,
        })
    }

    /// The number that the next emission that is accepted has.
    pub(crate) fn next_number(&self) -> u64
        ensures { result ≡ next self.now.sequencer }
    {
        self.sequencer.next_number()
    }

    /// Wakes those whom a call helped: the subscriptions that sleep, where something was accepted since the number `before` was the
    /// next one, or else the one that it ended, and the emissions that have to wait no more; it took back one ticket at most. The
    /// flag is up where one may have to wait on.
    #[inline(always)]
    pub(crate) fn help(
        &mut self,
        before: u64,
        ended: Option<u64>,
        taken: Option<u64>,
        wakes: &mut WakeList,
    )
        requires nobody { NobodySleeps wakes.old.subscriptions }
        requires room { HasRoomFor self.old.name.config wakes.old }
        requires out { AreOutBut taken self.old }
        ensures helps { Helps before ended self.old self.new }
        ensures room { HasRoomFor self.old.name.config wakes.new }
    {
        self.wake_subscriptions(before, ended, wakes);
        self.tie_flag();
        self.wake_emissions(taken, wakes);
    }

    // Wakes the subscriptions that sleep, where something was accepted since the number `before` was the next one, or else the one
    // that was ended.
    #[inline(always)]
    fn wake_subscriptions(&mut self, before: u64, ended: Option<u64>, wakes: &mut WakeList)
        requires nobody { NobodySleeps wakes.old.subscriptions }
        requires room { HasRoomFor self.old.name.config wakes.old }
        ensures room { HasRoomFor self.old.name.config wakes.new }
        ensures same { self.new ≡ record self.old { subscriptions = self.new.subscriptions } }
        ensures accepted { before < next self.old.sequencer → NobodySleeps self.new.subscriptions }
        ensures none_accepted { next self.old.sequencer ≤ before → OnlyThese (λ number. ended ≢ Some number) self.old.subscriptions self.new.subscriptions }
    {
        if self.sequencer.next_number() <= before {
            self.wake_ended(ended, wakes);
            return;
        }
        if self.subscriptions.is_empty() {
            return;
        }
        self.subscriptions.wake_all(wakes);
    }

    // Wakes the subscription that was ended: its waker can't be thrown away.
    fn wake_ended(&mut self, ended: Option<u64>, wakes: &mut WakeList)
        ensures wakes { HasAsMuchRoom wakes.old wakes.new }
        ensures same { self.new ≡ record self.old { subscriptions = self.new.subscriptions } }
        ensures others { OnlyThese (λ number. ended ≢ Some number) self.old.subscriptions self.new.subscriptions }
    {
        if let Some(number) = ended {
            self.subscriptions.wake(number, wakes);
        }
    }

    // Sets the flag where an emission is unfinished, and takes it back elsewhere, which the clause doesn't ask for.
    #[inline(always)]
    fn tie_flag(&mut self)
        ensures same { self.new ≡ record self.old { flag = self.new.flag } }
        ensures tied { IsTied self.new }
    {
        let has = self.sequencer.has_unfinished();
        self.track.set_unfinished(&mut self.keeper, has);
    }

    // Wakes the emissions that sleep and have to wait no more: those whose tickets are out still have to wait from one ticket on, and
    // but for the ticket that a round took back all are.
    #[inline(always)]
    fn wake_emissions(&mut self, taken: Option<u64>, wakes: &mut WakeList)
        requires { AreOutBut taken self.old }
        ensures same { (self.new.name ≡ self.old.name) × IsSameSequencer self.old.sequencer self.new.sequencer }
        ensures only { OnlyLoaded self.old.sequencer self.new.sequencer }
        ensures flag { (self.new.flag ≡ self.old.flag) × (self.new.raised ≡ self.old.raised) }
        ensures subscriptions { self.new.subscriptions ≡ self.old.subscriptions }
        ensures emissions { WakesEmissions self.old self.new }
        ensures wakes { HasAsMuchRoom wakes.old wakes.new }
    {
        if self.emissions.is_empty() {
            return;
        }
        let below = self.sequencer.finished_below(self.track.lane());
        let first = self.sequencer.first_unfinished(below);
        let gone = self.gone(taken);
        self.emissions.wake_done(first, gone, wakes);
    }

    // The ticket that a round took back, where it is out no more.
    #[tactic(auto, using(crate::proofs::Staying::out_for))]
    fn gone(&self, taken: Option<u64>) -> Option<u64>
        ensures gone { IfSome result (λ ticket. IsNotOut self.now.sequencer ticket) }
        ensures out { (ticket : ℕ) → taken ≡ Some ticket → result ≢ Some ticket → IsOut self.now.sequencer ticket }
    {
        let Some(ticket) = taken else {
            return None;
        };
        match self.sequencer.emitter_of(Ticket(ticket)) {
            None => Some(ticket),
            Some(_) => None,
        }
    }
}

// Emissions, by one who holds the lock.
/// What a poll of an emission came to, with a receipt for one that is done.
pub struct Polled {
    /// The answer, with the number of an emission that is done.
    pub emit: Emit,
    /// None too where the ticket stands for an emission that isn't the emitter's latest.
    pub receipt: Option<Receipt>,
}

/// What became of an emission that was given up, with a receipt for one that had been accepted.
pub struct Released {
    /// The answer, with the number of an emission that had been accepted.
    pub withdrawn: Withdrawn<u64>,
    /// None too where the ticket stands for an emission that isn't the emitter's latest.
    pub receipt: Option<Receipt>,
}

impl Shared {
    /// Emits a word where that can be done at once. An accepted emission is the last then, with the number in the answer.
    pub fn try_emit(&mut self, emission: Emission) -> Result<Tried<u64>, Refusal>
        ensures does { Comes self.old (round.Try emission result) self.new }
        ensures asleep { SleepOn self.old self.new }
        ensures last { IfTried result (IsLastAccepted self.new.sequencer emission) }
        ensures later { IfTried result (λ n. next self.old.sequencer ≤ n) }
        ensures refused { IfErr result (λ refusal. refusal ≡ Spent) }
        ensures policy { TriedUnder self.old.name.config.policy result }
    {
        let Emission { emitter, word } = emission;
        self.sequencer.try_emit(self.track.lane(), emitter, word)
    }

    /// The answer of a try, with a receipt in the place of its number.
    pub fn tried_with_receipt(
        &mut self,
        emission: Emission,
        answer: Result<Tried<u64>, Refusal>,
    ) -> Result<Tried<Receipt>, Refusal>
        requires { IfTried answer (IsLastAccepted self.old.sequencer emission) }
        ensures same { self.new ≡ self.old }
        ensures numbers { answer ≡ numbers_tried result }
        ensures receipt { IfTried result (IsReceiptFor self.old.name.lane emission) }
    {
        match answer? {
            Tried::Accepted(number) => Ok(Tried::Accepted(self.receipt(emission.emitter, number))),
            Tried::Dropped => Ok(Tried::Dropped),
            Tried::Full => Ok(Tried::Full),
        }
    }

    /// Begins an emission. One that was accepted and is finished is the last then, with the number in the answer.
    pub fn start_emit(&mut self, emission: Emission) -> Result<Begun<u64, Ticket>, Refusal>
        ensures does { Comes self.old (round.Start emission result) self.new }
        ensures asleep { SleepOn self.old self.new }
        ensures last { IfBegun result (IsLastAccepted self.new.sequencer emission) }
        ensures later { IfBegun result (λ n. next self.old.sequencer ≤ n) }
        ensures refused { IfErr result (λ refusal. (refusal ≡ Spent) ⊎ (refusal ≡ EmitsFull)) }
        ensures policy { BegunUnder self.old.name.config.policy result }
    {
        let begun = self.begun(emission);
        self.watch(begun_ticket(&begun));
        begun
    }

    /// The answer of a start, with a receipt in the place of its number, and without its ticket, which stays with the emitter.
    pub fn begun_with_receipt(
        &mut self,
        emission: Emission,
        answer: Result<Begun<u64, Ticket>, Refusal>,
    ) -> Result<Begun<Receipt, ()>, Refusal>
        requires { IfBegun answer (IsLastAccepted self.old.sequencer emission) }
        ensures same { self.new ≡ self.old }
        ensures begins { HasReceipt self.old.name.lane emission answer result }
    {
        match answer? {
            Begun::Accepted(number) => Ok(Begun::Accepted(self.receipt(emission.emitter, number))),
            Begun::Dropped => Ok(Begun::Dropped),
            Begun::Waiting(_) => Ok(Begun::Waiting(())),
        }
    }

    // Where an emission isn't finished, who receives has to take the lock from now on. The cursors are looked at once more after
    // that: a receipt that came before has made room already.
    fn watch(&mut self, ticket: Option<Ticket>)
        ensures same { (self.new.name ≡ self.old.name) × IsSameSequencer self.old.sequencer self.new.sequencer × SleepOn self.old self.new }
        ensures raised { RaisedFor ticket self.old.sequencer self.new.raised }
        ensures watched { AcceptsFor ticket self.old.sequencer self.new.sequencer }
    {
        let Some(_) = ticket else {
            return;
        };
        self.track
            .raise_unfinished(&mut self.keeper, &self.sequencer);
        self.sequencer.scan(self.track.lane());
    }

    // Without looking at the cursors once more, where it isn't finished.
    fn begun(&mut self, emission: Emission) -> Result<Begun<u64, Ticket>, Refusal>
        ensures same { (self.new.name ≡ self.old.name) × IsSameSequencer self.old.sequencer self.new.sequencer × SleepOn self.old self.new }
        ensures made { MakesAfterScan self.old (round.Start emission result) self.new }
        ensures refused { IfErr result (λ refusal. (refusal ≡ Spent) ⊎ (refusal ≡ EmitsFull)) }
        ensures policy { BegunUnder self.old.name.config.policy result }
    {
        let Emission { emitter, word } = emission;
        self.sequencer.start_emit(self.track.lane(), emitter, word)
    }

    // A receipt for an emission of this emitter that was accepted.
    fn receipt(&mut self, emitter: u32, number: u64) -> Receipt
        requires { IsAccepted self.old.sequencer emitter number }
        ensures same { self.new ≡ self.old }
        ensures receipt { IsReceiptOfOne self.old.name.lane emitter result }
        ensures seen { HasSeenUpTo self.old.sequencer result }
        ensures number { result.number ≡ number }
    {
        self.sequencer.receipt(self.track.lane(), emitter, number)
    }

    // Whether a ticket is out for an emission of this emitter.
    fn is_of(&self, ticket: Ticket, emitter: u32) -> bool
        ensures own { result ≡ true → IsOutFor self.now.sequencer ticket.0 emitter }
        ensures other { result ≡ false → IsNotOut self.now.sequencer ticket.0 ⊎ ((x : ℕ) × (x ≢ emitter) × IsOutFor self.now.sequencer ticket.0 x) }
    {
        match self.sequencer.emitter_of(ticket) {
            Some(id) => id == emitter,
            None => false,
        }
    }

    // A receipt for the emission that a ticket stood for, if it was accepted: where it is this emitter's own, with a number above the last.
    fn own_receipt(
        &mut self,
        is_own: bool,
        emitter: u32,
        last: Option<u64>,
        number: Option<u64>,
    ) -> Option<Receipt>
        requires { is_own ≡ true → IfSome number (λ n. IsAccepted self.old.sequencer emitter n) }
        ensures same { self.new ≡ self.old }
        ensures receipt { IfSome result (λ r. (number ≡ Some r.number) × IsReceiptAfter self.old.name.lane emitter last r) }
        ensures none { IfNone result (IfSome number (λ n. (is_own ≡ false) ⊎ IsNotAfter last n)) }
    {
        let number = number?;
        if !is_own || !is_after(last, number) {
            return None;
        }
        Some(self.receipt(emitter, number))
    }

    /// Asks whether an emission of this emitter is finished, and makes a receipt for one that is, with a number above the last.
    pub fn poll_emit(&mut self, ticket: Ticket, emitter: u32, last: Option<u64>) -> Polled
        ensures does { Comes self.old (poll_round ticket emitter last result.emit result.receipt) self.new }
        ensures asleep { SleepOn self.old self.new }
        ensures receipt { IfSome result.receipt (λ r. (result.emit ≡ emit.Done r.number) × IsReceiptAfter self.old.name.lane emitter last r) }
    {
        self.sequencer.scan(self.track.lane());
        let is_own = self.is_of(ticket, emitter);
        let emit = self.poll_ticket(ticket);
        let receipt = self.own_receipt(is_own, emitter, last, number_done(emit));
        Polled { emit, receipt }
    }

    // Asks whether the emission with this ticket is finished.
    fn poll_ticket(&mut self, ticket: Ticket) -> Emit
        ensures same { (self.new.name ≡ self.old.name) × IsSameSequencer self.old.sequencer self.new.sequencer × SleepOn self.old self.new }
        ensures polled { PolledOn self.old.sequencer ticket.0 result self.new.sequencer }
    {
        self.sequencer.poll_emit(self.track.lane(), ticket)
    }

    // Gives the emission with this ticket up.
    fn give_ticket_up(&mut self, ticket: Ticket) -> Withdrawn<u64>
        ensures same { (self.new.name ≡ self.old.name) × IsSameSequencer self.old.sequencer self.new.sequencer × SleepOn self.old self.new }
        ensures withdrawn { WithdrawnFrom self.old.sequencer ticket.0 result self.new.sequencer }
    {
        self.sequencer.cancel_emit(self.track.lane(), ticket)
    }

    /// Gives an emission of this emitter up, and makes a receipt for one that was accepted before.
    pub fn cancel_emit(&mut self, ticket: Ticket, emitter: u32, last: Option<u64>) -> Released
        ensures does { Comes self.old (withdraw_round ticket emitter last result.withdrawn result.receipt) self.new }
        ensures asleep { SleepOn self.old self.new }
        ensures receipt { IfSome result.receipt (λ r. (result.withdrawn ≡ withdrawn.Left r.number) × IsReceiptAfter self.old.name.lane emitter last r) }
    {
        self.sequencer.scan(self.track.lane());
        let is_own = self.is_of(ticket, emitter);
        let withdrawn = self.give_ticket_up(ticket);
        let receipt = self.own_receipt(is_own, emitter, last, number_left(withdrawn));
        Released { withdrawn, receipt }
    }

    /// What a poll of an emission that isn't finished does before it answers: its task sleeps. Where its ticket isn't out, which
    /// no run of an `Emitter` shows, it asks to be polled again.
    pub fn sleep_emission(
        &mut self,
        ticket: Ticket,
        answer: Emit,
        wait_key: &mut WaitKey,
        cx: &mut Context<'_>,
    )
        ensures same { self.new ≡ record self.old { emissions = self.new.emissions } }
        ensures waits { answer ≡ emit.Waiting → Parks ticket.0 self.old.emissions self.new.emissions }
        ensures others { answer ≢ emit.Waiting → self.new ≡ self.old }
        ensures armed { IsArmed cx.new }
        ensures kept { Keeps cx.old cx.new }
    {
        if let Emit::Waiting = answer {
            self.emissions.sleep(ticket, wait_key, cx);
            return;
        }
        let _again: Poll<()> = cx.yield_now();
    }
}

// Whether a number is above the last one that an emitter was answered.
fn is_after(last: Option<u64>, number: u64) -> bool
    ensures above { result ≡ true → IsAfter last number }
    ensures not { result ≡ false → IsNotAfter last number }
{
    match last {
        None => true,
        Some(last) => last < number,
    }
}

// The number of the emission that a poll found finished.
fn number_done(emit: Emit) -> Option<u64>
    ensures { result ≡ the_number_done emit }
{
    match emit {
        Emit::Done(number) => Some(number),
        Emit::Waiting => None,
        Emit::Gone => None,
    }
}

// The number of the emission that had been accepted when it was given up.
fn number_left(withdrawn: Withdrawn<u64>) -> Option<u64>
    ensures { result ≡ the_number_left withdrawn }
{
    match withdrawn {
        Withdrawn::Left(number) => Some(number),
        Withdrawn::Removed => None,
        Withdrawn::Gone => None,
    }
}

/// A reader that was admitted, or why none was, and who looks at the flag for it.
pub struct NewReader {
    /// The number that the subscription has, or would have had.
    pub number: u64,
    /// It has not looked yet.
    pub looker: Looker,
    /// Refused as `Spent` or `SubscribersFull`.
    pub reader: Result<Reader, Refusal>,
}

impl Shared {
    /// Another owner of the lane and of the word beside it.
    pub(crate) fn track(&self) -> Result<Arc<Track, Global>, AllocError>
        ensures { IfOk result (λ track. IsTrackOf self.now.name (arc_value track)) }
    {
        Arc::try_clone(&self.track)
    }

    /// Admits a reader, which starts at the oldest value of the replay cache.
    pub fn subscribe(&mut self) -> NewReader
        ensures ok { IfOk result.reader (λ reader. Comes self.old (round.Subscribe (Ok result.number)) self.new × IsAdmitted self.old result.number reader self.new) }
        ensures err { IfErr result.reader (λ refusal. Comes self.old (round.Subscribe (Err refusal)) self.new × IsAtLimit refusal) }
        ensures looker { result.looker ≡ record { table = self.old.name.flag; looks = [] } }
        ensures asleep { SleepOn self.old self.new }
    {
        self.sequencer.scan(self.track.lane());
        let number = self.sequencer.next_subscription();
        let reader = self.sequencer.admit(self.track.lane());
        let looker = self.track.looker(&mut self.keeper);
        NewReader {
            number,
            looker,
            reader,
        }
    }

    /// After a subscription received a value without the lock: accepts what waits, as far as there is room by that.
    pub fn accept_waiting(&mut self, number: u64)
        ensures does { Comes self.old (round.Next number) self.new }
        ensures asleep { SleepOn self.old self.new }
    {
        self.sequencer.scan(self.track.lane());
    }

    /// A look of a subscription at the lane, after what waits was accepted. Who has the lock alone accepts: what this look doesn't
    /// find comes after its task sleeps.
    pub fn look(&mut self, number: u64, reader: &mut Reader) -> Taken<u64>
        requires { IsReaderOf self.old.name.lane reader.old }
        ensures does { Comes self.old (look_round number result) self.new }
        ensures freed { FreesAfter result self.old self.new }
        ensures asleep { SleepOn self.old self.new }
        ensures reader { IsReaderOf self.old.name.lane reader.new }
        ensures looked { Looked reader.old result reader.new }
        ensures nothing { result ≡ Nothing → next self.new.sequencer ≤ at reader.new }
    {
        self.sequencer.scan(self.track.lane());
        let taken = look(self.track.lane(), &mut self.sequencer, reader);
        if let Taken::Value(_) = taken {
            self.sequencer.scan(self.track.lane());
        }
        taken
    }

    /// The task of a subscription without a value sleeps until something is accepted. Who sleeps under its key already sleeps on
    /// there, and takes no other.
    pub fn sleep_subscription(&mut self, number: u64, wait_key: &mut WaitKey, cx: &mut Context<'_>)
        ensures same { self.new ≡ record self.old { subscriptions = self.new.subscriptions } }
        ensures asleep { Parks number self.old.subscriptions self.new.subscriptions }
        ensures stays { SleepsAt self.old.subscriptions wait_key.old.key number → wait_key.new.key ≡ wait_key.old.key }
        ensures others { StayBut wait_key.new.key self.old.subscriptions self.new.subscriptions }
        ensures armed { IsArmed cx.new }
        ensures kept { Keeps cx.old cx.new }
    {
        self.subscriptions.sleep(number, wait_key, cx);
    }

    /// Accepts what waits, compares what sequencer and reader know, ends the subscription, and does the first again. Where nothing waits,
    /// that loads no cursor but the reader's.
    pub fn cancel(&mut self, number: u64, reader: Reader) -> Met
        requires { IsReaderOf self.old.name.lane reader }
        ensures does { IsOfSubscription number reader → Comes self.old (round.Cancel number) self.new }
        ensures closed { HasClosed self.old reader result self.new }
        ensures asleep { SleepOn self.old self.new }
    {
        self.sequencer.scan(self.track.lane());
        let mut reader = reader;
        let met = self.meet(&mut reader);
        let mut closed = reader.close(self.track.lane());
        self.sequencer.told_end(self.track.lane(), &mut closed);
        self.sequencer.scan(self.track.lane());
        met
    }

    /// Empties the replay cache.
    pub fn reset_replay(&mut self)
        ensures does { Comes self.old round.Reset self.new }
        ensures asleep { SleepOn self.old self.new }
    {
        self.sequencer.scan(self.track.lane());
        self.sequencer.reset_replay();
    }

    /// Adds the replay cache to `out`, the oldest value first. Refused as `NoMemory`, and then `out` is as it was.
    pub fn replay_cache_into<T: Word>(&mut self, out: &mut Vec<T>) -> Result<(), Refusal>
        ensures memory { IsOkUnless result Refusal.NoMemory }
        ensures ok { OnOk result (out.new.items ≡ out.old.items ++ map T.read_as self.new.sequencer.cache) }
        ensures read { OnOk result (Comes self.old (round.Cache (Ok self.new.sequencer.cache)) self.new) }
        ensures err { OnErr result (out.new.items ≡ out.old.items) }
        ensures unread { OnErr result (Comes self.old (round.Cache (Err NoMemory)) self.new) }
        ensures asleep { SleepOn self.old self.new }
    {
        self.sequencer.scan(self.track.lane());
        self.read_cache(out)
    }

    fn read_cache<T: Word>(&self, out: &mut Vec<T>) -> Result<(), Refusal>
        ensures memory { IsOkUnless result Refusal.NoMemory }
        ensures ok { OnOk result (out.new.items ≡ out.old.items ++ map T.read_as self.now.sequencer.cache) }
        ensures err { OnErr result (out.new.items ≡ out.old.items) }
    {
        let count = self.sequencer.replay_len();
        out.reserve(count as usize)?;
        for index in 0..count {
            out.push_reserved(T::from_word(self.sequencer.replay_at(index)));
        }
        Ok(())
    }

    /// How many subscriptions are live: the cursors that this call found open.
    pub fn subscription_count(&mut self) -> u32
        ensures does { Comes self.old (round.Count result) self.new }
        ensures asleep { SleepOn self.old self.new }
    {
        self.sequencer.scan(self.track.lane());
        self.sequencer.live(self.track.lane())
    }

    /// How many values the replay cache has.
    pub fn replay_len(&self) -> u64
        ensures length { result ≡ length self.now.sequencer.cache }
        ensures latest { IsLastOf (seen self.now.sequencer) self.now.sequencer.cache }
    {
        self.sequencer.replay_len()
    }

    /// The word of the replay cache with this index, from the oldest on.
    pub fn replay_at(&self, index: u64) -> u64
        requires { index < length self.now.sequencer.cache }
        ensures { slice_get self.now.sequencer.cache index ≡ Some result }
    {
        self.sequencer.replay_at(index)
    }

    /// Sequencer and reader compare what they know.
    pub fn meet(&mut self, reader: &mut Reader) -> Met
        requires { IsReaderOf self.old.name.lane reader.old }
        ensures shared { OnlyMet self.old self.new }
        ensures reader { IsReaderOf self.old.name.lane reader.new }
        ensures met { HasMet self.new.sequencer reader.old reader.new result }
    {
        meet(self.track.lane(), &mut self.sequencer, reader)
    }
}

// What all parties of a flow share without its lock.

// The word of the flag, in a table of its own: it is 1 where the flag is up, and else 0.
pub(crate) const FLAG: usize = 0;

/// The lane of a flow, and beside it a flag that says whether some emission may have to wait for a receipt. Contracts see what the
/// flow was made with, which lane and which flag they are, and whether emissions of the flow may wait.
#[derive(Drop)]
pub struct Track {
    // What the flow was made with.
    pub(crate) config: Config,
    lane: Lane<Global>,
    // Whether emissions of this flow may wait at all.
    pub(crate) may_wait: bool,
    // Written by who holds the lock. It is set before the cursors are looked at a last time and an emission is left waiting; a
    // reader looks at it after its exchange. Each step is sequentially consistent, so that one of the two sees the other's.
    pub(crate) flag: Table<(), FlagView, (), FlagRule, Global>,
}

impl Model for Track {
    ghost use Rattle.std.specs.Prelude.{◌≡◌};
    ghost use Rattle.shared_rounds.specs.Names.{TrackSeen};

    ghost Value = { TrackSeen };

    ghost view = { λ t. record { config = t.config; lane = t.lane; flag = t.flag.shared.table_id; may_wait = t.may_wait } };

    ghost invariant = { λ t. t.flag.shared.table_id.words ≡ 1 };
}

impl Track {
    /// A track of this lane of a flow with this config, with a flag that is down, and the flag's keeper. Under a policy that lets emissions wait, `may_wait` says
    /// so.
    pub(crate) fn new(
        alloc: Global,
        config: Config,
        lane: Lane<Global>,
        may_wait: bool,
    ) -> Result<(Track, Keeper), AllocError>
        ensures track { IfOk result (λ made. made.0 ≡ record { config = config; lane = lane; flag = made.0.flag; may_wait = may_wait }) }
        ensures keeper { IfOk result (λ made. made.1 ≡ record { table = made.0.flag; flag = 0; raised = 0 }) }
    {
        let (flag, seat): (
            Table<(), FlagView, (), FlagRule, Global>,
            Seat<(), FlagView>,
        ) = Table::of_words(alloc, &[0], &())?;
        let track = Track {
            config,
            lane,
            may_wait,
            flag,
        };
        let keeper = Keeper { seat, is_up: false };
        Ok((track, keeper))
    }

    /// The lane.
    pub fn lane(&self) -> &Lane<Global>
        ensures { result.now ≡ self.now.lane }
    {
        &self.lane
    }

    /// One who looks at the flag, and has not looked yet.
    pub(crate) fn looker(&self, keeper: &mut Keeper) -> Looker
        requires { keeper.old.table ≡ self.now.flag }
        ensures looker { result ≡ record { table = self.now.flag; looks = [] } }
        ensures same { keeper.new ≡ keeper.old }
    {
        let seat = self.flag.shared.split_seat::<Another>(&mut keeper.seat);
        Looker { seat }
    }

    /// Whether some emission may wait, for one who only passes the time: it tells nothing.
    pub(crate) fn may_have_unfinished(&self) -> bool {
        self.may_wait && self.flag.shared.peek(FLAG) != 0
    }

    /// Raises the flag for an emission that begins to wait, also where it is up, before the cursors are looked at a last time: what the
    /// sequencer loads from here on it loads after that. Only who holds the lock has the keeper.
    pub(crate) fn raise_unfinished(&self, keeper: &mut Keeper, sequencer: &Sequencer<Global>)
        requires { keeper.old.table ≡ self.now.flag }
        ensures { keeper.new ≡ record keeper.old { flag = 1; raised = length sequencer.now.view.loads } }
    {
        self.raise::<Brand>(keeper, sequencer);
    }

    fn raise<M: Loads>(&self, keeper: &mut Keeper, sequencer: &Sequencer<Global>)
        requires table { keeper.old.table ≡ self.now.flag }
        requires loads { M.loads ≡ length sequencer.now.view.loads }
        ensures { keeper.new ≡ record keeper.old { flag = 1; raised = length sequencer.now.view.loads } }
    {
        keeper.is_up = true;
        self.flag
            .shared
            .store::<Raises<M>>(&mut keeper.seat, FLAG, 1);
    }

    /// Sets the flag where an emission may wait, or takes it back, where it isn't so. Only who holds the lock has the keeper.
    pub(crate) fn set_unfinished(&self, keeper: &mut Keeper, up: bool)
        requires { keeper.old.table ≡ self.now.flag }
        ensures { keeper.new ≡ record keeper.old { flag = number_of up } }
    {
        if keeper.is_up == up {
            return;
        }
        keeper.is_up = up;
        self.flag
            .shared
            .store::<Sets>(&mut keeper.seat, FLAG, up as u64);
    }
}

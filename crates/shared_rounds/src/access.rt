//! What every owner of a shared flow holds: the lock, and what all share without it.
ghost use Rattle.std.specs.Prelude.{suc, pred, IfErr, true, false, ℕ, ◌≡◌, ◌≢◌, ◌⊎◌, [], Ok, Some, None, length, map, IfOk, IsOkUnless};
ghost use Rattle.round_lock.specs.History.{own_of};
ghost use Rattle.shared_lane.specs.Readers.{at};
ghost use Rattle.shared_lane.specs.Sequencers.{next};
ghost use Rattle.shared_rounds.specs.declared.round.Round.TheVariants as round;
ghost use Rattle.shared_rounds.specs.Flags.{looked_at};
ghost use Rattle.shared_rounds.specs.Names.{FoundDown, FoundUp, IsFlagOf, IsNew, KnowsLane, KnowsTrack};
ghost use Rattle.shared_rounds.specs.Entering.{Found, IsCalled, IsCalledAs, Left, LeftAs};
ghost use Rattle.shared_rounds.specs.Reach.{party_of, reach_of, with_taken};
ghost use Rattle.shared_rounds.specs.Rounds.{Below};
ghost use Rattle.shared_rounds.specs.Sleeping.{NobodySleeps, HasRoomFor};
ghost use Rattle.shared_rounds.specs.Waking.{AreOutBut, Helps, ended_by as the_ended_by, taken_by as the_taken_by};

use crate::flag::{Looker, Looks, Stands};
use crate::round::Round;
use crate::shared::{FLAG, Shared, Track, Unheld};
use crate::wait_list::WakeList;
use flow_terms::{Refusal, Word};
use round_lock::{Guarded, Lock, Made};
use shared_core::{Config, Emit};
use shared_lane::{Lane, Reader};
use state_bell::{LOOKS, pause};
use std::alloc::{AllocError, Global};
use std::marker::{Brand, Model};
use std::sync::{Arc, Wait};

/// An owner of the lock and of the lane, with room for those whom one call wakes. It keeps none of them beyond that call. Contracts
/// see which lock it is, the flow, what the owner holds while it has the lock, its number, its own rounds, and the one list of rounds
/// as far as it has seen it.
pub struct Access {
    lock: Lock<Unheld, Round>,
    track: Arc<Track, Global>,
    wakes: WakeList,
    alloc: Global,
}

impl Model for Access {
    ghost use Rattle.std.specs.Prelude.{◌≡◌, []};
    ghost use Rattle.std.specs.Arc.{arc_value};
    ghost use Rattle.shared_rounds.specs.Reach.{Reach, reach_of};
    ghost use Rattle.shared_rounds.specs.Names.{KnowsTrack};
    ghost use Rattle.shared_rounds.specs.Sleeping.{NobodySleeps, HasRoomFor};
    ghost use Rattle.shared_rounds.specs.Waking.{AreOutWhereHeld, HoldsItsFlow};

    ghost Value = { Reach };

    ghost view = { λ a. reach_of (λ s. s) a.lock };

    ghost invariant = { λ a. KnowsTrack (reach_of (λ s. s) a.lock).flow (arc_value a.track) × NobodySleeps a.wakes.subscriptions × (a.wakes.wakers.items ≡ []) × AreOutWhereHeld (reach_of (λ s. s) a.lock).held × HasRoomFor (arc_value a.track).config a.wakes × HoldsItsFlow (reach_of (λ s. s) a.lock).flow (reach_of (λ s. s) a.lock).held };
}

// By hand: who lets one go proves this call alone, and nothing of what it is made of.
impl Drop for Access {
    fn drop(self) {
        let Access {
            lock: _lock,
            track: _track,
            wakes: _wakes,
            alloc: _,
        } = self;
    }
}

/// What lies under the lock, for one who has taken it. It has no `Drop`, so that it is given back, by [`Access::leave`].
pub struct Inside {
    /// What lies there, in its box.
    pub shared: Box<Shared>,
    /// The number that the next emission had as the lock was taken.
    pub before: u64,
}

impl Access {
    /// The first owner.
    pub fn new(alloc: Global, config: Config, shared: Shared) -> Result<Access, Refusal>
        requires { (shared.name.config ≡ config) × IsNew shared }
        ensures made { IfOk result (λ made. (made.flow ≡ Some shared.name) × (made.held ≡ None) × (made.rounds ≡ []) × (made.halved ≡ 0) × (made.taken ≡ []) × (made.seen ≡ [])) }
        ensures memory { IsOkUnless result Refusal.NoMemory }
    {
        let shared = Box::new(alloc, shared)?;
        let track = shared.track()?;
        let wakes = WakeList::new(alloc, &config)?;
        let lock = locked(alloc, Unheld::of(shared))?;
        Ok(Access {
            lock,
            track,
            wakes,
            alloc,
        })
    }

    /// Another owner of the same flow, which has made no call, and has seen as much. It has half of this owner's share of the lock.
    pub fn another(&mut self) -> Result<Access, Refusal>
        ensures other { IfOk result (λ other. other ≡ record self.old { held = None; pass = other.pass; halved = suc self.old.halved; taken = []; rounds = [] }) }
        ensures half { IfOk result (λ _. self.new ≡ record self.old { halved = suc self.old.halved }) }
        ensures memory { IsOkUnless result Refusal.NoMemory }
        ensures same { IfErr result (λ _. self.new ≡ self.old) }
    {
        let wakes = WakeList::new(self.alloc, &self.track.config)?;
        let track = Arc::try_clone(&self.track)?;
        let lock = self.lock.dup()?;
        Ok(Access {
            lock,
            track,
            wakes,
            alloc: self.alloc,
        })
    }

    /// Takes back the half of the share that another owner has, which has made no call: for a call that made one, and then failed.
    /// Without a lock.
    pub fn take_back(&mut self, other: Access)
        requires lock { other.lock ≡ self.old.lock }
        requires half { (half : ℕ) × (other.halved ≡ suc half) × (self.old.halved ≡ suc half) }
        requires idle { (other.rounds ≡ []) × (other.held ≡ None) }
        ensures whole { self.new ≡ record self.old { halved = pred self.old.halved } }
    {
        let Access {
            lock,
            track,
            wakes,
            alloc: _,
        } = other;
        self.lock.take_back(lock);
        drop(track);
        drop(wakes);
    }

    /// Takes in another owner for good, with the rounds that it made, those of the owners that it took in, and their shares of the lock:
    /// who has the whole lock so knows who made each round. The other one must not have the lock. Without a lock.
    pub fn take_in(&mut self, other: Access)
        requires lock { other.lock ≡ self.old.lock }
        requires free { other.held ≡ None }
        ensures taken { self.new ≡ record self.old { taken = with_taken (party_of other) self.old.taken } }
    {
        let Access {
            lock,
            track,
            wakes,
            alloc: _,
        } = other;
        self.lock.take_in(lock);
        drop(track);
        drop(wakes);
    }

    /// Whether who has received has to take the lock, for an emission that may wait for that, as its reader stands now, and after the
    /// rounds that its party has made by now. Without a lock. The track is fetched before the exchange, so that only the flag is
    /// loaded after it.
    pub fn has_unfinished(&self, track: &Track, looker: &mut Looker, reader: &Reader) -> bool
        requires track { KnowsTrack self.now.flow track.now }
        requires flag { IsFlagOf self.now.flow looker.old.table }
        ensures table { looker.new.table ≡ looker.old.table }
        ensures none { result ≡ false → FoundDown self.now.flow (at reader.now) (length self.now.rounds) looker.old.looks looker.new.looks }
        ensures some { result ≡ true → FoundUp (at reader.now) (length self.now.rounds) looker.old.looks looker.new.looks }
    {
        looked::<Brand>(track, &self.lock, looker, reader)
    }

    /// Looks some times whether an emission may wait still, up to where none does. Without a lock.
    #[inline(never)]
    pub fn watch_unfinished(&self) {
        for _ in 0..LOOKS {
            pause();
            if !self.track.may_have_unfinished() {
                return;
            }
        }
    }

    /// The lane and the flag, for which no lock is needed.
    pub fn track(&self) -> &Track
        ensures { KnowsTrack self.now.flow result.now }
    {
        &self.track
    }

    /// The lane, for which no lock is needed.
    pub fn lane(&self) -> &Lane<Global>
        ensures { KnowsLane self.now.flow result.now }
    {
        self.track.lane()
    }

    /// Takes the lock. What lay under it is the owner's flow, and its next number is above each that the owner was answered.
    /// The owner has seen the list of rounds that left it now.
    #[inline(always)]
    pub fn enter(&mut self, rt: &impl Wait) -> Inside
        ensures taken { self.new ≡ record self.old { held = Some result.shared.value; seen = self.new.seen } }
        ensures found { Found (party_of self.old) result.shared.value self.new.seen }
        ensures named { self.old.flow ≡ Some result.shared.value.name }
        ensures below { Below (next result.shared.value.sequencer) self.old.rounds }
        ensures before { result.before ≡ next result.shared.value.sequencer }
    {
        let guarded = self.lock.take(rt);
        let Guarded { state } = guarded;
        let Unheld { shared, before } = state;
        Inside { shared, before }
    }

    // Inlined, so that the round, of which contracts alone speak, is never written.
    /// Helps those whom the round that was made has helped, gives the lock back with that round, and then wakes them.
    #[inline(always)]
    pub fn leave(&mut self, inside: Inside, round: Round)
        requires round { IsCalled self.old inside.before round inside.shared.value }
        ensures left { Left round inside.shared.value self.old self.new }
    {
        let ended = ended_by(&round);
        let taken = taken_by(&round);
        self.leave_as::<Brand, _>(inside, ended, taken, &round);
    }

    /// Who has the lock meets another owner of it: both have seen the same rounds then, and the other's own are its part of them.
    pub fn meet(&mut self, other: &mut Access)
        requires held { self.old.held ≢ None }
        requires lock { other.old.lock ≡ self.old.lock }
        ensures same { self.new ≡ self.old }
        ensures met { other.new ≡ record other.old { seen = self.old.seen } }
        ensures part { other.old.rounds ≡ own_of other.old.pass self.old.seen }
    {
        self.lock.meet(&mut other.lock);
    }

    /// Leaves as `leave` does, after an emitter tried these values: the round has their words, of which the program makes no list.
    pub fn leave_block<T: Word, M: Made<Round>>(
        &mut self,
        inside: Inside,
        emitter: u32,
        values: &[T],
        answer: Result<u64, Refusal>,
    )
        requires picked { M.entry ≡ Some (round.TryAll emitter (map T.word values.now) answer) }
        requires round { IsCalled self.old inside.before (round.TryAll emitter (map T.word values.now) answer) inside.shared.value }
        ensures left { Left (round.TryAll emitter (map T.word values.now) answer) inside.shared.value self.old self.new }
    {
        self.leave_as::<M, _>(inside, None, None, &());
    }

    /// Leaves as `leave` does, after the replay cache was read: the round has the words that it had.
    pub fn leave_cache(&mut self, inside: Inside)
        requires round { IsCalled self.old inside.before (round.Cache (Ok inside.shared.value.sequencer.cache)) inside.shared.value }
        ensures left { Left (round.Cache (Ok inside.shared.value.sequencer.cache)) inside.shared.value self.old self.new }
    {
        self.leave_as::<Brand, _>(inside, None, None, &());
    }

    // Leaves with the round that the proof picks, where it can by what the call is shown.
    #[inline(always)]
    fn leave_as<M: Made<Round>, P>(
        &mut self,
        inside: Inside,
        ended: Option<u64>,
        taken: Option<u64>,
        _shown: &P,
    )
        requires round { IsCalledAs self.old inside.before M.entry ended taken inside.shared.value }
        ensures left { LeftAs M.entry inside.shared.value self.old self.new }
    {
        let guarded = helped(&mut self.wakes, inside, ended, taken);
        // Most calls wake nobody, and load nothing for that after the lock was given back.
        let is_idle = self.wakes.is_empty();
        self.lock.put_as::<M>(guarded);
        self.wakes.fire_unless(is_idle);
    }
}

// Looks at the flag, where emissions of the flow may wait, for a reader of this owner of the lock, after the rounds that it has made.
fn looked<M: Stands>(
    track: &Track,
    lock: &Lock<Unheld, Round>,
    looker: &mut Looker,
    reader: &Reader,
) -> bool
    requires table { looker.old.table ≡ track.now.flag }
    requires position { M.position ≡ at reader.now }
    requires rounds { M.rounds ≡ length lock.now.log.own }
    ensures table { looker.new.table ≡ looker.old.table }
    ensures none { result ≡ false → (track.now.may_wait ≡ false) ⊎ (looker.new ≡ looked_at (at reader.now) (length lock.now.log.own) 0 looker.old) }
    ensures some { result ≡ true → (found : ℕ) × (found ≢ 0) × (looker.new ≡ looked_at (at reader.now) (length lock.now.log.own) found looker.old) }
{
    if !track.may_wait {
        return false;
    }
    track.flag.shared.load::<Looks<M>>(&mut looker.seat, FLAG) != 0
}

// Takes those whom a round has helped, or ended, out from under the lock.
#[inline(always)]
fn helped(
    wakes: &mut WakeList,
    inside: Inside,
    ended: Option<u64>,
    taken: Option<u64>,
) -> Guarded<Unheld>
    requires nobody { NobodySleeps wakes.old.subscriptions }
    requires room { HasRoomFor inside.shared.value.name.config wakes.old }
    requires out { AreOutBut taken inside.shared.value }
    ensures helps { Helps inside.before ended inside.shared.value result.state }
    ensures room { HasRoomFor inside.shared.value.name.config wakes.new }
{
    let Inside { mut shared, before } = inside;
    shared.help(before, ended, taken, wakes);
    Guarded {
        state: Unheld::of(shared),
    }
}

// The subscription that a round ends.
fn ended_by(round: &Round) -> Option<u64>
    ensures { result ≡ the_ended_by round.now }
{
    match round {
        Round::Cancel(number) => Some(*number),
        _ => None,
    }
}

// The ticket that a round takes back.
fn taken_by(round: &Round) -> Option<u64>
    ensures { result ≡ the_taken_by round.now }
{
    match round {
        Round::Poll(ticket, Emit::Done(_)) => Some(ticket.0),
        Round::StrayPoll(ticket, _, _, _) => Some(ticket.0),
        Round::Withdraw(ticket, _) => Some(ticket.0),
        Round::StrayWithdraw(ticket, _, _, _) => Some(ticket.0),
        _ => None,
    }
}

// Puts it under a lock, whose first owner has made no call.
fn locked(alloc: Global, state: Unheld) -> Result<Lock<Unheld, Round>, AllocError>
    requires { IsNew state }
    ensures { IfOk result (λ lock. reach_of (λ s. s) lock ≡ record { lock = lock.place; flow = Some state.name; held = None; pass = lock.pass; halved = 0; taken = []; rounds = []; seen = [] }) }
{
    Lock::new(alloc, state)
}

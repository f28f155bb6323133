//! A lock: a word that says whether it is free, and a place for the state.
ghost use Rattle.std.specs.Prelude.{ℕ, suc, ◌≡◌, ◌≢◌, [], ◌∷◌, Option, Some, None, IfOk, IfErr, IsTrue, IsFalse, ◌<◌};
ghost use Rattle.std.specs.Arc.{arc_value};
ghost use Rattle.round_lock.specs.declared.log.Log.{Log};
ghost use Rattle.round_lock.specs.History.{Saw, newcomer, called, another, sharing, whole_again, taking, own_of, turn_of};
ghost use Rattle.round_lock.specs.Law.{HasTaken, IsAt, IsNote, HasLooked};
ghost use Rattle.round_lock.specs.Locking.{Locking, Noting};

use crate::log::Log;
use crate::rule::{
    Another, Called, Gives, Hears, Looks, Made, Notes, Numbered, Rounds, Takes, TakesBack, TakesIn,
    Turned,
};
use atomic_table::{Refused, Seat, Table};
use std::alloc::{AllocError, Global};
use std::hint::spin_loop;
use std::marker::{Brand, Model};
use std::snapshot::Snapshot;
use std::sync::{Arc, Wait};

/// An owner of the state under a lock. Contracts see which lock it is, the owner's number, how the state was made, the
/// owner's own calls, the one list of all calls as far as the owner has seen it, and how often its share of the lock was
/// halved.
#[derive(Drop)]
pub struct Lock<S: Called<E> + Drop, E> {
    place: Arc<LockTable<S, E>>,
    // A token of no bytes, with what the proofs know of the owner.
    seat: Seat<Option<S>, Log<S, E>>,
}

impl<S: Called<E> + Drop, E> Model for Lock<S, E> {
    ghost use Rattle.std.specs.Prelude.{◌≡◌, []};
    ghost use Rattle.std.specs.Arc.{arc_value};
    ghost use Rattle.round_lock.specs.Law.{IsAt};
    ghost use Rattle.round_lock.specs.Locking.{Locking};

    ghost Value = { Locking S E };

    ghost view = { λ l. record { place = l.seat.table_id; pass = l.seat.id; log = l.seat.me.0 } };

    ghost invariant = { λ l. IsAt (arc_value l.place).shared.table_id l.seat.table_id l.seat.me × (l.seat.me.0.told ≡ []) };
}

/// What an owner of a lock has seen: it may go to another thread, where another owner hears of it.
#[derive(Drop)]
pub struct Note<S, E> {
    seat: Seat<Option<S>, Log<S, E>>,
}

impl<S, E> Model for Note<S, E> {
    ghost use Rattle.round_lock.specs.Law.{IsNote};
    ghost use Rattle.round_lock.specs.Locking.{Noting};

    ghost Value = { Noting S E };

    ghost view = { λ n. record { place = n.seat.table_id; seen = n.seat.me.0.seen } };

    ghost invariant = { λ n. IsNote n.seat.me };
}

/// The state, taken from under its lock. It has no `Drop`, so that it is given back.
pub struct Guarded<S> {
    pub state: S,
}

impl<S: Called<E> + Drop, E: Drop> Lock<S, E> {
    /// The first owner of this state.
    pub fn new(alloc: Global, state: S) -> Result<Lock<S, E>, AllocError>
        requires first { S.first state }
        ensures { IfOk result (λ lock. lock.log ≡ newcomer state) }
    {
        let made = Snapshot::of(&state);
        let mut slots = Vec::with_capacity(alloc, 1)?;
        slots.push_reserved(Some(state));
        match Table::new(alloc, &[FREE], slots, &made) {
            Ok((table, seat)) => Ok(Lock {
                place: Arc::new(alloc, table)?,
                seat,
            }),
            Err(Refused { slots: _ }) => Err(AllocError),
        }
    }

    /// Takes the lock. What lay under it is what one list of calls left. From now on the owner has seen that list: its
    /// own calls are its part, and it begins with what the owner had seen before.
    #[inline(always)]
    pub fn take(&mut self, rt: &impl Wait) -> Guarded<S>
        ensures taken { self.new ≡ record self.old { log = record self.old.log { held = Some result.state; seen = self.new.log.seen } } }
        ensures saw { Saw S.first S.step self.old.pass self.old.log result.state self.new.log.seen }
    {
        take::<S, E, Brand, _>(rt, &self.place, &mut self.seat);
        let state = lift(&self.place, &mut self.seat);
        Guarded { state }
    }

    /// Gives the lock up, with the state as a call left it.
    pub fn put(&mut self, guarded: Guarded<S>, entry: E)
        requires call { (old : S) × (self.old.log.held ≡ Some old) × S.step old entry guarded.state }
        ensures given { self.new ≡ record self.old { log = called self.old.log (Some (self.old.pass, entry, guarded.state)) } }
    {
        let Guarded { state } = guarded;
        give::<S, E, Brand>(&self.place, &mut self.seat, state, entry);
    }

    /// Gives the lock up as `put` does, where the proof picks the entry: for a call whose answer isn't at hand as one
    /// value.
    #[inline(always)]
    pub fn put_as<M: Made<E>>(&mut self, guarded: Guarded<S>)
        requires call { (old : S) × (e : E) × (M.entry ≡ Some e) × (self.old.log.held ≡ Some old) × S.step old e guarded.state }
        ensures given { self.new ≡ record self.old { log = called self.old.log (turn_of self.old.pass M.entry guarded.state) } }
    {
        let Guarded { state } = guarded;
        give_as::<S, E, Brand>(&self.place, &mut self.seat, state);
    }

    /// Another owner of the same state, which has made no call, and has seen as much as this one. It has half of this
    /// one's share of the lock, of which the first owner has the whole: so no body makes an owner that nobody sees.
    pub fn dup(&mut self) -> Result<Lock<S, E>, AllocError>
        ensures other { IfOk result (λ other. (other.log ≡ another self.old.log) × (other.place ≡ self.old.place)) }
        ensures half { IfOk result (λ _. self.new ≡ record self.old { log = sharing self.old.log }) }
        ensures same { IfErr result (λ _. self.new ≡ self.old) }
    {
        let place = Arc::try_clone(&self.place)?;
        let seat = self.place.shared.split_seat::<Another>(&mut self.seat);
        Ok(Lock { place, seat })
    }

    /// Takes back the half of the share that another owner has, which has made no call: for a call that made one, and then
    /// failed. Without waiting.
    pub fn take_back(&mut self, other: Lock<S, E>)
        requires place { other.place ≡ self.old.place }
        requires half { (half : ℕ) × (other.log.halved ≡ suc half) × (self.old.log.halved ≡ suc half) }
        requires idle { (other.log.own ≡ []) × (other.log.held ≡ None) }
        ensures whole { self.new ≡ record self.old { log = whole_again self.old.log other.log } }
    {
        let Lock { place, seat } = other;
        self.place
            .shared
            .join_seat::<TakesBack>(&mut self.seat, seat);
        drop(place);
    }

    /// Takes in another owner for good, with the calls that it made, those of the owners that it took in, and their shares: who
    /// has the whole lock so knows who made each call. The other one must not have taken the lock. Without waiting.
    pub fn take_in(&mut self, other: Lock<S, E>)
        requires place { other.place ≡ self.old.place }
        requires free { other.log.held ≡ None }
        ensures taken { self.new ≡ record self.old { log = taking other.pass self.old.log other.log } }
    {
        let Lock { place, seat } = other;
        absorb::<S, E, Brand>(&self.place, &mut self.seat, seat);
        drop(place);
    }

    /// A note of what this owner has seen. Without waiting.
    pub fn note(&mut self) -> Note<S, E>
        ensures note { (result.place ≡ self.old.place) × (result.seen ≡ self.old.log.seen) }
        ensures same { self.new ≡ self.old }
    {
        let seat = self.place.shared.split_seat::<Notes>(&mut self.seat);
        Note { seat }
    }

    /// Hears of what another has seen, and looks at the word, without waiting: the list of calls that the owner has seen
    /// now left some state, and begins with both. Who has taken the lock had seen all.
    pub fn hear(&mut self, note: Note<S, E>)
        requires place { note.place ≡ self.old.place }
        ensures same { self.new ≡ record self.old { log = record self.old.log { seen = self.new.log.seen } } }
        ensures saw { (state : S) × Saw S.first S.step self.old.pass (record self.old.log { told = note.seen }) state self.new.log.seen }
        ensures held { self.old.log.held ≢ None → self.new.log.seen ≡ self.old.log.seen }
    {
        let Note { seat } = note;
        self.place.shared.join_seat::<Hears>(&mut self.seat, seat);
        look::<S, E, Brand>(&self.place, &mut self.seat);
    }

    /// Who has taken the lock meets another of its owners: both have seen the same list of calls then, and each one's own
    /// calls are its part.
    pub fn meet(&mut self, other: &mut Lock<S, E>)
        requires held { self.old.log.held ≢ None }
        requires place { other.old.place ≡ self.old.place }
        ensures same { self.new ≡ self.old }
        ensures met { other.new ≡ record other.old { log = record other.old.log { seen = self.old.log.seen } } }
        ensures part { other.old.log.own ≡ own_of other.old.pass self.old.log.seen }
    {
        let note = self.note();
        other.hear(note);
        let note = other.note();
        self.hear(note);
    }
}

// How an owner takes the lock and gives it up: by the word, on which others may sleep.

/// The word of a lock that somebody has, and for which nobody sleeps, or one is about to be woken or to write `WANTED`.
const TAKEN: u64 = 0;

/// The word of a lock that is free.
const FREE: u64 = 1;

/// The word of a lock that somebody has, and for which others may sleep.
const WANTED: u64 = 2;

/// How often an owner looks whether the lock is free before it sleeps. It pauses after each look, each time twice as long.
const LOOKS: u32 = 11;

/// What all owners of a lock share: the word, and the place for the state.
type LockTable<S, E> = Table<Option<S>, Log<S, E>, Snapshot<S>, Rounds, Global>;

/// Takes the lock where it is free.
fn try_take<S: Called<E> + Drop, E, N: Numbered>(
    place: &LockTable<S, E>,
    seat: &mut Seat<Option<S>, Log<S, E>>,
) -> bool
    requires number { N.number ≡ seat.old.id }
    requires at { IsAt place.now.shared.table_id seat.old.table_id seat.old.me }
    ensures seat { (seat.new.table_id ≡ seat.old.table_id) × (seat.new.id ≡ seat.old.id) }
    ensures taken { IsTrue result → HasTaken S.first S.step N.number seat.old.me seat.new.me }
    ensures missed { IsFalse result → seat.new.me ≡ seat.old.me }
{
    place
        .shared
        .compare_exchange::<Takes<N>>(seat, 0, FREE, TAKEN)
        == FREE
}

/// Pauses so many times. Meanwhile this owner leaves the word's memory to the one that has the lock.
fn pause(turns: u32) {
    for _ in 0..turns {
        spin_loop();
    }
}

/// Takes the lock where it is free at one of a few looks.
fn look_and_take<S: Called<E> + Drop, E, N: Numbered>(
    place: &LockTable<S, E>,
    seat: &mut Seat<Option<S>, Log<S, E>>,
) -> bool
    requires number { N.number ≡ seat.old.id }
    requires at { IsAt place.now.shared.table_id seat.old.table_id seat.old.me }
    ensures seat { (seat.new.table_id ≡ seat.old.table_id) × (seat.new.id ≡ seat.old.id) }
    ensures taken { IsTrue result → HasTaken S.first S.step N.number seat.old.me seat.new.me }
    ensures missed { IsFalse result → seat.new.me ≡ seat.old.me }
{
    for look in 0..LOOKS {
        if place.shared.peek(0) == FREE && try_take::<S, E, N>(place, seat) {
            return true;
        }
        pause(1 << look);
    }
    false
}

// Not inlined, so that who finds the lock free keeps its registers.
/// Takes the lock where others may have it, and sleeps while they do. An owner that was about to sleep takes it as wanted, since
/// others may sleep.
#[inline(never)]
fn wait_and_take<S: Called<E> + Drop, E, N: Numbered, R: Wait>(
    rt: &R,
    place: &LockTable<S, E>,
    seat: &mut Seat<Option<S>, Log<S, E>>,
)
    requires number { N.number ≡ seat.old.id }
    requires at { IsAt place.now.shared.table_id seat.old.table_id seat.old.me }
    ensures seat { (seat.new.table_id ≡ seat.old.table_id) × (seat.new.id ≡ seat.old.id) }
    ensures taken { HasTaken S.first S.step N.number seat.old.me seat.new.me }
{
    if look_and_take::<S, E, N>(place, seat) {
        return;
    }
    for _ in rt.forever() {
        if place.shared.swap::<Takes<N>>(seat, 0, WANTED) == FREE {
            return;
        }
        place.shared.park(rt, 0, WANTED as u32);
    }
    unreachable!()
}

/// Takes the lock, at once where it is free.
#[inline(always)]
fn take<S: Called<E> + Drop, E, N: Numbered, R: Wait>(
    rt: &R,
    place: &LockTable<S, E>,
    seat: &mut Seat<Option<S>, Log<S, E>>,
)
    requires number { N.number ≡ seat.old.id }
    requires at { IsAt place.now.shared.table_id seat.old.table_id seat.old.me }
    ensures seat { (seat.new.table_id ≡ seat.old.table_id) × (seat.new.id ≡ seat.old.id) }
    ensures taken { HasTaken S.first S.step N.number seat.old.me seat.new.me }
{
    if !try_take::<S, E, N>(place, seat) {
        wait_and_take::<S, E, N, R>(rt, place, seat);
    }
}

/// The state, out of its place.
fn lift<S: Called<E> + Drop, E>(place: &LockTable<S, E>, seat: &mut Seat<Option<S>, Log<S, E>>) -> S
    requires seat { seat.old.table_id ≡ place.now.shared.table_id }
    requires there { (state : S) × (seat.old.me.1 ≡ (0, Some state) ∷ []) }
    ensures seat { (seat.new.table_id ≡ seat.old.table_id) × (seat.new.id ≡ seat.old.id) }
    ensures out { seat.old.me.1 ≡ (0, Some result) ∷ [] }
    ensures empty { seat.new.me ≡ (seat.old.me.0, (0, None) ∷ []) }
{
    place.shared.exchange(seat, 0, None).unwrap()
}

/// Gives the lock up, with the state as a call left it, where the proof picks the call; and wakes one that may sleep.
#[inline(always)]
fn give_as<S: Called<E> + Drop, E, M: Turned<S, E>>(
    place: &LockTable<S, E>,
    seat: &mut Seat<Option<S>, Log<S, E>>,
    state: S,
)
    requires at { IsAt place.now.shared.table_id seat.old.table_id seat.old.me }
    requires call { (old : S) × (e : E) × (M.turn ≡ Some (seat.old.id, e, state)) × (seat.old.me.0.held ≡ Some old) × S.step old e state }
    ensures seat { (seat.new.table_id ≡ seat.old.table_id) × (seat.new.id ≡ seat.old.id) }
    ensures given { seat.new.me ≡ (called seat.old.me.0 M.turn, []) }
{
    drop(place.shared.exchange(seat, 0, Some(state)));
    if place.shared.swap::<Gives<M>>(seat, 0, FREE) == WANTED {
        place.shared.wake_one(0);
    }
}

/// Gives the lock up, with the state as a call left it.
fn give<S: Called<E> + Drop, E: Drop, M: Turned<S, E>>(
    place: &LockTable<S, E>,
    seat: &mut Seat<Option<S>, Log<S, E>>,
    state: S,
    entry: E,
)
    requires at { IsAt place.now.shared.table_id seat.old.table_id seat.old.me }
    requires turn { M.turn ≡ Some (seat.old.id, entry, state) }
    requires call { (old : S) × (seat.old.me.0.held ≡ Some old) × S.step old entry state }
    ensures seat { (seat.new.table_id ≡ seat.old.table_id) × (seat.new.id ≡ seat.old.id) }
    ensures given { seat.new.me ≡ (called seat.old.me.0 (Some (seat.old.id, entry, state)), []) }
{
    give_as::<S, E, M>(place, seat, state);
}

/// Looks at the word: then the owner has seen each call that was made before.
fn look<S: Called<E> + Drop, E, N: Numbered>(
    place: &LockTable<S, E>,
    seat: &mut Seat<Option<S>, Log<S, E>>,
)
    requires number { N.number ≡ seat.old.id }
    requires at { IsAt place.now.shared.table_id seat.old.table_id seat.old.me }
    ensures seat { (seat.new.table_id ≡ seat.old.table_id) × (seat.new.id ≡ seat.old.id) }
    ensures looked { HasLooked S.first S.step N.number seat.old.me seat.new.me }
{
    place.shared.load::<Looks<N>>(seat, 0);
}

/// Takes in another owner's seat, for good.
fn absorb<S: Called<E> + Drop, E, N: Numbered>(
    place: &LockTable<S, E>,
    seat: &mut Seat<Option<S>, Log<S, E>>,
    other: Seat<Option<S>, Log<S, E>>,
)
    requires number { N.number ≡ other.id }
    requires at { IsAt place.now.shared.table_id seat.old.table_id seat.old.me }
    requires there { IsAt place.now.shared.table_id other.table_id other.me }
    requires free { other.me.0.held ≡ None }
    ensures seat { (seat.new.table_id ≡ seat.old.table_id) × (seat.new.id ≡ seat.old.id) }
    ensures taken { seat.new.me ≡ (taking other.id seat.old.me.0 other.me.0, seat.old.me.1) }
{
    place.shared.join_seat::<TakesIn<N>>(seat, other);
}

//! Tasks that wait for something under the lock, and those of them that a call wakes.
ghost use Rattle.std.specs.Prelude.{◌≡◌, ◌≢◌, ◌≤◌, ◌<◌, ◌↔◌, true, false, None, IfOk, ◌+◌, ◌++◌, [], ◌∷◌, Some, length, vec_capacity, map, IfSome, IfNone, IsPermutation};
ghost use Rattle.slab.specs.Slab.{slab_len};
ghost use Rattle.futures.specs.Task.{IsArmed, Keeps};
ghost use Rattle.shared_rounds.specs.Sleeping.{SleepsAt, NobodySleeps, OnlyThese, Parks, StayBut, AllBut, HasAsMuchRoom, HasRoomFor, SleepsOn, IsTicketHeap, NoneBefore};
ghost use Rattle.std.specs.BinaryHeap.{heap_items, heap_len};
ghost use Rattle.shared_lane.specs.Ordering.{IsBefore};

use futures::task::{Context, Poll, Source, Waker};
use shared_core::{Config, Ticket};
use slab::Slab;
use std::alloc::{AllocError, Global};
use std::cmp::Reverse;
use std::collections::BinaryHeap;
use std::marker::Model;
use std::mem;

/// One that sleeps: the number of its subscription or ticket, and the waker of its task.
#[derive(Drop)]
pub struct Sleeper {
    number: u64,
    waker: Option<Waker>,
}

/// Under which key a subscription or an emission slept last. Somebody else may have it by now.
#[derive(Clone, Copy, Drop)]
pub struct WaitKey {
    pub(crate) key: Option<usize>,
}

impl WaitKey {
    /// Of one that didn't sleep yet.
    pub fn new() -> WaitKey
        ensures { result.key ≡ None }
    {
        WaitKey { key: None }
    }
}

/// Those that sleep, each under its number. Room for each of them is reserved.
#[derive(Drop)]
pub(crate) struct WaitList {
    source: Source,
    sleeping: Slab<Sleeper>,
}

impl WaitList {
    /// Nobody sleeps, and so many may.
    pub fn new(alloc: Global, count: usize) -> Result<WaitList, AllocError>
        ensures nobody { IfOk result (λ sleepers. NobodySleeps sleepers.sleeping) }
        ensures room { IfOk result (λ sleepers. count ≤ sleepers.sleeping.capacity) }
    {
        let sleeping = Slab::with_capacity(alloc, count)?;
        Ok(WaitList {
            source: Source::new(),
            sleeping,
        })
    }

    /// The task of this poll sleeps until the one with this number is woken. Without a place for it, which no flow comes to,
    /// the task yields. Who slept there keeps its key.
    pub fn sleep(&mut self, number: u64, wait_key: &mut WaitKey, cx: &mut Context<'_>)
        ensures sleeps { slab_len self.old.sleeping < self.old.sleeping.capacity → SleepsAt self.new.sleeping wait_key.new.key number }
        ensures stays { SleepsAt self.old.sleeping wait_key.old.key number → wait_key.new.key ≡ wait_key.old.key }
        ensures asleep { Parks number self.old.sleeping self.new.sleeping }
        ensures others { StayBut wait_key.new.key self.old.sleeping self.new.sleeping }
        ensures room { self.new.sleeping.capacity ≡ self.old.sleeping.capacity }
        ensures armed { IsArmed cx.new }
        ensures kept { Keeps cx.old cx.new }
    {
        if !self.is_in(number, wait_key) && !self.park(number, wait_key) {
            let _again: Poll<()> = cx.yield_now();
            return;
        }
        self.register(number, wait_key, cx);
    }

    /// The task of this poll sleeps on under its key, which the one with this number has.
    pub fn register(&mut self, number: u64, wait_key: &WaitKey, cx: &mut Context<'_>)
        requires { SleepsAt self.old.sleeping wait_key.now.key number }
        ensures sleeps { SleepsAt self.new.sleeping wait_key.now.key number }
        ensures others { StayBut wait_key.now.key self.old.sleeping self.new.sleeping }
        ensures room { self.new.sleeping.capacity ≡ self.old.sleeping.capacity }
        ensures armed { IsArmed cx.new }
        ensures kept { Keeps cx.old cx.new }
    {
        let Some(key) = wait_key.key else {
            unreachable!()
        };
        let Some(sleeper) = self.sleeping.get_mut(key) else {
            unreachable!()
        };
        let _asleep: Poll<()> = cx.register(&self.source, &mut sleeper.waker);
    }

    /// Whether the one with this number sleeps there.
    pub fn is_in(&self, number: u64, wait_key: &WaitKey) -> bool
        ensures { (result ≡ true) ↔ SleepsAt self.now.sleeping wait_key.now.key number }
    {
        match wait_key.key {
            None => false,
            Some(key) => match self.sleeping.get(key) {
                None => false,
                Some(sleeper) => sleeper.number == number,
            },
        }
    }

    /// Parks the one with this number, where a place is left, and says whether it did. Its task registers after that.
    pub fn park(&mut self, number: u64, wait_key: &mut WaitKey) -> bool
        ensures asleep { result ≡ true → SleepsAt self.new.sleeping wait_key.new.key number }
        ensures stay { StayBut wait_key.new.key self.old.sleeping self.new.sleeping }
        ensures full { result ≡ false → (self.new ≡ self.old) × (self.old.sleeping.capacity ≤ slab_len self.old.sleeping) }
        ensures others { Parks number self.old.sleeping self.new.sleeping }
        ensures room { self.new.sleeping.capacity ≡ self.old.sleeping.capacity }
    {
        if self.sleeping.len() >= self.sleeping.capacity() {
            return false;
        }
        let waker = None;
        wait_key.key = Some(self.sleeping.insert_reserved(Sleeper { number, waker }));
        true
    }

    /// Whether nobody sleeps.
    pub fn is_empty(&self) -> bool
        ensures { (result ≡ true) ↔ NobodySleeps self.now.sleeping }
    {
        self.sleeping.is_empty()
    }

    /// Wakes all, in the place of those that the call wakes so far, of whom there are none.
    pub fn wake_all(&mut self, wakes: &mut WakeList)
        ensures nobody { self.new.sleeping ≡ wakes.old.subscriptions }
        ensures woken { wakes.new ≡ record wakes.old { subscriptions = self.old.sleeping } }
    {
        mem::swap(&mut self.sleeping, &mut wakes.subscriptions);
    }

    // Not inlined, so that a call that wakes nobody keeps its registers.
    /// Wakes the one with this number, under whichever key: it is to sleep no more.
    #[inline(never)]
    pub fn wake(&mut self, number: u64, wakes: &mut WakeList)
        ensures others { OnlyThese (λ n. n ≢ number) self.old.sleeping self.new.sleeping }
        ensures room { self.new.sleeping.capacity ≡ self.old.sleeping.capacity }
        ensures wakes { HasAsMuchRoom wakes.old wakes.new }
    {
        let mut woken = None;
        self.sleeping.retain(|_, sleeper| {
            let is_other = sleeper.number != number;
            if !is_other {
                woken = sleeper.waker.take();
            }
            is_other
        });
        wakes.add(woken);
    }

    /// Wakes who sleeps under this key, if it is the one with this number.
    pub fn wake_in(&mut self, number: u64, key: usize, wakes: &mut WakeList)
        ensures others { AllBut number key self.old.sleeping self.new.sleeping }
        ensures room { self.new.sleeping.capacity ≡ self.old.sleeping.capacity }
        ensures wakes { HasAsMuchRoom wakes.old wakes.new }
    {
        if !self.is_in(number, &WaitKey { key: Some(key) }) {
            return;
        }
        if let Some(sleeper) = self.sleeping.try_remove(key) {
            wakes.add(sleeper.waker);
        }
    }
}

/// The subscriptions, as they slept, and the wakers of others that a call wakes, kept until the lock is given back: a task that is
/// woken earlier would only wait for the lock.
#[derive(Drop)]
pub(crate) struct WakeList {
    /// All subscriptions that slept: one table is exchanged for another, which takes no step for each.
    pub(crate) subscriptions: Slab<Sleeper>,
    wakers: Vec<Waker>,
}

impl WakeList {
    /// Nobody. There is room for all whom one call of a flow with this config may have to wake: all subscriptions, all emissions, and
    /// one subscription that it ends.
    pub fn new(alloc: Global, config: &Config) -> Result<WakeList, AllocError>
        ensures none { IfOk result (λ wakes. NobodySleeps wakes.subscriptions × (wakes.wakers.items ≡ [])) }
        ensures room { IfOk result (λ wakes. HasRoomFor config.now wakes) }
    {
        let subscriptions = Slab::with_capacity(alloc, config.subscribers as usize)?;
        let wakers = Vec::with_capacity(alloc, config.emits as usize + 1)?;
        Ok(WakeList {
            subscriptions,
            wakers,
        })
    }

    /// Keeps a waker, where there is one. Without room for it, which no flow comes to, it is called at once.
    pub fn add(&mut self, waker: Option<Waker>)
        ensures kept { (kept : _) → waker ≡ Some kept → length self.old.wakers.items < vec_capacity self.old.wakers
            → self.new.wakers.items ≡ self.old.wakers.items ++ kept ∷ [] }
        ensures capacity { vec_capacity self.new.wakers ≡ vec_capacity self.old.wakers }
        ensures subscriptions { self.new.subscriptions ≡ self.old.subscriptions }
    {
        let Some(waker) = waker else {
            return;
        };
        if self.wakers.len() < self.wakers.capacity() {
            self.wakers.push_reserved(waker);
        }
    }

    /// Whether nobody is to be woken.
    pub fn is_empty(&self) -> bool
        ensures { result ≡ true → NobodySleeps self.now.subscriptions × (self.now.wakers.items ≡ []) }
    {
        self.subscriptions.is_empty() && self.wakers.is_empty()
    }

    /// Calls each waker, unless there is none: one that is let go wakes its task.
    #[inline(always)]
    pub fn fire_unless(&mut self, is_idle: bool)
        requires { is_idle ≡ true → NobodySleeps self.old.subscriptions × (self.old.wakers.items ≡ []) }
        ensures none { NobodySleeps self.new.subscriptions × (self.new.wakers.items ≡ []) }
        ensures room { HasAsMuchRoom self.old self.new }
    {
        if !is_idle {
            self.fire();
        }
    }

    // Not inlined, as above.
    /// Calls each waker.
    #[inline(never)]
    fn fire(&mut self)
        ensures none { NobodySleeps self.new.subscriptions × (self.new.wakers.items ≡ []) }
        ensures room { HasAsMuchRoom self.old self.new }
    {
        self.subscriptions.clear();
        self.wakers.clear();
    }
}

/// The ticket of an emission that sleeps, and its key. The lowest ticket is on top of a heap.
type Lain = Reverse<(u64, usize)>;

/// The emissions that sleep. Room for each of them is reserved. Contracts see who sleeps under which key.
#[derive(Drop)]
pub(crate) struct SleepingEmissions {
    sleepers: WaitList,
    /// The tickets of those that sleep, so that a call looks at those alone which it wakes.
    tickets: BinaryHeap<Lain>,
}

impl Model for SleepingEmissions {
    ghost use Rattle.std.specs.Prelude.{map};
    ghost use Rattle.std.specs.BinaryHeap.{heap_items};
    ghost use Rattle.slab.specs.Slab.{Slab};
    ghost use Rattle.shared_rounds.specs.declared.wait_list.Sleeper.{Sleeper};
    ghost use Rattle.shared_rounds.specs.Sleeping.{AreListed, IsTicketHeap};

    ghost Value = { Slab Sleeper };

    ghost view = { λ e. e.sleepers.sleeping };

    ghost invariant = { λ e. AreListed (map (λ lain. lain.0) (heap_items e.tickets)) e.sleepers.sleeping × IsTicketHeap (λ lain. lain.0) (heap_items e.tickets) };
}

impl SleepingEmissions {
    /// Nobody sleeps, and so many may.
    pub fn new(alloc: Global, count: usize) -> Result<SleepingEmissions, AllocError>
        ensures nobody { IfOk result (λ made. NobodySleeps made) }
        ensures room { IfOk result (λ made. count ≤ made.capacity) }
    {
        let sleepers = WaitList::new(alloc, count)?;
        let tickets = BinaryHeap::with_capacity(alloc, count)?;
        Ok(SleepingEmissions { sleepers, tickets })
    }

    /// Whether nobody sleeps.
    pub fn is_empty(&self) -> bool
        ensures { (result ≡ true) ↔ NobodySleeps self.now }
    {
        self.sleepers.is_empty()
    }

    /// The task of this poll sleeps until the emission with this ticket is woken. Without a place for it, which no flow comes to,
    /// the task yields.
    pub fn sleep(&mut self, ticket: Ticket, wait_key: &mut WaitKey, cx: &mut Context<'_>)
        ensures asleep { Parks ticket.0 self.old self.new }
        ensures room { self.new.capacity ≡ self.old.capacity }
        ensures armed { IsArmed cx.new }
        ensures kept { Keeps cx.old cx.new }
    {
        if !self.sleepers.is_in(ticket.0, wait_key) && !self.park(ticket, wait_key) {
            let _again: Poll<()> = cx.yield_now();
            return;
        }
        self.sleepers.register(ticket.0, wait_key, cx);
    }

    // Takes a place, where one is left, and says whether it did.
    fn park(&mut self, ticket: Ticket, wait_key: &mut WaitKey) -> bool
        ensures asleep { result ≡ true → SleepsAt self.new wait_key.new.key ticket.0 }
        ensures others { Parks ticket.0 self.old self.new }
        ensures room { self.new.capacity ≡ self.old.capacity }
    {
        if self.tickets.len() >= self.tickets.capacity()
            || !self.sleepers.park(ticket.0, wait_key)
        {
            return false;
        }
        let Some(key) = wait_key.key else {
            unreachable!()
        };
        self.tickets.push(Reverse((ticket.0, key))).is_ok()
    }

    // Not inlined, so that a call that wakes nobody keeps its registers.
    /// Wakes those before the first ticket of an emission that has to wait, or all where none has to, and the one whose ticket is
    /// gone.
    #[inline(never)]
    pub fn wake_done(&mut self, first: Option<Ticket>, gone: Option<u64>, wakes: &mut WakeList)
        ensures done { OnlyThese (SleepsOn first gone) self.old self.new }
        ensures room { self.new.capacity ≡ self.old.capacity }
        ensures wakes { HasAsMuchRoom wakes.old wakes.new }
    {
        self.wake_before(first, wakes);
        if let Some(gone) = gone {
            if !is_before(gone, first) {
                self.wake(gone, wakes);
            }
        }
    }

    // Wakes those before this ticket, or all.
    fn wake_before(&mut self, first: Option<Ticket>, wakes: &mut WakeList)
        ensures others { OnlyThese (λ ticket. IsBefore ticket first → ⊥) self.old self.new }
        ensures room { self.new.capacity ≡ self.old.capacity }
        ensures wakes { HasAsMuchRoom wakes.old wakes.new }
    {
        while let Some((ticket, key)) = take_before(&mut self.tickets, first) {
            self.sleepers.wake_in(ticket, key, wakes);
        }
    }

    // Wakes the one with this ticket, which was given up. Who gives up an emission waits for none, so this may go through all.
    fn wake(&mut self, ticket: u64, wakes: &mut WakeList)
        ensures others { OnlyThese (λ other. other ≢ ticket) self.old self.new }
        ensures room { self.new.capacity ≡ self.old.capacity }
        ensures wakes { HasAsMuchRoom wakes.old wakes.new }
    {
        self.sleepers.wake(ticket, wakes);
        self.tickets.retain(|lain| lain.0.0 != ticket);
    }
}

// Takes out the lowest ticket with its key, if it is before this one, or where there is no such bound.
fn take_before(tickets: &mut BinaryHeap<Lain>, first: Option<Ticket>) -> Option<(u64, usize)>
    requires { IsTicketHeap (λ lain. lain.0) (heap_items tickets.old) }
    ensures heap { IsTicketHeap (λ lain. lain.0) (heap_items tickets.new) }
    ensures none { IfNone result ((heap_items tickets.new ≡ heap_items tickets.old) × NoneBefore first (map (λ lain. lain.0) (heap_items tickets.new))) }
    ensures before { IfSome result (λ lain. IsBefore lain.0 first) }
    ensures out { IfSome result (λ taken. IsPermutation (map (λ lain. lain.0) (heap_items tickets.old)) (taken ∷ map (λ lain. lain.0) (heap_items tickets.new))) }
    ensures fewer { IfSome result (λ lain. heap_len tickets.new + 1 ≡ heap_len tickets.old) }
{
    let Reverse((lowest, _)) = *tickets.peek()?;
    if !is_before(lowest, first) {
        return None;
    }
    let Reverse(lain) = tickets.pop()?;
    Some(lain)
}

// Whether a ticket is before another, or there is no other.
fn is_before(ticket: u64, first: Option<Ticket>) -> bool
    ensures before { result ≡ true → IsBefore ticket first }
    ensures after { result ≡ false → IsBefore ticket first → ⊥ }
{
    match first {
        None => true,
        Some(first) => ticket < first.0,
    }
}

//! What a buffer in one task holds and counts.

ghost use Rattle.std.specs.Prelude.{◌≡◌, ◌<◌, [], true, false, IfOk};
ghost use Rattle.circular_buffer.specs.Buffer.{buffer};
ghost use Rattle.flow_buffer.specs.declared.ending.Ending.TheVariants.{Going};
ghost use Rattle.flow_buffer.specs.Stored.{IsStuck, Puts, Gets, one_more};

use crate::ending::Ending;
use circular_buffer::HeapCircularBuffer;
use cold_flow::Policy;
use flow_terms::Fill;
use std::alloc::{AllocError, Global};

/// The ring of a buffer in one task, with its counts and its end.
#[derive(Drop)]
pub struct Store<T, E> {
    // The values that were produced and not yet taken, the oldest first.
    pub(crate) held: HeapCircularBuffer<T>,
    pub(crate) policy: Policy,
    // How many values were taken, and how many were dropped. Each stays at its greatest.
    pub(crate) taken: u64,
    pub(crate) dropped: u64,
    pub(crate) ending: Ending<E>,
}

impl<T: Copy, E: Copy> Store<T, E> {
    // Reserves its one ring.
    pub(crate) fn new(
        alloc: Global,
        places: usize,
        policy: Policy,
    ) -> Result<Store<T, E>, AllocError>
        ensures { IfOk result (λ s. s ≡ record { held = buffer [] places; policy = policy; taken = 0; dropped = 0; ending = Going }) }
    {
        Ok(Store {
            held: HeapCircularBuffer::with_capacity(alloc, places)?,
            policy,
            taken: 0,
            dropped: 0,
            ending: Ending::Going,
        })
    }

    // Is it full, and is the policy to wait?
    pub(crate) fn is_stuck(&self) -> bool
        ensures stuck { result ≡ true → IsStuck self.now }
        ensures free { result ≡ false → IsStuck self.now → ⊥ }
    {
        matches!(self.policy, Policy::Suspend) && self.held.is_full()
    }

    // Puts a value in, as the policy says where it is full.
    #[tactic(auto, using(crate::proofs::Rings::keep_room, crate::proofs::Rings::keep_full))]
    pub(crate) fn put(&mut self, value: T) -> Fill
        requires free { IsStuck self.old → ⊥ }
        requires places { 0 < self.old.held.capacity }
        ensures { Puts self.old value result self.new }
    {
        if self.held.len() < self.held.capacity() {
            self.held.push_back(value);
            return Fill::Took;
        }
        self.dropped = self.dropped.saturating_add(1);
        if let Policy::DropLatest = self.policy {
            return Fill::Dropped;
        }
        self.held.push_back(value);
        Fill::Overwrote
    }

    // Takes the oldest value out.
    pub(crate) fn take(&mut self) -> Option<T>
        ensures { Gets self.old result self.new }
    {
        let oldest = self.held.pop_front();
        if oldest.is_some() {
            self.count_taken();
        }
        oldest
    }

    // A value was taken.
    pub(crate) fn count_taken(&mut self)
        ensures { self.new ≡ record self.old { taken = one_more self.old.taken } }
    {
        self.taken = self.taken.saturating_add(1);
    }

    // Gives up what it holds.
    pub(crate) fn give_up(&mut self)
        ensures { self.new ≡ record self.old { held = buffer [] self.old.held.capacity } }
    {
        self.held.clear();
    }
}

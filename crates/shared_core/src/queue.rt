//! Values in order, in memory that was reserved at making.

ghost use Rattle.std.specs.List.{All, remove};
ghost use Rattle.std.specs.Prelude.{◌≡◌, ◌+◌, ◌-◌, ◌<◌, ◌≤◌, [], ◌∷◌, ◌++◌, length, drop, IfOk, slice_get, vec_capacity};

use std::alloc::{AllocError, Global};
use std::collections::VecDeque;
use std::marker::Model;

/// At most `limit` values, the oldest first.
#[derive(Drop)]
pub struct Queue<T: Copy> {
    /// The values, in memory for `limit` of them at least.
    items: VecDeque<T>,
    /// How many values there may be.
    limit: usize,
}

impl<T: Copy> Model for Queue<T> {
    ghost use Rattle.std.specs.Prelude.{◌≤◌, length};
    ghost use Rattle.std.specs.VecDeque.{deque_capacity};
    ghost use Rattle.shared_core.specs.Queues.{Queued};

    ghost Value = { Queued T };

    ghost view = { λ q. record { values = q.items.items; limit = q.limit } };

    ghost invariant = { λ q. (length q.items.items ≤ q.limit) × (q.limit ≤ deque_capacity q.items) };
}

impl<T: Copy> Queue<T> {
    /// An empty queue, with memory for `limit` values.
    pub fn new(alloc: Global, limit: usize) -> Result<Queue<T>, AllocError>
        ensures { IfOk result (λ q. q ≡ record { values = []; limit = limit }) }
    {
        let items = VecDeque::with_capacity(alloc, limit)?;
        Ok(Queue { items, limit })
    }

    /// How many values it holds.
    pub fn len(&self) -> usize
        ensures count { result ≡ length self.now.values }
        ensures bound { length self.now.values ≤ self.now.limit }
    {
        self.items.len()
    }

    /// Adds the newest value.
    pub fn push(&mut self, value: T)
        requires { length self.old.values < self.old.limit }
        ensures { self.new ≡ record self.old { values = self.old.values ++ value ∷ [] } }
    {
        self.items.push_back_reserved(value);
    }

    /// The oldest value, which stays.
    pub fn first(&self) -> Option<T>
        ensures { result ≡ slice_get self.now.values 0 }
    {
        self.items.front().copied()
    }

    /// Takes the oldest value.
    pub fn pop(&mut self) -> Option<T>
        ensures value { result ≡ slice_get self.old.values 0 }
        ensures rest { self.new ≡ record self.old { values = drop 1 self.old.values } }
    {
        self.items.pop_front()
    }

    /// Takes the value at this index from the oldest one on. Most often that is the oldest.
    #[inline]
    pub fn remove(&mut self, index: usize) -> T
        requires { index < length self.old.values }
        ensures value { slice_get self.old.values index ≡ Some result }
        ensures rest { self.new ≡ record self.old { values = remove self.old.values index } }
    {
        if index > 0 {
            return self.remove_behind(index);
        }
        self.pop().unwrap()
    }

    // Not inlined, so that who takes the oldest keeps its registers.
    #[inline(never)]
    fn remove_behind(&mut self, index: usize) -> T
        requires { index < length self.old.values }
        ensures value { slice_get self.old.values index ≡ Some result }
        ensures rest { self.new ≡ record self.old { values = remove self.old.values index } }
    {
        let value = self.items[index];
        let _removed = self.items.remove(index);
        value
    }

    /// The value at this index from the oldest one on.
    pub fn get(&self, index: usize) -> T
        requires { index < length self.now.values }
        ensures { slice_get self.now.values index ≡ Some result }
    {
        self.items[index]
    }
}

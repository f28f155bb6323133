//! The last accepted values, kept once for the replay cache and for each live subscription.
//!
//! No value is moved or copied again when it is accepted: a subscription is a place with a position, the number of the
//! emission that it receives next, and the cache is a length. With `replay` 2 and `extra` 2, after the emissions 0 to 6:
//!
//! ```text
//!                 accepted long ago   |  values, the latest ones  |
//!                                     +------+------+------+------+
//! number              0     1     2   |   3  |   4  |   5  |   6  |   7  next_number
//!                                     +------+------+------+------+
//! cached                                            |<---- 2 ---->|      for a subscription that comes now
//! places    a                                                         ^  position 7: nothing is pending
//!           b                             ^  position 3: it has all it may pending
//!           c                                           ^  position 5: the emissions 5 and 6 are pending
//! waiting                                                                v  w   emissions without room, the oldest first
//! ```
//!
//! The next emission takes the place of value 3, so `b` has to receive or lose that before. Where it loses it, its position stays
//! behind the oldest value until it receives the next time: no place is touched when a value is accepted. What waits is kept
//! with the tickets (`tickets.rt`), since it has no number yet.

ghost use Rattle.std.specs.Prelude.{◌≡◌, ◌==◌, ◌+◌, ◌<◌, ◌≤◌, true, false, nat_lt, length, [], ◌∷◌, ◌++◌, IfOk, IfSome, IfNone, slice_get};
ghost use Rattle.std.specs.List.{list_all, list_any, remove};
ghost use Rattle.shared_core.specs.Flow.{number_limit, capacity};
ghost use Rattle.shared_core.specs.Kept.{parameters_of};
ghost use Rattle.shared_core.specs.Rising.{Rises};
ghost use Rattle.shared_core.specs.Ringed.{empty_ring, has_space, with_value, without_oldest, Receives};

use crate::config::Config;
use crate::place::{
    Crowd, LISTED, Place, each_past, is_place, place_listed, place_of, place_with_gaps,
    place_without_gaps,
};
use crate::slowest::Slowest;
use circular_buffer::HeapCircularBuffer;
use std::alloc::{AllocError, Global};
use std::marker::Model;

/// The last accepted values, and who has yet to receive which of them.
#[derive(Drop)]
pub struct Ring<T: Copy> {
    /// The last accepted values, the oldest first: as many as a subscription may have pending.
    values: HeapCircularBuffer<T>,
    /// The number of the next accepted emission.
    next_number: u64,
    /// How many of the latest values the replay cache holds.
    cached: usize,
    /// How many it may hold.
    replay: usize,
    /// The places of live subscriptions, by rising numbers.
    places: Vec<Place>,
    /// How many they are.
    crowd: Crowd,
    /// Where the place stood that was asked for a value last.
    recent: usize,
    /// While the next number is below this, there is room.
    room_until: u64,
    /// Who was furthest behind when all places were looked at last.
    slowest: Slowest,
    /// How many subscriptions may be live.
    subscribers: usize,
}

impl<T: Copy> Model for Ring<T> {
    ghost use Rattle.std.specs.Prelude.{◌-◌, map, length, vec_capacity};
    ghost use Rattle.circular_buffer.specs.Buffer.{keep_last};
    ghost use Rattle.shared_core.specs.Ringed.{Ringed};
    ghost use Rattle.shared_core.specs.Places.{IsRing, shown_place};

    ghost Value = { Ringed T };

    ghost view = { λ r. record {
      next_number = r.next_number;
      cache = keep_last r.cached r.values.items;
      live = map (shown_place r.next_number r.values.items) r.places.items;
      replay = r.replay;
      limit = r.values.capacity;
      subscribers = r.subscribers;
    } };

    ghost invariant = { λ r. IsRing r.values r.next_number r.cached r.replay r.places.items (vec_capacity r.places) r.subscribers r.room_until r.slowest };
}

impl<T: Copy> Ring<T> {
    /// An empty ring, with memory for all that it will hold.
    pub fn new(alloc: Global, config: &Config) -> Result<Ring<T>, AllocError>
        requires capacity { capacity (parameters_of config.now) ≤ 65536 }
        requires subscribers { config.now.subscribers ≤ 1024 }
        requires first { config.now.first ≤ number_limit }
        ensures { IfOk result (λ r. r ≡ empty_ring (parameters_of config.now)) }
    {
        let limit = (config.replay + config.extra).max(1) as usize;
        let subscribers = config.subscribers as usize;
        let values = HeapCircularBuffer::with_capacity(alloc, limit)?;
        let places = Vec::with_capacity(alloc, subscribers)?;
        Ok(Ring {
            values,
            next_number: config.first,
            cached: 0,
            replay: config.replay as usize,
            places,
            crowd: Crowd::Few,
            recent: 0,
            room_until: u64::MAX,
            slowest: Slowest::unknown(),
            subscribers,
        })
    }

    /// The number of the next accepted emission.
    pub fn next_number(&self) -> u64
        ensures number { result ≡ self.now.next_number }
        ensures bound { self.now.next_number ≤ number_limit }
    {
        self.next_number
    }

    /// How many values a subscription may have pending.
    fn limit(&self) -> u64
        ensures limit { result ≡ self.now.limit }
        ensures bound { (0 < self.now.limit) × (self.now.limit ≤ 65536) }
    {
        self.values.capacity() as u64
    }

    /// How many subscriptions are live, as far as it matters to how they are looked at.
    pub fn crowd(&self) -> Crowd {
        self.crowd
    }

    /// Whether each live subscription has fewer values pending than it may: none stands at the oldest value of a full ring.
    #[inline]
    pub fn has_room(&mut self, crowd: Crowd) -> bool
        ensures room { result ≡ has_space self.old }
        ensures same { self.new ≡ self.old }
    {
        let limit = self.limit();
        if self.next_number < limit {
            return true;
        }
        match crowd {
            Crowd::Few => each_past(&self.places, self.next_number - limit),
            Crowd::Many => self.has_room_for_many(),
        }
    }

    // Not inlined, so that an emission beside few subscriptions keeps its registers.
    /// The same of many places in a full ring: it is known while the next number is below `room_until`.
    #[inline(never)]
    fn has_room_for_many(&mut self) -> bool
        requires { self.old.limit ≤ self.old.next_number }
        ensures room { result ≡ has_space self.old }
        ensures same { self.new ≡ self.old }
    {
        if self.next_number < self.room_until {
            return true;
        }
        let limit = self.limit();
        let oldest = self.next_number - limit;
        let least = self.slowest.least_position(&self.places, oldest);
        self.room_until = least.saturating_add(limit);
        least > oldest
    }

    /// Whether each live subscription has received or lost the emission with this number.
    pub fn is_past(&self, number: u64) -> bool
        requires { number < self.now.next_number }
        ensures { result ≡ list_all (λ e. nat_lt (number + length e.1) self.now.next_number) self.now.live }
    {
        if number + (self.values.len() as u64) < self.next_number {
            return true;
        }
        each_past(&self.places, number)
    }

    // Writes the value behind the others. A full ring gives up its oldest value.
    fn write(&mut self, value: T) -> u64
        requires { self.old.next_number < number_limit }
        ensures number { result ≡ self.old.next_number }
        ensures accepted { has_space self.old ≡ true → self.new ≡ with_value value self.old }
        ensures pushed { self.new ≡ with_value value (without_oldest self.old) }
    {
        let number = self.next_number;
        let _overwritten = self.values.push_back(value);
        self.cached = (self.cached + 1).min(self.replay);
        self.next_number = number + 1;
        number
    }

    /// The value is pending for each live subscription, and the latest of the replay cache. Answers its number.
    pub fn accept(&mut self, value: T) -> u64
        requires numbers { self.old.next_number < number_limit }
        requires room { has_space self.old ≡ true }
        ensures number { result ≡ self.old.next_number }
        ensures accepted { self.new ≡ with_value value self.old }
    {
        self.write(value)
    }

    /// The same where there may be no room: each live subscription that has all it may pending loses its oldest value before. Its
    /// place is moved when it receives the next time.
    pub fn push(&mut self, value: T) -> u64
        requires { self.old.next_number < number_limit }
        ensures number { result ≡ self.old.next_number }
        ensures pushed { self.new ≡ with_value value (without_oldest self.old) }
    {
        self.write(value)
    }

    /// Where the live subscription with this number stands in their list, by whose order it is looked for.
    #[inline]
    pub fn find(&self, number: u64) -> Option<usize>
        ensures found { IfSome result (λ i. (e : _) × (slice_get self.now.live i ≡ Some e) × (e.0 ≡ number)) }
        ensures none { IfNone result (Rises (λ e. e.0) self.now.live → list_any (λ e. e.0 == number) self.now.live ≡ false) }
    {
        if let Some(at) = place_without_gaps(&self.places, number) {
            return Some(at);
        }
        if self.places.len() <= LISTED {
            return place_listed(&self.places, number);
        }
        if is_place(&self.places, number, self.recent) {
            return Some(self.recent);
        }
        self.find_with_gaps(number)
    }

    // Not inlined, so that a receipt without gaps keeps its registers.
    /// The same among more than a few, where others between the first one and it may have gone.
    #[inline(never)]
    fn find_with_gaps(&self, number: u64) -> Option<usize>
        ensures found { IfSome result (λ i. (e : _) × (slice_get self.now.live i ≡ Some e) × (e.0 ≡ number)) }
        ensures none { IfNone result (Rises (λ e. e.0) self.now.live → list_any (λ e. e.0 == number) self.now.live ≡ false) }
    {
        place_with_gaps(&self.places, number, self.recent)
    }

    /// Where the live subscription with this number stands in their list.
    pub fn place_of(&self, number: u64) -> Option<usize>
        ensures found { IfSome result (λ i. (e : _) × (slice_get self.now.live i ≡ Some e) × (e.0 ≡ number)) }
        ensures none { IfNone result (list_any (λ e. e.0 == number) self.now.live ≡ false) }
    {
        place_of(&self.places, number, self.recent)
    }

    /// The live subscription at this index receives its oldest pending value, where it has one.
    pub fn receive(&mut self, at: usize) -> Option<T>
        requires { at < length self.old.live }
        ensures { Receives self.old at result self.new }
    {
        self.recent = at;
        let place = self.places[at];
        let oldest = self.next_number - self.values.len() as u64;
        let index = place.position.saturating_sub(oldest);
        let value = *self.values.get(index as usize)?;
        self.places[at] = Place {
            position: oldest + index + 1,
            ..place
        };
        Some(value)
    }

    /// How many values the live subscription at this index has pending.
    pub fn pending_at(&self, at: usize) -> u64
        requires { at < length self.now.live }
        ensures count { (e : _) × (slice_get self.now.live at ≡ Some e) × (result ≡ length e.1) }
        ensures bound { result ≤ number_limit }
    {
        let ahead = self.next_number - self.places[at].position;
        ahead.min(self.values.len() as u64)
    }

    /// How many subscriptions are live.
    pub fn live_len(&self) -> usize
        ensures count { result ≡ length self.now.live }
        ensures bound { (length self.now.live ≤ self.now.subscribers) × (self.now.subscribers ≤ 1024) }
    {
        self.places.len()
    }

    /// A new subscription with this number, which starts at the oldest value of the replay cache.
    pub fn open(&mut self, number: u64)
        requires { length self.old.live < self.old.subscribers }
        ensures { self.new ≡ record self.old { live = self.old.live ++ (number, self.old.cache) ∷ [] } }
    {
        let position = self.next_number - self.cached as u64;
        self.room_until = self.room_until.min(position + self.limit());
        self.slowest.others = self.slowest.others.min(position);
        self.places.push_reserved(Place { number, position });
        self.crowd = Crowd::of(self.places.len());
    }

    /// The subscription at this index isn't live any more.
    pub fn close(&mut self, at: usize)
        requires { at < length self.old.live }
        ensures { self.new ≡ record self.old { live = remove self.old.live at } }
    {
        let _place = self.places.remove(at);
        self.crowd = Crowd::of(self.places.len());
        self.slowest = Slowest::unknown();
    }

    /// Empties the replay cache. What is pending stays.
    pub fn reset(&mut self)
        ensures { self.new ≡ record self.old { cache = [] } }
    {
        self.cached = 0;
    }

    /// How many values the replay cache holds.
    pub fn replay_len(&self) -> usize
        ensures { result ≡ length self.now.cache }
    {
        self.cached
    }

    /// The value of the replay cache at this index from the oldest one on.
    pub fn replay_at(&self, index: usize) -> T
        requires { index < length self.now.cache }
        ensures { slice_get self.now.cache index ≡ Some result }
    {
        let oldest = self.values.len() - self.cached;
        *self.values.get(oldest + index).unwrap()
    }
}

//! Who is furthest behind.

ghost use Rattle.std.specs.Prelude.{◌≡◌, ◌+◌, ◌<◌, ◌≤◌, ◌^◌, ◌-◌, true, nat_lt, length};
ghost use Rattle.std.specs.List.{All, list_all};
ghost use Rattle.shared_core.specs.Places.{IsFrom, IsReached, OthersFrom, NotedFrom, StandsFrom};

use crate::place::Place;

/// The few places that were furthest behind when all were looked at, and from where on each other one stands.
///
/// Positions only rise. So where one of these few holds up the others, a look at the few tells whether there is room. All are
/// looked at again once each of the few stands further than the others are known to stand: each of them has received since.
#[derive(Clone, Copy)]
pub struct Slowest {
    /// Where these few have their places.
    pub noted: [usize; 4],
    /// Each other place stands at this number or after it.
    pub others: u64,
}

/// Where a place stands, or `u64::MAX` where there is none at this index.
fn position_at(places: &[Place], at: usize) -> u64
    ensures from { StandsFrom places.now at result }
    ensures reached { IsReached places.now result }
{
    match places.get(at) {
        Some(place) => place.position,
        None => u64::MAX,
    }
}

impl Slowest {
    /// What is known before anybody was looked at.
    pub fn unknown() -> Slowest
        ensures { result.others ≡ 0 }
    {
        Slowest {
            noted: [usize::MAX; 4],
            others: 0,
        }
    }

    /// Which of the noted ones is furthest ahead.
    fn furthest_ahead(&self, places: &[Place]) -> usize
        ensures { result < 4 }
    {
        let mut furthest = 0;
        let mut ahead = 0;
        for (i, at) in self.noted.iter().enumerate() {
            let position = position_at(places, *at);
            if position > ahead {
                furthest = i;
                ahead = position;
            }
        }
        furthest
    }

    /// Takes in the place at this index: it is noted, in place of the one furthest ahead, where it is behind that one.
    fn note(&mut self, places: &[Place], at: usize)
        ensures from { OthersFrom at self.old.noted self.old.others places.now → OthersFrom (at + 1) self.new.noted self.new.others places.now }
        ensures reached { IsReached places.now self.old.others → IsReached places.now self.new.others }
    {
        let position = position_at(places, at);
        let furthest = self.furthest_ahead(places);
        let ahead = position_at(places, self.noted[furthest]);
        if position < ahead {
            self.noted[furthest] = at;
        }
        self.others = self.others.min(position.max(ahead));
    }

    /// Looks at all places.
    fn of(places: &[Place]) -> Slowest
        ensures from { OthersFrom (length places.now) result.noted result.others places.now }
        ensures reached { IsReached places.now result.others }
    {
        let mut slowest = Slowest {
            noted: [usize::MAX; 4],
            others: u64::MAX,
        };
        for (i, place) in places.iter().enumerate() {
            if place.position < slowest.others {
                slowest.note(places, i);
            }
        }
        slowest
    }

    /// The least position of those that are noted, or `u64::MAX` where there are none.
    fn least_noted(&self, places: &[Place]) -> u64
        ensures from { NotedFrom self.now.noted result places.now }
        ensures reached { IsReached places.now result }
    {
        let mut least = u64::MAX;
        for at in &self.noted {
            least = least.min(position_at(places, *at));
        }
        least
    }

    /// A number from which on all places stand, and which tells whether all are past `number`. Looks at each of them only where
    /// those that are noted don't tell.
    pub fn least_position(&mut self, places: &[Place], number: u64) -> u64
        requires known { OthersFrom (length places.now) self.old.noted self.old.others places.now }
        requires below { number < 2 ^ 64 - 1 }
        ensures known { OthersFrom (length places.now) self.new.noted self.new.others places.now }
        ensures from { All (IsFrom result) places.now }
        ensures reached { list_all (λ p. nat_lt number p.position) places.now ≡ true → number < result }
    {
        let noted = self.least_noted(places);
        let least = noted.min(self.others);
        if noted <= number || least > number {
            return least;
        }
        *self = Slowest::of(places);
        self.least_noted(places).min(self.others)
    }
}

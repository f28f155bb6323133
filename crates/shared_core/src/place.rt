//! The places of live subscriptions.

ghost use Rattle.std.specs.Prelude.{if◌then◌else◌, ◌≡◌, ◌+◌, ◌≤◌, ◌==◌, nat_lt, false, length, IsTrue, IfSome, IfNone, slice_get};
ghost use Rattle.std.specs.List.{list_any, list_all};
ghost use Rattle.shared_core.specs.Rising.{Rises, StandsWithin};

/// So few places are all looked at for room, and so few tickets for a number: that takes no longer than to look at those that are
/// noted, or to search.
pub const FEW: usize = 8;

/// Among so few places each is looked at for a number.
pub const LISTED: usize = 4;

// Kept with them, since a loop over places that are known to be at most eight is written out eight times.
/// How many subscriptions are live: how they are looked at depends on it, and nothing else.
#[derive(Clone, Copy)]
pub enum Crowd {
    /// At most `FEW`, of whom all are looked at.
    Few,
    /// More.
    Many,
}

impl Crowd {
    /// That of so many.
    pub fn of(count: usize) -> Crowd
        ensures { result ≡ (if nat_lt 8 count then Crowd.Many else Crowd.Few) }
    {
        if count <= FEW {
            Crowd::Few
        } else {
            Crowd::Many
        }
    }
}

/// A live subscription: its number, and where it stands.
#[derive(Clone, Copy)]
pub struct Place {
    /// The number of the subscription.
    pub number: u64,
    /// The number of the emission that it receives next.
    pub position: u64,
}

/// Where the subscription with this number has its place, if none from the first live one on was cancelled before it. Places
/// stand by rising numbers, so it is as many places after the first one as its number is after that one's.
#[inline]
pub fn place_without_gaps(places: &[Place], number: u64) -> Option<usize>
    ensures found { IfSome result (λ i. (p : _) × (slice_get places.now i ≡ Some p) × (p.number ≡ number)) }
{
    let first = places.first()?;
    // A number before the first one wraps to an index past the last place.
    let at = number.wrapping_sub(first.number) as usize;
    let place = places.get(at)?;
    if place.number == number {
        return Some(at);
    }
    None
}

/// The same, if none from it on was cancelled before the last live one: it is as many places before that one as its number is before
/// that one's.
#[inline]
fn place_from_last(places: &[Place], number: u64) -> Option<usize>
    ensures found { IfSome result (λ i. (p : _) × (slice_get places.now i ≡ Some p) × (p.number ≡ number)) }
{
    let last = places.last()?;
    // A number after the last one, or too far before it, wraps to an index past it.
    let after = last.number.wrapping_sub(number) as usize;
    let at = places.len().wrapping_sub(1).wrapping_sub(after);
    let place = places.get(at)?;
    if place.number == number {
        return Some(at);
    }
    None
}

/// Where the subscription with this number has its place, among so many places from `from` on: a binary search, since places
/// stand by rising numbers.
fn place_among(places: &[Place], number: u64, from: usize, count: usize) -> Option<usize>
    requires { from + count ≤ length places.now }
    ensures found { IfSome result (λ i. (p : _) × (slice_get places.now i ≡ Some p) × (p.number ≡ number)) }
    ensures none { IfNone result (Rises (λ p. p.number) places.now → StandsWithin (λ p. p.number) number places.now from (from + count)
        → list_any (λ p. p.number == number) places.now ≡ false) }
{
    let mut base = from;
    let mut size = count;
    while size > 1 {
        let half = size / 2;
        let middle = base + half;
        if places[middle].number <= number {
            base = middle;
        }
        size -= half;
    }
    if size > 0 && places[base].number == number {
        return Some(base);
    }
    None
}

/// Whether the subscription with this number has its place at this index.
#[inline]
pub fn is_place(places: &[Place], number: u64, at: usize) -> bool
    ensures { IsTrue result → (p : _) × (slice_get places.now at ≡ Some p) × (p.number ≡ number) }
{
    let Some(place) = places.get(at) else {
        return false;
    };
    place.number == number
}

/// Where the subscription with this number has its place: numbers rise, so it is at most as many places after the first one as its
/// number is after that one's, and at most as many before the last one as its number is before that one's.
fn place_between(places: &[Place], number: u64) -> Option<usize>
    ensures found { IfSome result (λ i. (p : _) × (slice_get places.now i ≡ Some p) × (p.number ≡ number)) }
    ensures none { IfNone result (Rises (λ p. p.number) places.now → list_any (λ p. p.number == number) places.now ≡ false) }
{
    let end = places.len().checked_sub(1)?;
    let low = end.saturating_sub(places[end].number.saturating_sub(number) as usize);
    let high = end.min(number.saturating_sub(places[0].number) as usize);
    place_among(places, number, low, (high + 1).saturating_sub(low))
}

/// Where the subscription with this number has its place, looked for at each place.
#[inline]
pub fn place_listed(places: &[Place], number: u64) -> Option<usize>
    ensures found { IfSome result (λ i. (p : _) × (slice_get places.now i ≡ Some p) × (p.number ≡ number)) }
    ensures none { IfNone result (list_any (λ p. p.number == number) places.now ≡ false) }
{
    for (i, place) in places.iter().enumerate() {
        if place.number == number {
            return Some(i);
        }
    }
    None
}

/// Where the subscription with this number has its place, where others between the first one and it may have gone. Often none after
/// it has gone, or it is the one after the one that received last, at `recent`.
pub fn place_with_gaps(places: &[Place], number: u64, recent: usize) -> Option<usize>
    ensures found { IfSome result (λ i. (p : _) × (slice_get places.now i ≡ Some p) × (p.number ≡ number)) }
    ensures none { IfNone result (Rises (λ p. p.number) places.now → list_any (λ p. p.number == number) places.now ≡ false) }
{
    if let Some(at) = place_from_last(places, number) {
        return Some(at);
    }
    let after = recent.wrapping_add(1);
    if is_place(places, number, after) {
        return Some(after);
    }
    place_between(places, number)
}

/// The same, looked for at each place where a search by its number finds none.
pub fn place_of(places: &[Place], number: u64, recent: usize) -> Option<usize>
    ensures found { IfSome result (λ i. (p : _) × (slice_get places.now i ≡ Some p) × (p.number ≡ number)) }
    ensures none { IfNone result (list_any (λ p. p.number == number) places.now ≡ false) }
{
    if let Some(at) = place_without_gaps(places, number) {
        return Some(at);
    }
    if let Some(at) = place_with_gaps(places, number, recent) {
        return Some(at);
    }
    place_listed(places, number)
}

/// Whether each place stands past the emission with this number.
pub fn each_past(places: &[Place], number: u64) -> bool
    ensures { result ≡ list_all (λ p. nat_lt number p.position) places.now }
{
    for place in places {
        if place.position <= number {
            return false;
        }
    }
    true
}

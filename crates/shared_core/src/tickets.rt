//! The tickets that are out: emissions that weren't finished at once.

ghost use Rattle.std.specs.Prelude.{◌≡◌, ◌==◌, ◌+◌, ◌<◌, ◌≤◌, ◌^◌, false, length, IfSome, IfNone, slice_get};
ghost use Rattle.std.specs.List.{list_any};
ghost use Rattle.shared_core.specs.Rising.{Rises, StandsWithin};

use crate::place::FEW;
use crate::queue::Queue;

/// A ticket that is out, and what became of its emission.
#[derive(Clone, Copy)]
pub struct OutTicket<E> {
    /// The number of the ticket.
    pub ticket: u64,
    /// `Accepted` or `Waiting`.
    pub emission: E,
}

/// What is kept of an accepted emission.
#[derive(Clone, Copy)]
pub struct Accepted {
    /// Its place among all accepted emissions, counted from 0.
    pub index: u64,
}

/// What is kept of an emission that waits for room.
#[derive(Clone, Copy)]
pub struct Waiting<T> {
    pub emitter: u32,
    pub value: T,
}

/// Where the ticket with this number stands, among so many from `from` on: a binary search, since tickets rise.
fn out_among<E: Copy>(
    out: &Queue<OutTicket<E>>,
    ticket: u64,
    from: usize,
    count: usize,
) -> Option<usize>
    requires inside { from + count ≤ length out.now.values }
    requires fits { from + count < 2 ^ 64 }
    ensures found { IfSome result (λ i. (h : _) × (slice_get out.now.values i ≡ Some h) × (h.ticket ≡ ticket)) }
    ensures none { IfNone result (Rises (λ h. h.ticket) out.now.values → StandsWithin (λ h. h.ticket) ticket out.now.values from (from + count)
        → list_any (λ h. h.ticket == ticket) out.now.values ≡ false) }
{
    let mut base = from;
    let mut size = count;
    while size > 1 {
        let half = size / 2;
        let middle = base + half;
        if out.get(middle).ticket <= ticket {
            base = middle;
        }
        size -= half;
    }
    if size > 0 && out.get(base).ticket == ticket {
        return Some(base);
    }
    None
}

/// Where the ticket with this number may stand: tickets rise, so it is at most as many after the first one as its number is after that
/// one's, and at most as many before the last one as its number is before that one's. Where all tickets between are out, one of
/// these bounds is its place.
fn out_between<E: Copy>(out: &Queue<OutTicket<E>>, ticket: u64) -> Option<usize>
    ensures found { IfSome result (λ i. (h : _) × (slice_get out.now.values i ≡ Some h) × (h.ticket ≡ ticket)) }
    ensures none { IfNone result (Rises (λ h. h.ticket) out.now.values → list_any (λ h. h.ticket == ticket) out.now.values ≡ false) }
{
    let first = out.first()?.ticket;
    let end = out.len() - 1;
    let high = end.min(ticket.saturating_sub(first) as usize);
    if out.get(high).ticket == ticket {
        return Some(high);
    }
    let low = end.saturating_sub(out.get(end).ticket.saturating_sub(ticket) as usize);
    if out.get(low).ticket == ticket {
        return Some(low);
    }
    out_among(out, ticket, low, (high + 1).saturating_sub(low))
}

/// Where the ticket with this number stands, looked for at each one.
fn out_listed<E: Copy>(out: &Queue<OutTicket<E>>, ticket: u64) -> Option<usize>
    ensures found { IfSome result (λ i. (h : _) × (slice_get out.now.values i ≡ Some h) × (h.ticket ≡ ticket)) }
    ensures none { IfNone result (list_any (λ h. h.ticket == ticket) out.now.values ≡ false) }
{
    for i in 0..out.len() {
        if out.get(i).ticket == ticket {
            return Some(i);
        }
    }
    None
}

// Not inlined, so that a poll of one of the oldest keeps its registers.
/// Where the ticket with this number stands among those that are out, if it is none of the two oldest.
#[inline(never)]
fn out_behind<E: Copy>(out: &Queue<OutTicket<E>>, ticket: u64) -> Option<usize>
    ensures found { IfSome result (λ i. (h : _) × (slice_get out.now.values i ≡ Some h) × (h.ticket ≡ ticket)) }
    ensures none { IfNone result (Rises (λ h. h.ticket) out.now.values → list_any (λ h. h.ticket == ticket) out.now.values ≡ false) }
{
    if out.len() <= FEW {
        return out_listed(out, ticket);
    }
    out_between(out, ticket)
}

/// Where the ticket with this number stands among those that are out. The two oldest are looked at first: their emissions are
/// accepted next.
#[inline]
pub fn out_at<E: Copy>(out: &Queue<OutTicket<E>>, ticket: u64) -> Option<usize>
    ensures found { IfSome result (λ i. (h : _) × (slice_get out.now.values i ≡ Some h) × (h.ticket ≡ ticket)) }
    ensures none { IfNone result (Rises (λ h. h.ticket) out.now.values → list_any (λ h. h.ticket == ticket) out.now.values ≡ false) }
{
    if out.len() == 0 {
        return None;
    }
    if out.get(0).ticket == ticket {
        return Some(0);
    }
    if out.len() == 1 {
        return None;
    }
    if out.get(1).ticket == ticket {
        return Some(1);
    }
    out_behind(out, ticket)
}

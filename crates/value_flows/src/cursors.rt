//! Where the subscriptions of a flow stand.
ghost use Rattle.std.specs.Prelude.{◌≡◌, None, IsTrue, ◌↔◌, IfOk, is_none, replicate, slice_set};
ghost use Rattle.std.specs.List.{All, position};
ghost use Rattle.value_flows.specs.Cursors.{HasRoom};

use std::alloc::{AllocError, Global};
use std::marker::Model;

/// A place for each subscription that may be live at once: the number of its next value, or nothing where the place is free.
#[derive(Drop)]
pub struct Cursors {
    places: Vec<Option<u64>>,
}

impl Model for Cursors {
    ghost use Rattle.std.specs.Prelude.{ℕ, List, Option};

    ghost Value = { List (Option ℕ) };

    ghost view = { λ c. c.places.items };
}

impl Cursors {
    /// So many free places.
    pub(crate) fn new(alloc: Global, count: usize) -> Result<Cursors, AllocError>
        ensures { IfOk result (λ c. c ≡ replicate count None) }
    {
        let places = vec![in alloc; None; count]?;
        Ok(Cursors { places })
    }

    /// The first free place, if there is one.
    pub(crate) fn free(&self) -> Option<usize>
        ensures { result ≡ position is_none self.now }
    {
        first_free(self.places.as_slice())
    }

    /// Moves a place. Past the last one there is none.
    #[tactic(auto, using(crate::proofs::Lists::set_past))]
    pub(crate) fn move_to(&mut self, place: usize, cursor: Option<u64>)
        ensures { self.new ≡ slice_set self.old place cursor }
    {
        let is_past = self.places.len() <= place;
        if is_past {
            return;
        }
        self.places[place] = cursor;
    }

    /// Whether each subscription has fewer values pending than so many, where the next emission has this number.
    pub(crate) fn have_room(&self, next: u64, places: u64) -> bool
        ensures { IsTrue result ↔ All (HasRoom next places) self.now }
    {
        all_have_room(self.places.as_slice(), next, places)
    }
}

fn first_free(cursors: &[Option<u64>]) -> Option<usize>
    ensures { result ≡ position is_none cursors.now }
{
    cursors.iter().position(|cursor| cursor.is_none())
}

fn all_have_room(cursors: &[Option<u64>], next: u64, places: u64) -> bool
    ensures { IsTrue result ↔ All (HasRoom next places) cursors.now }
{
    cursors.iter().all(|cursor| has_room(*cursor, next, places))
}

/// Whether a subscription that stands there has fewer values pending than so many.
fn has_room(cursor: Option<u64>, next: u64, places: u64) -> bool
    ensures { IsTrue result ↔ HasRoom next places cursor }
{
    match cursor {
        Some(cursor) => next.saturating_sub(cursor) < places,
        None => true,
    }
}

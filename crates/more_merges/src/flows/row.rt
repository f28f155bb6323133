//! The latest values of several flows, and what they come to.

ghost use Rattle.std.specs.Prelude.{◌≡◌, ◌≤◌, List, None, Some, IsTrue, IfOk, IfErr, false, refl, length, replicate, vec_len, vec_capacity};
ghost use Rattle.flow_terms.specs.declared.refusal.Refusal.TheVariants.{NoMemory};
ghost use Rattle.more_merges.specs.Row.{whole, latest_after, row_of, combined};

use cold_flow::{Refusal, Sift};
use std::alloc::Global;
use std::marker::Model;

/// A function of a list of values, as a value: what `combine_all` is given in place of Kotlin's lambda of an array.
///
/// Its answer follows from what the value holds and from the values alone, which `gives` names. It takes no memory.
pub trait ApplyAll<T>: Copy {
    /// What it answers.
    type Out: Copy;

    // The answer.
    ghost gives: { Self → List T → Self.Out };

    /// The answer at `values`.
    fn apply_all(&self, values: &[T]) -> Self::Out
        ensures { result ≡ gives self.now values.now };
}

/// The latest value of each flow, where it has given one, and the function of them.
#[derive(Drop)]
pub struct Row<T, G> {
    latest: Vec<Option<T>>,
    // Has room for all of them.
    values: Vec<T>,
    function: G,
}

impl<T, G> Model for Row<T, G> {
    ghost use Rattle.std.specs.Prelude.{◌≤◌, vec_len, vec_capacity};
    ghost use Rattle.more_merges.specs.Row.{Latest};

    ghost Value = { Latest T G };

    ghost view = { λ r. record { latest = r.latest.items; function = r.function } };

    ghost invariant = { λ r. vec_len r.latest ≤ vec_capacity r.values };
}

// Keeps a value as the latest one of the flow at a place.
fn keep_latest<T: Copy>(latest: &mut Vec<Option<T>>, place: usize, value: T)
    ensures latest { latest.new.items ≡ latest_after latest.old.items (place, value) }
    ensures len { vec_len latest.new ≡ vec_len latest.old }
{
    if place < latest.len() {
        latest[place] = Some(value);
    }
}

// Lists the latest values, where each is there.
fn list_all<T: Copy>(latest: &[Option<T>], values: &mut Vec<T>) -> bool
    requires { length latest.now ≤ vec_capacity values.old }
    ensures whole { IsTrue result → whole latest.now ≡ Some values.new.items }
    ensures lacks { result ≡ false → whole latest.now ≡ None }
    ensures capacity { vec_capacity values.new ≡ vec_capacity values.old }
{
    values.clear();
    for value in latest {
        match value {
            Some(value) => values.push_reserved(*value),
            None => return false,
        }
    }
    true
}

impl<T: Copy, G: ApplyAll<T>> Row<T, G> {
    // A row of `count` flows that have given nothing yet.
    pub(crate) fn new(alloc: Global, count: usize, function: G) -> Result<Row<T, G>, Refusal>
        ensures fresh { IfOk result (λ r. r ≡ record { latest = replicate count None; function = function }) }
        ensures refused { IfErr result (λ e. e ≡ NoMemory) }
    {
        let mut latest = Vec::new(alloc);
        latest.resize(count, None)?;
        Ok(Row {
            latest,
            values: Vec::with_capacity(alloc, count)?,
            function,
        })
    }
}

impl<T: Copy, G: ApplyAll<T>> Sift<(usize, T)> for Row<T, G> {
    type Out = G::Out;

    ghost passes = { λ r. combined (G.gives r.function) r.latest };

    ghost keeps = { λ r value. row_of (G.gives r.function) (latest_after r.latest value) };

    ghost after = { λ r value. record { latest = latest_after r.latest value; function = r.function } };

    // Keeps the value. What passes is the function of the latest ones, where each flow has given one.
    fn sift(&mut self, value: (usize, T)) -> Option<G::Out> {
        let (place, latest) = value;
        keep_latest(&mut self.latest, place, latest);
        if list_all(self.latest.as_slice(), &mut self.values) {
            return Some(self.function.apply_all(self.values.as_slice()));
        }
        None
    }

    ghost none = { λ _. refl };

    ghost step = { λ _ _ _. refl };
}

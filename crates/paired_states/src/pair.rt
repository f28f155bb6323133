//! Two new states that one thread watches.

ghost use Rattle.std.specs.Prelude.{◌≡◌, ◌++◌, IfOk, IfErr, MatchOption};
ghost use Rattle.flow_terms.specs.declared.refusal.Refusal.TheVariants.{NoMemory};
ghost use Rattle.state_flow.specs.Calls.{Begins, Ends};
ghost use Rattle.state_flow.specs.Collected.{collected};
ghost use Rattle.state_flow.specs.Views.{opening, giver, taker};
ghost use Rattle.paired_states.specs.Pairing.{Asked, AskedNone, first_of, second_of};

use crate::fresh::Fresh;
use crate::waiting::next_of_two;
use flow_terms::{Refusal, Word};
use state_bell::Bell;
use state_flow::{Collector, StateFlow, StateSeat};
use state_waiting::RungSeat;
use std::alloc::Global;
use std::sync::{Arc, Wait};

/// Who watches two states: the collector of each, and the bell that wakes it. It must be spent, by [`cancel`](PairWatcher::cancel).
pub struct PairWatcher<T: Word, U: Word> {
    /// The first state's.
    pub first: Collector<T>,
    /// The second state's.
    pub second: Collector<U>,
    /// What both states' seats ring.
    pub bell: Arc<Bell>,
}

impl<T: Word, U: Word> PairWatcher<T, U> {
    /// What is new of either state, for which the thread sleeps, as by [`next_of_two`].
    pub fn next(&mut self, rt: &impl Wait) -> Option<Fresh<T, U>>
        ensures has { (collected self.new.first ≡ collected self.old.first ++ first_of result)
            × (collected self.new.second ≡ collected self.old.second ++ second_of result) }
        ensures same_flow { (self.new.first.flow ≡ self.old.first.flow) × (self.new.second.flow ≡ self.old.second.flow) }
        ensures asked { MatchOption result (AskedNone self.old.first.view self.old.second.view self.new.first.view self.new.second.view)
            (λ fresh. Asked self.old.first.view self.old.second.view fresh.first fresh.second self.new.first.view self.new.second.view) }
    {
        next_of_two(rt, &self.bell, &mut self.first, &mut self.second)
    }

    /// Ends the watching, and gives the seats back: what Kotlin does where the coroutine that collects is cancelled.
    pub fn cancel(self) -> (StateSeat<T>, StateSeat<U>)
        ensures has { Ends self.first.view result.0.view × Ends self.second.view result.1.view }
        ensures same_flow { (result.0.flow ≡ self.first.flow) × (result.1.flow ≡ self.second.flow) }
    {
        let PairWatcher {
            first,
            second,
            bell,
        } = self;
        drop(bell);
        (first.cancel(), second.cancel())
    }
}

/// Two new states with one bell: a seat to set each by, and who watches both, which was given nothing yet. Kotlin's
/// `MutableStateFlow(first)` and `MutableStateFlow(second)`, of which somebody collects the `combine`.
///
/// Both seats ring the bell; [`RungSeat::stop`] lets go who watches. Who needs more seats makes states and bell by themselves. Refused as
/// `NoMemory`.
pub fn paired<T: Word, U: Word>(
    alloc: Global,
    first: T,
    second: U,
) -> Result<(RungSeat<T>, RungSeat<U>, PairWatcher<T, U>), Refusal>
    ensures setters { IfOk result (λ made. (made.0.view ≡ giver 1 (opening first 2)) × (made.1.view ≡ giver 1 (opening second 2))) }
    ensures watcher { IfOk result (λ made. Begins (taker 1 (opening first 2)) made.2.first.view × Begins (taker 1 (opening second 2)) made.2.second.view) }
    ensures same_flow { IfOk result (λ made. (made.2.first.flow ≡ made.0.flow) × (made.2.second.flow ≡ made.1.flow)) }
    ensures memory { IfErr result (λ refusal. refusal ≡ NoMemory) }
{
    let bell = Bell::new(alloc)?;
    let (first, first_watched) = seats(alloc, first, &bell)?;
    let (second, second_watched) = seats(alloc, second, &bell)?;
    let watcher = PairWatcher {
        first: first_watched.collect(),
        second: second_watched.collect(),
        bell,
    };
    Ok((first, second, watcher))
}

// A new state: a seat that rings this bell, and one to watch from.
fn seats<T: Word>(
    alloc: Global,
    value: T,
    bell: &Arc<Bell>,
) -> Result<(RungSeat<T>, StateSeat<T>), Refusal>
    ensures has { IfOk result (λ seats. (seats.0.view ≡ giver 1 (opening value 2)) × (seats.1.view ≡ taker 1 (opening value 2)) × (seats.1.flow ≡ seats.0.flow)) }
    ensures memory { IfErr result (λ refusal. refusal ≡ NoMemory) }
{
    let bell = Arc::try_clone(bell)?;
    let mut seat = StateFlow::new(alloc, value, 2)?;
    let watched = seat.take_seat(0)?;
    Ok((RungSeat::over(seat, bell), watched))
}

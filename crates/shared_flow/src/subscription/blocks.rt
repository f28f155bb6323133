//! A subscription takes several values at once.
ghost use Rattle.std.specs.Prelude.{◌≡◌, ◌≢◌, ◌⊎◌, ◌-◌, ◌<◌, ℕ, List, [], ◌++◌, Ok, length, map, vec_capacity, IfOk, IfErr};
ghost use Rattle.flow_terms.specs.declared.refusal.Refusal.TheVariants.{NoMemory};
ghost use Rattle.shared_rounds.specs.declared.round.Round.TheVariants as round;
ghost use Rattle.shared_flow.specs.Blocks.{TookAllFirst, LookedAll, MissedAll, GotAll, GotAllFirst, count_of};
ghost use Rattle.shared_rounds.specs.Entering.{Made};
ghost use Rattle.shared_lane.specs.declared.reader.Taken.TheVariants as taken;
ghost use Rattle.shared_flow.specs.Looks.{MadeRoom, HasMadeRoom, OnlyLooked, OnlyNext};
ghost use Rattle.shared_flow.specs.Preludes.{IsPast};
ghost use Rattle.shared_flow.specs.Parties.{IsSamePrelude, received};

use super::Subscription;
use crate::parker::Parker;
use flow_terms::{Refusal, Word};
use shared_lane::Taken;
use std::alloc::Allocator;
use std::sync::Wait;

// How many values were taken.
fn taken_count(taken: Taken<u64>) -> u64
    ensures { result ≡ count_of taken }
{
    match taken {
        Taken::Value(count) => count,
        Taken::Nothing => 0,
        Taken::Overtaken => 0,
    }
}

impl<T: Word> Subscription<T> {
    /// Takes all values that are there, as many as `out` has room for, and appends them: what [`try_next`](Subscription::try_next)
    /// of one after another comes to, by one receipt, without a lock and without memory. While some of its prelude is left it takes
    /// those alone.
    ///
    /// `Value` says how many: none, where `out` has no room. `Nothing` and `Overtaken` as `try_next` answers them; nothing was
    /// received then, and `out` is as it was. It wakes nobody, as `try_next`.
    pub fn try_next_all<B: Allocator>(&mut self, out: &mut Vec<T, B>) -> Taken<u64>
        ensures has { (values : List T) × (out.new.items ≡ out.old.items ++ values)
            × (received T.read_as self.new ≡ received T.read_as self.old ++ values) }
        ensures prelude { IsSamePrelude self.old self.new }
        ensures same { (self.new.party ≡ self.old.party) × (self.new.number ≡ self.old.number) }
        ensures taken { (values : List T) × (out.new.items ≡ out.old.items ++ values) × TookAllFirst T.read_as self.old (vec_capacity out.old - length out.old.items) result values self.new }
        ensures capacity { vec_capacity out.new ≡ vec_capacity out.old }
    {
        if !self.rest.is_empty() {
            return Taken::Value(self.rest.give_into(out));
        }
        self.reader.try_next_all(self.access.lane(), out)
    }

    /// Receives all values that are pending, as many as `out` has room for, appends them, and returns how many; where none is pending
    /// it waits for one. In Kotlin, a `collect` that takes what is there by the chunk. While some of its prelude is left it takes
    /// those alone.
    ///
    /// Where `out` has no room it returns 0 at once. Refused as [`next`](Subscription::next) is; nothing is received then, and `out`
    /// is as it was.
    pub fn next_all<B: Allocator>(
        &mut self,
        rt: &impl Wait,
        parker: &mut Parker,
        out: &mut Vec<T, B>,
    ) -> Result<u64, Refusal>
        ensures has { (values : List T) × (out.new.items ≡ out.old.items ++ values)
            × (received T.read_as self.new ≡ received T.read_as self.old ++ values) }
        ensures prelude { IsSamePrelude self.old self.new }
        ensures same { self.new.number ≡ self.old.number }
        ensures rounds { OnlyNext self.old.number self.old.party self.new.party }
        ensures full { vec_capacity out.old ≡ length out.old.items → (result ≡ Ok 0) × (self.new ≡ self.old) × (out.new.items ≡ out.old.items) }
        ensures taken { length out.old.items < vec_capacity out.old → IfOk result (λ n. (values : List T) × (out.new.items ≡ out.old.items ++ values) × (n ≡ length values) × (0 < n)
            × GotAllFirst T.read_as self.old (vec_capacity out.old - length out.old.items) values self.new) }
        ensures room { length out.old.items < vec_capacity out.old → IfOk result (λ n. (self.old.rest ≢ []) ⊎ HasMadeRoom self.old self.new) }
        ensures nothing { IfErr result (λ refusal. (refusal ≡ NoMemory) × (out.new.items ≡ out.old.items) × IsPast self.old self.new
            × MissedAll self.old.reader (vec_capacity out.old - length out.old.items) self.new.reader) }
        ensures capacity { vec_capacity out.new ≡ vec_capacity out.old }
    {
        if out.len() == out.capacity() {
            return Ok(0);
        }
        if !self.rest.is_empty() {
            return Ok(self.rest.give_into(out));
        }
        self.next_all_accepted(rt, parker, out)
    }

    // All values that were accepted, where nothing is left of the prelude.
    fn next_all_accepted<B: Allocator>(
        &mut self,
        rt: &impl Wait,
        parker: &mut Parker,
        out: &mut Vec<T, B>,
    ) -> Result<u64, Refusal>
        requires space { length out.old.items < vec_capacity out.old }
        requires past { self.old.rest ≡ [] }
        ensures has { (values : List T) × (out.new.items ≡ out.old.items ++ values)
            × (received T.read_as self.new ≡ received T.read_as self.old ++ values) }
        ensures prelude { IsSamePrelude self.old self.new }
        ensures same { (self.new.number ≡ self.old.number) × (self.new.rest ≡ self.old.rest) }
        ensures rounds { OnlyNext self.old.number self.old.party self.new.party }
        ensures taken { IfOk result (λ n. (values : List T) × (out.new.items ≡ out.old.items ++ values) × (n ≡ length values) × (0 < n)
            × GotAll T.read_as self.old.reader (vec_capacity out.old - length out.old.items) values self.new.reader) }
        ensures room { IfOk result (λ n. HasMadeRoom self.old self.new) }
        ensures nothing { IfErr result (λ refusal. (refusal ≡ NoMemory) × (out.new.items ≡ out.old.items)
            × MissedAll self.old.reader (vec_capacity out.old - length out.old.items) self.new.reader) }
        ensures capacity { vec_capacity out.new ≡ vec_capacity out.old }
    {
        if let Taken::Value(count) = self.look_for_all(rt, out) {
            return Ok(count);
        }
        let value = self.wait_for_next(rt, parker)?;
        out.push_reserved(value);
        let more = self.look_for_all(rt, out);
        Ok(1 + taken_count(more))
    }

    // Looks for all values without the lock. As a look for one it takes the lock where an emission waits that the receipts may help.
    fn look_for_all<B: Allocator>(&mut self, rt: &impl Wait, out: &mut Vec<T, B>) -> Taken<u64>
        requires past { self.old.rest ≡ [] }
        ensures has { (values : List T) × (out.new.items ≡ out.old.items ++ values)
            × (received T.read_as self.new ≡ received T.read_as self.old ++ values) }
        ensures prelude { IsSamePrelude self.old self.new }
        ensures rounds { (self.new.party ≡ self.old.party) ⊎ Made (round.Next self.old.number) self.old.party self.new.party }
        ensures same { (self.new.number ≡ self.old.number) × (self.new.rest ≡ self.old.rest) }
        ensures looked { (words : List ℕ) × (out.new.items ≡ out.old.items ++ map T.read_as words)
            × LookedAll self.old.reader (vec_capacity out.old - length out.old.items) result words self.new.reader }
        ensures room { (k : ℕ) → result ≡ taken.Value k → MadeRoom self.old self.new }
        ensures missed { ((k : ℕ) → result ≢ taken.Value k) → OnlyLooked self.old self.new }
        ensures capacity { vec_capacity out.new ≡ vec_capacity out.old }
    {
        let access = &self.access;
        let track = access.track();
        let taken = self.reader.try_next_all(track.lane(), out);
        if let Taken::Value(_) = taken {
            let waits = access.has_unfinished(track, &mut self.looker, &self.reader);
            if waits {
                self.accept_waiting(rt);
            }
        }
        taken
    }
}

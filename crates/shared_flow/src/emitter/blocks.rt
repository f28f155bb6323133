//! An emitter emits several values at once.
ghost use Rattle.std.specs.Prelude.{◌≡◌, ◌≢◌, ◌⊎◌, ◌≤◌, ◌<◌, [], ◌++◌, None, length, map, IfOk, IfErr};
ghost use Rattle.flow_terms.specs.declared.refusal.Refusal.TheVariants.{NoMemory, Spent, EmitsFull};
ghost use Rattle.shared_flow.specs.Parties.{IsSameEmitter};
ghost use Rattle.shared_flow.specs.Emitted.{emitted, outcomes_of_block, GrewByAll};
ghost use Rattle.shared_flow.specs.Blocks.{TriedAll, EmitsOn, EmitsSome, IsCutShort};

use super::Emitter;
use crate::parker::Parker;
use flow_terms::{Refusal, Word};
use std::marker::Brand;
use std::sync::Wait;

/// How far a list of values was emitted that wasn't emitted to its end, and why.
#[derive(Clone, Copy, Debug, PartialEq, Eq, Drop)]
pub struct CutShort {
    /// How many of the values were emitted, from the first on: those that were accepted, and those that the policy dropped.
    pub emitted: u64,
    /// How many were accepted.
    pub accepted: u64,
    /// Why the next one wasn't.
    pub refusal: Refusal,
}

// How many values were emitted, and how many of them were accepted.
#[derive(Clone, Copy, Drop)]
struct BlockProgress {
    emitted: u64,
    accepted: u64,
}

impl<T: Word> Emitter<T> {
    /// Emits values in order where that can be done at once, up to the first that isn't accepted, and returns how many were: what
    /// [`try_emit`](Emitter::try_emit) of one after another comes to, but nobody comes between them, and it takes the lock once.
    /// Kotlin has no such call. It takes no memory.
    ///
    /// Under `Suspend` it stops where a try would be `Full`, under `DropLatest` where one would be `Dropped`; under `DropOldest` all
    /// are accepted, and each subscription loses what it would have lost. Refused as `Spent` where the numbers below 2^62 are used
    /// up, and none was accepted.
    pub fn try_emit_all(&mut self, rt: &impl Wait, values: &[T]) -> Result<u64, Refusal>
        requires idle { self.old.ticket ≡ None }
        ensures has { emitted self.new ≡ emitted self.old ++ outcomes_of_block (map T.word values.now) result }
        ensures tried { TriedAll self.old (map T.word values.now) result self.new }
        ensures few { IfOk result (λ n. n ≤ length values.now) }
        ensures refused { IfErr result (λ refusal. (refusal ≡ Spent) × (values.now ≢ [])) }
    {
        let mut inside = self.access.enter(rt);
        let answer = inside.shared.try_emit_all(self.id, values);
        self.access
            .leave_block::<T, Brand>(inside, self.id, values, answer);
        answer
    }

    /// Emits values in order, waits until all are emitted, and returns how many were accepted: all, but for those that the policy
    /// dropped. What Kotlin's `emitAll` of a list comes to.
    ///
    /// It tries what is left at once, as [`try_emit_all`](Emitter::try_emit_all) does, then emits the next value as
    /// [`emit`](Emitter::emit) does, which waits, and so on. Where that is refused the answer says how far it came.
    pub fn emit_all(
        &mut self,
        rt: &impl Wait,
        parker: &mut Parker,
        values: &[T],
    ) -> Result<u64, CutShort>
        requires idle { self.old.ticket ≡ None }
        ensures has { GrewByAll (emitted self.old) (map T.word values.now) result (emitted self.new) }
        ensures ends { (self.new.ticket ≡ None) × IsSameEmitter self.old self.new }
        ensures emitted { IfOk result (λ n. EmitsOn self.old (map T.word values.now) n self.new) }
        ensures cut { IfErr result (λ cut. IsCutShort self.old (map T.word values.now) cut self.new) }
        ensures refused { IfErr result (λ cut. (cut.refusal ≡ NoMemory) ⊎ ((cut.refusal ≡ Spent) ⊎ (cut.refusal ≡ EmitsFull))) }
    {
        let mut emitted = 0;
        let mut accepted = 0;
        while emitted < values.len() {
            match self.emit_some(rt, parker, &values[emitted..]) {
                Ok(turn) => {
                    emitted += turn.emitted as usize;
                    accepted += turn.accepted;
                }
                Err(cut) => {
                    return Err(CutShort {
                        emitted: emitted as u64 + cut.emitted,
                        accepted: accepted + cut.accepted,
                        refusal: cut.refusal,
                    });
                }
            }
        }
        Ok(accepted)
    }

    // Emits those of the values that find room at once, and the next one, which may have to be waited for.
    fn emit_some(
        &mut self,
        rt: &impl Wait,
        parker: &mut Parker,
        values: &[T],
    ) -> Result<BlockProgress, CutShort>
        requires idle { self.old.ticket ≡ None }
        requires some { 0 < length values.now }
        ensures ends { (self.new.ticket ≡ None) × IsSameEmitter self.old self.new }
        ensures emitted { IfOk result (λ turn. EmitsSome self.old (map T.word values.now) turn.emitted turn.accepted self.new) }
        ensures cut { IfErr result (λ cut. IsCutShort self.old (map T.word values.now) cut self.new) }
        ensures refused { IfErr result (λ cut. (cut.refusal ≡ NoMemory) ⊎ ((cut.refusal ≡ Spent) ⊎ (cut.refusal ≡ EmitsFull))) }
    {
        let count = match self.try_emit_all(rt, values) {
            Ok(count) => count,
            Err(refusal) => return Err(cut_at(0, refusal)),
        };
        if count as usize == values.len() {
            return Ok(BlockProgress {
                emitted: count,
                accepted: count,
            });
        }
        match self.emit(rt, parker, values[count as usize]) {
            Ok(Some(_)) => Ok(BlockProgress {
                emitted: count + 1,
                accepted: count + 1,
            }),
            Ok(None) => Ok(BlockProgress {
                emitted: count + 1,
                accepted: count,
            }),
            Err(refusal) => Err(cut_at(count, refusal)),
        }
    }
}

// So many values were accepted, and the next one was refused.
fn cut_at(count: u64, refusal: Refusal) -> CutShort
    ensures { result ≡ record { emitted = count; accepted = count; refusal = refusal } }
{
    CutShort {
        emitted: count,
        accepted: count,
        refusal,
    }
}

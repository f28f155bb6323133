//! Emissions by the block, by one who holds the lock.
ghost use Rattle.std.specs.Prelude.{◌≡◌, ◌≢◌, ◌≤◌, [], length, map, take, min, IfOk, IfErr};
ghost use Rattle.flow_terms.specs.declared.refusal.Refusal.TheVariants.{Spent};
ghost use Rattle.shared_lane.specs.Blocks.{TriedAllOn};
ghost use Rattle.shared_lane.specs.Sequencers.{AfterScan, IsSameSequencer, RefusedTry};
ghost use Rattle.shared_rounds.specs.declared.round.Round.TheVariants as round;
ghost use Rattle.shared_rounds.specs.Rounds.{Comes};
ghost use Rattle.shared_rounds.specs.Waking.{SleepOn};

use super::Shared;
use flow_terms::{Refusal, Word};

// How many words a block has at most: they lie on the stack while the lane takes them.
const BLOCK: usize = 64;

// Puts the words of the first values into a block, as many as it has room for, and returns how many.
fn put_words<T: Word>(block: &mut [u64], values: &[T]) -> usize
    requires { length block.old ≡ 64 }
    ensures count { result ≡ min 64 (length values.now) }
    ensures words { take result block.new ≡ map T.word (take 64 values.now) }
{
    let count = values.len().min(BLOCK);
    for index in 0..count {
        block[index] = values[index].to_word();
    }
    count
}

impl Shared {
    /// Emits values in order, up to the first that isn't accepted, and returns how many were.
    pub fn try_emit_all<T: Word>(&mut self, emitter: u32, values: &[T]) -> Result<u64, Refusal>
        ensures does { Comes self.old (round.TryAll emitter (map T.word values.now) result) self.new }
        ensures asleep { SleepOn self.old self.new }
        ensures few { IfOk result (λ n. n ≤ length values.now) }
        ensures refused { IfErr result (λ refusal. (refusal ≡ Spent) × (values.now ≢ [])) }
    {
        let first = self.try_block(emitter, values)?;
        if first < BLOCK as u64 {
            return Ok(first);
        }
        Ok(first + self.try_others(emitter, &values[BLOCK..]))
    }

    // A block of the first values.
    fn try_block<T: Word>(&mut self, emitter: u32, values: &[T]) -> Result<u64, Refusal>
        ensures same { (self.new.name ≡ self.old.name) × IsSameSequencer self.old.sequencer self.new.sequencer × SleepOn self.old self.new }
        ensures refused { IfErr result (λ e. (values.now ≢ []) × AfterScan self.old.sequencer (λ m. RefusedTry m e self.new.sequencer)) }
        ensures tried { IfOk result (λ n. AfterScan self.old.sequencer (λ m. TriedAllOn m emitter (map T.word (take 64 values.now)) n self.new.sequencer)) }
    {
        let mut block = [0; BLOCK];
        let count = put_words(&mut block, values);
        self.sequencer
            .try_emit_all(self.track.lane(), emitter, &block[..count])
    }

    // All blocks after one that was accepted whole, so that no emission waits.
    fn try_others<T: Word>(&mut self, emitter: u32, values: &[T]) -> u64
        requires { self.old.sequencer.waiting ≡ [] }
        ensures same { (self.new.name ≡ self.old.name) × IsSameSequencer self.old.sequencer self.new.sequencer × SleepOn self.old self.new }
        ensures tried { TriedAllOn self.old.sequencer emitter (map T.word values.now) result self.new.sequencer }
    {
        let mut done = 0;
        while done < values.len() {
            let count = self.try_next_block(emitter, &values[done..]) as usize;
            done += count;
            if count < BLOCK {
                return done as u64;
            }
        }
        done as u64
    }

    // A further block: none of it, where the numbers are used up by the blocks before it.
    fn try_next_block<T: Word>(&mut self, emitter: u32, values: &[T]) -> u64
        requires { self.old.sequencer.waiting ≡ [] }
        ensures same { (self.new.name ≡ self.old.name) × IsSameSequencer self.old.sequencer self.new.sequencer × SleepOn self.old self.new }
        ensures tried { TriedAllOn self.old.sequencer emitter (map T.word (take 64 values.now)) result self.new.sequencer }
    {
        match self.try_block(emitter, values) {
            Ok(count) => count,
            Err(_) => 0,
        }
    }
}

//! Callers of the lane.
ghost use Rattle.std.specs.Prelude.{◌≡◌, ◌+◌, ◌<◌, ◌≤◌, ◌++◌, ◌∷◌, [], List, ℕ, Option, length, true, IfOk, IfSome};
ghost use Rattle.shared_lane.specs.Headline.{Lived, given, gave, ReceivesCacheThenLater};
ghost use Rattle.shared_lane.specs.Readers.{IsReaderOf, at};
ghost use Rattle.shared_lane.specs.Sequencers.{IsSequencerOf, next};
ghost use Rattle.shared_lane.specs.Views.{ReaderSeen};
ghost use Rattle.shared_lane.specs.declared.reader.Taken.TheVariants.{Nothing};

use cold_flow::Refusal;
use shared_core::Tried;
use shared_lane::{
    Lane, Reader, Sequencer, Taken, each_reader_receives_cache_then_later,
    ended_reader_is_counted_no_more,
};
use std::alloc::{AllocError, Allocator};

/// Emits a word and tells a reader of it: where the reader finds nothing then, it is past this emission already.
pub fn emitted_and_taken<A: Allocator, B: Allocator>(
    lane: &Lane<B>,
    sequencer: &mut Sequencer<A>,
    reader: &mut Reader,
    word: u64,
) -> Option<Taken<u64>>
    requires { IsSequencerOf lane.now sequencer.old × IsReaderOf lane.now reader.old }
    ensures { IfSome result (λ taken. taken ≡ Nothing → next sequencer.new ≤ at reader.new) }
{
    let Ok(Tried::Accepted(number)) = sequencer.try_emit(lane, 0, word) else {
        return None;
    };
    let mut receipt = sequencer.receipt(lane, 0, number);
    reader.told(lane, &mut receipt);
    Some(reader.try_next(lane))
}

// Keeps the value that was taken, where one was.
fn keep<C: Allocator>(values: &mut Vec<u64, C>, taken: Taken<u64>) -> Result<(), AllocError>
    ensures { IfOk result (λ _. values.new.items ≡ values.old.items ++ given (gave taken ∷ [])) }
{
    if let Taken::Value(word) = taken {
        values.push(word)?;
        return Ok(());
    }
    Ok(())
}

/// Takes values into a list until the reader finds none, or until it was asked so often, and says whether it found none.
pub fn drained<B: Allocator, C: Allocator>(
    lane: &Lane<B>,
    reader: &mut Reader,
    values: &mut Vec<u64, C>,
    turns: u32,
) -> Result<bool, AllocError>
    requires { IsReaderOf lane.now reader.old }
    ensures same { IsReaderOf lane.now reader.new }
    ensures lived { IfOk result (λ _. (calls : List (Option ℕ)) × Lived reader.old calls reader.new × (values.new.items ≡ values.old.items ++ given calls)) }
    ensures nothing { IfOk result (λ nothing. nothing ≡ true → at reader.new ≤ reader.new.shape.first + length reader.new.seen) }
{
    for _turn in 0..turns {
        let taken = reader.try_next(lane);
        keep(values, taken)?;
        if let Taken::Nothing = taken {
            return Ok(true);
        }
    }
    Ok(false)
}

/// Lets a reader in and takes what there is, and says whether it found nothing more: then what it received and what is
/// pending for it are the replay cache, as it was, and all words accepted since, less just those that were dropped.
pub fn taken_from_the_cache<A: Allocator, B: Allocator, C: Allocator>(
    lane: &Lane<B>,
    sequencer: &mut Sequencer<A>,
    values: &mut Vec<u64, C>,
    turns: u32,
) -> Result<(Reader, bool), Refusal>
    requires sequencer { IsSequencerOf lane.now sequencer.old }
    requires empty { values.old.items ≡ [] }
    ensures { IfOk result (λ t. t.1 ≡ true → (start : ReaderSeen) × ReceivesCacheThenLater sequencer.old.cache start t.0 values.new.items) }
{
    each_reader_receives_cache_then_later();
    let mut reader = sequencer.admit(lane)?;
    match drained(lane, &mut reader, values, turns) {
        Ok(nothing) => Ok((reader, nothing)),
        Err(AllocError) => {
            reader.close(lane);
            Err(Refusal::NoMemory)
        }
    }
}

/// Lets a reader in for one attempt, and counts the readers after its end, of which the sequencer is told: fewer than there are
/// places.
pub fn attempted_and_counted<A: Allocator, B: Allocator>(
    lane: &Lane<B>,
    sequencer: &mut Sequencer<A>,
) -> Result<(Taken<u64>, u32), Refusal>
    requires { IsSequencerOf lane.now sequencer.old }
    ensures { IfOk result (λ t. t.1 < lane.now.shape.places) }
{
    ended_reader_is_counted_no_more();
    let mut reader = sequencer.admit(lane)?;
    let taken = reader.try_next(lane);
    let mut closed = reader.close(lane);
    sequencer.told_end(lane, &mut closed);
    Ok((taken, sequencer.live(lane)))
}

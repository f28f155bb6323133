//! A lane's sequencer, with the lane.
ghost use Rattle.std.specs.Prelude.{◌≡◌, ◌<◌, ◌≢◌, [], None, length, slice_get, Some, IfOk, IfErr, IfSome, IfNone, IsOkUnless};
ghost use Rattle.shared_core.specs.Kept.{making_refusal};
ghost use Rattle.shared_lane.specs.Sequencers.{IsSameSequencer, HasNumber, HasTicketNumber, TriedOn, RefusedTry, BegunOn, RefusedStart, AfterScan, IsFresh, AcceptedWaiting, IsStuck, OnlyLoaded};
ghost use Rattle.shared_lane.specs.Blocks.{TriedAllOn};
ghost use Rattle.shared_lane.specs.Polls.{PolledOn, WithdrawnFrom};
ghost use Rattle.shared_lane.specs.Places.{Counted};
ghost use Rattle.flow_terms.specs.declared.refusal.Refusal.TheVariants.{NoMemory};
ghost use Rattle.hillgauze_c.specs.LaneCalls.{IsAdmitted, IsNotAdmitted};

use super::Reading;
use super::reading::reserved;
use flow_terms::{Begun, Emit, Refusal, Ticket, Tried, Withdrawn};
use shared_core::Config;
use shared_lane::{Lane, Sequencer};
use std::alloc::Global;
use std::marker::Model;
use std::sync::Arc;

/// The one party of a lane that emits, which owns the lane together with its readers.
///
/// Contracts see the sequencer.
#[derive(Drop)]
pub struct Sequencing {
    lane: Arc<Lane<Global>, Global>,
    sequencer: Sequencer<Global>,
}

impl Model for Sequencing {
    ghost use Rattle.std.specs.Arc.{arc_value};
    ghost use Rattle.shared_lane.specs.Views.{SequencerSeen};
    ghost use Rattle.shared_lane.specs.Sequencers.{IsSequencerOf};

    ghost Value = { SequencerSeen };

    ghost view = { λ s. s.sequencer };

    ghost invariant = { λ s. IsSequencerOf (arc_value s.lane) s.sequencer };
}

impl Sequencing {
    /// A new lane's sequencer.
    pub fn new(alloc: Global, config: Config) -> Result<Sequencing, Refusal>
        ensures refused { IfSome (making_refusal config) (λ refusal. result ≡ Err refusal) }
        ensures made { IfNone (making_refusal config) (IsOkUnless result NoMemory) }
        ensures fresh { IfOk result (λ q. IsFresh config q) }
    {
        let (lane, sequencer) = Lane::new(alloc, config)?;
        let lane = Arc::new(alloc, lane)?;
        Ok(Sequencing { lane, sequencer })
    }

    /// Emits where there is room.
    pub fn try_emit(&mut self, emitter: u32, word: u64) -> Result<Tried<u64>, Refusal>
        ensures same { IsSameSequencer self.old self.new }
        ensures refused { IfErr result (λ e. AfterScan self.old (λ m. RefusedTry m e self.new)) }
        ensures tried { IfOk result (λ t. AfterScan self.old (λ m. HasNumber m × TriedOn m (emitter, word) t self.new)) }
    {
        self.sequencer.try_emit(&self.lane, emitter, word)
    }

    /// Emits these words in order, up to the first that isn't accepted.
    pub fn try_emit_all(&mut self, emitter: u32, words: &[u64]) -> Result<u64, Refusal>
        ensures same { IsSameSequencer self.old self.new }
        ensures refused { IfErr result (λ e. (words.now ≢ []) × AfterScan self.old (λ m. RefusedTry m e self.new)) }
        ensures tried { IfOk result (λ n. AfterScan self.old (λ m. TriedAllOn m emitter words.now n self.new)) }
    {
        self.sequencer.try_emit_all(&self.lane, emitter, words)
    }

    /// Begins an emission.
    pub fn start_emit(&mut self, emitter: u32, word: u64) -> Result<Begun<u64, Ticket>, Refusal>
        ensures same { IsSameSequencer self.old self.new }
        ensures refused { IfErr result (λ e. AfterScan self.old (λ m. RefusedStart m e self.new)) }
        ensures begun { IfOk result (λ b. AfterScan self.old (λ m. HasNumber m × HasTicketNumber m × BegunOn m (emitter, word) b self.new)) }
    {
        self.sequencer.start_emit(&self.lane, emitter, word)
    }

    /// Asks about an emission with a ticket.
    pub fn poll_emit(&mut self, ticket: Ticket) -> Emit
        ensures same { IsSameSequencer self.old self.new }
        ensures polled { PolledOn self.old ticket.0 result self.new }
    {
        self.sequencer.poll_emit(&self.lane, ticket)
    }

    /// Takes a ticket back.
    pub fn cancel_emit(&mut self, ticket: Ticket) -> Withdrawn<u64>
        ensures { WithdrawnFrom self.old ticket.0 result self.new }
    {
        self.sequencer.cancel_emit(&self.lane, ticket)
    }

    /// Accepts emissions that wait.
    pub fn scan(&mut self) -> u32
        ensures same { IsSameSequencer self.old self.new }
        ensures settled { AcceptedWaiting result self.old self.new }
        ensures stuck { self.new.waiting ≢ [] → IsStuck self.old self.new }
    {
        self.sequencer.scan(&self.lane)
    }

    /// How many readers there are, as this call finds them.
    pub fn live(&mut self) -> u32
        ensures only { OnlyLoaded self.old self.new }
        ensures count { Counted self.old result self.new }
    {
        self.sequencer.live(&self.lane)
    }

    /// Admits a reader.
    pub fn admit(&mut self, alloc: Global) -> Result<Reading, Refusal>
        ensures ok { IfOk result (λ r. IsAdmitted self.old r self.new) }
        ensures err { IfErr result (λ e. IsNotAdmitted self.old e self.new) }
    {
        let block = reserved(alloc)?;
        let lane = Arc::try_clone(&self.lane)?;
        let reader = self.sequencer.admit(&self.lane)?;
        Ok(Reading::over(lane, reader, block))
    }

    /// Empties the replay cache.
    pub fn reset_replay(&mut self)
        ensures { self.new ≡ record self.old { cache = [] } }
    {
        self.sequencer.reset_replay();
    }

    /// How many values the replay cache holds.
    pub fn replay_len(&self) -> u64
        ensures { result ≡ length self.now.cache }
    {
        self.sequencer.replay_len()
    }

    /// The value of the replay cache at this index from the oldest one on.
    pub fn replay_at(&self, index: u64) -> u64
        requires { index < length self.now.cache }
        ensures { slice_get self.now.cache index ≡ Some result }
    {
        self.sequencer.replay_at(index)
    }
}

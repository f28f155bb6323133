//! A lane is made.
ghost use Rattle.std.specs.Prelude.{◌≡◌, ◌≤◌, [], None, max, vec_capacity, IfOk, IfSome, IfNone, IsOkUnless};
ghost use Rattle.shared_core.specs.Kept.{making_refusal};
ghost use Rattle.shared_lane.specs.Law.{IsShape, opening_view};
ghost use Rattle.shared_lane.specs.Layout.{cell_index};
ghost use Rattle.shared_lane.specs.Caches.{drops_values};
ghost use Rattle.shared_lane.specs.Makes.{IsWithinBounds, AreEmpty};
ghost use Rattle.shared_lane.specs.Sequencers.{IsSequencerOf, IsFresh, shape_of};

use super::Sequencer;
use crate::lane::Lane;
use crate::rule::LaneSeat;
use crate::tickets::{Standing, Waiting};
use crate::view::Shape;
use crate::words::Words;
use circular_buffer::HeapCircularBuffer;
use flow_terms::{Policy, Refusal};
use shared_core::Config;
use std::alloc::{AllocError, Allocator};

// Whether a cursor may be moved past a value that was not received.
fn drops(policy: Policy) -> bool
    ensures { result ≡ drops_values policy }
{
    match policy {
        Policy::DropOldest => true,
        Policy::Suspend | Policy::DropLatest => false,
    }
}

// How many cells there are: one at least.
fn cell_count(capacity: u64) -> usize
    requires { capacity ≤ 65536 }
    ensures { result ≡ max capacity 1 }
{
    if capacity == 0 { 1 } else { capacity as usize }
}

// What the words of a lane are made with.
fn shape_for(config: &Config) -> Shape
    requires { IsWithinBounds config.now }
    ensures shape { result ≡ shape_of config.now }
    ensures bounds { IsShape result }
{
    Shape {
        first: config.first,
        places: config.subscribers as usize,
        cells: cell_count(config.replay + config.extra),
        drops: drops(config.policy),
    }
}

// What a sequencer keeps: the replay cache, and the emissions whose tickets are out.
#[derive(Drop)]
struct Tables<A: Allocator> {
    cache: HeapCircularBuffer<u64, A>,
    waiting: Vec<Waiting, A>,
    standing: Vec<Standing, A>,
}

impl<A: Allocator + Clone> Tables<A> {
    // Empty ones, with all the room that they will need.
    fn new(alloc: A, config: &Config) -> Result<Tables<A>, AllocError>
        ensures { IfOk result (λ t. AreEmpty config.now t.cache t.waiting.items t.standing.items (vec_capacity t.waiting) (vec_capacity t.standing)) }
    {
        let emits = config.emits as usize;
        let waiting = Vec::with_capacity(alloc.clone()?, emits)?;
        let standing = Vec::with_capacity(alloc.clone()?, emits)?;
        let cache = HeapCircularBuffer::with_capacity(alloc, config.replay as usize)?;
        Ok(Tables {
            cache,
            waiting,
            standing,
        })
    }
}

impl<A: Allocator> Sequencer<A> {
    // One that has accepted nothing. `cell` is the index of the first number's cell.
    fn fresh(config: &Config, seat: LaneSeat, cell: usize, tables: Tables<A>) -> Sequencer<A>
        requires bounds { IsWithinBounds config.now }
        requires seat { seat.me ≡ (opening_view (shape_of config.now), []) }
        requires cell { cell ≡ cell_index (shape_of config.now) config.now.first }
        requires tables { AreEmpty config.now tables.cache tables.waiting.items tables.standing.items (vec_capacity tables.waiting) (vec_capacity tables.standing) }
        ensures table { result.table ≡ seat.table_id }
        ensures fresh { IsFresh config.now result }
    {
        let Tables {
            cache,
            waiting,
            standing,
        } = tables;
        Sequencer {
            seat,
            tail: config.first,
            cell,
            open_end: 0,
            policy: config.policy,
            capacity: config.replay + config.extra,
            cache,
            subscription: config.first,
            ticket: config.first,
            emits: config.emits as usize,
            waiting,
            standing,
        }
    }
}

impl<A: Allocator + Clone> Lane<A> {
    /// A lane where nothing was accepted and no place is open, and its sequencer: Kotlin's `MutableSharedFlow(..)`.
    ///
    /// Refused as `SharedState::new` is: `TooLarge`, `PolicyNeedsBuffer` or `BadLimit` by the config, else `NoMemory` at most.
    /// Nothing allocates after this call.
    pub fn new(alloc: A, config: Config) -> Result<(Lane<A>, Sequencer<A>), Refusal>
        ensures refused { IfSome (making_refusal config) (λ refusal. result ≡ Err refusal) }
        ensures made { IfNone (making_refusal config) (IsOkUnless result Refusal.NoMemory) }
        ensures fresh { IfOk result (λ t. IsSequencerOf t.0 t.1 × IsFresh config t.1) }
    {
        match config.refusal() {
            Some(refusal) => Err(refusal),
            None => Ok(Lane::allocated(alloc, &config)?),
        }
    }

    // The same, of a config that isn't refused.
    fn allocated(alloc: A, config: &Config) -> Result<(Lane<A>, Sequencer<A>), AllocError>
        requires { IsWithinBounds config.now }
        ensures { IfOk result (λ t. IsSequencerOf t.0 t.1 × IsFresh config.now t.1) }
    {
        let (words, seat) = Words::new(alloc.clone()?, shape_for(config))?;
        let tables = Tables::new(alloc, config)?;
        let cell = words.index_of(config.first);
        let sequencer = Sequencer::fresh(config, seat, cell, tables);
        Ok((Lane::over(words), sequencer))
    }
}

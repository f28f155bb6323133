//! Stages of a pipe: the operators that its values go through.

ghost use Rattle.std.specs.Prelude.{◌≡◌, ℕ, Ok, IsTrue};
ghost use Rattle.std.specs.Option.{option_map};
ghost use Rattle.flow_merge.specs.Combine.{combine_trace};
ghost use Rattle.flow_merge.specs.Zip.{zip_trace};
ghost use Rattle.script_words.specs.Lines.{words_of};
ghost use Rattle.cold_flow.specs.Poll.{Fixes};
ghost use Rattle.cold_flow.specs.Trace.{Trace};
ghost use Rattle.script_commands.specs.Piping.{after_stage, bounded, made_by, sum, trace_of, Comes, ComesOfBoth, IsEnded};
ghost use Rattle.script_commands.specs.Stages.{operation_in, operation_of, operation_by, small_number_at, and_over, concat, add_of, take_of, drop_of};
ghost use Rattle.script_commands.specs.Stages.{done_of, fault_of, last_of, catch_of, zip_of, combine_of, failing_of, concat_of};

use crate::actions::{Adding, Concluding, IntoInner, IsEven, Recovering, Sum, Twice};
use crate::gathered::{Gathered, Stop};
use crate::inner::AtMostTwo;
use crate::source::Source;
use cold_flow::{
    Caught, Finite, Flow, catch_with, distinct, filter, map, on_completion, transform,
};
use flow_merge::{combine, flat_map_concat, zip};
use futures::task::Context;
use script_words::Words;
use std::alloc::Global;

/// A stage of a pipe.
#[derive(Clone, Copy)]
pub enum Stage<'a> {
    /// Adds a number to each value, modulo 2^64: `map`.
    Add(u64),
    /// Keeps the even values: `filter`.
    Even,
    /// Gives each value twice: `transform`.
    Twice,
    /// Keeps so many first values: `take`.
    Take(u32),
    /// Leaves out so many first values: `drop`.
    Drop(u32),
    /// Leaves out what equals the value before it: `distinctUntilChanged`.
    Distinct,
    /// Another end in place of a failure: `catch`.
    Catch(Caught<u64, u64>),
    /// A last value before the end, unless it is a failure: `onCompletion`.
    Done(u64),
    /// The sums of its values and those of a source, pair by pair: `zip`.
    Zip(Source<'a>),
    /// The sums of its latest value and that of a source: `combine`.
    Combine(Source<'a>),
    /// Each value and the next number, or each value and then a fault: `flatMapConcat`.
    Concat(Option<u64>),
}

/// Takes a word that is a number below 2^32.
fn small_number(words: &mut Words<'_>) -> Option<u32>
    ensures { option_map (λ number. (number, words_of words.new.rest.now)) result ≡ small_number_at (words_of words.old.rest.now) }
{
    let number = words.number()?;
    u32::try_from(number).ok()
}

/// The stage, where no word is left.
fn last<'a>(words: &mut Words<'a>, stage: Stage<'a>) -> Option<Stage<'a>>
    ensures { option_map operation_in result ≡ and_over (operation_in stage.entry) (words_of words.old.rest.now) }
{
    words.end()?;
    Some(stage)
}

#[tactic(auto, unfolding(crate::specs::Stages::add_of))]
fn add<'a>(words: &mut Words<'a>) -> Option<Stage<'a>>
    ensures { option_map operation_in result ≡ add_of (words_of words.old.rest.now) }
{
    let amount = words.number()?;
    last(words, Stage::Add(amount))
}

#[tactic(auto, unfolding(crate::specs::Stages::take_of))]
fn take<'a>(words: &mut Words<'a>) -> Option<Stage<'a>>
    ensures { option_map operation_in result ≡ take_of (words_of words.old.rest.now) }
{
    let count = small_number(words)?;
    last(words, Stage::Take(count))
}

#[tactic(auto, unfolding(crate::specs::Stages::drop_of))]
fn drop_first<'a>(words: &mut Words<'a>) -> Option<Stage<'a>>
    ensures { option_map operation_in result ≡ drop_of (words_of words.old.rest.now) }
{
    let count = small_number(words)?;
    last(words, Stage::Drop(count))
}

#[tactic(auto, unfolding(crate::specs::Stages::done_of))]
fn done<'a>(words: &mut Words<'a>) -> Option<Stage<'a>>
    ensures { option_map operation_in result ≡ done_of (words_of words.old.rest.now) }
{
    let value = words.number()?;
    last(words, Stage::Done(value))
}

#[tactic(auto, unfolding(crate::specs::Stages::fault_of))]
fn catch_fault<'a>(words: &mut Words<'a>) -> Option<Stage<'a>>
    ensures { option_map operation_in result ≡ fault_of (words_of words.old.rest.now) }
{
    let fault = words.number()?;
    last(words, Stage::Catch(Caught::Fault(fault)))
}

#[tactic(auto, unfolding(crate::specs::Stages::last_of))]
fn catch_last<'a>(words: &mut Words<'a>) -> Option<Stage<'a>>
    ensures { option_map operation_in result ≡ last_of (words_of words.old.rest.now) }
{
    let value = words.number()?;
    last(words, Stage::Catch(Caught::Last(value)))
}

fn catch<'a>(words: &mut Words<'a>) -> Option<Stage<'a>>
    ensures { option_map operation_in result ≡ catch_of (words_of words.old.rest.now) }
{
    let mut after = *words;
    let first = after.next()?;
    if first == b"end".as_slice() {
        last(&mut after, Stage::Catch(Caught::End))
    } else if first == b"fault".as_slice() {
        catch_fault(&mut after)
    } else {
        catch_last(words)
    }
}

#[tactic(auto, unfolding(crate::specs::Stages::zip_of))]
fn zip_with<'a>(words: &mut Words<'a>) -> Option<Stage<'a>>
    ensures { option_map operation_in result ≡ zip_of (words_of words.old.rest.now) }
{
    let source = Source::parse(*words)?;
    Some(Stage::Zip(source))
}

#[tactic(auto, unfolding(crate::specs::Stages::combine_of))]
fn combine_with<'a>(words: &mut Words<'a>) -> Option<Stage<'a>>
    ensures { option_map operation_in result ≡ combine_of (words_of words.old.rest.now) }
{
    let source = Source::parse(*words)?;
    Some(Stage::Combine(source))
}

#[tactic(auto, unfolding(crate::specs::Stages::failing_of))]
fn concat_failing<'a>(words: &mut Words<'a>) -> Option<Stage<'a>>
    ensures { option_map operation_in result ≡ failing_of (words_of words.old.rest.now) }
{
    let fault = words.number()?;
    last(words, Stage::Concat(Some(fault)))
}

fn concat<'a>(words: &mut Words<'a>) -> Option<Stage<'a>>
    ensures { option_map operation_in result ≡ concat_of (words_of words.old.rest.now) }
{
    let mut after = *words;
    if after.next().is_none() {
        return Some(Stage::Concat(None));
    }
    concat_failing(words)
}

/// The stage that a first word and the words after it say.
fn stage_by<'a>(first: &[u8], words: &mut Words<'a>) -> Option<Stage<'a>>
    ensures { option_map operation_in result ≡ operation_by first.now (words_of words.old.rest.now) }
{
    if first == b"add".as_slice() {
        add(words)
    } else if first == b"even".as_slice() {
        last(words, Stage::Even)
    } else if first == b"twice".as_slice() {
        last(words, Stage::Twice)
    } else if first == b"take".as_slice() {
        take(words)
    } else if first == b"drop".as_slice() {
        drop_first(words)
    } else if first == b"distinct".as_slice() {
        last(words, Stage::Distinct)
    } else if first == b"catch".as_slice() {
        catch(words)
    } else if first == b"done".as_slice() {
        done(words)
    } else if first == b"zip".as_slice() {
        zip_with(words)
    } else if first == b"combine".as_slice() {
        combine_with(words)
    } else if first == b"concat".as_slice() {
        concat(words)
    } else {
        None
    }
}

/// The sums of two flows, pair by pair.
fn zipped<A, B>(
    alloc: Global,
    sides: (A, B),
    room: usize,
    cx: &mut Context<'_>,
) -> Result<Gathered, Stop>
where
    A: Flow<Item = u64, Fault = u64>,
    B: Flow<Item = u64, Fault = u64>,
    A::Running: Finite,
    B::Running: Finite,
    requires left { (t : Trace ℕ ℕ) × Fixes t (A.may sides.0) × IsEnded t }
    requires right { (u : Trace ℕ ℕ) × Fixes u (B.may sides.1) × IsEnded u }
    ensures { ComesOfBoth (A.may sides.0) (B.may sides.1) (zip_trace sum) result }
{
    let (left, right) = sides;
    Gathered::of(alloc, zip(left, right, Sum), room, cx)
}

/// The sums of the latest values of two flows, the first being asked first.
fn combined<A, B>(
    alloc: Global,
    sides: (A, B),
    room: usize,
    cx: &mut Context<'_>,
) -> Result<Gathered, Stop>
where
    A: Flow<Item = u64, Fault = u64>,
    B: Flow<Item = u64, Fault = u64>,
    A::Running: Finite,
    B::Running: Finite,
    requires left { (t : Trace ℕ ℕ) × Fixes t (A.may sides.0) × IsEnded t }
    requires right { (u : Trace ℕ ℕ) × Fixes u (B.may sides.1) × IsEnded u }
    requires prompt { IsTrue (A.prompt sides.0) × IsTrue (B.prompt sides.1) }
    ensures { ComesOfBoth (A.may sides.0) (B.may sides.1) (combine_trace sum) result }
{
    let (left, right) = sides;
    Gathered::of(alloc, combine(left, right, Sum), room, cx)
}

/// The inner flows of what a flow of so many values gives, one after the other.
fn concatenated<A>(
    alloc: Global,
    flow: A,
    fault: Option<u64>,
    many: usize,
    cx: &mut Context<'_>,
) -> Result<Gathered, Stop>
where
    A: Flow<Item = u64, Fault = u64>,
    A::Running: Finite,
    requires { (t : Trace ℕ ℕ) × Fixes t (A.may flow) × IsEnded t }
    ensures { (t : Trace ℕ ℕ) → Fixes t (A.may flow) → Comes (bounded (made_by (concat fault) t)) result }
{
    let room = match fault {
        Some(_) => many.min(1),
        None => many.saturating_mul(2),
    };
    let joined = flat_map_concat(flow, IntoInner(fault)).within::<AtMostTwo>();
    Gathered::of(alloc, joined, room, cx)
}

impl<'a> Stage<'a> {
    /// The stage that all of these words say.
    pub fn parse(mut words: Words<'a>) -> Option<Stage<'a>>
        ensures { option_map operation_in result ≡ operation_of (words_of words.entry.rest.now) }
    {
        let first = words.next()?;
        stage_by(first, &mut words)
    }

    /// What the stage comes to over what was gathered before it: the operator runs over that list and its end, and is
    /// gathered in its turn. A source of its own is gathered first, and stops the stage as it would stop a pipe. `Take(0)` is
    /// refused with `Refusal::NotPositive`, any stage with `Refusal::NoMemory`.
    pub fn run(
        self,
        alloc: Global,
        before: &Gathered,
        cx: &mut Context<'_>,
    ) -> Result<Gathered, Stop>
        ensures { Comes (after_stage (operation_in self.entry) (Ok (trace_of before.now))) result }
    {
        let flow = before.as_flow();
        let many = before.values.len();
        // Where nothing came before, no room is asked for ahead.
        let one_more = many.saturating_add(many.min(1));
        match self {
            Stage::Add(amount) => Gathered::of(alloc, map(flow, Adding(amount)), many, cx),
            Stage::Even => Gathered::of(alloc, filter(flow, IsEven), many, cx),
            Stage::Twice => Gathered::of(alloc, transform(flow, Twice), many.saturating_mul(2), cx),
            Stage::Take(count) => {
                let room = many.min(count as usize);
                Gathered::of(alloc, cold_flow::take(flow, count)?, room, cx)
            }
            Stage::Drop(count) => {
                let room = many.saturating_sub(count as usize);
                Gathered::of(alloc, cold_flow::drop_first(flow, count), room, cx)
            }
            Stage::Distinct => Gathered::of(alloc, distinct(flow), many, cx),
            Stage::Catch(caught) => {
                Gathered::of(alloc, catch_with(flow, Recovering(caught)), one_more, cx)
            }
            Stage::Done(value) => {
                Gathered::of(alloc, on_completion(flow, Concluding(value)), one_more, cx)
            }
            Stage::Zip(source) => {
                let second = source.run(alloc, cx)?;
                let room = many.min(second.values.len());
                zipped(alloc, (flow, second.as_flow()), room, cx)
            }
            Stage::Combine(source) => {
                let second = source.run(alloc, cx)?;
                let room = many.saturating_add(second.values.len());
                combined(alloc, (flow, second.as_flow()), room, cx)
            }
            Stage::Concat(fault) => concatenated(alloc, flow, fault, many, cx),
        }
    }
}

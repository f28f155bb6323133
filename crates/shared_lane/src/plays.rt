//! What each step tells. These types are for the proofs alone.
ghost use Rattle.std.specs.Prelude.{ℕ};
ghost use Rattle.shared_lane.specs.Steps.{witness, noticed, picked, picked_more, took, took_picked, looked, quit, surveyed};
ghost use Rattle.shared_lane.specs.Steps.{filled, filled_next, accepted, accepted_all, dropped, opened, met, handed_out, new_reader};
ghost use Rattle.shared_lane.specs.Steps.{receipt_of, without_reader, only_reader, telling, joined, end_note, hearing_end, spent};

use crate::view::View;
use atomic_table::{Join, Play, Split};
use std::marker::{Brand, PhantomData};

/// A number that only the proof knows.
pub trait Told {
    ghost number: { ℕ };
}

impl Told for Brand {
    ghost number = { 0 };
}

pub struct Notice;

impl<S> Play<S, View> for Notice {
    ghost then = { noticed };
}

pub struct Pick;

impl<S> Play<S, View> for Pick {
    ghost then = { picked };
}

pub struct PickNext;

impl<S> Play<S, View> for PickNext {
    ghost then = { picked_more };
}

pub struct Take;

impl<S> Play<S, View> for Take {
    ghost then = { took };
}

pub struct TakePicked;

impl<S> Play<S, View> for TakePicked {
    ghost then = { took_picked };
}

pub struct Look;

impl<S> Play<S, View> for Look {
    ghost then = { looked };
}

pub struct Quit;

impl<S> Play<S, View> for Quit {
    ghost then = { quit };
}

pub struct Survey;

impl<S> Play<S, View> for Survey {
    ghost then = { surveyed };
}

/// The emitter is the number told.
pub struct Fill<E> {
    emitter: PhantomData<E>,
}

impl<S, E: Told> Play<S, View> for Fill<E> {
    ghost then = { filled E.number };
}

/// The emitter is the number told.
pub struct FillNext<E> {
    emitter: PhantomData<E>,
}

impl<S, E: Told> Play<S, View> for FillNext<E> {
    ghost then = { filled_next E.number };
}

pub struct Accept;

impl<S> Play<S, View> for Accept {
    ghost then = { accepted };
}

pub struct AcceptAll;

impl<S> Play<S, View> for AcceptAll {
    ghost then = { accepted_all };
}

pub struct Lose;

impl<S> Play<S, View> for Lose {
    ghost then = { dropped };
}

/// The opening has the number told.
pub struct Open<O> {
    opening: PhantomData<O>,
}

impl<S, O: Told> Play<S, View> for Open<O> {
    ghost then = { opened O.number };
}

pub struct Meet;

impl<S> Play<S, View> for Meet {
    ghost then = { met };
}

/// A receipt for as many entries as the number told.
pub struct Copied<N> {
    count: PhantomData<N>,
}

impl<N: Told> Split<View> for Copied<N> {
    ghost left = { λ v. v };

    ghost right = { receipt_of N.number };
}

/// All entries.
pub struct CopiedAll;

impl Split<View> for CopiedAll {
    ghost left = { λ v. v };

    ghost right = { λ v. witness v.shape v.seen };
}

/// The reader of the place that is told.
pub struct HandOut<P> {
    place: PhantomData<P>,
}

impl<P: Told> Split<View> for HandOut<P> {
    ghost left = { handed_out P.number };

    ghost right = { new_reader P.number };
}

/// The reader's part.
pub struct Leave;

impl Split<View> for Leave {
    ghost left = { without_reader };

    ghost right = { only_reader };
}

/// The end of a reader.
pub struct CopiedEnd;

impl Split<View> for CopiedEnd {
    ghost left = { λ v. v };

    ghost right = { end_note };
}

pub struct Hear;

impl Join<View> for Hear {
    ghost both = { telling };

    ghost spent = { spent };
}

pub struct Enter;

impl Join<View> for Enter {
    ghost both = { joined };

    ghost spent = { spent };
}

pub struct HearEnd;

impl Join<View> for HearEnd {
    ghost both = { hearing_end };

    ghost spent = { spent };
}

//! The law of the two words, and what each kind of step on them tells the seat that makes it.
use crate::view::View;
use atomic_table::{Join, Play, Split, TableRule};
use flow_terms::Word;
use std::marker::{Brand, PhantomData};

/// The law of a flow that was made with a first value and a number of seats.
pub struct OneHistory;

impl<T: Word> TableRule<(), View<T>, (T, u32)> for OneHistory {
    ghost use Rattle.state_flow.specs.Law.{Rule};
    ghost use Rattle.state_flow.specs.Views.{opening};

    ghost holds = { Rule T.word T.fits };

    ghost first = { λ key. opening key.0 key.1 };
}

/// A load of the value.
pub(crate) struct Look;

impl<T: Word> Play<(), View<T>> for Look {
    ghost use Rattle.state_flow.specs.Steps.{looked};

    ghost then = { looked T.word T.fits };
}

/// A collector's load of the value.
pub(crate) struct Gather;

impl<T: Word> Play<(), View<T>> for Gather {
    ghost use Rattle.state_flow.specs.Steps.{gathered};

    ghost then = { gathered T.word T.fits };
}

/// A swap of the value.
pub(crate) struct Put;

impl<T: Word> Play<(), View<T>> for Put {
    ghost use Rattle.state_flow.specs.Steps.{put};

    ghost then = { put T.word T.fits };
}

/// A compare_exchange of the value.
pub(crate) struct Compare;

impl<T: Word> Play<(), View<T>> for Compare {
    ghost use Rattle.state_flow.specs.Steps.{compared};

    ghost then = { compared T.word T.fits };
}

/// One more collector.
pub(crate) struct Begin;

impl<T> Play<(), View<T>> for Begin {
    ghost use Rattle.state_flow.specs.Steps.{began};

    ghost then = { began };
}

/// One collector fewer.
pub(crate) struct End;

impl<T> Play<(), View<T>> for End {
    ghost use Rattle.state_flow.specs.Steps.{ended};

    ghost then = { ended };
}

/// One more collector, which the seat runs.
pub(crate) struct Launch;

impl<T> Play<(), View<T>> for Launch {
    ghost use Rattle.state_flow.specs.Steps.{launched};

    ghost then = { launched };
}

/// One collector fewer that the seat runs.
pub(crate) struct Cancel;

impl<T> Play<(), View<T>> for Cancel {
    ghost use Rattle.state_flow.specs.Steps.{cancelled};

    ghost then = { cancelled };
}

/// A load of the number of collectors.
pub(crate) struct Tally;

impl<T> Play<(), View<T>> for Tally {
    ghost use Rattle.state_flow.specs.Steps.{tallied};

    ghost then = { tallied };
}

/// How much of a seat's share a new seat gets: each call picks it, since a split has no operand that carries it.
pub(crate) trait GivenShare {
    ghost use Rattle.std.specs.Prelude.{ℕ};

    ghost part: { ℕ };
}

impl GivenShare for Brand {
    ghost part = { 0 };
}

/// A seat gives a part of its share to a new one.
pub(crate) struct Cut<J> {
    of: PhantomData<J>,
}

impl<T, J: GivenShare> Split<View<T>> for Cut<J> {
    ghost use Rattle.state_flow.specs.Views.{giver, taker};

    ghost left = { giver J.part };

    ghost right = { taker J.part };
}

/// A seat takes another's share, and is told what that one had seen.
pub(crate) struct Merge;

impl<T> Join<View<T>> for Merge {
    ghost use Rattle.state_flow.specs.Views.{keeper, spent};

    ghost both = { keeper };

    ghost spent = { spent };
}
